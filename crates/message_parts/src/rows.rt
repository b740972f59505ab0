//! Rows that go to a client: a header by pieces, and the chunks behind it.
ghost use Rattle.std.specs.Prelude.{◌≡◌, true, Some, map, option_map, IfOk};
ghost use Rattle.assemblies.specs.Travel.{is_sent};
ghost use Rattle.step_tables.specs.Travels.{header_of};
ghost use Rattle.part_tables.specs.Parts.{row_head};
ghost use Rattle.message_parts.specs.Parts.{row_header_at};
ghost use Rattle.message_parts.specs.Splits.{has_words, row_has_words};
ghost use Rattle.message_parts.specs.Fragments.{chunks_of_row, down};

use crate::fragments::{Way, fragments};
use crate::spelled::{kept, spelled};
use assemblies::{Sent, awaited_of};
use stab_base::{ClientNo, TableNo};
use std::alloc::{AllocError, Global};
use table_model::{Message, RowHeader, Yours};

// A row's header, its content by the names of its chunks.
fn row_head(alloc: Global, header: &step_tables::RowHeader) -> Result<RowHeader, AllocError>
    requires { has_words header.now.content header.now.names ≡ true }
    ensures { IfOk result (λ made. made ≡ row_header_at (row_head (header_of header.now))) }
{
    let pieces = kept(alloc, &header.names)?;
    Ok(RowHeader {
        row: header.row,
        version: header.version,
        yours: Yours {
            number: header.yours.number,
            version: header.yours.version,
        },
        content: spelled(alloc, &header.content, &pieces)?,
    })
}

// A row's header and the chunks that are sent behind it.
fn row_by(
    alloc: Global,
    chunk: u32,
    sent: Sent,
    client: ClientNo,
    table: TableNo,
    header: &step_tables::RowHeader,
) -> Result<(RowHeader, Vec<Message>), AllocError>
    requires { has_words header.now.content header.now.names ≡ true }
    ensures head { IfOk result (λ made. made.0 ≡ row_header_at (row_head (header_of header.now))) }
    ensures chunks { IfOk result (λ made. made.1.items
        ≡ down (chunks_of_row (is_sent sent) chunk client table (Some (header_of header.now)))) }
{
    let head = row_head(alloc, header)?;
    let awaited = awaited_of(alloc, chunk, &head.content, sent)?;
    let way = Way {
        client,
        table,
        row: header.row,
        down: true,
        key: header.version,
    };
    let chunks = fragments(alloc, chunk, &way, &header.content, awaited.as_slice())?;
    Ok((head, chunks))
}

/// The header of a row, if there is one, and the chunks that are sent behind it.
pub(crate) fn row_parts(
    alloc: Global,
    chunk: u32,
    sent: Sent,
    client: ClientNo,
    table: TableNo,
    header: &Option<step_tables::RowHeader>,
) -> Result<(Option<RowHeader>, Vec<Message>), AllocError>
    requires { row_has_words (option_map header_of header.now) ≡ true }
    ensures head { IfOk result (λ made.
        made.0 ≡ option_map row_header_at (option_map row_head (option_map header_of header.now))) }
    ensures chunks { IfOk result (λ made. made.1.items
        ≡ down (chunks_of_row (is_sent sent) chunk client table (option_map header_of header.now))) }
{
    match header {
        None => Ok((None, Vec::new(alloc))),
        Some(header) => {
            let (head, chunks) = row_by(alloc, chunk, sent, client, table, header)?;
            Ok((Some(head), chunks))
        }
    }
}
