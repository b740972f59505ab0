ghost use Rattle.std.specs.Prelude.{◌≡◌, [], ◌∷◌, IfOk};
ghost use Rattle.std.specs.String.{string_bytes};
ghost use Rattle.load_script.specs.Text as text;

use stab_base::Bytes;
use std::alloc::{AllocError, Global};

fn bytes_of(text: String) -> Bytes
    ensures { result ≡ string_bytes text }
{
    Bytes::from_vec(text.into_bytes())
}

pub(crate) fn fixed(alloc: Global, line: &str) -> Result<Bytes, AllocError>
    ensures { IfOk result (λ made. made ≡ line.now) }
{
    Bytes::from_slice(alloc, line.as_bytes())
}

pub(crate) fn client_name(alloc: Global, client: u8) -> Result<String, AllocError>
    ensures { IfOk result (λ name. string_bytes name ≡ text.client_name client) }
{
    format!(in alloc; "C{client}")
}

pub(crate) fn store_name(alloc: Global, store: u8) -> Result<String, AllocError>
    ensures { IfOk result (λ name. string_bytes name ≡ text.store_name store) }
{
    format!(in alloc; "S{store}")
}

pub(crate) fn client_line(alloc: Global, client: u8) -> Result<Bytes, AllocError>
    ensures { IfOk result (λ line. line ≡ text.client_line client) }
{
    let line = format!(in alloc; "client C{client} - T1,T2,T3")?;
    Ok(bytes_of(line))
}

fn row_text(alloc: Global, row: u8) -> Result<String, AllocError>
    ensures { IfOk result (λ id. string_bytes id ≡ text.row_text row) }
{
    let digits = hex::encode(alloc, [0, 0, 0, 0, 0, row])?;
    format!(in alloc; "00000000-0000-4000-8000-{digits}")
}

pub(crate) fn values_text(
    alloc: Global,
    number: u64,
    len: u64,
    byte: u8,
) -> Result<String, AllocError>
    ensures { IfOk result (λ values. string_bytes values ≡ text.values_text number len byte) }
{
    let digits = hex::encode(alloc, [byte])?;
    format!(in alloc; "{number} r:{len}:{digits}")
}

pub(crate) fn write_line(
    alloc: Global,
    client: u8,
    table: u8,
    row: u8,
    values: &str,
) -> Result<Bytes, AllocError>
    ensures { IfOk result (λ line. line ≡ text.write_line client table row values.now) }
{
    let row = row_text(alloc, row)?;
    let line = format!(in alloc; "write C{client} T{table} {row} {values}")?;
    Ok(bytes_of(line))
}

pub(crate) fn delete_line(
    alloc: Global,
    client: u8,
    table: u8,
    row: u8,
) -> Result<Bytes, AllocError>
    ensures { IfOk result (λ line. line ≡ text.delete_line client table row) }
{
    let row = row_text(alloc, row)?;
    let line = format!(in alloc; "delete C{client} T{table} {row}")?;
    Ok(bytes_of(line))
}

pub(crate) fn sync_line(alloc: Global, client: u8, table: u8) -> Result<Bytes, AllocError>
    ensures { IfOk result (λ line. line ≡ text.sync_line client table) }
{
    let line = format!(in alloc; "sync C{client} T{table}")?;
    Ok(bytes_of(line))
}

pub(crate) fn pull_line(alloc: Global, client: u8, table: u8) -> Result<Bytes, AllocError>
    ensures { IfOk result (λ line. line ≡ text.pull_line client table) }
{
    let line = format!(in alloc; "pull C{client} T{table}")?;
    Ok(bytes_of(line))
}

pub(crate) fn deliver_line(alloc: Global, packet: u64) -> Result<Bytes, AllocError>
    ensures { IfOk result (λ line. line ≡ text.deliver_line packet) }
{
    let line = format!(in alloc; "deliver {packet}")?;
    Ok(bytes_of(line))
}

/// A word and what it is said of.
fn said_of(alloc: Global, word: &str, node: &str) -> Result<Bytes, AllocError>
    ensures { IfOk result (λ line. line ≡ text.said_of word.now node.now) }
{
    let line = format!(in alloc; "{word} {node}")?;
    Ok(bytes_of(line))
}

fn crash_line(alloc: Global, node: &str, step: u64, luck: u64) -> Result<Bytes, AllocError>
    ensures { IfOk result (λ line. line ≡ text.crash_line node.now step luck) }
{
    let line = format!(in alloc; "crash {node} {step} {luck}")?;
    Ok(bytes_of(line))
}

pub(crate) fn crash_lines(
    alloc: Global,
    node: &str,
    line: Bytes,
    step: u64,
    luck: u64,
) -> Result<Vec<Bytes>, AllocError>
    ensures { IfOk result (λ lines. lines.items ≡ text.crash_lines node.now line step luck) }
{
    let hold = said_of(alloc, "hold", node)?;
    let crash = crash_line(alloc, node, step, luck)?;
    let start = said_of(alloc, "start", node)?;
    let work = said_of(alloc, "do", node)?;
    let free = said_of(alloc, "free", node)?;
    Ok(Vec::from_array(alloc, [hold, line, crash, start, work, free])?)
}

pub(crate) fn alone(alloc: Global, line: Bytes) -> Result<Vec<Bytes>, AllocError>
    ensures { IfOk result (λ lines. lines.items ≡ line ∷ []) }
{
    Ok(Vec::from_array(alloc, [line])?)
}
