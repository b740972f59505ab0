//! How the chunks of a write are spelled: against those of the row as it was read last.
ghost use Rattle.std.specs.Prelude.{◌≡◌, ◌<◌, ◌^◌, ℕ, List, length, option_copied, IfOk, IfErr};
ghost use Rattle.held_value.specs.declared.local_name.LocalName.{LocalName};
ghost use Rattle.client_journal.specs.Standing.{devs as held_by, writes_of, AreUp, IsReady};
ghost use Rattle.step_tables.specs.Chunks.{flat};
ghost use Rattle.journal_laws.specs.Whole.{whole};
ghost use Rattle.held_contents.specs.Reading.{AreThere, content_read};
ghost use Rattle.client_node.specs.Answers.{IsFault};
ghost use Rattle.client_node.specs.Looks.{Looks};
ghost use Rattle.client_node.specs.Spelling.{cuts_of, SpellsContent, IsFewChunks};

use crate::fault::CallFault;
use client_journal::Journal;
use disk_trait::Disk;
use held_contents::{cut_content, read_chunks, read_whole, spell};
use held_value::{HeldContent, Shadow};
use row_value::{Content, Pieces};
use std::alloc::Global;

/// A content whole, and the pieces that spell its chunks.
#[derive(Drop)]
pub(crate) struct Spelled {
    pub(crate) content: Content,
    pub(crate) pieces: Pieces,
}

/// The content of a row that was read.
pub(crate) fn content_read(shadow: &Option<Shadow>) -> Option<&HeldContent>
    ensures { option_copied result ≡ content_read shadow.now }
{
    match shadow {
        None => None,
        Some(row) => Some(&row.content),
    }
}

/// The pieces that spell the chunks of a content, in chunks of a size, against what was read last.
pub(crate) fn spell_content<D: Disk + Drop>(
    alloc: Global,
    devs: &mut Journal<D>,
    size: u32,
    shadow: &Option<Shadow>,
    content: &Content,
) -> Result<Pieces, CallFault>
    requires up { AreUp devs.old }
    requires ready { IsReady D.state devs.old (writes_of devs.old) }
    requires size { 0 < size }
    requires few { length (flat (cuts_of size content.now)) < 2 ^ 32 }
    ensures looks { Looks D.state D.images devs.old devs.new result }
    ensures spells { IfOk result (SpellsContent (held_by D.state devs.old) size shadow.now content.now) }
    ensures refused { IfErr result IsFault }
{
    let read = read_chunks(alloc, devs, content_read(shadow))?;
    let now = cut_content(alloc, size, content)?;
    let pieces = spell(alloc, &read, &now)?;
    Ok(pieces)
}

/// A held content, whole, with the pieces that spell it so.
pub(crate) fn spell_held<D: Disk + Drop>(
    alloc: Global,
    devs: &mut Journal<D>,
    size: u32,
    shadow: &Option<Shadow>,
    held: &HeldContent,
) -> Result<Spelled, CallFault>
    requires up { AreUp devs.old }
    requires ready { IsReady D.state devs.old (writes_of devs.old) }
    requires size { 0 < size }
    requires few { IsFewChunks (held_by D.state devs.old) size held.now }
    ensures looks { Looks D.state D.images devs.old devs.new result }
    ensures whole { IfOk result (λ spelled. (meaning : LocalName → List ℕ)
        → AreThere meaning (held_by D.state devs.old) held.now → spelled.content ≡ whole meaning held.now) }
    ensures spells { IfOk result (λ spelled. SpellsContent (held_by D.state devs.old) size shadow.now spelled.content
        spelled.pieces) }
    ensures refused { IfErr result IsFault }
{
    let content = read_whole(alloc, devs, held)?;
    let pieces = spell_content(alloc, devs, size, shadow, &content)?;
    Ok(Spelled { content, pieces })
}
