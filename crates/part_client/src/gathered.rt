//! A row whose chunks come one by one.
ghost use Rattle.std.specs.Prelude.{◌≡◌, ◌<◌, true, IfOk};
ghost use Rattle.chunker.specs.Sized.{sized};
ghost use Rattle.assemblies.specs.Gathering.{takes, is_whole, chunks_of};
ghost use Rattle.assemblies.specs.Places.{has_places};
ghost use Rattle.assemblies.specs.Travel.{is_sent};
ghost use Rattle.assemblies.specs.Parts.{joined};
ghost use Rattle.step_tables.specs.Chunks.{is_named};
ghost use Rattle.step_tables.specs.Travels.{header_of};
ghost use Rattle.part_tables.specs.ClientParts.{bytes_of, names_in, header_with, has_held};
ghost use Rattle.part_client.specs.Gathered.{nothing_came, is_for, with_chunk, lacks_few};

use crate::headers;
use assemblies::{Sent, awaited_of};
use part_contents::Counted;
use stab_base::{Bytes, ChunkName, RowId, Version};
use std::alloc::{AllocError, Global};
use std::marker::Model;
use table_model::RowHeader;

/// A row by its pieces, with what has come of its chunks that travel.
#[derive(Drop)]
pub(crate) struct Gathered {
    row: RowHeader,
    slots: Counted,
}

impl Model for Gathered {
    ghost use Rattle.message_parts.specs.Parts.{row_head_of};
    ghost use Rattle.part_client.specs.Gathered.{GatheredRow};

    ghost Value = { GatheredRow };

    ghost view = { λ g. record { row = row_head_of g.row; slots = g.slots } };
}

impl Gathered {
    /// Nothing has come.
    pub(crate) fn new(
        alloc: Global,
        chunk: u32,
        sent: Sent,
        row: RowHeader,
    ) -> Result<Gathered, AllocError>
        requires { has_places row.content ≡ true }
        ensures { IfOk result (λ made. made ≡ nothing_came (is_sent sent) chunk row) }
    {
        let awaited = awaited_of(alloc, chunk, &row.content, sent)?;
        let slots = Counted::new(alloc, awaited)?;
        Ok(Gathered { row, slots })
    }

    /// Whether this is its row at this version.
    pub(crate) fn is_for(&self, row: &RowId, key: Version) -> bool
        ensures { result ≡ is_for row.now key self.now }
    {
        self.row.row.cmp(row).is_eq() && self.row.version == key
    }

    /// Whether one chunk at most hasn't come.
    pub(crate) fn lacks_few(&self) -> bool
        ensures { result ≡ lacks_few self.now }
    {
        self.slots.lacks_few()
    }

    /// Takes a chunk. Whether it was taken.
    pub(crate) fn take(&mut self, column: u32, place: u32, bytes: Bytes) -> bool
        ensures row { self.new ≡ with_chunk column place bytes self.old }
        ensures took { result ≡ takes column place bytes self.old.slots }
        ensures last { result ≡ true → is_whole self.new.slots ≡ true → lacks_few self.old ≡ true }
    {
        self.slots.take(column, place, bytes)
    }

    /// Whether each chunk has come.
    pub(crate) fn is_whole(&self) -> bool
        ensures { result ≡ is_whole self.now.slots }
    {
        self.slots.is_whole()
    }

    /// The version of the row.
    pub(crate) fn version(&self) -> Version
        ensures { result ≡ self.now.row.version }
    {
        self.row.version
    }

    /// Which row it is.
    pub(crate) fn row(&self) -> RowId
        ensures { result ≡ self.now.row.row }
    {
        self.row.row
    }
}

/// Whether a row names its chunks, where these have this size.
pub(crate) fn is_named(alloc: Global, chunk: u32, row: &RowHeader) -> Result<bool, AllocError>
    requires { 0 < chunk }
    ensures { IfOk result (λ is. is ≡ is_named chunk (sized row.now.content) (names_in row.now.content)) }
{
    let content = part_contents::sized(alloc, &row.content)?;
    let names = headers::names_in(alloc, &row.content)?;
    row_pieces::is_named(alloc, chunk, &content, &names)
}

impl Gathered {
    /// Whether each chunk that doesn't travel is held, as long as its place.
    pub(crate) fn has_held(
        &self,
        alloc: Global,
        held: &[(Option<ChunkName>, Bytes)],
        sent: Sent,
        chunk: u32,
    ) -> Result<bool, AllocError>
        requires { 0 < chunk }
        ensures { IfOk result (λ has. has ≡ has_held (is_sent sent) chunk held.now self.now.row.content) }
    {
        part_contents::has_held(alloc, held, sent, chunk, &self.row.content)
    }

    /// The header of the row with a content of its lengths alone.
    pub(crate) fn sized_header(&self, alloc: Global) -> Result<step_tables::RowHeader, AllocError>
        ensures { IfOk result (λ made. header_of made ≡ header_with self.now.row (sized self.now.row.content)) }
    {
        let content = part_contents::sized(alloc, &self.row.content)?;
        headers::header_with(alloc, &self.row, content)
    }

    /// The header of the row with the content of the chunks that came, and of those that are held.
    pub(crate) fn joined_header(
        self,
        alloc: Global,
        held: &[(Option<ChunkName>, Bytes)],
        sent: Sent,
    ) -> Result<step_tables::RowHeader, AllocError>
        requires { is_whole self.slots ≡ true }
        ensures { IfOk result (λ made. header_of made ≡ header_with self.row
            (joined (bytes_of held.now) (is_sent sent) self.row.content (chunks_of self.slots))) }
    {
        let Gathered { row, slots } = self;
        let chunks = slots.into_chunks();
        let content = part_contents::joined(alloc, held, sent, &row.content, &chunks)?;
        headers::header_with(alloc, &row, content)
    }
}
