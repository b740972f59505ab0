//! A request that waits for fragments.
ghost use Rattle.std.specs.Prelude.{◌≡◌, ◌<◌, ◌&&◌, true, map, IfOk};
ghost use Rattle.assemblies.specs.declared.sent.Sent.TheVariants as sents;
ghost use Rattle.assemblies.specs.Travel.{is_sent};
ghost use Rattle.assemblies.specs.Places.{awaited_of, has_places};
ghost use Rattle.assemblies.specs.Gathering.{waiting, is_whole};
ghost use Rattle.chunker.specs.Sized.{sized};
ghost use Rattle.row_value.specs.declared.pieces.PieceObject.{PieceObject};
ghost use Rattle.step_tables.specs.Chunks.{is_spelled};
ghost use Rattle.step_tables.specs.Messages as ends;
ghost use Rattle.step_tables.specs.Travels.{message_of};
ghost use Rattle.part_contents.specs.Counted.{lacks_few};
ghost use Rattle.part_tables.specs.Parts.{pieces_in};
ghost use Rattle.part_tables.specs.StoreParts.{request_with, waits_for};
ghost use Rattle.message_parts.specs.Parts.{fragment_of};
ghost use Rattle.part_store.specs.Gathered.{head_in, gathering_in, is_of_request};
ghost use Rattle.part_store.specs.Calls.{grown};

use assemblies::{PieceContent, PieceObject, Sent, awaited_of};
use part_contents::{Counted, sized};
use row_value::{Content, Pieces};
use std::alloc::{AllocError, Global};
use step_tables::ObjectPieces;
use table_model::{ObjectFragment, SyncRequest};

/// A request by its pieces, with what has come of its chunks that travel.
#[derive(Drop)]
pub(crate) struct Waiting {
    pub(crate) head: SyncRequest,
    pub(crate) came: Counted,
}

fn copy(pieces: &Pieces) -> Result<Pieces, AllocError>
    ensures { IfOk result (λ made. made ≡ pieces.now) }
{
    pieces.clone()
}

fn pieces_of(alloc: Global, objects: &[PieceObject]) -> Result<ObjectPieces, AllocError>
    ensures { IfOk result (λ made. made ≡ map (λ (object : PieceObject). object.pieces) objects.now) }
{
    let mut made = ObjectPieces::new(alloc);
    for object in objects {
        made.push(copy(&object.pieces)?)?;
    }
    Ok(made)
}

// The pieces of each object.
fn pieces_in(alloc: Global, content: &PieceContent) -> Result<ObjectPieces, AllocError>
    ensures { IfOk result (λ made. made ≡ pieces_in content.now) }
{
    match content {
        PieceContent::Gone => Ok(ObjectPieces::new(alloc)),
        PieceContent::Row { objects, .. } => pieces_of(alloc, objects.as_slice()),
    }
}

/// Whether a request spells its chunks, where these have this size.
pub(crate) fn is_spelled(alloc: Global, chunk: u32, head: &SyncRequest) -> Result<bool, AllocError>
    requires { 0 < chunk }
    ensures { IfOk result (λ is. is ≡ is_spelled chunk (sized head.now.content) (pieces_in head.now.content)) }
{
    let content = sized(alloc, &head.content)?;
    let pieces = pieces_in(alloc, &head.content)?;
    row_pieces::is_spelled(alloc, chunk, &content, &pieces)
}

/// The request with this content.
pub(crate) fn request_with(
    alloc: Global,
    head: &SyncRequest,
    content: Content,
) -> Result<step_tables::Message, AllocError>
    ensures { IfOk result (λ made. message_of made ≡ ends.SyncRequest (request_with (head_in head.now) content)) }
{
    Ok(step_tables::Message::SyncRequest(step_tables::SyncRequest {
        client: head.client,
        token: 0,
        table: head.table,
        row: head.row,
        number: head.number,
        base: head.base,
        content,
        pieces: pieces_in(alloc, &head.content)?,
    }))
}

impl Waiting {
    /// Nothing has come.
    pub(crate) fn new(alloc: Global, chunk: u32, head: SyncRequest) -> Result<Waiting, AllocError>
        requires { has_places head.content ≡ true }
        ensures { IfOk result (λ made. gathering_in made ≡ record {
          head = head_in head;
          slots = waiting (awaited_of (is_sent sents.Fresh) chunk head.content);
        }) }
    {
        let awaited = awaited_of(alloc, chunk, &head.content, Sent::Fresh)?;
        let came = Counted::new(alloc, awaited)?;
        Ok(Waiting { head, came })
    }

    fn is_for(&self, f: &ObjectFragment) -> bool
        ensures { result ≡ is_of_request (fragment_of f.now) (gathering_in self.now) }
    {
        self.head.row.cmp(&f.row).is_eq() && self.head.number == f.key
    }

    /// Whether a fragment may be the last one.
    pub(crate) fn may_complete(&self, f: &ObjectFragment) -> bool
        ensures { result ≡ (is_of_request (fragment_of f.now) (gathering_in self.now) && lacks_few self.now.came) }
    {
        self.is_for(f) && self.came.lacks_few()
    }

    /// Takes a fragment, if it is waited for. Whether it was, and each chunk has come then.
    pub(crate) fn take(&mut self, f: ObjectFragment) -> bool
        ensures grown { gathering_in self.new ≡ grown (fragment_of f) (gathering_in self.old) }
        ensures done { result ≡ (waits_for (fragment_of f) (gathering_in self.old) && is_whole self.new.came) }
        ensures last { result ≡ true
            → (is_of_request (fragment_of f) (gathering_in self.old) && lacks_few self.old.came) ≡ true }
    {
        if !self.is_for(&f) {
            return false;
        }
        if !self.came.take(f.column, f.place, f.bytes) {
            return false;
        }
        self.came.is_whole()
    }
}
