//! What the nodes have of a row, as the part of a message is weighed by it.
ghost use Rattle.std.specs.Prelude.{◌≡◌, ◌++◌, ◌<◌, ◌∷◌, [], ℕ, suc, List, Some, true, zip, IfOk, IfErr, IfSome, OnOk};
ghost use Rattle.std.specs.BTreeMap as tree;
ghost use Rattle.std.specs.Ordering.{nat_cmp};
ghost use Rattle.step_tables.specs.Chunks.{flat, each_chunk, objects_of, cut};
ghost use Rattle.step_tables.specs.ClientMoves.{TableDisk};
ghost use Rattle.step_tables.specs.Store.{Stored, current_of};
ghost use Rattle.message_parts.specs.Parts.{part_of};
ghost use Rattle.part_tables.specs.Parts.{Part};
ghost use Rattle.part_tables.specs.StoreParts.{Gathering};
ghost use Rattle.part_tables.specs.Arriving as arrivals;
ghost use Rattle.part_store.specs.Calls as at_store;
ghost use Rattle.part_store.specs.View.{IsViewOf, pair_of, under_names};
ghost use Rattle.part_client.specs.Calls as at_client;
ghost use Rattle.part_client.specs.Held.{IsHeldOf};
ghost use Rattle.client_node.specs.HeldRows.{row_held};
ghost use Rattle.store_node.specs.Calls.{IsRow, IsRowAt};
ghost use Rattle.world_tables.specs.World.{owner_of, hosted_at, store_falls, client_falls, chunk_in, schema_at};
ghost use Rattle.world_tables.specs.World as wholes;
ghost use Rattle.world_tables.specs.Ready.{is_table_ready, is_client_ready};
ghost use Rattle.wire_tables.specs.Wire.{Wire};
ghost use Rattle.node_steps.specs.declared.fault.WorldFault.TheVariants.{Memory};
ghost use Rattle.wire_steps.specs.Holds.{Holds, HasGatheredThere, KeepsThere};
ghost use Rattle.wire_steps.specs.Reached.{IsReached};
ghost use Rattle.wire_steps.specs.Steps.{HavePlansBelow};
ghost use Rattle.wire_steps.specs.Views.{Sees};
ghost use Rattle.wire_steps.specs.Delivering.{IsViewFor, IsHeldFor, IsOpenedAt};

use crate::memory::{asks_for_held, asks_for_row};
use crate::parts::{client_of, row_answered, row_asked};
use crate::sending::chunk_of;
use crate::world::World;
use chunker::cut;
use disk_trait::Disk;
use node_steps::{Read, WorldFault};
use part_client::RowHeld;
use part_store::RowView;
use row_value::{Content, SharedBytes};
use stab_base::{Bytes, ChunkName, ClientNo, Names, RowId, TableNo};
use std::alloc::{AllocError, Global};
use step_tables::Yours;
use store_node::WholeRow;
use table_model::Message;

// ---- what a table at its Store has of a row

// Adds the chunks of an object, each under its name.
fn add_chunks(
    alloc: Global,
    size: u32,
    names: &Names,
    object: &SharedBytes,
    chunks: &mut Vec<(Option<ChunkName>, Bytes)>,
) -> Result<(), AllocError>
    requires { 0 < size }
    ensures { OnOk result (chunks.new.items ≡ chunks.old.items ++ under_names (zip names.now (cut size object.now))) }
{
    let mut rest = names.as_slice();
    for bytes in cut(alloc, object.as_slice(), size)?.into_vec() {
        let Some((name, others)) = rest.split_first() else {
            return Ok(());
        };
        chunks.push((Some(*name), bytes))?;
        rest = others;
    }
    Ok(())
}

// The same of each object.
fn add_all_chunks(
    alloc: Global,
    size: u32,
    names: &[Names],
    objects: &[SharedBytes],
    chunks: &mut Vec<(Option<ChunkName>, Bytes)>,
) -> Result<(), AllocError>
    requires { 0 < size }
    ensures { OnOk result (chunks.new.items
        ≡ chunks.old.items ++ under_names (flat (each_chunk size names.now objects.now))) }
{
    let mut rest = names;
    for object in objects {
        let Some((names, others)) = rest.split_first() else {
            return Ok(());
        };
        add_chunks(alloc, size, names, object, chunks)?;
        rest = others;
    }
    Ok(())
}

// The chunks of a row, each under its name.
fn chunks_of(
    alloc: Global,
    size: u32,
    names: &[Names],
    content: &Content,
) -> Result<Vec<(Option<ChunkName>, Bytes)>, AllocError>
    requires { 0 < size }
    ensures { IfOk result (λ made. made.items ≡ under_names (flat (each_chunk size names.now
        (objects_of content.now)))) }
{
    let mut chunks = Vec::new(alloc);
    if let Content::Row { objects, .. } = content {
        add_all_chunks(alloc, size, names, objects.as_slice(), &mut chunks)?;
    }
    Ok(chunks)
}

// Nothing was written to the row, or it isn't looked at.
fn nothing_seen(alloc: Global) -> RowView
    ensures version { result.version ≡ 0 }
    ensures yours { pair_of result.yours ≡ record { number = 0; version = 0 } }
    ensures chunks { result.chunks.items ≡ [] }
{
    RowView {
        version: 0,
        yours: Yours {
            number: 0,
            version: 0,
        },
        chunks: Vec::new(alloc),
    }
}

// A row that is there, for a client.
fn view_there(
    alloc: Global,
    size: u32,
    client: ClientNo,
    found: &WholeRow,
) -> Result<RowView, AllocError>
    requires { 0 < size }
    ensures { (items : List Stored) (row : List ℕ) (item : Stored) → current_of items row ≡ Some item
        → IsRow items row item found.now → IfOk result (IsViewOf size items client row) }
{
    let chunks = chunks_of(alloc, size, found.names.as_slice(), &found.content)?;
    Ok(RowView {
        version: found.version,
        yours: found.yours(client),
        chunks,
    })
}

// What a table has of a row, for a client.
fn view_of(
    alloc: Global,
    size: u32,
    client: ClientNo,
    found: Option<WholeRow>,
) -> Result<RowView, AllocError>
    requires { 0 < size }
    ensures { (items : List Stored) (row : List ℕ) → IsRowAt items row (current_of items row) found
        → IfOk result (IsViewOf size items client row) }
{
    match found {
        Some(found) => view_there(alloc, size, client, &found),
        None => Ok(nothing_seen(alloc)),
    }
}

// ---- what a client holds of a row

// It isn't looked at.
fn nothing_held(alloc: Global) -> RowHeld
    ensures { result.chunk ≡ 1 }
{
    RowHeld {
        position: 0,
        chunk: 1,
        read: 0,
        held: Vec::new(alloc),
    }
}

fn held_of(alloc: Global, found: Option<client_node::RowHeld>) -> RowHeld
    ensures held { (row : List ℕ) (opened : TableDisk) → found ≡ Some (row_held row opened)
        → IsHeldOf opened row result }
    ensures chunk { IfSome found (λ it. 0 < it.chunk) → 0 < result.chunk }
{
    match found {
        Some(it) => RowHeld {
            position: it.position,
            chunk: it.chunk,
            read: it.read,
            held: it.held.into_vec(),
        },
        None => nothing_held(alloc),
    }
}

// ---- reads

impl<D: Disk + Drop> World<D> {
    // The row that the table has to be asked for.
    fn row_wanted(&self, table: TableNo, part: &Message) -> Option<RowId>
        ensures { (gs : List Gathering) (p : Part)
            → HasGatheredThere gs (tree.get nat_cmp self.now.gathered table) → part_of part.now ≡ Some p
            → at_store.needs_row gs p ≡ true → result ≡ Some (at_store.row_of p) }
    {
        if asks_for_row(&self.gathered, self.alloc, table, part) {
            row_asked(part)
        } else {
            None
        }
    }

    // What a table has of a row, for a client.
    fn read_view(
        &mut self,
        table: TableNo,
        client: ClientNo,
        row: &RowId,
    ) -> Result<Read<RowView>, WorldFault>
        requires held { (v : Wire) × IsReached v × Holds D.state v self.old × (is_table_ready v.world table ≡ true) }
        ensures seen { (v : Wire) → IsReached v → Holds D.state v self.old → is_table_ready v.world table ≡ true
            → IfOk result (Sees D.state D.images v (store_falls (owner_of v.world table) v.world)
            (λ view. (hosted : wholes.Hosted) → hosted_at v.world table ≡ Some hosted
            → IsViewOf (chunk_in (schema_at v.world table)) hosted.store.disk.items client row.now view) self.old
            self.new) }
        ensures plans { (n : ℕ) → HavePlansBelow D.state n self.old → HavePlansBelow D.state n self.new }
        ensures memory { IfErr result (λ e. e ≡ Memory) }
    {
        let size = chunk_of(&self.nodes, table);
        match self.nodes.stored_row(table, row)? {
            Read::Found(found) => Ok(Read::Found(view_of(self.alloc, size, client, found)?)),
            Read::Fallen(told) => Ok(Read::Fallen(told)),
        }
    }

    /// What a table has of the row of a part, where that decides what the part comes to.
    pub(crate) fn view(
        &mut self,
        table: TableNo,
        part: &Message,
    ) -> Result<Read<RowView>, WorldFault>
        requires held { (v : Wire) × IsReached v × Holds D.state v self.old × (is_table_ready v.world table ≡ true) }
        ensures seen { (v : Wire) (p : Part) → IsReached v → Holds D.state v self.old
            → is_table_ready v.world table ≡ true → part_of part.now ≡ Some p
            → IfOk result (Sees D.state D.images v (store_falls (owner_of v.world table) v.world) (IsViewFor v table p)
            self.old self.new) }
        ensures plans { (n : ℕ) → HavePlansBelow D.state n self.old → HavePlansBelow D.state n self.new }
        ensures memory { IfErr result (λ e. e ≡ Memory) }
    {
        match self.row_wanted(table, part) {
            Some(row) => self.read_view(table, client_of(part), &row),
            None => Ok(Read::Found(nothing_seen(self.alloc))),
        }
    }

    // The row that the client has to be asked for.
    fn held_wanted(&self, client: ClientNo, part: &Message) -> Option<RowId>
        ensures { (a : arrivals.Arriving) (p : Part) → KeepsThere a (tree.get nat_cmp self.now.arriving client)
            → part_of part.now ≡ Some p → at_client.needs_row a p ≡ true → result ≡ Some (at_client.row_of p) }
    {
        if asks_for_held(&self.arriving, self.alloc, client, part) {
            row_answered(part)
        } else {
            None
        }
    }

    // What a client holds of a row of an opened table.
    fn read_held(
        &mut self,
        client: ClientNo,
        table: TableNo,
        row: &RowId,
    ) -> Result<Read<RowHeld>, WorldFault>
        requires held { (v : Wire) × IsReached v × Holds D.state v self.old × (is_client_ready v.world client ≡ true) }
        ensures seen { (v : Wire) → IsReached v → Holds D.state v self.old → is_client_ready v.world client ≡ true
            → IfOk result (Sees D.state D.images v (client_falls client v.world) (λ held. (0 < held.chunk)
            × ((it : IsOpenedAt v client table) → IsHeldOf it.opened row.now held)) self.old self.new) }
        ensures plans { (n : ℕ) → HavePlansBelow D.state n self.old → HavePlansBelow D.state (suc n) self.new }
        ensures memory { IfErr result (λ e. e ≡ Memory) }
    {
        match self.nodes.held_row(client, table, row)? {
            Read::Found(found) => Ok(Read::Found(held_of(self.alloc, found))),
            Read::Fallen(told) => Ok(Read::Fallen(told)),
        }
    }

    /// What a client holds of the row of a part, where that decides what the part comes to.
    pub(crate) fn held(
        &mut self,
        client: ClientNo,
        table: TableNo,
        part: &Message,
    ) -> Result<Read<RowHeld>, WorldFault>
        requires held { (v : Wire) × IsReached v × Holds D.state v self.old × (is_client_ready v.world client ≡ true) }
        ensures seen { (v : Wire) (p : Part) → IsReached v → Holds D.state v self.old
            → is_client_ready v.world client ≡ true → part_of part.now ≡ Some p
            → IfOk result (Sees D.state D.images v (client_falls client v.world) (IsHeldFor v client table p) self.old
            self.new) }
        ensures plans { (n : ℕ) → HavePlansBelow D.state n self.old → HavePlansBelow D.state (suc n) self.new }
        ensures memory { IfErr result (λ e. e ≡ Memory) }
    {
        match self.held_wanted(client, part) {
            Some(row) => self.read_held(client, table, &row),
            None => Ok(Read::Found(nothing_held(self.alloc))),
        }
    }
}
