//! What a table's devices hold is what the Store's step table says of its disk: the writes of an update and of a
//! recovery are the tasks of its agendas.
#![tactic(auto)]

ghost use Rattle.std.specs.Prelude.{◌≡◌, ℕ, ◌+◌, ◌<◌, ◌^◌, List, [], ◌∷◌, Option, Some, None, is_some, Ok, length};
ghost use Rattle.std.specs.Prelude.{true};
ghost use Rattle.std.specs.Prelude.{IfSome, option_map};
ghost use Rattle.stab_base.specs.declared.chunk_name.ChunkName.{ChunkName};
ghost use Rattle.stab_base.specs.declared.node.Node.{Node};
ghost use Rattle.stab_base.specs.declared.row_version.RowVersion.{RowVersion};
ghost use Rattle.row_value.specs.declared.schema.Schema.{Schema};
ghost use Rattle.row_value.specs.declared.pieces.Piece.TheVariants.{Keep, Fresh};
ghost use Rattle.row_value.specs.declared.pieces.PieceContent.TheVariants.{Row};
ghost use Rattle.row_value.specs.Fit.{fit_of};
ghost use Rattle.value_codec.specs.SchemaSpelling.{HasSchemaSpelling};
ghost use Rattle.std.specs.List.Sorted.{IsStrictlySortedBy};
ghost use Rattle.chunk_store.specs.Payload.{name_cmp};
ghost use Rattle.row_store.specs.declared.stored.StoredRow.{StoredRow};
ghost use Rattle.row_store.specs.Data.{IsTableVersion, IsNextChanged, row_of};
ghost use Rattle.row_store.specs.Spelling.{IsClient, HasStoredSpelling};
ghost use Rattle.store_commit.specs.Agenda.{update_writes, recovery_writes, AreLeftovers};
ghost use Rattle.store_commit.specs.Devs.{Devs, PutTable};
ghost use Rattle.store_commit.specs.Devs as writes;
ghost use Rattle.store_commit.specs.NamedChunks.{NamedChunks};
ghost use Rattle.store_commit.specs.Update.{IsUpdate, entry_for, stored_for};
ghost use Rattle.table_model.specs.declared.table_state.TableState.{TableState};
ghost use Rattle.step_tables.specs.Chunks.{rising, chunks_of, is_spelled};
ghost use Rattle.step_tables.specs.Messages.{Request};
ghost use Rattle.step_tables.specs.Store.{Stored, current_of, next_changed};
ghost use Rattle.step_tables.specs.StoreMoves.{StoreDisk, item_for, accepting, recovering, reopening, yours_in};
ghost use Rattle.step_tables.specs.StoreMoves.{keeps_there, new_disk, beside_task, PutState, Open, PutChunk, Put};
ghost use Rattle.step_tables.specs.StoreMoves.{DropChunk, Close};
ghost use Rattle.step_tables.specs.StoreMoves as moves;
ghost use Rattle.device_laws.specs.Stands.{Stands, Follows, HaveWords, pair_in, update_for, state_number, stored_terms};
ghost use Rattle.device_laws.specs.Reads.{Reads, row_version_of};
ghost use Rattle.device_laws.specs.Worked.{nothing_in, small, holding, first_row, second_row};
ghost use Rattle.device_laws.specs.Worked.{first_chunks, second_chunks, chunks_too_many, chunks_too_few, row_id, name};
ghost use Rattle.device_laws.specs.Worked.{first_disk, second_disk, second_request, second_item, without_last, changes};

/// The devices of a table that stand for a disk have named chunks. (Does nothing: its clauses are laws.)
pub fn devices_have_named_chunks()
    ensures { (schema : Schema) (d : Devs) (disk : StoreDisk) → 0 < schema.chunk → Stands schema d disk
        → (meaning : ChunkName → List ℕ) × NamedChunks meaning d }
{}

/// A request that a table takes on, which spells its chunks and keeps none that its row hasn't: what it writes to the
/// devices are the tasks of the step table's agenda, and the devices stand for the agenda's disk before and behind each
/// of them. (Does nothing: its clauses are laws.)
pub fn updates_follow_the_table()
    ensures update { (schema : Schema) (d : Devs) (disk : StoreDisk) (request : Request)
        → HasSchemaSpelling schema → Stands schema d disk → disk.pending ≡ None → IsClient request.client
        → fit_of schema request.content ≡ Ok tt → HaveWords request.content
        → IfSome (row_of d.held request.row) HasStoredSpelling
        → is_spelled schema.chunk request.content request.pieces ≡ true
        → keeps_there schema.chunk disk.items request ≡ true
        → IsUpdate d (update_for schema.chunk request) }
    ensures follows { (schema : Schema) (d : Devs) (disk : StoreDisk) (request : Request) (from : Node) (table : ℕ)
        → 0 < schema.chunk → IsClient request.client → request.number < 2 ^ 64 → length disk.items + 1 < 2 ^ 64
        → Stands schema d disk → disk.pending ≡ None
        → is_spelled schema.chunk request.content request.pieces ≡ true
        → keeps_there schema.chunk disk.items request ≡ true
        → let update = update_for schema.chunk request in
        let item = item_for disk.items request in
        let version = length disk.items + 1 in
        Follows schema d (update_writes (entry_for d version update) update.fresh (stored_for d version update)) disk
        (accepting schema.chunk table disk.items from request item) }
    ensures version { (schema : Schema) (d : Devs) (disk : StoreDisk) → Stands schema d disk
        → IsTableVersion d.held (length disk.items) }
{}

/// A start: what it writes to the devices are the tasks of the step table's recovery, and the devices stand for its
/// disk before and behind each of them. (Does nothing: its clauses are laws.)
pub fn recoveries_follow_the_table()
    ensures left { (schema : Schema) (d : Devs) (disk : StoreDisk) → 0 < schema.chunk → Stands schema d disk
        → AreLeftovers d (rising disk.left) }
    ensures only { (schema : Schema) (d : Devs) (disk : StoreDisk) (names : List ChunkName) → Stands schema d disk
        → AreLeftovers d names → IsStrictlySortedBy name_cmp names → names ≡ rising disk.left }
    ensures open { (schema : Schema) (d : Devs) (disk : StoreDisk) (store table : ℕ) (pending : Stored)
        → 0 < schema.chunk → Stands schema d disk → disk.pending ≡ Some pending
        → Follows schema d (recovery_writes (rising disk.left) (is_some d.pending)) disk (recovering store table disk) }
    ensures closed { (schema : Schema) (d : Devs) (disk : StoreDisk) (store table : ℕ)
        → Stands schema d disk → disk.pending ≡ None
        → Follows schema d (recovery_writes (rising disk.left) (is_some d.pending)) disk (reopening store table) }
{}

/// A row of the devices gives the content, the version and the last writes of its last item; there is none where the
/// disk has no item of the row. (Does nothing: its clauses are laws.)
pub fn rows_give_their_items()
    ensures row { (schema : Schema) (d : Devs) (disk : StoreDisk) (row : List ℕ) (item : Stored)
        → 0 < schema.chunk → Stands schema d disk → current_of disk.items row ≡ Some item
        → (stored : StoredRow) × (row_of d.held row ≡ Some stored) × (stored.version ≡ item.entry.version)
        × Reads d stored.content item.content
        × ((client : ℕ) → pair_in stored.pairs client ≡ yours_in disk.items client row) }
    ensures no_row { (schema : Schema) (d : Devs) (disk : StoreDisk) (row : List ℕ)
        → 0 < schema.chunk → Stands schema d disk → current_of disk.items row ≡ None → row_of d.held row ≡ None }
{}

/// The row of the devices with the least version above a position is that of the item that the step table answers.
/// (Does nothing: its clauses are laws.)
pub fn the_next_change_follows_the_table()
    ensures next { (schema : Schema) (d : Devs) (disk : StoreDisk) (position : ℕ) (next : Option RowVersion)
        → Stands schema d disk → IsNextChanged d.held position next
        → next ≡ option_map row_version_of (next_changed position disk.items) }
    ensures last { (schema : Schema) (d : Devs) (disk : StoreDisk) (position : ℕ) (item : Stored)
        → Stands schema d disk → next_changed position disk.items ≡ Some item
        → current_of disk.items item.entry.row ≡ Some item }
{}

/// What is put beside the rows, the table's state or a client's subscription: the one write is the one task of the step
/// table's agenda, and the devices stand for its disk before and behind it. (Does nothing: its clauses are laws.)
pub fn puts_beside_follow_the_table()
    ensures state { (schema : Schema) (d : Devs) (disk : StoreDisk) (table : ℕ) (state : TableState)
        → Stands schema d disk
        → Follows schema d (PutTable schema (state_number state) ∷ []) disk
        (beside_task table (PutState state) ∷ []) }
    ensures sub { (schema : Schema) (d : Devs) (disk : StoreDisk) (table client : ℕ) (terms : Option moves.Terms)
        → Stands schema d disk
        → Follows schema d (writes.PutSub client (option_map stored_terms terms) ∷ []) disk
        (beside_task table (moves.PutSub client terms) ∷ []) }
{}

/// A table that was just declared has no row, and no subscription. (Does nothing: its clause is a law.)
pub fn a_table_without_a_row_stands()
    ensures { (schema : Schema) (state : TableState) → Stands schema (nothing_in schema state) (new_disk state) }
{}

/// A row with two objects in chunks of two bytes, written twice: the second write keeps two chunks, drops one and
/// brings one. (Does nothing: its clauses are laws.)
pub fn a_small_table_is_worked_out()
    ensures first { Stands small (holding first_row first_chunks) first_disk }
    ensures second { Stands small (holding second_row second_chunks) second_disk }
    ensures chunks { chunks_of 2 second_disk.items row_id
        ≡ ((name 1 0, 1 ∷ 2 ∷ []) ∷ (name 2 0, 5 ∷ []) ∷ []) ∷ ((name 1 2, 4 ∷ []) ∷ []) ∷ [] }
    ensures spelled { is_spelled 2 second_request.content second_request.pieces ≡ true }
    ensures there { keeps_there 2 first_disk.items second_request ≡ true }
    ensures update { update_for 2 second_request ≡ record {
      row = row_id;
      client = 3;
      number = 2;
      base = 1;
      content = Row [] (record { len = 3; pieces = Keep (name 1 0) ∷ Fresh 0 ∷ [] }
          ∷ record { len = 1; pieces = Keep (name 1 2) ∷ [] } ∷ []);
      fresh = (5 ∷ []) ∷ [];
    } }
    ensures tasks { (from : Node) → changes (accepting 2 1 first_disk.items from second_request second_item)
        ≡ Open second_item ∷ PutChunk (name 2 0)
        ∷ Put second_item (name 1 0 ∷ name 2 0 ∷ name 1 2 ∷ []) (name 1 1 ∷ [])
        ∷ DropChunk (name 1 1) ∷ Close ∷ [] }
{}

/// Devices that are close to those of the small table and don't stand for its disk: with a chunk too many, with one too
/// few, with the row of an older version, and without the client's last write. (Does nothing: its clauses are laws.)
pub fn devices_that_do_not_stand()
    ensures too_many { Stands small (holding second_row chunks_too_many) second_disk → ⊥ }
    ensures too_few { Stands small (holding second_row chunks_too_few) second_disk → ⊥ }
    ensures older { (chunks : List (ChunkName × List ℕ)) → Stands small (holding first_row chunks) second_disk → ⊥ }
    ensures without_last { Stands small (holding without_last second_chunks) second_disk → ⊥ }
{}
