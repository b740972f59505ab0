ghost use Rattle.std.specs.Prelude.{◌≡◌, ◌<◌, ◌≤◌, ◌^◌, Bool, ℕ, List, Some, None};
ghost use Rattle.stab_base.specs.Codec.{IsBytes};
ghost use Rattle.stab_base.specs.declared.limits.TheConstants.{NUMBER_MAX};
ghost use Rattle.stab_base.specs.declared.chunk_name.ChunkName.{ChunkName};
ghost use Rattle.row_value.specs.declared.schema.Schema.{Schema};
ghost use Rattle.value_codec.specs.SchemaSpelling.{HasSchemaSpelling};
ghost use Rattle.row_store.specs.declared.stored.StoredRow.{StoredRow};
ghost use Rattle.row_store.specs.declared.stored.SubChange.{SubChange};
ghost use Rattle.row_store.specs.declared.stored.Terms.{Terms};
ghost use Rattle.row_store.specs.Spelling.{HasStoredSpelling, row_payload, IsState, table_payload, IsClient};
ghost use Rattle.row_store.specs.Spelling.{sub_payload};
ghost use Rattle.row_store.specs.Reading.{said_by, terms_if, SaysRow, SaysTable, SaysSub};
ghost use Rattle.payload_laws.specs.Subs.{IsSub};
ghost use Rattle.payload_laws.specs.Entries.{IsOpening};
ghost use Rattle.status_log.specs.Entry.{Entry, HasSpelling};
ghost use Rattle.status_log.specs.Payload.{open_payload, close_payload, opens, closes};
ghost use Rattle.chunk_store.specs.Payload.{put_payload, drop_payload, change_of};

/// What a payload of the device of rows says is a row, a table or a subscription whose one payload it is. (Does
/// nothing: its clauses are laws.)
pub fn rows_have_one_payload()
    // A row is one with a version within the limit, whose pieces are all kept, and whose clients' last writes stand by
    // rising client.
    ensures row { (x : StoredRow) → HasStoredSpelling x → said_by (row_payload x) ≡ SaysRow x }
    ensures only_row { (payload : List ℕ) (x : StoredRow) → IsBytes payload → said_by payload ≡ SaysRow x
        → HasStoredSpelling x × (payload ≡ row_payload x) }
    // A table's state is 1, 2 or 3.
    ensures table { (schema : Schema) (state : ℕ) → HasSchemaSpelling schema → IsState state
        → said_by (table_payload schema state) ≡ SaysTable schema state }
    ensures only_table { (payload : List ℕ) (schema : Schema) (state : ℕ) → IsBytes payload
        → said_by payload ≡ SaysTable schema state
        → HasSchemaSpelling schema × IsState state × (payload ≡ table_payload schema state) }
    // A subscription's client is from 1 to 64.
    ensures sub { (client : ℕ) (on : Bool) (terms : Terms) → IsClient client → terms.gate < 2 ^ 32
        → terms.period < 2 ^ 32 → terms.tolerance < 2 ^ 32
        → said_by (sub_payload client on terms) ≡ SaysSub (record { client = client; terms = terms_if on terms }) }
    ensures only_sub { (payload : List ℕ) (change : SubChange) → IsBytes payload → said_by payload ≡ SaysSub change
        → IsSub payload change }
{}

/// What a payload of the device of chunks does is the put or the drop of a chunk whose one payload it is, and whose
/// version is within the limit. (Does nothing: its clauses are laws.)
pub fn chunks_have_one_payload()
    ensures put { (name : ChunkName) (bytes : List ℕ) → name.version ≤ NUMBER_MAX → name.ordinal < 2 ^ 32
        → change_of (put_payload name bytes) ≡ Some (name, Some bytes) }
    ensures only_put { (payload : List ℕ) (name : ChunkName) (bytes : List ℕ) → IsBytes payload
        → change_of payload ≡ Some (name, Some bytes)
        → (name.version ≤ NUMBER_MAX) × (name.ordinal < 2 ^ 32) × (payload ≡ put_payload name bytes) }
    ensures gone { (name : ChunkName) → name.version ≤ NUMBER_MAX → name.ordinal < 2 ^ 32
        → change_of (drop_payload name) ≡ Some (name, None) }
    ensures only_gone { (payload : List ℕ) (name : ChunkName) → IsBytes payload
        → change_of payload ≡ Some (name, None)
        → (name.version ≤ NUMBER_MAX) × (name.ordinal < 2 ^ 32) × (payload ≡ drop_payload name) }
{}

/// What a payload of the log does is the close of a version within the limit, or the opening of an entry. (Does
/// nothing: its clauses are laws.)
pub fn entries_have_one_payload()
    ensures close { (version : ℕ) → version ≤ NUMBER_MAX → closes (close_payload version) ≡ Some version }
    ensures only_close { (payload : List ℕ) (version : ℕ) → IsBytes payload → closes payload ≡ Some version
        → (version ≤ NUMBER_MAX) × (payload ≡ close_payload version) }
    ensures opening { (entry : Entry) → HasSpelling entry → opens (open_payload entry) ≡ Some entry }
    ensures only_opening { (payload : List ℕ) (entry : Entry) → IsBytes payload → opens payload ≡ Some entry
        → IsOpening payload entry }
{}
