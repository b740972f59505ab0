//! What the payloads of a device of slots say, as laws.
ghost use Rattle.std.specs.Prelude.{◌≡◌, ℕ, List, [], ◌∷◌, max, Some};
ghost use Rattle.stab_base.specs.Codec.{IsBytes};
ghost use Rattle.slot_store.specs.declared.held.TheConstants.{TABLE_MAX};
ghost use Rattle.slot_store.specs.declared.held.RowSlots.{RowSlots};
ghost use Rattle.slot_store.specs.declared.held.TableRecord.{TableRecord};
ghost use Rattle.slot_store.specs.Limit.{tables_most};
ghost use Rattle.slot_store.specs.Spelling.{HasRowSpelling, row_payload, HasRecordSpelling, record_payload};
ghost use Rattle.slot_store.specs.Reading.{said_by, SaysRow, SaysTable};
ghost use Rattle.slot_store.specs.Data.{SlotData, key_at, key_of, nothing_held, with_slots, with_record, data_of};
ghost use Rattle.slot_store.specs.Data.{slots_of, record_of};

/// What a payload says is slots of a row or a record of a table whose one payload it is. (Does nothing: its clauses are
/// laws.)
pub fn slots_have_one_payload()
    // A row's table is from 1 to 64, and the number of the last write is within the limit.
    ensures row { (x : RowSlots) → HasRowSpelling x → said_by (row_payload x) ≡ SaysRow x }
    ensures only_row { (payload : List ℕ) (x : RowSlots) → IsBytes payload → said_by payload ≡ SaysRow x
        → HasRowSpelling x × (payload ≡ row_payload x) }
    // A table is from 1 to 64, and its state is 1 or 2.
    ensures table { (x : TableRecord) → HasRecordSpelling x → said_by (record_payload x) ≡ SaysTable x }
    ensures only_table { (payload : List ℕ) (x : TableRecord) → IsBytes payload → said_by payload ≡ SaysTable x
        → HasRecordSpelling x × (payload ≡ record_payload x) }
{}

/// `TABLE_MAX` is the limit of which the definitions speak. (Does nothing: its clause is a law.)
pub fn tables_are_limited()
    ensures { TABLE_MAX ≡ tables_most }
{}

/// What a few payloads come to. (Does nothing: its clauses are laws.)
pub fn data_follows_its_payloads()
    ensures nothing { data_of [] ≡ nothing_held }
    ensures passed_over { data_of ((3 ∷ []) ∷ [] ∷ []) ≡ nothing_held }
    ensures row { (x : RowSlots) → HasRowSpelling x → data_of (row_payload x ∷ [])
        ≡ record { rows = (key_of x, x) ∷ []; tables = []; last = x.last } }
    ensures table { (x : TableRecord) → HasRecordSpelling x → data_of (record_payload x ∷ [])
        ≡ record { rows = []; tables = (x.table, x) ∷ []; last = 0 } }
    // The last payload of a row stands, and the greatest number of both.
    ensures row_again { (x y : RowSlots) → HasRowSpelling x → HasRowSpelling y → key_of x ≡ key_of y
        → data_of (row_payload x ∷ row_payload y ∷ [])
        ≡ record { rows = (key_of x, y) ∷ []; tables = []; last = max x.last y.last } }
    ensures table_again { (x y : TableRecord) → HasRecordSpelling x → HasRecordSpelling y → x.table ≡ y.table
        → data_of (record_payload x ∷ record_payload y ∷ [])
        ≡ record { rows = []; tables = (x.table, y) ∷ []; last = 0 } }
{}

/// A put changes what is held of one row or of one table. (Does nothing: its clauses are laws.)
pub fn puts_change_one_value()
    ensures row { (held : SlotData) (x : RowSlots) → slots_of (with_slots held x) x.table x.row ≡ Some x }
    ensures other_row { (held : SlotData) (x : RowSlots) (table : ℕ) (row : List ℕ)
        → (key_of x ≡ key_at table row → ⊥) → slots_of (with_slots held x) table row ≡ slots_of held table row }
    ensures rows_of_table { (held : SlotData) (x : TableRecord) (table : ℕ) (row : List ℕ)
        → slots_of (with_record held x) table row ≡ slots_of held table row }
    ensures table { (held : SlotData) (x : TableRecord) → record_of (with_record held x) x.table ≡ Some x }
    ensures other_table { (held : SlotData) (x : TableRecord) (table : ℕ) → (x.table ≡ table → ⊥)
        → record_of (with_record held x) table ≡ record_of held table }
    ensures tables_of_row { (held : SlotData) (x : RowSlots) (table : ℕ)
        → record_of (with_slots held x) table ≡ record_of held table }
{}
