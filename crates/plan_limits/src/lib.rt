//! Why a client's plans are taken on: what its rows hold fits their tables' schemas, stays so whatever comes, and is
//! short enough.
#![tactic(auto)]

ghost use Rattle.std.specs.Prelude.{◌≡◌, ◌⊎◌, ℕ, ◌≤◌, ◌+◌, true, false, List, [], length, Option, Some, None, Ok};
ghost use Rattle.std.specs.Prelude.{IfSome};
ghost use Rattle.std.specs.Map.{keys_of};
ghost use Rattle.std.specs.List.{AllByRecursion};
ghost use Rattle.std.specs.List.Sorted.{IsStrictlySortedBy};
ghost use Rattle.stab_base.specs.declared.chunk_name.ChunkName.{ChunkName};
ghost use Rattle.row_value.specs.declared.content.Cell.{Cell};
ghost use Rattle.row_value.specs.declared.content.Content.{Content};
ghost use Rattle.row_value.specs.declared.schema.Schema.{Schema};
ghost use Rattle.row_value.specs.declared.schema.Scheme.{Scheme};
ghost use Rattle.row_value.specs.Fit.{fit_of};
ghost use Rattle.value_codec.specs.Spelling.{HasNameSpelling};
ghost use Rattle.value_codec.specs.SchemaSpelling.{HasSchemaSpelling, IsChunkSize};
ghost use Rattle.held_value.specs.declared.local_name.LocalName.{LocalName};
ghost use Rattle.held_value.specs.declared.content.HeldPiece.{HeldPiece};
ghost use Rattle.held_value.specs.declared.content.HeldContent.{HeldContent};
ghost use Rattle.held_value.specs.declared.slots.Slots.{Slots};
ghost use Rattle.held_codec.specs.Spelling.{HasTell, HasHeldPiece};
ghost use Rattle.slot_store.specs.declared.held.TableRecord.{TableRecord};
ghost use Rattle.slot_store.specs.Data.{SlotData, key_cmp, record_of};
ghost use Rattle.client_tables.specs.Kept.{SlotEvent, slots_behind, change_of};
ghost use Rattle.client_journal.specs.declared.plan.Plan.{Plan};
ghost use Rattle.client_journal.specs.Agenda.{meaning_with};
ghost use Rattle.client_journal.specs.Devs.{ClientDevs};
ghost use Rattle.client_journal.specs.Names.{names_of, names_in};
ghost use Rattle.client_journal.specs.NamedSlots.{NamedSlots};
ghost use Rattle.client_journal.specs.Plan.{numbered_slots, commit_for, chunk_most};
ghost use Rattle.client_journal.specs.Redone.{applied, redone};
ghost use Rattle.client_journal.specs.There.{fits_by_len, repeats, hidden_rows};
ghost use Rattle.plan_log.specs.Spelling.{IsPlan as IsPlanNumber};
ghost use Rattle.journal_laws.specs.Whole.{whole, HaveLens};
ghost use Rattle.journal_laws.specs.Holds.{empty};
ghost use Rattle.journal_laws.specs.Moves.{plan_meaning};
ghost use Rattle.held_contents.specs.Reading.{chunks_in};
ghost use Rattle.held_contents.specs.Holding.{IsHeldAgainst, IsNamedAgainst, AreShown, pieces_shown, names_shown};
ghost use Rattle.plan_limits.specs.Fit.{IsFitContent, IsFitRow, AreFitRows, IsFitEvent, HaveWords, AreOlder};
ghost use Rattle.plan_limits.specs.Fit.{AreOlderOrNew};
ghost use Rattle.plan_limits.specs.Fit.{AreOlderRows, IsFitChange, KeepsRows};
ghost use Rattle.plan_limits.specs.Short.{IsRowPlan, IsRowless, IsShort};

/// A content whose objects have the lengths of one that fits a schema fits it by its lengths. (Does nothing: its clause
/// is a law.)
pub fn fit_by_length()
    ensures { (schema : Schema) (content : Content) (meaning : LocalName → List ℕ) (held : HeldContent)
        → fit_of schema content ≡ Ok tt → whole meaning held ≡ content → HaveLens meaning held
        → fits_by_len schema held ≡ true }
{}

/// The chunks of a fit content that is shown: its names were numbered by plans before this one, so each stands for its
/// bytes, each has a spelling, and none stands there twice. (Does nothing: its clauses are laws.)
pub fn shown_chunks_are_fit()
    ensures shown { (meaning : LocalName → List ℕ) (number : ℕ) (held : HeldContent)
        → AreOlder number (names_of held) → AreShown meaning number (chunks_in meaning held) }
    ensures names { (meaning : LocalName → List ℕ) (held : HeldContent)
        → names_shown (chunks_in meaning held) ≡ names_of held }
    ensures spelled { (meaning : LocalName → List ℕ) (table : Option TableRecord) (held : HeldContent)
        → IsFitContent meaning table held → AllByRecursion HasHeldPiece (pieces_shown (chunks_in meaning held)) }
    ensures once { (meaning : LocalName → List ℕ) (table : Option TableRecord) (held : HeldContent)
        → IsFitContent meaning table held → repeats [] (names_shown (chunks_in meaning held)) ≡ false }
{}

/// What holds a new content that fits the table's schema is fit, where what is shown was. (Does nothing: its clause is
/// a law.)
pub fn new_contents_are_fit()
    ensures { (meaning : LocalName → List ℕ) (number : ℕ) (table : TableRecord) (content : Content)
        (shown : List (List (HeldPiece × List ℕ))) (held : HeldContent) (brought : List (List ℕ))
        → HasSchemaSpelling table.schema → fit_of table.schema content ≡ Ok tt → HaveWords content
        → AreShown meaning number shown → AllByRecursion HasHeldPiece (pieces_shown shown)
        → repeats [] (names_shown shown) ≡ false
        → IsHeldAgainst table.schema.chunk shown content held brought
        → IsFitContent (plan_meaning meaning number brought) (Some table) held }
{}

/// The same of what holds a row from the Store, where the names of its chunks have spellings. (Does nothing: its clause
/// is a law.)
pub fn named_contents_are_fit()
    ensures { (meaning : LocalName → List ℕ) (number : ℕ) (table : TableRecord) (content : Content)
        (names : List (List ChunkName)) (shown : List (List (HeldPiece × List ℕ))) (held : HeldContent)
        (brought : List (List ℕ))
        → HasSchemaSpelling table.schema → fit_of table.schema content ≡ Ok tt → HaveWords content
        → AllByRecursion (AllByRecursion HasNameSpelling) names
        → AreShown meaning number shown → AllByRecursion HasHeldPiece (pieces_shown shown)
        → repeats [] (names_shown shown) ≡ false
        → IsNamedAgainst table.schema.chunk shown names content held brought
        → IsFitContent (plan_meaning meaning number brought) (Some table) held }
{}

/// Slots stay fit: behind an event whose contents are fit; under what names stand for in a plan, before its brought
/// chunks get its number and once they have it; and in the rows that the plan leaves. What an event tells has a
/// spelling. (Does nothing: its clauses are laws.)
pub fn rows_stay_fit()
    ensures behind { (meaning : LocalName → List ℕ) (table : Option TableRecord) (scheme : Scheme) (slots : Slots)
        (event : SlotEvent) → IsFitRow meaning table slots → IsFitEvent meaning table slots event
        → IsFitRow meaning table (slots_behind scheme slots event) }
    ensures told { (meaning : LocalName → List ℕ) (table : Option TableRecord) (scheme : Scheme) (slots : Slots)
        (event : SlotEvent) → IsFitRow meaning table slots → IsFitEvent meaning table slots event
        → (length (change_of scheme slots event).tells ≤ 2)
        × AllByRecursion HasTell (change_of scheme slots event).tells }
    ensures planned { (meaning : LocalName → List ℕ) (table : Option TableRecord) (number : ℕ)
        (brought : List (List ℕ)) (slots : Slots) → IsFitRow meaning table slots → AreOlder number (names_in slots)
        → IsFitRow (plan_meaning meaning number brought) table slots }
    ensures numbered { (meaning : LocalName → List ℕ) (table : Option TableRecord) (number : ℕ)
        (brought : List (List ℕ)) (slots : Slots) → IsPlanNumber number
        → IsFitRow (plan_meaning meaning number brought) table slots → AreOlderOrNew number (names_in slots)
        → IsFitRow (meaning_with meaning number brought) table (numbered_slots number slots) }
    ensures empty { (meaning : LocalName → List ℕ) (table : Option TableRecord) → IsFitRow meaning table empty }
    ensures others { (meaning : LocalName → List ℕ) (table : Option TableRecord) (number : ℕ)
        (brought : List (List ℕ)) (slots : Slots) → IsFitRow meaning table slots → AreOlder number (names_in slots)
        → IsFitRow (meaning_with meaning number brought) table slots }
{}

/// A plan that makes fit slots of fit slots is short enough to be taken on, and so is one that changes no row. A chunk
/// of a table's size isn't too large. (Does nothing: its clauses are laws.)
pub fn plans_are_short()
    ensures row { (meaning other : LocalName → List ℕ) (table : TableRecord) (row : List ℕ) (before behind : Slots)
        (plan : Plan) → HasSchemaSpelling table.schema → IsFitRow meaning (Some table) before
        → IsFitRow other (Some table) behind → IsRowPlan row before behind plan → IsShort plan }
    ensures rowless { (plan : Plan) → IsRowless plan → IsShort plan }
    ensures chunks { (size : ℕ) (brought : List (List ℕ)) → IsChunkSize size
        → AllByRecursion (λ bytes. length bytes ≤ size) brought
        → AllByRecursion (λ bytes. length bytes ≤ chunk_most) brought }
{}

/// Rows stay fit behind the commit of a plan that puts fit slots and leaves the table's schema, or a table without a
/// row, where the names of all rows were numbered by plans before it. (Does nothing: its clause is a law.)
pub fn rows_behind_a_plan_are_fit()
    ensures { (meaning : LocalName → List ℕ) (held : SlotData) (number : ℕ) (plan : Plan)
        → AreFitRows meaning held → AreOlderRows number held → IfSome plan.new_record (KeepsRows held plan)
        → IsPlanNumber number
        → IfSome plan.row (IsFitChange meaning number plan.brought (record_of held plan.table))
        → AreFitRows (meaning_with meaning number plan.brought) (applied (commit_for number plan) held) }
{}

/// Where each row's slots are fit, a start hides no row. (Does nothing: its clause is a law.)
pub fn fit_rows_are_there()
    ensures { (meaning : LocalName → List ℕ) (d : ClientDevs) → NamedSlots meaning d → AreFitRows meaning (redone d)
        → IsStrictlySortedBy key_cmp (keys_of (redone d).rows) → hidden_rows d ≡ [] }
{}
