//! What a client's devices hold is what its step table says of its disk: the writes of a plan and of a start are the
//! tasks of its agendas, and a change of slots is a plan of the table.
#![tactic(auto)]

ghost use Rattle.std.specs.Prelude.{◌≡◌, ◌⊎◌, ℕ, ◌+◌, ◌<◌, nat_le, true, false, is_some, List, [], ◌∷◌, ◌++◌};
ghost use Rattle.std.specs.Prelude.{length, Option, Some, None, option_map, IfSome};
ghost use Rattle.std.specs.BTreeMap.{insert_entry};
ghost use Rattle.std.specs.Ordering.{nat_cmp};
ghost use Rattle.stab_base.specs.declared.chunk_name.ChunkName.{ChunkName};
ghost use Rattle.row_value.specs.declared.pieces.Piece.{Piece};
ghost use Rattle.row_value.specs.declared.schema.Schema.{Schema};
ghost use Rattle.row_value.specs.declared.schema.Scheme.{Scheme};
ghost use Rattle.table_model.specs.declared.message.Outcome.{Outcome};
ghost use Rattle.table_model.specs.declared.message.Outcome.TheVariants as outcomes;
ghost use Rattle.table_model.specs.declared.message.Yours.{Yours};
ghost use Rattle.held_value.specs.declared.content.HeldPiece.{HeldPiece};
ghost use Rattle.held_value.specs.declared.content.HeldContent.{HeldContent};
ghost use Rattle.held_value.specs.declared.local_name.LocalName.{LocalName};
ghost use Rattle.held_value.specs.declared.slots.Main.{Main as HeldMain};
ghost use Rattle.held_value.specs.declared.slots.Out.{Out as HeldOut};
ghost use Rattle.held_value.specs.declared.slots.Shadow.{Shadow as HeldShadow};
ghost use Rattle.held_value.specs.declared.slots.Slots.{Slots as HeldSlots};
ghost use Rattle.held_value.specs.declared.tell.Tell.TheVariants as tell;
ghost use Rattle.client_tables.specs.declared.resolving.HeldChoice.{HeldChoice};
ghost use Rattle.client_tables.specs.declared.resolving.HeldChoice.TheVariants as choices;
ghost use Rattle.client_tables.specs.Change.{after, seen_in};
ghost use Rattle.client_tables.specs.Transitions.{written, written_strong, can_send, sent, answered};
ghost use Rattle.client_tables.specs.Transitions.{taken, resolved};
ghost use Rattle.slot_store.specs.Data.{slots_of};
ghost use Rattle.client_tables.specs.Held.{held_pieces, brought};
ghost use Rattle.client_tables.specs.Kept.{SlotEvent, slots_behind};
ghost use Rattle.client_tables.specs.Shown.{shown_as, shown_content};
ghost use Rattle.client_journal.specs.declared.plan.Plan.{Plan as Begun};
ghost use Rattle.client_journal.specs.Agenda.{meaning_with, plan_writes};
ghost use Rattle.client_journal.specs.Devs.{ClientDevs, Write, PutRecord, IsBeforeOrAfter, changed_by, changed_by_all};
ghost use Rattle.client_journal.specs.NamedSlots.{IsAtRest, IsNotCommitted};
ghost use Rattle.client_journal.specs.Plan.{IsPlan, intend_for, commit_for};
ghost use Rattle.client_journal.specs.Recover.{AreRecoveryWrites};
ghost use Rattle.client_journal.specs.Redone.{redone};
ghost use Rattle.client_journal.specs.Small.{small_schema};
ghost use Rattle.client_journal.specs.Standing.{nothing};
ghost use Rattle.step_tables.specs.Slots.{InFlight};
ghost use Rattle.step_tables.specs.Facts.{Answer};
ghost use Rattle.step_tables.specs.Messages.{Send};
ghost use Rattle.step_tables.specs.ClientMoves.{Plan, Shape, ClientDisk, ClientTask, changed, begun, resumed, shown_in};
ghost use Rattle.step_tables.specs.ClientMoves.{slots_in, table_at, write_plan, strong_plan, to_send, send_plan};
ghost use Rattle.step_tables.specs.ClientMoves.{ack_plan, lost_plan, row_placed, row_plan, top, over_plan};
ghost use Rattle.step_tables.specs.ClientMoves.{theirs_plan, seen, row_out, whole_plan, known, opened_table};
ghost use Rattle.journal_laws.specs.Whole.{whole, whole_object, whole_main, whole_shadow, whole_out, whole_slots};
ghost use Rattle.journal_laws.specs.Whole.{SpellsAll, AreHeld, names_known};
ghost use Rattle.journal_laws.specs.Holds.{IsPlanOf, IsPlanAt, Say, Stands, Follows, HoldsTables, slots_or_empty};
ghost use Rattle.journal_laws.specs.Holds.{StandsChange};
ghost use Rattle.journal_laws.specs.Moves.{shown_with, tasks_of, IsPlanShape, IsStartShape, Plans, PlansChange};
ghost use Rattle.journal_laws.specs.Moves.{IsStill, IsNewTo, header_of, plan_meaning, AreShownChunks, object_of};
ghost use Rattle.journal_laws.specs.Moves.{HoldsEvent, Spells, opened_record, nothing_there};
ghost use Rattle.journal_laws.specs.Worked.{no_row, no_row_disk, nothing_meant, two_chunks, row_id, first_writes};
ghost use Rattle.journal_laws.specs.Worked.{first_tasks, all_changed, names_of_writes, names_of_tasks};

/// A client holds no row of an opened table and writes one. (Does nothing: its clauses are laws.)
pub fn a_small_plan_is_worked_out()
    ensures stands { Stands 4 nothing_meant no_row no_row_disk }
    ensures names { names_of_writes first_writes ≡ names_of_tasks first_tasks }
    ensures row { whole_slots (meaning_with nothing_meant 1 two_chunks)
        (slots_or_empty (slots_of (changed_by_all no_row first_writes).held 1 row_id))
        ≡ slots_in (table_at (all_changed no_row_disk first_tasks) 1) row_id }
{}

/// Devices that hold nothing stand for the disk of no table, whatever the names stand for. Where nothing is committed
/// the record of a new table is put for the table without a row. (Does nothing: its clauses are laws.)
pub fn tables_are_declared()
    ensures nothing { (c : ℕ) (meaning : LocalName → List ℕ) → Stands c meaning nothing nothing_there }
    ensures declared { (c : ℕ) (meaning : LocalName → List ℕ) (d : ClientDevs) (disk : ClientDisk) (table : ℕ)
        (schema : Schema) → Stands c meaning d disk → IsNotCommitted d.journal.at_work → table_at disk table ≡ None
        → Stands c meaning (changed_by d (PutRecord (opened_record table schema)))
        (record disk { tables = insert_entry nat_cmp disk.tables table (opened_table schema) }) }
{}

/// What the devices stand for, with a commit at work applied to it, is the disk as it is read, with its plan applied.
/// (Does nothing: its clause is a law.)
pub fn what_is_redone_is_what_is_seen()
    ensures { (c : ℕ) (meaning : LocalName → List ℕ) (d : ClientDevs) (disk : ClientDisk) → Stands c meaning d disk
        → HoldsTables meaning (redone d) (seen disk).last (seen disk).tables }
{}

/// The client's devices don't stand for a disk with another last number, with another position or with no table, nor do
/// those behind the write for one without it. (Does nothing: its clauses are laws.)
pub fn devices_that_do_not_stand()
    ensures number { (meaning : LocalName → List ℕ) → Stands 4 meaning no_row (record no_row_disk { last = 1 }) → ⊥ }
    ensures position { (meaning : LocalName → List ℕ) → Stands 4 meaning no_row (record no_row_disk {
      tables = (1, record (opened_table small_schema) { position = 1 }) ∷ [];
    }) → ⊥ }
    ensures no_table { (meaning : LocalName → List ℕ)
        → Stands 4 meaning no_row (record no_row_disk { tables = [] }) → ⊥ }
    ensures written { (meaning : LocalName → List ℕ)
        → Stands 4 meaning (changed_by_all no_row first_writes) (record no_row_disk { last = 1 }) → ⊥ }
{}

/// What a row is shown as, with its content whole, is what the step table shows. (Does nothing: its clause is a law.)
pub fn shown_agrees()
    ensures { (meaning : LocalName → List ℕ) (slots : HeldSlots)
        → let w = whole_slots meaning slots in
        shown_with (shown_as slots) (option_map (whole meaning) (shown_content slots))
        ≡ shown_in w.main w.conflict w.shadow }
{}

/// A crash inside a write leaves devices that stand for the disk before it or for the one behind it. (Does nothing: its
/// clause is a law.)
pub fn a_crash_inside_a_write()
    ensures { (c : ℕ) (meaning : LocalName → List ℕ) (d left : ClientDevs) (write : Write) (writes : List Write)
        (disk : ClientDisk) (task : ClientTask) (tasks : List ClientTask)
        → Follows c meaning d (write ∷ writes) disk (task ∷ tasks) → IsBeforeOrAfter d write left
        → Stands c meaning left disk ⊎ Stands c meaning left (changed disk task.change) }
{}

/// A plan that the devices take on under a number above the greatest: its writes are the tasks of the step table's
/// agenda, with as many puts and drops, and the devices stand for the table's disk before and behind each of them. The
/// names stand for what they did, and those of the plan for the chunks that it brings. (Does nothing: its clause is a
/// law.)
pub fn a_plan_follows()
    ensures { (c : ℕ) (meaning : LocalName → List ℕ) (d : ClientDevs) (disk : ClientDisk) (number : ℕ) (plan : Begun)
        (p : Plan) (shape : Shape) (answer : Answer) (sends : List Send)
        → Stands c meaning d disk → IsAtRest d → IsPlan d plan → d.journal.greatest < number
        → IsPlanOf (meaning_with meaning number plan.brought) c (commit_for number plan) p
        → IsPlanAt disk plan.new_record p → IsPlanShape shape plan.brought plan.drops
        → Follows c (meaning_with meaning number plan.brought) d
        (plan_writes d.held (intend_for number plan) plan.brought (commit_for number plan)) disk
        (tasks_of (begun shape disk answer p sends)) }
{}

/// A start: the writes that recover the devices are the tasks of the step table's start, with as many drops, and the
/// devices stand for the table's disk before and behind each of them. (Does nothing: its clause is a law.)
pub fn a_recovery_follows()
    ensures { (c : ℕ) (meaning : LocalName → List ℕ) (d : ClientDevs) (disk : ClientDisk) (writes : List Write)
        (shape : Shape) → Stands c meaning d disk → (recovery : AreRecoveryWrites d writes)
        → IsStartShape shape recovery.0
        → Follows c meaning d writes disk (tasks_of (resumed c shape disk disk.plan)) }
{}

/// A plan of the devices is one of the step table: where its new slots, before their brought chunks get the plan's
/// number, are those of the table's plan, its commit under the number is the table's plan. The slots that are held are
/// those of the disk. (Does nothing: its clauses are laws.)
pub fn plans_are_of_the_table()
    ensures row { (c : ℕ) (meaning : LocalName → List ℕ) (d : ClientDevs) (disk : ClientDisk) (number : ℕ)
        (plan : Begun) (p : Plan) (row : List ℕ) (slots : HeldSlots)
        → Stands c meaning d disk → IsAtRest d → IsPlan d plan → d.journal.greatest < number
        → plan.table ≡ p.table → plan.last ≡ p.last → plan.position ≡ p.position → plan.new_record ≡ None
        → plan.row ≡ Some (record { row = row; slots = slots })
        → AreHeld (plan_meaning meaning number plan.brought) slots
        → Plans (plan_meaning meaning number plan.brought) c row slots plan.tells p
        → IsPlanOf (meaning_with meaning number plan.brought) c (commit_for number plan) p }
    ensures no_row { (c : ℕ) (meaning : LocalName → List ℕ) (d : ClientDevs) (disk : ClientDisk) (number : ℕ)
        (plan : Begun) (p : Plan)
        → Stands c meaning d disk → IsAtRest d → IsPlan d plan → d.journal.greatest < number
        → plan.table ≡ p.table → plan.last ≡ p.last → plan.position ≡ p.position
        → StandsChange plan.new_record p p.alters → plan.row ≡ None → p.row ≡ None
        → Say c p.table p.row plan.tells p.facts
        → IsPlanOf (meaning_with meaning number plan.brought) c (commit_for number plan) p }
    ensures before { (c : ℕ) (meaning : LocalName → List ℕ) (d : ClientDevs) (disk : ClientDisk) (number : ℕ)
        (brought : List (List ℕ)) (table : ℕ) (row : List ℕ)
        → Stands c meaning d disk → IsAtRest d → d.journal.greatest < number
        → whole_slots (plan_meaning meaning number brought) (slots_or_empty (slots_of d.held table row))
        ≡ slots_in (table_at disk table) row }
    ensures held { (c : ℕ) (meaning : LocalName → List ℕ) (d : ClientDevs) (disk : ClientDisk) (number : ℕ)
        (brought : List (List ℕ)) (table : ℕ) (row : List ℕ)
        → Stands c meaning d disk → IsAtRest d → d.journal.greatest < number
        → AreHeld (plan_meaning meaning number brought) (slots_or_empty (slots_of d.held table row)) }
{}

/// The chunks that hold a new object, kept ones and brought ones, are the object. The plan brings other chunks before
/// them and behind them. (Does nothing: its clause is a law.)
pub fn an_object_is_held_whole()
    ensures { (meaning : LocalName → List ℕ) (number len : ℕ) (shown : List (HeldPiece × List ℕ))
        (chunks : List (Option ChunkName × List ℕ)) (before behind : List (List ℕ))
        → AreShownChunks meaning number shown
        → whole_object (plan_meaning meaning number (before ++ (brought shown chunks ++ behind)))
        (record { len = len; pieces = held_pieces shown chunks (length before) })
        ≡ object_of chunks }
{}

/// What a change of a row's slots makes of them is what the step table makes of the whole slots, and its tells are the
/// table's facts. The pieces of what is sent are the table's, and so are the Store's names of an accepted write's
/// chunks. (Does nothing: its clauses are laws.)
pub fn transitions_agree()
    ensures write { (c : ℕ) (meaning : LocalName → List ℕ) (d : ClientDisk) (table : ℕ) (row : List ℕ)
        (slots : HeldSlots) (content : HeldContent)
        → PlansChange meaning c row slots (written slots (d.last + 1) content)
        (write_plan c d table row (whole_slots meaning slots) (whole meaning content)) }
    ensures strong { (c : ℕ) (meaning : LocalName → List ℕ) (d : ClientDisk) (table : ℕ) (row : List ℕ)
        (slots : HeldSlots) (size : ℕ) (content : HeldContent) (pieces : List Piece) → IsNewTo slots.main (d.last + 1)
        → Spells meaning size slots.shadow content pieces
        → PlansChange meaning c row slots (written_strong slots (d.last + 1) content pieces)
        (strong_plan size c d table row (whole_slots meaning slots) (whole meaning content)) }
    ensures may_send { (meaning : LocalName → List ℕ) (slots : HeldSlots)
        → let w = whole_slots meaning slots in
        can_send slots ≡ is_some (to_send w w.out w.main w.conflict) }
    ensures sends { (c : ℕ) (meaning : LocalName → List ℕ) (d : ClientDisk) (table : ℕ) (row : List ℕ)
        (slots : HeldSlots) (size : ℕ) (pieces : List Piece) (out : InFlight)
        → let w = whole_slots meaning slots in
        to_send w w.out w.main w.conflict ≡ Some out
        → IfSome slots.main (λ main. Spells meaning size slots.shadow main.content pieces)
        → PlansChange meaning c row slots (sent slots pieces)
        (send_plan d table (row_out size (record { row = row; slots = w; out = out }))) }
    ensures accepted { (c : ℕ) (meaning : LocalName → List ℕ) (d : ClientDisk) (table : ℕ) (row : List ℕ)
        (slots : HeldSlots) (out : HeldOut) (version : ℕ) → slots.out ≡ Some out → SpellsAll out
        → PlansChange meaning c row slots (answered slots out.number (outcomes.Accepted version))
        (ack_plan c d table row (whole_slots meaning slots) (whole_out meaning out) version) }
    ensures again { (c : ℕ) (meaning : LocalName → List ℕ) (d : ClientDisk) (table : ℕ) (row : List ℕ)
        (slots : HeldSlots) (out : HeldOut) (version : ℕ) → slots.out ≡ Some out → SpellsAll out
        → PlansChange meaning c row slots (answered slots out.number (outcomes.Again version))
        (ack_plan c d table row (whole_slots meaning slots) (whole_out meaning out) version) }
    ensures refused { (c : ℕ) (meaning : LocalName → List ℕ) (d : ClientDisk) (table : ℕ) (row : List ℕ)
        (slots : HeldSlots) (out : HeldOut) (latest : ℕ) → slots.out ≡ Some out
        → PlansChange meaning c row slots (answered slots out.number (outcomes.Stale latest))
        (lost_plan c d table row (whole_slots meaning slots) (whole_out meaning out) latest) }
    ensures whole { (c : ℕ) (meaning : LocalName → List ℕ) (d : ClientDisk) (table : ℕ) (row : List ℕ)
        (slots : HeldSlots) (out : HeldOut) → slots.out ≡ Some out → SpellsAll out → out.whole ≡ false
        → PlansChange meaning c row slots (answered slots out.number outcomes.NeedWhole)
        (whole_plan d table row (whole_slots meaning slots) (whole_out meaning out)) }
    ensures row { (c : ℕ) (meaning : LocalName → List ℕ) (d : ClientDisk) (table : ℕ) (row : List ℕ) (scheme : Scheme)
        (yours : Yours) (x : HeldShadow) (names : List (List ChunkName)) (slots : HeldSlots) (position : ℕ)
        → nat_le x.version (seen_in slots.conflict slots.shadow) ≡ false → names_known x.content ≡ known names
        → let w = whole_slots meaning slots in
        Plans meaning c row (after slots (taken scheme slots yours x))
        ((taken scheme slots yours x).tells ++ tell.Position position ∷ [])
        (row_plan c d table row position
        (row_placed scheme c table (header_of meaning row yours x names) w w.out)) }
    ensures mine { (c : ℕ) (meaning : LocalName → List ℕ) (d : ClientDisk) (table : ℕ) (row : List ℕ)
        (slots : HeldSlots) (main : HeldMain) (x : HeldShadow) → slots.main ≡ Some main → slots.conflict ≡ Some x
        → PlansChange meaning c row slots (resolved slots (d.last + 1) choices.Mine)
        (over_plan c d table row (whole_slots meaning slots) (whole_main meaning main) (whole_shadow meaning x)
        (whole_main meaning main).content) }
    ensures other { (c : ℕ) (meaning : LocalName → List ℕ) (d : ClientDisk) (table : ℕ) (row : List ℕ)
        (slots : HeldSlots) (main : HeldMain) (x : HeldShadow) (content : HeldContent)
        → slots.main ≡ Some main → slots.conflict ≡ Some x
        → PlansChange meaning c row slots (resolved slots (d.last + 1) (choices.New content))
        (over_plan c d table row (whole_slots meaning slots) (whole_main meaning main) (whole_shadow meaning x)
        (whole meaning content)) }
    ensures theirs { (c : ℕ) (meaning : LocalName → List ℕ) (d : ClientDisk) (table : ℕ) (row : List ℕ)
        (slots : HeldSlots) (main : HeldMain) (x : HeldShadow) → slots.main ≡ Some main → slots.conflict ≡ Some x
        → PlansChange meaning c row slots (resolved slots (d.last + 1) choices.Theirs)
        (theirs_plan c d table row (whole_slots meaning slots) (whole_main meaning main) (whole_shadow meaning x)) }
{}

/// Behind an event the objects of a row's slots still have their lengths, and a request spells each chunk of its
/// content, where it is so of what comes with the event. (Does nothing: its clause is a law.)
pub fn slots_stay_held()
    ensures { (meaning : LocalName → List ℕ) (scheme : Scheme) (slots : HeldSlots) (event : SlotEvent)
        → AreHeld meaning slots → HoldsEvent meaning slots event
        → AreHeld meaning (slots_behind scheme slots event) }
{}

/// What changes no slot where the step table plans no row: an answer to another write than the one that waits, one that
/// is late or tells of a conflict, one that asks for all chunks again, a row that isn't newer than what was seen, and a
/// resolution where nothing is in conflict. (Does nothing: its clauses are laws.)
pub fn what_changes_nothing()
    ensures none_waits { (slots : HeldSlots) (number : ℕ) (outcome : Outcome) → slots.out ≡ None
        → IsStill (answered slots number outcome) }
    ensures another_waits { (slots : HeldSlots) (number : ℕ) (outcome : Outcome) (out : HeldOut)
        → slots.out ≡ Some out → (out.number ≡ number → ⊥) → IsStill (answered slots number outcome) }
    ensures late { (slots : HeldSlots) (out : HeldOut) (last : ℕ) → slots.out ≡ Some out
        → IsStill (answered slots out.number (outcomes.Late last)) }
    ensures conflict { (slots : HeldSlots) (out : HeldOut) (latest : ℕ) → slots.out ≡ Some out
        → IsStill (answered slots out.number (outcomes.Conflict latest)) }
    ensures whole { (slots : HeldSlots) (out : HeldOut) → slots.out ≡ Some out → out.whole ≡ true
        → IsStill (answered slots out.number outcomes.NeedWhole) }
    ensures old_row { (scheme : Scheme) (slots : HeldSlots) (yours : Yours) (x : HeldShadow)
        → nat_le x.version (seen_in slots.conflict slots.shadow) ≡ true → IsStill (taken scheme slots yours x) }
    ensures seen { (meaning : LocalName → List ℕ) (slots : HeldSlots)
        → top (whole_slots meaning slots).conflict (whole_slots meaning slots).shadow
        ≡ seen_in slots.conflict slots.shadow }
    ensures no_conflict { (slots : HeldSlots) (number : ℕ) (choice : HeldChoice)
        → (slots.conflict ≡ None) ⊎ (slots.main ≡ None) → IsStill (resolved slots number choice) }
{}
