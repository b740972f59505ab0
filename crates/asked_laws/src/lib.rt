//! What clients resolve in every run of the world, and when: what they were asked to, in the phases that they began.
#![tactic(auto)]

ghost use Rattle.std.specs.Prelude.{◌≡◌, ℕ, true, false, List, [], ◌∷◌, ◌++◌};
ghost use Rattle.stab_base.specs.declared.node.Node.TheVariants as nodes;
ghost use Rattle.conflicts.specs.declared.pair.Choice.TheVariants as choices;
ghost use Rattle.table_model.specs.declared.event.Event.TheVariants as events;
ghost use Rattle.step_tables.specs.Facts as facts;
ghost use Rattle.step_tables.specs.Messages as lucks;
ghost use Rattle.world_tables.specs.World.{start, client_at, is_resolving};
ghost use Rattle.world_tables.specs.Turns.{Happening, turns, world_from};
ghost use Rattle.world_laws.specs.Worked.{the_row, happens};
ghost use Rattle.world_laws.specs.WorkedConflicts.{next_row};
ghost use Rattle.world_laws.specs.WorkedCrashes.{done_so};
ghost use Rattle.asked_laws.specs.Asked.{AreAsked};
ghost use Rattle.asked_laws.specs.Phases.{is_away, has_phase};
ghost use Rattle.asked_laws.specs.Worked.{takes_theirs, resolved, resolved_by};
ghost use Rattle.asked_laws.specs.Worked.{resolved_late, resolved_late_written, conflict_again};
ghost use Rattle.asked_laws.specs.Worked.{in_phase, fails, untaken_pull, untaken_answer};

/// In every run, wherever packets are lost or repeated, device calls fail and nodes crash: a client tells that it has
/// resolved a row, first or again, only where it was asked to behind the row's last `conflict` line. It was asked by a
/// `resolve` of that row or a `resolve_all` of its table that was answered a number, or 6 where a disk failed in it.
pub fn resolvings_are_asked_for()
    ensures { (happenings : List Happening) → AreAsked (turns happenings) }
{}

/// A conflict that is resolved where its client was asked to, computed. The same line is refused behind an event that
/// doesn't ask for it, behind a `resolve` that is refused, and behind one of another row or another client.
pub fn a_resolving_that_nobody_asked_for()
    ensures run { turns resolved ≡ resolved_by takes_theirs (facts.Number 0) }
    ensures asked { AreAsked (resolved_by takes_theirs (facts.Number 0)) }
    ensures other_event { AreAsked (resolved_by (events.Sync 2 1) (facts.Number 0)) → ⊥ }
    ensures refused { AreAsked (resolved_by takes_theirs (facts.Refuses facts.NotInResolution)) → ⊥ }
    ensures other_row { AreAsked (resolved_by (events.Resolve 2 1 next_row 1 choices.Theirs) (facts.Number 0)) → ⊥ }
    ensures other_client { AreAsked (resolved_by (events.Resolve 1 1 the_row 1 choices.Theirs) (facts.Number 0)) → ⊥ }
{}

/// A resolving whose commit takes its client down is told by the client's start, computed: it was asked for, and
/// answered 6. Where the conflict is told again in between, the line is refused.
pub fn a_resolving_asked_for_before_its_conflict()
    ensures run { turns resolved_late ≡ resolved_late_written [] }
    ensures asked { AreAsked (resolved_late_written []) }
    ensures before { AreAsked (resolved_late_written (conflict_again ∷ [])) → ⊥ }
{}

/// In every world that a run leads to, a client resolves the conflicts of a table exactly where the lines tell of a
/// phase: the last `begin_cr` and `end_cr` of it that was answered `ok`, since the client last went down in a crash or
/// where one of its disks failed, is a `begin_cr`. So it does only while it is up.
pub fn phases_are_as_told()
    ensures told { (happenings : List Happening) (c t : ℕ)
        → is_resolving (world_from start happenings) c t ≡ has_phase (turns happenings) c t }
    ensures up { (happenings : List Happening) (c t : ℕ)
        → has_phase (turns happenings) c t ≡ true → is_away (client_at (world_from start happenings) c) ≡ false }
{}

/// A phase of the second client on its table, computed: it stands behind a `begin_cr`, and behind a packet that the
/// Store can't take; and no more behind an `end_cr`, a crash of the client, a call or a packet whose disks can't be
/// read, or the client's next start. It isn't one of another client or another table.
pub fn a_phase_that_ends()
    ensures stands { has_phase (turns (in_phase [])) 2 1 ≡ true }
    ensures other_client { has_phase (turns (in_phase [])) 1 1 ≡ false }
    ensures other_table { has_phase (turns (in_phase [])) 2 2 ≡ false }
    ensures ended { has_phase (turns (in_phase (happens (events.EndCr 2 1) ∷ []))) 2 1 ≡ false }
    ensures crashed { has_phase (turns (in_phase (happens (events.Crash (nodes.Client 2) 0 0) ∷ []))) 2 1 ≡ false }
    ensures unread { has_phase (turns (in_phase (fails (events.Conflicts 2 1) ∷ []))) 2 1 ≡ false }
    ensures untaken { has_phase (turns (in_phase untaken_answer)) 2 1 ≡ false }
    ensures at_the_store { has_phase (turns (in_phase untaken_pull)) 2 1 ≡ true }
    ensures started { has_phase (turns (in_phase (happens (events.Crash (nodes.Client 2) 0 0)
        ∷ happens (events.Start (nodes.Client 2)) ∷ []))) 2 1 ≡ false }
{}
