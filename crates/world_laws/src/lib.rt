//! What every run of the world keeps, whatever is delivered, lost or repeated, and wherever device writes fail.
#![tactic(auto)]

ghost use Rattle.std.specs.Prelude.{◌≡◌, ◌*◌, ◌≤◌, ◌<◌, ℕ, List, [], ◌∷◌, length, Some};
ghost use Rattle.stab_base.specs.declared.limits.TheConstants.{NUMBER_MAX};
ghost use Rattle.row_value.specs.declared.content.Content.TheVariants.{Gone};
ghost use Rattle.row_value.specs.declared.schema.Scheme.TheVariants.{Strong, Causal, Eventual};
ghost use Rattle.conflicts.specs.declared.pair.Choice.TheVariants as choices;
ghost use Rattle.conflicts.specs.declared.stored.Stored.{Stored};
ghost use Rattle.conflicts.specs.declared.stored.Stored.TheVariants as resolvers;
ghost use Rattle.table_model.specs.declared.event.Event.TheVariants as events;
ghost use Rattle.step_tables.specs.Facts.{Line};
ghost use Rattle.step_tables.specs.Facts as facts;
ghost use Rattle.step_tables.specs.Sayings.{nothing_said, hear_lines};
ghost use Rattle.world_tables.specs.Sound.{IsSound};
ghost use Rattle.world_tables.specs.Chunks.{AreChunks};
ghost use Rattle.world_tables.specs.Settled.{IsSettled};
ghost use Rattle.world_tables.specs.Whole.{read_by, shadow_by, position_by, greatest, last_conflict};
ghost use Rattle.world_laws.specs.Begun.{begun_in, AreSingle};
ghost use Rattle.world_laws.specs.Resolving.{FirstResolved, AllResolved};
ghost use Rattle.world_laws.specs.Bad.{back, blind, doubled, early, fallen, groundless, lost, misplaced, noisy};
ghost use Rattle.world_laws.specs.Bad.{outdated, over, past, renamed, revived, selfish, settled, silent};
ghost use Rattle.world_laws.specs.Bad.{skipped_number};
ghost use Rattle.world_laws.specs.Bad.{skipped_version, stale, strong_open, twice, unearned, unread, unseen, unwritten};
ghost use Rattle.world_tables.specs.Turns.{Happening, turns, world_from};
ghost use Rattle.world_tables.specs.World.{Hosted, Lucks, start, hosted_at, client_at, client_pairs, step};
ghost use Rattle.step_tables.specs.ClientMoves.{Plan, Client};
ghost use Rattle.world_laws.specs.Worked.{late_repeat, late_repeat_written, read_before_write_is_no_conflict};
ghost use Rattle.world_laws.specs.Worked.{read_before_write_is_no_conflict_written, causal_conflict};
ghost use Rattle.world_laws.specs.Worked.{causal_conflict_written, strong_write_refused, strong_write_refused_written};
ghost use Rattle.world_laws.specs.Worked.{object_update, object_update_written, object_names, named, said_by};
ghost use Rattle.world_laws.specs.Bad.{wrote_twice, accepted_twice, acked_twice, acked_below, refused_twice};
ghost use Rattle.world_laws.specs.Bad.{unlisted, peaceful, beside, relisted, miscounted};
ghost use Rattle.world_laws.specs.Bad.{conflict_twice, resolved_twice, new_twice, position_twice};
ghost use Rattle.world_laws.specs.Worked.{schemes_of, read_before_write, int, starts_retell, told, wrote};
ghost use Rattle.world_laws.specs.Worked.{wrote_content};
ghost use Rattle.step_tables.specs.Messages as lucks;
ghost use Rattle.world_laws.specs.WorkedClients.{crash_in_commit, landed_commit_written, lost_commit_written};
ghost use Rattle.world_laws.specs.WorkedClients.{failed_commit, failed_commit_written, failed_reads};
ghost use Rattle.world_laws.specs.WorkedClients.{failed_reads_written, own_writes, own_writes_written};
ghost use Rattle.world_laws.specs.WorkedEdits.{edits_in_turn, edits_in_turn_written, cut_link, cut_link_written};
ghost use Rattle.world_laws.specs.WorkedConflicts.{in_a_phase, in_a_phase_written, refused_first};
ghost use Rattle.world_laws.specs.WorkedConflicts.{refused_first_written, against_a_delete, against_a_delete_written};
ghost use Rattle.world_laws.specs.WorkedConflicts.{refuses, all_resolved, all_resolved_written, both_resolved};
ghost use Rattle.world_laws.specs.WorkedConflicts.{both_resolved_written, one_resolved, one_resolved_written};
ghost use Rattle.world_laws.specs.WorkedCrashes.{landed_put, landed_put_written, lost_put, lost_put_written};
ghost use Rattle.world_laws.specs.WorkedCrashes.{failed_put, failed_put_written, failed_declaration};
ghost use Rattle.world_laws.specs.WorkedCrashes.{failed_declaration_written, crash_between_chunks};
ghost use Rattle.world_laws.specs.WorkedCrashes.{crash_between_chunks_written, crash_behind_chunks};
ghost use Rattle.world_laws.specs.WorkedCrashes.{crash_behind_chunks_written, forward, two_tables};
ghost use Rattle.world_laws.specs.WorkedCrashes.{two_tables_written, loud, nameless};
ghost use Rattle.world_laws.specs.WorkedPieces.{sent_whole, sent_whole_written};
ghost use Rattle.world_laws.specs.WorkedTorn.{asked_whole, asked_whole_written};

/// What the fold of the lines has of a client is what the whole list of lines says: the versions read are the greatest
/// that lines name, with conflicts and without, a position is the greatest, and a number's conflict is the last that
/// names it.
pub fn the_fold_is_the_whole_list()
    ensures read { (client table : ℕ) (row : List ℕ) (lines : List Line)
        → (((hear_lines nothing_said lines).heard client).at table row).read
        ≡ greatest (read_by client table row) lines }
    ensures shadow { (client table : ℕ) (row : List ℕ) (lines : List Line)
        → (((hear_lines nothing_said lines).heard client).at table row).shadow
        ≡ greatest (shadow_by client table row) lines }
    ensures position { (client table : ℕ) (lines : List Line)
        → ((hear_lines nothing_said lines).heard client).position table ≡ greatest (position_by client table) lines }
    ensures conflict { (client table : ℕ) (row : List ℕ) (number : ℕ) (lines : List Line)
        → (((hear_lines nothing_said lines).heard client).at table row).conflict number
        ≡ last_conflict client table row number lines }
{}

/// Every run's transcript is sound, whatever is delivered, lost, repeated or overtaken, wherever a device call fails
/// and takes its node down, whichever Stores are declared, and for tables of all three schemes. A run is a list of
/// events: calls and edits, phases in which conflicts are listed and resolved, one by one or all at once, deliveries,
/// questions, links that go down and up, holds and freeings of a node, its device writes one by one or all at once,
/// crashes of a node inside any device write, undone or done, or beside any, and starts of a node that is down, also of
/// one whose start failed or crashed, whichever writes of its own a client has in it beside those that change what its
/// devices stand for. Each event has one answer in a form of its command, and a crash, a hold and a freeing tell
/// nothing; the versions of each table's history are 1, 2, 3; the writes of each client are numbered 1, 2, 3, and each
/// entry is one of them, accepted once, by the rule of its table's scheme; a write in a conflict or refused is never
/// accepted; each `show` gives what the client's lines make it show, each `conflicts` the rows that it shows in a
/// conflict, each once, and each `sshow` and `history` what was accepted; what a client has read never falls, and what
/// its position covers it has read; and no write is lost from sight.
pub fn every_run_is_sound()
    ensures { (happenings : List Happening) → IsSound (turns happenings) }
{}

/// All conflicts of a table, resolved in one way behind any run. Whatever the answer, the first rows in conflict, by
/// rising row, are resolved, and all else of the table is as it was: none where the call is refused, and those before
/// the one at which a device fails, or that one too where its plan was committed. A resolved row has the Store's row as
/// read, no conflict, and over it what the resolver chose: the client's content as a write again, or none. Where the
/// answer is a number, it is that of the rows that were in conflict; each of them is resolved, and none is in conflict.
pub fn all_conflicts_are_resolved()
    ensures first { (run : List Happening) (c table : ℕ) (by : Stored) (how : Lucks)
        → let w = world_from start run in
        FirstResolved by c table w (step w (events.ResolveAll c table by) how).world }
    ensures all { (run : List Happening) (c table : ℕ) (by : Stored) (how : Lucks) (number : ℕ)
        → let w = world_from start run in
        (step w (events.ResolveAll c table by) how).answer ≡ Some (facts.Number number)
        → AllResolved by c table w (step w (events.ResolveAll c table by) how).world }
    ensures count { (run : List Happening) (c table : ℕ) (by : Stored) (how : Lucks) (number : ℕ)
        → let w = world_from start run in
        (step w (events.ResolveAll c table by) how).answer ≡ Some (facts.Number number)
        → number ≡ length (client_pairs (client_at w c) table) }
{}

/// A table has no more versions than the run has events, and no client's last write, committed or done, has a number
/// above what the events may begin: one write each, or, where all conflicts of a table are resolved, one for each of
/// them. So an event behind fewer events, and fewer writes begun, than `NUMBER_MAX` finds a version and a number that
/// are still free; in a run in which no event resolves all conflicts of a table these are no more than its events.
pub fn versions_and_numbers_are_few()
    ensures versions { (run : List Happening) (table : ℕ) (hosted : Hosted)
        → hosted_at (world_from start run) table ≡ Some hosted → length hosted.store.disk.items ≤ length run }
    ensures numbers { (run : List Happening) (c : ℕ) (node : Client)
        → client_at (world_from start run) c ≡ Some node → node.disk.last ≤ begun_in run }
    ensures planned { (run : List Happening) (c : ℕ) (node : Client) (p : Plan)
        → client_at (world_from start run) c ≡ Some node → node.disk.plan ≡ Some p → p.last ≤ begun_in run }
    ensures free_version { (run : List Happening) (table : ℕ) (hosted : Hosted) → length run < NUMBER_MAX
        → hosted_at (world_from start run) table ≡ Some hosted → length hosted.store.disk.items < NUMBER_MAX }
    ensures free_number { (run : List Happening) (c : ℕ) (node : Client) → begun_in run < NUMBER_MAX
        → client_at (world_from start run) c ≡ Some node → node.disk.last < NUMBER_MAX }
    ensures single { (run : List Happening) → AreSingle run → begun_in run ≡ length run }
    ensures single_number { (run : List Happening) (c : ℕ) (node : Client) → AreSingle run → length run < NUMBER_MAX
        → client_at (world_from start run) c ≡ Some node → node.disk.last < NUMBER_MAX }
{}

/// A client has no more rows in conflict in a table than the run has events: each was read at an entry of its own row.
/// So an event behind some others may begin one write more than these are, at most, and all events of a run together no
/// more writes than their number times itself.
pub fn conflicts_are_few()
    ensures pairs { (run : List Happening) (c table : ℕ)
        → length (client_pairs (client_at (world_from start run) c) table) ≤ length run }
    ensures begun { (run : List Happening) → begun_in run ≤ length run * length run }
{}

/// The tables, computed: an eventual table, whose first request comes again behind a later write.
pub fn a_late_repeat()
    ensures { turns late_repeat ≡ late_repeat_written }
{}

/// A causal table: a write over what its client had read.
pub fn a_read_before_a_write()
    ensures { turns read_before_write_is_no_conflict ≡ read_before_write_is_no_conflict_written }
{}

/// A causal table: a write over another client's, which its client hadn't read.
pub fn a_causal_conflict()
    ensures { turns causal_conflict ≡ causal_conflict_written }
{}

/// A strong table: a write that another client's comes before.
pub fn a_strong_refusal()
    ensures { turns strong_write_refused ≡ strong_write_refused_written }
{}

/// An object in place of another, computed, and the chunks that the Store names behind it: the first chunk stays, and
/// two are new.
pub fn an_object_in_place_of_another()
    ensures run { turns object_update ≡ object_update_written }
    ensures chunks { AreChunks (said_by object_update_written) 1 64 object_names }
{}

/// A write that keeps a chunk which another client's took away, computed: the Store asks for the whole, and where its
/// answer comes twice the client sends that once. It is accepted, and the client's next write keeps a chunk of it.
pub fn a_write_that_is_sent_whole()
    ensures { turns sent_whole ≡ sent_whole_written }
{}

/// A row that a client asks for whole, computed: it is read from the answer, and the next change is asked for. Where
/// the answer comes again, the client asks once more and nothing changes; its position moves with the answer to a pull.
pub fn a_row_that_is_asked_for_whole()
    ensures { turns asked_whole ≡ asked_whole_written }
{}

/// Other names aren't those of the chunks: where one is missing, where they stand in another order, and where one has a
/// version that no entry has.
pub fn other_chunk_names_are_refused()
    ensures missing { AreChunks (said_by object_update_written) 1 64 (named 1 0 ∷ named 2 0 ∷ []) → ⊥ }
    ensures turned { AreChunks (said_by object_update_written) 1 64 (named 2 0 ∷ named 1 0 ∷ named 2 1 ∷ []) → ⊥ }
    ensures unknown { AreChunks (said_by object_update_written) 1 64 (named 1 0 ∷ named 2 0 ∷ named 3 0 ∷ []) → ⊥ }
{}

/// A crash of a held Store inside a row's put, computed. Where the put landed its start goes forward to the entry, and
/// answers the request that comes again by it; where it didn't the start takes the version back, no row is shown, and
/// the request that comes again is accepted with the same version.
pub fn a_crash_inside_the_rows_put()
    ensures landed { turns landed_put ≡ landed_put_written }
    ensures lost { turns lost_put ≡ lost_put_written }
{}

/// A crash of a Store of two tables, computed: the write at work is that of the table of least number, and the other
/// table loses what it has begun. The start tells of both tables, and then does the work of the first and of the
/// second.
pub fn a_crash_of_two_tables()
    ensures { turns two_tables ≡ two_tables_written }
{}

/// A device write that fails, computed: the delivery says so and tells nothing, the Store takes nothing until it is
/// started, and the start takes the version back.
pub fn a_failed_write_takes_the_store_down()
    ensures { turns failed_put ≡ failed_put_written }
{}

/// A crash of a held client inside a plan's commit, computed. Where the commit landed the start tells the write again,
/// and the client does the rest of the plan and shows it; where it didn't there is no write.
pub fn a_crash_inside_a_clients_commit()
    ensures landed { turns (crash_in_commit 4) ≡ landed_commit_written }
    ensures lost { turns (crash_in_commit 0) ≡ lost_commit_written }
{}

/// A client's write that fails on its device, computed: the call says so, the client takes nothing until it is started,
/// and its start tells and does what had landed.
pub fn a_failed_write_takes_the_client_down()
    ensures { turns failed_commit ≡ failed_commit_written }
{}

/// A client's declaration, call and start in which a disk fails, computed: each leaves it down, with its devices as
/// they were, and the next start brings it up.
pub fn a_failed_read_takes_the_client_down()
    ensures { turns failed_reads ≡ failed_reads_written }
{}

/// A client's own device writes round those of its plans and starts, computed one by one, with crashes behind a plan's
/// commit and before one.
pub fn a_clients_own_writes()
    ensures { turns own_writes ≡ own_writes_written }
{}

/// Edits of a row with an object, computed: an update, a patch and a delete in turn, and those that find nothing to
/// edit or don't fit.
pub fn an_edit_of_each_kind()
    ensures { turns edits_in_turn ≡ edits_in_turn_written }
{}

/// A client whose link is down, computed: it neither sends nor takes a message, and a strong table isn't written; what
/// it can do alone it does. Once the link is up the message that it didn't take comes again.
pub fn a_link_that_is_down()
    ensures { turns cut_link ≡ cut_link_written }
{}

/// A phase of a table, computed: behind its begin a conflict is listed and moves on, a resolving beside a version that
/// it has left is refused, the next one writes over the Store's row, and nothing is written beside. Out of a phase
/// nothing is listed or resolved.
pub fn a_phase_of_a_table()
    ensures { turns in_a_phase ≡ in_a_phase_written }
{}

/// Calls in and out of a phase that are refused for their table or content, computed, and a crash, which ends the
/// phase.
pub fn a_phase_ends_with_its_client()
    ensures { turns refused_first ≡ refused_first_written }
{}

/// A write against a row that the Store deleted, computed: resolved by the Store's row there is nothing to delete;
/// by the client's, or by a new one, there is a write that isn't accepted yet.
pub fn a_write_against_a_delete()
    ensures theirs { turns (against_a_delete choices.Theirs) ≡ against_a_delete_written choices.Theirs 0 []
        (facts.Clean 2 Gone) (refuses facts.NoRow) }
    ensures mine { turns (against_a_delete choices.Mine) ≡ against_a_delete_written choices.Mine 2
        (told (wrote 2 2 2 6) ∷ []) (facts.Mine 2 (int 6))
        (facts.AnswerLine (facts.Number 3) ∷ told (wrote_content 2 3 2 Gone) ∷ []) }
    ensures made { turns (against_a_delete (choices.New (int 9))) ≡ against_a_delete_written (choices.New (int 9)) 2
        (told (wrote 2 2 2 9) ∷ []) (facts.Mine 2 (int 9))
        (facts.AnswerLine (facts.Number 3) ∷ told (wrote_content 2 3 2 Gone) ∷ []) }
{}

/// All conflicts of a table, computed: by the greater number, by the client's row and by the Store's.
pub fn all_conflicts_in_one_way()
    ensures larger { turns (all_resolved (resolvers.Larger 0)) ≡ all_resolved_written (resolvers.Larger 0)
        (told (wrote 2 2 1 6) ∷ []) (facts.Mine 2 (int 6)) }
    ensures mine { turns (all_resolved resolvers.Mine) ≡ all_resolved_written resolvers.Mine
        (told (wrote 2 2 1 6) ∷ []) (facts.Mine 2 (int 6)) }
    ensures theirs { turns (all_resolved resolvers.Theirs) ≡ all_resolved_written resolvers.Theirs []
        (facts.Clean 1 (int 5)) }
{}

/// Two rows in conflict that are resolved at once, computed. Where a device fails between them, the first is resolved
/// and the second as it was.
pub fn a_device_that_fails_between_two_rows()
    ensures both { turns both_resolved ≡ both_resolved_written }
    ensures one { turns one_resolved ≡ one_resolved_written }
{}

/// A table whose declaration failed, computed: it is there behind the Store's next start.
pub fn a_failed_declaration_is_made_up_for()
    ensures { turns failed_declaration ≡ failed_declaration_written }
{}

/// Crashes beside the chunks of an object, computed: what no row names is dropped, also where the recovery crashes
/// itself; what the row names that landed stays.
pub fn a_crash_beside_chunks()
    ensures between { turns crash_between_chunks ≡ crash_between_chunks_written }
    ensures landed { turns (crash_behind_chunks lucks.FailedAfter) ≡ crash_behind_chunks_written (forward 1 1 1 0) 4
        (named 1 0 ∷ named 1 1 ∷ named 1 2 ∷ []) }
    ensures lost { turns (crash_behind_chunks lucks.FailedBefore) ≡ crash_behind_chunks_written
        (facts.FactLine (facts.Back 1 1)) 7 [] }
{}

/// Settled, computed: behind a causal conflict one client shows the row's last version, and the other a conflict with
/// it.
pub fn a_conflict_is_settled()
    ensures { IsSettled (schemes_of causal_conflict_written) (said_by causal_conflict_written)
        ((1, 1) ∷ (2, 1) ∷ []) }
{}

/// Where a client shows a write that waits, or hasn't read a row, or a strong write is open, it isn't settled.
pub fn unsettled_tables_are_refused()
    ensures waiting { IsSettled (schemes_of late_repeat_written) (said_by late_repeat_written) ((1, 1) ∷ []) → ⊥ }
    ensures behind { IsSettled (schemes_of late_repeat_written) (said_by late_repeat_written) ((2, 1) ∷ []) → ⊥ }
    ensures strong { IsSettled (schemes_of strong_open) (said_by strong_open) [] → ⊥ }
{}

/// A worked transcript is sound.
pub fn a_worked_transcript_is_sound()
    ensures { IsSound read_before_write_is_no_conflict_written }
{}

/// With one line spoilt it isn't: another content in `wrote`, the version of `acked` one too high, a `show` answered by
/// the older version.
pub fn a_spoilt_line_is_refused()
    ensures wrote { IsSound (read_before_write 7 1 (facts.Clean 2 (int 6))) → ⊥ }
    ensures acked { IsSound (read_before_write 6 2 (facts.Clean 2 (int 6))) → ⊥ }
    ensures shown { IsSound (read_before_write 6 1 (facts.Clean 1 (int 5))) → ⊥ }
{}

/// A start may tell again what stands: `redone` a write and an acknowledgement, even below what was read since, and
/// `forward` an entry.
pub fn what_a_start_tells_again_is_sound()
    ensures { IsSound starts_retell }
{}

/// Told again in any other way it isn't: `wrote`, `accepted`, `acked` at once or below what was read since, `refused`,
/// `conflict`, `resolved`, `new` of another client's entry, and a position.
pub fn a_fact_told_twice_is_refused()
    ensures wrote { IsSound wrote_twice → ⊥ }
    ensures accepted { IsSound accepted_twice → ⊥ }
    ensures acked { IsSound acked_twice → ⊥ }
    ensures below { IsSound acked_below → ⊥ }
    ensures refused { IsSound refused_twice → ⊥ }
    ensures conflict { IsSound conflict_twice → ⊥ }
    ensures resolved { IsSound resolved_twice → ⊥ }
    ensures read { IsSound new_twice → ⊥ }
    ensures position { IsSound position_twice → ⊥ }
{}

/// A history whose first version is 2 isn't sound.
pub fn a_skipped_version_is_refused()
    ensures { IsSound skipped_version → ⊥ }
{}

/// A client whose first write has number 2 isn't sound.
pub fn a_skipped_number_is_refused()
    ensures { IsSound skipped_number → ⊥ }
{}

/// A number told again with another content isn't sound.
pub fn a_number_with_two_contents_is_refused()
    ensures { IsSound renamed → ⊥ }
{}

/// An entry of a write that was not told isn't sound.
pub fn an_entry_without_a_write_is_refused()
    ensures { IsSound unwritten → ⊥ }
{}

/// Two entries of one write isn't sound.
pub fn a_second_entry_is_refused()
    ensures { IsSound twice → ⊥ }
{}

/// An acknowledgement without an entry isn't sound.
pub fn an_ack_without_an_entry_is_refused()
    ensures { IsSound unearned → ⊥ }
{}

/// In a causal table, an entry over a version that is not current isn't sound.
pub fn an_outdated_base_is_refused()
    ensures { IsSound outdated → ⊥ }
{}

/// In a causal table, an entry over another client's that its client had not read isn't sound.
pub fn an_unread_entry_is_refused()
    ensures { IsSound unread → ⊥ }
{}

/// In a strong table, an entry whose write had not read the version before it isn't sound.
pub fn a_strong_entry_behind_is_refused()
    ensures { IsSound blind → ⊥ }
{}

/// In an eventual table, an entry over a version that there is not isn't sound.
pub fn a_base_that_is_no_entry_is_refused()
    ensures { IsSound groundless → ⊥ }
{}

/// A write that tells a version that its client had not read isn't sound.
pub fn an_unseen_read_position_is_refused()
    ensures { IsSound unseen → ⊥ }
{}

/// A client that reads a version below the one read isn't sound.
pub fn a_fallen_read_position_is_refused()
    ensures { IsSound fallen → ⊥ }
{}

/// A position that covers a row that was not read isn't sound.
pub fn a_position_past_an_unread_row_is_refused()
    ensures { IsSound past → ⊥ }
{}

/// A conflict with the client's own entry isn't sound.
pub fn a_conflict_with_oneself_is_refused()
    ensures { IsSound (selfish Causal) → ⊥ }
{}

/// A conflict in a strong table isn't sound.
pub fn a_strong_conflict_is_refused()
    ensures { IsSound (selfish Strong) → ⊥ }
{}

/// A conflict in an eventual table isn't sound.
pub fn an_eventual_conflict_is_refused()
    ensures { IsSound (selfish Eventual) → ⊥ }
{}

/// An entry of a write that was told as a conflict isn't sound.
pub fn an_entry_of_a_conflict_is_refused()
    ensures { IsSound revived → ⊥ }
{}

/// A refusal in a causal table isn't sound.
pub fn a_refusal_in_a_causal_table_is_refused()
    ensures { IsSound misplaced → ⊥ }
{}

/// A resolved conflict that no line names isn't sound.
pub fn a_resolving_without_a_conflict_is_refused()
    ensures { IsSound settled → ⊥ }
{}

/// A start that takes back a version that is not the next isn't sound.
pub fn a_wrong_version_taken_back_is_refused()
    ensures { IsSound back → ⊥ }
{}

/// Nothing shown behind a write isn't sound.
pub fn a_lost_write_is_refused()
    ensures { IsSound lost → ⊥ }
{}

/// A version shown with another content than its entry has isn't sound.
pub fn an_old_content_is_refused()
    ensures { IsSound stale → ⊥ }
{}

/// The Store's row shown in place of an open write isn't sound.
pub fn a_row_over_an_open_write_is_refused()
    ensures { IsSound over → ⊥ }
{}

/// The rows in conflict listed in any other way than each once, by the write and the version that it is shown with,
/// isn't sound: one left out, one that isn't in conflict, one beside another version, one listed twice, and one that
/// the answer doesn't count.
pub fn other_conflicts_are_refused()
    ensures missing { IsSound unlisted → ⊥ }
    ensures peaceful { IsSound peaceful → ⊥ }
    ensures version { IsSound beside → ⊥ }
    ensures twice { IsSound relisted → ⊥ }
    ensures uncounted { IsSound miscounted → ⊥ }
{}

/// A strong write shown before its answer isn't sound.
pub fn a_strong_write_shown_early_is_refused()
    ensures { IsSound early → ⊥ }
{}

/// An event without an answer isn't sound.
pub fn an_event_without_an_answer_is_refused()
    ensures { IsSound silent → ⊥ }
{}

/// A fact behind what the Store shows isn't sound.
pub fn a_fact_behind_the_stores_answer_is_refused()
    ensures { IsSound noisy → ⊥ }
{}

/// An event with two answers isn't sound.
pub fn a_second_answer_is_refused()
    ensures { IsSound doubled → ⊥ }
{}

/// A crash that tells a fact isn't sound.
pub fn a_crash_that_tells_is_refused()
    ensures { IsSound loud → ⊥ }
{}

/// A single write that is answered without its name isn't sound.
pub fn a_write_without_its_name_is_refused()
    ensures { IsSound nameless → ⊥ }
{}
