//! What an update and a recovery leave at every moment.
ghost use Rattle.std.specs.Prelude.{◌≡◌, ℕ, List, [], Some, None, is_some};
ghost use Rattle.std.specs.BTreeSet.{BTreeSet, keys};
ghost use Rattle.std.specs.Map.{keys_of};
ghost use Rattle.std.specs.List.Sorted.{IsStrictlySortedBy};
ghost use Rattle.stab_base.specs.declared.chunk_name.ChunkName.{ChunkName};
ghost use Rattle.row_store.specs.declared.stored.StoredRow.{StoredRow};
ghost use Rattle.row_store.specs.Data.{TableData, id_cmp, with_row};
ghost use Rattle.status_log.specs.Entry.{Entry};
ghost use Rattle.store_commit.specs.Devs.{Devs, Write, changed_by_all};
ghost use Rattle.store_commit.specs.NamedChunks.{NamedChunks};
ghost use Rattle.store_commit.specs.There.{hidden_rows, WholeRows, MayBeWhole};
ghost use Rattle.store_commit.specs.Scan.{AreSpared};
ghost use Rattle.store_commit.specs.Agenda.{update_writes, Replaces, meaning_with, IsMoment, Runs, recovery_writes};
ghost use Rattle.store_commit.specs.Agenda.{IsRecovering, AreLeftovers};

/// Before and behind each write of an update, the devices have named chunks, and the rows from before it until its
/// row was put, and those with it whole from then on. Behind the last no entry is open. (Does nothing: its clauses are
/// laws.)
pub fn update_keeps_named_chunks()
    ensures moments { (meaning : ChunkName → List ℕ) (d : Devs) (entry : Entry) (fresh : List (List ℕ))
        (stored : StoredRow)
        → NamedChunks meaning d → d.pending ≡ None → Replaces d entry fresh stored
        → Runs (IsMoment (meaning_with meaning entry.version fresh) d.held stored) d
        (update_writes entry fresh stored) }
    ensures ends { (d : Devs) (entry : Entry) (fresh : List (List ℕ)) (stored : StoredRow)
        → (changed_by_all d (update_writes entry fresh stored)).pending ≡ None }
{}

/// Before and behind each write of a recovery, the devices have named chunks, and the rows that were there at its
/// start. Behind the last no entry is open. (Does nothing: its clauses are laws.)
pub fn recovery_keeps_named_chunks()
    ensures moments { (meaning : ChunkName → List ℕ) (d : Devs) (names : List ChunkName) → NamedChunks meaning d
        → AreLeftovers d names
        → Runs (IsRecovering meaning d.held) d (recovery_writes names (is_some d.pending)) }
    ensures ends { (d : Devs) (names : List ChunkName)
        → (changed_by_all d (recovery_writes names (is_some d.pending))).pending ≡ None }
{}

/// Where the devices have named chunks, and each row is whole, each row is there, and no name is spared. (Does nothing:
/// its clauses are laws.)
pub fn whole_rows_are_there()
    ensures rows { (meaning : ChunkName → List ℕ) (d : Devs) → NamedChunks meaning d → WholeRows meaning d.held
        → IsStrictlySortedBy id_cmp (keys_of d.held.rows) → hidden_rows d ≡ [] }
    ensures names { (meaning : ChunkName → List ℕ) (d : Devs) (spared : BTreeSet ChunkName) → NamedChunks meaning d
        → WholeRows meaning d.held → IsStrictlySortedBy id_cmp (keys_of d.held.rows)
        → AreSpared d spared → keys spared ≡ [] }
{}

/// At each moment of an update, and of a recovery, each row is whole that was before it, where the new one is. (Does
/// nothing: its clauses are laws.)
pub fn rows_stay_whole()
    ensures update { (meaning : ChunkName → List ℕ) (before : TableData) (stored : StoredRow) (ws : List Write)
        (d : Devs) → IsMoment meaning before stored ws d → MayBeWhole meaning before stored
        → WholeRows meaning d.held }
    ensures recovery { (meaning : ChunkName → List ℕ) (before : TableData) (ws : List Write) (d : Devs)
        → IsRecovering meaning before ws d → WholeRows meaning before → WholeRows meaning d.held }
{}
