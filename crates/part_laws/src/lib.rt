//! What a receiver makes of messages in parts: what it completes is, to its step table, a message that was sent.
#![tactic(auto)]

ghost use Rattle.std.specs.Prelude.{◌≡◌, ℕ, ◌<◌, true, nat_le, List, [], ◌∷◌, ◌++◌, map, Some};
ghost use Rattle.stab_base.specs.declared.chunk_name.ChunkName.{ChunkName};
ghost use Rattle.stab_base.specs.declared.node.Node.{Node};
ghost use Rattle.row_value.specs.declared.content.Content.{Content};
ghost use Rattle.row_value.specs.declared.pieces.Piece.{Piece};
ghost use Rattle.row_value.specs.declared.schema.Scheme.{Scheme};
ghost use Rattle.chunker.specs.Sized.{sized};
ghost use Rattle.step_tables.specs.Chunks.{objects_of, is_of_each, is_spelled, is_named};
ghost use Rattle.step_tables.specs.Store.{Stored};
ghost use Rattle.step_tables.specs.Members.{Among};
ghost use Rattle.step_tables.specs.Messages.{Request, Pulled, TornPulled, Header, Message, SyncRequest};
ghost use Rattle.step_tables.specs.StoreMoves.{StoreDisk, store_step};
ghost use Rattle.step_tables.specs.StoreMoves as store_moves;
ghost use Rattle.step_tables.specs.ClientMoves.{Shape, ClientDisk, TableDisk, client_step, table_at, seen};
ghost use Rattle.step_tables.specs.ClientMoves.{slots_at, top};
ghost use Rattle.step_tables.specs.ClientMoves as client_moves;
ghost use Rattle.piece_laws.specs.Pieces.{NamesOne};
ghost use Rattle.part_tables.specs.Parts.{Part, Asks, Answers, BringsUp, BringsDown, AnswersTorn, Fragment};
ghost use Rattle.part_tables.specs.Parts.{spelled_by, pieces_in, kept, head_of, pulled_head, torn_head};
ghost use Rattle.part_tables.specs.StoreParts.{Gathering, is_answered};
ghost use Rattle.part_tables.specs.StoreParts as store_parts;
ghost use Rattle.part_tables.specs.ClientParts.{Answering, names_in};
ghost use Rattle.part_tables.specs.ClientParts as client_parts;
ghost use Rattle.part_tables.specs.Arriving.{Arriving, nothing_arriving, arrived as made_of, asking};
ghost use Rattle.part_laws.specs.Lengths.{AreAsLong, request_with, answer_with, torn_with};
ghost use Rattle.part_laws.specs.Gathers.{AreSent, Gathers, IsPart, ComesAs};
ghost use Rattle.part_laws.specs.Completed.{completed, AreAllChunks, IsTakenOnce};
ghost use Rattle.part_laws.specs.Answers.{AreAnswers, IsOpened, AreAnswering, table_of};
ghost use Rattle.part_laws.specs.Answers as answers;
ghost use Rattle.part_laws.specs.Arrived.{IsNotTorn};
ghost use Rattle.part_laws.specs.Arrived as arrived;
ghost use Rattle.part_laws.specs.Rows.{SentDown, AreOfItems, AreArriving, IsTornRow};
ghost use Rattle.part_laws.specs.Rows as rows;
ghost use Rattle.part_laws.specs.RowsOnce.{IsOfItsRow, NoneAwaits};
ghost use Rattle.part_laws.specs.RowsOnce as rows_once;

/// Whether pieces spell a content, and whether names name its chunks, is known by the lengths of its objects; and a
/// content that is spelled by pieces, one for each chunk, has these pieces.
pub fn lengths_tell_how_contents_are_spelled()
    ensures spelled { (size : ℕ) (content : Content) (pieces : List (List Piece))
        → is_spelled size (sized (spelled_by content pieces)) pieces ≡ is_spelled size content pieces }
    ensures named { (size : ℕ) (content : Content) (pieces : List (List Piece)) (names : List (List ChunkName))
        → is_named size (sized (spelled_by content pieces)) names ≡ is_named size content names }
    ensures pieces { (size : ℕ) (content : Content) (pieces : List (List Piece))
        → is_of_each size pieces (objects_of content) ≡ true → pieces_in (spelled_by content pieces) ≡ pieces }
    ensures names { (size : ℕ) (content : Content) (names : List (List ChunkName))
        → is_of_each size names (objects_of content) ≡ true → names_in (spelled_by content (kept names)) ≡ names }
{}

/// A request that the Store answers before it looks at the content, since it is a repeat, is late, rests on an outdated
/// base or keeps a chunk that the row hasn't by its name and length, is answered alike with any content whose objects
/// are as long.
pub fn some_requests_are_answered_by_lengths()
    ensures { (store size table : ℕ) (g : Scheme) (d : StoreDisk) (from : Node) (q : Request) (other : Content)
        → AreAsLong q.content other → is_answered g size d.items (head_of q) ≡ true
        → store_step store g size table (record { disk = d; agenda = Some [] })
        (store_moves.Take from (SyncRequest (request_with q other)))
        ≡ store_step store g size table (record { disk = d; agenda = Some [] })
        (store_moves.Take from (SyncRequest q)) }
{}

/// Of an answer to a pull whose row isn't newer than the one that the client has seen, the bytes of its objects don't
/// matter.
pub fn rows_that_were_seen_are_taken_by_lengths()
    ensures { (c : ℕ) (shape : Shape) (d : ClientDisk) (opened : TableDisk) (p : Pulled) (h : Header) (other : Content)
        → AreAsLong h.content other → table_at (seen d) p.table ≡ Some opened
        → nat_le h.version (top (slots_at opened h.row).conflict (slots_at opened h.row).shadow) ≡ true
        → client_step c shape (record { disk = d; agenda = Some [] }) (client_moves.Take (answer_with p h other))
        ≡ client_step c shape (record { disk = d; agenda = Some [] })
        (client_moves.Take (answer_with p h h.content)) }
{}

/// Of a row that was asked for whole, and isn't newer than the one that the client has seen, the bytes of its objects
/// don't matter.
pub fn whole_rows_that_were_seen_are_taken_by_lengths()
    ensures { (c : ℕ) (shape : Shape) (d : ClientDisk) (opened : TableDisk) (t : TornPulled) (h : Header)
        (other : Content) → AreAsLong h.content other → table_at (seen d) t.table ≡ Some opened
        → nat_le h.version (top (slots_at opened h.row).conflict (slots_at opened h.row).shadow) ≡ true
        → client_step c shape (record { disk = d; agenda = Some [] }) (client_moves.Take (torn_with t h other))
        ≡ client_step c shape (record { disk = d; agenda = Some [] })
        (client_moves.Take (torn_with t h h.content)) }
{}

/// Parts of requests that were sent to a table at the Store, in any order, repeated or lost: what is gathered is always
/// of such a request, and what a part completes is taken as one of its client's, by a table with these items that is up
/// with no write to be done. It holds while more is sent and while items are added.
pub fn parts_at_the_store()
    ensures none { (size : ℕ) (sent : List Request) → Gathers size sent [] }
    ensures gathers { (g : Scheme) (size : ℕ) (items : List Stored) (sent : List Request) (gs : List Gathering)
        (p : Part) → 0 < size → NamesOne size items → AreSent size items sent → Gathers size sent gs
        → IsPart size sent p → Gathers size sent (store_parts.parted g size items gs p).gatherings }
    ensures whole { (g : Scheme) (size : ℕ) (items : List Stored) (sent : List Request) (gs : List Gathering) (p : Part)
        (m : Message) → 0 < size → NamesOne size items → AreSent size items sent → Gathers size sent gs
        → IsPart size sent p → (store_parts.parted g size items gs p).taken ≡ store_parts.Whole m
        → ComesAs g size items sent p m }
    ensures items { (size : ℕ) (items more : List Stored) (sent : List Request) → AreSent size items sent
        → AreSent size (items ++ more) sent }
    ensures sent { (size : ℕ) (sent others : List Request) (gs : List Gathering)
        → ((q : Request) → Among sent q → Among others q) → Gathers size sent gs → Gathers size others gs }
{}

/// A request whose header comes to a table at the Store, and then each of its chunks that travel, in any order and
/// maybe repeated, with no part of another request of its client between and no item added, completes one message,
/// which is taken as the request; whatever was gathered before.
pub fn requests_in_parts_are_taken_once()
    ensures { (g : Scheme) (size : ℕ) (items : List Stored) (sent : List Request) (gs : List Gathering) (q : Request)
        (fragments : List Fragment) → 0 < size → NamesOne size items → AreSent size items sent → Among sent q
        → AreAllChunks size q fragments
        → IsTakenOnce g size items q
        (completed g size items gs (Asks (head_of q) ∷ map (λ (f : Fragment). BringsUp f) fragments)) }
{}

/// Parts of answers to a client's pulls that were sent, in any order, repeated or lost: what waits has always come of
/// such answers, and what a part completes is taken as one of them, by a client that has the part's table opened and is
/// up with no write to be done. It holds while more is sent and while items are added.
pub fn parts_at_a_client()
    ensures none { (size : ℕ → ℕ) (sent : List Pulled) → AreAnswering size sent [] }
    ensures waits { (size : ℕ → ℕ) (items : ℕ → List Stored) (sent : List Pulled) (opened : TableDisk)
        (xs : List Answering) (p : Part) → AreAnswers size items sent
        → IsOpened (size (table_of p)) (items (table_of p)) opened → AreAnswering size sent xs
        → answers.IsPart size sent p → AreAnswering size sent (client_parts.parted opened xs p).answerings }
    ensures whole { (size : ℕ → ℕ) (items : ℕ → List Stored) (sent : List Pulled) (opened : TableDisk)
        (xs : List Answering) (p : Part) (m : Message) → AreAnswers size items sent
        → IsOpened (size (table_of p)) (items (table_of p)) opened → AreAnswering size sent xs
        → answers.IsPart size sent p → (client_parts.parted opened xs p).taken ≡ client_parts.Whole m
        → answers.ComesAs opened sent p m }
    ensures items { (size : ℕ → ℕ) (items more : ℕ → List Stored) (sent : List Pulled)
        → ((table : ℕ) (i : Stored) → Among (items table) i → Among (more table) i)
        → AreAnswers size items sent → AreAnswers size more sent }
    ensures sent { (size : ℕ → ℕ) (sent others : List Pulled) (xs : List Answering)
        → ((p : Pulled) → Among sent p → Among others p) → AreAnswering size sent xs → AreAnswering size others xs }
{}

/// Parts of answers to a client's pulls and of rows that it asked for whole, in any order, repeated or lost, where a
/// fragment may be of either: what the client keeps has always come of those that were sent, also behind a pull; what a
/// part completes is taken as one of them, by a client that has the part's table opened and is up with no write to be
/// done; and a row that it finds torn is of an answer to a pull. It holds while more is sent and while items are added.
pub fn rows_come_whole_or_by_parts()
    ensures none { (size : ℕ → ℕ) (sent : SentDown) → AreArriving size sent nothing_arriving }
    ensures arriving { (size : ℕ → ℕ) (items : ℕ → List Stored) (sent : SentDown) (opened : TableDisk) (a : Arriving)
        (p : Part) → AreOfItems size items sent → IsOpened (size (table_of p)) (items (table_of p)) opened
        → AreArriving size sent a → rows.IsPart size sent p → AreArriving size sent (made_of opened a p).arriving }
    ensures whole { (size : ℕ → ℕ) (items : ℕ → List Stored) (sent : SentDown) (opened : TableDisk) (a : Arriving)
        (p : Part) (m : Message) → AreOfItems size items sent
        → IsOpened (size (table_of p)) (items (table_of p)) opened → AreArriving size sent a
        → rows.IsPart size sent p → (made_of opened a p).taken ≡ client_parts.Whole m
        → rows.ComesAs opened sent p m }
    ensures tears { (size : ℕ → ℕ) (items : ℕ → List Stored) (sent : SentDown) (opened : TableDisk) (a : Arriving)
        (p : Part) (row : List ℕ) → AreOfItems size items sent
        → IsOpened (size (table_of p)) (items (table_of p)) opened → AreArriving size sent a
        → rows.IsPart size sent p → (made_of opened a p).taken ≡ client_parts.Tears row
        → IsTornRow (table_of p) sent.pulls row }
    ensures asking { (size : ℕ → ℕ) (sent : SentDown) (table : ℕ) (a : Arriving) → AreArriving size sent a
        → AreArriving size sent (asking table a) }
    ensures items { (size : ℕ → ℕ) (items more : ℕ → List Stored) (sent : SentDown)
        → ((table : ℕ) (i : Stored) → Among (items table) i → Among (more table) i)
        → AreOfItems size items sent → AreOfItems size more sent }
    ensures sent { (size : ℕ → ℕ) (sent others : SentDown) (a : Arriving)
        → ((p : Pulled) → Among sent.pulls p → Among others.pulls p)
        → ((t : TornPulled) → Among sent.rows t → Among others.rows t)
        → AreArriving size sent a → AreArriving size others a }
{}

/// An answer to a pull from a client's position, whose header comes and then each of its chunks that travel, in any
/// order and maybe repeated, with no part of another answer of the table between and no change of the table, completes
/// one message, which is taken as the answer, where the client holds the chunks of a newer row that don't travel;
/// whatever waited before.
pub fn answers_in_parts_are_taken_once()
    ensures { (size : ℕ → ℕ) (items : ℕ → List Stored) (sent : List Pulled) (opened : TableDisk) (xs : List Answering)
        (p : Pulled) (h : Header) (fragments : List Fragment) → AreAnswers size items sent
        → IsOpened (size p.table) (items p.table) opened → Among sent p → p.header ≡ Some h
        → p.from ≡ opened.position → IsNotTorn opened p h → arrived.AreAllChunks (size p.table) p fragments
        → arrived.IsTakenOnce opened p
        (arrived.completed opened xs
        (Answers (pulled_head p) ∷ map (λ (f : Fragment). BringsDown f) fragments)) }
{}

/// A row that a client asked for whole, whose header comes and then each of its chunks, in any order and maybe
/// repeated, with no other answer of the row between, no answer to a pull that waits for one of these chunks, and no
/// change of the table, completes one message, which is taken as the row; whatever waited before.
pub fn whole_rows_in_parts_are_taken_once()
    ensures { (size : ℕ → ℕ) (items : ℕ → List Stored) (sent : SentDown) (opened : TableDisk) (a : Arriving)
        (t : TornPulled) (fragments : List Fragment) → AreOfItems size items sent
        → IsOpened (size t.table) (items t.table) opened → Among sent.rows t → IsOfItsRow t
        → rows_once.AreAllChunks (size t.table) t fragments → NoneAwaits a fragments
        → rows_once.IsTakenOnce opened t
        (rows_once.completed opened a
        (AnswersTorn (torn_head t) ∷ map (λ (f : Fragment). BringsDown f) fragments)) }
{}
