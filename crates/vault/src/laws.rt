//! What the bytes of a file mean.
ghost use Rattle.std.specs.Prelude.{◌≡◌, ◌<◌, ◌++◌, [], ℕ, List, length};
ghost use Rattle.vault.specs.File.{StandsFor, IsShut, AllShort, records};

/// What a file stands for. (Does nothing: its clauses are laws.)
pub fn what_files_stand_for()
    ensures empty { StandsFor [] [] }
    // Records, and then a gate that isn't open or has nothing behind it, stand for the records' payloads.
    ensures written { (payloads : List (List ℕ)) (rest : List ℕ) → AllShort payloads → 0 < length rest → IsShut rest
        → StandsFor (records payloads ++ rest) payloads }
    ensures one { (file : List ℕ) (left right : List (List ℕ)) → StandsFor file left → StandsFor file right
        → left ≡ right }
{}
