ghost use Rattle.std.specs.Prelude.{◌≡◌, ◌<◌, ◌≤◌, ◌++◌, ℕ, not, List, length};
ghost use Rattle.percent_encoding.specs.AsciiSet.{should_percent_encode};
ghost use Rattle.table_model.specs.declared.event.Event.{Event as AnEvent};
ghost use Rattle.script_text.specs.declared.fault.BadLine.{BadLine as ABadLine};
ghost use Rattle.transcript_text.specs.declared.print.TheConstants.{ESCAPED};
ghost use Rattle.simba_top.specs.Limits.{input_most, lines_most, line_most, rows_most, number_most, is_bare};
ghost use Rattle.simba_top.specs.Script.{IsWhole};
ghost use Rattle.simba_top.specs.Ends.{IsBadAt, IsLimitAt, IsCutOff};

use crate::row_names::MOST_ROWS;
use crate::run::MOST_LINES;
use stab_base::NUMBER_MAX;
use stab_io::{INPUT_LIMIT, LINE_LIMIT};

/// The program's limits, and the bytes of a text cell that it escapes, are those of the definition. It has no code: its
/// clauses are the law.
pub fn limits_are_as_defined()
    ensures input { INPUT_LIMIT ≡ input_most }
    ensures lines { MOST_LINES ≡ lines_most }
    ensures line { LINE_LIMIT ≡ line_most }
    ensures rows { MOST_ROWS ≡ rows_most }
    ensures number { NUMBER_MAX ≡ number_most }
    // Of a text cell all other bytes are written as `%` and two hex digits.
    ensures escaped { (b : ℕ) → b < 256 → should_percent_encode ESCAPED b ≡ not (is_bare b) }
{}

/// An input spells one script at most. It has no code: its clause is the law.
pub fn one_script()
    ensures { (input : List ℕ) (a b : List AnEvent) → IsWhole input a → IsWhole input b → a ≡ b }
{}

/// An input has one end: it spells a script, or has a first bad line, or passes a limit first; there is one such line,
/// with one fault or one limit, behind one script. No run over it goes further, also where its source fails. It has no
/// code: its clauses are the law.
pub fn one_end()
    ensures whole_bad { (input : List ℕ) (a b : List AnEvent) (count : ℕ) (fault : ABadLine)
        → IsWhole input a → IsBadAt input b count fault → ⊥ }
    ensures whole_limit { (input : List ℕ) (a b : List AnEvent) (count limit : ℕ) → IsWhole input a
        → IsLimitAt input b count limit → ⊥ }
    ensures bad_limit { (input : List ℕ) (a b : List AnEvent) (n m : ℕ) (fault : ABadLine) (limit : ℕ)
        → IsBadAt input a n fault → IsLimitAt input b m limit → ⊥ }
    ensures one_bad { (input : List ℕ) (a b : List AnEvent) (n m : ℕ) (f g : ABadLine)
        → IsBadAt input a n f → IsBadAt input b m g → (a ≡ b) × (n ≡ m) × (f ≡ g) }
    ensures one_limit { (input : List ℕ) (a b : List AnEvent) (n m l k : ℕ)
        → IsLimitAt input a n l → IsLimitAt input b m k → (a ≡ b) × (n ≡ m) × (l ≡ k) }
    ensures bad_cut { (input : List ℕ) (a b : List AnEvent) (n : ℕ) (fault : ABadLine) (left : List ℕ)
        → IsBadAt input a n fault → (cut : IsCutOff input b left) → cut.count ≤ n }
    ensures limit_cut { (input : List ℕ) (a b : List AnEvent) (n limit : ℕ) (left : List ℕ)
        → IsLimitAt input a n limit → (cut : IsCutOff input b left) → cut.count ≤ n }
    // Where the source failed with bytes left it gave one script, which is a front of the whole one where there is one.
    ensures one_cut { (input : List ℕ) (a b : List AnEvent) (left : List ℕ) → 0 < length left
        → (x : IsCutOff input a left) → (y : IsCutOff input b left) → (a ≡ b) × (x.count ≡ y.count) }
    ensures whole_cut { (input : List ℕ) (a b : List AnEvent) (left : List ℕ)
        → IsWhole input a → IsCutOff input b left → (more : List AnEvent) × (a ≡ b ++ more) }
{}
