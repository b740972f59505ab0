ghost use Rattle.std.specs.Prelude.{◌≡◌, ℕ, List, IfOk, IfErr};
ghost use Rattle.row_value.specs.declared.schema.Schema.{Schema};
ghost use Rattle.select_lang.specs.Formula.{Formula};
ghost use Rattle.select_lang.specs.Machine.{start, read_all, has_tests, parsed, Answers};
ghost use Rattle.select_lang.specs.Grammar.{SpellsFormula, SpellsPred, IsBadWord, Blames, IsReading, IsRefusal};

use crate::fault::SelectFault;
use crate::predicate::Predicate;
use crate::reader::Reader;
use crate::words::column_at;
use row_value::Schema;
use stab_base::{Bytes, Sequence};
use std::alloc::Global;

/// How deep `not` and parentheses may nest, counted together.
const MOST_NESTED: u32 = 64;

/// The words of a selection.
pub type Words = Sequence<Bytes>;

fn has_tests(schema: &Schema) -> bool
    ensures { result ≡ has_tests schema.now }
{
    schema.columns.iter().any(|column| column_at(schema, column.name.as_slice()).is_some())
}

fn read_all(alloc: Global, schema: &Schema, words: &[Bytes]) -> Result<Predicate, SelectFault>
    ensures { Answers (read_all schema.now 0 (start 64) words.now) result }
{
    let mut reader = Reader::new(alloc, MOST_NESTED);
    'words: for (at, word) in words.iter().enumerate() {
        if !reader.take(schema, word.as_slice())? {
            return Err(SelectFault::BadSelection { at });
        }
    }
    match reader.finish()? {
        Some(predicate) => Ok(predicate),
        None => Err(SelectFault::BadSelection { at: words.len() }),
    }
}

fn parsed(alloc: Global, schema: &Schema, words: &Words) -> Result<Predicate, SelectFault>
    ensures { Answers (parsed schema.now words.now) result }
{
    if has_tests(schema) {
        read_all(alloc, schema, words.as_slice())
    } else {
        Err(SelectFault::BadSelection { at: 0 })
    }
}

/// The predicate that words spell: `COLUMN OP VALUE`, where COLUMN is a cell column of the table, OP is one of `=`,
/// `!=`, `<`, `<=`, `>` and `>=`, and VALUE is of the column's kind, in the form that a script writes it; `not` and a
/// test; a predicate in parentheses; tests joined by `and`, and these by `or`. `not` and parentheses nest at most 64
/// deep, counted together. `not` is read as a column where an operator follows and the table has such a cell column.
///
/// `BadSelection` names the first word at which no predicate goes on, and the count of words where words are missing.
pub fn parse(alloc: Global, schema: &Schema, words: &Words) -> Result<Predicate, SelectFault>
    ensures found { IfOk result (λ made. SpellsPred schema.now made words.now) }
    ensures fault { IfErr result (Blames schema.now words.now) }
    ensures only { (f : Formula) → SpellsFormula schema.now words.now f → IsReading f result }
    ensures refused { (at : ℕ) → IsBadWord schema.now words.now at → IsRefusal at result }
{
    parsed(alloc, schema, words)
}

/// Words spell one predicate.
pub fn one_reading()
    ensures { (schema : Schema) (words : List (List ℕ)) (f g : Formula)
        → SpellsFormula schema words f → SpellsFormula schema words g → f ≡ g }
{}

/// Words that spell a predicate have no word at which none goes on.
pub fn apart()
    ensures { (schema : Schema) (words : List (List ℕ)) (f : Formula) (at : ℕ)
        → SpellsFormula schema words f → IsBadWord schema words at → ⊥ }
{}

/// Words have one first word at which no predicate goes on.
pub fn one_place()
    ensures { (schema : Schema) (words : List (List ℕ)) (a b : ℕ)
        → IsBadWord schema words a → IsBadWord schema words b → a ≡ b }
{}

#[cfg(test)]
mod tests;
