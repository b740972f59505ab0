ghost use Rattle.std.specs.Prelude.{◌≡◌};
ghost use Rattle.script_words.specs.Columns.{seen_column, kind_of, column_of};

use crate::forms::{is_name, parts_of};
use row_value::ColumnKind;

#[tactic(auto, unfolding(crate::specs::Columns::kind_of))]
fn kind_of(word: &str) -> Option<ColumnKind>
    ensures { result ≡ kind_of word.now }
{
    match word {
        "int" => Some(ColumnKind::Int),
        "bool" => Some(ColumnKind::Bool),
        "text" => Some(ColumnKind::Text),
        "object" => Some(ColumnKind::Object),
        _ => None,
    }
}

/// The name and the kind of a column, with a colon between them.
#[tactic(auto, unfolding(crate::specs::Columns::column_of))]
pub fn column_of(word: &str) -> Option<(&str, ColumnKind)>
    ensures { seen_column result ≡ column_of word.now }
{
    let (name, kind) = parts_of(word)?;
    let kind = kind_of(kind)?;
    if is_name(name) {
        Some((name, kind))
    } else {
        None
    }
}
