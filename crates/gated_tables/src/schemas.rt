ghost use Rattle.std.specs.Prelude.{◌≡◌, true, zip};
ghost use Rattle.std.specs.List.{list_all};
ghost use Rattle.row_value.specs.declared.schema.Schema.{Schema as ASchema};
ghost use Rattle.gated_tables.specs.Schemas.{same_column, same_columns, same_schema};

use row_value::{Column, Schema};

fn is_same_column(a: &Column, b: &Column) -> bool
    ensures { result ≡ same_column (a.now, b.now) }
{
    a.name.as_slice() == b.name.as_slice() && a.kind == b.kind
}

// As far as both go.
fn agree(columns: &[Column], others: &[Column]) -> bool
    ensures { result ≡ list_all same_column (zip columns.now others.now) }
{
    columns
        .iter()
        .zip(others.iter())
        .all(|(column, other)| is_same_column(column, other))
}

fn are_same_columns(columns: &[Column], others: &[Column]) -> bool
    ensures { result ≡ same_columns columns.now others.now }
{
    columns.len() == others.len() && agree(columns, others)
}

/// Whether two schemas are the same: their names, schemes, sizes of chunks and columns.
pub fn is_same_schema(a: &Schema, b: &Schema) -> bool
    ensures { result ≡ same_schema a.now b.now }
{
    a.name.as_slice() == b.name.as_slice()
        && a.scheme == b.scheme
        && a.chunk == b.chunk
        && are_same_columns(a.columns.as_slice(), b.columns.as_slice())
}

/// Two schemas are the same exactly where they are equal. (Does nothing: its clauses are laws.)
pub fn same_schemas_are_equal()
    ensures equal { (a b : ASchema) → same_schema a b ≡ true → a ≡ b }
    ensures same { (a : ASchema) → same_schema a a ≡ true }
{}
