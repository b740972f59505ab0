//! A declared table, whose columns are found by their names.
ghost use Rattle.std.specs.Prelude.{◌≡◌, ◌∷◌, [], IfOk, OnOk, OnErr, take};
ghost use Rattle.row_value.specs.declared.schema.Column.{Column as AColumn};
ghost use Rattle.std.specs.Prelude.{List, ℕ};
ghost use Rattle.script_text.specs.Names.{column_number, number_in, with_number, FindsColumns};

use row_value::{Column, Schema};
use std::alloc::{AllocError, Global};
use std::collections::BTreeMap;
use std::marker::Model;

/// A table's schema, with the numbers of its columns by their names.
#[derive(Drop)]
pub(crate) struct DeclaredTable {
    schema: Schema,
    numbers: BTreeMap<Vec<u8>, usize>,
}

impl Model for DeclaredTable {
    ghost use Rattle.row_value.specs.declared.schema.Schema.{Schema as ASchema};
    ghost use Rattle.script_text.specs.Names.{FindsColumns};

    ghost Value = { ASchema };

    ghost view = { λ t. t.schema };

    ghost invariant = { λ t. FindsColumns t.numbers.entries t.schema.columns };
}

// Gives a column its number, unless a column before it has its name.
fn put_number(
    alloc: Global,
    numbers: &mut BTreeMap<Vec<u8>, usize>,
    name: &[u8],
    number: usize,
) -> Result<(), AllocError>
    ensures { OnOk result ((w : List ℕ) → number_in numbers.new.entries w
        ≡ with_number (number_in numbers.old.entries w) name.now number w) }
{
    if numbers.contains_key(name) {
        return Ok(());
    }
    let name = Vec::from_slice(alloc, name)?;
    let _none = numbers.insert(name, number)?;
    Ok(())
}

fn numbers_of(alloc: Global, columns: &[Column]) -> Result<BTreeMap<Vec<u8>, usize>, AllocError>
    ensures { IfOk result (λ numbers. FindsColumns numbers.entries columns.now) }
{
    let mut numbers = BTreeMap::new(alloc);
    for (number, column) in columns.iter().enumerate() {
        put_number(alloc, &mut numbers, column.name.as_slice(), number)?;
    }
    Ok(numbers)
}

impl DeclaredTable {
    /// A table of this schema.
    pub(crate) fn new(alloc: Global, schema: &Schema) -> Result<DeclaredTable, AllocError>
        ensures { IfOk result (λ table. table ≡ schema.now) }
    {
        let schema = schema.copy()?;
        let numbers = numbers_of(alloc, schema.columns.as_slice())?;
        Ok(DeclaredTable { schema, numbers })
    }

    /// The number of the column of this name, counted from 0.
    pub(crate) fn column_number(&self, name: &[u8]) -> Option<usize>
        ensures { result ≡ column_number self.now.columns name.now }
    {
        self.numbers.get(name).copied()
    }
}
