use crate::{Comparison, Predicate, holds};
use row_value::{Cell, Content, Schema, Scheme};
use stab_base::{Bytes, Sequence};
use std::alloc::{AllocError, Global};
use std::test::Fail;

#[derive(Clone, Copy)]
enum Value {
    Int(i64),
    Bool(bool),
    Text(&'static [u8]),
}

fn cell_of(alloc: Global, value: Value) -> Result<Cell, AllocError> {
    Ok(match value {
        Value::Int(number) => Cell::Int(number),
        Value::Bool(flag) => Cell::Bool(flag),
        Value::Text(text) => Cell::Text(Bytes::from_slice(alloc, text)?),
    })
}

// A row of a number 5, a flag and a text.
fn row_of(alloc: Global) -> Result<Content, AllocError> {
    let mut cells = Sequence::new(alloc);
    cells.push(Cell::Int(5))?;
    cells.push(Cell::Bool(true))?;
    cells.push(Cell::Text(Bytes::from_slice(alloc, b"b")?))?;
    Ok(Content::Row {
        cells,
        objects: Sequence::new(alloc),
    })
}

fn schema_of(alloc: Global) -> Schema {
    Schema {
        name: Bytes::new(alloc),
        scheme: Scheme::Causal,
        chunk: 64,
        columns: Sequence::new(alloc),
    }
}

type Test = (u32, Comparison, Value);

fn test_of(alloc: Global, test: Test) -> Result<Predicate, AllocError> {
    let (column, comparison, value) = test;
    Ok(Predicate::Test {
        column,
        comparison,
        value: cell_of(alloc, value)?,
    })
}

fn is_met(alloc: Global, test: Test) -> Result<bool, AllocError> {
    let predicate = test_of(alloc, test)?;
    Ok(holds(&schema_of(alloc), &predicate, &row_of(alloc)?))
}

const CASES: [(Test, bool); 16] = [
    ((0, Comparison::Greater, Value::Int(4)), true),
    ((0, Comparison::Greater, Value::Int(5)), false),
    ((0, Comparison::GreaterOrEqual, Value::Int(5)), true),
    ((0, Comparison::Less, Value::Int(-6)), false),
    ((0, Comparison::LessOrEqual, Value::Int(5)), true),
    ((0, Comparison::NotEqual, Value::Int(i64::MIN)), true),
    ((1, Comparison::Greater, Value::Bool(false)), true),
    ((1, Comparison::Equal, Value::Bool(true)), true),
    ((2, Comparison::Greater, Value::Text(b"ab")), true),
    ((2, Comparison::Less, Value::Text(b"ba")), true),
    ((2, Comparison::Greater, Value::Text(b"")), true),
    ((2, Comparison::Less, Value::Text(b"\xc3\xa9")), true),
    // another kind, and a column that isn't there
    ((0, Comparison::Equal, Value::Bool(true)), false),
    ((0, Comparison::NotEqual, Value::Text(b"5")), false),
    ((3, Comparison::NotEqual, Value::Int(5)), false),
    ((u32::MAX, Comparison::Equal, Value::Int(5)), false),
];

#[test]
fn cells_compare_with_values(rt: HostRuntime) -> Result<(), Fail> {
    for (test, met) in CASES {
        assert_eq!(rt; is_met(rt.alloc(), test)?, met);
    }
    Ok(())
}

// Whether a row, and whether a deleted one, meets `n = 4 or not (n = 5 and flag = false)`, turned round where asked.
fn both(alloc: Global, turned: bool) -> Result<(bool, bool), AllocError> {
    let mut and = Vec::new(alloc);
    and.push(test_of(alloc, (0, Comparison::Equal, Value::Int(5)))?)?;
    and.push(test_of(alloc, (1, Comparison::Equal, Value::Bool(false)))?)?;
    let mut or = Vec::new(alloc);
    or.push(test_of(alloc, (0, Comparison::Equal, Value::Int(4)))?)?;
    or.push(Predicate::Not(Box::new(alloc, Predicate::All(and))?))?;
    let any = Predicate::Any(or);
    let predicate = if turned {
        Predicate::Not(Box::new(alloc, any)?)
    } else {
        any
    };
    let schema = schema_of(alloc);
    Ok((
        holds(&schema, &predicate, &row_of(alloc)?),
        holds(&schema, &predicate, &Content::Gone),
    ))
}

#[test]
fn predicates_nest(rt: HostRuntime) -> Result<(), Fail> {
    assert_eq!(rt; both(rt.alloc(), false)?, (true, false));
    assert_eq!(rt; both(rt.alloc(), true)?, (false, false));
    Ok(())
}
