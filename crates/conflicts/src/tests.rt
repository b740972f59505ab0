ghost use Rattle.std.specs.Prelude.{◌≡◌, Ok};
ghost use Rattle.row_value.specs.Fit.{fit_of};

use crate::{Choice, Pair, Resolver, Stored, StoredResolver};
use row_value::{Cell, Content, Schema, Scheme};
use stab_base::{Bytes, RowId, Sequence};
use std::alloc::{AllocError, Global};
use std::test::Fail;

#[derive(Clone, Copy)]
enum Side {
    Gone,
    Number(i64),
    Flag,
}

// The number 7 stands in front of the cell.
fn content_of(alloc: Global, side: Side) -> Result<Content, AllocError> {
    let mut cells = Sequence::new(alloc);
    cells.push(Cell::Int(7))?;
    match side {
        Side::Gone => return Ok(Content::Gone),
        Side::Number(number) => cells.push(Cell::Int(number))?,
        Side::Flag => cells.push(Cell::Bool(true))?,
    }
    Ok(Content::Row {
        cells,
        objects: Sequence::new(alloc),
    })
}

// Whether the client's write is taken.
fn is_mine(alloc: Global, stored: Stored, mine: Side, theirs: Side) -> Result<bool, AllocError> {
    let pair = Pair {
        row: RowId::from_bytes([0; 16]),
        number: 1,
        version: 2,
        mine: content_of(alloc, mine)?,
        theirs: content_of(alloc, theirs)?,
    };
    Ok(matches!(stored.choose(&pair), Choice::Mine))
}

const COLUMN: Stored = Stored::Larger { column: 1 };

const CASES: [(Stored, Side, Side, bool); 11] = [
    (Stored::Mine, Side::Number(6), Side::Number(5), true),
    (Stored::Mine, Side::Gone, Side::Number(5), true),
    (Stored::Theirs, Side::Number(6), Side::Number(5), false),
    (COLUMN, Side::Number(6), Side::Number(5), true),
    (COLUMN, Side::Number(5), Side::Number(6), false),
    (COLUMN, Side::Number(5), Side::Number(5), false),
    (COLUMN, Side::Number(i64::MAX), Side::Number(i64::MIN), true),
    (COLUMN, Side::Number(-1), Side::Number(-2), true),
    (COLUMN, Side::Number(6), Side::Gone, false),
    (COLUMN, Side::Gone, Side::Number(6), false),
    (COLUMN, Side::Flag, Side::Number(6), false),
];

#[test]
fn stored_resolvers_choose(rt: HostRuntime) -> Result<(), Fail> {
    for (stored, mine, theirs, taken) in CASES {
        assert_eq!(rt; is_mine(rt.alloc(), stored, mine, theirs)?, taken);
    }
    let beyond = Stored::Larger { column: 2 };
    assert!(rt; !is_mine(rt.alloc(), beyond, Side::Number(6), Side::Number(5))?);
    let first = Stored::Larger { column: 0 };
    assert!(rt; !is_mine(rt.alloc(), first, Side::Number(6), Side::Number(5))?);
    Ok(())
}

// A resolver that deletes each row.
#[derive(Drop)]
struct Deleting<'s> {
    schema: &'s Schema,
}

impl<'s> Resolver for Deleting<'s> {
    ghost use Rattle.std.specs.Prelude.{◌≡◌, Ok};
    ghost use Rattle.row_value.specs.declared.content.Content.TheVariants.{Gone};
    ghost use Rattle.conflicts.specs.declared.pair.Choice.TheVariants.{New};

    ghost schema_of = { λ s. s.schema.now };

    ghost answers = { λ s pair answer. answer ≡ Ok (New Gone) };

    #[tactic(auto, unfolding(row_value::specs::Fit::fit_of))]
    fn choose(&self, _pair: &Pair) -> Result<Choice, AllocError> {
        Ok(Choice::New(Content::Gone))
    }
}

fn schema_of(alloc: Global) -> Schema {
    Schema {
        name: Bytes::new(alloc),
        scheme: Scheme::Causal,
        chunk: 64,
        columns: Sequence::new(alloc),
    }
}

#[tactic(auto, unfolding(row_value::specs::Fit::fit_of))]
fn deleted(alloc: Global) -> Result<bool, AllocError> {
    let schema = schema_of(alloc);
    let pair = Pair {
        row: RowId::from_bytes([0; 16]),
        number: 1,
        version: 2,
        mine: Content::Gone,
        theirs: Content::Gone,
    };
    let theirs = StoredResolver {
        schema: &schema,
        stored: Stored::Theirs,
    };
    let taken = matches!(theirs.choose(&pair)?, Choice::Theirs);
    let deleting = Deleting { schema: &schema };
    let gone = matches!(deleting.choose(&pair)?, Choice::New(Content::Gone));
    Ok(taken && gone)
}

#[test]
fn a_resolver_may_answer_a_new_content(rt: HostRuntime) -> Result<(), Fail> {
    assert!(rt; deleted(rt.alloc())?);
    Ok(())
}
