use crate::{Changes, ColumnValue, Edit, EditFault, Patch, Value, edited};
use row_value::{
    Cell, Cells, Column, ColumnKind, Columns, Content, FitFault, Objects, Schema, Scheme, Sequence,
    SharedBytes, fits,
};
use stab_base::Bytes;
use std::alloc::Global;
use std::test::Fail;

/// A table of an int, a text and two objects.
fn table(alloc: Global) -> Result<Schema, Fail> {
    let mut columns = Columns::new(alloc);
    for (name, kind) in [
        ("n", ColumnKind::Int),
        ("t", ColumnKind::Text),
        ("o", ColumnKind::Object),
        ("p", ColumnKind::Object),
    ] {
        let name = Bytes::from_slice(alloc, name.as_bytes())?;
        columns.push(Column { name, kind })?;
    }
    Ok(Schema {
        name: Bytes::from_slice(alloc, b"notes")?,
        scheme: Scheme::Eventual,
        chunk: 64,
        columns,
    })
}

/// The row 5, `a`, `0123`, and no byte.
fn row(alloc: Global) -> Result<(Cells, Objects), Fail> {
    let mut cells = Cells::new(alloc);
    cells.push(Cell::Int(5))?;
    cells.push(Cell::Text(Bytes::from_slice(alloc, b"a")?))?;
    let mut objects = Objects::new(alloc);
    objects.push(SharedBytes::from_slice(alloc, b"0123")?)?;
    objects.push(SharedBytes::from_slice(alloc, b"")?)?;
    Ok((cells, objects))
}

fn behind(alloc: Global, edit: &Edit) -> Result<Result<Content, EditFault>, Fail> {
    let (cells, objects) = row(alloc)?;
    Ok(edited(alloc, &table(alloc)?, &cells, &objects, edit))
}

/// The first object of a content, where it has one.
fn first_object(content: &Content) -> Option<&[u8]> {
    match content {
        Content::Gone => None,
        Content::Row { objects, .. } => objects.get(0).map(|object| object.as_slice()),
    }
}

fn patch(alloc: Global, column: usize, at: u32, bytes: &[u8]) -> Result<Edit, Fail> {
    Ok(Edit::Patch(Patch {
        column,
        at,
        bytes: SharedBytes::from_slice(alloc, bytes)?,
    }))
}

/// Where the bytes are put, which they are, and the object behind it.
const PATCHES: [(u32, &[u8], &[u8]); 6] = [
    (0, b"ab", b"ab23"),
    (2, b"ab", b"01ab"),
    (3, b"ab", b"012ab"),
    (4, b"ab", b"0123ab"),
    (0, b"abcdef", b"abcdef"),
    (1, b"", b"0123"),
];

#[test]
fn bytes_are_put_over_an_object_and_past_its_end(rt: HostRuntime) -> Result<(), Fail> {
    let alloc = rt.alloc();
    for (at, bytes, object) in PATCHES {
        let content = behind(alloc, &patch(alloc, 2, at, bytes)?)?;
        assert!(rt; matches!(&content, Ok(row) if first_object(row) == Some(object)));
    }
    Ok(())
}

#[test]
fn bytes_have_a_place_in_an_object(rt: HostRuntime) -> Result<(), Fail> {
    let alloc = rt.alloc();
    for (column, at, len) in [(0, 0, 0), (1, 0, 0), (2, 5, 4), (3, 1, 0), (4, 0, 0)] {
        let content = behind(alloc, &patch(alloc, column, at, b"a")?)?;
        let fault = EditFault::Fit(FitFault::BadObject { column, len });
        assert!(rt; matches!(&content, Err(e) if *e == fault));
    }
    Ok(())
}

/// Values of columns, each an int or the object `x`.
fn update(alloc: Global, values: &[(usize, Option<i64>)]) -> Result<Edit, Fail> {
    let mut changes = Changes::new(alloc);
    for (column, number) in values {
        let value = match number {
            Some(n) => Value::Cell(Cell::Int(*n)),
            None => Value::Object(SharedBytes::from_slice(alloc, b"x")?),
        };
        changes.push(ColumnValue {
            column: *column,
            value,
        })?;
    }
    Ok(Edit::Update(changes))
}

fn fit(alloc: Global, content: &Result<Content, EditFault>) -> Result<Option<FitFault>, Fail> {
    match content {
        Ok(content) => Ok(fits(&table(alloc)?, content).err()),
        Err(_) => Ok(None),
    }
}

/// What the edited row lacks, if it lacks something: the values of the columns, and the fault.
const UPDATES: [(&[(usize, Option<i64>)], Option<FitFault>); 6] = [
    (&[(0, Some(7))], None),
    (&[(2, None), (0, Some(7))], None),
    (&[(0, None)], Some(FitFault::BadCell { column: 0 })),
    (
        &[(3, Some(1)), (1, Some(1))],
        Some(FitFault::BadCell { column: 1 }),
    ),
    (
        &[(3, Some(1)), (2, None)],
        Some(FitFault::BadObject { column: 3, len: 0 }),
    ),
    (&[(2, Some(1)), (2, None)], None),
];

#[test]
fn a_value_of_the_wrong_sort_fits_no_row(rt: HostRuntime) -> Result<(), Fail> {
    let alloc = rt.alloc();
    for (values, fault) in UPDATES {
        let content = behind(alloc, &update(alloc, values)?)?;
        assert!(rt; content.is_ok());
        assert_eq!(rt; fit(alloc, &content)?, fault);
    }
    Ok(())
}

#[test]
fn the_last_value_of_a_column_counts(rt: HostRuntime) -> Result<(), Fail> {
    let alloc = rt.alloc();
    let content = behind(alloc, &update(alloc, &[(0, Some(7)), (0, Some(8))])?)?;
    let cell = match &content {
        Ok(Content::Row { cells, .. }) => cells.get(0),
        _ => None,
    };
    assert!(rt; matches!(cell, Some(Cell::Int(8))));
    Ok(())
}

#[test]
fn a_deleted_row_is_gone(rt: HostRuntime) -> Result<(), Fail> {
    let content = behind(rt.alloc(), &Edit::Delete)?;
    assert!(rt; matches!(&content, Ok(Content::Gone)));
    Ok(())
}
