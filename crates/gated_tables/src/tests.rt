use crate::is_same_schema;
use row_value::{Column, ColumnKind, Schema, Scheme};
use stab_base::{Bytes, Sequence};
use std::alloc::{AllocError, Global};
use std::test::Fail;

// A schema of cells of these kinds, with the names `a`, `b` and so on.
fn schema(
    alloc: Global,
    name: &[u8],
    scheme: Scheme,
    chunk: u32,
    kinds: &[ColumnKind],
) -> Result<Schema, AllocError> {
    let mut columns = Sequence::new(alloc);
    for (kind, name) in kinds.iter().zip(b'a'..) {
        columns.push(Column {
            name: Bytes::from_slice(alloc, &[name])?,
            kind: *kind,
        })?;
    }
    Ok(Schema {
        name: Bytes::from_slice(alloc, name)?,
        scheme,
        chunk,
        columns,
    })
}

#[test]
fn schemas_differ_by_each_field(rt: HostRuntime) -> Result<(), Fail> {
    let alloc = rt.alloc();
    let (int, text) = (ColumnKind::Int, ColumnKind::Text);
    let notes = schema(alloc, b"notes", Scheme::Causal, 64, &[int, text])?;
    let same = schema(alloc, b"notes", Scheme::Causal, 64, &[int, text])?;
    assert_eq!(rt; is_same_schema(&notes, &same), true, "the same");
    for (other, what) in [
        (
            schema(alloc, b"note", Scheme::Causal, 64, &[int, text])?,
            "name",
        ),
        (
            schema(alloc, b"notes", Scheme::Strong, 64, &[int, text])?,
            "scheme",
        ),
        (
            schema(alloc, b"notes", Scheme::Causal, 1024, &[int, text])?,
            "chunk",
        ),
        (
            schema(alloc, b"notes", Scheme::Causal, 64, &[int, int])?,
            "kind",
        ),
        (
            schema(alloc, b"notes", Scheme::Causal, 64, &[int])?,
            "fewer",
        ),
        (
            schema(alloc, b"notes", Scheme::Causal, 64, &[int, text, int])?,
            "more",
        ),
    ] {
        assert_eq!(rt; is_same_schema(&notes, &other), false, "{what}");
        assert_eq!(rt; is_same_schema(&other, &notes), false, "{what}");
    }
    Ok(())
}
