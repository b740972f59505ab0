ghost use Rattle.std.specs.Prelude.{◌≡◌, ◌≤◌, ◌++◌, Bool, false, ℕ, List, length, drop, IfOk, Ok};
ghost use Rattle.value_codec.specs.SchemaSpelling.{HasSchemaSpelling, schema_spelling};
ghost use Rattle.value_codec.specs.Reading.{Gives, whole, items_at};
ghost use Rattle.value_codec.specs.SchemaReading.{scheme_at, low_chunk_at, high_chunk_at, chunk_at, low_count_at};
ghost use Rattle.value_codec.specs.SchemaReading.{count_at, kind_in, column_in, after_column, columns_at, schema_at};
ghost use Rattle.value_codec.specs.FirstBad.{Refuses};

use crate::field_reader::{skip_exactly, take_byte, take_text};
use crate::spell_fault::SpellFault;
use row_value::{Column, ColumnKind, Columns, Schema, Scheme};
use stab_base::Sequence;
use std::alloc::Global;

#[tactic(auto, unfolding(crate::specs::SchemaReading::scheme_at))]
fn take_scheme(bytes: &[u8], at: usize) -> Result<(Scheme, usize), SpellFault>
    requires { at ≤ length bytes.now }
    ensures value { Gives bytes.now (λ x. (x.0, drop x.1 bytes.now)) result (scheme_at (drop at bytes.now)) }
    ensures within { IfOk result (λ x. x.1 ≤ length bytes.now) }
{
    let (code, behind) = take_byte(bytes, at)?;
    match code {
        1 => Ok((Scheme::Strong, behind)),
        2 => Ok((Scheme::Causal, behind)),
        3 => Ok((Scheme::Eventual, behind)),
        _ => Err(SpellFault::Bad { at }),
    }
}

#[tactic(auto, unfolding(crate::specs::SchemaReading::low_chunk_at))]
fn take_low_chunk(bytes: &[u8], at: usize) -> Result<(u32, usize), SpellFault>
    requires { at ≤ length bytes.now }
    ensures value { Gives bytes.now (λ x. (x.0, drop x.1 bytes.now)) result (low_chunk_at (drop at bytes.now)) }
    ensures within { IfOk result (λ x. x.1 ≤ length bytes.now) }
{
    let (third, behind) = take_byte(bytes, at)?;
    match third {
        0 => {
            let behind = skip_exactly(bytes, behind, &[64])?;
            Ok((64, behind))
        }
        4 => {
            let behind = skip_exactly(bytes, behind, &[0])?;
            Ok((1024, behind))
        }
        _ => Err(SpellFault::Bad { at }),
    }
}

#[tactic(auto, unfolding(crate::specs::SchemaReading::high_chunk_at))]
fn take_high_chunk(bytes: &[u8], at: usize) -> Result<(u32, usize), SpellFault>
    requires { at ≤ length bytes.now }
    ensures value { Gives bytes.now (λ x. (x.0, drop x.1 bytes.now)) result (high_chunk_at (drop at bytes.now)) }
    ensures within { IfOk result (λ x. x.1 ≤ length bytes.now) }
{
    let (second, behind) = take_byte(bytes, at)?;
    match second {
        0 => take_low_chunk(bytes, behind),
        1 => {
            let behind = skip_exactly(bytes, behind, &[0, 0])?;
            Ok((65_536, behind))
        }
        _ => Err(SpellFault::Bad { at }),
    }
}

#[tactic(auto, unfolding(crate::specs::SchemaReading::chunk_at))]
fn take_chunk(bytes: &[u8], at: usize) -> Result<(u32, usize), SpellFault>
    requires { at ≤ length bytes.now }
    ensures value { Gives bytes.now (λ x. (x.0, drop x.1 bytes.now)) result (chunk_at (drop at bytes.now)) }
    ensures within { IfOk result (λ x. x.1 ≤ length bytes.now) }
{
    let behind = skip_exactly(bytes, at, &[0])?;
    take_high_chunk(bytes, behind)
}

#[tactic(auto, unfolding(crate::specs::SchemaReading::low_count_at))]
fn take_low_count(bytes: &[u8], at: usize) -> Result<(u8, usize), SpellFault>
    requires { at ≤ length bytes.now }
    ensures value { Gives bytes.now (λ x. (x.0, drop x.1 bytes.now)) result (low_count_at (drop at bytes.now)) }
    ensures within { IfOk result (λ x. x.1 ≤ length bytes.now) }
{
    let (count, behind) = take_byte(bytes, at)?;
    if count == 0 || count > 32 {
        return Err(SpellFault::Bad { at });
    }
    Ok((count, behind))
}

#[tactic(auto, unfolding(crate::specs::SchemaReading::count_at))]
fn take_count(bytes: &[u8], at: usize) -> Result<(u8, usize), SpellFault>
    requires { at ≤ length bytes.now }
    ensures value { Gives bytes.now (λ x. (x.0, drop x.1 bytes.now)) result (count_at (drop at bytes.now)) }
    ensures within { IfOk result (λ x. x.1 ≤ length bytes.now) }
{
    let behind = skip_exactly(bytes, at, &[0, 0, 0])?;
    take_low_count(bytes, behind)
}

#[tactic(auto, unfolding(crate::specs::SchemaReading::kind_in))]
fn take_kind_in(
    bytes: &[u8],
    at: usize,
    only_objects: bool,
) -> Result<(ColumnKind, usize), SpellFault>
    requires { at ≤ length bytes.now }
    ensures value { Gives bytes.now (λ x. (x.0, drop x.1 bytes.now))
        result (kind_in only_objects (drop at bytes.now)) }
    ensures within { IfOk result (λ x. x.1 ≤ length bytes.now) }
{
    let (code, behind) = take_byte(bytes, at)?;
    match code {
        4 => Ok((ColumnKind::Object, behind)),
        _ if only_objects => Err(SpellFault::Bad { at }),
        1 => Ok((ColumnKind::Int, behind)),
        2 => Ok((ColumnKind::Bool, behind)),
        3 => Ok((ColumnKind::Text, behind)),
        _ => Err(SpellFault::Bad { at }),
    }
}

#[tactic(auto, unfolding(crate::specs::SchemaReading::column_in))]
fn take_column_in(
    alloc: Global,
    bytes: &[u8],
    at: usize,
    only_objects: bool,
) -> Result<(Column, usize), SpellFault>
    requires { at ≤ length bytes.now }
    ensures value { Gives bytes.now (λ x. (x.0, drop x.1 bytes.now))
        result (column_in only_objects (drop at bytes.now)) }
    ensures within { IfOk result (λ x. x.1 ≤ length bytes.now) }
{
    let (name, behind) = take_text(alloc, bytes, at)?;
    let (kind, behind) = take_kind_in(bytes, behind, only_objects)?;
    Ok((Column { name, kind }, behind))
}

fn after_column(only_objects: bool, column: &Column) -> bool
    ensures { result ≡ after_column only_objects column.now }
{
    match column.kind {
        ColumnKind::Object => true,
        ColumnKind::Int | ColumnKind::Bool | ColumnKind::Text => only_objects,
    }
}

fn take_column_items(
    alloc: Global,
    bytes: &[u8],
    at: usize,
    count: u8,
) -> Result<(Columns, usize), SpellFault>
    requires { at ≤ length bytes.now }
    ensures value { Gives bytes.now (λ x. (x.0, drop x.1 bytes.now))
        result (items_at after_column column_in false count (drop at bytes.now)) }
    ensures within { IfOk result (λ x. x.1 ≤ length bytes.now) }
{
    let mut columns = Sequence::new(alloc);
    let mut place = at;
    let mut only_objects = false;
    for _ in 0..count {
        let (column, behind) = take_column_in(alloc, bytes, place, only_objects)?;
        only_objects = after_column(only_objects, &column);
        columns.push(column)?;
        place = behind;
    }
    Ok((columns, place))
}

#[tactic(auto, unfolding(crate::specs::SchemaReading::columns_at))]
fn take_columns(alloc: Global, bytes: &[u8], at: usize) -> Result<(Columns, usize), SpellFault>
    requires { at ≤ length bytes.now }
    ensures value { Gives bytes.now (λ x. (x.0, drop x.1 bytes.now)) result (columns_at (drop at bytes.now)) }
    ensures within { IfOk result (λ x. x.1 ≤ length bytes.now) }
{
    let (count, behind) = take_count(bytes, at)?;
    take_column_items(alloc, bytes, behind, count)
}

#[tactic(auto, unfolding(crate::specs::SchemaReading::schema_at))]
fn read_schema(alloc: Global, bytes: &[u8], at: usize) -> Result<(Schema, usize), SpellFault>
    requires { at ≤ length bytes.now }
    ensures value { Gives bytes.now (λ x. (x.0, drop x.1 bytes.now)) result (schema_at (drop at bytes.now)) }
    ensures within { IfOk result (λ x. x.1 ≤ length bytes.now) }
{
    let (name, behind) = take_text(alloc, bytes, at)?;
    let (scheme, behind) = take_scheme(bytes, behind)?;
    let (chunk, behind) = take_chunk(bytes, behind)?;
    let (columns, behind) = take_columns(alloc, bytes, behind)?;
    let schema = Schema {
        name,
        scheme,
        chunk,
        columns,
    };
    Ok((schema, behind))
}

/// The schema at a place, and the place behind it. Its chunk size is 64, 1024 or 65536, it has 1 to 32 columns, and
/// no cell column stands behind an object column.
pub fn take_schema(alloc: Global, bytes: &[u8], at: usize) -> Result<(Schema, usize), SpellFault>
    requires { at ≤ length bytes.now }
    // What is found stands there as it is spelled.
    ensures found { IfOk result (λ x. HasSchemaSpelling x.0
        × (drop at bytes.now ≡ schema_spelling x.0 ++ drop x.1 bytes.now)) }
    // What is spelled there is found, whatever follows it.
    ensures only { (schema : Schema) (rest : List ℕ)
        → HasSchemaSpelling schema → drop at bytes.now ≡ schema_spelling schema ++ rest
        → Gives {Y = Schema × List ℕ} bytes.now (λ x. (x.0, drop x.1 bytes.now)) result (Ok (schema, rest)) }
    // A fault tells the first place at which no spelling goes on.
    ensures refused { Refuses HasSchemaSpelling schema_spelling bytes.now at result }
    ensures exact { Gives bytes.now (λ x. (x.0, drop x.1 bytes.now)) result (schema_at (drop at bytes.now)) }
    ensures within { IfOk result (λ x. x.1 ≤ length bytes.now) }
{
    read_schema(alloc, bytes, at)
}

#[tactic(auto, unfolding(crate::specs::Reading::whole))]
fn whole_schema(alloc: Global, bytes: &[u8]) -> Result<Schema, SpellFault>
    ensures { Gives bytes.now (λ x. x) result (whole (schema_at bytes.now)) }
{
    let (schema, end) = read_schema(alloc, bytes, 0)?;
    if end < bytes.len() {
        return Err(SpellFault::Bad { at: end });
    }
    Ok(schema)
}

/// The schema that these bytes spell, all of the bytes.
pub fn schema_of(alloc: Global, bytes: &[u8]) -> Result<Schema, SpellFault>
    ensures found { IfOk result (λ x. HasSchemaSpelling x × (bytes.now ≡ schema_spelling x)) }
    ensures only { (schema : Schema) → HasSchemaSpelling schema → bytes.now ≡ schema_spelling schema
        → Gives {Y = Schema} bytes.now (λ x. x) result (Ok schema) }
    ensures refused { Refuses HasSchemaSpelling schema_spelling bytes.now 0 result }
    ensures exact { Gives bytes.now (λ x. x) result (whole (schema_at bytes.now)) }
{
    whole_schema(alloc, bytes)
}
