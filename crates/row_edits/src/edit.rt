ghost use Rattle.std.specs.Prelude.{◌≡◌, ◌≤◌, Ok as Made, Err as Refused, IfOk, IfErr, OnOk, map, length, Some};
ghost use Rattle.std.specs.Prelude.{slice_get};
ghost use Rattle.std.specs.Prelude.{IfSome, position, ◌<◌, slice_set};
ghost use Rattle.row_value.specs.declared.fit.FitFault.{FitFault as AFitFault};
ghost use Rattle.row_value.specs.Fit.{cell_count, is_object};
ghost use Rattle.row_edits.specs.declared.edit.EditFault.TheVariants.{Fit, Memory};
ghost use Rattle.row_edits.specs.Edit.{misfit_for, cell_for, with_cell, cells_behind, object_for, with_object};
ghost use Rattle.row_edits.specs.Edit.{objects_behind, up_to_lacking, updated, overwritten, patched_at, patched};
ghost use Rattle.row_edits.specs.Edit.{edited_to};

use crate::change::{ColumnValue, Edit, Patch, Value};
use row_value::{
    Cell, Cells, Column, ColumnKind, Content, FitFault, Objects, Schema, Sequence, SharedBytes,
};
use stab_base::Bytes;
use std::alloc::{AllocError, Global};
use thiserror::Error;

/// Why an edit gives no content.
#[derive(Debug, Clone, Copy, PartialEq, Eq, Error)]
pub enum EditFault {
    /// A patch of a column without an object, or from behind the end of its object.
    #[error("{0}")]
    Fit(FitFault),
    #[error("no memory for the edited row")]
    Memory,
}

impl From<AllocError> for EditFault {
    ghost from_gives = { λ _ e. e ≡ Memory };

    fn from(_: AllocError) -> Self {
        EditFault::Memory
    }
}

// A cell that no column of this kind has.
fn misfit_for(kind: ColumnKind) -> Cell
    ensures { result ≡ misfit_for kind }
{
    match kind {
        ColumnKind::Int => Cell::Bool(false),
        _ => Cell::Int(0),
    }
}

fn cell_for(kind: ColumnKind, value: &Value) -> Result<Cell, AllocError>
    ensures { IfOk result (λ cell. cell ≡ cell_for kind value.now) }
{
    match value {
        Value::Cell(cell) => cell.clone(),
        Value::Object(_) => Ok(misfit_for(kind)),
    }
}

fn put_cell(
    cells: &mut Vec<Cell>,
    columns: &[Column],
    change: &ColumnValue,
) -> Result<(), AllocError>
    ensures { OnOk result (cells.new.items ≡ with_cell cells.old.items change.now.column change.now.value
        (slice_get columns.now change.now.column)) }
{
    let Some(column) = columns.get(change.column) else {
        return Ok(());
    };
    let cell = cell_for(column.kind, &change.value)?;
    if change.column < cells.len() {
        cells[change.column] = cell;
    }
    Ok(())
}

fn cells_behind(
    columns: &[Column],
    cells: &Cells,
    changes: &[ColumnValue],
) -> Result<Cells, AllocError>
    ensures { IfOk result (λ made. made ≡ cells_behind columns.now cells.now changes.now) }
{
    let mut cells = cells.clone()?.into_vec();
    for change in changes {
        put_cell(&mut cells, columns, change)?;
    }
    Ok(Sequence::from_vec(cells))
}

fn object_for(value: &Value) -> Result<Option<SharedBytes>, AllocError>
    ensures { IfOk result (λ object. object ≡ object_for value.now) }
{
    match value {
        Value::Cell(_) => Ok(None),
        Value::Object(object) => Ok(Some(object.clone()?)),
    }
}

fn put_object(
    objects: &mut Vec<Option<SharedBytes>>,
    first: usize,
    change: &ColumnValue,
) -> Result<(), AllocError>
    ensures { OnOk result (objects.new.items ≡ with_object first objects.old.items change.now) }
{
    if change.column < first {
        return Ok(());
    }
    let object = object_for(&change.value)?;
    let place = change.column - first;
    if place < objects.len() {
        objects[place] = object;
    }
    Ok(())
}

// Each object, as one that isn't lacking.
fn all_there(alloc: Global, objects: &[SharedBytes]) -> Result<Vec<Option<SharedBytes>>, AllocError>
    ensures { IfOk result (λ made. made.items ≡ map Some objects.now) }
{
    let mut there = Vec::new(alloc);
    for object in objects {
        there.push(Some(object.clone()?))?;
    }
    Ok(there)
}

fn up_to_lacking(alloc: Global, objects: &[Option<SharedBytes>]) -> Result<Objects, AllocError>
    ensures { IfOk result (λ made. made ≡ up_to_lacking objects.now) }
{
    let mut there = Sequence::new(alloc);
    for object in objects {
        let Some(object) = object else {
            return Ok(there);
        };
        there.push(object.clone()?)?;
    }
    Ok(there)
}

fn objects_behind(
    alloc: Global,
    first: usize,
    objects: &[SharedBytes],
    changes: &[ColumnValue],
) -> Result<Objects, AllocError>
    ensures { IfOk result (λ made. made
        ≡ up_to_lacking (objects_behind first (map Some objects.now) changes.now)) }
{
    let mut there = all_there(alloc, objects)?;
    for change in changes {
        put_object(&mut there, first, change)?;
    }
    up_to_lacking(alloc, there.as_slice())
}

fn is_object(kind: ColumnKind) -> bool
    ensures { result ≡ is_object kind }
{
    match kind {
        ColumnKind::Object => true,
        _ => false,
    }
}

fn first_object(columns: &[Column]) -> Option<usize>
    ensures value { result ≡ position (λ column. is_object column.kind) columns.now }
    ensures within { IfSome result (λ place. place < length columns.now) }
{
    columns.iter().position(|column| is_object(column.kind))
}

// How many columns stand before the first object column.
fn cell_count(columns: &[Column]) -> usize
    ensures count { result ≡ cell_count columns.now }
    ensures within { result ≤ length columns.now }
{
    match first_object(columns) {
        Some(place) => place,
        None => columns.len(),
    }
}

fn updated(
    alloc: Global,
    schema: &Schema,
    cells: &Cells,
    objects: &Objects,
    changes: &[ColumnValue],
) -> Result<Content, AllocError>
    ensures { IfOk result (λ content. content ≡ updated schema.now cells.now objects.now changes.now) }
{
    let columns = schema.columns.as_slice();
    let first = cell_count(columns);
    Ok(Content::Row {
        cells: cells_behind(&columns[..first], cells, changes)?,
        objects: objects_behind(alloc, first, objects.as_slice(), changes)?,
    })
}

fn overwritten(
    alloc: Global,
    object: &[u8],
    at: usize,
    bytes: &[u8],
) -> Result<SharedBytes, AllocError>
    requires { at ≤ length object.now }
    ensures { IfOk result (λ made. made ≡ overwritten object.now at bytes.now) }
{
    let mut made = Bytes::from_slice(alloc, &object[..at])?;
    made.extend_from_slice(bytes)?;
    if bytes.len() < object.len() - at {
        made.extend_from_slice(&object[at + bytes.len()..])?;
    }
    SharedBytes::new(made)
}

fn copied(cells: &Cells) -> Result<Cells, AllocError>
    ensures { IfOk result (λ made. made ≡ cells.now) }
{
    cells.clone()
}

fn with_object(objects: &Objects, place: usize, object: SharedBytes) -> Result<Objects, AllocError>
    requires { place < length objects.now }
    ensures { IfOk result (λ made. made ≡ slice_set objects.now place object) }
{
    let mut objects = objects.clone()?.into_vec();
    objects[place] = object;
    Ok(Sequence::from_vec(objects))
}

// The row with the object at a place put in place of this one, where the bytes begin within that or at its end.
fn patched_object(
    alloc: Global,
    cells: &Cells,
    objects: &Objects,
    place: usize,
    object: &[u8],
    patch: &Patch,
) -> Result<Content, EditFault>
    requires { place < length objects.now }
    ensures made { IfOk result (λ content.
        patched_at cells.now objects.now place patch.now (Some object.now) ≡ Made content) }
    ensures refused { IfErr result (λ e. (fault : AFitFault) → e ≡ Fit fault
        → patched_at cells.now objects.now place patch.now (Some object.now) ≡ Refused fault) }
{
    let column = patch.column;
    let at = patch.at as usize;
    let len = object.len();
    if len < at {
        return Err(EditFault::Fit(FitFault::BadObject { column, len }));
    }
    let object = overwritten(alloc, object, at, patch.bytes.as_slice())?;
    Ok(Content::Row {
        cells: copied(cells)?,
        objects: with_object(objects, place, object)?,
    })
}

fn patched(
    alloc: Global,
    schema: &Schema,
    cells: &Cells,
    objects: &Objects,
    patch: &Patch,
) -> Result<Content, EditFault>
    ensures made { IfOk result (λ content.
        patched schema.now cells.now objects.now patch.now ≡ Made content) }
    ensures refused { IfErr result (λ e. (fault : AFitFault) → e ≡ Fit fault
        → patched schema.now cells.now objects.now patch.now ≡ Refused fault) }
{
    let column = patch.column;
    let first = cell_count(schema.columns.as_slice());
    if column < first {
        return Err(EditFault::Fit(FitFault::BadObject { column, len: 0 }));
    }
    match objects.get(column - first) {
        Some(object) => {
            patched_object(
                alloc,
                cells,
                objects,
                column - first,
                object.as_slice(),
                patch,
            )
        }
        None => Err(EditFault::Fit(FitFault::BadObject { column, len: 0 })),
    }
}

/// The content that an edit asks to be written, where these are the cells and objects that are shown of the row.
/// Whether it fits the table is for `fits` to say: an update with a value of the wrong sort gives a content that
/// doesn't fit just at that column. `Fit` where a patch names a column without an object, with length 0, or begins
/// behind the object's end, with its length.
pub fn edited(
    alloc: Global,
    schema: &Schema,
    cells: &Cells,
    objects: &Objects,
    edit: &Edit,
) -> Result<Content, EditFault>
    ensures made { IfOk result (λ content. edited_to schema.now cells.now objects.now edit.now ≡ Made content) }
    ensures refused { IfErr result (λ e. (fault : AFitFault) → e ≡ Fit fault
        → edited_to schema.now cells.now objects.now edit.now ≡ Refused fault) }
{
    match edit {
        Edit::Update(changes) => Ok(updated(alloc, schema, cells, objects, changes.as_slice())?),
        Edit::Patch(patch) => patched(alloc, schema, cells, objects, patch),
        Edit::Delete => Ok(Content::Gone),
    }
}
