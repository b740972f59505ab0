//! Values whose widths are known by their types.
ghost use Rattle.std.specs.Prelude.{◌≡◌, ◌<◌, length};
ghost use Rattle.std.specs.List.{AllByRecursion};
ghost use Rattle.transcript_text.specs.OneForm.{AreBytes, HasCellText, HasContentText, HasNodeText, HasRowText};
ghost use Rattle.transcript_text.specs.OneForm.{HasNameText, HasSumText, HasShownText};
ghost use Rattle.line_widths.specs.Widths.{HasRowSumWidths, HasShownSumWidths};

use row_value::{Cell, Content, SharedBytes};
use stab_base::{ChunkName, Node, RowId};
use table_model::{ObjectSum, RowSum, Shown, ShownSum};

fn know_byte(byte: u8)
    ensures { byte < 256 }
{
    let _known: u8 = byte;
}

fn know_bytes(bytes: &[u8])
    ensures { AreBytes bytes.now }
{
    for byte in bytes {
        know_byte(*byte);
    }
}

fn know_cell(cell: &Cell)
    ensures { HasCellText cell.now }
{
    match cell {
        Cell::Int(number) => {
            let _known: i64 = *number;
        }
        Cell::Bool(_) => {}
        Cell::Text(text) => know_bytes(text.as_slice()),
    }
}

fn know_cells(cells: &[Cell])
    ensures { AllByRecursion HasCellText cells.now }
{
    for cell in cells {
        know_cell(cell);
    }
}

fn know_objects(objects: &[SharedBytes])
    ensures { AllByRecursion AreBytes objects.now }
{
    for object in objects {
        know_bytes(object.as_slice());
    }
}

pub(crate) fn know_content(content: &Content)
    ensures { HasContentText content.now }
{
    if let Content::Row { cells, objects } = content {
        know_cells(cells.as_slice());
        know_objects(objects.as_slice());
    }
}

fn know_sixteen(bytes: [u8; 16])
    ensures size { length bytes ≡ 16 }
    ensures bytes { AreBytes bytes }
{
    know_bytes(&bytes);
}

pub(crate) fn know_row(row: &RowId)
    ensures { HasRowText row.now }
{
    know_sixteen(row.to_bytes());
}

pub(crate) fn know_node(node: Node)
    ensures { HasNodeText node }
{
    match node {
        Node::Client(number) | Node::Gate(number) | Node::Store(number) => {
            let _known: u32 = number;
        }
    }
}

fn know_name(name: &ChunkName)
    ensures { HasNameText name.now }
{
    let _version: u64 = name.version;
    let _ordinal: u32 = name.ordinal;
}

pub(crate) fn know_names(names: &[ChunkName])
    ensures { AllByRecursion HasNameText names.now }
{
    for name in names {
        know_name(name);
    }
}

pub(crate) fn know_shown(shown: &Shown)
    ensures { HasShownText shown.now }
{
    match shown {
        Shown::Clean { version, content } => {
            let _version: u64 = *version;
            know_content(content);
        }
        Shown::Mine { number, content } => {
            let _number: u64 = *number;
            know_content(content);
        }
        Shown::Conflict {
            number,
            version,
            content,
        } => {
            let _number: u64 = *number;
            let _version: u64 = *version;
            know_content(content);
        }
    }
}

// ---- digests

fn know_sum(object: &ObjectSum)
    ensures { HasSumText object.now }
{
    let _len: usize = object.len;
    know_bytes(&object.sha256);
}

fn know_sums(objects: &[ObjectSum])
    ensures { AllByRecursion HasSumText objects.now }
{
    for object in objects {
        know_sum(object);
    }
}

fn know_row_sum(row: &RowSum)
    ensures { HasRowSumWidths row.now }
{
    know_cells(row.cells.as_slice());
    know_sums(row.objects.as_slice());
}

pub(crate) fn know_shown_sum(shown: &ShownSum)
    ensures { HasShownSumWidths shown.now }
{
    match shown {
        ShownSum::Clean { version, row } => {
            let _version: u64 = *version;
            know_row_sum(row);
        }
        ShownSum::Mine { number, row } => {
            let _number: u64 = *number;
            know_row_sum(row);
        }
        ShownSum::Conflict {
            number,
            version,
            row,
        } => {
            let _number: u64 = *number;
            let _version: u64 = *version;
            know_row_sum(row);
        }
    }
}
