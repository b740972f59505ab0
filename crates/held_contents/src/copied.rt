ghost use Rattle.std.specs.Prelude.{◌≡◌, IfOk};

use row_value::Cells;
use std::alloc::AllocError;

// A copy of a row's cells.
pub(crate) fn copy_cells(cells: &Cells) -> Result<Cells, AllocError>
    ensures { IfOk result (λ made. made ≡ cells.now) }
{
    cells.clone()
}
