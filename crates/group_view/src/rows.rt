// Rows in a given number of cells.
ghost use Rattle.std.specs.Prelude.{◌≡◌, IfOk};
ghost use Rattle.cs_types.specs.Rows.{padded};

use cs_base::Memory;
use cs_types::Row;
use std::alloc::Global;

/// The row in so many cells, NULL past its end. A row that has as many is not copied.
pub fn widened(alloc: Global, row: Row, width: usize) -> Result<Row, Memory>
    ensures { IfOk result (λ made. made ≡ padded width row) }
{
    if row.len() == width {
        return Ok(row);
    }
    with_width(alloc, &row, width)
}

/// A copy of the row in so many cells, NULL past its end.
pub fn with_width(alloc: Global, row: &Row, width: usize) -> Result<Row, Memory>
    ensures { IfOk result (λ made. made ≡ padded width row.now) }
{
    let mut made = Row::new(alloc);
    for column in 0..width {
        made.push(row.cell(column).copy()?)?;
    }
    Ok(made)
}
