ghost use Rattle.std.specs.Prelude.{◌≡◌, ◌<◌, ◌++◌, ◌∷◌, [], ℕ, length, map, take, replicate, All, IfOk, OnOk, OnErr};
ghost use Rattle.cs_types.specs.declared.Value.TheVariants.{Null};
ghost use Rattle.cs_types.specs.Rows.{cell_at};
ghost use Rattle.column_segment.specs.Bodies.{cell_in};
ghost use Rattle.row_group.specs.Packings.{AreEven, HaveMore, BeginAs, AreCut, cells_at, numbered};

use crate::cells::Cells;
use crate::packed::Packed;
use column_segment::{CellRef, Segment, shown};
use cs_base::Memory;
use cs_types::Row;
use std::alloc::Global;

/// So many columns without a cell.
pub fn empty_columns(alloc: Global, width: usize) -> Result<Vec<Cells>, Memory>
    ensures { IfOk result (λ columns. columns.items ≡ replicate width []) }
{
    let mut columns = Vec::with_capacity(alloc, width)?;
    for _column in 0..width {
        columns.push(Cells::new(alloc))?;
    }
    Ok(columns)
}

/// The columns of these numbers and NULLs. No cell is copied.
pub fn numbered_columns(alloc: Global, columns: Vec<Vec<Option<i64>>>) -> Result<Vec<Cells>, Memory>
    ensures { IfOk result (λ made. made.items ≡ numbered columns.items) }
{
    let mut made = Vec::with_capacity(alloc, columns.len())?;
    for numbers in columns {
        made.push(Cells::of_numbers(numbers))?;
    }
    Ok(made)
}

/// Makes room for so many cells more in each column. It changes none.
pub fn reserve_cells(columns: &mut Vec<Cells>, more: usize) -> Result<(), Memory>
    ensures { columns.new.items ≡ columns.old.items }
{
    for place in 0..columns.len() {
        columns[place].reserve(more)?;
    }
    Ok(())
}

/// Puts a copy of the row's cell at the end of each column, NULL where it has none. The columns have `count` cells. After
/// `Memory` nothing has changed.
pub fn put_row(columns: &mut Vec<Cells>, count: usize, row: &Row) -> Result<(), Memory>
    requires { AreEven columns.old.items count }
    ensures ok { OnOk result (HaveMore columns.old.items (λ c. cell_at row.now c ∷ []) columns.new.items) }
    ensures err { OnErr result (columns.new.items ≡ columns.old.items) }
{
    match add_row(columns, row) {
        Ok(()) => Ok(()),
        Err(refused) => {
            cut_columns(columns, count);
            Err(refused)
        }
    }
}

/// The same, but after `Memory` some columns may have the cell.
fn add_row(columns: &mut Vec<Cells>, row: &Row) -> Result<(), Memory>
    ensures ok { OnOk result (HaveMore columns.old.items (λ c. cell_at row.now c ∷ []) columns.new.items) }
    ensures err { OnErr result (BeginAs columns.old.items columns.new.items) }
{
    for place in 0..columns.len() {
        columns[place].push(shown(row.cell(place)))?;
    }
    Ok(())
}

/// Puts the cells of the rows at some positions of a group at the end of the columns, which have `count` cells, and NULL in a
/// column that the group has not. After `Memory` nothing has changed.
pub fn put_packed(
    columns: &mut Vec<Cells>,
    count: usize,
    packed: &Packed,
    positions: &[usize],
) -> Result<(), Memory>
    requires even { AreEven columns.old.items count }
    requires within { All (λ position. position < length packed.now.rows) positions.now }
    ensures ok { OnOk result (HaveMore columns.old.items (cells_at packed.now positions.now) columns.new.items) }
    ensures err { OnErr result (columns.new.items ≡ columns.old.items) }
{
    match add_packed(columns, packed, positions) {
        Ok(()) => Ok(()),
        Err(refused) => {
            cut_columns(columns, count);
            Err(refused)
        }
    }
}

/// The same, but after `Memory` some columns may have some of the cells.
fn add_packed(columns: &mut Vec<Cells>, packed: &Packed, positions: &[usize]) -> Result<(), Memory>
    requires { All (λ position. position < length packed.now.rows) positions.now }
    ensures ok { OnOk result (HaveMore columns.old.items (cells_at packed.now positions.now) columns.new.items) }
    ensures err { OnErr result (BeginAs columns.old.items columns.new.items) }
{
    for place in 0..columns.len() {
        add_column(&mut columns[place], packed, place, positions)?;
    }
    Ok(())
}

/// Puts copies of the cells that a column of a group has at some positions at the end of a column, and as many NULLs where the group
/// has no such column.
fn add_column(
    column: &mut Cells,
    packed: &Packed,
    place: usize,
    positions: &[usize],
) -> Result<(), Memory>
    requires { All (λ position. position < length packed.now.rows) positions.now }
    ensures ok { OnOk result (column.new ≡ column.old ++ cells_at packed.now positions.now place) }
    ensures err { OnErr result (take (length column.old) column.new ≡ column.old) }
{
    if place < packed.width() {
        add_cells(column, packed.segment(place), positions)
    } else {
        add_nulls(column, positions.len())
    }
}

/// Puts so many NULLs at the end of a column.
fn add_nulls(column: &mut Cells, count: usize) -> Result<(), Memory>
    ensures ok { OnOk result (column.new ≡ column.old ++ replicate count Null) }
    ensures err { OnErr result (take (length column.old) column.new ≡ column.old) }
{
    for _place in 0..count {
        column.push(CellRef::Null)?;
    }
    Ok(())
}

/// Puts copies of a segment's cells at some positions at the end of a column.
fn add_cells(column: &mut Cells, segment: &Segment, positions: &[usize]) -> Result<(), Memory>
    requires { All (λ position. position < segment.now.length) positions.now }
    ensures ok { OnOk result (column.new ≡ column.old ++ map (cell_in segment.now.body) positions.now) }
    ensures err { OnErr result (take (length column.old) column.new ≡ column.old) }
{
    column.reserve(positions.len())?;
    for position in positions {
        column.push(segment.cell(*position))?;
    }
    Ok(())
}

/// Takes away the cells of each column past the first `count`.
fn cut_columns(columns: &mut Vec<Cells>, count: usize)
    ensures { AreCut count columns.old.items columns.new.items }
{
    for place in 0..columns.len() {
        columns[place].truncate(count);
    }
}
