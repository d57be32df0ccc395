//! The truth of a predicate over cells where they stand in a group. No row is made.

ghost use Rattle.std.specs.Prelude.{◌≡◌, ◌==◌, ◌<◌, List, true, length};
ghost use Rattle.std.specs.List.{list_all};
ghost use Rattle.cs_types.specs.declared.Value.{Value};
ghost use Rattle.cs_types.specs.Rows.{cell_at};
ghost use Rattle.cs_model.specs.Truths as model;
ghost use Rattle.column_segment.specs.Cells.{seen};
ghost use Rattle.row_group.specs.Groups.{row_at};
ghost use Rattle.batch_filter.specs.Named.{lone_row, named};

use crate::bounds::side_of;
use column_segment::CellRef;
use cs_model::{Pred, Truth};
use cs_predicate::{Cells, Side, truth_of};
use cs_types::{ColumnType, Schema};
use row_group::Packed;

/// The row at a position of a group.
#[derive(Drop)]
struct GroupRow<'a> {
    packed: &'a Packed,
    position: usize,
    ghost there: { position < length packed.now.rows },
}

impl Cells for GroupRow<'_> {
    ghost row_of = { λ row. (row_at row.packed.now row.position).cells };

    fn side(&self, kind: ColumnType, column: usize) -> Side<'_> {
        if column >= self.packed.width() {
            return Side::Null;
        }
        side_of(kind, self.packed.segment(column).cell(self.position))
    }
}

/// The truth of a predicate over the row at a position.
pub fn truth_at(pred: &Pred, packed: &Packed, schema: &Schema, position: usize) -> Truth
    requires { position < length packed.now.rows }
    ensures { result ≡ model.truth pred.now (row_at packed.now position).cells schema.now }
{
    let row = GroupRow { packed, position };
    truth_of(pred, &row, schema)
}

/// A row with a cell in one column, whose other cells are NULL.
#[derive(Drop)]
struct LoneCell<'a> {
    column: usize,
    cell: CellRef<'a>,
}

impl Cells for LoneCell<'_> {
    ghost row_of = { λ row. lone_row row.column (seen row.cell) };

    fn side(&self, kind: ColumnType, column: usize) -> Side<'_> {
        if column == self.column {
            side_of(kind, self.cell)
        } else {
            Side::Null
        }
    }
}

/// The truth of a predicate that names one column alone, over a row with this cell there.
pub fn truth_of_cell(pred: &Pred, schema: &Schema, column: usize, cell: CellRef<'_>) -> Truth
    requires { list_all (λ i. i == column) (named pred.now) ≡ true }
    ensures { (row : List Value) → cell_at row column ≡ seen cell.entry → result ≡ model.truth pred.now row schema.now }
{
    let row = LoneCell { column, cell };
    truth_of(pred, &row, schema)
}
