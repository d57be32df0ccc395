//! Where the cells of a row stand.

ghost use Rattle.std.specs.Prelude.{◌≡◌};
ghost use Rattle.cs_types.specs.Rows.{cell_at};
ghost use Rattle.cs_types.specs.Text.{loose_of};
ghost use Rattle.cs_predicate.specs.Sides.{lent};

use crate::side::Side;
use cs_types::{ColumnType, Row};

/// What has the cells of a row: a row, or places elsewhere where they stand.
pub trait Cells {
    ghost use Rattle.std.specs.Prelude.{List};
    ghost use Rattle.cs_types.specs.declared.Value.{Value as Cell};

    /// The row whose cells these are.
    ghost row_of: { Self → List Cell };

    /// What the cell of a column of this type lends, NULL past the row's end.
    fn side(&self, kind: ColumnType, column: usize) -> Side<'_>
        ensures { lent result ≡ loose_of kind (cell_at (row_of self.now) column) };
}

impl Cells for Row {
    ghost row_of = { λ row. row };

    fn side(&self, kind: ColumnType, column: usize) -> Side<'_> {
        Side::of_value(kind, self.cell(column))
    }
}
