// The cell of NULL, and which cells a type has.
ghost use Rattle.std.specs.Prelude.{◌≡◌};
ghost use Rattle.cs_types.specs.Kinds.{IsColumnType, is_of_type};

use column_segment::CellRef;
use cs_types::{ColumnType, Value};

/// NULL.
pub const NULL: CellRef<'static> = CellRef::Null;

/// Whether a cell is one of the type, whatever bytes a text has.
pub fn is_of_type(kind: ColumnType, cell: &Value) -> bool
    requires { IsColumnType kind }
    ensures { result ≡ is_of_type kind cell.now }
{
    match cell {
        Value::Text(text) => match kind {
            ColumnType::VarChar { n } => text.len() <= n as usize,
            _ => false,
        },
        _ => kind.keeps(cell),
    }
}
