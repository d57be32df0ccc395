// Lists, tables, rows and cells of several tests.
ghost use Rattle.std.specs.Prelude.{◌≡◌, ◌∷◌, [], IfOk, IsTrue, true, false};
ghost use Rattle.cs_types.specs.declared.ColumnType.TheVariants.{BigInt};
ghost use Rattle.cs_types.specs.Kinds.{IsColumnType, keeps};
ghost use Rattle.cs_types.specs.Schemas.{IsRowOf, IsSchema};

use cs_base::{Items, Memory};
use cs_types::{Column, ColumnType, Row, Schema, Value};
use std::alloc::Global;

/// A list of these elements.
pub fn list<T: Copy + Drop>(alloc: Global, elements: &[T]) -> Result<Items<T>, Memory> {
    Ok(Items::from_vec(elements.to_vec(alloc)?))
}

/// A column with a name of one letter.
pub fn column(alloc: Global, letter: u8, kind: ColumnType, nullable: bool) -> Result<Column, Memory>
    ensures { IfOk result (λ column. column ≡ record { name = letter ∷ []; kind = kind; nullable = nullable }) }
{
    let mut name = Items::new(alloc);
    name.push(letter)?;
    Ok(Column {
        name,
        kind,
        nullable,
    })
}

/// The table `t (k bigint NOT NULL PRIMARY KEY, v KIND)`.
pub fn table(alloc: Global, kind: ColumnType) -> Result<Schema, Memory>
    requires { IsColumnType kind }
    ensures schema { IfOk result (λ schema. IsSchema schema) }
    ensures columns { IfOk result (λ schema. schema.columns ≡ record { name = 107 ∷ []; kind = BigInt; nullable = false } ∷ record { name = 118 ∷ []; kind = kind; nullable = true } ∷ []) }
{
    let mut columns = Items::new(alloc);
    columns.push(column(alloc, b'k', ColumnType::BigInt, false)?)?;
    columns.push(column(alloc, b'v', kind, true)?)?;
    let mut name = Items::new(alloc);
    name.push(b't')?;
    Ok(Schema {
        name,
        columns,
        key: 0,
    })
}

/// A row of a key and a cell.
pub fn row_of(alloc: Global, kind: ColumnType, key: i64, cell: Value) -> Result<Row, Memory>
    requires { IsTrue (keeps kind cell) }
    ensures { IfOk result (λ row. (schema : Schema) → schema.columns ≡ record { name = 107 ∷ []; kind = BigInt; nullable = false } ∷ record { name = 118 ∷ []; kind = kind; nullable = true } ∷ [] → IsRowOf schema row) }
{
    let mut row = Row::new(alloc);
    row.push(Value::Number(key))?;
    row.push(cell)?;
    Ok(row)
}

/// A cell.
#[derive(Clone, Copy)]
pub enum Cell {
    Null,
    Number(i64),
    Text(&'static [u8]),
}
