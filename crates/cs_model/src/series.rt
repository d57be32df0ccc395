// What the expressions over a series read.
ghost use Rattle.std.specs.Prelude.{◌≡◌, IfOk};
ghost use Rattle.cs_model.specs.Series.{series_column, series_schema};

use cs_base::{Items, Memory};
use cs_types::{Column, ColumnType, Schema};
use std::alloc::Global;

fn series_column(alloc: Global) -> Result<Column, Memory>
    ensures { IfOk result (λ column. column ≡ series_column) }
{
    let name = b"value".to_vec(alloc)?;
    Ok(Column {
        name: Items::from_vec(name),
        kind: ColumnType::BigInt,
        nullable: false,
    })
}

/// What the expressions over a series read: a schema of the one column `value`, of its numbers, which are never NULL.
pub fn series_schema(alloc: Global) -> Result<Schema, Memory>
    ensures { IfOk result (λ schema. schema ≡ series_schema) }
{
    let name = b"GENERATE_SERIES".to_vec(alloc)?;
    let column = series_column(alloc)?;
    let mut columns = Items::new(alloc);
    columns.push(column)?;
    Ok(Schema {
        name: Items::from_vec(name),
        columns,
        key: 0,
    })
}
