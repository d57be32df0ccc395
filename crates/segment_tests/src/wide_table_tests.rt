// A packed group of as many columns as a table may have.
ghost use Rattle.std.specs.Prelude.{All, IfOk};
ghost use Rattle.cs_types.specs.Schemas.{IsSchema, IsRowOf};

use crate::row_group_tests::{fits, name};
use cs_base::{Items, Memory};
use cs_types::{ColumnType, Row, Schema, Value, Version};
use row_group::{Packed, pack_rows};
use std::alloc::Global;
use std::process::Abort;
use std::test::Fail;
use tsql_create::read_table;

/// A table of 32 columns: a key, and each type in turn.
const WIDE: &[u8] =
    b"CREATE TABLE t (k int NOT NULL PRIMARY KEY, c1 tinyint, c2 smallint, c3 int, c4 bigint, c5 decimal(9, 2), c6 date, c7 varchar(8), c8 tinyint, c9 smallint, c10 int, c11 bigint, c12 decimal(9, 2), c13 date, c14 varchar(8), c15 tinyint, c16 smallint, c17 int, c18 bigint, c19 decimal(9, 2), c20 date, c21 varchar(8), c22 tinyint, c23 smallint, c24 int, c25 bigint, c26 decimal(9, 2), c27 date, c28 varchar(8), c29 tinyint, c30 smallint, c31 int)";

/// A cell of a wide table: NULL in each fourth place, and else one of a hundred.
fn wide_cell(alloc: Global, kind: ColumnType, row: usize, column: usize) -> Result<Value, Memory> {
    if row.wrapping_add(column) % 4 == 0 {
        return Ok(Value::Null);
    }
    let number = row.wrapping_mul(column) % 100;
    match kind {
        ColumnType::VarChar { .. } => Ok(Value::Text(name(alloc, number as u8)?)),
        _ => Ok(Value::Number(number as i64)),
    }
}

/// A row of a wide table, whose key says how many come before it.
fn wide_row(alloc: Global, schema: &Schema, place: usize) -> Result<Row, Memory> {
    let mut row = Row::new(alloc);
    row.push(Value::Number((place % 1000) as i64))?;
    for column in 1..schema.columns.len() {
        row.push(wide_cell(alloc, schema.columns.at(column).kind, place, column)?)?;
    }
    Ok(row)
}

/// Versions of so many rows of a wide table, the last key first.
fn wide_versions(
    rt: &impl Abort,
    alloc: Global,
    schema: &Schema,
    count: usize,
) -> Result<Items<Version>, Memory>
    requires { IsSchema schema.now }
    ensures { IfOk result (λ versions. All (λ version. IsRowOf schema.now version.row) versions) }
{
    let mut versions = Items::new(alloc);
    for place in 0..count {
        let row = wide_row(alloc, schema, count - 1 - place)?;
        assert!(rt; fits(schema, &row));
        versions.push(Version {
            row,
            begin: 0,
            end: None,
        })?;
    }
    Ok(versions)
}

/// The packed group of 300 rows of a wide table.
fn wide_group(rt: &impl Abort, alloc: Global, schema: &Schema) -> Result<Packed, Memory>
    requires { IsSchema schema.now }
{
    let group = pack_rows(alloc, schema, wide_versions(rt, alloc, schema, 300)?, 0)?;
    assert!(rt; group.is_some());
    Ok(group.unwrap())
}

/// The rows of the group are those of the table.
fn check_rows(
    rt: &impl Abort,
    alloc: Global,
    schema: &Schema,
    group: &Packed,
) -> Result<(), Memory> {
    assert!(rt; (group.len(), group.width()) == (300, 32));
    for place in 0..group.places().len() {
        let row = group.row(group.place(place))?;
        assert!(rt; row == wide_row(alloc, schema, place)?, "at {place}");
    }
    Ok(())
}

/// That the rows of a wide table come back.
fn check_table(rt: &impl Abort, alloc: Global, schema: &Schema) -> Result<(), Memory>
    requires { IsSchema schema.now }
{
    let group = wide_group(rt, alloc, schema)?;
    let outcome = check_rows(rt, alloc, schema, &group);
    drop(group);
    outcome
}

/// Rows of 32 columns, of each type in turn and with NULL in each column but the key, come back as they were.
#[test]
fn a_wide_table_comes_back(rt: HostRuntime) -> Result<(), Fail> {
    let schema = read_table(rt.alloc(), WIDE)?;
    assert!(rt; schema.columns.len() == 32);
    let outcome = check_table(&rt, rt.alloc(), &schema);
    drop(schema);
    Ok(outcome?)
}
