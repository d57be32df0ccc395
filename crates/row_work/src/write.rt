//! The rows that an INSERT writes.

ghost use Rattle.std.specs.Prelude.{◌≡◌, ◌<◌, ◌+◌, length, [], ◌∷◌};
ghost use Rattle.std.specs.Option.{option_copied};
ghost use Rattle.cs_types.specs.Kinds.{IsColumnType};
ghost use Rattle.cs_types.specs.Rows.{cell_at, IsNumber};
ghost use Rattle.cs_types.specs.Schemas.{IsSchema};
ghost use Rattle.cs_model.specs.Expressions.{Computed, Gives};
ghost use Rattle.cs_model.specs.Answers.{kept, computed_of, inserted_row, edits_by, rows_from, series, inserted};
ghost use Rattle.cs_model.specs.Series.{series_schema};
ghost use Rattle.batch_compute.specs.Columns.{kept_over};
ghost use Rattle.row_work.specs.Gives.{GivesCell, GivesEdits, GivesRow, GivesRows};
ghost use Rattle.row_work.specs.Inserts.{inserted_write, write_of};

use crate::refusal::WriteRefusal;
use batch_compute::{first_row, given, number_at, series_cell, series_len};
use cs_base::Items;
use cs_model::{Expr, ExprRefusal, InsertPlan, series_schema};
use cs_predicate::compute;
use cs_types::{Column, Loose, Row, Schema, Value, fits, key_of};
use std::alloc::Global;
use write_set::Write;

/// What was computed for a column over a row of the source: NULL where it is given nothing.
fn computed(source: &Schema, read: &Row, expr: Option<&Expr>) -> Result<Loose, ExprRefusal>
    ensures { Gives result (computed_of source.now read.now (option_copied expr.entry)) }
{
    match expr {
        Some(expr) => compute(expr, read, source),
        None => Ok(Loose::Null),
    }
}

/// The value that a column keeps of what was computed, in a row, at the column's number from 0.
pub fn kept(
    column: &Column,
    row: u64,
    i: usize,
    computed: Result<Loose, ExprRefusal>,
) -> Result<Value, WriteRefusal>
    requires kind { IsColumnType column.now.kind }
    requires few { i < 32 }
    ensures { (wanted : Computed) → Gives computed wanted → GivesCell row i (kept column.now wanted) result }
{
    let number = match computed {
        Ok(loose) => match fits(column.kind, column.nullable, loose) {
            Ok(value) => return Ok(value),
            Err(refusal) => refusal.number(),
        },
        Err(ExprRefusal::Memory) => return Err(WriteRefusal::Memory),
        Err(refusal) => refusal.number(),
    };
    Err(WriteRefusal::Value {
        number,
        row,
        column: i as u32 + 1,
    })
}

/// The write of a row at its key. Whether it replaces a row is not known yet.
fn write_of(schema: &Schema, cells: Row) -> Write
    requires { IsNumber (cell_at cells schema.now.key) }
    ensures { result ≡ write_of schema.now cells }
{
    Write {
        key: key_of(schema, &cells),
        row: Some(cells),
        replaces: false,
    }
}

/// A row of VALUES, column by column, which reads nothing.
fn values_row(
    alloc: Global,
    schema: &Schema,
    columns: &[usize],
    row: u64,
    exprs: &[Expr],
) -> Result<Row, WriteRefusal>
    requires { IsSchema schema.now }
    ensures { GivesRow row (inserted_row schema.now schema.now columns.now [] exprs.now) result }
{
    let none = Row::new(alloc);
    let mut cells = Row::new(alloc);
    for (i, column) in schema.columns.as_slice().iter().enumerate() {
        let computed = computed(schema, &none, given(columns, exprs, i));
        let value = kept(column, row, i, computed)?;
        cells.push(value)?;
    }
    Ok(cells)
}

/// The write of a row of VALUES.
fn values_write(
    alloc: Global,
    schema: &Schema,
    columns: &[usize],
    row: u64,
    exprs: &[Expr],
) -> Result<Write, WriteRefusal>
    requires { IsSchema schema.now }
    ensures { GivesRow row (inserted_write schema.now schema.now columns.now [] exprs.now) result }
{
    let cells = values_row(alloc, schema, columns, row, exprs)?;
    Ok(write_of(schema, cells))
}

/// The writes of the rows of VALUES.
fn values_writes(
    alloc: Global,
    schema: &Schema,
    columns: &[usize],
    rows: &[Items<Expr>],
) -> Result<Items<Write>, WriteRefusal>
    requires { IsSchema schema.now }
    ensures { GivesRows (rows_from (inserted_write schema.now schema.now columns.now []) 1 rows.now) result }
{
    let mut written = Items::new(alloc);
    written.reserve(rows.len())?;
    for (i, exprs) in rows.iter().enumerate() {
        let write = values_write(alloc, schema, columns, i as u64 + 1, exprs.as_slice())?;
        written.push(write)?;
    }
    Ok(written)
}

/// The value that a column keeps of what it is given over a number of a series. Where it is the quick arithmetic of whole numbers,
/// no row is made of the number.
fn series_value(
    alloc: Global,
    source: &Schema,
    column: &Column,
    number: i64,
    row: u64,
    i: usize,
    expr: Option<&Expr>,
) -> Result<Value, WriteRefusal>
    requires kind { IsColumnType column.now.kind }
    requires few { i < 32 }
    requires source { source.now ≡ series_schema }
    ensures { GivesCell row i (kept_over column.now (option_copied expr.entry) number) result }
{
    match series_cell(column, expr, number) {
        Some(Some(value)) => Ok(Value::Number(value)),
        Some(None) => Ok(Value::Null),
        None => {
            let mut read = Row::new(alloc);
            read.push(Value::Number(number))?;
            kept(column, row, i, computed(source, &read, expr))
        }
    }
}

/// The row over a number of a series, column by column.
fn series_row(
    alloc: Global,
    schema: &Schema,
    source: &Schema,
    columns: &[usize],
    number: i64,
    row: u64,
    exprs: &[Expr],
) -> Result<Row, WriteRefusal>
    requires schema { IsSchema schema.now }
    requires source { source.now ≡ series_schema }
    ensures { GivesRow row (inserted_row schema.now series_schema columns.now (Value.Number number ∷ []) exprs.now) result }
{
    let mut cells = Row::new(alloc);
    for (i, column) in schema.columns.as_slice().iter().enumerate() {
        let expr = given(columns, exprs, i);
        let value = series_value(alloc, source, column, number, row, i, expr)?;
        cells.push(value)?;
    }
    Ok(cells)
}

/// The write of the row over a number of a series.
fn series_write(
    alloc: Global,
    schema: &Schema,
    source: &Schema,
    columns: &[usize],
    number: i64,
    row: u64,
    exprs: &[Expr],
) -> Result<Write, WriteRefusal>
    requires schema { IsSchema schema.now }
    requires source { source.now ≡ series_schema }
    ensures { GivesRow row (inserted_write schema.now series_schema columns.now (Value.Number number ∷ []) exprs.now) result }
{
    let cells = series_row(alloc, schema, source, columns, number, row, exprs)?;
    Ok(write_of(schema, cells))
}

/// The number of the row after these, counted from 1.
fn next_row(writes: &[Write]) -> u64
    ensures { result ≡ length writes.now + 1 }
{
    writes.len() as u64 + 1
}

/// For so many rows of a series room is made at once. A longer one may end at a refusal before it needs more.
const ROOM: u128 = 1 << 20;

/// For how many rows of a series room is made at once.
fn room_of(count: u128) -> usize {
    count.min(ROOM) as usize
}

/// The writes of the rows over the numbers of a series.
fn series_writes(
    alloc: Global,
    schema: &Schema,
    columns: &[usize],
    start: i64,
    stop: i64,
    exprs: &[Expr],
) -> Result<Items<Write>, WriteRefusal>
    requires { IsSchema schema.now }
    ensures { GivesRows (rows_from (λ number. inserted_write schema.now series_schema columns.now (Value.Number number ∷ []) exprs.now) 1 (series (start, stop))) result }
{
    let source = series_schema(alloc)?;
    let count = series_len(start, stop);
    let mut written = Items::new(alloc);
    written.reserve(room_of(count))?;
    for i in 0..count {
        let number = number_at(start, stop, i);
        let place = next_row(written.as_slice());
        let row = series_write(alloc, schema, &source, columns, number, place, exprs)?;
        written.push(row)?;
    }
    Ok(written)
}

/// The writes of the rows of an INSERT, each at the row's key, in the order of the rows: each value computed and fitted, row by row
/// and column by column, and NULL in the columns that are not named. Whether they replace rows is not known yet. `Value` with the
/// first refusal by row and then by column: 515 where NULL may not stand, 2628 for a text over its column's bytes, 220 for a number
/// out of the range of tinyint or smallint and 8115 for one out of another type's, 8115 and 8134 as `compute` has them. `Memory`
/// where there is no room for the rows.
pub fn written(
    alloc: Global,
    schema: &Schema,
    plan: &InsertPlan,
) -> Result<Items<Write>, WriteRefusal>
    requires { IsSchema schema.now }
    ensures { GivesEdits (edits_by schema.now (inserted schema.now plan.now)) result }
{
    let columns = plan.columns.as_slice();
    let rows = plan.rows.as_slice();
    match plan.series {
        Some((start, stop)) => series_writes(alloc, schema, columns, start, stop, first_row(rows)),
        None => values_writes(alloc, schema, columns, rows),
    }
}
