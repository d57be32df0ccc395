//! What an INSERT and an UPDATE write.

ghost use Rattle.std.specs.Prelude.{◌≡◌, map, IfOk};
ghost use Rattle.std.specs.Option.{option_copied};
ghost use Rattle.bind_forms.specs.Exprs.{value_for};
ghost use Rattle.bind_forms.specs.Plans.{insert_columns, row_of, source_of, insert_plan, set_of, update_plan};

use crate::expr::value_for;
use crate::literal::{all_columns, column_of, columns_of, series_end};
use crate::pred::filter_of;
use cs_base::{Items, Memory};
use cs_model::{Expr, InsertPlan, UpdatePlan, series_schema};
use cs_types::Schema;
use std::alloc::Global;
use tsql_trees::{ExprTree, NamesTree, PredTree, RowTree, SeriesTree, SetTree, SourceTree};

/// The columns that an INSERT names, or else all in order.
fn insert_columns(
    alloc: Global,
    schema: &Schema,
    names: Option<&NamesTree>,
) -> Result<Items<usize>, Memory>
    ensures { IfOk result (λ made. made ≡ insert_columns schema.now (option_copied names.entry)) }
{
    match names {
        Some(names) => columns_of(alloc, schema, names.as_slice()),
        None => all_columns(alloc, schema),
    }
}

/// The values of a row, each for its column. A value without a column, and a column without a value, are left out.
fn row_of(
    alloc: Global,
    names: &Schema,
    schema: &Schema,
    columns: &[usize],
    exprs: &[ExprTree],
) -> Result<Items<Expr>, Memory>
    ensures { IfOk result (λ made. made ≡ row_of names.now schema.now columns.now exprs.now) }
{
    let mut made = Items::new(alloc);
    made.reserve(exprs.len())?;
    let mut columns = columns;
    let mut exprs = exprs;
    'more: while let [column, more_columns @ ..] = columns {
        let [tree, more_exprs @ ..] = exprs else {
            return Ok(made);
        };
        let value = value_for(alloc, names, schema, *column, tree)?;
        made.push(value)?;
        columns = more_columns;
        exprs = more_exprs;
    }
    Ok(made)
}

fn rows_of(
    alloc: Global,
    schema: &Schema,
    columns: &[usize],
    rows: &[RowTree],
) -> Result<Items<Items<Expr>>, Memory>
    ensures { IfOk result (λ made. made ≡ map (λ row. row_of schema.now schema.now columns.now row.exprs) rows.now) }
{
    let mut made = Items::new(alloc);
    made.reserve(rows.len())?;
    for row in rows {
        let next = row_of(alloc, schema, schema, columns, row.exprs.as_slice())?;
        made.push(next)?;
    }
    Ok(made)
}

fn series_of(
    alloc: Global,
    schema: &Schema,
    columns: Items<usize>,
    series: &SeriesTree,
) -> Result<InsertPlan, Memory>
    ensures { IfOk result (λ plan. plan ≡ source_of schema.now columns (SourceTree.Series series.now)) }
{
    let names = series_schema(alloc)?;
    let row = row_of(
        alloc,
        &names,
        schema,
        columns.as_slice(),
        series.exprs.as_slice(),
    )?;
    let mut rows = Items::new(alloc);
    rows.push(row)?;
    Ok(InsertPlan {
        columns,
        rows,
        series: Some((series_end(series.start), series_end(series.stop))),
    })
}

/// What an INSERT inserts: the values of its rows, each for the column that is named for it, or for the columns in order
/// where none are named. Over a series the name `value` is column 0 of `series_schema`, a bigint. `Memory` where there is
/// no room.
pub fn insert_plan(
    alloc: Global,
    schema: &Schema,
    names: Option<&NamesTree>,
    source: &SourceTree,
) -> Result<InsertPlan, Memory>
    ensures { IfOk result (λ plan. plan ≡ insert_plan schema.now (option_copied names.entry) source.now) }
{
    let columns = insert_columns(alloc, schema, names)?;
    match source {
        SourceTree::Values(rows) => {
            let rows = rows_of(alloc, schema, columns.as_slice(), rows.as_slice())?;
            Ok(InsertPlan {
                columns,
                rows,
                series: None,
            })
        }
        SourceTree::Series(series) => series_of(alloc, schema, columns, series),
    }
}

fn sets_of(alloc: Global, schema: &Schema, sets: &[SetTree]) -> Result<Items<(usize, Expr)>, Memory>
    ensures { IfOk result (λ made. made ≡ map (set_of schema.now) sets.now) }
{
    let mut made = Items::new(alloc);
    for set in sets {
        let column = column_of(schema, &set.name);
        let value = value_for(alloc, schema, schema, column, &set.expr)?;
        made.push((column, value))?;
    }
    Ok(made)
}

/// What an UPDATE changes: for each SET its column and the new value, over the row as it was. `Memory` where there is no
/// room.
pub fn update_plan(
    alloc: Global,
    schema: &Schema,
    sets: &Items<SetTree>,
    filter: Option<&PredTree>,
) -> Result<UpdatePlan, Memory>
    ensures { IfOk result (λ plan. plan ≡ update_plan schema.now sets.now (option_copied filter.entry)) }
{
    let sets = sets_of(alloc, schema, sets.as_slice())?;
    let filter = filter_of(alloc, schema, filter)?;
    Ok(UpdatePlan { sets, filter })
}
