//! All columns over a series.

ghost use Rattle.std.specs.Prelude.{◌≡◌, ◌==◌, [], ◌∷◌, length, slice_get, unwrap_or, IfOk, IfSome};
ghost use Rattle.std.specs.List.{position_from};
ghost use Rattle.std.specs.Option.{option_copied};
ghost use Rattle.cs_types.specs.declared.Value.TheVariants as cells;
ghost use Rattle.cs_types.specs.Schemas.{IsSchema};
ghost use Rattle.cs_model.specs.Answers.{given, inserted, inserted_row, rows_from};
ghost use Rattle.cs_model.specs.Series.{series_schema};
ghost use Rattle.batch_compute.specs.Columns.{GivesColumns};

use crate::column::column_over;
use crate::numbers::series_numbers;
use cs_base::{Items, Memory};
use cs_model::{Expr, InsertPlan};
use cs_types::Schema;
use std::alloc::Global;

/// The place of a column in the list of columns.
fn place_of(columns: &[usize], column: usize) -> Option<usize>
    ensures { result ≡ position_from (λ other. other == column) 0 columns.now }
{
    columns.iter().position(|other| *other == column)
}

/// What the list of columns gives a column.
pub fn given<'a>(columns: &[usize], exprs: &'a [Expr], column: usize) -> Option<&'a Expr>
    ensures { option_copied result ≡ given columns.now exprs.now column }
{
    match place_of(columns, column) {
        Some(at) => exprs.get(at),
        None => None,
    }
}

/// The expressions of the one row over a series.
pub fn first_row(rows: &[Items<Expr>]) -> &[Expr]
    ensures { result.now ≡ unwrap_or (slice_get rows.now 0) [] }
{
    match rows.first() {
        Some(exprs) => exprs.as_slice(),
        None => &[],
    }
}

/// The columns of the rows of these expressions over numbers of a series. None where one of the columns can't be made.
fn columns_over(
    alloc: Global,
    schema: &Schema,
    columns: &[usize],
    exprs: &[Expr],
    numbers: &[i64],
) -> Result<Option<Vec<Vec<Option<i64>>>>, Memory>
    requires { IsSchema schema.now }
    ensures { IfOk result (λ found. IfSome found (λ made. GivesColumns (length schema.now.columns) (rows_from (λ number. inserted_row schema.now series_schema columns.now (cells.Number number ∷ []) exprs.now) 1 numbers.now) made.items)) }
{
    let mut made = Vec::with_capacity(alloc, schema.columns.len())?;
    for (i, column) in schema.columns.as_slice().iter().enumerate() {
        match column_over(alloc, column, given(columns, exprs, i), numbers)? {
            Some(cells) => made.push(cells)?,
            None => return Ok(None),
        }
    }
    Ok(Some(made))
}

/// The columns of the rows that an INSERT writes over a series, in the order of the schema's columns: of each the numbers and NULLs,
/// row by row. Of these rows no value is refused.
///
/// The rows are those of `inserted` (Microsoft's page on INSERT: each value by its column's type, and NULL in a column that is not
/// named).
///
/// None says nothing of the rows: they are not made in this way. So it is where the plan has no series, or where a value is no whole
/// number of 64 bits that is computed from such numbers, nor NULL as it stands, or its column does not keep it. `Memory` where there is no
/// room for the columns.
pub fn series_columns(
    alloc: Global,
    schema: &Schema,
    plan: &InsertPlan,
) -> Result<Option<Vec<Vec<Option<i64>>>>, Memory>
    requires { IsSchema schema.now }
    ensures { IfOk result (λ found. IfSome found (λ columns. GivesColumns (length schema.now.columns) (inserted schema.now plan.now) columns.items)) }
{
    let (start, stop) = match plan.series {
        Some(ends) => ends,
        None => return Ok(None),
    };
    match series_numbers(alloc, start, stop)? {
        Some(numbers) => columns_over(
            alloc,
            schema,
            plan.columns.as_slice(),
            first_row(plan.rows.as_slice()),
            numbers.as_slice(),
        ),
        None => Ok(None),
    }
}
