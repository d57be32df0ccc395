//! One column over the numbers of a series.

ghost use Rattle.std.specs.Prelude.{◌≡◌, ◌<◌, ◌≤ℤ◌, ◌++◌, ◌↔◌, ℕ, ℤ, true, List, Option, None, Some, Ok, length, map, replicate, IsTrue, IfOk, IfSome, OnOk};
ghost use Rattle.std.specs.Option.{option_copied};
ghost use Rattle.cs_types.specs.Kinds.{IsColumnType, keeps_number, scale_of};
ghost use Rattle.cs_types.specs.declared.Loose.TheVariants as loose;
ghost use Rattle.cs_types.specs.declared.Value.TheVariants as cells;
ghost use Rattle.cs_model.specs.Answers.{kept};
ghost use Rattle.batch_compute.specs.Columns.{kept_over, KeepsOver};
ghost use Rattle.batch_compute.specs.Values.{at, AreKept};
ghost use Rattle.cs_types.specs.Rows.{number_cell};

use crate::value::value;
use crate::values::values;
use cs_base::Memory;
use cs_model::Expr;
use cs_types::{Column, ColumnType, Loose, Value, fits};
use std::alloc::Global;

/// The number that a column keeps of a whole number. None where it keeps no number of it.
fn kept_number(column: &Column, number: i64) -> Option<i64>
    requires { IsColumnType column.now.kind }
    ensures { IfSome result (λ v. kept column.now (Ok (loose.Number number 0)) ≡ Ok (cells.Number v)) }
{
    let kind = column.kind;
    // Where the type has no places nothing is rounded.
    if kind.scale() == 0 && kind.keeps_number(number) {
        return Some(number);
    }
    let loose = Loose::Number {
        m: number as i128,
        s: 0,
    };
    match fits(kind, column.nullable, loose) {
        Ok(Value::Number(kept)) => Some(kept),
        _ => None,
    }
}

/// The cell that a column keeps of an expression over a number of a series, or of NULL where it is given none: a number, or NULL.
///
/// None says nothing of the cell: it is not found in this way. So it is where a part of the expression is no whole number of 64 bits, or
/// the column refuses what was computed.
pub fn series_cell(column: &Column, expr: Option<&Expr>, number: i64) -> Option<Option<i64>>
    requires { IsColumnType column.now.kind }
    ensures { IfSome result (λ cell. kept_over column.now (option_copied expr.entry) number ≡ Ok (number_cell cell)) }
{
    match expr {
        None | Some(Expr::Constant(Loose::Null)) => {
            if column.nullable { Some(None) } else { None }
        }
        Some(expr) => Some(Some(kept_number(column, value(expr, number)?)?)),
    }
}

/// The least and the greatest of the whole numbers that a type of whole numbers keeps. None for the other types.
fn kept_range(kind: ColumnType) -> Option<(i64, i64)>
    ensures { IfSome result (λ ends. (scale_of kind ≡ 0) × ((z : ℤ) → ends.0 ≤ℤ z → z ≤ℤ ends.1 → keeps_number kind z ≡ true)) }
{
    match kind {
        ColumnType::TinyInt => Some((0, 255)),
        ColumnType::SmallInt => Some((-32_768, 32_767)),
        ColumnType::Int => Some((-2_147_483_648, 2_147_483_647)),
        ColumnType::BigInt => Some((i64::MIN, i64::MAX)),
        _ => None,
    }
}

/// Whether each number lies between these ends, both included.
fn lie_within(ends: (i64, i64), numbers: &[i64]) -> bool
    ensures { IsTrue result → (k : ℕ) → k < length numbers.now → (ends.0 ≤ℤ at numbers.now k) × (at numbers.now k ≤ℤ ends.1) }
{
    let (least, greatest) = ends;
    numbers
        .iter()
        .all(|number| least <= *number && *number <= greatest)
}

/// Whether a column keeps each number as it is, where that is seen by its range.
fn keeps_each_as_it_is(kind: ColumnType, numbers: &[i64]) -> bool
    ensures { IsTrue result → (scale_of kind ≡ 0) × ((k : ℕ) → k < length numbers.now → keeps_number kind (at numbers.now k) ≡ true) }
{
    match kept_range(kind) {
        Some(ends) => lie_within(ends, numbers),
        None => false,
    }
}

/// Puts in the place of each number what the column keeps of it. False where it keeps no number of one of them, and the numbers are of
/// no use then.
fn keep_each(column: &Column, numbers: &mut [i64]) -> bool
    requires { IsColumnType column.now.kind }
    ensures { IsTrue result → AreKept column.now numbers.old numbers.new }
{
    if keeps_each_as_it_is(column.kind, numbers) {
        return true;
    }
    for number in numbers.iter_mut() {
        match kept_number(column, *number) {
            Some(kept) => *number = kept,
            None => return false,
        }
    }
    true
}

/// Adds numbers to cells.
fn push_each(cells: &mut Vec<Option<i64>>, numbers: &[i64]) -> Result<(), Memory>
    ensures { OnOk result (cells.new.items ≡ cells.old.items ++ map Some numbers.now) }
{
    for number in numbers {
        cells.push(Some(*number))?;
    }
    Ok(())
}

/// Adds the cells that a column keeps of an expression over numbers of a series. False where it keeps none over one of them, or this way
/// does not compute it.
fn push_over(
    alloc: Global,
    column: &Column,
    expr: &Expr,
    numbers: &[i64],
    cells: &mut Vec<Option<i64>>,
) -> Result<bool, Memory>
    requires { IsColumnType column.now.kind }
    ensures { IfOk result (λ all. IsTrue all → (more : List (Option ℤ)) × (cells.new.items ≡ cells.old.items ++ more) × KeepsOver column.now (Some expr.now) numbers.now more) }
{
    match values(alloc, expr, numbers)? {
        Some(found) => {
            let mut kept = found;
            if !keep_each(column, &mut kept) {
                return Ok(false);
            }
            push_each(cells, &kept)?;
            Ok(true)
        }
        None => Ok(false),
    }
}

/// How many numbers are computed at a time, so that what is computed on the way stays near the processor.
const PIECE: usize = 1_024;

/// The cells that a column keeps of an expression over numbers of a series, a piece of them at a time.
fn cells_over(
    alloc: Global,
    column: &Column,
    expr: &Expr,
    numbers: &[i64],
) -> Result<Option<Vec<Option<i64>>>, Memory>
    requires { IsColumnType column.now.kind }
    ensures { IfOk result (λ found. IfSome found (λ cells. KeepsOver column.now (Some expr.now) numbers.now cells.items)) }
{
    let mut cells = Vec::with_capacity(alloc, numbers.len())?;
    let mut done = 0;
    while done < numbers.len() {
        let end = numbers.len().min(done + PIECE);
        if !push_over(alloc, column, expr, &numbers[done..end], &mut cells)? {
            return Ok(None);
        }
        done = end;
    }
    Ok(Some(cells))
}

/// The cells of a column of NULLs. None where it keeps none.
fn nulls(alloc: Global, column: &Column, many: usize) -> Result<Option<Vec<Option<i64>>>, Memory>
    ensures { IfOk result (λ found. IfSome found (λ cells. (column.now.nullable ≡ true) × (cells.items ≡ replicate many None))) }
{
    if column.nullable {
        Ok(Some(vec![in alloc; None; many]?))
    } else {
        Ok(None)
    }
}

/// Whether a literal is NULL.
fn is_null(literal: &Loose) -> bool
    ensures { IsTrue result ↔ (literal.now ≡ loose.Null) }
{
    matches!(literal, Loose::Null)
}

/// The cells that a column keeps of an expression over numbers of a series: all are NULL where the expression is NULL.
fn cells_of(
    alloc: Global,
    column: &Column,
    expr: &Expr,
    numbers: &[i64],
) -> Result<Option<Vec<Option<i64>>>, Memory>
    requires { IsColumnType column.now.kind }
    ensures { IfOk result (λ found. IfSome found (λ cells. KeepsOver column.now (Some expr.now) numbers.now cells.items)) }
{
    match expr {
        Expr::Constant(literal) if is_null(literal) => nulls(alloc, column, numbers.len()),
        _ => cells_over(alloc, column, expr, numbers),
    }
}

/// The cells that a column keeps of an expression over numbers of a series, or of NULL where it is given none. None where it keeps no
/// number or NULL over one of them, or this way does not compute it.
pub fn column_over(
    alloc: Global,
    column: &Column,
    expr: Option<&Expr>,
    numbers: &[i64],
) -> Result<Option<Vec<Option<i64>>>, Memory>
    requires { IsColumnType column.now.kind }
    ensures { IfOk result (λ found. IfSome found (λ cells. KeepsOver column.now (option_copied expr.entry) numbers.now cells.items)) }
{
    match expr {
        None => nulls(alloc, column, numbers.len()),
        Some(expr) => cells_of(alloc, column, expr, numbers),
    }
}
