//! Names and literals over a schema.

ghost use Rattle.std.specs.Prelude.{◌≡◌, IfOk};
ghost use Rattle.bind_names.specs.Names.{trimmed};
ghost use Rattle.bind_forms.specs.Literals.{column_of, columns_of, all_columns, is_date, is_date_column, text_literal, const_of, day_or_text, as_day, beside, in_bigint, series_end};

use bind_names::{column_named, number_literal, signed_digits, trimmed};
use cs_base::{Items, Memory};
use cs_types::{ColumnType, Loose, Schema, read_date};
use std::alloc::Global;
use tsql_trees::{Bytes, ConstTree, NameTree, NumberTree, TextTree};

/// The number of a name's column, and 0 for a name that is no column.
pub fn column_of(schema: &Schema, name: &NameTree) -> usize
    ensures { result ≡ column_of schema.now name.now }
{
    column_named(schema, name.bytes.as_slice()).unwrap_or(0)
}

/// The numbers of all columns in order.
pub fn all_columns(alloc: Global, schema: &Schema) -> Result<Items<usize>, Memory>
    ensures { IfOk result (λ made. made ≡ all_columns schema.now) }
{
    let mut made = Items::new(alloc);
    for column in 0..schema.columns.len() {
        made.push(column)?;
    }
    Ok(made)
}

/// The numbers of the columns of some names.
pub fn columns_of(
    alloc: Global,
    schema: &Schema,
    names: &[NameTree],
) -> Result<Items<usize>, Memory>
    ensures { IfOk result (λ made. made ≡ columns_of schema.now names.now) }
{
    let mut made = Items::new(alloc);
    for name in names {
        made.push(column_of(schema, name))?;
    }
    Ok(made)
}

fn is_date(kind: ColumnType) -> bool
    ensures { result ≡ is_date kind }
{
    match kind {
        ColumnType::Date => true,
        _ => false,
    }
}

fn is_date_column(schema: &Schema, column: usize) -> bool
    ensures { result ≡ is_date_column schema.now column }
{
    match schema.columns.get(column) {
        Some(column) => is_date(column.kind),
        None => false,
    }
}

/// A text's bytes without its trailing spaces.
pub fn trimmed_bytes(alloc: Global, text: &TextTree) -> Result<Bytes, Memory>
    ensures { IfOk result (λ bytes. bytes ≡ trimmed text.now.bytes) }
{
    let kept = trimmed(text.bytes.as_slice());
    Ok(Items::from_vec(kept.to_vec(alloc)?))
}

/// A text literal's value.
pub fn text_literal(alloc: Global, text: &TextTree) -> Result<Loose, Memory>
    ensures { IfOk result (λ value. value ≡ text_literal text.now) }
{
    let bytes = trimmed_bytes(alloc, text)?;
    Ok(Loose::Text(bytes))
}

/// The value of a literal of a predicate.
pub fn const_of(alloc: Global, tree: &ConstTree) -> Result<Loose, Memory>
    ensures { IfOk result (λ value. value ≡ const_of tree.now) }
{
    match tree {
        ConstTree::Number(number) => Ok(number_literal(*number)),
        ConstTree::Text(text) => text_literal(alloc, text),
        ConstTree::Null { .. } => Ok(Loose::Null),
    }
}

fn day_or_text(text: Bytes, day: Option<i64>) -> Loose
    ensures { result ≡ day_or_text text day }
{
    match day {
        Some(day) => Loose::Day(day),
        None => Loose::Text(text),
    }
}

fn as_day(value: Loose) -> Loose
    ensures { result ≡ as_day value }
{
    match value {
        Loose::Text(text) => {
            let day = read_date(text.as_slice());
            day_or_text(text, day)
        }
        other => other,
    }
}

/// A literal beside a column: beside a date column a text that is a date is a day.
pub fn beside(schema: &Schema, column: usize, value: Loose) -> Loose
    ensures { result ≡ beside schema.now column value }
{
    if is_date_column(schema, column) {
        as_day(value)
    } else {
        value
    }
}

/// A literal of a predicate beside a column.
pub fn const_beside(
    alloc: Global,
    schema: &Schema,
    column: usize,
    tree: &ConstTree,
) -> Result<Loose, Memory>
    ensures { IfOk result (λ value. value ≡ beside schema.now column (const_of tree.now)) }
{
    let value = const_of(alloc, tree)?;
    Ok(beside(schema, column, value))
}

fn in_bigint(number: i128) -> i64
    ensures { result ≡ in_bigint number }
{
    match i64::try_from(number) {
        Ok(number) => number,
        Err(_) => 0,
    }
}

/// The first or the last number of a series, and 0 in place of one outside bigint.
pub fn series_end(number: NumberTree) -> i64
    ensures { result ≡ series_end number }
{
    in_bigint(signed_digits(number.minus, number.digits))
}
