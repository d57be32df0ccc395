// The parcel of rows that come by columns.
ghost use Rattle.std.specs.Prelude.{◌≡◌, ◌≤◌, ◌<◌, ◌+◌, List, map, take, drop, length, All, IfOk};
ghost use Rattle.cs_types.specs.declared.Schema.{Schema};
ghost use Rattle.cs_types.specs.declared.Value.{Value};
ghost use Rattle.cs_types.specs.Rows.{cell_at, number_cell};
ghost use Rattle.cs_types.specs.Schemas.{IsSchema};
ghost use Rattle.cs_model.specs.Answers.{edits_of};
ghost use Rattle.batch_compute.specs.Columns.{AreColumnsOf};
ghost use Rattle.row_group.specs.Packings.{numbered};
ghost use Rattle.group_view.specs.Parcels.{IsParcelFor};
ghost use Rattle.tuple_mover.specs.Inserts.{rows_given, AreRowsOf, IsDirectOf};

use crate::parcels::{packed, part_len};
use cs_base::{Items, Memory};
use cs_types::{Key, Row, Schema, Value};
use group_view::Parcel;
use row_group::{Packed, Packer};
use std::alloc::Global;

/// The cell at a place of a column, NULL past its end.
fn cell_of(column: &[Option<i64>], place: usize) -> Value
    ensures { result ≡ cell_at (map number_cell column.now) place }
{
    match column.get(place) {
        Some(Some(number)) => Value::Number(*number),
        Some(None) => Value::Null,
        None => Value::Null,
    }
}

/// The row at a place of the columns.
fn row_from(alloc: Global, columns: &[Vec<Option<i64>>], place: usize) -> Result<Row, Memory>
    ensures { IfOk result (λ row. row ≡ map (λ cells. cell_at cells place) (numbered columns.now)) }
{
    let mut row = Row::new(alloc);
    for column in columns {
        row.push(cell_of(column, place))?;
    }
    Ok(row)
}

/// The rows of the columns from a place on, with their keys.
fn entries_from(
    alloc: Global,
    keys: &[Key],
    columns: &[Vec<Option<i64>>],
    from: usize,
) -> Result<Vec<(Key, Row)>, Memory>
    requires { from ≤ length keys.now }
    ensures { (schema : Schema) (rows : List (List Value)) → AreRowsOf schema keys.now columns.now rows → IfOk result (λ entries. entries.items ≡ rows_given (edits_of schema (drop from rows))) }
{
    let mut entries = Vec::with_capacity(alloc, keys.len() - from)?;
    for place in from..keys.len() {
        entries.push((keys[place], row_from(alloc, columns, place)?))?;
    }
    Ok(entries)
}

/// A copy of so many cells of each column, from a place on.
fn cut(
    alloc: Global,
    columns: &[Vec<Option<i64>>],
    from: usize,
    count: usize,
) -> Result<Vec<Vec<Option<i64>>>, Memory>
    requires { All (λ column. from + count ≤ length column.items) columns.now }
    ensures { IfOk result (λ parts. map (λ part. part.items) parts.items ≡ map (λ column. take count (drop from column.items)) columns.now) }
{
    let mut parts = Vec::with_capacity(alloc, columns.len())?;
    for column in columns {
        parts.push(Vec::from_slice(alloc, &column[from..from + count])?)?;
    }
    Ok(parts)
}

/// A group of the rows of the columns, of which there is at least one. No cell is copied.
fn column_group(
    alloc: Global,
    schema: &Schema,
    keys: &[Key],
    columns: Vec<Vec<Option<i64>>>,
) -> Result<Packed, Memory>
    requires schema { IsSchema schema.now }
    requires rows { (rows : List (List Value)) × AreRowsOf schema.now keys.now columns.items rows }
    requires some { 0 < length keys.now }
    ensures { (rows : List (List Value)) → AreRowsOf schema.now keys.now columns.items rows → IfOk result (IsDirectOf schema.now (edits_of schema.now rows)) }
{
    let packer = Packer::of_columns(alloc, columns, keys.len(), 0)?;
    packed(packer, schema)
}

/// The parcel of rows that are not one group: each group has a copy of its part of the columns.
fn parcel_in_parts(
    alloc: Global,
    schema: &Schema,
    keys: &[Key],
    columns: &[Vec<Option<i64>>],
    group_rows: u64,
    direct_rows: u64,
) -> Result<Parcel, Memory>
    requires schema { IsSchema schema.now }
    requires groups { 1 ≤ group_rows }
    requires direct { 1 ≤ direct_rows }
    requires rows { (rows : List (List Value)) × AreRowsOf schema.now keys.now columns.now rows }
    ensures parcel { (rows : List (List Value)) → AreRowsOf schema.now keys.now columns.now rows → IfOk result (IsParcelFor schema.now (record { group_rows = group_rows; direct_rows = direct_rows }) (edits_of schema.now rows)) }
    ensures base { IfOk result (λ parcel. All (λ group. group.base ≡ 0) parcel.groups) }
{
    let mut from = 0;
    let mut groups = Vec::new(alloc);
    while direct_rows <= (keys.len() - from) as u64 {
        let count = part_len(keys.len() - from, group_rows);
        let part = cut(alloc, columns, from, count)?;
        groups.push(column_group(alloc, schema, &keys[from..from + count], part)?)?;
        from += count;
    }
    let rest = entries_from(alloc, keys, columns, from)?;
    Ok(Parcel {
        groups: Items::from_vec(groups),
        rest: Items::from_vec(rest),
    })
}

/// The parcel of a commit of the rows that have these columns of numbers and NULLs, and these keys, in this order: that of
/// writes which give each key its row, as `parcel_of` says of it. Where all rows are one group no cell is copied, and else
/// each cell once. `Memory` comes only where there is no room for the parcel or on the way to it.
pub fn parcel_of_columns(
    alloc: Global,
    schema: &Schema,
    keys: &[Key],
    columns: Vec<Vec<Option<i64>>>,
    group_rows: u64,
    direct_rows: u64,
) -> Result<Parcel, Memory>
    requires schema { IsSchema schema.now }
    requires groups { 1 ≤ group_rows }
    requires direct { 1 ≤ direct_rows }
    requires rows { (rows : List (List Value)) × AreRowsOf schema.now keys.now columns.items rows }
    ensures parcel { (rows : List (List Value)) → AreColumnsOf (length schema.now.columns) rows columns.items → IfOk result (IsParcelFor schema.now (record { group_rows = group_rows; direct_rows = direct_rows }) (edits_of schema.now rows)) }
    ensures base { IfOk result (λ parcel. All (λ group. group.base ≡ 0) parcel.groups) }
{
    let count = keys.len() as u64;
    if count < direct_rows || group_rows < count {
        return parcel_in_parts(alloc, schema, keys, &columns, group_rows, direct_rows);
    }
    let mut groups = Items::new(alloc);
    groups.push(column_group(alloc, schema, keys, columns)?)?;
    Ok(Parcel {
        groups,
        rest: Items::new(alloc),
    })
}
