//! The groups of a query, each with its tallies, found by their cells.

ghost use Rattle.std.specs.Prelude.{◌≡◌, [], ◌∷◌, List, ℕ, All, length, map, IfOk, OnOk};
ghost use Rattle.cs_types.specs.Rows.{cell_at};
ghost use Rattle.cs_model.specs.Groups as groups;
ghost use Rattle.cs_model.specs.Order.{comes_before, in_order, row_cmp};
ghost use Rattle.batch_aggregate.specs.Standing.{entries_in, entries_of, entry_at, merged, with_tallies, IsBy};
ghost use Rattle.batch_aggregate.specs.Tallies.{tally_of};

use crate::order::{OrderColumn, compare_rows};
use crate::tally::Tallies;
use cs_base::Memory;
use cs_model::{Item, Query};
use cs_types::{Row, Value};
use indexmap::IndexMap;
use std::alloc::Global;
use std::cmp::Ordering;

/// The groups by their cells in the grouping columns.
#[derive(Drop)]
pub enum Entries {
    /// Without grouping columns: one group, which is not looked up.
    Alone(Tallies),
    /// By the cell in the one grouping column, which is looked up in a row where it lies: nothing is copied.
    ByCell {
        column: usize,
        groups: IndexMap<Value, Tallies>,
    },
    /// By the cells in several grouping columns.
    ByCells(IndexMap<Row, Tallies>),
}

/// The groups over no rows: none, or without grouping columns one.
pub fn no_rows(alloc: Global, query: &Query) -> Result<Entries, Memory>
    ensures by { IfOk result (λ entries. IsBy query.now.groups entries) }
    ensures entries { IfOk result (λ entries. entries_in entries ≡ entries_of query.now []) }
{
    let columns = query.groups.as_slice();
    if columns.is_empty() {
        return Ok(Entries::Alone(Tallies::new(alloc, query.items.as_slice())?));
    }
    if columns.len() == 1 {
        return Ok(Entries::ByCell {
            column: columns[0],
            groups: IndexMap::new(alloc),
        });
    }
    Ok(Entries::ByCells(IndexMap::new(alloc)))
}

/// A row's cells in some columns. Up to four of them lie in the row that is made: a text alone, or a fifth, takes memory.
fn cells_of(alloc: Global, columns: &[usize], row: &Row) -> Result<Row, Memory>
    ensures { IfOk result (λ cells. cells ≡ groups.cells_of columns.now row.now) }
{
    let mut cells = Row::new(alloc);
    for column in columns {
        cells.push(row.cell(*column).copy()?)?;
    }
    Ok(cells)
}

/// The tallies of a row.
fn tallies_of(alloc: Global, items: &[Item], row: &Row) -> Result<Tallies, Memory>
    ensures { IfOk result (λ tallies. tallies ≡ map (tally_of (row.now ∷ [])) items.now) }
{
    let mut tallies = Tallies::new(alloc, items)?;
    tallies.add(items, row)?;
    Ok(tallies)
}

/// Adds a row to the group with its cell in a column, which is made where there is none.
fn add_by_cell(
    alloc: Global,
    groups: &mut IndexMap<Value, Tallies>,
    column: usize,
    items: &[Item],
    row: &Row,
) -> Result<(), Memory>
    ensures { OnOk result (map entry_at groups.new.entries ≡ with_tallies (cell_at row.now column ∷ []) (map (tally_of (row.now ∷ [])) items.now) (map entry_at groups.old.entries)) }
{
    let cell = row.cell(column);
    if let Some(place) = groups.get_index_of(cell) {
        return groups[place].add(items, row);
    }
    let tallies = tallies_of(alloc, items, row)?;
    let key = cell.copy()?;
    groups.insert(key, tallies)?;
    Ok(())
}

/// Adds a row to the group with these cells, which is made where there is none.
fn add_by_cells(
    alloc: Global,
    groups: &mut IndexMap<Row, Tallies>,
    cells: Row,
    items: &[Item],
    row: &Row,
) -> Result<(), Memory>
    ensures { OnOk result (groups.new.entries ≡ with_tallies cells (map (tally_of (row.now ∷ [])) items.now) groups.old.entries) }
{
    if let Some(place) = groups.get_index_of(&cells) {
        return groups[place].add(items, row);
    }
    let tallies = tallies_of(alloc, items, row)?;
    groups.insert(cells, tallies)?;
    Ok(())
}

/// Adds a row to the group with its cells in the grouping columns.
pub fn add_row(alloc: Global, entries: &mut Entries, query: &Query, row: &Row) -> Result<(), Memory>
    ensures by { OnOk result (IsBy query.now.groups entries.old → IsBy query.now.groups entries.new) }
    ensures added { OnOk result (IsBy query.now.groups entries.old → entries_in entries.new ≡ with_tallies (groups.cells_of query.now.groups row.now) (map (tally_of (row.now ∷ [])) query.now.items) (entries_in entries.old)) }
{
    let items = query.items.as_slice();
    match entries {
        Entries::Alone(tallies) => tallies.add(items, row),
        Entries::ByCell { column, groups } => add_by_cell(alloc, groups, *column, items, row),
        Entries::ByCells(groups) => {
            let cells = cells_of(alloc, query.groups.as_slice(), row)?;
            add_by_cells(alloc, groups, cells, items, row)
        }
    }
}

/// Adds the tallies of further rows to the group with this cell, which is made where there is none.
fn join_by_cell(
    groups: &mut IndexMap<Value, Tallies>,
    cell: Value,
    tallies: Tallies,
) -> Result<(), Memory>
    ensures { OnOk result (map entry_at groups.new.entries ≡ with_tallies (cell ∷ []) tallies (map entry_at groups.old.entries)) }
{
    if let Some(known) = groups.get_index_of(&cell) {
        return groups[known].join(&tallies);
    }
    groups.insert(cell, tallies)?;
    Ok(())
}

/// Adds the tallies of further rows to the group with these cells, which is made where there is none.
fn join_by_cells(
    groups: &mut IndexMap<Row, Tallies>,
    cells: Row,
    tallies: Tallies,
) -> Result<(), Memory>
    ensures { OnOk result (groups.new.entries ≡ with_tallies cells tallies groups.old.entries) }
{
    if let Some(known) = groups.get_index_of(&cells) {
        return groups[known].join(&tallies);
    }
    groups.insert(cells, tallies)?;
    Ok(())
}

/// Adds the tallies of further rows to the group with these cells.
pub fn add_tallies(entries: &mut Entries, cells: Row, tallies: Tallies) -> Result<(), Memory>
    ensures by { OnOk result ((columns : List ℕ) → IsBy columns entries.old → IsBy columns entries.new) }
    ensures added { OnOk result ((columns : List ℕ) → IsBy columns entries.old → length cells ≡ length columns → entries_in entries.new ≡ with_tallies cells tallies (entries_in entries.old)) }
{
    let mut cells = cells;
    match entries {
        Entries::Alone(known) => known.join(&tallies),
        Entries::ByCell { column: _, groups } => join_by_cell(groups, cells.take(0), tallies),
        Entries::ByCells(groups) => join_by_cells(groups, cells, tallies),
    }
}

/// The groups that were kept by one cell, with rows of it.
fn with_rows(alloc: Global, groups: IndexMap<Value, Tallies>) -> Result<Vec<(Row, Tallies)>, Memory>
    ensures { IfOk result (λ list. list.items ≡ map entry_at groups.entries) }
{
    let mut list = Vec::new(alloc);
    for (cell, tallies) in groups {
        let mut cells = Row::new(alloc);
        cells.push(cell)?;
        list.push((cells, tallies))?;
    }
    Ok(list)
}

/// The groups that were kept by several cells.
fn in_list(alloc: Global, groups: IndexMap<Row, Tallies>) -> Result<Vec<(Row, Tallies)>, Memory>
    ensures { IfOk result (λ list. list.items ≡ groups.entries) }
{
    let mut list = Vec::new(alloc);
    for (cells, tallies) in groups {
        list.push((cells, tallies))?;
    }
    Ok(list)
}

/// The groups with their cells.
pub fn listed(alloc: Global, entries: Entries) -> Result<Vec<(Row, Tallies)>, Memory>
    ensures { IfOk result (λ list. list.items ≡ entries_in entries) }
{
    match entries {
        Entries::Alone(tallies) => {
            let mut list = Vec::new(alloc);
            list.push((Row::new(alloc), tallies))?;
            Ok(list)
        }
        Entries::ByCell { column: _, groups } => with_rows(alloc, groups),
        Entries::ByCells(groups) => in_list(alloc, groups),
    }
}

/// Adds the tallies of all groups of others.
pub fn add_all(alloc: Global, entries: &mut Entries, others: Entries) -> Result<(), Memory>
    ensures by { OnOk result ((columns : List ℕ) → IsBy columns entries.old → IsBy columns entries.new) }
    ensures added { OnOk result ((columns : List ℕ) → IsBy columns entries.old → All (λ entry. length entry.0 ≡ length columns) (entries_in others) → entries_in entries.new ≡ merged (entries_in entries.old) (entries_in others)) }
{
    for (cells, tallies) in listed(alloc, others)? {
        add_tallies(entries, cells, tallies)?;
    }
    Ok(())
}

/// Puts groups in order by places among their cells.
pub fn sort_entries(list: &mut Vec<(Row, Tallies)>, places: &[OrderColumn]) -> Result<(), Memory>
    ensures { OnOk result (list.new.items ≡ in_order (λ a b. comes_before places.now a.0 b.0) list.old.items) }
{
    list.sort_by(
        |a: &(Row, Tallies), b: &(Row, Tallies)| -> Ordering
            ensures { result ≡ row_cmp places.entry.now a.now.0 b.now.0 }
        { compare_rows(places, &a.0, &b.0) },
    )?;
    Ok(())
}
