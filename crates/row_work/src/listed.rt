// The rows of a group that are found by their keys, into a partial answer.
ghost use Rattle.std.specs.Prelude.{◌≡◌, ◌++◌, ◌≤◌, ℕ, Bool, false, List, [], length, map, true, All, IfOk, IsPermutation, OnOk};
ghost use Rattle.std.specs.List.{filter_map};
ghost use Rattle.std.specs.Map.{values_of};
ghost use Rattle.cs_types.specs.declared.Value.{Value};
ghost use Rattle.cs_types.specs.Rows.{padded};
ghost use Rattle.cs_model.specs.Queries.{keeps};
ghost use Rattle.batch_aggregate.specs.Standing.{StandsFor};
ghost use Rattle.batch_aggregate.specs.Tallies.{tally_of};
ghost use Rattle.batch_scan.specs.Reads.{is_read};
ghost use Rattle.row_work.specs.Bounds.{IsKeyRange};
ghost use Rattle.row_work.specs.Reads.{rowed_at, MayRead};
ghost use Rattle.row_work.specs.Sieved.{read_in};
ghost use Rattle.row_work.specs.Stores.{is_read_within, positions_of, read_at_position, true_from, PassesAt};

use crate::by_key::in_order;
use crate::exact::KeyRange;
use crate::reading::row_at;
use batch_aggregate::{Partial, Tallies};
use cs_base::Memory;
use cs_model::{Item, Query};
use cs_types::{Row, Schema};
use group_view::{GroupPart, GroupView, Pinned, Place};
use std::alloc::Global;

/// Adds the rows of versions of a group that are read, by their positions, in so many cells.
fn add_at_positions(
    alloc: Global,
    partial: &mut Partial<'_>,
    pinned: &Pinned,
    group: usize,
    width: usize,
    positions: &[usize],
) -> Result<(), Memory>
    requires { All (PassesAt (is_read pinned.now) (rowed_at pinned.now.view group)) positions.now }
    ensures schema { partial.new.schema.now ≡ partial.old.schema.now }
    ensures query { partial.new.query.now ≡ partial.old.query.now }
    ensures added { (rows : List (List Value)) → StandsFor partial.old rows → OnOk result (StandsFor partial.new (rows ++ values_of (filter_map (read_at_position width pinned.now (rowed_at pinned.now.view group)) positions.now))) }
{
    for position in positions {
        let place = Place {
            group,
            position: *position,
        };
        let mut made = None;
        let row = row_at(alloc, &pinned.view, place, width, &mut made)?;
        partial.add(row)?;
    }
    Ok(())
}

/// Positions in an order in which the rows there may be added: in theirs, but in a query that puts rows together as they come.
fn in_query_order(query: &Query, positions: Vec<usize>) -> Vec<usize>
    ensures same { IsPermutation positions.items result.items }
    ensures order { (flags : List Bool) → IsPermutation positions.items (true_from 0 flags) → query.now.grouped ≡ false → result.items ≡ true_from 0 flags }
{
    if query.grouped {
        positions
    } else {
        in_order(positions)
    }
}

/// Adds the rows of versions of a group that are read, by their positions, in so many cells, in an order in which they may be added.
fn add_listed(
    alloc: Global,
    partial: &mut Partial<'_>,
    query: &Query,
    pinned: &Pinned,
    group: usize,
    width: usize,
    found: Vec<usize>,
) -> Result<(), Memory>
    requires read { All (PassesAt (is_read pinned.now) (rowed_at pinned.now.view group)) found.items }
    requires of_query { partial.old.query.now ≡ query.now }
    ensures schema { partial.new.schema.now ≡ partial.old.schema.now }
    ensures query { partial.new.query.now ≡ partial.old.query.now }
    ensures added { (flags : List Bool) (rows : List (List Value)) → IsPermutation found.items (true_from 0 flags) → StandsFor partial.old rows
        → OnOk result (StandsFor partial.new (rows ++ values_of (filter_map (read_at_position width pinned.now (rowed_at pinned.now.view group)) (true_from 0 flags)))) }
{
    let positions = in_query_order(query, found);
    add_at_positions(alloc, partial, pinned, group, width, &positions)
}

/// The tallies of the rows of versions of a group that are read, by their positions, in so many cells.
fn tallies_at(
    alloc: Global,
    items: &[Item],
    pinned: &Pinned,
    group: usize,
    width: usize,
    positions: &[usize],
) -> Result<Tallies, Memory>
    requires { All (PassesAt (is_read pinned.now) (rowed_at pinned.now.view group)) positions.now }
    ensures { IfOk result (λ tallies. tallies ≡ map (tally_of (values_of (filter_map (read_at_position width pinned.now (rowed_at pinned.now.view group)) positions.now))) items.now) }
{
    let mut tallies = Tallies::new(alloc, items)?;
    for position in positions {
        let place = Place {
            group,
            position: *position,
        };
        let mut made = None;
        let row = row_at(alloc, &pinned.view, place, width, &mut made)?;
        tallies.add(items, row)?;
    }
    Ok(tallies)
}

/// How many cells of rows of at most `width` cells an item reads: those up to its column.
fn cells_of_item(item: Item, width: usize) -> usize
    ensures within { result ≤ width }
    ensures enough { (n : ℕ) (rows : List (List Value)) → result ≤ n → n ≤ width → tally_of (map (padded n) rows) item ≡ tally_of (map (padded width) rows) item }
{
    match item {
        Item::Column(_) | Item::CountAll => 0,
        Item::Count(column)
        | Item::Sum(column)
        | Item::Min(column)
        | Item::Max(column)
        | Item::Avg(column) => { if column < width { column + 1 } else { width } }
    }
}

/// How many cells of rows of at most `width` cells some items read: those up to their last column.
fn cells_of_items(items: &[Item], width: usize) -> usize
    ensures { (rows : List (List Value)) → map (tally_of (map (padded result) rows)) items.now ≡ map (tally_of (map (padded width) rows)) items.now }
{
    let mut count = 0;
    for item in items {
        count = cells_of_item(*item, width).max(count);
    }
    count
}

/// In how many cells the rows of a group are read for items: in no more than they need where a row is made of them, as it is of a packed
/// group.
fn cells_to_read(view: &GroupView, group: usize, items: &[Item], width: usize) -> usize
    ensures { (rows : List (List Value)) → map (tally_of (map (padded result) rows)) items.now ≡ map (tally_of (map (padded width) rows)) items.now }
{
    match view.groups.get(group) {
        Some((_, GroupPart::Packed(..))) => cells_of_items(items, width),
        _ => width,
    }
}

/// Adds the rows of versions of a group that are read and that the filter keeps, by their positions, in so many cells, to the one group
/// of the query. None is judged: their tallies are added at once.
fn add_kept(
    alloc: Global,
    partial: &mut Partial<'_>,
    query: &Query,
    pinned: &Pinned,
    group: usize,
    width: usize,
    positions: &[usize],
) -> Result<(), Memory>
    requires read { All (PassesAt (is_read pinned.now) (rowed_at pinned.now.view group)) positions.now }
    requires kept { All (λ row. keeps partial.old.schema.now partial.old.query.now.filter row ≡ true) (values_of (filter_map (read_at_position width pinned.now (rowed_at pinned.now.view group)) positions.now)) }
    requires grouped { query.now.grouped ≡ true }
    requires alone { query.now.groups ≡ [] }
    requires of_query { partial.old.query.now ≡ query.now }
    ensures schema { partial.new.schema.now ≡ partial.old.schema.now }
    ensures query { partial.new.query.now ≡ partial.old.query.now }
    ensures added { (rows : List (List Value)) → StandsFor partial.old rows → OnOk result (StandsFor partial.new (rows ++ values_of (filter_map (read_at_position width pinned.now (rowed_at pinned.now.view group)) positions.now))) }
{
    if positions.is_empty() {
        return Ok(());
    }
    let items = query.items.as_slice();
    let cells = cells_to_read(&pinned.view, group, items, width);
    let tallies = tallies_at(alloc, items, pinned, group, cells, positions)?;
    partial.add_group(Row::new(alloc), tallies)
}

/// Whether the filter keeps each row with a key of a range, and the query puts all rows together in one group.
fn is_one_group(range: KeyRange, query: &Query) -> bool
    ensures exact { result ≡ true → range.is_exact ≡ true }
    ensures grouped { result ≡ true → query.now.grouped ≡ true }
    ensures alone { result ≡ true → query.now.groups ≡ [] }
{
    if !range.is_exact || !query.grouped {
        return false;
    }
    query.groups.as_slice().is_empty()
}

/// Adds the rows of a group that are read, by the positions of those with keys of a range: the filter keeps none of other keys. Where it
/// keeps each row of these keys and the query has one group, none of them is judged.
pub fn add_found(
    alloc: Global,
    partial: &mut Partial<'_>,
    schema: &Schema,
    query: &Query,
    pinned: &Pinned,
    group: usize,
    range: KeyRange,
    found: Vec<usize>,
) -> Result<(), Memory>
    requires may { MayRead schema.now pinned.now }
    requires range { IsKeyRange schema.now query.now.filter range }
    requires found { IsPermutation found.items (positions_of (is_read_within pinned.now range.bounds) (rowed_at pinned.now.view group)) }
    requires of_schema { partial.old.schema.now ≡ schema.now }
    requires of_query { partial.old.query.now ≡ query.now }
    ensures schema { partial.new.schema.now ≡ partial.old.schema.now }
    ensures query { partial.new.query.now ≡ partial.old.query.now }
    ensures added { (rows : List (List Value)) → StandsFor partial.old rows → OnOk result (StandsFor partial.new (rows ++ read_in (length schema.now.columns) pinned.now (rowed_at pinned.now.view group))) }
{
    let width = schema.columns.len();
    if is_one_group(range, query) {
        return add_kept(alloc, partial, query, pinned, group, width, &found);
    }
    add_listed(alloc, partial, query, pinned, group, width, found)
}
