//! What is counted of the rows of a group for an item.

ghost use Rattle.std.specs.Prelude.{◌≡◌, ◌+◌, ◌+ℤ◌, [], ◌∷◌, filter, length, map, not, IfOk, OnOk};
ghost use Rattle.cs_model.specs.Items.{is_null, sum_of};
ghost use Rattle.batch_aggregate.specs.declared.tally.Tally.TheVariants as tally;
ghost use Rattle.batch_aggregate.specs.Tallies.{all_joined, cell_in, count_in, greatest_joined, joined, least_joined, tally_of, total_in};

use crate::total::Total;
use cs_base::Memory;
use cs_model::Item;
use cs_types::{Row, Value, compare};
use std::alloc::Global;
use std::marker::Model;

/// What an item shows of the rows of a group, and no more of them: a sum compares no cells, and a least cell adds none up.
#[derive(Drop)]
pub enum Tally {
    /// Nothing: a column shows the group's cell.
    Nothing,
    /// How many rows there are, or how many of their cells are not NULL.
    Count(u64),
    /// How many of the cells are not NULL, and their whole sum.
    Sum(Total),
    /// The least of the cells that are not NULL, and NULL where there is none.
    Least(Value),
    /// The greatest of the cells that are not NULL, and NULL where there is none.
    Greatest(Value),
}

/// Adds to a count. Where it would pass its type there is no memory.
fn add_count(count: &mut u64, more: u64) -> Result<(), Memory>
    ensures { OnOk result (count.new ≡ count.old + more) }
{
    *count = count.checked_add(more).ok_or(Memory)?;
    Ok(())
}

/// Counts a cell that is not NULL.
fn count_cell(count: &mut u64, cell: &Value) -> Result<(), Memory>
    ensures { OnOk result (count.new ≡ count.old + length (filter (λ cell. not (is_null cell)) (cell.now ∷ []))) }
{
    match cell {
        Value::Null => Ok(()),
        Value::Number(_) | Value::Text(_) => add_count(count, 1),
    }
}

/// Adds a cell that is not NULL to a sum.
fn sum_cell(total: &mut Total, cell: &Value) -> Result<(), Memory>
    ensures { let present = filter (λ cell. not (is_null cell)) (cell.now ∷ []) in OnOk result (total.new ≡ (total.old.0 + length present, total.old.1 +ℤ sum_of present)) }
{
    match cell {
        Value::Null => Ok(()),
        Value::Number(number) => total.add(*number),
        Value::Text(_) => total.add(0),
    }
}

/// Keeps the lesser of two cells, NULL only where both are.
fn keep_lesser(least: &mut Value, cell: &Value) -> Result<(), Memory>
    ensures { OnOk result (least.new ≡ least_joined least.old cell.now) }
{
    if matches!(cell, Value::Null) {
        return Ok(());
    }
    if matches!(least, Value::Null) || compare(cell, least).is_lt() {
        *least = cell.copy()?;
    }
    Ok(())
}

/// Keeps the greater of two cells, NULL only where both are.
fn keep_greater(greatest: &mut Value, cell: &Value) -> Result<(), Memory>
    ensures { OnOk result (greatest.new ≡ greatest_joined greatest.old cell.now) }
{
    if matches!(cell, Value::Null) {
        return Ok(());
    }
    if matches!(greatest, Value::Null) || compare(cell, greatest).is_gt() {
        *greatest = cell.copy()?;
    }
    Ok(())
}

/// Takes a row into a count.
fn count_row(count: &mut u64, item: Item, row: &Row) -> Result<(), Memory>
    ensures { OnOk result (tally.Count count.new ≡ joined (tally.Count count.old) (tally_of (row.now ∷ []) item)) }
{
    match item {
        Item::CountAll => add_count(count, 1),
        Item::Count(column) => count_cell(count, row.cell(column)),
        Item::Column(_) | Item::Sum(_) | Item::Min(_) | Item::Max(_) | Item::Avg(_) => Ok(()),
    }
}

/// Takes a row into a sum.
fn sum_row(total: &mut Total, item: Item, row: &Row) -> Result<(), Memory>
    ensures { OnOk result (tally.Sum total.new ≡ joined (tally.Sum total.old) (tally_of (row.now ∷ []) item)) }
{
    match item {
        Item::Sum(column) | Item::Avg(column) => sum_cell(total, row.cell(column)),
        Item::Column(_) | Item::CountAll | Item::Count(_) | Item::Min(_) | Item::Max(_) => Ok(()),
    }
}

/// Takes a row into a least cell.
fn least_row(least: &mut Value, item: Item, row: &Row) -> Result<(), Memory>
    ensures { OnOk result (tally.Least least.new ≡ joined (tally.Least least.old) (tally_of (row.now ∷ []) item)) }
{
    match item {
        Item::Min(column) | Item::Max(column) => keep_lesser(least, row.cell(column)),
        Item::Column(_) | Item::CountAll | Item::Count(_) | Item::Sum(_) | Item::Avg(_) => Ok(()),
    }
}

/// Takes a row into a greatest cell.
fn greatest_row(greatest: &mut Value, item: Item, row: &Row) -> Result<(), Memory>
    ensures { OnOk result (tally.Greatest greatest.new ≡ joined (tally.Greatest greatest.old) (tally_of (row.now ∷ []) item)) }
{
    match item {
        Item::Min(column) | Item::Max(column) => keep_greater(greatest, row.cell(column)),
        Item::Column(_) | Item::CountAll | Item::Count(_) | Item::Sum(_) | Item::Avg(_) => Ok(()),
    }
}

impl Tally {
    /// The tally over no rows. It takes no memory.
    pub fn new(item: Item) -> Tally
        ensures { result ≡ tally_of [] item }
    {
        match item {
            Item::Column(_) => Tally::Nothing,
            Item::CountAll | Item::Count(_) => Tally::Count(0),
            Item::Sum(_) | Item::Avg(_) => Tally::Sum(Total::new()),
            Item::Min(_) => Tally::Least(Value::Null),
            Item::Max(_) => Tally::Greatest(Value::Null),
        }
    }

    /// What it counts, and 0 where it counts nothing.
    pub fn count(&self) -> u64
        ensures { result ≡ count_in self.now }
    {
        match self {
            Tally::Count(count) => *count,
            Tally::Nothing | Tally::Sum(_) | Tally::Least(_) | Tally::Greatest(_) => 0,
        }
    }

    /// What it sums up, and the total of no number where it sums nothing up.
    pub fn total(&self) -> Total
        ensures { result ≡ total_in self.now }
    {
        match self {
            Tally::Sum(total) => total.copy(),
            Tally::Nothing | Tally::Count(_) | Tally::Least(_) | Tally::Greatest(_) => Total::new(),
        }
    }

    /// The cell that it keeps, and NULL where it keeps none.
    pub fn cell(&self) -> Result<Value, Memory>
        ensures { IfOk result (λ cell. cell ≡ cell_in self.now) }
    {
        match self {
            Tally::Least(cell) | Tally::Greatest(cell) => cell.copy(),
            Tally::Nothing | Tally::Count(_) | Tally::Sum(_) => Ok(Value::Null),
        }
    }

    /// Takes a row of the item that it is of.
    pub fn add(&mut self, item: &Item, row: &Row) -> Result<(), Memory>
        ensures { OnOk result (self.new ≡ joined self.old (tally_of (row.now ∷ []) item.now)) }
    {
        match self {
            Tally::Nothing => Ok(()),
            Tally::Count(count) => count_row(count, *item, row),
            Tally::Sum(total) => sum_row(total, *item, row),
            Tally::Least(least) => least_row(least, *item, row),
            Tally::Greatest(greatest) => greatest_row(greatest, *item, row),
        }
    }

    /// Takes the rows of another tally of its item.
    pub fn join(&mut self, other: &Tally) -> Result<(), Memory>
        ensures { OnOk result (self.new ≡ joined self.old other.now) }
    {
        match self {
            Tally::Nothing => Ok(()),
            Tally::Count(count) => add_count(count, other.count()),
            Tally::Sum(total) => total.join(&other.total()),
            Tally::Least(least) => keep_lesser(least, &other.cell()?),
            Tally::Greatest(greatest) => keep_greater(greatest, &other.cell()?),
        }
    }
}

/// Adds a row to tallies, each by the item at its place.
fn add_to_all(tallies: &mut [Tally], items: &[Item], row: &Row) -> Result<(), Memory>
    ensures { OnOk result (tallies.new ≡ all_joined tallies.old (map (tally_of (row.now ∷ [])) items.now)) }
{
    for place in 0..items.len() {
        if place < tallies.len() {
            tallies[place].add(&items[place], row)?;
        }
    }
    Ok(())
}

/// Joins tallies, each with the one at its place.
fn join_all(tallies: &mut [Tally], others: &[Tally]) -> Result<(), Memory>
    ensures { OnOk result (tallies.new ≡ all_joined tallies.old others.now) }
{
    for place in 0..others.len() {
        if place < tallies.len() {
            tallies[place].join(&others[place])?;
        }
    }
    Ok(())
}

/// A tally for each item of a SELECT.
#[derive(Drop)]
pub struct Tallies {
    list: Vec<Tally>,
}

impl Model for Tallies {
    ghost use Rattle.std.specs.Prelude.{List};
    ghost use Rattle.batch_aggregate.specs.declared.tally.Tally.{Tally};

    ghost Value = { List Tally };

    ghost view = { λ tallies. tallies.list.items };
}

impl Tallies {
    /// The tallies over no rows.
    pub fn new(alloc: Global, items: &[Item]) -> Result<Tallies, Memory>
        ensures { IfOk result (λ tallies. tallies ≡ map (tally_of []) items.now) }
    {
        let mut list = Vec::new(alloc);
        for item in items {
            list.push(Tally::new(*item))?;
        }
        Ok(Tallies { list })
    }

    /// These tallies. It takes no memory.
    pub fn from_vec(list: Vec<Tally>) -> Tallies
        ensures { result ≡ list.items }
    {
        Tallies { list }
    }

    /// Takes a row.
    pub fn add(&mut self, items: &[Item], row: &Row) -> Result<(), Memory>
        ensures { OnOk result (self.new ≡ all_joined self.old (map (tally_of (row.now ∷ [])) items.now)) }
    {
        add_to_all(self.list.as_mut_slice(), items, row)
    }

    /// Takes the rows of other tallies of its items.
    pub fn join(&mut self, other: &Tallies) -> Result<(), Memory>
        ensures { OnOk result (self.new ≡ all_joined self.old other.now) }
    {
        join_all(self.list.as_mut_slice(), other.list.as_slice())
    }

    /// The tallies as a slice.
    pub fn as_slice(&self) -> &[Tally]
        ensures { result.now ≡ self.now }
    {
        self.list.as_slice()
    }
}
