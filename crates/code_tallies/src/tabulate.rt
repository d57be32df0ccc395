// What is kept for an item of a SELECT, for each key number.
ghost use Rattle.std.specs.Prelude.{◌≡◌, ℕ, pos, ◌<◌, ◌≤◌, length, vec_len, slice_index, slice_index_or, IfOk, IfSome};
ghost use Rattle.cs_model.specs.declared.plan.Item.TheVariants as item;
ghost use Rattle.column_segment.specs.Bodies.{IsKnown};
ghost use Rattle.code_tallies.specs.Columns.{shown_code};
ghost use Rattle.code_tallies.specs.Keys.{HasKeys};
ghost use Rattle.code_tallies.specs.Tables.{tally_in, HasEntry, IsTableOf};

use crate::chosen::{Batch, Chosen};
use crate::codes::column_at;
use crate::measure::{counts_of, greatest_of, least_of, sums_of};
use crate::table::{CodeTable, SumTable, Table};
use batch_aggregate::{Tally, Total};
use column_segment::codes_in_order;
use cs_base::Memory;
use cs_model::Item;
use cs_types::Value;
use row_group::Packed;
use std::alloc::Global;

impl SumTable {
    /// The count and the sum of a key number.
    fn total(&self, key: usize) -> Total
        requires { key < vec_len self.now.counts }
        ensures { result ≡ (slice_index self.now.counts.items key, slice_index_or self.now.sums.items key (pos 0)) }
    {
        Total::of(self.counts[key], self.sums[key])
    }
}

impl CodeTable<'_> {
    /// The cell of the code of a key number, NULL where none was counted.
    fn cell(&self, alloc: Global, key: usize) -> Result<Value, Memory>
        requires key { key < vec_len self.now.counts }
        requires known { (code : ℕ) → code ≤ self.now.column.last → IsKnown self.now.column.segment.now.body code }
        ensures { IfOk result (λ cell. cell ≡ shown_code self.now.column (slice_index self.now.counts.items key) (slice_index self.now.codes.items key)) }
    {
        if self.counts[key] == 0 {
            return Ok(Value::Null);
        }
        let code = self.codes[key].min(self.column.last);
        self.column.segment.cell_of(code).to_value(alloc)
    }
}

impl Table<'_> {
    /// The tally of a key number, which so many rows have.
    pub fn tally(&self, alloc: Global, rows: u64, key: usize) -> Result<Tally, Memory>
        requires { HasEntry key self.now }
        ensures { IfOk result (λ tally. tally ≡ tally_in rows self.now key) }
    {
        match self {
            Table::Nothing => Ok(Tally::Nothing),
            Table::Rows => Ok(Tally::Count(rows)),
            Table::Counts(counts) => Ok(Tally::Count(counts[key])),
            Table::Sums(sums) => Ok(Tally::Sum(sums.total(key))),
            Table::Least(codes) => Ok(Tally::Least(codes.cell(alloc, key)?)),
            Table::Greatest(codes) => Ok(Tally::Greatest(codes.cell(alloc, key)?)),
            Table::LeastCell(segment) => Ok(Tally::Least(segment.least().to_value(alloc)?)),
            Table::GreatestCell(segment) => Ok(Tally::Greatest(
                segment.greatest().to_value(alloc)?,
            )),
        }
    }
}

/// The table of an item. None where it names a column that the group has not.
pub fn table_of<'a>(
    alloc: Global,
    item: Item,
    packed: &'a Packed,
    chosen: &Chosen<'_>,
    batch: &mut Batch,
) -> Result<Option<Table<'a>>, Memory>
    requires rows { 0 < length packed.now.rows }
    requires length { chosen.now.length ≡ length packed.now.rows }
    requires keyed { HasKeys chosen.now.length chosen.now.keys.items }
    ensures { IfOk result (λ found. IfSome found (λ table. IsTableOf packed.now chosen.now item table)) }
{
    match item {
        Item::Column(_) => Ok(Some(Table::Nothing)),
        Item::CountAll => Ok(Some(Table::Rows)),
        Item::Count(place) => count_table(alloc, place, packed, chosen, batch),
        Item::Sum(place) => sum_table(alloc, place, packed, chosen, batch),
        Item::Avg(place) => sum_table(alloc, place, packed, chosen, batch),
        Item::Min(place) => least_table(alloc, place, packed, chosen, batch),
        Item::Max(place) => greatest_table(alloc, place, packed, chosen, batch),
    }
}

/// The table of a count of the cells of a column.
fn count_table<'a>(
    alloc: Global,
    place: usize,
    packed: &'a Packed,
    chosen: &Chosen<'_>,
    batch: &mut Batch,
) -> Result<Option<Table<'a>>, Memory>
    requires rows { 0 < length packed.now.rows }
    requires length { chosen.now.length ≡ length packed.now.rows }
    requires keyed { HasKeys chosen.now.length chosen.now.keys.items }
    ensures { IfOk result (λ found. IfSome found (λ table. IsTableOf packed.now chosen.now (item.Count place) table)) }
{
    let Some(column) = column_at(packed, place) else {
        return Ok(None);
    };
    Ok(Some(Table::Counts(counts_of(alloc, &column, chosen, batch)?)))
}

/// The table of a sum or an average of the cells of a column.
fn sum_table<'a>(
    alloc: Global,
    place: usize,
    packed: &'a Packed,
    chosen: &Chosen<'_>,
    batch: &mut Batch,
) -> Result<Option<Table<'a>>, Memory>
    requires rows { 0 < length packed.now.rows }
    requires length { chosen.now.length ≡ length packed.now.rows }
    requires keyed { HasKeys chosen.now.length chosen.now.keys.items }
    ensures sum { IfOk result (λ found. IfSome found (λ table. IsTableOf packed.now chosen.now (item.Sum place) table)) }
    ensures average { IfOk result (λ found. IfSome found (λ table. IsTableOf packed.now chosen.now (item.Avg place) table)) }
{
    let Some(column) = column_at(packed, place) else {
        return Ok(None);
    };
    Ok(Some(Table::Sums(sums_of(alloc, &column, chosen, batch)?)))
}

/// The table of the least cell of a column. Of all rows of the group it is the one that the segment keeps.
fn least_table<'a>(
    alloc: Global,
    place: usize,
    packed: &'a Packed,
    chosen: &Chosen<'_>,
    batch: &mut Batch,
) -> Result<Option<Table<'a>>, Memory>
    requires rows { 0 < length packed.now.rows }
    requires length { chosen.now.length ≡ length packed.now.rows }
    requires keyed { HasKeys chosen.now.length chosen.now.keys.items }
    ensures { IfOk result (λ found. IfSome found (λ table. IsTableOf packed.now chosen.now (item.Min place) table)) }
{
    codes_in_order();
    let Some(column) = column_at(packed, place) else {
        return Ok(None);
    };
    if chosen.is_whole() {
        return Ok(Some(Table::LeastCell(column.segment)));
    }
    let (counts, codes) = least_of(alloc, &column, chosen, batch)?;
    Ok(Some(Table::Least(CodeTable {
        column,
        counts,
        codes,
    })))
}

/// The table of the greatest cell of a column, in the same way.
fn greatest_table<'a>(
    alloc: Global,
    place: usize,
    packed: &'a Packed,
    chosen: &Chosen<'_>,
    batch: &mut Batch,
) -> Result<Option<Table<'a>>, Memory>
    requires rows { 0 < length packed.now.rows }
    requires length { chosen.now.length ≡ length packed.now.rows }
    requires keyed { HasKeys chosen.now.length chosen.now.keys.items }
    ensures { IfOk result (λ found. IfSome found (λ table. IsTableOf packed.now chosen.now (item.Max place) table)) }
{
    codes_in_order();
    let Some(column) = column_at(packed, place) else {
        return Ok(None);
    };
    if chosen.is_whole() {
        return Ok(Some(Table::GreatestCell(column.segment)));
    }
    let (counts, codes) = greatest_of(alloc, &column, chosen, batch)?;
    Ok(Some(Table::Greatest(CodeTable {
        column,
        counts,
        codes,
    })))
}
