// The chosen rows of a group into a partial answer, by codes.
ghost use Rattle.std.specs.Prelude.{◌≡◌, ℕ, ◌++◌, ◌<◌, ◌&&◌, filter, length, IfOk, IfSome, List, true, false};
ghost use Rattle.std.specs.List.{range_with_len};
ghost use Rattle.std.specs.Option.{option_copied};
ghost use Rattle.cs_types.specs.declared.Value.{Value};
ghost use Rattle.cs_model.specs.Queries.{keeps};
ghost use Rattle.batch_aggregate.specs.Standing.{StandsFor};
ghost use Rattle.code_tallies.specs.Shown.{cells_at, is_shown, rows_at, shown_rows};
ghost use Rattle.code_tallies.specs.Keys.{AreColumnsOf, HasKeys};
ghost use Rattle.code_tallies.specs.Tables.{AreTablesOf, is_chosen};
ghost use Rattle.code_tallies.specs.Scans.{AreKept, IsChoice};

use crate::batch::kept_of;
use crate::chosen::{Batch, Chosen};
use crate::codes::column_at;
use crate::column::Column;
use crate::finish::add_groups;
use crate::keys::key_count;
use crate::table::Table;
use crate::tabulate::table_of;
use crate::verdicts::Verdicts;
use batch_aggregate::Partial;
use cs_base::Memory;
use cs_model::Item;
use delete_bitmap::Positions;
use row_group::Packed;
use std::alloc::Global;

/// The columns at some places. None where the group has none at one of them.
fn columns_at<'a>(
    alloc: Global,
    packed: &'a Packed,
    places: &[usize],
) -> Result<Option<Vec<Column<'a>>>, Memory>
    requires { 0 < length packed.now.rows }
    ensures { IfOk result (λ found. IfSome found (λ columns. AreColumnsOf packed.now places.now columns.items)) }
{
    let mut columns = Vec::new(alloc);
    for place in places {
        match column_at(packed, *place) {
            None => return Ok(None),
            Some(column) => columns.push(column)?,
        }
    }
    Ok(Some(columns))
}

/// The tables of items. None where an item names a column that the group has not.
fn tables_of<'a>(
    alloc: Global,
    items: &[Item],
    packed: &'a Packed,
    chosen: &Chosen<'_>,
    batch: &mut Batch,
) -> Result<Option<Vec<Table<'a>>>, Memory>
    requires rows { 0 < length packed.now.rows }
    requires length { chosen.now.length ≡ length packed.now.rows }
    requires keyed { HasKeys chosen.now.length chosen.now.keys.items }
    ensures { IfOk result (λ found. IfSome found (λ tables. AreTablesOf packed.now chosen.now items.now tables.items)) }
{
    let mut tables = Vec::new(alloc);
    for item in items {
        match table_of(alloc, *item, packed, chosen, batch)? {
            None => return Ok(None),
            Some(table) => tables.push(table)?,
        }
    }
    Ok(Some(tables))
}

/// A group with more rows goes row by row, so that no count and no sum can leave its type.
const MOST_ROWS: usize = 1 << 40;

/// The rows of a group that are shown and that the verdicts keep, with the columns at some places for keys. None where the
/// group has no column at one of them, where these have far more key numbers than there are rows, or where there are no rows or
/// far too many.
fn choose<'a, V: Verdicts>(
    alloc: Global,
    packed: &'a Packed,
    places: &[usize],
    shown: Option<&'a Positions>,
    verdicts: &'a V,
) -> Result<Option<Chosen<'a>>, Memory>
    ensures { IfOk result (λ found. IfSome found (λ chosen. IsChoice packed.now places.now (λ i. is_shown (option_copied shown.entry) i && V.kept verdicts.now i) chosen)) }
{
    let length = packed.len();
    if length == 0 || length > MOST_ROWS {
        return Ok(None);
    }
    let Some(keys) = columns_at(alloc, packed, places)? else {
        return Ok(None);
    };
    let Some(size) = key_count(&keys, length as u64 + 1024) else {
        return Ok(None);
    };
    let kept = kept_of(alloc, length, shown, verdicts)?;
    Ok(Some(Chosen {
        length,
        shown,
        kept,
        keys,
        size: size as usize,
    }))
}

/// Adds chosen rows of a group to a partial answer. False where nothing has changed: an item names a column that the group has
/// not.
fn tally_chosen(
    alloc: Global,
    partial: &mut Partial<'_>,
    packed: &Packed,
    chosen: &Chosen<'_>,
    batch: &mut Batch,
) -> Result<bool, Memory>
    requires rows { 0 < length packed.now.rows }
    requires length { chosen.now.length ≡ length packed.now.rows }
    requires keyed { HasKeys chosen.now.length chosen.now.keys.items }
    ensures schema { partial.new.schema.now ≡ partial.old.schema.now }
    ensures query { partial.new.query.now ≡ partial.old.query.now }
    ensures tallied { (rows : List (List Value)) → partial.old.query.now.grouped ≡ true → AreColumnsOf packed.now partial.old.query.now.groups chosen.now.keys.items
        → AreKept packed.now partial.old.schema.now partial.old.query.now chosen.now → StandsFor partial.old rows
        → IfOk result (λ done. done ≡ true → StandsFor partial.new (rows ++ rows_at packed.now (filter (is_chosen chosen.now) (range_with_len 0 chosen.now.length)))) }
    ensures declined { IfOk result (λ done. done ≡ false → partial.new ≡ partial.old) }
{
    let items = partial.query().items.as_slice();
    let Some(tables) = tables_of(alloc, items, packed, chosen, batch)? else {
        return Ok(false);
    };
    let counts = chosen.counts(alloc, batch)?;
    add_groups(alloc, partial, chosen, &counts, &tables)?;
    Ok(true)
}

/// Adds the rows of a group that are shown to a partial answer, by the codes of its columns. `verdicts` says which of them the
/// filter of the query keeps, and where `shown` is None all are shown. False where nothing has changed, and the rows have to be
/// added one by one: the query does not put rows together, it names a column that the group has not, its grouping columns have
/// far more codes than there are rows, or there is no row. After `Memory` what the partial answer stands for is not known. `batch` is
/// room to work in: what stands in it is not read.
pub fn tally_group<V: Verdicts>(
    alloc: Global,
    partial: &mut Partial<'_>,
    packed: &Packed,
    shown: Option<&Positions>,
    verdicts: &V,
    batch: &mut Batch,
) -> Result<bool, Memory>
    requires { (i : ℕ) → i < length packed.now.rows → is_shown (option_copied shown) i ≡ true → V.kept verdicts.now i ≡ keeps partial.old.schema.now partial.old.query.now.filter (cells_at packed.now i) }
    ensures schema { partial.new.schema.now ≡ partial.old.schema.now }
    ensures query { partial.new.query.now ≡ partial.old.query.now }
    ensures tallied { (rows : List (List Value)) → StandsFor partial.old rows → IfOk result (λ done. done ≡ true → StandsFor partial.new (rows ++ shown_rows packed.now (option_copied shown.entry))) }
    ensures declined { IfOk result (λ done. done ≡ false → partial.new ≡ partial.old) }
{
    if !partial.query().grouped {
        return Ok(false);
    }
    let groups = partial.query().groups.as_slice();
    match choose(alloc, packed, groups, shown, verdicts)? {
        None => Ok(false),
        Some(chosen) => tally_chosen(alloc, partial, packed, &chosen, batch),
    }
}
