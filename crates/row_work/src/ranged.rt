//! The rows of a packed group with keys of a range that a filter names, by codes.

ghost use Rattle.std.specs.Prelude.{◌≡◌, ◌++◌, List, false, length, true, IfOk};
ghost use Rattle.cs_types.specs.declared.Value.{Value};
ghost use Rattle.batch_aggregate.specs.Standing.{StandsFor};
ghost use Rattle.group_view.specs.Parts.{packed_versions};
ghost use Rattle.row_work.specs.Bounds.{IsKeyRange};
ghost use Rattle.row_work.specs.Sieved.{read_in};
ghost use Rattle.row_work.specs.Stores.{AreRowsRead};

use crate::exact::KeyRange;
use crate::key_ranges::places_within;
use batch_aggregate::Partial;
use batch_scan::Shown;
use code_tallies::{Batch, EveryRow, tally_group};
use cs_base::Memory;
use cs_model::Query;
use cs_types::Schema;
use delete_bitmap::Marks;
use group_view::Pinned;
use row_group::Packed;
use std::alloc::Global;

/// A position that is put into a set in the order of the keys takes about as much time as so many verdicts by codes.
const SHARE: usize = 4;

/// A range of at most so many positions is small: to put them into a set takes no more time than a scan by codes takes before its first
/// verdict.
const SMALL: usize = 64;

/// Adds the rows of a packed group that are read and that the filter keeps, by codes, where the filter keeps the rows of a range of
/// keys and no others: they are found by their keys, and no verdict is asked for. False where nothing has changed: the filter is
/// another one, the range is neither small nor one of at most a quarter of the rows, the group has other than as many columns as the
/// table, or as `tally_group` has it.
pub fn tally_range(
    alloc: Global,
    partial: &mut Partial<'_>,
    schema: &Schema,
    query: &Query,
    pinned: &Pinned,
    packed: &Packed,
    marks: &Marks,
    range: KeyRange,
    batch: &mut Option<Batch>,
) -> Result<bool, Memory>
    requires range { IsKeyRange schema.now query.now.filter range }
    requires fits { length marks.now ≡ length packed.now.rows }
    requires rows { AreRowsRead schema.now pinned.now (packed_versions packed.now.key packed.now.rows marks.now) }
    requires of_schema { partial.old.schema.now ≡ schema.now }
    requires of_query { partial.old.query.now ≡ query.now }
    ensures schema { partial.new.schema.now ≡ partial.old.schema.now }
    ensures query { partial.new.query.now ≡ partial.old.query.now }
    ensures tallied { (rows : List (List Value)) → StandsFor partial.old rows → IfOk result (λ done. done ≡ true → StandsFor partial.new (rows ++ read_in (length schema.now.columns) pinned.now (packed_versions packed.now.key packed.now.rows marks.now))) }
    ensures declined { IfOk result (λ done. done ≡ false → partial.new ≡ partial.old) }
{
    if !query.grouped || packed.width() != schema.columns.len() {
        return Ok(false);
    }
    let Some(bounds) = range.exact() else {
        return Ok(false);
    };
    let places = places_within(packed, bounds);
    let positions = &packed.places()[places.from..places.to];
    if positions.is_empty() {
        return Ok(true);
    }
    if positions.len() > (packed.len() / SHARE).max(SMALL) {
        return Ok(false);
    }
    let shown = Shown::of(alloc, pinned, packed, marks)?;
    let set = shown.among(alloc, packed.len(), positions)?;
    let room = batch.get_or_insert_with(Batch::new);
    tally_group(alloc, partial, packed, Some(&set), &EveryRow, room)
}
