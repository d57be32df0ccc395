//! The rows of a group that a statement reads, found by their keys.

ghost use Rattle.std.specs.Prelude.{◌≡◌, ◌<◌, Bool, IfOk, IfSome, IsPermutation, List, Some, length};
ghost use Rattle.batch_scan.specs.Reads.{is_read};
ghost use Rattle.row_work.specs.Reads.{rowed_at, HasSnapshot};
ghost use Rattle.row_work.specs.Stores.{is_read_within, positions_of, read_at_position, true_from, PassesAt};

use crate::bounds::Bounds;
use crate::key_ranges::positions_in_range;
use crate::reading::row_at;
use crate::stores::positions_in_store;
use cs_base::Memory;
use cs_types::{Key, Row};
use group_view::{GroupRef, Pinned, Place};
use std::alloc::Global;

/// The positions of the versions that are read in a group of the view, of these keys alone, in no order. None where each version is to
/// be tested.
pub fn positions_read(
    alloc: Global,
    pinned: &Pinned,
    group: usize,
    bounds: Bounds,
) -> Result<Option<Vec<usize>>, Memory>
    requires there { group < length pinned.now.view.groups }
    requires snapshot { HasSnapshot pinned.now }
    ensures { IfOk result (λ found. IfSome found (λ positions. IsPermutation positions.items (positions_of (is_read_within pinned.now bounds) (rowed_at pinned.now.view group)))) }
{
    match pinned.view.group(group) {
        GroupRef::Store(store) => positions_in_store(alloc, pinned, store, bounds),
        GroupRef::Packed(packed, _) => positions_in_range(alloc, pinned, group, packed, bounds),
    }
}

/// Positions in their order.
pub fn in_order(positions: Vec<usize>) -> Vec<usize>
    ensures same { IsPermutation positions.items result.items }
    ensures order { (flags : List Bool) → IsPermutation positions.items (true_from 0 flags) → result.items ≡ true_from 0 flags }
{
    let mut positions = positions;
    positions.sort_unstable();
    positions
}

/// The row of a version of a group that is read, by its position, lent as `row_at` has it, with its key.
pub fn read_at_position<'a>(
    alloc: Global,
    pinned: &'a Pinned,
    place: Place,
    width: usize,
    made: &'a mut Option<Row>,
) -> Result<(Key, &'a Row), Memory>
    requires { PassesAt (is_read pinned.now) (rowed_at pinned.now.view place.group) place.position }
    ensures { IfOk result (λ read. read_at_position width pinned.now (rowed_at pinned.now.view place.group) place.position ≡ Some (read.0, read.1.now)) }
{
    let key = pinned.view.version(place).key;
    let row = row_at(alloc, &pinned.view, place, width, made)?;
    Ok((key, row))
}
