//! The rows of a packed group that a statement reads, found by their keys.

ghost use Rattle.std.specs.Prelude.{◌≡◌, ◌≤◌, length, IfOk, IfSome, IsPermutation};
ghost use Rattle.row_work.specs.Ranges.{ArePlacesWithin, AreReadBetween, HasKeysOf};
ghost use Rattle.row_work.specs.Reads.{rowed_at};
ghost use Rattle.row_work.specs.Stores.{is_read_within, positions_of};

use crate::bounds::{ALL, Bounds};
use batch_scan::key_seen;
use cs_base::Memory;
use group_view::{Pinned, Place};
use row_group::{Packed, Places};
use std::alloc::Global;

/// The places of these keys among the positions of a group by key.
pub fn places_within(packed: &Packed, bounds: Bounds) -> Places
    ensures { ArePlacesWithin packed.now bounds result.from result.to }
{
    let from = packed.first_of(bounds.least, false);
    let end = packed.first_of(bounds.greatest, true);
    Places {
        from,
        to: end.max(from),
    }
}

/// The positions at some places by key at which the statement reads the version, in no order.
fn read_positions(
    alloc: Global,
    pinned: &Pinned,
    group: usize,
    packed: &Packed,
    places: Places,
) -> Result<Vec<usize>, Memory>
    requires keys { HasKeysOf pinned.now group packed.now }
    requires ordered { places.from ≤ places.to }
    requires within { places.to ≤ length packed.now.places }
    ensures { IfOk result (λ positions. AreReadBetween pinned.now group packed.now places.from places.to positions.items) }
{
    let mut positions = Vec::new(alloc);
    for i in places.from..places.to {
        let position = packed.place(i);
        if key_seen(pinned, Place { group, position }).is_some() {
            positions.push(position)?;
        }
    }
    Ok(positions)
}

/// A row that is found by its key takes about as much time as a scan by codes takes for so many rows.
const SCANNED: usize = 256;

/// So few rows are found by their keys in any group: a scan by codes takes more time than that for its masks and tables alone.
const FEW: usize = 16;

/// The positions of the versions that are read in a packed group of the view, of these keys alone, in no order. None where so many of
/// its rows are of these keys that a scan of all takes less time.
pub fn positions_in_range(
    alloc: Global,
    pinned: &Pinned,
    group: usize,
    packed: &Packed,
    bounds: Bounds,
) -> Result<Option<Vec<usize>>, Memory>
    requires { HasKeysOf pinned.now group packed.now }
    ensures { IfOk result (λ found. IfSome found (λ positions. IsPermutation positions.items (positions_of (is_read_within pinned.now bounds) (rowed_at pinned.now.view group)))) }
{
    if bounds == ALL {
        return Ok(None);
    }
    let places = places_within(packed, bounds);
    if places.to - places.from > (packed.places().len() / SCANNED).max(FEW) {
        return Ok(None);
    }
    let positions = read_positions(alloc, pinned, group, packed, places)?;
    Ok(Some(positions))
}
