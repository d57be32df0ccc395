//! The rows of a delta store that a statement reads, found by the keys of the store.

ghost use Rattle.std.specs.Prelude.{ℕ, IfNone, IfOk, IfSome, IsPermutation, Some};
ghost use Rattle.delta_store.specs.Versions.{IsLastPlace};
ghost use Rattle.group_view.specs.Parts.{stored_versions};
ghost use Rattle.row_work.specs.Stores.{is_read_of, is_read_within, positions_of, IsSeenOnce, PassesAt};

use crate::bounds::{ALL, Bounds};
use cs_base::Memory;
use cs_types::Key;
use delta_store::Frozen;
use group_view::{Pinned, seen_from};
use std::alloc::Global;

/// The position of the version of a key that is read in a store, from the place of the key's last version back. None where none is
/// read there.
fn position_of(pinned: &Pinned, store: &Frozen, key: Key, last: usize) -> Option<usize>
    requires { IsLastPlace store.now key (Some last) }
    ensures found { IfSome result (PassesAt (is_read_of pinned.now key) (stored_versions store.now)) }
    ensures none { IfNone result ((position : ℕ) → PassesAt (is_read_of pinned.now key) (stored_versions store.now) position → ⊥) }
{
    if pinned.own.find(key).is_some() {
        return None;
    }
    seen_from(
        store,
        pinned.view.buffer(),
        key,
        Some(last),
        pinned.snapshot,
    )
}

/// The positions of the versions that are read in a store, of these keys alone, in no order. Each key is visited once, from its last
/// version back to the one that is read.
fn positions_within(
    alloc: Global,
    pinned: &Pinned,
    store: &Frozen,
    bounds: Bounds,
) -> Result<Vec<usize>, Memory>
    requires { IsSeenOnce pinned.now (stored_versions store.now) }
    ensures { IfOk result (λ positions. IsPermutation positions.items (positions_of (is_read_within pinned.now bounds) (stored_versions store.now))) }
{
    let newest = store.newest_between(alloc, bounds.least, bounds.greatest)?;
    let mut positions = Vec::with_capacity(alloc, newest.len())?;
    for (key, last) in &newest {
        if let Some(position) = position_of(pinned, store, *key, *last) {
            positions.push(position)?;
        }
    }
    Ok(positions)
}

/// At most so many versions of a store are looked at to tell how many are of some keys.
const SAMPLES: usize = 64;

/// Whether more than a quarter of the versions of a store are of these keys, to judge by some that stand evenly apart.
fn holds_many(store: &Frozen, bounds: Bounds) -> bool {
    let apart = store.len() / SAMPLES + 1;
    let mut among = 0;
    let mut place = 0;
    while place < store.len() {
        among += bounds.has(store.key(place)) as usize;
        place = place.saturating_add(apart);
    }
    among > store.len() / apart / 4
}

/// Whether it takes less time to find the rows of a store by its keys than to test each version: where most of these have ended, and
/// where few are of the keys.
fn is_by_key(store: &Frozen, bounds: Bounds) -> bool {
    store.ended() > store.len() / 2 || (bounds != ALL && !holds_many(store, bounds))
}

/// The positions of the versions that are read in a store, of these keys alone, in no order. None where each version is to be tested.
pub fn positions_in_store(
    alloc: Global,
    pinned: &Pinned,
    store: &Frozen,
    bounds: Bounds,
) -> Result<Option<Vec<usize>>, Memory>
    requires { IsSeenOnce pinned.now (stored_versions store.now) }
    ensures { IfOk result (λ found. IfSome found (λ positions. IsPermutation positions.items (positions_of (is_read_within pinned.now bounds) (stored_versions store.now)))) }
{
    if !is_by_key(store, bounds) {
        return Ok(None);
    }
    let positions = positions_within(alloc, pinned, store, bounds)?;
    Ok(Some(positions))
}
