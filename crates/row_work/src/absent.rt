//! Whether keys are in the table of the snapshot.

ghost use Rattle.std.specs.Prelude.{◌≡◌, ◌<◌, ℕ, [], false, length, true, All, IfNone, IfOk, IfSome};
ghost use Rattle.std.specs.List.Sorted.{IsStrictlySortedBy};
ghost use Rattle.cs_types.specs.Keys.{key_cmp};
ghost use Rattle.cs_model.specs.Obstacles.{has_row};
ghost use Rattle.row_work.specs.Bounds.{IsWithin};
ghost use Rattle.row_work.specs.Reads.{rowed_at, shown_by, HasSnapshot};
ghost use Rattle.row_work.specs.Stores.{is_read_within, positions_of};

use crate::bounds::Bounds;
use crate::by_key::positions_read;
use crate::reading::has_row_shown;
use cs_base::Memory;
use cs_types::Key;
use group_view::Pinned;
use std::alloc::Global;

/// The keys from the first of some keys, which ascend, to the last of them. None where there are none.
fn span(keys: &[Key]) -> Option<Bounds>
    requires { IsStrictlySortedBy key_cmp keys.now }
    ensures some { IfSome result (λ bounds. All (IsWithin bounds) keys.now) }
    ensures none { IfNone result (keys.now ≡ []) }
{
    let least = *keys.first()?;
    let greatest = *keys.last()?;
    Some(Bounds { least, greatest })
}

/// Whether the statement reads no version of these keys in a group of the view. False too where that would take a test of each version.
fn is_apart(alloc: Global, pinned: &Pinned, group: usize, bounds: Bounds) -> Result<bool, Memory>
    requires there { group < length pinned.now.view.groups }
    requires snapshot { HasSnapshot pinned.now }
    ensures { IfOk result (λ apart. apart ≡ true → positions_of (is_read_within pinned.now bounds) (rowed_at pinned.now.view group) ≡ []) }
{
    match positions_read(alloc, pinned, group, bounds)? {
        Some(positions) => Ok(positions.is_empty()),
        None => Ok(false),
    }
}

/// Whether the statement reads no version of these keys in any group of the view. False too where that would take a test of each version
/// of one.
fn are_apart(alloc: Global, pinned: &Pinned, bounds: Bounds) -> Result<bool, Memory>
    requires { HasSnapshot pinned.now }
    ensures { IfOk result (λ apart. apart ≡ true → (group : ℕ) → group < length pinned.now.view.groups → positions_of (is_read_within pinned.now bounds) (rowed_at pinned.now.view group) ≡ []) }
{
    for group in 0..pinned.view.len() {
        if !is_apart(alloc, pinned, group, bounds)? {
            return Ok(false);
        }
    }
    Ok(true)
}

/// Whether none of the keys is in the table of the snapshot, each looked up.
fn none_shown(pinned: &Pinned, keys: &[Key]) -> bool
    requires { HasSnapshot pinned.now }
    ensures { result ≡ true → (width : ℕ) → All (λ key. has_row (shown_by width pinned.now) key ≡ false) keys.now }
{
    for key in keys {
        if has_row_shown(pinned, *key) {
            return false;
        }
    }
    true
}

/// Whether none of the keys, which ascend, is in the table of the snapshot of a transaction that has no own writes. Where no version is
/// read of a key from the first to the last of them, none of them is looked up.
pub fn are_absent(alloc: Global, pinned: &Pinned, keys: &[Key]) -> Result<bool, Memory>
    requires snapshot { HasSnapshot pinned.now }
    requires bare { pinned.now.own ≡ [] }
    requires order { IsStrictlySortedBy key_cmp keys.now }
    ensures { IfOk result (λ absent. absent ≡ true → (width : ℕ) → All (λ key. has_row (shown_by width pinned.now) key ≡ false) keys.now) }
{
    let Some(bounds) = span(keys) else {
        return Ok(true);
    };
    if are_apart(alloc, pinned, bounds)? {
        return Ok(true);
    }
    Ok(none_shown(pinned, keys))
}
