// What a statement reads of what is pinned for it.
ghost use Rattle.std.specs.Prelude.{◌≡◌, ◌<◌, ℕ, List, length, IfOk, IsSome, Some};
ghost use Rattle.std.specs.Borrow.{Bor};
ghost use Rattle.std.specs.Option.{option_map, option_and_then};
ghost use Rattle.cs_types.specs.declared.Key.{Key};
ghost use Rattle.cs_types.specs.declared.Value.{Value};
ghost use Rattle.cs_types.specs.Rows.{cell_at, padded};
ghost use Rattle.cs_model.specs.Obstacles.{has_row};
ghost use Rattle.group_view.specs.Views.{version_at};
ghost use Rattle.row_group.specs.Groups.{row_at as packed_at};
ghost use Rattle.row_work.specs.Reads.{read_by, read_key, read_row, shown_by, HasSnapshot, IsKnown};

use batch_scan::{Shown, key_seen};
use cs_base::Memory;
use cs_types::{Key, Row, Value};
use group_view::{GroupRef, GroupView, Pinned, Place};
use row_group::Packed;
use std::alloc::Global;

/// The cell of a column of a packed group at a position, NULL where the group has no such column.
fn packed_cell(
    alloc: Global,
    packed: &Packed,
    position: usize,
    column: usize,
) -> Result<Value, Memory>
    requires { position < length packed.now.rows }
    ensures { IfOk result (λ cell. cell ≡ cell_at (packed_at packed.now position).cells column) }
{
    if column >= packed.width() {
        return Ok(Value::Null);
    }
    packed.segment(column).cell(position).to_value(alloc)
}

/// The row at a position of a packed group in so many cells. No other cell is read.
fn packed_row(alloc: Global, packed: &Packed, position: usize, width: usize) -> Result<Row, Memory>
    requires { position < length packed.now.rows }
    ensures { IfOk result (λ row. row ≡ padded width (packed_at packed.now position).cells) }
{
    let mut row = Row::new(alloc);
    for column in 0..width {
        row.push(packed_cell(alloc, packed, position, column)?)?;
    }
    Ok(row)
}

/// The row of the version at a place in so many cells. A row of a delta store that has as many is lent where it stands; another
/// one, and one of a packed group, is made, and lent from `made`.
pub fn row_at<'a>(
    alloc: Global,
    view: &'a GroupView,
    place: Place,
    width: usize,
    made: &'a mut Option<Row>,
) -> Result<&'a Row, Memory>
    requires { IsSome (version_at view.now place) }
    ensures { IfOk result (λ row. option_map (λ rowed. padded width rowed.row) (version_at view.now place) ≡ Some row.now) }
{
    match view.group(place.group) {
        GroupRef::Packed(packed, _) => {
            let row = packed_row(alloc, packed, place.position, width)?;
            Ok(made.insert(row))
        }
        GroupRef::Store(store) => {
            let row = &store.get(place.position).row;
            if row.len() == width {
                return Ok(row);
            }
            Ok(made.insert(view.row(alloc, place, width)?))
        }
    }
}

/// The key of the version at a place of a packed group, where the statement reads it, by the positions that are read.
fn key_shown(pinned: &Pinned, place: Place, shown: &Shown) -> Option<Key>
    requires there { IsSome (version_at pinned.now.view place) }
    requires known { IsKnown pinned.now place.group (Some shown.now) }
    ensures { result ≡ option_and_then (read_key pinned.now) (version_at pinned.now.view place) }
{
    if shown.has(place.position) {
        Some(pinned.view.version(place).key)
    } else {
        None
    }
}

/// The key of the version at a place, where the statement reads it, by what is known of the group.
fn key_read(pinned: &Pinned, place: Place, known: &Option<Shown>) -> Option<Key>
    requires there { IsSome (version_at pinned.now.view place) }
    requires known { IsKnown pinned.now place.group known.now }
    ensures { result ≡ option_and_then (read_key pinned.now) (version_at pinned.now.view place) }
{
    match known {
        Some(shown) => key_shown(pinned, place, shown),
        None => key_seen(pinned, place),
    }
}

/// The version at a place as it is read, by what is known of its group: its row in so many cells, lent as `row_at` has it, with its
/// key. None where it is not read.
pub fn read_at<'a>(
    alloc: Global,
    pinned: &'a Pinned,
    place: Place,
    width: usize,
    known: &Option<Shown>,
    made: &'a mut Option<Row>,
) -> Result<Option<(Key, &'a Row)>, Memory>
    requires there { IsSome (version_at pinned.now.view place) }
    requires known { IsKnown pinned.now place.group known.now }
    ensures { IfOk result (λ read. option_map (λ (entry : Key × Bor (List Value)). (entry.0, entry.1.now)) read ≡ option_and_then (read_row width pinned.now) (version_at pinned.now.view place)) }
{
    match key_read(pinned, place, known) {
        Some(key) => {
            let row = row_at(alloc, &pinned.view, place, width, made)?;
            Ok(Some((key, row)))
        }
        None => Ok(None),
    }
}

/// Whether the key is in the table of the snapshot.
pub fn has_row_shown(pinned: &Pinned, key: Key) -> bool
    requires { HasSnapshot pinned.now }
    ensures { (width : ℕ) → result ≡ has_row (shown_by width pinned.now) key }
{
    pinned.view.lookup(key, pinned.snapshot).is_some()
}

/// Whether the key is in what the statement reads, given whether it is in the table of the snapshot.
pub fn has_row_read(pinned: &Pinned, key: Key, in_snapshot: bool) -> bool
    ensures { (width : ℕ) → in_snapshot ≡ has_row (shown_by width pinned.now) key → result ≡ has_row (read_by width pinned.now) key }
{
    match pinned.own.find(key) {
        Some(at) => pinned.own.get(at).row.is_some(),
        None => in_snapshot,
    }
}
