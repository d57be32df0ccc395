//! Scans of the groups of a view, and of own writes.

ghost use Rattle.std.specs.Prelude.{◌≡◌, ◌++◌, ◌<◌, ◌≤◌, filter, length, All, IfOk, OnOk, IsSome, Some};
ghost use Rattle.std.specs.List.{filter_map};
ghost use Rattle.std.specs.Map.{values_of};
ghost use Rattle.std.specs.Option.{option_and_then, option_copied, option_map, option_to_list};
ghost use Rattle.cs_model.specs.Queries.{keeps};
ghost use Rattle.group_view.specs.Parts.{packed_versions, stored_versions, IsFitting};
ghost use Rattle.group_view.specs.Views.{version_at};
ghost use Rattle.batch_scan.specs.Reads.{own_row, read_row, rowed_at};
ghost use Rattle.batch_scan.specs.Scans as spec;

use crate::counts::{is_skipped, segment_counts};
use crate::positions::kept_positions;
use crate::reading::key_seen;
use crate::scanned::Scan;
use cs_base::Memory;
use cs_model::{Pred, Truth};
use cs_predicate::truth;
use cs_types::{Row, Schema};
use delete_bitmap::Marks;
use delta_store::Frozen;
use group_view::{GroupRef, Pinned, Place};
use row_group::Packed;
use std::alloc::Global;
use write_set::Write;

/// Whether a predicate is True of a row; without a predicate each row is kept.
fn keeps(pred: Option<&Pred>, row: &Row, schema: &Schema) -> bool
    ensures { result ≡ keeps schema.now (option_copied pred.entry) row.now }
{
    match pred {
        Some(pred) => truth(pred, row, schema) == Truth::True,
        None => true,
    }
}

/// Adds the rows of a packed group that are read and that the predicate keeps. A row is made only where it is.
fn scan_packed(
    alloc: Global,
    pinned: &Pinned,
    pred: Option<&Pred>,
    schema: &Schema,
    group: usize,
    packed: &Packed,
    marks: &Marks,
    rows: &mut Vec<Row>,
) -> Result<(), Memory>
    requires fits { length marks.now ≡ length packed.now.rows }
    requires versions { rowed_at pinned.now.view group ≡ packed_versions packed.now.key packed.now.rows marks.now }
    ensures { OnOk result (rows.new.items ≡ rows.old.items ++ filter (keeps schema.now (option_copied pred.entry)) (values_of (filter_map (read_row (length schema.now.columns) pinned.now) (rowed_at pinned.now.view group)))) }
{
    let width = schema.columns.len();
    let positions = kept_positions(alloc, pinned, pred, schema, packed, marks)?;
    for position in &positions {
        let place = Place {
            group,
            position: *position,
        };
        rows.push(pinned.view.row(alloc, place, width)?)?;
    }
    Ok(())
}

/// Adds the row of a version of a delta store, where it is read and the predicate keeps it. No other row is copied.
fn scan_stored(
    alloc: Global,
    pinned: &Pinned,
    pred: Option<&Pred>,
    schema: &Schema,
    place: Place,
    stored: &Row,
    rows: &mut Vec<Row>,
) -> Result<(), Memory>
    requires there { IsSome (version_at pinned.now.view place) }
    requires stored { option_map (λ rowed. rowed.row) (version_at pinned.now.view place) ≡ Some stored.now }
    ensures { OnOk result (rows.new.items ≡ rows.old.items ++ filter (keeps schema.now (option_copied pred.entry)) (values_of (option_to_list (option_and_then (read_row (length schema.now.columns) pinned.now) (version_at pinned.now.view place))))) }
{
    if key_seen(pinned, place).is_none() {
        return Ok(());
    }
    if !keeps(pred, stored, schema) {
        return Ok(());
    }
    rows.push(pinned.view.row(alloc, place, schema.columns.len())?)?;
    Ok(())
}

/// Adds the rows of a delta store that are read and that the predicate keeps.
fn scan_store(
    alloc: Global,
    pinned: &Pinned,
    pred: Option<&Pred>,
    schema: &Schema,
    group: usize,
    store: &Frozen,
    rows: &mut Vec<Row>,
) -> Result<(), Memory>
    requires versions { rowed_at pinned.now.view group ≡ stored_versions store.now }
    ensures { OnOk result (rows.new.items ≡ rows.old.items ++ filter (keeps schema.now (option_copied pred.entry)) (values_of (filter_map (read_row (length schema.now.columns) pinned.now) (rowed_at pinned.now.view group)))) }
{
    for position in 0..store.len() {
        let place = Place { group, position };
        let stored = &store.get(position).row;
        scan_stored(alloc, pinned, pred, schema, place, stored, rows)?;
    }
    Ok(())
}

/// Adds the rows of a group that are read and that the predicate keeps. A packed group that it skips is passed over.
fn scan_group(
    alloc: Global,
    pinned: &Pinned,
    pred: Option<&Pred>,
    schema: &Schema,
    group: usize,
    rows: &mut Vec<Row>,
) -> Result<(), Memory>
    requires there { group < length pinned.now.view.groups }
    requires fitting { All (λ group. IsFitting group.1) pinned.now.view.groups }
    ensures { OnOk result (rows.new.items ≡ rows.old.items ++ filter (keeps schema.now (option_copied pred.entry)) (values_of (filter_map (read_row (length schema.now.columns) pinned.now) (rowed_at pinned.now.view group)))) }
{
    match pinned.view.group(group) {
        GroupRef::Packed(packed, marks) => {
            if is_skipped(schema, pred, packed) {
                return Ok(());
            }
            scan_packed(alloc, pinned, pred, schema, group, packed, marks, rows)
        }
        GroupRef::Store(store) => scan_store(alloc, pinned, pred, schema, group, store, rows),
    }
}

/// The rows of the groups at the places from `from` up to but without `to` that a statement reads, its snapshot sees them and no own
/// write is of their keys, and on which the predicate, if there is one, is True; with how many packed groups are read, and how
/// many the predicate skips. A delta store counts as neither. `Memory` comes where the rows find no room, or what is found of a
/// group before they are made.
pub fn scan(
    alloc: Global,
    pinned: &Pinned,
    pred: Option<&Pred>,
    schema: &Schema,
    from: usize,
    to: usize,
) -> Result<Scan, Memory>
    requires ordered { from ≤ to }
    requires within { to ≤ length pinned.now.view.groups }
    requires fitting { All (λ group. IsFitting group.1) pinned.now.view.groups }
    ensures rows { IfOk result (λ scan. scan.rows.items ≡ filter (keeps schema.now (option_copied pred.entry)) (spec.rows_shown (length schema.now.columns) pinned.now from to)) }
    ensures counts { IfOk result (λ scan. (scan.read, scan.skipped) ≡ spec.counts_of schema.now (option_copied pred.entry) (spec.groups_between pinned.now.view from to)) }
{
    let mut rows = Vec::new(alloc);
    for group in from..to {
        scan_group(alloc, pinned, pred, schema, group, &mut rows)?;
    }
    let (read, skipped) = segment_counts(schema, pred, &pinned.view, from, to);
    Ok(Scan {
        rows,
        read,
        skipped,
    })
}

/// Adds a copy of the row of an own write, where it has one and the predicate keeps it.
fn scan_own(
    pred: Option<&Pred>,
    schema: &Schema,
    write: &Write,
    rows: &mut Vec<Row>,
) -> Result<(), Memory>
    ensures { OnOk result (rows.new.items ≡ rows.old.items ++ filter (keeps schema.now (option_copied pred.entry)) (values_of (option_to_list (own_row write.now)))) }
{
    let Some(row) = &write.row else {
        return Ok(());
    };
    if !keeps(pred, row, schema) {
        return Ok(());
    }
    rows.push(row.copy()?)?;
    Ok(())
}

/// Copies of the rows of the own writes, by key, on which the predicate, if there is one, is True. `Memory` comes where they find no
/// room.
pub fn own_rows(
    alloc: Global,
    pinned: &Pinned,
    pred: Option<&Pred>,
    schema: &Schema,
) -> Result<Vec<Row>, Memory>
    ensures { IfOk result (λ rows. rows.items ≡ filter (keeps schema.now (option_copied pred.entry)) (spec.own_rows pinned.now)) }
{
    let mut rows = Vec::new(alloc);
    for i in 0..pinned.own.len() {
        scan_own(pred, schema, pinned.own.get(i), &mut rows)?;
    }
    Ok(rows)
}
