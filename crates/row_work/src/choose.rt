// The rows that an UPDATE or a DELETE chooses.
ghost use Rattle.std.specs.Prelude.{◌≡◌, ◌++◌, ◌∷◌, [], ◌<◌, ℕ, if◌then◌else◌, length, map, slice_get, All, IfOk, OnOk, IsPermutation, IsSome, Some};
ghost use Rattle.std.specs.List.{filter_map};
ghost use Rattle.std.specs.List.Sorted.{IsSortedByKey};
ghost use Rattle.std.specs.Option.{option_and_then};
ghost use Rattle.cs_types.specs.Keys.{key_cmp};
ghost use Rattle.cs_model.specs.Answers as spec;
ghost use Rattle.cs_model.specs.Queries.{keeps};
ghost use Rattle.cs_model.specs.Obstacles.{has_row};
ghost use Rattle.write_set.specs.Writes.{Ascend};
ghost use Rattle.group_view.specs.Parts.{packed_versions, IsFitting};
ghost use Rattle.batch_scan.specs.Reads.{is_read};
ghost use Rattle.group_view.specs.Views.{rowed_of};
ghost use Rattle.row_work.specs.Bounds.{KeepsWithin};
ghost use Rattle.row_work.specs.Named.{rows_at};
ghost use Rattle.row_work.specs.Reads.{own_row, read_by, read_row, rowed_at, shown_by, HasSnapshot, MayRead};
ghost use Rattle.row_work.specs.Sources.{chosen_at, chosen_edit, rows_as_edits, row_of, IsShown};
ghost use Rattle.row_work.specs.Stores.{read_at_position, PassesAt};

use crate::bounds::{Bounds, named_bounds};
use crate::by_key::{in_order, positions_read, read_at_position};
use crate::lookup::read_at_key;
use crate::named::named_keys;
use crate::reading::{has_row_shown, read_at, row_at};
use batch_aggregate::keeps;
use batch_scan::{is_skipped, kept_positions};
use cs_base::Memory;
use cs_model::Pred;
use cs_types::{Key, Row, Schema};
use delete_bitmap::Marks;
use group_view::{GroupRef, Pinned, Place};
use row_group::Packed;
use std::alloc::Global;
use write_set::Own;

/// Where a row that is read stands: at a place of the view, or in an own write, counted from 0.
#[derive(Clone, Copy, Debug, PartialEq, Eq)]
pub enum Source {
    Shown(Place),
    Own(usize),
}

/// A row that was chosen.
#[derive(Clone, Copy, Debug, PartialEq, Eq)]
pub struct Chosen {
    pub key: Key,
    pub source: Source,
}

/// Chooses a row that was read, where the condition keeps it.
fn choose_read(
    chosen: &mut Vec<Chosen>,
    schema: &Schema,
    condition: &Option<Pred>,
    one: Chosen,
    row: &Row,
) -> Result<(), Memory>
    ensures { OnOk result (chosen.new.items ≡ chosen.old.items ++ (if keeps schema.now condition.now row.now then one ∷ [] else [])) }
{
    if keeps(schema, condition, row) {
        chosen.push(one)?;
    }
    Ok(())
}

/// Chooses, of the versions of a group that are read, by their positions, those whose rows the condition keeps.
fn choose_at_positions(
    alloc: Global,
    chosen: &mut Vec<Chosen>,
    schema: &Schema,
    condition: &Option<Pred>,
    pinned: &Pinned,
    group: usize,
    positions: &[usize],
) -> Result<(), Memory>
    requires read { All (PassesAt (is_read pinned.now) (rowed_at pinned.now.view group)) positions.now }
    requires shown { All (IsShown pinned.now) chosen.old.items }
    ensures rows { OnOk result (map (chosen_edit (length schema.now.columns) pinned.now) chosen.new.items ≡ map (chosen_edit (length schema.now.columns) pinned.now) chosen.old.items ++ rows_as_edits (spec.chosen schema.now condition.now (filter_map (read_at_position (length schema.now.columns) pinned.now (rowed_at pinned.now.view group)) positions.now))) }
    ensures shown { OnOk result (All (IsShown pinned.now) chosen.new.items) }
{
    let width = schema.columns.len();
    for position in positions {
        let place = Place {
            group,
            position: *position,
        };
        let mut made = None;
        let (key, row) = read_at_position(alloc, pinned, place, width, &mut made)?;
        let source = Source::Shown(place);
        let one = Chosen { key, source };
        choose_read(chosen, schema, condition, one, row)?;
    }
    Ok(())
}

/// Chooses the rows of a group that are read and that the condition keeps, version by version.
fn choose_versions(
    alloc: Global,
    chosen: &mut Vec<Chosen>,
    schema: &Schema,
    condition: &Option<Pred>,
    pinned: &Pinned,
    group: usize,
) -> Result<(), Memory>
    requires there { group < length pinned.now.view.groups }
    requires fitting { All (λ group. IsFitting group.1) pinned.now.view.groups }
    requires shown { All (IsShown pinned.now) chosen.old.items }
    ensures rows { OnOk result (map (chosen_edit (length schema.now.columns) pinned.now) chosen.new.items ≡ map (chosen_edit (length schema.now.columns) pinned.now) chosen.old.items ++ rows_as_edits (spec.chosen schema.now condition.now (filter_map (read_row (length schema.now.columns) pinned.now) (rowed_at pinned.now.view group)))) }
    ensures shown { OnOk result (All (IsShown pinned.now) chosen.new.items) }
{
    let width = schema.columns.len();
    let len = pinned.view.groups.at(group).1.len();
    for position in 0..len {
        let place = Place { group, position };
        let mut made = None;
        if let Some((key, row)) = read_at(alloc, pinned, place, width, &None, &mut made)? {
            let source = Source::Shown(place);
            choose_read(chosen, schema, condition, Chosen { key, source }, row)?;
        }
    }
    Ok(())
}

/// Chooses the rows of a packed group at positions.
fn choose_positions(
    chosen: &mut Vec<Chosen>,
    packed: &Packed,
    group: usize,
    positions: &[usize],
) -> Result<(), Memory>
    requires { All (λ position. position < length packed.now.rows) positions.now }
    ensures { OnOk result (chosen.new.items ≡ chosen.old.items ++ map (chosen_at group packed.now) positions.now) }
{
    for position in positions {
        let key = packed.key_at(*position);
        let source = Source::Shown(Place {
            group,
            position: *position,
        });
        chosen.push(Chosen { key, source })?;
    }
    Ok(())
}

/// Chooses the rows of a packed group that are read and that the condition keeps. One that the condition skips is passed over, and no
/// row is made to be judged.
fn choose_in_packed(
    alloc: Global,
    chosen: &mut Vec<Chosen>,
    schema: &Schema,
    condition: &Option<Pred>,
    pinned: &Pinned,
    group: usize,
    packed: &Packed,
    marks: &Marks,
) -> Result<(), Memory>
    requires fits { length marks.now ≡ length packed.now.rows }
    requires versions { rowed_at pinned.now.view group ≡ packed_versions packed.now.key packed.now.rows marks.now }
    requires shown { All (IsShown pinned.now) chosen.old.items }
    ensures rows { OnOk result (map (chosen_edit (length schema.now.columns) pinned.now) chosen.new.items ≡ map (chosen_edit (length schema.now.columns) pinned.now) chosen.old.items ++ rows_as_edits (spec.chosen schema.now condition.now (filter_map (read_row (length schema.now.columns) pinned.now) (rowed_at pinned.now.view group)))) }
    ensures shown { OnOk result (All (IsShown pinned.now) chosen.new.items) }
{
    let pred = condition.as_ref();
    if is_skipped(schema, pred, packed) {
        return Ok(());
    }
    let positions = kept_positions(alloc, pinned, pred, schema, packed, marks)?;
    choose_positions(chosen, packed, group, &positions)
}

/// Chooses the rows of a group that are read and that the condition keeps, by a walk over all of it.
fn choose_in_whole(
    alloc: Global,
    chosen: &mut Vec<Chosen>,
    schema: &Schema,
    condition: &Option<Pred>,
    pinned: &Pinned,
    group: usize,
) -> Result<(), Memory>
    requires there { group < length pinned.now.view.groups }
    requires may { MayRead schema.now pinned.now }
    requires shown { All (IsShown pinned.now) chosen.old.items }
    ensures rows { OnOk result (map (chosen_edit (length schema.now.columns) pinned.now) chosen.new.items ≡ map (chosen_edit (length schema.now.columns) pinned.now) chosen.old.items ++ rows_as_edits (spec.chosen schema.now condition.now (filter_map (read_row (length schema.now.columns) pinned.now) (rowed_at pinned.now.view group)))) }
    ensures shown { OnOk result (All (IsShown pinned.now) chosen.new.items) }
{
    match pinned.view.group(group) {
        GroupRef::Packed(packed, marks) => choose_in_packed(
            alloc, chosen, schema, condition, pinned, group, packed, marks,
        ),
        GroupRef::Store(_) => choose_versions(alloc, chosen, schema, condition, pinned, group),
    }
}

/// Chooses the rows of a group that are read and that the condition keeps, which all are of these keys. Rows of other keys may be
/// passed over.
fn choose_in_group(
    alloc: Global,
    chosen: &mut Vec<Chosen>,
    schema: &Schema,
    condition: &Option<Pred>,
    pinned: &Pinned,
    group: usize,
    bounds: Bounds,
) -> Result<(), Memory>
    requires there { group < length pinned.now.view.groups }
    requires may { MayRead schema.now pinned.now }
    requires within { KeepsWithin schema.now condition.now bounds }
    requires shown { All (IsShown pinned.now) chosen.old.items }
    ensures rows { OnOk result (map (chosen_edit (length schema.now.columns) pinned.now) chosen.new.items ≡ map (chosen_edit (length schema.now.columns) pinned.now) chosen.old.items ++ rows_as_edits (spec.chosen schema.now condition.now (filter_map (read_row (length schema.now.columns) pinned.now) (rowed_at pinned.now.view group)))) }
    ensures shown { OnOk result (All (IsShown pinned.now) chosen.new.items) }
{
    match positions_read(alloc, pinned, group, bounds)? {
        Some(found) => {
            let positions = in_order(found);
            choose_at_positions(alloc, chosen, schema, condition, pinned, group, &positions)
        }
        None => choose_in_whole(alloc, chosen, schema, condition, pinned, group),
    }
}

/// Chooses the rows of the view that are read and that the condition keeps.
fn choose_shown(
    alloc: Global,
    schema: &Schema,
    condition: &Option<Pred>,
    pinned: &Pinned,
) -> Result<Vec<Chosen>, Memory>
    requires { MayRead schema.now pinned.now }
    ensures rows { IfOk result (λ chosen. map (chosen_edit (length schema.now.columns) pinned.now) chosen.items ≡ rows_as_edits (spec.chosen schema.now condition.now (filter_map (read_row (length schema.now.columns) pinned.now) (rowed_of pinned.now.view)))) }
    ensures shown { IfOk result (λ chosen. All (IsShown pinned.now) chosen.items) }
{
    let bounds = named_bounds(schema, condition);
    let mut chosen = Vec::new(alloc);
    for group in 0..pinned.view.len() {
        choose_in_group(alloc, &mut chosen, schema, condition, pinned, group, bounds)?;
    }
    Ok(chosen)
}

/// Chooses the rows of the own writes that the condition keeps.
fn choose_own(
    chosen: &mut Vec<Chosen>,
    schema: &Schema,
    condition: &Option<Pred>,
    pinned: &Pinned,
) -> Result<(), Memory>
    requires { All (IsShown pinned.now) chosen.old.items }
    ensures rows { OnOk result (map (chosen_edit (length schema.now.columns) pinned.now) chosen.new.items ≡ map (chosen_edit (length schema.now.columns) pinned.now) chosen.old.items ++ rows_as_edits (spec.chosen schema.now condition.now (filter_map own_row pinned.now.own))) }
    ensures shown { OnOk result (All (IsShown pinned.now) chosen.new.items) }
    ensures order { Ascend pinned.now.own }
{
    for i in 0..pinned.own.len() {
        let write = pinned.own.get(i);
        if let Some(row) = &write.row {
            let key = write.key;
            let source = Source::Own(i);
            choose_read(chosen, schema, condition, Chosen { key, source }, row)?;
        }
    }
    Ok(())
}

/// Puts what was chosen in the order of the keys.
fn sort(chosen: &mut Vec<Chosen>)
    ensures permutation { IsPermutation chosen.old.items chosen.new.items }
    ensures sorted { IsSortedByKey (λ one. one.key) key_cmp chosen.new.items }
{
    chosen.sort_unstable_by_key(
        |one: &Chosen| -> Key
            ensures { result ≡ one.now.key }
        { one.key },
    );
}

/// Reads all rows, and chooses those that the condition keeps, in the order of their keys.
fn choose_of_all(
    alloc: Global,
    schema: &Schema,
    condition: &Option<Pred>,
    pinned: &Pinned,
) -> Result<Vec<Chosen>, Memory>
    requires { MayRead schema.now pinned.now }
    ensures rows { IfOk result (λ chosen. map (chosen_edit (length schema.now.columns) pinned.now) chosen.items ≡ rows_as_edits (spec.chosen schema.now condition.now (read_by (length schema.now.columns) pinned.now))) }
    ensures shown { IfOk result (λ chosen. All (IsShown pinned.now) chosen.items) }
{
    let mut chosen = choose_shown(alloc, schema, condition, pinned)?;
    choose_own(&mut chosen, schema, condition, pinned)?;
    sort(&mut chosen);
    Ok(chosen)
}

/// Reads the rows at keys, and chooses those that the condition keeps, in the order of the keys.
fn choose_at_keys(
    alloc: Global,
    schema: &Schema,
    condition: &Option<Pred>,
    pinned: &Pinned,
    keys: &[Key],
) -> Result<Vec<Chosen>, Memory>
    requires { HasSnapshot pinned.now }
    ensures rows { IfOk result (λ chosen. map (chosen_edit (length schema.now.columns) pinned.now) chosen.items ≡ rows_as_edits (spec.chosen schema.now condition.now (rows_at (read_by (length schema.now.columns) pinned.now) keys.now))) }
    ensures shown { IfOk result (λ chosen. All (IsShown pinned.now) chosen.items) }
{
    let width = schema.columns.len();
    let mut chosen = Vec::new(alloc);
    for key in keys {
        let mut made = None;
        if let Some((source, row)) = read_at_key(alloc, pinned, *key, width, &mut made)? {
            let one = Chosen { key: *key, source };
            choose_read(&mut chosen, schema, condition, one, row)?;
        }
    }
    Ok(chosen)
}

/// The rows that are read and that the condition keeps, in the order of their keys. Where it names keys, no other rows are read.
pub fn choose(
    alloc: Global,
    schema: &Schema,
    condition: &Option<Pred>,
    pinned: &Pinned,
) -> Result<Vec<Chosen>, Memory>
    requires { MayRead schema.now pinned.now }
    ensures rows { IfOk result (λ chosen. map (chosen_edit (length schema.now.columns) pinned.now) chosen.items ≡ rows_as_edits (spec.chosen schema.now condition.now (read_by (length schema.now.columns) pinned.now))) }
    ensures shown { IfOk result (λ chosen. All (IsShown pinned.now) chosen.items) }
{
    match named_keys(alloc, schema, condition)? {
        Some(keys) => choose_at_keys(alloc, schema, condition, pinned, &keys),
        None => choose_of_all(alloc, schema, condition, pinned),
    }
}

/// The row of an own write that has one.
fn own_row_at(own: &Own, i: usize) -> &Row
    requires { IsSome (option_and_then (λ write. write.row) (slice_get own.now i)) }
    ensures { option_and_then (λ write. write.row) (slice_get own.now i) ≡ Some result.now }
{
    match &own.get(i).row {
        Some(row) => row,
        None => unreachable!(),
    }
}

/// The row that stands at a source, in so many cells where it is one of the view, lent as `row_at` has it.
pub fn row_of<'a>(
    alloc: Global,
    pinned: &'a Pinned,
    source: Source,
    width: usize,
    made: &'a mut Option<Row>,
) -> Result<&'a Row, Memory>
    requires { IsSome (row_of width pinned.now source) }
    ensures { IfOk result (λ row. row_of width pinned.now source ≡ Some row.now) }
{
    match source {
        Source::Shown(place) => row_at(alloc, &pinned.view, place, width, made),
        Source::Own(i) => Ok(own_row_at(&pinned.own, i)),
    }
}

/// Whether the key of a row that was chosen is in the table of the snapshot. It is where the row stands in the view; the key of an
/// own write is looked up.
pub fn is_in_snapshot(pinned: &Pinned, chosen: Chosen) -> bool
    requires snapshot { HasSnapshot pinned.now }
    requires shown { IsShown pinned.now chosen }
    ensures { (width : ℕ) → result ≡ has_row (shown_by width pinned.now) chosen.key }
{
    match chosen.source {
        Source::Shown(_) => true,
        Source::Own(_) => has_row_shown(pinned, chosen.key),
    }
}
