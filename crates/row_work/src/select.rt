//! The rows of a SELECT, added to a partial answer.

ghost use Rattle.std.specs.Prelude.{◌≡◌, ◌-◌, ◌++◌, ◌<◌, ◌≤◌, List, [], filter, length, take, drop, All, OnOk};
ghost use Rattle.std.specs.Bool.{OnTrue};
ghost use Rattle.std.specs.List.{filter_map};
ghost use Rattle.std.specs.Map.{values_of};
ghost use Rattle.cs_types.specs.declared.Value.{Value};
ghost use Rattle.cs_model.specs.Queries.{Gives, answer, keeps};
ghost use Rattle.batch_aggregate.specs.Standing.{StandsFor};
ghost use Rattle.write_set.specs.Writes.{Ascend};
ghost use Rattle.group_view.specs.Parts.{packed_versions, IsFitting};
ghost use Rattle.row_work.specs.Bounds.{IsKeyRange};
ghost use Rattle.row_work.specs.Named.{rows_at};
ghost use Rattle.row_work.specs.Reads.{own_row, read_by, read_of, rowed_at, HasSnapshot, MayRead};
ghost use Rattle.row_work.specs.Sieved.{read_in};

use crate::adding::add_versions;
use crate::by_key::positions_read;
use crate::exact::{KeyRange, key_range};
use crate::listed::add_found;
use crate::lookup::read_at_key;
use crate::packed::add_packed;
use crate::ranged::tally_range;
use batch_aggregate::Partial;
use batch_scan::is_skipped;
use code_tallies::Batch;
use cs_base::{Items, Memory};
use cs_model::{AnswerRefusal, AnswerRow, Query};
use cs_types::{Key, Schema};
use delete_bitmap::Marks;
use group_view::{GroupRef, Pinned};
use row_group::Packed;
use std::alloc::Global;
use write_set::Own;

/// Whether the least and greatest cells of the columns of a packed group tell that the filter keeps none of its rows.
fn is_passed_over(schema: &Schema, query: &Query, pinned: &Pinned, group: usize) -> bool
    requires there { group < length pinned.now.view.groups }
    requires fitting { All (λ group. IsFitting group.1) pinned.now.view.groups }
    ensures { OnTrue result (filter (keeps schema.now query.now.filter) (read_in (length schema.now.columns) pinned.now (rowed_at pinned.now.view group)) ≡ []) }
{
    match pinned.view.group(group) {
        GroupRef::Packed(packed, _) => is_skipped(schema, query.filter.as_ref(), packed),
        GroupRef::Store(_) => false,
    }
}

/// Adds the rows of a packed group that are read: by their keys where the filter keeps a range of these, and else by verdicts.
fn add_by_codes(
    alloc: Global,
    partial: &mut Partial<'_>,
    schema: &Schema,
    query: &Query,
    pinned: &Pinned,
    group: usize,
    packed: &Packed,
    marks: &Marks,
    range: KeyRange,
    batch: &mut Option<Batch>,
) -> Result<(), Memory>
    requires there { group < length pinned.now.view.groups }
    requires may { MayRead schema.now pinned.now }
    requires versions { rowed_at pinned.now.view group ≡ packed_versions packed.now.key packed.now.rows marks.now }
    requires marks { length marks.now ≡ length packed.now.rows }
    requires range { IsKeyRange schema.now query.now.filter range }
    requires of_schema { partial.old.schema.now ≡ schema.now }
    requires of_query { partial.old.query.now ≡ query.now }
    ensures schema { partial.new.schema.now ≡ partial.old.schema.now }
    ensures query { partial.new.query.now ≡ partial.old.query.now }
    ensures added { (rows : List (List Value)) → StandsFor partial.old rows → OnOk result (StandsFor partial.new (rows ++ read_in (length schema.now.columns) pinned.now (rowed_at pinned.now.view group))) }
{
    let is_tallied = tally_range(
        alloc, partial, schema, query, pinned, packed, marks, range, batch,
    )?;
    if is_tallied {
        return Ok(());
    }
    add_packed(
        alloc, partial, schema, query, pinned, group, packed, marks, batch,
    )
}

/// Adds the rows of a group that are read, by a walk over all of it.
fn add_whole(
    alloc: Global,
    partial: &mut Partial<'_>,
    schema: &Schema,
    query: &Query,
    pinned: &Pinned,
    group: usize,
    range: KeyRange,
    batch: &mut Option<Batch>,
) -> Result<(), Memory>
    requires there { group < length pinned.now.view.groups }
    requires may { MayRead schema.now pinned.now }
    requires range { IsKeyRange schema.now query.now.filter range }
    requires of_schema { partial.old.schema.now ≡ schema.now }
    requires of_query { partial.old.query.now ≡ query.now }
    ensures schema { partial.new.schema.now ≡ partial.old.schema.now }
    ensures query { partial.new.query.now ≡ partial.old.query.now }
    ensures added { (rows : List (List Value)) → StandsFor partial.old rows → OnOk result (StandsFor partial.new (rows ++ read_in (length schema.now.columns) pinned.now (rowed_at pinned.now.view group))) }
{
    let width = schema.columns.len();
    match pinned.view.group(group) {
        GroupRef::Packed(packed, marks) => {
            add_by_codes(
                alloc, partial, schema, query, pinned, group, packed, marks, range, batch,
            )
        }
        GroupRef::Store(_) => add_versions(alloc, partial, pinned, group, width, &None, &None),
    }
}

/// Adds the rows of a group that are read. Where their keys or the least and greatest cells tell that the filter does not keep them,
/// they may be left out.
fn add_group(
    alloc: Global,
    partial: &mut Partial<'_>,
    schema: &Schema,
    query: &Query,
    pinned: &Pinned,
    group: usize,
    range: KeyRange,
    batch: &mut Option<Batch>,
) -> Result<(), Memory>
    requires there { group < length pinned.now.view.groups }
    requires may { MayRead schema.now pinned.now }
    requires range { IsKeyRange schema.now query.now.filter range }
    requires of_schema { partial.old.schema.now ≡ schema.now }
    requires of_query { partial.old.query.now ≡ query.now }
    ensures schema { partial.new.schema.now ≡ partial.old.schema.now }
    ensures query { partial.new.query.now ≡ partial.old.query.now }
    ensures added { (rows : List (List Value)) → StandsFor partial.old rows → OnOk result (StandsFor partial.new (rows ++ read_in (length schema.now.columns) pinned.now (rowed_at pinned.now.view group))) }
{
    if let Some(found) = positions_read(alloc, pinned, group, range.bounds)? {
        return add_found(alloc, partial, schema, query, pinned, group, range, found);
    }
    if is_passed_over(schema, query, pinned, group) {
        return Ok(());
    }
    add_whole(alloc, partial, schema, query, pinned, group, range, batch)
}

/// Adds the rows that are read of the groups of the view from one place up to another, group after group.
pub fn add_groups(
    alloc: Global,
    partial: &mut Partial<'_>,
    schema: &Schema,
    query: &Query,
    pinned: &Pinned,
    from: usize,
    to: usize,
) -> Result<(), Memory>
    requires there { (from ≤ to) × (to ≤ length pinned.now.view.groups) }
    requires may { MayRead schema.now pinned.now }
    requires of_schema { partial.old.schema.now ≡ schema.now }
    requires of_query { partial.old.query.now ≡ query.now }
    ensures schema { partial.new.schema.now ≡ partial.old.schema.now }
    ensures query { partial.new.query.now ≡ partial.old.query.now }
    ensures added { (rows : List (List Value)) → StandsFor partial.old rows → OnOk result (StandsFor partial.new (rows ++ read_of (length schema.now.columns) pinned.now (take (to - from) (drop from pinned.now.view.groups)))) }
{
    let range = key_range(schema, &query.filter);
    let mut batch = None;
    for group in from..to {
        add_group(
            alloc, partial, schema, query, pinned, group, range, &mut batch,
        )?;
    }
    Ok(())
}

/// Adds the rows of own writes.
pub fn add_own(partial: &mut Partial<'_>, own: &Own) -> Result<(), Memory>
    ensures schema { partial.new.schema.now ≡ partial.old.schema.now }
    ensures query { partial.new.query.now ≡ partial.old.query.now }
    ensures added { (rows : List (List Value)) → StandsFor partial.old rows → OnOk result (StandsFor partial.new (rows ++ values_of (filter_map own_row own.now))) }
    ensures order { Ascend own.now }
{
    for i in 0..own.len() {
        let write = own.get(i);
        if let Some(row) = &write.row {
            partial.add(row)?;
        }
    }
    Ok(())
}

/// Adds the rows that are read at keys, in so many cells.
fn add_at_keys(
    alloc: Global,
    partial: &mut Partial<'_>,
    pinned: &Pinned,
    keys: &[Key],
    width: usize,
) -> Result<(), Memory>
    requires { HasSnapshot pinned.now }
    ensures schema { partial.new.schema.now ≡ partial.old.schema.now }
    ensures query { partial.new.query.now ≡ partial.old.query.now }
    ensures added { (rows : List (List Value)) → StandsFor partial.old rows → OnOk result (StandsFor partial.new (rows ++ values_of (rows_at (read_by width pinned.now) keys.now))) }
{
    for key in keys {
        let mut made = None;
        if let Some((_source, row)) = read_at_key(alloc, pinned, *key, width, &mut made)? {
            partial.add(row)?;
        }
    }
    Ok(())
}

/// The answer of a SELECT over the rows that are read at keys. `Overflow` at the first row of the answer and its first item whose
/// whole count or sum is out of the range of its type; `Memory` where there is no room.
pub fn answer_at_keys(
    alloc: Global,
    schema: &Schema,
    query: &Query,
    pinned: &Pinned,
    keys: &[Key],
) -> Result<Items<AnswerRow>, AnswerRefusal>
    requires { HasSnapshot pinned.now }
    ensures { Gives result (answer schema.now query.now (values_of (rows_at (read_by (length schema.now.columns) pinned.now) keys.now))) }
{
    let width = schema.columns.len();
    let mut partial = Partial::new(alloc, schema, query)?;
    add_at_keys(alloc, &mut partial, pinned, keys, width)?;
    partial.result()
}
