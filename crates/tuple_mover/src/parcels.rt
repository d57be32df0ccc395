// The parcel of a commit: which of its rows load directly.
ghost use Rattle.std.specs.Prelude.{◌≡◌, ◌<◌, ◌≤◌, ◌++◌, ◌∷◌, [], map, take, length, min, All, IfOk, OnOk};
ghost use Rattle.cs_types.specs.Schemas.{IsSchema, IsRowOf};
ghost use Rattle.row_group.specs.Rows.{begun_above};
ghost use Rattle.row_group.specs.Groups.{HoldsRows};
ghost use Rattle.edit_laws.specs.Edits.{edits_of};
ghost use Rattle.group_book.specs.Commits.{inserted_by};
ghost use Rattle.group_view.specs.Parcels.{IsParcelFor};
ghost use Rattle.tuple_mover.specs.Inserts.{rows_given, direct_row, FitsIn, IsDirectOf};

use cs_base::{Items, Memory};
use cs_types::{Key, Row, Schema};
use group_view::Parcel;
use row_group::{Packed, Packer};
use std::alloc::Global;
use write_set::Write;

/// How many of the writes have a row.
fn rows_in(writes: &[Write]) -> usize
    ensures value { result ≡ length (inserted_by (edits_of writes.now)) }
    ensures most { result ≤ length writes.now }
{
    let mut rows = 0;
    for write in writes {
        if write.row.is_some() {
            rows += 1;
        }
    }
    rows
}

/// The place after the first writes that have a row, so many of them.
fn place_past(writes: &[Write], count: usize) -> usize
    requires { count ≤ length (inserted_by (edits_of writes.now)) }
    ensures within { result ≤ length writes.now }
    ensures count { length (inserted_by (edits_of (take result writes.now))) ≡ count }
{
    let mut left = count;
    for (place, write) in writes.iter().enumerate() {
        if left == 0 {
            return place;
        }
        if write.row.is_some() {
            left -= 1;
        }
    }
    writes.len()
}

/// How many rows the next direct group takes of those that are left.
pub(crate) fn part_len(left: usize, group_rows: u64) -> usize
    ensures { result ≡ min group_rows left }
{
    (left as u64).min(group_rows) as usize
}

/// The group of the packer's rows, of which there is at least one, with base 0.
pub(crate) fn packed(packer: Packer, schema: &Schema) -> Result<Packed, Memory>
    requires schema { IsSchema schema.now }
    requires width { packer.width ≡ length schema.now.columns }
    requires fit { All (λ row. IsRowOf schema.now row.cells) packer.rows }
    requires some { 0 < length packer.rows }
    ensures { IfOk result (HoldsRows schema.now (map (begun_above 0) packer.rows) 0) }
{
    let Some(group) = packer.pack(schema, 0)? else {
        unreachable!()
    };
    Ok(group)
}

/// Adds the row of a write that has one, with begin 0.
fn add_row(packer: &mut Packer, write: &Write) -> Result<(), Memory>
    ensures { OnOk result (packer.new ≡ record packer.old { rows = packer.old.rows ++ map (direct_row packer.old.width) (rows_given (edits_of (write.now ∷ []))) }) }
{
    match &write.row {
        None => Ok(()),
        Some(row) => packer.add(row, 0),
    }
}

/// A group of the rows of the writes, of which there are so many, at least one.
fn direct_group(
    alloc: Global,
    schema: &Schema,
    writes: &[Write],
    count: usize,
) -> Result<Packed, Memory>
    requires schema { IsSchema schema.now }
    requires fit { All (FitsIn schema.now) (edits_of writes.now) }
    requires some { 0 < length (inserted_by (edits_of writes.now)) }
    ensures { IfOk result (IsDirectOf schema.now (edits_of writes.now)) }
{
    let mut packer = Packer::new(alloc, schema.columns.len())?;
    packer.reserve(count)?;
    for write in writes {
        add_row(&mut packer, write)?;
    }
    packed(packer, schema)
}

/// Adds the row of a write that has one, with its key.
fn add_entry(rows: &mut Vec<(Key, Row)>, write: &Write) -> Result<(), Memory>
    ensures { OnOk result (rows.new.items ≡ rows.old.items ++ rows_given (edits_of (write.now ∷ []))) }
{
    if let Some(row) = &write.row {
        rows.push((write.key, row.copy()?))?;
    }
    Ok(())
}

/// The rows of the writes that have one, with their keys.
fn entries_of(alloc: Global, writes: &[Write]) -> Result<Vec<(Key, Row)>, Memory>
    ensures { IfOk result (λ rows. rows.items ≡ rows_given (edits_of writes.now)) }
{
    let mut rows = Vec::new(alloc);
    for write in writes {
        add_entry(&mut rows, write)?;
    }
    Ok(rows)
}

/// The parcel of a commit of own writes, by key (Larson et al., PVLDB 2015, section 4): while at least `direct_rows` rows are
/// left, the first `group_rows` of them become a packed group, or all where they are fewer, with base 0 and begins 0; the rest
/// follows by key. Each row fits the schema, with its key in the key's column, and each group is a packed one of the schema.
/// `Memory` comes only where there is no room for the parcel or on the way to it.
pub fn parcel_of(
    alloc: Global,
    schema: &Schema,
    own: &[Write],
    group_rows: u64,
    direct_rows: u64,
) -> Result<Parcel, Memory>
    requires schema { IsSchema schema.now }
    requires groups { 1 ≤ group_rows }
    requires direct { 1 ≤ direct_rows }
    requires fit { All (FitsIn schema.now) (edits_of own.now) }
    ensures parcel { IfOk result (IsParcelFor schema.now (record { group_rows = group_rows; direct_rows = direct_rows }) (edits_of own.now)) }
    ensures base { IfOk result (λ parcel. All (λ group. group.base ≡ 0) parcel.groups) }
{
    let mut left = rows_in(own);
    let mut writes = own;
    let mut groups = Vec::new(alloc);
    while direct_rows <= left as u64 {
        let count = part_len(left, group_rows);
        let (part, rest) = writes.split_at(place_past(writes, count));
        groups.push(direct_group(alloc, schema, part, count)?)?;
        writes = rest;
        left -= count;
    }
    Ok(Parcel {
        groups: Items::from_vec(groups),
        rest: Items::from_vec(entries_of(alloc, writes)?),
    })
}
