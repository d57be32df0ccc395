// Views for tests: a packed group with its bitmap, a store, a delete buffer and own writes.
ghost use Rattle.std.specs.Prelude.{◌≡◌, ◌∷◌, [], length, slice_get, All, IfOk, None, Some, true, false};
ghost use Rattle.std.specs.Bool.{OnTrue};
ghost use Rattle.cs_types.specs.declared.ColumnType.TheVariants.{BigInt};
ghost use Rattle.cs_types.specs.declared.Schema.{Schema};
ghost use Rattle.cs_types.specs.Kinds.{IsColumnType};
ghost use Rattle.cs_types.specs.Schemas.{IsRowOf};
ghost use Rattle.group_view.specs.Parts.{IsFitting};

use super::columns::Case;
use crate::made::{row_of, table};
use cs_base::{Items, Memory};
use cs_types::{Key, Row, Version};
use delete_bitmap::Marks;
use delete_buffer::{Buffer, Ends};
use delta_store::Delta;
use group_view::{GroupPart, GroupView, Pinned};
use row_group::{Packed, pack_rows};
use shared_list::SharedList;
use std::alloc::Global;
use std::process::Abort;
use std::sync::Arc;
use write_set::{Own, Write};

/// Whether a position is there and has no end.
#[tactic(auto, using(std::proofs::lemmas::Option::gets))]
fn is_free(marks: &Marks, position: usize) -> bool
    ensures { OnTrue result (slice_get marks.now position ≡ Some None) }
{
    position < marks.len() && marks.end(position).is_none()
}

/// A bitmap of so many positions with ends at these, of which those at most the floor are settled.
pub fn marked(
    rt: &impl Abort,
    alloc: Global,
    count: usize,
    ends: &[(u16, u64)],
    floor: u64,
) -> Result<Marks, Memory>
    ensures { IfOk result (λ marks. length marks ≡ count) }
{
    let mut marks = Marks::new(alloc, count)?;
    for (position, end) in ends {
        let position = usize::from(*position);
        assert!(rt; is_free(&marks, position));
        marks.mark(position, *end)?;
    }
    marks.settle(floor);
    Ok(marks)
}

/// A buffer of these entries, as it stands.
pub fn buffered(alloc: Global, given: &[(u16, u64)]) -> Result<Arc<Ends>, Memory> {
    let mut buffer = Buffer::new(alloc);
    for (key, end) in given {
        let key = Key(i64::from(*key));
        buffer.reserve(1)?;
        if !buffer.remove(key, *end) {
            buffer.add(key, *end);
        }
    }
    buffer.copy()
}

/// The floor of the views.
const FLOOR: u64 = 5;

/// What a statement reads beside the rows of a packed group, whose keys count up from 0. The lists go on from their begin.
#[derive(Clone, Copy)]
pub struct Setting {
    /// The begins of the rows, by key.
    pub begins: &'static [u64],
    /// The ends in the bitmap, by position; 0 is none.
    pub ends: &'static [u64],
    /// The ends in the delete buffer, by key; 0 is none.
    pub entries: &'static [u64],
    /// The own writes, by key: 0 is none, 1 a DELETE, 2 an UPDATE.
    pub own: &'static [u64],
    pub snapshot: u64,
}

/// The number at a place of a list that goes on from its begin, 0 where it is empty.
fn cycled(list: &[u64], place: u16) -> u64 {
    if list.is_empty() {
        0
    } else {
        list[usize::from(place) % list.len()]
    }
}

/// Those of the first places of such a list at which the number is not 0, with it.
fn given(alloc: Global, list: &[u64], count: u16) -> Result<Vec<(u16, u64)>, Memory> {
    let mut places = Vec::new(alloc);
    for place in 0..count {
        let number = cycled(list, place);
        if number != 0 {
            places.push((place, number))?;
        }
    }
    Ok(places)
}

/// A row of a key with the cell of a row of the case.
fn case_row(rt: &impl Abort, alloc: Global, case: &Case, key: i64, row: u16) -> Result<Row, Memory>
    requires { IsColumnType case.now.kind }
    ensures { IfOk result (λ row. (schema : Schema) → schema.columns ≡ record { name = 107 ∷ []; kind = BigInt; nullable = false } ∷ record { name = 118 ∷ []; kind = case.now.kind; nullable = true } ∷ [] → IsRowOf schema row) }
{
    let cell = case.cell(alloc, usize::from(row))?;
    assert!(rt; case.kind.keeps(&cell));
    row_of(alloc, case.kind, key, cell)
}

/// The packed group of so many rows of a case.
pub fn packed_of(
    rt: &impl Abort,
    alloc: Global,
    case: &Case,
    count: u16,
    begins: &[u64],
) -> Result<Option<Packed>, Memory>
    requires { IsColumnType case.now.kind }
{
    let schema = table(alloc, case.kind)?;
    let mut versions = Items::new(alloc);
    for row in 0..count {
        versions.push(Version {
            row: case_row(rt, alloc, case, i64::from(row), row)?,
            begin: cycled(begins, row),
            end: None,
        })?;
    }
    pack_rows(alloc, &schema, versions, FLOOR)
}

/// The keys of a store, each with the row of the case that has its cell and the commit that wrote it.
static STORED: [(i64, u16, u64); 5] = [(-1, 0, 5), (-2, 1, 6), (-1, 3, 7), (-3, 2, 8), (-4, 4, 5)];

/// The store of these keys.
fn store_of(rt: &impl Abort, alloc: Global, case: &Case) -> Result<GroupPart, Memory>
    requires { IsColumnType case.now.kind }
    ensures { IfOk result IsFitting }
{
    let mut store = Delta::new(alloc);
    for &(key, row, commit) in &STORED {
        let row = case_row(rt, alloc, case, key, row)?;
        store.reserve(1)?;
        store.prepare_key(Key(key))?;
        store.end_live(Key(key), commit);
        store.insert(row, Key(key), commit);
    }
    Ok(GroupPart::Store(Arc::new(alloc, store.freeze())?))
}

/// An own write to a key, with the cell of a row of the case: 1 is a DELETE, 2 an UPDATE, 3 an INSERT.
fn write_of(
    rt: &impl Abort,
    alloc: Global,
    case: &Case,
    key: i64,
    kind: u64,
    row: u16,
) -> Result<Write, Memory>
    requires { IsColumnType case.now.kind }
{
    let row = match kind {
        1 => None,
        _ => Some(case_row(rt, alloc, case, key, row)?),
    };
    Ok(Write {
        key: Key(key),
        row,
        replaces: kind != 3,
    })
}

/// Own writes to keys of the packed group, one to a key of the store and one to a new key, where there is any.
fn own_of(rt: &impl Abort, alloc: Global, case: &Case, writes: &[(u16, u64)]) -> Result<Own, Memory>
    requires { IsColumnType case.now.kind }
{
    let mut own = Own::empty();
    if writes.is_empty() {
        return Ok(own);
    }
    let mut list = Vec::new(alloc);
    for (key, kind) in writes {
        list.push(write_of(rt, alloc, case, i64::from(*key), *kind, key / 2)?)?;
    }
    list.push(write_of(rt, alloc, case, -4, 1, 0)?)?;
    list.push(write_of(rt, alloc, case, 5000, 3, 1)?)?;
    own.stage(list)?;
    Ok(own)
}

/// The packed group of so many rows of a case, with the bitmap of a setting.
fn packed_part(
    rt: &impl Abort,
    alloc: Global,
    case: &Case,
    count: u16,
    setting: &Setting,
) -> Result<GroupPart, Memory>
    requires { IsColumnType case.now.kind }
    ensures { IfOk result IsFitting }
{
    let packed = packed_of(rt, alloc, case, count, setting.begins)?;
    assert!(rt; packed.is_some());
    let packed = packed.unwrap();
    let ends = given(alloc, setting.ends, count)?;
    let marks = marked(rt, alloc, packed.len(), &ends, FLOOR)?;
    Ok(GroupPart::Packed(Arc::new(alloc, packed)?, Arc::new(alloc, marks)?))
}

/// That packed group, and the store.
fn groups_of(
    rt: &impl Abort,
    alloc: Global,
    case: &Case,
    count: u16,
    setting: &Setting,
) -> Result<Items<(u64, GroupPart)>, Memory>
    requires { IsColumnType case.now.kind }
    ensures count { IfOk result (λ groups. length groups ≡ 2) }
    ensures fitting { IfOk result (λ groups. All (λ group. IsFitting group.1) groups) }
{
    let mut groups = Items::new(alloc);
    groups.push((1, packed_part(rt, alloc, case, count, setting)?))?;
    groups.push((2, store_of(rt, alloc, case)?))?;
    Ok(groups)
}

/// What is pinned where a packed group of so many rows of a case and a store stand in a setting.
pub fn pinned_of(
    rt: &impl Abort,
    alloc: Global,
    case: &Case,
    count: u16,
    setting: &Setting,
) -> Result<Pinned, Memory>
    requires { IsColumnType case.now.kind }
    ensures groups { IfOk result (λ pinned. length pinned.view.groups ≡ 2) }
    ensures fitting { IfOk result (λ pinned. All (λ group. IsFitting group.1) pinned.view.groups) }
{
    let groups = groups_of(rt, alloc, case, count, setting)?;
    let entries = given(alloc, setting.entries, count)?;
    let view = GroupView {
        groups: SharedList::from_vec(alloc, groups.into_vec())?,
        buffer: buffered(alloc, &entries)?,
        floor: FLOOR,
        clock: 100,
    };
    let own = given(alloc, setting.own, count)?;
    Ok(Pinned {
        view,
        own: own_of(rt, alloc, case, &own)?,
        snapshot: setting.snapshot,
    })
}
