ghost use Rattle.std.specs.Prelude.{All, IfOk};
ghost use Rattle.group_view.specs.Parts.{IsFitting};

use crate::made::{buffer_of, is_free, row_of, table};
use cs_base::{Items, Memory};
use cs_types::{Key, Value, Version};
use delete_bitmap::Marks;
use delete_buffer::Ends;
use delta_store::Delta;
use group_view::{GroupPart, GroupRef, GroupView, Place};
use row_group::{Packed, pack_rows};
use shared_list::SharedList;
use std::alloc::Global;
use std::process::Abort;
use std::sync::Arc;
use std::test::Fail;

/// A packed group of these keys with their begins.
fn packed(alloc: Global, given: &[(u8, u64)], floor: u64) -> Result<Option<Packed>, Memory> {
    let schema = table(alloc)?;
    let mut versions = Items::new(alloc);
    for (key, begin) in given {
        versions.push(Version {
            row: row_of(alloc, *key)?,
            begin: *begin,
            end: None,
        })?;
    }
    pack_rows(alloc, &schema, versions, floor)
}

/// A store in which these keys were written at these commits.
fn stored(alloc: Global, given: &[(u8, u64)]) -> Result<GroupPart, Memory>
    ensures { IfOk result IsFitting }
{
    let mut store = Delta::new(alloc);
    for (number, commit) in given {
        let key = Key(i64::from(*number));
        let row = row_of(alloc, *number)?;
        store.reserve(1)?;
        store.prepare_key(key)?;
        store.end_live(key, *commit);
        store.insert(row, key, *commit);
    }
    Ok(GroupPart::Store(Arc::new(alloc, store.freeze())?))
}

/// A packed group with ends at these positions, of which those at most the floor are settled.
fn marked(
    rt: &impl Abort,
    alloc: Global,
    packed: Packed,
    ends: &[(usize, u64)],
    floor: u64,
) -> Result<GroupPart, Memory>
    ensures { IfOk result IsFitting }
{
    let mut marks = Marks::new(alloc, packed.len())?;
    for (position, end) in ends {
        assert!(rt; is_free(&marks, *position));
        marks.mark(*position, *end)?;
    }
    marks.settle(floor);
    Ok(GroupPart::Packed(Arc::new(alloc, packed)?, Arc::new(alloc, marks)?))
}

/// A buffer of these entries, as it stands.
fn buffered(alloc: Global, given: &[(i64, u64)]) -> Result<Arc<Ends>, Memory> {
    let mut buffer = buffer_of(alloc, given)?;
    buffer.copy()
}

/// A store and a packed group, with entries of the buffer for both.
fn view_of(rt: &impl Abort, alloc: Global) -> Result<GroupView, Memory>
    ensures { IfOk result (λ view. All (λ group. IsFitting group.1) view.groups) }
{
    let packed = packed(alloc, &[(8, 5), (6, 8), (5, 1), (7, 2)], 3)?;
    assert!(rt; packed.is_some());
    let part = marked(rt, alloc, packed.unwrap(), &[(0, 3), (2, 10)], 3)?;
    let mut groups = Items::new(alloc);
    groups.push((1, stored(alloc, &[(1, 3), (2, 4), (1, 6), (3, 7)])?))?;
    groups.push((4, part))?;
    Ok(GroupView {
        groups: SharedList::from_vec(alloc, groups.into_vec())?,
        buffer: buffered(alloc, &[(2, 9), (6, 8), (8, 7)])?,
        floor: 3,
        clock: 12,
    })
}

/// Keys, snapshots, and where the versions stand that they see.
static SEEN: [(i64, u64, Option<Place>); 10] = [
    (1, 2, None),
    (
        1,
        5,
        Some(Place {
            group: 0,
            position: 0,
        }),
    ),
    (
        1,
        6,
        Some(Place {
            group: 0,
            position: 2,
        }),
    ),
    (
        2,
        8,
        Some(Place {
            group: 0,
            position: 1,
        }),
    ),
    (2, 9, None),
    (5, 3, None),
    (
        6,
        8,
        Some(Place {
            group: 1,
            position: 1,
        }),
    ),
    (
        7,
        9,
        Some(Place {
            group: 1,
            position: 2,
        }),
    ),
    (7, 10, None),
    (
        8,
        6,
        Some(Place {
            group: 1,
            position: 3,
        }),
    ),
];

#[test]
fn snapshots_see_their_versions(rt: HostRuntime) -> Result<(), Fail> {
    let view = view_of(&rt, rt.alloc())?;
    for (key, s, found) in &SEEN {
        assert!(rt; view.lookup(Key(*key), *s) == *found, "{key} at {s}");
    }
    // What is let go by a call has a short proof, and what is let go at the end of its scope a long one.
    drop(view);
    Ok(())
}

/// A store with three versions of a key, the last of them ended by an entry of the buffer.
fn view_of_versions(alloc: Global) -> Result<GroupView, Memory>
    ensures { IfOk result (λ view. All (λ group. IsFitting group.1) view.groups) }
{
    let mut groups = Items::new(alloc);
    groups.push((1, stored(alloc, &[(1, 3), (1, 6), (2, 7), (1, 9)])?))?;
    Ok(GroupView {
        groups: SharedList::from_vec(alloc, groups.into_vec())?,
        buffer: buffered(alloc, &[(1, 11)])?,
        floor: 3,
        clock: 12,
    })
}

/// Snapshots, and where in the store the version stands that they see.
static OLDER: [(u64, Option<usize>); 9] = [
    (2, None),
    (3, Some(0)),
    (5, Some(0)),
    (6, Some(1)),
    (8, Some(1)),
    (9, Some(3)),
    (10, Some(3)),
    (11, None),
    (12, None),
];

/// A place in the first group.
fn in_store(position: Option<usize>) -> Option<Place> {
    match position {
        Some(position) => Some(Place { group: 0, position }),
        None => None,
    }
}

#[test]
fn older_snapshots_see_older_versions(rt: HostRuntime) -> Result<(), Fail> {
    let view = view_of_versions(rt.alloc())?;
    for (s, found) in &OLDER {
        assert!(rt; view.lookup(Key(1), *s) == in_store(*found), "at {s}");
    }
    drop(view);
    Ok(())
}

/// That the view has these parts, and no others.
fn expect_parts(rt: &impl Abort, view: GroupView) {
    let GroupView {
        groups,
        buffer,
        floor,
        clock,
    } = view;
    let parts = buffer.parts();
    assert!(rt; groups.len() == 2 && parts.settled.len() + parts.recent.len() == 3);
    assert!(rt; floor == 3 && clock == 12);
}

#[test]
fn views_give_their_parts(rt: HostRuntime) -> Result<(), Fail> {
    let view = view_of(&rt, rt.alloc())?;
    assert!(rt; view.len() == 2 && !view.is_empty() && view.floor() == 3 && view.clock() == 12);
    for &(group, id, store) in &[(0, 1, true), (1, 4, false)] {
        assert!(rt; group < view.len() && view.id(group) == id);
        assert!(rt; matches!(view.group(group), GroupRef::Store(_)) == store);
    }
    assert!(rt; view.buffer().ends(Key(8), 6) == Some(7));
    match view.lookup(Key(6), 9) {
        Some(place) => {
            assert!(rt; view.visible(place, 8) && !view.visible(place, 7));
            let row = view.row(rt.alloc(), place, 2)?;
            assert!(rt;
                row.len() == 2 && row.cell(0) == &Value::Number(6) && row.cell(1) == &Value::Null
            );
        }
        None => return Err(Fail::from(Memory)),
    }
    expect_parts(&rt, view);
    Ok(())
}
