mod columns;
mod forms;
mod reads;
mod skips;
mod views;

ghost use Rattle.std.specs.Prelude.{IfOk, IsSome};

use crate::made::{row_of, table};
use batch_scan::Shown;
use cs_base::{Items, Memory};
use cs_types::{ColumnType, Key, Value, Version};
use group_view::{GroupView, Pinned};
use row_group::{Packed, pack_rows};
use shared_list::SharedList;
use std::alloc::Global;
use std::process::Abort;
use std::test::Fail;
use views::{buffered, marked};
use write_set::{Own, Write};

/// A packed group of these keys with their begins, of which those at most the floor become the floor.
fn packed(alloc: Global, given: &[(u8, u64)], floor: u64) -> Result<Option<Packed>, Memory> {
    let kind = ColumnType::BigInt;
    let schema = table(alloc, kind)?;
    let mut versions = Items::new(alloc);
    for (key, begin) in given {
        versions.push(Version {
            row: row_of(alloc, kind, i64::from(*key), Value::Null)?,
            begin: *begin,
            end: None,
        })?;
    }
    pack_rows(alloc, &schema, versions, floor)
}

/// Own writes to nothing of these keys.
fn own_of(alloc: Global, keys: &[i64]) -> Result<Own, Memory> {
    let mut writes = Vec::new(alloc);
    for key in keys {
        writes.push(Write {
            key: Key(*key),
            row: None,
            replaces: true,
        })?;
    }
    let mut own = Own::empty();
    own.stage(writes)?;
    Ok(own)
}

/// What is pinned, and what of a group is read: the versions by key and begin; the floor; ends by position; entries of the buffer;
/// the keys of own writes; the snapshot; and `1` at each position that is read, `0` at the others.
type Case = (
    &'static [(u8, u64)],
    u64,
    &'static [(u16, u64)],
    &'static [(u16, u64)],
    &'static [i64],
    u64,
    &'static [u8],
);

/// What is read of the group of a case.
fn shown_of(rt: &impl Abort, alloc: Global, case: &Case) -> Result<Shown, Memory> {
    let (versions, floor, ends, entries, own, snapshot, _) = case;
    let packed = packed(alloc, versions, *floor)?;
    assert!(rt; packed.is_some());
    let packed = packed.unwrap();
    let marks = marked(rt, alloc, packed.len(), ends, *floor)?;
    let view = GroupView {
        groups: SharedList::new(alloc),
        buffer: buffered(alloc, entries)?,
        floor: *floor,
        clock: 100,
    };
    let pinned = Pinned {
        view,
        own: own_of(alloc, own)?,
        snapshot: *snapshot,
    };
    Shown::of(alloc, &pinned, &packed, &marks)
}

/// How it is said: for every position, for none, or position by position.
fn kind_of(shown: &Shown) -> u8 {
    match shown {
        Shown::Every => b'e',
        Shown::Nowhere => b'n',
        Shown::Some(_) => b's',
    }
}

/// That a case has this kind, and exactly its positions.
fn expect(
    rt: &impl Abort,
    alloc: Global,
    place: usize,
    kind: u8,
    case: &Case,
) -> Result<(), Memory> {
    let shown = shown_of(rt, alloc, case)?;
    assert!(rt; kind_of(&shown) == kind, "case {place}");
    for (position, flag) in case.6.iter().enumerate() {
        assert!(rt;
            shown.has(position) == (*flag == b'1'),
            "case {place} at {position}"
        );
    }
    Ok(())
}

/// Four versions of three keys, all begun at the floor but one of key 2, which begins at 7.
const FOUR: &[(u8, u64)] = &[(1, 1), (2, 1), (2, 7), (3, 1)];

/// How what is read is said, and what it is.
static CASES: [(u8, Case); 23] = [
    (b'e', (FOUR, 5, &[], &[], &[], 7, b"1111")),
    (b's', (FOUR, 5, &[], &[], &[], 6, b"1101")),
    (b's', (FOUR, 5, &[], &[], &[], 5, b"1101")),
    (b's', (FOUR, 5, &[], &[], &[], 4, b"0000")),
    (b'n', (&[(1, 1), (2, 1)], 5, &[], &[], &[], 4, b"00")),
    (b'e', (&[(1, 1), (2, 1)], 5, &[], &[], &[], 5, b"11")),
    (b's', (FOUR, 5, &[(1, 7)], &[], &[], 7, b"1011")),
    (b's', (FOUR, 5, &[(1, 7)], &[], &[], 6, b"1101")),
    (b'e', (FOUR, 5, &[(1, 8)], &[], &[], 7, b"1111")),
    (b's', (FOUR, 6, &[(0, 6), (3, 9)], &[], &[], 8, b"0111")),
    (b's', (FOUR, 6, &[(0, 6), (3, 9)], &[], &[], 9, b"0110")),
    (b's', (FOUR, 5, &[], &[(1, 8)], &[], 8, b"0111")),
    (b's', (FOUR, 5, &[], &[(1, 8)], &[], 9, b"0111")),
    (b'e', (FOUR, 5, &[], &[(1, 8)], &[], 7, b"1111")),
    (b's', (FOUR, 5, &[], &[(2, 7)], &[], 7, b"1011")),
    (b's', (FOUR, 5, &[], &[(2, 7), (2, 9)], &[], 9, b"1001")),
    (
        b'e',
        (FOUR, 5, &[], &[(1, 5), (0, 6), (4, 6)], &[], 7, b"1111"),
    ),
    (b's', (FOUR, 5, &[], &[], &[2], 7, b"1001")),
    (b'e', (FOUR, 5, &[], &[], &[0, 4], 7, b"1111")),
    (b's', (FOUR, 5, &[], &[], &[-1, 1, 3, 9], 7, b"0110")),
    (b's', (FOUR, 5, &[(3, 6)], &[(1, 6)], &[2], 7, b"0000")),
    (b's', (FOUR, 5, &[(3, 6)], &[(1, 6)], &[2], 5, b"1001")),
    (b'n', (&[(9, 2)], 3, &[(0, 4)], &[(9, 5)], &[9], 2, b"0")),
];

#[test]
fn versions_are_shown_by_what_ends_them(rt: HostRuntime) -> Result<(), Fail> {
    for (place, (kind, case)) in CASES.iter().enumerate() {
        expect(&rt, rt.alloc(), place, *kind, case)?;
    }
    Ok(())
}
