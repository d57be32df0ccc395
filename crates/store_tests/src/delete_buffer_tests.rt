ghost use Rattle.delete_buffer.specs.Entries.{AreParts};

use crate::made::buffer_of;
use cs_base::Memory;
use cs_types::Key;
use delete_buffer::{Buffer, Ends, Parts, merged};
use std::alloc::Global;
use std::process::Abort;
use std::test::Fail;

/// That the entries of two parts are those of a slice.
fn expect_entries(
    rt: &impl Abort,
    alloc: Global,
    parts: Parts<'_>,
    entries: &[(i64, u64)],
) -> Result<(), Memory>
    requires { AreParts parts.settled.now parts.recent.now }
{
    let found = merged(alloc, parts)?;
    assert!(rt; found.len() == entries.len());
    for ((key, end), (number, commit)) in found.iter().zip(entries.iter()) {
        assert!(rt; (key.0, *end) == (*number, *commit));
    }
    Ok(())
}

/// A key, a begin, and the least end above it, of the entries `(7, 4), (-3, 9), (7, 2), (7, 6)`.
const LEAST: [(i64, u64, Option<u64>); 9] = [
    (7, 0, Some(2)),
    (7, 2, Some(4)),
    (7, 3, Some(4)),
    (7, 5, Some(6)),
    (7, 6, None),
    (-3, 8, Some(9)),
    (-3, 9, None),
    (0, 0, None),
    (8, 0, None),
];

#[test]
fn entries_are_found(rt: HostRuntime) -> Result<(), Fail> {
    let mut buffer = buffer_of(rt.alloc(), &[(7, 4), (-3, 9), (7, 2), (7, 6)])?;
    let copied = buffer.copy()?;
    for &(key, begin, end) in &LEAST {
        assert!(rt;
            buffer.ends(Key(key), begin) == end,
            "of {key} above {begin}"
        );
        assert!(rt;
            copied.ends(Key(key), begin) == end,
            "of {key} above {begin}, copied"
        );
    }
    Ok(())
}

#[test]
fn an_empty_buffer_has_no_entry(rt: HostRuntime) {
    let mut buffer = Buffer::new(rt.alloc());
    assert!(rt; buffer.is_empty() && buffer.ends(Key(1), 0).is_none());
    assert!(rt; !buffer.remove(Key(1), 2));
}

#[test]
fn entries_come_and_go(rt: HostRuntime) -> Result<(), Fail> {
    let mut buffer = buffer_of(rt.alloc(), &[(7, 4), (-3, 9), (7, 2), (7, 6)])?;
    let copied = buffer.copy()?;
    assert!(rt; !buffer.remove(Key(7), 3) && buffer.remove(Key(7), 4));
    assert!(rt; buffer.ends(Key(7), 2) == Some(6) && copied.ends(Key(7), 2) == Some(4));
    let later = buffer.copy()?;
    let alloc = rt.alloc();
    expect_entries(
        &rt,
        alloc,
        copied.parts(),
        &[(-3, 9), (7, 2), (7, 4), (7, 6)],
    )?;
    expect_entries(&rt, alloc, later.parts(), &[(-3, 9), (7, 2), (7, 6)])?;
    Ok(())
}

/// Adds an entry of each of two keys, where the first is smaller and neither is there.
fn add_two(buffer: &mut Buffer, first: Key, second: Key, end: u64) -> Result<bool, Memory> {
    buffer.reserve(2)?;
    if first >= second || buffer.remove(first, end) || buffer.remove(second, end) {
        return Ok(false);
    }
    buffer.add_all(&[first, second], end);
    Ok(true)
}

/// Entries, two keys that get an entry at commit 4, and the entries then.
type Merged = (&'static [(i64, u64)], i64, i64, &'static [(i64, u64)]);

const MERGED: [Merged; 5] = [
    (&[], -5, 9, &[(-5, 4), (9, 4)]),
    (&[(3, 1)], 1, 2, &[(1, 4), (2, 4), (3, 1)]),
    (&[(3, 1)], 4, 5, &[(3, 1), (4, 4), (5, 4)]),
    (
        &[(2, 3), (1, 5), (2, 7), (1, 3)],
        1,
        2,
        &[(1, 3), (1, 4), (1, 5), (2, 3), (2, 4), (2, 7)],
    ),
    (
        &[(0, 9), (-2, 8), (6, 1)],
        -3,
        2,
        &[(-3, 4), (-2, 8), (0, 9), (2, 4), (6, 1)],
    ),
];

/// Takes away the entries that were copied.
fn remove_copied(buffer: &mut Buffer, copied: &Ends) {
    let parts = copied.parts();
    buffer.remove_all(parts.settled);
    buffer.remove_all(parts.recent);
}

/// That the entries of two keys are merged with those that were there, which then can be removed.
fn check_merged(rt: &impl Abort, alloc: Global, merged: Merged) -> Result<(), Memory> {
    let (before, first, second, after) = merged;
    let mut buffer = buffer_of(alloc, before)?;
    let old = buffer.copy()?;
    assert!(rt; add_two(&mut buffer, Key(first), Key(second), 4)?);
    expect_entries(rt, alloc, buffer.parts(), after)?;
    remove_copied(&mut buffer, &old);
    expect_entries(rt, alloc, buffer.parts(), &[(first, 4), (second, 4)])?;
    let added = buffer.copy()?;
    remove_copied(&mut buffer, &added);
    assert!(rt; buffer.is_empty());
    Ok(())
}

#[test]
fn batches_are_merged(rt: HostRuntime) -> Result<(), Fail> {
    for &merged in &MERGED {
        check_merged(&rt, rt.alloc(), merged)?;
    }
    Ok(())
}

/// Adds entries of scattered keys at commit 5, one by one, to a buffer and to a plain list. Of 200 in a row, no two are of one key.
fn add_scattered(
    buffer: &mut Buffer,
    plain: &mut Vec<(i64, u64)>,
    from: i64,
    to: i64,
) -> Result<(), Memory> {
    for number in from..to {
        let key = number.wrapping_mul(77) % 200;
        buffer.reserve(1)?;
        if !buffer.remove(Key(key), 5) {
            buffer.add(Key(key), 5);
        }
        plain.push((key, 5))?;
    }
    Ok(())
}

#[test]
fn recent_entries_settle(rt: HostRuntime) -> Result<(), Fail> {
    let alloc = rt.alloc();
    let mut buffer = Buffer::new(alloc);
    let mut plain = Vec::new(alloc);
    add_scattered(&mut buffer, &mut plain, 0, 100)?;
    let halfway = buffer.copy()?;
    let mut before = plain.clone()?;
    before.sort()?;
    add_scattered(&mut buffer, &mut plain, 100, 200)?;
    plain.sort()?;
    assert!(rt; buffer.parts().recent.len() < 64 && buffer.len() == 200);
    expect_entries(&rt, alloc, buffer.parts(), &plain)?;
    expect_entries(&rt, alloc, halfway.parts(), &before)?;
    remove_copied(&mut buffer, &halfway);
    assert!(rt; buffer.len() == 100 && buffer.ends(Key(77), 0).is_none());
    Ok(())
}
