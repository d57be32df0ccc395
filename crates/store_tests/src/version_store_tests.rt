ghost use Rattle.std.specs.Prelude.{◌≡◌, IsTrue};
ghost use Rattle.version_store.specs.Newest.{Ascend, AreBefore};

use cs_base::Memory;
use cs_types::Key;
use std::alloc::Global;
use std::process::Abort;
use std::test::Fail;
use version_store::{LEAST_RUN, NewestChange, Recent};

/// Notes the change, where the key has no newer one.
fn note_newer(recent: &mut Recent, key: Key, change: NewestChange) -> Result<(), Memory> {
    recent.reserve(1)?;
    match recent.newest(key) {
        Some(other) if other.commit >= change.commit => {}
        _ => recent.note(key, change),
    }
    Ok(())
}

/// The last change of all.
const LAST: NewestChange = NewestChange { commit: 4, txn: 6 };

/// Keys with their newest changes, before a prune at 3 and after it.
static NOTED: [(i64, Option<NewestChange>); 4] = [
    (7, Some(NewestChange { commit: 3, txn: 9 })),
    (-3, Some(NewestChange { commit: 2, txn: 3 })),
    (8, Some(LAST)),
    (0, None),
];

static PRUNED: [(i64, Option<NewestChange>); 3] = [(7, None), (-3, None), (8, Some(LAST))];

/// That so many changes are noted, and these keys have these ones.
fn expect_changes(
    rt: &impl Abort,
    recent: &Recent,
    count: usize,
    changes: &[(i64, Option<NewestChange>)],
) {
    assert!(rt; recent.len() == count);
    for (key, newest) in changes {
        assert!(rt; recent.newest(Key(*key)) == *newest, "of {key}");
    }
}

#[test]
fn changes_are_noted_and_pruned(rt: HostRuntime) -> Result<(), Fail> {
    let mut recent = Recent::new(rt.alloc());
    expect_changes(&rt, &recent, 0, &[(7, None)]);
    for &(key, commit, txn) in &[(7, 1, 4), (-3, 2, 3), (7, 3, 9), (8, 4, 6)] {
        note_newer(&mut recent, Key(key), NewestChange { commit, txn })?;
    }
    expect_changes(&rt, &recent, 3, &NOTED);
    recent.prune(3);
    expect_changes(&rt, &recent, 1, &PRUNED);
    Ok(())
}

/// Whether each key is below the next one.
fn ascend(keys: &[Key]) -> bool
    ensures { IsTrue result → Ascend keys.now }
{
    for i in 1..keys.len() {
        if keys[i - 1] >= keys[i] {
            return false;
        }
    }
    true
}

/// Whether what is noted of the keys was committed before.
fn are_before(recent: &Recent, keys: &[Key], commit: u64) -> bool
    ensures { IsTrue result → AreBefore commit keys.now recent.now.changes }
{
    for key in keys {
        if let Some(change) = recent.newest(*key) {
            if change.commit >= commit {
                return false;
            }
        }
    }
    true
}

/// Notes a change of `count` keys from `first` on, each `step` above the one before, in one commit. The transaction's number is
/// that of the commit. False where this can't be.
fn note_load(
    recent: &mut Recent,
    alloc: Global,
    first: i32,
    step: u16,
    count: usize,
    commit: u64,
) -> Result<bool, Memory> {
    let mut keys = Vec::with_capacity(alloc, count)?;
    let mut key = i64::from(first);
    for _ in 0..count {
        keys.push(Key(key))?;
        key = key.wrapping_add(i64::from(step));
    }
    recent.reserve_all(keys.len())?;
    if !ascend(&keys) {
        return Ok(false);
    }
    if !are_before(recent, &keys, commit) {
        return Ok(false);
    }
    recent.note_all(
        &keys,
        NewestChange {
            commit,
            txn: commit,
        },
    );
    Ok(true)
}

/// How many keys are loaded, whether a key was noted by itself before, and whether the keys are kept as a run, which
/// shows in that keys above them are seen to lie apart.
static KEPT: [(u32, bool, bool); 5] = [
    (1, false, false),
    (4_095, false, false),
    (4_096, false, true),
    (4_097, false, true),
    (4_097, true, false),
];

/// That so many keys are kept as a run or one by one, and are found.
fn check_kept(
    rt: &impl Abort,
    alloc: Global,
    count: u32,
    filled: bool,
    run: bool,
) -> Result<(), Memory> {
    let mut recent = Recent::new(alloc);
    if filled {
        note_newer(&mut recent, Key(-9), NewestChange { commit: 1, txn: 1 })?;
    }
    assert!(rt; note_load(&mut recent, alloc, 0, 1, count as usize, 2)?);
    assert!(rt;
        recent.is_apart(Key(5_000), Key(9_000)) == run,
        "of {count}"
    );
    let change = NewestChange { commit: 2, txn: 2 };
    for key in [0, i64::from(count) - 1] {
        assert!(rt;
            recent.newest(Key(key)) == Some(change),
            "of {key} of {count}"
        );
    }
    for key in [-1, i64::from(count)] {
        assert!(rt; recent.newest(Key(key)).is_none(), "of {key} of {count}");
    }
    assert!(rt; recent.len() == count as usize + usize::from(filled));
    Ok(())
}

#[test]
fn many_keys_are_kept_as_a_run(rt: HostRuntime) -> Result<(), Fail> {
    assert!(rt; LEAST_RUN == 4_096);
    for &(count, filled, run) in &KEPT {
        check_kept(&rt, rt.alloc(), count, filled, run)?;
    }
    Ok(())
}

/// A key, the commit of its newest change where even keys from 0 to 16,382 were committed by 1, odd and even ones from 8,000 to
/// 12,999 by 2 and key 8,001 by 3; and the same after a prune at 1 and at 2.
type Newest = (i64, Option<u64>, Option<u64>, Option<u64>);

static NEWEST: [Newest; 11] = [
    (-2, None, None, None),
    (0, Some(1), None, None),
    (1, None, None, None),
    (7_998, Some(1), None, None),
    (7_999, None, None, None),
    (8_000, Some(2), Some(2), None),
    (8_001, Some(3), Some(3), Some(3)),
    (12_999, Some(2), Some(2), None),
    (13_000, Some(1), None, None),
    (16_382, Some(1), None, None),
    (16_384, None, None, None),
];

/// That the key's newest change is of this commit.
fn expect_newest(rt: &impl Abort, recent: &Recent, key: i64, commit: Option<u64>) {
    let newest = recent.newest(Key(key)).map(|change| change.commit);
    assert!(rt; newest == commit, "of {key}");
}

#[test]
fn the_latest_run_answers(rt: HostRuntime) -> Result<(), Fail> {
    let mut recent = Recent::new(rt.alloc());
    assert!(rt; note_load(&mut recent, rt.alloc(), 0, 2, 8_192, 1)?);
    assert!(rt; !note_load(&mut recent, rt.alloc(), 8_000, 1, 5_000, 1)?);
    assert!(rt; note_load(&mut recent, rt.alloc(), 8_000, 1, 5_000, 2)?);
    assert!(rt; recent.len() == 13_192);
    note_newer(&mut recent, Key(8_001), NewestChange { commit: 3, txn: 3 })?;
    for &(key, commit, _, _) in &NEWEST {
        expect_newest(&rt, &recent, key, commit);
    }
    recent.prune(1);
    assert!(rt; recent.len() == 5_001);
    for &(key, _, commit, _) in &NEWEST {
        expect_newest(&rt, &recent, key, commit);
    }
    recent.prune(2);
    assert!(rt; recent.len() == 1);
    for &(key, _, _, commit) in &NEWEST {
        expect_newest(&rt, &recent, key, commit);
    }
    Ok(())
}

/// Two bounds, and whether runs of the keys from 10 to 4,105 and from 5,000 to 9,095 lie apart from the keys between them.
static APART: [(i64, i64, bool); 8] = [
    (-5, 9, true),
    (-5, 10, false),
    (4_105, 4_200, false),
    (4_106, 4_999, true),
    (4_106, 5_000, false),
    (9_095, 9_095, false),
    (9_096, 9_096, true),
    (0, 10_000, false),
];

#[test]
fn runs_lie_apart_from_other_keys(rt: HostRuntime) -> Result<(), Fail> {
    let mut recent = Recent::new(rt.alloc());
    assert!(rt; recent.is_apart(Key(0), Key(10_000)));
    assert!(rt; note_load(&mut recent, rt.alloc(), 10, 1, 4_096, 1)?);
    assert!(rt; note_load(&mut recent, rt.alloc(), 5_000, 1, 4_096, 2)?);
    for &(least, greatest, apart) in &APART {
        assert!(rt;
            recent.is_apart(Key(least), Key(greatest)) == apart,
            "of {least} to {greatest}"
        );
    }
    note_newer(&mut recent, Key(20_000), NewestChange { commit: 3, txn: 3 })?;
    assert!(rt; !recent.is_apart(Key(-5), Key(9)));
    Ok(())
}

#[test]
fn a_run_too_many_is_kept_one_by_one(rt: HostRuntime) -> Result<(), Fail> {
    let mut recent = Recent::new(rt.alloc());
    for load in 1..=65_u16 {
        assert!(rt; recent.is_apart(Key(0), Key(9_999)), "before {load}");
        let first = i32::from(load) * 10_000;
        assert!(rt; note_load(&mut recent, rt.alloc(), first, 1, 4_096, u64::from(load))?);
        expect_newest(
            &rt,
            &recent,
            i64::from(first) + 4_095,
            Some(u64::from(load)),
        );
    }
    assert!(rt; !recent.is_apart(Key(0), Key(9_999)));
    assert!(rt; recent.len() == 65 * 4_096);
    recent.prune(64);
    assert!(rt; recent.len() == 4_096);
    Ok(())
}
