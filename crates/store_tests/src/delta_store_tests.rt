use cs_base::Memory;
use cs_types::{Key, Row, Value};
use delta_store::{Delta, Frozen};
use std::alloc::Global;
use std::process::Abort;
use std::test::Fail;

/// Ends the live version of the key, if there is one, and appends one with a row of one number.
fn put(delta: &mut Delta, alloc: Global, key: i64, number: i64, commit: u64) -> Result<(), Memory> {
    let mut row = Row::new(alloc);
    row.push(Value::Number(number))?;
    delta.reserve(1)?;
    delta.prepare_key(Key(key))?;
    delta.end_live(Key(key), commit);
    delta.insert(row, Key(key), commit);
    Ok(())
}

/// A store in which these keys got these numbers at these commits.
fn filled(alloc: Global, puts: &[(i64, i64, u64)]) -> Result<Delta, Memory> {
    let mut delta = Delta::new(alloc);
    for (key, number, commit) in puts {
        put(&mut delta, alloc, *key, *number, *commit)?;
    }
    Ok(delta)
}

/// A store of the keys from 0 to `last`, each written at the commit one above it.
fn of_keys(alloc: Global, last: u16) -> Result<Delta, Memory> {
    let mut delta = Delta::new(alloc);
    for key in 0..=last {
        put(
            &mut delta,
            alloc,
            i64::from(key),
            i64::from(key),
            u64::from(key) + 1,
        )?;
    }
    Ok(delta)
}

/// The parts of a version: its key, number, begin and end.
type Parts = (i64, i64, u64, Option<u64>);

/// That the version at a place is this.
fn expect_version(rt: &impl Abort, frozen: &Frozen, i: usize, expected: Parts) {
    let (key, number, begin, end) = expected;
    assert!(rt; i < frozen.len());
    let version = frozen.get(i);
    assert!(rt; frozen.key(i) == Key(key));
    assert!(rt; version.row.cell(0) == &Value::Number(number));
    assert!(rt; version.begin == begin && version.end == end);
}

/// That the versions of a store are these.
fn expect_versions(rt: &impl Abort, frozen: &Frozen, expected: &[Parts]) {
    assert!(rt; frozen.len() == expected.len() && !frozen.is_empty());
    for (i, version) in expected.iter().enumerate() {
        expect_version(rt, frozen, i, *version);
    }
}

/// That the last versions of these keys stand at these places.
fn expect_places(rt: &impl Abort, frozen: &Frozen, expected: &[(i64, Option<usize>)]) {
    for (key, place) in expected {
        assert!(rt; frozen.of_key(Key(*key)) == *place);
    }
}

/// Keys with their numbers and commits.
static PUTS: [(i64, i64, u64); 6] = [
    (7, 70, 1),
    (-3, 30, 2),
    (7, 71, 4),
    (9, 90, 5),
    (-3, 31, 6),
    (7, 72, 7),
];

/// Their versions, once the key -3 has ended at commit 8, and once the key 9 has ended at commit 10.
static AT_EIGHT: [Parts; 6] = [
    (7, 70, 1, Some(4)),
    (-3, 30, 2, Some(6)),
    (7, 71, 4, Some(7)),
    (9, 90, 5, None),
    (-3, 31, 6, Some(8)),
    (7, 72, 7, None),
];

static AT_TEN: [Parts; 6] = [
    (7, 70, 1, Some(4)),
    (-3, 30, 2, Some(6)),
    (7, 71, 4, Some(7)),
    (9, 90, 5, Some(10)),
    (-3, 31, 6, Some(8)),
    (7, 72, 7, None),
];

/// The places of their last versions.
static PLACES: [(i64, Option<usize>); 5] = [
    (7, Some(5)),
    (-3, Some(4)),
    (9, Some(3)),
    (0, None),
    (10, None),
];

/// Ends the live version of a key, and says whether there was one.
fn end(delta: &mut Delta, key: i64, commit: u64) -> Result<bool, Memory> {
    delta.prepare_key(Key(key))?;
    Ok(delta.end_live(Key(key), commit))
}

/// That a store has these versions, of which so many have ended, with the last ones at their places.
fn expect_store(rt: &impl Abort, frozen: &Frozen, versions: &[Parts], ended: usize) {
    assert!(rt; frozen.ended() == ended);
    expect_versions(rt, frozen, versions);
    expect_places(rt, frozen, &PLACES);
}

#[test]
fn versions_come_and_end(rt: HostRuntime) -> Result<(), Fail> {
    let mut delta = filled(rt.alloc(), &PUTS)?;
    for &(key, commit, found) in &[(-3, 8, true), (-3, 9, false), (8, 9, false)] {
        assert!(rt;
            end(&mut delta, key, commit)? == found,
            "of {key} at {commit}"
        );
    }
    assert!(rt; delta.len() == 6 && delta.ended() == 4 && !delta.is_empty());
    let shared = delta.share()?;
    assert!(rt; end(&mut delta, 9, 10)? && delta.ended() == 5);
    expect_store(&rt, &shared, &AT_EIGHT, 4);
    expect_store(&rt, &delta.freeze(), &AT_TEN, 5);
    Ok(())
}

/// That the version before that at a place, of the same key, stands at this one.
fn expect_earlier(rt: &impl Abort, frozen: &Frozen, i: usize, place: Option<usize>) {
    assert!(rt; i < frozen.len());
    assert!(rt; frozen.earlier(i) == place);
}

/// A store in which each of three keys got a version at each of these commits, and how many versions it had before each.
static ROUNDS: [(usize, u64); 5] = [(0, 1), (3, 11), (6, 21), (9, 31), (12, 41)];

/// Adds a version of each of the three keys, which then stand from a place on.
fn add_round(rt: &impl Abort, alloc: Global, delta: &mut Delta, commit: u64) -> Result<(), Memory> {
    let first = delta.len();
    assert!(rt; first < 100);
    for &key in &[5, -2, 8] {
        put(delta, alloc, key, 0, commit)?;
    }
    let places = [
        (5, Some(first)),
        (-2, Some(first + 1)),
        (8, Some(first + 2)),
        (6, None),
    ];
    expect_places(rt, &delta.share()?, &places);
    Ok(())
}

/// A store with five versions of each of the three keys.
fn five_rounds(rt: &impl Abort, alloc: Global) -> Result<Frozen, Memory> {
    let mut delta = Delta::new(alloc);
    for &(first, commit) in &ROUNDS {
        assert!(rt; delta.len() == first);
        add_round(rt, alloc, &mut delta, commit)?;
    }
    Ok(delta.freeze())
}

/// The places of the versions before those at some places.
static EARLIER: [(usize, Option<usize>); 9] = [
    (0, None),
    (1, None),
    (2, None),
    (3, Some(0)),
    (4, Some(1)),
    (5, Some(2)),
    (6, Some(3)),
    (7, Some(4)),
    (14, Some(11)),
];

#[test]
fn five_versions_of_a_key(rt: HostRuntime) -> Result<(), Fail> {
    let frozen = five_rounds(&rt, rt.alloc())?;
    for &(i, place) in &EARLIER {
        expect_earlier(&rt, &frozen, i, place);
    }
    for &(begin, place) in &[(0, 0), (1, 3), (10, 3), (11, 6), (40, 12), (41, 15)] {
        assert!(rt; frozen.first_after(begin) == place, "after {begin}");
    }
    Ok(())
}

/// Keys whose commits do not ascend.
static NO_ORDER: [(i64, i64, u64); 6] = [
    (7, 0, 5),
    (-3, 0, 6),
    (7, 0, 9),
    (7, 0, 4),
    (-3, 0, 8),
    (7, 0, 6),
];

#[test]
fn versions_before_have_ended(rt: HostRuntime) -> Result<(), Fail> {
    let frozen = filled(rt.alloc(), &NO_ORDER)?.freeze();
    for &(i, commit) in &[(0, 0), (1, 0), (2, 9), (3, 9), (4, 8), (5, 9)] {
        assert!(rt; i < frozen.len());
        assert!(rt; frozen.ended_by(i) == commit, "at {i}");
    }
    Ok(())
}

/// The version of a key of `of_keys` with this end.
fn parts(key: u16, end: Option<u64>) -> Parts {
    (i64::from(key), i64::from(key), u64::from(key) + 1, end)
}

/// That a share has the keys from 0 to `last`, none of them ended, and not the next one.
fn expect_share(rt: &impl Abort, share: &Frozen, last: u16) {
    let at = usize::from(last);
    assert!(rt; share.len() == at + 1 && share.ended() == 0);
    expect_version(rt, share, 0, parts(0, None));
    expect_version(rt, share, at, parts(last, None));
    let next = i64::from(last) + 1;
    expect_places(rt, share, &[(next - 1, Some(at)), (next, None)]);
}

/// That a store has the keys from 0 to `last`, of which the first and the last have ended, and the next one.
fn expect_owner(rt: &impl Abort, frozen: &Frozen, last: u16) {
    let at = usize::from(last);
    let next = i64::from(last) + 1;
    assert!(rt; frozen.len() == at + 2 && frozen.ended() == 2);
    expect_version(rt, frozen, at, parts(last, Some(9000)));
    expect_version(rt, frozen, at + 1, (next, next, 9001, None));
    expect_places(rt, frozen, &[(0, Some(0)), (next, Some(at + 1))]);
}

/// Ends the first and the last of the keys from 0 to `last`, and adds the next one.
fn go_on(rt: &impl Abort, alloc: Global, delta: &mut Delta, last: u16) -> Result<(), Memory> {
    for &key in &[0, i64::from(last)] {
        assert!(rt; end(delta, key, 9000)?);
    }
    let next = i64::from(last) + 1;
    put(delta, alloc, next, next, 9001)
}

/// That a share of the keys from 0 to `last` stays as it was while its store goes on, where the first and the last key end.
fn expect_share_stays(rt: &impl Abort, alloc: Global, last: u16) -> Result<(), Memory> {
    let mut delta = of_keys(alloc, last)?;
    let shared = delta.share()?;
    let again = delta.share()?;
    go_on(rt, alloc, &mut delta, last)?;
    expect_share(rt, &shared, last);
    expect_share(rt, &again, last);
    expect_owner(rt, &delta.freeze(), last);
    Ok(())
}

#[test]
fn chunk_edges(rt: HostRuntime) -> Result<(), Fail> {
    for &last in &[1, 1022, 1023, 1024, 2046, 2047, 2048] {
        expect_share_stays(&rt, rt.alloc(), last)?;
    }
    Ok(())
}

/// That a share has the keys from 0 to `last`, each in its place, of which the key 0 has ended where `end` says when.
fn expect_grown(rt: &impl Abort, share: &Frozen, last: u16, end: Option<u64>) {
    assert!(rt; share.len() == usize::from(last) + 1);
    expect_version(rt, share, 0, parts(0, end));
    for key in 1..=last {
        expect_version(rt, share, usize::from(key), parts(key, None));
    }
    let next = i64::from(last) + 1;
    expect_places(
        rt,
        share,
        &[(next - 1, Some(usize::from(last))), (next, None)],
    );
}

/// The shares of a store of the keys from 0 to `last`, to which another key came after each of them, and the store.
fn held_shares(
    rt: &impl Abort,
    alloc: Global,
    (first, last): (u16, u16),
) -> Result<(Vec<Frozen>, Delta), Memory> {
    assert!(rt; first < last);
    let mut delta = of_keys(alloc, first)?;
    let mut shares = Vec::new(alloc);
    for key in first + 1..=last {
        shares.push(delta.share()?)?;
        let number = i64::from(key);
        put(&mut delta, alloc, number, number, u64::from(key) + 1)?;
    }
    Ok((shares, delta))
}

/// First and last keys of stores that grow by a piece at each key after the first: by few pieces, across as many as a chunk has,
/// twice as many and more, and across the places at which a chunk is full.
static GROWTHS: [(u16, u16); 9] = [
    (0, 1),
    (0, 14),
    (3, 19),
    (0, 40),
    (500, 560),
    (1020, 1022),
    (1015, 1023),
    (1000, 1024),
    (1022, 1060),
];

/// That shares stay as they were while their store grows by a piece after each, and while the key 0 ends, which all of them have.
fn expect_shares_stay(rt: &impl Abort, alloc: Global, keys: (u16, u16)) -> Result<(), Memory> {
    let (first, last) = keys;
    let (shares, mut delta) = held_shares(rt, alloc, keys)?;
    assert!(rt; end(&mut delta, 0, 9000)?);
    for (share, key) in shares.iter().zip(first..last) {
        expect_grown(rt, share, key, None);
    }
    expect_grown(rt, &delta.share()?, last, Some(9000));
    expect_grown(rt, &delta.freeze(), last, Some(9000));
    Ok(())
}

#[test]
fn shared_chunks_grow(rt: HostRuntime) -> Result<(), Fail> {
    for &keys in &GROWTHS {
        expect_shares_stay(&rt, rt.alloc(), keys)?;
    }
    Ok(())
}

/// The key that comes at a place, the first 4,999 of them all different.
fn scattered(i: u16) -> i64 {
    i64::from(i) * 1789 % 4999
}

/// A store of 5,000 keys in no order, with the share after one of them; each key has its place in a share after so many of them.
fn scattered_keys(
    rt: &impl Abort,
    alloc: Global,
    every: u16,
    from: u16,
) -> Result<(Frozen, Frozen), Memory> {
    assert!(rt; every != 0);
    let mut delta = Delta::new(alloc);
    let mut held = Delta::new(alloc).freeze();
    for i in 0..5000u16 {
        put(&mut delta, alloc, scattered(i), i64::from(i), u64::from(i))?;
        if i % every == 0 {
            let shared = delta.share()?;
            expect_places(rt, &shared, &[(scattered(i), Some(usize::from(i)))]);
        }
        if i == from {
            held = delta.share()?;
        }
    }
    Ok((delta.freeze(), held))
}

/// That keys in no order have their places at the end, and that the share which is held from one key on stays as it was.
fn expect_scattered(rt: &impl Abort, frozen: &Frozen, held: &Frozen) {
    expect_places(rt, frozen, &[(0, Some(4999)), (-1, None), (4999, None)]);
    for i in 1..4999u16 {
        let place = usize::from(i);
        let key = Key(scattered(i));
        let then = if place < held.len() {
            Some(place)
        } else {
            None
        };
        assert!(rt; frozen.of_key(key) == Some(place), "at {i}");
        assert!(rt; held.of_key(key) == then, "held at {i}");
    }
}

#[test]
fn keys_in_no_order(rt: HostRuntime) -> Result<(), Fail> {
    for &(every, from) in &[(1, 2500), (7, 4), (1024, 1023), (5000, 4000)] {
        let (frozen, held) = scattered_keys(&rt, rt.alloc(), every, from)?;
        expect_scattered(&rt, &frozen, &held);
    }
    Ok(())
}

/// That the keys from `least` to `greatest` have their last versions at these places.
fn expect_newest(
    rt: &impl Abort,
    alloc: Global,
    frozen: &Frozen,
    (least, greatest): (i64, i64),
    expected: &[(i64, usize)],
) -> Result<(), Memory> {
    let newest = frozen.newest_between(alloc, Key(least), Key(greatest))?;
    assert!(rt; newest.len() == expected.len());
    for (found, (key, place)) in newest.iter().zip(expected) {
        assert!(rt; *found == (Key(*key), *place));
    }
    Ok(())
}

/// A store of four keys, which finds none between two keys that are turned round, whatever it has.
fn four_keys(rt: &impl Abort, alloc: Global) -> Result<Frozen, Memory> {
    let mut delta = Delta::new(alloc);
    for &(key, commit) in &[(7, 1), (-3, 2), (7, 4), (9, 5), (-3, 6), (7, 7)] {
        put(&mut delta, alloc, key, 0, commit)?;
        expect_newest(rt, alloc, &delta.share()?, (8, 6), &[])?;
    }
    assert!(rt; end(&mut delta, 9, 8)?);
    put(&mut delta, alloc, 20, 0, 9)?;
    Ok(delta.freeze())
}

/// Two keys, and the keys between them with the places of their last versions.
type Between = ((i64, i64), &'static [(i64, usize)]);

const ALL: &[(i64, usize)] = &[(-3, 4), (7, 5), (9, 3), (20, 6)];

static BETWEEN: [Between; 6] = [
    ((i64::MIN, i64::MAX), ALL),
    ((-3, 20), ALL),
    ((-2, 9), &[(7, 5), (9, 3)]),
    ((7, 7), &[(7, 5)]),
    ((10, 19), &[]),
    ((9, 8), &[]),
];

#[test]
fn keys_between(rt: HostRuntime) -> Result<(), Fail> {
    let alloc = rt.alloc();
    let frozen = four_keys(&rt, alloc)?;
    for &(bounds, expected) in &BETWEEN {
        expect_newest(&rt, alloc, &frozen, bounds, expected)?;
    }
    Ok(())
}
