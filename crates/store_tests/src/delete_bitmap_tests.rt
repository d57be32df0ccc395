use cs_base::Memory;
use delete_bitmap::{MarkedEnd, Marks, Positions};
use std::alloc::Global;
use std::process::Abort;
use std::test::Fail;

/// Ends the version at a position that is there and has no end.
fn mark(marks: &mut Marks, position: usize, commit: u64) -> Result<(), Memory> {
    if position < marks.len() && marks.end(position) == None {
        marks.mark(position, commit)?;
    }
    Ok(())
}

/// Marks of this many versions of which these are ended at these commits.
fn marked(alloc: Global, length: usize, ends: &[(usize, u64)]) -> Result<Marks, Memory> {
    let mut marks = Marks::new(alloc, length)?;
    for (position, commit) in ends {
        mark(&mut marks, *position, *commit)?;
    }
    Ok(marks)
}

/// That the ends of these positions are these.
fn expect_ends(rt: &impl Abort, marks: &Marks, expected: &[(usize, Option<MarkedEnd>)]) {
    for (position, end) in expected {
        assert!(rt; marks.end(*position) == *end);
    }
}

/// The ends of five versions, of which those that come again or are not there change nothing.
static GIVEN: [(usize, u64); 5] = [(3, 7), (0, 9), (4, 8), (3, 1), (5, 1)];

#[test]
fn ends_are_counted(rt: HostRuntime) -> Result<(), Fail> {
    let mut marks = marked(rt.alloc(), 5, &GIVEN)?;
    for &(floor, removable) in &[(6, 0), (7, 1), (8, 2), (9, 3)] {
        assert!(rt; marks.removable(floor) == removable, "at {floor}");
    }
    for &(floor, settled) in &[(6, 0), (7, 1), (8, 1), (8, 0), (20, 1)] {
        assert!(rt; marks.settle(floor) == settled, "at {floor}");
    }
    assert!(rt; marks.count() == 3 && marks.removable(0) == 3);
    Ok(())
}

const LAST: Option<MarkedEnd> = Some(MarkedEnd::Stamped(9));

const PLAIN: Option<MarkedEnd> = Some(MarkedEnd::Plain);

/// The ends of those versions once they are settled at commit 7, and at commit 8.
static AT_SEVEN: [(usize, Option<MarkedEnd>); 5] = [
    (0, LAST),
    (1, None),
    (3, PLAIN),
    (4, Some(MarkedEnd::Stamped(8))),
    (5, None),
];

static AT_EIGHT: [(usize, Option<MarkedEnd>); 5] = [
    (0, LAST),
    (1, None),
    (3, PLAIN),
    (4, PLAIN),
    (5, None),
];

#[test]
fn a_copy_keeps_its_ends(rt: HostRuntime) -> Result<(), Fail> {
    let mut marks = marked(rt.alloc(), 5, &GIVEN)?;
    marks.settle(7);
    let copy = marks.copy()?;
    marks.settle(8);
    expect_ends(&rt, &copy, &AT_SEVEN);
    expect_ends(&rt, &marks, &AT_EIGHT);
    Ok(())
}

/// Ends two versions at one commit, where the first position is smaller, both are there and neither has an end.
fn mark_two(marks: &mut Marks, first: usize, second: usize, commit: u64) -> Result<bool, Memory> {
    if first >= second || second >= marks.len() {
        return Ok(false);
    }
    if marks.end(first) != None || marks.end(second) != None {
        return Ok(false);
    }
    marks.mark_all(&[first, second], commit)?;
    Ok(true)
}

/// Ends two versions, each at its own commit, where the first position is smaller, both are there and neither has an end.
fn mark_pair(marks: &mut Marks, first: (usize, u64), second: (usize, u64)) -> Result<bool, Memory> {
    if first.0 >= second.0 || second.0 >= marks.len() {
        return Ok(false);
    }
    if marks.end(first.0) != None || marks.end(second.0) != None {
        return Ok(false);
    }
    marks.mark_each(&[first, second])?;
    Ok(true)
}

/// The positions that have ended for a snapshot, of which position 1 was taken before where there is one.
fn ended_at(alloc: Global, marks: &Marks, s: u64) -> Result<Positions, Memory> {
    let mut positions = Positions::none(alloc, marks.len());
    if positions.len() > 1 {
        positions.insert(1)?;
    }
    if positions.len() == marks.len() {
        marks.take_ended(s, &mut positions)?;
    }
    Ok(positions)
}

/// Two positions, the commit that ends both, and whether it does.
static TWOS: [(usize, usize, u64, bool); 3] = [(2, 3, 7, true), (3, 5, 8, false), (1, 5, 9, true)];

static AFTER_TWOS: [(usize, u64); 6] = [(0, 3), (1, 9), (2, 7), (3, 7), (4, 2), (5, 9)];

#[test]
fn batches_are_marked(rt: HostRuntime) -> Result<(), Fail> {
    let mut marks = marked(rt.alloc(), 6, &[(4, 2), (0, 3)])?;
    for &(first, second, commit, taken) in &TWOS {
        assert!(rt;
            mark_two(&mut marks, first, second, commit)? == taken,
            "at {commit}"
        );
    }
    assert!(rt; marks.stamps() == AFTER_TWOS.as_slice());
    assert!(rt; marks.count() == 6 && marks.settle(3) == 2 && marks.stamps().len() == 4);
    Ok(())
}

/// Two positions with their commits, and whether they end.
static PAIRS: [((usize, u64), (usize, u64), bool); 4] = [
    ((64, 7), (65, 3), true),
    ((62, 4), (129, 5), true),
    ((0, 4), (129, 6), false),
    ((1, 4), (130, 6), false),
];

static AFTER_PAIRS: [(usize, u64); 6] = [(62, 4), (63, 2), (64, 7), (65, 3), (128, 9), (129, 5)];

#[test]
fn batches_keep_their_commits(rt: HostRuntime) -> Result<(), Fail> {
    let mut marks = marked(rt.alloc(), 130, &[(63, 2), (128, 9)])?;
    for &(first, second, taken) in &PAIRS {
        assert!(rt; mark_pair(&mut marks, first, second)? == taken);
    }
    assert!(rt; marks.stamps() == AFTER_PAIRS.as_slice());
    assert!(rt; marks.count() == 6 && marks.settle(4) == 3 && marks.stamps().len() == 3);
    Ok(())
}

/// Of a length all positions but 3 and those from 64 up to 128: words with some bits set, with none and with all.
fn spotted(alloc: Global, length: usize) -> Result<Positions, Memory> {
    let mut positions = Positions::all(alloc, length)?;
    for position in 63..128 {
        let out = if position == 63 { 3 } else { position };
        if out < positions.len() {
            positions.remove(out);
        }
    }
    Ok(positions)
}

/// The complement of that set has exactly the other positions.
fn check_complement(rt: &impl Abort, alloc: Global, length: usize) -> Result<(), Memory> {
    let before = spotted(alloc, length)?;
    let mut after = before.copy()?;
    after.complement()?;
    let mut none = Positions::none(alloc, length);
    none.complement()?;
    for &position in &[0, 3, 62, 63, 64, 127, 128, 1023, 1024, 1025] {
        let below = position < length;
        let complement = below && !before.contains(position);
        assert!(rt;
            after.contains(position) == complement,
            "{position} of {length}"
        );
        assert!(rt; none.contains(position) == below);
    }
    Ok(())
}

#[test]
fn sets_have_complements(rt: HostRuntime) -> Result<(), Fail> {
    for &length in &[0, 1, 64, 65, 1024, 1025] {
        check_complement(&rt, rt.alloc(), length)?;
    }
    Ok(())
}

/// A mask of that set has exactly its positions.
fn check_mask(rt: &impl Abort, positions: &Positions, length: usize, from: usize, count: usize) {
    if count > 1024 {
        return;
    }
    let mut mask = [true; 1024];
    positions.put_mask(from, count, &mut mask);
    for i in 0..1024 {
        let place = from.saturating_add(i);
        let inside = place < length && place != 3 && (place < 64 || place >= 128);
        assert!(rt;
            mask[i] == (i < count && inside),
            "{i} of {count} from {from}"
        );
    }
}

/// Masks from places beside the edges of words, of counts beside them.
fn check_masks(rt: &impl Abort, positions: &Positions, length: usize) {
    for &from in &[0, 1, 63, 64, 1000, usize::MAX] {
        for &count in &[0, 1, 63, 64, 65, 1023, 1024] {
            check_mask(rt, positions, length, from, count);
        }
    }
}

#[test]
fn masks_are_put(rt: HostRuntime) -> Result<(), Fail> {
    for &length in &[0, 1, 64, 65, 1024, 1025] {
        let positions = spotted(rt.alloc(), length)?;
        check_masks(&rt, &positions, length);
    }
    Ok(())
}

/// Of so many versions the first and the last are taken once they have ended, and no other but position 1, which was there.
fn check_taken(rt: &impl Abort, positions: &Positions, length: usize, ended: bool) {
    let last = length.saturating_sub(1);
    assert!(rt; positions.contains(0) == ended, "of {length}");
    assert!(rt;
        positions.contains(last) == (ended || length == 2),
        "of {length}"
    );
    assert!(rt; positions.contains(1) == (length > 1), "of {length}");
    assert!(rt;
        positions.contains(length / 2) == (length == 2),
        "of {length}"
    );
    assert!(rt; !positions.contains(length), "of {length}");
}

/// The same at snapshots below, at and above the commit that ends them, and where the ends are plain.
fn check_ended(rt: &impl Abort, alloc: Global, length: usize) -> Result<(), Memory> {
    let mut marks = Marks::new(alloc, length)?;
    let two = mark_two(&mut marks, 0, length.saturating_sub(1), 5)?;
    assert!(rt; two == (length > 1), "of {length}");
    for &s in &[4, 5, 6] {
        let positions = ended_at(alloc, &marks, s)?;
        check_taken(rt, &positions, length, two && s > 4);
    }
    marks.settle(5);
    check_taken(rt, &ended_at(alloc, &marks, 0)?, length, two);
    Ok(())
}

#[test]
fn the_ended_are_taken(rt: HostRuntime) -> Result<(), Fail> {
    for &length in &[0, 1, 2, 63, 64, 65, 1_000_000] {
        check_ended(&rt, rt.alloc(), length)?;
    }
    Ok(())
}

/// The numbers of versions, of ends, of those that are removable at floor 5, and of those that a settling at floor 5 changes, where
/// the first and the last version are ended at 5 and 6.
fn first_and_last(alloc: Global, length: usize) -> Result<(usize, u64, u64, u64), Memory> {
    let mut marks = marked(alloc, length, &[(length.saturating_sub(1), 6), (0, 5)])?;
    let removable = marks.removable(5);
    Ok((marks.len(), marks.count(), removable, marks.settle(5)))
}

#[test]
fn ends_stand_at_the_edges_of_words(rt: HostRuntime) -> Result<(), Fail> {
    for &counts in &[
        (0, 0, 0, 0),
        (1, 1, 0, 0),
        (63, 2, 1, 1),
        (64, 2, 1, 1),
        (65, 2, 1, 1),
    ] {
        assert!(rt;
            first_and_last(rt.alloc(), counts.0)? == counts,
            "{counts:?}"
        );
    }
    Ok(())
}

/// The ends of 65 versions beside the edge of a word.
static AT_EDGE: [(usize, Option<MarkedEnd>); 5] = [
    (0, None),
    (62, None),
    (63, Some(MarkedEnd::Stamped(1))),
    (64, Some(MarkedEnd::Stamped(2))),
    (65, None),
];

#[test]
fn ends_stand_beside_the_edge_of_a_word(rt: HostRuntime) -> Result<(), Fail> {
    let marks = marked(rt.alloc(), 65, &[(63, 1), (64, 2)])?;
    expect_ends(&rt, &marks, &AT_EDGE);
    Ok(())
}
