use cs_base::{Items, Memory};
use cs_model::{Actor, GroupLine, GroupState};
use group_directory::Ledger;
use statement_core::Reorganizing;
use std::alloc::Global;
use std::process::Abort;
use std::test::Fail;

const INVISIBLE: GroupState = GroupState::Invisible;

const OPENED: GroupState = GroupState::Opened;

const CLOSED: GroupState = GroupState::Closed;

const COMPRESSED: GroupState = GroupState::Compressed;

const TOMBSTONE: GroupState = GroupState::Tombstone;

/// A ledger of groups in these states, with the ids from 1 on, of which actors hold some.
fn ledger(
    alloc: Global,
    states: &[GroupState],
    holders: &[(u64, Actor)],
) -> Result<Ledger, Memory> {
    let mut lines = Items::new(alloc);
    for i in 0..states.len() {
        lines.push(GroupLine {
            id: i as u64 + 1,
            state: states[i],
            total: 7,
            deleted: 0,
        })?;
    }
    let mut held = Items::new(alloc);
    for holder in holders {
        held.push(*holder)?;
    }
    Ok(Ledger {
        lines,
        buffered: 0,
        holders: held,
    })
}

/// That it may still make so many turns.
fn expect_turns(rt: &impl Abort, mut course: Reorganizing, turns: u32) {
    for _ in 0..turns {
        assert!(rt; course.may_turn());
        course.turned();
    }
    assert!(rt; !course.may_turn());
}

/// That what is left are these groups with these actors, in this order.
fn expect_left(rt: &impl Abort, left: &Items<(u64, Actor)>, expected: &[(u64, Actor)]) {
    assert!(rt; left.len() == expected.len());
    for (found, wanted) in left.as_slice().iter().zip(expected.iter()) {
        assert!(rt; found.0 == wanted.0 && found.1 == wanted.1);
    }
}

/// States of groups, and turns.
static TURNS: [(&[GroupState], u32); 8] = [
    (&[], 1),
    (&[OPENED], 4),
    (&[CLOSED], 4),
    (&[CLOSED, OPENED], 7),
    (&[INVISIBLE], 1),
    (&[TOMBSTONE, TOMBSTONE], 1),
    (&[TOMBSTONE, INVISIBLE, COMPRESSED, CLOSED, OPENED], 10),
    (&[COMPRESSED, COMPRESSED, COMPRESSED, COMPRESSED], 13),
];

/// That a course over groups in these states makes so many turns.
fn check_turns(
    rt: &impl Abort,
    alloc: Global,
    states: &[GroupState],
    turns: u32,
) -> Result<(), Memory> {
    let ledger = ledger(alloc, states, &[])?;
    let course = Reorganizing::new(alloc, true, &ledger)?;
    assert!(rt; course.closes());
    expect_turns(rt, course, turns);
    Ok(())
}

#[test]
fn turns_are_three_for_each_group_in_use_and_one(rt: HostRuntime) -> Result<(), Fail> {
    for (states, turns) in &TURNS {
        check_turns(&rt, rt.alloc(), states, *turns)?;
    }
    Ok(())
}

const MOVER: Actor = Actor::Mover(2);

const OTHER: Actor = Actor::Session(3);

const OWN: Actor = Actor::Session(2);

const STATES: &[GroupState] = &[
    CLOSED, COMPRESSED, CLOSED, TOMBSTONE, INVISIBLE, OPENED, CLOSED,
];

/// The store that it closed, who holds which at its last look, and what is left.
type Left = (
    Option<u64>,
    &'static [(u64, Actor)],
    &'static [(u64, Actor)],
);

static LEFT: [Left; 7] = [
    (None, &[], &[]),
    (None, &[(3, MOVER)], &[(3, MOVER)]),
    (None, &[(3, OWN)], &[]),
    (None, &[(2, MOVER), (6, OTHER), (8, OTHER)], &[]),
    (Some(6), &[(6, OTHER)], &[(6, OTHER)]),
    (
        None,
        &[(7, MOVER), (3, OWN), (1, OTHER), (2, MOVER)],
        &[(1, OTHER), (7, MOVER)],
    ),
    (
        Some(6),
        &[(7, MOVER), (6, Actor::Mover(1)), (1, OTHER), (3, MOVER)],
        &[(1, OTHER), (3, MOVER), (6, Actor::Mover(1)), (7, MOVER)],
    ),
];

/// A course that has closed a store, where there is one.
fn course_of(alloc: Global, closed: Option<u64>) -> Result<Reorganizing, Memory> {
    let start = ledger(alloc, STATES, &[])?;
    let mut course = Reorganizing::new(alloc, closed.is_some(), &start)?;
    if let Some(id) = closed {
        course.closed(id)?;
    }
    Ok(course)
}

/// What a course of session 2 leaves where these actors hold groups.
fn left_of(
    alloc: Global,
    course: &Reorganizing,
    holders: &[(u64, Actor)],
) -> Result<Items<(u64, Actor)>, Memory> {
    let last = ledger(alloc, &[], holders)?;
    course.left(alloc, 2, &last)
}

/// That a case leaves these groups.
fn check_left(rt: &impl Abort, alloc: Global, case: &Left) -> Result<(), Memory> {
    let (closed, holders, expected) = *case;
    let course = course_of(alloc, closed)?;
    let left = left_of(alloc, &course, holders)?;
    expect_left(rt, &left, expected);
    assert!(rt; course.closes() == closed.is_some());
    Ok(())
}

#[test]
fn what_other_actors_hold_is_left(rt: HostRuntime) -> Result<(), Fail> {
    for case in &LEFT {
        check_left(&rt, rt.alloc(), case)?;
    }
    Ok(())
}
