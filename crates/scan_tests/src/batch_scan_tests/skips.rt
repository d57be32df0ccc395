// Which packed groups are skipped: where the least and the greatest cell, and whether one is NULL, tell that no row is kept.

use super::columns::CASES;
use super::forms::Form::{Among, Beside, Between, Compare, IsNull, Turned};
use super::forms::{Form, Joint, joined};
use super::views::packed_of;
use crate::made::table;
use batch_scan::is_skipped;
use cs_base::Memory;
use cs_model::Relation::{Equal, Greater, GreaterEqual, Less, LessEqual, NotEqual};
use std::alloc::Global;
use std::process::Abort;
use std::test::Fail;

/// The place of a case of 3, 5, 7, 9 and NULL, with the constants 2, 3, 6, 9, 10, 5.5 and 5.00, and NULL past them.
const ODD: usize = 1;

/// The place of a case of 0, 1 and 255.
const NEVER_NULL: usize = 2;

/// The place of a case of NULLs alone, with the constant 0.
const ALWAYS_NULL: usize = 9;

/// A case, how two forms over it are joined, and whether a group of it is skipped.
type Skip = (usize, Joint, Form, Form, bool);

static ALONE: [(usize, Form, bool); 45] = [
    (ODD, Compare(Equal, 0), true),
    (ODD, Compare(Equal, 1), false),
    (ODD, Compare(Equal, 2), false),
    (ODD, Compare(Equal, 3), false),
    (ODD, Compare(Equal, 4), true),
    (ODD, Compare(Equal, 5), false),
    (ODD, Compare(Equal, 7), true),
    (ODD, Compare(NotEqual, 0), false),
    (ODD, Compare(NotEqual, 1), false),
    (ODD, Compare(NotEqual, 3), false),
    (ODD, Compare(NotEqual, 7), true),
    (ODD, Compare(Less, 1), true),
    (ODD, Compare(Less, 2), false),
    (ODD, Compare(LessEqual, 0), true),
    (ODD, Compare(LessEqual, 1), false),
    (ODD, Compare(Greater, 2), false),
    (ODD, Compare(Greater, 3), true),
    (ODD, Compare(GreaterEqual, 3), false),
    (ODD, Compare(GreaterEqual, 4), true),
    (ODD, Turned(Equal, 0), true),
    (ODD, Turned(Less, 2), false),
    (ODD, Turned(Less, 3), true),
    (ODD, Turned(LessEqual, 3), false),
    (ODD, Turned(Greater, 1), true),
    (ODD, Turned(GreaterEqual, 1), false),
    (ODD, Between(false, 0, 0), true),
    (ODD, Between(false, 0, 1), false),
    (ODD, Between(false, 3, 4), false),
    (ODD, Between(false, 4, 0), true),
    (ODD, Between(false, 3, 1), false),
    (ODD, Between(false, 1, 7), true),
    (ODD, Between(true, 0, 4), false),
    (ODD, Among(false, 0, 4), true),
    (ODD, Among(false, 0, 3), false),
    (ODD, Among(true, 1, 3), false),
    (ODD, IsNull(false), false),
    (ODD, IsNull(true), false),
    (ODD, Beside(Equal), false),
    (NEVER_NULL, IsNull(false), true),
    (NEVER_NULL, IsNull(true), false),
    (ALWAYS_NULL, IsNull(false), false),
    (ALWAYS_NULL, IsNull(true), true),
    (ALWAYS_NULL, Compare(Equal, 0), true),
    (ALWAYS_NULL, Compare(NotEqual, 0), true),
    (ALWAYS_NULL, Between(true, 0, 0), false),
];

static JOINED: [Skip; 8] = [
    (ODD, Joint::And, Compare(Equal, 0), Compare(Equal, 1), true),
    (
        ODD,
        Joint::And,
        Compare(Equal, 1),
        Compare(Greater, 3),
        true,
    ),
    (ODD, Joint::And, Compare(Equal, 1), Compare(Equal, 3), false),
    (ODD, Joint::Or, Compare(Equal, 0), Compare(Equal, 4), true),
    (ODD, Joint::Or, Compare(Equal, 0), Compare(Equal, 1), false),
    (
        ODD,
        Joint::Not,
        Compare(GreaterEqual, 0),
        IsNull(true),
        false,
    ),
    (ODD, Joint::NotOr, Compare(Less, 2), IsNull(false), false),
    (
        NEVER_NULL,
        Joint::And,
        IsNull(false),
        Compare(Equal, 1),
        true,
    ),
];

/// That a group of a case is skipped, or that it is not.
fn check_skip(rt: &impl Abort, alloc: Global, skip: Skip) -> Result<(), Memory> {
    let (place, joint, first, second, skipped) = skip;
    assert!(rt; place < CASES.len());
    let case = CASES[place];
    assert!(rt; case.kind.is_valid());
    let schema = table(alloc, case.kind)?;
    let packed = packed_of(rt, alloc, &case, 20, &[])?;
    assert!(rt; packed.is_some());
    let pred = joined(alloc, &case, joint, first, second)?;
    let is_skipped = is_skipped(&schema, Some(&pred), &packed.unwrap());
    assert!(rt; is_skipped == skipped, "{pred:?}");
    Ok(())
}

#[test]
fn groups_are_skipped_by_their_bounds(rt: HostRuntime) -> Result<(), Fail> {
    for &(case, form, skipped) in &ALONE {
        check_skip(&rt, rt.alloc(), (case, Joint::First, form, form, skipped))?;
    }
    Ok(())
}

#[test]
fn groups_are_skipped_by_their_parts(rt: HostRuntime) -> Result<(), Fail> {
    for &skip in &JOINED {
        check_skip(&rt, rt.alloc(), skip)?;
    }
    Ok(())
}
