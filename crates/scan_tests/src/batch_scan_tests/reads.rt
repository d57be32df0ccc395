// What scans give, against a look at each version and the truth of its row.
ghost use Rattle.std.specs.Prelude.{◌≡◌, ◌<◌, ◌≤◌, length, All};
ghost use Rattle.group_view.specs.Parts.{IsFitting};

use super::columns::{CASES, Case};
use super::forms::preds_of;
use super::views::{Setting, packed_of, pinned_of};
use crate::made::table;
use batch_filter::filter_codes;
use batch_scan::{is_skipped, own_rows, scan, sieve_of};
use cs_base::Memory;
use cs_model::{Pred, Truth};
use cs_predicate::truth;
use cs_types::{Row, Schema};
use delete_bitmap::Marks;
use delta_store::Frozen;
use group_view::{GroupRef, Lived, Pinned, stamp_of};
use row_group::Packed;
use std::alloc::Global;
use std::process::Abort;
use std::test::Fail;

/// Whether a statement reads a version.
fn is_read(pinned: &Pinned, version: Lived) -> bool {
    let seen = version.is_visible(pinned.view.buffer(), pinned.snapshot);
    seen && pinned.own.find(version.key).is_none()
}

/// Adds the rows of a packed group that a statement reads.
fn add_packed(
    pinned: &Pinned,
    packed: &Packed,
    marks: &Marks,
    rows: &mut Vec<Row>,
) -> Result<(), Memory> {
    for position in 0..packed.len() {
        let version = Lived {
            key: packed.key_at(position),
            begin: packed.begin(position),
            end: marks.end(position),
        };
        if is_read(pinned, version) {
            rows.push(packed.row(position)?)?;
        }
    }
    Ok(())
}

/// Adds the rows of a store that a statement reads.
fn add_stored(pinned: &Pinned, store: &Frozen, rows: &mut Vec<Row>) -> Result<(), Memory> {
    for place in 0..store.len() {
        let stored = store.get(place);
        let version = Lived {
            key: store.key(place),
            begin: stored.begin,
            end: stamp_of(stored.end),
        };
        if is_read(pinned, version) {
            rows.push(stored.row.copy()?)?;
        }
    }
    Ok(())
}

/// The rows that a statement reads of the groups.
fn rows_read(alloc: Global, pinned: &Pinned) -> Result<Vec<Row>, Memory> {
    let mut rows = Vec::new(alloc);
    for group in 0..pinned.view.len() {
        match pinned.view.group(group) {
            GroupRef::Packed(packed, marks) => add_packed(pinned, packed, marks, &mut rows)?,
            GroupRef::Store(store) => add_stored(pinned, store, &mut rows)?,
        }
    }
    Ok(rows)
}

/// The rows of the own writes.
fn rows_written(alloc: Global, pinned: &Pinned) -> Result<Vec<Row>, Memory> {
    let mut rows = Vec::new(alloc);
    for i in 0..pinned.own.len() {
        if let Some(row) = &pinned.own.get(i).row {
            rows.push(row.copy()?)?;
        }
    }
    Ok(rows)
}

/// These rows are those of the others on which a predicate is True.
fn check_kept(rt: &impl Abort, schema: &Schema, pred: &Pred, found: &[Row], rows: &[Row]) {
    let mut left = found.iter();
    for row in rows {
        if truth(pred, row, schema) == Truth::True {
            assert!(rt; left.next() == Some(row), "by {pred:?}");
        }
    }
    assert!(rt; left.next().is_none(), "one more by {pred:?}");
}

/// The verdicts of a predicate on a packed group from one of its rows on are its truths, and False past the last row.
fn check_batch(
    rt: &impl Abort,
    alloc: Global,
    schema: &Schema,
    pred: &Pred,
    packed: &Packed,
    rows: &[Row],
    from: usize,
) -> Result<(), Memory>
    requires { from ≤ length rows.now }
{
    let mut mask = [true; 1024];
    filter_codes(alloc, pred, packed, schema, from, &mut mask)?;
    let left = &rows[from..];
    for (place, verdict) in mask.iter().enumerate() {
        let holds = match left.get(place) {
            Some(row) => truth(pred, row, schema) == Truth::True,
            None => false,
        };
        assert!(rt; *verdict == holds, "{pred:?} at {place} from {from}");
    }
    Ok(())
}

/// The verdicts of a predicate over a packed group are its truths, and where it skips the group it is True of none of the rows.
fn check_verdicts(
    rt: &impl Abort,
    alloc: Global,
    schema: &Schema,
    pred: &Pred,
    packed: &Packed,
    rows: &[Row],
) -> Result<(), Memory> {
    let sieve = sieve_of(alloc, Some(pred), packed, schema)?;
    assert!(rt; sieve.is_some());
    let sieve = sieve.unwrap();
    let skipped = is_skipped(schema, Some(pred), packed);
    for (position, row) in rows.iter().enumerate() {
        let holds = truth(pred, row, schema) == Truth::True;
        assert!(rt; sieve.has(position) == holds, "{pred:?} at {position}");
        assert!(rt; !(holds && skipped), "{pred:?} skips {position}");
    }
    check_batch(rt, alloc, schema, pred, packed, rows, 0)?;
    check_batch(
        rt,
        alloc,
        schema,
        pred,
        packed,
        rows,
        rows.len().saturating_sub(1),
    )
}

/// The rows of a packed group.
fn rows_of(alloc: Global, packed: &Packed) -> Result<Vec<Row>, Memory> {
    let mut rows = Vec::new(alloc);
    for position in 0..packed.len() {
        rows.push(packed.row(position)?)?;
    }
    Ok(rows)
}

/// From so many rows on each case is kept in its encoding.
const MANY: u16 = 400;

/// Of how many predicates one is taken over a packed group of so many rows.
fn one_in(count: u16) -> usize
    ensures { 0 < result }
{
    if count <= MANY { 1 } else { 7 }
}

/// The same of these predicates over the group of so many rows of a case.
fn check_group(
    rt: &impl Abort,
    alloc: Global,
    case: &Case,
    preds: &[Pred],
    count: u16,
) -> Result<(), Memory> {
    assert!(rt; case.kind.is_valid());
    let schema = table(alloc, case.kind)?;
    let packed = packed_of(rt, alloc, case, count, &[])?;
    assert!(rt; packed.is_some());
    let packed = packed.unwrap();
    assert!(rt; packed.width() == 2);
    let encoding = packed.segment(1).encoding();
    assert!(rt;
        count < MANY || encoding == case.encoding,
        "in {encoding:?}"
    );
    let rows = rows_of(alloc, &packed)?;
    for (place, pred) in preds.iter().enumerate() {
        if place % one_in(count) == 0 {
            check_verdicts(rt, alloc, &schema, pred, &packed, &rows)?;
        }
    }
    Ok(())
}

/// What is read of a view with a predicate is what is read by rows.
fn check_reads(
    rt: &impl Abort,
    alloc: Global,
    schema: &Schema,
    pinned: &Pinned,
    pred: &Pred,
    rows: &[Row],
    written: &[Row],
) -> Result<(), Memory>
    requires { All (λ group. IsFitting group.1) pinned.now.view.groups }
{
    let found = scan(alloc, pinned, Some(pred), schema, 0, pinned.view.len())?;
    check_kept(rt, schema, pred, &found.rows, rows);
    assert!(rt; matches!((found.read, found.skipped), (1, 0) | (0, 1)));
    let own = own_rows(alloc, pinned, Some(pred), schema)?;
    check_kept(rt, schema, pred, &own, written);
    Ok(())
}

/// What is read of a view without a predicate is what is read by rows.
fn check_all(
    rt: &impl Abort,
    alloc: Global,
    schema: &Schema,
    pinned: &Pinned,
    rows: &[Row],
) -> Result<(), Memory>
    requires groups { length pinned.now.view.groups ≡ 2 }
    requires fitting { All (λ group. IsFitting group.1) pinned.now.view.groups }
{
    let all = scan(alloc, pinned, None, schema, 0, 2)?;
    assert!(rt; all.rows.as_slice() == rows);
    assert!(rt; all.read == 1 && all.skipped == 0);
    Ok(())
}

/// What is read of a view in a setting, with these predicates and without one; how many rows that is without one.
fn check(
    rt: &impl Abort,
    alloc: Global,
    case: &Case,
    preds: &[Pred],
    count: u16,
    setting: &Setting,
) -> Result<usize, Memory> {
    assert!(rt; case.kind.is_valid());
    let schema = table(alloc, case.kind)?;
    let pinned = pinned_of(rt, alloc, case, count, setting)?;
    let rows = rows_read(alloc, &pinned)?;
    let written = rows_written(alloc, &pinned)?;
    check_all(rt, alloc, &schema, &pinned, &rows)?;
    for (place, pred) in preds.iter().enumerate() {
        if place % one_in(count) == 0 {
            check_reads(rt, alloc, &schema, &pinned, pred, &rows, &written)?;
        }
    }
    Ok(rows.len())
}

/// All versions are read.
const EVERY: Setting = Setting {
    begins: &[5],
    ends: &[],
    entries: &[],
    own: &[],
    snapshot: 7,
};

/// Ends below, at and above the snapshot, late begins and own writes, all together.
const MIXED: Setting = Setting {
    begins: &[5, 6, 5, 7, 8],
    ends: &[0, 0, 6, 0, 0, 8, 0, 0, 0, 7, 5],
    entries: &[0, 0, 0, 6, 0, 7, 8],
    own: &[0, 0, 0, 0, 1, 2, 0, 0, 0],
    snapshot: 7,
};

/// One thing after another, with the rows that are read of a packed group of 400 and of the store.
static SETTINGS: [(Setting, usize); 7] = [
    (EVERY, 403),
    (
        Setting {
            snapshot: 4,
            ..EVERY
        },
        0,
    ),
    (
        Setting {
            ends: &[0, 5, 0, 6, 0, 7, 8],
            ..EVERY
        },
        232,
    ),
    (
        Setting {
            begins: &[5, 6, 7, 8],
            ..EVERY
        },
        303,
    ),
    (
        Setting {
            begins: &[5, 6, 7, 8],
            snapshot: 5,
            ..EVERY
        },
        102,
    ),
    (
        Setting {
            entries: &[0, 6, 0, 7, 0, 8],
            ..EVERY
        },
        269,
    ),
    (
        Setting {
            own: &[0, 1, 0, 2],
            ..EVERY
        },
        202,
    ),
];

static COUNTS: [u16; 6] = [1, 63, MANY, 1_023, 1_024, 1_025];

#[test]
fn verdicts_are_truths(rt: HostRuntime) -> Result<(), Fail> {
    let alloc = rt.alloc();
    for case in &CASES {
        let preds = preds_of(alloc, case)?;
        for &count in &COUNTS {
            check_group(&rt, alloc, case, &preds, count)?;
        }
    }
    Ok(())
}

#[test]
fn scans_give_the_rows_that_are_read(rt: HostRuntime) -> Result<(), Fail> {
    let alloc = rt.alloc();
    for case in &CASES {
        let preds = preds_of(alloc, case)?;
        for &(setting, read) in &SETTINGS {
            let found = check(&rt, alloc, case, &preds, MANY, &setting)?;
            let kind = case.kind;
            assert!(rt; found == read, "{found} of {kind:?} for {read}");
        }
    }
    Ok(())
}

#[test]
fn scans_give_rows_of_each_batch(rt: HostRuntime) -> Result<(), Fail> {
    let alloc = rt.alloc();
    for case in &CASES {
        let preds = preds_of(alloc, case)?;
        for &count in &COUNTS {
            let _read = check(&rt, alloc, case, &preds, count, &MIXED)?;
        }
    }
    Ok(())
}
