// The desk of the program.
ghost use Rattle.std.specs.Prelude.{◌≡◌, ◌≤◌, IfSome, IsSome, Some};
ghost use Rattle.cs_model.specs.declared.entry.Bound.TheVariants as bound;
ghost use Rattle.log_laws.specs.Started.{Begun};
ghost use Rattle.statement_core.specs.Counted.{AreCountsOf};
ghost use Rattle.statement_core.specs.Outcomes.{GivesOn};
ghost use Rattle.statement_core.specs.Terms.{sizes_of, AreTerms};
ghost use Rattle.statement_work.specs.Clerks.{IsBegun};

use crate::turn::NoTurn;
use crate::workers::answer;
use crate::writes::{changed, packed, refused, valued, written};
use batch_compute::series_len;
use cs_base::Memory;
use cs_model::{AnswerRefusal, Bound, InsertPlan, Pred, Query, Reply, UpdatePlan};
use group_view::{Claim, Pinned, Product};
use row_work::{deleted, inserted, loaded, updated};
use statement_core::{Desk, Outcome, Started};
use std::alloc::Global;
use std::sync::Wait;
use std::thread::Threads;
use tuple_mover::{parcel_of, work};

/// Who does the work of statements over what was pinned, and the work of movers. Each of its scans has so many workers. It keeps
/// nothing between two calls.
#[derive(Drop)]
pub struct Clerk {
    workers: u32,
    ghost in_range: { (1 ≤ workers) × (workers ≤ 16) },
}

impl Clerk {
    /// The desk of the program, with so many workers for a scan, 1 to 16.
    pub fn new(workers: u32) -> Clerk
        requires { (1 ≤ workers) × (workers ≤ 16) }
        ensures { result.workers ≡ workers }
    {
        Clerk { workers }
    }
}

/// What is pinned for a statement of the table.
fn pinned_of(started: &Started) -> &Pinned
    requires { IsSome started.now.pinned }
    ensures { started.now.pinned ≡ Some result.now }
{
    match &started.pinned {
        Some(pinned) => pinned,
        None => unreachable!(),
    }
}

/// Whether an INSERT is over a series of at least so many numbers.
fn has_series(plan: &InsertPlan, least: u64) -> bool {
    match plan.series {
        Some((start, stop)) => series_len(start, stop) >= least as u128,
        None => false,
    }
}

/// The outcome of an INSERT by columns, where its transaction ends with it and it is over a series from which rows load directly. None
/// where its rows are not had so, or one of them is not put at a new key.
fn insert_columns(alloc: Global, started: &Started, plan: &InsertPlan) -> Option<Outcome>
    requires terms { AreTerms started.now.terms.value }
    requires begun { (begun : Begun) × IsBegun begun started.now (bound.Insert plan.now) }
    ensures counted { IfSome result (AreCountsOf started.now) }
    ensures gives { IfSome result (λ outcome. (begun : Begun) → IsBegun begun started.now (bound.Insert plan.now) → GivesOn (sizes_of started.now.terms.value) begun outcome) }
{
    let terms = &*started.terms;
    if !started.implicit || !has_series(plan, terms.direct_rows) {
        return None;
    }
    match loaded(alloc, &terms.schema, plan, pinned_of(started)) {
        Ok(Some(rows)) => Some(packed(alloc, terms, rows)),
        Ok(None) => None,
        Err(Memory) => Some(Outcome::Short),
    }
}

/// The outcome of an INSERT, row by row.
fn insert_rows(alloc: Global, started: &Started, plan: &InsertPlan) -> Outcome
    requires terms { AreTerms started.now.terms.value }
    requires begun { (begun : Begun) × IsBegun begun started.now (bound.Insert plan.now) }
    ensures counted { AreCountsOf started.now result }
    ensures gives { (begun : Begun) → IsBegun begun started.now (bound.Insert plan.now) → GivesOn (sizes_of started.now.terms.value) begun result }
{
    let terms = &*started.terms;
    match inserted(alloc, &terms.schema, plan, pinned_of(started)) {
        Ok(rows) => written(alloc, terms, started.implicit, rows),
        Err(refusal) => refused(refusal),
    }
}

/// The outcome of an INSERT, by columns where they are had.
fn insert(alloc: Global, started: &Started, plan: &InsertPlan) -> Outcome
    requires terms { AreTerms started.now.terms.value }
    requires begun { (begun : Begun) × IsBegun begun started.now (bound.Insert plan.now) }
    ensures counted { AreCountsOf started.now result }
    ensures gives { (begun : Begun) → IsBegun begun started.now (bound.Insert plan.now) → GivesOn (sizes_of started.now.terms.value) begun result }
{
    match insert_columns(alloc, started, plan) {
        Some(outcome) => outcome,
        None => insert_rows(alloc, started, plan),
    }
}

/// The outcome of an UPDATE.
fn update(alloc: Global, started: &Started, plan: &UpdatePlan) -> Outcome
    requires terms { AreTerms started.now.terms.value }
    requires begun { (begun : Begun) × IsBegun begun started.now (bound.Update plan.now) }
    ensures counted { AreCountsOf started.now result }
    ensures gives { (begun : Begun) → IsBegun begun started.now (bound.Update plan.now) → GivesOn (sizes_of started.now.terms.value) begun result }
{
    let terms = &*started.terms;
    match updated(alloc, &terms.schema, plan, pinned_of(started)) {
        Ok(writes) => changed(alloc, terms, started.implicit, writes),
        Err(refusal) => refused(refusal),
    }
}

/// The outcome of a DELETE.
fn delete(alloc: Global, started: &Started, condition: &Option<Pred>) -> Outcome
    requires terms { AreTerms started.now.terms.value }
    requires begun { (begun : Begun) × IsBegun begun started.now (bound.Delete condition.now) }
    ensures counted { AreCountsOf started.now result }
    ensures gives { (begun : Begun) → IsBegun begun started.now (bound.Delete condition.now) → GivesOn (sizes_of started.now.terms.value) begun result }
{
    let terms = &*started.terms;
    match deleted(alloc, &terms.schema, condition, pinned_of(started)) {
        Ok(writes) => changed(alloc, terms, started.implicit, writes),
        Err(Memory) => Outcome::Short,
    }
}

/// The outcome of a SELECT: its answer with the counts of segments, or the first row and item whose whole count or sum is out of
/// its range. The scan has so many workers.
fn select<R: Threads>(
    rt: &R,
    alloc: Global,
    workers: u32,
    started: &Started,
    query: &Query,
) -> Outcome
    requires workers { (1 ≤ workers) × (workers ≤ 16) }
    requires terms { AreTerms started.now.terms.value }
    requires begun { (begun : Begun) × IsBegun begun started.now (bound.Select query.now) }
    ensures gives { (begun : Begun) → IsBegun begun started.now (bound.Select query.now) → GivesOn (sizes_of started.now.terms.value) begun result }
    ensures counted { AreCountsOf started.now result }
{
    let schema = &*started.terms.schema;
    let pinned = pinned_of(started);
    match answer(rt, alloc, &NoTurn, workers, schema, query, pinned) {
        Ok(found) => Outcome::Answer(Reply::Rows {
            rows: found.rows,
            segments: Some((found.read, found.skipped)),
        }),
        Err(AnswerRefusal::Overflow { row, column }) => valued(8_115, row, column),
        Err(AnswerRefusal::Memory) => Outcome::Short,
    }
}

/// The outcome of a COMMIT: the own writes as their commit takes them.
fn commit(alloc: Global, started: &Started) -> Outcome
    requires terms { AreTerms started.now.terms.value }
    requires begun { (begun : Begun) × IsBegun begun started.now (bound.Commit) }
    ensures counted { AreCountsOf started.now result }
    ensures gives { (begun : Begun) → IsBegun begun started.now (bound.Commit) → GivesOn (sizes_of started.now.terms.value) begun result }
{
    let terms = &*started.terms;
    let Ok(own) = started.own.copies(alloc) else {
        return Outcome::Short;
    };
    match parcel_of(
        alloc,
        &terms.schema,
        &own,
        terms.group_rows,
        terms.direct_rows,
    ) {
        Ok(parcel) => Outcome::Commit(parcel),
        Err(Memory) => Outcome::Short,
    }
}

impl Desk for Clerk {
    fn work<R: Threads + Wait>(&self, rt: &R, alloc: Global, started: &Started) -> Outcome {
        if started.short {
            return Outcome::Short;
        }
        match &*started.bound {
            Bound::Commit => commit(alloc, started),
            Bound::Insert(plan) => insert(alloc, started, plan.get()),
            Bound::Update(plan) => update(alloc, started, plan.get()),
            Bound::Delete(condition) => delete(alloc, started, condition.get()),
            Bound::Select(query) => select(rt, alloc, self.workers, started, query.get()),
            Bound::Begin
            | Bound::Rollback
            | Bound::Nothing
            | Bound::Statistics(_)
            | Bound::GroupReport
            | Bound::SegmentReport
            | Bound::Reorganize { .. }
            | Bound::Refused(_) => Outcome::Nothing,
        }
    }

    fn mend(&self, alloc: Global, claim: &Claim) -> Result<Product, Memory> {
        work(alloc, claim)
    }
}
