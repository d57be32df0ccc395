//! The workers of a scan.

ghost use Rattle.std.specs.Prelude.{◌≡◌, ◌-◌, ◌≤◌, length, take, drop, min, max, All, IfOk};
ghost use Rattle.std.specs.Map.{values_of};
ghost use Rattle.std.specs.Thread.{IsSync};
ghost use Rattle.cs_model.specs.Queries.{Gives, answer};
ghost use Rattle.cs_model.specs.Text.{IsPrintableRow};
ghost use Rattle.group_view.specs.Scanned.{counts_in};
ghost use Rattle.row_work.specs.Reads.{read_by, MayRead};
ghost use Rattle.statement_work.specs.Counted.{GivesCounted};
ghost use Rattle.statement_work.specs.Parts.{IsPart};

use crate::answered::Answered;
use crate::turn::Turn;
use batch_aggregate::Partial;
use cs_base::{Items, Memory};
use cs_model::{AnswerRefusal, AnswerRow, Query};
use cs_types::Schema;
use group_view::Pinned;
use row_work::{add_groups, add_own, answer_at_keys, named_keys, segment_counts};
use std::alloc::Global;
use std::thread::{Threads, join};

/// What the workers of a scan share.
#[derive(Drop)]
struct Scan<'a, T> {
    alloc: Global,
    turn: &'a T,
    schema: &'a Schema,
    query: &'a Query,
    pinned: &'a Pinned,
}

/// What a worker finds in the groups from one place up to another.
fn part<'a, T: Turn>(
    scan: &Scan<'a, T>,
    worker: u32,
    from: usize,
    to: usize,
) -> Result<Partial<'a>, Memory>
    requires may { MayRead scan.now.schema.now scan.now.pinned.now }
    requires there { (from ≤ to) × (to ≤ length scan.now.pinned.now.view.groups) }
    ensures { IfOk result (IsPart scan.now.schema.now scan.now.query.now scan.now.pinned.now (take (to - from) (drop from scan.now.pinned.now.view.groups))) }
{
    scan.turn.begins(worker);
    let mut partial = Partial::new(scan.alloc, scan.schema, scan.query)?;
    add_groups(
        scan.alloc,
        &mut partial,
        scan.schema,
        scan.query,
        scan.pinned,
        from,
        to,
    )?;
    Ok(partial)
}

/// What so many workers find in the groups from a place on, each in its share of them. This thread is the first worker and has the
/// last share; each of the others has a thread of its own, so none but this one needs the runtime.
#[cycle(workers)]
fn parts<'a, R: Threads, T: Turn>(
    rt: &R,
    scan: &Scan<'a, T>,
    workers: u32,
    from: usize,
) -> Result<Partial<'a>, Memory>
    requires may { MayRead scan.now.schema.now scan.now.pinned.now }
    requires workers { 1 ≤ workers }
    requires there { from ≤ length scan.now.pinned.now.view.groups }
    ensures { IfOk result (IsPart scan.now.schema.now scan.now.query.now scan.now.pinned.now (drop from scan.now.pinned.now.view.groups)) }
{
    let end = scan.pinned.view.len();
    if workers == 1 {
        return part(scan, 1, from, end);
    }
    let cut = from + (end - from) / workers as usize;
    let others = workers - 1;
    let front = move || -> Result<Partial<'_>, Memory>
        requires { MayRead scan.now.schema.now scan.now.pinned.now × (from ≤ cut) × (cut ≤ length scan.now.pinned.now.view.groups) }
        ensures { IfOk result (IsPart scan.entry.now.schema.now scan.entry.now.query.now scan.entry.now.pinned.now (take (cut - from) (drop from scan.entry.now.pinned.now.view.groups))) }
    { part(scan, workers, from, cut) };
    let back = move || -> Result<Partial<'_>, Memory>
        requires { IsSync T.row × MayRead scan.now.schema.now scan.now.pinned.now × (1 ≤ others) × (cut ≤ length scan.now.pinned.now.view.groups) }
        ensures { IfOk result (IsPart scan.entry.now.schema.now scan.entry.now.query.now scan.entry.now.pinned.now (drop cut scan.entry.now.pinned.now.view.groups)) }
    { parts(rt, scan, others, cut) };
    let (before, behind) = join(rt, front, back);
    let mut partial = before?;
    partial.merge(behind?)?;
    Ok(partial)
}

/// How many of these workers have a group to read; one where there is none.
fn busy(workers: u32, groups: usize) -> u32
    requires { 1 ≤ workers }
    ensures { result ≡ max 1 (min workers groups) }
{
    match u32::try_from(groups) {
        Ok(groups) => workers.min(groups).max(1),
        Err(_) => workers,
    }
}

/// The answer of a SELECT over all rows that are read.
fn answer_of_all<R: Threads, T: Turn>(
    rt: &R,
    scan: &Scan<'_, T>,
    workers: u32,
) -> Result<Items<AnswerRow>, AnswerRefusal>
    requires may { MayRead scan.now.schema.now scan.now.pinned.now }
    requires workers { (1 ≤ workers) × (workers ≤ 16) }
    ensures { Gives result (answer scan.now.schema.now scan.now.query.now (values_of (read_by (length scan.now.schema.now.columns) scan.now.pinned.now))) }
{
    let workers = busy(workers, scan.pinned.view.len());
    let mut partial = parts(rt, scan, workers, 0)?;
    add_own(&mut partial, &scan.pinned.own)?;
    partial.result()
}

/// The rows of the answer of a SELECT over what is read. Where the filter names keys, the rows at these alone are read, without
/// workers.
fn rows_of_answer<R: Threads, T: Turn>(
    rt: &R,
    scan: &Scan<'_, T>,
    workers: u32,
) -> Result<Items<AnswerRow>, AnswerRefusal>
    requires may { MayRead scan.now.schema.now scan.now.pinned.now }
    requires workers { (1 ≤ workers) × (workers ≤ 16) }
    ensures gives { Gives result (answer scan.now.schema.now scan.now.query.now (values_of (read_by (length scan.now.schema.now.columns) scan.now.pinned.now))) }
    ensures printable { IfOk result (λ found. All IsPrintableRow found) }
{
    if let Some(keys) = named_keys(scan.alloc, scan.schema, &scan.query.filter)? {
        return answer_at_keys(scan.alloc, scan.schema, scan.query, scan.pinned, &keys);
    }
    answer_of_all(rt, scan, workers)
}

/// The answer of a SELECT over what is read, with the counts of segments, by at most so many workers, 1 to 16: both are the same
/// for any number of them. This thread is the first, and it takes the own writes. `turn` is told of each worker as it starts. Where
/// the filter names keys, the rows at these alone are read, without workers; the counts are those of a scan all the same. `Overflow`
/// at the first row of the answer and its first item whose whole count or sum is out of the range of its type; `Memory` where there
/// is no room.
pub fn answer<R: Threads, T: Turn>(
    rt: &R,
    alloc: Global,
    turn: &T,
    workers: u32,
    schema: &Schema,
    query: &Query,
    pinned: &Pinned,
) -> Result<Answered, AnswerRefusal>
    requires may { MayRead schema.now pinned.now }
    requires workers { (1 ≤ workers) × (workers ≤ 16) }
    ensures gives { GivesCounted result (answer schema.now query.now (values_of (read_by (length schema.now.columns) pinned.now))) (counts_in schema.now pinned.now.view query.now.filter) }
    ensures printable { IfOk result (λ found. All IsPrintableRow found.rows) }
{
    let scan = Scan {
        alloc,
        turn,
        schema,
        query,
        pinned,
    };
    let rows = rows_of_answer(rt, &scan, workers)?;
    let (read, skipped) = segment_counts(schema, &query.filter, pinned);
    Ok(Answered {
        rows,
        read,
        skipped,
    })
}
