// The text of actors and of their work.
ghost use Rattle.std.specs.Prelude.{◌≡◌, ◌++◌, OnOk, codes, decimal};
ghost use Rattle.cs_model.specs.Works.{actor_text, renewed_text, merged_text, rows_text, counted_text, work_text};

use crate::work::{Actor, Work};
use cs_base::Memory;
use cs_types::Line;

/// Adds an actor: `s` and the number of a session, or `m` and that of a mover.
pub fn append_actor(actor: Actor, line: &mut Line) -> Result<(), Memory>
    ensures { OnOk result (line.new ≡ line.old ++ actor_text actor) }
{
    match actor {
        Actor::Session(number) => {
            line.append(b"s")?;
            line.append_number(number as u64)
        }
        Actor::Mover(number) => {
            line.append(b"m")?;
            line.append_number(number as u64)
        }
    }
}

/// Adds words, and the group that becomes another.
fn append_renewed(words: &[u8], source: u64, fresh: u64, line: &mut Line) -> Result<(), Memory>
    ensures { OnOk result (line.new ≡ line.old ++ renewed_text words.now source fresh) }
{
    line.append(words)?;
    line.append(b" ")?;
    line.append_number(source)?;
    line.append(b" to ")?;
    line.append_number(fresh)
}

/// Adds words, and the two groups that become one.
fn append_merged(
    words: &[u8],
    first: u64,
    second: u64,
    fresh: u64,
    line: &mut Line,
) -> Result<(), Memory>
    ensures { OnOk result (line.new ≡ line.old ++ merged_text words.now first second fresh) }
{
    line.append(words)?;
    line.append(b" ")?;
    line.append_number(first)?;
    line.append(b" ")?;
    line.append_number(second)?;
    line.append(b" to ")?;
    line.append_number(fresh)
}

/// Adds words, the group that another became, and how many versions that has.
fn append_renewed_rows(
    words: &[u8],
    source: u64,
    fresh: u64,
    rows: u64,
    line: &mut Line,
) -> Result<(), Memory>
    ensures { OnOk result (line.new ≡ line.old ++ rows_text (renewed_text words.now source fresh) rows) }
{
    append_renewed(words, source, fresh, line)?;
    line.append(b" rows ")?;
    line.append_number(rows)
}

/// Adds words, the group that two others became, and how many versions that has.
fn append_merged_rows(
    words: &[u8],
    first: u64,
    second: u64,
    fresh: u64,
    rows: u64,
    line: &mut Line,
) -> Result<(), Memory>
    ensures { OnOk result (line.new ≡ line.old ++ rows_text (merged_text words.now first second fresh) rows) }
{
    append_merged(words, first, second, fresh, line)?;
    line.append(b" rows ")?;
    line.append_number(rows)
}

/// Adds words and a count.
fn append_counted(words: &[u8], count: u64, line: &mut Line) -> Result<(), Memory>
    ensures { OnOk result (line.new ≡ line.old ++ counted_text words.now count) }
{
    line.append(words)?;
    line.append(b" ")?;
    line.append_number(count)
}

/// Adds what was done.
pub fn append_work(work: Work, line: &mut Line) -> Result<(), Memory>
    ensures { OnOk result (line.new ≡ line.old ++ work_text work) }
{
    match work {
        Work::ClaimCompress { source, fresh } => {
            append_renewed(b"claim compress", source, fresh, line)
        }
        Work::InstallCompress {
            source,
            fresh,
            rows,
        } => append_renewed_rows(b"install compress", source, fresh, rows, line),
        Work::ReleaseCompress { source, fresh } => {
            append_renewed(b"release compress", source, fresh, line)
        }
        Work::ClaimRebuild { source, fresh } => {
            append_renewed(b"claim rebuild", source, fresh, line)
        }
        Work::InstallRebuild {
            source,
            fresh,
            rows,
        } => append_renewed_rows(b"install rebuild", source, fresh, rows, line),
        Work::ReleaseRebuild { source, fresh } => {
            append_renewed(b"release rebuild", source, fresh, line)
        }
        Work::ClaimMerge {
            first,
            second,
            fresh,
        } => append_merged(b"claim merge", first, second, fresh, line),
        Work::InstallMerge {
            first,
            second,
            fresh,
            rows,
        } => append_merged_rows(b"install merge", first, second, fresh, rows, line),
        Work::ReleaseMerge {
            first,
            second,
            fresh,
        } => append_merged(b"release merge", first, second, fresh, line),
        Work::ClaimFlush { entries } => append_counted(b"claim flush", entries, line),
        Work::InstallFlush { entries } => append_counted(b"install flush", entries, line),
        Work::ReleaseFlush { entries } => append_counted(b"release flush", entries, line),
        Work::Settle { ends } => append_counted(b"settle", ends, line),
        Work::Clear { groups } => append_counted(b"clear", groups, line),
        Work::Close { group } => append_counted(b"close", group, line),
        Work::Memory => line.append(b"memory"),
    }
}
