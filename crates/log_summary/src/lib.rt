//! The summary of a log: counts of its events, and of the rows that the table has after them.
//!
//! Its one contract: `print_summary` gives exactly the text of the definition. It depends on `cs_model` for the events of a log, and
//! on `cs_types` for lines.
#![tactic(auto)]

ghost use Rattle.std.specs.Prelude.{◌≡◌, ◌++◌, IfOk, OnOk};
ghost use Rattle.log_summary.specs.Summary.{count_line, short_line, summary};

mod counts;

use counts::Counts;
use cs_base::Memory;
use cs_model::Entry;
use cs_types::Line;
use itoa::Buffer;
use std::alloc::Global;

/// Adds a line with a name and a count.
fn append_count(name: &[u8], count: u128, line: &mut Line) -> Result<(), Memory>
    ensures { OnOk result (line.new ≡ line.old ++ count_line name.now count) }
{
    let mut buffer = Buffer::new();
    line.append(name)?;
    line.append(b" ")?;
    line.append(buffer.format(count).as_bytes())?;
    line.append(b"\n")
}

/// Adds the line of the events that stand there because memory was missing, where there are any.
fn append_short(count: u64, line: &mut Line) -> Result<(), Memory>
    ensures { OnOk result (line.new ≡ line.old ++ short_line count) }
{
    if count == 0 {
        return Ok(());
    }
    append_count(b"short", count as u128, line)
}

/// The summary of a log after which the table has so many rows: a line each with the count of its events, of the Finishes whose reply
/// is no refusal, of the other Finishes, of the Ends, and of the rows; and a last one with the count of events that want of memory
/// made, where there are any. The log is walked once. `Memory` comes where there is no room for the text.
pub fn print_summary(alloc: Global, log: &[Entry], rows: u128) -> Result<Line, Memory>
    ensures { IfOk result (λ line. line ≡ summary log.now rows) }
{
    let counts = Counts::of(log);
    let mut line = Line::new(alloc);
    append_count(b"events", log.len() as u128, &mut line)?;
    append_count(b"ok", counts.ok as u128, &mut line)?;
    append_count(b"refused", counts.refused as u128, &mut line)?;
    append_count(b"ends", counts.ends as u128, &mut line)?;
    append_count(b"rows", rows, &mut line)?;
    append_short(counts.short, &mut line)?;
    Ok(line)
}
