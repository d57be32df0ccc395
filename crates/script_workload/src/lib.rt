//! The generated workload: a script of statements that are drawn from the sequence of a number, for tests and figures.
//!
//! Its one contract: `workload` gives exactly the script that the definitions draw from a number. It depends on `cs_types`
//! for lines, and on `cs_base`.
#![tactic(auto)]

ghost use Rattle.std.specs.Prelude.{◌≡◌, ◌≤◌, IfOk};
ghost use Rattle.script_workload.specs.Workload as spec;

mod sequence;
mod statement;

use cs_base::Memory;
use cs_types::{Bytes, Line};
use sequence::Sequence;
use statement::append_line;
use std::alloc::Global;

/// The line that sets up the table.
const SETUP: &[u8] =
    b"setup CREATE TABLE t (k int NOT NULL PRIMARY KEY, v int NULL, w varchar(8) NULL)\n";

/// The script that is drawn from a number: the setup line, and so many lines of statements, of which line i, from 0 on, is
/// of session 1 + i mod `sessions`, or the mover's. Each draw multiplies the sequence's number by 1,103,515,245, adds
/// 12,345, keeps the rest by 2 to the 31 and gives that rest over 65,536. The program takes numbers up to 2,147,483,647, 1
/// to 64 sessions and up to 200,000 statements, but the script is drawn for all others too. `Memory` comes where there is
/// no room for the script.
pub fn workload(alloc: Global, number: u32, sessions: u32, statements: u32) -> Result<Bytes, Memory>
    requires { 1 ≤ sessions }
    ensures { IfOk result (λ script. script ≡ spec.workload number sessions statements) }
{
    let mut script = Line::new(alloc);
    script.append(SETUP)?;
    let mut sequence = Sequence::new(number);
    for i in 0..statements {
        let statement = sequence.draw_statement();
        append_line(1 + i % sessions, statement, &mut script)?;
    }
    Ok(script.into_bytes())
}
