//! The columnstore as a program: it reads its words and does what they order. It runs a script, line by line or each session on a
//! thread of its own, and writes the log of its events, or draws a workload and writes it, or the summary of its run.
//!
//! The one contract, on the top call: what is written is the text, or the summary, of a log that is legal from the empty state, that
//! the row groups follow, that has each session's statements once and in order, and goes by the script line by line unless threads
//! were asked for, or it is the script that was drawn; and every other status but want of memory, which is free, has its cause. Where
//! a run on threads stopped for want of memory, the text is that of such a log with the first of each session's turns. It depends on
//! `cs_outside`, `command_words`, `script_workload` with its law, `script_reader`, `script_runner`, `session_pool`, `statement_work`,
//! `statement_core` and `log_summary`, for what its clauses say on `cs_model`, `group_book` and `group_log`, and on `cs_types` and
//! `cs_base`.
#![tactic(auto)]

mod answer;
mod drawn;
mod status;
mod top;
mod way;

use cs_outside::{StdSink, StdSource};
use status::exit_code;
use std::env;
use std::process::ExitCode;
use top::program;

fn main(rt: HostRuntime) -> ExitCode {
    let mut input = StdSource::new(rt.stdin());
    let mut output = StdSink::new(rt.stdout());
    exit_code(program(&rt, rt.alloc(), env::args(&rt), &mut input, &mut output))
}
