//! Runs the steps of a script over a core.
//!
//! Its one contract: `run_schedule` gives a log that the row model and the book of row groups follow from a new table on, that goes
//! by the script line by line, and that has each session's statements once and in order, with its End. The line of a mover has the
//! first event of its turn, the last one, or both; the line that finishes a REORGANIZE has all that this does; and at the end nobody
//! holds a claim. Where memory gives out, the row model and the book follow the log too, and it is that of the lines before. It is a
//! loop over a `Runner`, whose calls make the events of one step and the End of one session. It depends on `statement_core` for the
//! events and the course of a REORGANIZE, on `script_reader` for the steps, and on `script_turns` for what their texts mean and whose
//! turns they are.
#![tactic(auto)]

mod made;
mod moves;
mod run;
mod runner;

pub use made::{core_for, runner_for, text_of_run};
pub use run::run_schedule;
pub use runner::Runner;
