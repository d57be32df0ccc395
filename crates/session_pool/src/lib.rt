//! Runs the statements of sessions, and the turns of movers, side by side over one core.
//!
//! Its one contract: `run_sessions` gives back a core whose log the row model and the book of row groups follow from a new table
//! on, with each session's statements once and in order and its End; its other entries are those of movers, and of sessions as
//! their REORGANIZE may work; no actor holds a claim, and, where there are movers, nothing is left for the first of them or its want
//! of memory or release stands last; where memory gave out, the log has the first of each session's turns. Each session and each
//! mover has a thread of its own, and makes its events in sections at a `history_gate`; the work between them is done by a `Desk`
//! outside the gate. It depends on `statement_core` for the events and for how far a REORGANIZE is, on `script_turns` for what the
//! texts mean, and on `history_gate` for the one history that all sections make.
#![tactic(auto)]

mod attempt;
mod event;
mod mover;
mod pool;
mod pooled;
mod reorganizing;
mod sections;
mod session;
mod signals;
mod threads;
mod turns;
mod works;

pub use pool::run_sessions;
