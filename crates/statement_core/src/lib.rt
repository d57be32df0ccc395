//! The transactional core: up to 64 sessions over one table, under SNAPSHOT isolation, with statements half done, and movers that
//! work on its row groups, as a session does in a REORGANIZE.
//!
//! Its one contract: each call of `Core` adds one event, or none, to a log that stays legal by the row model of `cs_model`, from
//! the empty state on, and that the row groups follow, from the empty book on. The work of a statement or of a claim is done
//! outside the core, by a `Desk`, over what was started or lent; and a `Reorganizing` tells who makes the events of a REORGANIZE
//! what comes next, and what it leaves. It depends on `group_directory` for the row groups and the open
//! transactions, on `group_log` for what a log makes of the groups, on `group_reports` for the reports, and on `log_laws` for what
//! legal logs have in common.
#![tactic(auto)]

mod begin;
mod core_calls;
mod core_state;
mod finish;
mod ledgers;
mod movers;
mod reorganizing;
mod seats;
mod started;
mod writes;

pub use core_calls::Core;
pub use movers::Turned;
pub use reorganizing::Reorganizing;
pub use seats::Seats;
pub use started::{Desk, Outcome, Started, Terms};
