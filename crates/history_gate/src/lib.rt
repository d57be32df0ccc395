//! A lock that threads enter in the order of their tickets, for a value that stands for a history: a list of entries, each
//! with the number of its maker.
//!
//! Its one contract: there is one history. Each section between `enter` and `leave` adds at most one entry, at its end; a
//! pass keeps for each of its numbers the entries with that number, and a prefix of the history that it has seen; and the
//! value that `close` gives has each number's entries, in order, and no others. It depends on `cs_base`, on `atomic_table`,
//! by whose atomic steps the lock is made, and on the event counts of `crossbeam_utils`, on which those who wait sleep. The
//! ticket lock is that of Mellor-Crummey and Scott, ACM TOCS 1991, section 2.2.
#![tactic(auto)]

mod bells;
mod gate;
mod held;
mod pass;
mod rule;
mod stands;
mod steps;
mod wait;

pub use gate::Gate;
pub use pass::{Held, Pass};
pub use stands::Stands;
