//! The open transactions of sessions, by their numbers, which are below 65.
//!
//! Its one contract: a `Txns` is a finite map from sessions to their open transactions, and the number of the next one;
//! each call changes exactly the session that it names. It stands on `cs_base`, `cs_types`, `cs_model` and `write_set`. Microsoft's
//! pages on SNAPSHOT isolation describe snapshots and own writes, and its pages on BEGIN TRANSACTION how they nest.
#![tactic(auto)]

mod changes;
mod places;
mod txn;
mod txns;

pub use txn::Txn;
pub use txns::Txns;
