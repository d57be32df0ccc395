//! Lists in chunks that other lists may have in common.
//!
//! Its one contract: a `SharedList` is the list of its items, and each call has exactly the stated effect on that list. What another list
//! shares of it is a chunk at a time, so a share copies no item, and takes time for each chunk alone. A chunk that lists have in common
//! never changes: a list that changes an item of it copies that chunk first, and else changes its own in place. The crate depends on
//! `cs_base`.
#![tactic(auto)]

mod chunk;
mod chunks;
mod copied;
mod list;

pub use copied::Copied;
pub use list::SharedList;
