//! What every crate of the columnstore shares: the answer for want of memory, a list and a box that contracts see as
//! what they hold, counts of faults that stand still at their type's end, and the equality of names.
//!
//! Its one contract: an `Items` is the list that was put into it, and a `Boxed` its value. It stands on std alone.
#![tactic(auto)]

mod boxed;
mod items;
mod memory;
mod name;

pub use boxed::Boxed;
pub use items::Items;
pub use memory::Memory;
pub use name::is_same_name;
