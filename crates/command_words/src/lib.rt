//! The words that the program is given: a mode, and its options with their values.
//!
//! Its one contract: `Order::of_words` gives the one order that the words are, and None exactly where they are none. It
//! stands on `cs_types`, whose definitions of digits it cites. It takes no memory.
#![tactic(auto)]

mod mode;
mod option;
mod order;
mod pairs;

pub use order::{Order, RunOptions, Workload, orders_are_in_range};
