//! Statements bound to a schema: what an INSERT or an UPDATE writes, what a SELECT asks for, and a filter's predicate.
//!
//! Its one contract: each call gives exactly the bound form that the definitions in specs/ say, unless memory ran out. The
//! definitions are total: a statement with a fault, as a name that is no column, has a bound form too, which nobody uses.
//! It depends on `cs_model`, `bind_names` and `tsql_trees`.
#![tactic(auto)]

mod expr;
mod literal;
mod pred;
mod select;
mod write;

pub use pred::filter_of;
pub use select::query;
pub use write::{insert_plan, update_plan};
