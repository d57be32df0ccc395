//! Setup statements: their texts into trees, and into the schemas that they mean.
//!
//! Its contracts: `read_create` gives exactly the tree that the grammar gives a setup statement, and `read_table` exactly the
//! schema that it means; for a text that has none each gives the number and the place of its refusal. It depends on
//! `tsql_exprs`, which reads names and types, and on `cs_types`.
#![tactic(auto)]

mod create;
mod fault;
mod read;
mod schema;
mod table;
mod tree;
mod written;

pub use read::read_create;
pub use table::read_table;
pub use tree::{CreateTree, MarkTree, TablePartTree};
