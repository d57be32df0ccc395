//! Texts into statements.
//!
//! Its one contract: `read_statement` gives exactly the statement that the grammar gives a text, and for a text that is
//! none the number and the place of its refusal. It depends on `tsql_tokens`, `tsql_grammar` and `tsql_exprs`, and
//! gives the trees of `tsql_trees`.
#![tactic(auto)]

mod item;
mod limits;
mod parts;
mod read;
mod statement;

pub use read::read_statement;
