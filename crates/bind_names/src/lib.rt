//! Names and literals of statements over a schema: the column that a name means, the values of text and
//! number literals, and whether a SELECT shows an aggregate.
//!
//! Its one contract: each call gives exactly what the definitions in specs/ say. None takes memory. It
//! stands on `cs_types` and on `tsql_trees`.
#![tactic(auto)]

mod literal;
mod name;
mod shown;

pub use literal::{date_literal, number_literal, signed_digits, trimmed};
pub use name::column_named;
pub use shown::has_aggregate;
