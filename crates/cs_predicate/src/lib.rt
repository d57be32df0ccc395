//! Expressions and predicates over a row.
//!
//! Its one contract: `compute` gives exactly the value that the definition in specs/ gives an expression over a row, or
//! its refusal, `truth` exactly the truth value of a predicate, also where the cells of the row stand elsewhere (`truth_of`), and
//! `compare` that of one comparison. They answer for every bound form, row and schema. It stands on `cs_model`, which has the
//! bound forms and those definitions, and on `cs_types`, which has values, rows and schemas.
#![tactic(auto)]

mod arithmetic;
mod cells;
mod expression;
mod pattern;
mod predicate;
mod side;

pub use cells::Cells;
pub use expression::compute;
pub use pattern::is_like;
pub use predicate::{compare, truth, truth_of};
pub use side::Side;
