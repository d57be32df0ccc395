//! The rows that an INSERT writes over a series, quickly, where their values are whole numbers and NULLs: cell by cell for who makes
//! the rows one by one, or whole columns where no row is made.
//!
//! Its one contract: the cell that `series_cell` gives is the value that the definition of `cs_model` gives the column over this number
//! of the series, which is not refused then, and what `series_columns` gives are the columns of exactly the rows that it gives the
//! statement, of which no value is refused. Where they give none they say nothing of the statement: a value may be refused, or may be
//! none that is computed here. What they take of a plan, the numbers of its series and the expression of a column, stands beside them
//! under the same definitions. It stands on `cs_model`, which has plans and those definitions, on `cs_types` for schemas and for the
//! value that a column keeps, and on `cs_base`.
#![tactic(auto)]

mod arithmetic;
mod column;
mod columns;
mod each;
mod numbers;
mod value;
mod values;

pub use column::series_cell;
pub use columns::{first_row, given, series_columns};
pub use numbers::{number_at, series_len};
