//! The statement grammar as a table of forms, line by line, with the laws of reading it from the left, and the symbols
//! that the tokens of a text are in it.
//!
//! Its one contract: `symbols` gives the tokens of a text as the grammar sees them. Its definitions and laws are what
//! the contracts of the readers above cite. It stands on `tsql_tokens` and `tsql_trees`.
#![tactic(auto)]

mod terminal;
mod words;

pub use terminal::{Symbol, Terminal, is_same};
pub use words::{bytes_at, names_are_listed, symbols, unbracketed};
