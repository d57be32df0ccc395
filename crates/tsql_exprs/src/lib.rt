//! What statements are made of, read: names, literals, columns' types, expressions, predicates and lists of them. And why a text is refused.
//!
//! Its one contract: each method of `Grammar` reads its line of the grammar, gives the tree that the grammar gives, and
//! stops at the token at which the line stops. It depends on `tsql_grammar`.
#![tactic(auto)]

mod error;
mod expr;
mod grammar;
mod leaf;
mod list;
mod pred;
mod preds;
mod reader;
mod refusal;
mod types;

pub use error::ReadError;
pub use expr::ExprLine;
pub use grammar::Grammar;
pub use leaf::name_of;
pub use list::Line;
pub use reader::Reader;
pub use refusal::{ReadRefusal, by_tokens, number_at, place_at};
pub use types::{earlier, type_fault};
