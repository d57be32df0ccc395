//! The bytes of a statement cut into tokens: reserved words, names, numbers, texts and signs, each with its place.
//!
//! Its one contract: `tokens` gives exactly the tokens of a text, and for a text that cannot be cut into tokens the leftmost place at
//! which it is refused. It stands on `cs_base`.
#![tactic(auto)]

mod bytes;
mod lexeme;
mod lexer;
mod limits;
mod reserved;
mod token;

pub use lexer::tokens;
pub use reserved::is_word;
pub use token::{Token, TokenKind, TokenRefusal};
