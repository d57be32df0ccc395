//! Why a text is no statement.

ghost use Rattle.std.specs.Prelude.{◌≡◌, ◌≤◌, ℕ};
ghost use Rattle.tsql_exprs.specs.Refusals.{follows_alter, number_at, place_at};

use cs_base::Memory;
use thiserror::Error;
use tsql_grammar::{Symbol, Terminal, is_same};
use tsql_tokens::TokenRefusal;

/// Why a text is no statement.
#[derive(Clone, Copy, Debug, PartialEq, Eq, Error)]
pub enum ReadRefusal {
    /// Error 102, 50001 or 10738, at a place that counts the text's bytes from 1.
    #[error("error {number} at {at}")]
    At { number: u32, at: u32 },
    #[error("out of memory")]
    Memory,
}

impl From<Memory> for ReadRefusal {
    ghost use Rattle.tsql_exprs.specs.declared.refusal.ReadRefusal.TheVariants as refusal;

    ghost from_gives = { λ _ e. e ≡ refusal.Memory };

    fn from(_error: Memory) -> ReadRefusal {
        ReadRefusal::Memory
    }
}

/// The refusal of a text by its tokens.
pub fn by_tokens(refusal: TokenRefusal) -> ReadRefusal
    ensures at { (number at : ℕ) → refusal ≡ TokenRefusal.At number at → result ≡ ReadRefusal.At number at }
    ensures memory { refusal ≡ TokenRefusal.Memory → result ≡ ReadRefusal.Memory }
{
    match refusal {
        TokenRefusal::At { number, at } => ReadRefusal::At { number, at },
        TokenRefusal::Memory => ReadRefusal::Memory,
    }
}

fn follows_alter(symbols: &[Symbol], rest: &[Symbol]) -> bool
    ensures { result ≡ follows_alter symbols.now rest.now }
{
    match symbols {
        [first, more @ ..] => is_same(first.terminal, Terminal::Alter) && more.len() == rest.len(),
        [] => false,
    }
}

/// The number of a refusal by the grammar, at the first of the rest: 50001 at a reserved word that the grammar has no
/// form for and at TABLE after ALTER, and else 102.
pub fn number_at(symbols: &[Symbol], rest: &[Symbol]) -> u32
    ensures { result ≡ number_at symbols.now rest.now }
{
    match rest {
        [] => 102,
        [next, ..] if is_same(next.terminal, Terminal::Outside) => 50_001,
        [next, ..] if is_same(next.terminal, Terminal::Table) && follows_alter(symbols, rest) =>
            50_001,
        _ => 102,
    }
}

/// The place of the next token of a text of so many bytes. The end stands one past the last byte.
pub fn place_at(size: usize, rest: &[Symbol]) -> u32
    requires { size ≤ 131_072 }
    ensures { result ≡ place_at size rest.now }
{
    match rest {
        [next, ..] => next.place,
        [] => size as u32 + 1,
    }
}
