ghost use Rattle.std.specs.Prelude.{◌≡◌};

use cs_base::Memory;
use thiserror::Error;

/// What a token is. A name in brackets is a `Name`, whatever stands in the brackets.
#[derive(Clone, Copy, Debug, PartialEq, Eq)]
pub enum TokenKind {
    Reserved,
    Name,
    Number,
    Text,
    Sign,
}

/// A token, as a span of the text: its bytes are those from `from` up to but without `to`, counted from 0. The spans
/// of a text's tokens ascend.
#[derive(Clone, Copy, Debug, PartialEq, Eq)]
pub struct Token {
    pub kind: TokenKind,
    pub from: u32,
    pub to: u32,
}

/// Why a text cannot be cut into tokens.
#[derive(Clone, Copy, Debug, PartialEq, Eq, Error)]
pub enum TokenRefusal {
    /// Error 102, where no token begins or a text, bracket or comment is never closed, or 50001, where something is over a limit. The place counts the text's bytes
    /// from 1.
    #[error("error {number} at {at}")]
    At { number: u32, at: u32 },
    #[error("out of memory")]
    Memory,
}

impl From<Memory> for TokenRefusal {
    ghost use Rattle.tsql_tokens.specs.declared.token.TokenRefusal.TheVariants as refusal;

    ghost from_gives = { λ _ e. e ≡ refusal.Memory };

    fn from(_error: Memory) -> TokenRefusal {
        TokenRefusal::Memory
    }
}
