//! Refusals of expressions.

ghost use Rattle.std.specs.Prelude.{◌≡◌};
ghost use Rattle.cs_model.specs.Expressions.{refusal_number};

use cs_base::Memory;
use thiserror::Error;

/// Why an expression has no value.
#[derive(Clone, Copy, Debug, PartialEq, Eq, Error)]
pub enum ExprRefusal {
    /// A result outside the range of bigint: 8115.
    #[error("arithmetic overflow")]
    Overflow,
    /// Division by zero: 8134.
    #[error("division by zero")]
    ZeroDivisor,
    /// A text found no room: 701.
    #[error("out of memory")]
    Memory,
}

impl From<Memory> for ExprRefusal {
    ghost use Rattle.cs_model.specs.declared.expr_refusal.ExprRefusal.TheVariants as refusal;

    ghost from_gives = { λ _ e. e ≡ refusal.Memory };

    fn from(_error: Memory) -> ExprRefusal {
        ExprRefusal::Memory
    }
}

impl ExprRefusal {
    /// SQL Server's number of the error.
    pub fn number(self) -> u32
        ensures { result ≡ refusal_number self }
    {
        match self {
            ExprRefusal::Overflow => 8115,
            ExprRefusal::ZeroDivisor => 8134,
            ExprRefusal::Memory => 701,
        }
    }
}
