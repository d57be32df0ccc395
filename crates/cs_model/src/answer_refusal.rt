//! Refusals of answers.

ghost use Rattle.std.specs.Prelude.{◌≡◌};

use cs_base::Memory;
use thiserror::Error;

/// Why a query has no answer.
#[derive(Clone, Copy, Debug, PartialEq, Eq, Error)]
pub enum AnswerRefusal {
    /// A whole count or sum outside the range of its type, 8115: the row of the answer and the item, counted from 1.
    #[error("arithmetic overflow")]
    Overflow { row: u64, column: u32 },
    /// There was no memory, 701.
    #[error("out of memory")]
    Memory,
}

impl From<Memory> for AnswerRefusal {
    ghost use Rattle.cs_model.specs.declared.answer_refusal.AnswerRefusal.TheVariants as refusal;

    ghost from_gives = { λ _ e. e ≡ refusal.Memory };

    fn from(_error: Memory) -> AnswerRefusal {
        AnswerRefusal::Memory
    }
}
