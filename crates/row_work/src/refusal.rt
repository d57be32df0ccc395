//! Why rows can't be written.

use cs_base::Memory;
use thiserror::Error;

/// Why rows can't be written.
#[derive(Clone, Copy, Debug, PartialEq, Eq, Error)]
pub enum WriteRefusal {
    /// A value has an error with this number: 515, 2628, 220, 8115 or 8134. Rows and columns are counted from 1.
    #[error("error {number} row {row} column {column}")]
    Value { number: u32, row: u64, column: u32 },
    #[error("out of memory")]
    Memory,
}

impl From<Memory> for WriteRefusal {
    ghost use Rattle.std.specs.Prelude.{◌≡◌};
    ghost use Rattle.row_work.specs.declared.refusal.WriteRefusal.TheVariants as refusal;

    ghost from_gives = { λ _ e. e ≡ refusal.Memory };

    fn from(_error: Memory) -> WriteRefusal {
        WriteRefusal::Memory
    }
}
