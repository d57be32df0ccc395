//! Why reading ends.

ghost use Rattle.std.specs.Prelude.{◌≡◌};

use cs_base::Memory;

/// Why a form was not read. After `Stopped` the reader stands at the token at which the form stops.
#[derive(Clone, Copy, Debug)]
pub enum ReadError {
    Memory,
    Stopped,
}

impl From<Memory> for ReadError {
    ghost use Rattle.tsql_exprs.specs.declared.error.ReadError.TheVariants as errors;

    ghost from_gives = { λ _ e. e ≡ errors.Memory };

    fn from(_error: Memory) -> ReadError {
        ReadError::Memory
    }
}
