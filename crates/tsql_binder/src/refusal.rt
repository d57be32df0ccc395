//! Why a statement has no bound form.

use cs_base::Memory;
use thiserror::Error;

/// Why a statement has no bound form.
#[derive(Clone, Copy, Debug, PartialEq, Eq, Error)]
pub enum BindRefusal {
    /// Error 109, 110, 120, 121, 206, 207, 208, 213, 241, 8117, 8120, 8127 or 50001, at a place that counts the text's bytes
    /// from 1.
    #[error("error {number} at {at}")]
    At { number: u32, at: u32 },
    #[error("out of memory")]
    Memory,
}

impl From<Memory> for BindRefusal {
    ghost use Rattle.std.specs.Prelude.{◌≡◌};
    ghost use Rattle.tsql_binder.specs.declared.refusal.BindRefusal.TheVariants as refusal;

    ghost from_gives = { λ _ e. e ≡ refusal.Memory };

    fn from(_error: Memory) -> BindRefusal {
        BindRefusal::Memory
    }
}
