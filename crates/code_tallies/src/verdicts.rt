// What a filter says of the rows of a group.
ghost use Rattle.std.specs.Prelude.{◌≡◌, ℕ, ◌<◌, Bool, false, true, slice_index_or};
ghost use Rattle.std.specs.Option.{option_copied};
ghost use Rattle.code_tallies.specs.Shown.{is_shown};

use batch_filter::Sieve;

/// Which rows of a group are kept.
pub trait Verdicts {
    /// Whether it keeps the row at a position.
    ghost kept: { Self → ℕ → Bool };

    /// Whether it keeps each of the first `length` rows: the bool at its place, and false past the last bool. Where None comes, it keeps
    /// all of them.
    fn flags(&self, length: usize) -> Option<&[bool]>
        ensures { (i : ℕ) → i < length → is_shown (option_copied result) i ≡ kept self.now i };
}

/// Every row is kept: there is no filter, or it is known to keep each row that is shown.
#[derive(Debug, Clone, Copy, PartialEq, Eq)]
pub struct EveryRow;

impl Verdicts for EveryRow {
    ghost kept = { λ _ _. true };

    fn flags(&self, _length: usize) -> Option<&[bool]> {
        None
    }
}

/// The verdicts of a filter that was judged for a whole group: the rows on which it is True are kept.
impl Verdicts for Sieve {
    ghost kept = { λ sieve i. slice_index_or sieve i false };

    fn flags(&self, length: usize) -> Option<&[bool]> {
        if length <= self.len() && self.is_everywhere() {
            None
        } else {
            Some(self.as_slice())
        }
    }
}
