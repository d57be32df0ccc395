// The rows of a group that are shown: each of them, or those of a set, which are counted by its words.
ghost use Rattle.std.specs.Prelude.{◌≡◌, ℕ, ◌+◌, ◌<◌, ◌≤◌, ◌^◌, slice_index_or, false};
ghost use Rattle.std.specs.Option.{option_copied};
ghost use Rattle.code_tallies.specs.Shown.{is_shown, shown_from};

use crate::chosen::Chosen;
use batch_kernels::choose_first;

impl Chosen<'_> {
    /// How many of the `count` rows from a position on are shown.
    pub fn shown_from(&self, from: usize, count: usize) -> usize
        ensures { result ≡ shown_from (option_copied self.now.shown) from count }
    {
        match self.shown {
            None => count,
            Some(set) => set.count_in(from, count),
        }
    }

    /// Puts which of the `count` rows from a position on are shown into a mask.
    pub fn put_shown(&self, from: usize, count: usize, mask: &mut [bool; 1024])
        requires { count ≤ 1024 }
        ensures { (i : ℕ) → i < count → slice_index_or mask.new i false ≡ is_shown (option_copied self.now.shown) (from + i) }
    {
        match self.shown {
            None => choose_first(count, mask),
            Some(set) => set.put_mask(from, count, mask),
        }
    }
}
