// What a statement reads of a packed group.
ghost use Rattle.std.specs.Prelude.{◌≡◌, ◌<◌, ◌≤◌, ◌+◌, ◌&&◌, ◌||◌, ℕ, Bool, List, false, not, length, slice_index_or, All, IfOk};
ghost use Rattle.std.specs.Bool.{OnTrue};
ghost use Rattle.delete_bitmap.specs.Marks.{end_at, is_removable};
ghost use Rattle.batch_scan.specs.Hidden.{is_one_of};
ghost use Rattle.batch_scan.specs.Reads.{read_flags, AreShown, IsSetOf};

use crate::hidden::hidden_positions;
use batch_kernels::keep_where;
use cs_base::Memory;
use delete_bitmap::{Marks, Positions};
use group_view::Pinned;
use row_group::Packed;
use std::alloc::Global;

/// The positions of a packed group whose versions a statement reads.
#[derive(Debug, Drop)]
pub enum Shown {
    /// All of them.
    Every,
    /// None of them.
    Nowhere,
    /// These.
    Some(Positions),
}

impl Shown {
    /// The positions of a packed group, with its bitmap, whose versions the statement reads.
    pub fn of(
        alloc: Global,
        pinned: &Pinned,
        packed: &Packed,
        marks: &Marks,
    ) -> Result<Shown, Memory>
        requires { length marks.now ≡ length packed.now.rows }
        ensures { IfOk result (AreShown (read_flags pinned.now packed.now marks.now)) }
    {
        let s = pinned.snapshot;
        if packed.base() > s && packed.stamped().is_empty() {
            return Ok(Shown::Nowhere);
        }
        let hidden = hidden_positions(alloc, pinned, packed)?;
        if hidden.is_empty() && marks.removable(s) == 0 {
            return Ok(Shown::Every);
        }
        Ok(Shown::Some(positions_left(alloc, marks, s, &hidden)?))
    }

    /// Whether the statement reads the version at a position.
    pub fn has(&self, position: usize) -> bool
        ensures { (flags : List Bool) → AreShown flags self.now → position < length flags → result ≡ slice_index_or flags position false }
    {
        match self {
            Shown::Every => true,
            Shown::Nowhere => false,
            Shown::Some(positions) => positions.contains(position),
        }
    }

    /// Whether it is known without a look at the positions that the statement reads none of the versions.
    pub fn is_nowhere(&self) -> bool
        ensures { (flags : List Bool) → AreShown flags self.now → OnTrue result (All (λ flag. flag ≡ false) flags) }
    {
        matches!(self, Shown::Nowhere)
    }

    /// Those of some positions, of the `count` that the group has, at which the statement reads the version, as a set.
    pub fn among(
        &self,
        alloc: Global,
        count: usize,
        positions: &[usize],
    ) -> Result<Positions, Memory>
        requires shown { IsSetOf count self.now }
        requires within { All (λ position. position < count) positions.now }
        ensures length { IfOk result (λ set. length set ≡ count) }
        ensures each { (flags : List Bool) → AreShown flags self.now → length flags ≡ count → IfOk result (λ set. (position : ℕ) → position < count → slice_index_or set position false ≡ (is_one_of positions.now position && slice_index_or flags position false)) }
    {
        let mut set = Positions::none(alloc, count);
        match self {
            Shown::Every => {
                set.insert_all(positions)?;
                Ok(set)
            }
            Shown::Nowhere => Ok(set),
            Shown::Some(shown) => {
                set.insert_all(positions)?;
                in_both(set, shown)
            }
        }
    }

    /// Of the first `count` places of a batch, leaves those chosen whose positions, from `from` on, the statement reads.
    pub fn narrow(&self, from: usize, count: usize, mask: &mut [bool; 1024])
        requires { count ≤ 1024 }
        ensures { (flags : List Bool) (i : ℕ) → AreShown flags self.now → from + count ≤ length flags → i < count → slice_index_or mask.new i false ≡ (slice_index_or mask.old i false && slice_index_or flags (from + i) false) }
    {
        match self {
            Shown::Every => {}
            Shown::Nowhere => keep_where(mask, &[false; 1024], true),
            Shown::Some(positions) => {
                let mut there = [false; 1024];
                positions.put_mask(from, count, &mut there);
                keep_where(mask, &there, true);
            }
        }
    }
}

/// The positions that are none of these, and at which a bitmap has no end for the snapshot `s`.
fn positions_left(
    alloc: Global,
    marks: &Marks,
    s: u64,
    hidden: &[usize],
) -> Result<Positions, Memory>
    requires { All (λ position. position < length marks.now) hidden.now }
    ensures length { IfOk result (λ left. length left ≡ length marks.now) }
    ensures each { IfOk result (λ left. (position : ℕ) → position < length marks.now → slice_index_or left position false ≡ not (is_one_of hidden.now position || is_removable s (end_at marks.now position))) }
{
    let mut left = Positions::none(alloc, marks.len());
    left.insert_all(hidden)?;
    marks.take_ended(s, &mut left)?;
    left.complement()?;
    Ok(left)
}

/// The positions that are in both sets.
fn in_both(first: Positions, second: &Positions) -> Result<Positions, Memory>
    requires { length first ≡ length second.now }
    ensures length { IfOk result (λ both. length both ≡ length first) }
    ensures each { IfOk result (λ both. (position : ℕ) → position < length first → slice_index_or both position false ≡ (slice_index_or first position false && slice_index_or second.now position false)) }
{
    let mut either = first;
    let mut other = second.copy()?;
    either.complement()?;
    other.complement()?;
    either.join(&other)?;
    either.complement()?;
    Ok(either)
}
