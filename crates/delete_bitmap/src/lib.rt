//! The delete bitmap of a packed row group: which of its versions have ended, and at which commit.
//!
//! Its one contract: `Marks` is a length and an end, or none, at each position below it, `Positions` a set of positions, and each call
//! has exactly the stated effect on them. It stands on `cs_base` and the laws of `merge_laws`. The form follows the delete bitmap of SQL
//! Server's clustered columnstore (Larson et al., SIGMOD 2013), with a commit number beside a mark until no snapshot can see the version.
#![tactic(auto)]

mod positions;
mod stamps;

ghost use Rattle.std.specs.Prelude.{◌≡◌, ℕ, ◌↔◌, ◌||◌, length, map, replicate, slice_get, slice_index_or, slice_set, count_by, All, Contains, OnOk, OnErr, IfOk, Some, None, false};
ghost use Rattle.delete_bitmap.specs.Marks as spec;
ghost use Rattle.delete_bitmap.specs.Marks.{settled, is_settling, end_at, with_each, with_ends};
ghost use Rattle.delete_bitmap.specs.Kept.{AreInOrder, Ascend};

use cs_base::Memory;
pub use positions::Positions;
use stamps::{count_above, keep_above, place_of, positions_of, stamped, take_out_above};
use std::alloc::Global;
use std::marker::Model;

/// The end of a version.
#[derive(Clone, Copy, Debug, PartialEq, Eq)]
pub enum MarkedEnd {
    /// It ended at or before every snapshot that is or will be open.
    Plain,
    /// It ended at the commit of this number.
    Stamped(u64),
}

/// The ends of a group's versions, by position: a bit says whether there is one, and a stamp at which commit where it
/// is not plain. A group without ended versions takes no room. It keeps its allocator.
#[derive(Debug, Drop)]
pub struct Marks {
    /// The versions that have ended.
    ended: Positions,
    /// The positions and commits of the ends that are not plain, in the order of positions.
    stamps: Vec<(usize, u64)>,
    /// The number of versions that have ended.
    count: u64,
}

impl Model for Marks {
    ghost use Rattle.std.specs.Prelude.{List, Option};
    ghost use Rattle.delete_bitmap.specs.declared.MarkedEnd.{MarkedEnd};
    ghost use Rattle.delete_bitmap.specs.Kept.{ends_of, AreKept};

    ghost Value = { List (Option MarkedEnd) };

    ghost view = { λ marks. ends_of marks.stamps.items marks.ended };

    ghost invariant = { λ marks. AreKept marks.ended marks.stamps.items marks.count };
}

impl Marks {
    /// The marks of a group of `length` versions, none of them ended.
    pub fn new(alloc: Global, length: usize) -> Result<Marks, Memory>
        ensures { IfOk result (λ marks. marks ≡ replicate length None) }
    {
        Ok(Marks {
            ended: Positions::none(alloc, length),
            stamps: Vec::new(alloc),
            count: 0,
        })
    }

    /// The number of versions.
    pub fn len(&self) -> usize
        ensures { result ≡ length self.now }
    {
        self.ended.len()
    }

    /// Ends the version at a position that has no end. After `Memory` nothing has changed.
    pub fn mark(&mut self, position: usize, end: u64) -> Result<(), Memory>
        requires { slice_get self.old position ≡ Some None }
        ensures ok { OnOk result (self.new ≡ slice_set self.old position (Some (MarkedEnd.Stamped end))) }
        ensures err { OnErr result (self.new ≡ self.old) }
    {
        self.stamps.reserve(1)?;
        let place = match place_of(&self.stamps, position) {
            Ok(_) => unreachable!(),
            Err(place) => place,
        };
        self.ended.insert(position)?;
        match self.stamps.insert(place, (position, end)) {
            Ok(()) => {}
            Err(_) => unreachable!(),
        }
        self.count += 1;
        Ok(())
    }

    /// Ends the version at each of these positions, none of which has an end, at the commit beside it, in one pass over the
    /// ends that are not plain. After `Memory` nothing has changed.
    pub fn mark_each(&mut self, ends: &[(usize, u64)]) -> Result<(), Memory>
        requires ascending { AreInOrder ends.now }
        requires unmarked { All (λ end. slice_get self.old end.0 ≡ Some None) ends.now }
        ensures ok { OnOk result (self.new ≡ with_each ends.now self.old) }
        ensures err { OnErr result (self.new ≡ self.old) }
    {
        self.stamps.reserve(ends.len())?;
        let positions = positions_of(*self.stamps.allocator(), ends)?;
        self.ended.insert_all(&positions)?;
        stamps::add_all(&mut self.stamps, ends);
        self.count += ends.len() as u64;
        Ok(())
    }

    /// Ends the versions at these positions, none of which has an end, at one commit, as `mark_each` does. After `Memory`
    /// nothing has changed.
    pub fn mark_all(&mut self, positions: &[usize], end: u64) -> Result<(), Memory>
        requires ascending { Ascend positions.now }
        requires unmarked { All (λ p. slice_get self.old p ≡ Some None) positions.now }
        ensures ok { OnOk result (self.new ≡ with_ends positions.now end self.old) }
        ensures err { OnErr result (self.new ≡ self.old) }
    {
        let ends = stamped(*self.stamps.allocator(), positions, end)?;
        self.mark_each(&ends)
    }

    /// The end of the version at a position; None where it has none, and past the last position.
    pub fn end(&self, position: usize) -> Option<MarkedEnd>
        ensures { result ≡ end_at self.now position }
    {
        if !self.ended.contains(position) {
            return None;
        }
        match place_of(&self.stamps, position) {
            Ok(place) => Some(MarkedEnd::Stamped(self.stamps[place].1)),
            Err(_) => Some(MarkedEnd::Plain),
        }
    }

    /// Makes each stamped end at most the floor a plain one, and gives their number. It takes no memory.
    pub fn settle(&mut self, floor: u64) -> u64
        ensures marks { self.new ≡ map (settled floor) self.old }
        ensures count { result ≡ count_by (is_settling floor) self.old }
    {
        keep_above(&mut self.stamps, floor)
    }

    /// The number of versions that have ended.
    pub fn count(&self) -> u64
        ensures { result ≡ count_by spec.is_marked self.now }
    {
        self.count
    }

    /// The number of versions whose end is plain or at most the floor: a new copy of the group would leave them out.
    pub fn removable(&self, floor: u64) -> u64
        ensures { result ≡ count_by (spec.is_removable floor) self.now }
    {
        self.count - count_above(&self.stamps, floor)
    }

    /// The positions and commits of the ends that are not plain, in the order of positions.
    pub fn stamps(&self) -> &[(usize, u64)]
        ensures stamps { (p commit : ℕ) → Contains result.now (p, commit) ↔ (slice_get self.now p ≡ Some (Some (MarkedEnd.Stamped commit))) }
        ensures order { AreInOrder result.now }
    {
        self.stamps.as_slice()
    }

    /// Puts the positions of the versions that have ended for a snapshot into a set, those whose end is plain or a
    /// commit at most `s`. By words, and by one pass over the ends that are not plain. After `Memory` nothing has changed.
    pub fn take_ended(&self, s: u64, positions: &mut Positions) -> Result<(), Memory>
        requires { length positions.old ≡ length self.now }
        ensures ok { OnOk result ((p : ℕ) → slice_index_or positions.new p false ≡ (slice_index_or positions.old p false || spec.is_removable s (end_at self.now p))) }
        ensures length { length positions.new ≡ length positions.old }
        ensures err { OnErr result (positions.new ≡ positions.old) }
    {
        let mut ended = self.ended.copy()?;
        take_out_above(&mut ended, &self.stamps, s);
        positions.join(&ended)
    }

    /// Marks equal to these.
    pub fn copy(&self) -> Result<Marks, Memory>
        ensures { IfOk result (λ marks. marks ≡ self.now) }
    {
        Ok(Marks {
            ended: self.ended.copy()?,
            stamps: Vec::from_slice(*self.stamps.allocator(), &self.stamps)?,
            count: self.count,
        })
    }
}
