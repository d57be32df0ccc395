// The stamps of ends that are not plain: a position and the number of a commit each, in the order of positions.
ghost use Rattle.std.specs.Prelude.{◌≡◌, ◌+◌, ◌-◌, ◌<◌, ◌≤◌, ◌++◌, length, filter, take, count_by, slice_index_or, vec_len, vec_capacity, All, IfOk, IfErr, IsPermutation};
ghost use Rattle.std.specs.Bool.{OnTrue, OnFalse};
ghost use Rattle.delete_bitmap.specs.Kept.{is_above, no_stamp, positions_of, stamped, without_above, without_stamp, AreInOrder, HasNone, IsStampAt, IsGapFor};

use crate::positions::Positions;
use cs_base::Memory;
use std::alloc::Global;

/// The place of a position's stamp, or where it would go.
pub fn place_of(stamps: &[(usize, u64)], position: usize) -> Result<usize, usize>
    requires { AreInOrder stamps.now }
    ensures found { IfOk result (IsStampAt stamps.now position) }
    ensures absent { IfErr result (IsGapFor stamps.now position) }
{
    stamps.binary_search_by_key(&position, |&(place, _)| place)
}

/// Keeps the stamps above the floor, and gives the number of the others.
pub fn keep_above(stamps: &mut Vec<(usize, u64)>, floor: u64) -> u64
    ensures kept { stamps.new.items ≡ filter (is_above floor) stamps.old.items }
    ensures count { result + length stamps.new.items ≡ length stamps.old.items }
{
    let all = stamps.len();
    stamps.retain(|(_, commit)| *commit > floor);
    (all - stamps.len()) as u64
}

/// The number of stamps above the floor.
pub fn count_above(stamps: &[(usize, u64)], floor: u64) -> u64
    ensures { result ≡ count_by (is_above floor) stamps.now }
{
    stamps.iter().filter(|(_, commit)| *commit > floor).count() as u64
}

/// Takes the positions of stamps above the floor out of a set.
pub fn take_out_above(positions: &mut Positions, stamps: &[(usize, u64)], floor: u64)
    requires { All (λ s. s.0 < length positions.old) stamps.now }
    ensures { positions.new ≡ without_above floor stamps.now positions.old }
{
    for stamp in stamps {
        take_out_if_above(positions, *stamp, floor);
    }
}

/// Takes the position of a stamp out of a set, where the stamp is above the floor.
fn take_out_if_above(positions: &mut Positions, stamp: (usize, u64), floor: u64)
    requires { stamp.0 < length positions.old }
    ensures { positions.new ≡ without_stamp floor positions.old stamp }
{
    let (position, commit) = stamp;
    if commit > floor {
        positions.remove(position);
    }
}

/// A stamp of each position, all with one commit.
pub fn stamped(alloc: Global, positions: &[usize], commit: u64) -> Result<Vec<(usize, u64)>, Memory>
    ensures { IfOk result (λ stamps. stamps.items ≡ stamped positions.now commit) }
{
    let mut stamps = Vec::with_capacity(alloc, positions.len())?;
    for position in positions {
        stamps.push((*position, commit))?;
    }
    Ok(stamps)
}

/// The positions of stamps.
pub fn positions_of(alloc: Global, stamps: &[(usize, u64)]) -> Result<Vec<usize>, Memory>
    ensures { IfOk result (λ positions. positions.items ≡ positions_of stamps.now) }
{
    let mut positions = Vec::with_capacity(alloc, stamps.len())?;
    for stamp in stamps {
        positions.push(stamp.0)?;
    }
    Ok(positions)
}

/// Adds other stamps, at positions none of which has one, in one pass. There is room for them.
pub fn add_all(stamps: &mut Vec<(usize, u64)>, others: &[(usize, u64)])
    requires room { vec_len stamps.old + length others.now ≤ vec_capacity stamps.old }
    requires order { AreInOrder stamps.old.items }
    requires ascending { AreInOrder others.now }
    requires apart { All (λ s. HasNone s.0 stamps.old.items) others.now }
    ensures stamps { IsPermutation (others.now ++ stamps.old.items) stamps.new.items }
    ensures order { AreInOrder stamps.new.items }
{
    let count = stamps.len();
    append(stamps, others);
    merge(stamps, count, others);
}

/// Puts other stamps after these. There is room for them.
fn append(stamps: &mut Vec<(usize, u64)>, others: &[(usize, u64)])
    requires { vec_len stamps.old + length others.now ≤ vec_capacity stamps.old }
    ensures { stamps.new.items ≡ stamps.old.items ++ others.now }
{
    for stamp in others {
        stamps.push_reserved(*stamp);
    }
}

/// Merges other stamps into the first `count` stamps, from the back. What stands after these is written over.
fn merge(stamps: &mut [(usize, u64)], count: usize, others: &[(usize, u64)])
    requires sized { length stamps.old ≡ count + length others.now }
    requires order { AreInOrder (take count stamps.old) }
    requires ascending { AreInOrder others.now }
    requires apart { All (λ s. HasNone s.0 (take count stamps.old)) others.now }
    ensures stamps { IsPermutation (others.now ++ take count stamps.old) stamps.new }
    ensures order { AreInOrder stamps.new }
{
    let mut old = count;
    let mut new = others.len();
    while new > 0 {
        let stamp = others[new - 1];
        if is_last_past(stamps, old, stamp.0) {
            old -= 1;
            stamps[old + new] = stamps[old];
        } else {
            new -= 1;
            stamps[old + new] = stamp;
        }
    }
}

/// Whether the last of the first `count` stamps stands at a greater position than this one.
fn is_last_past(stamps: &[(usize, u64)], count: usize, position: usize) -> bool
    requires { count ≤ length stamps.now }
    ensures past { OnTrue result ((0 < count) × (position < (slice_index_or stamps.now (count - 1) no_stamp).0)) }
    ensures other { OnFalse result (0 < count → (slice_index_or stamps.now (count - 1) no_stamp).0 ≤ position) }
{
    count > 0 && stamps[count - 1].0 > position
}
