// The rows of a packed group that a scan keeps, by their positions.
ghost use Rattle.std.specs.Prelude.{◌≡◌, ◌++◌, ◌+◌, ◌≤◌, ◌<◌, ◌^◌, ◌&&◌, ℕ, Bool, List, false, length, map, slice_index_or, IfOk, OnOk};
ghost use Rattle.std.specs.Option.{option_copied};
ghost use Rattle.batch_kernels.specs.Places.{places};
ghost use Rattle.batch_scan.specs.Reads.{AreShown};
ghost use Rattle.batch_scan.specs.Scans.{is_kept, kept_positions, positions_kept, verdicts_of};

use crate::shown::Shown;
use batch_filter::Sieve;
use batch_kernels::chosen;
use cs_base::Memory;
use cs_model::Pred;
use cs_types::Schema;
use delete_bitmap::Marks;
use group_view::Pinned;
use row_group::Packed;
use std::alloc::Global;

/// The verdicts of a predicate over a packed group. None where there is no predicate.
pub fn sieve_of(
    alloc: Global,
    pred: Option<&Pred>,
    packed: &Packed,
    schema: &Schema,
) -> Result<Option<Sieve>, Memory>
    ensures { IfOk result (λ sieve. sieve ≡ verdicts_of schema.now (option_copied pred.entry) packed.now) }
{
    match pred {
        Some(pred) => {
            let sieve = Sieve::of(alloc, pred, packed, schema)?;
            Ok(Some(sieve))
        }
        None => Ok(None),
    }
}

/// A mask of the `count` positions from one on that a sieve keeps; its other places say nothing.
fn kept_mask(sieve: &Option<Sieve>, from: usize, count: usize) -> [bool; 1024]
    requires { count ≤ 1024 }
    ensures { (i : ℕ) → i < count → slice_index_or result i false ≡ is_kept sieve.now (from + i) }
{
    match sieve {
        Some(sieve) => {
            let mut mask = [false; 1024];
            sieve.keep(from, count, &mut mask);
            mask
        }
        None => [true; 1024],
    }
}

/// Those of them that are shown.
fn mask_of(shown: &Shown, sieve: &Option<Sieve>, from: usize, count: usize) -> [bool; 1024]
    requires { count ≤ 1024 }
    ensures { (flags : List Bool) (i : ℕ) → AreShown flags shown.now → from + count ≤ length flags → i < count → slice_index_or result i false ≡ (is_kept sieve.now (from + i) && slice_index_or flags (from + i) false) }
{
    let mut mask = kept_mask(sieve, from, count);
    shown.narrow(from, count, &mut mask);
    mask
}

/// Adds the positions that a mask chooses, of the `count` from one on.
fn push_chosen(
    positions: &mut Vec<usize>,
    mask: &[bool; 1024],
    from: usize,
    count: usize,
) -> Result<(), Memory>
    requires room { count ≤ 1024 }
    requires small { from + count < 2 ^ 64 }
    ensures { OnOk result (positions.new.items ≡ positions.old.items ++ map (λ i. from + i) (places mask.now count)) }
{
    for i in 0..count {
        if mask[i] {
            positions.push(from + i)?;
        }
    }
    Ok(())
}

/// The positions of a packed group that are shown and that a sieve keeps, by batches. One in which nothing is kept is passed over.
fn positions_of(
    alloc: Global,
    len: usize,
    shown: &Shown,
    sieve: &Option<Sieve>,
) -> Result<Vec<usize>, Memory>
    ensures { (flags : List Bool) → AreShown flags shown.now → length flags ≡ len → IfOk result (λ positions. positions.items ≡ positions_kept flags sieve.now) }
{
    let mut positions = Vec::new(alloc);
    let mut from = 0;
    while from < len {
        let count = (len - from).min(1024);
        let mask = mask_of(shown, sieve, from, count);
        if chosen(&mask, count) > 0 {
            push_chosen(&mut positions, &mask, from, count)?;
        }
        from += count;
    }
    Ok(positions)
}

/// The positions of a packed group, in ascending order, at which the statement reads the version and the predicate, if there is
/// one, is True of the row. It is not asked whether the predicate skips the group. No row is made.
pub fn kept_positions(
    alloc: Global,
    pinned: &Pinned,
    pred: Option<&Pred>,
    schema: &Schema,
    packed: &Packed,
    marks: &Marks,
) -> Result<Vec<usize>, Memory>
    requires { length marks.now ≡ length packed.now.rows }
    ensures { IfOk result (λ positions. positions.items ≡ kept_positions pinned.now schema.now (option_copied pred.entry) packed.now marks.now) }
{
    let shown = Shown::of(alloc, pinned, packed, marks)?;
    if shown.is_nowhere() {
        return Ok(Vec::new(alloc));
    }
    let sieve = sieve_of(alloc, pred, packed, schema)?;
    positions_of(alloc, packed.len(), &shown, &sieve)
}
