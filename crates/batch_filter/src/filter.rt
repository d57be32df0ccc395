//! A predicate over a batch of a packed group, judged by codes.

ghost use Rattle.std.specs.Prelude.{◌≡◌, ◌+◌, ◌<◌, ◌&&◌, ℕ, false, Some, length, nat_lt, slice_index_or, OnOk, OnErr};
ghost use Rattle.cs_model.specs.Queries.{keeps};
ghost use Rattle.row_group.specs.Groups.{row_at};

use crate::sieve::Sieve;
use cs_base::Memory;
use cs_model::Pred;
use cs_types::Schema;
use row_group::Packed;
use std::alloc::Global;

/// Puts into the mask of which rows a predicate is True, for the 1,024 positions of a packed group from one on. Place i of the
/// mask is true exactly where `from + i` is the position of a row, a deleted one too, and the predicate is True of it. All verdicts
/// over the group are found for it, so for several batches of one group a `Sieve` is made once and asked for each. After `Memory`
/// the mask is as before.
pub fn filter_codes(
    alloc: Global,
    pred: &Pred,
    packed: &Packed,
    schema: &Schema,
    from: usize,
    mask: &mut [bool; 1024],
) -> Result<(), Memory>
    ensures verdicts { OnOk result ((i : ℕ) → i < 1024 → slice_index_or mask.new i false ≡ (nat_lt (from + i) (length packed.now.rows) && keeps schema.now (Some pred.now) (row_at packed.now (from + i)).cells)) }
    ensures unchanged { OnErr result (mask.new ≡ mask.old) }
{
    let sieve = Sieve::of(alloc, pred, packed, schema)?;
    sieve.keep(from, 1024, mask);
    Ok(())
}
