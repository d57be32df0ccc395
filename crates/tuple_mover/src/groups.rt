// The new group of a claim.
ghost use Rattle.std.specs.Prelude.{◌≡◌, ◌≢◌, ◌<◌, ℕ, length, map, slice_index, All, AllPairs, Contains, IfOk};
ghost use Rattle.group_view.specs.Views.{buffer_of, rowed_of};
ghost use Rattle.group_view.specs.Claims.{IsMadeOf, IsMendable};
ghost use Rattle.tuple_mover.specs.Kept.{kept_of, AreMarkedAt, HasKept};

use crate::flushes::sort_once;
use crate::kept::Kept;
use cs_base::Memory;
use delete_bitmap::Marks;
use group_view::Claim;
use row_group::Packed;
use std::alloc::Global;
use std::sync::Arc;

/// The ends of rows that stand at these positions, with the rows' positions in place of their places.
fn positioned(
    alloc: Global,
    ends: &[(usize, u64)],
    positions: &[usize],
) -> Result<Vec<(usize, u64)>, Memory>
    requires { All (λ end. end.0 < length positions.now) ends.now }
    ensures { IfOk result (λ positioned. positioned.items ≡ map (λ end. (slice_index positions.now end.0, end.1)) ends.now) }
{
    let mut positioned = Vec::with_capacity(alloc, ends.len())?;
    for end in ends {
        positioned.push((positions[end.0], end.1))?;
    }
    Ok(positioned)
}

/// The bitmap of a group whose rows stand at these positions, with the ends of some of them by their places. They are sorted by
/// position, and marked in one pass.
fn marks_of(alloc: Global, ends: &[(usize, u64)], positions: &[usize]) -> Result<Marks, Memory>
    requires places { All (λ end. end.0 < length positions.now) ends.now }
    requires once { (x y : ℕ × ℕ) → Contains ends.now x → Contains ends.now y → x.0 ≡ y.0 → x.1 ≡ y.1 }
    requires within { All (λ position. position < length positions.now) positions.now }
    requires apart { AllPairs (λ a b. a ≢ b) positions.now }
    ensures { IfOk result (AreMarkedAt ends.now positions.now) }
{
    let mut positioned = positioned(alloc, ends, positions)?;
    sort_once(&mut positioned);
    let mut marks = Marks::new(alloc, positions.len())?;
    marks.mark_each(&positioned)?;
    Ok(marks)
}

/// The group of what is kept, with a bitmap of the later ends. None where nothing is kept.
pub(crate) fn new_group(
    alloc: Global,
    claim: &Claim,
    kept: Kept,
) -> Result<Option<(Arc<Packed>, Arc<Marks>)>, Memory>
    requires mendable { IsMendable claim.now }
    requires kept { HasKept (length claim.now.schema.value.columns) (kept_of claim.now.floor (buffer_of claim.now.view) (rowed_of claim.now.view)) kept }
    ensures { IfOk result (IsMadeOf claim.now) }
{
    let Kept { packer, ends } = kept;
    let Some((packed, positions)) = packer.pack_placed(&claim.schema, claim.floor)? else {
        return Ok(None);
    };
    let marks = marks_of(alloc, &ends, &positions)?;
    let marks = Arc::new(alloc, marks)?;
    Ok(Some((Arc::new(alloc, packed)?, marks)))
}
