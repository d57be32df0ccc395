// The work of a claim.
ghost use Rattle.std.specs.Prelude.{◌≡◌, ℕ, true, IfOk};
ghost use Rattle.group_book.specs.Book.Choice.{Compress, Rebuild, Merge};
ghost use Rattle.group_book.specs.Invariant.{makes_group};
ghost use Rattle.group_view.specs.Books.{choice_of};
ghost use Rattle.group_view.specs.Claims.{IsMendable, IsProductOf};

use crate::flushes::locate;
use crate::groups::new_group;
use crate::kept::kept_rows;
use crate::spent::spent;
use cs_base::{Items, Memory};
use group_view::{Choice, Claim, Product};
use std::alloc::Global;

/// The new group of a compress, a rebuild or a merge. Of the versions that the claim lends it keeps those that had not ended at
/// its floor, with begins of at least that, and packs them with the floor as the base (Larson et al., PVLDB 2015, section 4).
/// Recorded ends above the floor stand in the new bitmap. The entries of the buffer by which versions are left out go with
/// them.
fn new_product(alloc: Global, claim: &Claim) -> Result<Product, Memory>
    requires mendable { IsMendable claim.now }
    requires kind { makes_group (choice_of claim.now.choice) ≡ true }
    ensures { IfOk result (IsProductOf claim.now) }
{
    let kept = kept_rows(alloc, claim)?;
    let group = new_group(alloc, claim, kept)?;
    let spent = Items::from_vec(spent(alloc, claim)?);
    Ok(Product::Group { group, spent })
}

/// The packed group of a CLOSED store: the versions that had not ended at the claim's floor, with begins of at least that.
/// `Memory` comes only where there is no room for it or on the way to it.
pub fn compress(alloc: Global, claim: &Claim) -> Result<Product, Memory>
    requires mendable { IsMendable claim.now }
    requires kind { (source : ℕ) × (choice_of claim.now.choice ≡ Compress source) }
    ensures { IfOk result (IsProductOf claim.now) }
{
    new_product(alloc, claim)
}

/// A packed group anew, without the versions that had ended at the claim's floor. `Memory` as at `compress`.
pub fn repack(alloc: Global, claim: &Claim) -> Result<Product, Memory>
    requires mendable { IsMendable claim.now }
    requires kind { (source : ℕ) × (choice_of claim.now.choice ≡ Rebuild source) }
    ensures { IfOk result (IsProductOf claim.now) }
{
    new_product(alloc, claim)
}

/// Two packed groups as one, without the versions that had ended at the claim's floor. `Memory` as at `compress`.
pub fn merge(alloc: Global, claim: &Claim) -> Result<Product, Memory>
    requires mendable { IsMendable claim.now }
    requires kind { (first second : ℕ) × (choice_of claim.now.choice ≡ Merge first second) }
    ensures { IfOk result (IsProductOf claim.now) }
{
    new_product(alloc, claim)
}

/// The work of a claim, by its kind: `compress`, `locate` for a flush, `repack` for a rebuild, or `merge`. Other kinds have
/// none.
pub fn work(alloc: Global, claim: &Claim) -> Result<Product, Memory>
    requires { IsMendable claim.now }
    ensures { IfOk result (IsProductOf claim.now) }
{
    match claim.choice {
        Choice::Flush => locate(alloc, claim),
        Choice::Compress(_) => compress(alloc, claim),
        Choice::Rebuild(_) => repack(alloc, claim),
        Choice::Merge(_, _) => merge(alloc, claim),
        Choice::Settle => unreachable!(),
        Choice::Clear => unreachable!(),
        Choice::Idle => unreachable!(),
    }
}
