// The turns of movers, but for their entries.
ghost use Rattle.std.specs.Prelude.{◌≡◌, ℕ, List, length, IsSome, Some, None, true};
ghost use Rattle.cs_types.specs.Schemas.{IsSchema};
ghost use Rattle.cs_model.specs.declared.work.Actor.{Actor};
ghost use Rattle.cs_model.specs.Changes.{Change};
ghost use Rattle.cs_model.specs.Floors.{IsFloor};
ghost use Rattle.txn_table.specs.Txns.{txn_of, snapshots_in};
ghost use Rattle.group_book.specs.Book.{Book, is_opened};
ghost use Rattle.group_book.specs.Book.Choice.{Flush};
ghost use Rattle.group_book.specs.Choices as spec;
ghost use Rattle.group_book.specs.Choices.{choice, choice_work, flushable, id_in, lowest};
ghost use Rattle.group_book.specs.Invariant.{makes_group};
ghost use Rattle.group_book.specs.Turns.{after_close, claim_by, made_of};
ghost use Rattle.group_directory.specs.Stands.{Stands};
ghost use Rattle.group_view.specs.declared.claim.Claim.{Claim};
ghost use Rattle.group_view.specs.Books.{choice_of, claim_of};
ghost use Rattle.group_view.specs.Claims.{lent_entries, IsProductOf};
ghost use Rattle.group_view.specs.Views.{endings_of};
ghost use Rattle.statement_core.specs.CoreState.{state_of, groups_of, claims_of};
ghost use Rattle.statement_core.specs.Fit.{AreFitting};
ghost use Rattle.statement_core.specs.Movers.{GivesTurn, IsFirstOf, IsOfWork};

use crate::core_state::CoreState;
use cs_model::{Actor, Work};
use group_directory::Claimed;
use group_view::{Choice, Claim, Product};

/// What the first event of a turn gave.
#[derive(Drop)]
pub enum Turned {
    /// Groups are lent, to be worked on outside the core. An install or a release ends the turn.
    Lent(Claim),
    /// The turn was this event: ends became plain, or tombstones are gone.
    Alone,
    /// There was no memory for a turn; that is the event.
    Short,
    /// There is nothing to do, and no event.
    Idle,
}

/// The id of the group that a claim makes; 0 where it makes none.
fn fresh_of(claim: &Claim) -> u64
    ensures { result ≡ id_in claim.now.fresh }
{
    claim.fresh.unwrap_or(0)
}

/// How many versions the new group of a product has; 0 where there is none.
fn rows_of(product: &Product) -> u64
    ensures { (held : Actor × Claim) → makes_group (choice_of held.1.choice) ≡ true → IsProductOf held.1 product.now → result ≡ length (made_of (claim_of held)) }
{
    match product {
        Product::Group {
            group: Some((packed, _)),
            ..
        } => packed.len() as u64,
        Product::Group { group: None, .. } => 0,
        Product::Marked(_) => 0,
    }
}

/// The work that a claim is.
fn claim_work(claim: &Claim) -> Work
    requires { IsOfWork (choice_of claim.now.choice) }
    ensures { (floor : ℕ) (book : Book) → (makes_group (choice_of claim.now.choice) ≡ true → id_in claim.now.fresh ≡ book.next)
        → (choice_of claim.now.choice ≡ Flush → length claim.now.entries ≡ length (flushable book)) → choice_work (choice_of claim.now.choice) floor book ≡ Some result }
{
    let fresh = fresh_of(claim);
    match claim.choice {
        Choice::Compress(source) => Work::ClaimCompress { source, fresh },
        Choice::Flush => Work::ClaimFlush {
            entries: claim.entries.len() as u64,
        },
        Choice::Rebuild(source) => Work::ClaimRebuild { source, fresh },
        Choice::Merge(first, second) => Work::ClaimMerge {
            first,
            second,
            fresh,
        },
        Choice::Settle => unreachable!(),
        Choice::Clear => unreachable!(),
        Choice::Idle => unreachable!(),
    }
}

/// The work that the install of a product is.
pub fn install_work(claim: &Claim, product: &Product) -> Work
    requires { IsOfWork (choice_of claim.now.choice) }
    ensures { (actor : Actor) → (choice_of claim.now.choice ≡ Flush → endings_of claim.now.entries ≡ lent_entries claim.now) → IsProductOf claim.now product.now
        → spec.install_work (choice_of claim.now.choice) (claim_of (actor, claim.now)) ≡ Some result }
{
    let fresh = fresh_of(claim);
    let rows = rows_of(product);
    match claim.choice {
        Choice::Compress(source) => Work::InstallCompress {
            source,
            fresh,
            rows,
        },
        Choice::Flush => Work::InstallFlush {
            entries: claim.entries.len() as u64,
        },
        Choice::Rebuild(source) => Work::InstallRebuild {
            source,
            fresh,
            rows,
        },
        Choice::Merge(first, second) => Work::InstallMerge {
            first,
            second,
            fresh,
            rows,
        },
        Choice::Settle => unreachable!(),
        Choice::Clear => unreachable!(),
        Choice::Idle => unreachable!(),
    }
}

/// The work that the release of a claim is.
pub fn release_work(claim: &Claim) -> Work
    requires { IsOfWork (choice_of claim.now.choice) }
    ensures { (actor : Actor) → (choice_of claim.now.choice ≡ Flush → endings_of claim.now.entries ≡ lent_entries claim.now)
        → spec.release_work (choice_of claim.now.choice) (claim_of (actor, claim.now)) ≡ Some result }
{
    let fresh = fresh_of(claim);
    match claim.choice {
        Choice::Compress(source) => Work::ReleaseCompress { source, fresh },
        Choice::Flush => Work::ReleaseFlush {
            entries: claim.entries.len() as u64,
        },
        Choice::Rebuild(source) => Work::ReleaseRebuild { source, fresh },
        Choice::Merge(first, second) => Work::ReleaseMerge {
            first,
            second,
            fresh,
        },
        Choice::Settle => unreachable!(),
        Choice::Clear => unreachable!(),
        Choice::Idle => unreachable!(),
    }
}

/// The first event of an actor's turn, with its work; there is none where there is nothing to do. After want of memory, which is
/// a work too, nothing has changed.
pub fn claim(held: &mut CoreState, actor: Actor) -> (Turned, Option<Work>)
    requires none { claim_by actor (groups_of held.old) ≡ None }
    requires stands { (changes : List Change) × Stands held.old.directory changes }
    ensures first { (floor : ℕ) → IsFloor (snapshots_in (txn_of held.old.directory.txns)) held.old.directory.clock floor
        → IsFirstOf (choice floor held.old.directory.sizes.group_rows actor (groups_of held.old)) floor actor (groups_of held.old) result.0 result.1 (groups_of held.new) }
    ensures turned { (changes : List Change) → Stands held.old.directory changes → IsSchema held.old.directory.schema.value → AreFitting held.old.directory.schema.value changes
        → GivesTurn actor (claims_of held.old) (claims_of held.new) result.0 }
    ensures state { (changes : List Change) → state_of changes held.new ≡ state_of changes held.old }
    ensures sizes { held.new.directory.sizes ≡ held.old.directory.sizes }
    ensures schema { held.new.directory.schema ≡ held.old.directory.schema }
    ensures stands { (changes : List Change) → Stands held.old.directory changes → Stands held.new.directory changes }
{
    match held.directory.claim(actor) {
        Ok(Claimed::Lent(claim)) => {
            let work = claim_work(&claim);
            (Turned::Lent(claim), Some(work))
        }
        Ok(Claimed::Settled(ends)) => (Turned::Alone, Some(Work::Settle { ends })),
        Ok(Claimed::Cleared(groups)) => (Turned::Alone, Some(Work::Clear { groups })),
        Ok(Claimed::Nothing) => (Turned::Idle, None),
        Err(_) => (Turned::Short, Some(Work::Memory)),
    }
}

/// Closes the open store, and answers its id; None, with nothing changed, where no store is open.
pub fn close_opened(held: &mut CoreState) -> Option<u64>
    requires stands { (changes : List Change) × Stands held.old.directory changes }
    ensures closed { result ≡ lowest (λ group. is_opened group.content) (groups_of held.old).groups }
    ensures book { groups_of held.new ≡ after_close (groups_of held.old) }
    ensures state { (changes : List Change) → state_of changes held.new ≡ state_of changes held.old }
    ensures claims { claims_of held.new ≡ claims_of held.old }
    ensures sizes { held.new.directory.sizes ≡ held.old.directory.sizes }
    ensures schema { held.new.directory.schema ≡ held.old.directory.schema }
    ensures stands { (changes : List Change) → Stands held.old.directory changes → Stands held.new.directory changes }
{
    held.directory.close_opened()
}
