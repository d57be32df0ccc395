// The calls of movers.
ghost use Rattle.std.specs.Prelude.{◌≡◌, ◌≢◌, ℕ, List, filter, not, option_copied, IfOk, OnErr, IsSome, None, true};
ghost use Rattle.std.specs.Option.{option_map};
ghost use Rattle.cs_model.specs.Changes.{Change};
ghost use Rattle.cs_model.specs.Floors.{IsFloor};
ghost use Rattle.txn_table.specs.Txns.{txn_of, snapshots_in};
ghost use Rattle.group_book.specs.Book.Choice.{Clear, Flush, Idle, Settle};
ghost use Rattle.group_book.specs.Choices.{choice};
ghost use Rattle.group_book.specs.Invariant.{makes_group, AreSourcesOf};
ghost use Rattle.group_book.specs.Turns.{claim_by, released, same_actor};
ghost use Rattle.group_view.specs.Books.{book_of, choice_of};
ghost use Rattle.group_view.specs.Lists.{listed, IsHeld};
ghost use Rattle.group_directory.specs.Calls.{IsAsBefore};
ghost use Rattle.group_directory.specs.Claimed.{IsSound, IsTaken, IsTurnOf};
ghost use Rattle.group_directory.specs.Installing.{held_by};
ghost use Rattle.group_directory.specs.Stands.{Stands};

use crate::claims::{Turn, claim_flush, claim_groups};
use crate::directory::Directory;
use crate::events::{clear, release};
use crate::lists::claim_place;
use crate::settles::settle;
use cs_base::Memory;
use cs_model::Actor;
use group_view::{Choice, Claim, flush_of, next_work};

/// What the turn of an actor does first.
#[derive(Drop)]
pub enum Claimed {
    /// It claims groups to work on: to compress, rebuild or merge them, or to flush entries into them.
    Lent(Claim),
    /// So many ends became plain.
    Settled(u64),
    /// So many tombstones are gone.
    Cleared(u64),
    /// It finds nothing to do.
    Nothing,
}

impl Directory {
    /// Claims these groups to make one group of them.
    fn lend_groups(&mut self, turn: Turn, sources: &[u64]) -> Result<Claimed, Memory>
        requires stands { (changes : List Change) × Stands self.old changes }
        requires turn { IsTurnOf self.old turn }
        requires makes { makes_group (choice_of turn.choice) ≡ true }
        requires sources { AreSourcesOf (choice_of turn.choice) sources.now }
        ensures taken { IfOk result (IsTaken (choice_of turn.choice) turn.floor turn.actor self.old self.new) }
        ensures sound { (changes : List Change) → Stands self.old changes → IfOk result (IsSound self.old.schema.value changes turn.actor) }
        ensures rest { self.new ≡ record self.old { list = self.new.list } }
        ensures same { OnErr result (IsAsBefore self.old self.new) }
        ensures claims { OnErr result (self.new.list.claims.items ≡ self.old.list.claims.items) }
        ensures stands { (changes : List Change) → Stands self.old changes → Stands self.new changes }
    {
        let claim = claim_groups(self.alloc, &mut self.list, &self.schema, turn, sources)?;
        Ok(Claimed::Lent(claim))
    }

    /// Claims the groups in which the versions lie that entries of the delete buffer end, and lends these entries.
    fn lend_flush(&mut self, turn: Turn) -> Result<Claimed, Memory>
        requires stands { (changes : List Change) × Stands self.old changes }
        requires turn { IsTurnOf self.old turn }
        requires flush { choice_of turn.choice ≡ Flush }
        ensures taken { IfOk result (IsTaken (choice_of turn.choice) turn.floor turn.actor self.old self.new) }
        ensures sound { (changes : List Change) → Stands self.old changes → IfOk result (IsSound self.old.schema.value changes turn.actor) }
        ensures rest { self.new ≡ record self.old { list = self.new.list } }
        ensures same { OnErr result (IsAsBefore self.old self.new) }
        ensures claims { OnErr result (self.new.list.claims.items ≡ self.old.list.claims.items) }
        ensures stands { (changes : List Change) → Stands self.old changes → Stands self.new changes }
    {
        let group_view::Flush { sources, entries } = flush_of(self.alloc, &self.list)?;
        let claim = claim_flush(
            self.alloc,
            &mut self.list,
            &self.schema,
            turn,
            sources.as_slice(),
            entries,
        )?;
        Ok(Claimed::Lent(claim))
    }

    /// Makes plain the ends that every snapshot sees, in COMPRESSED groups that no claim has.
    fn settle(&mut self, turn: Turn) -> Result<Claimed, Memory>
        requires stands { (changes : List Change) × Stands self.old changes }
        requires turn { IsTurnOf self.old turn }
        requires settle { choice_of turn.choice ≡ Settle }
        ensures taken { IfOk result (IsTaken (choice_of turn.choice) turn.floor turn.actor self.old self.new) }
        ensures sound { (changes : List Change) → IfOk result (IsSound self.old.schema.value changes turn.actor) }
        ensures rest { self.new ≡ record self.old { list = self.new.list } }
        ensures same { OnErr result (IsAsBefore self.old self.new) }
        ensures claims { OnErr result (self.new.list.claims.items ≡ self.old.list.claims.items) }
        ensures stands { (changes : List Change) → Stands self.old changes → Stands self.new changes }
    {
        let number = settle(self.alloc, &mut self.list, turn.floor)?;
        Ok(Claimed::Settled(number))
    }

    /// Drops all tombstones. It takes no memory.
    fn clear(&mut self, turn: Turn) -> Claimed
        requires stands { (changes : List Change) × Stands self.old changes }
        requires turn { IsTurnOf self.old turn }
        requires clear { choice_of turn.choice ≡ Clear }
        ensures taken { IsTaken (choice_of turn.choice) turn.floor turn.actor self.old self.new result }
        ensures sound { (changes : List Change) → IsSound self.old.schema.value changes turn.actor result }
        ensures rest { self.new ≡ record self.old { list = self.new.list } }
        ensures stands { (changes : List Change) → Stands self.old changes → Stands self.new changes }
    {
        Claimed::Cleared(clear(&mut self.list))
    }

    /// Does what the choice of a turn says first.
    fn take(&mut self, turn: Turn) -> Result<Claimed, Memory>
        requires stands { (changes : List Change) × Stands self.old changes }
        requires turn { IsTurnOf self.old turn }
        ensures busy { OnErr result (choice_of turn.choice ≢ Idle) }
        ensures taken { IfOk result (IsTaken (choice_of turn.choice) turn.floor turn.actor self.old self.new) }
        ensures sound { (changes : List Change) → Stands self.old changes → IfOk result (IsSound self.old.schema.value changes turn.actor) }
        ensures rest { self.new ≡ record self.old { list = self.new.list } }
        ensures same { OnErr result (IsAsBefore self.old self.new) }
        ensures claims { OnErr result (self.new.list.claims.items ≡ self.old.list.claims.items) }
        ensures stands { (changes : List Change) → Stands self.old changes → Stands self.new changes }
    {
        match turn.choice {
            Choice::Compress(source) | Choice::Rebuild(source) => {
                self.lend_groups(turn, &[source])
            }
            Choice::Merge(first, second) => self.lend_groups(turn, &[first, second]),
            Choice::Flush => self.lend_flush(turn),
            Choice::Settle => self.settle(turn),
            Choice::Clear => Ok(self.clear(turn)),
            Choice::Idle => Ok(Claimed::Nothing),
        }
    }

    /// Takes the turn of an actor that holds no claim, up to its work: by the first of the seven choices that there is, at the
    /// present floor (Larson et al., PVLDB 2015, section 4), it claims groups, settles, clears or finds nothing. The claim is
    /// kept, and lent by shares; where a group will be made, its place is taken and its id is drawn, last of all, so that the
    /// install takes no memory.
    ///
    /// `Memory` comes only where there is something to do, and nothing has changed then.
    pub fn claim(&mut self, actor: Actor) -> Result<Claimed, Memory>
        requires none { claim_by actor (book_of self.old.list) ≡ None }
        requires stands { (changes : List Change) × Stands self.old changes }
        ensures busy { (floor : ℕ) → IsFloor (snapshots_in (txn_of self.old.txns)) self.old.clock floor → OnErr result (choice floor self.old.sizes.group_rows actor (book_of self.old.list) ≢ Idle) }
        ensures taken { (floor : ℕ) → IsFloor (snapshots_in (txn_of self.old.txns)) self.old.clock floor → IfOk result (IsTaken (choice floor self.old.sizes.group_rows actor (book_of self.old.list)) floor actor self.old self.new) }
        ensures sound { (changes : List Change) → Stands self.old changes → IfOk result (IsSound self.old.schema.value changes actor) }
        ensures rest { self.new ≡ record self.old { list = self.new.list } }
        ensures same { OnErr result (IsAsBefore self.old self.new) }
        ensures claims { OnErr result (self.new.list.claims.items ≡ self.old.list.claims.items) }
        ensures stands { (changes : List Change) → Stands self.old changes → Stands self.new changes }
    {
        let floor = self.floor();
        let choice = next_work(&self.list, floor, self.sizes.group_rows, actor);
        self.take(Turn {
            actor,
            choice,
            floor,
            clock: self.clock,
        })
    }

    /// The claim that an actor holds. None exactly where it holds none.
    pub fn claim_by(&self, actor: Actor) -> Option<&Claim>
        ensures { option_copied result ≡ option_map (λ held. held.1) (held_by actor self.now.list.claims.items) }
    {
        let place = claim_place(&self.list.claims, actor)?;
        Some(&self.list.claims[place].1)
    }

    /// Gives the claim of an actor back: the group that it was to make is gone, its id is not drawn again, and nothing else
    /// changes. It takes no memory.
    pub fn release(&mut self, actor: Actor)
        requires holds { IsSome (claim_by actor (book_of self.old.list)) }
        requires stands { (changes : List Change) × Stands self.old changes }
        ensures book { book_of self.new.list ≡ released (claim_by actor (book_of self.old.list)) (book_of self.old.list) }
        ensures rest { self.new ≡ record self.old { list = self.new.list } }
        ensures listed { listed self.new.list.groups.items ≡ listed self.old.list.groups.items }
        ensures claims { self.new.list.claims.items ≡ filter (λ held. not (same_actor held.0 actor)) self.old.list.claims.items }
        ensures held { IsHeld self.new.list }
        ensures stands { (changes : List Change) → Stands self.old changes → Stands self.new changes }
    {
        release(&mut self.list, actor);
    }
}
