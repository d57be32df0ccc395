// The commit of a session's own writes, and of writes by their keys.
ghost use Rattle.std.specs.Prelude.{◌≡◌, ◌≢◌, ◌≤◌, ◌<◌, ◌+◌, ◌*◌, ◌^◌, ◌++◌, ◌↔◌, ℕ, List, [], ◌∷◌, length, Option, None, Some, IsSome, IfOk, OnOk, OnErr, Err, true, false, unwrap_or};
ghost use Rattle.std.specs.FinMap as finite;
ghost use Rattle.std.specs.Option.{ForSome};
ghost use Rattle.cs_model.specs.Changes.{Change};
ghost use Rattle.cs_model.specs.Steps.{numbered};
ghost use Rattle.edit_laws.specs.Edits.{edits_of};
ghost use Rattle.delete_buffer.specs.Entries as buffer;
ghost use Rattle.write_set.specs.declared.write.Write.{Write};
ghost use Rattle.write_set.specs.Writes.{write_keys};
ghost use Rattle.txn_table.specs.declared.txn.Txn.{Txn};
ghost use Rattle.txn_table.specs.Txns.{Table, txn_of, with, own_of, IsSession};
ghost use Rattle.version_store.specs.Newest.{Newest, noted_by, HasRoom};
ghost use Rattle.group_book.specs.Commits.{draws_past};
ghost use Rattle.group_view.specs.Books.{book_of};
ghost use Rattle.group_view.specs.Lists.{IsHeld};
ghost use Rattle.group_directory.specs.declared.committing.CommitRefusal.TheVariants as refusal;
ghost use Rattle.group_directory.specs.Stands.{Stands};
ghost use Rattle.group_directory.specs.Committing.{after_parcel};
ghost use Rattle.group_directory.specs.Calls.{replaced_in, commit_number, IsParcelFor, IsCommitOf, IsAsBefore};

use crate::commit_room::{is_past, stores_needed};
use crate::committing::{CommitRefusal, commit};
use crate::directory::Directory;
use cs_base::Memory;
use cs_types::Key;
use group_view::{GroupList, Parcel};
use std::alloc::Global;
use version_store::{NewestChange, Recent};
use write_set::{Own, Write};

/// Newest changes are dropped when they are more than twice as many as were left last time, and this many. Room for more keys than
/// this is not kept where nothing is noted.
const UNPRUNED: usize = 1_024;

/// The keys of writes, in their order.
fn written_keys(alloc: Global, own: &Own) -> Result<Vec<Key>, Memory>
    ensures { IfOk result (λ keys. keys.items ≡ write_keys own.now) }
{
    let mut keys = Vec::with_capacity(alloc, own.len())?;
    for i in 0..own.len() {
        keys.push(own.get(i).key)?;
    }
    Ok(keys)
}

/// Adds the key of a write that replaces or deletes a row.
fn add_replaced(keys: &mut Vec<Key>, write: &Write) -> Result<(), Memory>
    ensures { OnOk result (keys.new.items ≡ keys.old.items ++ replaced_in (write.now ∷ [])) }
{
    if write.replaces {
        keys.push(write.key)?;
    }
    Ok(())
}

/// The keys of writes that replace or delete rows, in their order.
fn replaced_keys(alloc: Global, own: &Own) -> Result<Vec<Key>, Memory>
    ensures { IfOk result (λ keys. keys.items ≡ replaced_in own.now) }
{
    let mut keys = Vec::with_capacity(alloc, own.len())?;
    for i in 0..own.len() {
        add_replaced(&mut keys, own.get(i))?;
    }
    Ok(keys)
}

/// Whether a commit of the parcel would draw a group id above 2^62.
fn is_full(list: &GroupList, group_rows: u64, parcel: &Parcel) -> bool
    requires rows { 1 ≤ group_rows }
    requires held { IsHeld list.now }
    ensures { (c : ℕ) (replaced : List Key) → result ≡ draws_past (book_of list.now) (after_parcel group_rows c replaced parcel.now (book_of list.now)) }
{
    let stores = stores_needed(list, group_rows, parcel.rest.len());
    is_past(list.next, parcel.groups.len(), stores)
}

/// Lets all newest changes go. Their room goes with them where there were any, or where it was made for many keys; else it stays
/// for the next commit.
fn forget(alloc: Global, recent: &mut Recent, keys: &[Key])
    ensures { recent.new.changes ≡ finite.empty }
{
    if 0 < recent.len() || UNPRUNED < keys.len() {
        *recent = Recent::new(alloc);
    }
}

impl Directory {
    /// Drops the newest changes that no open snapshot lies below, where they have become more than twice as many as the last prune
    /// left, and some more: so they stay few while no snapshot is old, and each change pays for little. Open snapshots are judged as
    /// before.
    fn prune(&mut self)
        ensures few { finite.len self.new.recent.changes ≤ 2 * self.new.kept + 1024 }
        ensures rest { self.new ≡ record self.old { recent = self.new.recent; pruned = self.new.pruned; kept = self.new.kept } }
        ensures stands { (changes : List Change) → Stands self.old changes → Stands self.new changes }
    {
        let most = self.kept.saturating_mul(2).saturating_add(UNPRUNED);
        if self.recent.len() <= most {
            return;
        }
        let floor = self.floor();
        self.recent.prune(floor);
        self.pruned = floor;
        self.kept = self.recent.len();
    }

    /// Notes the change as the newest one of each of the keys, and prunes. Where no open snapshot lies below the clock, none ever
    /// will: then nothing has to be noted, and all newest changes go. Either way it stands for whatever it stands for with the keys
    /// noted.
    fn note(&mut self, keys: &[Key], change: NewestChange)
        requires ascending { buffer.Ascend keys.now }
        requires room { HasRoom (length keys.now) self.old.recent }
        requires older { (key : Key) → ForSome (finite.get self.old.recent.changes key) (λ other. other.commit < change.commit) }
        ensures rest { self.new ≡ record self.old { recent = self.new.recent; pruned = self.new.pruned; kept = self.new.kept } }
        ensures stands { (changes : List Change) → ((recent : Newest) → recent.changes ≡ noted_by change self.old.recent.changes keys.now → Stands (record self.old { recent = recent }) changes) → Stands self.new changes }
    {
        let floor = self.floor();
        if floor == self.clock {
            forget(self.alloc, &mut self.recent, keys);
            self.pruned = floor;
            self.kept = 0;
        } else {
            self.recent.note_all(keys, change);
            self.prune();
        }
    }

    /// What a commit of the number makes of the groups, and room to note the keys: all of a commit that memory may be wanting for.
    /// Once the session's transaction is gone, the clock is the number and the keys are noted, the directory stands for the changes
    /// and those of the commit.
    ///
    /// `Memory` comes where memory is wanting. Then nothing has changed.
    fn write_groups(
        &mut self,
        number: u64,
        keys: &[Key],
        ends: &[Key],
        parcel: Parcel,
    ) -> Result<(), CommitRefusal>
        requires number { self.old.clock < number }
        requires given { (changes : List Change) × (session : ℕ) × (list : List Write) × Stands self.old changes × IsCommitOf self.old changes session keys.now ends.now parcel list }
        requires ids { draws_past (book_of self.old.list) (after_parcel self.old.sizes.group_rows number ends.now parcel (book_of self.old.list)) ≡ false }
        ensures rest { self.new ≡ record self.old { list = self.new.list; recent = self.new.recent } }
        ensures noted { self.new.recent.changes ≡ self.old.recent.changes }
        ensures room { OnOk result (HasRoom (length keys.now) self.new.recent) }
        ensures claims { self.new.list.claims ≡ self.old.list.claims }
        ensures book { OnOk result (book_of self.new.list ≡ after_parcel self.old.sizes.group_rows number ends.now parcel (book_of self.old.list)) }
        ensures stands { (changes : List Change) (session txn : ℕ) (list : List Write) (txns : Table) (recent : Newest) → Stands self.old changes → IsCommitOf self.old changes session keys.now ends.now parcel list
            → txn_of txns ≡ with (txn_of self.old.txns) session None → recent.changes ≡ noted_by (record { commit = number; txn = txn }) self.old.recent.changes keys.now
            → OnOk result (Stands (record self.new { txns = txns; recent = recent; clock = number }) (changes ++ numbered number txn (edits_of list))) }
        ensures never { result ≢ Err refusal.Full }
        ensures same { OnErr result (IsAsBefore self.old self.new) }
        ensures refused { (changes : List Change) → Stands self.old changes → OnErr result (Stands self.new changes) }
    {
        self.recent.reserve_all(keys.len())?;
        commit(
            self.alloc,
            &mut self.list,
            self.sizes.group_rows,
            ends,
            parcel,
            number,
        )?;
        Ok(())
    }

    /// Commits under this number what the transaction `txn` wrote: writes of these keys, of which the rows of `ends` are replaced or
    /// deleted, with a parcel of the rows that they insert (Larson et al., PVLDB 2015, section 4). No session has the transaction, and
    /// no open one has written one of the keys: so commits that were made before are made again, in their order. The number becomes
    /// the clock; it may pass over some.
    ///
    /// `Full` comes exactly where a group id above 2^62 would be drawn, and `Memory` where memory is wanting. Then nothing has
    /// changed.
    pub fn commit_at(
        &mut self,
        number: u64,
        txn: u64,
        keys: &[Key],
        ends: &[Key],
        parcel: Parcel,
    ) -> Result<(), CommitRefusal>
        requires number { self.old.clock < number }
        requires given { (changes : List Change) × (list : List Write) × Stands self.old changes × ((session : ℕ) → IsCommitOf self.old changes session keys.now ends.now parcel list) }
        ensures clock { OnOk result (self.new.clock ≡ number) }
        ensures claims { self.new.list.claims ≡ self.old.list.claims }
        ensures rest { self.new ≡ record self.old { list = self.new.list; recent = self.new.recent; pruned = self.new.pruned; kept = self.new.kept; clock = self.new.clock } }
        ensures book { OnOk result (book_of self.new.list ≡ after_parcel self.old.sizes.group_rows number ends.now parcel (book_of self.old.list)) }
        ensures stands { (changes : List Change) (list : List Write) → Stands self.old changes → ((session : ℕ) → IsCommitOf self.old changes session keys.now ends.now parcel list)
            → OnOk result (Stands self.new (changes ++ numbered number txn (edits_of list))) }
        ensures full { (result ≡ Err refusal.Full) ↔ (draws_past (book_of self.old.list) (after_parcel self.old.sizes.group_rows number ends.now parcel (book_of self.old.list)) ≡ true) }
        ensures same { OnErr result (IsAsBefore self.old self.new) }
        ensures refused { (changes : List Change) → Stands self.old changes → OnErr result (Stands self.new changes) }
    {
        if is_full(&self.list, self.sizes.group_rows, &parcel) {
            return Err(CommitRefusal::Full);
        }
        self.write_groups(number, keys, ends, parcel)?;
        self.clock = number;
        self.note(
            keys,
            NewestChange {
                commit: number,
                txn,
            },
        );
        Ok(())
    }

    /// Commits writes with these keys, some of which are replaced ones, and with a parcel of their rows, and ends the session's
    /// transaction. The answer is the number of the commit.
    ///
    /// `Memory` comes where memory is wanting. Then nothing has changed.
    fn commit_keys(
        &mut self,
        session: u32,
        keys: &[Key],
        replaced: &[Key],
        parcel: Parcel,
    ) -> Result<u64, CommitRefusal>
        requires session { IsSession session }
        requires open { IsSome (txn_of self.old.txns session) }
        requires clock { self.old.clock + 1 < 2 ^ 64 }
        requires given { (changes : List Change) × (list : List Write) × Stands self.old changes × IsCommitOf self.old changes session keys.now replaced.now parcel list }
        requires ids { draws_past (book_of self.old.list) (after_parcel self.old.sizes.group_rows (self.old.clock + 1) replaced.now parcel (book_of self.old.list)) ≡ false }
        ensures number { IfOk result (λ number. number ≡ self.old.clock + 1) }
        ensures clock { OnOk result (self.new.clock ≡ self.old.clock + 1) }
        ensures txns { OnOk result (txn_of self.new.txns ≡ with (txn_of self.old.txns) session None) }
        ensures next { self.new.txns.next ≡ self.old.txns.next }
        ensures claims { self.new.list.claims ≡ self.old.list.claims }
        ensures rest { self.new ≡ record self.old { list = self.new.list; txns = self.new.txns; recent = self.new.recent; pruned = self.new.pruned; kept = self.new.kept; clock = self.new.clock } }
        ensures book { OnOk result (book_of self.new.list ≡ after_parcel self.old.sizes.group_rows (self.old.clock + 1) replaced.now parcel (book_of self.old.list)) }
        ensures stands { (changes : List Change) (list : List Write) (txn : Txn) → Stands self.old changes → IsCommitOf self.old changes session keys.now replaced.now parcel list → txn_of self.old.txns session ≡ Some txn
            → OnOk result (Stands self.new (changes ++ numbered (self.old.clock + 1) txn.number (edits_of list))) }
        ensures never { result ≢ Err refusal.Full }
        ensures same { OnErr result (IsAsBefore self.old self.new) }
        ensures refused { (changes : List Change) → Stands self.old changes → OnErr result (Stands self.new changes) }
    {
        let Some(txn) = self.txns.get(session) else {
            unreachable!()
        };
        let change = NewestChange {
            commit: self.clock + 1,
            txn: txn.number,
        };
        self.write_groups(change.commit, keys, replaced, parcel)?;
        self.txns.remove(session);
        self.clock = change.commit;
        self.note(keys, change);
        Ok(change.commit)
    }

    /// Commits the own writes of a session's transaction, with a parcel of the rows that they insert, and ends the
    /// transaction (Larson et al., PVLDB 2015, section 4). The answer is the number of the commit, the clock and one more, or
    /// none where nothing was written, which changes nothing else.
    ///
    /// `Full` comes exactly where there are own writes and a group id above 2^62 would be drawn, and `Memory` where memory is
    /// wanting. Then nothing has changed.
    pub fn commit(&mut self, session: u32, parcel: Parcel) -> Result<Option<u64>, CommitRefusal>
        requires session { IsSession session }
        requires open { IsSome (txn_of self.old.txns session) }
        requires clock { self.old.clock + 1 < 2 ^ 64 }
        requires stands { (changes : List Change) × Stands self.old changes }
        requires parcel { IsParcelFor self.old (own_of (txn_of self.old.txns session)) parcel }
        ensures number { IfOk result (λ number. number ≡ commit_number self.old.clock (own_of (txn_of self.old.txns session))) }
        ensures none { OnOk result (own_of (txn_of self.old.txns session) ≡ [] → self.new ≡ record self.old { txns = self.new.txns }) }
        ensures clock { IfOk result (λ number. self.new.clock ≡ unwrap_or number self.old.clock) }
        ensures txns { OnOk result (txn_of self.new.txns ≡ with (txn_of self.old.txns) session None) }
        ensures next { self.new.txns.next ≡ self.old.txns.next }
        ensures claims { self.new.list.claims ≡ self.old.list.claims }
        ensures rest { self.new ≡ record self.old { list = self.new.list; txns = self.new.txns; recent = self.new.recent; pruned = self.new.pruned; kept = self.new.kept; clock = self.new.clock } }
        ensures book { IfOk result (λ number. (c : ℕ) → number ≡ Some c → book_of self.new.list ≡ after_parcel self.old.sizes.group_rows c (replaced_in (own_of (txn_of self.old.txns session))) parcel (book_of self.old.list)) }
        ensures stands { (changes : List Change) (txn : Txn) → Stands self.old changes → txn_of self.old.txns session ≡ Some txn → OnOk result (Stands self.new (changes ++ numbered (self.old.clock + 1) txn.number (edits_of txn.own))) }
        ensures full { (result ≡ Err refusal.Full) ↔ ((own_of (txn_of self.old.txns session) ≢ []) × (draws_past (book_of self.old.list) (after_parcel self.old.sizes.group_rows (self.old.clock + 1) (replaced_in (own_of (txn_of self.old.txns session))) parcel (book_of self.old.list)) ≡ true)) }
        ensures same { OnErr result (IsAsBefore self.old self.new) }
        ensures refused { (changes : List Change) → Stands self.old changes → OnErr result (Stands self.new changes) }
    {
        let Some(txn) = self.txns.get(session) else {
            unreachable!()
        };
        if txn.own.is_empty() {
            self.txns.remove(session);
            return Ok(None);
        }
        if is_full(&self.list, self.sizes.group_rows, &parcel) {
            return Err(CommitRefusal::Full);
        }
        let keys = written_keys(self.alloc, &txn.own)?;
        let replaced = replaced_keys(self.alloc, &txn.own)?;
        let number = self.commit_keys(session, &keys, &replaced, parcel)?;
        Ok(Some(number))
    }

    /// Commits writes by their keys and a parcel of their rows, by a session whose transaction has no own writes, and ends the
    /// transaction. None of the writes replaces a row. The answer is the number of the commit, the clock and one more, or none
    /// where there are no keys, which changes nothing else.
    ///
    /// `Full` comes exactly where there are keys and a group id above 2^62 would be drawn, and `Memory` where memory is wanting.
    /// Then nothing has changed.
    pub fn load(
        &mut self,
        session: u32,
        keys: &[Key],
        parcel: Parcel,
    ) -> Result<Option<u64>, CommitRefusal>
        requires session { IsSession session }
        requires open { IsSome (txn_of self.old.txns session) }
        requires bare { own_of (txn_of self.old.txns session) ≡ [] }
        requires clock { self.old.clock + 1 < 2 ^ 64 }
        requires given { (changes : List Change) × (list : List Write) × Stands self.old changes × IsCommitOf self.old changes session keys.now [] parcel list }
        ensures number { IfOk result (λ number. number ≡ commit_number self.old.clock keys.now) }
        ensures none { OnOk result (keys.now ≡ [] → self.new ≡ record self.old { txns = self.new.txns }) }
        ensures clock { IfOk result (λ number. self.new.clock ≡ unwrap_or number self.old.clock) }
        ensures txns { OnOk result (txn_of self.new.txns ≡ with (txn_of self.old.txns) session None) }
        ensures next { self.new.txns.next ≡ self.old.txns.next }
        ensures claims { self.new.list.claims ≡ self.old.list.claims }
        ensures rest { self.new ≡ record self.old { list = self.new.list; txns = self.new.txns; recent = self.new.recent; pruned = self.new.pruned; kept = self.new.kept; clock = self.new.clock } }
        ensures book { IfOk result (λ number. (c : ℕ) → number ≡ Some c → book_of self.new.list ≡ after_parcel self.old.sizes.group_rows c [] parcel (book_of self.old.list)) }
        ensures stands { (changes : List Change) (list : List Write) (txn : Txn) → Stands self.old changes → IsCommitOf self.old changes session keys.now [] parcel list → txn_of self.old.txns session ≡ Some txn
            → OnOk result (Stands self.new (changes ++ numbered (self.old.clock + 1) txn.number (edits_of list))) }
        ensures full { (result ≡ Err refusal.Full) ↔ ((keys.now ≢ []) × (draws_past (book_of self.old.list) (after_parcel self.old.sizes.group_rows (self.old.clock + 1) [] parcel (book_of self.old.list)) ≡ true)) }
        ensures same { OnErr result (IsAsBefore self.old self.new) }
        ensures refused { (changes : List Change) → Stands self.old changes → OnErr result (Stands self.new changes) }
    {
        if keys.is_empty() {
            self.txns.remove(session);
            return Ok(None);
        }
        if is_full(&self.list, self.sizes.group_rows, &parcel) {
            return Err(CommitRefusal::Full);
        }
        let number = self.commit_keys(session, keys, &[], parcel)?;
        Ok(Some(number))
    }
}
