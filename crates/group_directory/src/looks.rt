// What is read of a directory: views, the ledger, and what a statement reads; and a close, which no reader sees.
ghost use Rattle.std.specs.Prelude.{◌≡◌, ◌≤◌, ℕ, List, length, map, IfOk, IsSome, OnOk, OnErr, Some};
ghost use Rattle.std.specs.List.{flat_map};
ghost use Rattle.cs_model.specs.Changes.{Change, table};
ghost use Rattle.txn_table.specs.Txns.{txn_of, with, fixed, own_of, snapshots_in, IsSession};
ghost use Rattle.group_book.specs.Book.{is_opened};
ghost use Rattle.group_book.specs.Turns.{after_close};
ghost use Rattle.group_book.specs.Choices.{lowest};
ghost use Rattle.group_view.specs.Books.{book_of};
ghost use Rattle.group_view.specs.Lists.{IsHeld};
ghost use Rattle.group_view.specs.Views.{IsView, ShowsTables};
ghost use Rattle.group_directory.specs.Laws.{IsLookAt};
ghost use Rattle.group_log.specs.Reports.{line_of};
ghost use Rattle.group_directory.specs.Ledgers.{holders_of};
ghost use Rattle.group_directory.specs.Stands.{width_in, Stands};

use crate::counts::ledger;
use crate::directory::Directory;
use crate::events::close;
use crate::ledger::Ledger;
use crate::rows::rows;
use crate::share::view_of;
use cs_base::Memory;
use group_view::{GroupView, Pinned};

impl Directory {
    /// The view of this moment. It shows at each snapshot from its floor to its clock the table of that snapshot, whatever
    /// comes later, and changes nothing that is read. After `Memory` nothing of it has changed either.
    pub fn look(&mut self) -> Result<GroupView, Memory>
        requires { IsHeld self.old.list }
        ensures look { IfOk result (IsLookAt self.old) }
        ensures view { IfOk result (λ view. (changes : List Change) → Stands self.old changes → IsView view) }
        ensures shows { IfOk result (λ view. (changes : List Change) → Stands self.old changes → ShowsTables (width_in self.old) view changes) }
        ensures book { book_of self.new.list ≡ book_of self.old.list }
        ensures claims { self.new.list.claims.items ≡ self.old.list.claims.items }
        ensures rest { self.new ≡ record self.old { list = self.new.list } }
        ensures held { IsHeld self.new.list }
        ensures stands { (changes : List Change) → Stands self.old changes → Stands self.new changes }
    {
        let floor = self.txns.floor(self.clock);
        view_of(self.alloc, &mut self.list, floor, self.clock)
    }

    /// What a statement of a session reads: the groups of this moment, the own writes of the session's transaction, and its
    /// snapshot, which is taken now where there is none yet. After `Memory` there is no snapshot more.
    pub fn pin(&mut self, session: u32) -> Result<Pinned, Memory>
        requires held { IsHeld self.old.list }
        requires session { IsSession session }
        requires open { IsSome (txn_of self.old.txns session) }
        ensures own { IfOk result (λ pinned. pinned.own ≡ own_of (txn_of self.old.txns session)) }
        ensures look { IfOk result (λ pinned. IsLookAt self.old pinned.view) }
        ensures snapshot { IfOk result (λ pinned. snapshots_in (txn_of self.new.txns) session ≡ Some pinned.snapshot) }
        ensures view { IfOk result (λ pinned. (changes : List Change) → Stands self.old changes → IsView pinned.view) }
        ensures shows { IfOk result (λ pinned. (changes : List Change) → Stands self.old changes → ShowsTables (width_in self.old) pinned.view changes) }
        ensures txns { OnOk result (txn_of self.new.txns ≡ with (txn_of self.old.txns) session (fixed self.old.clock (txn_of self.old.txns session))) }
        ensures err { OnErr result (self.new.txns ≡ self.old.txns) }
        ensures next { self.new.txns.next ≡ self.old.txns.next }
        ensures book { book_of self.new.list ≡ book_of self.old.list }
        ensures clock { self.new.clock ≡ self.old.clock }
        ensures claims { self.new.list.claims.items ≡ self.old.list.claims.items }
        ensures rest { self.new ≡ record self.old { list = self.new.list; txns = self.new.txns } }
        ensures held { IsHeld self.new.list }
        ensures stands { (changes : List Change) → Stands self.old changes → Stands self.new changes }
    {
        let own = self.txns.own(session)?;
        let view = self.look()?;
        self.txns.fix(session, self.clock);
        match self.txns.snapshot(session) {
            Some(snapshot) => Ok(Pinned {
                view,
                own,
                snapshot,
            }),
            None => unreachable!(),
        }
    }

    /// The groups by their counts, the number of buffered ends, and who holds which groups.
    pub fn ledger(&self) -> Result<Ledger, Memory>
        requires { IsHeld self.now.list }
        ensures lines { IfOk result (λ ledger. ledger.lines ≡ map line_of (book_of self.now.list).groups) }
        ensures buffered { IfOk result (λ ledger. ledger.buffered ≡ length (book_of self.now.list).buffer) }
        ensures holders { IfOk result (λ ledger. ledger.holders ≡ flat_map holders_of self.now.list.claims.items) }
    {
        ledger(self.alloc, &self.list)
    }

    /// How many rows the table has at the clock, from the counts of the groups: no row is read.
    pub fn rows(&self) -> u128
        requires { IsHeld self.now.list }
        ensures { (changes : List Change) → Stands self.now changes → result ≡ length (table changes self.now.clock) }
    {
        rows(&self.list)
    }

    /// Closes the OPEN group, and gives its id. None, with nothing changed, exactly where there is none. It takes no memory: what a
    /// view needs to share the store is taken by the first view.
    pub fn close_opened(&mut self) -> Option<u64>
        requires { IsHeld self.old.list }
        ensures closed { result ≡ lowest (λ group. is_opened group.content) (book_of self.old.list).groups }
        ensures book { book_of self.new.list ≡ after_close (book_of self.old.list) }
        ensures claims { self.new.list.claims.items ≡ self.old.list.claims.items }
        ensures rest { self.new ≡ record self.old { list = self.new.list } }
        ensures held { IsHeld self.new.list }
        ensures stands { (changes : List Change) → Stands self.old changes → Stands self.new changes }
    {
        close(&mut self.list)
    }
}
