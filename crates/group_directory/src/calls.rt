// The calls of sessions: their transactions, the floor and the clock.
ghost use Rattle.std.specs.Prelude.{◌≡◌, ℕ, ◌+◌, ◌-◌, ◌<◌, ◌^◌, List, [], IfOk, OnOk, OnErr, IsSome, None, Some};
ghost use Rattle.cs_model.specs.Changes.{Change};
ghost use Rattle.cs_model.specs.Floors.{IsFloor};
ghost use Rattle.txn_table.specs.Txns.{txn_of, with, opened, deepened, widened, depth_of, own_of, snapshots_in, IsSession};
ghost use Rattle.group_book.specs.Book.{empty};
ghost use Rattle.group_view.specs.Books.{book_of};
ghost use Rattle.group_directory.specs.Laws.{MayStage};
ghost use Rattle.group_directory.specs.Stands.{AreSizes, Stands};

use crate::directory::{Directory, Sizes};
use cs_base::Memory;
use cs_types::Schema;
use delete_buffer::Buffer;
use group_view::{GroupList, Groups};
use std::alloc::Global;
use std::sync::Arc;
use txn_table::Txns;
use version_store::Recent;
use write_set::{Own, Write};

/// The groups of a new table: none.
fn no_groups(alloc: Global) -> GroupList
    ensures groups { result.groups.items ≡ [] }
    ensures opened { result.opened ≡ None }
    ensures buffer { result.buffer.entries ≡ [] }
    ensures claims { result.claims.items ≡ [] }
    ensures next { result.next ≡ 1 }
{
    GroupList {
        groups: Groups::from_vec(Vec::new(alloc)),
        opened: None,
        buffer: Buffer::new(alloc),
        claims: Vec::new(alloc),
        next: 1,
    }
}

impl Directory {
    /// The directory of a new table: no group, no transaction and no change. `Memory` where the schema finds no place.
    pub fn new(alloc: Global, schema: Schema, sizes: Sizes) -> Result<Directory, Memory>
        requires { AreSizes sizes }
        ensures stands { IfOk result (λ directory. Stands directory []) }
        ensures schema { IfOk result (λ directory. directory.schema.value ≡ schema) }
        ensures sizes { IfOk result (λ directory. directory.sizes ≡ sizes) }
        ensures txns { IfOk result (λ directory. (session : ℕ) → txn_of directory.txns session ≡ None) }
        ensures next { IfOk result (λ directory. directory.txns.next ≡ 1) }
        ensures clock { IfOk result (λ directory. directory.clock ≡ 0) }
        ensures book { IfOk result (λ directory. book_of directory.list ≡ empty) }
    {
        Directory::empty_at(alloc, schema, sizes, 0)
    }

    /// A directory without groups, transactions and changes, whose clock is `n`: the next commit has a greater number (Larson et
    /// al., PVLDB 2015, section 4). `Memory` where the schema finds no place.
    pub fn empty_at(
        alloc: Global,
        schema: Schema,
        sizes: Sizes,
        n: u64,
    ) -> Result<Directory, Memory>
        requires { AreSizes sizes }
        ensures stands { IfOk result (λ directory. Stands directory []) }
        ensures schema { IfOk result (λ directory. directory.schema.value ≡ schema) }
        ensures sizes { IfOk result (λ directory. directory.sizes ≡ sizes) }
        ensures txns { IfOk result (λ directory. (session : ℕ) → txn_of directory.txns session ≡ None) }
        ensures next { IfOk result (λ directory. directory.txns.next ≡ 1) }
        ensures clock { IfOk result (λ directory. directory.clock ≡ n) }
        ensures book { IfOk result (λ directory. book_of directory.list ≡ empty) }
    {
        let schema = match Arc::new(alloc, schema) {
            Ok(schema) => schema,
            Err(_) => return Err(Memory),
        };
        Ok(Directory {
            alloc,
            schema,
            sizes,
            list: no_groups(alloc),
            txns: Txns::new(),
            recent: Recent::new(alloc),
            pruned: 0,
            kept: 0,
            clock: n,
        })
    }

    /// Opens a transaction of a session, so deep, and gives its number.
    pub fn begin(&mut self, session: u32, depth: u32) -> u64
        requires session { IsSession session }
        requires closed { txn_of self.old.txns session ≡ None }
        requires next { self.old.txns.next < 2 ^ 64 - 1 }
        ensures number { result ≡ self.old.txns.next }
        ensures txns { txn_of self.new.txns ≡ with (txn_of self.old.txns) session (Some (opened self.old.txns.next depth)) }
        ensures next { self.new.txns.next ≡ self.old.txns.next + 1 }
        ensures rest { self.new ≡ record self.old { txns = self.new.txns } }
        ensures stands { (changes : List Change) → Stands self.old changes → Stands self.new changes }
    {
        self.txns.begin(session, depth)
    }

    /// The depth of a session's transaction. None exactly where it has none.
    pub fn depth(&self, session: u32) -> Option<u32>
        requires { IsSession session }
        ensures { result ≡ depth_of (txn_of self.now.txns session) }
    {
        self.txns.depth(session)
    }

    /// Sets the depth of a session's transaction.
    pub fn deepen(&mut self, session: u32, depth: u32)
        requires session { IsSession session }
        requires open { IsSome (txn_of self.old.txns session) }
        ensures txns { txn_of self.new.txns ≡ with (txn_of self.old.txns) session (deepened depth (txn_of self.old.txns session)) }
        ensures next { self.new.txns.next ≡ self.old.txns.next }
        ensures rest { self.new ≡ record self.old { txns = self.new.txns } }
        ensures stands { (changes : List Change) → Stands self.old changes → Stands self.new changes }
    {
        self.txns.deepen(session, depth);
    }

    /// The own writes of a session's transaction, shared; none where it has no transaction.
    pub fn own(&self, session: u32) -> Result<Own, Memory>
        requires { IsSession session }
        ensures { IfOk result (λ own. own ≡ own_of (txn_of self.now.txns session)) }
    {
        self.txns.own(session)
    }

    /// Lays writes over the own ones of a session's transaction. The directory stands for the same changes if they have no
    /// obstacle and say whether their keys are in the table of the snapshot. After `Memory` nothing has changed.
    pub fn stage(&mut self, session: u32, writes: Vec<Write>) -> Result<(), Memory>
        requires session { IsSession session }
        requires open { IsSome (txn_of self.old.txns session) }
        ensures ok { OnOk result (txn_of self.new.txns ≡ with (txn_of self.old.txns) session (widened writes.items (txn_of self.old.txns session))) }
        ensures err { OnErr result (txn_of self.new.txns ≡ txn_of self.old.txns) }
        ensures next { self.new.txns.next ≡ self.old.txns.next }
        ensures rest { self.new ≡ record self.old { txns = self.new.txns } }
        ensures stands { (changes : List Change) (s : ℕ) → Stands self.old changes → MayStage (txn_of self.old.txns) changes session s writes.items → Stands self.new changes }
    {
        self.txns.stage(session, writes)
    }

    /// Ends a session's transaction; its own writes are gone.
    pub fn rollback(&mut self, session: u32)
        requires session { IsSession session }
        requires open { IsSome (txn_of self.old.txns session) }
        ensures txns { txn_of self.new.txns ≡ with (txn_of self.old.txns) session None }
        ensures next { self.new.txns.next ≡ self.old.txns.next }
        ensures rest { self.new ≡ record self.old { txns = self.new.txns } }
        ensures stands { (changes : List Change) → Stands self.old changes → Stands self.new changes }
    {
        self.txns.remove(session);
    }

    /// The least snapshot of the open transactions, or the clock where none has one.
    pub fn floor(&self) -> u64
        ensures { IsFloor (snapshots_in (txn_of self.now.txns)) self.now.clock result }
    {
        self.txns.floor(self.clock)
    }

    /// The number of the last commit.
    pub fn clock(&self) -> u64
        ensures { result ≡ self.now.clock }
    {
        self.clock
    }
}
