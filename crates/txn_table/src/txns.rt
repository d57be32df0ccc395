use crate::changes::{deepen_txn, depth_of_txn, fix_txn, share_own, snapshot_of_txn, stage_txn};
use crate::places::{floor_in, holder_in, others_write_in};
use crate::txn::Txn;
use cs_base::Memory;
use cs_types::Key;
use std::marker::Model;
use std::{array, mem};
use write_set::{Own, Write};

/// The open transactions of sessions 0 to 64. Contracts see by session the open transaction, and beside them the number
/// of the next one.
#[derive(Debug, Drop)]
pub struct Txns {
    /// By session.
    places: [Option<Txn>; 65],
    /// The number of the next transaction.
    next: u64,
}

impl Model for Txns {
    ghost use Rattle.txn_table.specs.Txns.{Table};

    ghost Value = { Table };

    ghost view = { λ txns. record { txns = txns.places; next = txns.next } };
}

impl Txns {
    ghost use Rattle.std.specs.Prelude.{◌≡◌, ◌≢◌, ℕ, ◌+◌, ◌-◌, ◌^◌, ◌<◌, [], true, false, None, Some, IsSome, IfSome, IfNone, IfOk, OnOk, OnErr};
    ghost use Rattle.txn_table.specs.Txns.{IsSession, txn_of, with, opened, deepened, fixed, widened, snapshot_of, depth_of, own_of, Owns, IsHolder, snapshots_in};
    ghost use Rattle.cs_model.specs.Floors.{IsFloor};

    /// No transactions. It takes no memory.
    pub fn new() -> Txns
        ensures none { (session : ℕ) → txn_of result session ≡ None }
        ensures first { result.next ≡ 1 }
    {
        Txns {
            places: array::from_fn(|_| None),
            next: 1,
        }
    }

    /// Opens a transaction of this depth, 0 for an implicit one, without snapshot and own writes. Its number is the next.
    pub fn begin(&mut self, session: u32, depth: u32) -> u64
        requires session { IsSession session }
        requires closed { txn_of self.old session ≡ None }
        requires next { self.old.next < 2 ^ 64 - 1 }
        ensures number { result ≡ self.old.next }
        ensures txns { txn_of self.new ≡ with (txn_of self.old) session (Some (opened self.old.next depth)) }
        ensures next { self.new.next ≡ self.old.next + 1 }
    {
        let number = self.next;
        self.places[session as usize] = Some(Txn {
            number,
            depth,
            snapshot: None,
            own: Own::empty(),
        });
        self.next += 1;
        number
    }

    /// The session's transaction.
    pub fn get(&self, session: u32) -> &Option<Txn>
        requires { IsSession session }
        ensures { result.now ≡ txn_of self.now session }
    {
        &self.places[session as usize]
    }

    /// Gives the session another transaction, or none, and answers the one that it had.
    pub fn replace(&mut self, session: u32, txn: Option<Txn>) -> Option<Txn>
        requires { IsSession session }
        ensures was { result ≡ txn_of self.old session }
        ensures txns { txn_of self.new ≡ with (txn_of self.old) session txn }
        ensures next { self.new.next ≡ self.old.next }
    {
        mem::replace(&mut self.places[session as usize], txn)
    }

    /// The depth of the session's transaction. None exactly where it has none.
    pub fn depth(&self, session: u32) -> Option<u32>
        requires { IsSession session }
        ensures { result ≡ depth_of (txn_of self.now session) }
    {
        depth_of_txn(&self.places[session as usize])
    }

    /// Gives the session's transaction this depth.
    pub fn deepen(&mut self, session: u32, depth: u32)
        requires session { IsSession session }
        requires open { IsSome (txn_of self.old session) }
        ensures txns { txn_of self.new ≡ with (txn_of self.old) session (deepened depth (txn_of self.old session)) }
        ensures next { self.new.next ≡ self.old.next }
    {
        deepen_txn(&mut self.places[session as usize], depth);
    }

    /// The snapshot of the session's transaction. None exactly where it has not taken one.
    pub fn snapshot(&self, session: u32) -> Option<u64>
        requires session { IsSession session }
        requires open { IsSome (txn_of self.now session) }
        ensures { result ≡ snapshot_of (txn_of self.now session) }
    {
        snapshot_of_txn(&self.places[session as usize])
    }

    /// Gives the session's transaction the clock as its snapshot, where it has not taken one.
    pub fn fix(&mut self, session: u32, clock: u64)
        requires session { IsSession session }
        requires open { IsSome (txn_of self.old session) }
        ensures txns { txn_of self.new ≡ with (txn_of self.old) session (fixed clock (txn_of self.old session)) }
        ensures next { self.new.next ≡ self.old.next }
    {
        fix_txn(&mut self.places[session as usize], clock);
    }

    /// The own writes of the session's transaction, shared. They are empty where it has none.
    pub fn own(&self, session: u32) -> Result<Own, Memory>
        requires { IsSession session }
        ensures { IfOk result (λ own. own ≡ own_of (txn_of self.now session)) }
    {
        share_own(&self.places[session as usize])
    }

    /// Lays writes over the own writes of the session's transaction, one for each key, the last one standing. After
    /// `Memory` nothing has changed.
    pub fn stage(&mut self, session: u32, writes: Vec<Write>) -> Result<(), Memory>
        requires session { IsSession session }
        requires open { IsSome (txn_of self.old session) }
        ensures ok { OnOk result (txn_of self.new ≡ with (txn_of self.old) session (widened writes.items (txn_of self.old session))) }
        ensures err { OnErr result (txn_of self.new ≡ txn_of self.old) }
        ensures next { self.new.next ≡ self.old.next }
    {
        stage_txn(&mut self.places[session as usize], writes)
    }

    /// The number of an open transaction of a session other than `but` that has the key among its own writes. None
    /// exactly where there is no such transaction.
    pub fn holder(&self, key: Key, but: u32) -> Option<u64>
        ensures some { IfSome result (IsHolder (txn_of self.now) key but) }
        ensures none { IfNone result ((other : ℕ) → other ≢ but → ¬ Owns (txn_of self.now other) key) }
    {
        holder_in(&self.places, key, but)
    }

    /// Whether an open transaction of a session other than `but` has own writes.
    pub fn others_write(&self, but: u32) -> bool
        ensures some { result ≡ true → (other : ℕ) × (other ≢ but) × (own_of (txn_of self.now other) ≢ []) }
        ensures none { result ≡ false → (other : ℕ) → other ≢ but → own_of (txn_of self.now other) ≡ [] }
    {
        others_write_in(&self.places, but)
    }

    /// The least snapshot of the open transactions, or the clock where none has one.
    pub fn floor(&self, clock: u64) -> u64
        ensures { IsFloor (snapshots_in (txn_of self.now)) clock result }
    {
        floor_in(&self.places, clock)
    }

    /// Takes the session's transaction away.
    pub fn remove(&mut self, session: u32)
        requires session { IsSession session }
        requires open { IsSome (txn_of self.old session) }
        ensures txns { txn_of self.new ≡ with (txn_of self.old) session None }
        ensures next { self.new.next ≡ self.old.next }
    {
        self.replace(session, None);
    }
}
