// What is read of one place, and done to it.
ghost use Rattle.std.specs.Prelude.{◌≡◌, ◌↔◌, [], Some, IsTrue, IfSome, IfNone, IfOk, OnOk, OnErr};
ghost use Rattle.txn_table.specs.Txns.{deepened, fixed, widened, snapshot_of, depth_of, own_of, Owns, OwnsAs};

use crate::txn::Txn;
use cs_base::Memory;
use cs_types::Key;
use write_set::{Own, Write};

/// Gives the transaction another depth.
pub fn deepen_txn(txn: &mut Option<Txn>, depth: u32)
    ensures { txn.new ≡ deepened depth txn.old }
{
    if let Some(txn) = txn {
        txn.depth = depth;
    }
}

/// Gives the transaction a snapshot, where it has none.
pub fn fix_txn(txn: &mut Option<Txn>, clock: u64)
    ensures { txn.new ≡ fixed clock txn.old }
{
    if let Some(txn) = txn
        && txn.snapshot.is_none()
    {
        txn.snapshot = Some(clock);
    }
}

/// The transaction's depth, where there is one.
pub fn depth_of_txn(txn: &Option<Txn>) -> Option<u32>
    ensures { result ≡ depth_of txn.now }
{
    match txn {
        None => None,
        Some(txn) => Some(txn.depth),
    }
}

/// The transaction's snapshot, where there is one.
pub fn snapshot_of_txn(txn: &Option<Txn>) -> Option<u64>
    ensures { result ≡ snapshot_of txn.now }
{
    match txn {
        None => None,
        Some(txn) => txn.snapshot,
    }
}

/// The transaction's number, where it has written the key.
pub fn number_of_owner(txn: &Option<Txn>, key: Key) -> Option<u64>
    ensures some { IfSome result (OwnsAs txn.now key) }
    ensures none { IfNone result (¬ Owns txn.now key) }
{
    match txn {
        None => None,
        Some(txn) => number_where_owned(txn, key),
    }
}

fn number_where_owned(txn: &Txn, key: Key) -> Option<u64>
    ensures some { IfSome result (λ number. (txn.now.number ≡ number) × Owns (Some txn.now) key) }
    ensures none { IfNone result (¬ Owns (Some txn.now) key) }
{
    match txn.own.find(key) {
        None => None,
        Some(_) => Some(txn.number),
    }
}

/// Whether there is no transaction, or it has no own writes.
pub fn writes_nothing(txn: &Option<Txn>) -> bool
    ensures { IsTrue result ↔ (own_of txn.now ≡ []) }
{
    match txn {
        None => true,
        Some(txn) => txn.own.is_empty(),
    }
}

/// The own writes of the transaction, shared.
pub fn share_own(txn: &Option<Txn>) -> Result<Own, Memory>
    ensures { IfOk result (λ own. own ≡ own_of txn.now) }
{
    match txn {
        None => Ok(Own::empty()),
        Some(txn) => txn.own.share(),
    }
}

/// Lays writes over those of the transaction.
pub fn stage_txn(txn: &mut Option<Txn>, writes: Vec<Write>) -> Result<(), Memory>
    ensures ok { OnOk result (txn.new ≡ widened writes.items txn.old) }
    ensures err { OnErr result (txn.new ≡ txn.old) }
{
    match txn {
        None => Ok(()),
        Some(txn) => txn.own.stage(writes),
    }
}
