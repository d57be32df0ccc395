// The transactions by session.
ghost use Rattle.std.specs.Prelude.{◌≡◌, ◌≢◌, ℕ, ◌<◌, ◌≤◌, [], true, false, IfSome, IfNone};
ghost use Rattle.txn_table.specs.Txns.{txn_at, own_of, Owns, IsHolder, snapshots_in, lesser_of};
ghost use Rattle.cs_model.specs.Floors.{IsFloor};

use crate::changes::{number_of_owner, snapshot_of_txn, writes_nothing};
use crate::txn::Txn;
use cs_types::Key;

/// The number of another session's transaction that has written the key.
pub fn holder_in(places: &[Option<Txn>], key: Key, but: u32) -> Option<u64>
    ensures some { IfSome result (IsHolder (txn_at places.now) key but) }
    ensures none { IfNone result ((other : ℕ) → other ≢ but → ¬ Owns (txn_at places.now other) key) }
{
    for (i, place) in places.iter().enumerate() {
        if i == but as usize {
            continue;
        }
        match number_of_owner(place, key) {
            Some(number) => return Some(number),
            None => {}
        }
    }
    None
}

/// Whether another session's transaction has own writes.
pub fn others_write_in(places: &[Option<Txn>], but: u32) -> bool
    ensures some { result ≡ true → (other : ℕ) × (other ≢ but) × (own_of (txn_at places.now other) ≢ []) }
    ensures none { result ≡ false → (other : ℕ) → other ≢ but → own_of (txn_at places.now other) ≡ [] }
{
    for (session, place) in places.iter().enumerate() {
        if session == but as usize {
            continue;
        }
        if !writes_nothing(place) {
            return true;
        }
    }
    false
}

fn lesser(least: Option<u64>, other: Option<u64>) -> Option<u64>
    ensures { result ≡ lesser_of least other }
{
    match (least, other) {
        (Some(least), Some(other)) => Some(least.min(other)),
        (None, other) => other,
        (least, None) => least,
    }
}

/// The least snapshot, or the clock where there is none.
pub fn floor_in(places: &[Option<Txn>], clock: u64) -> u64
    ensures { IsFloor (snapshots_in (txn_at places.now)) clock result }
{
    let mut least = None;
    for place in places {
        least = lesser(least, snapshot_of_txn(place));
    }
    least.unwrap_or(clock)
}
