// The obstacle of a write: why it may not be laid over the own writes of its transaction.
ghost use Rattle.std.specs.Prelude.{◌≡◌, ◌≤◌, ℕ, List, IsTrue, IsSome, IfSome, IfNone, None, Some, All};
ghost use Rattle.std.specs.FinMap as finite;
ghost use Rattle.cs_types.specs.declared.Key.{Key};
ghost use Rattle.cs_model.specs.Changes.{Change};
ghost use Rattle.cs_model.specs.Obstacles.{IsFree, IsJudged, IsLocked, IsObstacle};
ghost use Rattle.cs_model.specs.State.{State};
ghost use Rattle.delete_buffer.specs.Entries.{Ascend};
ghost use Rattle.txn_table.specs.Txns.{txn_of, snapshots_in, IsSession};
ghost use Rattle.version_store.specs.Newest.{above};
ghost use Rattle.group_book.specs.Commits.{is_one_of};
ghost use Rattle.group_directory.specs.Stands.{IsRecent, Stands};
ghost use Rattle.group_directory.specs.Obstacles.{txns_of, IsChanged};

use crate::directory::Directory;
use cs_model::Refusal;
use cs_types::Key;
use txn_table::Txns;
use version_store::{NewestChange, Recent};

/// Whether a key is one of these, which ascend.
fn is_one_of(keys: &[Key], key: Key) -> bool
    requires { Ascend keys.now }
    ensures { result ≡ is_one_of keys.now key }
{
    keys.binary_search(&key).is_ok()
}

/// The number of another session's open transaction that has the key among its own writes.
fn holder(txns: &Txns, key: Key, but: u32) -> Option<u64>
    ensures some { IfSome result (IsLocked (txns_of txns.now) but key) }
    ensures none { IfNone result (IsFree (txns_of txns.now) but key) }
{
    txns.holder(key, but)
}

/// The key's newest change, where it is noted and above the snapshot.
fn newest_above(recent: &Recent, snapshot: u64, key: Key) -> Option<NewestChange>
    ensures { result ≡ above snapshot (finite.get recent.now.changes key) }
{
    let change = recent.newest(key)?;
    if snapshot < change.commit {
        Some(change)
    } else {
        None
    }
}

/// The obstacle 3960 of a key: its newest change is above the snapshot.
fn changed(recent: &Recent, snapshot: u64, key: Key) -> Option<Refusal>
    ensures { (pruned : ℕ) (changes : List Change) → IsRecent pruned recent.now.changes changes → pruned ≤ snapshot → IsChanged changes snapshot key result }
{
    match newest_above(recent, snapshot, key) {
        Some(change) => Some(Refusal::Changed {
            key,
            txn: change.txn,
            commit: change.commit,
        }),
        None => None,
    }
}

/// Whether it can be told at once that no change of one of these keys, which ascend, is noted.
fn are_apart(recent: &Recent, keys: &[Key]) -> bool
    requires { Ascend keys.now }
    ensures { IsTrue result → All (λ key. finite.get recent.now.changes key ≡ None) keys.now }
{
    match (keys.first(), keys.last()) {
        (Some(least), Some(greatest)) => recent.is_apart(*least, *greatest),
        _ => true,
    }
}

impl Directory {
    /// The obstacle of one key: the first that applies of 1222, 3960 and 2627.
    fn obstacle_at(&self, session: u32, snapshot: u64, present: &[Key], key: Key) -> Option<Refusal>
        requires { Ascend present.now }
        ensures { (m : State) → Stands self.now m.changes → m.txns ≡ txns_of self.now.txns → self.now.pruned ≤ snapshot → IsObstacle m session (Some snapshot) (is_one_of present.now) key result }
    {
        if let Some(txn) = holder(&self.txns, key, session) {
            return Some(Refusal::Locked { key, txn });
        }
        let found = changed(&self.recent, snapshot, key);
        if found.is_some() {
            return found;
        }
        if is_one_of(present, key) {
            return Some(Refusal::Duplicate { key });
        }
        None
    }

    /// Whether none of these keys has an obstacle, as is seen without a look at each: no other session's transaction has own writes,
    /// what is noted lies apart from the keys, and no key would stand twice.
    fn has_no_obstacles(&self, session: u32, keys: &[Key], present: &[Key]) -> bool
        requires { Ascend keys.now }
        ensures { IsTrue result → (m : State) (s : ℕ) → Stands self.now m.changes → m.txns ≡ txns_of self.now.txns → self.now.pruned ≤ s → All (λ key. IsObstacle m session (Some s) (is_one_of present.now) key None) keys.now }
    {
        if !present.is_empty() {
            return false;
        }
        if self.txns.others_write(session) {
            return false;
        }
        are_apart(&self.recent, keys)
    }

    /// The obstacle of a write of these keys in a session's transaction, which has a snapshot: that of the least key that has one.
    /// On one key it is 1222, where another open transaction has written the key; else 3960, where the key's newest change is above
    /// the snapshot; else 2627, where the key is one of those that an INSERT would make stand twice. Both lists ascend. None exactly
    /// where no key has one.
    pub fn obstacle(&self, session: u32, keys: &[Key], present: &[Key]) -> Option<Refusal>
        requires session { IsSession session }
        requires snapshot { IsSome (snapshots_in (txn_of self.now.txns) session) }
        requires keys { Ascend keys.now }
        requires present { Ascend present.now }
        ensures { (m : State) (s : ℕ) → Stands self.now m.changes → m.txns ≡ txns_of self.now.txns → snapshots_in (txn_of self.now.txns) session ≡ Some s
            → IsJudged (IsObstacle m session (Some s) (is_one_of present.now)) keys.now result }
    {
        let Some(snapshot) = self.txns.snapshot(session) else {
            unreachable!();
        };
        if self.has_no_obstacles(session, keys, present) {
            return None;
        }
        for key in keys {
            let found = self.obstacle_at(session, snapshot, present, *key);
            if found.is_some() {
                return found;
            }
        }
        None
    }
}
