//! The newest committed change of each key since the last prune, by which a writer learns that a key has changed since
//! its snapshot was taken.
//!
//! Its one contract: a `Recent` is a finite map from keys to their newest changes, and each call changes exactly the keys
//! that it names, but for a prune, which drops the changes that no open snapshot can precede. The keys of a large commit are
//! kept as they come, in one ascending run, and not one by one. It stands on `cs_base` and `cs_types`. By the manual pages on
//! SNAPSHOT isolation a write of a row that was changed after the snapshot is refused.
#![tactic(auto)]

mod run;
mod runs;

use cs_base::Memory;
use cs_types::Key;
use runs::Runs;
use std::alloc::Global;
use std::collections::HashMap;
use std::marker::Model;

/// The newest change of a key.
#[derive(Clone, Copy, Debug, PartialEq, Eq)]
pub struct NewestChange {
    /// The number of its commit.
    pub commit: u64,
    /// The number of the transaction that made it.
    pub txn: u64,
}

/// From so many keys on those of one commit are kept as a run.
pub const LEAST_RUN: usize = 4_096;

/// The newest change of each key. Contracts see the changes as a finite map, and beside it `spare`, the number of keys
/// that find room without memory one by one, `run`, the number of those that find it as one run, and `held`, the number of changes
/// that are kept. It keeps its allocator.
#[derive(Debug, Drop)]
pub struct Recent {
    /// The changes that were noted one by one. They lie over those of the runs.
    changes: HashMap<Key, NewestChange>,
    runs: Runs,
}

impl Model for Recent {
    ghost use Rattle.std.specs.Prelude.{◌+◌, ◌++◌, length};
    ghost use Rattle.std.specs.FinMap as map;
    ghost use Rattle.std.specs.HashMap.{spare};
    ghost use Rattle.version_store.specs.Newest.{Newest, newest_code};
    ghost use Rattle.version_store.specs.Loads.{newest_first, room_under, IsOver};

    ghost Value = { Newest };

    ghost coded = { newest_code };

    ghost view = { λ r. record { changes = map.from_entries (r.changes.entries ++ newest_first r.runs.loads); spare = spare r.changes; run = room_under r.changes.entries r.runs.room; held = length r.changes.entries + length (newest_first r.runs.loads) } };

    ghost invariant = { λ r. IsOver r.changes.entries (newest_first r.runs.loads) };
}

impl Recent {
    ghost use Rattle.std.specs.Prelude.{◌≡◌, ◌+◌, ◌<◌, ◌≤◌, length, IfOk, OnOk, IsTrue};
    ghost use Rattle.std.specs.Bool.{OnTrue, OnFalse};
    ghost use Rattle.std.specs.Option.{ForSome};
    ghost use Rattle.std.specs.FinMap as map;
    ghost use Rattle.version_store.specs.Newest.{Ascend, noted_by, AreBefore, HasRoom, IsApart, KeepsAbove};

    /// No changes. It takes no memory.
    pub fn new(alloc: Global) -> Recent
        ensures changes { result.changes ≡ map.empty }
        ensures held { result.held ≡ 0 }
    {
        Recent {
            changes: HashMap::new(alloc),
            runs: Runs::new(alloc),
        }
    }

    /// Makes room for `n` keys that are noted one by one. After `Memory` the changes are as before.
    pub fn reserve(&mut self, n: usize) -> Result<(), Memory>
        ensures room { OnOk result (n ≤ self.new.spare) }
        ensures changes { self.new.changes ≡ self.old.changes }
        ensures held { self.new.held ≡ self.old.held }
    {
        self.changes.reserve(n)?;
        Ok(())
    }

    /// Makes room for a run of `n` keys, where they are many, no key was noted by itself, and not too many runs are kept.
    fn reserve_run(&mut self, n: usize) -> Result<bool, Memory>
        ensures room { IfOk result (λ made. IsTrue made → n ≤ self.new.run) }
        ensures changes { self.new.changes ≡ self.old.changes }
        ensures held { self.new.held ≡ self.old.held }
    {
        if n < LEAST_RUN || !self.changes.is_empty() {
            return Ok(false);
        }
        let made = self.runs.reserve(n)?;
        Ok(made)
    }

    /// Makes room for `n` keys of one commit. After `Memory` the changes are as before.
    pub fn reserve_all(&mut self, n: usize) -> Result<(), Memory>
        ensures room { OnOk result (HasRoom n self.new) }
        ensures changes { self.new.changes ≡ self.old.changes }
        ensures held { self.new.held ≡ self.old.held }
    {
        if !self.reserve_run(n)? {
            self.reserve(n)?;
        }
        Ok(())
    }

    /// Notes the newest change of the key. It takes no memory.
    pub fn note(&mut self, key: Key, change: NewestChange)
        requires room { 0 < self.old.spare }
        requires newer { ForSome (map.get self.old.changes key) (λ other. other.commit < change.commit) }
        ensures changes { self.new.changes ≡ map.insert self.old.changes key change }
        ensures room { self.old.spare ≤ self.new.spare + 1 }
        ensures held { self.new.held ≤ self.old.held + 1 }
    {
        match self.changes.insert(key, change) {
            Ok(_) => {}
            Err(_) => unreachable!(),
        }
    }

    /// Notes the keys of a commit as a run.
    fn note_run(&mut self, keys: &[Key], change: NewestChange)
        requires ascending { Ascend keys.now }
        requires some { 0 < length keys.now }
        requires room { length keys.now ≤ self.old.run }
        requires newer { AreBefore change.commit keys.now self.old.changes }
        ensures changes { self.new.changes ≡ noted_by change self.old.changes keys.now }
        ensures held { self.new.held ≡ self.old.held + length keys.now }
    {
        self.runs.push(keys, change);
    }

    /// Notes the keys of a commit one by one.
    fn note_each(&mut self, keys: &[Key], change: NewestChange)
        requires ascending { Ascend keys.now }
        requires room { length keys.now ≤ self.old.spare }
        requires newer { AreBefore change.commit keys.now self.old.changes }
        ensures changes { self.new.changes ≡ noted_by change self.old.changes keys.now }
        ensures held { self.new.held ≤ self.old.held + length keys.now }
    {
        for key in keys {
            self.note(*key, change);
        }
    }

    /// Whether `n` keys of one commit are noted as a run: there is room for it, and they are many or find room in no other way.
    fn takes_run(&self, n: usize) -> bool
        ensures run { OnTrue result ((0 < n) × (n ≤ self.now.run)) }
        ensures each { OnFalse result (HasRoom n self.now → n ≤ self.now.spare) }
    {
        if !self.changes.is_empty() || self.runs.room() < n {
            return false;
        }
        LEAST_RUN <= n || self.changes.capacity() < n
    }

    /// Notes the newest change of each of the keys of a commit, which ascend: many as a run, where no key was noted by itself, and else
    /// one by one. It takes no memory.
    pub fn note_all(&mut self, keys: &[Key], change: NewestChange)
        requires ascending { Ascend keys.now }
        requires room { HasRoom (length keys.now) self.old }
        requires newer { AreBefore change.commit keys.now self.old.changes }
        ensures changes { self.new.changes ≡ noted_by change self.old.changes keys.now }
        ensures held { self.new.held ≤ self.old.held + length keys.now }
    {
        if self.takes_run(keys.len()) {
            self.note_run(keys, change);
        } else {
            self.note_each(keys, change);
        }
    }

    /// The number of changes that are kept, at least one for each key that has a change here. By it the owner sees when the changes
    /// have doubled since the last prune.
    pub fn len(&self) -> usize
        ensures held { result ≡ self.now.held }
        ensures keys { map.len self.now.changes ≤ result }
    {
        self.changes.len() + self.runs.len()
    }

    /// The key's newest change. None exactly where none stands: none was noted, or a prune has dropped it.
    pub fn newest(&self, key: Key) -> Option<NewestChange>
        ensures { result ≡ map.get self.now.changes key }
    {
        match self.changes.get(&key) {
            Some(change) => Some(*change),
            None => self.runs.newest(key),
        }
    }

    /// Whether it can be told at once that no key between the two has a change: no key was noted by itself, and the keys of each
    /// run lie below the least one or above the greatest.
    pub fn is_apart(&self, least: Key, greatest: Key) -> bool
        ensures apart { IsTrue result → IsApart least greatest (map.get self.now.changes) }
        ensures none { self.now.held ≡ 0 → IsTrue result }
    {
        self.changes.is_empty() && self.runs.is_apart(least, greatest)
    }

    /// Drops the changes whose commit numbers are at most `floor`. A snapshot from the floor up is judged as before.
    pub fn prune(&mut self, floor: u64)
        ensures changes { KeepsAbove floor self.old.changes self.new.changes }
        ensures room { self.old.spare ≤ self.new.spare }
        ensures held { self.new.held ≤ self.old.held }
    {
        self.changes.retain(|_, change| change.commit > floor);
        self.runs.prune(floor);
    }
}
