// Runs of large commits, a later one over earlier ones.
ghost use Rattle.std.specs.Prelude.{◌≡◌, ◌≤◌, ◌<◌, ◌^◌, ◌++◌, ◌∷◌, [], nat_lt, length, filter, All, IfOk, IsTrue};
ghost use Rattle.std.specs.Option.{ForSome};
ghost use Rattle.version_store.specs.Newest.{Ascend, IsApart, above};
ghost use Rattle.version_store.specs.Loads.{newest_first, found};

use crate::NewestChange;
use crate::run::Run;
use cs_base::Memory;
use cs_types::Key;
use std::alloc::Global;
use std::marker::Model;
use std::mem;

/// At most so many runs are kept, since a look-up goes over all.
pub const MOST_RUNS: usize = 64;

/// At most so many keys are kept in runs.
const MOST_KEYS: usize = 1 << 62;

/// Runs, the earliest first. Contracts see their loads, and beside them `room`, the number of keys of one more run that find room
/// without memory.
#[derive(Debug, Drop)]
pub struct Runs {
    alloc: Global,
    runs: Vec<Run>,
    /// How many keys they have.
    keys: usize,
    /// Where the keys of one more go.
    next: Vec<Key>,
    /// So many of them find room.
    room: usize,
}

impl Model for Runs {
    ghost use Rattle.version_store.specs.Loads.{Loads, loads_code};

    ghost Value = { Loads };

    ghost coded = { loads_code };

    ghost use Rattle.version_store.specs.Kept.{AreKept};

    ghost view = { λ r. record { loads = r.runs.items; room = r.room } };

    ghost invariant = { AreKept };
}

/// How many keys the runs have.
fn keys_in(runs: &[Run]) -> usize
    requires { length (newest_first runs.now) ≤ 2 ^ 62 }
    ensures { result ≡ length (newest_first runs.now) }
{
    let mut keys = 0;
    for run in runs {
        keys += run.len();
    }
    keys
}

impl Runs {
    /// No runs. It takes no memory.
    pub fn new(alloc: Global) -> Runs
        ensures loads { result.loads ≡ [] }
        ensures room { result.room ≡ 0 }
    {
        Runs {
            alloc,
            runs: Vec::new(alloc),
            keys: 0,
            next: Vec::new(alloc),
            room: 0,
        }
    }

    /// Makes room for one more run of `n` keys, where not too many are kept. After `Memory` all is as before.
    pub fn reserve(&mut self, n: usize) -> Result<bool, Memory>
        ensures room { IfOk result (λ made. IsTrue made → n ≤ self.new.room) }
        ensures loads { self.new.loads ≡ self.old.loads }
    {
        if self.runs.len() >= MOST_RUNS || n > MOST_KEYS - self.keys {
            return Ok(false);
        }
        self.runs.reserve_exact(MOST_RUNS - self.runs.len())?;
        self.next.reserve_exact(n)?;
        self.room = n;
        Ok(true)
    }

    /// How many keys of one more run find room without memory.
    pub fn room(&self) -> usize
        ensures { result ≡ self.now.room }
    {
        self.room
    }

    /// Adds the keys of a commit as the latest run. It takes no memory.
    pub fn push(&mut self, keys: &[Key], change: NewestChange)
        requires ascending { Ascend keys.now }
        requires some { 0 < length keys.now }
        requires room { length keys.now ≤ self.old.room }
        requires older { All (λ key. ForSome (found (newest_first self.old.loads) key) (λ other. other.commit < change.commit)) keys.now }
        ensures { self.new.loads ≡ self.old.loads ++ record { keys = keys.now; change = change } ∷ [] }
    {
        let mut run = mem::replace(&mut self.next, Vec::new(self.alloc));
        match run.extend_from_slice(keys) {
            Ok(()) => {}
            Err(_) => unreachable!(),
        }
        match self.runs.push(Run::new(run, change)) {
            Ok(()) => {}
            Err(_) => unreachable!(),
        }
        self.keys += keys.len();
        self.room = 0;
    }

    /// How many keys the runs have, each counted once a run.
    pub fn len(&self) -> usize
        ensures keys { result ≡ length (newest_first self.now.loads) }
        ensures few { result ≤ 2 ^ 62 }
    {
        self.keys
    }

    /// The key's change in the latest run that has the key.
    pub fn newest(&self, key: Key) -> Option<NewestChange>
        ensures { result ≡ found (newest_first self.now.loads) key }
    {
        let mut newest = None;
        for run in &self.runs {
            newest = run.newest(key).or(newest);
        }
        newest
    }

    /// Whether each run lies apart from the keys between the two.
    pub fn is_apart(&self, least: Key, greatest: Key) -> bool
        ensures apart { IsTrue result → IsApart least greatest (found (newest_first self.now.loads)) }
        ensures none { length (newest_first self.now.loads) ≡ 0 → IsTrue result }
    {
        for run in &self.runs {
            if !run.is_apart(least, greatest) {
                return false;
            }
        }
        true
    }

    /// Drops the runs whose commit numbers are at most `floor`.
    pub fn prune(&mut self, floor: u64)
        ensures loads { self.new.loads ≡ filter (λ load. nat_lt floor load.change.commit) self.old.loads }
        ensures above { (key : Key) → found (newest_first self.new.loads) key ≡ above floor (found (newest_first self.old.loads) key) }
    {
        self.runs.retain(|run| run.commit() > floor);
        self.keys = keys_in(&self.runs);
    }
}
