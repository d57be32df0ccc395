ghost use Rattle.std.specs.Prelude.{◌≡◌, ◌+◌, ◌<◌, ◌≤◌, [], OnOk, IfOk};

use crate::run::Run;
use crate::runs;
use cs_base::Memory;
use cs_types::Key;
use std::alloc::Global;
use std::marker::Model;
use std::sync::Arc;

/// So long the own run may grow, if room for more keys is not asked for at once.
const OWN: usize = 1024;

/// A place for each key, in sorted runs. Contracts see the pairs of key and place of all runs, those of newer runs first,
/// so that the newest run that has a key decides, and beside them `spare`, the number of keys that find room without
/// memory.
///
/// New keys go into a run that is the index's own. Before it grows too long, and when the index is shared, it becomes the
/// newest of the runs that shares have in common and that never change; these are merged as they grow. So n keys cost
/// O(n log n) in whatever order they come where room is asked for by at most 1,024 at a time, or of more at once where these
/// ascend, and a search looks into O(log n) runs. The form is the logarithmic method of
/// Bentley and Saxe (Journal of Algorithms 1, 1980).
#[derive(Debug, Drop)]
pub struct KeyIndex {
    /// The oldest first.
    runs: Vec<Arc<Run>>,
    own: Run,
}

impl Model for KeyIndex {
    ghost use Rattle.std.specs.Prelude.{◌++◌};
    ghost use Rattle.delta_store.specs.Index.{Index};
    ghost use Rattle.delta_store.specs.Runs.{pairs_of};

    ghost Value = { Index };

    ghost view = { λ index. record { pairs = index.own.pairs ++ pairs_of index.runs.items; spare = index.own.spare } };
}

impl KeyIndex {
    ghost use Rattle.delta_store.specs.Index.{place_in, IsCut, SetsOnly, HaveSamePlaces};

    /// The index without keys. It takes no memory.
    pub fn new(alloc: Global) -> KeyIndex
        ensures { result.pairs ≡ [] }
    {
        KeyIndex {
            runs: Vec::new(alloc),
            own: Run::new(alloc),
        }
    }

    /// Makes room for `n` keys, for which the own run becomes one of the others if it would grow too long. After `Memory`
    /// each key has the place that it had.
    pub fn reserve(&mut self, n: usize) -> Result<(), Memory>
        ensures room { OnOk result (n ≤ self.new.spare) }
        ensures places { HaveSamePlaces self.old.pairs self.new.pairs }
    {
        self.make_way(n)?;
        let alloc = *self.runs.allocator();
        runs::merge_newest(&mut self.runs, alloc)?;
        self.own.reserve(n)
    }

    /// The place of a key, None where it has none.
    pub fn get(&self, key: Key) -> Option<usize>
        ensures { result ≡ place_in self.now.pairs key }
    {
        match self.own.get(key) {
            Some(place) => Some(place),
            None => runs::place_of(&self.runs, key),
        }
    }

    /// The places of the keys from `least` to `greatest`, each key once. The index is as before, and `Memory` comes only where the
    /// pairs find no room.
    pub fn between(&self, alloc: Global, least: Key, greatest: Key) -> Result<Run, Memory>
        ensures { IfOk result (λ cut. IsCut self.now.pairs least greatest cut.pairs) }
    {
        runs::between(&self.runs, &self.own, least, greatest, alloc)
    }

    /// Gives a key a place. It takes no memory.
    pub fn set(&mut self, key: Key, place: usize)
        requires { 0 < self.old.spare }
        ensures pairs { SetsOnly self.old.pairs self.new.pairs key place }
        ensures room { self.old.spare ≤ self.new.spare + 1 }
    {
        self.own.set(key, place);
    }

    /// An index with the same pairs, which has its runs in common with this one: no pair is copied. After `Memory` the pairs
    /// are as before.
    pub fn share(&mut self) -> Result<KeyIndex, Memory>
        ensures shared { IfOk result (λ shared. shared.pairs ≡ self.old.pairs) }
        ensures pairs { self.new.pairs ≡ self.old.pairs }
    {
        let alloc = *self.runs.allocator();
        runs::seal(&mut self.runs, &mut self.own, alloc)?;
        Ok(KeyIndex {
            runs: runs::share(&self.runs, alloc)?,
            own: Run::new(alloc),
        })
    }

    /// Makes the own run one of the others where it would be too long with `n` more keys. After `Memory` all is as before.
    fn make_way(&mut self, n: usize) -> Result<(), Memory>
        ensures { self.new.pairs ≡ self.old.pairs }
    {
        if self.own.len().saturating_add(n) <= OWN {
            return Ok(());
        }
        let alloc = *self.runs.allocator();
        runs::seal(&mut self.runs, &mut self.own, alloc)
    }
}
