// A sorted run of an index.
ghost use Rattle.std.specs.Prelude.{◌^◌, ◌≡◌, ◌+◌, ◌<◌, ◌≤◌, ◌++◌, [], ℕ, List, length, vec_len, OnOk, IfOk, IfErr};
ghost use Rattle.std.specs.Bool.{OnTrue};

use crate::filter::Filter;
use crate::merge::merge;
use cs_base::Memory;
use cs_types::Key;
use std::alloc::Global;
use std::marker::Model;

/// A run that is merged, or takes so many keys at once, has a filter if it has more keys than this.
const UNFILTERED: usize = 1024;

/// A place for each key of some, in the order of keys. Contracts see the pairs of key and place, and beside them `spare`,
/// the number of keys that find room without memory.
#[derive(Debug, Drop)]
pub struct Run {
    pairs: Vec<(Key, usize)>,
    /// The keys that it may have. A look-up of any other one ends here, and reads no pair. A run of few keys admits every key.
    filter: Filter,
}

impl Model for Run {
    ghost use Rattle.std.specs.Prelude.{◌-◌, vec_capacity, vec_len};
    ghost use Rattle.delta_store.specs.Filters.{AreAllAdmitted};
    ghost use Rattle.delta_store.specs.Index.{Index, AreInOrder};

    ghost Value = { Index };

    ghost view = { λ run. record { pairs = run.pairs.items; spare = vec_capacity run.pairs - vec_len run.pairs } };

    ghost invariant = { λ run. AreInOrder run.pairs.items × AreAllAdmitted run.filter run.pairs.items };
}

impl Run {
    ghost use Rattle.delta_store.specs.Index.{place_in, AreInOrder, IsAt, IsCut, IsEndOf, IsGapFor, IsStartOf, SetsOnly, HaveSamePlaces};

    /// The run without keys. It takes no memory.
    pub fn new(alloc: Global) -> Run
        ensures { result.pairs ≡ [] }
    {
        Run {
            pairs: Vec::new(alloc),
            filter: Filter::new(alloc),
        }
    }

    /// The number of keys.
    pub fn len(&self) -> usize
        ensures { result ≡ length self.now.pairs }
    {
        self.pairs.len()
    }

    /// Makes room for `n` keys, in the filter too where these are many and the first. After `Memory` the pairs are as before.
    pub fn reserve(&mut self, n: usize) -> Result<(), Memory>
        ensures room { OnOk result (n ≤ self.new.spare) }
        ensures pairs { self.new.pairs ≡ self.old.pairs }
    {
        self.pairs.reserve(n)?;
        if self.pairs.is_empty() && UNFILTERED < n {
            self.filter = Filter::for_keys(*self.pairs.allocator(), n)?;
        }
        Ok(())
    }

    /// The place of a key, None where it has none.
    pub fn get(&self, key: Key) -> Option<usize>
        ensures { result ≡ place_in self.now.pairs key }
    {
        if !self.filter.may_have(key) {
            return None;
        }
        match self.search(key) {
            Ok(at) => Some(self.pairs[at].1),
            Err(_) => None,
        }
    }

    /// Gives a key a place. It takes no memory. A key above all others is appended, and any other new key shifts those above
    /// it.
    pub fn set(&mut self, key: Key, place: usize)
        requires { 0 < self.old.spare }
        ensures pairs { SetsOnly self.old.pairs self.new.pairs key place }
        ensures room { self.old.spare ≤ self.new.spare + 1 }
    {
        self.filter.add(*self.pairs.allocator(), key);
        match self.search(key) {
            Ok(at) => {
                self.pairs[at] = (key, place);
            }
            Err(at) => match self.pairs.insert(at, (key, place)) {
                Ok(()) => {}
                Err(_) => unreachable!(),
            },
        }
    }

    /// Two runs in one. A key that both have keeps its place in the newer one.
    pub fn merged(alloc: Global, newer: &Run, older: &Run) -> Result<Run, Memory>
        ensures { IfOk result (λ run. HaveSamePlaces (newer.now.pairs ++ older.now.pairs) run.pairs) }
    {
        let mut run = Run::of_both(alloc, &newer.pairs, &older.pairs)?;
        run.add_filter(alloc)?;
        Ok(run)
    }

    /// Gives a run of many keys, which is complete now, a filter of them.
    fn add_filter(&mut self, alloc: Global) -> Result<(), Memory>
        ensures { self.new.pairs ≡ self.old.pairs }
    {
        if UNFILTERED < self.pairs.len() {
            self.filter = Filter::of(alloc, &self.pairs)?;
        }
        Ok(())
    }

    /// The pairs of this run, which is a part of a newer index, with those of an older run of the keys from `least` to `greatest`.
    pub fn with_older(
        &self,
        alloc: Global,
        older: &Run,
        least: Key,
        greatest: Key,
    ) -> Result<Run, Memory>
        ensures { (newer : List (Key × ℕ)) → IsCut newer least greatest self.now.pairs → IfOk result (λ run. IsCut (newer ++ older.now.pairs) least greatest run.pairs) }
    {
        Run::of_both(alloc, &self.pairs, older.between(least, greatest))
    }

    /// The pairs in the order of their keys.
    pub fn into_pairs(self) -> Vec<(Key, usize)>
        ensures pairs { result.items ≡ self.pairs }
        ensures order { AreInOrder result.items }
    {
        self.pairs
    }

    /// Pairs in one run. Of two pairs of one key the newer one is kept.
    fn of_both(alloc: Global, newer: &[(Key, usize)], older: &[(Key, usize)]) -> Result<Run, Memory>
        requires newer { AreInOrder newer.now }
        requires older { AreInOrder older.now }
        ensures { IfOk result (λ run. HaveSamePlaces (newer.now ++ older.now) run.pairs) }
    {
        let Some(room) = newer.len().checked_add(older.len()) else {
            return Err(Memory);
        };
        let mut pairs = Vec::with_capacity(alloc, room)?;
        merge(&mut pairs, newer, older);
        Ok(Run {
            pairs,
            filter: Filter::new(alloc),
        })
    }

    /// The pairs of the keys from `least` to `greatest`.
    fn between(&self, least: Key, greatest: Key) -> &[(Key, usize)]
        ensures order { AreInOrder result.now }
        ensures places { IsCut self.now.pairs least greatest result.now }
    {
        let from = self.start_of(least);
        let to = self.end_of(greatest).max(from);
        &self.pairs[from..to]
    }

    /// The number of pairs whose keys are below this one.
    fn start_of(&self, key: Key) -> usize
        ensures { IsStartOf self.now.pairs key result }
    {
        match self.search(key) {
            Ok(at) => at,
            Err(at) => at,
        }
    }

    /// The number of pairs whose keys are not above this one.
    fn end_of(&self, key: Key) -> usize
        ensures { IsEndOf self.now.pairs key result }
    {
        match self.search(key) {
            Ok(at) => at + 1,
            Err(at) => at,
        }
    }

    /// Where the pair of a key is, or where it would go.
    fn search(&self, key: Key) -> Result<usize, usize>
        ensures found { IfOk result (IsAt self.now.pairs key) }
        ensures absent { IfErr result (IsGapFor self.now.pairs key) }
        ensures order { AreInOrder self.now.pairs }
        ensures small { length self.now.pairs < 2 ^ 64 }
    {
        let len = self.pairs.len();
        if self.is_past(key) {
            return Err(len);
        }
        self.pairs.binary_search_by_key(&key, |&(k, _)| k)
    }

    /// Whether a key is above those of all pairs.
    fn is_past(&self, key: Key) -> bool
        ensures { OnTrue result (IsGapFor self.now.pairs key (length self.now.pairs)) }
    {
        match self.pairs.last() {
            Some(&(last, _)) => last < key,
            None => true,
        }
    }
}
