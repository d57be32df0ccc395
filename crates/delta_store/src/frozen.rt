ghost use Rattle.std.specs.Prelude.{◌≡◌, ◌<◌, ◌≤◌, ◌↔◌, [], length, slice_get, count_by, IsTrue, IfOk, Some};
ghost use Rattle.delta_store.specs.Places.{keyed_in, IsStored};

use crate::chunks::Chunks;
use crate::index::KeyIndex;
use cs_base::Memory;
use cs_types::{Key, Version};
use std::alloc::Global;
use std::marker::Model;

/// A delta store that takes no more rows. Contracts see its versions with their keys, in the order in which they came.
#[derive(Debug, Drop)]
pub struct Frozen {
    chunks: Chunks,
    /// The last place of each key.
    index: KeyIndex,
    /// The number of versions that have an end.
    ended: usize,
}

impl Model for Frozen {
    ghost use Rattle.std.specs.Prelude.{List};
    ghost use Rattle.delta_store.specs.declared.version.KeyedVersion.{KeyedVersion};
    ghost use Rattle.delta_store.specs.Places.{keyed_in, IsStored};

    ghost Value = { List KeyedVersion };

    ghost view = { λ frozen. keyed_in frozen.chunks.versions };

    ghost invariant = { λ frozen. IsStored frozen.chunks.versions frozen.index.pairs frozen.ended };
}

impl Frozen {
    ghost use Rattle.std.specs.Option.{option_map};
    ghost use Rattle.delta_store.specs.Places.{AreNewest};
    ghost use Rattle.delta_store.specs.Versions.{is_ended, AreEndedBefore, IsLastPlace, IsEarlier, AreByBegin, IsFirstAfter};

    /// The store of these versions with their index. It takes no memory.
    pub(crate) fn new(chunks: Chunks, index: KeyIndex, ended: usize) -> Frozen
        requires { IsStored chunks.versions index.pairs ended }
        ensures { result ≡ keyed_in chunks.versions }
    {
        Frozen {
            chunks,
            index,
            ended,
        }
    }

    /// The number of versions.
    pub fn len(&self) -> usize
        ensures { result ≡ length self.now }
    {
        self.chunks.len()
    }

    /// Whether there is no version.
    pub fn is_empty(&self) -> bool
        ensures { IsTrue result ↔ (self.now ≡ []) }
    {
        self.len() == 0
    }

    /// The number of versions that have an end.
    pub fn ended(&self) -> usize
        ensures { result ≡ count_by is_ended self.now }
    {
        self.ended
    }

    /// The version at a place.
    pub fn get(&self, i: usize) -> &Version
        requires { i < length self.now }
        ensures { option_map (λ keyed. keyed.version) (slice_get self.now i) ≡ Some result.now }
    {
        &self.chunks.get(i).keyed.version
    }

    /// The key of the version at a place.
    pub fn key(&self, i: usize) -> Key
        requires { i < length self.now }
        ensures { option_map (λ keyed. keyed.key) (slice_get self.now i) ≡ Some result }
    {
        self.chunks.get(i).keyed.key
    }

    /// The place of the last version of a key. None exactly where it has no version.
    pub fn of_key(&self, key: Key) -> Option<usize>
        ensures { IsLastPlace self.now key result }
    {
        self.index.get(key)
    }

    /// The keys from `least` to `greatest` that have a version, in their order, each with the place of its last version. Ended
    /// versions count too. It takes time for each of these keys and O(log n) beside, in each of O(log n) runs of keys. `Memory` comes
    /// only where the keys find no room.
    pub fn newest_between(
        &self,
        alloc: Global,
        least: Key,
        greatest: Key,
    ) -> Result<Vec<(Key, usize)>, Memory>
        ensures { IfOk result (λ newest. AreNewest self.now least greatest newest.items) }
    {
        let cut = self.index.between(alloc, least, greatest)?;
        Ok(cut.into_pairs())
    }

    /// The place of the version before that at `i`, of the same key. None exactly where the version at `i` is the first of
    /// its key.
    pub fn earlier(&self, i: usize) -> Option<usize>
        requires { i < length self.now }
        ensures { IsEarlier self.now i result }
    {
        self.chunks.get(i).previous
    }

    /// A commit by which each version before that at `i`, of the same key, has ended. A snapshot at or after it sees none of them.
    pub fn ended_by(&self, i: usize) -> u64
        requires { i < length self.now }
        ensures { AreEndedBefore self.now i result }
    {
        self.chunks.get(i).ended_by
    }

    /// The first place of a version whose begin is above `begin`, and the number of versions where there is none, if
    /// begins don't fall along the versions. It looks at O(log n) versions.
    pub fn first_after(&self, begin: u64) -> usize
        ensures within { result ≤ length self.now }
        ensures first { AreByBegin self.now → IsFirstAfter self.now begin result }
    {
        let mut low = 0;
        let mut high = self.len();
        while low < high {
            let middle = low + (high - low) / 2;
            if self.get(middle).begin <= begin {
                low = middle + 1;
            } else {
                high = middle;
            }
        }
        low
    }
}
