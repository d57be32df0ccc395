ghost use Rattle.std.specs.Prelude.{◌≡◌, ◌+◌, ◌<◌, ◌≤◌, ◌↔◌, [], ◌∷◌, ◌++◌, length, map, count_by, All, IsTrue, OnOk, IfOk, IfSome, IfNone, false, true};
ghost use Rattle.delta_store.specs.Places.{keyed_in, IsStored, IsLiveAt, IsEndedAfter};
ghost use Rattle.delta_store.specs.Versions.{has_live};

use crate::chunks::Chunks;
use crate::frozen::Frozen;
use crate::index::KeyIndex;
use crate::version::{KeyedVersion, LinkedVersion};
use cs_base::Memory;
use cs_types::{Key, Row, Version};
use std::alloc::Global;
use std::marker::Model;

/// A delta store that takes rows. Contracts see its versions with their keys, in the order in which they came, for each of
/// them whether it is own, and `spare`, the number of versions that find room without memory. It keeps its allocator.
///
/// Versions stand in chunks of 1,024 places. A share (`share`) has all versions in common with the store, and what is
/// shared is never changed: new versions stand after it, and to end a version there, it is made own first (`prepare`).
#[derive(Debug, Drop)]
pub struct Delta {
    chunks: Chunks,
    /// The last place of each key.
    index: KeyIndex,
    /// The number of versions that have an end.
    ended: usize,
}

impl Model for Delta {
    ghost use Rattle.std.specs.Prelude.{min};
    ghost use Rattle.delta_store.specs.Versions.{Store};
    ghost use Rattle.delta_store.specs.Places.{keyed_in, IsStored};

    ghost Value = { Store };

    ghost view = { λ delta. record { versions = keyed_in delta.chunks.versions; own = delta.chunks.own; spare = min delta.chunks.spare delta.index.spare } };

    ghost invariant = { λ delta. IsStored delta.chunks.versions delta.index.pairs delta.ended };
}

/// The place of the live version of a key, the one without an end. None exactly where it has none.
fn live_place(chunks: &Chunks, index: &KeyIndex, ended: usize, key: Key) -> Option<usize>
    requires { IsStored chunks.now.versions index.now.pairs ended }
    ensures found { IfSome result (IsLiveAt (keyed_in chunks.now.versions) key) }
    ensures within { IfSome result (λ place. place < length chunks.now.versions) }
    ensures none { IfNone result (has_live key (keyed_in chunks.now.versions) ≡ false) }
{
    let place = index.get(key)?;
    if chunks.get(place).is_live() {
        return Some(place);
    }
    None
}

/// A commit by which all versions of a key have ended, if the last one has, by the place of this one. 0 where there is none.
fn ended_after(chunks: &Chunks, last: Option<usize>) -> u64
    requires { IfSome last (λ place. place < length chunks.now.versions) }
    ensures { IsEndedAfter chunks.now.versions last result }
{
    match last {
        Some(place) => chunks.get(place).ended_through(),
        None => 0,
    }
}

impl Delta {
    ghost use Rattle.delta_store.specs.Versions.{ended_at, is_ended, new_version, IsReady};

    /// The store without versions. It takes no memory.
    pub fn new(alloc: Global) -> Delta
        ensures { result.versions ≡ [] }
    {
        Delta {
            chunks: Chunks::new(alloc),
            index: KeyIndex::new(alloc),
            ended: 0,
        }
    }

    /// Makes room for `n` versions. After `Memory` the versions are as before. Keys that are ready stay so.
    pub fn reserve(&mut self, n: usize) -> Result<(), Memory>
        ensures room { OnOk result (n ≤ self.new.spare) }
        ensures versions { self.new.versions ≡ self.old.versions }
        ensures ready { (key : Key) → IsReady self.old key → IsReady self.new key }
    {
        self.chunks.reserve(n)?;
        self.index.reserve(n)
    }

    /// Makes a key ready to be ended: where a share may see its live version, the versions of its chunk become own, by a copy if
    /// the share is still there. After `Memory` the versions are as before. Keys that are ready stay so.
    pub fn prepare_key(&mut self, key: Key) -> Result<(), Memory>
        ensures versions { self.new.versions ≡ self.old.versions }
        ensures ready { OnOk result (IsReady self.new key) }
        ensures kept { (key : Key) → IsReady self.old key → IsReady self.new key }
        ensures room { self.new.spare ≡ self.old.spare }
    {
        match live_place(&self.chunks, &self.index, self.ended, key) {
            Some(place) => self.chunks.make_own(place),
            None => Ok(()),
        }
    }

    /// Makes keys ready to be ended, as `prepare_key` does each. After `Memory` the versions are as before. Keys that are
    /// ready stay so.
    pub fn prepare(&mut self, keys: &[Key]) -> Result<(), Memory>
        ensures versions { self.new.versions ≡ self.old.versions }
        ensures ready { OnOk result (All (IsReady self.new) keys.now) }
        ensures kept { (key : Key) → IsReady self.old key → IsReady self.new key }
        ensures room { self.new.spare ≡ self.old.spare }
    {
        for key in keys {
            self.prepare_key(*key)?;
        }
        Ok(())
    }

    /// Appends a version without an end. `begin` is the number of the commit that writes it. It takes no memory. The key is
    /// then ready, and those that were ready stay so.
    pub fn insert(&mut self, row: Row, key: Key, begin: u64)
        requires room { 0 < self.old.spare }
        requires ended { has_live key self.old.versions ≡ false }
        ensures versions { self.new.versions ≡ self.old.versions ++ new_version key row begin ∷ [] }
        ensures room { self.old.spare ≤ self.new.spare + 1 }
        ensures ready { IsReady self.new key }
        ensures kept { (key : Key) → IsReady self.old key → IsReady self.new key }
    {
        let previous = self.index.get(key);
        let ended_by = ended_after(&self.chunks, previous);
        self.index.set(key, self.chunks.len());
        let version = Version {
            row,
            begin,
            end: None,
        };
        let keyed = KeyedVersion { key, version };
        self.chunks.push(LinkedVersion {
            keyed,
            previous,
            ended_by,
        });
    }

    /// Ends the live version of a key, the one without an end, at the commit of this number. False, with nothing
    /// changed, exactly where the key has no live version. The key is ready, and keys that are ready stay so.
    pub fn end_live(&mut self, key: Key, end: u64) -> bool
        requires { IsReady self.old key }
        ensures found { result ≡ has_live key self.old.versions }
        ensures versions { self.new.versions ≡ map (ended_at key end) self.old.versions }
        ensures none_left { has_live key self.new.versions ≡ false }
        ensures kept { (key : Key) → IsReady self.old key → IsReady self.new key }
        ensures room { self.new.spare ≡ self.old.spare }
    {
        match live_place(&self.chunks, &self.index, self.ended, key) {
            Some(place) => {
                self.chunks.end(place, end);
                self.ended += 1;
                true
            }
            None => false,
        }
    }

    /// The number of versions.
    pub fn len(&self) -> usize
        ensures { result ≡ length self.now.versions }
    {
        self.chunks.len()
    }

    /// Whether there is no version.
    pub fn is_empty(&self) -> bool
        ensures { IsTrue result ↔ (self.now.versions ≡ []) }
    {
        self.len() == 0
    }

    /// The number of versions that have an end.
    pub fn ended(&self) -> usize
        ensures { result ≡ count_by is_ended self.now.versions }
    {
        self.ended
    }

    /// A frozen store with the same versions, which has them and its index in common with this one: nothing of them is
    /// copied. There is no room then and no version is own, so that no live one may be ended before its key is made ready.
    /// After `Memory` the versions are as before.
    pub fn share(&mut self) -> Result<Frozen, Memory>
        ensures frozen { IfOk result (λ frozen. frozen ≡ self.old.versions) }
        ensures versions { self.new.versions ≡ self.old.versions }
        ensures room { OnOk result (self.new.spare ≡ 0) }
        ensures none_own { OnOk result (All (λ own. own ≡ false) self.new.own) }
    {
        let index = self.index.share()?;
        let chunks = self.chunks.share()?;
        Ok(Frozen::new(chunks, index, self.ended))
    }

    /// The store of the same versions that takes no more rows. It takes no memory.
    pub fn freeze(self) -> Frozen
        ensures { result ≡ self.versions }
    {
        let Delta {
            chunks,
            index,
            ended,
        } = self;
        Frozen::new(chunks, index, ended)
    }
}
