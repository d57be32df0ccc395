//! The delete buffer: keys with the commit numbers at which a version of theirs outside the open delta store ends, until a
//! flush records the end in a delete bitmap or an install leaves the version out.
//!
//! Its one contract: a buffer is a list of pairs of key and end, strictly in order, and each call changes exactly the entries
//! that it names. It can be shared as it stands, until the next change without a copy, and after one by a copy of the few
//! entries that came lately. It stands on `cs_base`, `cs_types` and the laws of `merge_laws`. Larson et al., PVLDB 2015,
//! describe the delete buffer.
#![tactic(auto)]

mod batches;
mod ends;
mod parts;

use batches::Added;
use cs_base::Memory;
use cs_types::Key;
pub use ends::Ends;
use ends::least_of;
pub use parts::{Parts, merged};
use std::alloc::Global;
use std::marker::Model;
use std::sync::Arc;

/// Ends by key. Contracts see its entries, and beside them `spare`, the number of entries that find room without
/// memory. It keeps its allocator.
#[derive(Debug, Drop)]
pub struct Buffer {
    /// Most entries, in the order of keys and ends.
    settled: Vec<(Key, u64)>,
    /// Those that came since, in the same order. They are few, so that a commit moves few, and a share copies few.
    recent: Vec<(Key, u64)>,
    /// A copy of the settled entries, where they were shared since they last changed.
    shared: Option<Arc<Vec<(Key, u64)>>>,
    /// All entries, where they were shared since the last change.
    shown: Option<Arc<Ends>>,
}

impl Model for Buffer {
    ghost use Rattle.std.specs.Prelude.{◌-◌, vec_capacity, vec_len};
    ghost use Rattle.delete_buffer.specs.Entries.{Room, merged};
    ghost use Rattle.delete_buffer.specs.Shared.{AreUpToDate};

    ghost Value = { Room };

    ghost view = { λ b. record { entries = merged b.settled.items b.recent.items; spare = vec_capacity b.recent - vec_len b.recent } };

    ghost invariant = { λ b. AreUpToDate b.settled.items b.recent.items b.shared b.shown };
}

impl Buffer {
    ghost use Rattle.std.specs.Prelude.{◌≡◌, ◌+◌, ◌<◌, ◌≤◌, ◌↔◌, [], ◌∷◌, ◌++◌, length, IsTrue, IfOk, OnOk, All, Contains, IsPermutation};
    ghost use Rattle.std.specs.Bool.{OnTrue, OnFalse};
    ghost use Rattle.delete_buffer.specs.Entries.{AreInOrder, AreParts, Ascend, IsLeastEnd, ended, merged, without};

    /// The empty buffer. It takes no memory.
    pub fn new(alloc: Global) -> Buffer
        ensures { result.entries ≡ [] }
    {
        Buffer {
            settled: Vec::new(alloc),
            recent: Vec::new(alloc),
            shared: None,
            shown: None,
        }
    }

    /// Makes room for `n` entries. After `Memory` the entries are as before.
    pub fn reserve(&mut self, n: usize) -> Result<(), Memory>
        ensures room { OnOk result (n ≤ self.new.spare) }
        ensures entries { self.new.entries ≡ self.old.entries }
    {
        self.settle()?;
        self.recent.reserve(n)?;
        Ok(())
    }

    /// Moves the recent entries among the settled ones, where they are many. All entries are the same, so what was shared of
    /// them stays shared. After `Memory` nothing has changed.
    fn settle(&mut self) -> Result<(), Memory>
        ensures { self.new.entries ≡ self.old.entries }
    {
        if are_many(self.recent.len(), self.settled.len()) {
            batches::settle(&mut self.settled, &mut self.recent)?;
            forget(&mut self.shared);
        }
        Ok(())
    }

    /// Adds an entry that is not there. It takes no memory.
    pub fn add(&mut self, key: Key, end: u64)
        requires room { 0 < self.old.spare }
        requires absent { ¬ Contains self.old.entries (key, end) }
        ensures entries { IsPermutation ((key, end) ∷ self.old.entries) self.new.entries }
        ensures order { AreInOrder self.new.entries }
        ensures room { self.old.spare ≤ self.new.spare + 1 }
    {
        self.add_all(&[key], end);
    }

    /// Adds an entry of each key with one end, none of which is there, in one pass over the recent ones. Without a key
    /// it does nothing, so that what was shared stays shared. It takes no memory.
    pub fn add_all(&mut self, keys: &[Key], end: u64)
        requires room { length keys.now ≤ self.old.spare }
        requires ascending { Ascend keys.now }
        requires absent { All (λ key. ¬ Contains self.old.entries (key, end)) keys.now }
        ensures entries { IsPermutation (ended keys.now end ++ self.old.entries) self.new.entries }
        ensures order { AreInOrder self.new.entries }
        ensures room { self.old.spare ≤ self.new.spare + length keys.now }
    {
        // Its contract says that the entries are in order.
        let _parts = self.parts();
        if keys.is_empty() {
            return;
        }
        forget(&mut self.shown);
        batches::merge_in(&mut self.recent, Added::Ended(keys, end));
    }

    /// The entries, in their two parts.
    pub fn parts(&self) -> Parts<'_>
        ensures entries { self.now.entries ≡ merged result.settled.now result.recent.now }
        ensures parts { AreParts result.settled.now result.recent.now }
        ensures order { AreInOrder self.now.entries }
    {
        Parts {
            settled: &self.settled,
            recent: &self.recent,
        }
    }

    /// The least end of the key above `begin`. None where there is no such end.
    pub fn ends(&self, key: Key, begin: u64) -> Option<u64>
        ensures { IsLeastEnd self.now.entries key begin result }
    {
        least_of(&self.settled, &self.recent, key, begin)
    }

    /// Takes an entry away. False, with nothing changed, exactly where it is not there. It takes no memory.
    pub fn remove(&mut self, key: Key, end: u64) -> bool
        ensures there { IsTrue result ↔ Contains self.old.entries (key, end) }
        ensures gone { OnTrue result (IsPermutation self.old.entries ((key, end) ∷ self.new.entries)) }
        ensures kept { OnFalse result (self.new.entries ≡ self.old.entries) }
        ensures order { AreInOrder self.new.entries }
        ensures room { self.old.spare ≤ self.new.spare }
    {
        if batches::remove(&mut self.recent, key, end) {
            forget(&mut self.shown);
            return true;
        }
        if batches::remove(&mut self.settled, key, end) {
            forget(&mut self.shared);
            forget(&mut self.shown);
            return true;
        }
        false
    }

    /// Takes away the entries that are among these, which are in order, in one pass over the buffer. Without one it does
    /// nothing. It takes no memory.
    pub fn remove_all(&mut self, taken: &[(Key, u64)])
        requires { AreInOrder taken.now }
        ensures entries { self.new.entries ≡ without taken.now self.old.entries }
        ensures order { AreInOrder self.new.entries }
        ensures room { self.old.spare ≤ self.new.spare }
    {
        // Its contract says that the entries are in order.
        let _parts = self.parts();
        if taken.is_empty() {
            return;
        }
        forget(&mut self.shown);
        batches::remove_all(&mut self.recent, taken);
        if batches::remove_all(&mut self.settled, taken) {
            forget(&mut self.shared);
        }
    }

    /// The number of entries.
    pub fn len(&self) -> usize
        ensures { result ≡ length self.now.entries }
    {
        self.settled.len() + self.recent.len()
    }

    /// Whether there is no entry.
    pub fn is_empty(&self) -> bool
        ensures { IsTrue result ↔ (self.now.entries ≡ []) }
    {
        self.len() == 0
    }

    /// The entries as they are now, whatever becomes of the buffer. The first copy after a change copies the recent entries,
    /// and the settled ones only where these have changed; each further one shares them. After `Memory` nothing has changed.
    pub fn copy(&mut self) -> Result<Arc<Ends>, Memory>
        ensures copied { IfOk result (λ copied. copied.value ≡ self.old.entries) }
        ensures entries { self.new.entries ≡ self.old.entries }
        ensures room { self.new.spare ≡ self.old.spare }
    {
        if let Some(shown) = &self.shown {
            return Ok(Arc::try_clone(shown)?);
        }
        let alloc = *self.recent.allocator();
        let settled = shared_copy(&self.settled, &mut self.shared)?;
        let recent = Vec::from_slice(alloc, &self.recent)?;
        let shown = Arc::new(alloc, Ends::of_parts(settled, recent))?;
        let copied = Arc::try_clone(&shown)?;
        self.shown = Some(shown);
        Ok(copied)
    }
}

ghost use Rattle.std.specs.Prelude.{◌≡◌, IfOk};
ghost use Rattle.delete_buffer.specs.Shared.{IsCopyOf};

/// Whether so many recent entries are to be moved among so many settled ones: where they are as many as the root of their
/// number, which shares out the cost of the move over the commits before it.
fn are_many(recent: usize, settled: usize) -> bool {
    recent >= 64 && settled / recent <= recent
}

/// The settled entries, shared as they were before or copied.
fn shared_copy(
    settled: &Vec<(Key, u64)>,
    shared: &mut Option<Arc<Vec<(Key, u64)>>>,
) -> Result<Arc<Vec<(Key, u64)>>, Memory>
    requires { IsCopyOf settled.now.items shared.old }
    ensures copied { IfOk result (λ copied. copied.value.items ≡ settled.now.items) }
    ensures kept { IsCopyOf settled.now.items shared.new }
{
    if let Some(shared) = shared {
        return Ok(Arc::try_clone(shared)?);
    }
    let alloc = *settled.allocator();
    let made = Arc::new(alloc, Vec::from_slice(alloc, settled)?)?;
    let copied = Arc::try_clone(&made)?;
    *shared = Some(made);
    Ok(copied)
}

/// Lets go what was shared.
fn forget<T: Drop>(shared: &mut Option<Arc<T>>)
    ensures { shared.new ≡ None }
{
    *shared = None;
}
