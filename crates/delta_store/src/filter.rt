// Which keys a run may have.
ghost use Rattle.std.specs.Prelude.{◌≡◌, ◌<◌, false, length, IsTrue, IfOk};
ghost use Rattle.cs_types.specs.declared.Key.{Key};
ghost use Rattle.delta_store.specs.Filters.{slot_of, may_have, AreAllAdmitted};

use cs_base::Memory;
use cs_types::Key;
use delete_bitmap::Positions;
use std::alloc::Global;
use std::marker::Model;

/// So many slots a key: where keys are scattered, about one in sixteen of those that were not added is taken for one that was.
const SLOTS: usize = 16;

/// A filter of keys (Bloom, CACM 1970, with one hash function): a slot for each key, shared with others, is marked where one of them is
/// among those that were added. One look at a slot without a mark tells that the key is none of them. Without slots it admits every
/// key. Contracts see the marks.
#[derive(Debug, Drop)]
pub struct Filter {
    slots: Positions,
}

impl Model for Filter {
    ghost use Rattle.std.specs.Prelude.{List, Bool};

    ghost Value = { List Bool };

    ghost view = { λ filter. filter.slots };
}

impl Filter {
    /// The filter that admits every key. It takes no memory.
    pub fn new(alloc: Global) -> Filter
        ensures { (key : Key) → IsTrue (may_have result key) }
    {
        Filter {
            slots: Positions::none(alloc, 0),
        }
    }

    /// A filter for so many keys, with the memory for the marks of all of them. The number of slots is odd, so that keys whose distances
    /// are powers of two reach every slot.
    pub fn for_keys(alloc: Global, keys: usize) -> Result<Filter, Memory>
        ensures { IfOk result (λ filter. 0 < length filter) }
    {
        let mut slots = Positions::none(alloc, keys.saturating_mul(SLOTS) | 1);
        // The first mark takes the memory of all slots.
        slots.insert(0)?;
        Ok(Filter { slots })
    }

    /// A filter that admits the keys of these pairs.
    pub fn of(alloc: Global, pairs: &[(Key, usize)]) -> Result<Filter, Memory>
        ensures { IfOk result (λ filter. AreAllAdmitted filter pairs.now) }
    {
        let mut filter = Filter::for_keys(alloc, pairs.len())?;
        for pair in pairs {
            filter.add(alloc, pair.0);
        }
        Ok(filter)
    }

    /// Admits one key more. It takes no memory; a filter whose slots could not be marked without would admit every key from then on.
    pub fn add(&mut self, alloc: Global, key: Key)
        ensures added { IsTrue (may_have self.new key) }
        ensures kept { (other : Key) → may_have self.new other ≡ false → may_have self.old other ≡ false }
    {
        let count = self.slots.len();
        if count > 0 && self.slots.insert(slot_of(key, count)).is_err() {
            *self = Filter::new(alloc);
        }
    }

    /// Whether a key may be one of those that were added.
    pub fn may_have(&self, key: Key) -> bool
        ensures { result ≡ may_have self.now key }
    {
        let count = self.slots.len();
        count == 0 || self.slots.contains(slot_of(key, count))
    }
}

/// The slot of a key among so many.
fn slot_of(key: Key, slots: usize) -> usize
    requires { 0 < slots }
    ensures value { result ≡ slot_of slots key }
    ensures within { result < slots }
{
    (key.0.cast_unsigned() % slots as u64) as usize
}
