// Batches of entries, each merged in one pass.
ghost use Rattle.std.specs.Prelude.{◌≡◌, ◌≢◌, ◌+◌, ◌-◌, ◌<◌, ◌≤◌, ◌↔◌, ◌++◌, ◌∷◌, [], take, length, slice_get, slice_index_or, vec_len, vec_capacity, Contains, IsPermutation, IsTrue, OnErr, OnOk};
ghost use Rattle.std.specs.Bool.{OnTrue, OnFalse};
ghost use Rattle.delete_buffer.specs.Added.{entries_of};
ghost use Rattle.delete_buffer.specs.Entries.{AreInOrder, AreParts, Entry, entry_cmp, merged, order_of, without};

use cs_base::Memory;
use cs_types::Key;
use std::cmp::Ordering;

/// Moves all recent entries among the settled ones. After `Memory` nothing has changed.
pub fn settle(settled: &mut Vec<(Key, u64)>, recent: &mut Vec<(Key, u64)>) -> Result<(), Memory>
    requires { AreParts settled.old.items recent.old.items }
    ensures settled { OnOk result (settled.new.items ≡ merged settled.old.items recent.old.items) }
    ensures recent { OnOk result (recent.new.items ≡ []) }
    ensures settled_kept { OnErr result (settled.new.items ≡ settled.old.items) }
    ensures recent_kept { OnErr result (recent.new.items ≡ recent.old.items) }
{
    settled.reserve(recent.len())?;
    merge_in(settled, Added::Entries(recent));
    recent.clear();
    Ok(())
}

/// Entries that come among others.
#[derive(Clone, Copy, Drop)]
pub enum Added<'a> {
    /// One of each key with one end.
    Ended(&'a [Key], u64),
    /// These.
    Entries(&'a [(Key, u64)]),
}

impl Added<'_> {
    /// Their number.
    fn len(self) -> usize
        ensures { result ≡ length (entries_of self.entry) }
    {
        match self {
            Added::Ended(keys, _) => keys.len(),
            Added::Entries(entries) => entries.len(),
        }
    }

    /// The one at a place.
    fn at(self, place: usize) -> (Key, u64)
        requires { place < length (entries_of self) }
        ensures { (d : Entry) → slice_index_or (entries_of self.entry) place d ≡ result }
    {
        match self {
            Added::Ended(keys, end) => (keys[place], end),
            Added::Entries(entries) => entries[place],
        }
    }
}

/// Merges entries that come among others, for which there is room, in one pass over these.
pub fn merge_in(entries: &mut Vec<(Key, u64)>, added: Added<'_>)
    requires room { vec_len entries.old + length (entries_of added) ≤ vec_capacity entries.old }
    requires parts { AreParts entries.old.items (entries_of added) }
    ensures entries { entries.new.items ≡ merged entries.old.items (entries_of added.entry) }
    ensures len { vec_len entries.new ≡ vec_len entries.old + length (entries_of added.entry) }
    ensures capacity { vec_capacity entries.new ≡ vec_capacity entries.old }
{
    let count = entries.len();
    append(entries, added);
    merge(entries, count, added);
}

/// Puts entries that come after the others. There is room for them.
fn append(entries: &mut Vec<(Key, u64)>, added: Added<'_>)
    requires { vec_len entries.old + length (entries_of added) ≤ vec_capacity entries.old }
    ensures items { entries.new.items ≡ entries.old.items ++ entries_of added.entry }
    ensures capacity { vec_capacity entries.new ≡ vec_capacity entries.old }
{
    for place in 0..added.len() {
        entries.push_reserved(added.at(place));
    }
}

/// Merges entries that come into the first `count` entries, from the back. What stands after these is written over.
fn merge(entries: &mut [(Key, u64)], count: usize, added: Added<'_>)
    requires sized { length entries.old ≡ count + length (entries_of added) }
    requires parts { AreParts (take count entries.old) (entries_of added) }
    ensures { entries.new ≡ merged (take count entries.old) (entries_of added.entry) }
{
    let mut old = count;
    let mut new = added.len();
    while new > 0 {
        let entry = added.at(new - 1);
        if is_last_past(entries, old, entry) {
            old -= 1;
            entries[old + new] = entries[old];
        } else {
            new -= 1;
            entries[old + new] = entry;
        }
    }
}

/// Whether the last of the first `count` entries comes after this one.
fn is_last_past(entries: &[(Key, u64)], count: usize, entry: (Key, u64)) -> bool
    requires { count ≤ length entries.now }
    ensures past { OnTrue result ((0 < count) × (entry_cmp (slice_index_or entries.now (count - 1) entry) entry ≡ Ordering.Greater)) }
    ensures other { OnFalse result (0 < count → entry_cmp (slice_index_or entries.now (count - 1) entry) entry ≢ Ordering.Greater) }
{
    count > 0 && entries[count - 1].cmp(&entry).is_gt()
}

/// Takes an entry away. False, with nothing changed, exactly where it is not there. It takes no memory.
pub fn remove(entries: &mut Vec<(Key, u64)>, key: Key, end: u64) -> bool
    requires { AreInOrder entries.old.items }
    ensures there { IsTrue result ↔ Contains entries.old.items (key, end) }
    ensures gone { OnTrue result (IsPermutation entries.old.items ((key, end) ∷ entries.new.items)) }
    ensures order { AreInOrder entries.new.items }
    ensures kept { OnFalse result (entries.new.items ≡ entries.old.items) }
    ensures len { vec_len entries.new ≤ vec_len entries.old }
    ensures capacity { vec_capacity entries.new ≡ vec_capacity entries.old }
{
    match entries.binary_search(&(key, end)) {
        Ok(place) => {
            entries.remove(place);
            true
        }
        Err(_) => false,
    }
}

/// Takes away the entries that are among these, which are in order, and gives whether there was one. It takes no memory.
pub fn remove_all(entries: &mut Vec<(Key, u64)>, taken: &[(Key, u64)]) -> bool
    requires order { AreInOrder entries.old.items }
    requires taken { AreInOrder taken.now }
    ensures entries { entries.new.items ≡ without taken.now entries.old.items }
    ensures kept { OnFalse result (entries.new.items ≡ entries.old.items) }
    ensures len { vec_len entries.new ≤ vec_len entries.old }
    ensures capacity { vec_capacity entries.new ≡ vec_capacity entries.old }
{
    let kept = keep_others(entries, taken);
    let some = kept < entries.len();
    entries.truncate(kept);
    some
}

/// Moves the entries that are not among these to the beginning, and gives their number.
fn keep_others(entries: &mut [(Key, u64)], taken: &[(Key, u64)]) -> usize
    requires order { AreInOrder entries.old }
    requires taken { AreInOrder taken.now }
    ensures within { result ≤ length entries.new }
    ensures kept { take result entries.new ≡ without taken.now entries.old }
{
    let mut kept = 0;
    let mut next = 0;
    let mut place = 0;
    while place < entries.len() {
        let entry = entries[place];
        match order_at(taken, next, entry) {
            Ordering::Less => next += 1,
            Ordering::Equal => place += 1,
            Ordering::Greater => {
                entries[kept] = entry;
                kept += 1;
                place += 1;
            }
        }
    }
    kept
}

/// How the entry at a place stands to this one. Past the last one it is greater.
fn order_at(entries: &[(Key, u64)], place: usize, entry: (Key, u64)) -> Ordering
    ensures { result ≡ order_of entry (slice_get entries.now place) }
{
    match entries.get(place) {
        Some(other) => other.cmp(&entry),
        None => Ordering::Greater,
    }
}
