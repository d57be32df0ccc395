// The entries of a buffer as they were at one moment, and what is looked up in entries in order.
ghost use Rattle.std.specs.Prelude.{◌≡◌};
ghost use Rattle.delete_buffer.specs.Entries.{AreInOrder, AreParts, IsFirstPast, IsLeastEnd, end_in, lesser, merged};

use crate::parts::Parts;
use cs_types::Key;
use std::marker::Model;
use std::sync::Arc;

/// The entries of a buffer as they were at one moment. They never change, so they can be shared. Contracts see the list
/// of them.
#[derive(Debug, Drop)]
pub struct Ends {
    /// Most of them, in the order of keys and ends.
    settled: Arc<Vec<(Key, u64)>>,
    /// The others, in the same order.
    recent: Vec<(Key, u64)>,
}

impl Model for Ends {
    ghost use Rattle.std.specs.Prelude.{List};
    ghost use Rattle.delete_buffer.specs.Entries.{Entry, AreParts, merged};

    ghost Value = { List Entry };

    ghost view = { λ ends. merged ends.settled.value.items ends.recent.items };

    ghost invariant = { λ ends. AreParts ends.settled.value.items ends.recent.items };
}

impl Ends {
    /// The entries of two parts. It takes no memory.
    pub(crate) fn of_parts(settled: Arc<Vec<(Key, u64)>>, recent: Vec<(Key, u64)>) -> Ends
        requires { AreParts settled.value.items recent.items }
        ensures { result ≡ merged settled.value.items recent.items }
    {
        Ends { settled, recent }
    }

    /// The entries, in their two parts.
    pub fn parts(&self) -> Parts<'_>
        ensures entries { self.now ≡ merged result.settled.now result.recent.now }
        ensures parts { AreParts result.settled.now result.recent.now }
        ensures order { AreInOrder self.now }
    {
        Parts {
            settled: &self.settled,
            recent: &self.recent,
        }
    }

    /// The least end of the key above `begin`. None where there is no such end.
    pub fn ends(&self, key: Key, begin: u64) -> Option<u64>
        ensures { IsLeastEnd self.now key begin result }
    {
        least_of(&self.settled, &self.recent, key, begin)
    }
}

/// The least end of the key above `begin` in two parts. None where there is no such end.
pub(crate) fn least_of(
    settled: &[(Key, u64)],
    recent: &[(Key, u64)],
    key: Key,
    begin: u64,
) -> Option<u64>
    requires { AreParts settled.now recent.now }
    ensures { IsLeastEnd (merged settled.now recent.now) key begin result }
{
    lesser(
        least_end(settled, key, begin),
        least_end(recent, key, begin),
    )
}

/// The lesser of two ends; where one is not there, the other.
fn lesser(first: Option<u64>, second: Option<u64>) -> Option<u64>
    ensures { result ≡ lesser first second }
{
    let Some(end) = first else { return second };
    let Some(other) = second else { return first };
    Some(end.min(other))
}

/// The least end of the key above `begin`. None where there is no such end.
fn least_end(entries: &[(Key, u64)], key: Key, begin: u64) -> Option<u64>
    requires { AreInOrder entries.now }
    ensures { IsLeastEnd entries.now key begin result }
{
    end_at(entries, past(entries, key, begin), key)
}

/// The place of the first entry after a key and an end.
fn past(entries: &[(Key, u64)], key: Key, end: u64) -> usize
    requires { AreInOrder entries.now }
    ensures { IsFirstPast entries.now (key, end) result }
{
    match entries.binary_search(&(key, end)) {
        Ok(place) => place + 1,
        Err(place) => place,
    }
}

/// The end of the entry at a place, where it is one of the key.
fn end_at(entries: &[(Key, u64)], place: usize, key: Key) -> Option<u64>
    ensures { result ≡ end_in entries.now place key }
{
    let (other, end) = *entries.get(place)?;
    if other == key { Some(end) } else { None }
}
