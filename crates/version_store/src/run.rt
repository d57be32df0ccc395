// The keys of one large commit.
ghost use Rattle.std.specs.Prelude.{◌≡◌, length, IsTrue};
ghost use Rattle.version_store.specs.Newest.{Ascend, IsApart};
ghost use Rattle.version_store.specs.Loads.{changes_of, found};

use crate::NewestChange;
use cs_types::Key;
use std::marker::Model;

/// The keys of one large commit, which ascend, with its number and transaction. Contracts see them as a load.
#[derive(Debug, Drop)]
pub struct Run {
    keys: Vec<Key>,
    change: NewestChange,
}

impl Model for Run {
    ghost use Rattle.version_store.specs.Newest.{Ascend};
    ghost use Rattle.version_store.specs.Loads.{Load, load_code};

    ghost Value = { Load };

    ghost coded = { load_code };

    ghost view = { λ r. record { keys = r.keys.items; change = r.change } };

    ghost invariant = { λ r. Ascend r.keys.items };
}

impl Run {
    /// The run of these keys, which ascend.
    pub fn new(keys: Vec<Key>, change: NewestChange) -> Run
        requires { Ascend keys.items }
        ensures { result ≡ record { keys = keys.items; change = change } }
    {
        Run { keys, change }
    }

    /// The number of its keys.
    pub fn len(&self) -> usize
        ensures { result ≡ length self.now.keys }
    {
        self.keys.len()
    }

    /// The number of its commit.
    pub fn commit(&self) -> u64
        ensures { result ≡ self.now.change.commit }
    {
        self.change.commit
    }

    /// Whether its keys lie below the least one or above the greatest.
    pub fn is_apart(&self, least: Key, greatest: Key) -> bool
        ensures apart { IsTrue result → IsApart least greatest (found (changes_of self.now)) }
        ensures none { length self.now.keys ≡ 0 → IsTrue result }
    {
        match (self.keys.first(), self.keys.last()) {
            (Some(first), Some(last)) => *last < least || greatest < *first,
            _ => true,
        }
    }

    /// The change of the key, where it is one of the keys.
    pub fn newest(&self, key: Key) -> Option<NewestChange>
        ensures { result ≡ found (changes_of self.now) key }
    {
        if self.is_apart(key, key) {
            return None;
        }
        match self.keys.binary_search(&key) {
            Ok(_) => Some(self.change),
            Err(_) => None,
        }
    }
}
