// Versions as they are stored.
ghost use Rattle.std.specs.Prelude.{◌≡◌, IfOk, is_none};
ghost use Rattle.delta_store.specs.Chunks.{linked_ended};
ghost use Rattle.delta_store.specs.Places.{IsEndedThrough};

use cs_base::Memory;
use cs_types::{Key, Version};

/// A version with the key that was given with its row.
#[derive(Debug, Drop)]
pub struct KeyedVersion {
    /// The key of the row.
    pub key: Key,
    /// The row with its begin and its end.
    pub version: Version,
}

/// A version with the place of its key's version before it, None where it is the first of its key, and a commit by which all
/// versions of its key before it have ended, 0 for the first of its key.
#[derive(Debug, Drop)]
pub struct LinkedVersion {
    pub keyed: KeyedVersion,
    pub previous: Option<usize>,
    pub ended_by: u64,
}

impl LinkedVersion {
    /// Whether the version has no end.
    pub fn is_live(&self) -> bool
        ensures { result ≡ is_none self.now.keyed.version.end }
    {
        self.keyed.version.end.is_none()
    }

    /// Gives the version an end.
    pub fn end(&mut self, end: u64)
        ensures { self.new ≡ linked_ended end self.old }
    {
        self.keyed.version.end = Some(end);
    }

    /// The commit by which the versions of its key before it have ended, and it too if it has an end.
    pub fn ended_through(&self) -> u64
        ensures { IsEndedThrough self.now result }
    {
        match self.keyed.version.end {
            Some(end) => end.max(self.ended_by),
            None => self.ended_by,
        }
    }

    /// A version equal to this one, with its key and its link.
    pub fn copy(&self) -> Result<LinkedVersion, Memory>
        ensures { IfOk result (λ copied. copied ≡ self.now) }
    {
        let keyed = KeyedVersion {
            key: self.keyed.key,
            version: self.keyed.version.copy()?,
        };
        Ok(LinkedVersion {
            keyed,
            previous: self.previous,
            ended_by: self.ended_by,
        })
    }
}
