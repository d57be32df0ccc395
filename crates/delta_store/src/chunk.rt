// A chunk of versions, some of which others may have in common.
ghost use Rattle.std.specs.Prelude.{◌≡◌, ◌+◌, ◌-◌, ◌<◌, ◌≤◌, ◌++◌, [], ◌∷◌, length, slice_get, slice_set, OnOk, IfOk, All, Some, false, true, vec_len, vec_capacity};
ghost use Rattle.delta_store.specs.Chunks.{versions_in, owns_in, own_from, free_in, linked_ended, IsKept};

use crate::pieces::Pieces;
use crate::version::LinkedVersion;
use cs_base::Memory;
use std::alloc::Global;
use std::mem;

/// The most versions of a chunk.
pub const CHUNK: usize = 1024;

/// Versions that stand side by side. Those in pieces, which others may have in common, are never changed; after them come
/// the chunk's own ones, which its store alone sees, and may change.
#[derive(Debug, Drop)]
pub struct Chunk {
    pieces: Pieces,
    own: Vec<LinkedVersion>,
}

impl Chunk {
    /// No versions. It takes no memory.
    pub fn new(alloc: Global) -> Chunk
        ensures versions { versions_in result ≡ [] }
        ensures own { own_from result ≡ 0 }
    {
        Chunk {
            pieces: Pieces::new(alloc),
            own: Vec::new(alloc),
        }
    }

    /// The version at a place in it. Most stand in a chunk's first piece, where a look tells at once.
    pub fn get(&self, at: usize) -> &LinkedVersion
        requires { at < length (versions_in self.now) }
        ensures { slice_get (versions_in self.now) at ≡ Some result.now }
    {
        match self.pieces.in_first(at) {
            Some(version) => version,
            None => self.get_later(at),
        }
    }

    /// The same, by a walk over all pieces.
    fn get_later(&self, at: usize) -> &LinkedVersion
        requires { at < length (versions_in self.now) }
        ensures { slice_get (versions_in self.now) at ≡ Some result.now }
    {
        match self.pieces.find(at) {
            Ok(version) => version,
            Err(past) => &self.own[past],
        }
    }

    /// Takes the last piece back as own, where the chunk has no own versions and no room for any, and nobody else has the piece. No
    /// version is copied.
    fn take_back(&mut self)
        ensures { IsKept self.old self.new }
    {
        if self.own.capacity() == 0 {
            if let Some(last) = self.pieces.take_last() {
                self.own = last;
            }
        }
    }

    /// Makes all versions own: those of pieces are copied, and the own ones move behind them. It has room for `room` in all then. After
    /// `Memory` it is as before.
    fn gather(&mut self, alloc: Global, room: usize) -> Result<(), Memory>
        ensures kept { IsKept self.old self.new }
        ensures own { OnOk result (own_from self.new ≡ 0) }
    {
        let pieces = CHUNK - self.pieces.left(CHUNK);
        let least = pieces.saturating_add(self.own.capacity());
        let mut gathered = self.pieces.copied(alloc, room.max(least))?;
        gathered.reserve_exact(self.own.capacity())?;
        gathered.append(&mut self.own)?;
        self.pieces = Pieces::new(alloc);
        self.own = gathered;
        Ok(())
    }

    /// Makes the version at a place own: takes the last piece back, or copies all pieces. After `Memory` the versions are as before.
    pub fn make_own(&mut self, alloc: Global, at: usize) -> Result<(), Memory>
        ensures kept { IsKept self.old self.new }
        ensures own { OnOk result (own_from self.new ≤ at) }
    {
        if self.pieces.find(at).is_err() {
            return Ok(());
        }
        self.take_back();
        if self.pieces.find(at).is_err() {
            return Ok(());
        }
        self.gather(alloc, 0)
    }

    /// Makes room for `room` versions in all. Many pieces are gathered first, as a look-up walks along them; so are those of a chunk that
    /// is to be full, which gets no version more. After `Memory` its versions are as before.
    pub fn reserve(&mut self, alloc: Global, room: usize) -> Result<(), Memory>
        ensures kept { IsKept self.old self.new }
        ensures room { OnOk result (room ≤ length (versions_in self.new) + free_in self.new) }
    {
        self.take_back();
        if self.pieces.are_many() || (room >= CHUNK && !self.pieces.is_empty()) {
            self.gather(alloc, room)?;
        }
        let most = self.pieces.left(CHUNK);
        grow(&mut self.own, self.pieces.left(room), most)
    }

    /// Shares it, with no copy of a version; no version is then own. After `Memory` its versions are as before.
    pub fn share(&mut self, alloc: Global) -> Result<Chunk, Memory>
        ensures shared { IfOk result (λ shared. versions_in shared ≡ versions_in self.old) }
        ensures versions { versions_in self.new ≡ versions_in self.old }
        ensures none_own { OnOk result (All (λ own. own ≡ false) (owns_in self.new)) }
    {
        self.give_up(alloc)?;
        Ok(Chunk {
            pieces: self.pieces.share()?,
            own: Vec::new(alloc),
        })
    }

    /// Makes a piece of its own versions, if it has one. After `Memory` its versions are as before.
    fn give_up(&mut self, alloc: Global) -> Result<(), Memory>
        ensures versions { versions_in self.new ≡ versions_in self.old }
        ensures none_own { OnOk result (self.new.own.items ≡ []) }
    {
        if self.own.is_empty() {
            return Ok(());
        }
        let own = mem::replace(&mut self.own, Vec::new(alloc));
        match self.pieces.push(alloc, own) {
            Ok(()) => Ok(()),
            Err(own) => {
                self.own = own;
                Err(Memory)
            }
        }
    }

    /// Appends a version. It takes no memory.
    pub fn push(&mut self, version: LinkedVersion)
        requires { 0 < free_in self.old }
        ensures versions { versions_in self.new ≡ versions_in self.old ++ version ∷ [] }
        ensures own { owns_in self.new ≡ owns_in self.old ++ true ∷ [] }
        ensures room { free_in self.new + 1 ≡ free_in self.old }
    {
        self.own.push_reserved(version);
    }

    /// Gives the version at a place in it an end.
    pub fn end(&mut self, at: usize, end: u64)
        requires own { own_from self.old ≤ at }
        requires within { at < length (versions_in self.old) }
        ensures versions { (v : LinkedVersion) → slice_get (versions_in self.old) at ≡ Some v → versions_in self.new ≡ slice_set (versions_in self.old) at (linked_ended end v) }
        ensures len { length (versions_in self.new) ≡ length (versions_in self.old) }
        ensures own { owns_in self.new ≡ owns_in self.old }
        ensures room { free_in self.new ≡ free_in self.old }
    {
        match self.pieces.find(at) {
            Ok(_) => unreachable!(),
            Err(past) => self.own[past].end(end),
        }
    }
}

/// Makes room for `room` versions in all, doubling the room there was, up to that for `most`.
fn grow(versions: &mut Vec<LinkedVersion>, room: usize, most: usize) -> Result<(), Memory>
    ensures items { versions.new.items ≡ versions.old.items }
    ensures capacity { vec_capacity versions.old - vec_len versions.old ≤ vec_capacity versions.new - vec_len versions.new }
    ensures room { OnOk result (room ≤ vec_capacity versions.new) }
{
    if room <= versions.capacity() {
        return Ok(());
    }
    let wanted = room.max(versions.capacity().saturating_mul(2).min(most));
    versions.reserve_exact(wanted - versions.len())?;
    Ok(())
}
