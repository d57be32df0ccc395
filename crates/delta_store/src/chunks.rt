// The chunks of a store.
ghost use Rattle.std.specs.Prelude.{◌^◌, ◌≡◌, ◌+◌, ◌-◌, ◌*◌, ◌/◌, ◌<◌, ◌≤◌, ◌++◌, [], ◌∷◌, min, map, length, slice_get, slice_index_or, slice_set, vec_len, All, OnOk, IfOk, Some, false, true, ℕ};
ghost use Rattle.delta_store.specs.Chunks.{versions_in, owns_in, versions_at, free_at, linked_ended, AreKept};

use crate::chunk::{CHUNK, Chunk};
use crate::version::LinkedVersion;
use cs_base::Memory;
use std::alloc::Global;
use std::marker::Model;

/// Versions by place, in chunks of 1,024, the last of them perhaps filled in part. Contracts see the versions, for each of
/// them whether it is own, and `spare`, the number of versions that find room without memory. It keeps its allocator.
#[derive(Debug, Drop)]
pub struct Chunks {
    chunks: Vec<Chunk>,
    len: usize,
    spare: usize,
}

impl Model for Chunks {
    ghost use Rattle.std.specs.Prelude.{◌+◌, ◌<◌, ◌^◌};
    ghost use Rattle.delta_store.specs.Chunks.{Chunked, joined, owned, AreFilled};

    ghost Value = { Chunked };

    ghost view = { λ c. record { versions = joined c.chunks.items; own = owned c.chunks.items; spare = c.spare } };

    ghost invariant = { λ c. AreFilled c.chunks.items c.len (c.len + c.spare) × (c.len + c.spare < 2 ^ 64) };
}

/// Adds a chunk without versions where there is none at a place, after the last one.
fn add_chunk_at(chunks: &mut Vec<Chunk>, alloc: Global, at: usize) -> Result<(), Memory>
    requires { at ≤ vec_len chunks.old }
    ensures kept { AreKept chunks.old.items chunks.new.items }
    ensures there { OnOk result (at < vec_len chunks.new) }
{
    if at < chunks.len() {
        return Ok(());
    }
    chunks.push(Chunk::new(alloc))?;
    Ok(())
}

/// Makes room for `room` versions in all in the chunk at a place. A chunk after the last one is a new one.
fn make_room_at(
    chunks: &mut Vec<Chunk>,
    alloc: Global,
    at: usize,
    room: usize,
) -> Result<(), Memory>
    requires { at ≤ vec_len chunks.old }
    ensures kept { AreKept chunks.old.items chunks.new.items }
    ensures there { OnOk result (at < vec_len chunks.new) }
    ensures room { OnOk result (room ≤ length (versions_at chunks.new.items at) + free_at chunks.new.items at) }
{
    add_chunk_at(chunks, alloc, at)?;
    chunks[at].reserve(alloc, room)
}

/// Makes room in the chunks from `first` on for versions at the places below `end`.
fn make_room(chunks: &mut Vec<Chunk>, alloc: Global, first: usize, end: usize) -> Result<(), Memory>
    requires { first ≤ vec_len chunks.old }
    ensures kept { AreKept chunks.old.items chunks.new.items }
    ensures room { OnOk result ((i : ℕ) → first ≤ i → min 1024 (end - 1024 * i) ≤ length (versions_at chunks.new.items i) + free_at chunks.new.items i) }
{
    for at in first..end.div_ceil(CHUNK) {
        make_room_at(chunks, alloc, at, CHUNK.min(end - at * CHUNK))?;
    }
    Ok(())
}

/// Shares each chunk; no version is then own.
fn share_each(chunks: &mut [Chunk], alloc: Global) -> Result<Vec<Chunk>, Memory>
    ensures shared { IfOk result (λ shared. map versions_in shared.items ≡ map versions_in chunks.old) }
    ensures versions { map versions_in chunks.new ≡ map versions_in chunks.old }
    ensures none_own { OnOk result (All (λ chunk. All (λ own. own ≡ false) (owns_in chunk)) chunks.new) }
{
    let mut shared = Vec::with_capacity(alloc, chunks.len())?;
    for chunk in chunks.iter_mut() {
        shared.push(chunk.share(alloc)?)?;
    }
    Ok(shared)
}

impl Chunks {
    /// No versions. It takes no memory.
    pub fn new(alloc: Global) -> Chunks
        ensures { result.versions ≡ [] }
    {
        Chunks {
            chunks: Vec::new(alloc),
            len: 0,
            spare: 0,
        }
    }

    /// The number of versions.
    pub fn len(&self) -> usize
        ensures { result ≡ length self.now.versions }
    {
        self.len
    }

    /// The version at a place.
    pub fn get(&self, place: usize) -> &LinkedVersion
        requires { place < length self.now.versions }
        ensures { slice_get self.now.versions place ≡ Some result.now }
    {
        self.chunks[place / CHUNK].get(place % CHUNK)
    }

    /// Makes room for `n` versions. After `Memory` the versions are as before. Own ones stay own.
    pub fn reserve(&mut self, n: usize) -> Result<(), Memory>
        ensures room { OnOk result (n ≤ self.new.spare) }
        ensures versions { self.new.versions ≡ self.old.versions }
        ensures own { (i : ℕ) → slice_index_or self.old.own i false ≡ true → slice_index_or self.new.own i false ≡ true }
    {
        if n <= self.spare {
            return Ok(());
        }
        let alloc = *self.chunks.allocator();
        let Some(end) = self.len.checked_add(n) else {
            return Err(Memory);
        };
        make_room(&mut self.chunks, alloc, self.len / CHUNK, end)?;
        self.spare = n;
        Ok(())
    }

    /// Appends a version. It takes no memory.
    pub fn push(&mut self, version: LinkedVersion)
        requires { 0 < self.old.spare }
        ensures versions { self.new.versions ≡ self.old.versions ++ version ∷ [] }
        ensures own { self.new.own ≡ self.old.own ++ true ∷ [] }
        ensures here { slice_index_or self.new.own (length self.old.versions) false ≡ true }
        ensures room { self.new.spare + 1 ≡ self.old.spare }
    {
        self.chunks[self.len / CHUNK].push(version);
        self.len += 1;
        self.spare -= 1;
    }

    /// Makes the version at a place own. After `Memory` the versions are as before. Own ones stay own.
    pub fn make_own(&mut self, place: usize) -> Result<(), Memory>
        requires { place < length self.old.versions }
        ensures versions { self.new.versions ≡ self.old.versions }
        ensures own { (i : ℕ) → slice_index_or self.old.own i false ≡ true → slice_index_or self.new.own i false ≡ true }
        ensures here { OnOk result (slice_index_or self.new.own place false ≡ true) }
        ensures room { self.new.spare ≡ self.old.spare }
    {
        let alloc = *self.chunks.allocator();
        self.chunks[place / CHUNK].make_own(alloc, place % CHUNK)
    }

    /// Gives the version at a place an end.
    pub fn end(&mut self, place: usize, end: u64)
        requires there { place < length self.old.versions }
        requires own { slice_index_or self.old.own place false ≡ true }
        ensures fits { length self.old.versions < 2 ^ 64 }
        ensures versions { (v : LinkedVersion) → slice_get self.old.versions place ≡ Some v → self.new.versions ≡ slice_set self.old.versions place (linked_ended end v) }
        ensures own { self.new.own ≡ self.old.own }
        ensures room { self.new.spare ≡ self.old.spare }
    {
        self.chunks[place / CHUNK].end(place % CHUNK, end);
    }

    /// The same versions, shared. It copies none of them, and leaves no room and no version own. After `Memory` the versions
    /// are as before.
    pub fn share(&mut self) -> Result<Chunks, Memory>
        ensures shared { IfOk result (λ shared. shared.versions ≡ self.old.versions) }
        ensures versions { self.new.versions ≡ self.old.versions }
        ensures room { self.new.spare ≡ 0 }
        ensures none_own { OnOk result (All (λ own. own ≡ false) self.new.own) }
    {
        let alloc = *self.chunks.allocator();
        self.spare = 0;
        let chunks = share_each(&mut self.chunks, alloc)?;
        Ok(Chunks {
            chunks,
            len: self.len,
            spare: 0,
        })
    }
}
