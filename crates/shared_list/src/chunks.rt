// Chunks, one after another.
ghost use Rattle.std.specs.Prelude.{◌^◌, ◌≡◌, ℕ, ◌+◌, ◌<◌, ◌≤◌, ◌↔◌, length, map, slice_index_or, slice_set, vec_len, IfOk, OnOk, OnErr};
ghost use Rattle.std.specs.List.{All, insert};
ghost use Rattle.shared_list.specs.Chunks.{joined, later, IsChunkAt, IsGapIn, IsGapOrEnd, StandFrom};
ghost use Rattle.shared_list.specs.Placed.{Placed};

use crate::chunk::{CHUNK, Chunk};
use crate::copied::{Copied, append_copies};
use cs_base::Memory;
use std::alloc::Global;
use std::sync::Arc;

/// The chunk of the item at a place of the list.
pub fn chunk_at<T>(chunks: &[Chunk<T>], i: usize) -> usize
    requires stand { StandFrom 0 chunks.now }
    requires there { i < length (joined chunks.now) }
    ensures { IsChunkAt chunks.now i result }
{
    match chunks.binary_search_by_key(&i, |chunk| chunk.from()) {
        Ok(at) => at,
        Err(at) => at - 1,
    }
}

/// The same chunks, of the same items, which both have in common.
pub fn share_each<T: Drop>(alloc: Global, chunks: &[Chunk<T>]) -> Result<Vec<Chunk<T>>, Memory>
    ensures { IfOk result (λ shared. shared.items ≡ chunks.now) }
{
    let mut shared = Vec::with_capacity(alloc, chunks.len())?;
    for chunk in chunks {
        shared.push(chunk.share()?)?;
    }
    Ok(shared)
}

/// Copies of the items of the chunks, in a vector with room for `room`.
pub fn copies_of<T: Copied>(
    alloc: Global,
    chunks: &[Chunk<T>],
    room: usize,
) -> Result<Vec<T>, Memory>
    ensures { IfOk result (λ copied. copied.items ≡ joined chunks.now) }
{
    let mut copied = Vec::with_capacity(alloc, room)?;
    for chunk in chunks {
        append_copies(&mut copied, chunk.as_slice())?;
    }
    Ok(copied)
}

/// The chunks of a vector's items, whole ones after the first. The items are moved, the last ones first.
pub fn chunks_of<T: Drop>(alloc: Global, items: Vec<T>) -> Result<Vec<Chunk<T>>, Memory>
    ensures stand { IfOk result (λ chunks. StandFrom 0 chunks.items) }
    ensures items { IfOk result (λ chunks. joined chunks.items ≡ items.items) }
{
    let mut left = items;
    let mut chunks = Vec::with_capacity(alloc, left.len() / CHUNK + 1)?;
    while !left.is_empty() {
        let from = left.len().saturating_sub(CHUNK);
        let items = left.split_off(from)?;
        chunks.push(Chunk::new(from, Arc::new(alloc, items)?))?;
    }
    chunks.reverse();
    Ok(chunks)
}

/// The chunk that an item may go into which goes to a place of the list. None where there are no chunks.
fn chunk_for<T>(chunks: &[Chunk<T>], i: usize) -> Option<usize>
    requires stand { StandFrom 0 chunks.now }
    requires place { i ≤ length (joined chunks.now) }
    ensures { IsGapOrEnd chunks.now i result }
{
    if chunks.is_empty() {
        return None;
    }
    Some(chunk_at(chunks, i.saturating_sub(1)))
}

/// Splits a chunk in two. After `Memory` nothing has changed.
fn split<T: Copied>(chunks: &mut Vec<Chunk<T>>, at: usize) -> Result<(), Memory>
    requires within { at < vec_len chunks.old }
    requires some { (d : Placed T) → 1 < length (slice_index_or chunks.old.items at d).items }
    requires stand { StandFrom 0 chunks.old.items }
    requires fits { length (joined chunks.old.items) < 2 ^ 64 }
    ensures stand { StandFrom 0 chunks.new.items }
    ensures items { joined chunks.new.items ≡ joined chunks.old.items }
{
    let (front, back) = chunks[at].halves()?;
    chunks.insert(at + 1, back)?;
    chunks[at] = front;
    Ok(())
}

/// The chunk that an item may go into which goes to a place of the list, and which has room: a full one is split in two. None
/// where there are no chunks, or where the place is behind a last one that is full. The items are as before.
fn chunk_with_room<T: Copied>(chunks: &mut Vec<Chunk<T>>, i: usize) -> Result<Option<usize>, Memory>
    requires stand { StandFrom 0 chunks.old.items }
    requires place { i ≤ length (joined chunks.old.items) }
    requires fits { length (joined chunks.old.items) < 2 ^ 64 }
    ensures stand { StandFrom 0 chunks.new.items }
    ensures items { joined chunks.new.items ≡ joined chunks.old.items }
    ensures place { IfOk result (IsGapOrEnd chunks.new.items i) }
{
    let Some(at) = chunk_for(chunks, i) else {
        return Ok(None);
    };
    let chunk = &chunks[at];
    let len = chunk.as_slice().len();
    if len < CHUNK {
        return Ok(Some(at));
    }
    if at + 1 == chunks.len() && chunk.from() + len == i {
        return Ok(None);
    }
    split(chunks, at)?;
    Ok(chunk_for(chunks, i))
}

/// Has the chunks stand one place later.
fn shift_each<T>(chunks: &mut [Chunk<T>])
    requires { All (λ (chunk : Placed T). chunk.from + 1 < 2 ^ 64) chunks.old }
    ensures { chunks.new ≡ map later chunks.old }
{
    for chunk in chunks.iter_mut() {
        chunk.shift();
    }
}

/// Puts an item into chunk `at`, at place i of the list. After `Memory` the items are as before.
fn insert_at<T: Copied>(chunks: &mut [Chunk<T>], at: usize, i: usize, item: T) -> Result<(), Memory>
    requires stand { StandFrom 0 chunks.old }
    requires place { IsGapIn chunks.old i at }
    requires room { length (joined chunks.old) + 1 < 2 ^ 64 }
    ensures stand { StandFrom 0 chunks.new }
    ensures ok { OnOk result (joined chunks.new ≡ insert (joined chunks.old) i item) }
    ensures err { OnErr result (joined chunks.new ≡ joined chunks.old) }
{
    let chunk = &mut chunks[at];
    let place = i - chunk.from();
    chunk.insert(place, item)?;
    shift_each(&mut chunks[at + 1..]);
    Ok(())
}

/// Adds a chunk of one item after the `len` items of the others. After `Memory` nothing has changed.
fn add_chunk<T: Drop>(chunks: &mut Vec<Chunk<T>>, len: usize, item: T) -> Result<(), Memory>
    requires stand { StandFrom 0 chunks.old.items }
    requires len { len ≡ length (joined chunks.old.items) }
    ensures stand { StandFrom 0 chunks.new.items }
    ensures ok { OnOk result (joined chunks.new.items ≡ insert (joined chunks.old.items) len item) }
    ensures err { OnErr result (chunks.new.items ≡ chunks.old.items) }
{
    let alloc = *chunks.allocator();
    let mut items = Vec::with_capacity(alloc, CHUNK)?;
    items.push(item)?;
    chunks.push(Chunk::new(len, Arc::new(alloc, items)?))?;
    Ok(())
}

/// Puts an item before the one at place i of the list, or at its end. After `Memory` the items are as before.
pub fn insert_among<T: Copied>(chunks: &mut Vec<Chunk<T>>, i: usize, item: T) -> Result<(), Memory>
    requires stand { StandFrom 0 chunks.old.items }
    requires place { i ≤ length (joined chunks.old.items) }
    requires room { length (joined chunks.old.items) + 1 < 2 ^ 64 }
    ensures stand { StandFrom 0 chunks.new.items }
    ensures ok { OnOk result (joined chunks.new.items ≡ insert (joined chunks.old.items) i item) }
    ensures err { OnErr result (joined chunks.new.items ≡ joined chunks.old.items) }
{
    match chunk_with_room(chunks, i)? {
        Some(at) => insert_at(chunks, at, i, item),
        None => add_chunk(chunks, i, item),
    }
}

/// Puts an item into the place of the one at place i of the list. After `Memory` the items are as before.
pub fn replace_among<T: Copied>(chunks: &mut [Chunk<T>], i: usize, item: T) -> Result<(), Memory>
    requires stand { StandFrom 0 chunks.old }
    requires there { i < length (joined chunks.old) }
    ensures stand { StandFrom 0 chunks.new }
    ensures ok { OnOk result (joined chunks.new ≡ slice_set (joined chunks.old) i item) }
    ensures err { OnErr result (joined chunks.new ≡ joined chunks.old) }
{
    let at = chunk_at(chunks, i);
    let chunk = &mut chunks[at];
    let place = i - chunk.from();
    chunk.replace(place, item)?;
    Ok(())
}
