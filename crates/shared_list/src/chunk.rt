// A chunk of a list.
ghost use Rattle.std.specs.Prelude.{◌^◌, ◌≡◌, ◌+◌, ◌<◌, ◌≤◌, ◌++◌, length, slice_set, IfOk, OnOk, OnErr};
ghost use Rattle.std.specs.List.{insert};
ghost use Rattle.shared_list.specs.Chunks.{later, IsChunk};

use crate::copied::{Copied, copy_items};
use cs_base::Memory;
use std::alloc::Global;
use std::marker::Model;
use std::sync::Arc;

/// The most items of a chunk that an item more may go into.
pub const CHUNK: usize = 128;

/// Items that stand side by side in a list. Other lists may have them in common, and then they never change.
#[derive(Debug, Drop)]
pub struct Chunk<T> {
    /// How many items of the list stand before them.
    from: usize,
    items: Arc<Vec<T>>,
}

impl<T> Model for Chunk<T> {
    ghost use Rattle.shared_list.specs.Placed.{Placed, placed_code};

    ghost Value = { Placed T };

    ghost coded = { placed_code T.code };

    ghost view = { λ chunk. record { from = chunk.from; items = chunk.items.value.items } };
}

impl<T> Chunk<T> {
    /// A chunk of items with `from` items before them.
    pub fn new(from: usize, items: Arc<Vec<T>>) -> Chunk<T>
        ensures from { result.from ≡ from }
        ensures items { result.items ≡ items.value.items }
    {
        Chunk { from, items }
    }

    /// How many items of the list stand before its own.
    pub fn from(&self) -> usize
        ensures { result ≡ self.now.from }
    {
        self.from
    }

    /// Its items.
    pub fn as_slice(&self) -> &[T]
        ensures { result.now ≡ self.now.items }
    {
        self.items.as_slice()
    }

    /// Has it stand one place later.
    pub fn shift(&mut self)
        requires { self.old.from + 1 < 2 ^ 64 }
        ensures { self.new ≡ later self.old }
    {
        self.from += 1;
    }
}

impl<T: Drop> Chunk<T> {
    /// The same chunk, of the same items, which both have in common.
    pub fn share(&self) -> Result<Chunk<T>, Memory>
        ensures { IfOk result (λ shared. shared ≡ self.now) }
    {
        Ok(Chunk {
            from: self.from,
            items: Arc::try_clone(&self.items)?,
        })
    }
}

impl<T: Copied> Chunk<T> {
    /// Puts an item before the one at place i, or at the end. After `Memory` nothing has changed.
    pub fn insert(&mut self, i: usize, item: T) -> Result<(), Memory>
        requires { i ≤ length self.old.items }
        ensures ok { OnOk result (self.new ≡ record self.old { items = insert self.old.items i item }) }
        ensures err { OnErr result (self.new ≡ self.old) }
    {
        insert_in(&mut self.items, i, item)
    }

    /// Puts an item into the place of the one at place i. After `Memory` nothing has changed.
    pub fn replace(&mut self, i: usize, item: T) -> Result<(), Memory>
        requires { i < length self.old.items }
        ensures ok { OnOk result (self.new ≡ record self.old { items = slice_set self.old.items i item }) }
        ensures err { OnErr result (self.new ≡ self.old) }
    {
        replace_in(&mut self.items, i, item)
    }

    /// Its items in two chunks of their own.
    pub fn halves(&self) -> Result<(Chunk<T>, Chunk<T>), Memory>
        requires some { 1 < length self.now.items }
        requires fits { self.now.from + length self.now.items < 2 ^ 64 }
        ensures front { IfOk result (λ two. IsChunk self.now.from two.0) }
        ensures back { IfOk result (λ two. IsChunk (self.now.from + length two.0.items) two.1) }
        ensures items { IfOk result (λ two. two.0.items ++ two.1.items ≡ self.now.items) }
    {
        let alloc = *self.items.allocator();
        let items = self.items.as_slice();
        let (front, back) = items.split_at(items.len() / 2);
        let between = self.from + front.len();
        let front = chunk_of_copies(alloc, self.from, front)?;
        let back = chunk_of_copies(alloc, between, back)?;
        Ok((front, back))
    }
}

/// A chunk of copies of items, with room for a whole one.
fn chunk_of_copies<T: Copied>(alloc: Global, from: usize, items: &[T]) -> Result<Chunk<T>, Memory>
    ensures from { IfOk result (λ chunk. chunk.from ≡ from) }
    ensures items { IfOk result (λ chunk. chunk.items ≡ items.now) }
{
    let copied = copy_items(alloc, items, CHUNK)?;
    Ok(Chunk::new(from, Arc::new(alloc, copied)?))
}

/// Puts an item before the one at place i, or at the end: where no other list has the items among them, and else among copies.
fn insert_in<T: Copied>(items: &mut Arc<Vec<T>>, i: usize, item: T) -> Result<(), Memory>
    requires { i ≤ length items.old.value.items }
    ensures ok { OnOk result (items.new.value.items ≡ insert items.old.value.items i item) }
    ensures err { OnErr result (items.new.value.items ≡ items.old.value.items) }
{
    match Arc::get_mut(items) {
        Some(own) => {
            own.insert(i, item)?;
            Ok(())
        }
        None => {
            let mut own = copy_items(*items.allocator(), items, CHUNK)?;
            own.insert(i, item)?;
            put_in(items, own)
        }
    }
}

/// Puts an item into the place of the one at place i: where no other list has the items among them, and else among copies.
fn replace_in<T: Copied>(items: &mut Arc<Vec<T>>, i: usize, item: T) -> Result<(), Memory>
    requires { i < length items.old.value.items }
    ensures ok { OnOk result (items.new.value.items ≡ slice_set items.old.value.items i item) }
    ensures err { OnErr result (items.new.value.items ≡ items.old.value.items) }
{
    match Arc::get_mut(items) {
        Some(own) => {
            own[i] = item;
            Ok(())
        }
        None => {
            let mut own = copy_items(*items.allocator(), items, CHUNK)?;
            own[i] = item;
            put_in(items, own)
        }
    }
}

/// Has these items in place of those that other lists have.
fn put_in<T: Drop>(items: &mut Arc<Vec<T>>, own: Vec<T>) -> Result<(), Memory>
    ensures ok { OnOk result (items.new.value.items ≡ own.items) }
    ensures err { OnErr result (items.new.value.items ≡ items.old.value.items) }
{
    *items = Arc::new(*own.allocator(), own)?;
    Ok(())
}
