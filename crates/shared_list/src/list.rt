ghost use Rattle.std.specs.Prelude.{◌^◌, ◌≡◌, ◌+◌, ◌<◌, ◌≤◌, ◌++◌, ◌↔◌, [], length, slice_get, slice_index_or, slice_set, Bool, true, false, Some, IsTrue, IfOk, OnOk, OnErr, OnSome};
ghost use Rattle.std.specs.Fn.{ComputesKey};
ghost use Rattle.std.specs.List.{insert};
ghost use Rattle.std.specs.List.Sorted.{IsPartitionedBy, IsPartitionPoint};
ghost use Rattle.std.specs.Option.{option_copied};
ghost use Rattle.shared_list.specs.Chunks.{passes_first};

use crate::chunk::Chunk;
use crate::chunks::{chunk_at, chunks_of, copies_of, insert_among, replace_among, share_each};
use crate::copied::Copied;
use cs_base::Memory;
use std::alloc::Global;
use std::marker::Model;
use std::sync::Arc;

/// A list in chunks, which other lists may have in common. Contracts see the list of its items.
#[derive(Debug, Drop)]
pub struct SharedList<T> {
    chunks: Vec<Chunk<T>>,
    len: usize,
}

impl<T> Model for SharedList<T> {
    ghost use Rattle.std.specs.Prelude.{◌^◌, ◌<◌, List};
    ghost use Rattle.std.specs.Coded.{coded_list};
    ghost use Rattle.shared_list.specs.Chunks.{joined, AreChunks};

    ghost Value = { List T };

    ghost coded = { coded_list T.code };

    ghost view = { λ list. joined list.chunks.items };

    ghost invariant = { λ list. AreChunks list.chunks.items list.len × (list.len < 2 ^ 64) };
}

impl<T> SharedList<T> {
    /// The empty list. It takes no memory.
    pub fn new(alloc: Global) -> SharedList<T>
        ensures { result ≡ [] }
    {
        SharedList {
            chunks: Vec::new(alloc),
            len: 0,
        }
    }

    /// The number of items.
    pub fn len(&self) -> usize
        ensures { result ≡ length self.now }
    {
        self.len
    }

    /// Whether there is no item.
    pub fn is_empty(&self) -> bool
        ensures { IsTrue result ↔ (self.now ≡ []) }
    {
        self.len == 0
    }

    /// The item at a place that is there. It takes time O(log n) in the number of chunks.
    pub fn at(&self, i: usize) -> &T
        requires { i < length self.now }
        ensures value { slice_get self.now i ≡ Some result.now }
        ensures item { result.now ≡ slice_index_or self.now i result.now }
    {
        let chunk = &self.chunks[chunk_at(&self.chunks, i)];
        let place = i - chunk.from();
        &chunk.as_slice()[place]
    }

    /// The item at a place, and None past the end.
    pub fn get(&self, i: usize) -> Option<&T>
        ensures value { option_copied result ≡ slice_get self.now i }
        ensures within { OnSome result (i < length self.now) }
    {
        if self.len <= i {
            return None;
        }
        Some(self.at(i))
    }

    /// The place of the first item that fails a test which the items before it pass, and those after it fail too. It takes time
    /// O(log n).
    pub fn partition_point<P: Fn(&T) -> bool>(&self, pred: P) -> usize
        requires { P.IsAlwaysCallable pred }
        ensures bound { result ≤ length self.now }
        ensures partitioned { (p : T → Bool) → ComputesKey P.FnMut p pred → IsPartitionedBy p self.now → IsPartitionPoint (λ item. p item ≡ true) (λ item. p item ≡ false) self.now result }
    {
        let begun = self.chunks.partition_point(
            |chunk: &Chunk<T>| -> bool
                requires { P.IsAlwaysCallable pred }
                ensures { (p : T → Bool) → ComputesKey P.FnMut p pred → result ≡ passes_first p chunk.now.items }
            {
                match chunk.as_slice().first() {
                    Some(item) => pred(item),
                    None => false,
                }
            },
        );
        if begun == 0 {
            return 0;
        }
        let chunk = &self.chunks[begun - 1];
        chunk.from() + chunk.as_slice().partition_point(pred)
    }
}

impl<T: Drop> SharedList<T> {
    /// The list of a vector's items, in one chunk, or in none where there is no item. They are moved.
    pub fn from_vec(alloc: Global, items: Vec<T>) -> Result<SharedList<T>, Memory>
        ensures { IfOk result (λ list. list ≡ items.items) }
    {
        let mut list = SharedList::new(alloc);
        list.append(Arc::new(alloc, items)?)?;
        Ok(list)
    }

    /// The list of a vector's items, in chunks of at most 128. They are moved.
    pub fn in_chunks(alloc: Global, items: Vec<T>) -> Result<SharedList<T>, Memory>
        ensures { IfOk result (λ list. list ≡ items.items) }
    {
        let len = items.len();
        Ok(SharedList {
            chunks: chunks_of(alloc, items)?,
            len,
        })
    }

    /// Adds the items of a vector at the end, which both then have in common: none is copied. After `Memory` nothing has changed.
    pub fn append(&mut self, items: Arc<Vec<T>>) -> Result<(), Memory>
        ensures ok { OnOk result (self.new ≡ self.old ++ items.value.items) }
        ensures err { OnErr result (self.new ≡ self.old) }
    {
        if items.is_empty() {
            return Ok(());
        }
        let Some(len) = self.len.checked_add(items.len()) else {
            return Err(Memory);
        };
        self.chunks.push(Chunk::new(self.len, items))?;
        self.len = len;
        Ok(())
    }

    /// The same list, whose chunks both have in common.
    pub fn share(&self) -> Result<SharedList<T>, Memory>
        ensures { IfOk result (λ shared. shared ≡ self.now) }
    {
        Ok(SharedList {
            chunks: share_each(*self.chunks.allocator(), &self.chunks)?,
            len: self.len,
        })
    }
}

impl<T: Copied> SharedList<T> {
    /// Copies of the items.
    pub fn copies(&self, alloc: Global) -> Result<Vec<T>, Memory>
        ensures { IfOk result (λ copied. copied.items ≡ self.now) }
    {
        copies_of(alloc, &self.chunks, self.len)
    }

    /// Puts an item before the one at place i, or at the end. Other lists keep what they have. A chunk that they have too is copied, and
    /// a full one is split in two, but behind the last item a new one begins. After `Memory` nothing has changed.
    pub fn insert(&mut self, i: usize, item: T) -> Result<(), Memory>
        requires { i ≤ length self.old }
        ensures ok { OnOk result (self.new ≡ insert self.old i item) }
        ensures err { OnErr result (self.new ≡ self.old) }
    {
        let Some(len) = self.len.checked_add(1) else {
            return Err(Memory);
        };
        insert_among(&mut self.chunks, i, item)?;
        self.len = len;
        Ok(())
    }

    /// Puts an item into the place of the one at place i. Other lists keep what they have. After `Memory` nothing has changed.
    pub fn replace(&mut self, i: usize, item: T) -> Result<(), Memory>
        requires { i < length self.old }
        ensures ok { OnOk result (self.new ≡ slice_set self.old i item) }
        ensures err { OnErr result (self.new ≡ self.old) }
    {
        replace_among(&mut self.chunks, i, item)
    }
}
