// The list of writes that shares of it have in common.
ghost use Rattle.std.specs.Prelude.{◌≡◌, ◌+◌, ◌<◌, ◌++◌, [], length, slice_get, Some, IfOk, IfErr, OnOk, OnErr};
ghost use Rattle.std.specs.Ordering.{is_lt};
ghost use Rattle.cs_types.specs.Keys.{key_cmp};
ghost use Rattle.write_set.specs.Writes.{Ascend, IsFoundAt, IsGapFor, IsPlaceOf, put, staged};

use crate::merge::lay_all;
use crate::order::{in_order, is_in_order};
use crate::write::Write;
use cs_base::Memory;
use cs_types::Key;
use shared_list::SharedList;
use std::alloc::Global;
use std::marker::Model;

/// Writes in the order of their keys, one for each key. Contracts see the list of them. They stand in chunks of at most 128
/// writes, which lists may share, so that a write more touches one chunk.
#[derive(Debug, Drop)]
pub struct Writes {
    list: SharedList<Write>,
}

impl Model for Writes {
    ghost use Rattle.std.specs.Prelude.{List};
    ghost use Rattle.write_set.specs.declared.write.Write.{Write};
    ghost use Rattle.write_set.specs.Writes.{Ascend};

    ghost Value = { List Write };

    ghost view = { λ writes. writes.list };

    ghost invariant = { λ writes. Ascend writes.list };
}

/// Where the write of a key is, or where it would go.
fn search(list: &SharedList<Write>, key: Key) -> Result<usize, usize>
    requires { Ascend list.now }
    ensures found { IfOk result (IsFoundAt list.now key) }
    ensures absent { IfErr result (IsGapFor list.now key) }
{
    let place = list.partition_point(
        |write: &Write| -> bool
            ensures { result ≡ is_lt (key_cmp write.now.key key) }
        { write.key < key },
    );
    match list.get(place) {
        Some(write) if write.key == key => Ok(place),
        _ => Err(place),
    }
}

impl Writes {
    /// The writes of a list whose keys ascend strictly. They are moved.
    pub fn from_ascending(writes: Vec<Write>) -> Result<Writes, Memory>
        requires { Ascend writes.items }
        ensures { IfOk result (λ list. list ≡ writes.items) }
    {
        let alloc = *writes.allocator();
        Ok(Writes {
            list: SharedList::in_chunks(alloc, writes)?,
        })
    }

    /// The number of writes.
    pub fn len(&self) -> usize
        ensures value { result ≡ length self.now }
        ensures order { Ascend self.now }
    {
        self.list.len()
    }

    /// The write at a place.
    pub fn get(&self, i: usize) -> &Write
        requires { i < length self.now }
        ensures { slice_get self.now i ≡ Some result.now }
    {
        self.list.at(i)
    }

    /// The place of the key's write. None exactly where the key has none.
    pub fn find(&self, key: Key) -> Option<usize>
        ensures place { IsPlaceOf self.now key result }
        ensures order { Ascend self.now }
    {
        match search(&self.list, key) {
            Ok(place) => Some(place),
            Err(_) => None,
        }
    }

    /// The same writes in a list of its own, whose chunks both share.
    pub fn share(&self) -> Result<Writes, Memory>
        ensures { IfOk result (λ shared. shared ≡ self.now) }
    {
        Ok(Writes {
            list: self.list.share()?,
        })
    }

    /// Copies of the writes.
    pub fn copies(&self, alloc: Global) -> Result<Vec<Write>, Memory>
        ensures value { IfOk result (λ copied. copied.items ≡ self.now) }
        ensures order { Ascend self.now }
    {
        self.list.copies(alloc)
    }

    /// Puts a write in its place. After `Memory` nothing has changed.
    pub fn put(&mut self, write: Write) -> Result<(), Memory>
        ensures ok { OnOk result (self.new ≡ put self.old write) }
        ensures err { OnErr result (self.new ≡ self.old) }
    {
        match search(&self.list, write.key) {
            Ok(place) => self.list.replace(place, write),
            Err(place) => self.list.insert(place, write),
        }
    }

    /// A list with writes laid over these, one for each key, the last one standing. Both lists share the chunks that these
    /// writes leave as they are, where they are few or follow the list.
    pub fn with(&self, writes: Vec<Write>) -> Result<Writes, Memory>
        ensures { IfOk result (λ list. list ≡ staged self.now writes.items) }
    {
        if self.is_put_each(&writes) {
            laid(self.share()?, writes)
        } else {
            self.merged(writes)
        }
    }

    /// Whether it is faster to put each write in its place than to go over all of the list: they are few beside it, or they
    /// follow it in the order of their keys.
    fn is_put_each(&self, writes: &[Write]) -> bool {
        let follow = match writes.first() {
            Some(first) => {
                matches!(search(&self.list, first.key), Err(place) if place == self.list.len())
            }
            None => true,
        };
        writes.len() <= self.list.len() / FEW || (follow && is_in_order(writes))
    }

    /// A list with writes laid over these in one pass.
    fn merged(&self, writes: Vec<Write>) -> Result<Writes, Memory>
        ensures { IfOk result (λ list. list ≡ staged self.now writes.items) }
    {
        let alloc = *writes.allocator();
        let writes = in_order(writes)?;
        let own = self.copies(alloc)?;
        Writes::from_ascending(lay_all(alloc, own, writes)?)
    }
}

/// Of a list's writes such a part is few.
const FEW: usize = 32;

/// Puts each write in its place, in turn.
fn laid(list: Writes, writes: Vec<Write>) -> Result<Writes, Memory>
    ensures { IfOk result (λ laid. laid ≡ staged list writes.items) }
{
    let mut list = list;
    for write in writes {
        list.put(write)?;
    }
    Ok(list)
}
