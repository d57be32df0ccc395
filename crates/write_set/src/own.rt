ghost use Rattle.std.specs.Prelude.{◌≡◌, ◌<◌, ◌↔◌, [], ◌∷◌, length, slice_get, IsTrue, IfOk, IfErr, OnOk, OnErr, Some};
ghost use Rattle.write_set.specs.Writes.{Ascend, IsPlaceOf, put, staged};

use crate::list::Writes;
use crate::order::in_order;
use crate::write::Write;
use cs_base::Memory;
use cs_types::Key;
use std::alloc::Global;
use std::marker::Model;
use std::sync::Arc;

/// The own writes of a transaction, in the order of their keys, one for each key. Contracts see the list of them. Shares
/// of one list copy none of the writes, and what is staged later is not seen through them. To stage one write copies at most the
/// chunk of 128 writes in which it goes, beside the list of the chunks.
#[derive(Debug, Drop)]
pub struct Own {
    /// None where there is no write.
    shared: Option<Arc<Writes>>,
}

impl Model for Own {
    ghost use Rattle.std.specs.Prelude.{List};
    ghost use Rattle.write_set.specs.declared.write.Write.{Write};
    ghost use Rattle.write_set.specs.Shared.{writes_in};

    ghost Value = { List Write };

    ghost view = { λ own. writes_in own.shared };
}

impl Own {
    /// No writes. It takes no memory.
    pub fn empty() -> Own
        ensures { result ≡ [] }
    {
        Own { shared: None }
    }

    /// The writes of a list whose keys ascend strictly.
    pub fn new(alloc: Global, writes: Vec<Write>) -> Result<Own, Memory>
        requires { Ascend writes.items }
        ensures { IfOk result (λ own. own ≡ writes.items) }
    {
        let writes = Writes::from_ascending(writes)?;
        Ok(Own {
            shared: Some(Arc::new(alloc, writes)?),
        })
    }

    /// The same writes, shared. It copies none of them.
    pub fn share(&self) -> Result<Own, Memory>
        ensures { IfOk result (λ own. own ≡ self.now) }
    {
        match &self.shared {
            None => Ok(Own { shared: None }),
            Some(writes) => Ok(Own {
                shared: Some(Arc::try_clone(writes)?),
            }),
        }
    }

    /// The number of writes. Their keys ascend strictly.
    pub fn len(&self) -> usize
        ensures value { result ≡ length self.now }
        ensures order { Ascend self.now }
    {
        match &self.shared {
            None => 0,
            Some(writes) => writes.len(),
        }
    }

    /// Whether there is no write. The keys ascend strictly.
    pub fn is_empty(&self) -> bool
        ensures value { IsTrue result ↔ (self.now ≡ []) }
        ensures order { Ascend self.now }
    {
        self.len() == 0
    }

    /// The write at a place.
    pub fn get(&self, i: usize) -> &Write
        requires { i < length self.now }
        ensures { slice_get self.now i ≡ Some result.now }
    {
        match &self.shared {
            None => unreachable!(),
            Some(writes) => writes.get(i),
        }
    }

    /// The place of the key's write. None exactly where the key has none.
    pub fn find(&self, key: Key) -> Option<usize>
        ensures place { IsPlaceOf self.now key result }
        ensures order { Ascend self.now }
    {
        match &self.shared {
            None => None,
            Some(writes) => writes.find(key),
        }
    }

    /// Copies of the writes. Their keys ascend strictly.
    pub fn copies(&self, alloc: Global) -> Result<Vec<Write>, Memory>
        ensures value { IfOk result (λ copied. copied.items ≡ self.now) }
        ensures order { Ascend self.now }
    {
        match &self.shared {
            None => Ok(Vec::new(alloc)),
            Some(writes) => writes.copies(alloc),
        }
    }

    /// Lays writes over these, one for each key, the last one standing. Other shares keep what they have. After `Memory`
    /// nothing has changed.
    pub fn stage(&mut self, writes: Vec<Write>) -> Result<(), Memory>
        ensures ok { OnOk result (self.new ≡ staged self.old writes.items) }
        ensures err { OnErr result (self.new ≡ self.old) }
    {
        match &mut self.shared {
            Some(own) => stage_in(own, writes),
            None => {
                self.shared = Some(first_staged(writes)?);
                Ok(())
            }
        }
    }
}

/// The first writes of a transaction.
fn first_staged(writes: Vec<Write>) -> Result<Arc<Writes>, Memory>
    ensures { IfOk result (λ own. own.value ≡ staged [] writes.items) }
{
    let alloc = *writes.allocator();
    let ordered = in_order(writes)?;
    let own = Writes::from_ascending(ordered)?;
    Ok(Arc::new(alloc, own)?)
}

/// The only write of some. They come back where there are none or more.
fn only(writes: Vec<Write>) -> Result<Write, Vec<Write>>
    ensures ok { IfOk result (λ write. writes.items ≡ write ∷ []) }
    ensures err { IfErr result (λ back. back.items ≡ writes.items) }
{
    let mut writes = writes;
    if writes.len() != 1 {
        return Err(writes);
    }
    match writes.pop() {
        Some(write) => Ok(write),
        None => unreachable!(),
    }
}

/// Lays writes over what is shared: one write in place where no one else has the list, and else over a list that shares
/// its chunks.
fn stage_in(shared: &mut Arc<Writes>, writes: Vec<Write>) -> Result<(), Memory>
    ensures ok { OnOk result (shared.new.value ≡ staged shared.old.value writes.items) }
    ensures err { OnErr result (shared.new.value ≡ shared.old.value) }
{
    let alloc = *writes.allocator();
    match only(writes) {
        Ok(write) => put_in(shared, alloc, write),
        Err(writes) => {
            let own = shared.with(writes)?;
            *shared = Arc::new(alloc, own)?;
            Ok(())
        }
    }
}

fn put_in(shared: &mut Arc<Writes>, alloc: Global, write: Write) -> Result<(), Memory>
    ensures ok { OnOk result (shared.new.value ≡ put shared.old.value write) }
    ensures err { OnErr result (shared.new.value ≡ shared.old.value) }
{
    match Arc::get_mut(shared) {
        Some(own) => own.put(write),
        None => put_beside(shared, alloc, write),
    }
}

fn put_beside(shared: &mut Arc<Writes>, alloc: Global, write: Write) -> Result<(), Memory>
    ensures ok { OnOk result (shared.new.value ≡ put shared.old.value write) }
    ensures err { OnErr result (shared.new.value ≡ shared.old.value) }
{
    let mut own = shared.share()?;
    own.put(write)?;
    *shared = Arc::new(alloc, own)?;
    Ok(())
}
