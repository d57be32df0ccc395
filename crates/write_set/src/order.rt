// Writes brought into the order of their keys.
ghost use Rattle.std.specs.Prelude.{◌≡◌, List, [], IsTrue, IfOk, OnOk};
ghost use Rattle.std.specs.Ordering.{is_lt};
ghost use Rattle.std.specs.BTreeMap.{insert_entry};
ghost use Rattle.write_set.specs.declared.write.Write.{Write};
ghost use Rattle.cs_types.specs.Keys.{key_cmp};
ghost use Rattle.write_set.specs.Writes.{Ascend, keyed, staged};

use crate::write::Write;
use cs_base::Memory;
use cs_types::Key;
use std::alloc::Global;
use std::collections::BTreeMap;

/// Whether the keys ascend strictly.
pub fn is_in_order(writes: &[Write]) -> bool
    ensures { IsTrue result → Ascend writes.now }
{
    writes.is_sorted_by(
        |a: &Write, b: &Write| -> bool
            ensures { result ≡ is_lt (key_cmp a.now.key b.now.key) }
        { a.key < b.key },
    )
}

fn add(by_key: &mut BTreeMap<Key, Write>, write: Write) -> Result<(), Memory>
    ensures { OnOk result (by_key.new.entries ≡ insert_entry key_cmp by_key.old.entries write.key write) }
{
    by_key.insert(write.key, write)?;
    Ok(())
}

/// The writes by key, the last for a key standing.
fn by_key(alloc: Global, writes: Vec<Write>) -> Result<BTreeMap<Key, Write>, Memory>
    ensures { IfOk result (λ by_key. by_key.entries ≡ keyed (staged [] writes.items)) }
{
    let mut by_key = BTreeMap::new(alloc);
    for write in writes {
        add(&mut by_key, write)?;
    }
    Ok(by_key)
}

/// The writes in the order of their keys, the last for a key standing.
fn sorted(writes: Vec<Write>) -> Result<Vec<Write>, Memory>
    ensures { IfOk result (λ ordered. ordered.items ≡ staged [] writes.items) }
{
    let alloc = *writes.allocator();
    let mut by_key = by_key(alloc, writes)?;
    let mut ordered = Vec::with_capacity(alloc, by_key.len())?;
    while let Some((_, write)) = by_key.pop_first() {
        ordered.push(write)?;
    }
    Ok(ordered)
}

/// Writes that do to any list what these do. Where their keys do not ascend already, they come in the order of the keys, the
/// last for a key standing.
pub fn in_order(writes: Vec<Write>) -> Result<Vec<Write>, Memory>
    ensures alike { IfOk result (λ ordered. (own : List Write) → staged own ordered.items ≡ staged own writes.items) }
    ensures order { IfOk result (λ ordered. Ascend ordered.items) }
{
    if is_in_order(&writes) {
        Ok(writes)
    } else {
        sorted(writes)
    }
}
