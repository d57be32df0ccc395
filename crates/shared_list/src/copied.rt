// Copies of items.
ghost use Rattle.std.specs.Prelude.{◌≡◌, ◌++◌, IfOk, OnOk};

use cs_base::Memory;
use std::alloc::Global;

/// An item that a list can copy, so that its own chunk may change where another list has the same one.
pub trait Copied: Drop {
    /// An item equal to this one.
    fn copy(&self) -> Result<Self, Memory>
        ensures { IfOk result (λ copied. copied ≡ self.now) };
}

/// Appends copies of items.
pub fn append_copies<T: Copied>(copied: &mut Vec<T>, items: &[T]) -> Result<(), Memory>
    ensures { OnOk result (copied.new.items ≡ copied.old.items ++ items.now) }
{
    for item in items {
        copied.push(item.copy()?)?;
    }
    Ok(())
}

/// The same items, in a vector with room for `room` in all.
pub fn copy_items<T: Copied>(alloc: Global, items: &[T], room: usize) -> Result<Vec<T>, Memory>
    ensures { IfOk result (λ copied. copied.items ≡ items.now) }
{
    let mut copied = Vec::with_capacity(alloc, room.max(items.len()))?;
    append_copies(&mut copied, items)?;
    Ok(copied)
}
