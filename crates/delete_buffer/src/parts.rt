// The two parts of a buffer's entries.
ghost use Rattle.std.specs.Prelude.{◌≡◌, IfOk};
ghost use Rattle.delete_buffer.specs.Entries.{AreParts, merged};

use crate::batches::{Added, merge_in};
use cs_base::Memory;
use cs_types::Key;
use std::alloc::Global;

/// Entries in two parts, each in the order of keys and then of ends. No entry is in both.
#[derive(Clone, Copy, Debug, Drop)]
pub struct Parts<'a> {
    /// Most entries.
    pub settled: &'a [(Key, u64)],
    /// Those that came later.
    pub recent: &'a [(Key, u64)],
}

/// The entries of both parts in one list, in their order.
pub fn merged(alloc: Global, parts: Parts<'_>) -> Result<Vec<(Key, u64)>, Memory>
    requires { AreParts parts.settled.now parts.recent.now }
    ensures { IfOk result (λ all. all.items ≡ merged parts.entry.settled.now parts.entry.recent.now) }
{
    let mut all = Vec::with_capacity(alloc, parts.settled.len() + parts.recent.len())?;
    all.extend_from_slice(parts.settled)?;
    merge_in(&mut all, Added::Entries(parts.recent));
    Ok(all)
}
