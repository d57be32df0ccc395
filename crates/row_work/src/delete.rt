//! What a DELETE takes away.

ghost use Rattle.std.specs.Prelude.{◌≡◌, ℕ, length, map, All, IfOk, None};
ghost use Rattle.cs_model.specs.Answers as spec;
ghost use Rattle.write_set.specs.Writes.{Ascend};
ghost use Rattle.edit_laws.specs.Edits.{edits_of};
ghost use Rattle.row_work.specs.declared.choose.Chosen.{Chosen};
ghost use Rattle.row_work.specs.Keyed.{Replaces};
ghost use Rattle.row_work.specs.Reads.{read_by, HasSnapshot, MayRead};
ghost use Rattle.row_work.specs.Sources.{IsShown};

use crate::choose::{Chosen, choose, is_in_snapshot};
use cs_base::Memory;
use cs_model::Pred;
use cs_types::Schema;
use group_view::Pinned;
use std::alloc::Global;
use write_set::Write;

/// Nothing in the place of each chosen key.
fn without(alloc: Global, pinned: &Pinned, chosen: &[Chosen]) -> Result<Vec<Write>, Memory>
    requires snapshot { HasSnapshot pinned.now }
    requires shown { All (IsShown pinned.now) chosen.now }
    ensures edits { IfOk result (λ writes. edits_of writes.items ≡ map (λ (one : Chosen). (one.key, None)) chosen.now) }
    ensures replaces { (width : ℕ) → IfOk result (λ writes. All (Replaces width pinned.now) writes.items) }
{
    let mut writes = Vec::with_capacity(alloc, chosen.len())?;
    for one in chosen {
        writes.push(Write {
            key: one.key,
            row: None,
            replaces: is_in_snapshot(pinned, *one),
        })?;
    }
    Ok(writes)
}

/// The keys of the rows that a condition keeps of what is read, in their order, each with nothing in its place. `Memory` where
/// there is no room for them.
pub fn deleted(
    alloc: Global,
    schema: &Schema,
    condition: &Option<Pred>,
    pinned: &Pinned,
) -> Result<Vec<Write>, Memory>
    requires { MayRead schema.now pinned.now }
    ensures gives { IfOk result (λ writes. edits_of writes.items ≡ spec.deleted schema.now condition.now (read_by (length schema.now.columns) pinned.now)) }
    ensures order { IfOk result (λ writes. Ascend writes.items) }
    ensures replaces { IfOk result (λ writes. All (Replaces (length schema.now.columns) pinned.now) writes.items) }
{
    let chosen = choose(alloc, schema, condition, pinned)?;
    without(alloc, pinned, &chosen)
}
