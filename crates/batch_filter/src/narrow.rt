//! Predicates over a whole group, part by part.

ghost use Rattle.std.specs.Prelude.{◌≡◌, ◌<◌, ◌&&◌, ℕ, length, slice_index_or, false, OnOk};
ghost use Rattle.std.specs.List.{list_all, list_any};
ghost use Rattle.batch_kernels.specs.Masks.{IsNarrowed};
ghost use Rattle.batch_filter.specs.Sieves.{asks};

use crate::column::{is_asked, narrow_by_codes};
use crate::sides::truth_at;
use batch_kernels::{keep_where, put_found};
use cs_base::Memory;
use cs_model::Pred;
use cs_types::Schema;
use row_group::Packed;
use std::alloc::Global;

/// Whether a place is wanted and the row there makes the predicate the truth that is asked for. A row that is not wanted is not
/// read.
fn still_asked(
    wanted: bool,
    pred: &Pred,
    holds: bool,
    packed: &Packed,
    schema: &Schema,
    position: usize,
) -> bool
    requires { position < length packed.now.rows }
    ensures { result ≡ (wanted && asks schema.now packed.now holds pred.now position) }
{
    wanted && is_asked(holds, truth_at(pred, packed, schema, position))
}

/// Keeps of the mask's places those where the row makes the predicate the truth that is asked for.
fn narrow_rows(pred: &Pred, holds: bool, packed: &Packed, schema: &Schema, mask: &mut [bool])
    requires { length mask.old ≡ length packed.now.rows }
    ensures { IsNarrowed (asks schema.now packed.now holds pred.now) mask.old mask.new }
{
    for position in 0..mask.len() {
        mask[position] = still_asked(mask[position], pred, holds, packed, schema, position);
    }
}

/// Keeps of the mask's places those where each part of a chain has the truth that is asked for.
#[cycle(narrow)]
fn narrow_each(
    alloc: Global,
    parts: &[Pred],
    holds: bool,
    packed: &Packed,
    schema: &Schema,
    mask: &mut [bool],
) -> Result<(), Memory>
    requires { length mask.old ≡ length packed.now.rows }
    ensures { OnOk result (IsNarrowed (λ i. list_all (λ part. asks schema.now packed.now holds part i) parts.now) mask.old mask.new) }
{
    for part in parts {
        narrow(alloc, part, holds, packed, schema, mask)?;
    }
    Ok(())
}

/// Keeps of the mask's places those where some part of a chain has the truth that is asked for. `found` has no place yet. A part
/// is judged at the places where no part before it has the truth.
#[cycle(narrow)]
fn narrow_found(
    alloc: Global,
    parts: &[Pred],
    holds: bool,
    packed: &Packed,
    schema: &Schema,
    mask: &mut [bool],
    found: &mut [bool],
    left: &mut [bool],
) -> Result<(), Memory>
    requires same { length mask.old ≡ length packed.now.rows }
    requires room { length found.old ≡ length mask.old }
    requires left { length left.old ≡ length mask.old }
    requires none { (i : ℕ) → i < length mask.old → slice_index_or found.old i false ≡ false }
    ensures { OnOk result (IsNarrowed (λ i. list_any (λ part. asks schema.now packed.now holds part i) parts.now) mask.old mask.new) }
{
    for part in parts {
        left.copy_from_slice(mask);
        keep_where(left, found, false);
        narrow(alloc, part, holds, packed, schema, left)?;
        put_found(left, found);
    }
    mask.copy_from_slice(found);
    Ok(())
}

/// The same with room for what is found.
#[cycle(narrow)]
fn narrow_some(
    alloc: Global,
    parts: &[Pred],
    holds: bool,
    packed: &Packed,
    schema: &Schema,
    mask: &mut [bool],
) -> Result<(), Memory>
    requires { length mask.old ≡ length packed.now.rows }
    ensures { OnOk result (IsNarrowed (λ i. list_any (λ part. asks schema.now packed.now holds part i) parts.now) mask.old mask.new) }
{
    let mut found = vec![in alloc; false; mask.len()]?;
    let mut left = vec![in alloc; false; mask.len()]?;
    narrow_found(
        alloc, parts, holds, packed, schema, mask, &mut found, &mut left,
    )
}

/// Keeps of the mask's places, one for each row of a group, those where the predicate has the truth that is asked for: True,
/// or False. NOT asks for the other one, and Unknown is neither.
#[cycle(narrow)]
pub fn narrow(
    alloc: Global,
    pred: &Pred,
    holds: bool,
    packed: &Packed,
    schema: &Schema,
    mask: &mut [bool],
) -> Result<(), Memory>
    requires { length mask.old ≡ length packed.now.rows }
    ensures { OnOk result (IsNarrowed (asks schema.now packed.now holds pred.now) mask.old mask.new) }
{
    if narrow_by_codes(alloc, pred, holds, packed, schema, mask)? {
        return Ok(());
    }
    match pred {
        Pred::AnyOf(parts) => {
            if holds {
                narrow_some(alloc, parts.as_slice(), holds, packed, schema, mask)
            } else {
                narrow_each(alloc, parts.as_slice(), holds, packed, schema, mask)
            }
        }
        Pred::AllOf(parts) => {
            if holds {
                narrow_each(alloc, parts.as_slice(), holds, packed, schema, mask)
            } else {
                narrow_some(alloc, parts.as_slice(), holds, packed, schema, mask)
            }
        }
        Pred::Not(part) => narrow(alloc, part.get(), !holds, packed, schema, mask),
        _ => {
            narrow_rows(pred, holds, packed, schema, mask);
            Ok(())
        }
    }
}
