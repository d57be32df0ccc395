//! The rows of an INSERT by columns, where they are put at new keys in the order of these.

ghost use Rattle.std.specs.Prelude.{◌≡◌, ◌++◌, ◌∷◌, [], map, IfOk, IfSome, Some};
ghost use Rattle.std.specs.List.Sorted.{IsStrictlySortedBy};
ghost use Rattle.cs_types.specs.Keys.{key_cmp};
ghost use Rattle.cs_types.specs.declared.Key.{Key};
ghost use Rattle.cs_model.specs.Answers.{inserted};
ghost use Rattle.row_work.specs.Inserts.{IsLoadOf};
ghost use Rattle.row_work.specs.Reads.{MayRead};

use crate::absent::are_absent;
use batch_compute::series_columns;
use cs_base::Memory;
use cs_model::InsertPlan;
use cs_types::{Key, Schema};
use group_view::Pinned;
use std::alloc::Global;

/// The rows of an INSERT by columns.
#[derive(Drop)]
pub struct LoadedColumns {
    /// The keys of the rows, which ascend.
    pub keys: Vec<Key>,
    /// A column for each of the table, in their order: of each row the number or NULL.
    pub columns: Vec<Vec<Option<i64>>>,
}

/// The key that a cell is, where it is above all of these keys, which ascend.
fn next_key(keys: &[Key], cell: Option<i64>) -> Option<Key>
    requires { IsStrictlySortedBy key_cmp keys.now }
    ensures { IfSome result (λ (key : Key). (Some key.0 ≡ cell) × IsStrictlySortedBy key_cmp (keys.now ++ key ∷ [])) }
{
    let number = cell?;
    match keys.last() {
        Some(last) => {
            if last.0 < number {
                Some(Key(number))
            } else {
                None
            }
        }
        None => Some(Key(number)),
    }
}

/// The keys that cells are, where these ascend and none is NULL.
fn ascending(alloc: Global, cells: &[Option<i64>]) -> Result<Option<Vec<Key>>, Memory>
    ensures { IfOk result (λ found. IfSome found (λ keys. (map (λ (key : Key). Some key.0) keys.items ≡ cells.now) × IsStrictlySortedBy key_cmp keys.items)) }
{
    let mut keys = Vec::with_capacity(alloc, cells.len())?;
    for cell in cells {
        match next_key(&keys, *cell) {
            Some(key) => keys.push(key)?,
            None => return Ok(None),
        }
    }
    Ok(Some(keys))
}

/// The rows of an INSERT over a series by columns, with their keys, where these ascend and no key has a row in what is read or in the
/// table of the snapshot. So what it writes is each row at its key, in this order, and none of its writes replaces a row.
///
/// None says only that the rows are not had in this way: `series_columns` does not make them, a key stands twice, is below the key of an
/// earlier row or has a row, or the transaction has own writes. `Memory` where there is no room for the columns or on the way to them.
pub fn loaded(
    alloc: Global,
    schema: &Schema,
    plan: &InsertPlan,
    pinned: &Pinned,
) -> Result<Option<LoadedColumns>, Memory>
    requires { MayRead schema.now pinned.now }
    ensures { IfOk result (λ found. IfSome found (IsLoadOf schema.now pinned.now (inserted schema.now plan.now))) }
{
    if !pinned.own.is_empty() {
        return Ok(None);
    }
    let Some(columns) = series_columns(alloc, schema, plan)? else {
        return Ok(None);
    };
    let Some(keys) = ascending(alloc, &columns[schema.key])? else {
        return Ok(None);
    };
    if !are_absent(alloc, pinned, &keys)? {
        return Ok(None);
    }
    Ok(Some(LoadedColumns { keys, columns }))
}
