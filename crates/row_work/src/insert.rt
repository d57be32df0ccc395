//! What an INSERT puts at the keys of its rows.

ghost use Rattle.std.specs.Prelude.{◌≡◌, ◌≢◌, ◌++◌, ◌-◌, ◌∷◌, [], ℕ, List, length, slice_get, All, IfOk, OnOk, IsPermutation, if◌then◌else◌};
ghost use Rattle.std.specs.declared.cmp.Ordering.TheVariants.{Less};
ghost use Rattle.std.specs.List.Sorted.{IsSortedByKey};
ghost use Rattle.cs_types.specs.Keys.{key_cmp};
ghost use Rattle.cs_model.specs.Answers as spec;
ghost use Rattle.cs_model.specs.Changes.{Edit};
ghost use Rattle.edit_laws.specs.Edits.{edit_of, edits_of};
ghost use Rattle.write_set.specs.declared.write.Write.{Write};
ghost use Rattle.row_work.specs.Inserts.{is_key, is_of, noted, AreInserted, AreJudged, GivesInserted};
ghost use Rattle.row_work.specs.Reads.{HasSnapshot, MayRead};

use crate::reading::{has_row_read, has_row_shown};
use crate::refusal::WriteRefusal;
use crate::write::written;
use cs_base::Memory;
use cs_model::InsertPlan;
use cs_types::{Key, Schema};
use group_view::Pinned;
use std::alloc::Global;
use write_set::Write;

/// What an INSERT writes.
#[derive(Drop)]
pub struct InsertedRows {
    /// By key, one for each key.
    pub writes: Vec<Write>,
    /// The keys that would stand twice, by key.
    pub present: Vec<Key>,
    /// How many rows the INSERT has, each counted, also where several have one key.
    pub affected: u64,
}

/// Puts writes in the order of their keys.
fn sort(writes: &mut Vec<Write>)
    ensures permutation { IsPermutation writes.old.items writes.new.items }
    ensures sorted { IsSortedByKey (λ (write : Write). write.key) key_cmp writes.new.items }
{
    writes.sort_unstable_by_key(
        |write: &Write| -> Key
            ensures { result ≡ write.now.key }
        { write.key },
    );
}

/// Whether the last write is of the key.
fn is_last(writes: &[Write], key: Key) -> bool
    ensures { result ≡ is_of key (slice_get writes.now (length writes.now - 1)) }
{
    match writes.last() {
        Some(write) => write.key == key,
        None => false,
    }
}

/// Whether the last key is this one.
fn is_noted(keys: &[Key], key: Key) -> bool
    ensures { result ≡ is_key key (slice_get keys.now (length keys.now - 1)) }
{
    match keys.last() {
        Some(last) => *last == key,
        None => false,
    }
}

/// Notes a key that would stand twice, where it is not the last one noted.
fn note(present: &mut Vec<Key>, key: Key) -> Result<(), Memory>
    ensures { OnOk result (present.new.items ≡ noted key present.old.items) }
{
    if !is_noted(present, key) {
        present.push(key)?;
    }
    Ok(())
}

/// Notes a key that would stand twice where it is in what the statement reads.
fn note_where(present: &mut Vec<Key>, key: Key, here: bool) -> Result<(), Memory>
    ensures { OnOk result (present.new.items ≡ if here then present.old.items ++ key ∷ [] else present.old.items) }
{
    if here {
        present.push(key)?;
    }
    Ok(())
}

/// Adds the write of a row more, whose key is not below the others. Of the rows of one key one stays, which decides nothing: the
/// INSERT is refused.
fn add(
    pinned: &Pinned,
    writes: &mut Vec<Write>,
    present: &mut Vec<Key>,
    write: Write,
) -> Result<(), Memory>
    requires { HasSnapshot pinned.now }
    ensures { (edits : List Edit) → AreJudged pinned.now edits writes.old.items present.old.items → All (λ (edit : Edit). key_cmp write.key edit.0 ≢ Less) edits → OnOk result (AreJudged pinned.now (edits ++ edit_of write ∷ []) writes.new.items present.new.items) }
{
    if is_last(writes, write.key) {
        note(present, write.key)?;
        return Ok(());
    }
    let replaces = has_row_shown(pinned, write.key);
    let here = has_row_read(pinned, write.key, replaces);
    note_where(present, write.key, here)?;
    writes.push(Write {
        key: write.key,
        row: write.row,
        replaces,
    })?;
    Ok(())
}

/// One write for each key, of writes in the order of their keys, with the keys that would stand twice.
fn judged(alloc: Global, pinned: &Pinned, rows: Vec<Write>) -> Result<InsertedRows, Memory>
    requires snapshot { HasSnapshot pinned.now }
    requires sorted { IsSortedByKey (λ (write : Write). write.key) key_cmp rows.items }
    ensures { (width : ℕ) (edits : List Edit) → IsPermutation (edits_of rows.items) edits → IfOk result (λ rows. AreInserted width pinned.now edits rows.writes.items rows.present.items rows.affected) }
{
    let affected = rows.len() as u64;
    let mut writes = Vec::with_capacity(alloc, rows.len())?;
    let mut present = Vec::new(alloc);
    for row in rows {
        add(pinned, &mut writes, &mut present, row)?;
    }
    Ok(InsertedRows {
        writes,
        present,
        affected,
    })
}

/// What an INSERT puts at the keys of its rows, and which of them would stand twice: those that stand twice among its rows, and
/// those that are in what is read. `Value` with the first refusal by row and then by column, as `written` has them. `Memory`
/// where there is no room for the rows.
pub fn inserted(
    alloc: Global,
    schema: &Schema,
    plan: &InsertPlan,
    pinned: &Pinned,
) -> Result<InsertedRows, WriteRefusal>
    requires { MayRead schema.now pinned.now }
    ensures { GivesInserted (length schema.now.columns) pinned.now (spec.edits_by schema.now (spec.inserted schema.now plan.now)) result }
{
    let mut rows = written(alloc, schema, plan)?.into_vec();
    sort(&mut rows);
    Ok(judged(alloc, pinned, rows)?)
}
