// From tables to groups of a partial answer.
ghost use Rattle.std.specs.Prelude.{◌≡◌, ℕ, ◌+◌, ◌++◌, ◌<◌, ◌⊎◌, length, map, filter, All, IfOk, OnOk, List};
ghost use Rattle.std.specs.Bool.{OnTrue, OnFalse};
ghost use Rattle.std.specs.List.{range_with_len};
ghost use Rattle.cs_types.specs.declared.Value.{Value};
ghost use Rattle.row_group.specs.Groups.{Group};
ghost use Rattle.batch_aggregate.specs.declared.partial.Partial.{Partial as OnePartial};
ghost use Rattle.batch_aggregate.specs.Standing.{StandsFor};
ghost use Rattle.code_tallies.specs.Shown.{rows_at};
ghost use Rattle.code_tallies.specs.Keys.{HasKeys};
ghost use Rattle.code_tallies.specs.Tables.{tally_in, HasEntry, is_chosen, keys_below};
ghost use Rattle.code_tallies.specs.Scans.{IsScan};

use crate::chosen::Chosen;
use crate::column::Column;
use crate::keys::cells_of;
use crate::table::Table;
use batch_aggregate::{Partial, Tallies};
use cs_base::Memory;
use std::alloc::Global;

/// The tallies of a key number, which so many rows have.
fn tallies_of(alloc: Global, tables: &[Table<'_>], rows: u64, key: usize) -> Result<Tallies, Memory>
    requires { All (HasEntry key) tables.now }
    ensures { IfOk result (λ tallies. tallies ≡ map (λ table. tally_in rows table key) tables.now) }
{
    let mut list = Vec::new(alloc);
    for table in tables {
        list.push(table.tally(alloc, rows, key)?)?;
    }
    Ok(Tallies::from_vec(list))
}

/// Whether a group comes of a key number that so many rows have: without grouping columns one comes of no rows too.
fn is_group(rows: u64, keys: &[Column<'_>]) -> bool
    ensures some { OnTrue result ((0 < rows) ⊎ (length keys.now ≡ 0)) }
    ensures none { OnFalse result (rows ≡ 0) }
{
    rows > 0 || keys.is_empty()
}

/// Adds the chosen rows of a key number to a partial answer that has those of the key numbers below it.
fn add_key(
    alloc: Global,
    partial: &mut Partial<'_>,
    chosen: &Chosen<'_>,
    counts: &[u64],
    tables: &[Table<'_>],
    key: usize,
) -> Result<(), Memory>
    requires key { key < length counts.now }
    requires counts { length counts.now ≡ chosen.now.size }
    requires keyed { HasKeys chosen.now.length chosen.now.keys.items }
    requires tables { All (HasEntry key) tables.now }
    ensures schema { partial.new.schema.now ≡ partial.old.schema.now }
    ensures query { partial.new.query.now ≡ partial.old.query.now }
    ensures added { (group : Group) (first : OnePartial) (rows : List (List Value)) → IsScan group first chosen.now counts.now tables.now
        → partial.old.schema.now ≡ first.schema.now → partial.old.query.now ≡ first.query.now → StandsFor partial.old (rows ++ rows_at group (keys_below chosen.now key))
        → OnOk result (StandsFor partial.new (rows ++ rows_at group (keys_below chosen.now (key + 1)))) }
{
    if !is_group(counts[key], &chosen.keys) {
        return Ok(());
    }
    let cells = cells_of(alloc, &chosen.keys, key as u64)?;
    let tallies = tallies_of(alloc, tables, counts[key], key)?;
    partial.add_group(cells, tallies)?;
    Ok(())
}

/// Adds the chosen rows to a partial answer, key number by key number.
pub fn add_groups(
    alloc: Global,
    partial: &mut Partial<'_>,
    chosen: &Chosen<'_>,
    counts: &[u64],
    tables: &[Table<'_>],
) -> Result<(), Memory>
    requires counts { length counts.now ≡ chosen.now.size }
    requires keyed { HasKeys chosen.now.length chosen.now.keys.items }
    requires tables { (k : ℕ) → k < chosen.now.size → All (HasEntry k) tables.now }
    ensures schema { partial.new.schema.now ≡ partial.old.schema.now }
    ensures query { partial.new.query.now ≡ partial.old.query.now }
    ensures added { (group : Group) (rows : List (List Value)) → IsScan group partial.old chosen.now counts.now tables.now → StandsFor partial.old rows
        → OnOk result (StandsFor partial.new (rows ++ rows_at group (filter (is_chosen chosen.now) (range_with_len 0 chosen.now.length)))) }
{
    for key in 0..counts.len() {
        add_key(alloc, partial, chosen, counts, tables, key)?;
    }
    Ok(())
}
