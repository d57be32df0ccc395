//! The rows that an UPDATE writes.

ghost use Rattle.std.specs.Prelude.{◌≡◌, ◌<◌, ◌==◌, ℕ, List, length, map, All, IfOk, IsSome, Some};
ghost use Rattle.std.specs.List.{find};
ghost use Rattle.std.specs.Option.{option_copied};
ghost use Rattle.cs_types.specs.declared.Value.{Value};
ghost use Rattle.cs_types.specs.Kinds.{IsColumnType};
ghost use Rattle.cs_types.specs.Schemas.{IsSchema};
ghost use Rattle.cs_model.specs.declared.expr.Expr.{Expr};
ghost use Rattle.cs_model.specs.Answers as spec;
ghost use Rattle.cs_model.specs.Answers.{rows_from, updated_entry};
ghost use Rattle.cs_model.specs.Changes.{Table};
ghost use Rattle.write_set.specs.Writes.{Ascend, write_keys};
ghost use Rattle.row_work.specs.declared.choose.Chosen.{Chosen};
ghost use Rattle.row_work.specs.Gives.{GivesCell, GivesRow, GivesWrites};
ghost use Rattle.row_work.specs.Keyed.{Replaces};
ghost use Rattle.row_work.specs.Reads.{read_by, HasSnapshot, MayRead};
ghost use Rattle.row_work.specs.Sources.{chosen_edit, rows_as_edits, row_of, IsShown};

use crate::choose::{Chosen, Source, choose, is_in_snapshot, row_of};
use crate::refusal::WriteRefusal;
use crate::write::kept;
use cs_base::Items;
use cs_model::{Expr, UpdatePlan};
use cs_predicate::compute;
use cs_types::{Column, Row, Schema, Value};
use group_view::Pinned;
use std::alloc::Global;
use write_set::Write;

/// What a column is set to.
fn set_of(sets: &[(usize, Expr)], column: usize) -> Option<&(usize, Expr)>
    ensures { option_copied result ≡ find (λ (set : ℕ × Expr). set.0 == column) sets.now }
{
    sets.iter().find(|set| set.0 == column)
}

/// What a column of a row becomes, at the column's number from 0.
fn updated_cell(
    schema: &Schema,
    sets: &[(usize, Expr)],
    old: &Row,
    row: u64,
    i: usize,
    column: &Column,
) -> Result<Value, WriteRefusal>
    requires kind { IsColumnType column.now.kind }
    requires few { i < 32 }
    ensures { GivesCell row i (spec.updated_cell schema.now sets.now old.now i column.now) result }
{
    match set_of(sets, i) {
        Some(set) => kept(column, row, i, compute(&set.1, old, schema)),
        None => Ok(old.cell(i).copy()?),
    }
}

/// What an UPDATE makes of a row: each column that it sets computed from the row as it was and fitted, the others as they
/// were. `Value` with the first refusal by column: 515, 2628, 220, 8115 and 8134. `Memory` where there is no room for the row.
fn updated_row(
    alloc: Global,
    schema: &Schema,
    sets: &[(usize, Expr)],
    old: &Row,
    row: u64,
) -> Result<Row, WriteRefusal>
    requires { IsSchema schema.now }
    ensures { GivesRow row (spec.updated_row schema.now sets.now old.now) result }
{
    let mut cells = Row::new(alloc);
    for (i, column) in schema.columns.as_slice().iter().enumerate() {
        let value = updated_cell(schema, sets, old, row, i, column)?;
        cells.push(value)?;
    }
    Ok(cells)
}

/// What an UPDATE makes of the row that stands at a source.
fn updated_at(
    alloc: Global,
    schema: &Schema,
    sets: &[(usize, Expr)],
    pinned: &Pinned,
    source: Source,
    row: u64,
) -> Result<Row, WriteRefusal>
    requires schema { IsSchema schema.now }
    requires there { IsSome (row_of (length schema.now.columns) pinned.now source) }
    ensures { (old : List Value) → row_of (length schema.now.columns) pinned.now source ≡ Some old → GivesRow row (spec.updated_row schema.now sets.now old) result }
{
    let mut made = None;
    let old = row_of(alloc, pinned, source, schema.columns.len(), &mut made)?;
    updated_row(alloc, schema, sets, old, row)
}

/// What an UPDATE makes of each chosen row. `Value` with the first refusal by row, counted among those that were chosen, and then by
/// column, as `updated_row` has them.
fn updated_rows(
    alloc: Global,
    schema: &Schema,
    sets: &[(usize, Expr)],
    pinned: &Pinned,
    chosen: &[Chosen],
) -> Result<Vec<Write>, WriteRefusal>
    requires schema { IsSchema schema.now }
    requires snapshot { HasSnapshot pinned.now }
    requires shown { All (IsShown pinned.now) chosen.now }
    requires there { All (λ (one : Chosen). IsSome (row_of (length schema.now.columns) pinned.now one.source)) chosen.now }
    ensures gives { (rows : Table) → map (chosen_edit (length schema.now.columns) pinned.now) chosen.now ≡ rows_as_edits rows → GivesWrites (rows_from (updated_entry schema.now sets.now) 1 rows) result }
    ensures keys { IfOk result (λ writes. write_keys writes.items ≡ map (λ (one : Chosen). one.key) chosen.now) }
    ensures replaces { (width : ℕ) → IfOk result (λ writes. All (Replaces width pinned.now) writes.items) }
{
    let mut writes = Items::new(alloc);
    writes.reserve(chosen.len())?;
    for (i, one) in chosen.iter().enumerate() {
        let after = updated_at(alloc, schema, sets, pinned, one.source, i as u64 + 1)?;
        writes.push(Write {
            key: one.key,
            row: Some(after),
            replaces: is_in_snapshot(pinned, *one),
        })?;
    }
    Ok(writes.into_vec())
}

/// What an UPDATE puts at the keys of the rows that its filter keeps of what is read, in the order of their keys. `Value` with the
/// first refusal by row, counted among those that it keeps, and then by column, as `updated_row` has them. `Memory` where there
/// is no room for the rows.
pub fn updated(
    alloc: Global,
    schema: &Schema,
    plan: &UpdatePlan,
    pinned: &Pinned,
) -> Result<Vec<Write>, WriteRefusal>
    requires { MayRead schema.now pinned.now }
    ensures gives { GivesWrites (spec.updated schema.now plan.now (read_by (length schema.now.columns) pinned.now)) result }
    ensures order { IfOk result (λ writes. Ascend writes.items) }
    ensures replaces { IfOk result (λ writes. All (Replaces (length schema.now.columns) pinned.now) writes.items) }
{
    let chosen = choose(alloc, schema, &plan.filter, pinned)?;
    updated_rows(alloc, schema, plan.sets.as_slice(), pinned, &chosen)
}
