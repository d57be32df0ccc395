//! A predicate over a batch of rows, whose cells stand in a batch for each column. It takes no memory.

ghost use Rattle.std.specs.Prelude.{◌≡◌, ◌<◌, ◌∷◌, ◌++◌, ◌&&◌, ℕ, [], false, Some, length, map, nat_lt, slice_index_or};
ghost use Rattle.std.specs.List.{flat_map};
ghost use Rattle.cs_model.specs.Queries.{keeps};
ghost use Rattle.batch_filter.specs.Named.{named, column_of_operand};
ghost use Rattle.batch_filter.specs.Batches as spec;
ghost use Rattle.batch_filter.specs.Batches.{batches_of, first_count, batch_row};

use column_segment::Batch;
use cs_model::{Operand, Pred, Truth};
use cs_predicate::{Cells, Side, truth_of};
use cs_types::{ColumnType, Schema};

/// The cells at one place of some batches.
#[derive(Drop)]
struct BatchRow<'a> {
    columns: &'a [Batch],
    place: usize,
}

impl Cells for BatchRow<'_> {
    ghost row_of = { λ row. batch_row row.columns.now row.place };

    fn side(&self, kind: ColumnType, column: usize) -> Side<'_> {
        let Some(batch) = self.columns.get(column) else {
            return Side::Null;
        };
        match batch.get(self.place) {
            Some(value) => Side::of_value(kind, value),
            None => Side::Null,
        }
    }
}

/// Whether the predicate is True of the row at a place.
fn is_true_at(pred: &Pred, schema: &Schema, columns: &[Batch], place: usize) -> bool
    ensures { result ≡ keeps schema.now (Some pred.now) (batch_row columns.now place) }
{
    let row = BatchRow { columns, place };
    truth_of(pred, &row, schema) == Truth::True
}

/// How many cells the batch of a column has, where there is one.
fn count_at(columns: &[Batch], column: usize) -> Option<usize>
    ensures { result ≡ first_count (batches_of columns.now (column ∷ [])) }
{
    match columns.get(column) {
        Some(batch) => Some(batch.len()),
        None => None,
    }
}

/// How many cells the batch of an operand's column has, where there is one.
fn count_of_operand(columns: &[Batch], operand: &Operand) -> Option<usize>
    ensures { result ≡ first_count (batches_of columns.now (column_of_operand operand.now)) }
{
    match operand {
        Operand::Column(column) => count_at(columns, *column),
        Operand::Constant(_) => None,
    }
}

/// How many cells the first batch has that a comparison needs, where it needs one.
fn count_of_sides(columns: &[Batch], left: &Operand, right: &Operand) -> Option<usize>
    ensures { result ≡ first_count (batches_of columns.now (column_of_operand left.now ++ column_of_operand right.now)) }
{
    match count_of_operand(columns, left) {
        Some(count) => Some(count),
        None => count_of_operand(columns, right),
    }
}

/// How many cells the first batch has that some parts of a chain need, where they need one.
#[cycle(needed)]
fn count_of_parts(columns: &[Batch], parts: &[Pred]) -> Option<usize>
    ensures { result ≡ first_count (batches_of columns.now (flat_map (λ part. part) (map named parts.now))) }
{
    for part in parts {
        if let Some(count) = count_needed(columns, part) {
            return Some(count);
        }
    }
    None
}

/// How many cells the first batch has of a column that the predicate names, where there is one.
#[cycle(needed)]
fn count_needed(columns: &[Batch], pred: &Pred) -> Option<usize>
    ensures { result ≡ first_count (batches_of columns.now (named pred.now)) }
{
    match pred {
        Pred::AnyOf(parts) => count_of_parts(columns, parts.as_slice()),
        Pred::AllOf(parts) => count_of_parts(columns, parts.as_slice()),
        Pred::Not(part) => count_needed(columns, part.get()),
        Pred::Compare { left, right, .. } => count_of_sides(columns, left, right),
        Pred::Between { column, .. } => count_at(columns, *column),
        Pred::Among { column, .. } => count_at(columns, *column),
        Pred::Like { column, .. } => count_at(columns, *column),
        Pred::IsNull { column, .. } => count_at(columns, *column),
    }
}

/// How many rows the batches have for the predicate.
fn row_count(pred: &Pred, columns: &[Batch]) -> usize
    ensures { result ≡ spec.row_count pred.now columns.now }
{
    match (count_needed(columns, pred), columns.first()) {
        (Some(count), _) => count,
        (None, Some(batch)) => batch.len(),
        (None, None) => 0,
    }
}

/// Puts into the mask of which rows a predicate is True. Each column of the schema has its batch, and row i has cell i of each. Place
/// i of the mask is true exactly where i is below the number of rows and the predicate is True of row i; all other places are
/// false. The number of rows is that of the cells in the batch of each column that the predicate names, or in the first of these
/// batches where they differ; the other batches may have any cells. Where it names none, the first batch tells. It takes no memory.
pub fn filter_batch(pred: &Pred, schema: &Schema, columns: &[Batch], mask: &mut [bool; 1024])
    ensures { (i : ℕ) → i < 1024 → slice_index_or mask.new i false ≡ (nat_lt i (spec.row_count pred.now columns.now) && keeps schema.now (Some pred.now) (batch_row columns.now i)) }
{
    let count = row_count(pred, columns);
    for place in 0..1024 {
        mask[place] = place < count && is_true_at(pred, schema, columns, place);
    }
}
