//! The columns that a predicate names.

ghost use Rattle.std.specs.Prelude.{◌≡◌, ◌<◌, ◌==◌, map, IfSome, All, true};
ghost use Rattle.std.specs.List.{list_all, flat_map};
ghost use Rattle.batch_filter.specs.Named as spec;

use cs_model::{Operand, Pred};

/// Whether a side of a comparison names no other column.
fn is_of(column: usize, operand: &Operand) -> bool
    ensures { result ≡ list_all (λ i. i == column) (spec.column_of_operand operand.now) }
{
    match operand {
        Operand::Column(other) => *other == column,
        Operand::Constant(_) => true,
    }
}

/// Whether the parts of a chain name no other column.
#[cycle(names)]
fn each_names(column: usize, parts: &[Pred]) -> bool
    ensures { result ≡ list_all (λ i. i == column) (flat_map (λ part. part) (map spec.named parts.now)) }
{
    for part in parts {
        if !names_only(column, part) {
            return false;
        }
    }
    true
}

/// Whether a predicate names no other column.
#[cycle(names)]
fn names_only(column: usize, pred: &Pred) -> bool
    ensures { result ≡ list_all (λ i. i == column) (spec.named pred.now) }
{
    match pred {
        Pred::AnyOf(parts) => each_names(column, parts.as_slice()),
        Pred::AllOf(parts) => each_names(column, parts.as_slice()),
        Pred::Not(part) => names_only(column, part.get()),
        Pred::Compare { left, right, .. } => is_of(column, left) && is_of(column, right),
        Pred::Between { column: other, .. } => *other == column,
        Pred::Among { column: other, .. } => *other == column,
        Pred::Like { column: other, .. } => *other == column,
        Pred::IsNull { column: other, .. } => *other == column,
    }
}

/// A column below `width` beside which a predicate names none, where there is one.
pub fn lone_column(width: usize, pred: &Pred) -> Option<usize>
    ensures within { IfSome result (λ column. column < width) }
    ensures lone { IfSome result (λ column. list_all (λ i. i == column) (spec.named pred.now) ≡ true) }
{
    for column in 0..width {
        if names_only(column, pred) {
            return Some(column);
        }
    }
    None
}
