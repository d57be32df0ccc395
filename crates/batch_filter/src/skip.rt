//! Segment elimination.

ghost use Rattle.std.specs.Prelude.{◌≡◌, map, List};
ghost use Rattle.std.specs.List.{list_all, list_any};
ghost use Rattle.cs_model.specs.Skips as spec;
ghost use Rattle.row_group.specs.Rows.{column_of};
ghost use Rattle.cs_types.specs.declared.Loose.{Loose};
ghost use Rattle.cs_predicate.specs.Sides.{lent};
ghost use Rattle.batch_filter.specs.Bounds.{AreBounds};

use crate::bounds::Bounds;
use cs_model::{Operand, Pred, Relation};
use cs_types::{Loose, Schema};
use row_group::Packed;

/// The sign between the two sides exchanged.
pub fn turned(sign: Relation) -> Relation
    ensures { result ≡ spec.turned sign }
{
    match sign {
        Relation::Equal => Relation::Equal,
        Relation::NotEqual => Relation::NotEqual,
        Relation::Less => Relation::Greater,
        Relation::LessEqual => Relation::GreaterEqual,
        Relation::Greater => Relation::Less,
        Relation::GreaterEqual => Relation::LessEqual,
    }
}

/// Whether a comparison skips. A constant on the left is turned round.
fn skips_operands(
    packed: &Packed,
    schema: &Schema,
    left: &Operand,
    sign: Relation,
    right: &Operand,
) -> bool
    ensures { result ≡ spec.skips_operands (spec.loose_cells schema.now (column_of packed.now.rows)) left.now sign right.now }
{
    match (left, right) {
        (Operand::Column(column), Operand::Constant(constant)) => {
            Bounds::of(packed, schema, *column).skip(sign, constant)
        }
        (Operand::Constant(constant), Operand::Column(column)) => {
            Bounds::of(packed, schema, *column).skip(turned(sign), constant)
        }
        _ => false,
    }
}

/// Whether BETWEEN skips: one of its two comparisons does.
fn skips_between(bounds: Bounds<'_>, low: &Loose, high: &Loose) -> bool
    ensures { (cells : List Loose) → AreBounds cells (lent bounds.entry.least) (lent bounds.entry.greatest) bounds.entry.nulls → result ≡ spec.skips_between cells low.now high.now }
{
    bounds.skip(Relation::GreaterEqual, low) || bounds.skip(Relation::LessEqual, high)
}

/// Whether each part of a chain skips.
#[cycle(skips)]
fn each_skips(parts: &[Pred], packed: &Packed, schema: &Schema) -> bool
    ensures { result ≡ list_all (λ skipped. skipped) (map (λ part. spec.skips schema.now part (column_of packed.now.rows)) parts.now) }
{
    for part in parts {
        if !skips(part, packed, schema) {
            return false;
        }
    }
    true
}

/// Whether a part of a chain skips.
#[cycle(skips)]
fn some_skips(parts: &[Pred], packed: &Packed, schema: &Schema) -> bool
    ensures { result ≡ list_any (λ skipped. skipped) (map (λ part. spec.skips schema.now part (column_of packed.now.rows)) parts.now) }
{
    for part in parts {
        if skips(part, packed, schema) {
            return true;
        }
    }
    false
}

/// Whether the least and greatest cells of a group's columns, and whether a cell is NULL, tell that the predicate is True of none
/// of its rows, deleted ones too. Of the forms with NOT only IS NOT NULL can. It takes no memory, and looks at no row.
#[cycle(skips)]
pub fn skips(pred: &Pred, packed: &Packed, schema: &Schema) -> bool
    ensures { result ≡ spec.skips schema.now pred.now (column_of packed.now.rows) }
{
    match pred {
        Pred::AnyOf(parts) => each_skips(parts.as_slice(), packed, schema),
        Pred::AllOf(parts) => some_skips(parts.as_slice(), packed, schema),
        Pred::Not(_) => false,
        Pred::Compare { left, sign, right } => skips_operands(packed, schema, left, *sign, right),
        Pred::Between {
            column,
            negated,
            low,
            high,
        } => !*negated && skips_between(Bounds::of(packed, schema, *column), low, high),
        Pred::Among {
            column,
            negated,
            list,
        } => !*negated && Bounds::of(packed, schema, *column).skip_each(list.as_slice()),
        Pred::Like { .. } => false,
        Pred::IsNull { column, negated } => {
            Bounds::of(packed, schema, *column).skip_null(*negated)
        }
    }
}
