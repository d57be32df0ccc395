//! Predicates.

ghost use Rattle.std.specs.Prelude.{◌≡◌, map};
ghost use Rattle.cs_model.specs.Truths as spec;
ghost use Rattle.cs_predicate.specs.Sides.{lent};

use crate::cells::Cells;
use crate::pattern::is_like;
use crate::side::Side;
use cs_model::{Pred, Relation, Truth};
use cs_types::{Loose, Row, Schema};
use std::cmp::Ordering;

/// Whether two values of this order stand to each other as a sign says.
fn holds(sign: Relation, order: Ordering) -> bool
    ensures { result ≡ spec.holds sign order }
{
    match sign {
        Relation::Equal => order.is_eq(),
        Relation::NotEqual => order.is_ne(),
        Relation::Less => order.is_lt(),
        Relation::LessEqual => order.is_le(),
        Relation::Greater => order.is_gt(),
        Relation::GreaterEqual => order.is_ge(),
    }
}

/// The truth of a comparison: Unknown where the sides have no order.
pub fn compare(sign: Relation, left: Side<'_>, right: Side<'_>) -> Truth
    ensures { result ≡ spec.compare sign (lent left.entry) (lent right.entry) }
{
    match left.order(right) {
        Some(order) => Truth::from_bool(holds(sign, order)),
        None => Truth::Unknown,
    }
}

/// The truth of BETWEEN.
fn between(low: &Loose, high: &Loose, cell: Side<'_>) -> Truth
    ensures { result ≡ spec.between low.now high.now (lent cell.entry) }
{
    let above = compare(Relation::GreaterEqual, cell, Side::of_constant(low));
    let below = compare(Relation::LessEqual, cell, Side::of_constant(high));
    above.and(below)
}

/// The truth of IN. The first value that is equal ends the search.
fn among(cell: Side<'_>, list: &[Loose]) -> Truth
    ensures { result ≡ spec.among (lent cell.entry) list.now }
{
    let mut found = Truth::False;
    for constant in list {
        found = found.or(compare(Relation::Equal, cell, Side::of_constant(constant)));
        if found == Truth::True {
            return found;
        }
    }
    found
}

/// The truth of LIKE.
fn like(pattern: &[u8], cell: Side<'_>) -> Truth
    ensures { result ≡ spec.like pattern.now (lent cell.entry) }
{
    match cell {
        Side::Text(text) => Truth::from_bool(is_like(pattern, text)),
        _ => Truth::Unknown,
    }
}

/// The truth of IS NULL.
fn is_null(cell: Side<'_>) -> Truth
    ensures { result ≡ spec.truth_if (spec.is_null (lent cell.entry)) }
{
    Truth::from_bool(matches!(cell, Side::Null))
}

/// The truth of a chain of OR. The first part that is True ends it.
#[cycle(truth_of)]
fn any_of<C: Cells>(parts: &[Pred], row: &C, schema: &Schema) -> Truth
    ensures { result ≡ spec.any_of (map (λ part. spec.truth part (C.row_of row.now) schema.now) parts.now) }
{
    let mut found = Truth::False;
    for part in parts {
        found = found.or(truth_of(part, row, schema));
        if found == Truth::True {
            return found;
        }
    }
    found
}

/// The truth of a chain of AND. The first part that is False ends it.
#[cycle(truth_of)]
fn all_of<C: Cells>(parts: &[Pred], row: &C, schema: &Schema) -> Truth
    ensures { result ≡ spec.all_of (map (λ part. spec.truth part (C.row_of row.now) schema.now) parts.now) }
{
    let mut found = Truth::True;
    for part in parts {
        found = found.and(truth_of(part, row, schema));
        if found == Truth::False {
            return found;
        }
    }
    found
}

/// The truth of a predicate over a row of a schema, whose cells may stand anywhere. It takes no memory.
///
/// A comparison with NULL is Unknown. Numbers of different scales are compared exactly, texts byte by byte, days by their
/// number. BETWEEN is `>=` and `<=`, IN the OR of equalities. LIKE is as `is_like` has it. NOT, AND and OR are
/// three-valued; IS NULL is True or False.
#[cycle(truth_of)]
pub fn truth_of<C: Cells>(pred: &Pred, row: &C, schema: &Schema) -> Truth
    ensures { result ≡ spec.truth pred.now (C.row_of row.now) schema.now }
{
    match pred {
        Pred::AnyOf(parts) => any_of(parts.as_slice(), row, schema),
        Pred::AllOf(parts) => all_of(parts.as_slice(), row, schema),
        Pred::Not(part) => truth_of(part.get(), row, schema).negated(),
        Pred::Compare { left, sign, right } => compare(
            *sign,
            Side::of_operand(schema, row, left),
            Side::of_operand(schema, row, right),
        ),
        Pred::Between {
            column,
            negated,
            low,
            high,
        } => between(low, high, Side::of_cell(schema, row, *column)).negated_if(*negated),
        Pred::Among {
            column,
            negated,
            list,
        } => among(Side::of_cell(schema, row, *column), list.as_slice()).negated_if(*negated),
        Pred::Like {
            column,
            negated,
            pattern,
        } => like(pattern.as_slice(), Side::of_cell(schema, row, *column)).negated_if(*negated),
        Pred::IsNull { column, negated } => {
            is_null(Side::of_cell(schema, row, *column)).negated_if(*negated)
        }
    }
}

/// The truth of a predicate over a row of a schema, as `truth_of` has it.
pub fn truth(pred: &Pred, row: &Row, schema: &Schema) -> Truth
    ensures { result ≡ spec.truth pred.now row.now schema.now }
{
    truth_of(pred, row, schema)
}
