//! The sides of a comparison.

ghost use Rattle.std.specs.Prelude.{◌≡◌, ◌^◌, ◌*ℤ◌, pos, FitsSigned};
ghost use Rattle.std.specs.Int.{w128};
ghost use Rattle.std.specs.Option.{SomeIff};
ghost use Rattle.std.specs.Ordering.{int_cmp};
ghost use Rattle.cs_types.specs.Text.{loose_number, loose_of};
ghost use Rattle.cs_model.specs.Cells as cells;
ghost use Rattle.cs_model.specs.Truths as spec;
ghost use Rattle.cs_predicate.specs.Sides.{lent};
ghost use Rattle.cs_model.specs.Truths.{number_cmp, order_of};

use crate::cells::Cells;
use cs_model::Operand;
use cs_types::{ColumnType, Loose, Schema, Value};
use std::cmp::Ordering;

/// A value that is compared, lent by a row, a column's cell or a literal.
#[derive(Clone, Copy)]
pub enum Side<'a> {
    /// NULL.
    Null,
    /// The number `m` over ten to the `s`.
    Number { m: i128, s: u8 },
    /// A text.
    Text(&'a [u8]),
    /// A day, as the number of days since 1970-01-01.
    Day(i64),
}

/// A number of whole and further places, or None where 128 bits do not keep it.
#[tactic(auto, using(crate::proofs::Scales::scales))]
fn scaled(m: i128, places: u8) -> Option<i128>
    ensures { SomeIff result (FitsSigned w128 (m *ℤ pos (10 ^ places))) (m *ℤ pos (10 ^ places)) }
{
    if m == 0 {
        return Some(0);
    }
    if places > 38 {
        return None;
    }
    m.checked_mul(10i128.pow(places as u32))
}

/// The order of `m` times ten to the `places` and `n`.
fn scaled_cmp(m: i128, places: u8, n: i128) -> Ordering
    ensures { result ≡ int_cmp (m *ℤ pos (10 ^ places)) n }
{
    match scaled(m, places) {
        Some(scaled) => scaled.cmp(&n),
        // What 128 bits do not keep lies beyond each number that they keep.
        None => m.cmp(&0),
    }
}

/// The order of `m` over ten to the `s` and `n` over ten to the `t`.
fn number_cmp(m: i128, s: u8, n: i128, t: u8) -> Ordering
    ensures { result ≡ spec.number_cmp m s n t }
{
    if s <= t {
        scaled_cmp(m, t - s, n)
    } else {
        scaled_cmp(n, s - t, m).reverse()
    }
}

impl<'a> Side<'a> {
    /// What a row's cell in a column lends, NULL past the columns.
    pub fn of_cell<C: Cells>(schema: &Schema, row: &'a C, column: usize) -> Side<'a>
        ensures { lent result ≡ cells.loose_at schema.now (C.row_of row.now) column }
    {
        match schema.columns.get(column) {
            Some(found) => row.side(found.kind, column),
            None => Side::Null,
        }
    }

    /// What a value of a column of this type lends.
    pub fn of_value(kind: ColumnType, value: &'a Value) -> Side<'a>
        ensures { lent result ≡ loose_of kind value.now }
    {
        match value {
            Value::Null => Side::Null,
            Value::Number(number) => Side::of_number(kind, *number),
            Value::Text(text) => Side::Text(text.as_slice()),
        }
    }

    /// What a number of a column of this type lends.
    pub fn of_number(kind: ColumnType, number: i64) -> Side<'a>
        ensures { lent result ≡ loose_number kind number }
    {
        match kind {
            ColumnType::Date => Side::Day(number),
            _ => Side::Number {
                m: number as i128,
                s: kind.scale(),
            },
        }
    }

    /// What a literal lends.
    pub fn of_constant(constant: &'a Loose) -> Side<'a>
        ensures { lent result ≡ constant.now }
    {
        match constant {
            Loose::Null => Side::Null,
            Loose::Number { m, s } => Side::Number { m: *m, s: *s },
            Loose::Text(text) => Side::Text(text.as_slice()),
            Loose::Day(day) => Side::Day(*day),
        }
    }

    /// What an operand lends.
    pub fn of_operand<C: Cells>(schema: &Schema, row: &'a C, operand: &'a Operand) -> Side<'a>
        ensures { lent result ≡ spec.operand_of schema.now (C.row_of row.now) operand.now }
    {
        match operand {
            Operand::Column(column) => Side::of_cell(schema, row, *column),
            Operand::Constant(constant) => Side::of_constant(constant),
        }
    }

    /// The order of two sides of one family, where neither is NULL.
    pub fn order(self, other: Side<'_>) -> Option<Ordering>
        ensures { result ≡ order_of (lent self.entry) (lent other.entry) }
    {
        match (self, other) {
            (Side::Number { m, s }, Side::Number { m: n, s: t }) => Some(number_cmp(m, s, n, t)),
            (Side::Text(a), Side::Text(b)) => Some(a.cmp(&b)),
            (Side::Day(a), Side::Day(b)) => Some(a.cmp(&b)),
            _ => None,
        }
    }
}
