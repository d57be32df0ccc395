//! Conditions that keep the rows of a range of keys and no others.

ghost use Rattle.std.specs.Prelude.{◌≡◌, ◌&&◌, ℤ, List, FitsSigned, IfSome, None, Some, if◌then◌else◌, true};
ghost use Rattle.std.specs.Int.{w64};
ghost use Rattle.std.specs.Ordering.{int_cmp};
ghost use Rattle.cs_types.specs.declared.Key.{Key};
ghost use Rattle.cs_types.specs.declared.Loose.TheVariants as loose;
ghost use Rattle.cs_types.specs.declared.Value.{Value};
ghost use Rattle.cs_types.specs.Schemas.{IsSchema};
ghost use Rattle.cs_types.specs.Text.{loose_number};
ghost use Rattle.cs_model.specs.Held.{IsRowAt};
ghost use Rattle.cs_model.specs.Truths as spec;
ghost use Rattle.cs_model.specs.declared.pred.Relation.{Relation as Sign};
ghost use Rattle.delta_store.specs.Index.{is_between};
ghost use Rattle.row_work.specs.Bounds.{IsKeyRange, IsRange, IsRangeBeside, KeepsRange};

use crate::bounds::{Bounds, meet, named_bounds, turned};
use cs_model::{Operand, Pred, Relation};
use cs_types::{ColumnType, Key, Loose, Schema};

/// The number that a constant is, where it has no decimals.
fn whole_of(constant: &Loose) -> Option<i128>
    ensures { IfSome result (λ m. constant.now ≡ loose.Number m 0) }
{
    match constant {
        Loose::Number { m, s } if *s == 0 => Some(*m),
        _ => None,
    }
}

/// The number of the day that a constant is.
fn day_of(constant: &Loose) -> Option<i128>
    ensures { IfSome result (λ m. constant.now ≡ loose.Day m) }
{
    match constant {
        Loose::Day(day) => Some(i128::from(*day)),
        _ => None,
    }
}

/// The number that a constant is beside keys of a type: one without decimals beside numbers, and a day beside days.
fn number_beside(kind: ColumnType, constant: &Loose) -> Option<i128>
    ensures { IfSome result (λ m. (sign : Sign) (z : ℤ) → spec.compare sign (loose_number kind z) constant.now ≡ spec.truth_if (spec.holds sign (int_cmp z m))) }
{
    match kind {
        ColumnType::TinyInt | ColumnType::SmallInt | ColumnType::Int | ColumnType::BigInt => {
            whole_of(constant)
        }
        ColumnType::Date => day_of(constant),
        _ => None,
    }
}

/// The key that a number is. None where it is beyond all keys.
fn key_of(m: i128) -> Option<Key>
    ensures { IfSome result (λ key. key.0 ≡ m) }
{
    if m < i64::MIN as i128 || m > i64::MAX as i128 {
        None
    } else {
        Some(Key(m as i64))
    }
}

/// The keys that stand so to a key. None where they are no range.
fn range_beside_key(sign: Relation, other: Key) -> Option<Bounds>
    ensures { IfSome result (λ bounds. (key : Key) → FitsSigned w64 key.0 → spec.holds sign (int_cmp key.0 other.0) ≡ is_between bounds.least bounds.greatest key) }
{
    match sign {
        Relation::Equal => Some(Bounds {
            least: other,
            greatest: other,
        }),
        Relation::NotEqual => None,
        Relation::Less => Some(Bounds {
            least: Key(i64::MIN),
            greatest: Key(other.0.checked_sub(1)?),
        }),
        Relation::LessEqual => Some(Bounds {
            least: Key(i64::MIN),
            greatest: other,
        }),
        Relation::Greater => Some(Bounds {
            least: Key(other.0.checked_add(1)?),
            greatest: Key(i64::MAX),
        }),
        Relation::GreaterEqual => Some(Bounds {
            least: other,
            greatest: Key(i64::MAX),
        }),
    }
}

/// The keys that stand so to a constant, where they are a range.
fn range_beside(schema: &Schema, sign: Relation, constant: &Loose) -> Option<Bounds>
    requires { IsSchema schema.now }
    ensures { IfSome result (IsRangeBeside schema.now sign constant.now) }
{
    let kind = schema.columns.at(schema.key).kind;
    let other = key_of(number_beside(kind, constant)?)?;
    range_beside_key(sign, other)
}

/// The keys of the rows of which a comparison is True, where one side is the key and the other a constant, and they are a range.
fn range_of_sides(
    schema: &Schema,
    left: &Operand,
    sign: Relation,
    right: &Operand,
) -> Option<Bounds>
    requires { IsSchema schema.now }
    ensures { IfSome result (λ bounds. (key : Key) (row : List Value) → IsRowAt schema.now key row → spec.compare sign (spec.operand_of schema.now row left.now) (spec.operand_of schema.now row right.now) ≡ spec.truth_if (is_between bounds.least bounds.greatest key)) }
{
    match (left, right) {
        (Operand::Column(column), Operand::Constant(constant)) if *column == schema.key => {
            range_beside(schema, sign, constant)
        }
        (Operand::Constant(constant), Operand::Column(column)) if *column == schema.key => {
            range_beside(schema, turned(sign), constant)
        }
        _ => None,
    }
}

/// The keys of the rows of which a condition is True, where it is a comparison or a BETWEEN of the key with constants, and they are a
/// range.
fn range_of_part(schema: &Schema, pred: &Pred) -> Option<Bounds>
    requires { IsSchema schema.now }
    ensures { IfSome result (IsRange schema.now pred.now) }
{
    match pred {
        Pred::Compare { left, sign, right } => range_of_sides(schema, left, *sign, right),
        Pred::Between {
            column,
            negated: false,
            low,
            high,
        } if *column == schema.key => {
            let above = range_beside(schema, Relation::GreaterEqual, low)?;
            let below = range_beside(schema, Relation::LessEqual, high)?;
            Some(meet(above, below))
        }
        _ => None,
    }
}

/// The same also of two such conditions that an AND joins.
fn range_of(schema: &Schema, pred: &Pred) -> Option<Bounds>
    requires { IsSchema schema.now }
    ensures { IfSome result (IsRange schema.now pred.now) }
{
    let Pred::AllOf(parts) = pred else {
        return range_of_part(schema, pred);
    };
    match parts.as_slice() {
        [first, second] => Some(meet(
            range_of_part(schema, first)?,
            range_of_part(schema, second)?,
        )),
        _ => None,
    }
}

/// The keys of the rows that a condition keeps, where it keeps each row of the table with one of these keys and no other: where it
/// names a range of keys, and nothing else.
fn kept_range(schema: &Schema, condition: &Option<Pred>) -> Option<Bounds>
    requires { IsSchema schema.now }
    ensures { IfSome result (KeepsRange schema.now condition.now) }
{
    match condition {
        Some(pred) => range_of(schema, pred),
        None => None,
    }
}

/// The keys of the rows that a condition may keep, and whether it keeps each row of the table with one of these keys.
#[derive(Clone, Copy, Debug, PartialEq, Eq)]
pub struct KeyRange {
    pub bounds: Bounds,
    pub is_exact: bool,
}

impl KeyRange {
    /// The bounds of the keys, where the condition keeps each row of the table with one of these keys.
    pub fn exact(self) -> Option<Bounds>
        ensures { result ≡ (if self.is_exact then Some self.bounds else None) }
    {
        if self.is_exact {
            Some(self.bounds)
        } else {
            None
        }
    }
}

/// The range of keys that a condition names: all keys where it names none.
pub fn key_range(schema: &Schema, condition: &Option<Pred>) -> KeyRange
    requires { IsSchema schema.now }
    ensures { IsKeyRange schema.now condition.now result }
{
    match kept_range(schema, condition) {
        Some(bounds) => KeyRange {
            bounds,
            is_exact: true,
        },
        None => {
            let bounds = named_bounds(schema, condition);
            KeyRange {
                bounds,
                is_exact: false,
            }
        }
    }
}
