//! The least and the greatest key of the rows that a condition keeps.

ghost use Rattle.std.specs.Prelude.{◌≡◌, ◌&&◌, ◌≤ℤ◌, ℤ, true, List, FitsSigned, map};
ghost use Rattle.std.specs.Int.{w64};
ghost use Rattle.std.specs.Ordering.{int_cmp};
ghost use Rattle.cs_types.specs.declared.Key.{Key};
ghost use Rattle.cs_types.specs.declared.Loose.{Loose};
ghost use Rattle.cs_types.specs.declared.Schema.{Schema};
ghost use Rattle.cs_types.specs.declared.Value.{Value};
ghost use Rattle.cs_types.specs.Schemas.{IsSchema};
ghost use Rattle.cs_model.specs.Held.{IsRowAt};
ghost use Rattle.cs_model.specs.Truths as spec;
ghost use Rattle.cs_model.specs.declared.truth.Truth.TheVariants.{True};
ghost use Rattle.delta_store.specs.Index.{is_between};
ghost use Rattle.row_work.specs.Bounds.{IsWithin, BoundsBeside, BoundsTrue, KeepsWithin};

use cs_model::{Operand, Pred, Relation};
use cs_types::{Key, Loose, Schema};
use std::cmp;

/// The keys from a least to a greatest one, both among them.
#[derive(Clone, Copy, Debug, PartialEq, Eq)]
pub struct Bounds {
    pub least: Key,
    pub greatest: Key,
}

impl Bounds {
    /// Whether a key is one of them.
    pub fn has(self, key: Key) -> bool
        ensures { result ≡ is_between self.least self.greatest key }
    {
        self.least <= key && key <= self.greatest
    }
}

/// All keys.
pub const ALL: Bounds = Bounds {
    least: Key(i64::MIN),
    greatest: Key(i64::MAX),
};

/// The keys that are among both.
pub fn meet(a: Bounds, b: Bounds) -> Bounds
    ensures { (key : Key) → is_between result.least result.greatest key ≡ (is_between a.least a.greatest key && is_between b.least b.greatest key) }
{
    Bounds {
        least: cmp::max(a.least, b.least),
        greatest: cmp::min(a.greatest, b.greatest),
    }
}

/// The key that a number is, and for one beyond all keys the last key on its side.
fn key_near(m: i128) -> Key
    ensures above { (z : ℤ) → FitsSigned w64 z → m ≤ℤ z → result.0 ≤ℤ z }
    ensures below { (z : ℤ) → FitsSigned w64 z → z ≤ℤ m → z ≤ℤ result.0 }
{
    if m < i64::MIN as i128 {
        Key(i64::MIN)
    } else if m > i64::MAX as i128 {
        Key(i64::MAX)
    } else {
        Key(m as i64)
    }
}

/// Keys among which are all that stand so to a number.
fn bounds_beside_number(sign: Relation, m: i128) -> Bounds
    ensures { (key : Key) → FitsSigned w64 key.0 → spec.holds sign (int_cmp key.0 m) ≡ true → IsWithin result key }
{
    let near = key_near(m);
    match sign {
        Relation::Equal => Bounds {
            least: near,
            greatest: near,
        },
        Relation::NotEqual => ALL,
        Relation::Less | Relation::LessEqual => Bounds {
            least: Key(i64::MIN),
            greatest: near,
        },
        Relation::Greater | Relation::GreaterEqual => Bounds {
            least: near,
            greatest: Key(i64::MAX),
        },
    }
}

/// The keys that may stand so to a constant: all, unless it is a number without decimals or a day.
fn bounds_beside(sign: Relation, constant: &Loose) -> Bounds
    ensures { BoundsBeside sign constant.now result }
{
    match constant {
        Loose::Number { m, s } if *s == 0 => bounds_beside_number(sign, *m),
        Loose::Day(day) => bounds_beside_number(sign, i128::from(*day)),
        _ => ALL,
    }
}

/// How the second of two sides stands to the first.
pub fn turned(sign: Relation) -> Relation
    ensures { (a b : Loose) → spec.compare result b a ≡ spec.compare sign a b }
{
    match sign {
        Relation::Less => Relation::Greater,
        Relation::LessEqual => Relation::GreaterEqual,
        Relation::Greater => Relation::Less,
        Relation::GreaterEqual => Relation::LessEqual,
        Relation::Equal => Relation::Equal,
        Relation::NotEqual => Relation::NotEqual,
    }
}

/// The keys of rows of which a comparison may be True: all, unless one side is the key and the other a constant.
fn bounds_of_sides(schema: &Schema, left: &Operand, sign: Relation, right: &Operand) -> Bounds
    requires { IsSchema schema.now }
    ensures { (key : Key) (row : List Value) → IsRowAt schema.now key row → spec.compare sign (spec.operand_of schema.now row left.now) (spec.operand_of schema.now row right.now) ≡ True → IsWithin result key }
{
    match (left, right) {
        (Operand::Column(column), Operand::Constant(constant)) if *column == schema.key => {
            bounds_beside(sign, constant)
        }
        (Operand::Constant(constant), Operand::Column(column)) if *column == schema.key => {
            bounds_beside(turned(sign), constant)
        }
        _ => ALL,
    }
}

/// The keys of rows of which each part may be True.
#[cycle(bounded)]
fn bounds_of_all(schema: &Schema, parts: &[Pred]) -> Bounds
    requires { IsSchema schema.now }
    ensures { (key : Key) (row : List Value) → IsRowAt schema.now key row → spec.all_of (map (λ part. spec.truth part row schema.now) parts.now) ≡ True → IsWithin result key }
{
    let mut bounds = ALL;
    for part in parts {
        bounds = meet(bounds, bounds_of(schema, part));
    }
    bounds
}

/// The keys of rows of which a condition may be True. A comparison of the key with a constant bounds them, BETWEEN, and a chain of AND
/// of such.
#[cycle(bounded)]
fn bounds_of(schema: &Schema, pred: &Pred) -> Bounds
    requires { IsSchema schema.now }
    ensures { BoundsTrue schema.now pred.now result }
{
    match pred {
        Pred::AllOf(parts) => bounds_of_all(schema, parts.as_slice()),
        Pred::Compare { left, sign, right } => bounds_of_sides(schema, left, *sign, right),
        Pred::Between {
            column,
            negated: false,
            low,
            high,
        } if *column == schema.key => meet(
            bounds_beside(Relation::GreaterEqual, low),
            bounds_beside(Relation::LessEqual, high),
        ),
        _ => ALL,
    }
}

/// The keys of the rows that a condition may keep: all where it bounds none.
pub fn named_bounds(schema: &Schema, condition: &Option<Pred>) -> Bounds
    requires { IsSchema schema.now }
    ensures { KeepsWithin schema.now condition.now result }
{
    match condition {
        Some(pred) => bounds_of(schema, pred),
        None => ALL,
    }
}
