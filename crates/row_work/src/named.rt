//! The keys that a condition names.

ghost use Rattle.std.specs.Prelude.{◌≡◌, ℤ, List, map, Contains, true, IfOk, IfSome, FitsSigned, Some};
ghost use Rattle.std.specs.Ordering.{is_eq};
ghost use Rattle.std.specs.List.Sorted.{IsStrictlySortedBy};
ghost use Rattle.cs_types.specs.declared.Key.{Key};
ghost use Rattle.cs_types.specs.declared.Schema.{Schema};
ghost use Rattle.cs_types.specs.declared.Value.{Value};
ghost use Rattle.cs_types.specs.declared.Value.TheVariants.{Number};
ghost use Rattle.cs_types.specs.Keys.{key_cmp};
ghost use Rattle.std.specs.Int.{w64};
ghost use Rattle.cs_types.specs.Schemas.{IsSchema};
ghost use Rattle.cs_model.specs.Cells.{loose_at};
ghost use Rattle.cs_model.specs.Held.{IsRowAt};
ghost use Rattle.cs_model.specs.Truths as spec;
ghost use Rattle.cs_model.specs.declared.pred.Relation.TheVariants.{Equal};
ghost use Rattle.cs_model.specs.declared.truth.Truth.TheVariants.{True};
ghost use Rattle.row_work.specs.Named.{AreKeysOf, HasKeyAmong, KeepsAt, NamesKey};

use cs_base::Memory;
use cs_model::{Operand, Pred, Relation};
use cs_types::{ColumnType, Key, Loose, Schema, Value, fits};
use std::alloc::Global;
use std::slice;

/// The constant that stands on one side, where the key stands on the other.
fn equal_constant<'a>(schema: &Schema, left: &'a Operand, right: &'a Operand) -> Option<&'a Loose>
    ensures { IfSome result (λ constant. (row : List Value) → spec.compare Equal (spec.operand_of schema.now row left.now) (spec.operand_of schema.now row right.now) ≡ True → spec.compare Equal (loose_at schema.now row schema.now.key) constant.now ≡ True) }
{
    match (left, right) {
        (Operand::Column(column), Operand::Constant(constant)) if *column == schema.key => {
            Some(constant)
        }
        (Operand::Constant(constant), Operand::Column(column)) if *column == schema.key => {
            Some(constant)
        }
        _ => None,
    }
}

/// The constants that the first part of a chain of AND names that names some.
#[cycle(named)]
fn constants_of_all<'a>(schema: &Schema, parts: &'a [Pred]) -> Option<&'a [Loose]>
    ensures { IfSome result (λ constants. (row : List Value) → spec.all_of (map (λ part. spec.truth part row schema.now) parts.now) ≡ True → HasKeyAmong schema.now constants.now row) }
{
    for part in parts {
        if let Some(constants) = constants_of(schema, part) {
            return Some(constants);
        }
    }
    None
}

/// The constants that a condition names for the key, as `key = constant`, `constant = key` or `key IN (constants)`, or as a part of a
/// chain of AND does. None where it names none.
#[cycle(named)]
fn constants_of<'a>(schema: &Schema, pred: &'a Pred) -> Option<&'a [Loose]>
    ensures { IfSome result (λ constants. NamesKey schema.now pred.now constants.now) }
{
    match pred {
        Pred::AllOf(parts) => constants_of_all(schema, parts.as_slice()),
        Pred::Compare {
            left,
            sign: Relation::Equal,
            right,
        } => match equal_constant(schema, left, right) {
            Some(constant) => Some(slice::from_ref(constant)),
            None => None,
        },
        Pred::Among {
            column,
            negated: false,
            list,
        } if *column == schema.key => Some(list.as_slice()),
        _ => None,
    }
}

/// The number that a value is.
fn number_of(value: Value) -> Option<i64>
    ensures { (z : ℤ) → value ≡ Number z → result ≡ Some z }
{
    match value {
        Value::Number(number) => Some(number),
        _ => None,
    }
}

/// The whole number that a number is, where 64 bits keep it. One with decimals gives a neighbour: no row of that key is kept, since the
/// condition is tested too.
fn whole_number(m: i128, s: u8) -> Option<i64>
    ensures { (z : ℤ) → FitsSigned w64 z → is_eq (spec.number_cmp z 0 m s) ≡ true → result ≡ Some z }
{
    match fits(ColumnType::BigInt, false, Loose::Number { m, s }) {
        Ok(value) => number_of(value),
        Err(_refusal) => None,
    }
}

/// The key that equals a constant, where one may.
fn key_of_constant(constant: &Loose) -> Option<Key>
    ensures { (schema : Schema) (key : Key) (row : List Value) → IsSchema schema → IsRowAt schema key row → spec.compare Equal (loose_at schema row schema.key) constant.now ≡ True → result ≡ Some key }
{
    match constant {
        Loose::Null => None,
        Loose::Number { m, s } => match whole_number(*m, *s) {
            Some(number) => Some(Key(number)),
            None => None,
        },
        Loose::Text(_) => None,
        Loose::Day(day) => Some(Key(*day)),
    }
}

/// The key of each constant that has one.
fn keys_of(alloc: Global, constants: &[Loose]) -> Result<Vec<Key>, Memory>
    ensures { (schema : Schema) → IsSchema schema → IfOk result (λ keys. AreKeysOf schema constants.now keys.items) }
{
    let mut keys = Vec::with_capacity(alloc, constants.len())?;
    for constant in constants {
        if let Some(key) = key_of_constant(constant) {
            keys.push(key)?;
        }
    }
    Ok(keys)
}

/// Puts keys in their order, each once.
fn sort_once(keys: &mut Vec<Key>)
    ensures order { IsStrictlySortedBy key_cmp keys.new.items }
    ensures kept { (key : Key) → Contains keys.old.items key → Contains keys.new.items key }
{
    keys.sort_unstable();
    keys.dedup();
}

/// The keys that a condition names, in their order: it keeps no rows of other keys. None where it names none, and may keep any rows.
pub fn named_keys(
    alloc: Global,
    schema: &Schema,
    condition: &Option<Pred>,
) -> Result<Option<Vec<Key>>, Memory>
    requires { IsSchema schema.now }
    ensures order { IfOk result (λ found. IfSome found (λ keys. IsStrictlySortedBy key_cmp keys.items)) }
    ensures named { IfOk result (λ found. IfSome found (λ keys. KeepsAt schema.now condition.now keys.items)) }
{
    let Some(pred) = condition else {
        return Ok(None);
    };
    match constants_of(schema, pred) {
        Some(constants) => {
            let mut keys = keys_of(alloc, constants)?;
            sort_once(&mut keys);
            Ok(Some(keys))
        }
        None => Ok(None),
    }
}
