ghost use Rattle.std.specs.Prelude.{◌≡◌, ◌+◌, ◌*◌, ◌/◌, ◌^◌, ◌<◌, ◌≤◌, FitsSigned, unsigned_abs, MatchOption, IfOk, IsTrue, false};
ghost use Rattle.std.specs.Int.{w64};
ghost use Rattle.std.specs.Option.{SomeIff};
ghost use Rattle.cs_types.specs.Kinds as kinds;
ghost use Rattle.cs_types.specs.Kinds.{IsColumnType, has_text_bytes, keeps};
ghost use Rattle.cs_types.specs.Fit as spec;
ghost use Rattle.cs_types.specs.Fit.{fit, KeepsNearest};

use crate::{ColumnType, Loose, Value, ValueRefusal};

impl ColumnType {
    /// Why a number out of the type's range is refused.
    fn range_refusal(self) -> ValueRefusal
        ensures { result ≡ spec.range_refusal self }
    {
        match self {
            ColumnType::TinyInt | ColumnType::SmallInt => ValueRefusal::Narrow,
            _ => ValueRefusal::Overflow,
        }
    }
}

/// A power of ten that 128 bits hold.
#[tactic(auto, using(crate::proofs::FitLemmas::powers))]
pub(crate) fn power(exponent: u8) -> u128
    requires { exponent ≤ 38 }
    ensures value { result ≡ 10 ^ exponent }
    ensures positive { 0 < result }
    ensures bound { result ≤ 10 ^ 38 }
{
    10u128.pow(exponent as u32)
}

/// A quotient, a half rounded up.
fn quotient(n: u128, d: u128) -> u128
    requires positive { 0 < d }
    requires divisor { d ≤ 10 ^ 38 }
    requires size { n ≤ 2 ^ 127 }
    ensures { result ≡ (2 * n + d) / (2 * d) }
{
    let rest = n % d;
    if 2 * rest >= d { n / d + 1 } else { n / d }
}

#[tactic(auto, using(crate::proofs::Rounding::rounding))]
/// A size with `s` places at `t` of them, a half rounded up; None where it is 2 to the 128 or more.
fn nearest(n: u128, s: u8, t: u8) -> Option<u128>
    requires places { t ≤ 18 }
    requires size { n ≤ 2 ^ 127 }
    ensures { MatchOption result (2 ^ 128 ≤ spec.nearest n s t) (λ r. r ≡ spec.nearest n s t) }
{
    if s <= t {
        n.checked_mul(power(t - s))
    } else if s - t <= 38 {
        Some(quotient(n, power(s - t)))
    } else {
        Some(0)
    }
}

/// `m` over ten to the `s` at `t` places, a half away from zero; None where it is outside 64 bits.
fn rounded(m: i128, s: u8, t: u8) -> Option<i64>
    requires { t ≤ 18 }
    ensures { SomeIff result (FitsSigned w64 (spec.rounded m s t)) (spec.rounded m s t) }
{
    let size = i128::try_from(nearest(m.unsigned_abs(), s, t)?).ok()?;
    i64::try_from(if m < 0 { -size } else { size }).ok()
}

/// The value that a column keeps of a number.
fn fit_number(kind: ColumnType, m: i128, s: u8) -> Result<Value, ValueRefusal>
    requires { IsColumnType kind }
    ensures { result ≡ fit kind false (Loose.Number m s) }
{
    match rounded(m, s, kind.scale()) {
        Some(number) => {
            if kind.keeps_number(number) {
                Ok(Value::Number(number))
            } else {
                Err(kind.range_refusal())
            }
        }
        None => Err(kind.range_refusal()),
    }
}

/// The value that a column of a type keeps of a loose value. It takes no memory: a text is moved.
///
/// NULL is kept where the column is nullable, and is else refused as `NullHere`. A number is rounded to the type's
/// scale, a half away from zero; out of the type's range it is refused as `Narrow` for tinyint and smallint and as
/// `Overflow` for the other types. A text over the type's bytes is refused as `TooLong`. A day is kept by a date.
#[tactic(auto, using(crate::proofs::FitLemmas::fitted))]
pub fn fits(kind: ColumnType, nullable: bool, loose: Loose) -> Result<Value, ValueRefusal>
    requires { IsColumnType kind }
    ensures value { result ≡ fit kind nullable loose }
    ensures kept { IfOk result (λ v. IsTrue (has_text_bytes loose) → IsTrue (keeps kind v)) }
    ensures nearest { IfOk result (KeepsNearest kind loose) }
{
    match loose {
        Loose::Null => {
            if nullable {
                Ok(Value::Null)
            } else {
                Err(ValueRefusal::NullHere)
            }
        }
        Loose::Number { m, s } => fit_number(kind, m, s),
        Loose::Text(text) => match kind {
            ColumnType::VarChar { n } if text.len() <= n as usize => Ok(Value::Text(text)),
            _ => Err(ValueRefusal::TooLong),
        },
        Loose::Day(day) => {
            if kind.keeps_number(day) {
                Ok(Value::Number(day))
            } else {
                Err(ValueRefusal::Overflow)
            }
        }
    }
}
