//! Arithmetic on whole numbers.

ghost use Rattle.std.specs.Prelude.{◌≡◌, Err, MatchOption};
ghost use Rattle.cs_model.specs.Expressions as spec;
ghost use Rattle.cs_model.specs.Expressions.{on_one, on_two};
ghost use Rattle.cs_model.specs.declared.expr_refusal.ExprRefusal.TheVariants as refusal;

use cs_model::{ExprRefusal, Times};
use cs_types::Loose;

/// The least number of bigint.
const LEAST: i128 = -9_223_372_036_854_775_808;

/// The greatest number of bigint.
const GREATEST: i128 = 9_223_372_036_854_775_807;

/// A result, if bigint keeps it; it is None where not even 128 bits keep it.
fn in_bigint(computed: Option<i128>) -> Result<Loose, ExprRefusal>
    ensures { MatchOption computed (result ≡ Err refusal.Overflow) (λ z. result ≡ spec.in_bigint z) }
{
    match computed {
        Some(m) if LEAST <= m && m <= GREATEST => Ok(Loose::Number { m, s: 0 }),
        _ => Err(ExprRefusal::Overflow),
    }
}

fn sum(minus: bool, a: i128, b: i128) -> Result<Loose, ExprRefusal>
    ensures { result ≡ spec.sum minus a b }
{
    if minus {
        in_bigint(a.checked_sub(b))
    } else {
        in_bigint(a.checked_add(b))
    }
}

/// The quotient, cut toward zero.
fn quotient(a: i128, b: i128) -> Result<Loose, ExprRefusal>
    ensures { result ≡ spec.product Times.Divide a b }
{
    if b == 0 {
        return Err(ExprRefusal::ZeroDivisor);
    }
    in_bigint(a.checked_div(b))
}

/// The remainder, with the sign of the left side.
fn remainder(a: i128, b: i128) -> Result<Loose, ExprRefusal>
    ensures { result ≡ spec.product Times.Remainder a b }
{
    if b == 0 {
        return Err(ExprRefusal::ZeroDivisor);
    }
    // By -1 nothing is left, also where the quotient is too large for 128 bits.
    if b == -1 {
        return in_bigint(Some(0));
    }
    in_bigint(Some(a % b))
}

fn product(times: Times, a: i128, b: i128) -> Result<Loose, ExprRefusal>
    ensures { result ≡ spec.product times a b }
{
    match times {
        Times::Multiply => in_bigint(a.checked_mul(b)),
        Times::Divide => quotient(a, b),
        Times::Remainder => remainder(a, b),
    }
}

/// The whole number that a value is. Numbers with places, texts and days are in no arithmetic.
fn whole_of(value: &Loose) -> Option<i128>
    ensures { result ≡ spec.whole_of value.now }
{
    match value {
        Loose::Number { m, s: 0 } => Some(*m),
        _ => None,
    }
}

/// A value under a sign: `-` negates it, `+` keeps it. NULL stays NULL.
pub fn signed(minus: bool, value: &Loose) -> Result<Loose, ExprRefusal>
    ensures { result ≡ on_one (spec.signed minus) (spec.whole_of value.now) }
{
    match whole_of(value) {
        Some(a) if minus => in_bigint(a.checked_neg()),
        Some(a) => in_bigint(Some(a)),
        None => Ok(Loose::Null),
    }
}

/// The sum of two values, or with `minus` their difference. With NULL it is NULL.
pub fn sum_of(minus: bool, left: &Loose, right: &Loose) -> Result<Loose, ExprRefusal>
    ensures { result ≡ on_two (spec.sum minus) (spec.whole_of left.now) (spec.whole_of right.now) }
{
    match (whole_of(left), whole_of(right)) {
        (Some(a), Some(b)) => sum(minus, a, b),
        _ => Ok(Loose::Null),
    }
}

/// The product, quotient or remainder of two values. With NULL it is NULL.
pub fn product_of(times: Times, left: &Loose, right: &Loose) -> Result<Loose, ExprRefusal>
    ensures { result ≡ on_two (spec.product times) (spec.whole_of left.now) (spec.whole_of right.now) }
{
    match (whole_of(left), whole_of(right)) {
        (Some(a), Some(b)) => product(times, a, b),
        _ => Ok(Loose::Null),
    }
}
