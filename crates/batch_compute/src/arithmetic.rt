//! Arithmetic on whole numbers of 64 bits, which are those of bigint.

ghost use Rattle.std.specs.Prelude.{◌≡◌, Ok, IfSome};
ghost use Rattle.cs_types.specs.declared.Loose.TheVariants as loose;
ghost use Rattle.cs_model.specs.Expressions as spec;

use cs_model::Times;

/// A number under a sign: `-` negates it, `+` keeps it. None where bigint does not keep the result.
pub fn signed(minus: bool, a: i64) -> Option<i64>
    ensures { IfSome result (λ z. spec.signed minus a ≡ Ok (loose.Number z 0)) }
{
    if minus { a.checked_neg() } else { Some(a) }
}

/// The sum of two numbers, or with `minus` their difference. None where bigint does not keep it.
pub fn sum(minus: bool, a: i64, b: i64) -> Option<i64>
    ensures { IfSome result (λ z. spec.sum minus a b ≡ Ok (loose.Number z 0)) }
{
    if minus {
        a.checked_sub(b)
    } else {
        a.checked_add(b)
    }
}

/// The product, the quotient or the remainder of two numbers. None where bigint does not keep it, or, for a remainder too, the quotient,
/// and where the divisor is 0.
pub fn product(times: Times, a: i64, b: i64) -> Option<i64>
    ensures { IfSome result (λ z. spec.product times a b ≡ Ok (loose.Number z 0)) }
{
    match times {
        Times::Multiply => a.checked_mul(b),
        Times::Divide => a.checked_div(b),
        Times::Remainder => a.checked_rem(b),
    }
}
