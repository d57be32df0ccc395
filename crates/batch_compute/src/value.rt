//! The value of an expression over a number of a series.

ghost use Rattle.std.specs.Prelude.{◌≡◌, [], ◌∷◌, map, Ok, IfSome};
ghost use Rattle.cs_types.specs.declared.Value.TheVariants as cells;
ghost use Rattle.cs_types.specs.declared.Loose.TheVariants as loose;
ghost use Rattle.cs_model.specs.Expressions as spec;
ghost use Rattle.cs_model.specs.Expressions.{chain};
ghost use Rattle.cs_model.specs.Series.{series_schema};

use crate::arithmetic::{product, signed, sum};
use cs_model::{Expr, Times};
use cs_types::Loose;

/// The value of a chain of sums, of which a part on the left is computed.
#[cycle(value)]
fn sum_on(left: i64, rest: &[(bool, Expr)], number: i64) -> Option<i64>
    ensures { IfSome result (λ z. chain spec.sum (loose.Number left 0) (map (λ part. (part.0, spec.compute part.1 (cells.Number number ∷ []) series_schema)) rest.now) ≡ Ok (loose.Number z 0)) }
{
    let mut total = left;
    for part in rest {
        let right = value(&part.1, number)?;
        total = sum(part.0, total, right)?;
    }
    Some(total)
}

/// The value of a chain of products, of which a part on the left is computed.
#[cycle(value)]
fn product_on(left: i64, rest: &[(Times, Expr)], number: i64) -> Option<i64>
    ensures { IfSome result (λ z. chain spec.product (loose.Number left 0) (map (λ part. (part.0, spec.compute part.1 (cells.Number number ∷ []) series_schema)) rest.now) ≡ Ok (loose.Number z 0)) }
{
    let mut total = left;
    for part in rest {
        let right = value(&part.1, number)?;
        total = product(part.0, total, right)?;
    }
    Some(total)
}

/// The value of an expression over a number of a series, where all of it is arithmetic on whole numbers of 64 bits. None where a
/// literal is another, also NULL or one with places, where a column is not the series' one, where a result or the quotient of a
/// remainder is outside bigint, also one on the way, and where a divisor is 0.
#[cycle(value)]
pub fn value(expr: &Expr, number: i64) -> Option<i64>
    ensures { IfSome result (λ z. spec.compute expr.now (cells.Number number ∷ []) series_schema ≡ Ok (loose.Number z 0)) }
{
    match expr {
        Expr::Constant(Loose::Number { m, s: 0 }) => i64::try_from(*m).ok(),
        Expr::Column(0) => Some(number),
        Expr::Signed { minus, part } => signed(*minus, value(part.get(), number)?),
        Expr::Sum { first, rest } => sum_on(value(first.get(), number)?, rest.as_slice(), number),
        Expr::Product { first, rest } => {
            product_on(value(first.get(), number)?, rest.as_slice(), number)
        }
        _ => None,
    }
}
