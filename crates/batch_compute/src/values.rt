//! The values of an expression over numbers of a series, a node at a time over all of them.

ghost use Rattle.std.specs.Prelude.{◌≡◌, length, map, replicate, IfOk, IfSome};
ghost use Rattle.cs_types.specs.declared.Loose.TheVariants as loose;
ghost use Rattle.cs_model.specs.Expressions as spec;
ghost use Rattle.cs_model.specs.Expressions.{chain};
ghost use Rattle.batch_compute.specs.Values.{over, AreOver, AreOverBoth};

use crate::each::{add_each, multiply_each, sign_each};
use cs_base::Memory;
use cs_model::{Expr, Times};
use cs_types::Loose;
use std::alloc::Global;

/// The values of chains of sums, of which the parts on the left are computed.
#[cycle(values)]
fn sums_on(
    alloc: Global,
    left: Vec<i64>,
    rest: &[(bool, Expr)],
    numbers: &[i64],
) -> Result<Option<Vec<i64>>, Memory>
    requires { length left.items ≡ length numbers.now }
    ensures { IfOk result (λ found. IfSome found (λ values. AreOverBoth (λ total number. chain spec.sum (loose.Number total 0) (map (λ part. (part.0, over number part.1)) rest.now)) left.items numbers.now values.items)) }
{
    let mut totals = left;
    for part in rest {
        match values(alloc, &part.1, numbers)? {
            Some(right) => {
                if !add_each(part.0, &mut totals, &right) {
                    return Ok(None);
                }
            }
            None => return Ok(None),
        }
    }
    Ok(Some(totals))
}

/// The values of chains of products, of which the parts on the left are computed.
#[cycle(values)]
fn products_on(
    alloc: Global,
    left: Vec<i64>,
    rest: &[(Times, Expr)],
    numbers: &[i64],
) -> Result<Option<Vec<i64>>, Memory>
    requires { length left.items ≡ length numbers.now }
    ensures { IfOk result (λ found. IfSome found (λ values. AreOverBoth (λ total number. chain spec.product (loose.Number total 0) (map (λ part. (part.0, over number part.1)) rest.now)) left.items numbers.now values.items)) }
{
    let mut totals = left;
    for part in rest {
        match values(alloc, &part.1, numbers)? {
            Some(right) => {
                if !multiply_each(part.0, &mut totals, &right) {
                    return Ok(None);
                }
            }
            None => return Ok(None),
        }
    }
    Ok(Some(totals))
}

/// The values under a sign.
fn signs_on(minus: bool, part: Vec<i64>) -> Option<Vec<i64>>
    ensures { IfSome result (λ values. AreOver (spec.signed minus) part.items values.items) }
{
    let mut values = part;
    if sign_each(minus, &mut values) {
        Some(values)
    } else {
        None
    }
}

/// A literal's value, as often as there are numbers. None where it has no whole number of 64 bits.
fn repeated(alloc: Global, literal: i128, many: usize) -> Result<Option<Vec<i64>>, Memory>
    ensures { IfOk result (λ found. IfSome found (λ values. values.items ≡ replicate many literal)) }
{
    match i64::try_from(literal) {
        Ok(number) => Ok(Some(vec![in alloc; number; many]?)),
        Err(_) => Ok(None),
    }
}

/// The values of an expression over numbers of a series, as `value` has them one by one. None where it has none over one of the
/// numbers.
#[cycle(values)]
pub fn values(alloc: Global, expr: &Expr, numbers: &[i64]) -> Result<Option<Vec<i64>>, Memory>
    ensures { IfOk result (λ found. IfSome found (λ values. AreOver (λ number. over number expr.now) numbers.now values.items)) }
{
    match expr {
        Expr::Constant(Loose::Number { m, s: 0 }) => repeated(alloc, *m, numbers.len()),
        Expr::Column(0) => Ok(Some(numbers.to_vec(alloc)?)),
        Expr::Signed { minus, part } => match values(alloc, part.get(), numbers)? {
            Some(part) => Ok(signs_on(*minus, part)),
            None => Ok(None),
        },
        Expr::Sum { first, rest } => match values(alloc, first.get(), numbers)? {
            Some(left) => sums_on(alloc, left, rest.as_slice(), numbers),
            None => Ok(None),
        },
        Expr::Product { first, rest } => match values(alloc, first.get(), numbers)? {
            Some(left) => products_on(alloc, left, rest.as_slice(), numbers),
            None => Ok(None),
        },
        _ => Ok(None),
    }
}
