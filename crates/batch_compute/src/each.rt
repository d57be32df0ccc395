//! Arithmetic on lists of whole numbers, place by place and in place.

ghost use Rattle.std.specs.Prelude.{◌≡◌, length, IsTrue};
ghost use Rattle.cs_model.specs.Expressions as spec;
ghost use Rattle.batch_compute.specs.Values.{AreOver, AreOverBoth};

use crate::arithmetic::{product, signed, sum};
use cs_model::Times;

/// Puts numbers under a sign. False where bigint does not keep one of the results, and the numbers are of no use then.
pub fn sign_each(minus: bool, numbers: &mut [i64]) -> bool
    ensures { IsTrue result → AreOver (spec.signed minus) numbers.old numbers.new }
{
    for number in numbers.iter_mut() {
        match signed(minus, *number) {
            Some(result) => *number = result,
            None => return false,
        }
    }
    true
}

/// Adds to each total the number at its place, or with `minus` takes it from it. False where bigint does not keep one of the results,
/// and the totals are of no use then.
pub fn add_each(minus: bool, totals: &mut [i64], numbers: &[i64]) -> bool
    requires { length numbers.now ≡ length totals.old }
    ensures { IsTrue result → AreOverBoth (spec.sum minus) totals.old numbers.now totals.new }
{
    for (i, number) in numbers.iter().enumerate() {
        match sum(minus, totals[i], *number) {
            Some(result) => totals[i] = result,
            None => return false,
        }
    }
    true
}

/// Puts in the place of each total its product with the number at its place, or the quotient or the remainder. False where `product`
/// gives none at one of the places, and the totals are of no use then.
pub fn multiply_each(times: Times, totals: &mut [i64], numbers: &[i64]) -> bool
    requires { length numbers.now ≡ length totals.old }
    ensures { IsTrue result → AreOverBoth (spec.product times) totals.old numbers.now totals.new }
{
    for (i, number) in numbers.iter().enumerate() {
        match product(times, totals[i], *number) {
            Some(result) => totals[i] = result,
            None => return false,
        }
    }
    true
}
