//! INSERT from a series.

ghost use Rattle.std.specs.Prelude.{◌≡◌, ◌-◌, ◌*◌, ◌^◌, ◌≤◌, pos, neg_ℤ, ◌≤ℤ◌};
ghost use Rattle.bind_faults.specs.Least.{least};
ghost use Rattle.bind_faults.specs.Inserts.{first_place, units, largest, bound_faults, is_no_range, series_faults};

use crate::expr::place_of;
use crate::fault::{FEWER_EXPRS, Fault, MORE_EXPRS, UNSUPPORTED, earlier, fault_if};
use crate::insert::{count_fault, values_fault};
use crate::setting::Scope;
use cs_types::Schema;
use tsql_trees::{ExprTree, NamesTree, NumberTree, SeriesTree};

/// How many digits a number may have after its point.
const MOST_PLACES: u8 = 18;

/// How many numbers a series may have, in units of 10 to the power of -18.
const MOST_NUMBERS: i128 = 4_194_304_000_000_000_000_000_000;

/// The place of the first expression of a list, or another place where it is empty.
fn first_place(at: u32, exprs: &[ExprTree]) -> u32
    ensures { result ≡ first_place at exprs.now }
{
    match exprs {
        [first, ..] => place_of(first),
        [] => at,
    }
}

/// Ten to the power of the places that a number lacks to the most places.
#[tactic(auto, using(crate::proofs::Units::power_bound))]
fn power(places: u8) -> u64
    ensures value { result ≡ 10 ^ (18 - places) }
    ensures bound { result ≤ 1_000_000_000_000_000_000 }
{
    10u64.pow(MOST_PLACES.saturating_sub(places) as u32)
}

/// The size of a number in units of 10 to the power of -18.
fn size(number: NumberTree) -> u128
    ensures value { result ≡ number.digits * 10 ^ (18 - number.s) }
    ensures bound { result ≤ 18_446_744_073_709_551_615_000_000_000_000_000_000 }
{
    number.digits as u128 * power(number.s) as u128
}

/// A number in units of 10 to the power of -18.
fn units(number: NumberTree) -> i128
    ensures value { result ≡ units number }
    ensures low { neg_ℤ (pos 18_446_744_073_709_551_615_000_000_000_000_000_000) ≤ℤ result }
    ensures high { result ≤ℤ pos 18_446_744_073_709_551_615_000_000_000_000_000_000 }
{
    let size = size(number) as i128;
    if number.minus { -size } else { size }
}

/// The largest size of a bigint below zero, or of another one.
fn largest(minus: bool) -> u64
    ensures { result ≡ largest minus }
{
    if minus {
        9_223_372_036_854_775_808
    } else {
        9_223_372_036_854_775_807
    }
}

/// A bound with a point or outside bigint.
fn bound_fault(number: NumberTree) -> Option<Fault>
    ensures { result ≡ least (bound_faults number) }
{
    let wrong = number.point || largest(number.minus) < number.digits;
    fault_if(wrong, UNSUPPORTED, number.place)
}

/// Whether a start is above the stop, or there are too many numbers.
fn is_no_range(start: NumberTree, stop: NumberTree) -> bool
    ensures { result ≡ is_no_range start stop }
{
    let first = units(start);
    let last = units(stop);
    last < first || first + MOST_NUMBERS <= last
}

/// The first fault of the list over a series and of the series.
#[tactic(auto, using(crate::proofs::Leasts::least_append))]
pub fn series_fault(
    schema: &Schema,
    names: &Option<NamesTree>,
    series: &SeriesTree,
) -> Option<Fault>
    ensures { result ≡ least (series_faults schema.now names.now series.now) }
{
    let exprs = series.exprs.as_slice();
    let at = first_place(series.place, exprs);
    let by_count = count_fault(schema, names, FEWER_EXPRS, MORE_EXPRS, at, exprs.len());
    let by_values = earlier(by_count, values_fault(schema, Scope::Series, names, exprs));
    let range = is_no_range(series.start, series.stop);
    let by_range = earlier(by_values, fault_if(range, UNSUPPORTED, series.place));
    let by_start = earlier(by_range, bound_fault(series.start));
    earlier(by_start, bound_fault(series.stop))
}
