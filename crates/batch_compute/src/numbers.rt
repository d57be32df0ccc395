//! The numbers of a series.

ghost use Rattle.std.specs.Prelude.{◌≡◌, ◌<◌, ◌+ℤ◌, pos, IfOk, IfSome};
ghost use Rattle.cs_model.specs.Answers.{series, series_len};

use cs_base::Memory;
use std::alloc::Global;

/// How many numbers a series may have whose rows are made by columns.
const MOST: u128 = 1 << 24;

/// How many numbers a series has: at most 2^64.
pub fn series_len(start: i64, stop: i64) -> u128
    ensures { result ≡ series_len start stop }
{
    if stop < start {
        return 0;
    }
    stop.abs_diff(start) as u128 + 1
}

/// The number of a series after i others.
pub fn number_at(start: i64, stop: i64, i: u128) -> i64
    requires { i < series_len start stop }
    ensures { result ≡ start +ℤ pos i }
{
    match i64::try_from(start as i128 + i as i128) {
        Ok(number) => number,
        Err(_) => unreachable!(),
    }
}

/// The numbers of a series, from its first to its last. None where they are more than `MOST`.
pub fn series_numbers(alloc: Global, start: i64, stop: i64) -> Result<Option<Vec<i64>>, Memory>
    ensures { IfOk result (λ found. IfSome found (λ numbers. numbers.items ≡ series (start, stop))) }
{
    let count = series_len(start, stop);
    if count > MOST {
        return Ok(None);
    }
    let mut numbers = Vec::with_capacity(alloc, count as usize)?;
    for i in 0..count {
        numbers.push(number_at(start, stop, i))?;
    }
    Ok(Some(numbers))
}
