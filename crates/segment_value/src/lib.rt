//! Value encoding: a column's numbers as small codes, each its distance from a base in units of a power of ten.
//!
//! Its one contract: `restore` of `shrink` is the cell, for each of the cells that were scaled. It stands on std alone.
//! Larson et al., SIGMOD 2011, describe value encoding.
#![tactic(auto)]

ghost use Rattle.std.specs.Prelude.{◌≡◌, ◌≤◌, ◌<◌, ◌^◌, ◌↔◌, ℕ, ℤ, List, [], ◌∷◌, ◌++◌, Contains, IsTrue, None, Some, pos, int_div, unsigned_abs, ◌%◌, ◌+ℤ◌, ◌-ℤ◌, ◌+◌, FitsSigned, All, map, slice_index, slice_index_or, unwrap_or, IfOk};
ghost use Rattle.std.specs.Int.{w64};
ghost use Rattle.segment_value.specs.Scales.{numbers_in, Divides, AreBounds, IsRange, IsExponent, IsCommonExponent, IsScaling, Takes, IsCode, null_codes, code_of, cell_of};

use std::alloc::{AllocError, Global};

macro_rules! choose {
    ($exponent:expr, $call:ident $given:tt, $($n:literal)*) => {
        match $exponent {
            $($n => $call::<$n> $given,)*
            _ => unreachable!(),
        }
    };
}

/// A call at an exponent from 0 to 18 that is known only when it runs.
macro_rules! by_exponent {
    ($exponent:expr, $call:ident $given:tt) => {
        choose!($exponent, $call $given, 0 1 2 3 4 5 6 7 8 9 10 11 12 13 14 15 16 17 18)
    };
}

/// How a column's numbers are kept as codes.
#[derive(Debug, Clone, Copy, PartialEq, Eq)]
pub struct Scale {
    /// The exponent of the power of ten that divides every number, 0 to 18.
    pub exponent: u32,
    /// The least number divided by that power, 0 where there is no number.
    pub base: i64,
    /// Whether a cell is NULL, which then has code 0.
    pub nulls: bool,
}

/// The scale of the cells. None where the greatest code would pass 2^64 - 1.
pub fn scale_of(cells: &[Option<i64>]) -> Option<Scale>
    ensures { IsScaling cells.now result }
{
    let (least, greatest) = bounds_of(cells);
    let exponent = exponent_of(cells, least, greatest);
    let scale = Scale {
        exponent,
        base: units_of(least, exponent),
        nulls: has_null(cells),
    };
    if has_word(scale, greatest) {
        Some(scale)
    } else {
        None
    }
}

/// The code of a cell. The cell is one that the scale takes, as each of those scaled is.
pub fn shrink(scale: Scale, cell: Option<i64>) -> u64
    requires { Takes scale cell }
    ensures code { result ≡ code_of scale cell }
    ensures restores { cell_of scale result ≡ cell }
{
    match cell {
        None => 0,
        Some(number) => code_above(scale, units_of(number, scale.exponent)),
    }
}

/// The codes of cells that the scale takes, one after another: those of `shrink`. `AllocError` comes where there is no
/// room for them.
pub fn shrink_all(
    alloc: Global,
    scale: Scale,
    cells: &[Option<i64>],
) -> Result<Vec<u64>, AllocError>
    requires exponent { scale.exponent ≤ 18 }
    requires cells { All (Takes scale) cells.now }
    ensures { IfOk result (λ codes. codes.items ≡ map (code_of scale) cells.now) }
{
    by_exponent!(scale.exponent, shrink_all_at(alloc, scale, cells))
}

/// As `shrink_all`, at an exponent that is known when it is compiled: a loop that divides by a constant is much quicker than
/// one that divides by a variable.
fn shrink_all_at<const E: u32>(
    alloc: Global,
    scale: Scale,
    cells: &[Option<i64>],
) -> Result<Vec<u64>, AllocError>
    requires exponent { (scale.exponent ≡ E) × (E ≤ 18) }
    requires cells { All (Takes scale) cells.now }
    ensures { IfOk result (λ codes. codes.items ≡ map (code_of scale) cells.now) }
{
    let mut codes = Vec::with_capacity(alloc, cells.len())?;
    for cell in cells {
        codes.push(shrink_at::<E>(scale, *cell))?;
    }
    Ok(codes)
}

/// As `shrink`, at an exponent that is known when it is compiled.
#[inline(always)]
fn shrink_at<const E: u32>(scale: Scale, cell: Option<i64>) -> u64
    requires exponent { (scale.exponent ≡ E) × (E ≤ 18) }
    requires takes { Takes scale cell }
    ensures { result ≡ code_of scale cell }
{
    match cell {
        None => 0,
        Some(number) => code_above(scale, quotient::<E>(number)),
    }
}

/// The code of a number that is so many units.
#[inline(always)]
fn code_above(scale: Scale, units: i64) -> u64
    requires { unsigned_abs (units -ℤ scale.base) + null_codes scale.nulls < 2 ^ 64 }
    ensures { result ≡ unsigned_abs (units -ℤ scale.base) + null_codes scale.nulls }
{
    units.abs_diff(scale.base) + u64::from(scale.nulls)
}

/// The cell of a code. The code is that of a cell which the scale takes.
pub fn restore(scale: Scale, code: u64) -> Option<i64>
    requires { IsCode scale code }
    ensures { result ≡ cell_of scale code }
{
    let null_codes = u64::from(scale.nulls);
    if code < null_codes {
        return None;
    }
    let units = raised(scale.base, code - null_codes);
    Some(units * power_of_ten(scale.exponent) as i64)
}

/// The numbers of the first `count` codes: those of `restore`, and 0 for the code of NULL. The other places stay as they
/// are.
pub fn restore_all(scale: Scale, codes: &[u64; 1024], count: usize, numbers: &mut [i64; 1024])
    requires exponent { scale.exponent ≤ 18 }
    requires room { count ≤ 1024 }
    requires codes { (i : ℕ) → i < count → IsCode scale (slice_index codes.now i) }
    ensures numbers { (i : ℕ) → i < count → slice_index_or numbers.new i (pos 0) ≡ unwrap_or (cell_of scale (slice_index codes.now i)) (pos 0) }
    ensures others { (i : ℕ) → count ≤ i → slice_index_or numbers.new i (pos 0) ≡ slice_index_or numbers.old i (pos 0) }
{
    by_exponent!(scale.exponent, restore_all_at(scale, codes, count, numbers))
}

/// As `restore_all`, at an exponent that is known when it is compiled.
fn restore_all_at<const E: u32>(
    scale: Scale,
    codes: &[u64; 1024],
    count: usize,
    numbers: &mut [i64; 1024],
)
    requires exponent { (scale.exponent ≡ E) × (E ≤ 18) }
    requires room { count ≤ 1024 }
    requires codes { (i : ℕ) → i < count → IsCode scale (slice_index codes.now i) }
    ensures numbers { (i : ℕ) → i < count → slice_index_or numbers.new i (pos 0) ≡ unwrap_or (cell_of scale (slice_index codes.now i)) (pos 0) }
    ensures others { (i : ℕ) → count ≤ i → slice_index_or numbers.new i (pos 0) ≡ slice_index_or numbers.old i (pos 0) }
{
    for i in 0..count {
        numbers[i] = number_at::<E>(scale, codes[i]);
    }
}

/// The number of a code, and 0 for that of NULL, at an exponent that is known when it is compiled.
#[inline(always)]
fn number_at<const E: u32>(scale: Scale, code: u64) -> i64
    requires exponent { (scale.exponent ≡ E) × (E ≤ 18) }
    requires code { IsCode scale code }
    ensures { result ≡ unwrap_or (cell_of scale code) (pos 0) }
{
    let null_codes = u64::from(scale.nulls);
    if code < null_codes {
        return 0;
    }
    raised(scale.base, code - null_codes) * power_of_ten(E) as i64
}

/// Whether the code of the number is a word.
fn has_word(scale: Scale, number: i64) -> bool
    requires { scale.exponent ≤ 18 }
    ensures { IsTrue result ↔ (code_of scale (Some number) < 2 ^ 64) }
{
    let distance = units_of(number, scale.exponent).abs_diff(scale.base);
    distance.checked_add(u64::from(scale.nulls)).is_some()
}

/// The exponent of the numbers between these bounds.
fn exponent_of(cells: &[Option<i64>], least: i64, greatest: i64) -> u32
    requires { AreBounds (numbers_in cells.now) least greatest }
    ensures exponent { IsExponent (numbers_in cells.now) result }
    ensures small { result ≤ 18 }
{
    if least == 0 && greatest == 0 {
        0
    } else {
        common_exponent(cells)
    }
}

/// The greatest exponent from 0 to 18 whose power of ten divides every number.
fn common_exponent(cells: &[Option<i64>]) -> u32
    ensures { IsCommonExponent (numbers_in cells.now) result }
{
    let mut exponent = 18;
    for cell in cells {
        if exponent == 0 {
            return 0;
        }
        if let Some(number) = *cell {
            exponent = exponent_up_to(exponent, number);
        }
    }
    exponent
}

/// The greatest exponent up to a given one whose power of ten divides the number.
fn exponent_up_to(most: u32, number: i64) -> u32
    requires { most ≤ 18 }
    ensures bound { result ≤ most }
    ensures divides { Divides result number }
    ensures greatest { (e : ℕ) → e ≤ most → Divides e number → e ≤ result }
{
    let mut exponent = most;
    while exponent > 0 && !is_multiple(number, exponent) {
        exponent -= 1;
    }
    exponent
}

/// Whether the power of ten divides the number.
fn is_multiple(number: i64, exponent: u32) -> bool
    requires { exponent ≤ 18 }
    ensures { IsTrue result ↔ Divides exponent number }
{
    remainder_of(number, exponent) == 0
}

/// What the power of ten leaves of the number's size.
fn remainder_of(number: i64, exponent: u32) -> u64
    requires { exponent ≤ 18 }
    ensures { result ≡ unsigned_abs number % 10 ^ exponent }
{
    by_exponent!(exponent, remainder(number))
}

/// As `remainder_of`, at an exponent that is known when it is compiled.
#[inline(always)]
fn remainder<const E: u32>(number: i64) -> u64
    requires { E ≤ 18 }
    ensures { result ≡ unsigned_abs number % 10 ^ E }
{
    number.unsigned_abs() % power_of_ten(E)
}

/// The number that lies so far above the base. The way there may pass the range of the base.
fn raised(base: i64, by: u64) -> i64
    requires { FitsSigned w64 (base +ℤ pos by) }
    ensures { result ≡ base +ℤ pos by }
{
    (base as i128 + by as i128) as i64
}

/// The number in units of the power of ten.
fn units_of(number: i64, exponent: u32) -> i64
    requires { exponent ≤ 18 }
    ensures { result ≡ int_div number (pos (10 ^ exponent)) }
{
    by_exponent!(exponent, quotient(number))
}

/// As `units_of`, at an exponent that is known when it is compiled.
#[inline(always)]
fn quotient<const E: u32>(number: i64) -> i64
    requires { E ≤ 18 }
    ensures { result ≡ int_div number (pos (10 ^ E)) }
{
    number / power_of_ten(E) as i64
}

/// 10 to the power of the exponent.
fn power_of_ten(exponent: u32) -> u64
    requires { exponent ≤ 18 }
    ensures value { result ≡ 10 ^ exponent }
    ensures bounds { (0 < result) × (result ≤ 1_000_000_000_000_000_000) }
{
    10u64.pow(exponent)
}

/// The least and the greatest number, 0 and 0 where there is none.
fn bounds_of(cells: &[Option<i64>]) -> (i64, i64)
    ensures { AreBounds (numbers_in cells.now) result.0 result.1 }
{
    range_of(cells).unwrap_or((0, 0))
}

/// The least and the greatest number, None where there is none.
fn range_of(cells: &[Option<i64>]) -> Option<(i64, i64)>
    ensures { IsRange (numbers_in cells.now) result }
{
    let mut range = None;
    for cell in cells {
        if let Some(number) = *cell {
            range = Some(widened(range, number));
        }
    }
    range
}

/// The least and the greatest number, with one more.
fn widened(range: Option<(i64, i64)>, number: i64) -> (i64, i64)
    ensures { (numbers : List ℤ) → IsRange numbers range → IsRange (numbers ++ number ∷ []) (Some result) }
{
    match range {
        None => (number, number),
        Some((least, greatest)) => (number.min(least), number.max(greatest)),
    }
}

/// Whether a cell is NULL.
fn has_null(cells: &[Option<i64>]) -> bool
    ensures { IsTrue result ↔ Contains cells.now None }
{
    cells.iter().any(|cell| cell.is_none())
}
