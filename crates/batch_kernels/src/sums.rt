// What is kept of the chosen places of a batch, all together.
ghost use Rattle.std.specs.Prelude.{◌≡◌, ℕ, ◌+◌, ◌≤◌, length};
ghost use Rattle.batch_kernels.specs.Places.{places, sum_with, least_with, greatest_with, IsSumOf};

use crate::steps::{greater, lesser, with_number};

/// Adds the numbers at the chosen of the first `count` places to a sum.
pub fn sum_chosen(numbers: &[i64], mask: &[bool], count: usize, sum: i128) -> i128
    requires room { count ≤ 1024 }
    requires numbers { count ≤ length numbers.now }
    requires mask { count ≤ length mask.now }
    requires small { IsSumOf 4611686018427388928 sum }
    ensures sum { result ≡ sum_with sum numbers.now (places mask.now count) }
    ensures bound { (n : ℕ) → IsSumOf n sum → IsSumOf (n + length (places mask.now count)) result }
{
    let mut all = sum;
    for i in 0..count {
        let inside = mask[i] as u64;
        all = with_number(all, numbers[i], inside);
    }
    all
}

/// The least of a number and the codes at the chosen of the first `count` places.
pub fn least_chosen(codes: &[u64], mask: &[bool], count: usize, least: u64) -> u64
    requires codes { count ≤ length codes.now }
    requires mask { count ≤ length mask.now }
    ensures { result ≡ least_with least codes.now (places mask.now count) }
{
    let mut all = least;
    for i in 0..count {
        let inside = mask[i] as u64;
        all = lesser(all, codes[i], inside);
    }
    all
}

/// The greatest of a number and the codes at the chosen of the first `count` places.
pub fn greatest_chosen(codes: &[u64], mask: &[bool], count: usize, greatest: u64) -> u64
    requires codes { count ≤ length codes.now }
    requires mask { count ≤ length mask.now }
    ensures { result ≡ greatest_with greatest codes.now (places mask.now count) }
{
    let mut all = greatest;
    for i in 0..count {
        let inside = mask[i] as u64;
        all = greater(all, codes[i], inside);
    }
    all
}
