// What is kept of the chosen places of a batch, for each key, place by place.
ghost use Rattle.std.specs.Prelude.{◌≡◌, ℕ, ◌+◌, ◌<◌, ◌≤◌, ◌^◌, pos, length, slice_index, slice_index_or};
ghost use Rattle.batch_kernels.specs.Places.{places_with, sum_with, least_with, greatest_with, IsSumOf};

use crate::steps::{greater, lesser, with_number};

/// Counts the chosen of the first `count` places, each in the entry of its key.
pub fn count_in_turn(keys: &[u64], mask: &[bool], count: usize, counts: &mut [u64])
    requires room { (count ≤ 1024) × (count ≤ length keys.now) × (count ≤ length mask.now) }
    requires keys { (i : ℕ) → i < count → slice_index keys.now i < length counts.old }
    requires small { (k : ℕ) → k < length counts.old → slice_index counts.old k + count < 2 ^ 64 }
    ensures { (k : ℕ) → k < length counts.old → slice_index counts.new k ≡ slice_index counts.old k + length (places_with mask.now (slice_index keys.now) k count) }
{
    for i in 0..count {
        let key = keys[i] as usize;
        counts[key] += mask[i] as u64;
    }
}

/// Adds the numbers at the chosen of the first `count` places, each to the sum of its key.
pub fn sum_in_turn(keys: &[u64], numbers: &[i64], mask: &[bool], count: usize, sums: &mut [i128])
    requires room { (count ≤ 1024) × (count ≤ length keys.now) × (count ≤ length mask.now) }
    requires numbers { count ≤ length numbers.now }
    requires keys { (i : ℕ) → i < count → slice_index keys.now i < length sums.old }
    requires small { (k : ℕ) → k < length sums.old → IsSumOf 4611686018427388928 (slice_index_or sums.old k (pos 0)) }
    ensures sums { (k : ℕ) → k < length sums.old → slice_index_or sums.new k (pos 0) ≡ sum_with (slice_index_or sums.old k (pos 0)) numbers.now (places_with mask.now (slice_index keys.now) k count) }
    ensures bound { (k n : ℕ) → k < length sums.old → IsSumOf n (slice_index_or sums.old k (pos 0)) → IsSumOf (n + length (places_with mask.now (slice_index keys.now) k count)) (slice_index_or sums.new k (pos 0)) }
{
    for i in 0..count {
        let key = keys[i] as usize;
        let inside = mask[i] as u64;
        sums[key] = with_number(sums[key], numbers[i], inside);
    }
}

/// Keeps for each key the least of its entry and its codes at the chosen of the first `count` places.
pub fn least_in_turn(keys: &[u64], codes: &[u64], mask: &[bool], count: usize, least: &mut [u64])
    requires room { (count ≤ 1024) × (count ≤ length keys.now) × (count ≤ length mask.now) }
    requires codes { count ≤ length codes.now }
    requires keys { (i : ℕ) → i < count → slice_index keys.now i < length least.old }
    ensures { (k : ℕ) → k < length least.old → slice_index least.new k ≡ least_with (slice_index least.old k) codes.now (places_with mask.now (slice_index keys.now) k count) }
{
    for i in 0..count {
        let key = keys[i] as usize;
        let inside = mask[i] as u64;
        least[key] = lesser(least[key], codes[i], inside);
    }
}

/// Keeps for each key the greatest of its entry and its codes at the chosen of the first `count` places.
pub fn greatest_in_turn(
    keys: &[u64],
    codes: &[u64],
    mask: &[bool],
    count: usize,
    greatest: &mut [u64],
)
    requires room { (count ≤ 1024) × (count ≤ length keys.now) × (count ≤ length mask.now) }
    requires codes { count ≤ length codes.now }
    requires keys { (i : ℕ) → i < count → slice_index keys.now i < length greatest.old }
    ensures { (k : ℕ) → k < length greatest.old → slice_index greatest.new k ≡ greatest_with (slice_index greatest.old k) codes.now (places_with mask.now (slice_index keys.now) k count) }
{
    for i in 0..count {
        let key = keys[i] as usize;
        let inside = mask[i] as u64;
        greatest[key] = greater(greatest[key], codes[i], inside);
    }
}
