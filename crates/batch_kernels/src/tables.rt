// What is kept of the chosen places of a batch, for each key: an entry a key. Where all places of a batch or of a block have one key,
// what the kernels without a key keep comes into its entry, so that no addition waits for the one before by way of memory.
ghost use Rattle.std.specs.Prelude.{◌≡◌, ℕ, ◌+◌, ◌<◌, ◌≤◌, ◌^◌, pos, length, slice_index, slice_index_or, true};
ghost use Rattle.std.specs.Bool.{OnTrue};
ghost use Rattle.batch_kernels.specs.Places.{key_in, places_with, sum_with, least_with, greatest_with, IsSumOf};

use crate::keys::Keys;
use crate::masks::chosen;
use crate::sums::{greatest_chosen, least_chosen, sum_chosen};
use crate::turns::{count_in_turn, greatest_in_turn, least_in_turn, sum_in_turn};

/// How many places a block has at most.
const BLOCK: usize = 64;

/// Whether all keys are the first one. Each is looked at, so that many are compared at once.
fn are_one(keys: &[u64]) -> bool
    requires { 0 < length keys.now }
    ensures { OnTrue result ((i : ℕ) → i < length keys.now → slice_index keys.now i ≡ slice_index keys.now 0) }
{
    let first = keys[0];
    let mut others = false;
    for key in keys {
        others |= *key != first;
    }
    !others
}

/// Counts the chosen of the first `count` places, each in the entry of its key.
pub fn count_by_key(keys: &Keys, mask: &[bool; 1024], count: usize, counts: &mut [u64])
    requires room { (0 < count) × (count ≤ 1024) }
    requires keys { (i : ℕ) → i < count → key_in keys.now i < length counts.old }
    requires small { (k : ℕ) → k < length counts.old → slice_index counts.old k + count < 2 ^ 64 }
    ensures { (k : ℕ) → k < length counts.old → slice_index counts.new k ≡ slice_index counts.old k + length (places_with mask.now (key_in keys.now) k count) }
{
    match keys.lone {
        Some(key) => counts[key as usize] += chosen(mask, count),
        None => count_by_each(&keys.each, mask, count, counts),
    }
}

/// The same, by a key for each place, block by block.
fn count_by_each(keys: &[u64; 1024], mask: &[bool; 1024], count: usize, counts: &mut [u64])
    requires room { count ≤ 1024 }
    requires keys { (i : ℕ) → i < count → slice_index keys.now i < length counts.old }
    requires small { (k : ℕ) → k < length counts.old → slice_index counts.old k + count < 2 ^ 64 }
    ensures { (k : ℕ) → k < length counts.old → slice_index counts.new k ≡ slice_index counts.old k + length (places_with mask.now (slice_index keys.now) k count) }
{
    let mut from = 0;
    while from < count {
        let to = (from + BLOCK).min(count);
        count_block(&keys[from..to], &mask[from..to], counts);
        from = to;
    }
}

/// The same, of a block.
fn count_block(keys: &[u64], mask: &[bool], counts: &mut [u64])
    requires some { 0 < length keys.now }
    requires room { length keys.now ≤ 1024 }
    requires mask { length mask.now ≡ length keys.now }
    requires keys { (i : ℕ) → i < length keys.now → slice_index keys.now i < length counts.old }
    requires small { (k : ℕ) → k < length counts.old → slice_index counts.old k + length keys.now < 2 ^ 64 }
    ensures { (k : ℕ) → k < length counts.old → slice_index counts.new k ≡ slice_index counts.old k + length (places_with mask.now (slice_index keys.now) k (length keys.now)) }
{
    let count = keys.len();
    if are_one(keys) {
        let at = keys[0] as usize;
        counts[at] += chosen(mask, count);
    } else {
        count_in_turn(keys, mask, count, counts);
    }
}

/// Adds the numbers at the chosen of the first `count` places, each to the sum of its key.
pub fn sum_by_key(
    keys: &Keys,
    numbers: &[i64; 1024],
    mask: &[bool; 1024],
    count: usize,
    sums: &mut [i128],
)
    requires room { (0 < count) × (count ≤ 1024) }
    requires keys { (i : ℕ) → i < count → key_in keys.now i < length sums.old }
    requires small { (k : ℕ) → k < length sums.old → IsSumOf 4611686018427387904 (slice_index_or sums.old k (pos 0)) }
    ensures sums { (k : ℕ) → k < length sums.old → slice_index_or sums.new k (pos 0) ≡ sum_with (slice_index_or sums.old k (pos 0)) numbers.now (places_with mask.now (key_in keys.now) k count) }
    ensures bound { (k n : ℕ) → k < length sums.old → IsSumOf n (slice_index_or sums.old k (pos 0)) → IsSumOf (n + length (places_with mask.now (key_in keys.now) k count)) (slice_index_or sums.new k (pos 0)) }
{
    match keys.lone {
        Some(key) => {
            let at = key as usize;
            sums[at] = sum_chosen(numbers, mask, count, sums[at]);
        }
        None => sum_by_each(&keys.each, numbers, mask, count, sums),
    }
}

/// The same, by a key for each place, block by block.
fn sum_by_each(
    keys: &[u64; 1024],
    numbers: &[i64; 1024],
    mask: &[bool; 1024],
    count: usize,
    sums: &mut [i128],
)
    requires room { count ≤ 1024 }
    requires keys { (i : ℕ) → i < count → slice_index keys.now i < length sums.old }
    requires small { (k : ℕ) → k < length sums.old → IsSumOf 4611686018427387904 (slice_index_or sums.old k (pos 0)) }
    ensures sums { (k : ℕ) → k < length sums.old → slice_index_or sums.new k (pos 0) ≡ sum_with (slice_index_or sums.old k (pos 0)) numbers.now (places_with mask.now (slice_index keys.now) k count) }
    ensures bound { (k n : ℕ) → k < length sums.old → IsSumOf n (slice_index_or sums.old k (pos 0)) → IsSumOf (n + length (places_with mask.now (slice_index keys.now) k count)) (slice_index_or sums.new k (pos 0)) }
{
    let mut from = 0;
    while from < count {
        let to = (from + BLOCK).min(count);
        sum_block(&keys[from..to], &numbers[from..to], &mask[from..to], sums);
        from = to;
    }
}

/// The same, of a block.
fn sum_block(keys: &[u64], numbers: &[i64], mask: &[bool], sums: &mut [i128])
    requires some { 0 < length keys.now }
    requires room { length keys.now ≤ 1024 }
    requires numbers { length numbers.now ≡ length keys.now }
    requires mask { length mask.now ≡ length keys.now }
    requires keys { (i : ℕ) → i < length keys.now → slice_index keys.now i < length sums.old }
    requires small { (k : ℕ) → k < length sums.old → IsSumOf 4611686018427388928 (slice_index_or sums.old k (pos 0)) }
    ensures sums { (k : ℕ) → k < length sums.old → slice_index_or sums.new k (pos 0) ≡ sum_with (slice_index_or sums.old k (pos 0)) numbers.now (places_with mask.now (slice_index keys.now) k (length keys.now)) }
    ensures bound { (k n : ℕ) → k < length sums.old → IsSumOf n (slice_index_or sums.old k (pos 0)) → IsSumOf (n + length (places_with mask.now (slice_index keys.now) k (length keys.now))) (slice_index_or sums.new k (pos 0)) }
{
    let count = keys.len();
    if are_one(keys) {
        let at = keys[0] as usize;
        sums[at] = sum_chosen(numbers, mask, count, sums[at]);
    } else {
        sum_in_turn(keys, numbers, mask, count, sums);
    }
}

/// Keeps for each key the least of its entry and its codes at the chosen of the first `count` places.
pub fn least_by_key(
    keys: &Keys,
    codes: &[u64; 1024],
    mask: &[bool; 1024],
    count: usize,
    least: &mut [u64],
)
    requires room { (0 < count) × (count ≤ 1024) }
    requires keys { (i : ℕ) → i < count → key_in keys.now i < length least.old }
    ensures { (k : ℕ) → k < length least.old → slice_index least.new k ≡ least_with (slice_index least.old k) codes.now (places_with mask.now (key_in keys.now) k count) }
{
    match keys.lone {
        Some(key) => {
            let at = key as usize;
            least[at] = least_chosen(codes, mask, count, least[at]);
        }
        None => least_by_each(&keys.each, codes, mask, count, least),
    }
}

/// The same, by a key for each place, block by block.
fn least_by_each(
    keys: &[u64; 1024],
    codes: &[u64; 1024],
    mask: &[bool; 1024],
    count: usize,
    least: &mut [u64],
)
    requires room { count ≤ 1024 }
    requires keys { (i : ℕ) → i < count → slice_index keys.now i < length least.old }
    ensures { (k : ℕ) → k < length least.old → slice_index least.new k ≡ least_with (slice_index least.old k) codes.now (places_with mask.now (slice_index keys.now) k count) }
{
    let mut from = 0;
    while from < count {
        let to = (from + BLOCK).min(count);
        least_block(&keys[from..to], &codes[from..to], &mask[from..to], least);
        from = to;
    }
}

/// The same, of a block.
fn least_block(keys: &[u64], codes: &[u64], mask: &[bool], least: &mut [u64])
    requires some { 0 < length keys.now }
    requires room { length keys.now ≤ 1024 }
    requires codes { length codes.now ≡ length keys.now }
    requires mask { length mask.now ≡ length keys.now }
    requires keys { (i : ℕ) → i < length keys.now → slice_index keys.now i < length least.old }
    ensures { (k : ℕ) → k < length least.old → slice_index least.new k ≡ least_with (slice_index least.old k) codes.now (places_with mask.now (slice_index keys.now) k (length keys.now)) }
{
    let count = keys.len();
    if are_one(keys) {
        let at = keys[0] as usize;
        least[at] = least_chosen(codes, mask, count, least[at]);
    } else {
        least_in_turn(keys, codes, mask, count, least);
    }
}

/// Keeps for each key the greatest of its entry and its codes at the chosen of the first `count` places.
pub fn greatest_by_key(
    keys: &Keys,
    codes: &[u64; 1024],
    mask: &[bool; 1024],
    count: usize,
    greatest: &mut [u64],
)
    requires room { (0 < count) × (count ≤ 1024) }
    requires keys { (i : ℕ) → i < count → key_in keys.now i < length greatest.old }
    ensures { (k : ℕ) → k < length greatest.old → slice_index greatest.new k ≡ greatest_with (slice_index greatest.old k) codes.now (places_with mask.now (key_in keys.now) k count) }
{
    match keys.lone {
        Some(key) => {
            let at = key as usize;
            greatest[at] = greatest_chosen(codes, mask, count, greatest[at]);
        }
        None => greatest_by_each(&keys.each, codes, mask, count, greatest),
    }
}

/// The same, by a key for each place, block by block.
fn greatest_by_each(
    keys: &[u64; 1024],
    codes: &[u64; 1024],
    mask: &[bool; 1024],
    count: usize,
    greatest: &mut [u64],
)
    requires room { count ≤ 1024 }
    requires keys { (i : ℕ) → i < count → slice_index keys.now i < length greatest.old }
    ensures { (k : ℕ) → k < length greatest.old → slice_index greatest.new k ≡ greatest_with (slice_index greatest.old k) codes.now (places_with mask.now (slice_index keys.now) k count) }
{
    let mut from = 0;
    while from < count {
        let to = (from + BLOCK).min(count);
        greatest_block(&keys[from..to], &codes[from..to], &mask[from..to], greatest);
        from = to;
    }
}

/// The same, of a block.
fn greatest_block(keys: &[u64], codes: &[u64], mask: &[bool], greatest: &mut [u64])
    requires some { 0 < length keys.now }
    requires room { length keys.now ≤ 1024 }
    requires codes { length codes.now ≡ length keys.now }
    requires mask { length mask.now ≡ length keys.now }
    requires keys { (i : ℕ) → i < length keys.now → slice_index keys.now i < length greatest.old }
    ensures { (k : ℕ) → k < length greatest.old → slice_index greatest.new k ≡ greatest_with (slice_index greatest.old k) codes.now (places_with mask.now (slice_index keys.now) k (length keys.now)) }
{
    let count = keys.len();
    if are_one(keys) {
        let at = keys[0] as usize;
        greatest[at] = greatest_chosen(codes, mask, count, greatest[at]);
    } else {
        greatest_in_turn(keys, codes, mask, count, greatest);
    }
}
