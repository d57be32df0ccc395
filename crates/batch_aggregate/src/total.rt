//! Counts with whole sums.

ghost use Rattle.std.specs.Prelude.{◌≡◌, ◌+◌, ◌*◌, ◌^◌, ◌<◌, ◌+ℤ◌, ◌≤ℤ◌, neg_ℤ, pos, OnOk};

use cs_base::Memory;
use std::marker::Model;

/// How many numbers were added, and their whole sum. Each number has 64 bits and there are at most 2^64 - 1 of them, so that
/// 128 bits keep the sum.
#[derive(Drop)]
pub struct Total {
    count: u64,
    sum: i128,
}

impl Model for Total {
    ghost use Rattle.std.specs.Prelude.{ℕ, ℤ, ◌*◌, ◌^◌, ◌≤ℤ◌, neg_ℤ, pos};

    ghost Value = { ℕ × ℤ };

    ghost view = { λ total. (total.count, total.sum) };

    ghost invariant = { λ total. (neg_ℤ (pos (total.count * 9223372036854775808)) ≤ℤ total.sum) × (total.sum ≤ℤ pos (total.count * 9223372036854775808)) };
}

/// The sum of a sum of so many numbers and a further one.
fn grown(count: u64, sum: i128, number: i64) -> i128
    requires more { count + 1 < 2 ^ 64 }
    requires low { neg_ℤ (pos (count * 9223372036854775808)) ≤ℤ sum }
    requires high { sum ≤ℤ pos (count * 9223372036854775808) }
    ensures value { result ≡ sum +ℤ number }
    ensures low { neg_ℤ (pos ((count + 1) * 9223372036854775808)) ≤ℤ result }
    ensures high { result ≤ℤ pos ((count + 1) * 9223372036854775808) }
{
    sum + number as i128
}

/// The sum of two sums of so many numbers each.
fn sum_of_both(count: u64, sum: i128, others: u64, other: i128) -> i128
    requires more { count + others < 2 ^ 64 }
    requires low { neg_ℤ (pos (count * 9223372036854775808)) ≤ℤ sum }
    requires high { sum ≤ℤ pos (count * 9223372036854775808) }
    requires other_low { neg_ℤ (pos (others * 9223372036854775808)) ≤ℤ other }
    requires other_high { other ≤ℤ pos (others * 9223372036854775808) }
    ensures value { result ≡ sum +ℤ other }
    ensures low { neg_ℤ (pos ((count + others) * 9223372036854775808)) ≤ℤ result }
    ensures high { result ≤ℤ pos ((count + others) * 9223372036854775808) }
{
    sum + other
}

impl Total {
    /// The total of no number.
    pub fn new() -> Total
        ensures { result ≡ (0, pos 0) }
    {
        Total { count: 0, sum: 0 }
    }

    /// The total of so many numbers with this sum.
    pub fn of(count: u64, sum: i128) -> Total
        requires low { neg_ℤ (pos (count * 9223372036854775808)) ≤ℤ sum }
        requires high { sum ≤ℤ pos (count * 9223372036854775808) }
        ensures { result ≡ (count, sum) }
    {
        Total { count, sum }
    }

    /// A total equal to this one.
    pub fn copy(&self) -> Total
        ensures { result ≡ self.now }
    {
        Total {
            count: self.count,
            sum: self.sum,
        }
    }

    /// How many numbers were added.
    pub fn count(&self) -> u64
        ensures { result ≡ self.now.0 }
    {
        self.count
    }

    /// The sum of the numbers.
    pub fn sum(&self) -> i128
        ensures { result ≡ self.now.1 }
    {
        self.sum
    }

    /// Adds a number. Where the count would pass its type there is no memory.
    pub fn add(&mut self, number: i64) -> Result<(), Memory>
        ensures { OnOk result (self.new ≡ (self.old.0 + 1, self.old.1 +ℤ number)) }
    {
        let count = self.count.checked_add(1).ok_or(Memory)?;
        self.sum = grown(self.count, self.sum, number);
        self.count = count;
        Ok(())
    }

    /// Adds the numbers of another total. Where the count would pass its type there is no memory.
    pub fn join(&mut self, other: &Total) -> Result<(), Memory>
        ensures { OnOk result (self.new ≡ (self.old.0 + other.now.0, self.old.1 +ℤ other.now.1)) }
    {
        let count = self.count.checked_add(other.count).ok_or(Memory)?;
        self.sum = sum_of_both(self.count, self.sum, other.count, other.sum);
        self.count = count;
        Ok(())
    }
}
