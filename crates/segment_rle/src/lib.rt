//! Maximal runs of equal codes: each run keeps its code and the place after its last cell.
//!
//! Its one contract: the runs of a list of codes, laid side by side, are that list, and the code that `run_at` reads at
//! a place is the code that stands there. It stands on `cs_base`.
#![tactic(auto)]

ghost use Rattle.std.specs.Prelude.{◌≡◌, ◌≤◌, ◌<◌, ◌*◌, List, ℕ, length, slice_index, IfOk};
ghost use Rattle.std.specs.List.Sorted.{IsNonDecreasing};
ghost use Rattle.segment_rle.specs.Runs.{AreRuns, AreRunsOf, IsRun, IsRunAt, covered};

use cs_base::{Items, Memory};
use std::alloc::Global;

/// Maximal runs of equal codes, as a segment keeps them.
#[derive(Debug, Drop)]
pub struct Runs {
    /// The code of each run.
    pub codes: Items<u64>,
    /// The place after the last cell of each run, counted from 0.
    pub ends: Items<u64>,
    ghost in_order: { AreRuns codes ends },
}

/// The maximal runs of the codes. `Memory` comes where there is no room for them.
pub fn runs_of(alloc: Global, codes: &[u64]) -> Result<Runs, Memory>
    ensures { IfOk result (λ runs. AreRunsOf codes.now runs.codes runs.ends) }
{
    let mut run_codes = Vec::new(alloc);
    let mut ends = Vec::new(alloc);
    for (i, code) in codes.iter().enumerate() {
        if i + 1 == codes.len() || codes[i + 1] != *code {
            run_codes.push(*code)?;
            ends.push(i as u64 + 1)?;
        }
    }
    Ok(Runs {
        codes: Items::from_vec(run_codes),
        ends: Items::from_vec(ends),
    })
}

impl Runs {
    /// The code at a place, and the place after the last cell of its run.
    pub fn run_at(&self, i: usize) -> (u64, usize)
        requires { i < covered self.now.ends }
        ensures run { IsRun self.now.codes self.now.ends i result.0 result.1 }
        ensures codes { (all : List ℕ) → AreRunsOf all self.now.codes self.now.ends → IsRunAt all i result.0 result.1 }
    {
        let run = ended_before(self.ends.as_slice(), i as u64);
        (*self.codes.at(run), *self.ends.at(run) as usize)
    }

    /// What the runs cost in words of 64 bits: one for each code, and one for each end.
    pub fn words(&self) -> u64
        ensures { result ≡ 2 * length self.now.ends }
    {
        2 * self.ends.as_slice().len() as u64
    }
}

/// How many runs end at or before a place.
fn ended_before(ends: &[u64], place: u64) -> usize
    requires { IsNonDecreasing ends.now }
    ensures bound { result ≤ length ends.now }
    ensures ended { (r : ℕ) → r < result → slice_index ends.now r ≤ place }
    ensures not_ended { (r : ℕ) → result ≤ r → r < length ends.now → place < slice_index ends.now r }
{
    ends.partition_point(|end| *end <= place)
}
