ghost use Rattle.std.specs.Prelude.{◌≡◌, ◌≢◌, ◌+◌, ◌-◌, ◌*◌, ◌<◌, ◌≤◌, ◌^◌, ◌↔◌, ◌⊎◌, ℕ, pos, [], List, length, slice_index, slice_index_or, slice_get, IfOk, Some, IsTrue, OnOk, OnErr};
ghost use Rattle.segment_rle.specs.Runs.{AreRuns, covered};
ghost use Rattle.cs_types.specs.declared.Value.{Value as Cell};
ghost use Rattle.cs_types.specs.Rows.{number_in};
ghost use Rattle.column_segment.specs.Cells.{seen, is_below};
ghost use Rattle.column_segment.specs.Layouts.{code_in_runs};
ghost use Rattle.column_segment.specs.Bodies.{code_in, cell_of_code, cell_in, IsKnown, IsInRuns, words_in, encoding_of};
ghost use Rattle.column_segment.specs.Segments.{IsSegmentOf, HasCells};

use crate::body::SegmentBody;
use crate::cell::{CellRef, as_number, number_shown, shown};
use crate::dict::{codes_of, entry_shown, put_numbers, words_of};
use bit_pack::{lane_width, unpack_width};
use cs_base::{Items, Memory};
use cs_types::{Encoding, Value};
use segment_rle::Runs;
use segment_value::{restore, restore_all, shrink};

/// Up to 1,024 cells, one after another.
pub type Batch = Items<Value>;

/// The cells of a column, in the way of fewest words.
#[derive(Debug, Drop)]
pub struct Segment {
    /// The number of cells.
    pub length: usize,
    /// Their codes.
    pub body: SegmentBody,
    /// The least of the cells that are not NULL, NULL where there is none.
    pub least: Value,
    /// The greatest of them, NULL where there is none.
    pub greatest: Value,
    /// Whether a cell is NULL.
    pub nulls: bool,
    ghost of_cells: { ∥ ((cells : List Cell) × IsSegmentOf cells length body least greatest nulls) ∥₁ },
}

impl Segment {
    /// Code `i`. Cells compare as their codes do, and so equal cells have equal codes: the law `codes_in_order`.
    pub fn code(&self, i: usize) -> u64
        requires { i < self.now.length }
        ensures code { result ≡ code_in self.now.body i }
        ensures known { IsKnown self.now.body result }
    {
        match &self.body {
            SegmentBody::ValuePacked { width, codes, .. } => lane_width(
                *width,
                codes.as_slice(),
                i,
            ),
            SegmentBody::ValueRuns { runs, .. } => runs.run_at(i).0,
            SegmentBody::DictPacked { width, codes, .. } => lane_width(*width, codes.as_slice(), i),
            SegmentBody::DictRuns { runs, .. } => runs.run_at(i).0,
        }
    }

    /// Cell `i`.
    pub fn cell(&self, i: usize) -> CellRef<'_>
        requires { i < self.now.length }
        ensures { seen result ≡ cell_in self.now.body i }
    {
        self.cell_of(self.code(i))
    }

    /// The cell of a code that the segment knows, as each cell's is, and each up to `last_code`.
    pub fn cell_of(&self, code: u64) -> CellRef<'_>
        requires { IsKnown self.now.body code }
        ensures { seen result ≡ cell_of_code self.now.body code }
    {
        match &self.body {
            SegmentBody::ValuePacked { scale, .. } => number_shown(restore(*scale, code)),
            SegmentBody::ValueRuns { scale, .. } => number_shown(restore(*scale, code)),
            SegmentBody::DictPacked { dict, .. } => entry_shown(dict, code),
            SegmentBody::DictRuns { dict, .. } => entry_shown(dict, code),
        }
    }

    /// The code of cell `i`, and a place past it up to which all cells have this code. Where the codes stand in runs, it
    /// is the end of the run.
    pub fn stretch(&self, i: usize) -> (u64, usize)
        requires { i < self.now.length }
        ensures code { result.0 ≡ code_in self.now.body i }
        ensures end { (i < result.1) × (result.1 ≤ self.now.length) }
        ensures same { (k : ℕ) → i ≤ k → k < result.1 → code_in self.now.body k ≡ result.0 }
        ensures whole { IsInRuns self.now.body → result.1 < self.now.length → code_in self.now.body result.1 ≢ result.0 }
    {
        match &self.body {
            SegmentBody::ValuePacked { .. } => (self.code(i), i + 1),
            SegmentBody::ValueRuns { runs, .. } => runs.run_at(i),
            SegmentBody::DictPacked { .. } => (self.code(i), i + 1),
            SegmentBody::DictRuns { runs, .. } => runs.run_at(i),
        }
    }

    /// The greatest code of a cell. Each number up to it is a code that the segment knows.
    pub fn last_code(&self) -> u64
        requires { 0 < self.now.length }
        ensures known { (code : ℕ) → code ≤ result → IsKnown self.now.body code }
        ensures most { (i : ℕ) → i < self.now.length → code_in self.now.body i ≤ result }
        ensures reached { (i : ℕ) × (i < self.now.length) × (code_in self.now.body i ≡ result) }
    {
        match &self.body {
            SegmentBody::ValuePacked { scale, .. } => shrink(*scale, as_number(&self.greatest)),
            SegmentBody::ValueRuns { scale, .. } => shrink(*scale, as_number(&self.greatest)),
            SegmentBody::DictPacked { dict, .. } => codes_of(dict) - 1,
            SegmentBody::DictRuns { dict, .. } => codes_of(dict) - 1,
        }
    }

    /// Where a bound cuts the codes: a cell comes before the bound exactly where its code is below this number. Where
    /// `tied`, a cell that ties with the bound comes before it too. By binary search over the codes, without memory.
    pub fn cut(&self, bound: &Value, tied: bool) -> u128
        ensures { (i : ℕ) → i < self.now.length → (code_in self.now.body i < result) ↔ IsTrue (is_below tied bound.now (cell_in self.now.body i)) }
    {
        if self.length == 0 {
            return 0;
        }
        let last = self.last_code();
        let mut low = 0;
        let mut high = last as u128 + 1;
        while low < high {
            let middle = low + (high - low) / 2;
            if self.cell_of(middle as u64).is_below(bound, tied) {
                low = middle + 1;
            } else {
                high = middle;
            }
        }
        low
    }

    /// The least of the cells that are not NULL, NULL where there is none.
    pub fn least(&self) -> CellRef<'_>
        ensures { seen result ≡ self.now.least }
    {
        shown(&self.least)
    }

    /// The greatest of the cells that are not NULL, NULL where there is none.
    pub fn greatest(&self) -> CellRef<'_>
        ensures { seen result ≡ self.now.greatest }
    {
        shown(&self.greatest)
    }

    /// Whether a cell is NULL.
    pub fn has_null(&self) -> bool
        ensures { result ≡ self.now.nulls }
    {
        self.nulls
    }

    /// How the cells are kept.
    pub fn encoding(&self) -> Encoding
        ensures { result ≡ encoding_of self.now.body }
    {
        match &self.body {
            SegmentBody::ValuePacked { .. } => Encoding::ValuePacked,
            SegmentBody::ValueRuns { .. } => Encoding::ValueRuns,
            SegmentBody::DictPacked { .. } => Encoding::DictPacked,
            SegmentBody::DictRuns { .. } => Encoding::DictRuns,
        }
    }

    /// What the segment costs in words of 64 bits: two for a scale, or the entries of a dictionary; and the packed words,
    /// or two for each run.
    pub fn words(&self) -> u64
        ensures { result ≡ words_in self.now.body }
    {
        match &self.body {
            SegmentBody::ValuePacked { codes, .. } => 2 + codes.as_slice().len() as u64,
            SegmentBody::ValueRuns { runs, .. } => 2 + 2 * runs.ends.as_slice().len() as u64,
            SegmentBody::DictPacked { dict, codes, .. } => words_of(dict)
                + codes.as_slice().len() as u64,
            SegmentBody::DictRuns { dict, runs } => words_of(dict)
                + 2 * runs.ends.as_slice().len() as u64,
        }
    }

    /// Puts the cells from place `from` on into the batch, in place of what was there: 1,024 of them, or those that are
    /// left. After `Memory` the batch is as before.
    pub fn decode_batch(&self, from: usize, out: &mut Batch) -> Result<(), Memory>
        ensures cells { OnOk result (HasCells self.now.body self.now.length from out.new) }
        ensures err { OnErr result (out.new ≡ out.old) }
    {
        let mut cells = Vec::new(out.allocator());
        if from < self.length {
            let count = (self.length - from).min(1024);
            cells = self.decoded(from, count, cells)?;
        }
        *out = Items::from_vec(cells);
        Ok(())
    }

    /// The cells from place `from` on, at the end of an empty list.
    fn decoded(&self, from: usize, count: usize, cells: Vec<Value>) -> Result<Vec<Value>, Memory>
        requires room { count ≤ 1024 }
        requires there { from + count ≤ self.now.length }
        requires small { from + count < 2 ^ 64 }
        requires empty { cells.items ≡ [] }
        ensures length { IfOk result (λ all. length all.items ≡ count) }
        ensures cells { IfOk result (λ all. (i : ℕ) → i < count → slice_get all.items i ≡ Some (cell_in self.now.body (from + i))) }
    {
        let mut all = cells;
        let alloc = *all.allocator();
        let mut codes = [0; 1024];
        self.code_batch(from, count, &mut codes);
        for i in 0..count {
            all.push(self.cell_of(codes[i]).to_value(alloc)?)?;
        }
        Ok(all)
    }

    /// Reads the codes from place `from` on into the first `count` places of a batch; the other places stay as they are.
    pub fn code_batch(&self, from: usize, count: usize, out: &mut [u64; 1024])
        requires room { count ≤ 1024 }
        requires there { from + count ≤ self.now.length }
        requires small { from + count < 2 ^ 64 }
        ensures codes { (i : ℕ) → i < count → slice_index out.new i ≡ code_in self.now.body (from + i) }
        ensures known { (i : ℕ) → i < count → IsKnown self.now.body (slice_index out.new i) }
        ensures others { (i : ℕ) → count ≤ i → slice_index out.new i ≡ slice_index out.old i }
    {
        match &self.body {
            SegmentBody::ValuePacked { width, codes, .. } => {
                unpack_width(*width, codes.as_slice(), from, count, out);
            }
            SegmentBody::ValueRuns { runs, .. } => codes_of_runs(runs, from, count, out),
            SegmentBody::DictPacked { width, codes, .. } => {
                unpack_width(*width, codes.as_slice(), from, count, out);
            }
            SegmentBody::DictRuns { runs, .. } => codes_of_runs(runs, from, count, out),
        }
    }

    /// Reads the numbers that the cells from place `from` on are into the first `count` places of a batch, 0 for NULL and for
    /// a text; the other places stay as they are.
    pub fn number_batch(&self, from: usize, count: usize, out: &mut [i64; 1024])
        requires room { count ≤ 1024 }
        requires there { from + count ≤ self.now.length }
        requires small { from + count < 2 ^ 64 }
        ensures numbers { (i : ℕ) → i < count → slice_index_or out.new i (pos 0) ≡ number_in (cell_in self.now.body (from + i)) }
        ensures others { (i : ℕ) → count ≤ i → slice_index_or out.new i (pos 0) ≡ slice_index_or out.old i (pos 0) }
    {
        let mut codes = [0; 1024];
        self.code_batch(from, count, &mut codes);
        match &self.body {
            SegmentBody::ValuePacked { scale, .. } => restore_all(*scale, &codes, count, out),
            SegmentBody::ValueRuns { scale, .. } => restore_all(*scale, &codes, count, out),
            SegmentBody::DictPacked { dict, .. } => put_numbers(dict, &codes, count, out),
            SegmentBody::DictRuns { dict, .. } => put_numbers(dict, &codes, count, out),
        }
    }
}

/// Reads the codes of runs from place `from` on into the first `count` places of a batch, a run at a time; the other places
/// stay as they are.
fn codes_of_runs(runs: &Runs, from: usize, count: usize, out: &mut [u64; 1024])
    requires room { count ≤ 1024 }
    requires there { from + count ≤ covered runs.now.ends }
    requires small { from + count < 2 ^ 64 }
    ensures codes { (i : ℕ) → i < count → slice_index out.new i ≡ code_in_runs runs.now.codes runs.now.ends (from + i) }
    ensures others { (i : ℕ) → count ≤ i → slice_index out.new i ≡ slice_index out.old i }
{
    let mut done = 0;
    while done < count {
        let (code, end) = runs.run_at(from + done);
        let stop = (end - from).min(count);
        put_code(out, done, stop, code);
        done = stop;
    }
}

/// Puts a code into the places from `from` up to `to`; the other places stay as they are.
fn put_code(out: &mut [u64; 1024], from: usize, to: usize, code: u64)
    requires { to ≤ 1024 }
    ensures put { (i : ℕ) → from ≤ i → i < to → slice_index out.new i ≡ code }
    ensures others { (i : ℕ) → (i < from) ⊎ (to ≤ i) → slice_index out.new i ≡ slice_index out.old i }
{
    for place in from..to {
        out[place] = code;
    }
}
