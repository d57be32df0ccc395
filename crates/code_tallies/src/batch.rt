// The rows of a group that are chosen, by batches of 1,024.
ghost use Rattle.std.specs.Prelude.{◌≡◌, ℕ, ◌+◌, ◌-◌, ◌*◌, ◌<◌, ◌≤◌, ◌&&◌, min, length, slice_index_or, IfOk, true, false, []};
ghost use Rattle.std.specs.Bool.{OnTrue, OnFalse};
ghost use Rattle.std.specs.Option.{option_copied};
ghost use Rattle.batch_kernels.specs.Masks.{IsNarrowed};
ghost use Rattle.code_tallies.specs.Shown.{is_shown};
ghost use Rattle.code_tallies.specs.Keys.{HasKeys};
ghost use Rattle.code_tallies.specs.Tables.{chosen_by, is_chosen, present_in, AreCounts, HasCodes, IsBatch, reached};

use crate::chosen::{Batch, Chosen};
use crate::column::Column;
use crate::keys::read_keys;
use crate::pieces::rows_by_pieces;
use crate::verdicts::Verdicts;
use batch_kernels::{Keys, count_by_key, has_any, keep_from, keep_where, part, put_batch};
use cs_base::Memory;
use delete_bitmap::Positions;
use std::alloc::Global;
use std::borrow::CowSlice;

/// Which rows are shown and kept by the verdicts. Where None comes, these are all that are shown.
pub fn kept_of<'a, V: Verdicts>(
    alloc: Global,
    length: usize,
    shown: Option<&Positions>,
    verdicts: &'a V,
) -> Result<Option<CowSlice<'a, bool, Global>>, Memory>
    ensures { IfOk result (λ found. (i : ℕ) → i < length → chosen_by found (option_copied shown.entry) i ≡ (is_shown (option_copied shown.entry) i && V.kept verdicts.now i)) }
{
    let Some(flags) = verdicts.flags(length) else {
        return Ok(None);
    };
    match shown {
        None => Ok(Some(CowSlice::Borrowed(flags))),
        Some(set) => Ok(Some(CowSlice::Owned(kept_in(alloc, flags, set)?))),
    }
}

/// Which of these rows are in a set.
fn kept_in(alloc: Global, flags: &[bool], set: &Positions) -> Result<Vec<bool>, Memory>
    ensures { IfOk result (λ rows. IsNarrowed (λ i. slice_index_or set.now i false) flags.now rows.items) }
{
    let mut rows = Vec::from_slice(alloc, flags)?;
    drop_hidden(set, rows.as_mut_slice());
    Ok(rows)
}

/// Leaves those rows chosen that are in a set, batch by batch.
fn drop_hidden(set: &Positions, rows: &mut [bool])
    ensures { IsNarrowed (λ i. slice_index_or set.now i false) rows.old rows.new }
{
    let mut from = 0;
    while from < rows.len() {
        let count = (rows.len() - from).min(1024);
        drop_hidden_from(set, from, &mut rows[from..from + count]);
        from += count;
    }
}

/// The same of a batch of rows from a position on. Where none of them is chosen, the set is not asked.
fn drop_hidden_from(set: &Positions, from: usize, rows: &mut [bool])
    requires { length rows.old ≤ 1024 }
    ensures { IsNarrowed (λ i. slice_index_or set.now (from + i) false) rows.old rows.new }
{
    if !has_any(rows, true) {
        return;
    }
    let count = rows.len();
    let mut there = [false; 1024];
    set.put_mask(from, count, &mut there);
    keep_where(rows, &there[..count], true);
}

impl Chosen<'_> {
    /// How many batches there are.
    pub fn batches(&self) -> usize
        ensures enough { self.now.length ≤ 1024 * result }
        ensures no_more { 1024 * result < self.now.length + 1024 }
    {
        self.length.div_ceil(1024)
    }

    /// How many rows a batch has.
    fn count(&self, number: usize) -> usize
        requires { 1024 * number < self.now.length }
        ensures { result ≡ min 1024 (self.now.length - 1024 * number) }
    {
        (self.length - 1024 * number).min(1024)
    }

    /// Whether a row of a batch is chosen.
    pub fn has_rows(&self, number: usize) -> bool
        requires { 1024 * number < self.now.length }
        ensures { OnFalse result ((i : ℕ) → i < min 1024 (self.now.length - 1024 * number) → is_chosen self.now (1024 * number + i) ≡ false) }
    {
        let from = 1024 * number;
        let count = self.count(number);
        match &self.kept {
            None => self.shown_from(from, count) > 0,
            Some(kept) => has_any(part(kept.as_slice(), from, count), true),
        }
    }

    /// Puts which of the `count` rows of a batch are chosen into a mask.
    fn put_mask(&self, number: usize, count: usize, mask: &mut [bool; 1024])
        requires number { 1024 * number < self.now.length }
        requires count { count ≤ 1024 }
        ensures { (i : ℕ) → i < count → slice_index_or mask.new i false ≡ is_chosen self.now (1024 * number + i) }
    {
        match &self.kept {
            None => self.put_shown(1024 * number, count, mask),
            Some(kept) => put_batch(kept.as_slice(), 1024 * number, count, mask),
        }
    }

    /// Adds a batch to the counts of chosen rows.
    fn count_batch(&self, number: usize, batch: &mut Batch, counts: &mut [u64])
        requires number { 1024 * number < self.now.length }
        requires keyed { HasKeys self.now.length self.now.keys.items }
        requires before { AreCounts self.now (is_chosen self.now) (reached self.now number) counts.old }
        ensures { AreCounts self.now (is_chosen self.now) (reached self.now (number + 1)) counts.new }
    {
        if !self.has_rows(number) {
            return;
        }
        batch.read_chosen(self, number);
        count_by_key(&batch.keys, &batch.mask, batch.count, counts);
    }

    /// Whether all rows are chosen, and have one key number.
    pub fn is_whole(&self) -> bool
        ensures each { OnTrue result ((i : ℕ) → is_chosen self.now i ≡ true) }
        ensures alone { OnTrue result (self.now.keys.items ≡ []) }
    {
        self.kept.is_none() && self.shown.is_none() && self.keys.is_empty()
    }

    /// How many rows are chosen, for each key number.
    pub fn counts(&self, alloc: Global, batch: &mut Batch) -> Result<Vec<u64>, Memory>
        requires { HasKeys self.now.length self.now.keys.items }
        ensures { IfOk result (λ counts. AreCounts self.now (is_chosen self.now) self.now.length counts.items) }
    {
        if self.has_pieces() {
            return rows_by_pieces(alloc, self);
        }
        let mut counts = vec![in alloc; 0; self.size]?;
        for number in 0..self.batches() {
            self.count_batch(number, batch, counts.as_mut_slice());
        }
        Ok(counts)
    }
}

impl Batch {
    /// Room for the batches of a scan.
    pub fn new() -> Batch
        ensures { result.count ≡ 0 }
    {
        Batch {
            from: 0,
            count: 0,
            keys: Keys::new(),
            codes: [0; 1024],
            numbers: [0; 1024],
            mask: [false; 1024],
        }
    }

    /// Reads which rows of a batch are chosen, and their key numbers.
    fn read_chosen(&mut self, chosen: &Chosen<'_>, number: usize)
        requires number { 1024 * number < chosen.now.length }
        requires keyed { HasKeys chosen.now.length chosen.now.keys.items }
        ensures { IsBatch chosen.now (is_chosen chosen.now) number self.new }
    {
        self.from = 1024 * number;
        self.count = chosen.count(number);
        chosen.put_mask(number, self.count, &mut self.mask);
        read_keys(
            &chosen.keys,
            self.from,
            self.count,
            &mut self.codes,
            &mut self.keys,
        );
    }

    /// The same of those rows alone whose cell in a column is not NULL. Where no code is NULL's, the codes are not read.
    pub(crate) fn read(&mut self, chosen: &Chosen<'_>, column: &Column<'_>, number: usize)
        requires number { 1024 * number < chosen.now.length }
        requires keyed { HasKeys chosen.now.length chosen.now.keys.items }
        requires column { chosen.now.length ≤ column.now.segment.now.length }
        ensures { IsBatch chosen.now (present_in column.now (is_chosen chosen.now)) number self.new }
    {
        if column.first > 0 {
            self.read_codes(chosen, column, number);
        } else {
            self.read_chosen(chosen, number);
        }
    }

    /// The same, and their codes in the column.
    pub(crate) fn read_codes(&mut self, chosen: &Chosen<'_>, column: &Column<'_>, number: usize)
        requires number { 1024 * number < chosen.now.length }
        requires keyed { HasKeys chosen.now.length chosen.now.keys.items }
        requires column { chosen.now.length ≤ column.now.segment.now.length }
        ensures batch { IsBatch chosen.now (present_in column.now (is_chosen chosen.now)) number self.new }
        ensures codes { HasCodes column.now self.new }
    {
        self.read_chosen(chosen, number);
        column
            .segment
            .code_batch(self.from, self.count, &mut self.codes);
        if column.first > 0 {
            keep_from(&mut self.mask, &self.codes, column.first);
        }
    }
}
