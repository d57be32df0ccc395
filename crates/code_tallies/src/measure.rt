// What is kept of a column over the chosen rows, for each key number: by pieces where the rows go by them, and else by batches.
ghost use Rattle.std.specs.Prelude.{◌≡◌, ℕ, pos, ◌+◌, ◌*◌, ◌<◌, ◌≤◌, length, vec_len, slice_index, slice_index_or, IfOk};
ghost use Rattle.code_tallies.specs.Keys.{HasKeys};
ghost use Rattle.code_tallies.specs.Stretches.{AreKnown};
ghost use Rattle.code_tallies.specs.Tables.{is_chosen, present_in, AreCounts, AreSums, AreLeast, AreGreatest, reached};

use crate::chosen::{Batch, Chosen};
use crate::column::Column;
use crate::pieces::{counts_by_pieces, greatest_by_pieces, least_by_pieces, sums_by_pieces};
use crate::table::SumTable;
use batch_kernels::{count_by_key, greatest_by_key, least_by_key, sum_by_key};
use cs_base::Memory;
use std::alloc::Global;

/// How many cells are not NULL.
pub fn counts_of(
    alloc: Global,
    column: &Column<'_>,
    chosen: &Chosen<'_>,
    batch: &mut Batch,
) -> Result<Vec<u64>, Memory>
    requires length { chosen.now.length ≤ column.now.segment.now.length }
    requires keyed { HasKeys chosen.now.length chosen.now.keys.items }
    ensures { IfOk result (λ counts. AreCounts chosen.now (present_in column.now (is_chosen chosen.now)) chosen.now.length counts.items) }
{
    if chosen.has_pieces() && column.is_in_runs() {
        return counts_by_pieces(alloc, column, chosen);
    }
    let mut counts = vec![in alloc; 0; chosen.size]?;
    for number in 0..chosen.batches() {
        add_counts(column, chosen, number, batch, counts.as_mut_slice());
    }
    Ok(counts)
}

/// Adds a batch to the counts.
fn add_counts(
    column: &Column<'_>,
    chosen: &Chosen<'_>,
    number: usize,
    batch: &mut Batch,
    counts: &mut [u64],
)
    requires number { 1024 * number < chosen.now.length }
    requires keyed { HasKeys chosen.now.length chosen.now.keys.items }
    requires length { chosen.now.length ≤ column.now.segment.now.length }
    requires before { AreCounts chosen.now (present_in column.now (is_chosen chosen.now)) (reached chosen.now number) counts.old }
    ensures { AreCounts chosen.now (present_in column.now (is_chosen chosen.now)) (reached chosen.now (number + 1)) counts.new }
{
    if !chosen.has_rows(number) {
        return;
    }
    batch.read(chosen, column, number);
    count_by_key(&batch.keys, &batch.mask, batch.count, counts);
}

/// The counts and the sums of the cells that are numbers.
pub fn sums_of(
    alloc: Global,
    column: &Column<'_>,
    chosen: &Chosen<'_>,
    batch: &mut Batch,
) -> Result<SumTable, Memory>
    requires length { chosen.now.length ≤ column.now.segment.now.length }
    requires keyed { HasKeys chosen.now.length chosen.now.keys.items }
    requires known { AreKnown column.now }
    ensures counts { IfOk result (λ table. AreCounts chosen.now (present_in column.now (is_chosen chosen.now)) chosen.now.length table.counts.items) }
    ensures sums { IfOk result (λ table. AreSums chosen.now column.now chosen.now.length table.sums.items) }
{
    if chosen.has_pieces() && column.is_in_runs() {
        return sums_by_pieces(alloc, column, chosen);
    }
    let mut counts = vec![in alloc; 0; chosen.size]?;
    let mut sums = vec![in alloc; 0; chosen.size]?;
    for number in 0..chosen.batches() {
        add_sums(
            column,
            chosen,
            number,
            batch,
            counts.as_mut_slice(),
            sums.as_mut_slice(),
        );
    }
    Ok(SumTable { counts, sums })
}

/// Adds a batch to the counts and the sums.
fn add_sums(
    column: &Column<'_>,
    chosen: &Chosen<'_>,
    number: usize,
    batch: &mut Batch,
    counts: &mut [u64],
    sums: &mut [i128],
)
    requires number { 1024 * number < chosen.now.length }
    requires keyed { HasKeys chosen.now.length chosen.now.keys.items }
    requires length { chosen.now.length ≤ column.now.segment.now.length }
    requires counted { AreCounts chosen.now (present_in column.now (is_chosen chosen.now)) (reached chosen.now number) counts.old }
    requires summed { AreSums chosen.now column.now (reached chosen.now number) sums.old }
    ensures counts { AreCounts chosen.now (present_in column.now (is_chosen chosen.now)) (reached chosen.now (number + 1)) counts.new }
    ensures sums { AreSums chosen.now column.now (reached chosen.now (number + 1)) sums.new }
{
    if !chosen.has_rows(number) {
        return;
    }
    batch.read(chosen, column, number);
    count_by_key(&batch.keys, &batch.mask, batch.count, counts);
    column
        .segment
        .number_batch(batch.from, batch.count, &mut batch.numbers);
    sum_by_key(&batch.keys, &batch.numbers, &batch.mask, batch.count, sums);
}

/// The least codes of cells that are not NULL, `last` where there is none, after the counts of these cells.
pub fn least_of(
    alloc: Global,
    column: &Column<'_>,
    chosen: &Chosen<'_>,
    batch: &mut Batch,
) -> Result<(Vec<u64>, Vec<u64>), Memory>
    requires length { chosen.now.length ≤ column.now.segment.now.length }
    requires keyed { HasKeys chosen.now.length chosen.now.keys.items }
    ensures counts { IfOk result (λ tables. AreCounts chosen.now (present_in column.now (is_chosen chosen.now)) chosen.now.length tables.0.items) }
    ensures least { IfOk result (λ tables. AreLeast chosen.now column.now chosen.now.length tables.1.items) }
{
    if chosen.has_pieces() && column.is_in_runs() {
        return least_by_pieces(alloc, column, chosen);
    }
    let mut counts = vec![in alloc; 0; chosen.size]?;
    let mut least = vec![in alloc; column.last; chosen.size]?;
    for number in 0..chosen.batches() {
        add_least(
            column,
            chosen,
            number,
            batch,
            counts.as_mut_slice(),
            least.as_mut_slice(),
        );
    }
    Ok((counts, least))
}

/// Adds a batch to the counts and the least codes.
fn add_least(
    column: &Column<'_>,
    chosen: &Chosen<'_>,
    number: usize,
    batch: &mut Batch,
    counts: &mut [u64],
    least: &mut [u64],
)
    requires number { 1024 * number < chosen.now.length }
    requires keyed { HasKeys chosen.now.length chosen.now.keys.items }
    requires length { chosen.now.length ≤ column.now.segment.now.length }
    requires counted { AreCounts chosen.now (present_in column.now (is_chosen chosen.now)) (reached chosen.now number) counts.old }
    requires before { AreLeast chosen.now column.now (reached chosen.now number) least.old }
    ensures counts { AreCounts chosen.now (present_in column.now (is_chosen chosen.now)) (reached chosen.now (number + 1)) counts.new }
    ensures least { AreLeast chosen.now column.now (reached chosen.now (number + 1)) least.new }
{
    if !chosen.has_rows(number) {
        return;
    }
    batch.read_codes(chosen, column, number);
    count_by_key(&batch.keys, &batch.mask, batch.count, counts);
    least_by_key(&batch.keys, &batch.codes, &batch.mask, batch.count, least);
}

/// The greatest codes of cells that are not NULL, 0 where there is none, after the counts of these cells.
pub fn greatest_of(
    alloc: Global,
    column: &Column<'_>,
    chosen: &Chosen<'_>,
    batch: &mut Batch,
) -> Result<(Vec<u64>, Vec<u64>), Memory>
    requires length { chosen.now.length ≤ column.now.segment.now.length }
    requires keyed { HasKeys chosen.now.length chosen.now.keys.items }
    ensures counts { IfOk result (λ tables. AreCounts chosen.now (present_in column.now (is_chosen chosen.now)) chosen.now.length tables.0.items) }
    ensures greatest { IfOk result (λ tables. AreGreatest chosen.now column.now chosen.now.length tables.1.items) }
{
    if chosen.has_pieces() && column.is_in_runs() {
        return greatest_by_pieces(alloc, column, chosen);
    }
    let mut counts = vec![in alloc; 0; chosen.size]?;
    let mut greatest = vec![in alloc; 0; chosen.size]?;
    for number in 0..chosen.batches() {
        add_greatest(
            column,
            chosen,
            number,
            batch,
            counts.as_mut_slice(),
            greatest.as_mut_slice(),
        );
    }
    Ok((counts, greatest))
}

/// Adds a batch to the counts and the greatest codes.
fn add_greatest(
    column: &Column<'_>,
    chosen: &Chosen<'_>,
    number: usize,
    batch: &mut Batch,
    counts: &mut [u64],
    greatest: &mut [u64],
)
    requires number { 1024 * number < chosen.now.length }
    requires keyed { HasKeys chosen.now.length chosen.now.keys.items }
    requires length { chosen.now.length ≤ column.now.segment.now.length }
    requires counted { AreCounts chosen.now (present_in column.now (is_chosen chosen.now)) (reached chosen.now number) counts.old }
    requires before { AreGreatest chosen.now column.now (reached chosen.now number) greatest.old }
    ensures counts { AreCounts chosen.now (present_in column.now (is_chosen chosen.now)) (reached chosen.now (number + 1)) counts.new }
    ensures greatest { AreGreatest chosen.now column.now (reached chosen.now (number + 1)) greatest.new }
{
    if !chosen.has_rows(number) {
        return;
    }
    batch.read_codes(chosen, column, number);
    count_by_key(&batch.keys, &batch.mask, batch.count, counts);
    greatest_by_key(
        &batch.keys,
        &batch.codes,
        &batch.mask,
        batch.count,
        greatest,
    );
}
