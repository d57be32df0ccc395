// What is kept of a column by pieces, where each row that is shown is chosen: rows side by side that have one key number, and one
// code in the column. Of a piece the rows that are shown are counted at once, and none of them is read.
ghost use Rattle.std.specs.Prelude.{◌≡◌, ◌<◌, ◌≤◌, ◌^◌, ◌⊎◌, pos, ◌*ℤ◌, IfOk};
ghost use Rattle.std.specs.Bool.{OnTrue, OnFalse};
ghost use Rattle.code_tallies.specs.Keys.{HasKeys};
ghost use Rattle.code_tallies.specs.Stretches.{AreKnown, IsStretch};
ghost use Rattle.code_tallies.specs.Tables.{is_chosen, present_in, AreCounts, AreSums, AreLeast, AreGreatest, IsEachShown};

use crate::chosen::Chosen;
use crate::column::Column;
use crate::keys::{are_in_runs, key_stretch};
use crate::table::SumTable;
use cs_base::Memory;
use std::alloc::Global;

/// Rows side by side that have one key number, and one code in a column.
#[derive(Drop)]
pub struct Piece {
    /// Their key number.
    pub key: u64,
    /// Their code.
    pub code: u64,
    /// The position past the last of them.
    pub end: usize,
    /// How many of them are shown.
    pub rows: usize,
}

impl Piece {
    /// Whether none of its cells counts in a column: no row is shown, or all are NULL.
    fn is_without(&self, column: &Column<'_>) -> bool
        ensures none { OnTrue result ((self.now.rows ≡ 0) ⊎ (self.now.code < column.now.first)) }
        ensures some { OnFalse result ((0 < self.now.rows) × (column.now.first ≤ self.now.code)) }
    {
        self.rows == 0 || self.code < column.first
    }
}

impl Chosen<'_> {
    /// Whether each row that is shown is chosen, and the grouping columns stand in long runs.
    pub fn has_pieces(&self) -> bool
        ensures { OnTrue result (IsEachShown self.now) }
    {
        self.kept.is_none() && are_in_runs(&self.keys)
    }

    /// The rows from a position on.
    fn piece(&self, column: &Column<'_>, from: usize) -> Piece
        requires from { from < self.now.length }
        requires keyed { HasKeys self.now.length self.now.keys.items }
        requires length { self.now.length ≤ column.now.segment.now.length }
        ensures { IsStretch self.now column.now from result }
    {
        let (key, end) = key_stretch(&self.keys, from, self.length);
        let (code, stop) = column.segment.stretch(from);
        let end = end.min(stop);
        Piece {
            key,
            code,
            end,
            rows: self.shown_from(from, end - from),
        }
    }
}

/// A number so many times.
fn times(number: i64, many: usize) -> i128
    requires { many < 2 ^ 59 }
    ensures { result ≡ number *ℤ pos many }
{
    number as i128 * many as i128
}

/// How many rows have each key number.
pub fn rows_by_pieces(alloc: Global, chosen: &Chosen<'_>) -> Result<Vec<u64>, Memory>
    requires each { IsEachShown chosen.now }
    requires keyed { HasKeys chosen.now.length chosen.now.keys.items }
    ensures { IfOk result (λ counts. AreCounts chosen.now (is_chosen chosen.now) chosen.now.length counts.items) }
{
    let mut counts = vec![in alloc; 0; chosen.size]?;
    let mut from = 0;
    while from < chosen.length {
        from = add_rows(chosen, from, counts.as_mut_slice());
    }
    Ok(counts)
}

/// Adds the rows from a position on that have its key number to the counts. Gives the position past the last of them.
fn add_rows(chosen: &Chosen<'_>, from: usize, counts: &mut [u64]) -> usize
    requires each { IsEachShown chosen.now }
    requires keyed { HasKeys chosen.now.length chosen.now.keys.items }
    requires from { from < chosen.now.length }
    requires before { AreCounts chosen.now (is_chosen chosen.now) from counts.old }
    ensures end { (from < result) × (result ≤ chosen.now.length) }
    ensures counts { AreCounts chosen.now (is_chosen chosen.now) result counts.new }
{
    let (key, end) = key_stretch(&chosen.keys, from, chosen.length);
    counts[key as usize] += chosen.shown_from(from, end - from) as u64;
    end
}

/// How many cells are not NULL.
pub fn counts_by_pieces(
    alloc: Global,
    column: &Column<'_>,
    chosen: &Chosen<'_>,
) -> Result<Vec<u64>, Memory>
    requires each { IsEachShown chosen.now }
    requires length { chosen.now.length ≤ column.now.segment.now.length }
    requires keyed { HasKeys chosen.now.length chosen.now.keys.items }
    ensures { IfOk result (λ counts. AreCounts chosen.now (present_in column.now (is_chosen chosen.now)) chosen.now.length counts.items) }
{
    let mut counts = vec![in alloc; 0; chosen.size]?;
    let mut from = 0;
    while from < chosen.length {
        from = add_count(column, chosen, from, counts.as_mut_slice());
    }
    Ok(counts)
}

/// Adds the piece from a position on to the counts. Gives its end.
fn add_count(column: &Column<'_>, chosen: &Chosen<'_>, from: usize, counts: &mut [u64]) -> usize
    requires each { IsEachShown chosen.now }
    requires length { chosen.now.length ≤ column.now.segment.now.length }
    requires keyed { HasKeys chosen.now.length chosen.now.keys.items }
    requires from { from < chosen.now.length }
    requires before { AreCounts chosen.now (present_in column.now (is_chosen chosen.now)) from counts.old }
    ensures end { (from < result) × (result ≤ chosen.now.length) }
    ensures counts { AreCounts chosen.now (present_in column.now (is_chosen chosen.now)) result counts.new }
{
    let piece = chosen.piece(column, from);
    if piece.is_without(column) {
        return piece.end;
    }
    counts[piece.key as usize] += piece.rows as u64;
    piece.end
}

/// The counts and the sums of the cells that are numbers.
pub fn sums_by_pieces(
    alloc: Global,
    column: &Column<'_>,
    chosen: &Chosen<'_>,
) -> Result<SumTable, Memory>
    requires each { IsEachShown chosen.now }
    requires length { chosen.now.length ≤ column.now.segment.now.length }
    requires keyed { HasKeys chosen.now.length chosen.now.keys.items }
    requires known { AreKnown column.now }
    ensures counts { IfOk result (λ table. AreCounts chosen.now (present_in column.now (is_chosen chosen.now)) chosen.now.length table.counts.items) }
    ensures sums { IfOk result (λ table. AreSums chosen.now column.now chosen.now.length table.sums.items) }
{
    let mut counts = vec![in alloc; 0; chosen.size]?;
    let mut sums = vec![in alloc; 0; chosen.size]?;
    let mut from = 0;
    while from < chosen.length {
        from = add_sum(
            column,
            chosen,
            from,
            counts.as_mut_slice(),
            sums.as_mut_slice(),
        );
    }
    Ok(SumTable { counts, sums })
}

/// Adds the piece from a position on to the counts and the sums. Gives its end.
fn add_sum(
    column: &Column<'_>,
    chosen: &Chosen<'_>,
    from: usize,
    counts: &mut [u64],
    sums: &mut [i128],
) -> usize
    requires each { IsEachShown chosen.now }
    requires length { chosen.now.length ≤ column.now.segment.now.length }
    requires keyed { HasKeys chosen.now.length chosen.now.keys.items }
    requires known { AreKnown column.now }
    requires from { from < chosen.now.length }
    requires counted { AreCounts chosen.now (present_in column.now (is_chosen chosen.now)) from counts.old }
    requires summed { AreSums chosen.now column.now from sums.old }
    ensures end { (from < result) × (result ≤ chosen.now.length) }
    ensures counts { AreCounts chosen.now (present_in column.now (is_chosen chosen.now)) result counts.new }
    ensures sums { AreSums chosen.now column.now result sums.new }
{
    let piece = chosen.piece(column, from);
    if piece.is_without(column) {
        return piece.end;
    }
    counts[piece.key as usize] += piece.rows as u64;
    sums[piece.key as usize] += times(column.number(piece.code), piece.rows);
    piece.end
}

/// The least codes of cells that are not NULL, `last` where there is none, after the counts of these cells.
pub fn least_by_pieces(
    alloc: Global,
    column: &Column<'_>,
    chosen: &Chosen<'_>,
) -> Result<(Vec<u64>, Vec<u64>), Memory>
    requires each { IsEachShown chosen.now }
    requires length { chosen.now.length ≤ column.now.segment.now.length }
    requires keyed { HasKeys chosen.now.length chosen.now.keys.items }
    ensures counts { IfOk result (λ tables. AreCounts chosen.now (present_in column.now (is_chosen chosen.now)) chosen.now.length tables.0.items) }
    ensures least { IfOk result (λ tables. AreLeast chosen.now column.now chosen.now.length tables.1.items) }
{
    let mut counts = vec![in alloc; 0; chosen.size]?;
    let mut least = vec![in alloc; column.last; chosen.size]?;
    let mut from = 0;
    while from < chosen.length {
        from = add_least(
            column,
            chosen,
            from,
            counts.as_mut_slice(),
            least.as_mut_slice(),
        );
    }
    Ok((counts, least))
}

/// Adds the piece from a position on to the counts and the least codes. Gives its end.
fn add_least(
    column: &Column<'_>,
    chosen: &Chosen<'_>,
    from: usize,
    counts: &mut [u64],
    least: &mut [u64],
) -> usize
    requires each { IsEachShown chosen.now }
    requires length { chosen.now.length ≤ column.now.segment.now.length }
    requires keyed { HasKeys chosen.now.length chosen.now.keys.items }
    requires from { from < chosen.now.length }
    requires counted { AreCounts chosen.now (present_in column.now (is_chosen chosen.now)) from counts.old }
    requires before { AreLeast chosen.now column.now from least.old }
    ensures end { (from < result) × (result ≤ chosen.now.length) }
    ensures counts { AreCounts chosen.now (present_in column.now (is_chosen chosen.now)) result counts.new }
    ensures least { AreLeast chosen.now column.now result least.new }
{
    let piece = chosen.piece(column, from);
    if piece.is_without(column) {
        return piece.end;
    }
    let key = piece.key as usize;
    counts[key] += piece.rows as u64;
    least[key] = least[key].min(piece.code);
    piece.end
}

/// The greatest codes of cells that are not NULL, 0 where there is none, after the counts of these cells.
pub fn greatest_by_pieces(
    alloc: Global,
    column: &Column<'_>,
    chosen: &Chosen<'_>,
) -> Result<(Vec<u64>, Vec<u64>), Memory>
    requires each { IsEachShown chosen.now }
    requires length { chosen.now.length ≤ column.now.segment.now.length }
    requires keyed { HasKeys chosen.now.length chosen.now.keys.items }
    ensures counts { IfOk result (λ tables. AreCounts chosen.now (present_in column.now (is_chosen chosen.now)) chosen.now.length tables.0.items) }
    ensures greatest { IfOk result (λ tables. AreGreatest chosen.now column.now chosen.now.length tables.1.items) }
{
    let mut counts = vec![in alloc; 0; chosen.size]?;
    let mut greatest = vec![in alloc; 0; chosen.size]?;
    let mut from = 0;
    while from < chosen.length {
        from = add_greatest(
            column,
            chosen,
            from,
            counts.as_mut_slice(),
            greatest.as_mut_slice(),
        );
    }
    Ok((counts, greatest))
}

/// Adds the piece from a position on to the counts and the greatest codes. Gives its end.
fn add_greatest(
    column: &Column<'_>,
    chosen: &Chosen<'_>,
    from: usize,
    counts: &mut [u64],
    greatest: &mut [u64],
) -> usize
    requires each { IsEachShown chosen.now }
    requires length { chosen.now.length ≤ column.now.segment.now.length }
    requires keyed { HasKeys chosen.now.length chosen.now.keys.items }
    requires from { from < chosen.now.length }
    requires counted { AreCounts chosen.now (present_in column.now (is_chosen chosen.now)) from counts.old }
    requires before { AreGreatest chosen.now column.now from greatest.old }
    ensures end { (from < result) × (result ≤ chosen.now.length) }
    ensures counts { AreCounts chosen.now (present_in column.now (is_chosen chosen.now)) result counts.new }
    ensures greatest { AreGreatest chosen.now column.now result greatest.new }
{
    let piece = chosen.piece(column, from);
    if piece.is_without(column) {
        return piece.end;
    }
    let key = piece.key as usize;
    counts[key] += piece.rows as u64;
    greatest[key] = greatest[key].max(piece.code);
    piece.end
}
