// Key numbers: one number for the codes of a row in the grouping columns.
ghost use Rattle.std.specs.Prelude.{◌≡◌, ℕ, ◌+◌, ◌<◌, ◌≤◌, ◌^◌, length, slice_index, ◌++◌, OnOk, IfOk, IfSome, ◌*◌};
ghost use Rattle.batch_kernels.specs.Places.{key_in};
ghost use Rattle.code_tallies.specs.Columns.{code_at};
ghost use Rattle.code_tallies.specs.Keys.{key_at, key_count, cells_of_key, HasKeys};

use crate::column::Column;
use batch_kernels::Keys;
use cs_base::Memory;
use cs_types::Row;
use std::alloc::Global;

/// How many key numbers columns have. None where there are more than `most`.
pub fn key_count(columns: &[Column<'_>], most: u64) -> Option<u64>
    requires { (1 ≤ most) × (most < 2 ^ 60) }
    ensures count { IfSome result (λ count. count ≡ key_count columns.now) }
    ensures most { IfSome result (λ count. (0 < count) × (count ≤ most)) }
{
    match columns.split_first() {
        None => Some(1),
        Some((column, others)) => times(key_count(others, most)?, column.last, most),
    }
}

/// A count times one more than a number. None where it is more than `most`.
fn times(count: u64, last: u64, most: u64) -> Option<u64>
    requires { (0 < count) × (count ≤ most) × (most < 2 ^ 60) }
    ensures count { IfSome result (λ all. all ≡ count * (last + 1)) }
    ensures most { IfSome result (λ all. (0 < all) × (all ≤ most)) }
{
    if last >= most {
        return None;
    }
    let all = count.checked_mul(last + 1)?;
    if all > most { None } else { Some(all) }
}

/// Reads the key numbers of the `count` positions from one on. `codes` is room for those of a column.
pub fn read_keys(
    columns: &[Column<'_>],
    from: usize,
    count: usize,
    codes: &mut [u64; 1024],
    keys: &mut Keys,
)
    requires room { (0 < count) × (count ≤ 1024) }
    requires few { from + count < 2 ^ 60 }
    requires small { key_count columns.now < 2 ^ 60 }
    requires there { HasKeys (from + count) columns.now }
    ensures keys { (i : ℕ) → i < count → key_in keys.new i ≡ key_at columns.now (from + i) }
    ensures below { (i : ℕ) → i < count → key_in keys.new i < key_count columns.now }
{
    match columns.split_first() {
        None => keys.reset(),
        Some((column, others)) => {
            read_keys(others, from, count, codes, keys);
            column.join_codes(from, count, codes, keys);
        }
    }
}

impl Column<'_> {
    /// Joins the key numbers of the `count` positions from one on with their codes. Codes that are all in one stretch are not read.
    fn join_codes(&self, from: usize, count: usize, codes: &mut [u64; 1024], keys: &mut Keys)
        requires room { (0 < count) × (count ≤ 1024) }
        requires few { from + count < 2 ^ 60 }
        requires last { self.now.last < 2 ^ 60 }
        requires there { from + count ≤ self.now.segment.now.length }
        requires small { (i : ℕ) → i < count → key_in keys.old i * (self.now.last + 1) + code_at self.now (from + i) < 2 ^ 64 }
        ensures { (i : ℕ) → i < count → key_in keys.new i ≡ key_in keys.old i * (self.now.last + 1) + code_at self.now (from + i) }
    {
        let radix = self.last + 1;
        let (code, end) = self.segment.stretch(from);
        if end - from >= count {
            keys.join_one(radix, code, count);
        } else {
            self.segment.code_batch(from, count, codes);
            keys.join(radix, codes, count);
        }
    }
}

/// The key number of a position, and a position past it up to which all have it.
pub fn key_stretch(columns: &[Column<'_>], from: usize, length: usize) -> (u64, usize)
    requires there { from < length }
    requires small { key_count columns.now < 2 ^ 60 }
    requires keyed { HasKeys length columns.now }
    ensures key { result.0 ≡ key_at columns.now from }
    ensures below { result.0 < key_count columns.now }
    ensures end { (from < result.1) × (result.1 ≤ length) }
    ensures same { (i : ℕ) → from ≤ i → i < result.1 → key_at columns.now i ≡ result.0 }
{
    match columns.split_first() {
        None => (0, length),
        Some((column, others)) => {
            let (key, end) = key_stretch(others, from, length);
            let (code, stop) = column.segment.stretch(from);
            (key * (column.last + 1) + code, end.min(stop))
        }
    }
}

/// Whether the codes of each column stand in long runs.
pub fn are_in_runs(columns: &[Column<'_>]) -> bool {
    for column in columns {
        if !column.is_in_runs() {
            return false;
        }
    }
    true
}

/// The cells of a key number.
pub fn cells_of(alloc: Global, columns: &[Column<'_>], key: u64) -> Result<Row, Memory>
    requires { HasKeys 0 columns.now }
    ensures { IfOk result (λ cells. cells ≡ cells_of_key columns.now key) }
{
    let mut row = Row::new(alloc);
    push_cells(alloc, columns, key, &mut row)?;
    Ok(row)
}

/// Puts the cells of a key number at the end of a row.
fn push_cells(alloc: Global, columns: &[Column<'_>], key: u64, row: &mut Row) -> Result<(), Memory>
    requires { HasKeys 0 columns.now }
    ensures { OnOk result (row.new ≡ row.old ++ cells_of_key columns.now key) }
{
    match columns.split_first() {
        None => Ok(()),
        Some((column, others)) => {
            let radix = column.last + 1;
            row.push(column.segment.cell_of(key % radix).to_value(alloc)?)?;
            push_cells(alloc, others, key / radix, row)
        }
    }
}
