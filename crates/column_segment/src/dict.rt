ghost use Rattle.std.specs.Prelude.{◌≡◌, ◌<◌, ◌≤◌, ◌^◌, ◌↔◌, ℕ, pos, List, All, Contains, IfOk, IsTrue, length, slice_index, slice_index_or};
ghost use Rattle.cs_types.specs.declared.Value.{Value as Cell};
ghost use Rattle.cs_types.specs.declared.Value.TheVariants.{Null};
ghost use Rattle.cs_types.specs.Rows.{number_in};
ghost use Rattle.column_segment.specs.Cells.{seen, IsLeastCell, IsGreatestCell};
ghost use Rattle.column_segment.specs.Layouts.{IsLeastWidth};
ghost use Rattle.column_segment.specs.Dicts.{dict_cell, dict_codes, dict_nulls, dict_words, HasEntry, IsDictFor, IsDictCode, AreDictCodes, HasNumbers, AreNumberCodes, AreCodeNumbers};

use crate::cell::{CellRef, as_number, as_text, number_shown};
use crate::layout::bits_of;
use cs_base::Memory;
use cs_types::Value;
use segment_dict::Dict;
use std::alloc::Global;

/// The cell of one of a dictionary's codes.
pub fn entry_shown(dict: &Dict, code: u64) -> CellRef<'_>
    requires { code < dict_codes dict.now }
    ensures { seen result ≡ dict_cell dict.now code }
{
    match dict {
        Dict::Numbers(numbers) => number_shown(numbers.entry(code)),
        Dict::Texts(texts) => match texts.entry(code) {
            None => CellRef::Null,
            Some(text) => CellRef::Text(text),
        },
    }
}

/// The code of a cell that the dictionary has.
fn code_for(dict: &Dict, cell: &Value) -> u64
    requires { HasEntry dict.now cell.now }
    ensures { IsDictCode dict.now cell.now result }
{
    match dict {
        Dict::Numbers(numbers) => numbers.code_of(as_number(cell)).unwrap(),
        Dict::Texts(texts) => texts.code_of(as_text(cell)).unwrap(),
    }
}

/// The codes of some cells that the dictionary has.
pub fn codes_in(alloc: Global, dict: &Dict, cells: &[Value]) -> Result<Vec<u64>, Memory>
    requires { All (HasEntry dict.now) cells.now }
    ensures { IfOk result (λ codes. AreDictCodes dict.now cells.now codes.items) }
{
    let mut codes = Vec::with_capacity(alloc, cells.len())?;
    for cell in cells {
        codes.push(code_for(dict, cell))?;
    }
    Ok(codes)
}

/// The codes of numbers that the dictionary has, which is one of numbers.
pub fn number_codes(alloc: Global, dict: &Dict, numbers: &[Option<i64>]) -> Result<Vec<u64>, Memory>
    requires { HasNumbers dict.now numbers.now }
    ensures { IfOk result (λ codes. AreNumberCodes dict.now numbers.now codes.items) }
{
    match dict {
        Dict::Numbers(dict) => dict.codes(alloc, numbers),
        Dict::Texts(_) => unreachable!(),
    }
}

/// Puts the numbers that the cells of the first `count` codes are into the first places of a batch, 0 for NULL and for a
/// text; the other places stay as they are.
pub fn put_numbers(dict: &Dict, codes: &[u64; 1024], count: usize, numbers: &mut [i64; 1024])
    requires room { count ≤ 1024 }
    requires codes { (i : ℕ) → i < count → slice_index codes.now i < dict_codes dict.now }
    ensures numbers { (i : ℕ) → i < count → slice_index_or numbers.new i (pos 0) ≡ number_in (dict_cell dict.now (slice_index codes.now i)) }
    ensures others { (i : ℕ) → count ≤ i → slice_index_or numbers.new i (pos 0) ≡ slice_index_or numbers.old i (pos 0) }
{
    for i in 0..count {
        numbers[i] = entry_shown(dict, codes[i]).number_or_zero();
    }
}

/// How many codes a dictionary has.
pub fn codes_of(dict: &Dict) -> u64
    ensures { result ≡ dict_codes dict.now }
{
    match dict {
        Dict::Numbers(numbers) => numbers.entries.as_slice().len() as u64
            + u64::from(numbers.nulls),
        Dict::Texts(texts) => texts.ends.as_slice().len() as u64 + u64::from(texts.nulls),
    }
}

/// The numbers that the cells of all codes are, in the order of the codes.
pub fn code_numbers(alloc: Global, dict: &Dict) -> Result<Vec<Option<i64>>, Memory>
    ensures { IfOk result (λ numbers. AreCodeNumbers dict.now numbers.items) }
{
    let count = codes_of(dict) as usize;
    let mut numbers = Vec::with_capacity(alloc, count)?;
    for code in 0..count {
        numbers.push(entry_shown(dict, code as u64).number())?;
    }
    Ok(numbers)
}

/// What a dictionary costs in words: one for each number, or for each text one and its bytes, joined, 8 to a word.
pub fn words_of(dict: &Dict) -> u64
    ensures words { result ≡ dict_words dict.now }
    ensures small { result < 2 ^ 63 }
{
    match dict {
        Dict::Numbers(numbers) => numbers.words(),
        Dict::Texts(texts) => texts.words(),
    }
}

/// The least width with room for each code of the cells whose dictionary this is.
pub fn width_in(dict: &Dict) -> u32
    ensures most { result ≤ 64 }
    ensures width { (cells : List Cell) (codes : List ℕ) → IsDictFor cells dict.now → AreDictCodes dict.now cells codes → 0 < length cells → IsLeastWidth codes result }
{
    bits_of(codes_of(dict).saturating_sub(1))
}

/// Whether a dictionary has a code for NULL.
pub fn has_null(dict: &Dict) -> bool
    ensures value { result ≡ dict_nulls dict.now }
    ensures null { (cells : List Cell) → IsDictFor cells dict.now → IsTrue result ↔ Contains cells Null }
{
    match dict {
        Dict::Numbers(numbers) => numbers.nulls,
        Dict::Texts(texts) => texts.nulls,
    }
}

/// The least of the cells whose dictionary this is that are not NULL, NULL where there is none.
pub fn least_in(alloc: Global, dict: &Dict) -> Result<Value, Memory>
    ensures { IfOk result (λ least. (cells : List Cell) → IsDictFor cells dict.now → IsLeastCell cells least) }
{
    let nulls = u64::from(has_null(dict));
    if codes_of(dict) == nulls {
        return Ok(Value::Null);
    }
    entry_shown(dict, nulls).to_value(alloc)
}

/// The greatest of the cells whose dictionary this is that are not NULL, NULL where there is none.
pub fn greatest_in(alloc: Global, dict: &Dict) -> Result<Value, Memory>
    ensures { IfOk result (λ greatest. (cells : List Cell) → IsDictFor cells dict.now → IsGreatestCell cells greatest) }
{
    let codes = codes_of(dict);
    if codes == u64::from(has_null(dict)) {
        return Ok(Value::Null);
    }
    entry_shown(dict, codes - 1).to_value(alloc)
}
