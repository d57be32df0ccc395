ghost use Rattle.std.specs.Prelude.{◌≡◌, ◌+◌, ◌<◌, ◌≤◌, ℕ, List, All, length, min, slice_index, IfOk, IsTrue, Some, slice_get};
ghost use Rattle.bit_pack.specs.Codes.{packed};
ghost use Rattle.cs_types.specs.Kinds.{is_of_type};
ghost use Rattle.cs_types.specs.declared.Value.{Value as Cell};
ghost use Rattle.std.specs.Bool.{OnTrue, OnFalse};
ghost use Rattle.column_segment.specs.Cells.{HasText, HasNoText, HasNoNumber};
ghost use Rattle.column_segment.specs.Layouts.{IsLeastWidth};
ghost use Rattle.column_segment.specs.Dicts.{IsCoded};
ghost use Rattle.column_segment.specs.Bodies.{HasNoScale, IsBest, cell_in};
ghost use Rattle.column_segment.specs.Segments.{IsSegmentOf};
ghost use Rattle.column_segment.specs.Choices.{AreCosts, IsValueBody, IsDictBody};
ghost use Rattle.column_segment.specs.Ranks.{ArePicked};

use crate::body::SegmentBody;
use crate::cell::{has_text, numbers_in, texts_in};
use crate::dict::{
    code_numbers, codes_in, greatest_in, has_null, least_in, number_codes, width_in, words_of,
};
use crate::layout::{runs_in, width_of};
use crate::segment::Segment;
use bit_pack::pack_width;
use cs_base::{Items, Memory};
use cs_types::{ColumnType, Value};
use segment_dict::{Dict, numbers_of, texts_of};
use segment_rle::runs_of;
use segment_value::{Scale, scale_of, shrink_all};
use std::alloc::Global;

/// What the codes of a column cost in words, in each of the two layouts.
#[derive(Clone, Copy)]
pub struct Costs {
    /// Bits a code, where the codes are packed.
    pub width: u32,
    /// The words where they are packed.
    pub packed: u128,
    /// The words where they stand in runs.
    pub runs: u128,
}

/// What so many codes and runs cost, beside the words of their scale or dictionary.
fn costs_of(base: u64, length: usize, width: u32, runs: usize) -> Costs
    requires { width ≤ 64 }
    ensures { AreCosts base length width runs result }
{
    Costs {
        width,
        packed: base as u128 + (length as u128 * width as u128 + 63) / 64,
        runs: base as u128 + 2 * runs as u128,
    }
}

/// The words of the cheaper layout.
fn fewest(costs: Costs) -> u128
    ensures { result ≡ min costs.packed costs.runs }
{
    if costs.packed <= costs.runs {
        costs.packed
    } else {
        costs.runs
    }
}

/// The codes in packed words.
fn packed_words(alloc: Global, width: u32, codes: &[u64]) -> Result<Items<u64>, Memory>
    requires width { width ≤ 64 }
    requires room { IsLeastWidth codes.now width }
    ensures { IfOk result (λ words. words ≡ packed width codes.now) }
{
    let mut words = Vec::new(alloc);
    pack_width(width, codes, &mut words)?;
    Ok(Items::from_vec(words))
}

/// Codes of a scale, in their cheaper layout.
fn value_body(
    alloc: Global,
    scale: Scale,
    codes: &[u64],
    costs: Costs,
) -> Result<SegmentBody, Memory>
    requires width { costs.width ≤ 64 }
    requires room { IsLeastWidth codes.now costs.width }
    ensures { IfOk result (IsValueBody scale codes.now costs) }
{
    if costs.packed <= costs.runs {
        let words = packed_words(alloc, costs.width, codes)?;
        return Ok(SegmentBody::ValuePacked {
            scale,
            width: costs.width,
            codes: words,
        });
    }
    let runs = runs_of(alloc, codes)?;
    Ok(SegmentBody::ValueRuns { scale, runs })
}

/// Codes of a dictionary, in their cheaper layout.
fn dict_body(alloc: Global, dict: Dict, codes: &[u64], costs: Costs) -> Result<SegmentBody, Memory>
    requires width { costs.width ≤ 64 }
    requires room { IsLeastWidth codes.now costs.width }
    ensures { IfOk result (IsDictBody dict codes.now costs) }
{
    if costs.packed <= costs.runs {
        let words = packed_words(alloc, costs.width, codes)?;
        return Ok(SegmentBody::DictPacked {
            dict,
            width: costs.width,
            codes: words,
        });
    }
    let runs = runs_of(alloc, codes)?;
    Ok(SegmentBody::DictRuns { dict, runs })
}

/// The best way to keep cells that have no scale, whose dictionary and codes these are.
fn unscaled_body(alloc: Global, dict: Dict, codes: &[u64]) -> Result<SegmentBody, Memory>
    requires { (cells : List Cell) × IsCoded cells dict codes.now }
    ensures { IfOk result (λ body. (cells : List Cell) → IsCoded cells dict codes.now → HasNoScale cells → IsBest cells body) }
{
    let costs = costs_of(
        words_of(&dict),
        codes.len(),
        width_in(&dict),
        runs_in(codes),
    );
    dict_body(alloc, dict, codes, costs)
}

/// Whether a table has at each place the place.
fn counts_up(table: &[u64]) -> bool
    ensures { OnTrue result ((i : ℕ) → i < length table.now → slice_index table.now i ≡ i) }
{
    for place in 0..table.len() {
        if table[place] != place as u64 {
            return false;
        }
    }
    true
}

/// The codes that a table of a scale has at some places, in their cheaper layout. Of numbers with no gap between them the
/// places are the codes, and so nothing is read from the table.
fn table_body(
    alloc: Global,
    scale: Scale,
    table: &[u64],
    places: &[u64],
    costs: Costs,
) -> Result<SegmentBody, Memory>
    requires width { costs.width ≤ 64 }
    requires within { All (λ place. place < length table.now) places.now }
    requires room { (codes : List ℕ) → ArePicked table.now places.now codes → IsLeastWidth codes costs.width }
    ensures { IfOk result (λ body. (codes : List ℕ) → ArePicked table.now places.now codes → IsValueBody scale codes costs body) }
{
    if counts_up(table) {
        return value_body(alloc, scale, places, costs);
    }
    let codes = looked_up(alloc, table, places)?;
    value_body(alloc, scale, codes.as_slice(), costs)
}

/// The code that a table has at each of some places.
fn looked_up(alloc: Global, table: &[u64], places: &[u64]) -> Result<Vec<u64>, Memory>
    requires { All (λ place. place < length table.now) places.now }
    ensures { IfOk result (λ codes. ArePicked table.now places.now codes.items) }
{
    let mut codes = Vec::with_capacity(alloc, places.len())?;
    for place in places {
        codes.push(table[*place as usize])?;
    }
    Ok(codes)
}

/// The best way to keep numbers, whose dictionary and codes in it these are. Its entries alone tell the scale, so no other
/// number is divided.
fn number_body(alloc: Global, dict: Dict, dict_codes: &[u64]) -> Result<SegmentBody, Memory>
    requires { (cells : List Cell) × IsCoded cells dict dict_codes.now × HasNoText cells }
    ensures { IfOk result (λ body. (cells : List Cell) → IsCoded cells dict dict_codes.now → HasNoText cells → IsBest cells body) }
{
    let entries = code_numbers(alloc, &dict)?;
    let numbers = entries.as_slice();
    let Some(scale) = scale_of(numbers) else {
        return unscaled_body(alloc, dict, dict_codes);
    };
    let scaled = shrink_all(alloc, scale, numbers)?;
    let table = scaled.as_slice();
    let runs = runs_in(dict_codes);
    let by_dict = costs_of(words_of(&dict), dict_codes.len(), width_in(&dict), runs);
    let by_scale = costs_of(2, dict_codes.len(), width_of(table), runs);
    if fewest(by_scale) <= fewest(by_dict) {
        return table_body(alloc, scale, table, dict_codes, by_scale);
    }
    dict_body(alloc, dict, dict_codes, by_dict)
}

/// The segment of numbers, or of NULLs alone.
fn number_segment(alloc: Global, cells: &[Value]) -> Result<Segment, Memory>
    requires some { 0 < length cells.now }
    requires no_text { HasNoText cells.now }
    ensures { IfOk result (λ segment. IsSegmentOf cells.now segment.length segment.body segment.least segment.greatest segment.nulls) }
{
    let numbers = numbers_in(alloc, cells)?;
    let dict = Dict::Numbers(numbers_of(alloc, numbers.as_slice())?);
    let codes = number_codes(alloc, &dict, numbers.as_slice())?;
    bare_segment(alloc, dict, codes.as_slice())
}

/// The segment of numbers, whose dictionary and codes in it these are.
pub fn bare_segment(alloc: Global, dict: Dict, codes: &[u64]) -> Result<Segment, Memory>
    requires { (cells : List Cell) × IsCoded cells dict codes.now × HasNoText cells }
    ensures { IfOk result (λ segment. (cells : List Cell) → IsCoded cells dict codes.now → HasNoText cells → IsSegmentOf cells segment.length segment.body segment.least segment.greatest segment.nulls) }
{
    let least = least_in(alloc, &dict)?;
    let greatest = greatest_in(alloc, &dict)?;
    let nulls = has_null(&dict);
    let body = number_body(alloc, dict, codes)?;
    Ok(Segment {
        length: codes.len(),
        body,
        least,
        greatest,
        nulls,
    })
}

/// The segment of texts.
fn text_segment(alloc: Global, cells: &[Value]) -> Result<Segment, Memory>
    requires some { 0 < length cells.now }
    requires text { HasText cells.now }
    requires no_number { HasNoNumber cells.now }
    ensures { IfOk result (λ segment. IsSegmentOf cells.now segment.length segment.body segment.least segment.greatest segment.nulls) }
{
    let texts = texts_in(alloc, cells)?;
    let dict = Dict::Texts(texts_of(alloc, texts.as_slice())?);
    let codes = codes_in(alloc, &dict, cells)?;
    dict_segment(alloc, dict, codes.as_slice())
}

/// The segment of texts, whose dictionary and codes these are.
pub fn dict_segment(alloc: Global, dict: Dict, codes: &[u64]) -> Result<Segment, Memory>
    requires { (cells : List Cell) × IsCoded cells dict codes.now × HasText cells }
    ensures { IfOk result (λ segment. (cells : List Cell) → IsCoded cells dict codes.now → HasText cells → IsSegmentOf cells segment.length segment.body segment.least segment.greatest segment.nulls) }
{
    let least = least_in(alloc, &dict)?;
    let greatest = greatest_in(alloc, &dict)?;
    let nulls = has_null(&dict);
    let body = unscaled_body(alloc, dict, codes)?;
    Ok(Segment {
        length: codes.len(),
        body,
        least,
        greatest,
        nulls,
    })
}

/// Whether a cell of a column is a text. In a column of texts all may be NULL.
pub fn holds_text(kind: ColumnType, cells: &[Value]) -> bool
    requires { All (λ cell. IsTrue (is_of_type kind cell)) cells.now }
    ensures text { OnTrue result (HasText cells.now) }
    ensures no_number { OnTrue result (HasNoNumber cells.now) }
    ensures none { OnFalse result (HasNoText cells.now) }
{
    match kind {
        ColumnType::VarChar { .. } => has_text(cells),
        _ => false,
    }
}

/// The segment of a column's cells, of which there is one at least, all of the column's type. It takes the way of
/// fewest words; of equal ones the first of value packed, value in runs, dictionary packed, dictionary in runs.
pub fn encode(alloc: Global, kind: ColumnType, cells: &[Value]) -> Result<Segment, Memory>
    requires some { 0 < length cells.now }
    requires of_type { All (λ cell. IsTrue (is_of_type kind cell)) cells.now }
    ensures segment { IfOk result (λ segment. IsSegmentOf cells.now segment.length segment.body segment.least segment.greatest segment.nulls) }
    ensures cells { IfOk result (λ segment. (i : ℕ) → i < length cells.now → slice_get cells.now i ≡ Some (cell_in segment.body i)) }
{
    if holds_text(kind, cells) {
        text_segment(alloc, cells)
    } else {
        number_segment(alloc, cells)
    }
}
