ghost use Rattle.std.specs.Prelude.{◌≡◌, ◌<◌, ℕ, List, All, map, length, IfOk, IsTrue, ◌↔◌, slice_get, slice_index, slice_index_or, Some};
ghost use Rattle.cs_types.specs.declared.Value.TheVariants.{Null};
ghost use Rattle.cs_types.specs.Kinds.{is_of_type};
ghost use Rattle.cs_types.specs.Rows.{cell_at, number_in, number_cell};
ghost use Rattle.column_segment.specs.Bodies.{cell_in};
ghost use Rattle.column_segment.specs.Cells.{seen, HasText, HasNoNumber};
ghost use Rattle.column_segment.specs.Dicts.{IsDictFor, AreDictCodes};
ghost use Rattle.column_segment.specs.Ranks.{AreAllBelow, AreCellRanks, AreMovedRanks, AreRankPlaces, ArePicked, text_in};
ghost use Rattle.column_segment.specs.Segments.{IsSegmentOf};

use crate::cell::{CellRef, numbers_shown, shows_text};
use crate::choice::{bare_segment, dict_segment};
use crate::segment::Segment;
use cs_base::{Items, Memory};
use cs_types::ColumnType;
use segment_dict::{Dict, NumberDict, joined_texts};
use std::alloc::Global;

/// What `encode` gives of cells in another order, where the ranks of the cells are known already: the cells stand to each
/// other as their ranks do, which are the numbers below `count`, none left out. These are the codes of the cells in their
/// dictionary, and `codes` has them in that order. So it neither sorts cells nor looks for one, and it moves none.
pub fn encode_ranked(
    alloc: Global,
    kind: ColumnType,
    cells: &[CellRef<'_>],
    ranks: &[u64],
    count: u64,
    codes: &[u64],
) -> Result<Segment, Memory>
    requires of_type { All (λ cell. IsTrue (is_of_type kind cell)) (map seen cells.now) }
    requires ranks { AreCellRanks (map seen cells.now) ranks.now count }
    requires picked { (order : List ℕ) × AreMovedRanks (map seen cells.now) ranks.now order codes.now }
    ensures segment { IfOk result (λ segment. (order : List ℕ) → AreMovedRanks (map seen cells.now) ranks.now order codes.now → IsSegmentOf (map (cell_at (map seen cells.now)) order) segment.length segment.body segment.least segment.greatest segment.nulls) }
    ensures cells { IfOk result (λ segment. (order : List ℕ) → AreMovedRanks (map seen cells.now) ranks.now order codes.now → ((i : ℕ) → i < length (map (cell_at (map seen cells.now)) order) → slice_get (map (cell_at (map seen cells.now)) order) i ≡ Some (cell_in segment.body i))) }
{
    if shows_text(kind, cells) {
        ranked_texts(alloc, cells, ranks, count, codes)
    } else {
        let numbers = numbers_shown(alloc, cells)?;
        ranked_numbers(alloc, numbers.as_slice(), ranks, count, codes)
    }
}

/// The same of bare numbers and NULLs.
pub fn encode_numbers(
    alloc: Global,
    numbers: &[Option<i64>],
    ranks: &[u64],
    count: u64,
    codes: &[u64],
) -> Result<Segment, Memory>
    requires ranks { AreCellRanks (map number_cell numbers.now) ranks.now count }
    requires picked { (order : List ℕ) × AreMovedRanks (map number_cell numbers.now) ranks.now order codes.now }
    ensures segment { IfOk result (λ segment. (order : List ℕ) → AreMovedRanks (map number_cell numbers.now) ranks.now order codes.now → IsSegmentOf (map (cell_at (map number_cell numbers.now)) order) segment.length segment.body segment.least segment.greatest segment.nulls) }
    ensures cells { IfOk result (λ segment. (order : List ℕ) → AreMovedRanks (map number_cell numbers.now) ranks.now order codes.now → ((i : ℕ) → i < length (map (cell_at (map number_cell numbers.now)) order) → slice_get (map (cell_at (map number_cell numbers.now)) order) i ≡ Some (cell_in segment.body i))) }
{
    ranked_numbers(alloc, numbers, ranks, count, codes)
}

/// The segment of numbers in an order, where these are their ranks, and the ranks in the order.
fn ranked_numbers(
    alloc: Global,
    numbers: &[Option<i64>],
    ranks: &[u64],
    count: u64,
    codes: &[u64],
) -> Result<Segment, Memory>
    requires ranks { AreCellRanks (map number_cell numbers.now) ranks.now count }
    requires picked { (order : List ℕ) × AreMovedRanks (map number_cell numbers.now) ranks.now order codes.now }
    ensures { IfOk result (λ segment. (order : List ℕ) → AreMovedRanks (map number_cell numbers.now) ranks.now order codes.now → IsSegmentOf (map (cell_at (map number_cell numbers.now)) order) segment.length segment.body segment.least segment.greatest segment.nulls) }
{
    let dict = number_dict(alloc, numbers, ranks, count)?;
    bare_segment(alloc, dict, codes)
}

/// The segment of texts in an order, where these are their ranks, and the ranks in the order.
fn ranked_texts(
    alloc: Global,
    cells: &[CellRef<'_>],
    ranks: &[u64],
    count: u64,
    codes: &[u64],
) -> Result<Segment, Memory>
    requires text { HasText (map seen cells.now) }
    requires no_number { HasNoNumber (map seen cells.now) }
    requires ranks { AreCellRanks (map seen cells.now) ranks.now count }
    requires picked { (order : List ℕ) × AreMovedRanks (map seen cells.now) ranks.now order codes.now }
    ensures { IfOk result (λ segment. (order : List ℕ) → AreMovedRanks (map seen cells.now) ranks.now order codes.now → IsSegmentOf (map (cell_at (map seen cells.now)) order) segment.length segment.body segment.least segment.greatest segment.nulls) }
{
    let dict = text_dict(alloc, cells, ranks, count)?;
    dict_segment(alloc, dict, codes)
}

/// Codes in another order.
pub fn picked(alloc: Global, codes: &[u64], order: &[usize]) -> Result<Vec<u64>, Memory>
    requires { All (λ place. place < length codes.now) order.now }
    ensures { IfOk result (λ all. ArePicked codes.now order.now all.items) }
{
    let mut all = Vec::with_capacity(alloc, order.len())?;
    for place in order {
        all.push(codes[*place])?;
    }
    Ok(all)
}

/// The dictionary of numbers whose ranks these are. The ranks are its codes.
fn number_dict(
    alloc: Global,
    numbers: &[Option<i64>],
    ranks: &[u64],
    count: u64,
) -> Result<Dict, Memory>
    requires some { 0 < length numbers.now }
    requires ranks { AreCellRanks (map number_cell numbers.now) ranks.now count }
    ensures dict { IfOk result (λ dict. IsDictFor (map number_cell numbers.now) dict) }
    ensures codes { IfOk result (λ dict. AreDictCodes dict (map number_cell numbers.now) ranks.now) }
{
    let places = rank_places(alloc, ranks, count)?;
    let nulls = begins_none(numbers, &places);
    let entries = numbers_at(alloc, numbers, &places[usize::from(nulls)..])?;
    Ok(Dict::Numbers(NumberDict {
        entries: Items::from_vec(entries),
        nulls,
    }))
}

/// The dictionary of texts whose ranks these are. The ranks are its codes.
fn text_dict(
    alloc: Global,
    cells: &[CellRef<'_>],
    ranks: &[u64],
    count: u64,
) -> Result<Dict, Memory>
    requires text { HasText (map seen cells.now) }
    requires no_number { HasNoNumber (map seen cells.now) }
    requires ranks { AreCellRanks (map seen cells.now) ranks.now count }
    ensures dict { IfOk result (λ dict. IsDictFor (map seen cells.now) dict) }
    ensures codes { IfOk result (λ dict. AreDictCodes dict (map seen cells.now) ranks.now) }
{
    let places = rank_places(alloc, ranks, count)?;
    let nulls = begins_null(cells, &places);
    let texts = texts_at(alloc, cells, &places[usize::from(nulls)..])?;
    Ok(Dict::Texts(joined_texts(alloc, texts.as_slice(), nulls)?))
}

/// A place for each rank at which it stands.
fn rank_places(alloc: Global, ranks: &[u64], count: u64) -> Result<Vec<usize>, Memory>
    requires { AreAllBelow ranks.now count }
    ensures { IfOk result (λ places. AreRankPlaces ranks.now count places.items) }
{
    let mut places = vec![in alloc; 0; count as usize]?;
    for place in 0..ranks.len() {
        places[ranks[place] as usize] = place;
    }
    Ok(places)
}

/// Whether the cell at the first of some places is NULL.
fn begins_null(cells: &[CellRef<'_>], places: &[usize]) -> bool
    requires some { 0 < length places.now }
    requires within { slice_index places.now 0 < length cells.now }
    ensures { IsTrue result ↔ (slice_index_or (map seen cells.now) (slice_index places.now 0) Null ≡ Null) }
{
    matches!(&cells[places[0]], CellRef::Null)
}

/// The same of bare numbers.
fn begins_none(numbers: &[Option<i64>], places: &[usize]) -> bool
    requires some { 0 < length places.now }
    requires within { slice_index places.now 0 < length numbers.now }
    ensures { IsTrue result ↔ (slice_index_or (map number_cell numbers.now) (slice_index places.now 0) Null ≡ Null) }
{
    numbers[places[0]].is_none()
}

/// The texts of the cells at some places.
fn texts_at<'a>(
    alloc: Global,
    cells: &[CellRef<'a>],
    places: &[usize],
) -> Result<Vec<&'a [u8]>, Memory>
    ensures { IfOk result (λ texts. map (λ text. text.now) texts.items ≡ map (λ place. text_in (cell_at (map seen cells.now) place)) places.now) }
{
    let mut texts = Vec::with_capacity(alloc, places.len())?;
    for place in places {
        texts.push(text_at(cells, *place))?;
    }
    Ok(texts)
}

/// The text at a place, the empty one where there is none.
fn text_at<'a>(cells: &[CellRef<'a>], place: usize) -> &'a [u8]
    ensures { result.now ≡ text_in (cell_at (map seen cells.now) place) }
{
    match cells.get(place) {
        Some(CellRef::Text(text)) => text,
        _ => &[],
    }
}

/// The numbers at some places.
fn numbers_at(alloc: Global, numbers: &[Option<i64>], places: &[usize]) -> Result<Vec<i64>, Memory>
    ensures { IfOk result (λ entries. entries.items ≡ map (λ place. number_in (cell_at (map number_cell numbers.now) place)) places.now) }
{
    let mut entries = Vec::with_capacity(alloc, places.len())?;
    for place in places {
        entries.push(number_at(numbers, *place))?;
    }
    Ok(entries)
}

/// The number at a place, 0 where there is none.
fn number_at(numbers: &[Option<i64>], place: usize) -> i64
    ensures { result ≡ number_in (cell_at (map number_cell numbers.now) place) }
{
    match numbers.get(place) {
        Some(Some(number)) => *number,
        _ => 0,
    }
}
