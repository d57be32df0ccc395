ghost use Rattle.std.specs.Prelude.{◌≡◌, ◌<◌, ℕ, List, [], All, length, map, slice_index, slice_index_or, slice_get, Some, IfOk, IsTrue, IsPermutation};
ghost use Rattle.std.specs.Bool.{OnTrue};
ghost use Rattle.std.specs.List.{range_with_len};
ghost use Rattle.cs_types.specs.declared.Column.{Column};
ghost use Rattle.cs_types.specs.Kinds.{is_of_type};
ghost use Rattle.cs_types.specs.Rows.{cell_at};
ghost use Rattle.cs_types.specs.Values.{value_cmp};
ghost use Rattle.column_segment.specs.Ranks.{ArePicked, AreMovedRanks};
ghost use Rattle.row_group.specs.Fields.{AreStamps};
ghost use Rattle.row_group.specs.Orders.{AreRanks};
ghost use Rattle.row_group.specs.Arranged.{AreSegmentsOf, IsColumnSegment, KeepColumns, AreColumnRanks, AreNumbers, IsArranged, codes_of};

use crate::arrange::shown_cells;
use crate::cells::Cells;
use crate::order::code_order;
use crate::packed::Packed;
use crate::ranks::Ranks;
use column_segment::{Segment, encode_numbers, encode_ranked, picked};
use cs_base::{Items, Memory};
use cs_types::{ColumnType, Schema};
use std::alloc::Global;

/// The group of rows, at the places of an order, where these are the codes of each column's cells.
pub fn packed_by(
    alloc: Global,
    schema: &Schema,
    columns: Vec<Cells>,
    ranks: &[Ranks],
    begins: &[u64],
    order: &[usize],
    floor: u64,
) -> Result<Packed, Memory>
    requires columns { length columns.items ≡ length schema.now.columns }
    requires cells { KeepColumns schema.now columns.items }
    requires key { schema.now.key < length columns.items }
    requires numbers { AreNumbers (slice_index_or columns.items schema.now.key []) (length begins.now) }
    requires even { All (λ cells. length cells ≡ length begins.now) columns.items }
    requires ranks { AreColumnRanks columns.items ranks.now }
    requires all { IsPermutation (range_with_len 0 (length begins.now)) order.now }
    requires some { 0 < length order.now }
    ensures { IfOk result (λ group. IsArranged columns.items begins.now order.now schema.now.key floor group) }
{
    let key_codes = picked(alloc, &ranks[schema.key].codes, order)?;
    let places = code_order(alloc, &key_codes)?;
    let late = late_of(alloc, begins, order, floor)?;
    let segments = segments_of(alloc, schema, columns, ranks, order, &key_codes)?;
    Ok(Packed {
        segments,
        key: schema.key,
        length: order.len(),
        base: floor,
        late,
        places: Items::from_vec(places),
    })
}

/// The segments of columns whose cells are put in order. The codes of the key's column are there in that order.
fn segments_of(
    alloc: Global,
    schema: &Schema,
    columns: Vec<Cells>,
    ranks: &[Ranks],
    order: &[usize],
    key_codes: &[u64],
) -> Result<Items<Segment>, Memory>
    requires counted { length columns.items ≡ length schema.now.columns }
    requires kept { KeepColumns schema.now columns.items }
    requires ranks { AreColumnRanks columns.items ranks.now }
    requires all { All (λ cells. IsPermutation (range_with_len 0 (length cells)) order.now) columns.items }
    requires some { 0 < length order.now }
    requires key { ArePicked (codes_of (slice_get ranks.now schema.now.key)) order.now key_codes.now }
    ensures { IfOk result (λ segments. AreSegmentsOf columns.items order.now segments) }
{
    let mut segments = Items::new(alloc);
    for cells in columns {
        let place = segments.len();
        let column = &ranks[place];
        let segment = segment_at(alloc, schema, place, cells, column, order, key_codes)?;
        segments.push(segment)?;
    }
    Ok(segments)
}

/// The segment of the column at a place. Its codes are put in order first, but those of the key's column are already.
fn segment_at(
    alloc: Global,
    schema: &Schema,
    place: usize,
    cells: Cells,
    ranks: &Ranks,
    order: &[usize],
    key_codes: &[u64],
) -> Result<Segment, Memory>
    requires within { place < length schema.now.columns }
    requires kept { (column : Column) → slice_get schema.now.columns place ≡ Some column → All (λ cell. IsTrue (is_of_type column.kind cell)) cells }
    requires ranks { AreRanks value_cmp cells ranks.now.codes.items ranks.now.count }
    requires all { IsPermutation (range_with_len 0 (length cells)) order.now }
    requires some { 0 < length order.now }
    requires key { place ≡ schema.now.key → ArePicked ranks.now.codes.items order.now key_codes.now }
    ensures { IfOk result (λ segment. IsColumnSegment (map (cell_at cells) order.now) segment) }
{
    let kind = schema.columns.at(place).kind;
    if place == schema.key {
        return segment_of(alloc, kind, cells, ranks, key_codes);
    }
    let codes = picked(alloc, &ranks.codes, order)?;
    segment_of(alloc, kind, cells, ranks, &codes)
}

/// The segment of a column whose cells are put in order, by their codes and the codes in that order.
fn segment_of(
    alloc: Global,
    kind: ColumnType,
    cells: Cells,
    ranks: &Ranks,
    codes: &[u64],
) -> Result<Segment, Memory>
    requires of_type { All (λ cell. IsTrue (is_of_type kind cell)) cells }
    requires ranks { AreRanks value_cmp cells ranks.now.codes.items ranks.now.count }
    requires picked { (order : List ℕ) × AreMovedRanks cells ranks.now.codes.items order codes.now }
    ensures { IfOk result (λ segment. (order : List ℕ) → AreMovedRanks cells ranks.now.codes.items order codes.now → IsColumnSegment (map (cell_at cells) order) segment) }
{
    if let Some(numbers) = cells.numbers() {
        return encode_numbers(alloc, numbers, &ranks.codes, ranks.count, codes);
    }
    let shown = shown_cells(alloc, &cells)?;
    encode_ranked(alloc, kind, &shown, &ranks.codes, ranks.count, codes)
}

/// The begins that are not the floor, with their positions in an order. Where all are the floor the order is not read.
fn late_of(
    alloc: Global,
    begins: &[u64],
    order: &[usize],
    floor: u64,
) -> Result<Items<(usize, u64)>, Memory>
    requires { All (λ place. place < length begins.now) order.now }
    ensures { IfOk result (λ late. AreStamps (map (slice_index begins.now) order.now) floor late) }
{
    if are_all(begins, floor) {
        return Ok(Items::new(alloc));
    }
    stamps_of(alloc, begins, order, floor)
}

/// Whether all begins are this one.
fn are_all(begins: &[u64], floor: u64) -> bool
    ensures { OnTrue result (All (λ begin. begin ≡ floor) begins.now) }
{
    for begin in begins {
        if *begin != floor {
            return false;
        }
    }
    true
}

/// The same, one position after another.
fn stamps_of(
    alloc: Global,
    begins: &[u64],
    order: &[usize],
    floor: u64,
) -> Result<Items<(usize, u64)>, Memory>
    requires { All (λ place. place < length begins.now) order.now }
    ensures { IfOk result (λ late. AreStamps (map (slice_index begins.now) order.now) floor late) }
{
    let mut late = Items::new(alloc);
    for position in 0..order.len() {
        let begin = begins[order[position]];
        if begin != floor {
            late.push((position, begin))?;
        }
    }
    Ok(late)
}
