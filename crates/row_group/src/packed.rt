use column_segment::{CellRef, Segment};
use cs_base::{Items, Memory};
use cs_types::{Key, Row};
use std::cmp::Ordering;
use std::marker::Model;

/// A range of places in the list of a group's positions by key: from `from` up to `to`, which is not one of them.
#[derive(Clone, Copy, Debug, PartialEq, Eq)]
pub struct Places {
    /// The first place.
    pub from: usize,
    /// The place after the last.
    pub to: usize,
}

/// A packed row group. Contracts see its rows in their order, and beside them the number of columns, the key's column, the
/// base, and the positions by key. No row and no cell is kept beside the segments.
#[derive(Debug, Drop)]
pub struct Packed {
    /// The segments of the columns, in the columns' order.
    pub(crate) segments: Items<Segment>,
    /// The place of the key's column.
    pub(crate) key: usize,
    /// The number of rows.
    pub(crate) length: usize,
    /// The begin of every row without a stamped one.
    pub(crate) base: u64,
    /// The stamped begins, by position.
    pub(crate) late: Items<(usize, u64)>,
    /// The positions of the rows, by key.
    pub(crate) places: Items<usize>,
}

impl Model for Packed {
    ghost use Rattle.std.specs.Prelude.{length as list_length};
    ghost use Rattle.row_group.specs.Groups.{Group};
    ghost use Rattle.row_group.specs.Fields.{shown_rows, AreFields};

    ghost Value = { Group };

    ghost view = { λ p. record { rows = shown_rows p.segments p.late p.base p.length; width = list_length p.segments; key = p.key; base = p.base; places = p.places } };

    ghost invariant = { λ p. AreFields p.segments p.key p.length p.base p.late p.places };
}

impl Packed {
    ghost use Rattle.std.specs.Prelude.{◌≡◌, ◌<◌, ◌≤◌, ℕ, length, IfOk, All, map, slice_index, true, false};
    ghost use Rattle.std.specs.Bool.{OnTrue, OnFalse};
    ghost use Rattle.column_segment.specs.Bodies.{cell_in};
    ghost use Rattle.column_segment.specs.Segments.{IsSegmentOf};
    ghost use Rattle.row_group.specs.Rows.{column_of};
    ghost use Rattle.row_group.specs.Fields.{AreStamps};
    ghost use Rattle.cs_types.specs.Keys.{key_cmp};
    ghost use Rattle.row_group.specs.Groups.{row_at, begin_beside, begun_at, precedes, key_at_place, AreByKey, ArePlacesOf, IsFirstBetween, IsFirstPlace, IsSide};
    ghost use Rattle.cs_types.specs.Rows.{cell_at, key_in};

    /// The number of rows.
    pub fn len(&self) -> usize
        ensures { result ≡ length self.now.rows }
    {
        self.length
    }

    /// The number of columns. Each row has a cell in each of them.
    pub fn width(&self) -> usize
        ensures value { result ≡ self.now.width }
        ensures rows { All (λ row. length row.cells ≡ self.now.width) self.now.rows }
    {
        self.segments.len()
    }

    /// The begin of every row without a stamped one. After `pack_rows` it is the floor.
    pub fn base(&self) -> u64
        ensures { result ≡ self.now.base }
    {
        self.base
    }

    /// The segment of a column: the one that `encode` gives for its cells. Its cell `i` is that of row `i`.
    pub fn segment(&self, column: usize) -> &Segment
        requires { column < self.now.width }
        ensures rows { result.now.length ≡ length self.now.rows }
        ensures cells { IsSegmentOf (column_of self.now.rows column) result.now.length result.now.body result.now.least result.now.greatest result.now.nulls }
        ensures each { (i : ℕ) → i < length self.now.rows → cell_in result.now.body i ≡ cell_at (row_at self.now i).cells column }
    {
        self.segments.at(column)
    }

    /// The positions by key: each of them once, those of one key in their own order.
    pub fn places(&self) -> &[usize]
        ensures value { result.now ≡ self.now.places }
        ensures by_key { AreByKey self.now }
    {
        self.places.as_slice()
    }

    /// The position that stands at place `i` of the positions by key, as in `places`.
    pub fn place(&self, i: usize) -> usize
        requires { i < length self.now.places }
        ensures value { result ≡ slice_index self.now.places i }
        ensures within { result < length self.now.rows }
        ensures by_key { AreByKey self.now }
    {
        *self.places.at(i)
    }

    /// The stamped begin of the row at a position. None where it has none and its begin is the base.
    pub fn late(&self, position: usize) -> Option<u64>
        requires { position < length self.now.rows }
        ensures { result ≡ begin_beside self.now.base (row_at self.now position).begin }
    {
        stamp_at(self.late.as_slice(), position)
    }

    /// The begin of the row at a position: its stamped one, or the base.
    pub fn begin(&self, position: usize) -> u64
        requires { position < length self.now.rows }
        ensures { result ≡ (row_at self.now position).begin }
    {
        self.late(position).unwrap_or(self.base)
    }

    /// The stamped begins with their positions, which rise: exactly those begins that are not the base.
    pub fn stamped(&self) -> &[(usize, u64)]
        ensures { AreStamps (map (λ row. row.begin) self.now.rows) self.now.base result.now }
    {
        self.late.as_slice()
    }

    /// The row at a position, all its cells. `Memory` comes only where they find no room.
    pub fn row(&self, position: usize) -> Result<Row, Memory>
        requires { position < length self.now.rows }
        ensures { IfOk result (λ row. row ≡ (row_at self.now position).cells) }
    {
        let alloc = self.segments.allocator();
        let mut row = Row::new(alloc);
        for segment in self.segments.as_slice() {
            row.push(segment.cell(position).to_value(alloc)?)?;
        }
        Ok(row)
    }

    /// The key of the row at a position.
    pub fn key_at(&self, position: usize) -> Key
        requires { position < length self.now.rows }
        ensures { result ≡ key_in self.now.key (row_at self.now position).cells }
    {
        key_shown(self.segments.at(self.key).cell(position))
    }

    /// The first place, among the positions by key, of a key that does not come before this one; where it may tie, of one that comes
    /// after it; their number where there is none. At once for a key below the least or above the greatest.
    pub fn first_of(&self, key: Key, tied: bool) -> usize
        ensures { IsFirstPlace self.now key tied result }
    {
        let end = self.places().len();
        match self.side_of(key) {
            Ordering::Less => 0,
            Ordering::Equal => self.first_place(0, end, key, tied),
            Ordering::Greater => end,
        }
    }

    /// The places of a key among the positions by key, which hold the positions of all its rows. At once for a key below
    /// the least or above the greatest; else by steps that double from where it would stand if the keys lay evenly, or by a binary
    /// search up to there.
    pub fn find(&self, key: Key) -> Places
        ensures { ArePlacesOf self.now key result.from result.to }
    {
        self.find_near(self.places.len(), key)
    }

    /// The places of a key, as `find` gives them. Where the keys at all places before `near` come before this one it looks
    /// from there on, or from a later place where the key may stand, so a walk over keys in order begins each search where the one
    /// before ended or closer.
    pub fn find_near(&self, near: usize, key: Key) -> Places
        ensures { ArePlacesOf self.now key result.from result.to }
    {
        let end = self.places.len();
        match self.side_of(key) {
            Ordering::Less => Places { from: 0, to: 0 },
            Ordering::Equal => self.searched(near, key),
            Ordering::Greater => Places { from: end, to: end },
        }
    }

    /// Where a key lies to those of the group, as the key's segment tells.
    fn side_of(&self, key: Key) -> Ordering
        ensures { IsSide self.now key result }
    {
        match bounds_of(self.segment(self.key)) {
            Some(bounds) => side_to(key, bounds),
            None => Ordering::Equal,
        }
    }

    /// The places of a key, which may stand not far after `near`.
    fn searched(&self, near: usize, key: Key) -> Places
        ensures { ArePlacesOf self.now key result.from result.to }
    {
        // Each position stands at one of them.
        let _places = self.places();
        let from = self.first_near(near, key);
        let to = self.place_from(from, key, true);
        Places { from, to }
    }

    /// The first place of a key that does not come before this one, which may stand not far after `near`.
    fn first_near(&self, near: usize, key: Key) -> usize
        ensures { IsFirstPlace self.now key false result }
    {
        let guess = self.guess(key);
        let (later, earlier) = (near.max(guess), near.min(guess));
        if self.is_start(later, key) {
            return self.place_from(later, key, false);
        }
        let from = if self.is_start(earlier, key) {
            earlier
        } else {
            0
        };
        self.first_place(from, later.min(self.places().len()), key, false)
    }

    /// The place that a key would have if the group's keys lay evenly between their least and their greatest. Any place will do, and
    /// a search that begins there ends soon where they nearly do.
    fn guess(&self, key: Key) -> usize {
        match bounds_of(self.segment(self.key)) {
            Some(bounds) => even_place(bounds, self.places.len(), key),
            None => 0,
        }
    }

    /// Whether a place is not past the last, and the keys at all places before it come before this one. Else none from it on does.
    fn is_start(&self, place: usize, key: Key) -> bool
        ensures start { OnTrue result (IsFirstBetween self.now key false place (length self.now.places)) }
        ensures past { OnFalse result ((i : ℕ) → place ≤ i → i < length self.now.places → precedes false (key_cmp (key_at_place self.now i) key) ≡ false) }
    {
        let places = self.places().len();
        if place == 0 || place >= places {
            return place < places;
        }
        self.is_before(place - 1, key, false)
    }

    /// The first place, from one up to another, of a key that does not come before this one; where it may tie, of one
    /// that comes after it; that other place where there is none.
    fn first_place(&self, from: usize, to: usize, key: Key, tied: bool) -> usize
        requires { IsFirstBetween self.now key tied from to }
        ensures { IsFirstPlace self.now key tied result }
    {
        let mut low = from;
        let mut high = to;
        while low < high {
            let middle = low + (high - low) / 2;
            if self.is_before(middle, key, tied) {
                low = middle + 1;
            } else {
                high = middle;
            }
        }
        low
    }

    /// The first place, at `from` or after it, of a key that does not come before this one; where it may tie, of one that
    /// comes after it; the number of places where there is none.
    fn place_from(&self, from: usize, key: Key, tied: bool) -> usize
        requires { IsFirstBetween self.now key tied from (length self.now.places) }
        ensures { IsFirstPlace self.now key tied result }
    {
        let end = self.places().len();
        let mut low = from;
        let mut probe = from;
        while !self.is_past(probe, key, tied) {
            low = probe + 1;
            probe += low - from;
        }
        self.first_place(low, end.min(probe), key, tied)
    }

    /// Whether a place is past the last, or its key does not come before this one; where it may tie, comes after it.
    fn is_past(&self, place: usize, key: Key, tied: bool) -> bool
        ensures after { OnTrue result ((i : ℕ) → place ≤ i → i < length self.now.places → precedes tied (key_cmp (key_at_place self.now i) key) ≡ false) }
        ensures before { OnFalse result ((i : ℕ) → i ≤ place → (i < length self.now.places) × (precedes tied (key_cmp (key_at_place self.now i) key) ≡ true)) }
    {
        place >= self.places.len() || !self.is_before(place, key, tied)
    }

    /// Whether the key at a place comes before this one, or ties with it. Then so do those at all places up to it, and
    /// else none from it on.
    fn is_before(&self, place: usize, key: Key, tied: bool) -> bool
        requires { place < length self.now.places }
        ensures before { OnTrue result ((i : ℕ) → i ≤ place → precedes tied (key_cmp (key_at_place self.now i) key) ≡ true) }
        ensures after { OnFalse result ((i : ℕ) → place ≤ i → i < length self.now.places → precedes tied (key_cmp (key_at_place self.now i) key) ≡ false) }
    {
        is_first(self.key_at(self.place(place)).cmp(&key), tied)
    }

    /// Makes `begin` the base, and so the begin of every row. No row has a stamped begin.
    pub fn rebase(&mut self, begin: u64)
        requires { All (λ row. row.begin ≡ self.old.base) self.old.rows }
        ensures { self.new ≡ record self.old { rows = map (begun_at begin) self.old.rows; base = begin } }
    {
        self.base = begin;
    }
}

ghost use Rattle.std.specs.Prelude.{◌≡◌, ◌<◌, ◌<ℤ◌, AllPairs, slice_get, false, IfSome};
ghost use Rattle.std.specs.Ordering.{MatchOrdering};
ghost use Rattle.cs_types.specs.declared.Value.TheVariants.{Number};
ghost use Rattle.column_segment.specs.Cells.{seen};
ghost use Rattle.row_group.specs.Groups.{key_of_cell, precedes};
ghost use Rattle.row_group.specs.Fields.{stamp_in, stamp_of};

/// The least and the greatest cell of a segment, where all are numbers.
fn bounds_of(segment: &Segment) -> Option<(i64, i64)>
    ensures { IfSome result (λ bounds. (segment.now.least ≡ Number bounds.0) × (segment.now.greatest ≡ Number bounds.1) × (segment.now.nulls ≡ false)) }
{
    if segment.has_null() {
        return None;
    }
    match (segment.least(), segment.greatest()) {
        (CellRef::Number(least), CellRef::Number(greatest)) => Some((least, greatest)),
        _ => None,
    }
}

/// Whether what stands so to another comes before it, or may tie and does.
fn is_first(order: Ordering, tied: bool) -> bool
    ensures { result ≡ precedes tied order }
{
    match order {
        Ordering::Less => true,
        Ordering::Equal => tied,
        Ordering::Greater => false,
    }
}

/// Where a key lies to two others: below the first, above the second, or anywhere.
fn side_to(key: Key, bounds: (i64, i64)) -> Ordering
    ensures { MatchOrdering result (key.0 <ℤ bounds.0) (Unit {0}) (bounds.1 <ℤ key.0) }
{
    if key.0 < bounds.0 {
        Ordering::Less
    } else if bounds.1 < key.0 {
        Ordering::Greater
    } else {
        Ordering::Equal
    }
}

/// The place of a key among so many that lie evenly from the first bound to the second, and 0 where that takes more than 64 bits.
fn even_place(bounds: (i64, i64), places: usize, key: Key) -> usize {
    let span = bounds.1.wrapping_sub(bounds.0).cast_unsigned();
    let above = key.0.wrapping_sub(bounds.0).cast_unsigned();
    let scaled = above
        .checked_mul(places.saturating_sub(1) as u64)
        .unwrap_or(0);
    scaled.checked_div(span).unwrap_or(0) as usize
}

/// The begin that stands at a position, if one does.
fn stamp_at(late: &[(usize, u64)], position: usize) -> Option<u64>
    requires { AllPairs (λ x y. x.0 < y.0) late.now }
    ensures { result ≡ stamp_in late.now position }
{
    let place = late.partition_point(|entry| entry.0 < position);
    begin_at(late, place, position)
}

/// The begin of the entry at a place, if it is the position's.
fn begin_at(late: &[(usize, u64)], place: usize, position: usize) -> Option<u64>
    ensures { result ≡ stamp_of (slice_get late.now place) position }
{
    let (other, begin) = *late.get(place)?;
    if other == position { Some(begin) } else { None }
}

/// The key that a cell is.
fn key_shown(cell: CellRef<'_>) -> Key
    ensures { result ≡ key_of_cell (seen cell.entry) }
{
    match cell {
        CellRef::Number(number) => Key(number),
        _ => Key(0),
    }
}
