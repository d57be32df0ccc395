ghost use Rattle.std.specs.Prelude.{All, IsTrue};
ghost use Rattle.std.specs.Bool.{OnTrue};
ghost use Rattle.cs_types.specs.Kinds.{IsColumnType, is_of_type};

use crate::made::{NULL, is_of_type};
use column_segment::{Batch, CellRef, Segment, encode};
use cs_base::{Items, Memory};
use cs_types::{ColumnType, Encoding, Value};
use std::alloc::Global;
use std::process::Abort;
use std::test::Fail;

/// The cells, each as often as its number says.
fn cells_of(alloc: Global, runs: &[(usize, CellRef<'_>)]) -> Result<Vec<Value>, Memory> {
    let mut cells = Vec::new(alloc);
    for (count, cell) in runs {
        for _ in 0..*count {
            cells.push(cell.to_value(alloc)?)?;
        }
    }
    Ok(cells)
}

/// Whether a column of the type may have the cells.
fn are_kept(kind: ColumnType, cells: &[Value]) -> bool
    requires { IsColumnType kind }
    ensures { OnTrue result (All (λ cell. IsTrue (is_of_type kind cell)) cells.now) }
{
    for cell in cells {
        if !is_of_type(kind, cell) {
            return false;
        }
    }
    true
}

/// The cells of a batch that is read from a place on.
fn decoded(alloc: Global, segment: &Segment, from: usize) -> Result<Batch, Memory> {
    let mut batch: Batch = Items::new(alloc);
    batch.push(Value::Number(9))?;
    segment.decode_batch(from, &mut batch)?;
    Ok(batch)
}

/// The cells of a batch from a place on.
fn cells_from(cells: &[Value], from: usize) -> &[Value] {
    let end = (from.saturating_add(1024)).min(cells.len());
    if from < end { &cells[from..end] } else { &[] }
}

/// The cells of a batch that is read from a place on are these.
fn check_batch(
    rt: &impl Abort,
    alloc: Global,
    segment: &Segment,
    cells: &[Value],
    from: usize,
) -> Result<(), Memory> {
    let batch = decoded(alloc, segment, from)?;
    assert!(rt; batch.as_slice() == cells_from(cells, from), "from {from}");
    Ok(())
}

/// The code and the number of the cell at a place, or what stood before in the other places of a batch.
fn wanted_at(segment: &Segment, place: usize) -> (u64, i64) {
    if place >= segment.length {
        return (7, -7);
    }
    (segment.code(place), segment.cell(place).number_or_zero())
}

/// The codes and the numbers that are read from a place on are those of the cells one by one, and the other places of a
/// batch stay as they are.
fn check_codes(rt: &impl Abort, segment: &Segment, from: usize) {
    if from >= segment.length {
        return;
    }
    let count = (segment.length - from).min(1024);
    let mut codes = [7; 1024];
    let mut numbers = [-7; 1024];
    segment.code_batch(from, count, &mut codes);
    segment.number_batch(from, count, &mut numbers);
    for i in 0..1024 {
        let wanted = wanted_at(segment, from.saturating_add(i));
        assert!(rt; (codes[i], numbers[i]) == wanted, "{i} from {from}");
    }
}

/// The stretch at each of these places has this code and this end.
fn check_stretches(rt: &impl Abort, segment: &Segment, stretches: &[(usize, u64, usize)]) {
    for (i, code, end) in stretches {
        assert!(rt; *i < segment.length);
        assert!(rt; segment.stretch(*i) == (*code, *end), "at {i}");
    }
}

/// Each bound cuts the codes here, and where cells tie with it here.
fn check_cuts(
    rt: &impl Abort,
    alloc: Global,
    segment: &Segment,
    cuts: &[(CellRef<'_>, u128, u128)],
) -> Result<(), Memory> {
    for (cell, at, past) in cuts {
        let bound = cell.to_value(alloc)?;
        let found = (segment.cut(&bound, false), segment.cut(&bound, true));
        assert!(rt; found == (*at, *past), "at {cell:?}");
    }
    Ok(())
}

/// The segment of cells that the type has.
fn encoded(
    rt: &impl Abort,
    alloc: Global,
    kind: ColumnType,
    cells: &[Value],
) -> Result<Segment, Memory>
    requires { IsColumnType kind }
{
    assert!(rt; !cells.is_empty() && are_kept(kind, cells));
    encode(alloc, kind, cells)
}

/// The segment of runs of cells that the type has.
fn segment_of(
    rt: &impl Abort,
    alloc: Global,
    kind: ColumnType,
    runs: &[(usize, CellRef<'_>)],
) -> Result<Segment, Memory>
    requires { IsColumnType kind }
{
    let cells = cells_of(alloc, runs)?;
    encoded(rt, alloc, kind, &cells)
}

/// A column's cells in runs, with their encoding and words.
type Counted = (&'static [(usize, CellRef<'static>)], Encoding, u64);

/// A segment has this encoding and this number of words, and gives each cell back.
fn check_segment(
    rt: &impl Abort,
    alloc: Global,
    segment: &Segment,
    cells: &[Value],
    wanted: (Encoding, u64),
) -> Result<(), Memory> {
    assert!(rt; (segment.encoding(), segment.words()) == wanted);
    assert!(rt; segment.length == cells.len());
    for i in 0..cells.len() {
        assert!(rt; segment.cell(i).to_value(alloc)? == cells[i], "cell {i}");
    }
    for &from in &[0, 1, 63, 64, 1000, 1024, 5000, usize::MAX] {
        check_batch(rt, alloc, segment, cells, from)?;
        check_codes(rt, segment, from);
    }
    Ok(())
}

/// The segment of cells is so.
fn check(rt: &impl Abort, alloc: Global, kind: ColumnType, counted: &Counted) -> Result<(), Memory>
    requires { IsColumnType kind }
{
    let cells = cells_of(alloc, counted.0)?;
    let segment = encoded(rt, alloc, kind, &cells)?;
    let outcome = check_segment(rt, alloc, &segment, &cells, (counted.1, counted.2));
    // A segment that is let go by a call has a short proof, and one that is let go at the end of its scope a long one.
    drop(segment);
    outcome
}

/// Each of the segments is so.
fn check_all(
    rt: &impl Abort,
    alloc: Global,
    kind: ColumnType,
    all: &[Counted],
) -> Result<(), Memory>
    requires { IsColumnType kind }
{
    for counted in all {
        check(rt, alloc, kind, counted)?;
    }
    Ok(())
}

/// A column's cells in runs, with their encoding and the last code, the stretches at some places, and where bounds cut.
type Coded = (
    &'static [(usize, CellRef<'static>)],
    Encoding,
    u64,
    &'static [(usize, u64, usize)],
    &'static [(CellRef<'static>, u128, u128)],
);

/// The codes of a segment are in the order of the cells.
fn check_order(
    rt: &impl Abort,
    alloc: Global,
    segment: &Segment,
    coded: &Coded,
) -> Result<(), Memory> {
    let (_, encoding, last, stretches, cuts) = *coded;
    assert!(rt; segment.length > 0);
    assert!(rt; (segment.encoding(), segment.last_code()) == (encoding, last));
    check_stretches(rt, segment, stretches);
    check_cuts(rt, alloc, segment, cuts)
}

/// The codes of each column's cells are so.
fn check_coded(
    rt: &impl Abort,
    alloc: Global,
    kind: ColumnType,
    all: &[Coded],
) -> Result<(), Memory>
    requires { IsColumnType kind }
{
    for coded in all {
        let segment = segment_of(rt, alloc, kind, coded.0)?;
        let outcome = check_order(rt, alloc, &segment, coded);
        drop(segment);
        outcome?;
    }
    Ok(())
}

const LOW: CellRef<'static> = CellRef::Number(i64::MIN);

const HIGH: CellRef<'static> = CellRef::Number(i64::MAX);

const ZERO: CellRef<'static> = CellRef::Number(0);

const SEVEN: CellRef<'static> = CellRef::Number(7);

const TEN: CellRef<'static> = CellRef::Number(10);

const ELEVEN: CellRef<'static> = CellRef::Number(11);

const TWENTY: CellRef<'static> = CellRef::Number(20);

const THIRTY: CellRef<'static> = CellRef::Number(30);

/// Nine times ten to the 18, and less than nothing by as much.
const NINE: CellRef<'static> = CellRef::Number(9_000_000_000_000_000_000);

const MINUS_NINE: CellRef<'static> = CellRef::Number(-9_000_000_000_000_000_000);

const A: CellRef<'static> = CellRef::Text(b"a");

const B: CellRef<'static> = CellRef::Text(b"b");

const LONG: CellRef<'static> = CellRef::Text(b"abcdefghi");

static CODED_NUMBERS: [Coded; 6] = [
    (
        &[(1, TEN), (1, ELEVEN)],
        Encoding::ValuePacked,
        1,
        &[(0, 0, 1), (1, 1, 2)],
        &[
            (NULL, 0, 0),
            (CellRef::Number(9), 0, 0),
            (TEN, 0, 1),
            (ELEVEN, 1, 2),
            (CellRef::Number(12), 2, 2),
        ],
    ),
    (
        &[(1, MINUS_NINE), (1, ZERO), (1, NINE), (1, NULL)],
        Encoding::ValuePacked,
        19,
        &[(0, 1, 1), (1, 10, 2), (2, 19, 3), (3, 0, 4)],
        &[
            (NULL, 0, 1),
            (LOW, 1, 1),
            (MINUS_NINE, 1, 2),
            (ZERO, 10, 11),
            (CellRef::Number(1), 11, 11),
            (NINE, 19, 20),
            (HIGH, 20, 20),
        ],
    ),
    (
        &[(700, THIRTY), (700, TEN), (700, TWENTY)],
        Encoding::ValueRuns,
        2,
        &[(0, 2, 700), (699, 2, 700), (700, 0, 1400), (2099, 1, 2100)],
        &[
            (TEN, 0, 1),
            (CellRef::Number(25), 2, 2),
            (THIRTY, 2, 3),
            (CellRef::Number(31), 3, 3),
        ],
    ),
    (
        &[(1, LOW), (1, HIGH)],
        Encoding::DictPacked,
        1,
        &[(0, 0, 1), (1, 1, 2)],
        &[(LOW, 0, 1), (ZERO, 1, 1), (HIGH, 1, 2)],
    ),
    (
        &[(500, NULL), (500, SEVEN)],
        Encoding::DictRuns,
        1,
        &[(0, 0, 500), (499, 0, 500), (500, 1, 1000)],
        &[
            (NULL, 0, 1),
            (CellRef::Number(6), 1, 1),
            (SEVEN, 1, 2),
            (CellRef::Number(8), 2, 2),
        ],
    ),
    (
        &[(5, NULL)],
        Encoding::DictPacked,
        0,
        &[(0, 0, 1), (4, 0, 5)],
        &[(NULL, 0, 1), (LOW, 1, 1)],
    ),
];

#[test]
fn codes_of_numbers(rt: HostRuntime) -> Result<(), Fail> {
    check_coded(&rt, rt.alloc(), ColumnType::BigInt, &CODED_NUMBERS)?;
    Ok(())
}

static CODED_TEXTS: [Coded; 2] = [
    (
        &[(1, NULL), (2, A), (1, B)],
        Encoding::DictPacked,
        2,
        &[(0, 0, 1), (1, 1, 2), (3, 2, 4)],
        &[
            (NULL, 0, 1),
            (CellRef::Text(b""), 1, 1),
            (A, 1, 2),
            (LONG, 2, 2),
            (B, 2, 3),
            (CellRef::Text(b"c"), 3, 3),
        ],
    ),
    (
        &[(300, B), (300, NULL), (300, LONG)],
        Encoding::DictRuns,
        2,
        &[(0, 2, 300), (300, 0, 600), (899, 1, 900)],
        &[(A, 1, 1), (LONG, 1, 2), (B, 2, 3)],
    ),
];

#[test]
fn codes_of_texts(rt: HostRuntime) -> Result<(), Fail> {
    check_coded(&rt, rt.alloc(), ColumnType::VarChar { n: 9 }, &CODED_TEXTS)?;
    Ok(())
}

/// So many cells, of three numbers so far apart and NULL in turn.
fn in_turn(alloc: Global, length: i64, step: i64) -> Result<Vec<Value>, Memory> {
    let mut cells = Vec::new(alloc);
    for i in 0..length {
        let cell = match i % 4 {
            3 => Value::Null,
            place => Value::Number(step.wrapping_mul(place)),
        };
        cells.push(cell)?;
    }
    Ok(cells)
}

/// The batches of the cells from places beside multiples of 64 and of 1,024.
fn check_edges(rt: &impl Abort, alloc: Global, cells: &[Value]) -> Result<(), Memory> {
    let segment = encoded(rt, alloc, ColumnType::BigInt, cells)?;
    for &from in &[0, 1, 62, 63, 64, 65, 1022, 1023, 1024] {
        check_codes(rt, &segment, from);
    }
    drop(segment);
    Ok(())
}

/// Those of so many cells, of a scale and of a dictionary.
fn check_length(rt: &impl Abort, alloc: Global, length: i64) -> Result<(), Memory> {
    check_edges(rt, alloc, &in_turn(alloc, length, 1)?)?;
    check_edges(rt, alloc, &in_turn(alloc, length, i64::MAX / 3)?)
}

/// Batches of columns that end beside a multiple of 64 and of 1,024, of a scale and of a dictionary.
#[test]
fn batches_at_edges(rt: HostRuntime) -> Result<(), Fail> {
    for &length in &[1, 63, 64, 65, 1023, 1024, 1025] {
        check_length(&rt, rt.alloc(), length)?;
    }
    Ok(())
}

const HALF: u128 = 9_223_372_036_854_775_808;

static WHOLE_RANGE: [(CellRef<'static>, u128, u128); 3] = [
    (LOW, 0, 1),
    (CellRef::Number(-1), HALF - 1, HALF),
    (HIGH, 2 * HALF - 1, 2 * HALF),
];

/// The least and the greatest number, and between them those from 0 on.
fn whole_range_cells(alloc: Global) -> Result<Vec<Value>, Memory> {
    let mut cells = Vec::new(alloc);
    cells.push(Value::Number(i64::MIN))?;
    for number in 0..40 {
        cells.push(Value::Number(number))?;
    }
    cells.push(Value::Number(i64::MAX))?;
    Ok(cells)
}

/// The codes of a segment from the least number to the greatest.
fn check_range(rt: &impl Abort, alloc: Global, segment: &Segment) -> Result<(), Memory> {
    assert!(rt; segment.length > 0);
    assert!(rt; segment.encoding() == Encoding::ValuePacked && segment.last_code() == u64::MAX);
    check_cuts(rt, alloc, segment, &WHOLE_RANGE)
}

/// Numbers from the least to the greatest, so that the last code is the greatest word.
#[test]
fn whole_range(rt: HostRuntime) -> Result<(), Fail> {
    let cells = whole_range_cells(rt.alloc())?;
    let segment = encoded(&rt, rt.alloc(), ColumnType::BigInt, &cells)?;
    let outcome = check_range(&rt, rt.alloc(), &segment);
    drop(segment);
    Ok(outcome?)
}

/// Each encoding, at the ends of its reach, with the words that a slow program of another language counted.
static NUMBERS: [Counted; 12] = [
    (&[(1, LOW), (1, HIGH)], Encoding::DictPacked, 3),
    (&[(1, LOW), (1, HIGH), (1, NULL)], Encoding::DictPacked, 3),
    (
        &[(1, LOW), (1, HIGH), (1, CellRef::Number(5)), (1, NULL)],
        Encoding::DictPacked,
        4,
    ),
    (
        &[(500, NULL), (500, LOW), (500, HIGH)],
        Encoding::DictRuns,
        8,
    ),
    (&[(5, NULL)], Encoding::DictPacked, 0),
    (&[(1, CellRef::Number(42))], Encoding::DictPacked, 1),
    (&[(70, ZERO)], Encoding::DictPacked, 1),
    (
        &[(1, MINUS_NINE), (1, ZERO), (1, NINE), (1, NULL)],
        Encoding::ValuePacked,
        3,
    ),
    (&[(500, NULL), (500, SEVEN)], Encoding::DictRuns, 5),
    (
        &[
            (700, ZERO),
            (700, CellRef::Number(1)),
            (700, CellRef::Number(2)),
        ],
        Encoding::ValueRuns,
        8,
    ),
    (&[(1, TEN), (1, ELEVEN)], Encoding::ValuePacked, 3),
    (
        &[(128, ZERO), (128, CellRef::Number(1))],
        Encoding::ValuePacked,
        6,
    ),
];

static TEXTS: [Counted; 3] = [
    (&[(3, NULL)], Encoding::DictPacked, 0),
    (
        &[(300, B), (300, NULL), (300, LONG)],
        Encoding::DictRuns,
        10,
    ),
    (&[(1, NULL), (2, A), (1, B)], Encoding::DictPacked, 4),
];

#[test]
fn fewest_words(rt: HostRuntime) -> Result<(), Fail> {
    check_all(&rt, rt.alloc(), ColumnType::BigInt, &NUMBERS)?;
    Ok(())
}

#[test]
fn texts(rt: HostRuntime) -> Result<(), Fail> {
    check_all(&rt, rt.alloc(), ColumnType::VarChar { n: 9 }, &TEXTS)?;
    Ok(())
}

/// The numbers of a column in another order.
const IN_NO_ORDER: &[(usize, CellRef<'static>)] = &[
    (1, CellRef::Number(2)),
    (1, CellRef::Number(1)),
    (1, CellRef::Number(4)),
    (1, CellRef::Number(3)),
];

/// What a segment of numbers from 1 to 4 says of its cells.
fn check_bounds(rt: &impl Abort, segment: &Segment) {
    assert!(rt; segment.words() == 3 && !segment.has_null());
    assert!(rt; segment.least() == CellRef::Number(1) && segment.greatest() == CellRef::Number(4));
}

#[test]
fn least_and_greatest(rt: HostRuntime) -> Result<(), Fail> {
    let segment = segment_of(&rt, rt.alloc(), ColumnType::Int, IN_NO_ORDER)?;
    check_bounds(&rt, &segment);
    drop(segment);
    Ok(())
}

/// A column's cells in runs, and all fields of their segment.
type Shown = (
    ColumnType,
    &'static [(usize, CellRef<'static>)],
    &'static str,
);

/// Packed numbers, a dictionary of one number, one of texts and a NULL, whose codes are 0, 1, 1 and 2 at two bits, that is
/// 1 * 4 + 1 * 16 + 2 * 64, and long runs of the codes of a dictionary and of a scale.
static SHOWN: [Shown; 5] = [
    (
        ColumnType::Int,
        IN_NO_ORDER,
        "Segment { length: 4, body: ValuePacked { scale: Scale { exponent: 0, base: 1, nulls: false }, width: 2, codes: [177] }, least: Number(1), greatest: Number(4), nulls: false }",
    ),
    (
        ColumnType::Int,
        &[(4, SEVEN)],
        "Segment { length: 4, body: DictPacked { dict: Numbers(NumberDict { entries: [7], nulls: false }), width: 0, codes: [] }, least: Number(7), greatest: Number(7), nulls: false }",
    ),
    (
        ColumnType::VarChar { n: 8 },
        &[(1, NULL), (2, A), (1, B)],
        "Segment { length: 4, body: DictPacked { dict: Texts(TextDict { ends: [1, 2], bytes: [97, 98], nulls: true }), width: 2, codes: [148] }, least: Text([97]), greatest: Text([98]), nulls: true }",
    ),
    (
        ColumnType::Int,
        &[(500, NULL), (500, SEVEN)],
        "Segment { length: 1000, body: DictRuns { dict: Numbers(NumberDict { entries: [7], nulls: true }), runs: Runs { codes: [0, 1], ends: [500, 1000] } }, least: Number(7), greatest: Number(7), nulls: true }",
    ),
    (
        ColumnType::Int,
        &[(700, THIRTY), (700, TEN), (700, TWENTY)],
        "Segment { length: 2100, body: ValueRuns { scale: Scale { exponent: 1, base: 1, nulls: false }, runs: Runs { codes: [2, 0, 1], ends: [700, 1400, 2100] } }, least: Number(10), greatest: Number(30), nulls: false }",
    ),
];

/// A segment has these fields, all of them.
fn check_fields(
    rt: &impl Abort,
    alloc: Global,
    segment: &Segment,
    wanted: &str,
) -> Result<(), Memory> {
    let found = format!(in alloc; "{segment:?}")?;
    assert!(rt; found.as_str() == wanted);
    Ok(())
}

/// The segment of cells has these fields.
fn check_shown(rt: &impl Abort, alloc: Global, shown: &Shown) -> Result<(), Memory> {
    let (kind, runs, wanted) = *shown;
    assert!(rt; kind.is_valid());
    let segment = segment_of(rt, alloc, kind, runs)?;
    let outcome = check_fields(rt, alloc, &segment, wanted);
    drop(segment);
    outcome
}

#[test]
fn fields_of_segments(rt: HostRuntime) -> Result<(), Fail> {
    for shown in &SHOWN {
        check_shown(&rt, rt.alloc(), shown)?;
    }
    Ok(())
}
