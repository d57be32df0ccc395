ghost use Rattle.std.specs.Prelude.{◌≡◌, ◌∷◌, [], All, IfOk};
ghost use Rattle.std.specs.Bool.{OnTrue};
ghost use Rattle.cs_types.specs.Kinds.{IsColumnType};
ghost use Rattle.cs_types.specs.Schemas.{IsSchema, IsRowOf, may_hold};

use crate::made::{NULL, is_of_type};
use column_segment::{CellRef, SegmentBody};
use cs_base::{Items, Memory};
use cs_types::{Bytes, Column, ColumnType, Encoding, Key, Row, Schema, Value, Version};
use row_group::{Packed, pack_rows};
use std::alloc::Global;
use std::process::Abort;
use std::test::Fail;

/// The cells of a row of the test's table.
type Cells<'a> = (i64, CellRef<'a>, CellRef<'a>);

const ONE: CellRef<'static> = CellRef::Number(1);

const FOUR: CellRef<'static> = CellRef::Number(4);

const SEVEN: CellRef<'static> = CellRef::Number(7);

const A: CellRef<'static> = CellRef::Text(b"a");

const B: CellRef<'static> = CellRef::Text(b"b");

const Z: CellRef<'static> = CellRef::Text(b"z");

const ZZ: CellRef<'static> = CellRef::Text(b"zz");

/// A name of one byte.
pub fn name(alloc: Global, byte: u8) -> Result<Bytes, Memory>
    ensures { IfOk result (λ name. name ≡ byte ∷ []) }
{
    let mut name = Items::new(alloc);
    name.push(byte)?;
    Ok(name)
}

/// The table `t (k int NOT NULL PRIMARY KEY, v int, w varchar(4))`.
fn table(alloc: Global) -> Result<Schema, Memory>
    ensures { IfOk result (λ schema. IsSchema schema) }
{
    let mut columns = Items::new(alloc);
    columns.push(Column {
        name: name(alloc, b'k')?,
        kind: ColumnType::Int,
        nullable: false,
    })?;
    columns.push(Column {
        name: name(alloc, b'v')?,
        kind: ColumnType::Int,
        nullable: true,
    })?;
    columns.push(Column {
        name: name(alloc, b'w')?,
        kind: ColumnType::VarChar { n: 4 },
        nullable: true,
    })?;
    Ok(Schema {
        name: name(alloc, b't')?,
        columns,
        key: 0,
    })
}

/// Whether a column may hold a value.
fn holds(column: &Column, value: &Value) -> bool
    requires { IsColumnType column.now.kind }
    ensures { result ≡ may_hold column.now value.now }
{
    match value {
        Value::Null => column.nullable,
        _ => is_of_type(column.kind, value),
    }
}

/// Whether a row fits the schema.
pub fn fits(schema: &Schema, row: &Row) -> bool
    requires { IsSchema schema.now }
    ensures { OnTrue result (IsRowOf schema.now row.now) }
{
    if row.len() > schema.columns.len() {
        return false;
    }
    for i in 0..schema.columns.len() {
        if !holds(schema.columns.at(i), row.cell(i)) {
            return false;
        }
    }
    true
}

/// A row of the cells.
fn row_of_cells(alloc: Global, cells: &[CellRef<'_>]) -> Result<Row, Memory> {
    let mut row = Row::new(alloc);
    for cell in cells {
        row.push(cell.to_value(alloc)?)?;
    }
    Ok(row)
}

/// A row of the cells; those that are NULL at its end are left out.
fn row_of(alloc: Global, cells: Cells<'_>) -> Result<Row, Memory> {
    let (key, second, third) = cells;
    if third != NULL {
        return whole_row(alloc, cells);
    }
    if second != NULL {
        return row_of_cells(alloc, &[CellRef::Number(key), second]);
    }
    row_of_cells(alloc, &[CellRef::Number(key)])
}

/// A row of three cells, NULL among them.
fn whole_row(alloc: Global, cells: Cells<'_>) -> Result<Row, Memory> {
    row_of_cells(alloc, &[CellRef::Number(cells.0), cells.1, cells.2])
}

/// Versions of the rows, with their begins and ends.
fn versions_of(
    rt: &impl Abort,
    alloc: Global,
    schema: &Schema,
    given: &[(Cells<'_>, u64, Option<u64>)],
) -> Result<Items<Version>, Memory>
    requires { IsSchema schema.now }
    ensures { IfOk result (λ versions. All (λ version. IsRowOf schema.now version.row) versions) }
{
    let mut versions = Items::new(alloc);
    for (cells, begin, end) in given {
        let row = row_of(alloc, *cells)?;
        assert!(rt; fits(schema, &row));
        versions.push(Version {
            row,
            begin: *begin,
            end: *end,
        })?;
    }
    Ok(versions)
}

/// The row at a position has the cells, NULL among them, and the begin.
fn check_row(
    rt: &impl Abort,
    alloc: Global,
    group: &Packed,
    position: usize,
    wanted: &(Cells<'_>, u64),
) -> Result<(), Memory> {
    let (cells, begin) = *wanted;
    assert!(rt; position < group.len());
    assert!(rt; (group.key_at(position), group.begin(position)) == (Key(cells.0), begin));
    assert!(rt;
        group.row(position)? == whole_row(alloc, cells)?,
        "at {position}"
    );
    Ok(())
}

/// Versions of rows, a floor, the rows and begins that are kept, and their positions by key.
type Case = (
    &'static [(Cells<'static>, u64, Option<u64>)],
    u64,
    &'static [(Cells<'static>, u64)],
    &'static [usize],
);

/// The group of a case, None where there is none.
fn group_of(rt: &impl Abort, alloc: Global, case: &Case) -> Result<Option<Packed>, Memory> {
    let schema = table(alloc)?;
    let group = match versions_of(rt, alloc, &schema, case.0) {
        Ok(versions) => pack_rows(alloc, &schema, versions, case.1),
        Err(Memory) => Err(Memory),
    };
    // What is let go by a call has a short proof, and what is let go at the end of its scope a long one.
    drop(schema);
    group
}

/// The group of a case that has one.
fn some_group(rt: &impl Abort, alloc: Global, case: &Case) -> Result<Packed, Memory> {
    let group = group_of(rt, alloc, case)?;
    assert!(rt; group.is_some());
    Ok(group.unwrap())
}

/// That a group is that of its case.
fn check_group(rt: &impl Abort, alloc: Global, group: &Packed, case: &Case) -> Result<(), Memory> {
    let (_, floor, wanted, by_key) = *case;
    assert!(rt; (group.len(), group.base()) == (wanted.len(), floor));
    for (position, row) in wanted.iter().enumerate() {
        check_row(rt, alloc, group, position, row)?;
    }
    assert!(rt; group.places() == by_key);
    Ok(())
}

/// Versions below, at and above the floor, several of a key among them. What is wanted comes from a slow program of another
/// language.
static IN_ORDER: [Case; 5] = [
    (
        &[((8, NULL, NULL), 1, Some(2))],
        1,
        &[((8, NULL, NULL), 1)],
        &[0],
    ),
    (
        &[
            ((5, NULL, B), 3, Some(7)),
            ((5, ONE, B), 7, Some(10)),
            ((5, ONE, B), 10, Some(12)),
            ((5, ONE, B), 12, None),
            ((3, NULL, A), 4, None),
            ((-2, ONE, NULL), 11, None),
            ((900, ONE, A), 10, Some(13)),
            ((900, NULL, A), 13, Some(11)),
            ((3, NULL, A), 2, Some(3)),
        ],
        10,
        &[
            ((3, NULL, A), 10),
            ((900, NULL, A), 13),
            ((-2, ONE, NULL), 11),
            ((900, ONE, A), 10),
            ((5, ONE, B), 10),
            ((5, ONE, B), 12),
        ],
        &[2, 0, 4, 5, 1, 3],
    ),
    (
        MANY,
        0,
        &[
            ((1, NULL, Z), 3),
            ((0, NULL, ZZ), 0),
            ((1, FOUR, Z), 9),
            ((2, FOUR, ZZ), 8),
            ((2, FOUR, ZZ), 9),
        ],
        &[1, 0, 2, 3, 4],
    ),
    (
        MANY,
        8,
        &[
            ((1, NULL, Z), 8),
            ((1, FOUR, Z), 9),
            ((2, FOUR, ZZ), 8),
            ((2, FOUR, ZZ), 9),
        ],
        &[0, 1, 2, 3],
    ),
    (MANY, 9, &[((1, FOUR, Z), 9), ((2, FOUR, ZZ), 9)], &[0, 1]),
];

/// Versions of a few keys, those of one key with their ends.
const MANY: &[(Cells<'static>, u64, Option<u64>)] = &[
    ((2, FOUR, ZZ), 9, None),
    ((2, FOUR, ZZ), 8, Some(9)),
    ((1, FOUR, Z), 9, None),
    ((1, NULL, Z), 3, Some(9)),
    ((0, NULL, ZZ), 0, Some(8)),
];

/// Few, many and all different texts, NULL first, between and last among them.
static TEXTS: [Case; 3] = [
    (
        &[
            ((1, ONE, NULL), 0, None),
            ((2, ONE, B), 0, None),
            ((3, ONE, A), 0, None),
            ((4, ONE, B), 0, None),
            ((5, ONE, NULL), 0, None),
            ((6, ONE, A), 0, None),
            ((7, ONE, B), 0, None),
            ((8, ONE, A), 0, None),
            ((9, ONE, NULL), 0, None),
        ],
        0,
        &[
            ((1, ONE, NULL), 0),
            ((5, ONE, NULL), 0),
            ((9, ONE, NULL), 0),
            ((3, ONE, A), 0),
            ((6, ONE, A), 0),
            ((8, ONE, A), 0),
            ((2, ONE, B), 0),
            ((4, ONE, B), 0),
            ((7, ONE, B), 0),
        ],
        &[0, 6, 3, 7, 1, 4, 8, 5, 2],
    ),
    (
        &[
            ((1, ONE, ZZ), 0, None),
            ((2, ONE, A), 0, None),
            ((3, ONE, Z), 0, None),
            ((4, ONE, A), 0, None),
            ((5, ONE, B), 0, None),
        ],
        0,
        &[
            ((2, ONE, A), 0),
            ((4, ONE, A), 0),
            ((5, ONE, B), 0),
            ((3, ONE, Z), 0),
            ((1, ONE, ZZ), 0),
        ],
        &[4, 0, 3, 1, 2],
    ),
    (
        &[
            ((5, ONE, A), 0, None),
            ((4, ONE, NULL), 0, None),
            ((3, ONE, Z), 0, None),
            ((2, ONE, B), 0, None),
            ((1, ONE, ZZ), 0, None),
        ],
        0,
        &[
            ((1, ONE, ZZ), 0),
            ((2, ONE, B), 0),
            ((3, ONE, Z), 0),
            ((4, ONE, NULL), 0),
            ((5, ONE, A), 0),
        ],
        &[0, 1, 2, 3, 4],
    ),
];

/// That a case has the group that it wants.
fn check_case(rt: &impl Abort, alloc: Global, case: &Case) -> Result<(), Memory> {
    let group = some_group(rt, alloc, case)?;
    let outcome = check_group(rt, alloc, &group, case);
    drop(group);
    outcome
}

/// That each case has the group that it wants.
fn check_cases(rt: &impl Abort, alloc: Global, cases: &[Case]) -> Result<(), Memory> {
    for case in cases {
        check_case(rt, alloc, case)?;
    }
    Ok(())
}

#[test]
fn versions_are_kept_in_order(rt: HostRuntime) -> Result<(), Fail> {
    check_cases(&rt, rt.alloc(), &IN_ORDER)?;
    Ok(())
}

#[test]
fn texts_few_many_and_different(rt: HostRuntime) -> Result<(), Fail> {
    check_cases(&rt, rt.alloc(), &TEXTS)?;
    Ok(())
}

/// No version that is kept.
static NONE_KEPT: [Case; 2] = [
    (&[], 0, &[], &[]),
    (&[((8, NULL, NULL), 1, Some(2))], 2, &[], &[]),
];

/// That a case has no group.
fn check_none(rt: &impl Abort, alloc: Global, case: &Case) -> Result<(), Memory> {
    let group = group_of(rt, alloc, case)?;
    assert!(rt; group.is_none());
    drop(group);
    Ok(())
}

#[test]
fn no_version_makes_no_group(rt: HostRuntime) -> Result<(), Fail> {
    for case in &NONE_KEPT {
        check_none(&rt, rt.alloc(), case)?;
    }
    Ok(())
}

/// The encoding and the words of a column's segment.
fn check_segment(rt: &impl Abort, group: &Packed, column: usize, wanted: (Encoding, u64)) {
    assert!(rt; column < group.width());
    let segment = group.segment(column);
    assert!(rt;
        (segment.encoding(), segment.words()) == wanted,
        "of {column}"
    );
}

/// A group of four rows.
static FOUR_ROWS: Case = (
    &[
        ((1, SEVEN, A), 0, None),
        ((2, SEVEN, NULL), 0, None),
        ((3, SEVEN, B), 0, None),
        ((4, SEVEN, A), 0, None),
    ],
    0,
    &[
        ((2, SEVEN, NULL), 0),
        ((1, SEVEN, A), 0),
        ((4, SEVEN, A), 0),
        ((3, SEVEN, B), 0),
    ],
    &[1, 0, 3, 2],
);

/// That a group has these segments.
fn check_segments(rt: &impl Abort, group: &Packed) {
    check_segment(rt, group, 0, (Encoding::ValuePacked, 3));
    check_segment(rt, group, 1, (Encoding::DictPacked, 1));
    check_segment(rt, group, 2, (Encoding::DictPacked, 4));
}

#[test]
fn a_group_has_these_segments(rt: HostRuntime) -> Result<(), Fail> {
    let group = some_group(&rt, rt.alloc(), &FOUR_ROWS)?;
    let outcome = check_group(&rt, rt.alloc(), &group, &FOUR_ROWS);
    check_segments(&rt, &group);
    drop(group);
    Ok(outcome?)
}

/// Keys, and between which places they stand.
static FOUND: [(i64, usize, usize); 3] = [(3, 2, 3), (5, 4, 4), (0, 0, 0)];

/// That a group finds its keys.
fn check_keys(rt: &impl Abort, group: &Packed) {
    for (key, from, to) in &FOUND {
        let places = group.find(Key(*key));
        assert!(rt; (places.from, places.to) == (*from, *to), "of {key}");
    }
    assert!(rt; group.width() == 3 && group.stamped().len() == 0);
}

/// That the group has three columns, and the keys, the first of them, stand in codes of two bits.
fn check_codes(rt: &impl Abort, group: &Packed) {
    assert!(rt; group.width() == 3);
    match &group.segment(0).body {
        SegmentBody::ValuePacked { width, codes, .. } => {
            assert!(rt; *width == 2 && codes.as_slice() == [177].as_slice());
        }
        _ => assert!(rt; false),
    }
}

#[test]
fn a_group_finds_its_keys(rt: HostRuntime) -> Result<(), Fail> {
    let group = some_group(&rt, rt.alloc(), &FOUR_ROWS)?;
    check_keys(&rt, &group);
    check_codes(&rt, &group);
    drop(group);
    Ok(())
}

/// All fields of the group of these rows: its segments, whose codes stand as those of the tests of segments do, and beside them the key's
/// column, the number of rows, the base, no stamped begin, and the positions by key.
const FOUR_SHOWN: &str =
    "Packed { segments: [Segment { length: 4, body: ValuePacked { scale: Scale { exponent: 0, base: 1, nulls: false }, width: 2, codes: [177] }, least: Number(1), greatest: Number(4), nulls: false }, Segment { length: 4, body: DictPacked { dict: Numbers(NumberDict { entries: [7], nulls: false }), width: 0, codes: [] }, least: Number(7), greatest: Number(7), nulls: false }, Segment { length: 4, body: DictPacked { dict: Texts(TextDict { ends: [1, 2], bytes: [97, 98], nulls: true }), width: 2, codes: [148] }, least: Text([97]), greatest: Text([98]), nulls: true }], key: 0, length: 4, base: 0, late: [], places: [1, 0, 3, 2] }";

/// That a group has these fields, all of them.
fn check_fields(
    rt: &impl Abort,
    alloc: Global,
    group: &Packed,
    wanted: &str,
) -> Result<(), Memory> {
    let found = format!(in alloc; "{group:?}")?;
    assert!(rt; found.as_str() == wanted);
    Ok(())
}

#[test]
fn fields_of_a_group(rt: HostRuntime) -> Result<(), Fail> {
    let group = some_group(&rt, rt.alloc(), &FOUR_ROWS)?;
    let outcome = check_fields(&rt, rt.alloc(), &group, FOUR_SHOWN);
    drop(group);
    Ok(outcome?)
}
