ghost use Rattle.std.specs.Prelude.{◌≡◌, length, IfOk};
ghost use Rattle.cs_types.specs.Kinds.{IsColumnType};

use crate::made::{Cell, list, row_of, table};
use batch_aggregate::Partial;
use batch_filter::Sieve;
use code_tallies::{Batch, EveryRow, tally_group};
use cs_base::{Items, Memory};
use cs_model::{AnswerRefusal, Item, Operand, Pred, Query, Relation};
use cs_types::{ColumnType, Loose, Schema, Value, Version};
use delete_bitmap::Positions;
use row_group::{Packed, pack_rows};
use std::alloc::Global;
use std::process::Abort;
use std::test::Fail;

/// The cells of the column v, which come again and again, as the keys from 0 on do; `few` says that they are few, so that each query
/// goes by codes.
#[derive(Clone, Copy)]
struct Case {
    kind: ColumnType,
    cells: &'static [Cell],
    keys: u16,
    few: bool,
}

impl Case {
    /// The cell of a row.
    fn cell(&self, alloc: Global, row: u16) -> Result<Value, Memory> {
        if self.cells.is_empty() {
            return Ok(Value::Number(i64::from(row) * 1_003));
        }
        match self.cells[usize::from(row) % self.cells.len()] {
            Cell::Null => Ok(Value::Null),
            Cell::Number(number) => Ok(Value::Number(number)),
            Cell::Text(text) => Ok(Value::Text(list(alloc, text)?)),
        }
    }
}

/// Numbers near one another, far apart and without a NULL; many of them; texts; NULLs alone, in a column of numbers and in one of texts,
/// whose dictionary is one of numbers; and few keys, so that both columns stand
/// in long runs.
static CASES: [Case; 10] = [
    Case {
        kind: ColumnType::Int,
        cells: &[
            Cell::Number(3),
            Cell::Null,
            Cell::Number(9),
            Cell::Number(-1),
        ],
        keys: 40,
        few: true,
    },
    Case {
        kind: ColumnType::BigInt,
        cells: &[
            Cell::Number(i64::MAX),
            Cell::Number(i64::MIN),
            Cell::Null,
            Cell::Number(-3),
        ],
        keys: 40,
        few: true,
    },
    Case {
        kind: ColumnType::Decimal { p: 5, s: 2 },
        cells: &[Cell::Number(150), Cell::Number(-250), Cell::Number(0)],
        keys: 40,
        few: true,
    },
    Case {
        kind: ColumnType::Int,
        cells: &[],
        keys: 40,
        few: false,
    },
    Case {
        kind: ColumnType::Date,
        cells: &[Cell::Number(19_000), Cell::Null],
        keys: 40,
        few: true,
    },
    Case {
        kind: ColumnType::VarChar { n: 2 },
        cells: &[
            Cell::Text(b"b"),
            Cell::Text(b""),
            Cell::Null,
            Cell::Text(b"ab"),
        ],
        keys: 40,
        few: true,
    },
    Case {
        kind: ColumnType::Int,
        cells: &[Cell::Null],
        keys: 40,
        few: true,
    },
    Case {
        kind: ColumnType::VarChar { n: 2 },
        cells: &[Cell::Null],
        keys: 40,
        few: true,
    },
    Case {
        kind: ColumnType::BigInt,
        cells: &[
            Cell::Number(i64::MAX),
            Cell::Null,
            Cell::Number(i64::MIN),
            Cell::Number(7),
        ],
        keys: 3,
        few: true,
    },
    Case {
        kind: ColumnType::VarChar { n: 2 },
        cells: &[Cell::Text(b"b"), Cell::Text(b"")],
        keys: 3,
        few: true,
    },
];

/// The packed group of so many rows of a case.
fn packed_of(
    rt: &impl Abort,
    alloc: Global,
    case: &Case,
    count: u16,
) -> Result<Option<Packed>, Memory>
    requires { IsColumnType case.now.kind }
{
    let schema = table(alloc, case.kind)?;
    let mut versions = Items::new(alloc);
    for row in 0..count {
        let cell = case.cell(alloc, row)?;
        assert!(rt; case.kind.keeps(&cell));
        versions.push(Version {
            row: row_of(alloc, case.kind, i64::from(row % case.keys.max(1)), cell)?,
            begin: 1,
            end: None,
        })?;
    }
    pack_rows(alloc, &schema, versions, 1)
}

/// What a query keeps: the rows of keys from one on, or those whose v is NULL, or is none.
#[derive(Clone, Copy, Debug)]
enum Kept {
    From(i128),
    Null(bool),
}

/// The items of a query and its grouping columns, and what it keeps, where that is not all.
type Asked = (&'static [Item], &'static [usize], Option<Kept>);

const ALL: &[Item] = &[
    Item::CountAll,
    Item::Count(1),
    Item::Min(1),
    Item::Max(1),
    Item::Sum(1),
    Item::Sum(0),
];

/// Those that a segment's own fields tell of all rows of a group.
const BOUNDS: &[Item] = &[
    Item::CountAll,
    Item::Min(0),
    Item::Max(0),
    Item::Min(1),
    Item::Max(1),
];

const BY_CELL: &[Item] = &[
    Item::Column(1),
    Item::CountAll,
    Item::Count(1),
    Item::Min(1),
    Item::Max(1),
    Item::Sum(1),
    Item::Min(0),
    Item::Max(0),
    Item::Avg(0),
];

const BY_KEY: &[Item] = &[
    Item::Column(0),
    Item::Count(1),
    Item::Min(1),
    Item::Max(1),
    Item::Avg(1),
];

const BY_BOTH: &[Item] = &[
    Item::Column(1),
    Item::Column(0),
    Item::CountAll,
    Item::Sum(0),
];

static QUERIES: [Asked; 10] = [
    (ALL, &[], None),
    (ALL, &[], Some(Kept::From(7))),
    (ALL, &[], Some(Kept::Null(true))),
    (BOUNDS, &[], None),
    (BOUNDS, &[], Some(Kept::From(0))),
    (BY_CELL, &[1], None),
    (BY_CELL, &[1], Some(Kept::From(7))),
    (BY_KEY, &[0], None),
    (BY_KEY, &[0], Some(Kept::Null(false))),
    (BY_BOTH, &[0, 1], Some(Kept::From(7))),
];

/// The filter that keeps so much.
fn filter(kept: Kept) -> Pred {
    match kept {
        Kept::From(least) => Pred::Compare {
            left: Operand::Column(0),
            sign: Relation::GreaterEqual,
            right: Operand::Constant(Loose::Number { m: least, s: 0 }),
        },
        Kept::Null(wanted) => Pred::IsNull {
            column: 1,
            negated: !wanted,
        },
    }
}

/// A query that puts rows together.
fn query_of(alloc: Global, asked: Asked) -> Result<Query, Memory> {
    let (items, groups, kept) = asked;
    Ok(Query {
        items: list(alloc, items)?,
        filter: kept.map(filter),
        groups: list(alloc, groups)?,
        grouped: true,
        order: Items::new(alloc),
    })
}

/// The positions of a group that are shown: true and false again and again. None where there are no flags.
fn shown_of(alloc: Global, flags: &[bool], length: usize) -> Result<Option<Positions>, Memory> {
    if flags.is_empty() {
        return Ok(None);
    }
    let mut shown = Positions::none(alloc, length);
    for position in 0..length {
        if flags[position % flags.len()] {
            shown.insert(position)?;
        }
    }
    Ok(Some(shown))
}

/// All positions of a group but one, whose version is ended.
fn all_but(alloc: Global, ended: usize, length: usize) -> Result<Positions, Memory> {
    let mut shown = Positions::none(alloc, length);
    for position in 0..length {
        if position != ended {
            shown.insert(position)?;
        }
    }
    Ok(shown)
}

/// Adds the rows of a group that are shown by their codes. False where nothing has changed.
fn add_codes(
    alloc: Global,
    partial: &mut Partial<'_>,
    schema: &Schema,
    query: &Query,
    packed: &Packed,
    shown: Option<&Positions>,
    batch: &mut Batch,
) -> Result<bool, Memory>
    requires schema { partial.old.schema.now ≡ schema.now }
    requires query { partial.old.query.now ≡ query.now }
    ensures schema { partial.new.schema.now ≡ schema.now }
    ensures query { partial.new.query.now ≡ query.now }
{
    match &query.filter {
        None => tally_group(alloc, partial, packed, shown, &EveryRow, batch),
        Some(pred) => {
            let sieve = Sieve::of(alloc, pred, packed, schema)?;
            tally_group(alloc, partial, packed, shown, &sieve, batch)
        }
    }
}

/// Adds the rows of a group that are shown one by one.
fn add_rows(
    partial: &mut Partial<'_>,
    packed: &Packed,
    shown: Option<&Positions>,
) -> Result<(), Memory> {
    for position in 0..packed.len() {
        let there = match shown {
            None => true,
            Some(positions) => positions.contains(position),
        };
        if there {
            partial.add(&packed.row(position)?)?;
        }
    }
    Ok(())
}

/// The rows of a group that are shown, added one by one.
fn rows_of<'a>(
    alloc: Global,
    schema: &'a Schema,
    query: &'a Query,
    packed: &Packed,
    shown: Option<&Positions>,
) -> Result<Partial<'a>, Memory> {
    let mut partial = Partial::new(alloc, schema, query)?;
    add_rows(&mut partial, packed, shown)?;
    Ok(partial)
}

/// Whether two partial answers have the same answer.
fn are_same(one: Partial<'_>, other: Partial<'_>) -> bool {
    one.result() == other.result()
}

/// Whether the answer over the rows of a group that are shown is the same by codes and by rows, and goes by codes where those are few.
fn is_same(
    alloc: Global,
    few: bool,
    schema: &Schema,
    query: &Query,
    packed: &Packed,
    shown: Option<&Positions>,
    batch: &mut Batch,
) -> Result<bool, Memory> {
    let mut by_codes = Partial::new(alloc, schema, query)?;
    let done = add_codes(alloc, &mut by_codes, schema, query, packed, shown, batch)?;
    if !done {
        add_rows(&mut by_codes, packed, shown)?;
    }
    let by_rows = rows_of(alloc, schema, query, packed, shown)?;
    Ok(are_same(by_codes, by_rows) && (done || !few))
}

/// The answer over the rows of a group that are shown is the same by codes and by rows.
fn check(
    rt: &impl Abort,
    alloc: Global,
    case: &Case,
    packed: &Packed,
    asked: Asked,
    shown: Option<&Positions>,
    batch: &mut Batch,
) -> Result<(), Memory>
    requires { IsColumnType case.now.kind }
{
    let schema = table(alloc, case.kind)?;
    let query = query_of(alloc, asked)?;
    let same = is_same(alloc, case.few, &schema, &query, packed, shown, batch);
    // What is let go by a call has a short proof, and what is let go at the end of its scope a long one.
    drop(query);
    drop(schema);
    assert!(rt; same?, "by {asked:?}");
    Ok(())
}

/// Whether the rows of a group are shown: all of them, none of them, and some of them.
static FLAGS: [&[bool]; 4] = [&[], &[true, true, false], &[false], &[true]];

/// The same of a query over a group, whichever of its rows are shown.
fn check_query(
    rt: &impl Abort,
    alloc: Global,
    case: &Case,
    packed: &Packed,
    asked: Asked,
    batch: &mut Batch,
) -> Result<(), Memory>
    requires { IsColumnType case.now.kind }
{
    let length = packed.len();
    for &flags in &FLAGS {
        let shown = shown_of(alloc, flags, length)?;
        check(rt, alloc, case, packed, asked, shown.as_ref(), batch)?;
    }
    if asked.1.is_empty() {
        let shown = all_but(alloc, length.saturating_sub(1), length)?;
        check(rt, alloc, case, packed, asked, Some(&shown), batch)?;
    }
    Ok(())
}

/// The same of each query over a group.
fn check_queries(rt: &impl Abort, alloc: Global, case: &Case, packed: &Packed) -> Result<(), Memory>
    requires { IsColumnType case.now.kind }
{
    let mut batch = Batch::new();
    for &asked in &QUERIES {
        check_query(rt, alloc, case, packed, asked, &mut batch)?;
    }
    Ok(())
}

/// The same of a group of so many rows.
fn check_count(rt: &impl Abort, alloc: Global, case: &Case, count: u16) -> Result<(), Memory> {
    assert!(rt; case.kind.is_valid());
    let packed = packed_of(rt, alloc, case, count)?;
    assert!(rt; packed.is_some());
    let packed = packed.unwrap();
    let outcome = check_queries(rt, alloc, case, &packed);
    drop(packed);
    outcome
}

#[test]
fn codes_tally_as_rows_do(rt: HostRuntime) -> Result<(), Fail> {
    for case in &CASES {
        for &count in &[1, 63, 1_023, 1_024, 1_025] {
            check_count(&rt, rt.alloc(), case, count)?;
        }
    }
    Ok(())
}

/// Numbers that are added up in several groups, with their whole sum, where it is in the range of its type.
static SUMS: [(&[&[Cell]], Option<i128>); 4] = [
    (
        &[
            &[Cell::Number(i64::MAX), Cell::Number(i64::MAX)],
            &[Cell::Number(i64::MIN), Cell::Number(5)],
            &[Cell::Number(i64::MIN), Cell::Null],
        ],
        Some(3),
    ),
    (
        &[
            &[Cell::Number(i64::MIN), Cell::Number(-1), Cell::Null],
            &[Cell::Null],
            &[Cell::Number(1)],
        ],
        Some(-9_223_372_036_854_775_808),
    ),
    (&[&[Cell::Number(i64::MAX)], &[Cell::Number(1)]], None),
    (&[&[Cell::Number(-2)], &[Cell::Number(i64::MIN)]], None),
];

/// The answer of one row that is a sum, or that the sum is out of range.
fn sum_of(alloc: Global, sum: Option<i128>) -> Result<Items<Items<Loose>>, AnswerRefusal> {
    let Some(m) = sum else {
        return Err(AnswerRefusal::Overflow { row: 1, column: 1 });
    };
    let mut row = Items::new(alloc);
    row.push(Loose::Number { m, s: 0 })?;
    let mut rows = Items::new(alloc);
    rows.push(row)?;
    Ok(rows)
}

/// The packed group of these numbers.
fn packed_cells(rt: &impl Abort, alloc: Global, cells: &'static [Cell]) -> Result<Packed, Memory> {
    assert!(rt; cells.len() < 1_000);
    let case = Case {
        kind: ColumnType::BigInt,
        cells,
        keys: 40,
        few: true,
    };
    let packed = packed_of(rt, alloc, &case, cells.len() as u16)?;
    assert!(rt; packed.is_some());
    Ok(packed.unwrap())
}

/// The sum of groups of these numbers, by codes.
fn sum_by_codes(
    rt: &impl Abort,
    alloc: Global,
    groups: &[&'static [Cell]],
) -> Result<Items<Items<Loose>>, AnswerRefusal> {
    let schema = table(alloc, ColumnType::BigInt)?;
    let query = query_of(alloc, (&[Item::Sum(1)], &[], None))?;
    let mut partial = Partial::new(alloc, &schema, &query)?;
    let mut batch = Batch::new();
    for cells in groups {
        let packed = packed_cells(rt, alloc, cells)?;
        let done = add_codes(
            alloc,
            &mut partial,
            &schema,
            &query,
            &packed,
            None,
            &mut batch,
        )?;
        assert!(rt; done);
    }
    partial.result()
}

#[test]
fn sums_may_pass_their_range_on_the_way(rt: HostRuntime) -> Result<(), Fail> {
    for &(groups, sum) in &SUMS {
        let found = sum_by_codes(&rt, rt.alloc(), groups);
        assert!(rt; found == sum_of(rt.alloc(), sum), "{sum:?}");
    }
    Ok(())
}

/// Queries over a group of many cells, and whether they go by codes: not those with far more keys than rows, with a column that is
/// not there, and those that put no rows together.
static WAYS: [(Asked, bool); 5] = [
    ((ALL, &[0], None), true),
    ((BY_CELL, &[1], None), false),
    ((BY_BOTH, &[0, 1], None), false),
    ((&[Item::Sum(2)], &[], None), false),
    ((&[Item::CountAll], &[2], None), false),
];

/// Whether a query over a group goes by codes.
fn goes_by_codes(
    alloc: Global,
    schema: &Schema,
    packed: &Packed,
    asked: Asked,
) -> Result<bool, Memory> {
    let query = query_of(alloc, asked)?;
    let mut partial = Partial::new(alloc, schema, &query)?;
    add_codes(
        alloc,
        &mut partial,
        schema,
        &query,
        packed,
        None,
        &mut Batch::new(),
    )
}

/// Which queries over a group go by codes.
fn check_ways(
    rt: &impl Abort,
    alloc: Global,
    schema: &Schema,
    packed: &Packed,
) -> Result<(), Memory> {
    for &(asked, by_codes) in &WAYS {
        let found = goes_by_codes(alloc, schema, packed, asked)?;
        assert!(rt; found == by_codes, "{asked:?}");
    }
    Ok(())
}

#[test]
fn some_queries_go_by_rows(rt: HostRuntime) -> Result<(), Fail> {
    let alloc = rt.alloc();
    let case = CASES[3];
    assert!(rt; case.kind.is_valid());
    let packed = packed_of(&rt, alloc, &case, 63)?.ok_or("no group")?;
    let schema = table(alloc, case.kind)?;
    let outcome = check_ways(&rt, alloc, &schema, &packed);
    drop(schema);
    drop(packed);
    Ok(outcome?)
}
