use crate::made::{column, list, table};
use batch_compute::{series_cell, series_columns};
use cs_base::{Boxed, Items, Memory};
use cs_model::{Expr, InsertPlan, Times};
use cs_types::{ColumnType, Loose};
use std::alloc::Global;
use std::test::Fail;

/// What the second column is given over a number of a series.
#[derive(Clone, Copy, Debug)]
enum Given {
    /// Nothing.
    Nothing,
    /// NULL.
    Null,
    /// Half of 1.
    Half,
    /// A text.
    Text,
    /// The number.
    Number,
    /// The number with the other sign.
    Negated,
    /// The number and another one; `true` is minus.
    Sum(bool, i128),
    /// The number times, by, or modulo another one.
    Product(Times, i128),
    /// The number and NULL.
    AndNull,
}

/// A sum of the number and a literal.
fn sum(alloc: Global, minus: bool, literal: Loose) -> Result<Expr, Memory> {
    let mut rest = Items::new(alloc);
    rest.push((minus, Expr::Constant(literal)))?;
    Ok(Expr::Sum {
        first: Boxed::new(alloc, Expr::Column(0))?,
        rest,
    })
}

/// A product, a quotient or a remainder of the number and another one.
fn product(alloc: Global, times: Times, m: i128) -> Result<Expr, Memory> {
    let mut rest = Items::new(alloc);
    rest.push((times, Expr::Constant(Loose::Number { m, s: 0 })))?;
    Ok(Expr::Product {
        first: Boxed::new(alloc, Expr::Column(0))?,
        rest,
    })
}

/// The expression that is given.
fn expr_of(alloc: Global, given: Given) -> Result<Expr, Memory> {
    match given {
        Given::Nothing | Given::Null => Ok(Expr::Constant(Loose::Null)),
        Given::Half => Ok(Expr::Constant(Loose::Number { m: 5, s: 1 })),
        Given::Text => Ok(Expr::Constant(Loose::Text(list(alloc, b"a")?))),
        Given::Number => Ok(Expr::Column(0)),
        Given::Negated => Ok(Expr::Signed {
            minus: true,
            part: Boxed::new(alloc, Expr::Column(0))?,
        }),
        Given::Sum(minus, m) => sum(alloc, minus, Loose::Number { m, s: 0 }),
        Given::Product(times, m) => product(alloc, times, m),
        Given::AndNull => sum(alloc, false, Loose::Null),
    }
}

/// `INSERT INTO t (v, k) SELECT GIVEN, value FROM GENERATE_SERIES(START, STOP)`, or without v where it is given nothing.
fn plan_of(alloc: Global, start: i64, stop: i64, given: Given) -> Result<InsertPlan, Memory> {
    let mut columns = Items::new(alloc);
    let mut exprs = Items::new(alloc);
    if !matches!(given, Given::Nothing) {
        columns.push(1)?;
        exprs.push(expr_of(alloc, given)?)?;
    }
    columns.push(0)?;
    exprs.push(Expr::Column(0))?;
    let mut rows = Items::new(alloc);
    rows.push(exprs)?;
    Ok(InsertPlan {
        columns,
        rows,
        series: Some((start, stop)),
    })
}

/// The cells of a column, where columns were made.
fn cells_of(made: &Option<Vec<Vec<Option<i64>>>>, column: usize) -> Option<&[Option<i64>]> {
    match made {
        Some(columns) => match columns.get(column) {
            Some(cells) => Some(cells.as_slice()),
            None => None,
        },
        None => None,
    }
}

/// The type of the second column, a series, what the column is given, and its cells, or None where it declines.
static CASES: [(
    ColumnType,
    (i64, i64),
    Given,
    Option<&'static [Option<i64>]>,
); 21] = [
    (
        ColumnType::Int,
        (1, 2),
        Given::Sum(false, 10),
        Some(&[Some(11), Some(12)]),
    ),
    (
        ColumnType::Int,
        (1, 2),
        Given::Sum(true, 10),
        Some(&[Some(-9), Some(-8)]),
    ),
    (
        ColumnType::Int,
        (-3, -1),
        Given::Negated,
        Some(&[Some(3), Some(2), Some(1)]),
    ),
    (
        ColumnType::Int,
        (-3, -2),
        Given::Product(Times::Multiply, 7),
        Some(&[Some(-21), Some(-14)]),
    ),
    (
        ColumnType::Int,
        (-3, -2),
        Given::Product(Times::Divide, 2),
        Some(&[Some(-1), Some(-1)]),
    ),
    (
        ColumnType::Int,
        (-3, -2),
        Given::Product(Times::Remainder, 2),
        Some(&[Some(-1), Some(0)]),
    ),
    (ColumnType::Int, (2, 1), Given::Number, Some(&[])),
    (ColumnType::Int, (1, 2), Given::Nothing, Some(&[None, None])),
    (ColumnType::Int, (1, 2), Given::Null, Some(&[None, None])),
    (
        ColumnType::TinyInt,
        (254, 255),
        Given::Number,
        Some(&[Some(254), Some(255)]),
    ),
    (
        ColumnType::Decimal { p: 5, s: 2 },
        (998, 999),
        Given::Number,
        Some(&[Some(99_800), Some(99_900)]),
    ),
    (
        ColumnType::BigInt,
        (i64::MAX - 1, i64::MAX),
        Given::Number,
        Some(&[Some(i64::MAX - 1), Some(i64::MAX)]),
    ),
    (
        ColumnType::BigInt,
        (i64::MAX - 1, i64::MAX),
        Given::Sum(false, 1),
        None,
    ),
    (
        ColumnType::BigInt,
        (i64::MIN, i64::MAX),
        Given::Number,
        None,
    ),
    (ColumnType::TinyInt, (255, 256), Given::Number, None),
    (
        ColumnType::Decimal { p: 5, s: 2 },
        (999, 1_000),
        Given::Number,
        None,
    ),
    (
        ColumnType::Int,
        (1, 2),
        Given::Product(Times::Divide, 0),
        None,
    ),
    (ColumnType::Int, (1, 2), Given::Half, None),
    (ColumnType::Int, (1, 2), Given::AndNull, None),
    (ColumnType::VarChar { n: 1 }, (1, 2), Given::Text, None),
    (ColumnType::Int, (1, 16_777_217), Given::Number, None),
];

#[test]
fn series_are_columns(rt: HostRuntime) -> Result<(), Fail> {
    let alloc = rt.alloc();
    for &(kind, (start, stop), given, expected) in &CASES {
        assert!(rt; kind.is_valid());
        let schema = table(alloc, kind)?;
        let plan = plan_of(alloc, start, stop, given)?;
        let made = series_columns(alloc, &schema, &plan)?;
        assert!(rt;
            cells_of(&made, 1) == expected,
            "{kind:?} {given:?} from {start}"
        );
    }
    Ok(())
}

/// What the second column is given, where it is given anything.
fn given_of(alloc: Global, given: Given) -> Result<Option<Expr>, Memory> {
    match given {
        Given::Nothing => Ok(None),
        _ => Ok(Some(expr_of(alloc, given)?)),
    }
}

/// The cells one by one are those of the columns.
#[test]
fn cells_are_those_of_the_columns(rt: HostRuntime) -> Result<(), Fail> {
    let alloc = rt.alloc();
    for &(kind, (start, _), given, expected) in &CASES {
        assert!(rt; kind.is_valid());
        let column = column(alloc, b'v', kind, true)?;
        let expr = given_of(alloc, given)?;
        for (i, cell) in expected.unwrap_or(&[]).iter().enumerate() {
            let number = start.saturating_add(i as i64);
            assert!(rt;
                series_cell(&column, expr.as_ref(), number) == Some(*cell),
                "{kind:?} {given:?} over {number}"
            );
        }
    }
    Ok(())
}

/// A series that is longer than the pieces in which its columns are made.
#[test]
fn long_series_are_columns(rt: HostRuntime) -> Result<(), Fail> {
    let alloc = rt.alloc();
    let schema = table(alloc, ColumnType::Int)?;
    let plan = plan_of(alloc, -1_000, 1_500, Given::Sum(false, 10))?;
    let mut expected = Vec::with_capacity(alloc, 2_501)?;
    for cell in -990..1_511 {
        expected.push(Some(cell))?;
    }
    let made = series_columns(alloc, &schema, &plan)?;
    assert!(rt; cells_of(&made, 1) == Some(expected.as_slice()));
    Ok(())
}

/// The key takes the numbers, and may not be NULL.
#[test]
fn keys_are_the_numbers(rt: HostRuntime) -> Result<(), Fail> {
    let alloc = rt.alloc();
    let schema = table(alloc, ColumnType::Int)?;
    let mut plan = plan_of(alloc, -1, 1, Given::Null)?;
    let made = series_columns(alloc, &schema, &plan)?;
    let keys: &[Option<i64>] = &[Some(-1), Some(0), Some(1)];
    assert!(rt; cells_of(&made, 0) == Some(keys));
    plan.columns = Items::new(alloc);
    assert!(rt; series_columns(alloc, &schema, &plan)?.is_none());
    plan.series = None;
    assert!(rt; series_columns(alloc, &schema, &plan)?.is_none());
    Ok(())
}
