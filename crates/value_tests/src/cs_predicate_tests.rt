use crate::made::same;
use cs_base::{Boxed, Items, Memory};
use cs_model::{Expr, ExprRefusal, Operand, Pred, Relation, Times, Truth};
use cs_predicate::{compute, is_like, truth};
use cs_types::{Column, ColumnType, Loose, Row, Schema, Value};
use std::alloc::Global;
use std::process::Abort;
use std::test::Fail;

/// The whole number, or NULL for None.
fn whole(number: Option<i128>) -> Loose {
    match number {
        Some(m) => Loose::Number { m, s: 0 },
        None => Loose::Null,
    }
}

/// A product, a quotient or a remainder of two literals.
fn product(
    alloc: Global,
    left: Option<i128>,
    times: Times,
    right: Option<i128>,
) -> Result<Expr, Memory> {
    let mut rest = Items::new(alloc);
    rest.push((times, Expr::Constant(whole(right))))?;
    Ok(Expr::Product {
        first: Boxed::new(alloc, Expr::Constant(whole(left)))?,
        rest,
    })
}

/// NULL and a further part.
fn null_and(alloc: Global, part: Expr) -> Result<Expr, Memory> {
    let mut rest = Items::new(alloc);
    rest.push((false, part))?;
    Ok(Expr::Sum {
        first: Boxed::new(alloc, Expr::Constant(Loose::Null))?,
        rest,
    })
}

/// A table of one column d decimal(5, 2).
fn decimals(alloc: Global) -> Result<Schema, Memory> {
    let mut name = Items::new(alloc);
    name.push(b'd')?;
    let mut columns = Items::new(alloc);
    columns.push(Column {
        name,
        kind: ColumnType::Decimal { p: 5, s: 2 },
        nullable: true,
    })?;
    Ok(Schema {
        name: Items::new(alloc),
        columns,
        key: 0,
    })
}

/// The row of 1.50.
fn one_and_a_half(alloc: Global) -> Result<Row, Memory> {
    let mut row = Row::new(alloc);
    row.push(Value::Number(150))?;
    Ok(row)
}

const LEAST: i128 = -9_223_372_036_854_775_808;

/// Two sides and an operation, with the value that SQL Server gives.
static PRODUCTS: [(
    Option<i128>,
    Times,
    Option<i128>,
    Result<Option<i128>, ExprRefusal>,
); 7] = [
    (Some(-7), Times::Divide, Some(2), Ok(Some(-3))),
    (Some(-7), Times::Remainder, Some(2), Ok(Some(-1))),
    (Some(7), Times::Remainder, Some(-2), Ok(Some(1))),
    (
        Some(LEAST),
        Times::Divide,
        Some(-1),
        Err(ExprRefusal::Overflow),
    ),
    (
        Some(1),
        Times::Remainder,
        Some(0),
        Err(ExprRefusal::ZeroDivisor),
    ),
    (None, Times::Divide, Some(0), Ok(None)),
    (
        Some(4_000_000_000),
        Times::Multiply,
        Some(4_000_000_000),
        Err(ExprRefusal::Overflow),
    ),
];

/// That each product has its value, at a row that they don't read.
fn check_products(
    rt: &impl Abort,
    alloc: Global,
    schema: &Schema,
    row: &Row,
) -> Result<(), Memory> {
    for &(left, times, right, expected) in &PRODUCTS {
        let expr = product(alloc, left, times, right)?;
        let computed = compute(&expr, row, schema);
        // What is let go by a call has a short proof, and what is let go at the end of its scope a long one.
        drop(expr);
        same(rt, &(left, times, right), &computed, &expected.map(whole));
    }
    Ok(())
}

#[test]
fn products_are_computed(rt: HostRuntime) -> Result<(), Fail> {
    let alloc = rt.alloc();
    let schema = decimals(alloc)?;
    let row = one_and_a_half(alloc)?;
    check_products(&rt, alloc, &schema, &row)?;
    let expr = null_and(alloc, product(alloc, Some(1), Times::Divide, Some(0))?)?;
    let computed = compute(&expr, &row, &schema);
    drop(expr);
    let expected = Err(ExprRefusal::ZeroDivisor);
    same(&rt, &"NULL and a part", &computed, &expected);
    Ok(())
}

/// Patterns and texts.
static LIKES: [(&[u8], &[u8], bool); 8] = [
    (b"", b"", true),
    (b"%", b"", true),
    (b"_", b"", false),
    (b"a%c", b"abbc", true),
    (b"a_c", b"abbc", false),
    (b"%ab%ab", b"abaab", true),
    (b"%ab%ab", b"abba", false),
    (b"A%", b"ab", false),
];

#[test]
fn texts_are_like_patterns(rt: HostRuntime) {
    for &(pattern, text, expected) in &LIKES {
        same(&rt, &(pattern, text), &is_like(pattern, text), &expected);
    }
}

/// A comparison of 1.50 with a number and its scale, or with NULL for None.
static COMPARISONS: [(Relation, Option<(i128, u8)>, Truth); 6] = [
    (Relation::Equal, Some((15, 1)), Truth::True),
    (Relation::Less, Some((1_501, 3)), Truth::True),
    (Relation::GreaterEqual, Some((2, 0)), Truth::False),
    (Relation::Less, Some((i128::MAX, 0)), Truth::True),
    (Relation::Greater, Some((1, 255)), Truth::True),
    (Relation::NotEqual, None, Truth::Unknown),
];

/// A literal, or NULL for None.
fn literal(number: Option<(i128, u8)>) -> Loose {
    match number {
        Some((m, s)) => Loose::Number { m, s },
        None => Loose::Null,
    }
}

#[test]
fn comparisons_have_three_truths(rt: HostRuntime) -> Result<(), Fail> {
    let alloc = rt.alloc();
    let schema = decimals(alloc)?;
    let row = one_and_a_half(alloc)?;
    for &(sign, number, expected) in &COMPARISONS {
        let pred = Pred::Compare {
            left: Operand::Column(0),
            sign,
            right: Operand::Constant(literal(number)),
        };
        let found = truth(&pred, &row, &schema);
        drop(pred);
        same(&rt, &(sign, number), &found, &expected);
    }
    Ok(())
}
