use crate::made::{column, list};
use batch_aggregate::{Partial, Tallies, answer};
use cs_base::{Items, Memory};
use cs_model::{AnswerRefusal, Item, Query};
use cs_types::{ColumnType, Loose, Row, Schema, Value};
use std::alloc::Global;
use std::process::Abort;
use std::test::Fail;

/// A table of the columns k, which is the key, and v, both of whole numbers of 32 bits.
fn numbers(alloc: Global) -> Result<Schema, Memory> {
    let mut columns = Items::new(alloc);
    columns.push(column(alloc, b'k', ColumnType::Int, true)?)?;
    columns.push(column(alloc, b'v', ColumnType::Int, true)?)?;
    Ok(Schema {
        name: Items::new(alloc),
        columns,
        key: 0,
    })
}

/// The rows of these keys and numbers, NULL for None.
fn rows(alloc: Global, cells: &[(i64, Option<i64>)]) -> Result<Items<Row>, Memory> {
    let mut rows = Items::new(alloc);
    for (key, number) in cells {
        let mut row = Row::new(alloc);
        row.push(Value::Number(*key))?;
        row.push(match *number {
            Some(number) => Value::Number(number),
            None => Value::Null,
        })?;
        rows.push(row)?;
    }
    Ok(rows)
}

/// A row of the answer with these numbers, NULL for None.
fn answer_row(alloc: Global, numbers: &[Option<i128>]) -> Result<Items<Loose>, Memory> {
    let mut row = Items::new(alloc);
    for number in numbers {
        row.push(match *number {
            Some(m) => Loose::Number { m, s: 0 },
            None => Loose::Null,
        })?;
    }
    Ok(row)
}

/// The rows of the answer with these numbers.
fn answer_rows(alloc: Global, numbers: &[&[Option<i128>]]) -> Result<Items<Items<Loose>>, Memory> {
    let mut rows = Items::new(alloc);
    for row in numbers {
        rows.push(answer_row(alloc, row)?)?;
    }
    Ok(rows)
}

/// A query over rows of a key and a number, and its answer.
struct Case {
    rows: &'static [(i64, Option<i64>)],
    items: &'static [Item],
    grouped: bool,
    groups: &'static [usize],
    order: &'static [(usize, bool)],
    answer: Result<&'static [&'static [Option<i128>]], AnswerRefusal>,
}

const GREATEST: i64 = 2_147_483_647;

static CASES: [Case; 10] = [
    Case {
        rows: &[],
        items: &[Item::CountAll, Item::Sum(1)],
        grouped: true,
        groups: &[],
        order: &[],
        answer: Ok(&[&[Some(0), None]]),
    },
    Case {
        rows: &[(1, Some(GREATEST)), (2, Some(1)), (3, Some(-1))],
        items: &[Item::Sum(1)],
        grouped: true,
        groups: &[],
        order: &[],
        answer: Ok(&[&[Some(2_147_483_647)]]),
    },
    Case {
        rows: &[(1, Some(GREATEST)), (2, Some(1))],
        items: &[Item::Max(1), Item::Sum(1)],
        grouped: true,
        groups: &[],
        order: &[],
        answer: Err(AnswerRefusal::Overflow { row: 1, column: 2 }),
    },
    Case {
        rows: &[(1, Some(-3)), (2, Some(0))],
        items: &[Item::Avg(1)],
        grouped: true,
        groups: &[],
        order: &[],
        answer: Ok(&[&[Some(-1)]]),
    },
    Case {
        rows: &[(1, None), (2, Some(4)), (3, Some(9))],
        items: &[Item::Count(1), Item::Min(1), Item::Max(1)],
        grouped: true,
        groups: &[],
        order: &[],
        answer: Ok(&[&[Some(2), Some(4), Some(9)]]),
    },
    Case {
        rows: &[(1, None), (2, Some(5)), (3, None), (4, Some(7))],
        items: &[Item::Column(1), Item::CountAll, Item::Min(0)],
        grouped: true,
        groups: &[1],
        order: &[(1, true)],
        answer: Ok(&[
            &[Some(7), Some(1), Some(4)],
            &[Some(5), Some(1), Some(2)],
            &[None, Some(2), Some(1)],
        ]),
    },
    Case {
        rows: &[(1, None), (GREATEST, Some(7)), (2, Some(7))],
        items: &[Item::Column(1), Item::Sum(0)],
        grouped: true,
        groups: &[1],
        order: &[],
        answer: Err(AnswerRefusal::Overflow { row: 2, column: 2 }),
    },
    Case {
        rows: &[(1, Some(4)), (2, None), (3, None)],
        items: &[Item::Count(1), Item::Min(1), Item::Max(1), Item::Sum(1)],
        grouped: true,
        groups: &[],
        order: &[],
        answer: Ok(&[&[Some(1), Some(4), Some(4), Some(4)]]),
    },
    Case {
        rows: &[(1, None), (1, Some(5)), (1, None), (2, Some(5))],
        items: &[
            Item::Column(0),
            Item::Column(1),
            Item::CountAll,
            Item::Avg(1),
        ],
        grouped: true,
        groups: &[0, 1],
        order: &[],
        answer: Ok(&[
            &[Some(1), None, Some(2), None],
            &[Some(1), Some(5), Some(1), Some(5)],
            &[Some(2), Some(5), Some(1), Some(5)],
        ]),
    },
    Case {
        rows: &[(1, Some(5)), (2, None), (3, Some(5))],
        items: &[Item::Column(0), Item::Column(1)],
        grouped: false,
        groups: &[],
        order: &[(1, false)],
        answer: Ok(&[&[Some(2), None], &[Some(1), Some(5)], &[Some(3), Some(5)]]),
    },
];

/// The query of a case.
fn query_of(alloc: Global, case: &Case) -> Result<Query, Memory> {
    Ok(Query {
        items: list(alloc, case.items)?,
        filter: None,
        groups: list(alloc, case.groups)?,
        grouped: case.grouped,
        order: list(alloc, case.order)?,
    })
}

/// The answer of a case.
fn answer_of(alloc: Global, case: &Case) -> Result<Items<Items<Loose>>, AnswerRefusal> {
    match case.answer {
        Ok(numbers) => Ok(answer_rows(alloc, numbers)?),
        Err(refusal) => Err(refusal),
    }
}

/// The answer over so many rows and over the others, each in a partial answer of its own.
fn answer_in_parts(
    alloc: Global,
    schema: &Schema,
    query: &Query,
    rows: &[Row],
    count: usize,
) -> Result<Items<Items<Loose>>, AnswerRefusal> {
    let mut first = Partial::new(alloc, schema, query)?;
    let mut second = Partial::new(alloc, schema, query)?;
    for (place, row) in rows.iter().enumerate() {
        if place < count {
            first.add(row)?;
        } else {
            second.add(row)?;
        }
    }
    first.merge(second)?;
    first.result()
}

/// The answer over rows that come in as groups of one row.
fn answer_by_groups(
    alloc: Global,
    schema: &Schema,
    query: &Query,
    rows: &[Row],
) -> Result<Items<Items<Loose>>, AnswerRefusal> {
    let mut partial = Partial::new(alloc, schema, query)?;
    for row in rows {
        let mut tallies = Tallies::new(alloc, query.items.as_slice())?;
        tallies.add(query.items.as_slice(), row)?;
        let mut cells = Row::new(alloc);
        for column in query.groups.as_slice() {
            cells.push(row.cell(*column).copy()?)?;
        }
        partial.add_group(cells, tallies)?;
    }
    partial.result()
}

/// That the answer of a case is the wanted one over its rows, over two parts of them, and over rows that come in as groups.
fn check_case(
    rt: &impl Abort,
    alloc: Global,
    schema: &Schema,
    case: &Case,
    place: usize,
) -> Result<(), Memory> {
    let query = query_of(alloc, case)?;
    let given = rows(alloc, case.rows)?;
    let rows = given.as_slice();
    let wanted = answer_of(alloc, case);
    assert!(rt;
        answer(alloc, schema, &query, rows) == wanted,
        "case {place}"
    );
    for count in 0..5 {
        let found = answer_in_parts(alloc, schema, &query, rows, count);
        assert!(rt; found == wanted, "case {place} from {count}");
    }
    if case.grouped {
        let found = answer_by_groups(alloc, schema, &query, rows);
        assert!(rt; found == wanted, "case {place} by groups");
    }
    Ok(())
}

#[test]
fn queries_are_answered(rt: HostRuntime) -> Result<(), Fail> {
    let schema = numbers(rt.alloc())?;
    for (place, case) in CASES.iter().enumerate() {
        check_case(&rt, rt.alloc(), &schema, case, place)?;
    }
    Ok(())
}
