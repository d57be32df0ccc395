use crate::made::{column, list};
use batch_filter::filter_batch;
use column_segment::Batch;
use cs_base::{Boxed, Items, Memory};
use cs_model::{Operand, Pred, Relation};
use cs_types::{ColumnType, Loose, Schema, Value};
use std::alloc::Global;
use std::process::Abort;
use std::test::Fail;

/// The cells of four rows in the columns n int, t varchar(8) and d decimal(5, 2); the fifth row is like the first.
const NUMBERS: [Option<i64>; 4] = [None, Some(-5), Some(7), Some(9)];

static TEXTS: [Option<&[u8]>; 4] = [Some(b""), Some(b"ab"), None, Some(b"b")];

const DECIMALS: [Option<i64>; 4] = [Some(100), Some(-500), Some(701), None];

/// How many rows a batch has.
static COUNTS: [usize; 5] = [0, 1, 3, 1_023, 1_024];

/// A predicate of one part.
#[derive(Clone, Copy)]
enum Form {
    /// n and a number.
    Number(Relation, i128),
    /// t and a text.
    Text(Relation, &'static [u8]),
    /// n and NULL.
    Nothing(Relation),
    /// n and d.
    Beside(Relation),
    /// A number and another one.
    Constant(i128, i128),
    /// n and two numbers.
    Between(bool, i128, i128),
    /// t and two texts, or a text and NULL.
    Among(bool, &'static [u8], Option<&'static [u8]>),
    /// t and a pattern.
    Like(bool, &'static [u8]),
    /// t.
    IsNull(bool),
}

/// How parts make a predicate.
#[derive(Clone, Copy)]
enum Case {
    One(Form),
    Not(Form),
    And(Form, Form),
    Or(Form, Form),
}

/// Predicates, and of which of the four rows each is True.
static CASES: [(Case, [bool; 4]); 24] = [
    (
        Case::One(Form::Number(Relation::Equal, 7)),
        [false, false, true, false],
    ),
    (
        Case::One(Form::Number(Relation::NotEqual, 7)),
        [false, true, false, true],
    ),
    (
        Case::One(Form::Number(Relation::Less, 7)),
        [false, true, false, false],
    ),
    (
        Case::One(Form::Number(Relation::LessEqual, 7)),
        [false, true, true, false],
    ),
    (
        Case::One(Form::Number(Relation::Greater, 7)),
        [false, false, false, true],
    ),
    (
        Case::One(Form::Number(Relation::GreaterEqual, 7)),
        [false, false, true, true],
    ),
    (
        Case::One(Form::Text(Relation::Equal, b"ab")),
        [false, true, false, false],
    ),
    (
        Case::One(Form::Text(Relation::Less, b"b")),
        [true, true, false, false],
    ),
    (
        Case::One(Form::Nothing(Relation::NotEqual)),
        [false, false, false, false],
    ),
    (
        Case::One(Form::Beside(Relation::Equal)),
        [false, true, false, false],
    ),
    (
        Case::One(Form::Beside(Relation::Less)),
        [false, false, true, false],
    ),
    (Case::One(Form::Constant(1, 1)), [true, true, true, true]),
    (
        Case::One(Form::Constant(1, 2)),
        [false, false, false, false],
    ),
    (
        Case::One(Form::Between(false, -5, 7)),
        [false, true, true, false],
    ),
    (
        Case::One(Form::Between(true, -5, 7)),
        [false, false, false, true],
    ),
    (
        Case::One(Form::Among(false, b"", Some(b"b"))),
        [true, false, false, true],
    ),
    (
        Case::One(Form::Among(true, b"", None)),
        [false, false, false, false],
    ),
    (
        Case::One(Form::Like(false, b"a%")),
        [false, true, false, false],
    ),
    (
        Case::One(Form::Like(true, b"a%")),
        [true, false, false, true],
    ),
    (Case::One(Form::IsNull(false)), [false, false, true, false]),
    (Case::One(Form::IsNull(true)), [true, true, false, true]),
    (
        Case::Not(Form::Number(Relation::Equal, 7)),
        [false, true, false, true],
    ),
    (
        Case::And(Form::Number(Relation::Less, 9), Form::IsNull(true)),
        [false, true, false, false],
    ),
    (
        Case::Or(
            Form::Number(Relation::Greater, 7),
            Form::Text(Relation::Equal, b""),
        ),
        [true, false, false, true],
    ),
];

fn number_cell(number: Option<i64>) -> Value {
    match number {
        Some(number) => Value::Number(number),
        None => Value::Null,
    }
}

fn text_cell(alloc: Global, text: Option<&[u8]>) -> Result<Value, Memory> {
    match text {
        Some(text) => Ok(Value::Text(list(alloc, text)?)),
        None => Ok(Value::Null),
    }
}

fn text_constant(alloc: Global, text: Option<&[u8]>) -> Result<Loose, Memory> {
    match text {
        Some(text) => Ok(Loose::Text(list(alloc, text)?)),
        None => Ok(Loose::Null),
    }
}

fn number_constant(m: i128) -> Loose {
    Loose::Number { m, s: 0 }
}

fn table(alloc: Global) -> Result<Schema, Memory> {
    let mut columns = Items::new(alloc);
    columns.push(column(alloc, b'n', ColumnType::Int, true)?)?;
    columns.push(column(alloc, b't', ColumnType::VarChar { n: 8 }, true)?)?;
    columns.push(column(alloc, b'd', ColumnType::Decimal { p: 5, s: 2 }, true)?)?;
    Ok(Schema {
        name: Items::new(alloc),
        columns,
        key: 0,
    })
}

fn numbers_of(alloc: Global, cells: [Option<i64>; 4], count: usize) -> Result<Batch, Memory> {
    let mut batch = Items::new(alloc);
    for i in 0..count {
        batch.push(number_cell(cells[i % 4]))?;
    }
    Ok(batch)
}

fn texts_of(alloc: Global, count: usize) -> Result<Batch, Memory> {
    let mut batch = Items::new(alloc);
    for i in 0..count {
        batch.push(text_cell(alloc, TEXTS[i % 4])?)?;
    }
    Ok(batch)
}

/// The first rows of the table, in a batch for each column.
fn batches_of(alloc: Global, count: usize) -> Result<Items<Batch>, Memory> {
    let mut columns = Items::new(alloc);
    columns.push(numbers_of(alloc, NUMBERS, count)?)?;
    columns.push(texts_of(alloc, count)?)?;
    columns.push(numbers_of(alloc, DECIMALS, count)?)?;
    Ok(columns)
}

fn compared(left: Operand, sign: Relation, right: Operand) -> Pred {
    Pred::Compare { left, sign, right }
}

fn two_texts(alloc: Global, first: &[u8], second: Option<&[u8]>) -> Result<Items<Loose>, Memory> {
    let mut list = Items::new(alloc);
    list.push(text_constant(alloc, Some(first))?)?;
    list.push(text_constant(alloc, second)?)?;
    Ok(list)
}

fn pred_of(alloc: Global, form: Form) -> Result<Pred, Memory> {
    let number = Operand::Column(0);
    match form {
        Form::Number(sign, m) => Ok(compared(number, sign, Operand::Constant(number_constant(m)))),
        Form::Text(sign, text) => Ok(compared(
            Operand::Column(1),
            sign,
            Operand::Constant(text_constant(alloc, Some(text))?),
        )),
        Form::Nothing(sign) => Ok(compared(number, sign, Operand::Constant(Loose::Null))),
        Form::Beside(sign) => Ok(compared(number, sign, Operand::Column(2))),
        Form::Constant(left, right) => Ok(compared(
            Operand::Constant(number_constant(left)),
            Relation::Equal,
            Operand::Constant(number_constant(right)),
        )),
        Form::Between(negated, low, high) => Ok(Pred::Between {
            column: 0,
            negated,
            low: number_constant(low),
            high: number_constant(high),
        }),
        Form::Among(negated, first, second) => Ok(Pred::Among {
            column: 1,
            negated,
            list: two_texts(alloc, first, second)?,
        }),
        Form::Like(negated, pattern) => Ok(Pred::Like {
            column: 1,
            negated,
            pattern: list(alloc, pattern)?,
        }),
        Form::IsNull(negated) => Ok(Pred::IsNull { column: 1, negated }),
    }
}

fn two_parts(alloc: Global, first: Form, second: Form) -> Result<Items<Pred>, Memory> {
    let mut parts = Items::new(alloc);
    parts.push(pred_of(alloc, first)?)?;
    parts.push(pred_of(alloc, second)?)?;
    Ok(parts)
}

fn pred_of_case(alloc: Global, case: Case) -> Result<Pred, Memory> {
    match case {
        Case::One(form) => pred_of(alloc, form),
        Case::Not(form) => Ok(Pred::Not(Boxed::new(alloc, pred_of(alloc, form)?)?)),
        Case::And(first, second) => Ok(Pred::AllOf(two_parts(alloc, first, second)?)),
        Case::Or(first, second) => Ok(Pred::AnyOf(two_parts(alloc, first, second)?)),
    }
}

/// The mask of the first rows, of which each four are wanted like the first ones.
fn wanted_mask(wanted: [bool; 4], count: usize) -> [bool; 1024] {
    let mut mask = [false; 1024];
    for i in 0..1024 {
        mask[i] = i < count && wanted[i % 4];
    }
    mask
}

/// Each predicate over so many rows. Each place of the mask is true before.
fn check_count(
    rt: &impl Abort,
    alloc: Global,
    schema: &Schema,
    count: usize,
) -> Result<(), Memory> {
    let columns = batches_of(alloc, count)?;
    for (place, (case, wanted)) in CASES.iter().enumerate() {
        let pred = pred_of_case(alloc, *case)?;
        let mut mask = [true; 1024];
        filter_batch(&pred, schema, columns.as_slice(), &mut mask);
        // What is let go by a call has a short proof, and what is let go at the end of its scope a long one.
        drop(pred);
        assert!(rt;
            mask == wanted_mask(*wanted, count),
            "case {place} over {count} rows"
        );
    }
    Ok(())
}

#[test]
fn rows_of_batches_are_kept(rt: HostRuntime) -> Result<(), Fail> {
    let alloc = rt.alloc();
    let schema = table(alloc)?;
    for &count in &COUNTS {
        check_count(&rt, alloc, &schema, count)?;
    }
    Ok(())
}

/// A predicate on t alone needs no other batch, whatever it has.
#[test]
fn other_batches_are_not_needed(rt: HostRuntime) -> Result<(), Fail> {
    let alloc = rt.alloc();
    let schema = table(alloc)?;
    let mut columns = Items::new(alloc);
    columns.push(Items::new(alloc))?;
    columns.push(texts_of(alloc, 6)?)?;
    columns.push(numbers_of(alloc, DECIMALS, 9)?)?;
    let pred = pred_of(alloc, Form::IsNull(true))?;
    let mut mask = [true; 1024];
    filter_batch(&pred, &schema, columns.as_slice(), &mut mask);
    assert!(rt; mask == wanted_mask([true, true, false, true], 6));
    Ok(())
}
