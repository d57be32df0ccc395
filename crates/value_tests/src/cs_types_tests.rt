ghost use Rattle.std.specs.Prelude.{◌≡◌, IfOk};

use crate::made::{same, same_text};
use cs_base::{Items, Memory};
use cs_types::{
    Bytes, Column, ColumnType, FIRST_DAY, Key, LAST_DAY, Line, Loose, Row, Schema, Value,
    ValueRefusal, Version, compare, fits, key_of, loose_of, print_loose, print_number, print_value,
    read_date,
};
use std::alloc::Global;
use std::process::Abort;
use std::test::Fail;

/// The bytes of a text.
fn bytes(alloc: Global, text: &[u8]) -> Result<Bytes, Memory> {
    Ok(Items::from_vec(Vec::from_slice(alloc, text)?))
}

/// decimal(p, s).
fn decimal(p: u8, s: u8) -> ColumnType {
    ColumnType::Decimal { p, s }
}

/// Digits and scale of a decimal, a number and its scale, and what is kept, if it is in range. The expected values are
/// those of Python's decimal numbers, rounded half up.
static DECIMALS: [(u8, u8, i128, u8, Option<i64>); 25] = [
    (18, 2, 5, 3, Some(1)),
    (18, 2, -5, 3, Some(-1)),
    (18, 2, 49, 4, Some(0)),
    (18, 2, -49, 4, Some(0)),
    (18, 2, 1005, 3, Some(101)),
    (18, 2, -1015, 3, Some(-102)),
    (1, 1, 94, 2, Some(9)),
    (1, 1, 95, 2, None),
    (1, 1, -95, 2, None),
    (1, 0, 95, 1, None),
    (
        18,
        18,
        999_999_999_999_999_999,
        18,
        Some(999_999_999_999_999_999),
    ),
    (18, 18, 1, 0, None),
    (18, 18, 5, 19, Some(1)),
    (18, 18, -5, 19, Some(-1)),
    (
        18,
        0,
        999_999_999_999_999_999,
        0,
        Some(999_999_999_999_999_999),
    ),
    (18, 0, -1_000_000_000_000_000_000, 0, None),
    (
        18,
        0,
        9_999_999_999_999_999_994,
        1,
        Some(999_999_999_999_999_999),
    ),
    (18, 0, -9_999_999_999_999_999_995, 1, None),
    (
        18,
        1,
        -99_999_999_999_999_999_949,
        3,
        Some(-999_999_999_999_999_999),
    ),
    (1, 0, i128::MAX, 38, Some(2)),
    (1, 0, i128::MIN, 38, Some(-2)),
    (1, 0, i128::MIN, 39, Some(0)),
    (1, 0, i128::MAX, 255, Some(0)),
    (18, 18, i128::MAX, 0, None),
    (18, 18, i128::MIN, 56, Some(-2)),
];

/// An integer type with the numbers at both its ends.
static ENDS: [(ColumnType, i64, i64, ValueRefusal); 4] = [
    (ColumnType::TinyInt, 0, 255, ValueRefusal::Narrow),
    (ColumnType::SmallInt, -32_768, 32_767, ValueRefusal::Narrow),
    (
        ColumnType::Int,
        -2_147_483_648,
        2_147_483_647,
        ValueRefusal::Overflow,
    ),
    (
        ColumnType::BigInt,
        i64::MIN,
        i64::MAX,
        ValueRefusal::Overflow,
    ),
];

/// That a decimal column keeps this of a number.
fn check_decimal(rt: &impl Abort, kind: ColumnType, of: (i128, u8), expected: Option<i64>) {
    assert!(rt; kind.is_valid());
    let number = match expected {
        Some(number) => Ok(Value::Number(number)),
        None => Err(ValueRefusal::Overflow),
    };
    let kept = fits(kind, false, Loose::Number { m: of.0, s: of.1 });
    same(rt, &of, &kept, &number);
}

#[test]
fn decimals_fit(rt: HostRuntime) {
    for (p, places, m, s, expected) in &DECIMALS {
        check_decimal(&rt, decimal(*p, *places), (*m, *s), *expected);
    }
}

/// That a column of an integer type keeps this of a whole number.
fn check_whole(rt: &impl Abort, kind: ColumnType, m: i128, expected: Result<Value, ValueRefusal>) {
    assert!(rt; kind.is_valid());
    same(
        rt,
        &m,
        &fits(kind, false, Loose::Number { m, s: 0 }),
        &expected,
    );
}

#[test]
fn integers_fit(rt: HostRuntime) {
    for &(kind, least, greatest, refusal) in &ENDS {
        check_whole(&rt, kind, least as i128, Ok(Value::Number(least)));
        check_whole(&rt, kind, greatest as i128, Ok(Value::Number(greatest)));
        check_whole(&rt, kind, least as i128 - 1, Err(refusal));
        check_whole(&rt, kind, greatest as i128 + 1, Err(refusal));
    }
}

/// That a column of texts of three bytes keeps this.
fn check_text(
    rt: &impl Abort,
    nullable: bool,
    given: Loose,
    expected: Result<Value, ValueRefusal>,
) {
    let kind = ColumnType::VarChar { n: 3 };
    assert!(rt; kind.is_valid());
    same(rt, &nullable, &fits(kind, nullable, given), &expected);
}

#[test]
fn nulls_fit(rt: HostRuntime) {
    check_text(&rt, true, Loose::Null, Ok(Value::Null));
    check_text(&rt, false, Loose::Null, Err(ValueRefusal::NullHere));
}

#[test]
fn texts_fit(rt: HostRuntime) -> Result<(), Fail> {
    let alloc = rt.alloc();
    let kept = Value::Text(bytes(alloc, b"abc")?);
    check_text(&rt, false, Loose::Text(bytes(alloc, b"abc")?), Ok(kept));
    let refused = Err(ValueRefusal::TooLong);
    check_text(&rt, false, Loose::Text(bytes(alloc, b"abcd")?), refused);
    Ok(())
}

/// Texts and the days that they name; the numbers are those of Python's dates.
static DATES: [(&[u8], Option<i64>); 21] = [
    (b"0001-01-01", Some(-719_162)),
    (b"1900-02-28", Some(-25_509)),
    (b"1900-02-29", None),
    (b"1900-03-01", Some(-25_508)),
    (b"1969-12-31", Some(-1)),
    (b"1970-01-01", Some(0)),
    (b"20000229", Some(11_016)),
    (b"2023-02-29", None),
    (b"2023-12-31", Some(19_722)),
    (b"2024-02-29", Some(19_782)),
    (b"9999-12-31", Some(2_932_896)),
    (b"0000-12-31", None),
    (b"2024-00-10", None),
    (b"2024-13-01", None),
    (b"2024-01-00", None),
    (b"2024-04-31", None),
    (b"2024-2-29", None),
    (b"2024/02/29", None),
    (b"2024-0229", None),
    (b"+024-02-29", None),
    (b"", None),
];

#[test]
fn dates_are_read(rt: HostRuntime) {
    for &(text, day) in &DATES {
        same(&rt, &text, &read_date(text), &day);
    }
}

/// Numbers, their scales and their texts.
static NUMBERS: [(i128, u8, &[u8]); 10] = [
    (0, 0, b"0"),
    (-1, 0, b"-1"),
    (0, 2, b"0.00"),
    (1999, 2, b"19.99"),
    (-5, 2, b"-0.05"),
    (-1, 18, b"-0.000000000000000001"),
    (-1_000_000_000_000_000_000, 18, b"-1.000000000000000000"),
    (i128::MIN, 0, b"-170141183460469231731687303715884105728"),
    (i128::MAX, 38, b"1.70141183460469231731687303715884105727"),
    (1, 39, b"0.000000000000000000000000000000000000001"),
];

#[test]
fn numbers_are_printed(rt: HostRuntime) -> Result<(), Fail> {
    for &(m, s, text) in &NUMBERS {
        let mut line = Line::new(rt.alloc());
        print_number(m, s, &mut line)?;
        same_text(&rt, line.as_slice(), text);
    }
    Ok(())
}

/// The text of a value; nothing for one that its column does not keep.
fn printed(alloc: Global, kind: ColumnType, value: &Value) -> Result<Line, Memory> {
    let mut line = Line::new(alloc);
    if kind.is_valid() && kind.keeps(value) {
        print_value(kind, value, &mut line)?;
    }
    Ok(line)
}

/// Types, numbers and their texts.
static CELLS: [(ColumnType, i64, &[u8]); 11] = [
    (ColumnType::TinyInt, 255, b"255"),
    (ColumnType::BigInt, i64::MIN, b"-9223372036854775808"),
    (ColumnType::Decimal { p: 10, s: 2 }, 11_999, b"119.99"),
    (
        ColumnType::Decimal { p: 18, s: 18 },
        -1,
        b"-0.000000000000000001",
    ),
    (ColumnType::Decimal { p: 18, s: 0 }, -1, b"-1"),
    (ColumnType::Date, FIRST_DAY, b"0001-01-01"),
    (ColumnType::Date, -25_508, b"1900-03-01"),
    (ColumnType::Date, 11_016, b"2000-02-29"),
    (ColumnType::Date, 19_722, b"2023-12-31"),
    (ColumnType::Date, 19_782, b"2024-02-29"),
    (ColumnType::Date, LAST_DAY, b"9999-12-31"),
];

#[test]
fn cells_are_printed(rt: HostRuntime) -> Result<(), Fail> {
    for &(kind, number, text) in &CELLS {
        let line = printed(rt.alloc(), kind, &Value::Number(number))?;
        same_text(&rt, line.as_slice(), text);
    }
    let null = printed(rt.alloc(), ColumnType::Date, &Value::Null)?;
    same_text(&rt, null.as_slice(), b"NULL");
    Ok(())
}

/// Texts, and the same in quotes.
static TEXTS: [(&[u8], &[u8]); 4] = [
    (b"", b"''"),
    (b"north", b"'north'"),
    (b"'", b"''''"),
    (b"it's 'so'", b"'it''s ''so'''"),
];

#[test]
fn texts_are_printed(rt: HostRuntime) -> Result<(), Fail> {
    for &(text, quoted) in &TEXTS {
        let value = Value::Text(bytes(rt.alloc(), text)?);
        let line = printed(rt.alloc(), ColumnType::VarChar { n: 20 }, &value)?;
        same_text(&rt, line.as_slice(), quoted);
    }
    Ok(())
}

#[test]
fn loose_values_are_printed(rt: HostRuntime) -> Result<(), Fail> {
    let mut line = Line::new(rt.alloc());
    print_loose(&Loose::Number { m: -5, s: 1 }, &mut line)?;
    print_loose(&Loose::Text(bytes(rt.alloc(), b"a'b")?), &mut line)?;
    print_loose(&Loose::Null, &mut line)?;
    same_text(&rt, line.as_slice(), b"-0.5'a''b'NULL");
    let loose = loose_of(decimal(3, 1), &Value::Number(25))?;
    same(&rt, &"a decimal", &loose, &Loose::Number { m: 25, s: 1 });
    let day = loose_of(ColumnType::Date, &Value::Number(25))?;
    same(&rt, &"a day", &day, &Loose::Day(25));
    Ok(())
}

#[test]
fn lines_grow(rt: HostRuntime) -> Result<(), Fail> {
    let mut line = Line::new(rt.alloc());
    line.append(b"n ")?;
    line.append_number(u64::MAX)?;
    line.push(b'!')?;
    let whole = line.copy()?.into_bytes();
    same_text(&rt, whole.as_slice(), b"n 18446744073709551615!");
    line.truncate(1);
    same_text(&rt, line.into_vec().as_slice(), b"n");
    Ok(())
}

/// Values in their order.
fn ascending(alloc: Global) -> Result<Vec<Value>, Memory> {
    let mut values = Vec::new(alloc);
    values.push(Value::Null)?;
    for &number in &[i64::MIN, -1, 0, i64::MAX] {
        values.push(Value::Number(number))?;
    }
    for &text in &[b"".as_slice(), b" ", b"Z", b"a", b"aa", b"b", b"~"] {
        values.push(Value::Text(bytes(alloc, text)?))?;
    }
    Ok(values)
}

#[test]
fn values_are_ordered(rt: HostRuntime) -> Result<(), Fail> {
    let values = ascending(rt.alloc())?;
    for (i, a) in values.iter().enumerate() {
        for (j, b) in values.iter().enumerate() {
            same(&rt, &(a, b), &compare(a, b), &i.cmp(&j));
        }
        same(&rt, &"a copy", &a.copy()?, a);
    }
    Ok(())
}

#[test]
fn rows_have_cells(rt: HostRuntime) -> Result<(), Fail> {
    let mut row = Row::new(rt.alloc());
    for &number in &[7, 8, 9, 10, 11] {
        same(&rt, &number, row.cell(row.len()), &Value::Null);
        row.push(Value::Number(number))?;
    }
    same(&rt, &"the last cell", row.cell(4), &Value::Number(11));
    let again = Row::from_vec(row.copy()?.into_vec()?);
    let version = Version {
        row,
        begin: 3,
        end: Some(4),
    };
    same(&rt, &"a version", &version.copy()?.row, &again);
    Ok(())
}

/// A table t with the columns v and k, k its key.
fn table(alloc: Global) -> Result<Schema, Memory>
    ensures { IfOk result (λ schema. schema.key ≡ 1) }
{
    let mut columns = Items::new(alloc);
    for &name in &[b"v".as_slice(), b"k"] {
        columns.push(Column {
            name: bytes(alloc, name)?,
            kind: ColumnType::BigInt,
            nullable: false,
        })?;
    }
    Ok(Schema {
        name: bytes(alloc, b"t")?,
        columns,
        key: 1,
    })
}

#[test]
fn keys_are_found(rt: HostRuntime) -> Result<(), Fail> {
    let schema = table(rt.alloc())?;
    same(&rt, &"a copy", &schema.copy()?, &schema);
    let mut row = Row::new(rt.alloc());
    row.push(Value::Number(7))?;
    row.push(Value::Number(-8))?;
    same(&rt, &"a row", &key_of(&schema, &row), &Key(-8));
    Ok(())
}

/// A cell that is taken out leaves NULL in its place, and past the end there is none.
#[test]
fn cells_are_taken_out(rt: HostRuntime) -> Result<(), Fail> {
    let mut row = Row::new(rt.alloc());
    row.push(Value::Number(7))?;
    row.push(Value::Number(8))?;
    same(&rt, &"the first cell", &row.take(0), &Value::Number(7));
    same(&rt, &"what it left", &row.take(0), &Value::Null);
    same(&rt, &"past the end", &row.take(2), &Value::Null);
    same(&rt, &"the last cell", row.cell(1), &Value::Number(8));
    Ok(())
}
