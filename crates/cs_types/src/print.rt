ghost use Rattle.std.specs.Prelude.{◌≡◌, ◌+◌, ◌/◌, ◌%◌, ◌^◌, ◌++◌, ◌<◌, ◌≤◌, ◌≤ℤ◌, pos, length, take, replicate, IsTrue, IfOk, OnOk, OnErr};
ghost use Rattle.jiff_core.specs.Date.{epoch_day};
ghost use Rattle.cs_types.specs.Calendar.{first_day, last_day};
ghost use Rattle.cs_types.specs.Kinds.{is_between, keeps};
ghost use Rattle.cs_types.specs.Text as spec;
ghost use Rattle.cs_types.specs.Text.{number_text, padded_decimal, civil_text, day_text, quoted_text, loose_text, value_text, IsPrintable};

use crate::fit::power;
use crate::{ColumnType, Line, Loose, Value};
use cs_base::Memory;
use itoa::Buffer;
use jiff_core::civil::Date;

/// As many zeros as a scale can ask for.
const ZEROS: [u8; 255] = [b'0'; 255];

/// So many zeros.
fn zeros(count: usize) -> &'static [u8]
    requires { count ≤ 255 }
    ensures { result.now ≡ replicate count 48 }
{
    &ZEROS[..count]
}

/// The whole part and the rest of a size with `s` places.
fn split(size: u128, s: u8) -> (u128, u128)
    ensures whole { result.0 ≡ size / 10 ^ s }
    ensures rest { result.1 ≡ size % 10 ^ s }
{
    if s <= 38 {
        let power = power(s);
        (size / power, size % power)
    } else {
        (0, size)
    }
}

/// Appends a whole number.
fn print_whole(m: i128, line: &mut Line) -> Result<(), Memory>
    ensures ok { OnOk result (line.new ≡ line.old ++ number_text m 0) }
    ensures err { OnErr result (line.new ≡ line.old) }
{
    let mut buffer = Buffer::new();
    line.append(buffer.format(m).as_bytes())
}

/// Appends the number `m` over ten to the `s`: decimal, with `-` where it is negative, and for `s` above 0 with `s`
/// digits after the point and at least one before it. After `Memory` the line is as before.
pub fn print_number(m: i128, s: u8, line: &mut Line) -> Result<(), Memory>
    ensures ok { OnOk result (line.new ≡ line.old ++ number_text m s) }
    ensures err { OnErr result (line.new ≡ line.old) }
{
    if s == 0 {
        return print_whole(m, line);
    }
    let (whole, rest) = split(m.unsigned_abs(), s);
    let mut whole_digits = Buffer::new();
    let mut rest_digits = Buffer::new();
    let whole = whole_digits.format(whole).as_bytes();
    let rest = rest_digits.format(rest).as_bytes();
    let sign: &[u8] = if m < 0 { b"-" } else { b"" };
    let zeros = zeros(s as usize - rest.len());
    line.append_pieces(sign, whole, b".", zeros, rest)
}

/// The date of a day number.
fn date(day: i64) -> Date
    requires { IsTrue (is_between first_day last_day day) }
    ensures number { epoch_day result ≡ day }
    ensures year { pos 1 ≤ℤ result.year }
{
    match Date::from_unix_epoch_day(day) {
        Ok(date) => date,
        Err(_) => unreachable!(),
    }
}

/// A year as an unsigned number.
fn whole_year(year: i16) -> u16
    requires { pos 1 ≤ℤ year }
    ensures value { pos result ≡ year }
    ensures positive { 1 ≤ result }
{
    year as u16
}

/// The year, month and day of the month of a day number.
fn date_parts(day: i64) -> (u16, u8, u8)
    requires { IsTrue (is_between first_day last_day day) }
    ensures text { civil_text result.0 result.1 result.2 ≡ day_text day }
    ensures year { result.0 < 10000 }
    ensures month { result.1 < 100 }
    ensures day { result.2 < 100 }
{
    let date = date(day);
    (whole_year(date.year), date.month, date.day)
}

/// A number in two digits.
fn two_digits(n: u8) -> [u8; 2]
    requires { n < 100 }
    ensures value { result ≡ padded_decimal 2 n }
    ensures length { length result ≡ 2 }
{
    let mut text = *b"00";
    itoa::write_digits(n as u64, &mut text, 2);
    text
}

/// A number in four digits.
fn four_digits(n: u16) -> [u8; 4]
    requires { n < 10000 }
    ensures value { result ≡ padded_decimal 4 n }
    ensures length { length result ≡ 4 }
{
    let mut text = *b"0000";
    itoa::write_digits(n as u64, &mut text, 4);
    text
}

/// Appends a day as `YYYY-MM-DD`.
fn print_day(day: i64, line: &mut Line) -> Result<(), Memory>
    requires { IsTrue (is_between first_day last_day day) }
    ensures ok { OnOk result (line.new ≡ line.old ++ day_text day) }
    ensures err { OnErr result (line.new ≡ line.old) }
{
    let (year, month, day_of_month) = date_parts(day);
    line.append_pieces(
        &four_digits(year),
        b"-",
        &two_digits(month),
        b"-",
        &two_digits(day_of_month),
    )
}

/// Appends a text in quotes; after `Memory` a part of it may stand in the line.
fn quote(text: &[u8], line: &mut Line) -> Result<(), Memory>
    ensures ok { OnOk result (line.new ≡ line.old ++ quoted_text text.now) }
    ensures front { take (length line.old) line.new ≡ line.old }
{
    line.push(b'\'')?;
    for byte in text {
        if *byte == b'\'' {
            line.push(b'\'')?;
        }
        line.push(*byte)?;
    }
    line.push(b'\'')
}

/// Appends a text in quotes, each quote in it doubled.
fn print_text(text: &[u8], line: &mut Line) -> Result<(), Memory>
    ensures ok { OnOk result (line.new ≡ line.old ++ quoted_text text.now) }
    ensures err { OnErr result (line.new ≡ line.old) }
{
    let length = line.len();
    let printed = quote(text, line);
    if printed.is_err() {
        line.truncate(length);
    }
    printed
}

/// Appends the text of a loose value: `NULL`, a number as `print_number` has it, a text in quotes with each quote in it
/// doubled, a day as `YYYY-MM-DD`. After `Memory` the line is as before.
pub fn print_loose(loose: &Loose, line: &mut Line) -> Result<(), Memory>
    requires { IsPrintable loose.now }
    ensures ok { OnOk result (line.new ≡ line.old ++ loose_text loose.now) }
    ensures err { OnErr result (line.new ≡ line.old) }
{
    match loose {
        Loose::Null => line.append(b"NULL"),
        Loose::Number { m, s } => print_number(*m, *s, line),
        Loose::Text(text) => print_text(text.as_slice(), line),
        Loose::Day(day) => print_day(*day, line),
    }
}

/// Appends the text of a value that a column of this type keeps: as `print_loose` has it, where a number of a decimal
/// stands for that number over ten to the type's scale, and a number of a date for a day. After `Memory` the line is
/// as before.
pub fn print_value(kind: ColumnType, value: &Value, line: &mut Line) -> Result<(), Memory>
    requires { IsTrue (keeps kind value.now) }
    ensures ok { OnOk result (line.new ≡ line.old ++ value_text kind value.now) }
    ensures err { OnErr result (line.new ≡ line.old) }
{
    match value {
        Value::Null => line.append(b"NULL"),
        Value::Number(number) => match kind {
            ColumnType::Decimal { s, .. } => print_number(*number as i128, s, line),
            ColumnType::Date => print_day(*number, line),
            _ => print_whole(*number as i128, line),
        },
        Value::Text(text) => print_text(text.as_slice(), line),
    }
}

/// What a value of a column stands for: a number of a decimal with the type's scale, a number of a date as a day.
pub fn loose_of(kind: ColumnType, value: &Value) -> Result<Loose, Memory>
    ensures { IfOk result (λ loose. loose ≡ spec.loose_of kind value.now) }
{
    Ok(match value {
        Value::Null => Loose::Null,
        Value::Number(number) => match kind {
            ColumnType::Date => Loose::Day(*number),
            _ => Loose::Number {
                m: *number as i128,
                s: kind.scale(),
            },
        },
        Value::Text(text) => Loose::Text(crate::copy_bytes(text)?),
    })
}
