ghost use Rattle.std.specs.Prelude.{◌≡◌, ◌^◌, ◌≤◌, ◌<◌, length, IsTrue, IfSome, if◌then◌else◌, Some, None};
ghost use Rattle.std.specs.Option.{SomeIff};
ghost use Rattle.std.specs.List.{list_all};
ghost use Rattle.jiff.specs.Words.{epoch_day};
ghost use Rattle.cs_types.specs.Calendar as spec;
ghost use Rattle.cs_types.specs.Calendar.{is_date, day_number, is_digit, digits_value, date_of_parts};

use jiff::civil::Date;

/// The number of a date.
fn number(date: Date) -> i64
    ensures { result ≡ epoch_day date }
{
    date.to_plain().to_unix_epoch_day() as i64
}

/// The number of days from 1970-01-01 to a date, negative before; None where the calendar has no such date in the
/// years 1 to 9999.
#[tactic(auto, using(crate::proofs::DateLemmas::dates))]
fn day(year: u16, month: u8, day: u8) -> Option<i64>
    requires years { year < 10000 }
    requires months { month < 100 }
    requires days { day < 100 }
    ensures { result ≡ (if is_date year month day then Some (day_number year month day) else None) }
{
    if year < 1 {
        return None;
    }
    match Date::new(year as i16, month as i8, day as i8) {
        Ok(date) => Some(number(date)),
        Err(_) => None,
    }
}

/// The number that up to four decimal digits write; None where a byte is no digit.
fn digits(text: &[u8]) -> Option<u16>
    requires { length text.now ≤ 4 }
    ensures value { SomeIff result (IsTrue (list_all is_digit text.now)) (digits_value text.now) }
    ensures bound { IfSome result (λ n. n < 10 ^ length text.now) }
{
    let mut value = 0;
    for byte in text {
        if *byte < b'0' || *byte > b'9' {
            return None;
        }
        value = 10 * value + (*byte - b'0') as u16;
    }
    Some(value)
}

/// The day of a year, a month and a day of the month, each in digits.
fn date_of(year: &[u8], month: &[u8], day_of_month: &[u8]) -> Option<i64>
    requires four { length year.now ≡ 4 }
    requires two { length month.now ≡ 2 }
    requires last_two { length day_of_month.now ≡ 2 }
    ensures { result ≡ date_of_parts year.now month.now day_of_month.now }
{
    let year = digits(year)?;
    let month = digits(month)?;
    let day_of_month = digits(day_of_month)?;
    day(year, month as u8, day_of_month as u8)
}

/// The day that a text names, `YYYY-MM-DD` or `YYYYMMDD`, as the number of days since 1970-01-01, negative before;
/// None exactly where the text has no such form or the calendar has no such day from 0001-01-01 to 9999-12-31.
pub fn read_date(text: &[u8]) -> Option<i64>
    ensures { result ≡ spec.date_of text.now }
{
    if text.len() == 8 {
        date_of(&text[..4], &text[4..6], &text[6..])
    } else if text.len() == 10 && text[4] == b'-' && text[7] == b'-' {
        date_of(&text[..4], &text[5..7], &text[8..])
    } else {
        None
    }
}
