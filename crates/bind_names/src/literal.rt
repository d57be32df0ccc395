//! Literals.

ghost use Rattle.std.specs.Prelude.{◌≡◌};
ghost use Rattle.bind_names.specs.Names.{trimmed, date_literal, signed_digits, number_literal};

use cs_types::{Loose, read_date};
use tsql_trees::NumberTree;

/// A text without its trailing spaces.
pub fn trimmed(text: &[u8]) -> &[u8]
    ensures { result.now ≡ trimmed text.now }
{
    let mut rest = text;
    'more: while let Some((last, front)) = rest.split_last() {
        if *last != b' ' {
            return rest;
        }
        rest = front;
    }
    rest
}

/// The day that a text literal names, `YYYY-MM-DD` or `YYYYMMDD` and any spaces after it, as the number of days since
/// 1970-01-01; None exactly where it is no date.
pub fn date_literal(text: &[u8]) -> Option<i64>
    ensures { result ≡ date_literal text.now }
{
    read_date(trimmed(text))
}

/// A number with its sign, below zero where `minus` is true.
pub fn signed_digits(minus: bool, digits: u64) -> i128
    ensures { result ≡ signed_digits minus digits }
{
    let number = i128::from(digits);
    if minus { -number } else { number }
}

/// The value of a number literal: its digits with its sign, over ten to the number of digits after the point.
pub fn number_literal(number: NumberTree) -> Loose
    ensures { result ≡ number_literal number }
{
    Loose::Number {
        m: signed_digits(number.minus, number.digits),
        s: number.s,
    }
}
