ghost use Rattle.std.specs.List.{list_all};
ghost use Rattle.std.specs.Prelude.{◌≡◌, ◌↔◌, IsTrue};
ghost use Rattle.cs_types.specs.Kinds as spec;
ghost use Rattle.cs_types.specs.Kinds.{IsColumnType};

use crate::fit::power;
use crate::{ColumnType, Value};

/// The number of 0001-01-01.
pub const FIRST_DAY: i64 = -719_162;

/// The number of 9999-12-31.
pub const LAST_DAY: i64 = 2_932_896;

impl ColumnType {
    /// The digits after the point.
    pub fn scale(self) -> u8
        ensures { result ≡ spec.scale_of self }
    {
        match self {
            ColumnType::Decimal { s, .. } => s,
            _ => 0,
        }
    }

    /// Whether a table may have the type: 1 to 18 digits, at most all of them after the point, 1 to 8000 bytes.
    pub fn is_valid(self) -> bool
        ensures { IsTrue result ↔ IsColumnType self }
    {
        match self {
            ColumnType::Decimal { p, s } => 1 <= p && p <= 18 && s <= p,
            ColumnType::VarChar { n } => 1 <= n && n <= 8000,
            _ => true,
        }
    }

    /// Whether a number, as a column keeps it, is in the type's range. A `varchar` has no numbers.
    #[tactic(auto, using(crate::proofs::FitLemmas::days))]
    pub fn keeps_number(self, number: i64) -> bool
        requires { IsColumnType self }
        ensures { result ≡ spec.keeps_number self number }
    {
        match self {
            ColumnType::TinyInt => 0 <= number && number <= 255,
            ColumnType::SmallInt => -32_768 <= number && number <= 32_767,
            ColumnType::Int => -2_147_483_648 <= number && number <= 2_147_483_647,
            ColumnType::BigInt => true,
            ColumnType::Decimal { p, .. } => (number.unsigned_abs() as u128) < power(p),
            ColumnType::Date => FIRST_DAY <= number && number <= LAST_DAY,
            ColumnType::VarChar { .. } => false,
        }
    }

    /// Whether a value is one that a column of the type keeps, as far as its type goes: NULL always, a number in the
    /// type's range, a text of at most its bytes, each from 32 to 126.
    pub fn keeps(self, value: &Value) -> bool
        requires { IsColumnType self }
        ensures { result ≡ spec.keeps self value.now }
    {
        match value {
            Value::Null => true,
            Value::Number(number) => self.keeps_number(*number),
            Value::Text(text) => match self {
                ColumnType::VarChar { n } => text.len() <= n as usize && is_text(text.as_slice()),
                _ => false,
            },
        }
    }
}

/// Whether each byte is one that a text may have.
fn is_text(bytes: &[u8]) -> bool
    ensures { result ≡ list_all spec.is_text_byte bytes.now }
{
    bytes.iter().all(|byte| 32 <= *byte && *byte <= 126)
}
