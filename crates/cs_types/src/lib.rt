//! The values of the columnstore: column types and schemas, values with NULL, rows and their versions, keys, and lines
//! of output; which value a column keeps of a loose one, how values are ordered, copied and printed, and how a date is
//! read.
//!
//! Its one contract: each call gives exactly what the definitions in specs/ say, and after want of memory nothing has
//! changed. It stands on `cs_base`, on `smallvec` for short rows, on `itoa` for digits and on `jiff` for the calendar.
#![tactic(auto)]

ghost use Rattle.std.specs.Prelude.{◌≡◌, IfOk};
ghost use Rattle.cs_types.specs.Values.{value_cmp};

mod date;
mod fit;
mod kind;
mod line;
mod print;
mod refusal;
mod row;

use cs_base::{Items, Memory};
pub use date::read_date;
pub use fit::fits;
pub use kind::{FIRST_DAY, LAST_DAY};
pub use line::Line;
pub use print::{loose_of, print_loose, print_number, print_value};
pub use refusal::ValueRefusal;
pub use row::{Row, Version, key_of};
use std::cmp::Ordering;

/// A list of bytes, as a name or a text.
pub type Bytes = Items<u8>;

/// The type of a column.
#[derive(Clone, Copy, Debug, PartialEq, Eq, PartialOrd, Ord, Hash)]
pub enum ColumnType {
    /// Whole numbers from 0 to 255.
    TinyInt,
    /// Whole numbers of 16 bits, signed.
    SmallInt,
    /// Whole numbers of 32 bits, signed.
    Int,
    /// Whole numbers of 64 bits, signed.
    BigInt,
    /// Numbers of at most `p` digits (1 to 18), `s` of them (at most `p`) after the point.
    Decimal { p: u8, s: u8 },
    /// The days from 0001-01-01 to 9999-12-31.
    Date,
    /// Texts of at most `n` bytes (1 to 8000), each from 32 to 126.
    VarChar { n: u16 },
}

/// What a column keeps in a row. A decimal of scale s is kept as the number times ten to the s, a date as the number
/// of days since 1970-01-01. The derived order is that of `compare`.
#[derive(Debug, Drop, Clone, PartialEq, Eq, PartialOrd, Ord, Hash)]
pub enum Value {
    /// NULL.
    Null,
    /// A number or a day.
    Number(i64),
    /// A text.
    Text(Bytes),
}

/// A value that no column has fitted yet, as a literal or the result of an expression.
#[derive(Debug, Drop, Clone, PartialEq, Eq)]
pub enum Loose {
    /// NULL.
    Null,
    /// The number `m` over ten to the `s`.
    Number { m: i128, s: u8 },
    /// A text.
    Text(Bytes),
    /// A day, as the number of days since 1970-01-01.
    Day(i64),
}

/// The key of a row: the number in its key column.
#[derive(Clone, Copy, Debug, PartialEq, Eq, PartialOrd, Ord, Hash)]
pub struct Key(pub i64);

/// A column of a table.
#[derive(Debug, Drop, Clone, PartialEq, Eq)]
pub struct Column {
    /// Its name, without brackets.
    pub name: Bytes,
    /// Its type.
    pub kind: ColumnType,
    /// Whether NULL may stand in it.
    pub nullable: bool,
}

/// A table's name and columns.
#[derive(Debug, Drop, Clone, PartialEq, Eq)]
pub struct Schema {
    /// The table's name, without brackets.
    pub name: Bytes,
    /// The columns, 1 to 32, in order.
    pub columns: Items<Column>,
    /// The place of the key's column, from 0.
    pub key: usize,
}

/// How the cells of a segment are stored.
#[derive(Clone, Copy, Debug, PartialEq, Eq, PartialOrd, Ord, Hash)]
pub enum Encoding {
    /// Numbers by base and exponent, in packed words.
    ValuePacked,
    /// Numbers by base and exponent, in runs.
    ValueRuns,
    /// Codes of a dictionary, in packed words.
    DictPacked,
    /// Codes of a dictionary, in runs.
    DictRuns,
}

impl Value {
    /// A value equal to this one. `Memory` comes only where a text finds no room.
    pub fn copy(&self) -> Result<Value, Memory>
        ensures { IfOk result (λ copied. copied ≡ self.now) }
    {
        Ok(self.clone()?)
    }
}

impl Loose {
    /// A loose value equal to this one. `Memory` comes only where a text finds no room.
    pub fn copy(&self) -> Result<Loose, Memory>
        ensures { IfOk result (λ copied. copied ≡ self.now) }
    {
        Ok(self.clone()?)
    }
}

impl Column {
    /// A column equal to this one.
    pub fn copy(&self) -> Result<Column, Memory>
        ensures { IfOk result (λ copied. copied ≡ self.now) }
    {
        Ok(self.clone()?)
    }
}

impl Schema {
    /// A schema equal to this one.
    pub fn copy(&self) -> Result<Schema, Memory>
        ensures { IfOk result (λ copied. copied ≡ self.now) }
    {
        Ok(self.clone()?)
    }
}

/// The order of two values of one column: NULL first, numbers by size, texts byte by byte.
pub fn compare(a: &Value, b: &Value) -> Ordering
    ensures { result ≡ value_cmp a.now b.now }
{
    a.cmp(b)
}

/// A list of bytes equal to this one.
pub fn copy_bytes(bytes: &Bytes) -> Result<Bytes, Memory>
    ensures { IfOk result (λ copied. copied ≡ bytes.now) }
{
    Ok(bytes.clone()?)
}
