ghost use Rattle.std.specs.Prelude.{◌≡◌, map, All, IfOk, IsTrue};
ghost use Rattle.std.specs.Bool.{OnTrue, OnFalse};
ghost use Rattle.std.specs.Option.{option_copied, is_some};
ghost use Rattle.cs_types.specs.Rows.{number_in, number_cell};
ghost use Rattle.cs_types.specs.Kinds.{is_of_type};
ghost use Rattle.cs_types.specs.Values.{value_cmp};
ghost use Rattle.column_segment.specs.Cells.{seen, is_below, number_of, text_of, HasText, HasNoText, HasNoNumber};

use cs_base::{Items, Memory};
use cs_types::{ColumnType, Value, compare};
use std::alloc::Global;
use std::cmp::Ordering;

/// A cell of a segment, as a reference into it. The derived order is that of values: NULL first, then numbers, then texts
/// byte by byte.
#[derive(Debug, Clone, Copy, PartialEq, Eq, PartialOrd, Ord, Hash)]
pub enum CellRef<'a> {
    /// NULL.
    Null,
    /// A number, or a day.
    Number(i64),
    /// A text.
    Text(&'a [u8]),
}

impl CellRef<'_> {
    /// The cell as a value of its own.
    pub fn to_value(self, alloc: Global) -> Result<Value, Memory>
        ensures { IfOk result (λ value. value ≡ seen self.entry) }
    {
        match self {
            CellRef::Null => Ok(Value::Null),
            CellRef::Number(number) => Ok(Value::Number(number)),
            CellRef::Text(text) => Ok(Value::Text(Items::from_vec(text.to_vec(alloc)?))),
        }
    }

    /// How the cell lies to a value of its column: NULL first, numbers by size, texts byte by byte.
    pub fn order(self, other: &Value) -> Ordering
        ensures { result ≡ value_cmp (seen self.entry) other.now }
    {
        match self {
            CellRef::Null => compare(&Value::Null, other),
            CellRef::Number(number) => compare(&Value::Number(number), other),
            CellRef::Text(text) => match other {
                Value::Text(bytes) => text.cmp(bytes.as_slice()),
                _ => Ordering::Greater,
            },
        }
    }

    /// Whether the cell comes before a bound; where `tied`, also whether it ties with it.
    pub fn is_below(self, bound: &Value, tied: bool) -> bool
        ensures { result ≡ is_below tied bound.now (seen self.entry) }
    {
        let order = self.order(bound);
        if tied { order.is_le() } else { order.is_lt() }
    }

    /// Whether the cell is a text.
    fn is_text(&self) -> bool
        ensures { result ≡ is_some (text_of (seen self.now)) }
    {
        matches!(self, CellRef::Text(_))
    }

    /// The number that the cell is, None where it is none.
    pub fn number(self) -> Option<i64>
        ensures { result ≡ number_of (seen self.entry) }
    {
        match self {
            CellRef::Number(number) => Some(number),
            _ => None,
        }
    }

    /// The number that the cell is, and 0 for NULL and a text.
    pub fn number_or_zero(self) -> i64
        ensures { result ≡ number_in (seen self.entry) }
    {
        match self {
            CellRef::Number(number) => number,
            _ => 0,
        }
    }
}

/// A value as a reference.
pub fn shown(value: &Value) -> CellRef<'_>
    ensures { seen result ≡ value.now }
{
    match value {
        Value::Null => CellRef::Null,
        Value::Number(number) => CellRef::Number(*number),
        Value::Text(text) => CellRef::Text(text.as_slice()),
    }
}

/// A number or NULL as a cell.
pub fn number_shown<'a>(number: Option<i64>) -> CellRef<'a>
    ensures { seen result ≡ number_cell number }
{
    match number {
        None => CellRef::Null,
        Some(number) => CellRef::Number(number),
    }
}

/// The number that a cell is, None where it is none.
pub fn as_number(cell: &Value) -> Option<i64>
    ensures { result ≡ number_of cell.now }
{
    match cell {
        Value::Number(number) => Some(*number),
        _ => None,
    }
}

/// The text that a cell is, None where it is none.
pub fn as_text(cell: &Value) -> Option<&[u8]>
    ensures { option_copied result ≡ text_of cell.now }
{
    match cell {
        Value::Text(text) => Some(text.as_slice()),
        _ => None,
    }
}

/// The numbers of some cells.
pub fn numbers_in(alloc: Global, cells: &[Value]) -> Result<Vec<Option<i64>>, Memory>
    ensures { IfOk result (λ numbers. numbers.items ≡ map number_of cells.now) }
{
    let mut numbers = Vec::with_capacity(alloc, cells.len())?;
    for cell in cells {
        numbers.push(as_number(cell))?;
    }
    Ok(numbers)
}

/// The texts of some cells.
pub fn texts_in(alloc: Global, cells: &[Value]) -> Result<Vec<Option<&[u8]>>, Memory>
    ensures { IfOk result (λ texts. map option_copied texts.items ≡ map text_of cells.now) }
{
    let mut texts = Vec::with_capacity(alloc, cells.len())?;
    for cell in cells {
        texts.push(as_text(cell))?;
    }
    Ok(texts)
}

/// Whether a cell is a text.
pub fn has_text(cells: &[Value]) -> bool
    ensures text { OnTrue result (HasText cells.now) }
    ensures none { OnFalse result (HasNoText cells.now) }
{
    for cell in cells {
        if as_text(cell).is_some() {
            return true;
        }
    }
    false
}

/// Whether a cell of a column is a text. In a column of texts all may be NULL.
pub fn shows_text(kind: ColumnType, cells: &[CellRef<'_>]) -> bool
    requires { All (λ cell. IsTrue (is_of_type kind cell)) (map seen cells.now) }
    ensures text { OnTrue result (HasText (map seen cells.now)) }
    ensures no_number { OnTrue result (HasNoNumber (map seen cells.now)) }
    ensures none { OnFalse result (HasNoText (map seen cells.now)) }
{
    match kind {
        ColumnType::VarChar { .. } => has_shown_text(cells),
        _ => false,
    }
}

/// Whether one of some cells is a text.
fn has_shown_text(cells: &[CellRef<'_>]) -> bool
    ensures text { OnTrue result (HasText (map seen cells.now)) }
    ensures none { OnFalse result (HasNoText (map seen cells.now)) }
{
    for cell in cells {
        if cell.is_text() {
            return true;
        }
    }
    false
}

/// The numbers of some cells.
pub fn numbers_shown(alloc: Global, cells: &[CellRef<'_>]) -> Result<Vec<Option<i64>>, Memory>
    ensures { IfOk result (λ numbers. numbers.items ≡ map number_of (map seen cells.now)) }
{
    let mut numbers = Vec::with_capacity(alloc, cells.len())?;
    for cell in cells {
        numbers.push(cell.number())?;
    }
    Ok(numbers)
}
