//! Faults, and which of some comes first.

ghost use Rattle.std.specs.Prelude.{◌≡◌};
ghost use Rattle.bind_faults.specs.Least.{is_before, earlier, least, fault_if};

/// Fewer values in a row than columns that are named.
pub const FEWER_VALUES: u32 = 109;

/// More values in a row than columns that are named.
pub const MORE_VALUES: u32 = 110;

/// Fewer expressions over a series than columns that are named.
pub const FEWER_EXPRS: u32 = 120;

/// More expressions over a series than columns that are named.
pub const MORE_EXPRS: u32 = 121;

/// What does not go together.
pub const MIXED: u32 = 206;

/// A name that means nothing.
pub const UNKNOWN_NAME: u32 = 207;

/// A table that is not there.
pub const WRONG_TABLE: u32 = 208;

/// Another number of values than of the table's columns.
pub const WRONG_COUNT: u32 = 213;

/// A text beside a date that is no date.
pub const NO_DATE: u32 = 241;

/// A sum or an average of what is no number.
pub const NO_NUMBER: u32 = 8117;

/// An item's column that is not grouped.
pub const ITEM_NOT_GROUPED: u32 = 8120;

/// A column of ORDER BY that is not grouped.
pub const ORDER_NOT_GROUPED: u32 = 8127;

/// What is not supported.
pub const UNSUPPORTED: u32 = 50_001;

/// Why a statement cannot be bound: a number, and the place of the byte that shows it, counted from 1.
#[derive(Clone, Copy, Debug)]
pub struct Fault {
    pub number: u32,
    pub at: u32,
}

/// Whether a fault comes before another one: at a lesser place, or at the same place with a lesser number.
fn is_before(a: Fault, b: Fault) -> bool
    ensures { result ≡ is_before a b }
{
    a.at < b.at || a.at == b.at && a.number < b.number
}

/// A fault where a test is true.
pub fn fault_if(found: bool, number: u32, at: u32) -> Option<Fault>
    ensures { result ≡ least (fault_if found number at) }
{
    if found {
        Some(Fault { number, at })
    } else {
        None
    }
}

/// Of two faults the one that comes first.
pub fn earlier(a: Option<Fault>, b: Option<Fault>) -> Option<Fault>
    ensures { result ≡ earlier a b }
{
    match (a, b) {
        (Some(a), Some(b)) => Some(if is_before(b, a) { b } else { a }),
        (Some(a), None) => Some(a),
        (None, b) => b,
    }
}
