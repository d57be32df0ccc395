//! Families of values that go together.

ghost use Rattle.std.specs.Prelude.{◌≡◌};
ghost use Rattle.bind_faults.specs.Least.{least};
ghost use Rattle.bind_faults.specs.Families.{kind_family, family_of, differ, text_beside, day_faults};

use crate::fault::{Fault, NO_DATE, fault_if};
use bind_names::date_literal;
use cs_types::ColumnType;
use tsql_trees::TextTree;

/// What can be compared with one another and assigned to one another.
#[derive(Clone, Copy)]
pub enum Family {
    /// NULL, and what is not known: it goes with all.
    Any,
    Number,
    Date,
    Text,
}

fn kind_family(kind: ColumnType) -> Family
    ensures { result ≡ kind_family kind }
{
    match kind {
        ColumnType::Date => Family::Date,
        ColumnType::VarChar { .. } => Family::Text,
        _ => Family::Number,
    }
}

/// The family of what has a type, or none.
pub fn family_of(kind: Option<ColumnType>) -> Family
    ensures { result ≡ family_of kind }
{
    match kind {
        Some(kind) => kind_family(kind),
        None => Family::Any,
    }
}

/// Whether two families do not go together.
pub fn differ(a: Family, b: Family) -> bool
    ensures { result ≡ differ a b }
{
    match (a, b) {
        (Family::Any, _) | (_, Family::Any) => false,
        (Family::Number, Family::Number) => false,
        (Family::Date, Family::Date) => false,
        (Family::Text, Family::Text) => false,
        _ => true,
    }
}

/// The family of a text literal beside what is of a family.
pub fn text_beside(other: Family) -> Family
    ensures { result ≡ text_beside other }
{
    match other {
        Family::Date => Family::Date,
        _ => Family::Text,
    }
}

/// A text literal beside a date that is no date.
pub fn day_fault(other: Family, text: &TextTree) -> Option<Fault>
    ensures { result ≡ least (day_faults other text.now) }
{
    match other {
        Family::Date => fault_if(
            date_literal(text.bytes.as_slice()).is_none(),
            NO_DATE,
            text.place,
        ),
        _ => None,
    }
}
