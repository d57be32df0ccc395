//! What names mean where they stand.

ghost use Rattle.std.specs.Prelude.{◌≡◌};
ghost use Rattle.bind_faults.specs.Least.{least};
ghost use Rattle.bind_faults.specs.Families.{kind_at, kind_named, kind_in, unknown, unknown_column, named_in};

use crate::fault::{Fault, UNKNOWN_NAME, fault_if};
use bind_names::column_named;
use cs_base::is_same_name;
use cs_types::{ColumnType, Schema};
use tsql_trees::NameTree;

/// Where an expression stands, which says what names mean in it.
#[derive(Clone, Copy)]
pub enum Scope {
    /// A row of VALUES: no name means anything.
    Row,
    /// The list over a series: `value` is a bigint, and no other name means anything.
    Series,
    /// An assignment or a predicate: a name is a column.
    Table,
}

/// Where a part of an expression stands.
#[derive(Clone, Copy)]
pub struct Setting {
    /// What names mean.
    pub scope: Scope,
    /// The type of what is wanted, if it has one.
    pub wanted: Option<ColumnType>,
    /// The first byte of the whole expression.
    pub at: u32,
}

/// The type of the column with a number.
pub fn kind_at(schema: &Schema, column: usize) -> Option<ColumnType>
    ensures { result ≡ kind_at schema.now column }
{
    match schema.columns.as_slice().get(column) {
        Some(column) => Some(column.kind),
        None => None,
    }
}

fn kind_named(schema: &Schema, name: &[u8]) -> Option<ColumnType>
    ensures { result ≡ kind_named schema.now name.now }
{
    match column_named(schema, name) {
        Some(column) => kind_at(schema, column),
        None => None,
    }
}

/// The type of what a name means.
pub fn kind_in(schema: &Schema, scope: Scope, name: &[u8]) -> Option<ColumnType>
    ensures { result ≡ kind_in schema.now scope name.now }
{
    match scope {
        Scope::Row => None,
        Scope::Series => {
            if is_same_name(name, b"value") {
                Some(ColumnType::BigInt)
            } else {
                None
            }
        }
        Scope::Table => kind_named(schema, name),
    }
}

/// A name whose meaning has a type, or none.
pub fn unknown(kind: Option<ColumnType>, at: u32) -> Option<Fault>
    ensures { result ≡ least (unknown kind at) }
{
    fault_if(kind.is_none(), UNKNOWN_NAME, at)
}

/// The type of the column that a name means.
pub fn kind_of(schema: &Schema, name: &NameTree) -> Option<ColumnType>
    ensures { result ≡ kind_named schema.now name.now.bytes }
{
    kind_named(schema, name.bytes.as_slice())
}

/// A name that is no column.
pub fn unknown_column(schema: &Schema, name: &NameTree) -> Option<Fault>
    ensures { result ≡ least (unknown_column schema.now name.now) }
{
    unknown(kind_of(schema, name), name.place)
}

/// Whether one of these names is the same as another name.
pub fn named_in(names: &[NameTree], name: &[u8]) -> bool
    ensures { result ≡ named_in names.now name.now }
{
    names
        .iter()
        .any(|other| is_same_name(other.bytes.as_slice(), name))
}
