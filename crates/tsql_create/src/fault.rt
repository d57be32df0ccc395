//! The faults of a setup statement.

ghost use Rattle.std.specs.Prelude.{◌≡◌, ◌+◌, [], take, slice_get};
ghost use Rattle.std.specs.List.{flat_map};
ghost use Rattle.std.specs.Option.{option_copied};
ghost use Rattle.tsql_create.specs.Order.{AreInOrder};
ghost use Rattle.tsql_exprs.specs.Leftmost.{earlier, leftmost};
ghost use Rattle.tsql_exprs.specs.Types.{outside, type_faults, digits_faults};
ghost use Rattle.tsql_create.specs.Faults.{contradictions, column_faults, too_many, has_name, repeated, second_key, repeated_name, null_on_key, key_type_faults, key_faults, no_column, faults_of};

use crate::written::{Written, WrittenColumn, WrittenKey};
use cs_base::is_same_name;
use tsql_exprs::{earlier, type_fault};
use tsql_trees::TypeTree;

/// How many columns a table may have.
const MOST_COLUMNS: usize = 32;

/// The later one of NULL and NOT NULL on one column.
fn contradiction(null: Option<u32>, not_null: Option<u32>) -> Option<u32>
    ensures { result ≡ leftmost (contradictions null not_null) }
{
    match (null, not_null) {
        (Some(place), Some(other)) => Some(place.max(other)),
        _ => None,
    }
}

#[tactic(auto, using(tsql_exprs::proofs::Leftmost::leftmost_append))]
fn column_fault(column: &WrittenColumn) -> Option<u32>
    ensures { result ≡ leftmost (column_faults column.now) }
{
    earlier(
        type_fault(column.kind),
        contradiction(column.null, column.not_null),
    )
}

/// The leftmost fault that a column has by itself.
fn any_column_fault(columns: &[WrittenColumn]) -> Option<u32>
    ensures { result ≡ leftmost (flat_map column_faults columns.now) }
{
    let mut found = None;
    for column in columns {
        found = earlier(found, column_fault(column));
    }
    found
}

/// The 33rd column.
fn too_many(columns: &[WrittenColumn]) -> Option<u32>
    ensures { result ≡ leftmost (too_many columns.now) }
{
    match columns.get(MOST_COLUMNS) {
        Some(column) => Some(column.name.place),
        None => None,
    }
}

fn has_name(columns: &[WrittenColumn], name: &[u8]) -> bool
    ensures { result ≡ has_name columns.now name.now }
{
    columns
        .iter()
        .any(|column| is_same_name(column.name.bytes.as_slice(), name))
}

/// The column's name, where an earlier column has it.
fn repeated_name(before: &[WrittenColumn], column: &WrittenColumn) -> Option<u32>
    ensures { result ≡ leftmost (repeated_name before.now column.now) }
{
    if has_name(before, column.name.bytes.as_slice()) {
        Some(column.name.place)
    } else {
        None
    }
}

/// The leftmost name that an earlier column has.
fn repeated(columns: &[WrittenColumn]) -> Option<u32>
    ensures { result ≡ leftmost (repeated [] columns.now) }
{
    let mut found = None;
    for i in 0..columns.len() {
        found = earlier(found, repeated_name(&columns[..i], &columns[i]));
    }
    found
}

/// The columns that a table may have at most.
fn first_columns(columns: &[WrittenColumn]) -> &[WrittenColumn]
    ensures { result.now ≡ take 32 columns.now }
{
    if columns.len() > MOST_COLUMNS {
        &columns[..MOST_COLUMNS]
    } else {
        columns
    }
}

/// The 33rd column, or the leftmost name that an earlier column has. No column after the 33rd one is looked at, since
/// its name stands after that one's.
#[tactic(auto, using(crate::proofs::AllNames::first_names))]
fn names_fault(columns: &[WrittenColumn]) -> Option<u32>
    requires { AreInOrder columns.now }
    ensures { result ≡ earlier (leftmost (too_many columns.now)) (leftmost (repeated [] columns.now)) }
{
    earlier(too_many(columns), repeated(first_columns(columns)))
}

/// The word PRIMARY of the second key.
fn second_key(keys: &[WrittenKey]) -> Option<u32>
    ensures { result ≡ leftmost (second_key keys.now) }
{
    match keys.get(1) {
        Some(key) => Some(key.place()),
        None => None,
    }
}

/// The later one of the key and a NULL on it.
fn null_on_key(shown: u32, null: Option<u32>) -> Option<u32>
    ensures { result ≡ leftmost (null_on_key shown null) }
{
    match null {
        Some(place) => Some(shown.max(place)),
        None => None,
    }
}

/// The later one of the key and its type, where no key may have the type.
fn key_type_fault(shown: u32, kind: TypeTree) -> Option<u32>
    ensures { result ≡ leftmost (key_type_faults shown kind) }
{
    match kind {
        TypeTree::Plain { .. } => None,
        TypeTree::Decimal { place, .. } | TypeTree::VarChar { place, .. } => Some(shown.max(place)),
    }
}

/// The leftmost fault of the key.
#[tactic(auto, using(tsql_exprs::proofs::Leftmost::leftmost_append))]
fn key_fault(end: u32, columns: &[WrittenColumn], key: Option<&WrittenKey>) -> Option<u32>
    ensures { result ≡ leftmost (key_faults end columns.now (option_copied key.entry)) }
{
    let Some(key) = key else {
        return Some(end);
    };
    let Some(index) = key.index(columns) else {
        return Some(key.shown());
    };
    match columns.get(index) {
        Some(column) => earlier(
            null_on_key(key.shown(), column.null),
            key_type_fault(key.shown(), column.kind),
        ),
        None => Some(key.shown()),
    }
}

fn no_column(end: u32, columns: &[WrittenColumn]) -> Option<u32>
    ensures { result ≡ leftmost (no_column end columns.now) }
{
    if columns.is_empty() { Some(end) } else { None }
}

/// The leftmost fault of a statement, whose text ends at a place.
#[tactic(auto, using(tsql_exprs::proofs::Leftmost::leftmost_append))]
pub fn leftmost_fault(end: u32, written: &Written) -> Option<u32>
    requires { AreInOrder written.now.columns }
    ensures { result ≡ leftmost (faults_of end written.now.columns written.now.keys) }
{
    let columns = written.columns.as_slice();
    let keys = written.keys.as_slice();
    let by_columns = earlier(any_column_fault(columns), names_fault(columns));
    let by_keys = earlier(by_columns, second_key(keys));
    let by_key = earlier(by_keys, key_fault(end, columns, keys.first()));
    earlier(by_key, no_column(end, columns))
}
