//! INSERT.

ghost use Rattle.std.specs.Prelude.{◌≡◌};
ghost use Rattle.std.specs.List.{flat_map};
ghost use Rattle.bind_faults.specs.Least.{least};
ghost use Rattle.bind_faults.specs.Inserts.{columns_faults, named_faults, target, values_faults, count_faults, row_faults, source_faults, insert_faults};

use crate::column::{no_column_fault, twice_fault};
use crate::expr::expr_fault;
use crate::fault::{FEWER_VALUES, Fault, MORE_VALUES, WRONG_COUNT, earlier, fault_if};
use crate::series::series_fault;
use crate::setting::{Scope, kind_at, kind_of};
use cs_types::{ColumnType, Schema};
use tsql_trees::{ExprTree, NameTree, NamesTree, RowTree, SourceTree};

/// The first fault of the columns that are named.
fn columns_fault(schema: &Schema, names: &[NameTree]) -> Option<Fault>
    ensures { result ≡ least (columns_faults schema.now names.now) }
{
    earlier(no_column_fault(schema, names), twice_fault(schema, names))
}

fn named_fault(schema: &Schema, names: &Option<NamesTree>) -> Option<Fault>
    ensures { result ≡ least (named_faults schema.now names.now) }
{
    match names {
        Some(names) => columns_fault(schema, names.as_slice()),
        None => None,
    }
}

/// The type of the column to which the value with a number goes, if there is one.
fn target(schema: &Schema, names: &Option<NamesTree>, value: usize) -> Option<ColumnType>
    ensures { result ≡ target schema.now names.now value }
{
    match names {
        Some(names) => match names.as_slice().get(value) {
            Some(name) => kind_of(schema, name),
            None => None,
        },
        None => kind_at(schema, value),
    }
}

/// The first fault of the values of a row or of the list over a series.
pub fn values_fault(
    schema: &Schema,
    scope: Scope,
    names: &Option<NamesTree>,
    values: &[ExprTree],
) -> Option<Fault>
    ensures { result ≡ least (values_faults schema.now scope names.now 0 values.now) }
{
    let mut found = None;
    for i in 0..values.len() {
        let kind = target(schema, names, i);
        found = earlier(found, expr_fault(schema, scope, kind, &values[i]));
    }
    found
}

/// A wrong number of values.
#[tactic(auto, using(crate::proofs::Leasts::least_append))]
pub fn count_fault(
    schema: &Schema,
    names: &Option<NamesTree>,
    fewer: u32,
    more: u32,
    at: u32,
    count: usize,
) -> Option<Fault>
    ensures { result ≡ least (count_faults schema.now names.now fewer more at count) }
{
    match names {
        Some(names) => earlier(
            fault_if(count < names.len(), fewer, at),
            fault_if(names.len() < count, more, at),
        ),
        None => fault_if(count != schema.columns.len(), WRONG_COUNT, at),
    }
}

#[tactic(auto, using(crate::proofs::Leasts::least_append))]
fn row_fault(schema: &Schema, names: &Option<NamesTree>, row: &RowTree) -> Option<Fault>
    ensures { result ≡ least (row_faults schema.now names.now row.now) }
{
    let values = row.exprs.as_slice();
    earlier(
        count_fault(
            schema,
            names,
            FEWER_VALUES,
            MORE_VALUES,
            row.place,
            values.len(),
        ),
        values_fault(schema, Scope::Row, names, values),
    )
}

/// The first fault of the rows of VALUES.
fn rows_fault(schema: &Schema, names: &Option<NamesTree>, rows: &[RowTree]) -> Option<Fault>
    ensures { result ≡ least (flat_map (row_faults schema.now names.now) rows.now) }
{
    let mut found = None;
    for row in rows {
        found = earlier(found, row_fault(schema, names, row));
    }
    found
}

fn source_fault(schema: &Schema, names: &Option<NamesTree>, source: &SourceTree) -> Option<Fault>
    ensures { result ≡ least (source_faults schema.now names.now source.now) }
{
    match source {
        SourceTree::Values(rows) => rows_fault(schema, names, rows.as_slice()),
        SourceTree::Series(series) => series_fault(schema, names, series),
    }
}

/// The first fault of an INSERT.
#[tactic(auto, using(crate::proofs::Leasts::least_append))]
pub fn insert_fault(
    schema: &Schema,
    names: &Option<NamesTree>,
    source: &SourceTree,
) -> Option<Fault>
    ensures { result ≡ least (insert_faults schema.now names.now source.now) }
{
    earlier(
        named_fault(schema, names),
        source_fault(schema, names, source),
    )
}
