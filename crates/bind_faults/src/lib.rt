//! The faults of binding: why a statement that was read means nothing over a schema, and where.
//!
//! Its one contract: `first_fault` is the one fault that a statement is refused for, which is the place of a table that
//! is not there, and else the leftmost of all faults of the statement, at one place the one of the least number. It
//! takes no memory. It depends on `cs_types`, `tsql_trees` and `bind_names`.
#![tactic(auto)]

ghost use Rattle.std.specs.Prelude.{◌≡◌};
ghost use Rattle.bind_faults.specs.Least.{least};
ghost use Rattle.bind_faults.specs.Faults as spec;
ghost use Rattle.bind_faults.specs.Faults.{timeout_faults, faults, not_this, wrong_table};

mod atom;
mod column;
mod expr;
mod family;
mod fault;
mod insert;
mod pred;
mod query;
mod series;
mod setting;
mod update;

use cs_base::is_same_name;
use cs_types::Schema;
pub use fault::Fault;
use fault::{UNSUPPORTED, WRONG_TABLE, earlier, fault_if};
use insert::insert_fault;
use pred::filter_fault;
use query::query_fault;
use tsql_trees::{NumberTree, Statement, TableTree};
use update::sets_fault;

/// A LOCK_TIMEOUT other than 0.
fn timeout_fault(number: NumberTree) -> Option<Fault>
    ensures { result ≡ least (timeout_faults number) }
{
    fault_if(number.digits != 0, UNSUPPORTED, number.place)
}

/// The first fault of a statement other than that of its table.
#[tactic(auto, using(crate::proofs::Leasts::least_append))]
fn least_fault(schema: &Schema, statement: &Statement) -> Option<Fault>
    ensures { result ≡ least (faults schema.now statement.now) }
{
    match statement {
        Statement::SetLockTimeout { number } => timeout_fault(*number),
        Statement::Insert { names, source, .. } => insert_fault(schema, names, source),
        Statement::Update { sets, filter, .. } => earlier(
            sets_fault(schema, sets.as_slice()),
            filter_fault(schema, filter),
        ),
        Statement::Delete { filter, .. } => filter_fault(schema, filter),
        Statement::Select {
            items,
            filter,
            groups,
            order,
            ..
        } => earlier(
            query_fault(schema, items, groups, order),
            filter_fault(schema, filter),
        ),
        _ => None,
    }
}

fn not_this(schema: &Schema, table: &TableTree) -> Option<u32>
    ensures { result ≡ not_this schema.now table.now }
{
    if is_same_name(schema.name.as_slice(), table.name()) {
        None
    } else {
        Some(table.first.place)
    }
}

/// The place of a table that is not there.
pub fn wrong_table(schema: &Schema, statement: &Statement) -> Option<u32>
    ensures { result ≡ wrong_table schema.now statement.now }
{
    match statement {
        Statement::AlterIndex { table, .. } => not_this(schema, table),
        Statement::Insert { table, .. } => not_this(schema, table),
        Statement::Update { table, .. } => not_this(schema, table),
        Statement::Delete { table, .. } => not_this(schema, table),
        Statement::Select { table, .. } => not_this(schema, table),
        _ => None,
    }
}

/// The fault that a statement over a schema is refused for, and None where it has none: 208 at a table of another name,
/// and else the leftmost fault, at one place the one of the least number. The two reports are no tables here.
pub fn first_fault(schema: &Schema, statement: &Statement) -> Option<Fault>
    ensures { result ≡ spec.first_fault schema.now statement.now }
{
    match wrong_table(schema, statement) {
        Some(at) => Some(Fault {
            number: WRONG_TABLE,
            at,
        }),
        None => least_fault(schema, statement),
    }
}
