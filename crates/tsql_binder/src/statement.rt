//! Statements into bound forms.

ghost use Rattle.std.specs.Prelude.{◌≡◌, IfOk};
ghost use Rattle.cs_model.specs.Ready.{IsReady};
ghost use Rattle.tsql_binder.specs.Meaning.{plan_of, bound_of, GivesBound};

use crate::refusal::BindRefusal;
use crate::report::{is_whole, report_in};
use bind_faults::{Fault, first_fault};
use bind_forms::{filter_of, insert_plan, query, update_plan};
use cs_base::{Boxed, Memory};
use cs_model::Bound;
use cs_types::Schema;
use std::alloc::Global;
use tsql_trees::Statement;

/// What a SELECT from a report is refused for that is not `SELECT * FROM` it.
const OTHER_REPORT: Fault = Fault {
    number: 50_001,
    at: 1,
};

/// The bound form of a statement without a fault.
fn plan_of(alloc: Global, schema: &Schema, statement: &Statement) -> Result<Bound, Memory>
    ensures { IfOk result (λ bound. bound ≡ plan_of schema.now statement.now) }
{
    match statement {
        Statement::Begin => Ok(Bound::Begin),
        Statement::Commit => Ok(Bound::Commit),
        Statement::Rollback => Ok(Bound::Rollback),
        Statement::SetSnapshot | Statement::SetLockTimeout { .. } => Ok(Bound::Nothing),
        Statement::SetStatistics { on } => Ok(Bound::Statistics(*on)),
        Statement::AlterIndex { compress, .. } => Ok(Bound::Reorganize {
            all: compress.unwrap_or(false),
        }),
        Statement::Insert { names, source, .. } => {
            let plan = insert_plan(alloc, schema, names.as_ref(), source)?;
            Ok(Bound::Insert(Boxed::new(alloc, plan)?))
        }
        Statement::Update { sets, filter, .. } => {
            let plan = update_plan(alloc, schema, sets, filter.as_ref())?;
            Ok(Bound::Update(Boxed::new(alloc, plan)?))
        }
        Statement::Delete { filter, .. } => {
            let condition = filter_of(alloc, schema, filter.as_ref())?;
            Ok(Bound::Delete(Boxed::new(alloc, condition)?))
        }
        Statement::Select {
            items,
            filter,
            groups,
            order,
            ..
        } => {
            let query = query(
                alloc,
                schema,
                items,
                filter.as_ref(),
                groups.as_ref(),
                order.as_ref(),
            )?;
            Ok(Bound::Select(Boxed::new(alloc, query)?))
        }
    }
}

/// A refusal for a fault.
fn refusal_at(fault: Fault) -> BindRefusal
    ensures { result ≡ BindRefusal.At fault.number fault.at }
{
    BindRefusal::At {
        number: fault.number,
        at: fault.at,
    }
}

/// The bound form of a statement over a schema. `At` with its first fault: 50001 at 1 for a SELECT from a report that is not
/// `SELECT * FROM` it; then 208 for a table that is not there; then the leftmost fault, at one place the one of the least
/// number. `Memory` where there is no room for the bound form.
pub fn bind(alloc: Global, schema: &Schema, statement: &Statement) -> Result<Bound, BindRefusal>
    ensures gives { GivesBound (bound_of schema.now statement.now) result }
    // An UPDATE that is bound sets no key.
    ensures ready { IfOk result (IsReady schema.now) }
{
    if let Some(report) = report_in(statement) {
        return if is_whole(statement) {
            Ok(report)
        } else {
            Err(refusal_at(OTHER_REPORT))
        };
    }
    match first_fault(schema, statement) {
        Some(fault) => Err(refusal_at(fault)),
        None => Ok(plan_of(alloc, schema, statement)?),
    }
}
