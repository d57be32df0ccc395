//! The two reports on row groups, which stand after `sys.`.

ghost use Rattle.std.specs.Prelude.{◌≡◌};
ghost use Rattle.tsql_binder.specs.Reports as spec;

use cs_base::is_same_name;
use cs_model::Bound;
use tsql_trees::{ItemsTree, Statement, TableTree};

/// The report on row groups.
const GROUPS: &[u8] = b"dm_db_column_store_row_group_physical_stats";

/// The report on segments.
const SEGMENTS: &[u8] = b"column_store_segments";

/// The report of a name after `sys.`.
fn report_named(name: &[u8]) -> Option<Bound>
    ensures { result ≡ spec.report_named name.now }
{
    if is_same_name(name, GROUPS) {
        Some(Bound::GroupReport)
    } else if is_same_name(name, SEGMENTS) {
        Some(Bound::SegmentReport)
    } else {
        None
    }
}

fn report_of(table: &TableTree) -> Option<Bound>
    ensures { result ≡ spec.report_behind table.now.first table.now.second }
{
    match &table.second {
        Some(second) if is_same_name(table.first.bytes.as_slice(), b"sys") => {
            report_named(second.bytes.as_slice())
        }
        _ => None,
    }
}

/// The report that a SELECT reads.
pub fn report_in(statement: &Statement) -> Option<Bound>
    ensures { result ≡ spec.report_in statement.now }
{
    match statement {
        Statement::Select { table, .. } => report_of(table),
        _ => None,
    }
}

/// Whether a statement is `SELECT * FROM` something, and no more.
pub fn is_whole(statement: &Statement) -> bool
    ensures { result ≡ spec.is_whole statement.now }
{
    match statement {
        Statement::Select {
            items: ItemsTree::All { .. },
            filter,
            groups,
            order,
            ..
        } => filter.is_none() && groups.is_none() && order.is_none(),
        _ => false,
    }
}
