//! What a SELECT shows, groups by and orders by.

ghost use Rattle.std.specs.Prelude.{◌≡◌};
ghost use Rattle.std.specs.List.{flat_map};
ghost use Rattle.bind_faults.specs.Least.{least};
ghost use Rattle.bind_faults.specs.Queries.{group_names, is_grouping, name_faults, aggregate_faults, item_faults, lacks_column, items_faults, order_item_faults, order_faults, query_faults};

use crate::column::no_column_fault;
use crate::expr::is_decimal;
use crate::family::{Family, differ, family_of};
use crate::fault::{
    Fault, ITEM_NOT_GROUPED, NO_NUMBER, ORDER_NOT_GROUPED, UNSUPPORTED, earlier, fault_if,
};
use crate::setting::{kind_of, named_in, unknown_column};
use bind_names::has_aggregate;
use cs_base::Items;
use cs_types::{ColumnType, Schema};
use tsql_trees::{Aggregate, ItemTree, ItemsTree, NameTree, NamesTree, OitemTree};

/// The grouping columns.
fn group_names(groups: &Option<NamesTree>) -> &[NameTree]
    ensures { result.now ≡ group_names groups.now }
{
    match groups {
        Some(names) => names.as_slice(),
        None => &[],
    }
}

/// Whether a query has GROUP BY or an aggregate.
fn is_grouping(groups: &Option<NamesTree>, items: &ItemsTree) -> bool
    ensures { result ≡ is_grouping groups.now items.now }
{
    groups.is_some() || has_aggregate(items)
}

/// A name that is no column, or in a grouping query one that is not grouped.
#[tactic(auto, using(crate::proofs::Leasts::least_append))]
fn name_fault(
    schema: &Schema,
    grouping: bool,
    groups: &[NameTree],
    number: u32,
    name: &NameTree,
) -> Option<Fault>
    ensures { result ≡ least (name_faults schema.now grouping groups.now number name.now) }
{
    let known = kind_of(schema, name).is_some();
    let loose = grouping && known && !named_in(groups, name.bytes.as_slice());
    earlier(
        unknown_column(schema, name),
        fault_if(loose, number, name.place),
    )
}

/// An aggregate of a column of a type, or of none.
#[tactic(auto, using(crate::proofs::Leasts::least_append))]
fn aggregate_fault(aggregate: Aggregate, kind: Option<ColumnType>, at: u32) -> Option<Fault>
    ensures { result ≡ least (aggregate_faults aggregate kind at) }
{
    let other = differ(Family::Number, family_of(kind));
    match aggregate {
        Aggregate::Sum => fault_if(other, NO_NUMBER, at),
        Aggregate::Avg => earlier(
            fault_if(other, NO_NUMBER, at),
            fault_if(is_decimal(kind), UNSUPPORTED, at),
        ),
        _ => None,
    }
}

#[tactic(auto, using(crate::proofs::Leasts::least_append))]
fn item_fault(
    schema: &Schema,
    grouping: bool,
    groups: &[NameTree],
    item: &ItemTree,
) -> Option<Fault>
    ensures { result ≡ least (item_faults schema.now grouping groups.now item.now) }
{
    match item {
        ItemTree::Name(name) => name_fault(schema, grouping, groups, ITEM_NOT_GROUPED, name),
        ItemTree::CountAll { .. } => None,
        ItemTree::Aggregate {
            place,
            aggregate,
            name,
        } => {
            let kind = kind_of(schema, name);
            earlier(
                aggregate_fault(*aggregate, kind, *place),
                unknown_column(schema, name),
            )
        }
    }
}

/// Whether some column of the table is not grouped.
fn lacks_column(schema: &Schema, groups: &[NameTree]) -> bool
    ensures { result ≡ lacks_column schema.now groups.now }
{
    schema
        .columns
        .as_slice()
        .iter()
        .any(|column| !named_in(groups, column.name.as_slice()))
}

fn list_fault(
    schema: &Schema,
    grouping: bool,
    groups: &[NameTree],
    items: &[ItemTree],
) -> Option<Fault>
    ensures { result ≡ least (flat_map (item_faults schema.now grouping groups.now) items.now) }
{
    let mut found = None;
    for item in items {
        found = earlier(found, item_fault(schema, grouping, groups, item));
    }
    found
}

fn items_fault(
    schema: &Schema,
    grouping: bool,
    groups: &[NameTree],
    items: &ItemsTree,
) -> Option<Fault>
    ensures { result ≡ least (items_faults schema.now grouping groups.now items.now) }
{
    match items {
        ItemsTree::All { place } => {
            let lacks = grouping && lacks_column(schema, groups);
            fault_if(lacks, ITEM_NOT_GROUPED, *place)
        }
        ItemsTree::List(list) => list_fault(schema, grouping, groups, list.as_slice()),
    }
}

fn order_list_fault(
    schema: &Schema,
    grouping: bool,
    groups: &[NameTree],
    order: &[OitemTree],
) -> Option<Fault>
    ensures { result ≡ least (flat_map (order_item_faults schema.now grouping groups.now) order.now) }
{
    let mut found = None;
    for item in order {
        let next = name_fault(schema, grouping, groups, ORDER_NOT_GROUPED, &item.name);
        found = earlier(found, next);
    }
    found
}

/// The first fault of ORDER BY.
fn order_fault(
    schema: &Schema,
    grouping: bool,
    groups: &[NameTree],
    order: &Option<Items<OitemTree>>,
) -> Option<Fault>
    ensures { result ≡ least (order_faults schema.now grouping groups.now order.now) }
{
    match order {
        Some(order) => order_list_fault(schema, grouping, groups, order.as_slice()),
        None => None,
    }
}

/// The first fault of a SELECT outside its WHERE.
#[tactic(auto, using(crate::proofs::Leasts::least_append))]
pub fn query_fault(
    schema: &Schema,
    items: &ItemsTree,
    groups: &Option<NamesTree>,
    order: &Option<Items<OitemTree>>,
) -> Option<Fault>
    ensures { result ≡ least (query_faults schema.now items.now groups.now order.now) }
{
    let grouping = is_grouping(groups, items);
    let names = group_names(groups);
    let by_items = earlier(
        items_fault(schema, grouping, names, items),
        no_column_fault(schema, names),
    );
    earlier(by_items, order_fault(schema, grouping, names, order))
}
