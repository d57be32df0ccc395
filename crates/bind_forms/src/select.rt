//! What a SELECT asks for.

ghost use Rattle.std.specs.Prelude.{◌≡◌, map, IfOk};
ghost use Rattle.std.specs.Option.{option_copied};
ghost use Rattle.bind_forms.specs.Literals.{all_columns};
ghost use Rattle.bind_forms.specs.Plans.{aggregate_of, item_of, items_of, groups_of, oitem_of, order_of, query};

use crate::literal::{all_columns, column_of, columns_of};
use crate::pred::filter_of;
use bind_names::has_aggregate;
use cs_base::{Items, Memory};
use cs_model::{Item, Query};
use cs_types::Schema;
use std::alloc::Global;
use tsql_trees::{Aggregate, ItemTree, ItemsTree, NamesTree, OitemTree, PredTree};

fn aggregate_of(aggregate: Aggregate, column: usize) -> Item
    ensures { result ≡ aggregate_of aggregate column }
{
    match aggregate {
        Aggregate::Count => Item::Count(column),
        Aggregate::Sum => Item::Sum(column),
        Aggregate::Min => Item::Min(column),
        Aggregate::Max => Item::Max(column),
        Aggregate::Avg => Item::Avg(column),
    }
}

fn item_of(schema: &Schema, tree: &ItemTree) -> Item
    ensures { result ≡ item_of schema.now tree.now }
{
    match tree {
        ItemTree::Name(name) => Item::Column(column_of(schema, name)),
        ItemTree::CountAll { .. } => Item::CountAll,
        ItemTree::Aggregate {
            aggregate,
            name,
            ..
        } => aggregate_of(*aggregate, column_of(schema, name)),
    }
}

/// All columns in order.
fn all_items(alloc: Global, schema: &Schema) -> Result<Items<Item>, Memory>
    ensures { IfOk result (λ made. made ≡ map Item.Column (all_columns schema.now)) }
{
    let columns = all_columns(alloc, schema)?;
    let mut made = Items::new(alloc);
    for column in columns.as_slice() {
        made.push(Item::Column(*column))?;
    }
    Ok(made)
}

fn listed_items(alloc: Global, schema: &Schema, trees: &[ItemTree]) -> Result<Items<Item>, Memory>
    ensures { IfOk result (λ made. made ≡ map (item_of schema.now) trees.now) }
{
    let mut made = Items::new(alloc);
    for tree in trees {
        made.push(item_of(schema, tree))?;
    }
    Ok(made)
}

fn items_of(alloc: Global, schema: &Schema, tree: &ItemsTree) -> Result<Items<Item>, Memory>
    ensures { IfOk result (λ made. made ≡ items_of schema.now tree.now) }
{
    match tree {
        ItemsTree::All { .. } => all_items(alloc, schema),
        ItemsTree::List(list) => listed_items(alloc, schema, list.as_slice()),
    }
}

fn groups_of(
    alloc: Global,
    schema: &Schema,
    groups: Option<&NamesTree>,
) -> Result<Items<usize>, Memory>
    ensures { IfOk result (λ made. made ≡ groups_of schema.now (option_copied groups.entry)) }
{
    match groups {
        Some(names) => columns_of(alloc, schema, names.as_slice()),
        None => Ok(Items::new(alloc)),
    }
}

fn ordered(
    alloc: Global,
    schema: &Schema,
    trees: &[OitemTree],
) -> Result<Items<(usize, bool)>, Memory>
    ensures { IfOk result (λ made. made ≡ map (oitem_of schema.now) trees.now) }
{
    let mut made = Items::new(alloc);
    for tree in trees {
        made.push((column_of(schema, &tree.name), tree.descending))?;
    }
    Ok(made)
}

fn order_of(
    alloc: Global,
    schema: &Schema,
    order: Option<&Items<OitemTree>>,
) -> Result<Items<(usize, bool)>, Memory>
    ensures { IfOk result (λ made. made ≡ order_of schema.now (option_copied order.entry)) }
{
    match order {
        Some(list) => ordered(alloc, schema, list.as_slice()),
        None => Ok(Items::new(alloc)),
    }
}

/// What a SELECT asks for: its items, its filter, the columns of GROUP BY and of ORDER BY, and whether rows are put together
/// into groups. `Memory` where there is no room.
pub fn query(
    alloc: Global,
    schema: &Schema,
    items: &ItemsTree,
    filter: Option<&PredTree>,
    groups: Option<&NamesTree>,
    order: Option<&Items<OitemTree>>,
) -> Result<Query, Memory>
    ensures { IfOk result (λ made. made ≡ query schema.now items.now (option_copied filter.entry) (option_copied groups.entry) (option_copied order.entry)) }
{
    let grouped = groups.is_some() || has_aggregate(items);
    let items = items_of(alloc, schema, items)?;
    let filter = filter_of(alloc, schema, filter)?;
    let groups = groups_of(alloc, schema, groups)?;
    let order = order_of(alloc, schema, order)?;
    Ok(Query {
        items,
        filter,
        groups,
        grouped,
        order,
    })
}
