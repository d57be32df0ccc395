//! What a SELECT shows.

ghost use Rattle.std.specs.Prelude.{◌≡◌};
ghost use Rattle.std.specs.List.{list_any};
ghost use Rattle.bind_names.specs.Shown.{is_aggregate, has_aggregate};

use tsql_trees::{ItemTree, ItemsTree};

fn is_aggregate(item: &ItemTree) -> bool
    ensures { result ≡ is_aggregate item.now }
{
    match item {
        ItemTree::Name(_) => false,
        ItemTree::CountAll { .. } | ItemTree::Aggregate { .. } => true,
    }
}

fn any_aggregate(items: &[ItemTree]) -> bool
    ensures { result ≡ list_any is_aggregate items.now }
{
    items.iter().any(|item| is_aggregate(item))
}

/// Whether an aggregate is among what a SELECT shows. `*` is columns alone.
pub fn has_aggregate(items: &ItemsTree) -> bool
    ensures { result ≡ has_aggregate items.now }
{
    match items {
        ItemsTree::All { .. } => false,
        ItemsTree::List(list) => any_aggregate(list.as_slice()),
    }
}
