//! The limits of lists in statements.

ghost use Rattle.std.specs.Prelude.{◌≡◌, length};
ghost use Rattle.tsql_reader.specs.Limits.{first_of, row_over, item_place, item_over, next_place, value_behind, value_over, name_over, oitem_over, order_over, passed_limit};

use cs_base::Items;
use tsql_grammar::{Symbol, Terminal, is_same};
use tsql_trees::{ItemTree, ItemsTree, NamesTree, OitemTree, SourceTree, Statement};

/// How many rows VALUES may have, and values IN.
const MOST_ROWS: usize = 1_000;

/// How many items a SELECT may show.
const MOST_ITEMS: usize = 64;

/// How many names GROUP BY and ORDER BY may have.
const MOST_NAMES: usize = 32;

fn row_over(statement: &Statement) -> Option<u32>
    ensures { result ≡ row_over statement.now }
{
    match statement {
        Statement::Insert {
            source: SourceTree::Values(rows),
            ..
        } => rows.get(MOST_ROWS).map(|row| row.place),
        _ => None,
    }
}

fn item_place(item: &ItemTree) -> u32
    ensures { result ≡ item_place item.now }
{
    match item {
        ItemTree::Name(name) => name.place,
        ItemTree::CountAll { place } | ItemTree::Aggregate { place, .. } => *place,
    }
}

fn item_over(statement: &Statement) -> Option<u32>
    ensures { result ≡ item_over statement.now }
{
    match statement {
        Statement::Select {
            items: ItemsTree::List(items),
            ..
        } => items.get(MOST_ITEMS).map(item_place),
        _ => None,
    }
}

fn next_place(symbols: &[Symbol]) -> Option<u32>
    ensures { result ≡ next_place symbols.now }
{
    match symbols {
        [symbol, ..] => Some(symbol.place),
        [] => None,
    }
}

/// The 1,001st value of a list in parentheses.
fn value_behind(symbols: &[Symbol]) -> Option<u32>
    ensures { result ≡ value_behind 999 symbols.now }
{
    let mut left = 999u32;
    let mut rest = symbols;
    'more: while let [symbol, next @ ..] = rest {
        if is_same(symbol.terminal, Terminal::CloseSign) {
            return None;
        }
        if is_same(symbol.terminal, Terminal::CommaSign) {
            if left == 0 {
                return next_place(next);
            }
            left -= 1;
        }
        rest = next;
    }
    None
}

/// The first 1,001st value of an IN.
fn value_over(symbols: &[Symbol]) -> Option<u32>
    ensures { result ≡ value_over symbols.now }
{
    let mut rest = symbols;
    'more: while let [symbol, next @ ..] = rest {
        if is_same(symbol.terminal, Terminal::In) {
            if let Some(place) = value_behind(next) {
                return Some(place);
            }
        }
        rest = next;
    }
    None
}

fn name_over(names: &Option<NamesTree>) -> Option<u32>
    ensures { result ≡ name_over names.now }
{
    match names {
        Some(names) => names.get(MOST_NAMES).map(|name| name.place),
        None => None,
    }
}

fn oitem_over(oitems: &Option<Items<OitemTree>>) -> Option<u32>
    ensures { result ≡ oitem_over oitems.now }
{
    match oitems {
        Some(oitems) => oitems.get(MOST_NAMES).map(|oitem| oitem.name.place),
        None => None,
    }
}

fn order_over(statement: &Statement) -> Option<u32>
    ensures { result ≡ order_over statement.now }
{
    match statement {
        Statement::Select { groups, order, .. } => name_over(groups).or(oitem_over(order)),
        _ => None,
    }
}

/// The number and the place of the first element over a limit.
pub fn passed_limit(symbols: &[Symbol], statement: &Statement) -> Option<(u32, u32)>
    ensures { result ≡ passed_limit symbols.now statement.now }
{
    if let Some(place) = row_over(statement) {
        return Some((10_738, place));
    }
    if let Some(place) = item_over(statement) {
        return Some((50_001, place));
    }
    if let Some(place) = value_over(symbols) {
        return Some((50_001, place));
    }
    order_over(statement).map(|place| (50_001, place))
}
