//! What a SELECT shows.

ghost use Rattle.std.specs.Prelude.{◌≡◌, [], ◌∷◌, ℕ, false, None, IfOk, IfErr};
ghost use Rattle.tsql_grammar.specs.Terminals.{among};
ghost use Rattle.tsql_grammar.specs.Forms.{next_among, token, optional, mapped, many, seq, with_front};
ghost use Rattle.tsql_grammar.specs.Values.{name_of, aggregate_in};
ghost use Rattle.tsql_grammar.specs.Grammar.{behind, within, listed, word, name, names, column_aggregates, other_names, counted, aggregated, item, all_items, item_list, named_or};
ghost use Rattle.tsql_trees.specs.declared.statement.ItemTree.TheVariants as its;
ghost use Rattle.tsql_exprs.specs.Steps.{Steps};

use tsql_exprs::{Grammar, Line, ReadError, Reader, name_of};
use tsql_grammar::{Symbol, Terminal};
use tsql_trees::{Aggregate, ItemTree, ItemsTree};

/// The aggregates of a column.
const COLUMN_AGGREGATES: [Terminal; 4] = [
    Terminal::Sum,
    Terminal::Min,
    Terminal::Max,
    Terminal::Avg,
];

fn aggregate_in(terminal: Terminal) -> Aggregate
    ensures { result ≡ aggregate_in terminal }
{
    match terminal {
        Terminal::Count => Aggregate::Count,
        Terminal::Sum => Aggregate::Sum,
        Terminal::Min => Aggregate::Min,
        Terminal::Max => Aggregate::Max,
        _ => Aggregate::Avg,
    }
}

/// Reads what stands after COUNT: a `*` or a name, in parentheses.
#[tactic(auto, unfolding(tsql_grammar::specs::Grammar::counted))]
fn counted(
    grammar: &Grammar<'_>,
    reader: &mut Reader<'_>,
    count: Symbol,
) -> Result<ItemTree, ReadError>
    ensures { Steps result reader.new.rest.now ((mapped (λ f. f count) (counted grammar.now.text.now)).reads reader.old.rest.now) }
{
    reader.take(Terminal::OpenSign)?;
    if reader.begins(Terminal::StarSign) {
        reader.take(Terminal::StarSign)?;
        reader.take(Terminal::CloseSign)?;
        return Ok(ItemTree::CountAll { place: count.place });
    }
    let name = grammar.name(reader)?;
    reader.take(Terminal::CloseSign)?;
    Ok(ItemTree::Aggregate {
        place: count.place,
        aggregate: aggregate_in(count.terminal),
        name,
    })
}

/// Reads what stands after another aggregate: a name in parentheses.
#[tactic(auto, unfolding(tsql_grammar::specs::Grammar::aggregated))]
fn aggregated(
    grammar: &Grammar<'_>,
    reader: &mut Reader<'_>,
    symbol: Symbol,
) -> Result<ItemTree, ReadError>
    ensures { Steps result reader.new.rest.now ((mapped (λ f. f symbol) (aggregated grammar.now.text.now)).reads reader.old.rest.now) }
{
    reader.take(Terminal::OpenSign)?;
    let name = grammar.name(reader)?;
    reader.take(Terminal::CloseSign)?;
    Ok(ItemTree::Aggregate {
        place: symbol.place,
        aggregate: aggregate_in(symbol.terminal),
        name,
    })
}

fn named(grammar: &Grammar<'_>, symbol: Symbol) -> Result<ItemTree, ReadError>
    ensures ok { IfOk result (λ item. item ≡ named_or grammar.now.text.now (symbol, None)) }
    ensures err { IfErr result (λ e. e ≡ ReadError.Memory) }
{
    let name = name_of(grammar.alloc, grammar.text, &symbol)?;
    Ok(ItemTree::Name(name))
}

/// Reads COUNT, as an aggregate where a parenthesis follows it, and else as a name.
#[tactic(auto, unfolding(tsql_grammar::specs::Grammar::counted))]
fn count_item(grammar: &Grammar<'_>, reader: &mut Reader<'_>) -> Result<ItemTree, ReadError>
    ensures { Steps result reader.new.rest.now ((mapped (named_or grammar.now.text.now) (seq (word Terminal.Count) (optional (counted grammar.now.text.now)))).reads reader.old.rest.now) }
{
    let count = reader.take(Terminal::Count)?;
    if !reader.begins(Terminal::OpenSign) {
        return named(grammar, count);
    }
    counted(grammar, reader, count)
}

/// Reads another aggregate, or a name that it is.
#[tactic(auto, unfolding(tsql_grammar::specs::Grammar::aggregated))]
fn aggregate_item(grammar: &Grammar<'_>, reader: &mut Reader<'_>) -> Result<ItemTree, ReadError>
    ensures { Steps result reader.new.rest.now ((mapped (named_or grammar.now.text.now) (seq (token column_aggregates) (optional (aggregated grammar.now.text.now)))).reads reader.old.rest.now) }
{
    let symbol = reader.take_among(&COLUMN_AGGREGATES)?;
    if !reader.begins(Terminal::OpenSign) {
        return named(grammar, symbol);
    }
    aggregated(grammar, reader, symbol)
}

/// Reads a name that is no aggregate.
fn other_item(grammar: &Grammar<'_>, reader: &mut Reader<'_>) -> Result<ItemTree, ReadError>
    requires count { next_among (Terminal.Count ∷ []) reader.old.rest.now ≡ false }
    requires aggregate { next_among column_aggregates reader.old.rest.now ≡ false }
    ensures { Steps result reader.new.rest.now ((mapped its.Name (mapped (name_of grammar.now.text.now) (token other_names))).reads reader.old.rest.now) }
{
    let name = grammar.name(reader)?;
    Ok(ItemTree::Name(name))
}

/// An item.
struct ItemLine;

impl Line for ItemLine {
    type Tree = ItemTree;

    ghost form = { λ text n. item text };

    #[tactic(auto, unfolding(tsql_grammar::specs::Grammar::item, tsql_grammar::specs::Grammar::item_read))]
    fn read(grammar: &Grammar<'_>, reader: &mut Reader<'_>) -> Result<ItemTree, ReadError> {
        if reader.begins(Terminal::Count) {
            return count_item(grammar, reader);
        }
        if reader.begins_among(&COLUMN_AGGREGATES) {
            return aggregate_item(grammar, reader);
        }
        other_item(grammar, reader)
    }
}

/// Reads the `*` of a SELECT that shows all.
#[tactic(auto, unfolding(tsql_grammar::specs::Grammar::all_items))]
pub fn all_items(reader: &mut Reader<'_>) -> Result<ItemsTree, ReadError>
    ensures { Steps result reader.new.rest.now (all_items.reads reader.old.rest.now) }
{
    let star = reader.take(Terminal::StarSign)?;
    Ok(ItemsTree::All { place: star.place })
}

/// Reads the list of what a SELECT shows.
#[tactic(auto, unfolding(tsql_grammar::specs::Grammar::item_list))]
pub fn item_list(grammar: &Grammar<'_>, reader: &mut Reader<'_>) -> Result<ItemsTree, ReadError>
    ensures { Steps result reader.new.rest.now ((item_list grammar.now.text.now).reads reader.old.rest.now) }
{
    let list = grammar.listed::<ItemLine>(reader)?;
    Ok(ItemsTree::List(list))
}
