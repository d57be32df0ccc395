//! Parts of statements.

ghost use Rattle.std.specs.Prelude.{◌≡◌, [], ◌∷◌, ℕ};
ghost use Rattle.tsql_grammar.specs.Terminals.{among};
ghost use Rattle.tsql_grammar.specs.Forms.{next_among, token, optional, mapped, either, many, seq, with_front};
ghost use Rattle.tsql_grammar.specs.Values.{is_descending};
ghost use Rattle.tsql_grammar.specs.Grammar.{behind, within, listed, name, names, expr, row, values, series, set_part, whole, index, where_part, group_part, order_part, oitem, compress_part};
ghost use Rattle.tsql_exprs.specs.Steps.{Steps};

use cs_base::Items;
use tsql_exprs::{ExprLine, Grammar, Line, ReadError, Reader};
use tsql_grammar::{Symbol, Terminal, is_same};
use tsql_trees::{
    ExprTree, NameTree, NamesTree, NumberTree, OitemTree, PredTree, RowTree, SeriesTree, SetTree,
    SourceTree,
};

/// A row.
struct RowLine;

impl Line for RowLine {
    type Tree = RowTree;

    ghost form = { row };

    #[tactic(auto, unfolding(tsql_grammar::specs::Grammar::row))]
    fn read(grammar: &Grammar<'_>, reader: &mut Reader<'_>) -> Result<RowTree, ReadError> {
        let opened = reader.take(Terminal::OpenSign)?;
        let exprs = grammar.listed::<ExprLine>(reader)?;
        reader.take(Terminal::CloseSign)?;
        Ok(RowTree {
            place: opened.place,
            exprs,
        })
    }
}

#[tactic(auto, unfolding(tsql_grammar::specs::Grammar::values))]
fn values(grammar: &Grammar<'_>, reader: &mut Reader<'_>) -> Result<SourceTree, ReadError>
    ensures { Steps result reader.new.rest.now ((values grammar.now.text.now grammar.now.depth).reads reader.old.rest.now) }
{
    reader.take(Terminal::Values)?;
    let rows = grammar.listed::<RowLine>(reader)?;
    Ok(SourceTree::Values(rows))
}

fn series_bounds(
    grammar: &Grammar<'_>,
    reader: &mut Reader<'_>,
) -> Result<(NumberTree, NumberTree), ReadError>
    ensures { Steps result reader.new.rest.now ((within (seq (whole grammar.now.text.now) (behind Terminal.CommaSign (whole grammar.now.text.now)))).reads reader.old.rest.now) }
{
    reader.take(Terminal::OpenSign)?;
    let start = grammar.whole(reader)?;
    reader.take(Terminal::CommaSign)?;
    let stop = grammar.whole(reader)?;
    reader.take(Terminal::CloseSign)?;
    Ok((start, stop))
}

#[tactic(auto, unfolding(tsql_grammar::specs::Grammar::series))]
fn series(grammar: &Grammar<'_>, reader: &mut Reader<'_>) -> Result<SourceTree, ReadError>
    ensures { Steps result reader.new.rest.now ((series grammar.now.text.now grammar.now.depth).reads reader.old.rest.now) }
{
    reader.take(Terminal::Select)?;
    let exprs = grammar.listed::<ExprLine>(reader)?;
    reader.take(Terminal::From)?;
    let word = reader.take(Terminal::GenerateSeries)?;
    let (start, stop) = series_bounds(grammar, reader)?;
    Ok(SourceTree::Series(SeriesTree {
        exprs,
        place: word.place,
        start,
        stop,
    }))
}

/// Reads what an INSERT inserts.
#[tactic(auto, unfolding(tsql_grammar::specs::Grammar::values))]
pub fn source(grammar: &Grammar<'_>, reader: &mut Reader<'_>) -> Result<SourceTree, ReadError>
    ensures { Steps result reader.new.rest.now ((either (values grammar.now.text.now grammar.now.depth) (series grammar.now.text.now grammar.now.depth)).reads reader.old.rest.now) }
{
    if reader.begins(Terminal::Values) {
        return values(grammar, reader);
    }
    series(grammar, reader)
}

/// Reads the names of an INSERT, where they are there.
pub fn column_names(
    grammar: &Grammar<'_>,
    reader: &mut Reader<'_>,
) -> Result<Option<NamesTree>, ReadError>
    ensures { Steps result reader.new.rest.now ((optional (within (names grammar.now.text.now))).reads reader.old.rest.now) }
{
    if !reader.begins(Terminal::OpenSign) {
        return Ok(None);
    }
    reader.take(Terminal::OpenSign)?;
    let names = grammar.names(reader)?;
    reader.take(Terminal::CloseSign)?;
    Ok(Some(names))
}

/// A part of SET.
struct SetLine;

impl Line for SetLine {
    type Tree = SetTree;

    ghost form = { set_part };

    #[tactic(auto, unfolding(tsql_grammar::specs::Grammar::set_part))]
    fn read(grammar: &Grammar<'_>, reader: &mut Reader<'_>) -> Result<SetTree, ReadError> {
        let name = grammar.name(reader)?;
        reader.take(Terminal::EqualSign)?;
        let expr = grammar.expr_tree(reader)?;
        Ok(SetTree { name, expr })
    }
}

/// `name "=" expr {"," name "=" expr}`, the parts of SET in an UPDATE.
pub fn sets(grammar: &Grammar<'_>, reader: &mut Reader<'_>) -> Result<Items<SetTree>, ReadError>
    ensures { Steps result reader.new.rest.now ((listed (set_part grammar.now.text.now grammar.now.depth)).reads reader.old.rest.now) }
{
    grammar.listed::<SetLine>(reader)
}

/// Reads ALL or the name of an index.
#[tactic(auto, unfolding(tsql_grammar::specs::Grammar::index))]
pub fn index(grammar: &Grammar<'_>, reader: &mut Reader<'_>) -> Result<Option<NameTree>, ReadError>
    ensures { Steps result reader.new.rest.now ((index grammar.now.text.now).reads reader.old.rest.now) }
{
    if reader.begins(Terminal::All) {
        reader.take(Terminal::All)?;
        return Ok(None);
    }
    let name = grammar.name(reader)?;
    Ok(Some(name))
}

#[tactic(auto, unfolding(tsql_grammar::specs::Grammar::where_part))]
fn where_clause(grammar: &Grammar<'_>, reader: &mut Reader<'_>) -> Result<PredTree, ReadError>
    ensures { Steps result reader.new.rest.now ((where_part grammar.now.text.now grammar.now.depth).reads reader.old.rest.now) }
{
    reader.take(Terminal::Where)?;
    grammar.pred_tree(reader)
}

/// Reads WHERE and its predicate, where they are there.
#[tactic(auto, unfolding(tsql_grammar::specs::Grammar::where_part))]
pub fn filter(grammar: &Grammar<'_>, reader: &mut Reader<'_>) -> Result<Option<PredTree>, ReadError>
    ensures { Steps result reader.new.rest.now ((optional (where_part grammar.now.text.now grammar.now.depth)).reads reader.old.rest.now) }
{
    if !reader.begins(Terminal::Where) {
        return Ok(None);
    }
    let filter = where_clause(grammar, reader)?;
    Ok(Some(filter))
}

#[tactic(auto, unfolding(tsql_grammar::specs::Grammar::group_part))]
fn group_clause(grammar: &Grammar<'_>, reader: &mut Reader<'_>) -> Result<NamesTree, ReadError>
    ensures { Steps result reader.new.rest.now ((group_part grammar.now.text.now).reads reader.old.rest.now) }
{
    reader.take(Terminal::Group)?;
    reader.take(Terminal::By)?;
    grammar.names(reader)
}

/// Reads GROUP BY and its names, where they are there.
#[tactic(auto, unfolding(tsql_grammar::specs::Grammar::group_part))]
pub fn groups(
    grammar: &Grammar<'_>,
    reader: &mut Reader<'_>,
) -> Result<Option<NamesTree>, ReadError>
    ensures { Steps result reader.new.rest.now ((optional (group_part grammar.now.text.now)).reads reader.old.rest.now) }
{
    if !reader.begins(Terminal::Group) {
        return Ok(None);
    }
    let names = group_clause(grammar, reader)?;
    Ok(Some(names))
}

fn is_descending(order: Option<Symbol>) -> bool
    ensures { result ≡ is_descending order }
{
    match order {
        Some(symbol) => is_same(symbol.terminal, Terminal::Desc),
        None => false,
    }
}

/// A part of ORDER BY.
struct OitemLine;

impl Line for OitemLine {
    type Tree = OitemTree;

    ghost form = { λ text n. oitem text };

    #[tactic(auto, unfolding(tsql_grammar::specs::Grammar::oitem))]
    fn read(grammar: &Grammar<'_>, reader: &mut Reader<'_>) -> Result<OitemTree, ReadError> {
        let name = grammar.name(reader)?;
        let order = reader.maybe_among(&[Terminal::Asc, Terminal::Desc]);
        Ok(OitemTree {
            name,
            descending: is_descending(order),
        })
    }
}

#[tactic(auto, unfolding(tsql_grammar::specs::Grammar::order_part))]
fn order_clause(
    grammar: &Grammar<'_>,
    reader: &mut Reader<'_>,
) -> Result<Items<OitemTree>, ReadError>
    ensures { Steps result reader.new.rest.now ((order_part grammar.now.text.now).reads reader.old.rest.now) }
{
    reader.take(Terminal::Order)?;
    reader.take(Terminal::By)?;
    grammar.listed::<OitemLine>(reader)
}

/// Reads ORDER BY and its items, where they are there.
#[tactic(auto, unfolding(tsql_grammar::specs::Grammar::order_part))]
pub fn order(
    grammar: &Grammar<'_>,
    reader: &mut Reader<'_>,
) -> Result<Option<Items<OitemTree>>, ReadError>
    ensures { Steps result reader.new.rest.now ((optional (order_part grammar.now.text.now)).reads reader.old.rest.now) }
{
    if !reader.begins(Terminal::Order) {
        return Ok(None);
    }
    let oitems = order_clause(grammar, reader)?;
    Ok(Some(oitems))
}

#[tactic(auto, unfolding(tsql_grammar::specs::Grammar::compress_part))]
fn compress_clause(grammar: &Grammar<'_>, reader: &mut Reader<'_>) -> Result<bool, ReadError>
    ensures { Steps result reader.new.rest.now (compress_part.reads reader.old.rest.now) }
{
    reader.take(Terminal::With)?;
    reader.take(Terminal::OpenSign)?;
    reader.take(Terminal::CompressAllRowGroups)?;
    reader.take(Terminal::EqualSign)?;
    let on = grammar.on_off(reader)?;
    reader.take(Terminal::CloseSign)?;
    Ok(on)
}

/// Reads WITH (COMPRESS_ALL_ROW_GROUPS = ON) or OFF, where it is there.
#[tactic(auto, unfolding(tsql_grammar::specs::Grammar::compress_part))]
pub fn compress(grammar: &Grammar<'_>, reader: &mut Reader<'_>) -> Result<Option<bool>, ReadError>
    ensures { Steps result reader.new.rest.now ((optional compress_part).reads reader.old.rest.now) }
{
    if !reader.begins(Terminal::With) {
        return Ok(None);
    }
    let on = compress_clause(grammar, reader)?;
    Ok(Some(on))
}
