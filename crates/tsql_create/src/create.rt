//! Reads setup statements.

ghost use Rattle.std.specs.Prelude.{◌≡◌, [], ◌∷◌, ℕ};
ghost use Rattle.tsql_grammar.specs.Terminals.{among};
ghost use Rattle.tsql_grammar.specs.Forms.{next_among, token, optional, mapped, many, seq, either, with_front};
ghost use Rattle.tsql_grammar.specs.Grammar.{word, behind, within, listed, name, table, column_type};
ghost use Rattle.tsql_create.specs.Setup.{primary_key, mark, column_part, constraint_part, key_column, key_part, index_part, table_part, create, create_of, key_part_of};
ghost use Rattle.tsql_exprs.specs.Steps.{Steps};

use crate::tree::{CreateTree, MarkTree, TablePartTree};
use cs_base::Items;
use tsql_exprs::{Grammar, Line, ReadError, Reader};
use tsql_grammar::{Symbol, Terminal};
use tsql_trees::NameTree;

#[tactic(auto, unfolding(crate::specs::Setup::primary_key))]
fn primary_key(reader: &mut Reader<'_>) -> Result<Symbol, ReadError>
    ensures { Steps result reader.new.rest.now ((primary_key).reads reader.old.rest.now) }
{
    let primary = reader.take(Terminal::Primary)?;
    reader.take(Terminal::Key)?;
    let _ = reader.maybe(Terminal::Nonclustered);
    Ok(primary)
}

#[tactic(auto, unfolding(crate::specs::Setup::mark))]
fn mark(reader: &mut Reader<'_>) -> Result<MarkTree, ReadError>
    ensures { Steps result reader.new.rest.now ((mark).reads reader.old.rest.now) }
{
    if reader.begins(Terminal::Null) {
        let null = reader.take(Terminal::Null)?;
        return Ok(MarkTree::Null { place: null.place });
    }
    if reader.begins(Terminal::Not) {
        let not = reader.take(Terminal::Not)?;
        reader.take(Terminal::Null)?;
        return Ok(MarkTree::NotNull { place: not.place });
    }
    let primary = primary_key(reader)?;
    Ok(MarkTree::Key {
        place: primary.place,
    })
}

#[tactic(auto, unfolding(crate::specs::Setup::mark, crate::specs::Setup::primary_key))]
fn begins_mark(reader: &Reader<'_>) -> bool
    ensures { result ≡ next_among mark.first reader.now.rest.now }
{
    reader.begins_among(&[Terminal::Null, Terminal::Not, Terminal::Primary])
}

#[tactic(auto, unfolding(crate::specs::Setup::mark, crate::specs::Setup::primary_key))]
fn marks(grammar: &Grammar<'_>, reader: &mut Reader<'_>) -> Result<Items<MarkTree>, ReadError>
    ensures { Steps result reader.new.rest.now ((many mark).reads reader.old.rest.now) }
{
    let mut list = Items::new(grammar.alloc);
    'more: while begins_mark(reader) {
        let next = mark(reader)?;
        list.push(next)?;
    }
    Ok(list)
}

#[tactic(auto, unfolding(crate::specs::Setup::column_part))]
fn column_part(grammar: &Grammar<'_>, reader: &mut Reader<'_>) -> Result<TablePartTree, ReadError>
    ensures { Steps result reader.new.rest.now ((column_part grammar.now.text.now).reads reader.old.rest.now) }
{
    let name = grammar.name(reader)?;
    let kind = grammar.column_type(reader)?;
    let marks = marks(grammar, reader)?;
    Ok(TablePartTree::Column { name, kind, marks })
}

#[tactic(auto, unfolding(crate::specs::Setup::constraint_part))]
fn maybe_constraint(
    grammar: &Grammar<'_>,
    reader: &mut Reader<'_>,
) -> Result<Option<NameTree>, ReadError>
    ensures { Steps result reader.new.rest.now ((optional (constraint_part grammar.now.text.now)).reads reader.old.rest.now) }
{
    if !reader.begins(Terminal::Constraint) {
        return Ok(None);
    }
    reader.take(Terminal::Constraint)?;
    let name = grammar.name(reader)?;
    Ok(Some(name))
}

#[tactic(auto, unfolding(crate::specs::Setup::key_column))]
fn key_column(grammar: &Grammar<'_>, reader: &mut Reader<'_>) -> Result<NameTree, ReadError>
    ensures { Steps result reader.new.rest.now ((key_column grammar.now.text.now).reads reader.old.rest.now) }
{
    reader.take(Terminal::OpenSign)?;
    let name = grammar.name(reader)?;
    let _ = reader.maybe(Terminal::Asc);
    reader.take(Terminal::CloseSign)?;
    Ok(name)
}

#[tactic(auto, unfolding(crate::specs::Setup::key_part))]
fn key_part(grammar: &Grammar<'_>, reader: &mut Reader<'_>) -> Result<TablePartTree, ReadError>
    ensures { Steps result reader.new.rest.now ((key_part grammar.now.text.now).reads reader.old.rest.now) }
{
    let _ = maybe_constraint(grammar, reader)?;
    let primary = primary_key(reader)?;
    let name = key_column(grammar, reader)?;
    Ok(TablePartTree::Key {
        place: primary.place,
        name,
    })
}

#[tactic(auto, unfolding(crate::specs::Setup::index_part))]
fn index_part(grammar: &Grammar<'_>, reader: &mut Reader<'_>) -> Result<TablePartTree, ReadError>
    ensures { Steps result reader.new.rest.now ((index_part grammar.now.text.now).reads reader.old.rest.now) }
{
    reader.take(Terminal::Index)?;
    let name = grammar.name(reader)?;
    reader.take(Terminal::Clustered)?;
    reader.take(Terminal::Columnstore)?;
    Ok(TablePartTree::Index { name })
}

#[tactic(auto, unfolding(crate::specs::Setup::column_part, tsql_grammar::specs::Grammar::name))]
fn begins_column(grammar: &Grammar<'_>, reader: &Reader<'_>) -> bool
    ensures { result ≡ next_among (column_part grammar.now.text.now).first reader.now.rest.now }
{
    grammar.begins_name(reader)
}

#[tactic(auto, unfolding(crate::specs::Setup::key_part, crate::specs::Setup::constraint_part, crate::specs::Setup::primary_key))]
fn begins_key(grammar: &Grammar<'_>, reader: &Reader<'_>) -> bool
    ensures { result ≡ next_among (key_part grammar.now.text.now).first reader.now.rest.now }
{
    reader.begins(Terminal::Constraint) || reader.begins(Terminal::Primary)
}

/// A part of the table.
struct TablePartLine;

impl Line for TablePartLine {
    type Tree = TablePartTree;

    ghost form = { λ text n. table_part text };

    #[tactic(auto, unfolding(crate::specs::Setup::table_part))]
    fn read(grammar: &Grammar<'_>, reader: &mut Reader<'_>) -> Result<TablePartTree, ReadError> {
        if begins_column(grammar, reader) {
            return column_part(grammar, reader);
        }
        if begins_key(grammar, reader) {
            return key_part(grammar, reader);
        }
        index_part(grammar, reader)
    }
}

#[tactic(auto, unfolding(crate::specs::Setup::create))]
pub fn create_tree(grammar: &Grammar<'_>, reader: &mut Reader<'_>) -> Result<CreateTree, ReadError>
    ensures { Steps result reader.new.rest.now ((create grammar.now.text.now).reads reader.old.rest.now) }
{
    reader.take(Terminal::Create)?;
    reader.take(Terminal::Table)?;
    let table = grammar.table(reader)?;
    reader.take(Terminal::OpenSign)?;
    let parts = grammar.listed::<TablePartLine>(reader)?;
    reader.take(Terminal::CloseSign)?;
    let _ = reader.maybe(Terminal::SemicolonSign);
    Ok(CreateTree { table, parts })
}
