//! Statements.

ghost use Rattle.std.specs.Prelude.{◌≡◌, [], ◌∷◌, ℕ};
ghost use Rattle.tsql_grammar.specs.Terminals.{among};
ghost use Rattle.tsql_grammar.specs.Forms.{next_among, token, optional, mapped, many, seq, with_front};
ghost use Rattle.tsql_grammar.specs.Grammar.{behind, maybe_behind, begin_statement, commit_statement, rollback_statement, set_snapshot, set_statistics, set_lock_timeout, set_read, set_statement, alter_index, alter_statement, insert_statement, update_statement, delete_statement, queried, select_statement, statement, line};
ghost use Rattle.tsql_exprs.specs.Steps.{Steps};

use crate::item::{all_items, item_list};
use crate::parts::{column_names, compress, filter, groups, index, order, sets, source};
use tsql_exprs::{Grammar, ReadError, Reader};
use tsql_grammar::{Symbol, Terminal, is_same};
use tsql_trees::{ItemsTree, Statement};

#[tactic(auto, unfolding(tsql_grammar::specs::Grammar::begin_statement))]
fn begin(reader: &mut Reader<'_>) -> Result<Statement, ReadError>
    ensures { Steps result reader.new.rest.now ((begin_statement).reads reader.old.rest.now) }
{
    reader.take(Terminal::Begin)?;
    reader.take_among(&[Terminal::Tran, Terminal::Transaction])?;
    Ok(Statement::Begin)
}

#[tactic(auto, unfolding(tsql_grammar::specs::Grammar::commit_statement))]
fn commit(reader: &mut Reader<'_>) -> Result<Statement, ReadError>
    ensures { Steps result reader.new.rest.now ((commit_statement).reads reader.old.rest.now) }
{
    reader.take(Terminal::Commit)?;
    let _ = reader.maybe_among(&[Terminal::Tran, Terminal::Transaction, Terminal::Work]);
    Ok(Statement::Commit)
}

#[tactic(auto, unfolding(tsql_grammar::specs::Grammar::rollback_statement))]
fn rollback(reader: &mut Reader<'_>) -> Result<Statement, ReadError>
    ensures { Steps result reader.new.rest.now ((rollback_statement).reads reader.old.rest.now) }
{
    reader.take(Terminal::Rollback)?;
    let _ = reader.maybe_among(&[Terminal::Tran, Terminal::Transaction, Terminal::Work]);
    Ok(Statement::Rollback)
}

#[tactic(auto, unfolding(tsql_grammar::specs::Grammar::set_snapshot))]
fn set_snapshot(reader: &mut Reader<'_>) -> Result<Statement, ReadError>
    ensures { Steps result reader.new.rest.now ((set_snapshot).reads reader.old.rest.now) }
{
    reader.take(Terminal::Transaction)?;
    reader.take(Terminal::Isolation)?;
    reader.take(Terminal::Level)?;
    reader.take(Terminal::Snapshot)?;
    Ok(Statement::SetSnapshot)
}

#[tactic(auto, unfolding(tsql_grammar::specs::Grammar::set_statistics))]
fn set_statistics(grammar: &Grammar<'_>, reader: &mut Reader<'_>) -> Result<Statement, ReadError>
    ensures { Steps result reader.new.rest.now ((set_statistics).reads reader.old.rest.now) }
{
    reader.take(Terminal::Statistics)?;
    reader.take(Terminal::Io)?;
    let on = grammar.on_off(reader)?;
    Ok(Statement::SetStatistics { on })
}

#[tactic(auto, unfolding(tsql_grammar::specs::Grammar::set_lock_timeout))]
fn set_lock_timeout(grammar: &Grammar<'_>, reader: &mut Reader<'_>) -> Result<Statement, ReadError>
    ensures { Steps result reader.new.rest.now ((set_lock_timeout grammar.now.text.now).reads reader.old.rest.now) }
{
    reader.take(Terminal::LockTimeout)?;
    let number = grammar.unsigned(reader)?;
    Ok(Statement::SetLockTimeout { number })
}

#[tactic(auto, unfolding(tsql_grammar::specs::Grammar::set_statement, tsql_grammar::specs::Grammar::set_read, tsql_grammar::specs::Grammar::set_snapshot, tsql_grammar::specs::Grammar::set_statistics))]
fn set(grammar: &Grammar<'_>, reader: &mut Reader<'_>) -> Result<Statement, ReadError>
    ensures { Steps result reader.new.rest.now ((set_statement grammar.now.text.now).reads reader.old.rest.now) }
{
    reader.take(Terminal::Set)?;
    if reader.begins(Terminal::Transaction) {
        return set_snapshot(reader);
    }
    if reader.begins(Terminal::Statistics) {
        return set_statistics(grammar, reader);
    }
    set_lock_timeout(grammar, reader)
}

#[tactic(auto, unfolding(tsql_grammar::specs::Grammar::alter_index))]
fn alter_index(grammar: &Grammar<'_>, reader: &mut Reader<'_>) -> Result<Statement, ReadError>
    ensures { Steps result reader.new.rest.now ((alter_index grammar.now.text.now).reads reader.old.rest.now) }
{
    reader.take(Terminal::Index)?;
    let index = index(grammar, reader)?;
    reader.take(Terminal::On)?;
    let table = grammar.table(reader)?;
    reader.take(Terminal::Reorganize)?;
    let compress = compress(grammar, reader)?;
    Ok(Statement::AlterIndex {
        index,
        table,
        compress,
    })
}

#[tactic(auto, unfolding(tsql_grammar::specs::Grammar::alter_statement, tsql_grammar::specs::Grammar::altered))]
fn alter(grammar: &Grammar<'_>, reader: &mut Reader<'_>) -> Result<Statement, ReadError>
    ensures { Steps result reader.new.rest.now ((alter_statement grammar.now.text.now).reads reader.old.rest.now) }
{
    reader.take(Terminal::Alter)?;
    alter_index(grammar, reader)
}

#[tactic(auto, unfolding(tsql_grammar::specs::Grammar::insert_statement))]
fn insert(grammar: &Grammar<'_>, reader: &mut Reader<'_>) -> Result<Statement, ReadError>
    ensures { Steps result reader.new.rest.now ((insert_statement grammar.now.text.now grammar.now.depth).reads reader.old.rest.now) }
{
    reader.take(Terminal::Insert)?;
    let _ = reader.maybe(Terminal::Into);
    let table = grammar.table(reader)?;
    let names = column_names(grammar, reader)?;
    let source = source(grammar, reader)?;
    Ok(Statement::Insert {
        table,
        names,
        source,
    })
}

#[tactic(auto, unfolding(tsql_grammar::specs::Grammar::update_statement))]
fn update(grammar: &Grammar<'_>, reader: &mut Reader<'_>) -> Result<Statement, ReadError>
    ensures { Steps result reader.new.rest.now ((update_statement grammar.now.text.now grammar.now.depth).reads reader.old.rest.now) }
{
    reader.take(Terminal::Update)?;
    let table = grammar.table(reader)?;
    reader.take(Terminal::Set)?;
    let sets = sets(grammar, reader)?;
    let filter = filter(grammar, reader)?;
    Ok(Statement::Update {
        table,
        sets,
        filter,
    })
}

#[tactic(auto, unfolding(tsql_grammar::specs::Grammar::delete_statement))]
fn delete(grammar: &Grammar<'_>, reader: &mut Reader<'_>) -> Result<Statement, ReadError>
    ensures { Steps result reader.new.rest.now ((delete_statement grammar.now.text.now grammar.now.depth).reads reader.old.rest.now) }
{
    reader.take(Terminal::Delete)?;
    let _ = reader.maybe(Terminal::From);
    let table = grammar.table(reader)?;
    let filter = filter(grammar, reader)?;
    Ok(Statement::Delete { table, filter })
}

/// Reads what follows FROM in a query that shows these items.
#[tactic(auto, unfolding(tsql_grammar::specs::Grammar::queried, tsql_grammar::specs::Grammar::query_part))]
fn queried(
    grammar: &Grammar<'_>,
    reader: &mut Reader<'_>,
    items: ItemsTree,
) -> Result<Statement, ReadError>
    ensures { Steps result reader.new.rest.now ((mapped (λ f. f items) (queried grammar.now.text.now grammar.now.depth)).reads reader.old.rest.now) }
{
    let table = grammar.table(reader)?;
    let filter = filter(grammar, reader)?;
    let groups = groups(grammar, reader)?;
    let order = order(grammar, reader)?;
    Ok(Statement::Select {
        items,
        table,
        filter,
        groups,
        order,
    })
}

#[tactic(auto, unfolding(tsql_grammar::specs::Grammar::select_statement, tsql_grammar::specs::Grammar::select_read, tsql_grammar::specs::Grammar::all_items))]
fn select(grammar: &Grammar<'_>, reader: &mut Reader<'_>) -> Result<Statement, ReadError>
    ensures { Steps result reader.new.rest.now ((select_statement grammar.now.text.now grammar.now.depth).reads reader.old.rest.now) }
{
    reader.take(Terminal::Select)?;
    if reader.begins(Terminal::StarSign) {
        let items = all_items(reader)?;
        reader.take(Terminal::From)?;
        return queried(grammar, reader, items);
    }
    let items = item_list(grammar, reader)?;
    reader.take(Terminal::From)?;
    queried(grammar, reader, items)
}

#[tactic(auto, unfolding(tsql_grammar::specs::Grammar::begin_statement))]
fn begins_begin(reader: &Reader<'_>) -> bool
    ensures { result ≡ next_among begin_statement.first reader.now.rest.now }
{
    reader.begins(Terminal::Begin)
}

#[tactic(auto, unfolding(tsql_grammar::specs::Grammar::commit_statement))]
fn begins_commit(reader: &Reader<'_>) -> bool
    ensures { result ≡ next_among commit_statement.first reader.now.rest.now }
{
    reader.begins(Terminal::Commit)
}

#[tactic(auto, unfolding(tsql_grammar::specs::Grammar::rollback_statement))]
fn begins_rollback(reader: &Reader<'_>) -> bool
    ensures { result ≡ next_among rollback_statement.first reader.now.rest.now }
{
    reader.begins(Terminal::Rollback)
}

#[tactic(auto, unfolding(tsql_grammar::specs::Grammar::set_statement, tsql_grammar::specs::Grammar::set_read))]
fn begins_set(grammar: &Grammar<'_>, reader: &Reader<'_>) -> bool
    ensures { result ≡ next_among (set_statement grammar.now.text.now).first reader.now.rest.now }
{
    reader.begins(Terminal::Set)
}

#[tactic(auto, unfolding(tsql_grammar::specs::Grammar::alter_statement))]
fn begins_alter(grammar: &Grammar<'_>, reader: &Reader<'_>) -> bool
    ensures { result ≡ next_among (alter_statement grammar.now.text.now).first reader.now.rest.now }
{
    reader.begins(Terminal::Alter)
}

#[tactic(auto, unfolding(tsql_grammar::specs::Grammar::insert_statement))]
fn begins_insert(grammar: &Grammar<'_>, reader: &Reader<'_>) -> bool
    ensures { result ≡ next_among (insert_statement grammar.now.text.now grammar.now.depth).first reader.now.rest.now }
{
    reader.begins(Terminal::Insert)
}

#[tactic(auto, unfolding(tsql_grammar::specs::Grammar::update_statement))]
fn begins_update(grammar: &Grammar<'_>, reader: &Reader<'_>) -> bool
    ensures { result ≡ next_among (update_statement grammar.now.text.now grammar.now.depth).first reader.now.rest.now }
{
    reader.begins(Terminal::Update)
}

#[tactic(auto, unfolding(tsql_grammar::specs::Grammar::delete_statement))]
fn begins_delete(grammar: &Grammar<'_>, reader: &Reader<'_>) -> bool
    ensures { result ≡ next_among (delete_statement grammar.now.text.now grammar.now.depth).first reader.now.rest.now }
{
    reader.begins(Terminal::Delete)
}

#[tactic(auto, unfolding(tsql_grammar::specs::Grammar::statement))]
fn statement(grammar: &Grammar<'_>, reader: &mut Reader<'_>) -> Result<Statement, ReadError>
    ensures { Steps result reader.new.rest.now ((statement grammar.now.text.now grammar.now.depth).reads reader.old.rest.now) }
{
    if begins_begin(reader) {
        return begin(reader);
    }
    if begins_commit(reader) {
        return commit(reader);
    }
    if begins_rollback(reader) {
        return rollback(reader);
    }
    if begins_set(grammar, reader) {
        return set(grammar, reader);
    }
    if begins_alter(grammar, reader) {
        return alter(grammar, reader);
    }
    if begins_insert(grammar, reader) {
        return insert(grammar, reader);
    }
    if begins_update(grammar, reader) {
        return update(grammar, reader);
    }
    if begins_delete(grammar, reader) {
        return delete(grammar, reader);
    }
    select(grammar, reader)
}

/// Reads a statement and a `;` after it, where it is there.
#[tactic(auto, unfolding(tsql_grammar::specs::Grammar::line))]
pub fn line(grammar: &Grammar<'_>, reader: &mut Reader<'_>) -> Result<Statement, ReadError>
    ensures { Steps result reader.new.rest.now ((line grammar.now.text.now grammar.now.depth).reads reader.old.rest.now) }
{
    let statement = statement(grammar, reader)?;
    let _ = reader.maybe(Terminal::SemicolonSign);
    Ok(statement)
}
