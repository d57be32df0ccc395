//! Which terminal a token is.

ghost use Rattle.std.specs.Prelude.{◌≡◌, ◌+◌, ◌<◌, ◌≤◌, ◌^◌, ℕ, List, true, length, All, IfOk, take};
ghost use Rattle.tsql_grammar.specs.Terminals.{among};
ghost use Rattle.tsql_grammar.specs.Grammar.{all_names};
ghost use Rattle.tsql_grammar.specs.Words.{looked_up, or_else, bytes_at, unbracketed, reserved_terminal, name_terminal, sign_terminal, terminal_of, symbol_of, symbols_of, reserved_1, reserved_2, reserved_3, reserved_4, reserved_5, placed_1, placed_2, placed_3, signs_1, signs_2};
ghost use Rattle.tsql_tokens.specs.Tokens.{IsSpan};

use crate::terminal::{Symbol, Terminal};
use cs_base::{Items, Memory};
use std::alloc::Global;
use tsql_tokens::{Token, TokenKind, is_word};

fn reserved_1(bytes: &[u8]) -> Option<Terminal>
    ensures { result ≡ looked_up reserved_1 bytes.now }
{
    if is_word(bytes, b"ALL") {
        Some(Terminal::All)
    } else if is_word(bytes, b"ALTER") {
        Some(Terminal::Alter)
    } else if is_word(bytes, b"AND") {
        Some(Terminal::And)
    } else if is_word(bytes, b"ASC") {
        Some(Terminal::Asc)
    } else if is_word(bytes, b"BEGIN") {
        Some(Terminal::Begin)
    } else if is_word(bytes, b"BETWEEN") {
        Some(Terminal::Between)
    } else if is_word(bytes, b"BY") {
        Some(Terminal::By)
    } else if is_word(bytes, b"CLUSTERED") {
        Some(Terminal::Clustered)
    } else {
        None
    }
}

fn reserved_2(bytes: &[u8]) -> Option<Terminal>
    ensures { result ≡ looked_up reserved_2 bytes.now }
{
    if is_word(bytes, b"COMMIT") {
        Some(Terminal::Commit)
    } else if is_word(bytes, b"CONSTRAINT") {
        Some(Terminal::Constraint)
    } else if is_word(bytes, b"CREATE") {
        Some(Terminal::Create)
    } else if is_word(bytes, b"DELETE") {
        Some(Terminal::Delete)
    } else if is_word(bytes, b"DESC") {
        Some(Terminal::Desc)
    } else if is_word(bytes, b"FROM") {
        Some(Terminal::From)
    } else if is_word(bytes, b"GROUP") {
        Some(Terminal::Group)
    } else if is_word(bytes, b"IN") {
        Some(Terminal::In)
    } else {
        None
    }
}

fn reserved_3(bytes: &[u8]) -> Option<Terminal>
    ensures { result ≡ looked_up reserved_3 bytes.now }
{
    if is_word(bytes, b"INDEX") {
        Some(Terminal::Index)
    } else if is_word(bytes, b"INSERT") {
        Some(Terminal::Insert)
    } else if is_word(bytes, b"INTO") {
        Some(Terminal::Into)
    } else if is_word(bytes, b"IS") {
        Some(Terminal::Is)
    } else if is_word(bytes, b"KEY") {
        Some(Terminal::Key)
    } else if is_word(bytes, b"LIKE") {
        Some(Terminal::Like)
    } else if is_word(bytes, b"NONCLUSTERED") {
        Some(Terminal::Nonclustered)
    } else if is_word(bytes, b"NOT") {
        Some(Terminal::Not)
    } else {
        None
    }
}

fn reserved_4(bytes: &[u8]) -> Option<Terminal>
    ensures { result ≡ looked_up reserved_4 bytes.now }
{
    if is_word(bytes, b"NULL") {
        Some(Terminal::Null)
    } else if is_word(bytes, b"OFF") {
        Some(Terminal::Off)
    } else if is_word(bytes, b"ON") {
        Some(Terminal::On)
    } else if is_word(bytes, b"OR") {
        Some(Terminal::Or)
    } else if is_word(bytes, b"ORDER") {
        Some(Terminal::Order)
    } else if is_word(bytes, b"PRIMARY") {
        Some(Terminal::Primary)
    } else if is_word(bytes, b"ROLLBACK") {
        Some(Terminal::Rollback)
    } else if is_word(bytes, b"SELECT") {
        Some(Terminal::Select)
    } else {
        None
    }
}

fn reserved_5(bytes: &[u8]) -> Option<Terminal>
    ensures { result ≡ looked_up reserved_5 bytes.now }
{
    if is_word(bytes, b"SET") {
        Some(Terminal::Set)
    } else if is_word(bytes, b"TABLE") {
        Some(Terminal::Table)
    } else if is_word(bytes, b"TRAN") {
        Some(Terminal::Tran)
    } else if is_word(bytes, b"TRANSACTION") {
        Some(Terminal::Transaction)
    } else if is_word(bytes, b"UPDATE") {
        Some(Terminal::Update)
    } else if is_word(bytes, b"VALUES") {
        Some(Terminal::Values)
    } else if is_word(bytes, b"WHERE") {
        Some(Terminal::Where)
    } else if is_word(bytes, b"WITH") {
        Some(Terminal::With)
    } else {
        None
    }
}

fn placed_1(bytes: &[u8]) -> Option<Terminal>
    ensures { result ≡ looked_up placed_1 bytes.now }
{
    if is_word(bytes, b"WORK") {
        Some(Terminal::Work)
    } else if is_word(bytes, b"ISOLATION") {
        Some(Terminal::Isolation)
    } else if is_word(bytes, b"LEVEL") {
        Some(Terminal::Level)
    } else if is_word(bytes, b"SNAPSHOT") {
        Some(Terminal::Snapshot)
    } else if is_word(bytes, b"STATISTICS") {
        Some(Terminal::Statistics)
    } else if is_word(bytes, b"IO") {
        Some(Terminal::Io)
    } else if is_word(bytes, b"LOCK_TIMEOUT") {
        Some(Terminal::LockTimeout)
    } else if is_word(bytes, b"REORGANIZE") {
        Some(Terminal::Reorganize)
    } else if is_word(bytes, b"COMPRESS_ALL_ROW_GROUPS") {
        Some(Terminal::CompressAllRowGroups)
    } else {
        None
    }
}

fn placed_2(bytes: &[u8]) -> Option<Terminal>
    ensures { result ≡ looked_up placed_2 bytes.now }
{
    if is_word(bytes, b"GENERATE_SERIES") {
        Some(Terminal::GenerateSeries)
    } else if is_word(bytes, b"COUNT") {
        Some(Terminal::Count)
    } else if is_word(bytes, b"SUM") {
        Some(Terminal::Sum)
    } else if is_word(bytes, b"MIN") {
        Some(Terminal::Min)
    } else if is_word(bytes, b"MAX") {
        Some(Terminal::Max)
    } else if is_word(bytes, b"AVG") {
        Some(Terminal::Avg)
    } else if is_word(bytes, b"TINYINT") {
        Some(Terminal::Tinyint)
    } else if is_word(bytes, b"SMALLINT") {
        Some(Terminal::Smallint)
    } else if is_word(bytes, b"INT") {
        Some(Terminal::Int)
    } else {
        None
    }
}

fn placed_3(bytes: &[u8]) -> Option<Terminal>
    ensures { result ≡ looked_up placed_3 bytes.now }
{
    if is_word(bytes, b"INTEGER") {
        Some(Terminal::Integer)
    } else if is_word(bytes, b"BIGINT") {
        Some(Terminal::Bigint)
    } else if is_word(bytes, b"DATE") {
        Some(Terminal::Date)
    } else if is_word(bytes, b"DECIMAL") {
        Some(Terminal::Decimal)
    } else if is_word(bytes, b"NUMERIC") {
        Some(Terminal::Numeric)
    } else if is_word(bytes, b"VARCHAR") {
        Some(Terminal::Varchar)
    } else if is_word(bytes, b"COLUMNSTORE") {
        Some(Terminal::Columnstore)
    } else {
        None
    }
}

fn signs_1(bytes: &[u8]) -> Option<Terminal>
    ensures { result ≡ looked_up signs_1 bytes.now }
{
    if is_word(bytes, b"(") {
        Some(Terminal::OpenSign)
    } else if is_word(bytes, b")") {
        Some(Terminal::CloseSign)
    } else if is_word(bytes, b",") {
        Some(Terminal::CommaSign)
    } else if is_word(bytes, b".") {
        Some(Terminal::PointSign)
    } else if is_word(bytes, b";") {
        Some(Terminal::SemicolonSign)
    } else if is_word(bytes, b"*") {
        Some(Terminal::StarSign)
    } else if is_word(bytes, b"+") {
        Some(Terminal::PlusSign)
    } else if is_word(bytes, b"-") {
        Some(Terminal::MinusSign)
    } else if is_word(bytes, b"/") {
        Some(Terminal::SlashSign)
    } else {
        None
    }
}

fn signs_2(bytes: &[u8]) -> Option<Terminal>
    ensures { result ≡ looked_up signs_2 bytes.now }
{
    if is_word(bytes, b"%") {
        Some(Terminal::PercentSign)
    } else if is_word(bytes, b"=") {
        Some(Terminal::EqualSign)
    } else if is_word(bytes, b"<>") {
        Some(Terminal::UnequalSign)
    } else if is_word(bytes, b"!=") {
        Some(Terminal::BangEqualSign)
    } else if is_word(bytes, b"<") {
        Some(Terminal::LessSign)
    } else if is_word(bytes, b"<=") {
        Some(Terminal::LessEqualSign)
    } else if is_word(bytes, b">") {
        Some(Terminal::GreaterSign)
    } else if is_word(bytes, b">=") {
        Some(Terminal::GreaterEqualSign)
    } else {
        None
    }
}

/// The terminal of a reserved word.
#[tactic(auto, unfolding(crate::specs::Words::reserved_terminal))]
fn reserved_terminal(bytes: &[u8]) -> Terminal
    ensures { result ≡ reserved_terminal bytes.now }
{
    if let Some(terminal) = reserved_1(bytes) {
        return terminal;
    }
    if let Some(terminal) = reserved_2(bytes) {
        return terminal;
    }
    if let Some(terminal) = reserved_3(bytes) {
        return terminal;
    }
    if let Some(terminal) = reserved_4(bytes) {
        return terminal;
    }
    match reserved_5(bytes) {
        Some(terminal) => terminal,
        None => Terminal::Outside,
    }
}

/// The terminal of a name without its brackets.
#[tactic(auto, unfolding(crate::specs::Words::name_terminal))]
fn name_terminal(bytes: &[u8]) -> Terminal
    ensures { result ≡ name_terminal bytes.now }
{
    if let Some(terminal) = placed_1(bytes) {
        return terminal;
    }
    if let Some(terminal) = placed_2(bytes) {
        return terminal;
    }
    match placed_3(bytes) {
        Some(terminal) => terminal,
        None => Terminal::Plain,
    }
}

/// The law of the names that are known by their places: the terminal of each name is in the one list of names.
pub fn names_are_listed()
    ensures { (bytes : List ℕ) → among (name_terminal bytes) all_names ≡ true }
{}

/// The terminal of a sign.
#[tactic(auto, unfolding(crate::specs::Words::sign_terminal))]
fn sign_terminal(bytes: &[u8]) -> Terminal
    ensures { result ≡ sign_terminal bytes.now }
{
    if let Some(terminal) = signs_1(bytes) {
        return terminal;
    }
    match signs_2(bytes) {
        Some(terminal) => terminal,
        None => Terminal::Outside,
    }
}

/// So many bytes from a place on, or as many as there are.
pub fn bytes_at(text: &[u8], place: u32, size: u32) -> &[u8]
    ensures { result.now ≡ bytes_at text.now place size }
{
    let from = place.saturating_sub(1) as usize;
    if from >= text.len() {
        return &[];
    }
    let rest = &text[from..];
    if size as usize >= rest.len() {
        rest
    } else {
        &rest[..size as usize]
    }
}

/// A name without its brackets.
pub fn unbracketed(bytes: &[u8]) -> &[u8]
    ensures { result.now ≡ unbracketed bytes.now }
{
    match bytes {
        [b'[', name @ ..] => &name[..name.len().saturating_sub(1)],
        _ => bytes,
    }
}

#[tactic(auto, unfolding(crate::specs::Words::terminal_of))]
fn terminal_of(kind: TokenKind, bytes: &[u8]) -> Terminal
    ensures { result ≡ terminal_of kind bytes.now }
{
    match kind {
        TokenKind::Reserved => reserved_terminal(bytes),
        TokenKind::Name => name_terminal(unbracketed(bytes)),
        TokenKind::Number => Terminal::Number,
        TokenKind::Text => Terminal::Text,
        TokenKind::Sign => sign_terminal(bytes),
    }
}

fn symbol_of(text: &[u8], token: Token) -> Symbol
    requires span { IsSpan (length text.now) token }
    requires fits { length text.now ≤ 131_072 }
    ensures { result ≡ symbol_of text.now token }
{
    let place = token.from + 1;
    let size = token.to - token.from;
    Symbol {
        terminal: terminal_of(token.kind, bytes_at(text, place, size)),
        place,
        size,
    }
}

/// The tokens of a text as the grammar sees them.
pub fn symbols(alloc: Global, text: &[u8], tokens: &[Token]) -> Result<Items<Symbol>, Memory>
    requires spans { All (IsSpan (length text.now)) tokens.now }
    requires fits { length text.now ≤ 131_072 }
    ensures { IfOk result (λ symbols. symbols ≡ symbols_of text.now tokens.now) }
{
    let mut symbols = Items::new(alloc);
    symbols.reserve(tokens.len())?;
    for token in tokens {
        symbols.push(symbol_of(text, *token))?;
    }
    Ok(symbols)
}
