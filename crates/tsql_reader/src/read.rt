//! Texts into statements.

ghost use Rattle.std.specs.Prelude.{◌≡◌, ◌≤◌, ℕ, length, All, IfOk, IfErr, MatchResult};
ghost use Rattle.tsql_trees.specs.declared.statement.Statement.{Statement};
ghost use Rattle.tsql_tokens.specs.Tokens.{IsSpan};
ghost use Rattle.tsql_grammar.specs.Places.{to_end};
ghost use Rattle.tsql_grammar.specs.Words.{symbols_of};
ghost use Rattle.tsql_exprs.specs.Refusals.{AnswersOnly};
ghost use Rattle.tsql_reader.specs.Statements.{grammar, IsStatement, IsNoStatement, RefusesStatement, JudgesStatement, FollowsTokens};

use crate::limits::passed_limit;
use crate::statement::line;
use std::alloc::Global;
use tsql_exprs::{Grammar, ReadError, ReadRefusal, Reader, by_tokens, number_at, place_at};
use tsql_grammar::{Symbol, symbols};
use tsql_tokens::{Token, tokens};
use tsql_trees::Statement;

/// How many parentheses may be open, one in another.
const DEPTH: u32 = 64;

/// Reads all the symbols of a text.
#[tactic(auto, unfolding(crate::specs::Statements::grammar))]
fn whole(alloc: Global, text: &[u8], symbols: &[Symbol]) -> Result<Statement, ReadRefusal>
    requires { length text.now ≤ 131_072 }
    ensures { JudgesStatement (length text.now) symbols.now result (to_end ((grammar text.now).reads symbols.now)) }
{
    let mut reader = Reader { rest: symbols };
    let grammar = Grammar {
        alloc,
        text,
        depth: DEPTH,
    };
    let outcome = line(&grammar, &mut reader);
    let rest = reader.rest;
    match outcome {
        Ok(statement) if rest.is_empty() => Ok(statement),
        Err(ReadError::Memory) => Err(ReadRefusal::Memory),
        Ok(_) | Err(ReadError::Stopped) => Err(ReadRefusal::At {
            number: number_at(symbols, rest),
            at: place_at(text.len(), rest),
        }),
    }
}

/// Reads the tokens of a text.
fn read_tokens(alloc: Global, text: &[u8], tokens: &[Token]) -> Result<Statement, ReadRefusal>
    requires spans { All (IsSpan (length text.now)) tokens.now }
    requires fits { length text.now ≤ 131_072 }
    ensures { FollowsTokens text.now (symbols_of text.now tokens.now) result }
{
    let symbols = symbols(alloc, text, tokens)?;
    let statement = whole(alloc, text, symbols.as_slice())?;
    match passed_limit(symbols.as_slice(), &statement) {
        None => Ok(statement),
        Some((number, at)) => Err(ReadRefusal::At { number, at }),
    }
}

/// The statement that a text of at most 131,072 bytes is.
///
/// Else where it is refused. Refusals by the tokens come before all others, and are those of `tokens`. Then the place
/// is that of the first token at which no statement can go on, or one past the last byte where the text ends too soon;
/// the number is 50001 where that token is a reserved word that the grammar has no form for, or TABLE after ALTER, and
/// else 102. Then the place is that of the first element over a limit: 10738 at the 1,001st row of VALUES, and 50001 at
/// the 65th item of a SELECT, the 1,001st value of an IN, and the 33rd name of GROUP BY or ORDER BY. `Memory` where
/// there is no room for the tree.
pub fn read_statement(alloc: Global, text: &[u8]) -> Result<Statement, ReadRefusal>
    requires { length text.now ≤ 131_072 }
    // What is given is the text's statement.
    ensures found { IfOk result (λ statement. IsStatement text.now statement) }
    // A text that is a statement gives it, and no other.
    ensures only { (other : Statement) → IsStatement text.now other → MatchResult result (λ statement. statement ≡ other) (λ e. e ≡ ReadRefusal.Memory) }
    // What is refused is refused where the text is.
    ensures refused { IfErr result (λ e. RefusesStatement text.now e) }
    // A text that is refused at a place is refused there, and nowhere else.
    ensures place { (number at : ℕ) → IsNoStatement text.now number at → MatchResult result (λ statement. ⊥) (λ e. AnswersOnly number at e) }
{
    match tokens(alloc, text) {
        Ok(tokens) => read_tokens(alloc, text, tokens.as_slice()),
        Err(refusal) => Err(by_tokens(refusal)),
    }
}
