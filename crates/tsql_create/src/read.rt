//! Texts into setup statements.

ghost use Rattle.std.specs.Prelude.{◌≡◌, ◌≤◌, ℕ, length, All, IfOk, IfErr, MatchResult};
ghost use Rattle.tsql_tokens.specs.Tokens.{IsSpan};
ghost use Rattle.tsql_grammar.specs.Places.{to_end};
ghost use Rattle.tsql_grammar.specs.Words.{symbols_of};
ghost use Rattle.tsql_exprs.specs.Refusals.{AnswersOnly};
ghost use Rattle.tsql_create.specs.declared.tree.CreateTree.{CreateTree};
ghost use Rattle.tsql_create.specs.Setup.{create};
ghost use Rattle.tsql_create.specs.Creates.{IsCreate, IsNoCreate, RefusesCreate, JudgesCreate};

use crate::create::create_tree;
use crate::tree::CreateTree;
use std::alloc::Global;
use tsql_exprs::{Grammar, ReadError, ReadRefusal, Reader, by_tokens, number_at, place_at};
use tsql_grammar::{Symbol, symbols};
use tsql_tokens::{Token, tokens};

/// Reads all the symbols of a text.
fn whole(alloc: Global, text: &[u8], symbols: &[Symbol]) -> Result<CreateTree, ReadRefusal>
    requires { length text.now ≤ 131_072 }
    ensures { JudgesCreate (length text.now) symbols.now result (to_end ((create text.now).reads symbols.now)) }
{
    let mut reader = Reader { rest: symbols };
    let grammar = Grammar {
        alloc,
        text,
        depth: 0,
    };
    let outcome = create_tree(&grammar, &mut reader);
    let rest = reader.rest;
    match outcome {
        Ok(tree) if rest.is_empty() => Ok(tree),
        Err(ReadError::Memory) => Err(ReadRefusal::Memory),
        Ok(_) | Err(ReadError::Stopped) => Err(ReadRefusal::At {
            number: number_at(symbols, rest),
            at: place_at(text.len(), rest),
        }),
    }
}

/// Reads the tokens of a text.
fn read_tokens(alloc: Global, text: &[u8], tokens: &[Token]) -> Result<CreateTree, ReadRefusal>
    requires spans { All (IsSpan (length text.now)) tokens.now }
    requires fits { length text.now ≤ 131_072 }
    ensures { JudgesCreate (length text.now) (symbols_of text.now tokens.now) result (to_end ((create text.now).reads (symbols_of text.now tokens.now))) }
{
    let symbols = symbols(alloc, text, tokens)?;
    whole(alloc, text, symbols.as_slice())
}

/// The setup statement that a text of at most 131,072 bytes is, as a tree.
///
/// Else where it is refused. Refusals by the tokens come before all others. Then the place is that of the first token
/// at which no setup statement can go on, or one past the last byte where the text ends too soon; the number is 50001
/// where that token is a reserved word that the grammar has no form for, and else 102. `Memory` where there is no room
/// for the tree.
pub fn read_create(alloc: Global, text: &[u8]) -> Result<CreateTree, ReadRefusal>
    requires { length text.now ≤ 131_072 }
    // What is given is the text's tree.
    ensures found { IfOk result (λ tree. IsCreate text.now tree) }
    // A text that is a setup statement gives its tree, and no other.
    ensures only { (other : CreateTree) → IsCreate text.now other → MatchResult result (λ tree. tree ≡ other) (λ e. e ≡ ReadRefusal.Memory) }
    // What is refused is refused where the text is.
    ensures refused { IfErr result (λ e. RefusesCreate text.now e) }
    // A text that is refused at a place is refused there, and nowhere else.
    ensures place { (number at : ℕ) → IsNoCreate text.now number at → MatchResult result (λ tree. ⊥) (λ e. AnswersOnly number at e) }
{
    match tokens(alloc, text) {
        Ok(tokens) => read_tokens(alloc, text, tokens.as_slice()),
        Err(refusal) => Err(by_tokens(refusal)),
    }
}
