//! A reader that keeps its place.

ghost use Rattle.std.specs.Prelude.{◌≡◌, [], ◌∷◌};
ghost use Rattle.tsql_grammar.specs.Terminals.{among};
ghost use Rattle.tsql_grammar.specs.Forms.{next_among, token, optional, token_reads};
ghost use Rattle.tsql_grammar.specs.Grammar.{word};
ghost use Rattle.tsql_exprs.specs.Steps.{Steps};

use crate::error::ReadError;
use tsql_grammar::{Symbol, Terminal, is_same};

/// The symbols of a text that are not read yet.
#[derive(Drop)]
pub struct Reader<'a> {
    pub rest: &'a [Symbol],
}

/// Whether a terminal is one of some.
pub fn is_among(terminal: Terminal, terminals: &[Terminal]) -> bool
    ensures { result ≡ among terminal terminals.now }
{
    let mut rest = terminals;
    'more: while let [first, next @ ..] = rest {
        if is_same(terminal, *first) {
            return true;
        }
        rest = next;
    }
    false
}

impl Reader<'_> {
    /// Whether the next token is this one. The end of the text is none.
    pub fn begins(&self, terminal: Terminal) -> bool
        ensures { result ≡ next_among (terminal ∷ []) self.now.rest.now }
    {
        match self.rest {
            [symbol, ..] => is_same(symbol.terminal, terminal),
            [] => false,
        }
    }

    /// Whether the next token is one of some. The end of the text is none.
    pub fn begins_among(&self, terminals: &[Terminal]) -> bool
        ensures { result ≡ next_among terminals.now self.now.rest.now }
    {
        match self.rest {
            [symbol, ..] => is_among(symbol.terminal, terminals),
            [] => false,
        }
    }

    /// Takes the next token, which has to be this one. Else it stops there.
    pub fn take(&mut self, terminal: Terminal) -> Result<Symbol, ReadError>
        ensures { Steps result self.new.rest.now ((word terminal).reads self.old.rest.now) }
    {
        match self.rest {
            [symbol, rest @ ..] if is_same(symbol.terminal, terminal) => {
                self.rest = rest;
                Ok(*symbol)
            }
            _ => Err(ReadError::Stopped),
        }
    }

    /// Takes the next token, which has to be one of some. Else it stops there.
    pub fn take_among(&mut self, terminals: &[Terminal]) -> Result<Symbol, ReadError>
        ensures { Steps result self.new.rest.now ((token terminals.now).reads self.old.rest.now) }
    {
        match self.rest {
            [symbol, rest @ ..] if is_among(symbol.terminal, terminals) => {
                self.rest = rest;
                Ok(*symbol)
            }
            _ => Err(ReadError::Stopped),
        }
    }

    /// Takes a word or a sign where it is next.
    pub fn maybe(&mut self, terminal: Terminal) -> Option<Symbol>
        ensures { (optional (word terminal)).reads self.old.rest.now ≡ Ok (result, self.new.rest.now) }
    {
        match self.rest {
            [symbol, rest @ ..] if is_same(symbol.terminal, terminal) => {
                self.rest = rest;
                Some(*symbol)
            }
            _ => None,
        }
    }

    /// Takes the next token where it is one of some.
    pub fn maybe_among(&mut self, terminals: &[Terminal]) -> Option<Symbol>
        ensures { (optional (token terminals.now)).reads self.old.rest.now ≡ Ok (result, self.new.rest.now) }
    {
        match self.rest {
            [symbol, rest @ ..] if is_among(symbol.terminal, terminals) => {
                self.rest = rest;
                Some(*symbol)
            }
            _ => None,
        }
    }
}
