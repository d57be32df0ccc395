//! The grammar of a text, and the reading of its leaves.

ghost use Rattle.std.specs.Prelude.{◌≡◌, [], ◌∷◌};
ghost use Rattle.tsql_grammar.specs.Terminals.{among};
ghost use Rattle.tsql_grammar.specs.Forms.{next_among, optional};
ghost use Rattle.tsql_grammar.specs.Grammar.{all_names, name, sign, unsigned, literal, table, names, whole, on_off};
ghost use Rattle.tsql_grammar.specs.Values.{signed};
ghost use Rattle.tsql_exprs.specs.Steps.{Steps};

use crate::error::ReadError;
use crate::leaf;
use crate::list::NameLine;
use crate::reader::{Reader, is_among};
use std::alloc::Global;
use tsql_grammar::{Terminal, is_same};
use tsql_trees::{NameTree, NamesTree, NumberTree, SignTree, TableTree, TextTree};

/// The grammar of a text: each method reads the line of its name, and stops at the token at which that line stops.
#[derive(Clone, Copy)]
pub struct Grammar<'a> {
    /// Where trees are made.
    pub alloc: Global,
    /// The text that the symbols are of, for the values of names and literals.
    pub text: &'a [u8],
    /// How many parentheses may be open, one in another, in an expression or a predicate.
    pub depth: u32,
}

/// The signs of a number and of a sum.
pub const SIGNS: [Terminal; 2] = [Terminal::PlusSign, Terminal::MinusSign];

/// Whether a terminal is a name: one of those that stand for themselves in some places, or any other.
pub fn is_name(terminal: Terminal) -> bool
    ensures { result ≡ among terminal all_names }
{
    matches!(
        terminal,
        Terminal::Count
            | Terminal::Sum
            | Terminal::Min
            | Terminal::Max
            | Terminal::Avg
            | Terminal::Plain
            | Terminal::Work
            | Terminal::Isolation
            | Terminal::Level
            | Terminal::Snapshot
            | Terminal::Statistics
            | Terminal::Io
            | Terminal::LockTimeout
            | Terminal::Reorganize
            | Terminal::CompressAllRowGroups
            | Terminal::GenerateSeries
            | Terminal::Tinyint
            | Terminal::Smallint
            | Terminal::Int
            | Terminal::Integer
            | Terminal::Bigint
            | Terminal::Date
            | Terminal::Decimal
            | Terminal::Numeric
            | Terminal::Varchar
            | Terminal::Columnstore
    )
}

/// A number with the sign that belongs to it.
pub fn signed(sign: Option<SignTree>, number: NumberTree) -> NumberTree
    ensures { result ≡ signed (sign, number) }
{
    match sign {
        None => number,
        Some(sign) => NumberTree {
            place: sign.place,
            minus: sign.minus,
            digits: number.digits,
            s: number.s,
            point: number.point,
        },
    }
}

impl Grammar<'_> {
    /// Whether a name is next.
    #[tactic(auto, unfolding(tsql_grammar::specs::Grammar::name))]
    pub fn begins_name(&self, reader: &Reader<'_>) -> bool
        ensures { result ≡ next_among (name self.now.text.now).first reader.now.rest.now }
    {
        match reader.rest {
            [symbol, ..] => is_name(symbol.terminal),
            [] => false,
        }
    }

    /// Reads a name.
    #[tactic(auto, unfolding(tsql_grammar::specs::Grammar::name))]
    pub fn name(&self, reader: &mut Reader<'_>) -> Result<NameTree, ReadError>
        ensures { Steps result reader.new.rest.now ((name self.now.text.now).reads reader.old.rest.now) }
    {
        match reader.rest {
            [symbol, rest @ ..] if is_name(symbol.terminal) => {
                reader.rest = rest;
                Ok(leaf::name_of(self.alloc, self.text, symbol)?)
            }
            _ => Err(ReadError::Stopped),
        }
    }

    /// Reads a sign where it is there.
    #[tactic(auto, unfolding(tsql_grammar::specs::Grammar::sign))]
    pub fn maybe_sign(&self, reader: &mut Reader<'_>) -> Option<SignTree>
        ensures { (optional sign).reads reader.old.rest.now ≡ Ok (result, reader.new.rest.now) }
    {
        match reader.rest {
            [symbol, rest @ ..] if is_among(symbol.terminal, &SIGNS) => {
                reader.rest = rest;
                Some(leaf::sign_of(symbol))
            }
            _ => None,
        }
    }

    /// Whether a number is next, with its sign or without one.
    #[tactic(auto, unfolding(tsql_grammar::specs::Grammar::whole, tsql_grammar::specs::Grammar::sign, tsql_grammar::specs::Grammar::unsigned))]
    pub fn begins_number(&self, reader: &Reader<'_>) -> bool
        ensures { result ≡ next_among (whole self.now.text.now).first reader.now.rest.now }
    {
        reader.begins_among(&[Terminal::PlusSign, Terminal::MinusSign, Terminal::Number])
    }

    /// Reads a number without a sign.
    #[tactic(auto, unfolding(tsql_grammar::specs::Grammar::unsigned))]
    pub fn unsigned(&self, reader: &mut Reader<'_>) -> Result<NumberTree, ReadError>
        ensures { Steps result reader.new.rest.now ((unsigned self.now.text.now).reads reader.old.rest.now) }
    {
        let symbol = reader.take(Terminal::Number)?;
        Ok(leaf::number_of(self.text, &symbol))
    }

    /// Reads a number with its sign or without one.
    #[tactic(auto, unfolding(tsql_grammar::specs::Grammar::whole))]
    pub fn whole(&self, reader: &mut Reader<'_>) -> Result<NumberTree, ReadError>
        ensures { Steps result reader.new.rest.now ((whole self.now.text.now).reads reader.old.rest.now) }
    {
        let sign = self.maybe_sign(reader);
        let number = self.unsigned(reader)?;
        Ok(signed(sign, number))
    }

    /// Reads a text.
    #[tactic(auto, unfolding(tsql_grammar::specs::Grammar::literal))]
    pub fn literal(&self, reader: &mut Reader<'_>) -> Result<TextTree, ReadError>
        ensures { Steps result reader.new.rest.now ((literal self.now.text.now).reads reader.old.rest.now) }
    {
        let symbol = reader.take(Terminal::Text)?;
        Ok(leaf::text_of(self.alloc, self.text, &symbol)?)
    }

    /// Reads a table's name, in one part or two.
    #[tactic(auto, unfolding(tsql_grammar::specs::Grammar::table))]
    pub fn table(&self, reader: &mut Reader<'_>) -> Result<TableTree, ReadError>
        ensures { Steps result reader.new.rest.now ((table self.now.text.now).reads reader.old.rest.now) }
    {
        let first = self.name(reader)?;
        if !reader.begins(Terminal::PointSign) {
            return Ok(TableTree {
                first,
                second: None,
            });
        }
        reader.take(Terminal::PointSign)?;
        let second = self.name(reader)?;
        Ok(TableTree {
            first,
            second: Some(second),
        })
    }

    /// Reads names with commas between them.
    #[tactic(auto, unfolding(tsql_grammar::specs::Grammar::names))]
    pub fn names(&self, reader: &mut Reader<'_>) -> Result<NamesTree, ReadError>
        ensures { Steps result reader.new.rest.now ((names self.now.text.now).reads reader.old.rest.now) }
    {
        self.listed::<NameLine>(reader)
    }

    /// Reads ON or OFF: whether it is ON.
    #[tactic(auto, unfolding(tsql_grammar::specs::Grammar::on_off))]
    pub fn on_off(&self, reader: &mut Reader<'_>) -> Result<bool, ReadError>
        ensures { Steps result reader.new.rest.now (on_off.reads reader.old.rest.now) }
    {
        let symbol = reader.take_among(&[Terminal::On, Terminal::Off])?;
        Ok(is_same(symbol.terminal, Terminal::On))
    }
}
