//! Columns' types, and their faults.

ghost use Rattle.std.specs.Prelude.{◌≡◌, [], ◌∷◌};
ghost use Rattle.tsql_grammar.specs.Forms.{next_among, token, optional, mapped, seq, either};
ghost use Rattle.tsql_grammar.specs.Values.{plain_in};
ghost use Rattle.tsql_grammar.specs.Grammar.{word, behind, within, unsigned, plain_types, decimal_types, digits_part, size_part, column_type};
ghost use Rattle.tsql_exprs.specs.Leftmost.{earlier, leftmost};
ghost use Rattle.tsql_exprs.specs.Steps.{Steps};
ghost use Rattle.tsql_exprs.specs.Types.{outside, digits_faults, type_faults};

use crate::error::ReadError;
use crate::grammar::Grammar;
use crate::reader::Reader;
use tsql_grammar::Terminal;
use tsql_trees::{NumberTree, PlainType, TypeTree};

/// How many digits a decimal may have.
const MOST_DIGITS: u64 = 18;

/// How many bytes a text may have.
const MOST_BYTES: u64 = 8_000;

/// The types that are one word.
const PLAIN_TYPES: [Terminal; 6] = [
    Terminal::Tinyint,
    Terminal::Smallint,
    Terminal::Int,
    Terminal::Integer,
    Terminal::Bigint,
    Terminal::Date,
];

/// The words for decimals.
const DECIMAL_TYPES: [Terminal; 2] = [Terminal::Decimal, Terminal::Numeric];

fn plain_in(terminal: Terminal) -> PlainType
    ensures { result ≡ plain_in terminal }
{
    match terminal {
        Terminal::Tinyint => PlainType::TinyInt,
        Terminal::Smallint => PlainType::SmallInt,
        Terminal::Bigint => PlainType::BigInt,
        Terminal::Date => PlainType::Date,
        _ => PlainType::Int,
    }
}

impl Grammar<'_> {
    #[tactic(auto, unfolding(tsql_grammar::specs::Grammar::digits_part))]
    fn digits_part(
        &self,
        reader: &mut Reader<'_>,
    ) -> Result<(NumberTree, Option<NumberTree>), ReadError>
        ensures { Steps result reader.new.rest.now ((digits_part self.now.text.now).reads reader.old.rest.now) }
    {
        reader.take(Terminal::OpenSign)?;
        let precision = self.unsigned(reader)?;
        let scale = self.maybe_scale(reader)?;
        reader.take(Terminal::CloseSign)?;
        Ok((precision, scale))
    }

    fn maybe_scale(&self, reader: &mut Reader<'_>) -> Result<Option<NumberTree>, ReadError>
        ensures { Steps result reader.new.rest.now ((optional (behind Terminal.CommaSign (unsigned self.now.text.now))).reads reader.old.rest.now) }
    {
        if !reader.begins(Terminal::CommaSign) {
            return Ok(None);
        }
        reader.take(Terminal::CommaSign)?;
        let scale = self.unsigned(reader)?;
        Ok(Some(scale))
    }

    #[tactic(auto, unfolding(tsql_grammar::specs::Grammar::size_part))]
    fn size_part(&self, reader: &mut Reader<'_>) -> Result<NumberTree, ReadError>
        ensures { Steps result reader.new.rest.now ((size_part self.now.text.now).reads reader.old.rest.now) }
    {
        reader.take(Terminal::OpenSign)?;
        let size = self.unsigned(reader)?;
        reader.take(Terminal::CloseSign)?;
        Ok(size)
    }

    #[tactic(auto, unfolding(tsql_grammar::specs::Grammar::digits_part))]
    fn maybe_digits(
        &self,
        reader: &mut Reader<'_>,
    ) -> Result<Option<(NumberTree, Option<NumberTree>)>, ReadError>
        ensures { Steps result reader.new.rest.now ((optional (digits_part self.now.text.now)).reads reader.old.rest.now) }
    {
        if !reader.begins(Terminal::OpenSign) {
            return Ok(None);
        }
        let digits = self.digits_part(reader)?;
        Ok(Some(digits))
    }

    #[tactic(auto, unfolding(tsql_grammar::specs::Grammar::size_part))]
    fn maybe_size(&self, reader: &mut Reader<'_>) -> Result<Option<NumberTree>, ReadError>
        ensures { Steps result reader.new.rest.now ((optional (size_part self.now.text.now)).reads reader.old.rest.now) }
    {
        if !reader.begins(Terminal::OpenSign) {
            return Ok(None);
        }
        let size = self.size_part(reader)?;
        Ok(Some(size))
    }

    /// Reads a column's type.
    #[tactic(auto, unfolding(tsql_grammar::specs::Grammar::column_type))]
    pub fn column_type(&self, reader: &mut Reader<'_>) -> Result<TypeTree, ReadError>
        ensures { Steps result reader.new.rest.now ((column_type self.now.text.now).reads reader.old.rest.now) }
    {
        if reader.begins_among(&PLAIN_TYPES) {
            let word = reader.take_among(&PLAIN_TYPES)?;
            return Ok(TypeTree::Plain {
                place: word.place,
                kind: plain_in(word.terminal),
            });
        }
        if reader.begins_among(&DECIMAL_TYPES) {
            let word = reader.take_among(&DECIMAL_TYPES)?;
            let digits = self.maybe_digits(reader)?;
            return Ok(TypeTree::Decimal {
                place: word.place,
                digits,
            });
        }
        let word = reader.take(Terminal::Varchar)?;
        let size = self.maybe_size(reader)?;
        Ok(TypeTree::VarChar {
            place: word.place,
            size,
        })
    }
}

/// The lesser of two places, where there are any.
pub fn earlier(place: Option<u32>, other: Option<u32>) -> Option<u32>
    ensures { result ≡ earlier place other }
{
    match (place, other) {
        (Some(place), Some(other)) => Some(place.min(other)),
        (Some(place), None) => Some(place),
        (None, other) => other,
    }
}

/// The place of a number that is no whole number from `low` to `high`.
fn outside(low: u64, high: u64, number: NumberTree) -> Option<u32>
    ensures { result ≡ leftmost (outside low high number) }
{
    if !number.point && low <= number.digits && number.digits <= high {
        None
    } else {
        Some(number.place)
    }
}

#[tactic(auto, using(crate::proofs::Leftmost::leftmost_append))]
fn digits_fault(precision: NumberTree, scale: Option<NumberTree>) -> Option<u32>
    ensures { result ≡ leftmost (digits_faults precision scale) }
{
    let found = outside(1, MOST_DIGITS, precision);
    match scale {
        Some(scale) => earlier(found, outside(0, precision.digits, scale)),
        None => found,
    }
}

/// The leftmost number of a column's type that is outside its range: a decimal's digits outside 1 to 18, or more of them
/// after the point, and a text's bytes outside 1 to 8000.
pub fn type_fault(kind: TypeTree) -> Option<u32>
    ensures { result ≡ leftmost (type_faults kind) }
{
    match kind {
        TypeTree::Decimal {
            digits: Some((precision, scale)),
            ..
        } => digits_fault(precision, scale),
        TypeTree::VarChar {
            size: Some(size),
            ..
        } => outside(1, MOST_BYTES, size),
        _ => None,
    }
}
