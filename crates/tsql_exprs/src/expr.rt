//! Expressions.

ghost use Rattle.std.specs.Prelude.{◌≡◌, [], ◌∷◌, ℕ, Option, Some};
ghost use Rattle.tsql_grammar.specs.Terminals.{among};
ghost use Rattle.tsql_grammar.specs.Forms.{next_among, optional, mapped, many, seq, with_front};
ghost use Rattle.tsql_grammar.specs.Values.{factor_of, nested_of, times_in};
ghost use Rattle.tsql_grammar.specs.Grammar.{word, sign, plain, times, begins_primary, primary_at, factor_from, term_from, expr_from, expr};
ghost use Rattle.tsql_exprs.specs.Steps.{Steps};

use crate::error::ReadError;
use crate::grammar::{Grammar, SIGNS, signed};
use crate::leaf::sign_of;
use crate::list::Line;
use crate::reader::Reader;
use cs_base::{Boxed, Items};
use tsql_grammar::Terminal;
use tsql_trees::{ExprTree, FactorTree, PrimaryTree, SignTree, TermTree, TimesSign, TimesTree};

/// The signs of a product.
const TIMES: [Terminal; 3] = [
    Terminal::StarSign,
    Terminal::SlashSign,
    Terminal::PercentSign,
];

/// An expression.
pub struct ExprLine;

impl Line for ExprLine {
    type Tree = ExprTree;

    ghost form = { expr };

    fn read(grammar: &Grammar<'_>, reader: &mut Reader<'_>) -> Result<ExprTree, ReadError> {
        grammar.expr_tree(reader)
    }
}

/// A factor, in which the sign before a number belongs to the number.
fn factor_of(sign: Option<SignTree>, primary: PrimaryTree) -> FactorTree
    ensures { result ≡ factor_of (sign, primary) }
{
    match primary {
        PrimaryTree::Number(number) => FactorTree {
            sign: None,
            primary: PrimaryTree::Number(signed(sign, number)),
        },
        other => FactorTree {
            sign,
            primary: other,
        },
    }
}

fn times_in(terminal: Terminal) -> TimesSign
    ensures { result ≡ times_in terminal }
{
    match terminal {
        Terminal::StarSign => TimesSign::Star,
        Terminal::SlashSign => TimesSign::Slash,
        _ => TimesSign::Percent,
    }
}

impl Grammar<'_> {
    #[tactic(auto, unfolding(tsql_grammar::specs::Grammar::plain, tsql_grammar::specs::Grammar::unsigned, tsql_grammar::specs::Grammar::literal))]
    fn plain(&self, reader: &mut Reader<'_>) -> Result<PrimaryTree, ReadError>
        ensures { Steps result reader.new.rest.now ((plain self.now.text.now).reads reader.old.rest.now) }
    {
        if reader.begins(Terminal::Number) {
            let number = self.unsigned(reader)?;
            return Ok(PrimaryTree::Number(number));
        }
        if reader.begins(Terminal::Text) {
            let literal = self.literal(reader)?;
            return Ok(PrimaryTree::Text(literal));
        }
        if reader.begins(Terminal::Null) {
            let null = reader.take(Terminal::Null)?;
            return Ok(PrimaryTree::Null { place: null.place });
        }
        let name = self.name(reader)?;
        Ok(PrimaryTree::Name(name))
    }

    #[tactic(auto, unfolding(tsql_grammar::specs::Grammar::times))]
    fn times(&self, reader: &mut Reader<'_>) -> Result<TimesTree, ReadError>
        ensures { Steps result reader.new.rest.now (times.reads reader.old.rest.now) }
    {
        let symbol = reader.take_among(&TIMES)?;
        Ok(TimesTree {
            place: symbol.place,
            sign: times_in(symbol.terminal),
        })
    }

    #[tactic(auto, unfolding(tsql_grammar::specs::Grammar::sign))]
    fn sign(&self, reader: &mut Reader<'_>) -> Result<SignTree, ReadError>
        ensures { Steps result reader.new.rest.now (sign.reads reader.old.rest.now) }
    {
        let symbol = reader.take_among(&SIGNS)?;
        Ok(sign_of(&symbol))
    }

    /// Reads an expression in parentheses, inside of which this grammar stands.
    #[cycle(expr)]
    fn nested_expr(&self, reader: &mut Reader<'_>) -> Result<PrimaryTree, ReadError>
        ensures { Steps result reader.new.rest.now ((mapped nested_of (seq (word Terminal.OpenSign) (seq (expr_from (begins_primary (primary_at self.now.text.now self.now.depth))) (word Terminal.CloseSign)))).reads reader.old.rest.now) }
    {
        let opened = reader.take(Terminal::OpenSign)?;
        let inner = self.expr(reader)?;
        reader.take(Terminal::CloseSign)?;
        let expr = Boxed::new(self.alloc, inner)?;
        Ok(PrimaryTree::Nested {
            place: opened.place,
            expr,
        })
    }

    #[cycle(expr)]
    fn primary(&self, reader: &mut Reader<'_>) -> Result<PrimaryTree, ReadError>
        ensures { Steps result reader.new.rest.now ((primary_at self.now.text.now self.now.depth).reads reader.old.rest.now) }
    {
        if self.depth == 0 {
            return self.plain(reader);
        }
        if !reader.begins(Terminal::OpenSign) {
            return self.plain(reader);
        }
        let inside = Grammar {
            alloc: self.alloc,
            text: self.text,
            depth: self.depth - 1,
        };
        inside.nested_expr(reader)
    }

    #[cycle(expr)]
    #[tactic(auto, unfolding(tsql_grammar::specs::Grammar::factor_from))]
    fn factor(&self, reader: &mut Reader<'_>) -> Result<FactorTree, ReadError>
        ensures { Steps result reader.new.rest.now ((factor_from (begins_primary (primary_at self.now.text.now self.now.depth))).reads reader.old.rest.now) }
    {
        let sign = self.maybe_sign(reader);
        let primary = self.primary(reader)?;
        Ok(factor_of(sign, primary))
    }

    #[cycle(expr)]
    fn next_factor(&self, reader: &mut Reader<'_>) -> Result<(TimesTree, FactorTree), ReadError>
        ensures { Steps result reader.new.rest.now ((seq times (factor_from (begins_primary (primary_at self.now.text.now self.now.depth)))).reads reader.old.rest.now) }
    {
        let times = self.times(reader)?;
        let factor = self.factor(reader)?;
        Ok((times, factor))
    }

    #[cycle(expr)]
    #[tactic(auto, unfolding(tsql_grammar::specs::Grammar::times))]
    fn more_factors(
        &self,
        reader: &mut Reader<'_>,
    ) -> Result<Items<(TimesTree, FactorTree)>, ReadError>
        ensures { Steps result reader.new.rest.now ((many (seq times (factor_from (begins_primary (primary_at self.now.text.now self.now.depth))))).reads reader.old.rest.now) }
    {
        let mut list = Items::new(self.alloc);
        'more: while reader.begins_among(&TIMES) {
            let next = self.next_factor(reader)?;
            list.push(next)?;
        }
        Ok(list)
    }

    #[cycle(expr)]
    #[tactic(auto, unfolding(tsql_grammar::specs::Grammar::term_from))]
    fn term(&self, reader: &mut Reader<'_>) -> Result<TermTree, ReadError>
        ensures { Steps result reader.new.rest.now ((term_from (begins_primary (primary_at self.now.text.now self.now.depth))).reads reader.old.rest.now) }
    {
        let first = self.factor(reader)?;
        let rest = self.more_factors(reader)?;
        Ok(TermTree { first, rest })
    }

    #[cycle(expr)]
    fn next_term(&self, reader: &mut Reader<'_>) -> Result<(SignTree, TermTree), ReadError>
        ensures { Steps result reader.new.rest.now ((seq sign (term_from (begins_primary (primary_at self.now.text.now self.now.depth)))).reads reader.old.rest.now) }
    {
        let sign = self.sign(reader)?;
        let term = self.term(reader)?;
        Ok((sign, term))
    }

    #[cycle(expr)]
    #[tactic(auto, unfolding(tsql_grammar::specs::Grammar::sign))]
    fn more_terms(&self, reader: &mut Reader<'_>) -> Result<Items<(SignTree, TermTree)>, ReadError>
        ensures { Steps result reader.new.rest.now ((many (seq sign (term_from (begins_primary (primary_at self.now.text.now self.now.depth))))).reads reader.old.rest.now) }
    {
        let mut list = Items::new(self.alloc);
        'more: while reader.begins_among(&SIGNS) {
            let next = self.next_term(reader)?;
            list.push(next)?;
        }
        Ok(list)
    }

    #[cycle(expr)]
    #[tactic(auto, unfolding(tsql_grammar::specs::Grammar::expr_from))]
    fn expr(&self, reader: &mut Reader<'_>) -> Result<ExprTree, ReadError>
        ensures { Steps result reader.new.rest.now ((expr_from (begins_primary (primary_at self.now.text.now self.now.depth))).reads reader.old.rest.now) }
    {
        let first = self.term(reader)?;
        let rest = self.more_terms(reader)?;
        Ok(ExprTree { first, rest })
    }

    /// Reads an expression.
    #[tactic(auto, unfolding(tsql_grammar::specs::Grammar::expr))]
    pub fn expr_tree(&self, reader: &mut Reader<'_>) -> Result<ExprTree, ReadError>
        ensures { Steps result reader.new.rest.now ((expr self.now.text.now self.now.depth).reads reader.old.rest.now) }
    {
        self.expr(reader)
    }
}
