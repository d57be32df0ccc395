//! Predicates.

ghost use Rattle.std.specs.Prelude.{◌≡◌, [], ◌∷◌, ℕ};
ghost use Rattle.tsql_grammar.specs.Terminals.{among};
ghost use Rattle.tsql_grammar.specs.Values.{cmp_in};
ghost use Rattle.tsql_grammar.specs.Forms.{next_among, optional, mapped, many, with_front};
ghost use Rattle.tsql_grammar.specs.Grammar.{behind, within, listed, constant, operand, cmp, maybe_not, compared, between, within_list, like, tested, maybe_tested, is_null, after_name, atom, nots, begins_part, part_at, neg_from, conj_from, pred_from, pred, where_part};
ghost use Rattle.tsql_exprs.specs.Steps.{Steps};

use crate::error::ReadError;
use crate::grammar::Grammar;
use crate::list::Line;
use crate::reader::Reader;
use cs_base::Items;
use tsql_grammar::{Terminal, is_same};
use tsql_trees::{AtomTree, CmpTree, ConstTree, NameTree, OperandTree};

/// The signs of a comparison.
const COMPARISONS: [Terminal; 7] = [
    Terminal::EqualSign,
    Terminal::UnequalSign,
    Terminal::BangEqualSign,
    Terminal::LessSign,
    Terminal::LessEqualSign,
    Terminal::GreaterSign,
    Terminal::GreaterEqualSign,
];

/// A constant.
pub struct ConstLine;

impl Line for ConstLine {
    type Tree = ConstTree;

    ghost form = { λ text n. constant text };

    fn read(grammar: &Grammar<'_>, reader: &mut Reader<'_>) -> Result<ConstTree, ReadError> {
        grammar.const_tree(reader)
    }
}

impl Grammar<'_> {
    #[tactic(auto, unfolding(tsql_grammar::specs::Grammar::constant, tsql_grammar::specs::Grammar::literal))]
    fn const_tree(&self, reader: &mut Reader<'_>) -> Result<ConstTree, ReadError>
        ensures { Steps result reader.new.rest.now ((constant self.now.text.now).reads reader.old.rest.now) }
    {
        if self.begins_number(reader) {
            let number = self.whole(reader)?;
            return Ok(ConstTree::Number(number));
        }
        if reader.begins(Terminal::Text) {
            let literal = self.literal(reader)?;
            return Ok(ConstTree::Text(literal));
        }
        let null = reader.take(Terminal::Null)?;
        Ok(ConstTree::Null { place: null.place })
    }

    fn consts(&self, reader: &mut Reader<'_>) -> Result<Items<ConstTree>, ReadError>
        ensures { Steps result reader.new.rest.now ((listed (constant self.now.text.now)).reads reader.old.rest.now) }
    {
        self.listed::<ConstLine>(reader)
    }

    #[tactic(auto, unfolding(tsql_grammar::specs::Grammar::operand))]
    fn operand(&self, reader: &mut Reader<'_>) -> Result<OperandTree, ReadError>
        ensures { Steps result reader.new.rest.now ((operand self.now.text.now).reads reader.old.rest.now) }
    {
        if self.begins_name(reader) {
            let name = self.name(reader)?;
            return Ok(OperandTree::Name(name));
        }
        let constant = self.const_tree(reader)?;
        Ok(OperandTree::Const(constant))
    }

    #[tactic(auto, unfolding(tsql_grammar::specs::Grammar::cmp))]
    fn cmp(&self, reader: &mut Reader<'_>) -> Result<CmpTree, ReadError>
        ensures { Steps result reader.new.rest.now (cmp.reads reader.old.rest.now) }
    {
        let symbol = reader.take_among(&COMPARISONS)?;
        Ok(cmp_in(symbol.terminal))
    }

    #[tactic(auto, unfolding(tsql_grammar::specs::Grammar::compared, tsql_grammar::specs::Grammar::cmp))]
    fn begins_cmp(&self, reader: &Reader<'_>) -> bool
        ensures { result ≡ next_among (compared self.now.text.now).first reader.now.rest.now }
    {
        reader.begins_among(&COMPARISONS)
    }

    /// Reads what an operand is compared with.
    #[tactic(auto, unfolding(tsql_grammar::specs::Grammar::compared))]
    fn compared(&self, reader: &mut Reader<'_>, left: OperandTree) -> Result<AtomTree, ReadError>
        ensures { Steps result reader.new.rest.now ((mapped (λ f. f left) (compared self.now.text.now)).reads reader.old.rest.now) }
    {
        let cmp = self.cmp(reader)?;
        let right = self.operand(reader)?;
        Ok(AtomTree::Compare { left, cmp, right })
    }

    /// NOT, where it is there.
    #[tactic(auto, unfolding(tsql_grammar::specs::Grammar::maybe_not))]
    fn maybe_not(&self, reader: &mut Reader<'_>) -> bool
        ensures { maybe_not.reads reader.old.rest.now ≡ Ok (result, reader.new.rest.now) }
    {
        reader.maybe(Terminal::Not).is_some()
    }

    #[tactic(auto, unfolding(tsql_grammar::specs::Grammar::between))]
    fn between(
        &self,
        reader: &mut Reader<'_>,
        name: NameTree,
        negated: bool,
    ) -> Result<AtomTree, ReadError>
        ensures { Steps result reader.new.rest.now ((mapped (λ f. f negated name) (between self.now.text.now)).reads reader.old.rest.now) }
    {
        reader.take(Terminal::Between)?;
        let low = self.const_tree(reader)?;
        reader.take(Terminal::And)?;
        let high = self.const_tree(reader)?;
        Ok(AtomTree::Between {
            name,
            negated,
            low,
            high,
        })
    }

    #[tactic(auto, unfolding(tsql_grammar::specs::Grammar::within_list))]
    fn within_list(
        &self,
        reader: &mut Reader<'_>,
        name: NameTree,
        negated: bool,
    ) -> Result<AtomTree, ReadError>
        ensures { Steps result reader.new.rest.now ((mapped (λ f. f negated name) (within_list self.now.text.now)).reads reader.old.rest.now) }
    {
        reader.take(Terminal::In)?;
        reader.take(Terminal::OpenSign)?;
        let list = self.consts(reader)?;
        reader.take(Terminal::CloseSign)?;
        Ok(AtomTree::In {
            name,
            negated,
            list,
        })
    }

    #[tactic(auto, unfolding(tsql_grammar::specs::Grammar::like))]
    fn like(
        &self,
        reader: &mut Reader<'_>,
        name: NameTree,
        negated: bool,
    ) -> Result<AtomTree, ReadError>
        ensures { Steps result reader.new.rest.now ((mapped (λ f. f negated name) (like self.now.text.now)).reads reader.old.rest.now) }
    {
        reader.take(Terminal::Like)?;
        let pattern = self.literal(reader)?;
        Ok(AtomTree::Like {
            name,
            negated,
            pattern,
        })
    }

    /// Reads BETWEEN, IN or LIKE.
    #[tactic(auto, unfolding(tsql_grammar::specs::Grammar::tested, tsql_grammar::specs::Grammar::between, tsql_grammar::specs::Grammar::within_list))]
    fn tested(
        &self,
        reader: &mut Reader<'_>,
        name: NameTree,
        negated: bool,
    ) -> Result<AtomTree, ReadError>
        ensures { Steps result reader.new.rest.now ((mapped (λ f. f negated name) (tested self.now.text.now)).reads reader.old.rest.now) }
    {
        if reader.begins(Terminal::Between) {
            return self.between(reader, name, negated);
        }
        if reader.begins(Terminal::In) {
            return self.within_list(reader, name, negated);
        }
        self.like(reader, name, negated)
    }

    #[tactic(auto, unfolding(tsql_grammar::specs::Grammar::maybe_tested))]
    fn maybe_tested(&self, reader: &mut Reader<'_>, name: NameTree) -> Result<AtomTree, ReadError>
        ensures { Steps result reader.new.rest.now ((mapped (λ f. f name) (maybe_tested self.now.text.now)).reads reader.old.rest.now) }
    {
        let negated = self.maybe_not(reader);
        self.tested(reader, name, negated)
    }

    #[tactic(auto, unfolding(tsql_grammar::specs::Grammar::maybe_tested, tsql_grammar::specs::Grammar::maybe_not, tsql_grammar::specs::Grammar::tested, tsql_grammar::specs::Grammar::between, tsql_grammar::specs::Grammar::within_list, tsql_grammar::specs::Grammar::like))]
    fn begins_tested(&self, reader: &Reader<'_>) -> bool
        ensures { result ≡ next_among (maybe_tested self.now.text.now).first reader.now.rest.now }
    {
        reader.begins_among(&[
            Terminal::Not,
            Terminal::Between,
            Terminal::In,
            Terminal::Like,
        ])
    }

    #[tactic(auto, unfolding(tsql_grammar::specs::Grammar::is_null))]
    fn is_null(&self, reader: &mut Reader<'_>, name: NameTree) -> Result<AtomTree, ReadError>
        ensures { Steps result reader.new.rest.now ((mapped (λ f. f name) is_null).reads reader.old.rest.now) }
    {
        reader.take(Terminal::Is)?;
        let negated = self.maybe_not(reader);
        reader.take(Terminal::Null)?;
        Ok(AtomTree::IsNull { name, negated })
    }

    /// Reads what follows a name in an atom.
    #[tactic(auto, unfolding(tsql_grammar::specs::Grammar::after_name))]
    fn after_name(&self, reader: &mut Reader<'_>, name: NameTree) -> Result<AtomTree, ReadError>
        ensures { Steps result reader.new.rest.now ((mapped (λ f. f name) (after_name self.now.text.now)).reads reader.old.rest.now) }
    {
        if self.begins_cmp(reader) {
            return self.compared(reader, OperandTree::Name(name));
        }
        if self.begins_tested(reader) {
            return self.maybe_tested(reader, name);
        }
        self.is_null(reader, name)
    }

    #[tactic(auto, unfolding(tsql_grammar::specs::Grammar::atom, tsql_grammar::specs::Grammar::atom_read, tsql_grammar::specs::Grammar::name))]
    pub fn atom(&self, reader: &mut Reader<'_>) -> Result<AtomTree, ReadError>
        ensures { Steps result reader.new.rest.now ((atom self.now.text.now).reads reader.old.rest.now) }
    {
        if self.begins_name(reader) {
            let name = self.name(reader)?;
            return self.after_name(reader, name);
        }
        let left = self.const_tree(reader)?;
        self.compared(reader, OperandTree::Const(left))
    }

    /// NOT any number of times: whether it stands an odd number of times.
    #[tactic(auto, unfolding(tsql_grammar::specs::Grammar::nots))]
    pub fn nots(&self, reader: &mut Reader<'_>) -> bool
        ensures { nots.reads reader.old.rest.now ≡ Ok (result, reader.new.rest.now) }
    {
        let mut odd = false;
        'more: while let [symbol, next @ ..] = reader.rest {
            if !is_same(symbol.terminal, Terminal::Not) {
                break;
            }
            odd = !odd;
            reader.rest = next;
        }
        odd
    }
}

fn cmp_in(terminal: Terminal) -> CmpTree
    ensures { result ≡ cmp_in terminal }
{
    match terminal {
        Terminal::EqualSign => CmpTree::Equal,
        Terminal::UnequalSign => CmpTree::NotEqual,
        Terminal::BangEqualSign => CmpTree::BangEqual,
        Terminal::LessSign => CmpTree::Less,
        Terminal::LessEqualSign => CmpTree::LessEqual,
        Terminal::GreaterSign => CmpTree::Greater,
        _ => CmpTree::GreaterEqual,
    }
}
