//! Predicates of more than one atom.

ghost use Rattle.std.specs.Prelude.{◌≡◌, [], ◌∷◌, ℕ};
ghost use Rattle.tsql_grammar.specs.Forms.{mapped, many, seq};
ghost use Rattle.tsql_grammar.specs.Values.{nested_pred};
ghost use Rattle.tsql_grammar.specs.Grammar.{word, behind, atom, begins_part, part_at, neg_from, conj_from, pred_from, pred};
ghost use Rattle.tsql_exprs.specs.Steps.{Steps};

use crate::error::ReadError;
use crate::grammar::Grammar;
use crate::reader::Reader;
use cs_base::{Boxed, Items};
use tsql_grammar::Terminal;
use tsql_trees::{ConjTree, NegTree, PartTree, PredTree};

impl Grammar<'_> {
    fn atom_part(&self, reader: &mut Reader<'_>) -> Result<PartTree, ReadError>
        ensures { Steps result reader.new.rest.now ((mapped PartTree.Atom (atom self.now.text.now)).reads reader.old.rest.now) }
    {
        let atom = self.atom(reader)?;
        Ok(PartTree::Atom(atom))
    }

    /// Reads a predicate in parentheses, inside of which this grammar stands.
    #[cycle(pred)]
    fn nested_pred(&self, reader: &mut Reader<'_>) -> Result<PartTree, ReadError>
        ensures { Steps result reader.new.rest.now ((mapped nested_pred (seq (word Terminal.OpenSign) (seq (pred_from (begins_part (part_at self.now.text.now self.now.depth))) (word Terminal.CloseSign)))).reads reader.old.rest.now) }
    {
        let opened = reader.take(Terminal::OpenSign)?;
        let inner = self.pred(reader)?;
        reader.take(Terminal::CloseSign)?;
        let pred = Boxed::new(self.alloc, inner)?;
        Ok(PartTree::Nested {
            place: opened.place,
            pred,
        })
    }

    #[cycle(pred)]
    fn part(&self, reader: &mut Reader<'_>) -> Result<PartTree, ReadError>
        ensures { Steps result reader.new.rest.now ((part_at self.now.text.now self.now.depth).reads reader.old.rest.now) }
    {
        if self.depth == 0 {
            return self.atom_part(reader);
        }
        if !reader.begins(Terminal::OpenSign) {
            return self.atom_part(reader);
        }
        let inside = Grammar {
            alloc: self.alloc,
            text: self.text,
            depth: self.depth - 1,
        };
        inside.nested_pred(reader)
    }

    #[cycle(pred)]
    #[tactic(auto, unfolding(tsql_grammar::specs::Grammar::neg_from))]
    fn neg(&self, reader: &mut Reader<'_>) -> Result<NegTree, ReadError>
        ensures { Steps result reader.new.rest.now ((neg_from (begins_part (part_at self.now.text.now self.now.depth))).reads reader.old.rest.now) }
    {
        let negated = self.nots(reader);
        let part = self.part(reader)?;
        Ok(NegTree { negated, part })
    }

    #[cycle(pred)]
    fn next_neg(&self, reader: &mut Reader<'_>) -> Result<NegTree, ReadError>
        ensures { Steps result reader.new.rest.now ((behind Terminal.And (neg_from (begins_part (part_at self.now.text.now self.now.depth)))).reads reader.old.rest.now) }
    {
        reader.take(Terminal::And)?;
        self.neg(reader)
    }

    #[cycle(pred)]
    fn more_negs(&self, reader: &mut Reader<'_>) -> Result<Items<NegTree>, ReadError>
        ensures { Steps result reader.new.rest.now ((many (behind Terminal.And (neg_from (begins_part (part_at self.now.text.now self.now.depth))))).reads reader.old.rest.now) }
    {
        let mut list = Items::new(self.alloc);
        'more: while reader.begins(Terminal::And) {
            let next = self.next_neg(reader)?;
            list.push(next)?;
        }
        Ok(list)
    }

    #[cycle(pred)]
    #[tactic(auto, unfolding(tsql_grammar::specs::Grammar::conj_from))]
    fn conj(&self, reader: &mut Reader<'_>) -> Result<ConjTree, ReadError>
        ensures { Steps result reader.new.rest.now ((conj_from (begins_part (part_at self.now.text.now self.now.depth))).reads reader.old.rest.now) }
    {
        let first = self.neg(reader)?;
        let rest = self.more_negs(reader)?;
        Ok(ConjTree { first, rest })
    }

    #[cycle(pred)]
    fn next_conj(&self, reader: &mut Reader<'_>) -> Result<ConjTree, ReadError>
        ensures { Steps result reader.new.rest.now ((behind Terminal.Or (conj_from (begins_part (part_at self.now.text.now self.now.depth)))).reads reader.old.rest.now) }
    {
        reader.take(Terminal::Or)?;
        self.conj(reader)
    }

    #[cycle(pred)]
    fn more_conjs(&self, reader: &mut Reader<'_>) -> Result<Items<ConjTree>, ReadError>
        ensures { Steps result reader.new.rest.now ((many (behind Terminal.Or (conj_from (begins_part (part_at self.now.text.now self.now.depth))))).reads reader.old.rest.now) }
    {
        let mut list = Items::new(self.alloc);
        'more: while reader.begins(Terminal::Or) {
            let next = self.next_conj(reader)?;
            list.push(next)?;
        }
        Ok(list)
    }

    #[cycle(pred)]
    #[tactic(auto, unfolding(tsql_grammar::specs::Grammar::pred_from))]
    fn pred(&self, reader: &mut Reader<'_>) -> Result<PredTree, ReadError>
        ensures { Steps result reader.new.rest.now ((pred_from (begins_part (part_at self.now.text.now self.now.depth))).reads reader.old.rest.now) }
    {
        let first = self.conj(reader)?;
        let rest = self.more_conjs(reader)?;
        Ok(PredTree { first, rest })
    }

    /// Reads a predicate.
    #[tactic(auto, unfolding(tsql_grammar::specs::Grammar::pred))]
    pub fn pred_tree(&self, reader: &mut Reader<'_>) -> Result<PredTree, ReadError>
        ensures { Steps result reader.new.rest.now ((pred self.now.text.now self.now.depth).reads reader.old.rest.now) }
    {
        self.pred(reader)
    }
}
