//! Lists, whose parts stand after commas.

ghost use Rattle.std.specs.Prelude.{◌≡◌, ℕ, List, [], ◌∷◌, ◌++◌, length};
ghost use Rattle.tsql_grammar.specs.Forms.{Form, many_reads, with_front};
ghost use Rattle.tsql_grammar.specs.Grammar.{behind, listed, name};
ghost use Rattle.tsql_exprs.specs.Steps.{Steps};

use crate::error::ReadError;
use crate::grammar::Grammar;
use crate::reader::Reader;
use cs_base::Items;
use tsql_grammar::Terminal;
use tsql_trees::NameTree;

/// A line of the grammar that lists are made of.
pub trait Line {
    /// What the line's texts give.
    type Tree: Drop;

    /// The line, over a text and the number of parentheses that may be open.
    ghost form: { List ℕ → ℕ → Form Self.Tree };

    /// Reads the line.
    fn read(grammar: &Grammar<'_>, reader: &mut Reader<'_>) -> Result<Self::Tree, ReadError>
        ensures { Steps result reader.new.rest.now ((form grammar.now.text.now grammar.now.depth).reads reader.old.rest.now) };
}

/// A name.
pub struct NameLine;

impl Line for NameLine {
    type Tree = NameTree;

    ghost form = { λ text n. name text };

    fn read(grammar: &Grammar<'_>, reader: &mut Reader<'_>) -> Result<NameTree, ReadError> {
        grammar.name(reader)
    }
}

impl Grammar<'_> {
    fn next_listed<L: Line>(&self, reader: &mut Reader<'_>) -> Result<L::Tree, ReadError>
        ensures { Steps result reader.new.rest.now ((behind Terminal.CommaSign (L.form self.now.text.now self.now.depth)).reads reader.old.rest.now) }
    {
        reader.take(Terminal::CommaSign)?;
        L::read(self, reader)
    }

    /// Reads the parts after the first ones, which are at most as many as there are symbols.
    fn more_listed<L: Line>(
        &self,
        reader: &mut Reader<'_>,
        first: Items<L::Tree>,
    ) -> Result<Items<L::Tree>, ReadError>
        ensures { Steps result reader.new.rest.now (with_front first (many_reads (Terminal.CommaSign ∷ []) (behind Terminal.CommaSign (L.form self.now.text.now self.now.depth)).reads (length reader.old.rest.now) reader.old.rest.now)) }
    {
        let mut list = first;
        'more: for _ in 0..reader.rest.len() {
            if !reader.begins(Terminal::CommaSign) {
                return Ok(list);
            }
            let next = self.next_listed::<L>(reader)?;
            list.push(next)?;
        }
        Ok(list)
    }

    /// Reads one or more parts with commas between them.
    pub fn listed<L: Line>(&self, reader: &mut Reader<'_>) -> Result<Items<L::Tree>, ReadError>
        ensures { Steps result reader.new.rest.now ((listed (L.form self.now.text.now self.now.depth)).reads reader.old.rest.now) }
    {
        let mut list = Items::new(self.alloc);
        let first = L::read(self, reader)?;
        list.push(first)?;
        self.more_listed::<L>(reader, list)
    }
}
