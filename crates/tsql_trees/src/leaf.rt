//! Names, literals and signs.

use cs_base::Items;

/// Bytes that contracts see as a list.
pub type Bytes = Items<u8>;

/// A name, without its brackets.
#[derive(Debug, Drop)]
pub struct NameTree {
    /// The place of its first byte, or of its bracket.
    pub place: u32,
    pub bytes: Bytes,
}

/// A number of at most 19 digits, with the sign that belongs to it: `digits` divided by 10 to the power of `s`, and
/// below zero where `minus` is true.
#[derive(Clone, Copy, Debug)]
pub struct NumberTree {
    /// The place of its sign, or of its first byte where it has none.
    pub place: u32,
    pub minus: bool,
    /// All its digits, read as one number.
    pub digits: u64,
    /// The number of its digits after the point.
    pub s: u8,
    /// Whether it has a point.
    pub point: bool,
}

/// A text, without its quotes, in which a doubled quote is one.
#[derive(Debug, Drop)]
pub struct TextTree {
    /// The place of its first quote.
    pub place: u32,
    pub bytes: Bytes,
}

/// `+` or `-`.
#[derive(Clone, Copy, Debug)]
pub struct SignTree {
    pub place: u32,
    pub minus: bool,
}

/// `table = name ["." name]`
#[derive(Debug, Drop)]
pub struct TableTree {
    pub first: NameTree,
    pub second: Option<NameTree>,
}

impl TableTree {
    ghost use Rattle.std.specs.Prelude.{◌≡◌};
    ghost use Rattle.tsql_trees.specs.Tables.{table_name};

    /// The name of the table, which is the last part of what names it.
    pub fn name(&self) -> &[u8]
        ensures { result.now ≡ table_name self.now }
    {
        match &self.second {
            Some(second) => second.bytes.as_slice(),
            None => self.first.bytes.as_slice(),
        }
    }
}

/// `names = name {"," name}`: one or more names.
pub type NamesTree = Items<NameTree>;

/// `whole = ["+" | "-"] number`
pub type WholeTree = NumberTree;
