//! Predicates.

use cs_base::{Boxed, Items};
use cs_types::{Bytes, Loose};

/// How the two sides of a comparison are to stand to each other.
#[derive(Clone, Copy, Debug, PartialEq, Eq)]
pub enum Relation {
    Equal,
    NotEqual,
    Less,
    LessEqual,
    Greater,
    GreaterEqual,
}

/// A side of a comparison.
#[derive(Debug, Drop)]
pub enum Operand {
    /// The cell of a column.
    Column(usize),
    /// A literal. A text beside a date column is a day.
    Constant(Loose),
}

/// A predicate over the cells of a row.
#[cycle(pred)]
#[derive(Debug, Drop)]
pub enum Pred {
    /// A chain of OR, of at least two parts.
    AnyOf(Items<Pred>),
    /// A chain of AND, of at least two parts.
    AllOf(Items<Pred>),
    /// NOT, for an odd run of NOTs.
    Not(Boxed<Pred>),
    /// A comparison.
    Compare {
        left: Operand,
        sign: Relation,
        right: Operand,
    },
    /// `[NOT] BETWEEN`, which is `>=` the low and `<=` the high one.
    Between {
        column: usize,
        negated: bool,
        low: Loose,
        high: Loose,
    },
    /// `[NOT] IN`, which is the OR of equalities.
    Among {
        column: usize,
        negated: bool,
        list: Items<Loose>,
    },
    /// `[NOT] LIKE`: in the pattern `%` is any run of bytes, `_` one byte, any other byte itself.
    Like {
        column: usize,
        negated: bool,
        pattern: Bytes,
    },
    /// `IS [NOT] NULL`.
    IsNull {
        column: usize,
        negated: bool,
    },
}
