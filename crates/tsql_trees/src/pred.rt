//! Predicates.

use crate::leaf::{NameTree, NumberTree, TextTree};
use cs_base::{Boxed, Items};

/// `pred = conj {OR conj}`
#[cycle(pred)]
#[derive(Debug, Drop)]
pub struct PredTree {
    pub first: ConjTree,
    pub rest: Items<ConjTree>,
}

/// `conj = neg {AND neg}`
#[cycle(pred)]
#[derive(Debug, Drop)]
pub struct ConjTree {
    pub first: NegTree,
    pub rest: Items<NegTree>,
}

/// `neg = {NOT} ("(" pred ")" | atom)`. An even run of NOTs counts as none, and an odd one as one.
#[cycle(pred)]
#[derive(Debug, Drop)]
pub struct NegTree {
    pub negated: bool,
    pub part: PartTree,
}

/// What stands after the NOTs.
#[cycle(pred)]
#[derive(Debug, Drop)]
pub enum PartTree {
    /// The place is that of the parenthesis.
    Nested { place: u32, pred: Boxed<PredTree> },
    Atom(AtomTree),
}

/// ```text
/// atom = operand cmp operand
///      | name [NOT] BETWEEN const AND const
///      | name [NOT] IN "(" const {"," const} ")"
///      | name [NOT] LIKE text
///      | name IS [NOT] NULL
/// ```
#[derive(Debug, Drop)]
pub enum AtomTree {
    Compare {
        left: OperandTree,
        cmp: CmpTree,
        right: OperandTree,
    },
    Between {
        name: NameTree,
        negated: bool,
        low: ConstTree,
        high: ConstTree,
    },
    In {
        name: NameTree,
        negated: bool,
        list: Items<ConstTree>,
    },
    Like {
        name: NameTree,
        negated: bool,
        pattern: TextTree,
    },
    IsNull {
        name: NameTree,
        negated: bool,
    },
}

/// `operand = name | const`
#[derive(Debug, Drop)]
pub enum OperandTree {
    Name(NameTree),
    Const(ConstTree),
}

/// `const = ["+" | "-"] number | text | NULL`
#[derive(Debug, Drop)]
pub enum ConstTree {
    Number(NumberTree),
    Text(TextTree),
    Null { place: u32 },
}

/// `cmp = "=" | "<>" | "!=" | "<" | "<=" | ">" | ">="`. `BangEqual` is `!=`, which means what `<>` means.
#[derive(Clone, Copy, Debug, PartialEq, Eq)]
pub enum CmpTree {
    Equal,
    NotEqual,
    BangEqual,
    Less,
    LessEqual,
    Greater,
    GreaterEqual,
}
