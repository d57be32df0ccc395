//! Expressions.

use crate::leaf::{NameTree, NumberTree, SignTree, TextTree};
use cs_base::{Boxed, Items};

/// `expr = term {("+" | "-") term}`
#[cycle(expr)]
#[derive(Debug, Drop)]
pub struct ExprTree {
    pub first: TermTree,
    pub rest: Items<(SignTree, TermTree)>,
}

/// `term = factor {("*" | "/" | "%") factor}`
#[cycle(expr)]
#[derive(Debug, Drop)]
pub struct TermTree {
    pub first: FactorTree,
    pub rest: Items<(TimesTree, FactorTree)>,
}

/// `times = "*" | "/" | "%"`
#[derive(Clone, Copy, Debug)]
pub struct TimesTree {
    pub place: u32,
    pub sign: TimesSign,
}

/// The sign that stands there.
#[derive(Clone, Copy, Debug)]
pub enum TimesSign {
    Star,
    Slash,
    Percent,
}

/// `factor = ["+" | "-"] (number | text | NULL | name | "(" expr ")")`. A sign before a number belongs to the number,
/// and is not kept here.
#[cycle(expr)]
#[derive(Debug, Drop)]
pub struct FactorTree {
    pub sign: Option<SignTree>,
    pub primary: PrimaryTree,
}

/// What stands after the sign of a factor.
#[cycle(expr)]
#[derive(Debug, Drop)]
pub enum PrimaryTree {
    Number(NumberTree),
    Text(TextTree),
    Null { place: u32 },
    Name(NameTree),
    /// The place is that of the parenthesis.
    Nested { place: u32, expr: Boxed<ExprTree> },
}
