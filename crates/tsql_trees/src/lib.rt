//! The trees of statements: for each name of the statement grammar a type with `Tree` at its end, with a variant for
//! each branch and a field for each part.
//!
//! They are plain data, which contracts see as they are written: a list by its elements, a box by its value. A chain of
//! OR, of AND, of sums or of products is one node with the list of its parts. Places count the bytes of the statement's
//! text from 1. The one function gives a table's name. They stand on `cs_base`.
#![tactic(auto)]

mod column;
mod expr;
mod leaf;
mod pred;
mod statement;

pub use column::{PlainType, TypeTree};
pub use expr::{ExprTree, FactorTree, PrimaryTree, TermTree, TimesSign, TimesTree};
pub use leaf::{Bytes, NameTree, NamesTree, NumberTree, SignTree, TableTree, TextTree, WholeTree};
pub use pred::{AtomTree, CmpTree, ConjTree, ConstTree, NegTree, OperandTree, PartTree, PredTree};
pub use statement::{
    Aggregate, ItemTree, ItemsTree, OitemTree, RowTree, SeriesTree, SetTree, SourceTree, Statement,
};
