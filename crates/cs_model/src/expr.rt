//! Expressions.

use cs_base::{Boxed, Items};
use cs_types::Loose;

/// What `*`, `/` and `%` do.
#[derive(Clone, Copy, Debug, PartialEq, Eq)]
pub enum Times {
    Multiply,
    Divide,
    Remainder,
}

/// An expression over the cells of a row.
#[cycle(expr)]
#[derive(Debug, Drop)]
pub enum Expr {
    /// A literal. It is not judged before it is fitted to a column.
    Constant(Loose),
    /// The cell of a column.
    Column(usize),
    /// A sign that does not belong to a number: `-` negates the part, `+` keeps it.
    Signed {
        minus: bool,
        part: Boxed<Expr>,
    },
    /// A chain of sums from the left. `true` is minus; there is at least one further part.
    Sum {
        first: Boxed<Expr>,
        rest: Items<(bool, Expr)>,
    },
    /// A chain of products, quotients and remainders from the left. There is at least one further part.
    Product {
        first: Boxed<Expr>,
        rest: Items<(Times, Expr)>,
    },
}
