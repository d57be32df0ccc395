//! Statements.

use crate::expr::Expr;
use crate::pred::Pred;
use cs_base::Items;

/// What an INSERT inserts.
#[derive(Debug, Drop)]
pub struct InsertPlan {
    /// For each value of a row the column that takes it. Columns that are not listed take NULL.
    pub columns: Items<usize>,
    /// The rows of VALUES, or one row of expressions over a series.
    pub rows: Items<Items<Expr>>,
    /// The first and the last number of a series.
    pub series: Option<(i64, i64)>,
}

/// What an UPDATE changes: the columns that it sets, each with its new value, in the rows for which the filter is true.
#[derive(Debug, Drop)]
pub struct UpdatePlan {
    pub sets: Items<(usize, Expr)>,
    pub filter: Option<Pred>,
}

/// An item of a SELECT.
#[derive(Clone, Copy, Debug, PartialEq, Eq)]
pub enum Item {
    /// The cell of a column.
    Column(usize),
    /// `COUNT(*)`
    CountAll,
    Count(usize),
    Sum(usize),
    Min(usize),
    Max(usize),
    Avg(usize),
}

/// What a SELECT asks for.
#[derive(Debug, Drop)]
pub struct Query {
    /// The items of an answer's row; for `*` all columns in order.
    pub items: Items<Item>,
    /// The rows that are kept: those for which it is true.
    pub filter: Option<Pred>,
    /// The columns of GROUP BY.
    pub groups: Items<usize>,
    /// Whether the rows are put together into groups: by GROUP BY, or by an aggregate.
    pub grouped: bool,
    /// The columns of ORDER BY; `true` is descending.
    pub order: Items<(usize, bool)>,
}
