//! Statements.

use crate::expr::ExprTree;
use crate::leaf::{NameTree, NamesTree, NumberTree, TableTree, WholeTree};
use crate::pred::PredTree;
use cs_base::Items;

/// A statement, a variant for each branch of `statement` in the grammar.
#[derive(Debug, Drop)]
pub enum Statement {
    /// `BEGIN (TRAN | TRANSACTION)`
    Begin,
    /// `COMMIT [TRAN | TRANSACTION | WORK]`
    Commit,
    /// `ROLLBACK [TRAN | TRANSACTION | WORK]`
    Rollback,
    /// `SET TRANSACTION ISOLATION LEVEL SNAPSHOT`
    SetSnapshot,
    /// `SET STATISTICS IO (ON | OFF)`
    SetStatistics {
        on: bool,
    },
    /// `SET LOCK_TIMEOUT number`
    SetLockTimeout {
        number: NumberTree,
    },
    /// `ALTER INDEX (ALL | name) ON table REORGANIZE [WITH "(" COMPRESS_ALL_ROW_GROUPS "=" (ON | OFF) ")"]`. The index
    /// is None for ALL, and `compress` is None without the WITH.
    AlterIndex {
        index: Option<NameTree>,
        table: TableTree,
        compress: Option<bool>,
    },
    /// `INSERT [INTO] table ["(" names ")"] source`
    Insert {
        table: TableTree,
        names: Option<NamesTree>,
        source: SourceTree,
    },
    /// `UPDATE table SET name "=" expr {"," name "=" expr} [WHERE pred]`
    Update {
        table: TableTree,
        sets: Items<SetTree>,
        filter: Option<PredTree>,
    },
    /// `DELETE [FROM] table [WHERE pred]`
    Delete {
        table: TableTree,
        filter: Option<PredTree>,
    },
    /// `SELECT items FROM table [WHERE pred] [GROUP BY names] [ORDER BY oitem {"," oitem}]`
    Select {
        items: ItemsTree,
        table: TableTree,
        filter: Option<PredTree>,
        groups: Option<NamesTree>,
        order: Option<Items<OitemTree>>,
    },
}

/// What an INSERT inserts.
#[derive(Debug, Drop)]
pub enum SourceTree {
    /// `VALUES row {"," row}`
    Values(Items<RowTree>),
    /// `SELECT expr {"," expr} FROM GENERATE_SERIES "(" whole "," whole ")"`
    Series(SeriesTree),
}

/// `row = "(" expr {"," expr} ")"`. The place is that of the parenthesis.
#[derive(Debug, Drop)]
pub struct RowTree {
    pub place: u32,
    pub exprs: Items<ExprTree>,
}

/// The expressions over a series. The place is that of the word GENERATE_SERIES.
#[derive(Debug, Drop)]
pub struct SeriesTree {
    pub exprs: Items<ExprTree>,
    pub place: u32,
    pub start: WholeTree,
    pub stop: WholeTree,
}

/// `name "=" expr`
#[derive(Debug, Drop)]
pub struct SetTree {
    pub name: NameTree,
    pub expr: ExprTree,
}

/// `items = "*" | item {"," item}`
#[derive(Debug, Drop)]
pub enum ItemsTree {
    /// The place is that of the `*`.
    All { place: u32 },
    List(Items<ItemTree>),
}

/// ```text
/// item = name | COUNT "(" "*" ")" | (COUNT | SUM | MIN | MAX | AVG) "(" name ")"
/// ```
/// The place of an aggregate is that of its word.
#[derive(Debug, Drop)]
pub enum ItemTree {
    Name(NameTree),
    CountAll {
        place: u32,
    },
    Aggregate {
        place: u32,
        aggregate: Aggregate,
        name: NameTree,
    },
}

/// The aggregates of a column.
#[derive(Clone, Copy, Debug, PartialEq, Eq)]
pub enum Aggregate {
    Count,
    Sum,
    Min,
    Max,
    Avg,
}

/// `oitem = name [ASC | DESC]`
#[derive(Debug, Drop)]
pub struct OitemTree {
    pub name: NameTree,
    pub descending: bool,
}
