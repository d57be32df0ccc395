//! The tree of a setup statement.

use cs_base::Items;
use tsql_trees::{NameTree, TableTree, TypeTree};

/// `create = CREATE TABLE table "(" part {"," part} ")" [";"]`
#[derive(Debug, Drop)]
pub struct CreateTree {
    pub table: TableTree,
    pub parts: Items<TablePartTree>,
}

/// ```text
/// part = name type {NULL | NOT NULL | PRIMARY KEY [NONCLUSTERED]}
///      | [CONSTRAINT name] PRIMARY KEY [NONCLUSTERED] "(" name [ASC] ")"
///      | INDEX name CLUSTERED COLUMNSTORE
/// ```
#[derive(Debug, Drop)]
pub enum TablePartTree {
    Column {
        name: NameTree,
        kind: TypeTree,
        marks: Items<MarkTree>,
    },
    /// The place is that of the word PRIMARY.
    Key {
        place: u32,
        name: NameTree,
    },
    Index {
        name: NameTree,
    },
}

/// What stands after a column's type. The place is that of its first word.
#[derive(Clone, Copy, Debug)]
pub enum MarkTree {
    Null { place: u32 },
    NotNull { place: u32 },
    Key { place: u32 },
}
