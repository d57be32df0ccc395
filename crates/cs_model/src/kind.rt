// The kinds of statements.
ghost use Rattle.std.specs.Prelude.{◌≡◌};
ghost use Rattle.cs_model.specs.Kinds.{kind_of};

use crate::entry::Bound;

/// What kind a statement is of: whether it is one of the table, and whether it reads rows of it or writes them.
#[derive(Clone, Copy, Debug, PartialEq, Eq)]
pub enum Kind {
    /// BEGIN, COMMIT, ROLLBACK or SET: a statement without a table, about its session's transaction and settings.
    Control,
    /// INSERT: it writes rows that are new to the table.
    Insert,
    /// UPDATE or DELETE: it writes in the place of rows that it reads.
    Change,
    /// SELECT from the table: it reads rows and writes none.
    Query,
    /// SELECT from a report: it reads what the row groups are, and no row.
    Report,
    /// REORGANIZE: it moves the row groups, and reads and writes no row.
    Reorganize,
    /// A text that was refused.
    Refused,
}

impl Bound {
    /// The kind of the statement.
    pub fn kind(&self) -> Kind
        ensures { result ≡ kind_of self.now }
    {
        match self {
            Bound::Begin
            | Bound::Commit
            | Bound::Rollback
            | Bound::Nothing
            | Bound::Statistics(_) => Kind::Control,
            Bound::Insert(_) => Kind::Insert,
            Bound::Update(_) | Bound::Delete(_) => Kind::Change,
            Bound::Select(_) => Kind::Query,
            Bound::GroupReport | Bound::SegmentReport => Kind::Report,
            Bound::Reorganize { .. } => Kind::Reorganize,
            Bound::Refused(_) => Kind::Refused,
        }
    }
}
