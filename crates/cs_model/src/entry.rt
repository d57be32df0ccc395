// Statements, replies and events.
use crate::plan::{InsertPlan, Query, UpdatePlan};
use crate::pred::Pred;
use crate::report::{GroupLine, SegmentLine};
use crate::work::{Actor, Work};
use cs_base::{Boxed, Items};
use cs_types::{Key, Loose};
use std::sync::Arc;

/// A row of an answer: a value for each item of the query.
pub type AnswerRow = Items<Loose>;

/// A statement as it is bound to the table, or why it is refused. What it is bound to stands on the heap, so that a
/// statement without it is small.
#[derive(Debug, Drop)]
pub enum Bound {
    /// BEGIN TRANSACTION: opens a transaction, or makes the open one a level deeper.
    Begin,
    /// COMMIT: leaves a level; at the outermost the transaction commits.
    Commit,
    /// ROLLBACK: the whole transaction is undone.
    Rollback,
    /// SET of something that changes nothing here: the isolation level, which is always SNAPSHOT, or the time to wait for a
    /// lock, since no statement waits.
    Nothing,
    /// SET STATISTICS IO ON or OFF: whether the session's answers tell how many segments were read and skipped.
    Statistics(bool),
    /// INSERT of the rows of VALUES, or of a row over each number of a series.
    Insert(Boxed<InsertPlan>),
    /// UPDATE of the rows for which its filter is true.
    Update(Boxed<UpdatePlan>),
    /// DELETE of the rows for which the condition is true, or of all rows.
    Delete(Boxed<Option<Pred>>),
    /// SELECT from the table.
    Select(Boxed<Query>),
    /// SELECT from the report on row groups.
    GroupReport,
    /// SELECT from the report on segments.
    SegmentReport,
    /// ALTER INDEX .. REORGANIZE: turns of the tuple mover, made by the session; where `all` says so, the open store is closed
    /// before them.
    Reorganize { all: bool },
    /// Reading or binding refused the text, or there was no memory for it: no other refusal stands here.
    Refused(Refusal),
}

/// Why a statement is refused.
#[derive(Clone, Copy, Debug, PartialEq, Eq)]
pub enum Refusal {
    /// The text has an error with this number at this place; places count bytes from 1.
    Reading { number: u32, at: u32 },
    /// A value that a row's column does not keep, or that can't be computed, has an error with this number: 515, 2628, 220,
    /// 8115 or 8134. Rows are counted from 1 in their order in the statement, columns from 1 by their place in the table.
    Valued { number: u32, row: u64, column: u32 },
    /// A write of a key that another open transaction, the one with this number, has written (error 1222).
    Locked { key: Key, txn: u64 },
    /// A write of a key that was changed after the transaction's snapshot was taken (error 3960): its newest change is this
    /// transaction's, under this commit number.
    Changed { key: Key, txn: u64, commit: u64 },
    /// An INSERT of a key that is there already, or twice in the statement (error 2627).
    Duplicate { key: Key },
    /// A COMMIT (error 3902) or a ROLLBACK (error 3903) without a transaction.
    NoTxn { number: u32 },
    /// Memory was not there (error 701). No row has changed.
    Memory,
}

/// The reply to a statement.
#[derive(Debug, Drop)]
pub enum Reply {
    /// The statement was done; it counts no rows.
    Done,
    /// So many rows were written.
    Affected(u64),
    /// The answer of a query. Where STATISTICS IO is on, also how many segments the scan read and skipped.
    Rows {
        rows: Items<AnswerRow>,
        segments: Option<(u64, u64)>,
    },
    /// The report on row groups: a line for each, by id, and the number of entries of the delete buffer.
    Groups {
        lines: Items<GroupLine>,
        buffered: u64,
    },
    /// The report on segments: a line for each COMPRESSED group and column.
    Segments(Items<SegmentLine>),
    /// What a REORGANIZE left: of the stores that were closed at its Start, or that it closed, those that another actor held at its
    /// last look, by id, each with that actor.
    Left(Items<(u64, Actor)>),
    /// The statement was refused.
    Refused(Refusal),
}

/// An event of the log. A session is named by its number, 1 to 64.
#[derive(Debug, Drop)]
pub enum Entry {
    /// A statement begins. A statement of the table opens a transaction and takes a snapshot here; `short` says that
    /// there was no memory for that. The statement is shared with whoever works on it.
    Start {
        session: u32,
        bound: Arc<Bound>,
        short: bool,
    },
    /// The statement that the session began is replied to, and takes effect unless it is refused.
    Finish {
        session: u32,
        reply: Reply,
    },
    /// The session ends. Its open transaction is rolled back.
    End {
        session: u32,
    },
    /// A mover's work on the row groups, or that of a session in its place. It changes no row.
    Mover {
        actor: Actor,
        work: Work,
    },
}
