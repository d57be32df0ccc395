// The statements of the workload, and their lines.
ghost use Rattle.std.specs.Prelude.{◌≡◌, ◌++◌, OnOk, decimal};
ghost use Rattle.script_workload.specs.Workload.{actor, text_of, line_of};
ghost use Rattle.script_workload.specs.declared.statement.Statement.TheVariants.{Insert};

use cs_base::Memory;
use cs_types::Line;

/// What a line of the workload asks for.
#[derive(Clone, Copy, Debug, PartialEq, Eq)]
pub enum Statement {
    /// A transaction begins.
    Begin,
    /// The open transaction commits.
    Commit,
    /// The open transaction is rolled back.
    Rollback,
    /// A row is inserted.
    Insert {
        /// The row's key, 0 to 999.
        key: u32,
        /// The row's number, 0 to 99.
        value: u32,
        /// The digit of the row's word, 0 to 9.
        word: u32,
    },
    /// The number of the row with this key, 0 to 999, goes up by one.
    Update {
        key: u32,
    },
    /// The row with this key, 0 to 999, goes.
    Delete {
        key: u32,
    },
    /// The rows from this key on, 0 to 999, are counted, and their numbers added up.
    Select {
        key: u32,
    },
    /// The mover takes a turn.
    Mover,
}

/// Adds who a statement is of: the mover, or this session.
fn append_actor(session: u32, statement: Statement, script: &mut Line) -> Result<(), Memory>
    ensures { OnOk result (script.new ≡ script.old ++ actor session statement) }
{
    match statement {
        Statement::Mover => script.append(b"m1"),
        _ => {
            script.append(b"s")?;
            script.append_number(session as u64)
        }
    }
}

/// Adds the INSERT of a row.
fn append_insert(key: u32, value: u32, word: u32, script: &mut Line) -> Result<(), Memory>
    ensures { OnOk result (script.new ≡ script.old ++ text_of (Insert key value word)) }
{
    script.append(b" INSERT INTO t VALUES (")?;
    script.append_number(key as u64)?;
    script.append(b", ")?;
    script.append_number(value as u64)?;
    script.append(b", 'w")?;
    script.append_number(word as u64)?;
    script.append(b"')")
}

/// Adds a text and the key that it ends with.
fn append_keyed(text: &[u8], key: u32, script: &mut Line) -> Result<(), Memory>
    ensures { OnOk result (script.new ≡ script.old ++ (text.now ++ decimal key)) }
{
    script.append(text)?;
    script.append_number(key as u64)
}

/// Adds what stands after the session.
fn append_text(statement: Statement, script: &mut Line) -> Result<(), Memory>
    ensures { OnOk result (script.new ≡ script.old ++ text_of statement) }
{
    match statement {
        Statement::Begin => script.append(b" BEGIN TRANSACTION"),
        Statement::Commit => script.append(b" COMMIT"),
        Statement::Rollback => script.append(b" ROLLBACK"),
        Statement::Insert { key, value, word } => append_insert(key, value, word, script),
        Statement::Update { key } => {
            append_keyed(b" UPDATE t SET v = v + 1 WHERE k = ", key, script)
        }
        Statement::Delete { key } => append_keyed(b" DELETE FROM t WHERE k = ", key, script),
        Statement::Select { key } => {
            append_keyed(b" SELECT COUNT(*), SUM(v) FROM t WHERE k >= ", key, script)
        }
        Statement::Mover => Ok(()),
    }
}

/// Adds the line of a statement, which is this session's or the mover's. After `Memory` a part of it may stand there.
pub fn append_line(session: u32, statement: Statement, script: &mut Line) -> Result<(), Memory>
    ensures { OnOk result (script.new ≡ script.old ++ line_of session statement) }
{
    append_actor(session, statement, script)?;
    append_text(statement, script)?;
    script.append(b"\n")
}
