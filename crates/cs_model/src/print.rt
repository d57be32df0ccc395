// The text of an event.
ghost use Rattle.std.specs.Prelude.{◌≡◌, ◌++◌, All, OnOk, OnErr, IsTrue, codes, decimal};
ghost use Rattle.std.specs.List.{flat_map};
ghost use Rattle.cs_types.specs.Text.{IsPrintable};
ghost use Rattle.cs_model.specs.Works.{session_text};
ghost use Rattle.cs_model.specs.Text.{next_cell, cells_text, key_kind, key_text, valued_text, refusal_text, segments_lines, ok_line, head_line, under_lines, statement_text, lines_text, entry_text, IsPrintableKey, IsPrintableRefusal, IsPrintableReply, IsPrintableEntry};
ghost use Rattle.cs_types.specs.Kinds.{keeps};
ghost use Rattle.cs_types.specs.declared.Value.TheVariants as value;

use crate::entry::{AnswerRow, Entry, Refusal, Reply};
use crate::print_lines::{ReplyLine, append_lines};
use crate::print_work::{append_actor, append_work};
use cs_base::Memory;
use cs_types::{ColumnType, Key, Line, Loose, Schema, Value, print_loose, print_value};
use std::alloc::Global;

/// Adds cells, each after a comma and a space.
fn append_next_cells(cells: &[Loose], line: &mut Line) -> Result<(), Memory>
    requires { All IsPrintable cells.now }
    ensures { OnOk result (line.new ≡ line.old ++ flat_map next_cell cells.now) }
{
    for cell in cells {
        line.append(b", ")?;
        print_loose(cell, line)?;
    }
    Ok(())
}

/// Adds the cells of a row, joined by a comma and a space.
fn append_cells(cells: &[Loose], line: &mut Line) -> Result<(), Memory>
    requires { All IsPrintable cells.now }
    ensures { OnOk result (line.new ≡ line.old ++ cells_text cells.now) }
{
    let Some((first, others)) = cells.split_first() else {
        return Ok(());
    };
    print_loose(first, line)?;
    append_next_cells(others, line)
}

impl ReplyLine for AnswerRow {
    ghost use Rattle.cs_model.specs.Text.{row_line, IsPrintableRow};

    ghost is_printable = { λ _ row. IsPrintableRow row };

    ghost line_of = { λ _ row. row_line row };

    fn append_to(&self, _schema: &Schema, line: &mut Line) -> Result<(), Memory> {
        line.append(b"  ")?;
        append_cells(self.as_slice(), line)
    }
}

/// The type of the key's column.
fn key_kind(schema: &Schema) -> ColumnType
    ensures { result ≡ key_kind schema.now }
{
    match schema.columns.get(schema.key) {
        Some(column) => column.kind,
        None => ColumnType::BigInt,
    }
}

/// Adds a key, printed by its column's type.
fn append_key(schema: &Schema, key: Key, line: &mut Line) -> Result<(), Memory>
    requires { IsPrintableKey schema.now key }
    ensures { OnOk result (line.new ≡ line.old ++ key_text schema.now key) }
{
    print_value(key_kind(schema), &Value::Number(key.0), line)
}

/// Adds the refusal of a value, by its row and column.
fn append_valued(number: u32, row: u64, column: u32, line: &mut Line) -> Result<(), Memory>
    ensures { OnOk result (line.new ≡ line.old ++ valued_text number row column) }
{
    line.append(b"error ")?;
    line.append_number(number as u64)?;
    line.append(b" row ")?;
    line.append_number(row)?;
    line.append(b" column ")?;
    line.append_number(column as u64)
}

/// Adds the transaction that stands in the way of a write.
fn append_txn(txn: u64, line: &mut Line) -> Result<(), Memory>
    ensures { OnOk result (line.new ≡ line.old ++ codes " transaction " ++ decimal txn) }
{
    line.append(b" transaction ")?;
    line.append_number(txn)
}

/// Adds the commit that stands in the way of a write, with its transaction.
fn append_commit(txn: u64, commit: u64, line: &mut Line) -> Result<(), Memory>
    ensures { OnOk result (line.new ≡ line.old ++ codes " transaction " ++ decimal txn ++ codes " commit " ++ decimal commit) }
{
    append_txn(txn, line)?;
    line.append(b" commit ")?;
    line.append_number(commit)
}

/// Adds the refusal of a write of a key that another transaction has written.
fn append_locked(schema: &Schema, key: Key, txn: u64, line: &mut Line) -> Result<(), Memory>
    requires { IsPrintableKey schema.now key }
    ensures { OnOk result (line.new ≡ line.old ++ codes "error 1222 key " ++ key_text schema.now key ++ codes " transaction " ++ decimal txn) }
{
    line.append(b"error 1222 key ")?;
    append_key(schema, key, line)?;
    append_txn(txn, line)
}

/// Adds the refusal of a write of a key that was changed above the snapshot.
fn append_changed(
    schema: &Schema,
    key: Key,
    txn: u64,
    commit: u64,
    line: &mut Line,
) -> Result<(), Memory>
    requires { IsPrintableKey schema.now key }
    ensures { OnOk result (line.new ≡ line.old ++ codes "error 3960 key " ++ key_text schema.now key ++ codes " transaction " ++ decimal txn ++ codes " commit " ++ decimal commit) }
{
    line.append(b"error 3960 key ")?;
    append_key(schema, key, line)?;
    append_commit(txn, commit, line)
}

fn append_refusal(schema: &Schema, refusal: Refusal, line: &mut Line) -> Result<(), Memory>
    requires { IsPrintableRefusal schema.now refusal }
    ensures { OnOk result (line.new ≡ line.old ++ refusal_text schema.now refusal) }
{
    match refusal {
        Refusal::Reading { number, at } => {
            line.append(b"error ")?;
            line.append_number(number as u64)?;
            line.append(b" at ")?;
            line.append_number(at as u64)
        }
        Refusal::Valued {
            number,
            row,
            column,
        } => append_valued(number, row, column, line),
        Refusal::Locked { key, txn } => append_locked(schema, key, txn, line),
        Refusal::Changed { key, txn, commit } => append_changed(schema, key, txn, commit, line),
        Refusal::Duplicate { key } => {
            line.append(b"error 2627 key ")?;
            append_key(schema, key, line)
        }
        Refusal::NoTxn { number } => {
            line.append(b"error ")?;
            line.append_number(number as u64)
        }
        Refusal::Memory => line.append(b"error 701"),
    }
}

/// Adds `ok`, a count and what is counted.
fn append_ok(count: u64, counted: &[u8], line: &mut Line) -> Result<(), Memory>
    ensures { OnOk result (line.new ≡ line.old ++ ok_line count counted.now) }
{
    line.append(b"ok ")?;
    line.append_number(count)?;
    line.append(counted)
}

/// Adds the line that a reply begins with, without the byte 10 at its end.
fn append_head(schema: &Schema, reply: &Reply, line: &mut Line) -> Result<(), Memory>
    requires { IsPrintableReply schema.now reply.now }
    ensures { OnOk result (line.new ≡ line.old ++ head_line schema.now reply.now) }
{
    match reply {
        Reply::Done => line.append(b"ok"),
        Reply::Affected(count) => append_ok(*count, b" affected", line),
        Reply::Rows { rows, .. } => append_ok(rows.len() as u64, b" rows", line),
        Reply::Groups { lines, buffered } => {
            append_ok(lines.len() as u64, b" groups, ", line)?;
            line.append_number(*buffered)?;
            line.append(b" buffered")
        }
        Reply::Segments(lines) => append_ok(lines.len() as u64, b" segments", line),
        Reply::Left(groups) => append_ok(groups.len() as u64, b" left", line),
        Reply::Refused(refusal) => append_refusal(schema, *refusal, line),
    }
}

/// Adds the counts of segments, where there are some, with the byte 10 after them.
fn append_segment_counts(segments: Option<(u64, u64)>, line: &mut Line) -> Result<(), Memory>
    ensures { OnOk result (line.new ≡ line.old ++ lines_text (segments_lines segments)) }
{
    let Some((read, skipped)) = segments else {
        return Ok(());
    };
    line.append(b"  segments read ")?;
    line.append_number(read)?;
    line.append(b", skipped ")?;
    line.append_number(skipped)?;
    line.append(b"\n")
}

/// Adds the lines under a reply, each with the byte 10 after it.
fn append_under(schema: &Schema, reply: &Reply, line: &mut Line) -> Result<(), Memory>
    requires { IsPrintableReply schema.now reply.now }
    ensures { OnOk result (line.new ≡ line.old ++ lines_text (under_lines schema.now reply.now)) }
{
    match reply {
        Reply::Done | Reply::Affected(_) | Reply::Refused(_) => Ok(()),
        Reply::Rows { rows, segments } => {
            append_lines(schema, rows.as_slice(), line)?;
            append_segment_counts(*segments, line)
        }
        Reply::Groups { lines, .. } => append_lines(schema, lines.as_slice(), line),
        Reply::Segments(lines) => append_lines(schema, lines.as_slice(), line),
        Reply::Left(groups) => append_lines(schema, groups.as_slice(), line),
    }
}

/// Adds an event's number and its session.
fn append_session(event: u64, session: u32, line: &mut Line) -> Result<(), Memory>
    ensures { OnOk result (line.new ≡ line.old ++ decimal event ++ codes " " ++ session_text session) }
{
    line.append_number(event)?;
    line.append(b" s")?;
    line.append_number(session as u64)
}

/// Adds an event's number, its session and its statement's place there.
fn append_statement(event: u64, session: u32, place: u64, line: &mut Line) -> Result<(), Memory>
    ensures { OnOk result (line.new ≡ line.old ++ statement_text event session place) }
{
    append_session(event, session, line)?;
    line.append(b".")?;
    line.append_number(place)
}

/// Adds the text of an event; after `Memory` a prefix of it may stand in the line.
pub fn append_entry(
    schema: &Schema,
    event: u64,
    place: u64,
    entry: &Entry,
    line: &mut Line,
) -> Result<(), Memory>
    requires { IsPrintableEntry schema.now entry.now }
    ensures { OnOk result (line.new ≡ line.old ++ entry_text schema.now event place entry.now) }
{
    match entry {
        Entry::Start { session, .. } => {
            append_statement(event, *session, place, line)?;
            line.append(b" >\n")
        }
        Entry::Finish { session, reply } => {
            append_statement(event, *session, place, line)?;
            line.append(b" < ")?;
            append_head(schema, reply, line)?;
            line.append(b"\n")?;
            append_under(schema, reply, line)
        }
        Entry::End { session } => {
            append_session(event, *session, line)?;
            line.append(b" end\n")
        }
        Entry::Mover { actor, work } => {
            line.append_number(event)?;
            line.append(b" ")?;
            append_actor(*actor, line)?;
            line.append(b" ")?;
            append_work(*work, line)?;
            line.append(b"\n")
        }
    }
}

/// Adds the text of the event with this number, whose statement has this place in its session; both count from 1. After
/// `Memory` the line is as before.
pub fn print_entry(
    alloc: Global,
    schema: &Schema,
    event: u64,
    place: u64,
    entry: &Entry,
    line: &mut Line,
) -> Result<(), Memory>
    requires { IsPrintableEntry schema.now entry.now }
    ensures ok { OnOk result (line.new ≡ line.old ++ entry_text schema.now event place entry.now) }
    ensures err { OnErr result (line.new ≡ line.old) }
{
    let mut text = Line::new(alloc);
    append_entry(schema, event, place, entry, &mut text)?;
    line.append(text.as_slice())
}
