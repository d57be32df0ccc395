ghost use Rattle.std.specs.Prelude.{◌≡◌, ◌∷◌, [], All, IfOk};
ghost use Rattle.std.specs.Bool.{OnTrue};
ghost use Rattle.cs_types.specs.Kinds.{IsColumnType};
ghost use Rattle.cs_types.specs.Schemas.{IsRowOf, IsSchema, may_hold};
ghost use Rattle.group_reports.specs.Segments.{ArePackedParts, IsPackedPart};

use crate::made::is_free;
use cs_base::{Items, Memory};
use cs_model::{GroupLine, GroupState, Reply, SegmentLine};
use cs_types::{Bytes, Column, ColumnType, Encoding, Row, Schema, Value, Version};
use delete_bitmap::Marks;
use delete_buffer::Buffer;
use delta_store::Delta;
use group_reports::{group_lines, segment_lines};
use group_view::{GroupPart, GroupView};
use row_group::pack_rows;
use shared_list::SharedList;
use std::alloc::Global;
use std::process::Abort;
use std::sync::Arc;
use std::test::Fail;

/// The cells of a row of the test's table.
type Cells<'a> = (i64, Option<i64>, Option<&'a [u8]>);

/// A line of a report on segments without its group: the column, the encoding, the number of cells, whether one is NULL, and
/// the words.
type Line = (u32, Encoding, u64, bool, u64);

/// A name of one byte.
fn name(alloc: Global, byte: u8) -> Result<Bytes, Memory>
    ensures { IfOk result (λ name. name ≡ byte ∷ []) }
{
    let mut name = Items::new(alloc);
    name.push(byte)?;
    Ok(name)
}

/// The table `t (k int NOT NULL PRIMARY KEY, v int, w varchar(4))`.
fn table(alloc: Global) -> Result<Schema, Memory>
    ensures { IfOk result (λ schema. IsSchema schema) }
{
    let mut columns = Items::new(alloc);
    columns.push(Column {
        name: name(alloc, b'k')?,
        kind: ColumnType::Int,
        nullable: false,
    })?;
    columns.push(Column {
        name: name(alloc, b'v')?,
        kind: ColumnType::Int,
        nullable: true,
    })?;
    columns.push(Column {
        name: name(alloc, b'w')?,
        kind: ColumnType::VarChar { n: 4 },
        nullable: true,
    })?;
    Ok(Schema {
        name: name(alloc, b't')?,
        columns,
        key: 0,
    })
}

/// Whether a column may hold a value.
fn holds(column: &Column, value: &Value) -> bool
    requires { IsColumnType column.now.kind }
    ensures { result ≡ may_hold column.now value.now }
{
    match value {
        Value::Null => column.nullable,
        Value::Number(_) => column.kind.keeps(value),
        Value::Text(text) => match column.kind {
            ColumnType::VarChar { n } => text.len() <= n as usize,
            _ => false,
        },
    }
}

/// Whether a row fits the schema.
fn fits(schema: &Schema, row: &Row) -> bool
    requires { IsSchema schema.now }
    ensures { OnTrue result (IsRowOf schema.now row.now) }
{
    if row.len() > schema.columns.len() {
        return false;
    }
    for i in 0..schema.columns.len() {
        if !holds(schema.columns.at(i), row.cell(i)) {
            return false;
        }
    }
    true
}

fn number(cell: Option<i64>) -> Value {
    match cell {
        Some(number) => Value::Number(number),
        None => Value::Null,
    }
}

fn text(alloc: Global, cell: Option<&[u8]>) -> Result<Value, Memory> {
    match cell {
        Some(bytes) => Ok(Value::Text(Items::from_vec(bytes.to_vec(alloc)?))),
        None => Ok(Value::Null),
    }
}

fn row_of(alloc: Global, cells: Cells<'_>) -> Result<Row, Memory> {
    let mut row = Row::new(alloc);
    row.push(Value::Number(cells.0))?;
    row.push(number(cells.1))?;
    row.push(text(alloc, cells.2)?)?;
    Ok(row)
}

/// Versions of the rows, all of one commit.
fn versions_of(
    rt: &impl Abort,
    alloc: Global,
    schema: &Schema,
    given: &[Cells<'_>],
) -> Result<Items<Version>, Memory>
    requires { IsSchema schema.now }
    ensures { IfOk result (λ versions. All (λ version. IsRowOf schema.now version.row) versions) }
{
    let mut versions = Items::new(alloc);
    for cells in given {
        let row = row_of(alloc, *cells)?;
        assert!(rt; fits(schema, &row));
        versions.push(Version {
            row,
            begin: 1,
            end: None,
        })?;
    }
    Ok(versions)
}

/// The COMPRESSED group of the rows, whose first version has an end.
fn packed(
    rt: &impl Abort,
    alloc: Global,
    schema: &Schema,
    given: &[Cells<'_>],
) -> Result<GroupPart, Memory>
    requires { IsSchema schema.now }
    ensures { IfOk result (IsPackedPart schema.now) }
{
    let versions = versions_of(rt, alloc, schema, given)?;
    let group = pack_rows(alloc, schema, versions, 1)?;
    assert!(rt; group.is_some());
    let group = group.unwrap();
    let mut marks = Marks::new(alloc, group.len())?;
    assert!(rt; is_free(&marks, 0));
    marks.mark(0, 7)?;
    Ok(GroupPart::Packed(Arc::new(alloc, group)?, Arc::new(alloc, marks)?))
}

/// The rows of the first group, and of the last one.
static FIRST: [Cells<'static>; 4] = [
    (1, Some(7), Some(b"a")),
    (2, Some(7), None),
    (3, Some(7), Some(b"b")),
    (4, Some(7), Some(b"a")),
];

static LAST: [Cells<'static>; 1] = [(-9, None, None)];

/// Two COMPRESSED groups, and between them a delta store.
fn view_of(rt: &impl Abort, alloc: Global, schema: &Schema) -> Result<GroupView, Memory>
    requires { IsSchema schema.now }
    ensures { IfOk result (λ view. ArePackedParts schema.now view.groups) }
{
    let first = packed(rt, alloc, schema, &FIRST)?;
    let last = packed(rt, alloc, schema, &LAST)?;
    let store = GroupPart::Store(Arc::new(alloc, Delta::new(alloc).freeze())?);
    let mut groups = Items::new(alloc);
    groups.push((1, first))?;
    groups.push((2, store))?;
    groups.push((5, last))?;
    let mut buffer = Buffer::new(alloc);
    Ok(GroupView {
        groups: SharedList::from_vec(alloc, groups.into_vec())?,
        buffer: buffer.copy()?,
        floor: 1,
        clock: 9,
    })
}

/// A line is this one, of this group.
fn check_line(rt: &impl Abort, line: &SegmentLine, wanted: &(u64, Line), bound: &(Value, Value)) {
    let (id, (column, encoding, rows, nulls, words)) = *wanted;
    assert!(rt; line.id == id && line.column == column);
    assert!(rt; line.encoding == encoding && line.rows == rows);
    assert!(rt; line.nulls == nulls && line.words == words);
    assert!(rt; line.least == bound.0 && line.greatest == bound.1);
}

/// The lines are these, by group.
fn check(
    rt: &impl Abort,
    lines: &[SegmentLine],
    wanted: &[(u64, Line)],
    bounds: &[(Value, Value)],
) {
    assert!(rt; lines.len() == wanted.len() && bounds.len() == wanted.len());
    for (line, (want, bound)) in lines.iter().zip(wanted.iter().zip(bounds)) {
        check_line(rt, line, want, bound);
    }
}

/// The lines of the view's packed groups.
static WANTED: [(u64, Line); 6] = [
    (1, (1, Encoding::ValuePacked, 4, false, 3)),
    (1, (2, Encoding::DictPacked, 4, false, 1)),
    (1, (3, Encoding::DictPacked, 4, true, 4)),
    (5, (1, Encoding::DictPacked, 1, false, 1)),
    (5, (2, Encoding::DictPacked, 1, true, 0)),
    (5, (3, Encoding::DictPacked, 1, true, 0)),
];

/// Their least and greatest cells.
fn bounds(alloc: Global) -> Result<Items<(Value, Value)>, Memory> {
    let mut bounds = Items::new(alloc);
    bounds.push((number(Some(1)), number(Some(4))))?;
    bounds.push((number(Some(7)), number(Some(7))))?;
    bounds.push((text(alloc, Some(b"a"))?, text(alloc, Some(b"b"))?))?;
    bounds.push((number(Some(-9)), number(Some(-9))))?;
    bounds.push((Value::Null, Value::Null))?;
    bounds.push((Value::Null, Value::Null))?;
    Ok(bounds)
}

/// The report on the segments of the view.
fn report(rt: &impl Abort, alloc: Global, schema: &Schema) -> Result<Reply, Memory>
    requires { IsSchema schema.now }
{
    let view = view_of(rt, alloc, schema)?;
    let reply = segment_lines(alloc, schema, &view);
    // What is let go by a call has a short proof, and what is let go at the end of its scope a long one.
    drop(view);
    reply
}

/// That a reply has the lines.
fn check_reply(rt: &impl Abort, alloc: Global, reply: &Reply) -> Result<(), Memory> {
    let bounds = bounds(alloc)?;
    match reply {
        Reply::Segments(lines) => check(rt, lines.as_slice(), &WANTED, bounds.as_slice()),
        _ => assert!(rt; false),
    }
    Ok(())
}

#[test]
fn each_column_of_a_packed_group_has_a_line(rt: HostRuntime) -> Result<(), Fail> {
    let schema = table(rt.alloc())?;
    let reply = report(&rt, rt.alloc(), &schema);
    drop(schema);
    let reply = reply?;
    let outcome = check_reply(&rt, rt.alloc(), &reply);
    drop(reply);
    Ok(outcome?)
}

#[test]
fn a_group_report_is_its_lines(rt: HostRuntime) -> Result<(), Fail> {
    let mut lines = Items::new(rt.alloc());
    lines.push(GroupLine {
        id: 3,
        state: GroupState::Closed,
        total: 2,
        deleted: 1,
    })?;
    match group_lines(lines, 6) {
        Reply::Groups { lines, buffered } => assert!(rt; lines.len() == 1 && buffered == 6),
        _ => assert!(rt; false),
    }
    Ok(())
}
