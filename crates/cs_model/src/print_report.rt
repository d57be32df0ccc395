// The text of the reports on row groups and their segments, and of what a REORGANIZE left.
ghost use Rattle.std.specs.Prelude.{◌≡◌, ◌++◌, OnOk, codes, decimal};
ghost use Rattle.cs_types.specs.Text.{value_text};
ghost use Rattle.cs_model.specs.Text.{next_part, state_code, state_name, encoding_name, bit_of, column_kind, IsPrintableCell, IsPrintableSegment};

use crate::print_lines::ReplyLine;
use crate::print_work::append_actor;
use crate::report::{GroupLine, GroupState, SegmentLine};
use crate::work::Actor;
use cs_base::Memory;
use cs_types::{ColumnType, Encoding, Line, Schema, Value, loose_of, print_loose};

impl GroupState {
    /// Its number in reports.
    fn code(self) -> u64
        ensures { result ≡ state_code self }
    {
        match self {
            GroupState::Invisible => 0,
            GroupState::Opened => 1,
            GroupState::Closed => 2,
            GroupState::Compressed => 3,
            GroupState::Tombstone => 4,
        }
    }

    /// Its name in reports.
    fn name(self) -> &'static [u8]
        ensures { result.now ≡ state_name self }
    {
        match self {
            GroupState::Invisible => b"INVISIBLE",
            GroupState::Opened => b"OPEN",
            GroupState::Closed => b"CLOSED",
            GroupState::Compressed => b"COMPRESSED",
            GroupState::Tombstone => b"TOMBSTONE",
        }
    }
}

/// The name of an encoding in reports.
fn encoding_name(encoding: Encoding) -> &'static [u8]
    ensures { result.now ≡ encoding_name encoding }
{
    match encoding {
        Encoding::ValuePacked => b"VP",
        Encoding::ValueRuns => b"VR",
        Encoding::DictPacked => b"DP",
        Encoding::DictRuns => b"DR",
    }
}

/// 1 where something is so, and 0 where it is not.
fn bit_of(holds: bool) -> u64
    ensures { result ≡ bit_of holds }
{
    if holds { 1 } else { 0 }
}

/// Adds a part, after a comma and a space.
fn append_part(part: &[u8], line: &mut Line) -> Result<(), Memory>
    ensures { OnOk result (line.new ≡ line.old ++ next_part part.now) }
{
    line.append(b", ")?;
    line.append(part)
}

/// Adds a number, after a comma and a space.
fn append_count(count: u64, line: &mut Line) -> Result<(), Memory>
    ensures { OnOk result (line.new ≡ line.old ++ next_part (decimal count)) }
{
    line.append(b", ")?;
    line.append_number(count)
}

/// Adds a cell of a column of this type, after a comma and a space.
fn append_cell(kind: ColumnType, cell: &Value, line: &mut Line) -> Result<(), Memory>
    requires { IsPrintableCell kind cell.now }
    ensures { OnOk result (line.new ≡ line.old ++ next_part (value_text kind cell.now)) }
{
    line.append(b", ")?;
    print_loose(&loose_of(kind, cell)?, line)
}

impl ReplyLine for GroupLine {
    ghost use Rattle.cs_model.specs.Text.{group_line};

    ghost is_printable = { λ _ _. Unit {0} };

    ghost line_of = { λ _ group. group_line group };

    fn append_to(&self, _schema: &Schema, line: &mut Line) -> Result<(), Memory> {
        line.append(b"  ")?;
        line.append_number(self.id)?;
        append_count(self.state.code(), line)?;
        append_part(self.state.name(), line)?;
        append_count(self.total, line)?;
        append_count(self.deleted, line)
    }
}

/// The type of a column, counted from 1; BIGINT where the table has no such column.
pub fn column_kind(schema: &Schema, column: u32) -> ColumnType
    ensures { result ≡ column_kind schema.now column }
{
    match schema.columns.get((column as usize).saturating_sub(1)) {
        Some(column) => column.kind,
        None => ColumnType::BigInt,
    }
}

/// Adds the group, the column and the encoding of a segment.
fn append_place(segment: &SegmentLine, line: &mut Line) -> Result<(), Memory>
    ensures { OnOk result (line.new ≡ line.old ++ codes "  " ++ decimal segment.now.id ++ next_part (decimal segment.now.column) ++ next_part (encoding_name segment.now.encoding)) }
{
    line.append(b"  ")?;
    line.append_number(segment.id)?;
    append_count(segment.column as u64, line)?;
    append_part(encoding_name(segment.encoding), line)
}

/// Adds how many cells a segment has, whether one is NULL, and its words.
fn append_sizes(segment: &SegmentLine, line: &mut Line) -> Result<(), Memory>
    ensures { OnOk result (line.new ≡ line.old ++ next_part (decimal segment.now.rows) ++ next_part (decimal (bit_of segment.now.nulls)) ++ next_part (decimal segment.now.words)) }
{
    append_count(segment.rows, line)?;
    append_count(bit_of(segment.nulls), line)?;
    append_count(segment.words, line)
}

/// Adds the least and the greatest cell of a segment.
fn append_bounds(schema: &Schema, segment: &SegmentLine, line: &mut Line) -> Result<(), Memory>
    requires { IsPrintableSegment schema.now segment.now }
    ensures { OnOk result (line.new ≡ line.old ++ next_part (value_text (column_kind schema.now segment.now.column) segment.now.least) ++ next_part (value_text (column_kind schema.now segment.now.column) segment.now.greatest)) }
{
    let kind = column_kind(schema, segment.column);
    append_cell(kind, &segment.least, line)?;
    append_cell(kind, &segment.greatest, line)
}

impl ReplyLine for SegmentLine {
    ghost use Rattle.cs_model.specs.Text.{segment_line, IsPrintableSegment};

    ghost is_printable = { IsPrintableSegment };

    ghost line_of = { segment_line };

    fn append_to(&self, schema: &Schema, line: &mut Line) -> Result<(), Memory> {
        append_place(self, line)?;
        append_sizes(self, line)?;
        append_bounds(schema, self, line)
    }
}

/// A group that was left, with who held it.
impl ReplyLine for (u64, Actor) {
    ghost use Rattle.cs_model.specs.Text.{left_line};

    ghost is_printable = { λ _ _. Unit {0} };

    ghost line_of = { λ _ held. left_line held };

    fn append_to(&self, _schema: &Schema, line: &mut Line) -> Result<(), Memory> {
        line.append(b"  ")?;
        line.append_number(self.0)?;
        line.append(b", ")?;
        append_actor(self.1, line)
    }
}
