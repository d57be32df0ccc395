// The lines of the reports.
ghost use Rattle.std.specs.Prelude.{◌≡◌, ◌<◌, ◌≤◌, length, IfOk};
ghost use Rattle.std.specs.List.{range_with_len, AllZip};
ghost use Rattle.cs_types.specs.Schemas.{IsSchema};
ghost use Rattle.cs_model.specs.Text.{IsPrintableReply};
ghost use Rattle.row_group.specs.Rows.{column_of};
ghost use Rattle.group_log.specs.Segments.{AreSegmentLines, IsSegmentLine};
ghost use Rattle.group_reports.specs.Segments.{compressed, AreHeld, ArePackedParts, ArePartLines, IsPackedPart, IsSegmentReport};

use cs_base::{Items, Memory};
use cs_model::{GroupLine, Reply, SegmentLine};
use cs_types::Schema;
use group_view::{GroupPart, GroupView};
use row_group::Packed;
use shared_list::SharedList;
use std::alloc::Global;

/// The report on row groups: these lines, by id, and the number of entries of the delete buffer. It takes no memory.
pub fn group_lines(lines: Items<GroupLine>, buffered: u64) -> Reply
    ensures { result ≡ Reply.Groups lines buffered }
{
    Reply::Groups { lines, buffered }
}

/// The line of a column, which counts from 0, of the group with this id.
fn line_of(alloc: Global, id: u64, packed: &Packed, column: usize) -> Result<SegmentLine, Memory>
    requires there { column < packed.now.width }
    requires few { column < 32 }
    ensures { IfOk result (IsSegmentLine id column (column_of packed.now.rows column)) }
{
    let segment = packed.segment(column);
    Ok(SegmentLine {
        id,
        column: column as u32 + 1,
        encoding: segment.encoding(),
        rows: segment.length as u64,
        nulls: segment.has_null(),
        words: segment.words(),
        least: segment.least().to_value(alloc)?,
        greatest: segment.greatest().to_value(alloc)?,
    })
}

/// The lines of the group with this id, which has so many columns.
fn lines_of(
    alloc: Global,
    id: u64,
    packed: &Packed,
    width: usize,
) -> Result<Items<SegmentLine>, Memory>
    requires width { width ≡ packed.now.width }
    requires few { width ≤ 32 }
    ensures { IfOk result (AllZip (λ column line. IsSegmentLine id column (column_of packed.now.rows column) line) (range_with_len 0 width)) }
{
    let mut lines = Items::new(alloc);
    for column in 0..width {
        lines.push(line_of(alloc, id, packed, column)?)?;
    }
    Ok(lines)
}

/// The lines of a group of a view. A store has none.
fn part_lines(
    alloc: Global,
    schema: &Schema,
    id: u64,
    part: &GroupPart,
) -> Result<Items<SegmentLine>, Memory>
    requires schema { IsSchema schema.now }
    requires packed { IsPackedPart schema.now part.now }
    ensures { IfOk result (ArePartLines (length schema.now.columns) (id, part.now)) }
{
    match part {
        GroupPart::Packed(packed, _) => lines_of(alloc, id, packed, schema.columns.len()),
        GroupPart::Store(_) => Ok(Items::new(alloc)),
    }
}

/// The lines of the COMPRESSED groups among some.
fn all_lines(
    alloc: Global,
    schema: &Schema,
    groups: &SharedList<(u64, GroupPart)>,
) -> Result<Items<SegmentLine>, Memory>
    requires schema { IsSchema schema.now }
    requires packed { ArePackedParts schema.now groups.now }
    ensures { IfOk result (AreSegmentLines schema.now (compressed groups.now)) }
{
    let mut lines = Items::new(alloc);
    for place in 0..groups.len() {
        let group = groups.at(place);
        lines.append(part_lines(alloc, schema, group.0, &group.1)?)?;
    }
    Ok(lines)
}

/// The report on segments: a line for each COMPRESSED group of the view, by id, and each column. A line is of the cells of all
/// versions of its group, ended ones too; a group that is claimed has its lines as any other. `Memory` comes only where the
/// lines find no room.
pub fn segment_lines(alloc: Global, schema: &Schema, view: &GroupView) -> Result<Reply, Memory>
    requires schema { IsSchema schema.now }
    requires packed { ArePackedParts schema.now view.now.groups }
    ensures lines { IfOk result (IsSegmentReport schema.now (compressed view.now.groups)) }
    // Where the columns hold the rows it can be printed.
    ensures printable { AreHeld schema.now (compressed view.now.groups) → IfOk result (IsPrintableReply schema.now) }
{
    let lines = all_lines(alloc, schema, &view.groups)?;
    Ok(Reply::Segments(lines))
}

ghost use Rattle.std.specs.Prelude.{List, ℕ};
ghost use Rattle.cs_types.specs.declared.Schema.{Schema};
ghost use Rattle.group_view.specs.declared.parts.GroupPart.{GroupPart};
ghost use Rattle.group_view.specs.Parts.{packed_parts, ArePacked};

/// Where the packed groups of a view are those of the table, its parts are. This does nothing: its contract is a law that is
/// proved.
pub fn packed_parts_are()
    ensures { (schema : Schema) (groups : List (ℕ × GroupPart)) → ArePacked schema (packed_parts groups) → ArePackedParts schema groups }
{}
