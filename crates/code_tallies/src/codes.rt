// A column of a group, as the codes of its segment.
ghost use Rattle.std.specs.Prelude.{◌≡◌, ◌<◌, length, if◌then◌else◌, IfSome};
ghost use Rattle.cs_types.specs.Rows.{number_in};
ghost use Rattle.cs_model.specs.Items.{is_null};
ghost use Rattle.column_segment.specs.Bodies.{cell_of_code, IsKnown};
ghost use Rattle.code_tallies.specs.Columns.{IsColumnOf};

use crate::column::Column;
use column_segment::{CellRef, Segment, codes_in_order};
use cs_types::Encoding;
use row_group::Packed;

impl<'a> Column<'a> {
    /// The column at a place of a group that has rows.
    pub fn of(packed: &'a Packed, place: usize) -> Column<'a>
        requires place { place < packed.now.width }
        requires rows { 0 < length packed.now.rows }
        ensures { IsColumnOf packed.now place result }
    {
        codes_in_order();
        let segment = packed.segment(place);
        let last = segment.last_code();
        let first = null_codes(segment);
        Column {
            segment,
            first,
            last,
        }
    }

    /// Whether its codes stand in runs of 64 cells and more, taken all together: a run costs two words.
    pub fn is_in_runs(&self) -> bool {
        match self.segment.encoding() {
            Encoding::ValueRuns | Encoding::DictRuns => {
                self.segment.words() <= self.segment.length as u64 / 32
            }
            Encoding::ValuePacked | Encoding::DictPacked => false,
        }
    }

    /// The number of a code, 0 for NULL and for a text.
    pub fn number(&self, code: u64) -> i64
        requires { IsKnown self.now.segment.now.body code }
        ensures { result ≡ number_in (cell_of_code self.now.segment.now.body code) }
    {
        match self.segment.cell_of(code) {
            CellRef::Number(number) => number,
            CellRef::Null | CellRef::Text(_) => 0,
        }
    }
}

/// How many codes NULL has: its code is 0, if it has one.
fn null_codes(segment: &Segment) -> u64
    requires { IsKnown segment.now.body 0 }
    ensures { result ≡ (if is_null (cell_of_code segment.now.body 0) then 1 else 0) }
{
    match segment.cell_of(0) {
        CellRef::Null => 1,
        CellRef::Number(_) | CellRef::Text(_) => 0,
    }
}

/// The column at a place, None where the group has none there.
pub fn column_at(packed: &Packed, place: usize) -> Option<Column<'_>>
    requires { 0 < length packed.now.rows }
    ensures { IfSome result (λ column. IsColumnOf packed.now place column) }
{
    if place < packed.width() {
        Some(Column::of(packed, place))
    } else {
        None
    }
}
