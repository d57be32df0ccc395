//! The codes of a column that an IN takes.

ghost use Rattle.std.specs.Prelude.{◌≡◌, ◌+◌, ◌≤◌, ◌<◌, ◌^◌, ◌==◌, ◌||◌, ℕ, List, length, slice_index_or, false, true, IfOk, IfSome};
ghost use Rattle.std.specs.List.{list_all};
ghost use Rattle.cs_types.specs.declared.Schema.{Schema};
ghost use Rattle.cs_types.specs.declared.Value.{Value};
ghost use Rattle.cs_types.specs.Text.{loose_of};
ghost use Rattle.cs_model.specs.Cells.{loose_at};
ghost use Rattle.cs_model.specs.Truths as spec;
ghost use Rattle.cs_model.specs.declared.pred.Relation.TheVariants.{Equal};
ghost use Rattle.column_segment.specs.Bodies.{cell_of_code};
ghost use Rattle.batch_filter.specs.Codes.{AreCodes};
ghost use Rattle.batch_filter.specs.Named.{named};
ghost use Rattle.batch_filter.specs.Sieves.{is_asked};

use crate::cut::Codes;
use batch_kernels::put_span;
use column_segment::Segment;
use cs_base::{Items, Memory};
use cs_model::{Pred, Relation};
use cs_types::Loose;
use std::alloc::Global;

/// The constants of which one has to equal the cell for the predicate to have the truth that is asked for. None where it is no IN, or
/// where it is asked that none of them equals the cell.
pub fn listed(pred: &Pred, column: usize, holds: bool) -> Option<&[Loose]>
    requires { list_all (λ i. i == column) (named pred.now) ≡ true }
    ensures { IfSome result (λ list. (row : List Value) (schema : Schema) → is_asked true (spec.among (loose_at schema row column) list.now) ≡ is_asked holds (spec.truth pred.now row schema)) }
{
    match pred {
        Pred::Among { negated, list, .. } => {
            if *negated == holds {
                return None;
            }
            Some(list.as_slice())
        }
        _ => None,
    }
}

impl Codes {
    /// A bool for each code: whether its cell equals one of some constants. The codes of each constant are found by binary search.
    pub fn among(
        self,
        alloc: Global,
        segment: &Segment,
        list: &[Loose],
    ) -> Result<Items<bool>, Memory>
        requires codes { AreCodes segment.now.body self.first self.last }
        requires room { self.last + 1 < 2 ^ 64 }
        ensures length { IfOk result (λ table. length table ≡ self.last + 1) }
        ensures among { IfOk result (λ table. (code : ℕ) → code ≤ self.last → slice_index_or table code false ≡ is_asked true (spec.among (loose_of self.kind (cell_of_code segment.now.body code)) list.now)) }
    {
        let mut table = vec![in alloc; false; self.last as usize + 1]?;
        for constant in list {
            self.put_equal(segment, constant, table.as_mut_slice());
        }
        Ok(Items::from_vec(table))
    }

    /// Adds to a table the codes whose cells equal a constant.
    fn put_equal(self, segment: &Segment, constant: &Loose, table: &mut [bool])
        requires codes { AreCodes segment.now.body self.first self.last }
        requires length { length table.old ≡ self.last + 1 }
        ensures length { length table.new ≡ length table.old }
        ensures put { (code : ℕ) → code ≤ self.last → slice_index_or table.new code false ≡ (slice_index_or table.old code false || is_asked true (spec.compare Equal (loose_of self.kind (cell_of_code segment.now.body code)) constant.now)) }
    {
        let span = self.compared(segment, Relation::Equal, constant, true);
        put_span(span, table);
    }
}
