//! The least and the greatest cell of a group's columns.

ghost use Rattle.std.specs.Prelude.{◌≡◌, List};
ghost use Rattle.cs_types.specs.declared.Loose.{Loose};
ghost use Rattle.cs_types.specs.Text.{loose_of};
ghost use Rattle.cs_model.specs.Queries as query;
ghost use Rattle.cs_model.specs.Skips as spec;
ghost use Rattle.cs_model.specs.Truths as truth;
ghost use Rattle.column_segment.specs.Cells.{seen};
ghost use Rattle.cs_predicate.specs.Sides.{lent};
ghost use Rattle.row_group.specs.Rows.{column_of};
ghost use Rattle.batch_filter.specs.Bounds.{AreBounds};
ghost use Rattle.std.specs.List.{list_all};
ghost use Rattle.cs_model.specs.declared.pred.Relation.TheVariants.{Equal};

use column_segment::{CellRef, Segment};
use cs_model::{Relation, Truth};
use cs_predicate::{Side, compare};
use cs_types::{ColumnType, Loose, Schema};
use row_group::Packed;

/// What a cell of a column of this type lends to a comparison.
pub fn side_of<'a>(kind: ColumnType, cell: CellRef<'a>) -> Side<'a>
    ensures { lent result ≡ loose_of kind (seen cell.entry) }
{
    match cell {
        CellRef::Null => Side::Null,
        CellRef::Number(number) => Side::of_number(kind, number),
        CellRef::Text(text) => Side::Text(text),
    }
}

/// Whether a cell stands so to a constant.
pub fn stands(sign: Relation, cell: Side<'_>, constant: &Loose) -> bool
    ensures { result ≡ query.is_true (truth.compare sign (lent cell.entry) constant.now) }
{
    compare(sign, cell, Side::of_constant(constant)) == Truth::True
}

/// The bounds of a column's cells in a group.
#[derive(Clone, Copy)]
pub struct Bounds<'a> {
    /// The least of the cells that are not NULL, NULL where there is none.
    least: Side<'a>,
    /// The greatest of them, NULL where there is none.
    greatest: Side<'a>,
    /// Whether a cell is NULL.
    nulls: bool,
}

/// The bounds of a segment's cells.
fn bounds_of(kind: ColumnType, segment: &Segment) -> Bounds<'_>
    ensures least { lent result.least ≡ loose_of kind segment.now.least }
    ensures greatest { lent result.greatest ≡ loose_of kind segment.now.greatest }
    ensures nulls { result.nulls ≡ segment.now.nulls }
{
    Bounds {
        least: side_of(kind, segment.least()),
        greatest: side_of(kind, segment.greatest()),
        nulls: segment.has_null(),
    }
}

impl<'a> Bounds<'a> {
    /// The bounds of a column, whose cells are all NULL where there is no such column.
    pub fn of(packed: &'a Packed, schema: &Schema, column: usize) -> Bounds<'a>
        ensures { AreBounds (spec.loose_cells schema.now (column_of packed.now.rows) column) (lent result.least) (lent result.greatest) result.nulls }
    {
        match schema.columns.get(column) {
            Some(found) if column < packed.width() => bounds_of(found.kind, packed.segment(column)),
            _ => Bounds {
                least: Side::Null,
                greatest: Side::Null,
                nulls: packed.len() > 0,
            },
        }
    }

    /// Whether they tell that no cell stands so to a constant.
    #[tactic(auto, using(crate::proofs::BoundLemmas::none_unequal))]
    pub fn skip(self, sign: Relation, constant: &Loose) -> bool
        ensures { (cells : List Loose) → AreBounds cells (lent self.entry.least) (lent self.entry.greatest) self.entry.nulls → result ≡ spec.skips_compare sign cells constant.now }
    {
        let below = !stands(Relation::Less, self.least, constant);
        let above = !stands(Relation::Greater, self.greatest, constant);
        let at_most = !stands(Relation::LessEqual, self.least, constant);
        let at_least = !stands(Relation::GreaterEqual, self.greatest, constant);
        match sign {
            Relation::Equal => at_most || at_least,
            Relation::NotEqual => below & above,
            Relation::Less => below,
            Relation::LessEqual => at_most,
            Relation::Greater => above,
            Relation::GreaterEqual => at_least,
        }
    }

    /// Whether they tell so of each of some constants, and `=`.
    pub fn skip_each(self, constants: &[Loose]) -> bool
        ensures { (cells : List Loose) → AreBounds cells (lent self.entry.least) (lent self.entry.greatest) self.entry.nulls → result ≡ list_all (spec.skips_compare Equal cells) constants.now }
    {
        for constant in constants {
            if !self.skip(Relation::Equal, constant) {
                return false;
            }
        }
        true
    }

    /// Whether they tell that IS NULL, or IS NOT NULL, is True of no cell.
    pub fn skip_null(self, negated: bool) -> bool
        ensures { (cells : List Loose) → AreBounds cells (lent self.entry.least) (lent self.entry.greatest) self.entry.nulls → result ≡ spec.skips_null negated cells }
    {
        if negated {
            matches!(self.least, Side::Null)
        } else {
            !self.nulls
        }
    }
}
