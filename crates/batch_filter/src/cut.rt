//! Where constants stand among the codes of a column.

ghost use Rattle.std.specs.Prelude.{◌≡◌, ◌≢◌, ◌≤◌, ◌<◌, ◌^◌, ℕ, nat_le, ◌&&◌, true, false, Some, None, IfSome, IfNone};
ghost use Rattle.std.specs.Bool.{OnTrue, OnFalse};
ghost use Rattle.cs_types.specs.declared.Value.TheVariants.{Null};
ghost use Rattle.cs_types.specs.Text.{loose_of};
ghost use Rattle.cs_model.specs.Truths as spec;
ghost use Rattle.cs_predicate.specs.Sides.{lent};
ghost use Rattle.column_segment.specs.Bodies.{cell_of_code, code_in};
ghost use Rattle.column_segment.specs.Cells.{seen};
ghost use Rattle.batch_kernels.specs.Masks.{in_span, same_as};
ghost use Rattle.batch_filter.specs.Codes.{AreCodes, IsEdge, span_begin, span_end, is_inside, is_past, order_at, place};
ghost use Rattle.batch_filter.specs.Sieves.{is_asked};

use crate::bounds::side_of;
use crate::skip::turned;
use batch_kernels::Span;
use column_segment::{CellRef, Segment, codes_in_order};
use cs_model::Relation;
use cs_predicate::Side;
use cs_types::{ColumnType, Loose};

/// The codes of a column's segment.
#[derive(Clone, Copy)]
pub struct Codes {
    /// The type of the column.
    pub kind: ColumnType,
    /// The first code past that of NULL: 0 or 1.
    pub first: u64,
    /// The last code.
    pub last: u64,
}

/// Where a constant stands among the codes past that of NULL.
#[derive(Clone, Copy)]
pub struct Cut {
    /// The first code whose cell is not below the constant.
    pub from: u128,
    /// The first code whose cell is above it.
    pub to: u128,
}

/// The first code past that of NULL, where this is the cell of code 0.
fn past_null(least: CellRef<'_>) -> u64
    ensures most { result ≤ 1 }
    ensures null { 0 < result → seen least.entry ≡ Null }
    ensures some { result ≡ 0 → seen least.entry ≢ Null }
{
    match least {
        CellRef::Null => 1,
        _ => 0,
    }
}

/// Whether a cell is at least a constant, or, where `over`, above it.
fn stands_past(over: bool, cell: Side<'_>, constant: &Loose) -> bool
    ensures { result ≡ is_past over (spec.order_of (lent cell.entry) constant.now) }
{
    match cell.order(Side::of_constant(constant)) {
        Some(order) => { if over { order.is_gt() } else { order.is_ge() } }
        None => false,
    }
}

impl Cut {
    /// Where the codes of a sign begin and end, and whether they lie between.
    fn range_of(self, sign: Relation) -> (u128, u128, bool)
        ensures from { result.0 ≡ span_begin sign self.from }
        ensures to { result.1 ≡ span_end sign self.from self.to }
        ensures inside { result.2 ≡ is_inside sign }
    {
        match sign {
            Relation::Equal => (self.from, self.to, true),
            Relation::NotEqual => (self.from, self.to, false),
            Relation::Less => (0, self.from, true),
            Relation::LessEqual => (0, self.to, true),
            Relation::Greater => (0, self.to, false),
            Relation::GreaterEqual => (0, self.from, false),
        }
    }

    /// The codes of which a comparison with the constant has the truth that is asked for.
    pub fn span(self, first: u64, sign: Relation, holds: bool) -> Span
        requires { self.from ≤ self.to }
        ensures { (code : ℕ) → code < 2 ^ 64 → in_span result code ≡ (nat_le first code && is_asked holds (spec.truth_of_order sign (Some (place self.from self.to code)))) }
    {
        let (from, to, inside) = self.range_of(sign);
        Span::new(first, from, to, turned_unless(holds, inside))
    }
}

/// A bool, or, where not `kept`, the other one.
pub fn turned_unless(kept: bool, value: bool) -> bool
    ensures { result ≡ same_as value kept }
{
    if kept { value } else { !value }
}

impl Codes {
    /// The codes of a segment that has a cell.
    pub fn of(kind: ColumnType, segment: &Segment) -> Codes
        requires { 0 < segment.now.length }
        ensures codes { AreCodes segment.now.body result.first result.last }
        ensures most { (i : ℕ) → i < segment.now.length → code_in segment.now.body i ≤ result.last }
        ensures kind { result.kind ≡ kind }
    {
        codes_in_order();
        let last = segment.last_code();
        let first = past_null(segment.cell_of(0));
        Codes { kind, first, last }
    }

    /// Whether the cell of a code is at least a constant, or, where `over`, above it. Then so are those of all later codes, and
    /// else no earlier one is.
    fn is_past(self, segment: &Segment, constant: &Loose, over: bool, code: u64) -> bool
        requires codes { AreCodes segment.now.body self.first self.last }
        requires least { self.first ≤ code }
        requires most { code ≤ self.last }
        ensures after { OnTrue result ((i : ℕ) → code ≤ i → i ≤ self.last → is_past over (order_at self.kind segment.now.body constant.now i) ≡ true) }
        ensures before { OnFalse result ((i : ℕ) → self.first ≤ i → i ≤ code → is_past over (order_at self.kind segment.now.body constant.now i) ≡ false) }
    {
        stands_past(over, side_of(self.kind, segment.cell_of(code)), constant)
    }

    /// The first code past NULL's whose cell is at least a constant, or, where `over`, above it; one past the last code where there
    /// is none. By binary search.
    fn edge(self, segment: &Segment, constant: &Loose, over: bool) -> u128
        requires codes { AreCodes segment.now.body self.first self.last }
        requires some { self.first ≤ self.last }
        ensures { IsEdge (λ i. is_past over (order_at self.kind segment.now.body constant.now i)) self.first self.last result }
    {
        let mut low = self.first as u128;
        let mut high = self.last as u128 + 1;
        while low < high {
            let middle = low + (high - low) / 2;
            if self.is_past(segment, constant, over, middle as u64) {
                high = middle;
            } else {
                low = middle + 1;
            }
        }
        low
    }

    /// Where a constant stands among the codes. None where no cell has an order with it.
    pub fn cut(self, segment: &Segment, constant: &Loose) -> Option<Cut>
        requires { AreCodes segment.now.body self.first self.last }
        ensures ordered { IfSome result (λ cut. cut.from ≤ cut.to) }
        ensures placed { IfSome result (λ cut. (code : ℕ) → self.first ≤ code → code ≤ self.last → order_at self.kind segment.now.body constant.now code ≡ Some (place cut.from cut.to code)) }
        ensures none { IfNone result ((code : ℕ) → self.first ≤ code → code ≤ self.last → order_at self.kind segment.now.body constant.now code ≡ None) }
    {
        if self.first > self.last {
            return None;
        }
        let least = side_of(self.kind, segment.cell_of(self.first));
        if least.order(Side::of_constant(constant)).is_none() {
            return None;
        }
        Some(Cut {
            from: self.edge(segment, constant, false),
            to: self.edge(segment, constant, true),
        })
    }

    /// The codes of which a comparison with a constant has the truth that is asked for.
    pub fn compared(self, segment: &Segment, sign: Relation, constant: &Loose, holds: bool) -> Span
        requires { AreCodes segment.now.body self.first self.last }
        ensures { (code : ℕ) → code ≤ self.last → in_span result code ≡ is_asked holds (spec.compare sign (loose_of self.kind (cell_of_code segment.now.body code)) constant.now) }
    {
        match self.cut(segment, constant) {
            Some(cut) => cut.span(self.first, sign, holds),
            None => Span::new(0, 0, 0, true),
        }
    }

    /// The same with the constant on the left.
    pub fn compared_left(
        self,
        segment: &Segment,
        constant: &Loose,
        sign: Relation,
        holds: bool,
    ) -> Span
        requires { AreCodes segment.now.body self.first self.last }
        ensures { (code : ℕ) → code ≤ self.last → in_span result code ≡ is_asked holds (spec.compare sign constant.now (loose_of self.kind (cell_of_code segment.now.body code))) }
    {
        self.compared(segment, turned(sign), constant, holds)
    }

    /// The codes of which `[NOT] BETWEEN` has the truth that is asked for. None where a bound has no order with the cells.
    pub fn between(
        self,
        segment: &Segment,
        negated: bool,
        low: &Loose,
        high: &Loose,
        holds: bool,
    ) -> Option<Span>
        requires { AreCodes segment.now.body self.first self.last }
        ensures { IfSome result (λ span. (code : ℕ) → code ≤ self.last → in_span span code ≡ is_asked holds (spec.not_if negated (spec.between low.now high.now (loose_of self.kind (cell_of_code segment.now.body code))))) }
    {
        let lower = self.cut(segment, low)?;
        let upper = self.cut(segment, high)?;
        Some(Span::new(
            self.first,
            lower.from,
            upper.to,
            turned_unless(!negated, holds),
        ))
    }

    /// The codes of which `IS [NOT] NULL` has the truth that is asked for.
    pub fn nulls(self, segment: &Segment, negated: bool, holds: bool) -> Span
        requires { AreCodes segment.now.body self.first self.last }
        ensures { (code : ℕ) → code ≤ self.last → in_span result code ≡ is_asked holds (spec.not_if negated (spec.truth_if (spec.is_null (loose_of self.kind (cell_of_code segment.now.body code))))) }
    {
        Span::new(0, 0, self.first as u128, turned_unless(!negated, holds))
    }
}
