//! Parts of a predicate that name one column, judged by its codes.

ghost use Rattle.std.specs.Prelude.{◌≡◌, ◌+◌, ◌≤◌, ◌<◌, ◌==◌, ℕ, length, slice_get, slice_index_or, true, false, IfOk, IfSome, OnOk, ◌^◌, List};
ghost use Rattle.std.specs.List.{list_all};
ghost use Rattle.cs_types.specs.declared.Value.{Value as Cell};
ghost use Rattle.cs_types.specs.Text.{loose_of};
ghost use Rattle.cs_model.specs.Cells.{loose_in};
ghost use Rattle.column_segment.specs.Bodies.{code_in, IsKnown};
ghost use Rattle.batch_kernels.specs.Masks.{in_span, IsNarrowed};
ghost use Rattle.batch_filter.specs.Codes.{AreCodes, Answers, Judges, takes};
ghost use Rattle.batch_filter.specs.Named.{named};
ghost use Rattle.batch_filter.specs.Sieves as spec;
ghost use Rattle.std.specs.Bool.{OnTrue, OnFalse};
ghost use Rattle.batch_filter.specs.Sieves.{asks};

use crate::among::listed;
use crate::choice::Choice;
use crate::cut::Codes;
use crate::named::lone_column;
use crate::sides::truth_of_cell;
use batch_kernels::{Span, chosen};
use column_segment::Segment;
use cs_base::{Items, Memory};
use cs_model::{Operand, Pred, Truth};
use cs_types::Schema;
use row_group::Packed;
use std::alloc::Global;

/// Whether a truth is the one that is asked for: True, or False.
pub fn is_asked(holds: bool, found: Truth) -> bool
    ensures { result ≡ spec.is_asked holds found }
{
    if holds {
        found == Truth::True
    } else {
        found == Truth::False
    }
}

/// The codes that a comparison, BETWEEN or IS NULL takes as a range. None for the other forms.
fn span_of(
    pred: &Pred,
    column: usize,
    holds: bool,
    codes: Codes,
    segment: &Segment,
    schema: &Schema,
) -> Option<Span>
    requires codes { AreCodes segment.now.body codes.first codes.last }
    requires kind { (value : Cell) → loose_in (slice_get schema.now.columns column) value ≡ loose_of codes.kind value }
    requires lone { list_all (λ i. i == column) (named pred.now) ≡ true }
    ensures { IfSome result (λ span. Judges schema.now pred.now holds column segment.now.body codes.last (in_span span)) }
{
    match pred {
        Pred::Compare { left, sign, right } => match (left, right) {
            (Operand::Column(_), Operand::Constant(constant)) => {
                Some(codes.compared(segment, *sign, constant, holds))
            }
            (Operand::Constant(constant), Operand::Column(_)) => {
                Some(codes.compared_left(segment, constant, *sign, holds))
            }
            _ => None,
        },
        Pred::Between {
            negated,
            low,
            high,
            ..
        } => codes.between(segment, *negated, low, high, holds),
        Pred::IsNull { negated, .. } => Some(codes.nulls(segment, *negated, holds)),
        _ => None,
    }
}

/// A bool for each code: whether the predicate has the truth that is asked for where the column's cell is the code's.
fn table_of(
    alloc: Global,
    pred: &Pred,
    column: usize,
    holds: bool,
    last: u64,
    segment: &Segment,
    schema: &Schema,
) -> Result<Items<bool>, Memory>
    requires room { last + 1 < 2 ^ 64 }
    requires known { (code : ℕ) → code ≤ last → IsKnown segment.now.body code }
    requires lone { list_all (λ i. i == column) (named pred.now) ≡ true }
    ensures length { IfOk result (λ table. length table ≡ last + 1) }
    ensures judges { IfOk result (λ table. Judges schema.now pred.now holds column segment.now.body last (λ code. slice_index_or table code false)) }
{
    let mut table = Items::new(alloc);
    for code in 0..last + 1 {
        let found = truth_of_cell(pred, schema, column, segment.cell_of(code));
        table.push(is_asked(holds, found))?;
    }
    Ok(table)
}

/// The same. The constants of an IN are looked up among the codes; any other form is judged code by code.
fn table_by_codes(
    alloc: Global,
    pred: &Pred,
    column: usize,
    holds: bool,
    codes: Codes,
    segment: &Segment,
    schema: &Schema,
) -> Result<Items<bool>, Memory>
    requires room { codes.last + 1 < 2 ^ 64 }
    requires codes { AreCodes segment.now.body codes.first codes.last }
    requires kind { (value : Cell) → loose_in (slice_get schema.now.columns column) value ≡ loose_of codes.kind value }
    requires lone { list_all (λ i. i == column) (named pred.now) ≡ true }
    ensures length { IfOk result (λ table. length table ≡ codes.last + 1) }
    ensures judges { IfOk result (λ table. Judges schema.now pred.now holds column segment.now.body codes.last (λ code. slice_index_or table code false)) }
{
    match listed(pred, column, holds) {
        Some(list) => codes.among(alloc, segment, list),
        None => table_of(alloc, pred, column, holds, codes.last, segment, schema),
    }
}

/// The codes of a column that a predicate takes which names no other one: a range, or a table where there are at most as many codes
/// as the mask chooses places. None where it is neither.
fn choice_of(
    alloc: Global,
    pred: &Pred,
    column: usize,
    holds: bool,
    codes: Codes,
    mask: &[bool],
    segment: &Segment,
    schema: &Schema,
) -> Result<Option<Choice>, Memory>
    requires codes { AreCodes segment.now.body codes.first codes.last }
    requires most { (i : ℕ) → i < segment.now.length → code_in segment.now.body i ≤ codes.last }
    requires kind { (value : Cell) → loose_in (slice_get schema.now.columns column) value ≡ loose_of codes.kind value }
    requires lone { list_all (λ i. i == column) (named pred.now) ≡ true }
    ensures answers { IfOk result (λ found. IfSome found (λ choice. Answers choice segment.now.body segment.now.length)) }
    ensures judges { IfOk result (λ found. IfSome found (λ choice. Judges schema.now pred.now holds column segment.now.body codes.last (takes choice))) }
{
    if let Some(span) = span_of(pred, column, holds, codes, segment, schema) {
        return Ok(Some(Choice::Span(span)));
    }
    if codes.last >= chosen(mask, mask.len()) {
        return Ok(None);
    }
    let table = table_by_codes(alloc, pred, column, holds, codes, segment, schema)?;
    Ok(Some(Choice::Table(table)))
}

/// Keeps of the mask's places those where a predicate has the truth that is asked for which names this column alone. Where
/// false comes, nothing has changed: neither is it a range of codes, nor are there fewer codes than places to judge.
fn narrow_column(
    alloc: Global,
    pred: &Pred,
    column: usize,
    holds: bool,
    packed: &Packed,
    schema: &Schema,
    mask: &mut [bool],
) -> Result<bool, Memory>
    requires same { length mask.old ≡ length packed.now.rows }
    requires there { column < packed.now.width }
    requires lone { list_all (λ i. i == column) (named pred.now) ≡ true }
    ensures done { IfOk result (λ done. OnTrue done (IsNarrowed (asks schema.now packed.now holds pred.now) mask.old mask.new)) }
    ensures not_done { IfOk result (λ done. OnFalse done (mask.new ≡ mask.old)) }
{
    let segment = packed.segment(column);
    let Some(found) = schema.columns.get(column) else {
        return Ok(false);
    };
    if mask.is_empty() {
        return Ok(false);
    }
    let codes = Codes::of(found.kind, segment);
    match choice_of(alloc, pred, column, holds, codes, mask, segment, schema)? {
        Some(choice) => {
            choice.narrow(segment, mask);
            Ok(true)
        }
        None => Ok(false),
    }
}

/// The same of the column beside which the predicate names none, where there is one.
pub fn narrow_by_codes(
    alloc: Global,
    pred: &Pred,
    holds: bool,
    packed: &Packed,
    schema: &Schema,
    mask: &mut [bool],
) -> Result<bool, Memory>
    requires { length mask.old ≡ length packed.now.rows }
    ensures done { IfOk result (λ done. OnTrue done (IsNarrowed (asks schema.now packed.now holds pred.now) mask.old mask.new)) }
    ensures not_done { IfOk result (λ done. OnFalse done (mask.new ≡ mask.old)) }
{
    match lone_column(packed.width(), pred) {
        Some(column) => narrow_column(alloc, pred, column, holds, packed, schema, mask),
        None => Ok(false),
    }
}
