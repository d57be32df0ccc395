// Predicates of each form over the column v, which is the second one; the first is k.

use super::columns::Case;
use crate::made::list;
use cs_base::{Boxed, Items, Memory};
use cs_model::{Operand, Pred, Relation};
use cs_types::ColumnType;
use std::alloc::Global;

/// A form, with the places of its constants.
#[derive(Clone, Copy)]
pub enum Form {
    /// v and a constant.
    Compare(Relation, usize),
    /// A constant and v.
    Turned(Relation, usize),
    /// v and k.
    Beside(Relation),
    Between(bool, usize, usize),
    /// Two constants.
    Among(bool, usize, usize),
    /// One of the patterns.
    Like(bool, &'static [u8]),
    IsNull(bool),
}

/// How two forms make a predicate.
#[derive(Clone, Copy)]
pub enum Joint {
    First,
    Not,
    And,
    Or,
    NotAnd,
    NotOr,
}

static SIGNS: [Relation; 6] = [
    Relation::Equal,
    Relation::NotEqual,
    Relation::Less,
    Relation::LessEqual,
    Relation::Greater,
    Relation::GreaterEqual,
];

static PATTERNS: [&[u8]; 7] = [b"%", b"", b"a%", b"%b", b"_", b"%b%", b"a_a"];

static JOINTS: [Joint; 6] = [
    Joint::First,
    Joint::Not,
    Joint::And,
    Joint::Or,
    Joint::NotAnd,
    Joint::NotOr,
];

/// The predicate of a form.
fn pred_of(alloc: Global, case: &Case, form: Form) -> Result<Pred, Memory> {
    match form {
        Form::Compare(sign, at) => {
            let right = Operand::Constant(case.constant(alloc, at)?);
            Ok(compared(Operand::Column(1), sign, right))
        }
        Form::Turned(sign, at) => {
            let left = Operand::Constant(case.constant(alloc, at)?);
            Ok(compared(left, sign, Operand::Column(1)))
        }
        Form::Beside(sign) => Ok(compared(Operand::Column(1), sign, Operand::Column(0))),
        Form::Between(negated, low, high) => between(alloc, case, negated, low, high),
        Form::Among(negated, one, other) => among(alloc, case, negated, one, other),
        Form::Like(negated, pattern) => Ok(Pred::Like {
            column: 1,
            negated,
            pattern: list(alloc, pattern)?,
        }),
        Form::IsNull(negated) => Ok(Pred::IsNull { column: 1, negated }),
    }
}

fn compared(left: Operand, sign: Relation, right: Operand) -> Pred {
    Pred::Compare { left, sign, right }
}

/// `[NOT] BETWEEN` two constants.
fn between(
    alloc: Global,
    case: &Case,
    negated: bool,
    low: usize,
    high: usize,
) -> Result<Pred, Memory> {
    Ok(Pred::Between {
        column: 1,
        negated,
        low: case.constant(alloc, low)?,
        high: case.constant(alloc, high)?,
    })
}

/// `[NOT] IN` with two constants.
fn among(
    alloc: Global,
    case: &Case,
    negated: bool,
    one: usize,
    other: usize,
) -> Result<Pred, Memory> {
    let mut list = Items::new(alloc);
    list.push(case.constant(alloc, one)?)?;
    list.push(case.constant(alloc, other)?)?;
    Ok(Pred::Among {
        column: 1,
        negated,
        list,
    })
}

/// The negation of a predicate.
fn not(alloc: Global, pred: Pred) -> Result<Pred, Memory> {
    Ok(Pred::Not(Boxed::new(alloc, pred)?))
}

/// Two predicates in a list.
fn both(alloc: Global, first: Pred, second: Pred) -> Result<Items<Pred>, Memory> {
    let mut parts = Items::new(alloc);
    parts.push(first)?;
    parts.push(second)?;
    Ok(parts)
}

/// A predicate of two forms, the second of which not each joint takes.
pub fn joined(
    alloc: Global,
    case: &Case,
    joint: Joint,
    first: Form,
    second: Form,
) -> Result<Pred, Memory> {
    let one = pred_of(alloc, case, first)?;
    let other = pred_of(alloc, case, second)?;
    match joint {
        Joint::First => Ok(one),
        Joint::Not => not(alloc, one),
        Joint::And => Ok(Pred::AllOf(both(alloc, one, other)?)),
        Joint::Or => Ok(Pred::AnyOf(both(alloc, one, other)?)),
        Joint::NotAnd => not(alloc, Pred::AllOf(both(alloc, one, other)?)),
        Joint::NotOr => not(alloc, Pred::AnyOf(both(alloc, one, other)?)),
    }
}

/// Adds the forms with the constant at a place, alone and beside the next one.
fn add_at(forms: &mut Vec<Form>, at: usize) -> Result<(), Memory> {
    for &sign in &SIGNS {
        forms.push(Form::Compare(sign, at))?;
        forms.push(Form::Turned(sign, at))?;
    }
    let next = at.saturating_add(1);
    for &negated in &[false, true] {
        forms.push(Form::Between(negated, at, next))?;
        forms.push(Form::Between(negated, next, at))?;
        forms.push(Form::Among(negated, at, next))?;
    }
    Ok(())
}

/// Adds the forms with a pattern.
fn add_patterns(forms: &mut Vec<Form>) -> Result<(), Memory> {
    for &pattern in &PATTERNS {
        forms.push(Form::Like(false, pattern))?;
        forms.push(Form::Like(true, pattern))?;
    }
    Ok(())
}

/// Adds the forms without a constant.
fn add_bare(forms: &mut Vec<Form>) -> Result<(), Memory> {
    for &sign in &SIGNS {
        forms.push(Form::Beside(sign))?;
    }
    forms.push(Form::IsNull(false))?;
    forms.push(Form::IsNull(true))?;
    Ok(())
}

/// The forms over a column: each with each of its constants, and with NULL.
fn forms_of(alloc: Global, case: &Case) -> Result<Vec<Form>, Memory> {
    let mut forms = Vec::new(alloc);
    add_bare(&mut forms)?;
    for at in 0..=case.constants.len() {
        add_at(&mut forms, at)?;
    }
    if matches!(case.kind, ColumnType::VarChar { .. }) {
        add_patterns(&mut forms)?;
    }
    Ok(forms)
}

/// Each form over a column by itself, and some joined with another one.
pub fn preds_of(alloc: Global, case: &Case) -> Result<Vec<Pred>, Memory> {
    let forms = forms_of(alloc, case)?;
    let mut preds = Vec::new(alloc);
    for i in 0..forms.len() {
        preds.push(pred_of(alloc, case, forms[i])?)?;
        if i % 3 == 0 {
            let other = forms[i.wrapping_add(5) % forms.len()];
            preds.push(joined(alloc, case, JOINTS[i / 3 % 6], forms[i], other)?)?;
        }
    }
    Ok(preds)
}
