//! Expressions whose value goes to a column.

ghost use Rattle.std.specs.Prelude.{◌≡◌};
ghost use Rattle.bind_faults.specs.Least.{least};
ghost use Rattle.bind_faults.specs.Values as spec;
ghost use Rattle.bind_faults.specs.Values.{is_integer, is_decimal, name_faults, number_faults, text_faults, within_expr, within_term, within_primary, wanted, setting_of, result_faults, expr_faults};

use crate::family::{Family, day_fault, differ, family_of, text_beside};
use crate::fault::{Fault, MIXED, UNSUPPORTED, earlier, fault_if};
use crate::setting::{Scope, Setting, kind_in, unknown};
use cs_types::{ColumnType, Schema};
use tsql_trees::{ExprTree, NumberTree, PrimaryTree, TermTree, TextTree};

/// Whether an expression is a name or a literal, in any number of parentheses.
fn is_alone(expr: &ExprTree) -> bool
    ensures { result ≡ spec.is_alone expr.now }
{
    let term = &expr.first;
    let factor = &term.first;
    if !expr.rest.is_empty() {
        return false;
    }
    if !term.rest.is_empty() {
        return false;
    }
    if factor.sign.is_some() {
        return false;
    }
    match &factor.primary {
        PrimaryTree::Nested { expr, .. } => is_alone(expr.get()),
        _ => true,
    }
}

/// The place of the first byte of an expression.
pub fn place_of(expr: &ExprTree) -> u32
    ensures { result ≡ spec.place_of expr.now }
{
    let factor = &expr.first.first;
    if let Some(sign) = factor.sign {
        return sign.place;
    }
    match &factor.primary {
        PrimaryTree::Number(number) => number.place,
        PrimaryTree::Text(text) => text.place,
        PrimaryTree::Null { place } => *place,
        PrimaryTree::Name(name) => name.place,
        PrimaryTree::Nested { place, .. } => *place,
    }
}

/// Whether there is a type and it is of whole numbers: `tinyint`, `smallint`, `int` or `bigint`.
pub fn is_integer(kind: Option<ColumnType>) -> bool
    ensures { result ≡ is_integer kind }
{
    match kind {
        Some(ColumnType::TinyInt | ColumnType::SmallInt | ColumnType::Int | ColumnType::BigInt) =>
            true,
        _ => false,
    }
}

/// Whether there is a type and it is a `decimal`.
pub fn is_decimal(kind: Option<ColumnType>) -> bool
    ensures { result ≡ is_decimal kind }
{
    match kind {
        Some(ColumnType::Decimal { .. }) => true,
        _ => false,
    }
}

/// A name whose meaning has a type, or none, where a type is wanted.
#[tactic(auto, using(crate::proofs::Leasts::least_append))]
fn name_fault(setting: Setting, kind: Option<ColumnType>, at: u32) -> Option<Fault>
    ensures { result ≡ least (name_faults setting kind at) }
{
    let mixed = differ(family_of(setting.wanted), family_of(kind));
    let point = is_integer(setting.wanted) && is_decimal(kind);
    let found = earlier(unknown(kind, at), fault_if(mixed, MIXED, setting.at));
    earlier(found, fault_if(point, UNSUPPORTED, at))
}

/// A number where a type is wanted.
#[tactic(auto, using(crate::proofs::Leasts::least_append))]
fn number_fault(setting: Setting, number: NumberTree) -> Option<Fault>
    ensures { result ≡ least (number_faults setting number) }
{
    let mixed = differ(family_of(setting.wanted), Family::Number);
    let point = is_integer(setting.wanted) && number.point;
    earlier(
        fault_if(mixed, MIXED, setting.at),
        fault_if(point, UNSUPPORTED, number.place),
    )
}

/// A text where a type is wanted.
#[tactic(auto, using(crate::proofs::Leasts::least_append))]
fn text_fault(setting: Setting, text: &TextTree) -> Option<Fault>
    ensures { result ≡ least (text_faults setting text.now) }
{
    let wanted = family_of(setting.wanted);
    let mixed = differ(wanted, text_beside(wanted));
    earlier(fault_if(mixed, MIXED, setting.at), day_fault(wanted, text))
}

#[cycle(within)]
fn primary_fault(schema: &Schema, setting: Setting, primary: &PrimaryTree) -> Option<Fault>
    ensures { result ≡ least (within_primary schema.now setting primary.now) }
{
    match primary {
        PrimaryTree::Number(number) => number_fault(setting, *number),
        PrimaryTree::Text(text) => text_fault(setting, text),
        PrimaryTree::Null { .. } => None,
        PrimaryTree::Name(name) => {
            let kind = kind_in(schema, setting.scope, name.bytes.as_slice());
            name_fault(setting, kind, name.place)
        }
        PrimaryTree::Nested { expr, .. } => within_fault(schema, setting, expr.get()),
    }
}

#[cycle(within)]
fn term_fault(schema: &Schema, setting: Setting, term: &TermTree) -> Option<Fault>
    ensures { result ≡ least (within_term schema.now setting term.now) }
{
    let mut found = primary_fault(schema, setting, &term.first.primary);
    for part in term.rest.as_slice() {
        found = earlier(found, primary_fault(schema, setting, &part.1.primary));
    }
    found
}

/// The first fault of the names and literals of an expression.
#[cycle(within)]
fn within_fault(schema: &Schema, setting: Setting, expr: &ExprTree) -> Option<Fault>
    ensures { result ≡ least (within_expr schema.now setting expr.now) }
{
    let mut found = term_fault(schema, setting, &expr.first);
    for part in expr.rest.as_slice() {
        found = earlier(found, term_fault(schema, setting, &part.1));
    }
    found
}

fn setting_of(scope: Scope, target: Option<ColumnType>, expr: &ExprTree) -> Setting
    ensures { result ≡ setting_of scope target expr.now }
{
    let wanted = if is_alone(expr) {
        target
    } else {
        Some(ColumnType::BigInt)
    };
    Setting {
        scope,
        wanted,
        at: place_of(expr),
    }
}

/// What arithmetic or a sign gives, where another family than a number is wanted.
fn result_fault(target: Option<ColumnType>, expr: &ExprTree) -> Option<Fault>
    ensures { result ≡ least (result_faults target expr.now) }
{
    let mixed = !is_alone(expr) && differ(family_of(target), Family::Number);
    fault_if(mixed, MIXED, place_of(expr))
}

/// The first fault of an expression whose value goes to a column of a type, or to no column.
#[tactic(auto, using(crate::proofs::Leasts::least_append))]
pub fn expr_fault(
    schema: &Schema,
    scope: Scope,
    target: Option<ColumnType>,
    expr: &ExprTree,
) -> Option<Fault>
    ensures { result ≡ least (expr_faults schema.now scope target expr.now) }
{
    let setting = setting_of(scope, target, expr);
    earlier(
        within_fault(schema, setting, expr),
        result_fault(target, expr),
    )
}
