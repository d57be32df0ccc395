//! Comparisons and the other atoms of predicates.

ghost use Rattle.std.specs.Prelude.{◌≡◌};
ghost use Rattle.std.specs.List.{flat_map};
ghost use Rattle.bind_faults.specs.Least.{least};
ghost use Rattle.bind_faults.specs.Predicates.{const_beside, const_faults, const_place, name_family, operand_beside, own_family, operand_faults, operand_place, is_const, compare_faults, beside_faults, between_faults, in_faults, has_bracket, like_faults, atom_faults};

use crate::family::{Family, day_fault, differ, family_of, text_beside};
use crate::fault::{Fault, MIXED, UNSUPPORTED, earlier, fault_if};
use crate::setting::{kind_of, unknown_column};
use cs_types::Schema;
use tsql_trees::{AtomTree, ConstTree, NameTree, OperandTree, TextTree};

/// The family of a literal beside what is of another one.
fn const_beside(other: Family, literal: &ConstTree) -> Family
    ensures { result ≡ const_beside other literal.now }
{
    match literal {
        ConstTree::Number(_) => Family::Number,
        ConstTree::Text(_) => text_beside(other),
        ConstTree::Null { .. } => Family::Any,
    }
}

fn const_fault(other: Family, literal: &ConstTree) -> Option<Fault>
    ensures { result ≡ least (const_faults other literal.now) }
{
    match literal {
        ConstTree::Text(text) => day_fault(other, text),
        _ => None,
    }
}

fn const_place(literal: &ConstTree) -> u32
    ensures { result ≡ const_place literal.now }
{
    match literal {
        ConstTree::Number(number) => number.place,
        ConstTree::Text(text) => text.place,
        ConstTree::Null { place } => *place,
    }
}

fn name_family(schema: &Schema, name: &NameTree) -> Family
    ensures { result ≡ name_family schema.now name.now }
{
    family_of(kind_of(schema, name))
}

/// The family of an operand beside what is of another one.
fn operand_beside(schema: &Schema, other: Family, operand: &OperandTree) -> Family
    ensures { result ≡ operand_beside schema.now other operand.now }
{
    match operand {
        OperandTree::Name(name) => name_family(schema, name),
        OperandTree::Const(literal) => const_beside(other, literal),
    }
}

fn own_family(schema: &Schema, operand: &OperandTree) -> Family
    ensures { result ≡ own_family schema.now operand.now }
{
    operand_beside(schema, Family::Any, operand)
}

fn operand_fault(schema: &Schema, other: Family, operand: &OperandTree) -> Option<Fault>
    ensures { result ≡ least (operand_faults schema.now other operand.now) }
{
    match operand {
        OperandTree::Name(name) => unknown_column(schema, name),
        OperandTree::Const(literal) => const_fault(other, literal),
    }
}

fn operand_place(operand: &OperandTree) -> u32
    ensures { result ≡ operand_place operand.now }
{
    match operand {
        OperandTree::Name(name) => name.place,
        OperandTree::Const(literal) => const_place(literal),
    }
}

fn is_const(operand: &OperandTree) -> bool
    ensures { result ≡ is_const operand.now }
{
    match operand {
        OperandTree::Name(_) => false,
        OperandTree::Const(_) => true,
    }
}

/// The first fault of a comparison.
#[tactic(auto, using(crate::proofs::Leasts::least_append))]
fn compare_fault(schema: &Schema, left: &OperandTree, right: &OperandTree) -> Option<Fault>
    ensures { result ≡ least (compare_faults schema.now left.now right.now) }
{
    let on_left = own_family(schema, left);
    let on_right = own_family(schema, right);
    let mixed = differ(
        operand_beside(schema, on_right, left),
        operand_beside(schema, on_left, right),
    );
    let constants = is_const(left) && is_const(right);
    let at = operand_place(left);
    let by_sides = earlier(
        fault_if(mixed, MIXED, at),
        fault_if(constants, UNSUPPORTED, at),
    );
    let by_left = earlier(by_sides, operand_fault(schema, on_right, left));
    earlier(by_left, operand_fault(schema, on_left, right))
}

/// A literal beside a column of a family, in an atom at a place.
#[tactic(auto, using(crate::proofs::Leasts::least_append))]
fn beside_fault(column: Family, at: u32, literal: &ConstTree) -> Option<Fault>
    ensures { result ≡ least (beside_faults column at literal.now) }
{
    let mixed = differ(column, const_beside(column, literal));
    earlier(fault_if(mixed, MIXED, at), const_fault(column, literal))
}

#[tactic(auto, using(crate::proofs::Leasts::least_append))]
fn between_fault(
    schema: &Schema,
    name: &NameTree,
    low: &ConstTree,
    high: &ConstTree,
) -> Option<Fault>
    ensures { result ≡ least (between_faults schema.now name.now low.now high.now) }
{
    let column = name_family(schema, name);
    let by_low = earlier(
        unknown_column(schema, name),
        beside_fault(column, name.place, low),
    );
    earlier(by_low, beside_fault(column, name.place, high))
}

/// The first fault of some literals beside a column.
fn list_fault(column: Family, at: u32, list: &[ConstTree]) -> Option<Fault>
    ensures { result ≡ least (flat_map (beside_faults column at) list.now) }
{
    let mut found = None;
    for literal in list {
        found = earlier(found, beside_fault(column, at, literal));
    }
    found
}

#[tactic(auto, using(crate::proofs::Leasts::least_append))]
fn in_fault(schema: &Schema, name: &NameTree, list: &[ConstTree]) -> Option<Fault>
    ensures { result ≡ least (in_faults schema.now name.now list.now) }
{
    let column = name_family(schema, name);
    earlier(
        unknown_column(schema, name),
        list_fault(column, name.place, list),
    )
}

fn has_bracket(pattern: &[u8]) -> bool
    ensures { result ≡ has_bracket pattern.now }
{
    pattern.iter().any(|byte| *byte == b'[')
}

#[tactic(auto, using(crate::proofs::Leasts::least_append))]
fn like_fault(schema: &Schema, name: &NameTree, pattern: &TextTree) -> Option<Fault>
    ensures { result ≡ least (like_faults schema.now name.now pattern.now) }
{
    let mixed = differ(name_family(schema, name), Family::Text);
    let bracket = has_bracket(pattern.bytes.as_slice());
    let by_name = earlier(
        unknown_column(schema, name),
        fault_if(mixed, MIXED, name.place),
    );
    earlier(by_name, fault_if(bracket, UNSUPPORTED, pattern.place))
}

/// The first fault of an atom.
pub fn atom_fault(schema: &Schema, atom: &AtomTree) -> Option<Fault>
    ensures { result ≡ least (atom_faults schema.now atom.now) }
{
    match atom {
        AtomTree::Compare { left, right, .. } => compare_fault(schema, left, right),
        AtomTree::Between {
            name,
            low,
            high,
            ..
        } => between_fault(schema, name, low, high),
        AtomTree::In { name, list, .. } => in_fault(schema, name, list.as_slice()),
        AtomTree::Like { name, pattern, .. } => like_fault(schema, name, pattern),
        AtomTree::IsNull { name, .. } => unknown_column(schema, name),
    }
}
