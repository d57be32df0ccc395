//! Predicates.

ghost use Rattle.std.specs.Prelude.{◌≡◌, ◌∷◌, map, IfOk};
ghost use Rattle.std.specs.Option.{option_copied};
ghost use Rattle.bind_forms.specs.Literals.{const_of, beside};
ghost use Rattle.bind_forms.specs.Preds.{relation_of, beside_operand, operand_of, atom_of, any_of, all_of, negated_pred, part_of, neg_of, conj_of, pred_of, filter_of};

use crate::literal::{beside, column_of, const_beside, const_of, trimmed_bytes};
use cs_base::{Boxed, Items, Memory};
use cs_model::{Operand, Pred, Relation};
use cs_types::{Loose, Schema};
use std::alloc::Global;
use tsql_trees::{
    AtomTree, CmpTree, ConjTree, ConstTree, NegTree, OperandTree, PartTree, PredTree,
};

fn relation_of(cmp: CmpTree) -> Relation
    ensures { result ≡ relation_of cmp }
{
    match cmp {
        CmpTree::Equal => Relation::Equal,
        CmpTree::NotEqual | CmpTree::BangEqual => Relation::NotEqual,
        CmpTree::Less => Relation::Less,
        CmpTree::LessEqual => Relation::LessEqual,
        CmpTree::Greater => Relation::Greater,
        CmpTree::GreaterEqual => Relation::GreaterEqual,
    }
}

/// A literal beside the other side of a comparison.
fn beside_operand(schema: &Schema, other: &OperandTree, value: Loose) -> Loose
    ensures { result ≡ beside_operand schema.now other.now value }
{
    match other {
        OperandTree::Name(name) => beside(schema, column_of(schema, name), value),
        OperandTree::Const(_) => value,
    }
}

/// A side of a comparison, beside the other side.
fn operand_of(
    alloc: Global,
    schema: &Schema,
    other: &OperandTree,
    tree: &OperandTree,
) -> Result<Operand, Memory>
    ensures { IfOk result (λ made. made ≡ operand_of schema.now other.now tree.now) }
{
    match tree {
        OperandTree::Name(name) => Ok(Operand::Column(column_of(schema, name))),
        OperandTree::Const(constant) => {
            let value = const_of(alloc, constant)?;
            Ok(Operand::Constant(beside_operand(schema, other, value)))
        }
    }
}

fn compare(
    alloc: Global,
    schema: &Schema,
    left: &OperandTree,
    cmp: CmpTree,
    right: &OperandTree,
) -> Result<Pred, Memory>
    ensures { IfOk result (λ made. made ≡ atom_of schema.now (AtomTree.Compare left.now cmp right.now)) }
{
    let left_side = operand_of(alloc, schema, right, left)?;
    let right_side = operand_of(alloc, schema, left, right)?;
    Ok(Pred::Compare {
        left: left_side,
        sign: relation_of(cmp),
        right: right_side,
    })
}

fn between(
    alloc: Global,
    schema: &Schema,
    column: usize,
    negated: bool,
    low: &ConstTree,
    high: &ConstTree,
) -> Result<Pred, Memory>
    ensures { IfOk result (λ made. made ≡ Pred.Between column negated (beside schema.now column (const_of low.now)) (beside schema.now column (const_of high.now))) }
{
    let low = const_beside(alloc, schema, column, low)?;
    let high = const_beside(alloc, schema, column, high)?;
    Ok(Pred::Between {
        column,
        negated,
        low,
        high,
    })
}

fn consts_beside(
    alloc: Global,
    schema: &Schema,
    column: usize,
    trees: &[ConstTree],
) -> Result<Items<Loose>, Memory>
    ensures { IfOk result (λ made. made ≡ map (λ const. beside schema.now column (const_of const)) trees.now) }
{
    let mut made = Items::new(alloc);
    for tree in trees {
        let value = const_beside(alloc, schema, column, tree)?;
        made.push(value)?;
    }
    Ok(made)
}

fn atom_of(alloc: Global, schema: &Schema, tree: &AtomTree) -> Result<Pred, Memory>
    ensures { IfOk result (λ made. made ≡ atom_of schema.now tree.now) }
{
    match tree {
        AtomTree::Compare { left, cmp, right } => compare(alloc, schema, left, *cmp, right),
        AtomTree::Between {
            name,
            negated,
            low,
            high,
        } => between(alloc, schema, column_of(schema, name), *negated, low, high),
        AtomTree::In {
            name,
            negated,
            list,
        } => {
            let column = column_of(schema, name);
            let list = consts_beside(alloc, schema, column, list.as_slice())?;
            Ok(Pred::Among {
                column,
                negated: *negated,
                list,
            })
        }
        AtomTree::Like {
            name,
            negated,
            pattern,
        } => {
            let pattern = trimmed_bytes(alloc, pattern)?;
            Ok(Pred::Like {
                column: column_of(schema, name),
                negated: *negated,
                pattern,
            })
        }
        AtomTree::IsNull { name, negated } => Ok(Pred::IsNull {
            column: column_of(schema, name),
            negated: *negated,
        }),
    }
}

/// A predicate and more of them.
fn with_first(alloc: Global, first: Pred, rest: Items<Pred>) -> Result<Items<Pred>, Memory>
    ensures { IfOk result (λ parts. parts ≡ first ∷ rest) }
{
    let mut parts = Items::new(alloc);
    parts.reserve(rest.len().saturating_add(1))?;
    parts.push(first)?;
    parts.append(rest)?;
    Ok(parts)
}

fn any_of(alloc: Global, first: Pred, rest: Items<Pred>) -> Result<Pred, Memory>
    ensures { IfOk result (λ made. made ≡ any_of first rest) }
{
    if rest.is_empty() {
        return Ok(first);
    }
    let parts = with_first(alloc, first, rest)?;
    Ok(Pred::AnyOf(parts))
}

fn all_of(alloc: Global, first: Pred, rest: Items<Pred>) -> Result<Pred, Memory>
    ensures { IfOk result (λ made. made ≡ all_of first rest) }
{
    if rest.is_empty() {
        return Ok(first);
    }
    let parts = with_first(alloc, first, rest)?;
    Ok(Pred::AllOf(parts))
}

fn negated_pred(alloc: Global, negated: bool, pred: Pred) -> Result<Pred, Memory>
    ensures { IfOk result (λ made. made ≡ negated_pred negated pred) }
{
    if negated {
        let part = Boxed::new(alloc, pred)?;
        return Ok(Pred::Not(part));
    }
    Ok(pred)
}

#[cycle(pred)]
fn part_of(alloc: Global, schema: &Schema, tree: &PartTree) -> Result<Pred, Memory>
    ensures { IfOk result (λ made. made ≡ part_of schema.now tree.now) }
{
    match tree {
        PartTree::Nested { pred, .. } => pred_of(alloc, schema, pred.get()),
        PartTree::Atom(atom) => atom_of(alloc, schema, atom),
    }
}

#[cycle(pred)]
fn neg_of(alloc: Global, schema: &Schema, tree: &NegTree) -> Result<Pred, Memory>
    ensures { IfOk result (λ made. made ≡ neg_of schema.now tree.now) }
{
    let part = part_of(alloc, schema, &tree.part)?;
    negated_pred(alloc, tree.negated, part)
}

#[cycle(pred)]
fn more_negs(alloc: Global, schema: &Schema, trees: &[NegTree]) -> Result<Items<Pred>, Memory>
    ensures { IfOk result (λ made. made ≡ map (neg_of schema.now) trees.now) }
{
    let mut made = Items::new(alloc);
    for tree in trees {
        let next = neg_of(alloc, schema, tree)?;
        made.push(next)?;
    }
    Ok(made)
}

#[cycle(pred)]
fn conj_of(alloc: Global, schema: &Schema, tree: &ConjTree) -> Result<Pred, Memory>
    ensures { IfOk result (λ made. made ≡ conj_of schema.now tree.now) }
{
    let first = neg_of(alloc, schema, &tree.first)?;
    let rest = more_negs(alloc, schema, tree.rest.as_slice())?;
    all_of(alloc, first, rest)
}

#[cycle(pred)]
fn more_conjs(alloc: Global, schema: &Schema, trees: &[ConjTree]) -> Result<Items<Pred>, Memory>
    ensures { IfOk result (λ made. made ≡ map (conj_of schema.now) trees.now) }
{
    let mut made = Items::new(alloc);
    for tree in trees {
        let next = conj_of(alloc, schema, tree)?;
        made.push(next)?;
    }
    Ok(made)
}

#[cycle(pred)]
fn pred_of(alloc: Global, schema: &Schema, tree: &PredTree) -> Result<Pred, Memory>
    ensures { IfOk result (λ made. made ≡ pred_of schema.now tree.now) }
{
    let first = conj_of(alloc, schema, &tree.first)?;
    let rest = more_conjs(alloc, schema, tree.rest.as_slice())?;
    any_of(alloc, first, rest)
}

/// The predicate of a WHERE, if there is one. `Memory` where there is no room.
pub fn filter_of(
    alloc: Global,
    schema: &Schema,
    filter: Option<&PredTree>,
) -> Result<Option<Pred>, Memory>
    ensures { IfOk result (λ made. made ≡ filter_of schema.now (option_copied filter.entry)) }
{
    match filter {
        Some(tree) => {
            let pred = pred_of(alloc, schema, tree)?;
            Ok(Some(pred))
        }
        None => Ok(None),
    }
}
