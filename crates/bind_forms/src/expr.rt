//! Expressions.

ghost use Rattle.std.specs.Prelude.{◌≡◌, map, IfOk};
ghost use Rattle.bind_forms.specs.Exprs.{sum_of, product_of, times_of, signed, primary_of, factor_of, term_of, expr_of, expr_beside, value_for};

use crate::literal::{beside, column_of, text_literal};
use bind_names::number_literal;
use cs_base::{Boxed, Items, Memory};
use cs_model::{Expr, Times};
use cs_types::{Loose, Schema};
use std::alloc::Global;
use tsql_trees::{ExprTree, FactorTree, PrimaryTree, SignTree, TermTree, TimesSign, TimesTree};

fn sum_of(alloc: Global, first: Expr, rest: Items<(bool, Expr)>) -> Result<Expr, Memory>
    ensures { IfOk result (λ made. made ≡ sum_of first rest) }
{
    if rest.is_empty() {
        return Ok(first);
    }
    let first = Boxed::new(alloc, first)?;
    Ok(Expr::Sum { first, rest })
}

fn product_of(alloc: Global, first: Expr, rest: Items<(Times, Expr)>) -> Result<Expr, Memory>
    ensures { IfOk result (λ made. made ≡ product_of first rest) }
{
    if rest.is_empty() {
        return Ok(first);
    }
    let first = Boxed::new(alloc, first)?;
    Ok(Expr::Product { first, rest })
}

/// What a sign of a product does.
fn times_of(sign: TimesSign) -> Times
    ensures { result ≡ times_of sign }
{
    match sign {
        TimesSign::Star => Times::Multiply,
        TimesSign::Slash => Times::Divide,
        TimesSign::Percent => Times::Remainder,
    }
}

fn signed(alloc: Global, sign: Option<SignTree>, part: Expr) -> Result<Expr, Memory>
    ensures { IfOk result (λ made. made ≡ signed sign part) }
{
    match sign {
        None => Ok(part),
        Some(sign) => {
            let part = Boxed::new(alloc, part)?;
            Ok(Expr::Signed {
                minus: sign.minus,
                part,
            })
        }
    }
}

#[cycle(expr)]
fn primary_of(alloc: Global, schema: &Schema, tree: &PrimaryTree) -> Result<Expr, Memory>
    ensures { IfOk result (λ made. made ≡ primary_of schema.now tree.now) }
{
    match tree {
        PrimaryTree::Number(number) => Ok(Expr::Constant(number_literal(*number))),
        PrimaryTree::Text(text) => {
            let value = text_literal(alloc, text)?;
            Ok(Expr::Constant(value))
        }
        PrimaryTree::Null { .. } => Ok(Expr::Constant(Loose::Null)),
        PrimaryTree::Name(name) => Ok(Expr::Column(column_of(schema, name))),
        PrimaryTree::Nested { expr, .. } => expr_of(alloc, schema, expr.get()),
    }
}

#[cycle(expr)]
fn factor_of(alloc: Global, schema: &Schema, tree: &FactorTree) -> Result<Expr, Memory>
    ensures { IfOk result (λ made. made ≡ factor_of schema.now tree.now) }
{
    let part = primary_of(alloc, schema, &tree.primary)?;
    signed(alloc, tree.sign, part)
}

#[cycle(expr)]
fn more_factors(
    alloc: Global,
    schema: &Schema,
    trees: &[(TimesTree, FactorTree)],
) -> Result<Items<(Times, Expr)>, Memory>
    ensures { IfOk result (λ made. made ≡ map (λ p. (times_of p.0.sign, factor_of schema.now p.1)) trees.now) }
{
    let mut made = Items::new(alloc);
    for tree in trees {
        let factor = factor_of(alloc, schema, &tree.1)?;
        made.push((times_of(tree.0.sign), factor))?;
    }
    Ok(made)
}

#[cycle(expr)]
fn term_of(alloc: Global, schema: &Schema, tree: &TermTree) -> Result<Expr, Memory>
    ensures { IfOk result (λ made. made ≡ term_of schema.now tree.now) }
{
    let first = factor_of(alloc, schema, &tree.first)?;
    let rest = more_factors(alloc, schema, tree.rest.as_slice())?;
    product_of(alloc, first, rest)
}

#[cycle(expr)]
fn more_terms(
    alloc: Global,
    schema: &Schema,
    trees: &[(SignTree, TermTree)],
) -> Result<Items<(bool, Expr)>, Memory>
    ensures { IfOk result (λ made. made ≡ map (λ p. (p.0.minus, term_of schema.now p.1)) trees.now) }
{
    let mut made = Items::new(alloc);
    for tree in trees {
        let term = term_of(alloc, schema, &tree.1)?;
        made.push((tree.0.minus, term))?;
    }
    Ok(made)
}

#[cycle(expr)]
fn expr_of(alloc: Global, schema: &Schema, tree: &ExprTree) -> Result<Expr, Memory>
    ensures { IfOk result (λ made. made ≡ expr_of schema.now tree.now) }
{
    let first = term_of(alloc, schema, &tree.first)?;
    let rest = more_terms(alloc, schema, tree.rest.as_slice())?;
    sum_of(alloc, first, rest)
}

fn expr_beside(schema: &Schema, column: usize, expr: Expr) -> Expr
    ensures { result ≡ expr_beside schema.now column expr }
{
    match expr {
        Expr::Constant(value) => Expr::Constant(beside(schema, column, value)),
        other => other,
    }
}

/// The value of a column of the schema, by the columns that its names mean: a literal alone stands beside the column.
pub fn value_for(
    alloc: Global,
    names: &Schema,
    schema: &Schema,
    column: usize,
    tree: &ExprTree,
) -> Result<Expr, Memory>
    ensures { IfOk result (λ made. made ≡ value_for names.now schema.now column tree.now) }
{
    let expr = expr_of(alloc, names, tree)?;
    Ok(expr_beside(schema, column, expr))
}
