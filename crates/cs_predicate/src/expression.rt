//! Expressions.

ghost use Rattle.std.specs.Prelude.{◌≡◌, IfOk, map};
ghost use Rattle.cs_model.specs.Cells as cells;
ghost use Rattle.cs_model.specs.Expressions as spec;
ghost use Rattle.cs_model.specs.Expressions.{chain, Gives};

use crate::arithmetic::{product_of, signed, sum_of};
use cs_base::Memory;
use cs_model::{Expr, ExprRefusal, Times};
use cs_types::{Loose, Row, Schema, loose_of};

/// What a row's cell in a column stands for; NULL past the columns.
fn loose_at(schema: &Schema, row: &Row, column: usize) -> Result<Loose, Memory>
    ensures { IfOk result (λ loose. loose ≡ cells.loose_at schema.now row.now column) }
{
    match schema.columns.get(column) {
        Some(found) => loose_of(found.kind, row.cell(column)),
        None => Ok(Loose::Null),
    }
}

/// The value of a chain of sums, of which a part on the left is computed.
#[cycle(compute)]
fn sum_on(
    value: Loose,
    rest: &[(bool, Expr)],
    row: &Row,
    schema: &Schema,
) -> Result<Loose, ExprRefusal>
    ensures { Gives result (chain spec.sum value (map (λ part. (part.0, spec.compute part.1 row.now schema.now)) rest.now)) }
{
    let mut left = value;
    for part in rest {
        let right = compute(&part.1, row, schema)?;
        left = sum_of(part.0, &left, &right)?;
    }
    Ok(left)
}

/// The value of a chain of products, of which a part on the left is computed.
#[cycle(compute)]
fn product_on(
    value: Loose,
    rest: &[(Times, Expr)],
    row: &Row,
    schema: &Schema,
) -> Result<Loose, ExprRefusal>
    ensures { Gives result (chain spec.product value (map (λ part. (part.0, spec.compute part.1 row.now schema.now)) rest.now)) }
{
    let mut left = value;
    for part in rest {
        let right = compute(&part.1, row, schema)?;
        left = product_of(part.0, &left, &right)?;
    }
    Ok(left)
}

/// The value of an expression over a row of a schema.
///
/// A literal is as it stands, and a cell as its column means it. Arithmetic is on whole numbers, in a chain from the left,
/// each side computed, the left one first; it is NULL where a side is. `/` cuts toward zero, and `%` has the sign of the
/// left side. `ZeroDivisor` where the right side of one of these is 0 and the left one is not NULL; `Overflow` where a
/// result of arithmetic, also one on the way, is outside bigint; `Memory` where a text finds no room.
#[cycle(compute)]
pub fn compute(expr: &Expr, row: &Row, schema: &Schema) -> Result<Loose, ExprRefusal>
    ensures { Gives result (spec.compute expr.now row.now schema.now) }
{
    match expr {
        Expr::Constant(constant) => Ok(constant.copy()?),
        Expr::Column(column) => Ok(loose_at(schema, row, *column)?),
        Expr::Signed { minus, part } => {
            let value = compute(part.get(), row, schema)?;
            signed(*minus, &value)
        }
        Expr::Sum { first, rest } => {
            let value = compute(first.get(), row, schema)?;
            sum_on(value, rest.as_slice(), row, schema)
        }
        Expr::Product { first, rest } => {
            let value = compute(first.get(), row, schema)?;
            product_on(value, rest.as_slice(), row, schema)
        }
    }
}
