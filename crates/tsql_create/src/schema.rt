//! The schema that a setup statement means.

ghost use Rattle.std.specs.Prelude.{◌≡◌, [], All, IfOk};
ghost use Rattle.tsql_exprs.specs.Types.{digits_faults, type_faults};
ghost use Rattle.tsql_trees.specs.Tables.{table_name};
ghost use Rattle.tsql_create.specs.Tables.{plain_type, decimal_type, column_type, column_of, columns_from};

use crate::written::WrittenColumn;
use cs_base::{Items, Memory};
use cs_types::{Bytes, Column, ColumnType, copy_bytes};
use std::alloc::Global;
use tsql_trees::{NumberTree, PlainType, TableTree, TypeTree};

fn plain_type(kind: PlainType) -> ColumnType
    ensures { result ≡ plain_type kind }
{
    match kind {
        PlainType::TinyInt => ColumnType::TinyInt,
        PlainType::SmallInt => ColumnType::SmallInt,
        PlainType::Int => ColumnType::Int,
        PlainType::BigInt => ColumnType::BigInt,
        PlainType::Date => ColumnType::Date,
    }
}

fn decimal_type(precision: NumberTree, scale: Option<NumberTree>) -> ColumnType
    requires { digits_faults precision scale ≡ [] }
    ensures { result ≡ decimal_type precision scale }
{
    ColumnType::Decimal {
        p: precision.digits as u8,
        s: match scale {
            Some(scale) => scale.digits as u8,
            None => 0,
        },
    }
}

fn column_type(kind: TypeTree) -> ColumnType
    requires { type_faults kind ≡ [] }
    ensures { result ≡ column_type kind }
{
    match kind {
        TypeTree::Plain { kind, .. } => plain_type(kind),
        TypeTree::Decimal { digits: None, .. } => ColumnType::Decimal { p: 18, s: 0 },
        TypeTree::Decimal {
            digits: Some((precision, scale)),
            ..
        } => decimal_type(precision, scale),
        TypeTree::VarChar { size: None, .. } => ColumnType::VarChar { n: 1 },
        TypeTree::VarChar {
            size: Some(size),
            ..
        } => ColumnType::VarChar {
            n: size.digits as u16,
        },
    }
}

fn column_of(column: &WrittenColumn, is_key: bool) -> Result<Column, Memory>
    requires { type_faults column.now.kind ≡ [] }
    ensures { IfOk result (λ made. made ≡ column_of is_key column.now) }
{
    let name = copy_bytes(&column.name.bytes)?;
    Ok(Column {
        name,
        kind: column_type(column.kind),
        nullable: !is_key && column.not_null.is_none(),
    })
}

/// The columns of a schema whose key is the column with a number.
pub fn schema_columns(
    alloc: Global,
    key: usize,
    columns: &[WrittenColumn],
) -> Result<Items<Column>, Memory>
    requires { All (λ column. type_faults column.kind ≡ []) columns.now }
    ensures { IfOk result (λ made. made ≡ columns_from key 0 columns.now) }
{
    let mut made = Items::new(alloc);
    for (i, column) in columns.iter().enumerate() {
        let next = column_of(column, i == key)?;
        made.push(next)?;
    }
    Ok(made)
}

/// The name of a table, in bytes of its own.
pub fn copied_name(alloc: Global, table: &TableTree) -> Result<Bytes, Memory>
    ensures { IfOk result (λ name. name ≡ table_name table.now) }
{
    Ok(Items::from_vec(table.name().to_vec(alloc)?))
}
