// Parcels of rows that come by columns, beside those of their writes.
ghost use Rattle.std.specs.Prelude.{◌≡◌, ◌∷◌, [], List, All, IfOk, true, false};
ghost use Rattle.cs_types.specs.declared.ColumnType.TheVariants.{BigInt};
ghost use Rattle.cs_types.specs.declared.Schema.{Schema};
ghost use Rattle.cs_types.specs.declared.Value.{Value};
ghost use Rattle.cs_types.specs.declared.Value.TheVariants as cells;
ghost use Rattle.cs_types.specs.Rows.{number_cell};
ghost use Rattle.cs_types.specs.Schemas.{IsRowOf, IsSchema};
ghost use Rattle.edit_laws.specs.Edits.{edits_of};
ghost use Rattle.tuple_mover.specs.Inserts.{AreRowsOf, FitsIn};

use crate::made::table;
use cs_base::{Items, Memory};
use cs_types::{Column, ColumnType, Key, Row, Schema, Value};
use group_view::Parcel;
use row_group::Packed;
use std::alloc::Global;
use std::process::Abort;
use std::test::Fail;
use tuple_mover::{parcel_of, parcel_of_columns};
use write_set::Write;

/// Rows by columns, and as writes.
#[derive(Drop)]
struct Coming {
    keys: Vec<Key>,
    columns: Vec<Vec<Option<i64>>>,
    writes: Vec<Write>,
}

/// The table `t (k bigint NOT NULL PRIMARY KEY, v bigint)`.
fn pair_table(alloc: Global) -> Result<Schema, Memory>
    ensures schema { IfOk result (λ schema. IsSchema schema) }
    ensures columns { IfOk result (λ schema. schema.columns ≡ record { name = 107 ∷ []; kind = BigInt; nullable = false } ∷ record { name = 118 ∷ []; kind = BigInt; nullable = true } ∷ []) }
    ensures key { IfOk result (λ schema. schema.key ≡ 0) }
{
    let mut schema = table(alloc)?;
    let mut name = Items::new(alloc);
    name.push(b'v')?;
    schema.columns.push(Column {
        name,
        kind: ColumnType::BigInt,
        nullable: true,
    })?;
    Ok(schema)
}

/// What stands beside a number: NULL beside each third one.
fn beside(number: u8) -> Option<i64> {
    if number.is_multiple_of(3) {
        return None;
    }
    Some(i64::from(number % 2))
}

/// The value that a number is, or NULL.
fn value(number: Option<i64>) -> Value
    ensures { result ≡ number_cell number }
{
    match number {
        Some(number) => Value::Number(number),
        None => Value::Null,
    }
}

/// The row of a number and of what stands beside it.
fn row_of(alloc: Global, first: i64, second: Option<i64>) -> Result<Row, Memory>
    ensures row { IfOk result (λ row. row ≡ cells.Number first ∷ number_cell second ∷ []) }
    ensures fit { IfOk result (λ row. (schema : Schema) → schema.columns ≡ record { name = 107 ∷ []; kind = BigInt; nullable = false } ∷ record { name = 118 ∷ []; kind = BigInt; nullable = true } ∷ [] → IsRowOf schema row) }
{
    let mut row = Row::new(alloc);
    row.push(Value::Number(first))?;
    row.push(value(second))?;
    Ok(row)
}

/// So many rows by their columns, and as writes: the numbers from 0 on, and what stands beside them.
fn pairs_of(alloc: Global, count: u8) -> Result<Coming, Memory>
    ensures columns { IfOk result (λ coming. (schema : Schema) → schema.columns ≡ record { name = 107 ∷ []; kind = BigInt; nullable = false } ∷ record { name = 118 ∷ []; kind = BigInt; nullable = true } ∷ [] → schema.key ≡ 0 → (rows : List (List Value)) × AreRowsOf schema coming.keys.items coming.columns.items rows) }
    ensures writes { IfOk result (λ coming. (schema : Schema) → schema.columns ≡ record { name = 107 ∷ []; kind = BigInt; nullable = false } ∷ record { name = 118 ∷ []; kind = BigInt; nullable = true } ∷ [] → schema.key ≡ 0 → All (FitsIn schema) (edits_of coming.writes.items)) }
{
    let mut keys = Vec::new(alloc);
    let mut numbers = Vec::new(alloc);
    let mut others = Vec::new(alloc);
    let mut writes = Vec::new(alloc);
    for number in 0..count {
        let first = i64::from(number);
        let second = beside(number);
        keys.push(Key(first))?;
        numbers.push(Some(first))?;
        others.push(second)?;
        let row = row_of(alloc, first, second)?;
        writes.push(Write {
            key: Key(first),
            row: Some(row),
            replaces: false,
        })?;
    }
    let mut columns = Vec::new(alloc);
    columns.push(numbers)?;
    columns.push(others)?;
    Ok(Coming {
        keys,
        columns,
        writes,
    })
}

/// Two groups have the same rows.
fn same_rows(rt: &impl Abort, left: &Packed, right: &Packed) -> Result<(), Memory> {
    assert!(rt; left.base() == right.base() && left.len() == right.len());
    for position in 0..left.len() {
        assert!(rt; position < right.len() && left.row(position)? == right.row(position)?);
    }
    Ok(())
}

/// Two parcels have the same groups and the same other rows, with their keys.
fn same_parcels(rt: &impl Abort, left: &Parcel, right: &Parcel) -> Result<(), Memory> {
    assert!(rt; left.rest == right.rest);
    assert!(rt; left.groups.len() == right.groups.len());
    for (one, other) in left.groups.as_slice().iter().zip(right.groups.as_slice()) {
        same_rows(rt, one, other)?;
    }
    Ok(())
}

#[test]
fn columns_load_as_their_writes_do(rt: HostRuntime) -> Result<(), Fail> {
    let alloc = rt.alloc();
    let schema = pair_table(alloc)?;
    for &(count, group_rows, direct_rows) in &[
        (0, 3, 5),
        (4, 3, 5),
        (5, 3, 5),
        (8, 3, 5),
        (5, 5, 5),
        (6, 9, 6),
        (6, 9, 7),
        (9, 3, 1),
    ] {
        let coming = pairs_of(alloc, count)?;
        let by_writes = parcel_of(alloc, &schema, &coming.writes, group_rows, direct_rows)?;
        let Coming { keys, columns, .. } = coming;
        let parcel = parcel_of_columns(alloc, &schema, &keys, columns, group_rows, direct_rows)?;
        same_parcels(&rt, &parcel, &by_writes)?;
    }
    Ok(())
}
