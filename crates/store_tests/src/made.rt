// The table of one number, its rows, and the buffers and bitmaps of several tests.
ghost use Rattle.std.specs.Prelude.{◌≡◌, ◌∷◌, [], slice_get, IfOk, None, Some, false};
ghost use Rattle.std.specs.Bool.{OnTrue};
ghost use Rattle.cs_types.specs.declared.ColumnType.TheVariants.{BigInt};
ghost use Rattle.cs_types.specs.Schemas.{IsRowOf, IsSchema};

use cs_base::{Items, Memory};
use cs_types::{Column, ColumnType, Key, Row, Schema, Value};
use delete_bitmap::Marks;
use delete_buffer::Buffer;
use std::alloc::Global;

/// The table `t (k bigint NOT NULL PRIMARY KEY)`.
pub fn table(alloc: Global) -> Result<Schema, Memory>
    ensures schema { IfOk result (λ schema. IsSchema schema) }
    ensures columns { IfOk result (λ schema. schema.columns ≡ record { name = 107 ∷ []; kind = BigInt; nullable = false } ∷ []) }
    ensures key { IfOk result (λ schema. schema.key ≡ 0) }
{
    let mut name = Items::new(alloc);
    name.push(b'k')?;
    let mut columns = Items::new(alloc);
    columns.push(Column {
        name,
        kind: ColumnType::BigInt,
        nullable: false,
    })?;
    let mut name = Items::new(alloc);
    name.push(b't')?;
    Ok(Schema {
        name,
        columns,
        key: 0,
    })
}

/// A row of one number.
pub fn row_of(alloc: Global, number: u8) -> Result<Row, Memory>
    ensures { IfOk result (λ row. (schema : Schema) → schema.columns ≡ record { name = 107 ∷ []; kind = BigInt; nullable = false } ∷ [] → IsRowOf schema row) }
{
    let mut row = Row::new(alloc);
    row.push(Value::Number(i64::from(number)))?;
    Ok(row)
}

/// Whether a position is there and has no end.
#[tactic(auto, using(std::proofs::lemmas::Option::gets))]
pub fn is_free(marks: &Marks, position: usize) -> bool
    ensures { OnTrue result (slice_get marks.now position ≡ Some None) }
{
    position < marks.len() && marks.end(position).is_none()
}

/// A buffer of these entries.
pub fn buffer_of(alloc: Global, given: &[(i64, u64)]) -> Result<Buffer, Memory> {
    let mut buffer = Buffer::new(alloc);
    for (key, end) in given {
        buffer.reserve(1)?;
        if !buffer.remove(Key(*key), *end) {
            buffer.add(Key(*key), *end);
        }
    }
    Ok(buffer)
}
