ghost use Rattle.std.specs.Prelude.{◌≡◌, ◌∷◌, [], All, IfOk, false};
ghost use Rattle.cs_types.specs.declared.ColumnType.TheVariants.{BigInt};
ghost use Rattle.cs_types.specs.declared.Schema.{Schema};
ghost use Rattle.edit_laws.specs.Edits.{edit_of, edits_of};
ghost use Rattle.tuple_mover.specs.Inserts.{FitsIn};

use crate::made::table;
use cs_base::Memory;
use cs_types::{Key, Row, Value};
use std::alloc::Global;
use std::test::Fail;
use tuple_mover::parcel_of;
use write_set::Write;

/// A write of the row of one number, which is its key.
fn write_of(alloc: Global, number: u8) -> Result<Write, Memory>
    ensures { IfOk result (λ write. (schema : Schema) → schema.columns ≡ record { name = 107 ∷ []; kind = BigInt; nullable = false } ∷ [] → schema.key ≡ 0 → FitsIn schema (edit_of write)) }
{
    let mut row = Row::new(alloc);
    row.push(Value::Number(i64::from(number)))?;
    Ok(Write {
        key: Key(i64::from(number)),
        row: Some(row),
        replaces: false,
    })
}

/// A delete of the key -1, and writes of so many rows from 0 on.
fn writes_of(alloc: Global, count: u8) -> Result<Vec<Write>, Memory>
    ensures { IfOk result (λ writes. (schema : Schema) → schema.columns ≡ record { name = 107 ∷ []; kind = BigInt; nullable = false } ∷ [] → schema.key ≡ 0 → All (FitsIn schema) (edits_of writes.items)) }
{
    let mut writes = Vec::new(alloc);
    writes.push(Write {
        key: Key(-1),
        row: None,
        replaces: true,
    })?;
    for number in 0..count {
        writes.push(write_of(alloc, number)?)?;
    }
    Ok(writes)
}

#[test]
fn parcels_load_what_is_large(rt: HostRuntime) -> Result<(), Fail> {
    let alloc = rt.alloc();
    let schema = table(alloc)?;
    for &(count, groups, rest) in &[(0, 0, 0), (4, 0, 4), (5, 1, 2), (8, 2, 2)] {
        let writes = writes_of(alloc, count)?;
        let parcel = parcel_of(alloc, &schema, &writes, 3, 5)?;
        assert!(rt; parcel.groups.len() == groups, "groups of {count}");
        assert!(rt; parcel.rest.len() == rest, "rest of {count}");
        for group in parcel.groups.as_slice() {
            assert!(rt; group.len() == 3 && group.base() == 0);
        }
    }
    Ok(())
}
