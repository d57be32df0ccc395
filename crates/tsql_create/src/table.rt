//! Texts into schemas.

ghost use Rattle.std.specs.Prelude.{◌≡◌, ◌≤◌, ℕ, [], length, IfOk, IfErr, MatchResult};
ghost use Rattle.cs_types.specs.declared.Schema.{Schema};
ghost use Rattle.cs_types.specs.Schemas.{IsSchema};
ghost use Rattle.tsql_exprs.specs.Refusals.{AnswersOnly};
ghost use Rattle.tsql_create.specs.Written.{columns};
ghost use Rattle.tsql_create.specs.Order.{AreInOrder};
ghost use Rattle.tsql_create.specs.Faults.{faults};
ghost use Rattle.tsql_create.specs.Tables.{Means, IsTable, IsNoTable, RefusesTable, JudgesTable, IsWrittenBy};

use crate::fault::leftmost_fault;
use crate::read::read_create;
use crate::schema::{copied_name, schema_columns};
use crate::tree::CreateTree;
use crate::written::Written;
use cs_base::Memory;
use cs_types::Schema;
use std::alloc::Global;
use tsql_exprs::ReadRefusal;

/// The schema of a setup statement without faults.
fn schema_of(
    alloc: Global,
    size: usize,
    tree: &CreateTree,
    written: &Written,
) -> Result<Schema, Memory>
    requires written { IsWrittenBy tree.now written.now }
    requires sound { faults size tree.now ≡ [] }
    ensures { IfOk result (λ schema. Means size tree.now schema) }
{
    let columns = written.columns.as_slice();
    let key = match written.keys.as_slice() {
        [first, ..] => match first.index(columns) {
            Some(key) => key,
            None => unreachable!(),
        },
        [] => unreachable!(),
    };
    let name = copied_name(alloc, &tree.table)?;
    let columns = schema_columns(alloc, key, columns)?;
    Ok(Schema { name, columns, key })
}

/// The schema that a setup statement means, whose text has so many bytes.
fn table_of(alloc: Global, size: usize, tree: &CreateTree) -> Result<Schema, ReadRefusal>
    requires fits { size ≤ 131_072 }
    requires ordered { AreInOrder (columns tree.now.parts) }
    ensures { JudgesTable size tree.now result }
{
    let written = Written::new(alloc, tree.parts.as_slice())?;
    match leftmost_fault(size as u32 + 1, &written) {
        Some(at) => Err(ReadRefusal::At { number: 50_001, at }),
        None => Ok(schema_of(alloc, size, tree, &written)?),
    }
}

/// The schema that a text of at most 131,072 bytes means as a setup statement.
///
/// Else where it is refused. Refusals by the tokens come first, then those by the grammar, as `read_create` has them. Then
/// it is 50001 at the leftmost fault: a decimal's digits outside 1 to 18, or more of them after the point, a varchar's bytes
/// outside 1 to 8000, and a number with a point in their place, at that number; a 33rd column, and a name that an earlier
/// column has, at the name; a second key, at its word PRIMARY; NULL and NOT NULL on one column, at the later one; NULL on
/// the key, and a key of another type than an integer or a date, at the later one of that NULL or type and the token that
/// makes the column the key; a key whose column is not there, at its name; and no key, or no column, one past the last byte.
/// `Memory` where there is no room.
pub fn read_table(alloc: Global, text: &[u8]) -> Result<Schema, ReadRefusal>
    requires { length text.now ≤ 131_072 }
    // What is given is the schema that the text means.
    ensures found { IfOk result (λ schema. IsTable text.now schema) }
    // A text that means a schema gives it, and no other.
    ensures only { (other : Schema) → IsTable text.now other → MatchResult result (λ schema. schema ≡ other) (λ e. e ≡ ReadRefusal.Memory) }
    // The schema is one that may be.
    ensures schema { IfOk result (λ schema. IsSchema schema) }
    // What is refused is refused where the text is.
    ensures refused { IfErr result (λ e. RefusesTable text.now e) }
    // A text that is refused at a place is refused there, and nowhere else.
    ensures place { (number at : ℕ) → IsNoTable text.now number at → MatchResult result (λ schema. ⊥) (λ e. AnswersOnly number at e) }
{
    let tree = read_create(alloc, text)?;
    table_of(alloc, text.len(), &tree)
}
