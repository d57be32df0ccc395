//! SET in an UPDATE.

ghost use Rattle.std.specs.Prelude.{◌≡◌};
ghost use Rattle.std.specs.List.{flat_map};
ghost use Rattle.bind_faults.specs.Least.{least};
ghost use Rattle.bind_faults.specs.Updates.{is_key, value_faults, set_faults, sets_faults};

use crate::column::twice_fault;
use crate::expr::expr_fault;
use crate::fault::{Fault, UNSUPPORTED, earlier, fault_if};
use crate::setting::{Scope, kind_of, unknown_column};
use bind_names::column_named;
use cs_types::Schema;
use tsql_trees::{NameTree, SetTree};

/// Whether a name is that of the key.
fn is_key(schema: &Schema, name: &NameTree) -> bool
    ensures { result ≡ is_key schema.now name.now.bytes }
{
    match column_named(schema, name.bytes.as_slice()) {
        Some(column) => column == schema.key,
        None => false,
    }
}

fn value_fault(schema: &Schema, set: &SetTree) -> Option<Fault>
    ensures { result ≡ least (value_faults schema.now set.now) }
{
    let kind = kind_of(schema, &set.name);
    expr_fault(schema, Scope::Table, kind, &set.expr)
}

#[tactic(auto, using(crate::proofs::Leasts::least_append))]
fn set_fault(schema: &Schema, set: &SetTree) -> Option<Fault>
    ensures { result ≡ least (set_faults schema.now set.now) }
{
    let name = &set.name;
    let key = is_key(schema, name);
    let by_name = earlier(
        unknown_column(schema, name),
        fault_if(key, UNSUPPORTED, name.place),
    );
    earlier(by_name, value_fault(schema, set))
}

fn each_fault(schema: &Schema, sets: &[SetTree]) -> Option<Fault>
    ensures { result ≡ least (flat_map (set_faults schema.now) sets.now) }
{
    let mut found = None;
    for set in sets {
        found = earlier(found, set_fault(schema, set));
    }
    found
}

/// The first fault of what is set.
#[tactic(auto, using(crate::proofs::Leasts::least_append))]
pub fn sets_fault(schema: &Schema, sets: &[SetTree]) -> Option<Fault>
    ensures { result ≡ least (sets_faults schema.now sets.now) }
{
    earlier(each_fault(schema, sets), twice_fault(schema, sets))
}
