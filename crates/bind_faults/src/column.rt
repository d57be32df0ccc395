//! The columns that an INSERT names or an UPDATE sets.

ghost use Rattle.std.specs.Prelude.{◌≡◌, map};
ghost use Rattle.std.specs.List.{flat_map};
ghost use Rattle.bind_faults.specs.Least.{least};
ghost use Rattle.bind_faults.specs.Families.{unknown_column};
ghost use Rattle.bind_faults.specs.Columns.{again_faults, twice_faults};

use crate::fault::{Fault, UNSUPPORTED, earlier, fault_if};
use crate::setting::unknown_column;
use cs_base::is_same_name;
use cs_types::{Column, Schema};
use tsql_trees::{NameTree, SetTree};

/// What has the name of a column.
pub trait Named {
    ghost use Rattle.tsql_trees.specs.declared.leaf.NameTree.{NameTree as Name};

    ghost name_of: { Self → Name };

    /// The name.
    fn name(&self) -> &NameTree
        ensures { result.now ≡ name_of self.now };
}

impl Named for NameTree {
    ghost name_of = { λ name. name };

    fn name(&self) -> &NameTree {
        self
    }
}

impl Named for SetTree {
    ghost name_of = { λ set. set.name };

    fn name(&self) -> &NameTree {
        &self.name
    }
}

/// The first of some names that is no column.
pub fn no_column_fault(schema: &Schema, names: &[NameTree]) -> Option<Fault>
    ensures { result ≡ least (flat_map (unknown_column schema.now) names.now) }
{
    let mut found = None;
    for name in names {
        found = earlier(found, unknown_column(schema, name));
    }
    found
}

/// The first name of a column, but for the very first.
fn again_fault<T: Named>(named: &[T], column: &Column) -> Option<Fault>
    ensures { result ≡ least (again_faults (map T.name_of named.now) column.now) }
{
    let mut seen = false;
    let mut found = None;
    for one in named {
        let name = one.name();
        let same = is_same_name(column.name.as_slice(), name.bytes.as_slice());
        found = earlier(found, fault_if(seen && same, UNSUPPORTED, name.place));
        seen = seen || same;
    }
    found
}

/// The first name of a column that was named before.
pub fn twice_fault<T: Named>(schema: &Schema, named: &[T]) -> Option<Fault>
    ensures { result ≡ least (twice_faults schema.now (map T.name_of named.now)) }
{
    let mut found = None;
    for column in schema.columns.as_slice() {
        found = earlier(found, again_fault(named, column));
    }
    found
}
