//! Names.

ghost use Rattle.std.specs.Prelude.{◌≡◌};
ghost use Rattle.cs_base.specs.Names.{same_name};
ghost use Rattle.bind_names.specs.Names.{column_named};

use cs_base::is_same_name;
use cs_types::Schema;

/// The number of the first column of a name, counted from 0, and None where no column has the name.
pub fn column_named(schema: &Schema, name: &[u8]) -> Option<usize>
    ensures { result ≡ column_named schema.now name.now }
{
    schema
        .columns
        .as_slice()
        .iter()
        .position(|column| is_same_name(column.name.as_slice(), name))
}
