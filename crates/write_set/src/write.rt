ghost use Rattle.std.specs.Prelude.{◌≡◌, IfOk};

use cs_base::Memory;
use cs_types::{Key, Row};
use shared_list::Copied;

/// What a transaction has made of a key.
#[derive(Debug, Drop)]
pub struct Write {
    /// The key.
    pub key: Key,
    /// The row that the key has from now on, or nothing.
    pub row: Option<Row>,
    /// Whether the key is in the table of the transaction's snapshot.
    pub replaces: bool,
}

impl Write {
    /// A write equal to this one.
    pub fn copy(&self) -> Result<Write, Memory>
        ensures { IfOk result (λ copied. copied ≡ self.now) }
    {
        Ok(Write {
            key: self.key,
            row: copy_row(&self.row)?,
            replaces: self.replaces,
        })
    }
}

impl Copied for Write {
    fn copy(&self) -> Result<Write, Memory> {
        Write::copy(self)
    }
}

fn copy_row(row: &Option<Row>) -> Result<Option<Row>, Memory>
    ensures { IfOk result (λ copied. copied ≡ row.now) }
{
    match row {
        None => Ok(None),
        Some(row) => Ok(Some(row.copy()?)),
    }
}
