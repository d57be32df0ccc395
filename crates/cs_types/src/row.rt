ghost use Rattle.std.specs.Prelude.{◌≡◌, ◌+◌, ℕ, [], ◌∷◌, ◌++◌, ◌<◌, ◌≤◌, ◌↔◌, length, slice_get, slice_set, IfOk, OnOk, OnErr, IsTrue};
ghost use Rattle.cs_types.specs.Rows.{cell_at, key_in, IsNumber};

use crate::{Key, Schema, Value};
use cs_base::Memory;
use smallvec::SmallVec;
use std::alloc::{AllocError, Global};
use std::cmp::Ordering;
use std::default::MadeWith;
use std::hash::{Hash, Hasher};
use std::marker::Model;
use std::{fmt, mem};

/// What stands in a row's inline places that no cell uses.
impl MadeWith<Global> for Value {
    fn made_with(_alloc: Global) -> Value {
        Value::Null
    }
}

/// A row: a list of values, up to four of them with no allocation. It may be shorter than its schema: the cells past
/// its end are NULL. It keeps its allocator.
#[derive(Drop)]
pub struct Row {
    cells: SmallVec<Value, 4>,
    null: Value,
}

impl Model for Row {
    ghost use Rattle.std.specs.Prelude.{List, ◌≡◌};
    ghost use Rattle.cs_types.specs.declared.Value.{Value as Cell};
    ghost use Rattle.cs_types.specs.declared.Value.TheVariants as cell;

    ghost Value = { List Cell };

    ghost view = { λ row. row.cells.items };

    ghost invariant = { λ row. row.null ≡ cell.Null };
}

impl Row {
    /// The row without cells. It takes no memory.
    pub fn new(alloc: Global) -> Row
        ensures { result ≡ [] }
    {
        Row {
            cells: SmallVec::new(alloc),
            null: Value::Null,
        }
    }

    /// The row of these cells. It takes no memory.
    pub fn from_vec(cells: Vec<Value>) -> Row
        ensures { result ≡ cells.items }
    {
        Row {
            cells: SmallVec::from_vec(cells),
            null: Value::Null,
        }
    }

    /// The cells as a vector.
    pub fn into_vec(self) -> Result<Vec<Value>, Memory>
        ensures { IfOk result (λ cells. cells.items ≡ self) }
    {
        let Row { cells, null: _null } = self;
        Ok(cells.into_vec()?)
    }

    /// The number of cells.
    pub fn len(&self) -> usize
        ensures { result ≡ length self.now }
    {
        self.cells.len()
    }

    /// Whether there is no cell.
    pub fn is_empty(&self) -> bool
        ensures { IsTrue result ↔ (self.now ≡ []) }
    {
        self.cells.is_empty()
    }

    /// The cells as a slice.
    pub fn as_slice(&self) -> &[Value]
        ensures { result.now ≡ self.now }
    {
        self.cells.as_slice()
    }

    /// The cell of a column, NULL past the row's end.
    pub fn cell(&self, column: usize) -> &Value
        ensures { result.now ≡ cell_at self.now column }
    {
        match self.cells.as_slice().get(column) {
            Some(value) => value,
            None => &self.null,
        }
    }

    /// Adds a cell at the end. After `Memory` nothing has changed.
    pub fn push(&mut self, value: Value) -> Result<(), Memory>
        ensures ok { OnOk result (self.new ≡ self.old ++ value ∷ []) }
        ensures err { OnErr result (self.new ≡ self.old) }
    {
        self.cells.push(value)?;
        Ok(())
    }

    /// Takes the cell of a column out and leaves NULL in its place; past the row's end it is NULL, and nothing changes. It takes no
    /// memory.
    pub fn take(&mut self, column: usize) -> Value
        ensures taken { result ≡ cell_at self.old column }
        ensures left { self.new ≡ slice_set self.old column Value.Null }
    {
        match self.cells.get_mut(column) {
            Some(cell) => mem::replace(cell, Value::Null),
            None => Value::Null,
        }
    }

    /// A row equal to this one.
    pub fn copy(&self) -> Result<Row, Memory>
        ensures { IfOk result (λ copied. copied ≡ self.now) }
    {
        Ok(self.clone()?)
    }
}

impl Clone for Row {
    ghost is_clone = { λ a b. b ≡ a };

    fn clone(&self) -> Result<Row, AllocError> {
        Ok(Row {
            cells: self.cells.clone()?,
            null: Value::Null,
        })
    }
}

impl PartialEq for Row {
    ghost use Rattle.std.specs.Cmp.Lexicographic.{pointwise, lists_per};
    ghost use Rattle.cs_types.specs.contracts.ValuePartialEq.TheImpl.Laws.{laws-law};

    ghost eq = { pointwise ⟦<Value as PartialEq>⟧.eq };

    ghost laws = { lists_per laws-law };

    fn eq(&self, other: &Row) -> bool {
        self.as_slice() == other.as_slice()
    }
}

impl Eq for Row {
    ghost use Rattle.std.specs.Cmp.Lexicographic.{lists_equiv};
    ghost use Rattle.cs_types.specs.contracts.ValueEq.TheImpl.Laws.{laws-law};

    ghost laws = { lists_equiv laws-law };
}

impl PartialOrd for Row {
    ghost use Rattle.std.specs.Cmp.Lexicographic.{slice_partial_cmp, lists_po};
    ghost use Rattle.cs_types.specs.contracts.ValuePartialOrd.TheImpl.Laws.{laws-law};

    ghost partial_cmp = { slice_partial_cmp ⟦<Value as PartialOrd>⟧.partial_cmp };

    ghost laws = { lists_po laws-law };

    fn partial_cmp(&self, other: &Row) -> Option<Ordering> {
        self.as_slice().partial_cmp(&other.as_slice())
    }
}

impl Ord for Row {
    ghost use Rattle.std.specs.Cmp.Lexicographic.{slice_cmp, lists_total, lists_agrees, lists_ties};
    ghost use Rattle.cs_types.specs.contracts.ValueOrd.TheImpl.Laws.{total-law, matches_partial_cmp-law, matches_eq-law};

    ghost cmp = { slice_cmp ⟦<Value as Ord>⟧.cmp };

    ghost total = { lists_total total-law };

    ghost matches_partial_cmp = { λ v w. lists_agrees matches_partial_cmp-law v w };

    ghost matches_eq = { λ v w. lists_ties ⟦<Value as Ord>⟧.cmp matches_eq-law v w };

    fn cmp(&self, other: &Row) -> Ordering {
        self.as_slice().cmp(&other.as_slice())
    }
}

impl Hash for Row {
    ghost use Rattle.std.specs.Hash as fed;
    ghost use Rattle.std.specs.Hash.{items_Alike};
    ghost use Rattle.cs_types.specs.contracts.ValueHash.TheImpl.Laws.{respects_eq-law};

    ghost hash_input = { fed.slice ⟦<Value as Hash>⟧.hash_input };

    ghost respects_eq = { (items_Alike (record { fed = respects_eq-law })).fed };

    fn hash<H: Hasher>(&self, state: &mut H) {
        self.as_slice().hash(state);
    }
}

impl fmt::Debug for Row {
    fn fmt<W: fmt::Write>(&self, f: &mut fmt::Formatter<W>) -> fmt::Result {
        f.debug_list().entries(self.as_slice()).finish()
    }
}

/// A row, and the commits from which and up to which it is there.
#[derive(Debug, Drop, Clone, PartialEq, Eq)]
pub struct Version {
    /// The row.
    pub row: Row,
    /// The number of the commit that wrote it.
    pub begin: u64,
    /// The number of the commit that replaced or deleted it, if there is one.
    pub end: Option<u64>,
}

impl Version {
    /// A version equal to this one.
    pub fn copy(&self) -> Result<Version, Memory>
        ensures { IfOk result (λ copied. copied ≡ self.now) }
    {
        Ok(Version {
            row: self.row.copy()?,
            begin: self.begin,
            end: self.end,
        })
    }
}

/// The key of a row: the number in the schema's key column. A row that fits its schema has one.
pub fn key_of(schema: &Schema, row: &Row) -> Key
    requires { IsNumber (cell_at row.now schema.now.key) }
    ensures { result ≡ key_in schema.now.key row.now }
{
    match row.cell(schema.key) {
        Value::Number(n) => Key(*n),
        _ => unreachable!(),
    }
}
