ghost use Rattle.std.specs.Prelude.{◌≡◌, ◌++◌, ◌∷◌, [], map, take, IfSome, OnOk, OnErr};
ghost use Rattle.cs_types.specs.Rows.{cell_at, number_cell};
ghost use Rattle.column_segment.specs.Cells.{seen};

use column_segment::{CellRef, number_shown, shown};
use cs_base::Memory;
use cs_types::Value;
use std::alloc::Global;
use std::marker::Model;

/// The cells of a column on its way to a segment. Contracts see the list of them. Up to the first text they stand as bare
/// numbers: so a column of numbers takes half the memory, and is read without a look at what each cell is.
#[derive(Drop)]
pub struct Cells {
    /// The numbers and NULLs before the first text.
    numbers: Vec<Option<i64>>,
    /// The first text and what follows it.
    values: Vec<Value>,
}

impl Model for Cells {
    ghost use Rattle.std.specs.Prelude.{List, map, ◌++◌};
    ghost use Rattle.cs_types.specs.declared.Value.{Value as Cell};
    ghost use Rattle.cs_types.specs.Rows.{number_cell};

    ghost Value = { List Cell };

    ghost view = { λ cells. map number_cell cells.numbers.items ++ cells.values.items };
}

impl Cells {
    /// No cell. It takes no memory.
    pub fn new(alloc: Global) -> Cells
        ensures { result ≡ [] }
    {
        Cells {
            numbers: Vec::new(alloc),
            values: Vec::new(alloc),
        }
    }

    /// The cells of a list of numbers and NULLs, none of which is copied. It takes no memory.
    pub fn of_numbers(numbers: Vec<Option<i64>>) -> Cells
        ensures { result ≡ map number_cell numbers.items }
    {
        let alloc = *numbers.allocator();
        Cells {
            numbers,
            values: Vec::new(alloc),
        }
    }

    /// The allocator that the list was made with.
    pub fn allocator(&self) -> Global {
        *self.numbers.allocator()
    }

    /// The numbers, where no cell is a text.
    pub fn numbers(&self) -> Option<&[Option<i64>]>
        ensures { IfSome result (λ numbers. map number_cell numbers.now ≡ self.now) }
    {
        if self.values.is_empty() {
            return Some(self.numbers.as_slice());
        }
        None
    }

    /// The cells before the first text, and the others.
    pub fn parts(&self) -> (&[Option<i64>], &[Value])
        ensures { map number_cell result.0.now ++ result.1.now ≡ self.now }
    {
        (self.numbers.as_slice(), self.values.as_slice())
    }

    /// Makes room for so many cells more. It changes none.
    pub fn reserve(&mut self, more: usize) -> Result<(), Memory>
        ensures { self.new ≡ self.old }
    {
        if self.values.is_empty() {
            self.numbers.reserve(more)?;
        } else {
            self.values.reserve(more)?;
        }
        Ok(())
    }

    /// Adds a copy of a cell at the end. After `Memory` nothing has changed.
    pub fn push(&mut self, cell: CellRef<'_>) -> Result<(), Memory>
        ensures ok { OnOk result (self.new ≡ self.old ++ seen cell.entry ∷ []) }
        ensures err { OnErr result (self.new ≡ self.old) }
    {
        if let Some(number) = bare(cell)
            && self.values.is_empty()
        {
            self.numbers.push(number)?;
        } else {
            let value = cell.to_value(self.allocator())?;
            self.values.push(value)?;
        }
        Ok(())
    }

    /// Takes away the cells past the first `count`.
    pub fn truncate(&mut self, count: usize)
        ensures { self.new ≡ take count self.old }
    {
        self.values
            .truncate(count.saturating_sub(self.numbers.len()));
        self.numbers.truncate(count);
    }

    /// The cell at a place, NULL past the end.
    pub fn cell(&self, place: usize) -> CellRef<'_>
        ensures { seen result ≡ cell_at self.now place }
    {
        match self.numbers.get(place) {
            Some(number) => number_shown(*number),
            None => cell_shown(&self.values, place - self.numbers.len()),
        }
    }
}

/// A cell as a bare number or NULL, None where it is a text.
fn bare(cell: CellRef<'_>) -> Option<Option<i64>>
    ensures { IfSome result (λ number. number_cell number ≡ seen cell.entry) }
{
    match cell {
        CellRef::Null => Some(None),
        CellRef::Number(number) => Some(Some(number)),
        CellRef::Text(_) => None,
    }
}

/// The cell at a place of a list, NULL past its end.
fn cell_shown(cells: &[Value], place: usize) -> CellRef<'_>
    ensures { seen result ≡ cell_at cells.now place }
{
    match cells.get(place) {
        Some(cell) => shown(cell),
        None => CellRef::Null,
    }
}
