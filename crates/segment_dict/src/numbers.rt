ghost use Rattle.std.specs.Prelude.{◌≡◌, ◌^◌, ◌<◌, ◌↔◌, All, Some, length, slice_get, IfOk, IsSome, IfSome};
ghost use Rattle.std.specs.Bool.{OnTrue};
ghost use Rattle.std.specs.Ordering.{int_cmp};
ghost use Rattle.segment_dict.specs.Dictionaries.{Ascends, IsDictOf, HasCell, IsCodeOf, IsPlaceOf, AreCodesOf, cell_of, codes_of};

use crate::directory::Directory;
use crate::distinct::has_null;
use crate::marks::distinct_numbers;
use cs_base::{Items, Memory};
use std::alloc::Global;

/// A sorted dictionary of numbers.
#[derive(Debug, Drop)]
pub struct NumberDict {
    /// The distinct numbers, ascending.
    pub entries: Items<i64>,
    /// Whether a cell is NULL, which then has code 0.
    pub nulls: bool,
    ghost ascending: { Ascends int_cmp entries },
}

/// The dictionary of the cells. `Memory` comes where there is no room for it.
pub fn numbers_of(alloc: Global, cells: &[Option<i64>]) -> Result<NumberDict, Memory>
    ensures { IfOk result (λ dict. IsDictOf int_cmp cells.now dict.entries dict.nulls) }
{
    Ok(NumberDict {
        entries: Items::from_vec(distinct_numbers(alloc, cells)?),
        nulls: has_null(cells),
    })
}

impl NumberDict {
    /// The code of a cell, None where the dictionary does not have the cell.
    pub fn code_of(&self, cell: Option<i64>) -> Option<u64>
        ensures there { IsSome result ↔ HasCell self.now.entries self.now.nulls cell }
        ensures code { IfSome result (IsCodeOf self.now.entries self.now.nulls cell) }
    {
        let Some(number) = cell else {
            return if self.nulls { Some(0) } else { None };
        };
        let place = self.place_of(number)?;
        Some(place as u64 + u64::from(self.nulls))
    }

    /// The codes of cells that the dictionary has, one after another. `Memory` comes where there is no room for them.
    pub fn codes(&self, alloc: Global, cells: &[Option<i64>]) -> Result<Vec<u64>, Memory>
        requires { All (HasCell self.now.entries self.now.nulls) cells.now }
        ensures { IfOk result (λ codes. AreCodesOf self.now.entries self.now.nulls cells.now codes.items) }
    {
        let directory = Directory::new(alloc, self.entries.as_slice())?;
        let mut codes = Vec::with_capacity(alloc, cells.len())?;
        for cell in cells {
            codes.push(self.code_near(&directory, *cell))?;
        }
        Ok(codes)
    }

    /// The code of a cell that the dictionary has: where the directory guesses, else by a search among all entries.
    fn code_near(&self, directory: &Directory, cell: Option<i64>) -> u64
        requires { HasCell self.now.entries self.now.nulls cell }
        ensures { IsCodeOf self.now.entries self.now.nulls cell result }
    {
        if let Some(number) = cell {
            let place = directory.guess(self.entries.as_slice(), number);
            if self.stands_at(place, number) {
                return place as u64 + u64::from(self.nulls);
            }
        }
        self.code_of(cell).unwrap()
    }

    /// Whether the entry at a place is the number.
    fn stands_at(&self, place: usize, number: i64) -> bool
        ensures { OnTrue result ((place < 2 ^ 63) × (slice_get self.now.entries place ≡ Some number)) }
    {
        self.entries.as_slice().get(place).copied() == Some(number)
    }

    /// The place of a number among the entries.
    fn place_of(&self, number: i64) -> Option<usize>
        ensures place { IsPlaceOf self.now.entries number result }
        ensures small { IfSome result (λ place. place < 2 ^ 63) }
    {
        self.entries.as_slice().binary_search(&number).ok()
    }

    /// The cell of one of the dictionary's codes.
    pub fn entry(&self, code: u64) -> Option<i64>
        requires { code < codes_of self.now.entries self.now.nulls }
        ensures { result ≡ cell_of self.now.entries self.now.nulls code }
    {
        let null_codes = u64::from(self.nulls);
        if code < null_codes {
            return None;
        }
        Some(*self.entries.at((code - null_codes) as usize))
    }

    /// What the entries cost in words of 64 bits: one each.
    pub fn words(&self) -> u64
        ensures words { result ≡ length self.now.entries }
        ensures small { result < 2 ^ 63 }
    {
        self.entries.as_slice().len() as u64
    }
}
