ghost use Rattle.std.specs.Prelude.{◌≡◌, ◌+◌, ◌/◌, ◌^◌, ◌<◌, ◌↔◌, length, map, IfOk, IsSome, IfSome, IsTrue, slice_get, slice_index, Some, ◌∷◌};
ghost use Rattle.std.specs.Ordering.{nat_cmp};
ghost use Rattle.std.specs.Option.{option_copied};
ghost use Rattle.std.specs.Cmp.Lexicographic.{slice_cmp};
ghost use Rattle.segment_dict.specs.Dictionaries.{Ascends, IsDictOf, HasCell, IsCodeOf, IsPlaceOf, cell_of, codes_of};
ghost use Rattle.segment_dict.specs.Texts.{texts_in, ends_rise};

use crate::distinct::{distinct, has_null};
use cs_base::{Items, Memory};
use std::alloc::Global;
use std::cmp::Ordering;

/// A sorted dictionary of texts, which stand side by side in one list of bytes.
#[derive(Debug, Drop)]
pub struct TextDict {
    /// The place in the bytes after each text, in the order of the texts.
    pub ends: Items<u64>,
    /// The distinct texts, ascending by their bytes, joined.
    pub bytes: Items<u8>,
    /// Whether a cell is NULL, which then has code 0.
    pub nulls: bool,
    ghost joined: { IsTrue (ends_rise 0 ends (length bytes)) },
    ghost ascending: { Ascends (slice_cmp nat_cmp) (texts_in ends bytes) },
}

/// The dictionary of the cells. `Memory` comes where there is no room for it.
pub fn texts_of(alloc: Global, cells: &[Option<&[u8]>]) -> Result<TextDict, Memory>
    ensures { IfOk result (λ dict. IsDictOf (slice_cmp nat_cmp) (map option_copied cells.now) (texts_in dict.ends dict.bytes) dict.nulls) }
{
    let texts = distinct(alloc, cells)?;
    joined_texts(alloc, texts.as_slice(), has_null(cells))
}

/// The dictionary of ascending texts, and of NULL too where `nulls`. `Memory` comes where there is no room for it.
pub fn joined_texts(alloc: Global, texts: &[&[u8]], nulls: bool) -> Result<TextDict, Memory>
    requires { Ascends (slice_cmp nat_cmp) (map (λ text. text.now) texts.now) }
    ensures { IfOk result (λ dict. (texts_in dict.ends dict.bytes ≡ map (λ text. text.now) texts.now) × (dict.nulls ≡ nulls)) }
{
    let mut ends = Vec::new(alloc);
    let mut bytes = Vec::new(alloc);
    for text in texts {
        bytes.extend_from_slice(text)?;
        ends.push(bytes.len() as u64)?;
    }
    Ok(TextDict {
        ends: Items::from_vec(ends),
        bytes: Items::from_vec(bytes),
        nulls,
    })
}

impl TextDict {
    /// The code of a cell, None where the dictionary does not have the cell.
    pub fn code_of(&self, cell: Option<&[u8]>) -> Option<u64>
        ensures there { IsSome result ↔ HasCell (texts_in self.now.ends self.now.bytes) self.now.nulls (option_copied cell.entry) }
        ensures code { IfSome result (IsCodeOf (texts_in self.now.ends self.now.bytes) self.now.nulls (option_copied cell.entry)) }
    {
        let Some(text) = cell else {
            return if self.nulls { Some(0) } else { None };
        };
        let place = self.place_of(text)?;
        Some(place as u64 + u64::from(self.nulls))
    }

    /// The place of a text among the entries, by binary search.
    fn place_of(&self, text: &[u8]) -> Option<usize>
        ensures place { IsPlaceOf (texts_in self.now.ends self.now.bytes) text.now result }
        ensures small { IfSome result (λ place. place < 2 ^ 63) }
    {
        let mut low = 0;
        let mut high = self.ends.as_slice().len();
        while low < high {
            let middle = low + (high - low) / 2;
            match self.text(middle).cmp(&text) {
                Ordering::Less => low = middle + 1,
                Ordering::Equal => return Some(middle),
                Ordering::Greater => high = middle,
            }
        }
        None
    }

    /// The text at a place among the entries.
    fn text(&self, place: usize) -> &[u8]
        requires { place < length self.now.ends }
        ensures { slice_get (texts_in self.now.ends self.now.bytes) place ≡ Some result.now }
    {
        let end = *self.ends.at(place) as usize;
        &self.bytes.as_slice()[self.start(place)..end]
    }

    /// Where the text at a place begins: where the one before it ends.
    fn start(&self, place: usize) -> usize
        requires { place < length self.now.ends }
        ensures { result ≡ slice_index (0 ∷ self.now.ends) place }
    {
        if place == 0 {
            0
        } else {
            *self.ends.at(place - 1) as usize
        }
    }

    /// The cell of one of the dictionary's codes.
    pub fn entry(&self, code: u64) -> Option<&[u8]>
        requires { code < codes_of (texts_in self.now.ends self.now.bytes) self.now.nulls }
        ensures { option_copied result ≡ cell_of (texts_in self.now.ends self.now.bytes) self.now.nulls code }
    {
        let null_codes = u64::from(self.nulls);
        if code < null_codes {
            return None;
        }
        Some(self.text((code - null_codes) as usize))
    }

    /// What the entries cost in words of 64 bits: one for each end, and the joined bytes, 8 to a word.
    pub fn words(&self) -> u64
        ensures words { result ≡ length self.now.ends + (length self.now.bytes + 7) / 8 }
        ensures small { result < 2 ^ 63 }
    {
        let ends = self.ends.as_slice().len() as u64;
        let bytes = self.bytes.as_slice().len() as u64;
        ends + bytes.div_ceil(8)
    }
}
