ghost use Rattle.std.specs.Prelude.{◌≡◌, ◌+◌, ◌<◌, ℕ, length, slice_index_or, nat_lt, ◌&&◌, not, true, false, IfOk, [], ◌↔◌, IsTrue};
ghost use Rattle.std.specs.List.{list_any};
ghost use Rattle.batch_filter.specs.Sieves.{verdicts};

use crate::narrow::narrow;
use batch_kernels::{has_any, put_batch};
use cs_base::{Items, Memory};
use cs_model::Pred;
use cs_types::Schema;
use row_group::Packed;
use std::alloc::Global;
use std::marker::Model;

/// The verdicts of a predicate over a group: a bool for each row, true where the predicate is True. Contracts see their list.
#[derive(Debug, Drop)]
pub struct Sieve {
    verdicts: Items<bool>,
}

impl Model for Sieve {
    ghost use Rattle.std.specs.Prelude.{List, Bool};

    ghost Value = { List Bool };

    ghost view = { λ sieve. sieve.verdicts };
}

impl Sieve {
    /// The verdicts over each row of a group, deleted ones too. `Memory` comes where they find no room.
    pub fn of(alloc: Global, pred: &Pred, packed: &Packed, schema: &Schema) -> Result<Sieve, Memory>
        ensures { IfOk result (λ sieve. sieve ≡ verdicts schema.now pred.now packed.now) }
    {
        let mut mask = vec![in alloc; true; packed.len()]?;
        narrow(alloc, pred, true, packed, schema, &mut mask)?;
        Ok(Sieve {
            verdicts: Items::from_vec(mask),
        })
    }

    /// The verdicts.
    pub fn as_slice(&self) -> &[bool]
        ensures { result.now ≡ self.now }
    {
        self.verdicts.as_slice()
    }

    /// The number of rows.
    pub fn len(&self) -> usize
        ensures { result ≡ length self.now }
    {
        self.verdicts.len()
    }

    /// Whether there is no row.
    pub fn is_empty(&self) -> bool
        ensures { IsTrue result ↔ (self.now ≡ []) }
    {
        self.verdicts.is_empty()
    }

    /// Whether the predicate is True of no row.
    pub fn is_nowhere(&self) -> bool
        ensures { result ≡ not (list_any (λ verdict. verdict) self.now) }
    {
        !has_any(self.as_slice(), true)
    }

    /// Whether the predicate is True of every row.
    pub fn is_everywhere(&self) -> bool
        ensures { IsTrue result ↔ ((i : ℕ) → i < length self.now → slice_index_or self.now i false ≡ true) }
    {
        !has_any(self.as_slice(), false)
    }

    /// Whether the predicate is True of the row at a position. False past the end.
    pub fn has(&self, position: usize) -> bool
        ensures { result ≡ slice_index_or self.now position false }
    {
        match self.verdicts.get(position) {
            Some(verdict) => *verdict,
            None => false,
        }
    }

    /// Puts the verdicts of the `count` rows from one on into a batch, and false into its other places: those past the last row too.
    pub fn keep(&self, from: usize, count: usize, batch: &mut [bool; 1024])
        ensures { (i : ℕ) → i < 1024 → slice_index_or batch.new i false ≡ (nat_lt i count && slice_index_or self.now (from + i) false) }
    {
        put_batch(self.as_slice(), from, count, batch);
    }
}
