// The rows of a packed group into a partial answer: by the codes of its columns, or else one by one where the filter keeps them.
ghost use Rattle.std.specs.Prelude.{◌≡◌, ◌++◌, ◌<◌, ℕ, List, Bool, false, true, length, map, All, IfOk, OnOk, Some};
ghost use Rattle.std.specs.Bool.{OnTrue};
ghost use Rattle.std.specs.Option.{option_copied};
ghost use Rattle.cs_types.specs.declared.Value.{Value};
ghost use Rattle.batch_aggregate.specs.Standing.{StandsFor};
ghost use Rattle.batch_scan.specs.Reads.{AreShown};
ghost use Rattle.batch_scan.specs.Scans.{verdicts_of};
ghost use Rattle.code_tallies.specs.Shown.{is_shown, shown_rows};
ghost use Rattle.group_view.specs.Parts.{packed_versions, IsFitting};
ghost use Rattle.row_work.specs.Reads.{rowed_at, IsKnown};
ghost use Rattle.row_work.specs.Sieved.{read_in};

use crate::adding::add_versions;
use batch_aggregate::Partial;
use batch_filter::Sieve;
use batch_scan::{Shown, sieve_of};
use code_tallies::{Batch, EveryRow, tally_group};
use cs_base::Memory;
use cs_model::Query;
use cs_types::Schema;
use delete_bitmap::{Marks, Positions};
use group_view::Pinned;
use row_group::Packed;
use std::alloc::Global;

/// Whether a sieve keeps no row. Where there is none, each is kept.
fn keeps_none(sieve: &Option<Sieve>) -> bool
    ensures { OnTrue result ((position : ℕ) → is_shown sieve.now position ≡ false) }
{
    match sieve {
        Some(sieve) => sieve.is_nowhere(),
        None => false,
    }
}

/// Adds the rows of a group at some positions, or, where there is no set of them, at all of them, by codes. False where nothing has
/// changed, as `tally_group` has it.
fn tally_kept(
    alloc: Global,
    partial: &mut Partial<'_>,
    packed: &Packed,
    shown: Option<&Positions>,
    sieve: &Option<Sieve>,
    batch: &mut Option<Batch>,
) -> Result<bool, Memory>
    requires { sieve.now ≡ verdicts_of partial.old.schema.now partial.old.query.now.filter packed.now }
    ensures schema { partial.new.schema.now ≡ partial.old.schema.now }
    ensures query { partial.new.query.now ≡ partial.old.query.now }
    ensures tallied { (rows : List (List Value)) → StandsFor partial.old rows → IfOk result (λ done. done ≡ true → StandsFor partial.new (rows ++ shown_rows packed.now (option_copied shown.entry))) }
    ensures declined { IfOk result (λ done. done ≡ false → partial.new ≡ partial.old) }
{
    let room = batch.get_or_insert_with(Batch::new);
    match sieve {
        Some(sieve) => tally_group(alloc, partial, packed, shown, sieve, room),
        None => tally_group(alloc, partial, packed, shown, &EveryRow, room),
    }
}

/// Adds the rows of a group that are shown, by codes. False where nothing has changed: the group has other than `width` columns, or
/// as `tally_group` has it.
fn tally_shown(
    alloc: Global,
    partial: &mut Partial<'_>,
    packed: &Packed,
    width: usize,
    shown: &Shown,
    sieve: &Option<Sieve>,
    batch: &mut Option<Batch>,
) -> Result<bool, Memory>
    requires { sieve.now ≡ verdicts_of partial.old.schema.now partial.old.query.now.filter packed.now }
    ensures schema { partial.new.schema.now ≡ partial.old.schema.now }
    ensures query { partial.new.query.now ≡ partial.old.query.now }
    ensures wide { IfOk result (λ done. done ≡ true → All (λ row. length row.cells ≡ width) packed.now.rows) }
    ensures tallied { (flags : List Bool) (rows : List (List Value)) → AreShown flags shown.now → length flags ≡ length packed.now.rows → StandsFor partial.old rows
        → IfOk result (λ done. done ≡ true → StandsFor partial.new (rows ++ shown_rows packed.now (Some flags))) }
    ensures declined { IfOk result (λ done. done ≡ false → partial.new ≡ partial.old) }
{
    if packed.width() != width {
        return Ok(false);
    }
    match shown {
        Shown::Every => tally_kept(alloc, partial, packed, None, sieve, batch),
        Shown::Nowhere => Ok(true),
        Shown::Some(positions) => tally_kept(alloc, partial, packed, Some(positions), sieve, batch),
    }
}

/// Adds the rows of a packed group at the positions that are shown. The filter is judged once over the whole group, and where it
/// keeps no row nothing more is read.
fn add_positions(
    alloc: Global,
    partial: &mut Partial<'_>,
    schema: &Schema,
    query: &Query,
    pinned: &Pinned,
    group: usize,
    packed: &Packed,
    shown: Shown,
    batch: &mut Option<Batch>,
) -> Result<(), Memory>
    requires there { group < length pinned.now.view.groups }
    requires fitting { All (λ group. IsFitting group.1) pinned.now.view.groups }
    requires rows { map (λ rowed. rowed.row) (rowed_at pinned.now.view group) ≡ map (λ row. row.cells) packed.now.rows }
    requires shown { IsKnown pinned.now group (Some shown) }
    requires of_schema { partial.old.schema.now ≡ schema.now }
    requires of_query { partial.old.query.now ≡ query.now }
    ensures schema { partial.new.schema.now ≡ partial.old.schema.now }
    ensures query { partial.new.query.now ≡ partial.old.query.now }
    ensures added { (rows : List (List Value)) → StandsFor partial.old rows → OnOk result (StandsFor partial.new (rows ++ read_in (length schema.now.columns) pinned.now (rowed_at pinned.now.view group))) }
{
    let width = schema.columns.len();
    let filter = query.filter.as_ref();
    let sieve = sieve_of(alloc, filter, packed, schema)?;
    if keeps_none(&sieve) {
        return Ok(());
    }
    let is_tallied = tally_shown(alloc, partial, packed, width, &shown, &sieve, batch)?;
    if is_tallied {
        return Ok(());
    }
    let known = Some(shown);
    add_versions(alloc, partial, pinned, group, width, &known, &sieve)
}

/// Adds the rows of a packed group that are read, by verdicts of the filter.
pub fn add_packed(
    alloc: Global,
    partial: &mut Partial<'_>,
    schema: &Schema,
    query: &Query,
    pinned: &Pinned,
    group: usize,
    packed: &Packed,
    marks: &Marks,
    batch: &mut Option<Batch>,
) -> Result<(), Memory>
    requires there { group < length pinned.now.view.groups }
    requires fitting { All (λ group. IsFitting group.1) pinned.now.view.groups }
    requires versions { rowed_at pinned.now.view group ≡ packed_versions packed.now.key packed.now.rows marks.now }
    requires marks { length marks.now ≡ length packed.now.rows }
    requires of_schema { partial.old.schema.now ≡ schema.now }
    requires of_query { partial.old.query.now ≡ query.now }
    ensures schema { partial.new.schema.now ≡ partial.old.schema.now }
    ensures query { partial.new.query.now ≡ partial.old.query.now }
    ensures added { (rows : List (List Value)) → StandsFor partial.old rows → OnOk result (StandsFor partial.new (rows ++ read_in (length schema.now.columns) pinned.now (rowed_at pinned.now.view group))) }
{
    let shown = Shown::of(alloc, pinned, packed, marks)?;
    match shown {
        Shown::Nowhere => Ok(()),
        some => add_positions(
            alloc, partial, schema, query, pinned, group, packed, some, batch,
        ),
    }
}
