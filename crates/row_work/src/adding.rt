// Rows that are read one by one into a partial answer.
ghost use Rattle.std.specs.Prelude.{◌≡◌, ◌++◌, ◌<◌, List, length, All, IsSome, OnOk};
ghost use Rattle.std.specs.Map.{values_of};
ghost use Rattle.std.specs.Option.{option_and_then, option_to_list};
ghost use Rattle.cs_types.specs.declared.Value.{Value};
ghost use Rattle.batch_aggregate.specs.Standing.{StandsFor};
ghost use Rattle.code_tallies.specs.Shown.{is_shown};
ghost use Rattle.group_view.specs.Parts.{IsFitting};
ghost use Rattle.group_view.specs.Views.{version_at};
ghost use Rattle.row_work.specs.Reads.{read_row, rowed_at, IsKnown};
ghost use Rattle.row_work.specs.Sieved.{read_in, LosesNone};

use crate::reading::read_at;
use batch_aggregate::Partial;
use batch_filter::Sieve;
use batch_scan::Shown;
use cs_base::Memory;
use group_view::{Pinned, Place};
use std::alloc::Global;

/// Whether a sieve keeps the row at a position. Where there is none, each is kept.
fn is_kept(sieve: &Option<Sieve>, position: usize) -> bool
    ensures { result ≡ is_shown sieve.now position }
{
    match sieve {
        Some(sieve) => sieve.has(position),
        None => true,
    }
}

/// Adds the row of the version at a place, where it is read and the sieve keeps it, by what is known of its group. No other row is
/// made.
fn add_version(
    alloc: Global,
    partial: &mut Partial<'_>,
    pinned: &Pinned,
    place: Place,
    width: usize,
    known: &Option<Shown>,
    sieve: &Option<Sieve>,
) -> Result<(), Memory>
    requires there { IsSome (version_at pinned.now.view place) }
    requires known { IsKnown pinned.now place.group known.now }
    requires sieved { LosesNone width partial.old.schema.now partial.old.query.now.filter (rowed_at pinned.now.view place.group) sieve.now }
    ensures schema { partial.new.schema.now ≡ partial.old.schema.now }
    ensures query { partial.new.query.now ≡ partial.old.query.now }
    ensures added { (rows : List (List Value)) → StandsFor partial.old rows → OnOk result (StandsFor partial.new (rows ++ values_of (option_to_list (option_and_then (read_row width pinned.now) (version_at pinned.now.view place))))) }
{
    if !is_kept(sieve, place.position) {
        return Ok(());
    }
    let mut made = None;
    match read_at(alloc, pinned, place, width, known, &mut made)? {
        Some((_key, row)) => partial.add(row),
        None => Ok(()),
    }
}

/// Adds the rows of a group that are read, in so many cells, one by one, but for those that the sieve passes over.
pub fn add_versions(
    alloc: Global,
    partial: &mut Partial<'_>,
    pinned: &Pinned,
    group: usize,
    width: usize,
    known: &Option<Shown>,
    sieve: &Option<Sieve>,
) -> Result<(), Memory>
    requires there { group < length pinned.now.view.groups }
    requires fitting { All (λ group. IsFitting group.1) pinned.now.view.groups }
    requires known { IsKnown pinned.now group known.now }
    requires sieved { LosesNone width partial.old.schema.now partial.old.query.now.filter (rowed_at pinned.now.view group) sieve.now }
    ensures schema { partial.new.schema.now ≡ partial.old.schema.now }
    ensures query { partial.new.query.now ≡ partial.old.query.now }
    ensures added { (rows : List (List Value)) → StandsFor partial.old rows → OnOk result (StandsFor partial.new (rows ++ read_in width pinned.now (rowed_at pinned.now.view group))) }
{
    let len = pinned.view.groups.at(group).1.len();
    for position in 0..len {
        let place = Place { group, position };
        add_version(alloc, partial, pinned, place, width, known, sieve)?;
    }
    Ok(())
}
