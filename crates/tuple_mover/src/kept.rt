// What a new group keeps of the versions that a claim lends.
ghost use Rattle.std.specs.Prelude.{◌≡◌, ◌<◌, ◌+◌, ◌^◌, ◌++◌, ◌∷◌, [], ℕ, List, map, length, All, IfOk, OnOk, if◌then◌else◌};
ghost use Rattle.group_view.specs.Parts.{Rowed, lived_version, end_of_mark, rowed_in, packed_versions, stored_versions, IsFitting};
ghost use Rattle.group_view.specs.Views.{endings_of, buffer_of, rowed_of};
ghost use Rattle.group_view.specs.Claims.{IsMendable};
ghost use Rattle.delete_bitmap.specs.Marks.{end_at};
ghost use Rattle.tuple_mover.specs.Kept.{is_left_out, kept_of, rowed_at, number_of, placed_end, placed_ends, StandIn, HasKept};

use cs_base::Memory;
use cs_types::Key;
use delete_bitmap::{MarkedEnd, Marks};
use delete_buffer::Ends;
use delta_store::Frozen;
use group_view::{Claim, GroupPart, has_ended, is_buffered, stamp_of};
use row_group::{Packed, Packer};
use std::alloc::Global;

/// Rows on the way to a group, in the order in which they are added, and the numbers of the ends of those that have one, each with
/// the place of its row.
#[derive(Drop)]
pub(crate) struct Kept {
    pub(crate) packer: Packer,
    pub(crate) ends: Vec<(usize, u64)>,
}

/// Whether a version had ended by the floor: by its recorded end or, where it has none, by an entry of the buffer.
fn is_left_out(key: Key, begin: u64, end: Option<MarkedEnd>, buffer: &Ends, floor: u64) -> bool
    ensures { result ≡ is_left_out floor (endings_of buffer.now) (record { key = key; begin = begin; end = end_of_mark end }) }
{
    match end {
        None => is_buffered(buffer, key, begin, floor),
        Some(end) => has_ended(floor, Some(end)),
    }
}

/// The number of a recorded end. None where it is plain, or there is no end.
fn number_of(end: Option<MarkedEnd>) -> Option<u64>
    ensures { result ≡ number_of (end_of_mark end) }
{
    match end {
        Some(MarkedEnd::Stamped(commit)) => Some(commit),
        Some(MarkedEnd::Plain) => None,
        None => None,
    }
}

/// Notes the number of the end of the version at a place, where it has one.
fn note_end(ends: &mut Vec<(usize, u64)>, place: usize, end: Option<u64>) -> Result<(), Memory>
    ensures { OnOk result (ends.new.items ≡ ends.old.items ++ placed_end place end) }
{
    if let Some(number) = end {
        ends.push((place, number))?;
    }
    Ok(())
}

/// Keeps the version at a position of a store, unless it had ended by the floor.
fn keep_stored(
    kept: &mut Kept,
    store: &Frozen,
    position: usize,
    buffer: &Ends,
    floor: u64,
) -> Result<(), Memory>
    requires { position < length store.now }
    ensures { (width : ℕ) (rowed : List Rowed) → HasKept width rowed kept.old → OnOk result (HasKept width (rowed ++ kept_of floor (endings_of buffer.now) (rowed_at (stored_versions store.now) position ∷ [])) kept.new) }
{
    let (key, version) = (store.key(position), store.get(position));
    if is_left_out(key, version.begin, stamp_of(version.end), buffer, floor) {
        return Ok(());
    }
    let place = kept.packer.len();
    note_end(&mut kept.ends, place, version.end)?;
    kept.packer.add(&version.row, version.begin)
}

/// Keeps the versions of a store that had not ended by the floor, in one pass over it.
fn keep_store(kept: &mut Kept, store: &Frozen, buffer: &Ends, floor: u64) -> Result<(), Memory>
    ensures { (width : ℕ) (rowed : List Rowed) → HasKept width rowed kept.old → OnOk result (HasKept width (rowed ++ kept_of floor (endings_of buffer.now) (stored_versions store.now)) kept.new) }
{
    // About so many are kept: those without a recorded end.
    let live = store.len().saturating_sub(store.ended());
    kept.packer.reserve(live)?;
    for position in 0..store.len() {
        keep_stored(kept, store, position, buffer, floor)?;
    }
    Ok(())
}

/// The positions of the versions that are kept of a packed group.
fn kept_positions(
    alloc: Global,
    packed: &Packed,
    marks: &Marks,
    buffer: &Ends,
    floor: u64,
) -> Result<Vec<usize>, Memory>
    requires { length marks.now ≡ length packed.now.rows }
    ensures { IfOk result (λ positions. StandIn (packed_versions packed.now.key packed.now.rows marks.now) (kept_of floor (endings_of buffer.now) (packed_versions packed.now.key packed.now.rows marks.now)) positions.items) }
{
    let mut positions = Vec::new(alloc);
    for position in 0..packed.len() {
        let (key, begin) = (packed.key_at(position), packed.begin(position));
        if !is_left_out(key, begin, marks.end(position), buffer, floor) {
            positions.push(position)?;
        }
    }
    Ok(positions)
}

/// Notes the numbers of the ends that a bitmap has at some positions, of versions of which the first stands at this place.
fn note_ends(
    ends: &mut Vec<(usize, u64)>,
    first: usize,
    marks: &Marks,
    positions: &[usize],
) -> Result<(), Memory>
    requires { first + length positions.now < 2 ^ 64 }
    ensures { (rowed : List Rowed) → map (λ version. version.version.end) rowed ≡ map (λ position. end_of_mark (end_at marks.now position)) positions.now → OnOk result (ends.new.items ≡ ends.old.items ++ placed_ends first rowed) }
{
    for i in 0..positions.len() {
        let end = marks.end(positions[i]);
        note_end(ends, first + i, number_of(end))?;
    }
    Ok(())
}

/// Keeps the versions of a packed group that had not ended by the floor.
fn keep_packed(
    kept: &mut Kept,
    packed: &Packed,
    marks: &Marks,
    buffer: &Ends,
    floor: u64,
) -> Result<(), Memory>
    requires { length marks.now ≡ length packed.now.rows }
    ensures { (width : ℕ) (rowed : List Rowed) → HasKept width rowed kept.old → OnOk result (HasKept width (rowed ++ kept_of floor (endings_of buffer.now) (packed_versions packed.now.key packed.now.rows marks.now)) kept.new) }
{
    let alloc = *kept.ends.allocator();
    let positions = kept_positions(alloc, packed, marks, buffer, floor)?;
    kept.packer.add_packed(packed, &positions)?;
    let first = kept.packer.len() - positions.len();
    note_ends(&mut kept.ends, first, marks, &positions)
}

/// Keeps the versions of a group that had not ended by the floor.
fn keep_part(kept: &mut Kept, part: &GroupPart, buffer: &Ends, floor: u64) -> Result<(), Memory>
    requires { IsFitting part.now }
    ensures { (width : ℕ) (rowed : List Rowed) → HasKept width rowed kept.old → OnOk result (HasKept width (rowed ++ kept_of floor (endings_of buffer.now) (rowed_in part.now)) kept.new) }
{
    match part {
        GroupPart::Packed(packed, marks) => keep_packed(kept, packed, marks, buffer, floor),
        GroupPart::Store(store) => keep_store(kept, store, buffer, floor),
    }
}

/// Keeps the versions that the claim lends and that had not ended by its floor, in their order.
pub(crate) fn kept_rows(alloc: Global, claim: &Claim) -> Result<Kept, Memory>
    requires { IsMendable claim.now }
    ensures { IfOk result (HasKept (length claim.now.schema.value.columns) (kept_of claim.now.floor (buffer_of claim.now.view) (rowed_of claim.now.view))) }
{
    let mut kept = Kept {
        packer: Packer::new(alloc, claim.schema.columns.len())?,
        ends: Vec::new(alloc),
    };
    for place in 0..claim.view.groups.len() {
        let part = claim.view.groups.at(place);
        keep_part(&mut kept, &part.1, &claim.view.buffer, claim.floor)?;
    }
    Ok(kept)
}
