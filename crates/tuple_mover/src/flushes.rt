// The work of a flush.
ghost use Rattle.std.specs.Prelude.{◌≡◌, ◌<◌, ◌↔◌, ◌∷◌, [], ℕ, length, Contains, IfOk, OnOk};
ghost use Rattle.std.specs.List.Sorted.{IsStrictlySortedBy};
ghost use Rattle.cs_types.specs.Rows.{key_in};
ghost use Rattle.row_group.specs.Groups.{row_at, ArePlacesOf};
ghost use Rattle.group_book.specs.Book.Choice.{Flush};
ghost use Rattle.group_view.specs.Books.{choice_of};
ghost use Rattle.group_view.specs.Parts.{IsFitting};
ghost use Rattle.group_view.specs.Views.{endings_of};
ghost use Rattle.group_view.specs.Claims.{IsMarkedOf, IsMendable, IsPackedPart, IsProductOf, lent_entries};
ghost use Rattle.tuple_mover.specs.Flushed.{next_marks, place_cmp, IsEndedBy, HasMore};

use cs_base::{Items, Memory};
use cs_types::Key;
use delete_bitmap::Marks;
use delete_buffer::Ends;
use group_view::{Claim, GroupPart, Product};
use row_group::{Packed, Places};
use std::alloc::Global;
use std::sync::Arc;

/// Adds a position of an entry's key to the places, with the entry's number, where the entry ends the version there.
fn add_place(
    places: &mut Vec<(usize, u64)>,
    marks: &Marks,
    packed: &Packed,
    buffer: &Ends,
    position: usize,
    entry: (Key, u64),
) -> Result<(), Memory>
    requires within { position < length packed.now.rows }
    requires key { key_in packed.now.key (row_at packed.now position).cells ≡ entry.0 }
    ensures { OnOk result (HasMore (λ place. (place.0 ≡ position) × IsEndedBy (endings_of buffer.now) (record { key = entry.0; end = entry.1 } ∷ []) packed.now marks.now place) places.old.items places.new.items) }
{
    if marks.end(position).is_some() {
        return Ok(());
    }
    let Some(end) = buffer.ends(entry.0, packed.begin(position)) else {
        return Ok(());
    };
    if end != entry.1 {
        return Ok(());
    }
    places.push((position, end))?;
    Ok(())
}

/// Adds to the places the position of each version of a packed group that an entry ends, with its number. What was found are
/// the places of its key.
fn add_places(
    places: &mut Vec<(usize, u64)>,
    marks: &Marks,
    packed: &Packed,
    buffer: &Ends,
    found: Places,
    entry: (Key, u64),
) -> Result<(), Memory>
    requires { ArePlacesOf packed.now entry.0 found.from found.to }
    ensures { OnOk result (HasMore (IsEndedBy (endings_of buffer.now) (record { key = entry.0; end = entry.1 } ∷ []) packed.now marks.now) places.old.items places.new.items) }
{
    for place in found.from..found.to {
        add_place(places, marks, packed, buffer, packed.place(place), entry)?;
    }
    Ok(())
}

/// The position of each version of a packed group that an entry ends, with the entry's number, in the order of entries. Keys
/// that stand near each other are found from one to the next.
fn places_of(
    alloc: Global,
    marks: &Marks,
    packed: &Packed,
    buffer: &Ends,
    entries: &[(Key, u64)],
) -> Result<Vec<(usize, u64)>, Memory>
    ensures { IfOk result (λ places. HasMore (IsEndedBy (endings_of buffer.now) (endings_of entries.now) packed.now marks.now) [] places.items) }
{
    let mut places = Vec::new(alloc);
    let mut near = 0;
    for entry in entries {
        let found = packed.find_near(near, entry.0);
        near = found.from;
        add_places(&mut places, marks, packed, buffer, found, *entry)?;
    }
    Ok(places)
}

/// Puts places in the order of positions, each once.
pub(crate) fn sort_once(places: &mut Vec<(usize, u64)>)
    ensures order { IsStrictlySortedBy place_cmp places.new.items }
    ensures same { (place : ℕ × ℕ) → Contains places.new.items place ↔ Contains places.old.items place }
{
    places.sort_unstable();
    places.dedup();
}

/// The bitmap of a packed group with the entries' numbers as the ends of the versions that they end. They are sorted by
/// position, and marked in one pass.
fn marked_by(
    alloc: Global,
    packed: &Packed,
    marks: &Marks,
    buffer: &Ends,
    entries: &[(Key, u64)],
) -> Result<Marks, Memory>
    requires { length marks.now ≡ length packed.now.rows }
    ensures { IfOk result (λ marked. marked ≡ next_marks (endings_of buffer.now) (endings_of entries.now) packed.now.key packed.now.rows marks.now) }
{
    let mut places = places_of(alloc, marks, packed, buffer, entries)?;
    sort_once(&mut places);
    let mut marked = marks.copy()?;
    marked.mark_each(&places)?;
    Ok(marked)
}

/// The new bitmap of a source, with its id.
fn marked_source(
    alloc: Global,
    source: &(u64, GroupPart),
    claim: &Claim,
) -> Result<(u64, Arc<Marks>), Memory>
    requires fitting { IsFitting source.now.1 }
    requires packed { IsPackedPart source.now.1 }
    requires entries { endings_of claim.now.entries ≡ lent_entries claim.now }
    ensures { IfOk result (IsMarkedOf claim.now source.now) }
{
    match &source.1 {
        GroupPart::Packed(packed, marks) => {
            let (buffer, entries) = (&claim.view.buffer, claim.entries.as_slice());
            let marked = marked_by(alloc, packed, marks, buffer, entries)?;
            Ok((source.0, Arc::new(alloc, marked)?))
        }
        GroupPart::Store(_) => unreachable!(),
    }
}

/// The work of a flush: the bitmap of each source, in which each entry that the claim lends is the end of its version.
/// `Memory` comes only where there is no room for them.
pub fn locate(alloc: Global, claim: &Claim) -> Result<Product, Memory>
    requires mendable { IsMendable claim.now }
    requires kind { choice_of claim.now.choice ≡ Flush }
    ensures { IfOk result (IsProductOf claim.now) }
{
    let mut marked = Vec::new(alloc);
    for place in 0..claim.view.groups.len() {
        let source = claim.view.groups.at(place);
        marked.push(marked_source(alloc, source, claim)?)?;
    }
    Ok(Product::Marked(Items::from_vec(marked)))
}
