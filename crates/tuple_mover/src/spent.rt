// The entries of the delete buffer that go with versions that are left out.
ghost use Rattle.std.specs.Prelude.{◌≡◌, ◌++◌, ◌∷◌, [], ℕ, List, filter, nat_le, IfOk};
ghost use Rattle.delete_buffer.specs.Entries.{AreInOrder};
ghost use Rattle.group_book.specs.Book.{Version, Ending};
ghost use Rattle.group_view.specs.Parts.{lived_version, versions_in, IsFitting};
ghost use Rattle.group_view.specs.Views.{endings_of};
ghost use Rattle.group_view.specs.Claims.{lent_entries, IsMendable};
ghost use Rattle.tuple_mover.specs.Spent.{spent_by};

use cs_base::Memory;
use cs_types::Key;
use delete_buffer::{Ends, merged};
use group_view::{Claim, GroupPart, Lived, marked};
use std::alloc::Global;

/// Marks the entry that ends the version, where the version has no recorded end and the entry is at most the floor.
fn spend(spent: &mut Vec<bool>, lived: &Lived, buffer: &Ends, entries: &[(Key, u64)], floor: u64)
    requires entries { entries.now ≡ buffer.now }
    requires order { AreInOrder entries.now }
    requires spent { (versions : List Version) × (spent.old.items ≡ spent_by floor (endings_of buffer.now) versions) }
    ensures { (versions : List Version) → spent.old.items ≡ spent_by floor (endings_of buffer.now) versions → spent.new.items ≡ spent_by floor (endings_of buffer.now) (versions ++ lived_version lived.now ∷ []) }
{
    if lived.end.is_some() {
        return;
    }
    let Some(end) = buffer.ends(lived.key, lived.begin) else {
        return;
    };
    if end > floor {
        return;
    }
    match entries.binary_search(&(lived.key, end)) {
        Ok(place) => spent[place] = true,
        Err(_) => unreachable!(),
    }
}

/// Marks the entries that end versions of a group by the floor.
fn spend_part(
    spent: &mut Vec<bool>,
    part: &GroupPart,
    buffer: &Ends,
    entries: &[(Key, u64)],
    floor: u64,
)
    requires entries { entries.now ≡ buffer.now }
    requires order { AreInOrder entries.now }
    requires fitting { IsFitting part.now }
    requires spent { (versions : List Version) × (spent.old.items ≡ spent_by floor (endings_of buffer.now) versions) }
    ensures { (versions : List Version) → spent.old.items ≡ spent_by floor (endings_of buffer.now) versions → spent.new.items ≡ spent_by floor (endings_of buffer.now) (versions ++ versions_in part.now) }
{
    for position in 0..part.len() {
        let lived = part.version(position);
        spend(spent, &lived, buffer, entries, floor);
    }
}

/// The entries of the buffer that end lent versions by the claim's floor, in the buffer's order.
pub(crate) fn spent(alloc: Global, claim: &Claim) -> Result<Vec<(Key, u64)>, Memory>
    requires { IsMendable claim.now }
    ensures { IfOk result (λ spent. endings_of spent.items ≡ filter (λ (entry : Ending). nat_le entry.end claim.now.floor) (lent_entries claim.now)) }
{
    let buffer = &claim.view.buffer;
    let entries = merged(alloc, buffer.parts())?;
    if entries.is_empty() {
        return Ok(Vec::new(alloc));
    }
    let mut spent = vec![in alloc; false; entries.len()]?;
    for place in 0..claim.view.groups.len() {
        let part = claim.view.groups.at(place);
        spend_part(&mut spent, &part.1, buffer, &entries, claim.floor);
    }
    marked(alloc, &entries, &spent)
}
