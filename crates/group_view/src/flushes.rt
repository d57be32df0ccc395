// What a flush lends and claims.
ghost use Rattle.std.specs.Prelude.{◌≡◌, ◌++◌, ◌∷◌, [], Bool, nat_le, if◌then◌else◌, false, filter, length, map, All, IfOk, OnOk};
ghost use Rattle.std.specs.List.{list_any};
ghost use Rattle.delete_buffer.specs.Entries.{AreInOrder, Entry};
ghost use Rattle.group_book.specs.Book.{Ending, frozen};
ghost use Rattle.group_book.specs.Choices.{flush_sources, flushable, free_packed};
ghost use Rattle.group_book.specs.Turns.{ends};
ghost use Rattle.group_view.specs.Books.{book_of};
ghost use Rattle.group_view.specs.Lists.{IsFittingContent, IsHeld};
ghost use Rattle.group_view.specs.Views.{endings_of};

use crate::claimed::is_claimed;
use crate::ended::{has_entry, note_ends};
use crate::groups::GroupList;
use cs_base::{Items, Memory};
use cs_types::Key;
use delete_buffer::merged;
use std::alloc::Global;

/// Whether a flush has an entry to write: whether one ends a version of a COMPRESSED group that no claim has. Claims are asked only
/// of a group in which one does. The newest groups come first, as most versions that end stand in these where rows are changed
/// often.
pub fn has_flushable(list: &GroupList) -> bool
    requires { All (λ group. IsFittingContent group.content) list.now.groups.items }
    ensures { result ≡ nat_le 1 (length (flushable (book_of list.now))) }
{
    let mut place = list.groups.len();
    while place > 0 {
        place -= 1;
        let group = &list.groups.as_slice()[place];
        if has_entry(group, &list.buffer) && !is_claimed(&list.claims, group.id) {
            return true;
        }
    }
    false
}

/// What a flush claims and lends.
#[derive(Debug, Drop)]
pub struct Flush {
    /// The ids of the groups in which versions of its entries lie, in order.
    pub sources: Items<u64>,
    /// The entries that it writes, in the buffer's order.
    pub entries: Items<(Key, u64)>,
}

/// Notes the buffer's entries whose versions lie in COMPRESSED groups that no claim has, and gives the ids of these groups, in
/// order.
fn note_all(
    alloc: Global,
    list: &GroupList,
    entries: &[(Key, u64)],
    noted: &mut [bool],
) -> Result<Items<u64>, Memory>
    requires held { IsHeld list.now }
    requires entries { entries.now ≡ list.now.buffer.entries }
    requires order { AreInOrder entries.now }
    requires none { noted.old ≡ map (λ (entry : Ending). false) (book_of list.now).buffer }
    ensures sources { IfOk result (λ ids. ids ≡ flush_sources (book_of list.now)) }
    ensures noted { OnOk result (noted.new ≡ map (λ (entry : Ending). list_any (ends (book_of list.now).buffer entry) (frozen (free_packed (book_of list.now)))) (book_of list.now).buffer) }
{
    let mut sources = Items::new(alloc);
    for group in list.groups.as_slice() {
        if !is_claimed(&list.claims, group.id) && note_ends(group, &list.buffer, entries, noted) {
            sources.push(group.id)?;
        }
    }
    Ok(sources)
}

/// Adds a marked entry.
fn add_marked(some: &mut Vec<(Key, u64)>, entry: (Key, u64), mark: bool) -> Result<(), Memory>
    ensures { OnOk result (some.new.items ≡ some.old.items ++ (if mark then entry ∷ [] else [])) }
{
    if mark {
        some.push(entry)?;
    }
    Ok(())
}

/// The marked ones of some entries, in their order.
pub fn marked(
    alloc: Global,
    entries: &[(Key, u64)],
    marks: &[bool],
) -> Result<Vec<(Key, u64)>, Memory>
    requires { (p : Ending → Bool) × (marks.now ≡ map p (endings_of entries.now)) }
    ensures { (p : Ending → Bool) → marks.now ≡ map p (endings_of entries.now) → IfOk result (λ some. some.items ≡ filter (λ (entry : Entry). p (record { key = entry.0; end = entry.1 })) entries.now) }
{
    let mut some = Vec::new(alloc);
    for (i, entry) in entries.iter().enumerate() {
        add_marked(&mut some, *entry, marks[i])?;
    }
    Ok(some)
}

/// What a flush claims and lends: the entries whose versions lie in COMPRESSED groups that no claim has, whatever their numbers,
/// and these groups. Each group is asked only for the entries of keys from its least to its greatest, in one walk over both.
/// Larson et al., PVLDB 2015, section 4.
pub fn flush_of(alloc: Global, list: &GroupList) -> Result<Flush, Memory>
    requires { IsHeld list.now }
    ensures sources { IfOk result (λ flush. flush.sources ≡ flush_sources (book_of list.now)) }
    ensures entries { IfOk result (λ flush. endings_of flush.entries ≡ flushable (book_of list.now)) }
    ensures order { IfOk result (λ flush. AreInOrder flush.entries) }
{
    let entries = merged(alloc, list.buffer.parts())?;
    let mut noted = vec![in alloc; false; entries.len()]?;
    let sources = note_all(alloc, list, &entries, &mut noted)?;
    Ok(Flush {
        sources,
        entries: Items::from_vec(marked(alloc, &entries, &noted)?),
    })
}
