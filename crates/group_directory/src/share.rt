// Shares of groups, for views and claims.
ghost use Rattle.std.specs.Prelude.{◌≡◌, map, filter, All, IfOk};
ghost use Rattle.group_view.specs.Books.{book_of};
ghost use Rattle.group_view.specs.Lists.{listed, packed_in, IsFittingContent, IsHeld};
ghost use Rattle.group_view.specs.Parts.{packed_parts, IsFitting};
ghost use Rattle.group_view.specs.Seen.{entry_of, packed_seen, part_entry, seen, shows};
ghost use Rattle.group_directory.specs.Sharing.{is_next, picks, AreNamed, AreSharesOf, IsSameList, IsViewOf};

use cs_base::Memory;
use group_view::{Group, GroupList, GroupPart, GroupView, Groups, add_part};
use shared_list::SharedList;
use std::alloc::Global;

/// Shares of all groups that a view shows, and the whole buffer. After `Memory` the list is the same, but that some stores may
/// be ones that can be shared.
fn share_view(
    alloc: Global,
    list: &mut GroupList,
    floor: u64,
    clock: u64,
) -> Result<GroupView, Memory>
    requires { IsHeld list.old }
    ensures same { IsSameList list.old list.new }
    ensures view { IfOk result (IsViewOf shows list.old floor clock) }
{
    let groups = list.groups.share(alloc)?;
    let buffer = list.buffer.copy()?;
    Ok(GroupView {
        groups,
        buffer,
        floor,
        clock,
    })
}

/// The view of this moment: all groups that it shows, and the whole buffer. The first view after a change of the buffer copies
/// its recent entries, and the settled ones where these have changed; of the groups it shares what has not changed since the last
/// view, a chunk at a time, and no version, nor a pair of a store's index, is copied. After `Memory` the list stands for the same
/// book, with the same rows. Larson et al., PVLDB 2015, section 4, read groups, bitmaps and the delete buffer of one moment in the
/// same way.
pub(crate) fn view_of(
    alloc: Global,
    list: &mut GroupList,
    floor: u64,
    clock: u64,
) -> Result<GroupView, Memory>
    requires { IsHeld list.old }
    ensures same { IsSameList list.old list.new }
    ensures book { book_of list.new ≡ book_of list.old }
    ensures held { IsHeld list.new }
    ensures listed { listed list.new.groups.items ≡ listed list.old.groups.items }
    ensures kept { packed_in list.new.groups.items ≡ packed_in list.old.groups.items }
    ensures view { IfOk result (IsViewOf shows list.old floor clock) }
    ensures shown { IfOk result (λ view. map part_entry view.groups ≡ listed list.old.groups.items) }
    ensures packed { IfOk result (λ view. packed_parts view.groups ≡ packed_in list.old.groups.items) }
{
    share_view(alloc, list, floor, clock)
}

/// Whether the next source is the group of this id.
fn is_next(sources: &[u64], next: usize, id: u64) -> bool
    ensures { result ≡ is_next sources.now next id }
{
    match sources.get(next) {
        Some(source) => *source == id,
        None => false,
    }
}

/// Shares of the groups of these ids, which come in this order, each once, and are groups that a view shows.
fn share_sources(
    alloc: Global,
    groups: &mut [Group],
    sources: &[u64],
) -> Result<Vec<(u64, GroupPart)>, Memory>
    requires fitting { All (λ group. IsFittingContent group.content) groups.old }
    requires named { AreNamed sources.now (map seen groups.old) }
    ensures seen { map seen groups.new ≡ map seen groups.old }
    ensures kept { All (λ group. IsFittingContent group.content) groups.new }
    ensures parts { IfOk result (λ parts. map part_entry parts.items ≡ map entry_of (filter (picks sources.now) (map seen groups.old))) }
    ensures packed { IfOk result (λ parts. packed_parts parts.items ≡ packed_seen (filter (picks sources.now) (map seen groups.old))) }
    ensures fitting { IfOk result (λ parts. All (λ part. IsFitting part.1) parts.items) }
{
    let mut parts = Vec::new(alloc);
    for group in groups.iter_mut() {
        if is_next(sources, parts.len(), group.id) {
            add_part(alloc, group, &mut parts)?;
        }
    }
    Ok(parts)
}

/// The same of a list's groups. After `Memory` the list has the same groups.
fn share_some(
    alloc: Global,
    list: &mut GroupList,
    sources: &[u64],
) -> Result<SharedList<(u64, GroupPart)>, Memory>
    requires held { IsHeld list.old }
    requires named { AreNamed sources.now (map seen list.old.groups.items) }
    ensures same { IsSameList list.old list.new }
    ensures shown { IfOk result (AreSharesOf (picks sources.now) list.old) }
{
    let mut groups = list.groups.take();
    let parts = share_sources(alloc, &mut groups, sources);
    list.groups = Groups::from_vec(groups);
    SharedList::from_vec(alloc, parts?)
}

/// The view of the groups of these ids alone, which come in this order, each once, and are groups that a view shows; with the
/// whole buffer. After `Memory` the list stands for the same book, with the same rows.
pub(crate) fn view_of_sources(
    alloc: Global,
    list: &mut GroupList,
    sources: &[u64],
    floor: u64,
    clock: u64,
) -> Result<GroupView, Memory>
    requires held { IsHeld list.old }
    requires named { AreNamed sources.now (map seen list.old.groups.items) }
    ensures same { IsSameList list.old list.new }
    ensures view { IfOk result (IsViewOf (picks sources.now) list.old floor clock) }
{
    let groups = share_some(alloc, list, sources)?;
    let buffer = list.buffer.copy()?;
    Ok(GroupView {
        groups,
        buffer,
        floor,
        clock,
    })
}
