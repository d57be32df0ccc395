// The lowest group that a turn may take, and whether there is one at all.
ghost use Rattle.std.specs.Prelude.{◌≡◌, ◌≤◌, ◌+◌, ◌&&◌, nat_le, length, All};
ghost use Rattle.group_book.specs.Book.{is_closed, is_compressed, is_tombstone};
ghost use Rattle.group_book.specs.Choices.{free, free_packed, is_thin, lowest, settling_count, tombstone_count};
ghost use Rattle.group_view.specs.Books.{book_of, group_of};
ghost use Rattle.group_view.specs.Lists.{IsFittingContent};
ghost use Rattle.group_view.specs.Walks.{fits_beside, packed_from};

use crate::claimed::is_claimed;
use crate::groups::{Group, GroupContent, GroupList};
use crate::removable::{is_thin, kept, settles};

/// Whether the group is CLOSED.
fn is_closed(group: &Group) -> bool
    ensures { result ≡ is_closed (group_of group.now).content }
{
    matches!(&group.content, GroupContent::Closed(_))
}

/// Whether the group is a tombstone.
fn is_tombstone(group: &Group) -> bool
    ensures { result ≡ is_tombstone (group_of group.now).content }
{
    matches!(&group.content, GroupContent::Tombstone { .. })
}

/// The id of the lowest CLOSED group that no claim has.
pub fn lowest_closed(list: &GroupList) -> Option<u64>
    ensures { result ≡ lowest (λ group. is_closed group.content) (free (book_of list.now)) }
{
    for group in list.groups.as_slice() {
        if is_closed(group) && !is_claimed(&list.claims, group.id) {
            return Some(group.id);
        }
    }
    None
}

/// The id of the lowest COMPRESSED group that no claim has and of which at least one version and at least a tenth of them had
/// ended at the floor.
pub fn lowest_thin(list: &GroupList, floor: u64) -> Option<u64>
    requires { All (λ group. IsFittingContent group.content) list.now.groups.items }
    ensures { result ≡ lowest (is_thin floor) (free_packed (book_of list.now)) }
{
    for group in list.groups.as_slice() {
        if is_thin(group, floor) && !is_claimed(&list.claims, group.id) {
            return Some(group.id);
        }
    }
    None
}

/// Whether the group is COMPRESSED, and what had not ended of it at the floor fits one group beside so many versions.
fn fits(group: &Group, floor: u64, kept_beside: u64, group_rows: u64) -> bool
    requires { IsFittingContent group.now.content }
    ensures { result ≡ (is_compressed (group_of group.now).content && fits_beside floor group_rows kept_beside (group_of group.now)) }
{
    match kept(group, floor) {
        Some(kept) => is_room(kept_beside, kept, group_rows),
        None => false,
    }
}

/// Whether two numbers of versions fit one group.
pub fn is_room(first: u64, second: u64, group_rows: u64) -> bool
    ensures { result ≡ nat_le (first + second) group_rows }
{
    first <= group_rows && second <= group_rows - first
}

/// The id of the lowest COMPRESSED group from a place on that no claim has and that fits one group beside so many versions.
pub fn lowest_fitting(
    list: &GroupList,
    from: usize,
    floor: u64,
    kept_beside: u64,
    group_rows: u64,
) -> Option<u64>
    requires fitting { All (λ group. IsFittingContent group.content) list.now.groups.items }
    requires within { from ≤ length list.now.groups.items }
    ensures { result ≡ lowest (fits_beside floor group_rows kept_beside) (packed_from from list.now) }
{
    for group in &list.groups.as_slice()[from..] {
        if fits(group, floor, kept_beside, group_rows) && !is_claimed(&list.claims, group.id) {
            return Some(group.id);
        }
    }
    None
}

/// Whether a settle makes an end plain: one that is not plain and at most the floor, in a COMPRESSED group that no claim has.
pub fn has_settling(list: &GroupList, floor: u64) -> bool
    requires { All (λ group. IsFittingContent group.content) list.now.groups.items }
    ensures { result ≡ nat_le 1 (settling_count floor (book_of list.now)) }
{
    for group in list.groups.as_slice() {
        if settles(group, floor) && !is_claimed(&list.claims, group.id) {
            return true;
        }
    }
    false
}

/// Whether there is a tombstone.
pub fn has_tombstone(list: &GroupList) -> bool
    ensures { result ≡ nat_le 1 (tombstone_count (book_of list.now)) }
{
    for group in list.groups.as_slice() {
        if is_tombstone(group) {
            return true;
        }
    }
    false
}
