// How many rows the table has.
ghost use Rattle.std.specs.Prelude.{◌≡◌, ◌-◌, map, length, All, if◌then◌else◌};
ghost use Rattle.group_book.specs.Book.{deleted, is_tombstone, total, deleted_sum, total_sum};
ghost use Rattle.group_view.specs.Books.{book_of, content_of, group_of};
ghost use Rattle.group_view.specs.Lists.{IsFittingContent, IsHeld};

use crate::counts::{deleted, total};
use group_view::{Group, GroupContent, GroupList};

/// The number of versions of a group, and that of the ends that are recorded beside them. Those of a tombstone are gone.
fn counted(content: &GroupContent) -> (u64, u64)
    requires { IsFittingContent content.now }
    ensures versions { result.0 ≡ (if is_tombstone (content_of content.now) then 0 else total (content_of content.now)) }
    ensures ends { result.1 ≡ (if is_tombstone (content_of content.now) then 0 else deleted (content_of content.now)) }
{
    match content {
        GroupContent::Tombstone { .. } => (0, 0),
        _ => (total(content), deleted(content)),
    }
}

/// The sums of these over all groups. There are fewer than 2^63 groups, of fewer than 2^64 versions each.
fn sums(groups: &[Group]) -> (u128, u128)
    requires { All (λ group. IsFittingContent group.content) groups.now }
    ensures versions { result.0 ≡ total_sum (map group_of groups.now) }
    ensures ends { result.1 ≡ deleted_sum (map group_of groups.now) }
{
    let mut all = 0;
    let mut ended = 0;
    for group in groups {
        let (versions, ends) = counted(&group.content);
        all += versions as u128;
        ended += ends as u128;
    }
    (all, ended)
}

/// The number of versions that have no end, neither beside them nor in the delete buffer.
pub(crate) fn rows(list: &GroupList) -> u128
    requires { IsHeld list.now }
    ensures { result ≡ total_sum (book_of list.now).groups - deleted_sum (book_of list.now).groups - length (book_of list.now).buffer }
{
    let (all, ended) = sums(list.groups.as_slice());
    all.saturating_sub(ended)
        .saturating_sub(list.buffer.len() as u128)
}
