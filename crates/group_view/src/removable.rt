// Counts of the ends that a group's bitmap records.
ghost use Rattle.std.specs.Prelude.{◌≡◌, ◌*◌, ◌&&◌, ℕ, nat_le, Some, None, if◌then◌else◌};
ghost use Rattle.std.specs.List.{list_any};
ghost use Rattle.delete_bitmap.specs.Marks.{is_settling};
ghost use Rattle.group_book.specs.Book.{is_compressed};
ghost use Rattle.group_book.specs.Choices.{is_thin, remaining};
ghost use Rattle.group_view.specs.Books.{group_of};
ghost use Rattle.group_view.specs.Lists.{IsFittingContent};
ghost use Rattle.group_view.specs.Walks.{settles_in};

use crate::groups::{Group, GroupContent};
use delete_bitmap::Marks;

/// Whether a part is at least one and at least a tenth of a whole.
fn is_tenth(part: u64, whole: u64) -> bool
    ensures { result ≡ (nat_le 1 part && nat_le whole (10 * part)) }
{
    1 <= part && whole <= part.saturating_mul(10)
}

/// Whether the group is COMPRESSED, and at least one of its versions and at least a tenth of them had ended at the floor.
pub fn is_thin(group: &Group, floor: u64) -> bool
    requires { IsFittingContent group.now.content }
    ensures { result ≡ (is_compressed (group_of group.now).content && is_thin floor (group_of group.now)) }
{
    match &group.content {
        GroupContent::Compressed(packed, marks) => {
            is_tenth(marks.removable(floor), packed.len() as u64)
        }
        GroupContent::Opened(_)
        | GroupContent::Closed(_)
        | GroupContent::Invisible
        | GroupContent::Tombstone { .. } => false,
    }
}

/// The number of versions of a COMPRESSED group that had not ended at the floor. None for another group.
pub fn kept(group: &Group, floor: u64) -> Option<u64>
    requires { IsFittingContent group.now.content }
    ensures { result ≡ (if is_compressed (group_of group.now).content then Some (remaining floor (group_of group.now)) else None) }
{
    match &group.content {
        GroupContent::Compressed(packed, marks) => {
            Some((packed.len() as u64).saturating_sub(marks.removable(floor)))
        }
        GroupContent::Opened(_)
        | GroupContent::Closed(_)
        | GroupContent::Invisible
        | GroupContent::Tombstone { .. } => None,
    }
}

/// Whether one of the stamps has a commit at most the floor.
fn has_stamp(stamps: &[(usize, u64)], floor: u64) -> bool
    ensures { result ≡ list_any (λ (stamp : ℕ × ℕ). nat_le stamp.1 floor) stamps.now }
{
    stamps.iter().any(|stamp| stamp.1 <= floor)
}

/// Whether the bitmap has an end that is not plain and at most the floor.
fn has_settling(marks: &Marks, floor: u64) -> bool
    ensures { result ≡ list_any (is_settling floor) marks.now }
{
    has_stamp(marks.stamps(), floor)
}

/// Whether the group is COMPRESSED, and a version of it has an end that is not plain and at most the floor.
pub fn settles(group: &Group, floor: u64) -> bool
    requires { IsFittingContent group.now.content }
    ensures { result ≡ (is_compressed (group_of group.now).content && settles_in floor (group_of group.now)) }
{
    match &group.content {
        GroupContent::Compressed(_, marks) => has_settling(marks, floor),
        GroupContent::Opened(_)
        | GroupContent::Closed(_)
        | GroupContent::Invisible
        | GroupContent::Tombstone { .. } => false,
    }
}
