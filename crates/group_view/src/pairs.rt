// The first pair of groups that a merge may take.
ghost use Rattle.std.specs.Prelude.{◌≡◌, ◌+◌, ◌<◌, ◌≤◌, nat_le, length, unwrap_or, All, IfSome, None, Some, false, if◌then◌else◌};
ghost use Rattle.std.specs.Option.{option_and_then, option_map};
ghost use Rattle.group_book.specs.Choices.{first_pair, free_packed, remaining};
ghost use Rattle.group_book.specs.Turns.{lesser};
ghost use Rattle.group_view.specs.Books.{book_of, claim_of, group_of};
ghost use Rattle.group_view.specs.Lists.{IsFittingContent};
ghost use Rattle.group_view.specs.Walks.{is_free_packed, pair_of, IsScanOf};

use crate::claimed::is_claimed;
use crate::groups::{Group, GroupList};
use crate::lowest::{is_room, lowest_fitting};
use crate::removable::kept;

/// The first group of a pair.
#[derive(Clone, Copy, Debug)]
struct Half {
    /// Its id.
    id: u64,
    /// The number of its versions that had not ended at the floor.
    kept: u64,
    /// The place after it in the list.
    next: usize,
}

/// What a walk from the last group back has seen.
#[derive(Clone, Copy, Debug)]
struct Scan {
    /// The least number of versions that remain of a group.
    least: Option<u64>,
    /// The first group of the first pair.
    half: Option<Half>,
}

/// The number of versions of the group that had not ended at the floor, if it is COMPRESSED and no claim has it.
fn kept_if_free(list: &GroupList, group: &Group, floor: u64) -> Option<u64>
    requires { IsFittingContent group.now.content }
    ensures { result ≡ (if is_free_packed (book_of list.now).claims (group_of group.now) then Some (remaining floor (group_of group.now)) else None) }
{
    let kept = kept(group, floor)?;
    if is_claimed(&list.claims, group.id) {
        return None;
    }
    Some(kept)
}

/// Whether one of the groups whose least number is this fits one group beside so many versions.
fn is_room_for_least(kept: u64, least: Option<u64>, group_rows: u64) -> bool
    ensures { result ≡ unwrap_or (option_map (λ other. nat_le (kept + other) group_rows) least) false }
{
    match least {
        Some(least) => is_room(kept, least, group_rows),
        None => false,
    }
}

/// The lesser of a number and one that may be there.
fn lesser(kept: u64, least: Option<u64>) -> u64
    ensures { Some result ≡ lesser kept least }
{
    match least {
        Some(least) => kept.min(least),
        None => kept,
    }
}

/// What a walk has seen that comes back to the group at a place.
fn scanned(list: &GroupList, place: usize, scan: Scan, floor: u64, group_rows: u64) -> Scan
    requires fitting { All (λ group. IsFittingContent group.content) list.now.groups.items }
    requires there { place < length list.now.groups.items }
    requires scan { IsScanOf floor group_rows list.now (place + 1) scan }
    ensures { IsScanOf floor group_rows list.now place result }
{
    let group = &list.groups.as_slice()[place];
    let Some(kept) = kept_if_free(list, group, floor) else {
        return scan;
    };
    let least = Some(lesser(kept, scan.least));
    if is_room_for_least(kept, scan.least, group_rows) {
        let half = Half {
            id: group.id,
            kept,
            next: place + 1,
        };
        return Scan {
            least,
            half: Some(half),
        };
    }
    Scan {
        least,
        half: scan.half,
    }
}

/// The first group of the first pair, by one walk from the last group back: a group is the first of a pair where the least that
/// remains of one after it fits beside it, and the last such group that the walk comes to is the lowest.
fn first_half(list: &GroupList, floor: u64, group_rows: u64) -> Option<Half>
    requires { All (λ group. IsFittingContent group.content) list.now.groups.items }
    ensures pair { first_pair floor group_rows (free_packed (book_of list.now)) ≡ option_and_then (pair_of floor group_rows list.now) result }
    ensures within { IfSome result (λ half. half.next ≤ length list.now.groups.items) }
{
    let mut scan = Scan {
        least: None,
        half: None,
    };
    let mut place = list.groups.len();
    while place > 0 {
        place -= 1;
        scan = scanned(list, place, scan, floor, group_rows);
    }
    scan.half
}

/// The ids of the first pair of COMPRESSED groups that no claim has and that fit one group together, by the first and then by
/// the second. Two walks over the groups, without memory.
pub fn first_pair(list: &GroupList, floor: u64, group_rows: u64) -> Option<(u64, u64)>
    requires { All (λ group. IsFittingContent group.content) list.now.groups.items }
    ensures { result ≡ first_pair floor group_rows (free_packed (book_of list.now)) }
{
    let half = first_half(list, floor, group_rows)?;
    let second = lowest_fitting(list, half.next, floor, half.kept, group_rows)?;
    Some((half.id, second))
}
