// A commit.
ghost use Rattle.std.specs.Prelude.{◌≡◌, ◌≤◌, ◌<◌, ◌++◌, ◌↔◌, ℕ, map, All, IsPermutation, OnOk, OnErr, Err, true};
ghost use Rattle.delete_buffer.specs.Entries.{Ascend};
ghost use Rattle.group_book.specs.Book.{opened};
ghost use Rattle.group_book.specs.Commits.{is_one_of, has_live, draws_past};
ghost use Rattle.group_view.specs.Books.{book_of};
ghost use Rattle.group_view.specs.Lists.{listed, packed_in, IsHeld};
ghost use Rattle.group_directory.specs.declared.committing.CommitRefusal.TheVariants as refusal;
ghost use Rattle.group_view.specs.Parcels.{keys_in, HasOneBegin, parcel_rows};
ghost use Rattle.group_directory.specs.Committing.{origins, new_origin, packed_groups, rebased, after_parcel};

use crate::commit_ends::end_replaced;
use crate::commit_loads::{load_groups, loads_of};
use crate::commit_rest::store_rest;
use crate::commit_room::{is_past, stores_needed, take_room};
use cs_base::Memory;
use cs_types::Key;
use group_view::{GroupList, Parcel};
use std::alloc::Global;
use thiserror::Error;

/// Why a commit is refused.
#[derive(Debug, Drop, Clone, Copy, PartialEq, Eq, Error)]
pub enum CommitRefusal {
    /// It would draw a group id above 2^62.
    #[error("no group id is left")]
    Full,
    /// Memory is wanting.
    #[error("out of memory")]
    Memory,
}

impl From<Memory> for CommitRefusal {
    ghost use Rattle.std.specs.Prelude.{◌≡◌};
    ghost use Rattle.group_directory.specs.declared.committing.CommitRefusal.TheVariants as refusal;

    ghost from_gives = { λ _ e. e ≡ refusal.Memory };

    fn from(_error: Memory) -> CommitRefusal {
        CommitRefusal::Memory
    }
}

/// The commit of the number `c` (Larson et al., PVLDB 2015, section 4). The replaced or deleted versions of the keys get the
/// end `c`, in the OPEN store where they are live there, and else in the delete buffer; the groups of the parcel load
/// directly; the rest goes into the OPEN store, which is closed as soon as it has `group_rows` versions, and others are opened.
///
/// `Full` comes exactly where a group id above 2^62 would be drawn, and `Memory` where memory is wanting. Then nothing has
/// changed: all memory is taken before the first change.
pub fn commit(
    alloc: Global,
    list: &mut GroupList,
    group_rows: u64,
    replaced: &[Key],
    parcel: Parcel,
    c: u64,
) -> Result<(), CommitRefusal>
    requires rows { 1 ≤ group_rows }
    requires held { IsHeld list.old }
    requires replaced { Ascend replaced.now }
    requires later { All (λ entry. entry.1 < c) list.old.buffer.entries }
    requires rest { Ascend (keys_in parcel.rest) }
    requires live { All (λ key. has_live key (opened (book_of list.old).groups) ≡ true → is_one_of replaced.now key ≡ true) (keys_in parcel.rest) }
    requires begun { All HasOneBegin parcel.groups }
    ensures book { OnOk result (book_of list.new ≡ after_parcel group_rows c replaced.now parcel (book_of list.old)) }
    ensures held { IsHeld list.new }
    ensures claims { list.new.claims ≡ list.old.claims }
    ensures origins { OnOk result (IsPermutation (origins list.old.groups.items ++ map (new_origin c) (parcel_rows parcel)) (origins list.new.groups.items)) }
    ensures packed { OnOk result (packed_groups list.new.groups.items ≡ packed_groups list.old.groups.items ++ map (rebased c) parcel.groups) }
    ensures full { (result ≡ Err refusal.Full) ↔ (draws_past (book_of list.old) (after_parcel group_rows c replaced.now parcel (book_of list.old)) ≡ true) }
    ensures same { OnErr result (book_of list.new ≡ book_of list.old) }
    ensures listed { OnErr result (listed list.new.groups.items ≡ listed list.old.groups.items) }
    ensures kept { OnErr result (packed_in list.new.groups.items ≡ packed_in list.old.groups.items) }
{
    let Parcel { groups, rest } = parcel;
    let stores = stores_needed(list, group_rows, rest.len());
    if is_past(list.next, groups.len(), stores) {
        return Err(CommitRefusal::Full);
    }
    let loads = loads_of(alloc, groups, c)?;
    let room = take_room(
        alloc,
        list,
        group_rows,
        replaced,
        rest.len(),
        loads.len(),
        stores,
    )?;
    end_replaced(list, replaced, room.others, c);
    load_groups(list, loads);
    store_rest(list, room.pool, group_rows, rest, c);
    Ok(())
}

ghost use Rattle.std.specs.Prelude.{List, []};
ghost use Rattle.std.specs.List.{flat_map};
ghost use Rattle.cs_types.specs.declared.Key.{Key};
ghost use Rattle.cs_model.specs.Changes.{Change};
ghost use Rattle.group_book.specs.Book.{Book};
ghost use Rattle.group_book.specs.Commits.{Sizes, after_commit};
ghost use Rattle.group_book.specs.Invariant.{IsBookOf};
ghost use Rattle.group_book.specs.Orders.{IsReordered};
ghost use Rattle.group_view.specs.declared.claim.Parcel.{Parcel};
ghost use Rattle.group_view.specs.declared.groups.Group.{Group};
ghost use Rattle.group_view.specs.Parts.{Rowed};
ghost use Rattle.group_view.specs.Parcels.{IsParcelOf};
ghost use Rattle.group_directory.specs.Committing.{origin_of};

/// A commit with a parcel of the inserted keys is the commit of the book, but for the order in which direct groups have their
/// rows; without direct groups it is plainly that commit. What `origins` lists are the rows that a view shows.
pub fn parcel_is_a_commit()
    ensures reordered { (sizes : Sizes) (whole : Book) (changes : List Change) (floor c : ℕ) (replaced inserted : List Key) (parcel : Parcel) → IsBookOf sizes.group_rows whole changes floor → IsParcelOf sizes inserted parcel
        → IsReordered (after_commit sizes c replaced inserted whole) (after_parcel sizes.group_rows c replaced parcel whole) }
    ensures plain { (sizes : Sizes) (whole : Book) (c : ℕ) (replaced inserted : List Key) (parcel : Parcel) → IsParcelOf sizes inserted parcel → parcel.groups ≡ []
        → after_parcel sizes.group_rows c replaced parcel whole ≡ after_commit sizes c replaced inserted whole }
    ensures rows { (groups : List Group) → origins groups ≡ map origin_of (flat_map (λ (group : ℕ × List Rowed). group.1) (listed groups)) }
{}
