ghost use Rattle.std.specs.Prelude.{◌≡◌, length, All, IfOk, false};
ghost use Rattle.group_view.specs.Lists.{is_open, IsFittingContent, IsHeld};
ghost use Rattle.group_view.specs.Parts.{IsFitting};

use crate::made::{buffer_of, is_free, row_of, table};
use cs_base::{Items, Memory};
use cs_model::Actor;
use cs_types::{Key, Version};
use delete_bitmap::Marks;
use delete_buffer::Buffer;
use delta_store::Delta;
use group_view::{
    Choice, Claim, ClosedStore, Group, GroupContent, GroupList, GroupPart, GroupView, Groups,
    flush_of, next_work,
};
use row_group::{Packed, pack_rows};
use shared_list::SharedList;
use std::alloc::Global;
use std::process::Abort;
use std::sync::Arc;
use std::test::Fail;

/// A packed group of the keys from one up to another, which is not one of them.
fn packed(alloc: Global, first: u8, last: u8) -> Result<Option<Packed>, Memory> {
    let schema = table(alloc)?;
    let mut versions = Items::new(alloc);
    for key in first..last {
        versions.push(Version {
            row: row_of(alloc, key)?,
            begin: 1,
            end: None,
        })?;
    }
    pack_rows(alloc, &schema, versions, 1)
}

/// What a group of a test is.
#[derive(Clone, Copy)]
enum Made {
    /// A CLOSED store.
    Closed,
    /// A packed group of the keys from one up to another, of which the first has an end at a commit, where that is not 0.
    Packed(u8, u8, u64),
    /// A tombstone.
    Tombstone,
}

/// A bitmap of this many versions, of which the first has an end at a commit, where that is not 0.
fn first_ended(rt: &impl Abort, alloc: Global, count: usize, end: u64) -> Result<Marks, Memory>
    ensures { IfOk result (λ marks. length marks ≡ count) }
{
    let mut marks = Marks::new(alloc, count)?;
    if end == 0 {
        return Ok(marks);
    }
    assert!(rt; is_free(&marks, 0));
    marks.mark(0, end)?;
    Ok(marks)
}

/// A packed group, of which the first version has an end at a commit, where that is not 0.
fn marked(rt: &impl Abort, alloc: Global, packed: Packed, end: u64) -> Result<GroupContent, Memory>
    ensures { IfOk result (λ content. IsFittingContent content × (is_open content ≡ false)) }
{
    let marks = first_ended(rt, alloc, packed.len(), end)?;
    let packed = Arc::new(alloc, packed)?;
    let marks = Arc::new(alloc, marks)?;
    Ok(GroupContent::Compressed(packed, marks))
}

/// The content of a group.
fn content_of(rt: &impl Abort, alloc: Global, made: Made) -> Result<GroupContent, Memory>
    ensures { IfOk result (λ content. IsFittingContent content × (is_open content ≡ false)) }
{
    match made {
        Made::Closed => Ok(GroupContent::Closed(ClosedStore::Own(Delta::new(alloc).freeze()))),
        Made::Packed(first, last, end) => {
            let packed = packed(alloc, first, last)?;
            assert!(rt; packed.is_some());
            marked(rt, alloc, packed.unwrap(), end)
        }
        Made::Tombstone => Ok(GroupContent::Tombstone {
            total: 3,
            deleted: 1,
        }),
    }
}

/// These groups, with the ids from 1 on.
fn groups_of(rt: &impl Abort, alloc: Global, given: &[Made]) -> Result<Vec<Group>, Memory>
    ensures { IfOk result (λ groups. All (λ (group : Group). IsFittingContent group.content × (is_open group.content ≡ false)) groups.items) }
{
    let mut groups = Vec::new(alloc);
    for (place, made) in given.iter().enumerate() {
        let content = content_of(rt, alloc, *made)?;
        groups.push(Group {
            id: place as u64 + 1,
            content,
        })?;
    }
    Ok(groups)
}

/// A claim of the groups of these ids.
fn claim_of(alloc: Global, ids: &[u64]) -> Result<Claim, Memory>
    ensures { IfOk result (λ claim. All (λ group. IsFitting group.1) claim.view.groups) }
{
    let mut groups = Items::new(alloc);
    for id in ids {
        let store = Arc::new(alloc, Delta::new(alloc).freeze())?;
        groups.push((*id, GroupPart::Store(store)))?;
    }
    let view = GroupView {
        groups: SharedList::from_vec(alloc, groups.into_vec())?,
        buffer: Buffer::new(alloc).copy()?,
        floor: 0,
        clock: 0,
    };
    Ok(Claim {
        choice: Choice::Flush,
        fresh: None,
        floor: 0,
        schema: Arc::new(alloc, table(alloc)?)?,
        view,
        entries: Items::new(alloc),
    })
}

/// A list of groups, with an entry of the buffer for each of these keys and ends, and a claim of the groups of these ids.
fn list_of(
    rt: &impl Abort,
    alloc: Global,
    given: &[Made],
    entries: &[(i64, u64)],
    claimed: &[u64],
    next: u64,
) -> Result<GroupList, Memory>
    ensures { IfOk result IsHeld }
{
    let groups = groups_of(rt, alloc, given)?;
    let mut claims = Vec::new(alloc);
    let claim = claim_of(alloc, claimed)?;
    claims.push((Actor::Mover(9), claim))?;
    Ok(GroupList {
        groups: Groups::from_vec(groups),
        opened: None,
        buffer: buffer_of(alloc, entries)?,
        claims,
        next,
    })
}

/// A group of four versions, and one of two.
const FOUR: Made = Made::Packed(1, 5, 0);

const TWO: Made = Made::Packed(5, 7, 0);

/// Groups of which the first version has ended: at floor 10, above it, and one of eleven versions.
const THIN: Made = Made::Packed(5, 9, 10);

const LATE: Made = Made::Packed(5, 9, 11);

const LONG: Made = Made::Packed(1, 12, 10);

/// The groups, the entries of the buffer, the claimed groups, and what is chosen.
type Chosen = (
    &'static [Made],
    &'static [(i64, u64)],
    &'static [u64],
    Choice,
);

static FIRST: [Chosen; 16] = [
    (
        &[FOUR, Made::Closed, Made::Closed],
        &[(2, 5)],
        &[],
        Choice::Compress(2),
    ),
    (
        &[FOUR, Made::Closed, Made::Closed],
        &[(2, 5)],
        &[2],
        Choice::Compress(3),
    ),
    (&[THIN, FOUR], &[(2, 12)], &[], Choice::Flush),
    (&[THIN, FOUR], &[(2, 12)], &[2], Choice::Rebuild(1)),
    (
        &[THIN, FOUR],
        &[(2, 1), (5, 11), (9, 4)],
        &[],
        Choice::Rebuild(1),
    ),
    (&[LATE, FOUR], &[], &[], Choice::Idle),
    (&[THIN, THIN], &[], &[1], Choice::Rebuild(2)),
    (&[FOUR, TWO, FOUR, TWO, TWO], &[], &[], Choice::Merge(2, 4)),
    (&[FOUR, TWO, FOUR, TWO, TWO], &[], &[4], Choice::Merge(2, 5)),
    (&[FOUR, TWO, FOUR, TWO, TWO], &[], &[2, 5], Choice::Idle),
    (&[LONG, Made::Tombstone], &[], &[], Choice::Settle),
    (&[LONG, Made::Tombstone], &[], &[1], Choice::Clear),
    (&[FOUR, Made::Tombstone], &[], &[], Choice::Clear),
    (&[FOUR], &[], &[], Choice::Idle),
    (&[], &[], &[], Choice::Idle),
    (&[TWO], &[(4, 9)], &[], Choice::Idle),
];

#[test]
fn the_first_choice_is_made(rt: HostRuntime) -> Result<(), Fail> {
    for (given, entries, claimed, choice) in &FIRST {
        let list = list_of(&rt, rt.alloc(), given, entries, claimed, 9)?;
        let made = next_work(&list, 10, 4, Actor::Mover(1));
        // What is let go by a call has a short proof, and what is let go at the end of its scope a long one.
        drop(list);
        assert!(rt; made == *choice, "{made:?} for {choice:?}");
    }
    Ok(())
}

const MOVER: Actor = Actor::Mover(1);

const SESSION: Actor = Actor::Session(1);

/// The greatest next id at which a turn may still draw one.
const GREATEST: u64 = 1 << 62;

/// The groups, the entries of the buffer, the next id, who asks, and what is chosen.
type Bounded = (&'static [Made], &'static [(i64, u64)], u64, Actor, Choice);

static BOUNDED: [Bounded; 10] = [
    (
        &[Made::Closed, FOUR],
        &[(2, 5)],
        GREATEST,
        SESSION,
        Choice::Compress(1),
    ),
    (
        &[Made::Closed, FOUR],
        &[(2, 5)],
        GREATEST + 1,
        MOVER,
        Choice::Idle,
    ),
    (
        &[TWO, TWO, Made::Tombstone],
        &[],
        GREATEST,
        MOVER,
        Choice::Merge(1, 2),
    ),
    (
        &[TWO, TWO, Made::Tombstone],
        &[],
        GREATEST + 1,
        MOVER,
        Choice::Idle,
    ),
    (&[FOUR], &[(2, 5)], GREATEST + 1, MOVER, Choice::Flush),
    (&[FOUR], &[(2, 5)], 9, SESSION, Choice::Flush),
    (&[LONG], &[], GREATEST + 1, MOVER, Choice::Settle),
    (&[LONG, Made::Tombstone], &[], 9, SESSION, Choice::Idle),
    (&[Made::Tombstone], &[], GREATEST + 1, MOVER, Choice::Clear),
    (&[Made::Tombstone], &[], 9, SESSION, Choice::Idle),
];

#[test]
fn actors_and_ids_bound_it(rt: HostRuntime) -> Result<(), Fail> {
    for (given, entries, next, actor, choice) in &BOUNDED {
        let list = list_of(&rt, rt.alloc(), given, entries, &[], *next)?;
        let made = next_work(&list, 10, 4, *actor);
        drop(list);
        assert!(rt; made == *choice, "{made:?} for {choice:?}");
    }
    Ok(())
}

static LENT: [Made; 4] = [FOUR, TWO, Made::Packed(7, 9, 0), Made::Closed];

static ENTRIES: [(i64, u64); 7] = [(8, 3), (2, 12), (2, 5), (3, 11), (5, 1), (7, 13), (9, 4)];

#[test]
fn flushes_have_their_entries(rt: HostRuntime) -> Result<(), Fail> {
    let alloc = rt.alloc();
    let list = list_of(&rt, alloc, &LENT, &ENTRIES, &[3], 9)?;
    let flush = flush_of(alloc, &list);
    drop(list);
    let flush = flush?;
    assert!(rt; flush.sources.as_slice() == [1].as_slice());
    assert!(rt; flush.entries.as_slice() == [(Key(2), 5), (Key(3), 11)].as_slice());
    Ok(())
}
