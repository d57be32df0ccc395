// The memory of a commit, which it takes before its first change, and the ids that it draws.
ghost use Rattle.std.specs.Prelude.{◌≡◌, ◌≤◌, ◌<◌, ◌+◌, ◌^◌, ◌&&◌, ℕ, List, [], map, length, nat_lt, All, OnOk, IfOk, vec_capacity};
ghost use Rattle.delta_store.specs.Versions.{Store};
ghost use Rattle.group_view.specs.Books.{rowed_in_content, content_of, group_of, book_of};
ghost use Rattle.group_view.specs.Lists.{is_open, listed, packed_in, IsHeld};
ghost use Rattle.group_directory.specs.Committing.{places_in, places, stores_opened, IsReadyFor, IsRoomy, HasRoom};

use cs_base::Memory;
use cs_types::Key;
use delta_store::Delta;
use group_view::{GroupContent, GroupList};
use std::alloc::Global;

/// The greatest group id that is drawn.
const LAST_ID: u64 = 1 << 62;

/// What a commit needs beside the lists: room for keys, and stores that may become OPEN.
#[derive(Drop)]
pub(crate) struct Room {
    pub others: Vec<Key>,
    pub pool: Vec<Delta>,
}

/// How many more rows the content takes before it is closed: an OPEN store at least one.
fn places_in(content: &GroupContent, group_rows: u64) -> u64
    ensures { result ≡ places_in group_rows (content_of content.now) }
{
    match content {
        GroupContent::Opened(store) => group_rows.saturating_sub(store.len() as u64).max(1),
        _ => 0,
    }
}

/// How many more rows the OPEN store takes before it is closed. 0 where there is none.
fn free_places(list: &GroupList, group_rows: u64) -> u64
    requires { IsHeld list.now }
    ensures { result ≡ places group_rows (map group_of list.now.groups.items) }
{
    match list.opened {
        Some(at) => places_in(&list.groups.as_slice()[at].content, group_rows),
        None => 0,
    }
}

/// How many stores a commit opens for so many rows beside direct groups.
pub(crate) fn stores_needed(list: &GroupList, group_rows: u64, rows: usize) -> u64
    requires rows { 1 ≤ group_rows }
    requires held { IsHeld list.now }
    ensures { result ≡ stores_opened group_rows (places group_rows (map group_of list.now.groups.items)) rows }
{
    (rows as u64)
        .saturating_sub(free_places(list, group_rows))
        .div_ceil(group_rows)
}

/// Whether an id above 2^62 is among so many that follow, beginning with `next`.
pub(crate) fn is_past(next: u64, groups: usize, stores: u64) -> bool
    ensures { result ≡ (nat_lt 0 (groups + stores) && nat_lt (2 ^ 62 + 1) (next + (groups + stores))) }
{
    let count = (groups as u64).saturating_add(stores);
    count > 0 && next.saturating_add(count) > LAST_ID + 1
}

/// Makes room in an OPEN store for so many rows, or for as many as it takes, and makes the keys ready to be ended there. After
/// `Memory` the versions are as before.
fn make_room_in(
    content: &mut GroupContent,
    group_rows: u64,
    rows: usize,
    replaced: &[Key],
) -> Result<(), Memory>
    ensures content { content_of content.new ≡ content_of content.old }
    ensures rowed { rowed_in_content content.new ≡ rowed_in_content content.old }
    ensures state { is_open content.new ≡ is_open content.old }
    ensures room { OnOk result (IsRoomy group_rows rows content.new) }
    ensures ready { OnOk result (IsReadyFor replaced.now content.new) }
{
    match content {
        GroupContent::Opened(store) => {
            let places = group_rows.saturating_sub(store.len() as u64).max(1);
            store.reserve(rows.min(places as usize))?;
            store.prepare(replaced)
        }
        _ => Ok(()),
    }
}

/// Stores without versions, so many, each with room for so many.
fn pool_of(alloc: Global, count: u64, room: usize) -> Result<Vec<Delta>, Memory>
    ensures count { IfOk result (λ pool. length pool.items ≡ count) }
    ensures each { IfOk result (λ pool. All (λ store. (store.versions ≡ []) × (room ≤ store.spare)) pool.items) }
{
    let mut pool = Vec::new(alloc);
    for _ in 0..count {
        let mut store = Delta::new(alloc);
        store.reserve(room)?;
        pool.push(store)?;
    }
    Ok(pool)
}

/// Makes room in the OPEN store, if there is one, as `make_room_in` does.
fn make_room_in_open(
    list: &mut GroupList,
    group_rows: u64,
    rows: usize,
    replaced: &[Key],
) -> Result<(), Memory>
    requires { IsHeld list.old }
    ensures book { book_of list.new ≡ book_of list.old }
    ensures held { IsHeld list.new }
    ensures claims { list.new.claims ≡ list.old.claims }
    ensures listed { listed list.new.groups.items ≡ listed list.old.groups.items }
    ensures packed { packed_in list.new.groups.items ≡ packed_in list.old.groups.items }
    ensures room { OnOk result (All (λ group. IsRoomy group_rows rows group.content) list.new.groups.items) }
    ensures ready { OnOk result (All (λ group. IsReadyFor replaced.now group.content) list.new.groups.items) }
{
    match list.opened {
        Some(at) => {
            let group = list.groups.at_mut(at);
            make_room_in(&mut group.content, group_rows, rows, replaced)
        }
        None => Ok(()),
    }
}

/// Takes all memory of a commit that replaces these keys, loads so many groups directly, and opens so many stores for so many
/// rows. After `Memory` nothing has changed.
pub(crate) fn take_room(
    alloc: Global,
    list: &mut GroupList,
    group_rows: u64,
    replaced: &[Key],
    rows: usize,
    loads: usize,
    stores: u64,
) -> Result<Room, Memory>
    requires held { IsHeld list.old }
    requires stores { stores ≡ stores_opened group_rows (places group_rows (map group_of list.old.groups.items)) rows }
    requires ids { list.old.next + loads + stores < 2 ^ 64 }
    ensures book { book_of list.new ≡ book_of list.old }
    ensures held { IsHeld list.new }
    ensures claims { list.new.claims ≡ list.old.claims }
    ensures listed { listed list.new.groups.items ≡ listed list.old.groups.items }
    ensures packed { packed_in list.new.groups.items ≡ packed_in list.old.groups.items }
    ensures room { IfOk result (λ room. HasRoom group_rows rows loads list.new room.pool.items) }
    ensures none { IfOk result (λ room. room.others.items ≡ []) }
    ensures others { IfOk result (λ room. length replaced.now ≤ vec_capacity room.others) }
    ensures buffer { OnOk result (length replaced.now ≤ list.new.buffer.spare) }
    ensures ready { OnOk result (All (λ group. IsReadyFor replaced.now group.content) list.new.groups.items) }
{
    make_room_in_open(list, group_rows, rows, replaced)?;
    list.buffer.reserve(replaced.len())?;
    list.groups.reserve(loads.saturating_add(stores as usize))?;
    let others = Vec::with_capacity(alloc, replaced.len())?;
    let pool = pool_of(alloc, stores, rows.min(group_rows as usize))?;
    Ok(Room { others, pool })
}
