// The rows of a commit that go into delta stores.
ghost use Rattle.std.specs.Prelude.{List, ◌≡◌, ◌≤◌, ◌<◌, ◌+◌, ◌^◌, ℕ, suc, [], ◌∷◌, ◌++◌, map, length, All, IsPermutation, false, Option, true, None, Some};
ghost use Rattle.cs_types.specs.declared.Key.{Key};
ghost use Rattle.cs_types.specs.Keys.{same_key};
ghost use Rattle.delta_store.specs.Versions.{Store};
ghost use Rattle.delete_buffer.specs.Entries.{Ascend};
ghost use Rattle.group_book.specs.Book.{Version, opened};
ghost use Rattle.group_book.specs.Book.Content.{Closed};
ghost use Rattle.group_book.specs.Commits.{has_live, new_version, with_version, stored, after_rest};
ghost use Rattle.group_view.specs.Books.{versions_of, rowed_in_content, content_of, group_of, book_of};
ghost use Rattle.group_view.specs.Lists.{is_open, packed_in, IsFittingContent, IsHeld};
ghost use Rattle.group_view.specs.declared.groups.GroupContent.TheVariants.{Opened};
ghost use Rattle.group_view.specs.Parcels.{keys_in};
ghost use Rattle.group_directory.specs.Committing.{origin_of, origins, new_origin, put_in, places_in, HasRoomFor, IsRoomy, HasRoom, IsReadyToOpen};

use cs_base::Items;
use cs_types::{Key, Row};
use delta_store::Delta;
use group_view::{ClosedStore, Group, GroupContent, GroupList};
use std::mem;

/// Puts a version without an end into the OPEN store, which finds room for it. Gives the number of its versions then.
fn insert_into(content: &mut GroupContent, key: Key, row: Row, begin: u64) -> usize
    requires room { HasRoomFor 1 content.old }
    requires dead { has_live key (versions_of (rowed_in_content content.old)) ≡ false }
    ensures rows { rowed_in_content content.new ≡ rowed_in_content content.old ++ record { version = new_version begin key; row = row } ∷ [] }
    ensures count { result ≡ length (rowed_in_content content.new) }
    ensures state { is_open content.new ≡ true }
    ensures room { (rows : ℕ) → HasRoomFor (suc rows) content.old → HasRoomFor rows content.new }
{
    match content {
        GroupContent::Opened(store) => {
            store.insert(row, key, begin);
            store.len()
        }
        _ => unreachable!(),
    }
}

/// Makes the OPEN store a CLOSED one. It takes no memory.
fn close_store(content: &mut GroupContent)
    requires { is_open content.old ≡ true }
    ensures rows { rowed_in_content content.new ≡ rowed_in_content content.old }
    ensures closed { content_of content.new ≡ Closed (versions_of (rowed_in_content content.old)) }
    ensures state { is_open content.new ≡ false }
{
    match mem::replace(content, GroupContent::Invisible) {
        GroupContent::Opened(store) => {
            *content = GroupContent::Closed(ClosedStore::Own(store.freeze()));
        }
        _ => unreachable!(),
    }
}

/// Puts a version without an end into the OPEN store, which finds room for it, and closes the store where it is full then.
/// Whether it is still open.
fn put_version(content: &mut GroupContent, group_rows: u64, key: Key, row: Row, begin: u64) -> bool
    requires state { is_open content.old ≡ true }
    requires room { IsRoomy group_rows 1 content.old }
    requires dead { has_live key (versions_of (rowed_in_content content.old)) ≡ false }
    ensures content { content_of content.new ≡ with_version group_rows (new_version begin key) (content_of content.old) }
    ensures rows { rowed_in_content content.new ≡ rowed_in_content content.old ++ record { version = new_version begin key; row = row } ∷ [] }
    ensures state { result ≡ is_open content.new }
    ensures room { (rows : ℕ) → IsRoomy group_rows (suc rows) content.old → IsRoomy group_rows rows content.new }
    ensures places { places_in group_rows (content_of content.new) + 1 ≡ places_in group_rows (content_of content.old) }
    ensures fitting { IsFittingContent content.new }
{
    let count = insert_into(content, key, row, begin);
    if (count as u64) < group_rows {
        return true;
    }
    close_store(content);
    false
}

/// Opens a store without versions, under the next id. Gives its place.
fn open_store(list: &mut GroupList, store: Delta) -> usize
    requires room { length list.old.groups.items < list.old.groups.room }
    requires id { list.old.next + 1 < 2 ^ 64 }
    ensures groups { list.new.groups.items ≡ list.old.groups.items ++ record { id = list.old.next; content = Opened store } ∷ [] }
    ensures len { length list.new.groups.items ≡ length list.old.groups.items + 1 }
    ensures room { list.new.groups.room ≡ list.old.groups.room }
    ensures place { result ≡ length list.old.groups.items }
    ensures opened { list.new.opened ≡ Some result }
    ensures buffer { list.new.buffer ≡ list.old.buffer }
    ensures claims { list.new.claims ≡ list.old.claims }
    ensures next { list.new.next ≡ list.old.next + 1 }
{
    let at = list.groups.len();
    list.groups.push_reserved(Group {
        id: list.next,
        content: GroupContent::Opened(store),
    });
    list.next += 1;
    list.opened = Some(at);
    at
}

/// The place of the OPEN store. Where there is none, the pool's last store is opened.
fn open_place(list: &mut GroupList, pool: &mut Vec<Delta>) -> usize
    requires held { IsHeld list.old }
    requires ready { IsReadyToOpen list.old pool.old.items list.old.opened }
    requires empty { All (λ store. store.versions ≡ []) pool.old.items }
    ensures opened { list.new.opened ≡ Some result }
    ensures held { IsHeld list.new }
    ensures claims { list.new.claims ≡ list.old.claims }
    ensures book { (group_rows : ℕ) (version : Version) → put_in group_rows version (book_of list.new) ≡ stored group_rows version (book_of list.old) }
    ensures live { (key : Key) → has_live key (opened (book_of list.new).groups) ≡ has_live key (opened (book_of list.old).groups) }
    ensures origins { origins list.new.groups.items ≡ origins list.old.groups.items }
    ensures packed { packed_in list.new.groups.items ≡ packed_in list.old.groups.items }
    ensures room { (group_rows rows : ℕ) → 1 ≤ group_rows → HasRoom group_rows (suc rows) 0 list.old pool.old.items → HasRoom group_rows (suc rows) 0 list.new pool.new.items }
{
    match list.opened {
        Some(at) => at,
        None => match pool.pop() {
            Some(store) => open_store(list, store),
            None => unreachable!(),
        },
    }
}

/// Puts a version without an end into the OPEN store, which stands at the place and finds room for it, and closes the store
/// where it is full then.
fn put_row(list: &mut GroupList, at: usize, group_rows: u64, key: Key, row: Row, begin: u64)
    requires held { IsHeld list.old }
    requires opened { list.old.opened ≡ Some at }
    requires room { All (λ group. IsRoomy group_rows 1 group.content) list.old.groups.items }
    requires dead { has_live key (opened (book_of list.old).groups) ≡ false }
    ensures book { book_of list.new ≡ put_in group_rows (new_version begin key) (book_of list.old) }
    ensures held { IsHeld list.new }
    ensures claims { list.new.claims ≡ list.old.claims }
    ensures origins { IsPermutation (origins list.old.groups.items ++ new_origin begin (key, row) ∷ []) (origins list.new.groups.items) }
    ensures packed { packed_in list.new.groups.items ≡ packed_in list.old.groups.items }
    ensures room { (pool : List Store) (rows : ℕ) → HasRoom group_rows (suc rows) 0 list.old pool → HasRoom group_rows rows 0 list.new pool }
    ensures live { (other : Key) → same_key other key ≡ false → has_live other (opened (book_of list.old).groups) ≡ false → has_live other (opened (book_of list.new).groups) ≡ false }
{
    let group = list.groups.at_mut(at);
    if !put_version(&mut group.content, group_rows, key, row, begin) {
        list.opened = None;
    }
}

/// Puts a row into the OPEN store. Where there is none, one of the pool is opened; a store that is full is closed. It takes no
/// memory.
fn store_row(
    list: &mut GroupList,
    pool: &mut Vec<Delta>,
    group_rows: u64,
    key: Key,
    row: Row,
    begin: u64,
)
    requires rows { 1 ≤ group_rows }
    requires held { IsHeld list.old }
    requires room { HasRoom group_rows 1 0 list.old pool.old.items }
    requires dead { has_live key (opened (book_of list.old).groups) ≡ false }
    ensures book { book_of list.new ≡ stored group_rows (new_version begin key) (book_of list.old) }
    ensures held { IsHeld list.new }
    ensures claims { list.new.claims ≡ list.old.claims }
    ensures origins { IsPermutation (origins list.old.groups.items ++ new_origin begin (key, row) ∷ []) (origins list.new.groups.items) }
    ensures packed { packed_in list.new.groups.items ≡ packed_in list.old.groups.items }
    ensures room { (rows : ℕ) → HasRoom group_rows (suc rows) 0 list.old pool.old.items → HasRoom group_rows rows 0 list.new pool.new.items }
    ensures live { (other : Key) → same_key other key ≡ false → has_live other (opened (book_of list.old).groups) ≡ false → has_live other (opened (book_of list.new).groups) ≡ false }
{
    let at = open_place(list, pool);
    put_row(list, at, group_rows, key, row, begin);
}

/// Puts rows into the OPEN store, by key: where there is none, one of the pool is opened, and a store that is full is closed.
/// It takes no memory.
pub(crate) fn store_rest(
    list: &mut GroupList,
    mut pool: Vec<Delta>,
    group_rows: u64,
    rest: Items<(Key, Row)>,
    c: u64,
)
    requires rows { 1 ≤ group_rows }
    requires held { IsHeld list.old }
    requires ascending { Ascend (keys_in rest) }
    requires dead { All (λ key. has_live key (opened (book_of list.old).groups) ≡ false) (keys_in rest) }
    requires room { HasRoom group_rows (length rest) 0 list.old pool.items }
    ensures book { book_of list.new ≡ after_rest group_rows c (keys_in rest) (book_of list.old) }
    ensures held { IsHeld list.new }
    ensures claims { list.new.claims ≡ list.old.claims }
    ensures origins { IsPermutation (origins list.old.groups.items ++ map (new_origin c) rest) (origins list.new.groups.items) }
    ensures packed { packed_in list.new.groups.items ≡ packed_in list.old.groups.items }
{
    for (key, row) in rest.into_vec() {
        store_row(list, &mut pool, group_rows, key, row, c);
    }
}
