// The ends that a commit gives the versions of the keys that it replaces or deletes.
ghost use Rattle.std.specs.Prelude.{◌≡◌, ◌≤◌, ◌<◌, ℕ, List, [], map, length, All, true, vec_len, vec_capacity};
ghost use Rattle.delta_store.specs.Versions.{Store, IsReady};
ghost use Rattle.delete_buffer.specs.Entries.{Ascend};
ghost use Rattle.group_book.specs.Commits.{ended_by, with_opened, after_ends};
ghost use Rattle.group_view.specs.Parts.{stored_versions};
ghost use Rattle.group_view.specs.Books.{versions_of, rowed_in_content, content_of, book_of};
ghost use Rattle.group_view.specs.Lists.{is_open, packed_in, IsHeld};
ghost use Rattle.group_directory.specs.Committing.{origin_of, origins, not_live, IsReadyFor, IsRoomy, HasRoom};

use cs_types::Key;
use delta_store::Delta;
use group_view::{GroupContent, GroupList};

/// Ends the live versions of these keys in the store, and collects the keys without one. It takes no memory.
fn end_in_store(store: &mut Delta, replaced: &[Key], others: &mut Vec<Key>, c: u64)
    requires ready { All (IsReady store.old) replaced.now }
    requires ascending { Ascend replaced.now }
    requires none { others.old.items ≡ [] }
    requires room { length replaced.now ≤ vec_capacity others.old }
    ensures versions { versions_of (stored_versions store.new.versions) ≡ map (ended_by replaced.now c) (versions_of (stored_versions store.old.versions)) }
    ensures origins { map origin_of (stored_versions store.new.versions) ≡ map origin_of (stored_versions store.old.versions) }
    ensures others { others.new.items ≡ not_live (versions_of (stored_versions store.old.versions)) replaced.now }
    ensures room { store.new.spare ≡ store.old.spare }
{
    for key in replaced {
        if !store.end_live(*key, c) {
            others.push_reserved(*key);
        }
    }
}

/// Ends the live versions of these keys in the OPEN store, and collects the keys without one there. It takes no memory.
fn end_in_open(content: &mut GroupContent, replaced: &[Key], others: &mut Vec<Key>, c: u64)
    requires state { is_open content.old ≡ true }
    requires ready { IsReadyFor replaced.now content.old }
    requires ascending { Ascend replaced.now }
    requires none { others.old.items ≡ [] }
    requires room { length replaced.now ≤ vec_capacity others.old }
    ensures content { content_of content.new ≡ with_opened (map (ended_by replaced.now c)) (content_of content.old) }
    ensures origins { map origin_of (rowed_in_content content.new) ≡ map origin_of (rowed_in_content content.old) }
    ensures others { others.new.items ≡ not_live (versions_of (rowed_in_content content.old)) replaced.now }
    ensures state { is_open content.new ≡ true }
    ensures room { (group_rows rows : ℕ) → IsRoomy group_rows rows content.old → IsRoomy group_rows rows content.new }
{
    match content {
        GroupContent::Opened(store) => end_in_store(store, replaced, others, c),
        _ => unreachable!(),
    }
}

/// Gives the replaced or deleted versions of these keys the end `c`: in the store where they are live in the OPEN one, and
/// else in the delete buffer. It takes no memory. `others` finds room for all these keys.
pub(crate) fn end_replaced(list: &mut GroupList, replaced: &[Key], mut others: Vec<Key>, c: u64)
    requires held { IsHeld list.old }
    requires ready { All (λ group. IsReadyFor replaced.now group.content) list.old.groups.items }
    requires ascending { Ascend replaced.now }
    requires none { others.items ≡ [] }
    requires others { length replaced.now ≤ vec_capacity others }
    requires buffer { length replaced.now ≤ list.old.buffer.spare }
    requires later { All (λ entry. entry.1 < c) list.old.buffer.entries }
    ensures book { book_of list.new ≡ after_ends replaced.now c (book_of list.old) }
    ensures held { IsHeld list.new }
    ensures claims { list.new.claims ≡ list.old.claims }
    ensures origins { origins list.new.groups.items ≡ origins list.old.groups.items }
    ensures packed { packed_in list.new.groups.items ≡ packed_in list.old.groups.items }
    ensures room { (group_rows rows loads : ℕ) (pool : List Store) → HasRoom group_rows rows loads list.old pool → HasRoom group_rows rows loads list.new pool }
{
    // Its contract says that the entries are in order.
    let _parts = list.buffer.parts();
    match list.opened {
        Some(at) => {
            let group = list.groups.at_mut(at);
            end_in_open(&mut group.content, replaced, &mut others, c);
            list.buffer.add_all(&others, c);
        }
        None => list.buffer.add_all(replaced, c),
    }
}
