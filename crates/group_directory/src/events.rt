// Events that take no memory: a release, a clear and a close.
ghost use Rattle.std.specs.Prelude.{◌≡◌, filter, not, false};
ghost use Rattle.group_book.specs.Book.{is_opened, is_tombstone};
ghost use Rattle.group_book.specs.Turns.{claim_by, closed, released, same_actor, after_clear, after_close};
ghost use Rattle.group_book.specs.Choices.{lowest, tombstone_count};
ghost use Rattle.group_view.specs.Books.{book_of, content_of, rowed_in_content};
ghost use Rattle.group_view.specs.Lists as spec;
ghost use Rattle.group_view.specs.Lists.{listed, packed_in, IsHeld};
ghost use Rattle.group_directory.specs.Events.{MakesHidden};

use crate::lists::{claim_place, drop_claims, drop_fresh, open_place};
use cs_model::Actor;
use group_view::{ClosedStore, Group, GroupContent, GroupList, Groups};
use std::mem;

/// Gives the actor's claim back: the group that it was to make is gone, and nothing else changes. Without a claim nothing
/// changes. It takes no memory. The group that is made is INVISIBLE until then.
pub(crate) fn release(list: &mut GroupList, actor: Actor)
    requires held { IsHeld list.old }
    requires hidden { MakesHidden actor (book_of list.old) }
    ensures book { book_of list.new ≡ released (claim_by actor (book_of list.old)) (book_of list.old) }
    ensures held { IsHeld list.new }
    ensures claims { list.new.claims.items ≡ filter (λ held. not (same_actor held.0 actor)) list.old.claims.items }
    ensures listed { listed list.new.groups.items ≡ listed list.old.groups.items }
    ensures packed { packed_in list.new.groups.items ≡ packed_in list.old.groups.items }
{
    let Some(place) = claim_place(&list.claims, actor) else {
        return;
    };
    let fresh = list.claims[place].1.fresh;
    let mut groups = list.groups.take();
    drop_fresh(&mut groups, fresh);
    list.opened = open_place(&groups);
    list.groups = Groups::from_vec(groups);
    drop_claims(&mut list.claims, actor);
}

/// Whether a group is a tombstone.
fn is_tombstone(group: &Group) -> bool
    ensures { result ≡ is_tombstone (content_of group.now.content) }
{
    match group.content {
        GroupContent::Tombstone { .. } => true,
        _ => false,
    }
}

/// Drops the tombstones.
fn drop_tombstones(groups: &mut Vec<Group>)
    ensures { groups.new.items ≡ filter (λ group. not (is_tombstone (content_of group.content))) groups.old.items }
{
    groups.retain(|group| !is_tombstone(group));
}

/// Drops all tombstones, and gives their number. It takes no memory.
pub(crate) fn clear(list: &mut GroupList) -> u64
    requires held { IsHeld list.old }
    ensures book { book_of list.new ≡ after_clear (book_of list.old) }
    ensures number { result ≡ tombstone_count (book_of list.old) }
    ensures held { IsHeld list.new }
    ensures claims { list.new.claims ≡ list.old.claims }
    ensures listed { listed list.new.groups.items ≡ listed list.old.groups.items }
    ensures packed { packed_in list.new.groups.items ≡ packed_in list.old.groups.items }
{
    let mut groups = list.groups.take();
    let before = groups.len();
    drop_tombstones(&mut groups);
    let dropped = before - groups.len();
    list.opened = open_place(&groups);
    list.groups = Groups::from_vec(groups);
    dropped as u64
}

/// Closes a group that is OPEN; any other stays.
fn close_group(group: &mut Group)
    ensures id { group.new.id ≡ group.old.id }
    ensures content { content_of group.new.content ≡ closed (content_of group.old.content) }
    ensures rows { rowed_in_content group.new.content ≡ rowed_in_content group.old.content }
    ensures shown { spec.is_listed group.new.content ≡ spec.is_listed group.old.content }
    ensures not_open { spec.is_open group.new.content ≡ false }
    ensures fitting { spec.IsFittingContent group.old.content → spec.IsFittingContent group.new.content }
{
    match mem::replace(&mut group.content, GroupContent::Invisible) {
        GroupContent::Opened(store) => {
            group.content = GroupContent::Closed(ClosedStore::Own(store.freeze()));
        }
        other => group.content = other,
    }
}

/// Closes the OPEN group, and gives its id. None, with nothing changed, exactly where there is none. It takes no memory: what a
/// view needs to share the store is taken by the first view.
pub(crate) fn close(list: &mut GroupList) -> Option<u64>
    requires held { IsHeld list.old }
    ensures book { book_of list.new ≡ after_close (book_of list.old) }
    ensures closed { result ≡ lowest (λ group. is_opened group.content) (book_of list.old).groups }
    ensures held { IsHeld list.new }
    ensures claims { list.new.claims ≡ list.old.claims }
    ensures listed { listed list.new.groups.items ≡ listed list.old.groups.items }
    ensures packed { packed_in list.new.groups.items ≡ packed_in list.old.groups.items }
{
    let place = match list.opened {
        Some(place) => place,
        None => return None,
    };
    list.opened = None;
    let group = list.groups.at_mut(place);
    close_group(group);
    Some(group.id)
}
