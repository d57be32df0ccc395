// The installs of what a claim's work gave. They take no memory.
ghost use Rattle.std.specs.Prelude.{◌≡◌, ◌∷◌, ℕ, List, map, filter, not, position, reverse, All, Option, IfSome, IsSome};
ghost use Rattle.std.specs.Option.{option_map};
ghost use Rattle.cs_types.specs.declared.Schema.{Schema};
ghost use Rattle.cs_model.specs.declared.work.Actor.{Actor};
ghost use Rattle.cs_model.specs.Changes.{Change};
ghost use Rattle.group_book.specs.Book.{how_many};
ghost use Rattle.group_book.specs.Turns.{claim_by, is_fresh, same_actor, spent_of, installed, installed_with, after_flush};
ghost use Rattle.group_book.specs.Orders.{IsReordered};
ghost use Rattle.group_view.specs.declared.groups.Group.{Group};
ghost use Rattle.group_view.specs.declared.groups.GroupList.{GroupList};
ghost use Rattle.group_view.specs.Views.{endings_of};
ghost use Rattle.group_view.specs.Books.{book_of, claim_of, group_of};
ghost use Rattle.group_view.specs.Parts.{ArePacked, IsPackedGroup};
ghost use Rattle.group_view.specs.Lists.{listed, packed_in, IsFittingContent, IsHeld};
ghost use Rattle.group_view.specs.Claims.{IsProductOf};
ghost use Rattle.group_view.specs.Seen.{rooted_in};
ghost use Rattle.group_directory.specs.Stands.{Stands};
ghost use Rattle.group_directory.specs.Installing.{buried, held_by, ids_of, is_first, marked_by, new_versions, placed, with_marks, with_new, HasPlace, IsFilled, IsInstalled, IsOldOrNew, MayMark};

use crate::counts::{deleted, total};
use crate::directory::Directory;
use crate::lists::{claim_place, drop_claims, drop_fresh, fresh_place, open_place};
use cs_base::Items;
use cs_model::Actor;
use cs_types::Key;
use delete_bitmap::Marks;
use group_view::{Claim, Group, GroupContent, GroupList, GroupView, Groups, Product};
use row_group::Packed;
use std::sync::Arc;

/// Takes the claim of an actor out of the claims, where it holds one.
fn take_claim(claims: &mut Vec<(Actor, Claim)>, actor: Actor) -> Option<(Actor, Claim)>
    ensures claim { result ≡ held_by actor claims.old.items }
    ensures others { claims.new.items ≡ filter (λ held. not (same_actor held.0 actor)) claims.old.items }
{
    let Some(place) = claim_place(claims, actor) else {
        return None;
    };
    let held = claims.remove(place);
    drop_claims(claims, actor);
    Some(held)
}

/// Makes a tombstone of a group, with its counts, if the view shows it.
fn bury_source(group: &mut Group, sources: &GroupView)
    requires { IsFittingContent group.old.content }
    ensures { group.new ≡ buried (ids_of sources.now.groups) group.old }
{
    if sources.has(group.id) {
        group.content = GroupContent::Tombstone {
            total: total(&group.content),
            deleted: deleted(&group.content),
        };
    }
}

/// Makes tombstones of the groups that the view shows, with their counts. A claim that makes a group has one or two of them.
fn bury_sources(groups: &mut [Group], sources: &GroupView)
    requires { All (λ group. IsFittingContent group.content) groups.old }
    ensures { groups.new ≡ map (buried (ids_of sources.now.groups)) groups.old }
{
    for group in groups.iter_mut() {
        bury_source(group, sources);
    }
}

/// Puts the new group into its place, which is there once.
fn place_group(groups: &mut [Group], fresh: Option<u64>, packed: Arc<Packed>, marks: Arc<Marks>)
    requires { how_many (λ group. is_fresh fresh (group_of group)) groups.old ≡ 1 }
    ensures { groups.new ≡ map (placed fresh (packed, marks)) groups.old }
{
    match fresh_place(groups, fresh) {
        Some(place) => groups[place].content = GroupContent::Compressed(packed, marks),
        None => unreachable!(),
    }
}

/// Puts the new group into its place, or drops the place where there is none.
fn put_group(groups: &mut Vec<Group>, fresh: Option<u64>, group: Option<(Arc<Packed>, Arc<Marks>)>)
    requires { how_many (λ group. is_fresh fresh (group_of group)) groups.old.items ≡ 1 }
    ensures { groups.new.items ≡ with_new fresh group groups.old.items }
{
    match group {
        Some((packed, marks)) => place_group(groups, fresh, packed, marks),
        None => drop_fresh(groups, fresh),
    }
}

/// The install of compress, rebuild or merge (Larson et al., PVLDB 2015, section 4). The sources of the actor's claim become
/// tombstones with their counts. The INVISIBLE group that the claim makes gets the new group, or is gone where there is none.
/// The spent entries leave the buffer, and the claim is gone.
pub(crate) fn install_group(
    list: &mut GroupList,
    actor: Actor,
    group: Option<(Arc<Packed>, Arc<Marks>)>,
    spent: &[(Key, u64)],
)
    requires held { IsHeld list.old }
    requires claim { IsSome (held_by actor list.old.claims.items) }
    requires place { IfSome (held_by actor list.old.claims.items) (λ held. HasPlace (book_of list.old).groups (claim_of held)) }
    requires filled { IsFilled group }
    requires spent { IfSome (held_by actor list.old.claims.items) (λ held. endings_of spent.now ≡ spent_of (claim_of held)) }
    ensures book { IfSome (held_by actor list.old.claims.items) (λ held. book_of list.new ≡ installed_with (new_versions group) (claim_of held) (book_of list.old)) }
    ensures held { IsHeld list.new }
    ensures claims { list.new.claims.items ≡ filter (λ held. not (same_actor held.0 actor)) list.old.claims.items }
    ensures listed { IfSome (held_by actor list.old.claims.items) (λ held. All (IsOldOrNew (listed list.old.groups.items) held.1.fresh group) (listed list.new.groups.items)) }
    ensures packed { (schema : Schema) → ArePacked schema (packed_in list.old.groups.items) → IfSome group (λ load. IsPackedGroup schema load.0.value) → ArePacked schema (packed_in list.new.groups.items) }
{
    let Some((_, claim)) = take_claim(&mut list.claims, actor) else {
        unreachable!()
    };
    // Its contract says that the entries are in order.
    let _parts = claim.view.buffer().parts();
    let mut groups = list.groups.take();
    bury_sources(&mut groups, &claim.view);
    put_group(&mut groups, claim.fresh, group);
    list.opened = open_place(&groups);
    list.groups = Groups::from_vec(groups);
    list.buffer.remove_all(spent);
}

/// Puts another bitmap on a packed group. Any other group stays.
fn set_marks(group: &mut Group, marks: Arc<Marks>)
    ensures { group.new ≡ record group.old { content = with_marks marks group.old.content } }
{
    if let GroupContent::Compressed(_, old) = &mut group.content {
        *old = marks;
    }
}

/// Whether the last bitmap is of the group of this id.
fn is_last(marks: &[(u64, Arc<Marks>)], id: u64) -> bool
    ensures { result ≡ is_first id (reverse marks.now) }
{
    match marks.last() {
        Some(marks) => id == marks.0,
        None => false,
    }
}

/// Puts the last bitmap on the group, if it is of its id.
fn mark_group(group: &mut Group, left: &mut Vec<(u64, Arc<Marks>)>)
    ensures { (groups : List Group) → marked_by (reverse left.old.items) (group.old ∷ groups) ≡ group.new ∷ marked_by (reverse left.new.items) groups }
{
    if is_last(left, group.id)
        && let Some((_, marks)) = left.pop()
    {
        set_marks(group, marks);
    }
}

/// Puts bitmaps on the groups of their ids. Both stand by id.
fn mark_sources(groups: &mut [Group], mut left: Vec<(u64, Arc<Marks>)>)
    ensures { groups.new ≡ marked_by left.items groups.old }
{
    left.reverse();
    for group in groups.iter_mut() {
        mark_group(group, &mut left);
    }
}

/// The install of a flush (Larson et al., PVLDB 2015, section 4). Each source of the actor's claim gets its new bitmap, in which
/// the lent entries are the ends of their versions. These leave the buffer, and the claim is gone.
pub(crate) fn install_marks(list: &mut GroupList, actor: Actor, marks: Items<(u64, Arc<Marks>)>)
    requires held { IsHeld list.old }
    requires claim { IsSome (held_by actor list.old.claims.items) }
    requires marks { IfSome (held_by actor list.old.claims.items) (λ held. MayMark list.old held marks) }
    ensures book { IfSome (held_by actor list.old.claims.items) (λ held. book_of list.new ≡ after_flush (claim_of held) (book_of list.old)) }
    ensures held { IsHeld list.new }
    ensures claims { list.new.claims.items ≡ filter (λ held. not (same_actor held.0 actor)) list.old.claims.items }
    ensures rows { rooted_in list.new.groups.items ≡ rooted_in list.old.groups.items }
    ensures packed { packed_in list.new.groups.items ≡ packed_in list.old.groups.items }
{
    let Some((_, claim)) = take_claim(&mut list.claims, actor) else {
        unreachable!()
    };
    // Its contract says that the entries are in order.
    let _parts = claim.view.buffer().parts();
    let mut groups = list.groups.take();
    mark_sources(&mut groups, marks.into_vec());
    list.groups = Groups::from_vec(groups);
    list.buffer.remove_all(claim.entries.as_slice());
}

/// The claim of the book that an actor holds is the one that it holds in the list.
pub fn actors_hold_alike()
    ensures { (list : GroupList) (actor : Actor) → claim_by actor (book_of list) ≡ option_map claim_of (held_by actor list.claims.items) }
{}

impl Directory {
    /// Installs what the work of the actor's claim gave. After a compress, a rebuild or a merge its sources are tombstones and the
    /// new group is COMPRESSED, or gone where it has no version; after a flush each lent entry is the end of its version. The
    /// claim is gone, and nothing else changes. The book is that of the event, but for the order of the new group's versions. It
    /// takes no memory (Larson et al., PVLDB 2015, section 4).
    pub fn install(&mut self, actor: Actor, product: Product)
        requires claim { IsSome (held_by actor self.old.list.claims.items) }
        requires product { IfSome (held_by actor self.old.list.claims.items) (λ held. IsProductOf held.1 product) }
        requires stands { (changes : List Change) × Stands self.old changes }
        ensures book { IsReordered (installed (claim_by actor (book_of self.old.list)) (book_of self.old.list)) (book_of self.new.list) }
        ensures made { IfSome (held_by actor self.old.list.claims.items) (λ held. IsInstalled (claim_of held) product (book_of self.old.list) (book_of self.new.list)) }
        ensures rest { self.new ≡ record self.old { list = self.new.list } }
        ensures held { IsHeld self.new.list }
        ensures claims { self.new.list.claims.items ≡ filter (λ held. not (same_actor held.0 actor)) self.old.list.claims.items }
        ensures stands { (changes : List Change) → Stands self.old changes → Stands self.new changes }
    {
        match product {
            Product::Group { group, spent } => {
                install_group(&mut self.list, actor, group, spent.as_slice());
            }
            Product::Marked(marks) => install_marks(&mut self.list, actor, marks),
        }
    }
}
