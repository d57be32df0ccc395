// What is looked up in a list of groups and of claims.
ghost use Rattle.std.specs.Prelude.{◌≡◌, position, filter, not};
ghost use Rattle.group_book.specs.Turns.{is_fresh, same_actor};
ghost use Rattle.group_view.specs.Books.{group_of};
ghost use Rattle.group_view.specs.Lists as spec;

use cs_model::Actor;
use group_view::{Claim, Group, GroupContent};

/// Whether a group is the OPEN one.
fn is_open(group: &Group) -> bool
    ensures { result ≡ spec.is_open group.now.content }
{
    match group.content {
        GroupContent::Opened(_) => true,
        _ => false,
    }
}

/// The place of the first OPEN group.
pub(crate) fn open_place(groups: &[Group]) -> Option<usize>
    ensures { result ≡ position (λ group. spec.is_open group.content) groups.now }
{
    groups.iter().position(|group| is_open(group))
}

/// Whether the actor holds the claim.
fn is_by(held: &(Actor, Claim), actor: Actor) -> bool
    ensures { result ≡ same_actor held.now.0 actor }
{
    held.0 == actor
}

/// The place of the first claim that the actor holds. None exactly where it holds none.
pub(crate) fn claim_place(claims: &[(Actor, Claim)], actor: Actor) -> Option<usize>
    ensures { result ≡ position (λ held. same_actor held.0 actor) claims.now }
{
    claims.iter().position(|held| is_by(held, actor))
}

/// Gives the claims of an actor back.
pub(crate) fn drop_claims(claims: &mut Vec<(Actor, Claim)>, actor: Actor)
    ensures { claims.new.items ≡ filter (λ held. not (same_actor held.0 actor)) claims.old.items }
{
    claims.retain(|held| !is_by(held, actor));
}

/// Whether the group is the one of this id, if there is an id.
fn is_fresh(group: &Group, fresh: Option<u64>) -> bool
    ensures { result ≡ is_fresh fresh (group_of group.now) }
{
    match fresh {
        Some(id) => group.id == id,
        None => false,
    }
}

/// Drops the groups of an id, if there is an id.
pub(crate) fn drop_fresh(groups: &mut Vec<Group>, fresh: Option<u64>)
    ensures { groups.new.items ≡ filter (λ group. not (is_fresh fresh (group_of group))) groups.old.items }
{
    groups.retain(|group| !is_fresh(group, fresh));
}

/// The place of the first group of an id, if there is an id.
pub(crate) fn fresh_place(groups: &[Group], fresh: Option<u64>) -> Option<usize>
    ensures { result ≡ position (λ group. is_fresh fresh (group_of group)) groups.now }
{
    groups.iter().position(|group| is_fresh(group, fresh))
}
