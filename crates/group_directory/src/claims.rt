// Claims: a list keeps one and lends a share of it.
ghost use Rattle.std.specs.Prelude.{◌≡◌, ◌+◌, ◌<◌, ◌^◌, ◌∷◌, [], map, IfOk, OnErr, None, Some, vec_len, vec_capacity};
ghost use Rattle.group_view.specs.Lists.{IsHeld};
ghost use Rattle.group_directory.specs.Claiming.{IsShareOf};
ghost use Rattle.group_directory.specs.Lending.{Keeps, Lends};
ghost use Rattle.group_view.specs.Seen.{seen};
ghost use Rattle.group_directory.specs.Sharing.{AreNamed, IsSameList};

use crate::share::view_of_sources;
use cs_base::{Items, Memory};
use cs_model::Actor;
use cs_types::{Key, Schema};
use group_view::{Choice, Claim, Group, GroupContent, GroupList, GroupView};
use std::alloc::Global;
use std::sync::Arc;

/// The turn of an actor: its choice, and the floor and the clock of its event.
#[derive(Clone, Copy)]
pub(crate) struct Turn {
    pub actor: Actor,
    pub choice: Choice,
    pub floor: u64,
    pub clock: u64,
}

/// Another claim of the same, which shares the groups and the buffer.
fn share_of(alloc: Global, claim: &Claim) -> Result<Claim, Memory>
    ensures { IfOk result (IsShareOf claim.now) }
{
    let groups = claim.view.groups.share()?;
    let buffer = Arc::try_clone(&claim.view.buffer)?;
    let schema = Arc::try_clone(&claim.schema)?;
    let entries = Vec::from_slice(alloc, claim.entries.as_slice())?;
    Ok(Claim {
        choice: claim.choice,
        fresh: claim.fresh,
        floor: claim.floor,
        schema,
        view: GroupView {
            groups,
            buffer,
            floor: claim.view.floor,
            clock: claim.view.clock,
        },
        entries: Items::from_vec(entries),
    })
}

/// A claim of the groups of these ids, which come in this order, each once, and are groups that a view shows; with the whole
/// buffer.
fn claim_of(
    alloc: Global,
    list: &mut GroupList,
    schema: &Arc<Schema>,
    turn: Turn,
    fresh: Option<u64>,
    sources: &[u64],
    entries: Items<(Key, u64)>,
) -> Result<Claim, Memory>
    requires held { IsHeld list.old }
    requires named { AreNamed sources.now (map seen list.old.groups.items) }
    ensures same { IsSameList list.old list.new }
    ensures claim { IfOk result (Lends schema.now.value turn fresh sources.now entries list.old) }
{
    let view = view_of_sources(alloc, list, sources, turn.floor, turn.clock)?;
    let schema = Arc::try_clone(schema)?;
    Ok(Claim {
        choice: turn.choice,
        fresh,
        floor: turn.floor,
        schema,
        view,
        entries,
    })
}

/// Keeps a claim before the others. It takes no memory.
fn keep_first(claims: &mut Vec<(Actor, Claim)>, actor: Actor, claim: Claim)
    requires { vec_len claims.old < vec_capacity claims.old }
    ensures { claims.new.items ≡ (actor, claim) ∷ claims.old.items }
{
    match claims.insert(0, (actor, claim)) {
        Ok(()) => {}
        Err(_) => unreachable!(),
    }
}

/// Claims these groups for a flush of these entries, and lends a share of the claim. The groups come in this order, each once,
/// and are groups that a view shows. After `Memory` the list stands for the same book, with the same rows.
pub(crate) fn claim_flush(
    alloc: Global,
    list: &mut GroupList,
    schema: &Arc<Schema>,
    turn: Turn,
    sources: &[u64],
    entries: Items<(Key, u64)>,
) -> Result<Claim, Memory>
    requires held { IsHeld list.old }
    requires named { AreNamed sources.now (map seen list.old.groups.items) }
    ensures kept { IfOk result (Keeps schema.now.value turn None sources.now entries list.old list.new) }
    ensures same { OnErr result (IsSameList list.old list.new) }
{
    let claim = claim_of(alloc, list, schema, turn, None, sources, entries)?;
    let lent = share_of(alloc, &claim)?;
    list.claims.reserve(1)?;
    keep_first(&mut list.claims, turn.actor, claim);
    Ok(lent)
}

/// Claims these groups to make one group of them, whose id is drawn last, when nothing can fail, and whose place is taken; and
/// lends a share of the claim. The groups come in this order, each once, and are groups that a view shows. After `Memory` the
/// list stands for the same book, with the same rows.
pub(crate) fn claim_groups(
    alloc: Global,
    list: &mut GroupList,
    schema: &Arc<Schema>,
    turn: Turn,
    sources: &[u64],
) -> Result<Claim, Memory>
    requires held { IsHeld list.old }
    requires named { AreNamed sources.now (map seen list.old.groups.items) }
    requires next { list.old.next + 1 < 2 ^ 64 }
    ensures kept { IfOk result (Keeps schema.now.value turn (Some list.old.next) sources.now [] list.old list.new) }
    ensures same { OnErr result (IsSameList list.old list.new) }
{
    let id = list.next;
    let none = Items::new(alloc);
    let claim = claim_of(alloc, list, schema, turn, Some(id), sources, none)?;
    let lent = share_of(alloc, &claim)?;
    list.claims.reserve(1)?;
    list.groups.reserve(1)?;
    list.groups.push_reserved(Group {
        id,
        content: GroupContent::Invisible,
    });
    list.next += 1;
    keep_first(&mut list.claims, turn.actor, claim);
    Ok(lent)
}
