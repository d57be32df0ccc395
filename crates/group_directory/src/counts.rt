// Counts of groups, and their ledger.
ghost use Rattle.std.specs.Prelude.{◌≡◌, ◌++◌, map, length, All, OnOk, IfOk};
ghost use Rattle.std.specs.List.{flat_map};
ghost use Rattle.group_book.specs.Book.{deleted, ended_count, total};
ghost use Rattle.group_view.specs.Books.{book_of, content_of, group_of, rowed_in_closed, versions_of};
ghost use Rattle.group_view.specs.Lists.{IsFittingContent, IsHeld};
ghost use Rattle.group_log.specs.Reports.{line_of, state_of};
ghost use Rattle.group_directory.specs.Ledgers.{holders_of};

use crate::ledger::Ledger;
use cs_base::{Items, Memory};
use cs_model::{Actor, GroupLine, GroupState};
use group_view::{Claim, ClosedStore, Group, GroupContent, GroupList};
use std::alloc::Global;

/// The number of versions of a group, ended ones too.
pub(crate) fn total(content: &GroupContent) -> u64
    requires { IsFittingContent content.now }
    ensures { result ≡ total (content_of content.now) }
{
    match content {
        GroupContent::Opened(store) => store.len() as u64,
        GroupContent::Closed(ClosedStore::Own(store)) => store.len() as u64,
        GroupContent::Closed(ClosedStore::Shared(store)) => store.len() as u64,
        GroupContent::Compressed(packed, _) => packed.len() as u64,
        GroupContent::Invisible => 0,
        GroupContent::Tombstone { total, .. } => *total,
    }
}

/// The number of ends that are recorded in a CLOSED store.
fn ended(store: &ClosedStore) -> u64
    ensures { result ≡ ended_count (versions_of (rowed_in_closed store.now)) }
{
    match store {
        ClosedStore::Own(store) => store.ended() as u64,
        ClosedStore::Shared(store) => store.ended() as u64,
    }
}

/// The number of ends that are recorded beside a group's versions.
pub(crate) fn deleted(content: &GroupContent) -> u64
    requires { IsFittingContent content.now }
    ensures { result ≡ deleted (content_of content.now) }
{
    match content {
        GroupContent::Opened(store) => store.ended() as u64,
        GroupContent::Closed(store) => ended(store),
        GroupContent::Compressed(_, marks) => marks.count(),
        GroupContent::Invisible => 0,
        GroupContent::Tombstone { deleted, .. } => *deleted,
    }
}

/// The state of a group.
fn state(content: &GroupContent) -> GroupState
    ensures { result ≡ state_of (content_of content.now) }
{
    match content {
        GroupContent::Opened(_) => GroupState::Opened,
        GroupContent::Closed(_) => GroupState::Closed,
        GroupContent::Compressed(..) => GroupState::Compressed,
        GroupContent::Invisible => GroupState::Invisible,
        GroupContent::Tombstone { .. } => GroupState::Tombstone,
    }
}

/// A group by its counts.
fn line(group: &Group) -> GroupLine
    requires { IsFittingContent group.now.content }
    ensures { result ≡ line_of (group_of group.now) }
{
    GroupLine {
        id: group.id,
        state: state(&group.content),
        total: total(&group.content),
        deleted: deleted(&group.content),
    }
}

/// All groups by their counts.
fn lines(alloc: Global, groups: &[Group]) -> Result<Items<GroupLine>, Memory>
    requires { All (λ group. IsFittingContent group.content) groups.now }
    ensures { IfOk result (λ lines. lines ≡ map line_of (map group_of groups.now)) }
{
    let mut lines = Items::new(alloc);
    for group in groups {
        lines.push(line(group))?;
    }
    Ok(lines)
}

/// Adds the groups that a claim works on, with the actor that holds it.
fn add_holders(holders: &mut Items<(u64, Actor)>, held: &(Actor, Claim)) -> Result<(), Memory>
    ensures { OnOk result (holders.new ≡ holders.old ++ holders_of held.now) }
{
    let groups = &held.1.view.groups;
    for place in 0..groups.len() {
        holders.push((groups.at(place).0, held.0))?;
    }
    Ok(())
}

/// All groups that are claimed, with the actors that hold them.
fn holders(alloc: Global, claims: &[(Actor, Claim)]) -> Result<Items<(u64, Actor)>, Memory>
    ensures { IfOk result (λ holders. holders ≡ flat_map holders_of claims.now) }
{
    let mut holders = Items::new(alloc);
    for held in claims {
        add_holders(&mut holders, held)?;
    }
    Ok(holders)
}

/// The groups by their counts: each line is that of the book's group.
pub(crate) fn ledger(alloc: Global, list: &GroupList) -> Result<Ledger, Memory>
    requires { IsHeld list.now }
    ensures lines { IfOk result (λ ledger. ledger.lines ≡ map line_of (book_of list.now).groups) }
    ensures buffered { IfOk result (λ ledger. ledger.buffered ≡ length (book_of list.now).buffer) }
    ensures holders { IfOk result (λ ledger. ledger.holders ≡ flat_map holders_of list.now.claims.items) }
{
    let lines = lines(alloc, list.groups.as_slice())?;
    let holders = holders(alloc, &list.claims)?;
    Ok(Ledger {
        lines,
        buffered: list.buffer.len() as u64,
        holders,
    })
}
