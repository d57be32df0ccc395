// The groups of a list, and what views share of them.
ghost use Rattle.std.specs.Prelude.{◌≡◌, ◌↔◌, ◌+◌, ◌*◌, ◌<◌, ◌≤◌, ◌++◌, ◌∷◌, [], List, map, length, slice_index_or, take, drop, All, IsTrue, IfOk, OnOk, OnErr, vec_len, vec_capacity};
ghost use Rattle.group_view.specs.Contents.{IsFittingContent};
ghost use Rattle.group_view.specs.Seen.{seen, Seen};
ghost use Rattle.group_view.specs.Shares.{chunk_in, parts_of, AreShared, HaveOthers, IsShareOf};

use crate::groups::Group;
use crate::parts::GroupPart;
use crate::shares::add_share;
use cs_base::Memory;
use shared_list::SharedList;
use std::alloc::Global;
use std::marker::Model;
use std::mem;
use std::sync::Arc;

/// So many groups of a list stand in a chunk of it.
const CHUNK: usize = 128;

/// What a view shows of the groups of a chunk, by id.
type Share = Arc<Vec<(u64, GroupPart)>>;

/// The groups of a list by id. Contracts see them, and `room`, how many groups find room in all without memory. Beside each 128 of them
/// stands what a view shows of these, from the first view on until one of them changes. So the next view has it in common, and only
/// what has changed is made anew.
#[derive(Drop)]
pub struct Groups {
    items: Vec<Group>,
    /// For each chunk what views share of it, where a view was made since it last changed. The last chunks may be missing.
    shares: Vec<Option<Share>>,
}

impl Model for Groups {
    ghost use Rattle.std.specs.Prelude.{map, vec_capacity};
    ghost use Rattle.group_view.specs.Seen.{seen};
    ghost use Rattle.group_view.specs.Shares.{AreShared, Grouped};

    ghost Value = { Grouped };

    ghost view = { λ groups. record { items = groups.items.items; room = vec_capacity groups.items } };

    ghost invariant = { λ groups. AreShared (map seen groups.items.items) groups.shares.items };
}

/// Lets go what is shared of a chunk, before one of its groups changes.
fn forget(shares: &mut Vec<Option<Share>>, chunk: usize)
    ensures { (old new : List Seen) → HaveOthers chunk old new → AreShared old shares.old.items → AreShared new shares.new.items }
{
    if chunk < shares.len() {
        shares[chunk] = None;
    }
}

/// Keeps what is shared of a chunk. Those before it stand there.
fn keep(shares: &mut Vec<Option<Share>>, chunk: usize, share: Share) -> Result<(), Memory>
    requires { chunk ≤ vec_len shares.old }
    ensures shared { (all : List Seen) → AreShared all shares.old.items → IsShareOf (chunk_in chunk all) (parts_of share) → AreShared all shares.new.items }
    ensures len { OnOk result (chunk < vec_len shares.new) }
{
    if chunk == shares.len() {
        shares.push(Some(share))?;
        return Ok(());
    }
    shares[chunk] = Some(share);
    Ok(())
}

/// What a view shows of the groups at the places from `from` up to but without `to`.
fn shown_between(
    alloc: Global,
    groups: &mut [Group],
    from: usize,
    to: usize,
) -> Result<Vec<(u64, GroupPart)>, Memory>
    requires ordered { from ≤ to }
    requires within { to ≤ length groups.old }
    requires fitting { All (λ group. IsFittingContent group.content) groups.old }
    ensures seen { map seen groups.new ≡ map seen groups.old }
    ensures kept { All (λ group. IsFittingContent group.content) groups.new }
    ensures parts { IfOk result (λ parts. IsShareOf (drop from (take to (map seen groups.old))) parts.items) }
{
    let mut parts = Vec::with_capacity(alloc, to - from)?;
    for place in from..to {
        add_share(alloc, &mut groups[place], &mut parts)?;
    }
    Ok(parts)
}

/// What a view shows of a chunk: what is kept of it, or else made anew and kept. Those of the chunks before it are kept.
fn share_of(
    alloc: Global,
    groups: &mut [Group],
    shares: &mut Vec<Option<Share>>,
    chunk: usize,
) -> Result<Share, Memory>
    requires there { 128 * chunk < length groups.old }
    requires before { chunk ≤ vec_len shares.old }
    requires fitting { All (λ group. IsFittingContent group.content) groups.old }
    requires shared { AreShared (map seen groups.old) shares.old.items }
    ensures seen { map seen groups.new ≡ map seen groups.old }
    ensures kept { All (λ group. IsFittingContent group.content) groups.new }
    ensures shared { AreShared (map seen groups.new) shares.new.items }
    ensures len { OnOk result (chunk < vec_len shares.new) }
    ensures share { IfOk result (λ share. IsShareOf (chunk_in chunk (map seen groups.old)) (parts_of share)) }
{
    if let Some(Some(share)) = shares.get(chunk) {
        return Ok(Arc::try_clone(share)?);
    }
    let from = chunk * CHUNK;
    let to = groups.len().min(from + CHUNK);
    let share = Arc::new(alloc, shown_between(alloc, groups, from, to)?)?;
    let kept = Arc::try_clone(&share)?;
    keep(shares, chunk, kept)?;
    Ok(share)
}

/// What a view shows of all groups, in chunks.
fn share_all(
    alloc: Global,
    groups: &mut [Group],
    shares: &mut Vec<Option<Share>>,
) -> Result<SharedList<(u64, GroupPart)>, Memory>
    requires fitting { All (λ group. IsFittingContent group.content) groups.old }
    requires shared { AreShared (map seen groups.old) shares.old.items }
    ensures seen { map seen groups.new ≡ map seen groups.old }
    ensures kept { All (λ group. IsFittingContent group.content) groups.new }
    ensures shared { AreShared (map seen groups.new) shares.new.items }
    ensures shown { IfOk result (IsShareOf (map seen groups.old)) }
{
    let mut shown = SharedList::new(alloc);
    for chunk in 0..groups.len().div_ceil(CHUNK) {
        shown.append(share_of(alloc, groups, shares, chunk)?)?;
    }
    Ok(shown)
}

impl Groups {
    ghost use Rattle.std.specs.Borrow.{sem};
    ghost use Rattle.group_view.specs.Lends.{LendsGroup};

    /// The groups of a vector. It takes no memory.
    pub fn from_vec(items: Vec<Group>) -> Groups
        ensures items { result.items ≡ items.items }
        ensures room { result.room ≡ vec_capacity items }
    {
        let alloc = *items.allocator();
        Groups {
            items,
            shares: Vec::new(alloc),
        }
    }

    /// Takes all groups out, and leaves none. Nothing stays of what was shared of them. It takes no memory.
    pub fn take(&mut self) -> Vec<Group>
        ensures items { result.items ≡ self.old.items }
        ensures room { vec_capacity result ≡ self.old.room }
        ensures none { self.new.items ≡ [] }
    {
        let alloc = *self.items.allocator();
        self.shares.clear();
        mem::replace(&mut self.items, Vec::new(alloc))
    }

    /// The groups as a slice.
    pub fn as_slice(&self) -> &[Group]
        ensures { result.now ≡ self.now.items }
    {
        self.items.as_slice()
    }

    /// The number of groups.
    pub fn len(&self) -> usize
        ensures { result ≡ length self.now.items }
    {
        self.items.len()
    }

    /// Whether there is no group.
    pub fn is_empty(&self) -> bool
        ensures { IsTrue result ↔ (self.now.items ≡ []) }
    {
        self.items.is_empty()
    }

    /// The group at a place, for writing. What was shared of its chunk is let go.
    pub fn at_mut(&mut self, place: usize) -> &mut Group
        requires { place < length self.old.items }
        ensures* writes_back { sem 𝓛 (LendsGroup self.entry place result) }
        ensures value { result.now ≡ slice_index_or self.old.items place result.now }
    {
        forget(&mut self.shares, place / CHUNK);
        &mut self.items[place]
    }

    /// Makes room for `more` groups. It changes none.
    pub fn reserve(&mut self, more: usize) -> Result<(), Memory>
        ensures items { self.new.items ≡ self.old.items }
        ensures room { OnOk result (length self.new.items + more ≤ self.new.room) }
    {
        self.items.reserve(more)?;
        Ok(())
    }

    /// Adds a group at the end. It takes no memory.
    pub fn push_reserved(&mut self, group: Group)
        requires { length self.old.items < self.old.room }
        ensures items { self.new.items ≡ self.old.items ++ group ∷ [] }
        ensures room { self.new.room ≡ self.old.room }
    {
        self.shares.truncate(self.items.len() / CHUNK);
        self.items.push_reserved(group);
    }

    /// What a view shows of the groups. Only what has changed since the last view is made anew, a chunk at a time, so that it
    /// takes time for each chunk, and memory. After `Memory` the groups are the same, but that some stores may be ones that can be
    /// shared.
    pub fn share(&mut self, alloc: Global) -> Result<SharedList<(u64, GroupPart)>, Memory>
        requires { All (λ group. IsFittingContent group.content) self.old.items }
        ensures seen { map seen self.new.items ≡ map seen self.old.items }
        ensures kept { All (λ group. IsFittingContent group.content) self.new.items }
        ensures shown { IfOk result (IsShareOf (map seen self.old.items)) }
    {
        share_all(alloc, &mut self.items, &mut self.shares)
    }
}
