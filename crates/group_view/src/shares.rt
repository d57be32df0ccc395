// Shares of groups, for views and claims.
ghost use Rattle.std.specs.Prelude.{◌≡◌, ℕ, ◌++◌, [], ◌∷◌, map, filter, All, OnOk, IfOk};
ghost use Rattle.group_view.specs.Contents.{content_of, packed_content, rowed_in_closed, rowed_in_content, IsFittingContent};
ghost use Rattle.group_view.specs.Parts.{packed_parts, stored_versions, IsFitting};
ghost use Rattle.group_view.specs.Seen.{entry_of, packed_seen, part_entry, seen, shows};
ghost use Rattle.group_view.specs.Shares.{IsPartOf};

use crate::groups::{ClosedStore, Group, GroupContent};
use crate::parts::GroupPart;
use cs_base::Memory;
use delete_bitmap::Marks;
use delta_store::{Delta, Frozen};
use row_group::Packed;
use std::alloc::Global;
use std::mem;
use std::sync::Arc;

/// A share of the OPEN store, which keeps its versions in common with it.
fn share_open(alloc: Global, store: &mut Delta) -> Result<Arc<Frozen>, Memory>
    ensures shared { IfOk result (λ shared. shared.value ≡ store.old.versions) }
    ensures versions { store.new.versions ≡ store.old.versions }
{
    let frozen = store.share()?;
    Ok(Arc::new(alloc, frozen)?)
}

/// Keeps a share in the place of a store, and gives another one.
fn keep_shared(store: &mut ClosedStore, shared: Arc<Frozen>) -> Result<Arc<Frozen>, Memory>
    ensures shared { IfOk result (λ other. other.value ≡ shared.value) }
    ensures rows { rowed_in_closed store.new ≡ stored_versions shared.value }
{
    let other = Arc::try_clone(&shared);
    *store = ClosedStore::Shared(shared);
    Ok(other?)
}

/// A share of a CLOSED store. The first one makes it a store that can be shared, with no copy of a version.
fn share_closed(alloc: Global, store: &mut ClosedStore) -> Result<Arc<Frozen>, Memory>
    ensures shared { IfOk result (λ shared. stored_versions shared.value ≡ rowed_in_closed store.old) }
    ensures rows { rowed_in_closed store.new ≡ rowed_in_closed store.old }
{
    let empty = ClosedStore::Own(Delta::new(alloc).freeze());
    match mem::replace(store, empty) {
        ClosedStore::Own(frozen) => match Arc::new(alloc, frozen) {
            Ok(shared) => keep_shared(store, shared),
            Err(refused) => {
                *store = ClosedStore::Own(refused.value);
                Err(Memory)
            }
        },
        ClosedStore::Shared(shared) => keep_shared(store, shared),
    }
}

/// A share of a packed group and its bitmap.
fn share_packed(packed: &Arc<Packed>, marks: &Arc<Marks>) -> Result<GroupPart, Memory>
    ensures { IfOk result (λ part. IsPartOf (GroupContent.Compressed packed.now marks.now) (Some part)) }
{
    let packed = Arc::try_clone(packed)?;
    let marks = Arc::try_clone(marks)?;
    Ok(GroupPart::Packed(packed, marks))
}

/// A share of what a view shows of a group. None exactly where it shows none of it. After `Memory` the group is as before, but
/// that its store may be one that can be shared.
fn share_part(alloc: Global, content: &mut GroupContent) -> Result<Option<GroupPart>, Memory>
    ensures content { content_of content.new ≡ content_of content.old }
    ensures rows { rowed_in_content content.new ≡ rowed_in_content content.old }
    ensures packed { (id : ℕ) → packed_content id content.new ≡ packed_content id content.old }
    ensures fitting { IsFittingContent content.old → IsFittingContent content.new }
    ensures part { IfOk result (IsPartOf content.old) }
{
    match content {
        GroupContent::Opened(store) => {
            let shared = share_open(alloc, store)?;
            Ok(Some(GroupPart::Store(shared)))
        }
        GroupContent::Closed(store) => {
            let shared = share_closed(alloc, store)?;
            Ok(Some(GroupPart::Store(shared)))
        }
        GroupContent::Compressed(packed, marks) => {
            let part = share_packed(packed, marks)?;
            Ok(Some(part))
        }
        GroupContent::Invisible | GroupContent::Tombstone { .. } => Ok(None),
    }
}

/// Adds a share of a group to the parts of a view, if the view shows the group.
pub fn add_part(
    alloc: Global,
    group: &mut Group,
    parts: &mut Vec<(u64, GroupPart)>,
) -> Result<(), Memory>
    requires { IsFittingContent group.old.content }
    ensures seen { seen group.new ≡ seen group.old }
    ensures kept { IsFittingContent group.new.content }
    ensures parts { OnOk result (map part_entry parts.new.items ≡ map part_entry parts.old.items ++ map entry_of (filter shows (seen group.old ∷ []))) }
    ensures packed { OnOk result (packed_parts parts.new.items ≡ packed_parts parts.old.items ++ packed_seen (filter shows (seen group.old ∷ []))) }
    ensures fitting { All (λ part. IsFitting part.1) parts.old.items → All (λ part. IsFitting part.1) parts.new.items }
{
    if let Some(part) = share_part(alloc, &mut group.content)? {
        parts.push((group.id, part))?;
    }
    Ok(())
}

/// The same, and at once where the group is no more than a place or what is left of one, as most become.
pub fn add_share(
    alloc: Global,
    group: &mut Group,
    parts: &mut Vec<(u64, GroupPart)>,
) -> Result<(), Memory>
    requires { IsFittingContent group.old.content }
    ensures seen { seen group.new ≡ seen group.old }
    ensures kept { IsFittingContent group.new.content }
    ensures parts { OnOk result (map part_entry parts.new.items ≡ map part_entry parts.old.items ++ map entry_of (filter shows (seen group.old ∷ []))) }
    ensures packed { OnOk result (packed_parts parts.new.items ≡ packed_parts parts.old.items ++ packed_seen (filter shows (seen group.old ∷ []))) }
    ensures fitting { All (λ part. IsFitting part.1) parts.old.items → All (λ part. IsFitting part.1) parts.new.items }
{
    match &group.content {
        GroupContent::Invisible | GroupContent::Tombstone { .. } => Ok(()),
        _ => add_part(alloc, group, parts),
    }
}
