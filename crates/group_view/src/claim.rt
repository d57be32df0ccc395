// What a mover's turn does, and what it is lent and gives back.

use crate::view::GroupView;
use cs_base::Items;
use cs_types::{Key, Row, Schema};
use delete_bitmap::Marks;
use row_group::Packed;
use std::sync::Arc;

/// What a turn does; groups are named by their ids.
#[derive(Clone, Copy, Debug, PartialEq, Eq)]
pub enum Choice {
    /// Packs the lowest CLOSED group.
    Compress(u64),
    /// Writes the entries of the delete buffer that end versions of COMPRESSED groups into their bitmaps.
    Flush,
    /// Packs a COMPRESSED group anew, without the versions that nobody reads any more.
    Rebuild(u64),
    /// Packs two COMPRESSED groups into one.
    Merge(u64, u64),
    /// Makes ends that every snapshot sees plain.
    Settle,
    /// Drops all tombstones.
    Clear,
    /// Finds nothing to do.
    Idle,
}

/// What a claim lends: its sources as they stood at its event, with the whole delete buffer, and the entries that a flush
/// writes. It stays as it was lent, whatever commits later.
#[derive(Drop)]
pub struct Claim {
    /// Compress, flush, rebuild or merge.
    pub choice: Choice,
    /// The id of the group that will be made. None for a flush.
    pub fresh: Option<u64>,
    /// The floor of the claim's event.
    pub floor: u64,
    pub schema: Arc<Schema>,
    /// The sources alone are its groups; its buffer is whole.
    pub view: GroupView,
    /// The entries that a flush writes, in the buffer's order. Other kinds have none.
    pub entries: Items<(Key, u64)>,
}

/// What the work of a claim gives.
#[derive(Drop)]
pub enum Product {
    /// The new group with its bitmap, if it has a version, and the entries of the buffer that go with versions that are left
    /// out, in the buffer's order.
    Group {
        group: Option<(Arc<Packed>, Arc<Marks>)>,
        spent: Items<(Key, u64)>,
    },
    /// Of a flush: the new bitmap of each source, with its id, in the order of the sources.
    Marked(Items<(u64, Arc<Marks>)>),
}

/// The rows of a commit: the groups that load directly, packed with base 0, and the other rows by key.
#[derive(Drop)]
pub struct Parcel {
    pub groups: Items<Packed>,
    pub rest: Items<(Key, Row)>,
}
