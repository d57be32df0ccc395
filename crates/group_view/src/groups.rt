// The groups as the directory keeps them.

use crate::claim::Claim;
use crate::held::Groups;
use cs_model::Actor;
use delete_bitmap::Marks;
use delete_buffer::Buffer;
use delta_store::{Delta, Frozen};
use row_group::Packed;
use std::sync::Arc;

/// A CLOSED delta store, which a first view, look or claim shares.
#[derive(Drop)]
pub enum ClosedStore {
    Own(Frozen),
    Shared(Arc<Frozen>),
}

/// What a group is.
#[derive(Drop)]
pub enum GroupContent {
    /// The delta store that takes rows.
    Opened(Delta),
    /// A full delta store that waits.
    Closed(ClosedStore),
    /// Segments with a delete bitmap, of one length.
    Compressed(Arc<Packed>, Arc<Marks>),
    /// The place of a group that a claim makes.
    Invisible,
    /// What is left of a former group: the number of its versions, and that of the ends that were recorded beside them.
    Tombstone { total: u64, deleted: u64 },
}

/// A group with its id, from 1 upwards.
#[derive(Drop)]
pub struct Group {
    pub id: u64,
    pub content: GroupContent,
}

/// All groups by id, the delete buffer, the claims with the actors that hold them, the newest first, and the next id.
#[derive(Drop)]
pub struct GroupList {
    pub groups: Groups,
    /// The place of the OPEN group, if there is one.
    pub opened: Option<usize>,
    pub buffer: Buffer,
    pub claims: Vec<(Actor, Claim)>,
    pub next: u64,
}
