// The groups of a view.
ghost use Rattle.std.specs.Prelude.{◌≡◌, ◌<◌, length, slice_get, IfOk, Some};
ghost use Rattle.std.specs.Option.{option_map};
ghost use Rattle.cs_types.specs.Rows.{padded};
ghost use Rattle.group_view.specs.Parts.{lived_version, packed_versions, rowed_in, stored_versions, IsBorrowed, IsFitting};

use crate::lived::{Lived, stamp_of};
use crate::rows::{widened, with_width};
use cs_base::Memory;
use cs_types::Row;
use delete_bitmap::Marks;
use delta_store::Frozen;
use row_group::Packed;
use std::alloc::Global;
use std::sync::Arc;

/// A group as one moment has it, shared: a packed group with the ends of its versions, or a delta store. A packed group and its
/// bitmap are of one length.
#[derive(Debug, Drop)]
pub enum GroupPart {
    /// A COMPRESSED group with its delete bitmap.
    Packed(Arc<Packed>, Arc<Marks>),
    /// An OPEN or CLOSED delta store.
    Store(Arc<Frozen>),
}

/// A group that is lent for reading.
#[derive(Clone, Copy, Debug)]
pub enum GroupRef<'a> {
    /// A COMPRESSED group with its delete bitmap.
    Packed(&'a Packed, &'a Marks),
    /// An OPEN or CLOSED delta store.
    Store(&'a Frozen),
}

impl GroupPart {
    /// The number of versions, ended ones too.
    pub fn len(&self) -> usize
        requires { IsFitting self.now }
        ensures { result ≡ length (rowed_in self.now) }
    {
        match self {
            GroupPart::Packed(packed, _) => packed.len(),
            GroupPart::Store(store) => store.len(),
        }
    }

    /// What the part shares, for reading.
    pub fn lend(&self) -> GroupRef<'_>
        ensures { IsBorrowed self.now result }
    {
        match self {
            GroupPart::Packed(packed, marks) => GroupRef::Packed(packed, marks),
            GroupPart::Store(store) => GroupRef::Store(store),
        }
    }

    /// The version at a position, without its row.
    pub fn version(&self, position: usize) -> Lived
        requires { position < length (rowed_in self.now) }
        ensures { option_map (λ rowed. rowed.version) (slice_get (rowed_in self.now) position) ≡ Some (lived_version result) }
    {
        match self {
            GroupPart::Packed(packed, marks) => packed_version(packed, marks, position),
            GroupPart::Store(store) => stored_version(store, position),
        }
    }

    /// The row of the version at a position in so many cells, NULL past its end. `Memory` comes only where the cells find no
    /// room.
    pub fn row(&self, alloc: Global, position: usize, width: usize) -> Result<Row, Memory>
        requires { position < length (rowed_in self.now) }
        ensures { IfOk result (λ row. option_map (λ rowed. padded width rowed.row) (slice_get (rowed_in self.now) position) ≡ Some row) }
    {
        match self {
            GroupPart::Packed(packed, _) => widened(alloc, packed.row(position)?, width),
            GroupPart::Store(store) => with_width(alloc, &store.get(position).row, width),
        }
    }
}

/// The version at a position of a packed group.
pub fn packed_version(packed: &Packed, marks: &Marks, position: usize) -> Lived
    requires { position < length (packed_versions packed.now.key packed.now.rows marks.now) }
    ensures { option_map (λ rowed. rowed.version) (slice_get (packed_versions packed.now.key packed.now.rows marks.now) position) ≡ Some (lived_version result) }
{
    Lived {
        key: packed.key_at(position),
        begin: packed.begin(position),
        end: marks.end(position),
    }
}

/// The version at a position of a store.
pub fn stored_version(store: &Frozen, position: usize) -> Lived
    requires { position < length store.now }
    ensures { option_map (λ rowed. rowed.version) (slice_get (stored_versions store.now) position) ≡ Some (lived_version result) }
{
    let version = store.get(position);
    Lived {
        key: store.key(position),
        begin: version.begin,
        end: stamp_of(version.end),
    }
}
