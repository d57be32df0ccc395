// Views of the groups.
ghost use Rattle.std.specs.Prelude.{◌≡◌, ◌==◌, ◌<◌, ℕ, ◌↔◌, [], length, slice_get, All, IfNone, IfOk, IfSome, IsSome, IsTrue, Some};
ghost use Rattle.std.specs.List.{list_any};
ghost use Rattle.std.specs.Option.{option_map};
ghost use Rattle.cs_types.specs.Rows.{padded};
ghost use Rattle.group_view.specs.Parts.{lived_version, IsBorrowed, IsFitting};
ghost use Rattle.group_view.specs.Views.{is_shown, version_at, HidesEach, Shows};

use crate::lived::Lived;
use crate::parts::{GroupPart, GroupRef};
use cs_base::Memory;
use cs_types::{Key, Row};
use delete_buffer::Ends;
use shared_list::SharedList;
use std::alloc::Global;
use std::sync::Arc;
use write_set::Own;

/// The row groups as one moment had them: the OPEN, CLOSED and COMPRESSED groups by id, the delete buffer, the floor and the
/// clock. It shares what it shows and never changes, whatever movers install later.
#[derive(Drop)]
pub struct GroupView {
    /// The groups with their ids, which ascend, in chunks that it may have in common with other views.
    pub groups: SharedList<(u64, GroupPart)>,
    /// The delete buffer.
    pub buffer: Arc<Ends>,
    /// The least snapshot that was still read.
    pub floor: u64,
    /// The number of the last commit.
    pub clock: u64,
}

/// Where a version stands in a view: its group's place among the groups, from 0, and its position in that group, from 0.
#[derive(Clone, Copy, Debug, PartialEq, Eq)]
pub struct Place {
    pub group: usize,
    pub position: usize,
}

/// What a statement reads: the groups as they stood at its Start, the own writes of its transaction, and its snapshot, a commit
/// number from the view's floor to its clock.
#[derive(Drop)]
pub struct Pinned {
    pub view: GroupView,
    pub own: Own,
    pub snapshot: u64,
}

impl GroupView {
    /// The number of OPEN, CLOSED and COMPRESSED groups.
    pub fn len(&self) -> usize
        ensures { result ≡ length self.now.groups }
    {
        self.groups.len()
    }

    /// Whether there is no group.
    pub fn is_empty(&self) -> bool
        ensures { IsTrue result ↔ (self.now.groups ≡ []) }
    {
        self.groups.is_empty()
    }

    /// Whether it shows the group of this id.
    pub fn has(&self, id: u64) -> bool
        ensures { result ≡ list_any (λ (group : ℕ × GroupPart). group.0 == id) self.now.groups }
    {
        for group in 0..self.groups.len() {
            if self.groups.at(group).0 == id {
                return true;
            }
        }
        false
    }

    /// The id of a group.
    pub fn id(&self, group: usize) -> u64
        requires { group < length self.now.groups }
        ensures { option_map (λ part. part.0) (slice_get self.now.groups group) ≡ Some result }
    {
        self.groups.at(group).0
    }

    /// A group, for reading.
    pub fn group(&self, group: usize) -> GroupRef<'_>
        requires { group < length self.now.groups }
        ensures { IfSome (slice_get self.now.groups group) (λ part. IsBorrowed part.1 result) }
    {
        self.groups.at(group).1.lend()
    }

    /// The delete buffer of the view's moment.
    pub fn buffer(&self) -> &Ends
        ensures { result.now ≡ self.now.buffer.value }
    {
        &self.buffer
    }

    /// The least snapshot that was read at the view's moment.
    pub fn floor(&self) -> u64
        ensures { result ≡ self.now.floor }
    {
        self.floor
    }

    /// The number of the last commit at the view's moment.
    pub fn clock(&self) -> u64
        ensures { result ≡ self.now.clock }
    {
        self.clock
    }

    /// The version at a place, without its row.
    pub fn version(&self, place: Place) -> Lived
        requires { IsSome (version_at self.now place) }
        ensures { option_map (λ rowed. rowed.version) (version_at self.now place) ≡ Some (lived_version result) }
    {
        self.groups.at(place.group).1.version(place.position)
    }

    /// The row of the version at a place in so many cells, NULL past its end. `Memory` comes only where the cells find no room.
    pub fn row(&self, alloc: Global, place: Place, width: usize) -> Result<Row, Memory>
        requires { IsSome (version_at self.now place) }
        ensures { IfOk result (λ row. option_map (λ rowed. padded width rowed.row) (version_at self.now place) ≡ Some row) }
    {
        self.groups
            .at(place.group)
            .1
            .row(alloc, place.position, width)
    }

    /// Whether the snapshot `s` sees the version at a place (Larson et al., PVLDB 2015, section 4).
    pub fn visible(&self, place: Place, s: u64) -> bool
        requires { IsSome (version_at self.now place) }
        ensures { option_map (is_shown self.now s) (version_at self.now place) ≡ Some result }
    {
        self.version(place).is_visible(&self.buffer, s)
    }

    /// The place of a version of the key that the snapshot `s` sees. None exactly where it sees none. The newest groups come first,
    /// as most rows that are there stand in these where rows are changed often.
    pub fn lookup(&self, key: Key, s: u64) -> Option<Place>
        requires { All (λ group. IsFitting group.1) self.now.groups }
        ensures found { IfSome result (Shows self.now key s) }
        ensures none { IfNone result (HidesEach self.now key s) }
    {
        let mut group = self.groups.len();
        while group > 0 {
            group -= 1;
            let part = &self.groups.at(group).1;
            if let Some(position) = part.find(&self.buffer, key, s) {
                return Some(Place { group, position });
            }
        }
        None
    }
}
