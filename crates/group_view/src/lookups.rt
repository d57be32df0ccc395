// Look-ups by key in the groups of a view.
ghost use Rattle.std.specs.Prelude.{◌≡◌, length, IfSome, IfNone};
ghost use Rattle.delta_store.specs.Versions.{IsLastPlace};
ghost use Rattle.group_view.specs.Parts.{packed_versions, rowed_in, stored_versions, IsFitting};
ghost use Rattle.group_view.specs.Views.{endings_of, HidesAll, ShowsAt};

use crate::parts::{GroupPart, packed_version, stored_version};
use cs_types::Key;
use delete_bitmap::Marks;
use delete_buffer::Ends;
use delta_store::Frozen;
use row_group::Packed;

impl GroupPart {
    /// The position of a version of the key that the snapshot `s` sees. None exactly where it sees none in this group.
    pub fn find(&self, buffer: &Ends, key: Key, s: u64) -> Option<usize>
        requires { IsFitting self.now }
        ensures found { IfSome result (ShowsAt (endings_of buffer.now) key s (rowed_in self.now)) }
        ensures none { IfNone result (HidesAll (endings_of buffer.now) key s (rowed_in self.now)) }
    {
        match self {
            GroupPart::Packed(packed, marks) => find_packed(packed, marks, buffer, key, s),
            GroupPart::Store(store) => find_stored(store, buffer, key, s),
        }
    }
}

/// The same in a packed group, by its positions of the key.
fn find_packed(packed: &Packed, marks: &Marks, buffer: &Ends, key: Key, s: u64) -> Option<usize>
    requires { length marks.now ≡ length packed.now.rows }
    ensures found { IfSome result (ShowsAt (endings_of buffer.now) key s (packed_versions packed.now.key packed.now.rows marks.now)) }
    ensures none { IfNone result (HidesAll (endings_of buffer.now) key s (packed_versions packed.now.key packed.now.rows marks.now)) }
{
    let places = packed.find(key);
    for place in places.from..places.to {
        let position = packed.place(place);
        if packed_version(packed, marks, position).is_visible(buffer, s) {
            return Some(position);
        }
    }
    None
}

/// The same in a store, by the place of the key's last version.
fn find_stored(store: &Frozen, buffer: &Ends, key: Key, s: u64) -> Option<usize>
    ensures found { IfSome result (ShowsAt (endings_of buffer.now) key s (stored_versions store.now)) }
    ensures none { IfNone result (HidesAll (endings_of buffer.now) key s (stored_versions store.now)) }
{
    seen_from(store, buffer, key, store.of_key(key), s)
}

/// The position of a version of the key that the snapshot `s` sees in a store, from the place of the key's last version back. None
/// exactly where it sees none there. The walk stops where all versions before have ended by `s`.
pub fn seen_from(
    store: &Frozen,
    buffer: &Ends,
    key: Key,
    last: Option<usize>,
    s: u64,
) -> Option<usize>
    requires { IsLastPlace store.now key last }
    ensures found { IfSome result (ShowsAt (endings_of buffer.now) key s (stored_versions store.now)) }
    ensures none { IfNone result (HidesAll (endings_of buffer.now) key s (stored_versions store.now)) }
{
    let mut at = last;
    while let Some(position) = at {
        if stored_version(store, position).is_visible(buffer, s) {
            return Some(position);
        }
        if store.ended_by(position) <= s {
            return None;
        }
        at = store.earlier(position);
    }
    None
}
