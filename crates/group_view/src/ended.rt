// Which entries of the delete buffer end versions of a group.
ghost use Rattle.std.specs.Prelude.{◌≡◌, ◌<◌, ◌&&◌, ◌||◌, Bool, length, map, slice_get, Some};
ghost use Rattle.std.specs.List.{list_any};
ghost use Rattle.std.specs.Option.{option_map};
ghost use Rattle.delete_buffer.specs.Entries.{AreInOrder};
ghost use Rattle.group_book.specs.Book.{Ending, Version, is_compressed};
ghost use Rattle.group_book.specs.Turns.{ends, is_number};
ghost use Rattle.group_view.specs.Books.{group_of, versions_of};
ghost use Rattle.group_view.specs.Lists.{IsFittingContent};
ghost use Rattle.group_view.specs.Parts.{packed_versions};
ghost use Rattle.group_view.specs.Views.{endings_of};
ghost use Rattle.group_view.specs.Walks.{ends_in};

use crate::groups::{Group, GroupContent};
use crate::span::entries_within;
use cs_types::Key;
use delete_bitmap::Marks;
use delete_buffer::Buffer;
use row_group::Packed;

/// Whether the end that was looked for is this one.
fn is_found(found: Option<u64>, end: u64) -> bool
    ensures { result ≡ is_number end found }
{
    match found {
        Some(other) => other == end,
        None => false,
    }
}

/// Whether the entry of this key and end is the end of the version at a position, which is one of the key: no end is recorded
/// beside the version, and the entry is the least of the key above its begin.
fn is_end_of(
    packed: &Packed,
    marks: &Marks,
    buffer: &Buffer,
    position: usize,
    key: Key,
    end: u64,
) -> bool
    requires { position < length packed.now.rows }
    ensures { (version : Version) → slice_get (versions_of (packed_versions packed.now.key packed.now.rows marks.now)) position ≡ Some version → version.key ≡ key → result ≡ ends (endings_of buffer.now.entries) (record { key = key; end = end }) version }
{
    match marks.end(position) {
        Some(_) => false,
        None => is_found(buffer.ends(key, packed.begin(position)), end),
    }
}

/// Whether the entry of this key and end ends a version of a packed group, by its positions of the key. They are looked for
/// from the place `near` on, which is theirs afterwards.
fn ends_version(
    packed: &Packed,
    marks: &Marks,
    buffer: &Buffer,
    near: &mut usize,
    key: Key,
    end: u64,
) -> bool
    requires { length marks.now ≡ length packed.now.rows }
    ensures { result ≡ list_any (ends (endings_of buffer.now.entries) (record { key = key; end = end })) (versions_of (packed_versions packed.now.key packed.now.rows marks.now)) }
{
    let places = packed.find_near(*near, key);
    *near = places.from;
    for place in places.from..places.to {
        let position = packed.place(place);
        if is_end_of(packed, marks, buffer, position, key, end) {
            return true;
        }
    }
    false
}

/// Whether one of these entries of the buffer ends a version of a packed group. It stops at the first. Only entries of keys from
/// the least to the greatest of the group are looked up.
fn has_among(packed: &Packed, marks: &Marks, buffer: &Buffer, entries: &[(Key, u64)]) -> bool
    requires marks { length marks.now ≡ length packed.now.rows }
    requires order { AreInOrder entries.now }
    ensures { result ≡ list_any (λ entry. list_any (ends (endings_of buffer.now.entries) entry) (versions_of (packed_versions packed.now.key packed.now.rows marks.now))) (endings_of entries.now) }
{
    let span = entries_within(packed, entries);
    let mut near = 0;
    for i in span.from..span.to {
        let (key, end) = entries[i];
        if ends_version(packed, marks, buffer, &mut near, key, end) {
            return true;
        }
    }
    false
}

/// Whether some entry of the buffer ends a version of a packed group.
fn has_packed(packed: &Packed, marks: &Marks, buffer: &Buffer) -> bool
    requires { length marks.now ≡ length packed.now.rows }
    ensures { result ≡ list_any (λ entry. list_any (ends (endings_of buffer.now.entries) entry) (versions_of (packed_versions packed.now.key packed.now.rows marks.now))) (endings_of buffer.now.entries) }
{
    let parts = buffer.parts();
    has_among(packed, marks, buffer, parts.settled)
        || has_among(packed, marks, buffer, parts.recent)
}

/// Whether the group is COMPRESSED, and some entry of the buffer ends a version of it.
pub fn has_entry(group: &Group, buffer: &Buffer) -> bool
    requires { IsFittingContent group.now.content }
    ensures { result ≡ (is_compressed (group_of group.now).content && list_any (ends_in (endings_of buffer.now.entries) (group_of group.now)) (endings_of buffer.now.entries)) }
{
    match &group.content {
        GroupContent::Compressed(packed, marks) => has_packed(packed, marks, buffer),
        GroupContent::Opened(_)
        | GroupContent::Closed(_)
        | GroupContent::Invisible
        | GroupContent::Tombstone { .. } => false,
    }
}

/// Notes which of these entries of the buffer end versions of a packed group, and gives whether there is one. Only entries of keys
/// from the least to the greatest of the group are looked up.
fn note_packed(
    packed: &Packed,
    marks: &Marks,
    buffer: &Buffer,
    entries: &[(Key, u64)],
    noted: &mut [bool],
) -> bool
    requires marks { length marks.now ≡ length packed.now.rows }
    requires order { AreInOrder entries.now }
    requires noted { length noted.old ≡ length entries.now }
    ensures found { result ≡ list_any (λ entry. list_any (ends (endings_of buffer.now.entries) entry) (versions_of (packed_versions packed.now.key packed.now.rows marks.now))) (endings_of entries.now) }
    ensures noted { (test : Ending → Bool) → noted.old ≡ map test (endings_of entries.now)
        → noted.new ≡ map (λ entry. test entry || list_any (ends (endings_of buffer.now.entries) entry) (versions_of (packed_versions packed.now.key packed.now.rows marks.now))) (endings_of entries.now) }
{
    let span = entries_within(packed, entries);
    let mut near = 0;
    let mut found = false;
    for i in span.from..span.to {
        let (key, end) = entries[i];
        if ends_version(packed, marks, buffer, &mut near, key, end) {
            noted[i] = true;
            found = true;
        }
    }
    found
}

/// Notes which of these entries of the buffer end versions of the group, where it is COMPRESSED, and gives whether there is one.
pub fn note_ends(group: &Group, buffer: &Buffer, entries: &[(Key, u64)], noted: &mut [bool]) -> bool
    requires fitting { IsFittingContent group.now.content }
    requires order { AreInOrder entries.now }
    requires noted { length noted.old ≡ length entries.now }
    ensures found { result ≡ (is_compressed (group_of group.now).content && list_any (ends_in (endings_of buffer.now.entries) (group_of group.now)) (endings_of entries.now)) }
    ensures noted { (test : Ending → Bool) → noted.old ≡ map test (endings_of entries.now)
        → noted.new ≡ map (λ entry. test entry || (is_compressed (group_of group.now).content && ends_in (endings_of buffer.now.entries) (group_of group.now) entry)) (endings_of entries.now) }
{
    match &group.content {
        GroupContent::Compressed(packed, marks) => {
            note_packed(packed, marks, buffer, entries, noted)
        }
        GroupContent::Opened(_)
        | GroupContent::Closed(_)
        | GroupContent::Invisible
        | GroupContent::Tombstone { .. } => false,
    }
}
