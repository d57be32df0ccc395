// The positions of a packed group whose versions a statement does not read, whatever the group's bitmap says.
ghost use Rattle.std.specs.Prelude.{◌≡◌, ◌<◌, ◌≤◌, ◌<ℤ◌, ℕ, Option, length, slice_index_or, All, IfOk, OnOk, None, Some};
ghost use Rattle.write_set.specs.declared.write.Write.{Write};
ghost use Rattle.delete_buffer.specs.Entries.{AreInOrder};
ghost use Rattle.group_view.specs.Spans.{AreKeysBetween};
ghost use Rattle.batch_scan.specs.Hidden.{begins_late, is_begun_below, is_ended_by, is_hidden, is_of_key, is_one_of, is_written, Adds};

use cs_base::Memory;
use cs_types::Key;
use delete_buffer::Ends;
use group_view::{Pinned, entries_within, key_bounds};
use row_group::Packed;
use std::alloc::Global;
use write_set::Own;

/// Adds the positions of the rows with stamped begins above `s`, in a group whose base is at most `s`.
fn add_stamped(hidden: &mut Vec<usize>, packed: &Packed, s: u64) -> Result<(), Memory>
    requires { packed.now.base ≤ s }
    ensures { OnOk result (Adds packed.now (begins_late s packed.now) hidden.old.items hidden.new.items) }
{
    let stamps = packed.stamped();
    for stamp in stamps {
        let (position, begin) = *stamp;
        if begin > s {
            hidden.push(position)?;
        }
    }
    Ok(())
}

/// Adds the positions of the rows with begins above `s`, by a look at each of them.
fn add_begun_above(hidden: &mut Vec<usize>, packed: &Packed, s: u64) -> Result<(), Memory>
    ensures { OnOk result (Adds packed.now (begins_late s packed.now) hidden.old.items hidden.new.items) }
{
    for position in 0..packed.len() {
        if packed.begin(position) > s {
            hidden.push(position)?;
        }
    }
    Ok(())
}

/// Adds the positions of the rows with begins above `s`.
fn add_late(hidden: &mut Vec<usize>, packed: &Packed, s: u64) -> Result<(), Memory>
    ensures { OnOk result (Adds packed.now (begins_late s packed.now) hidden.old.items hidden.new.items) }
{
    if packed.base() <= s {
        add_stamped(hidden, packed, s)
    } else {
        add_begun_above(hidden, packed, s)
    }
}

/// Whether a begin is below an end. Where there is no end, each is.
fn is_below(begin: u64, end: Option<u64>) -> bool
    ensures { result ≡ is_begun_below end begin }
{
    match end {
        Some(end) => begin < end,
        None => true,
    }
}

/// Adds the positions of the rows of a key with begins below an end, or of all its rows where there is no end. The key is looked for
/// from the place `near` on, which may be the one that comes of the key before: its first place.
fn add_key(
    hidden: &mut Vec<usize>,
    packed: &Packed,
    near: usize,
    key: Key,
    end: Option<u64>,
) -> Result<usize, Memory>
    ensures { OnOk result (Adds packed.now (is_of_key key end packed.now) hidden.old.items hidden.new.items) }
{
    let places = packed.find_near(near, key);
    for place in places.from..places.to {
        let position = packed.place(place);
        if is_below(packed.begin(position), end) {
            hidden.push(position)?;
        }
    }
    Ok(places.from)
}

/// Adds the positions of the rows that some entries of a delete buffer have ended for the snapshot `s`. Only entries of keys from the
/// least to the greatest of the group are looked up.
fn add_buffered(
    hidden: &mut Vec<usize>,
    packed: &Packed,
    entries: &[(Key, u64)],
    s: u64,
) -> Result<(), Memory>
    requires { AreInOrder entries.now }
    ensures { OnOk result (Adds packed.now (is_ended_by entries.now s packed.now) hidden.old.items hidden.new.items) }
{
    let span = entries_within(packed, entries);
    let mut near = 0;
    for i in span.from..span.to {
        let (key, end) = entries[i];
        if end <= s {
            near = add_key(hidden, packed, near, key, Some(end))?;
        }
    }
    Ok(())
}

/// Adds the positions of the rows that entries of a delete buffer have ended for the snapshot `s`.
fn add_ended(hidden: &mut Vec<usize>, packed: &Packed, buffer: &Ends, s: u64) -> Result<(), Memory>
    ensures { OnOk result (Adds packed.now (is_ended_by buffer.now s packed.now) hidden.old.items hidden.new.items) }
{
    let parts = buffer.parts();
    add_buffered(hidden, packed, parts.settled, s)?;
    add_buffered(hidden, packed, parts.recent, s)?;
    Ok(())
}

/// How many own writes are of keys below this one.
fn writes_below(own: &Own, key: Key) -> usize
    ensures { (i : ℕ) (d : Write) → i < result → i < length own.now → (slice_index_or own.now i d).key.0 <ℤ key.0 }
{
    let mut low = 0;
    let mut high = own.len();
    while low < high {
        let middle = low + (high - low) / 2;
        if own.get(middle).key < key {
            low = middle + 1;
        } else {
            high = middle;
        }
    }
    low
}

/// Adds the positions of the rows of the keys that own writes are of. Only keys from the least to the greatest of the group are looked
/// up.
fn add_own(
    hidden: &mut Vec<usize>,
    packed: &Packed,
    least: Key,
    greatest: Key,
    own: &Own,
) -> Result<(), Memory>
    requires { AreKeysBetween least greatest packed.now }
    ensures { OnOk result (Adds packed.now (is_written own.now packed.now) hidden.old.items hidden.new.items) }
{
    let from = writes_below(own, least);
    let mut near = 0;
    for i in from..own.len() {
        let key = own.get(i).key;
        if key > greatest {
            return Ok(());
        }
        near = add_key(hidden, packed, near, key, None)?;
    }
    Ok(())
}

/// The positions of the rows that a statement does not read, but for those that the group's bitmap ends, in any order: it begins
/// after the snapshot, an entry of the delete buffer has ended it, or an own write is of its key.
pub fn hidden_positions(
    alloc: Global,
    pinned: &Pinned,
    packed: &Packed,
) -> Result<Vec<usize>, Memory>
    ensures within { IfOk result (λ hidden. All (λ position. position < length packed.now.rows) hidden.items) }
    ensures each { IfOk result (λ hidden. (position : ℕ) → position < length packed.now.rows → is_one_of hidden.items position ≡ is_hidden pinned.now packed.now position) }
{
    let mut hidden = Vec::new(alloc);
    let Some((least, greatest)) = key_bounds(packed) else {
        return Ok(hidden);
    };
    let s = pinned.snapshot;
    add_late(&mut hidden, packed, s)?;
    add_ended(&mut hidden, packed, pinned.view.buffer(), s)?;
    add_own(&mut hidden, packed, least, greatest, &pinned.own)?;
    Ok(hidden)
}
