// Which entries of the delete buffer are of keys of a packed group.
ghost use Rattle.std.specs.Prelude.{◌≡◌, ◌<◌, ◌≤◌, ◌<ℤ◌, ℕ, length, slice_index_or, IfNone, IfSome};
ghost use Rattle.std.specs.Ordering.{is_le, is_lt};
ghost use Rattle.cs_types.specs.Keys.{key_cmp};
ghost use Rattle.delete_buffer.specs.Entries.{Entry, AreInOrder};
ghost use Rattle.group_view.specs.Spans.{AreKeysBetween, IsSpanOf};

use cs_types::Key;
use row_group::Packed;

/// Entries of a delete buffer that stand side by side: those at the places from one up to but without another.
#[derive(Clone, Copy, Debug, Drop)]
pub struct Span {
    pub from: usize,
    pub to: usize,
}

/// The least and the greatest key of a group. None where it has no row.
pub fn key_bounds(packed: &Packed) -> Option<(Key, Key)>
    ensures some { IfSome result (λ bounds. AreKeysBetween bounds.0 bounds.1 packed.now) }
    ensures none { IfNone result (length packed.now.rows ≡ 0) }
{
    let count = packed.places().len();
    if count == 0 {
        return None;
    }
    let least = packed.key_at(packed.place(0));
    let greatest = packed.key_at(packed.place(count - 1));
    Some((least, greatest))
}

/// How many entries have keys below this one.
fn entries_below(entries: &[(Key, u64)], key: Key) -> usize
    requires { AreInOrder entries.now }
    ensures { (i : ℕ) (d : Entry) → i < result → i < length entries.now → (slice_index_or entries.now i d).0.0 <ℤ key.0 }
{
    entries.partition_point(
        |entry: &(Key, u64)| -> bool
            ensures { result ≡ is_lt (key_cmp entry.now.0 key) }
        { entry.0 < key },
    )
}

/// How many entries have keys that are not above this one.
fn entries_up_to(entries: &[(Key, u64)], key: Key) -> usize
    requires { AreInOrder entries.now }
    ensures within { result ≤ length entries.now }
    ensures after { (i : ℕ) (d : Entry) → result ≤ i → i < length entries.now → key.0 <ℤ (slice_index_or entries.now i d).0.0 }
{
    entries.partition_point(
        |entry: &(Key, u64)| -> bool
            ensures { result ≡ is_le (key_cmp entry.now.0 key) }
        { entry.0 <= key },
    )
}

/// The entries of keys from the least to the greatest of a group. All others are of keys that no row of it has.
pub fn entries_within(packed: &Packed, entries: &[(Key, u64)]) -> Span
    requires { AreInOrder entries.now }
    ensures { IsSpanOf packed.now entries.now result }
{
    match key_bounds(packed) {
        None => Span { from: 0, to: 0 },
        Some((least, greatest)) => Span {
            from: entries_below(entries, least),
            to: entries_up_to(entries, greatest),
        },
    }
}
