// Versions as groups keep them, and when a snapshot sees one.
ghost use Rattle.std.specs.Prelude.{◌≡◌};
ghost use Rattle.std.specs.Option.{option_map};
ghost use Rattle.group_book.specs.Book.{has_ended, is_buffered, is_visible};
ghost use Rattle.group_book.specs.Book.End.{At};
ghost use Rattle.group_view.specs.Parts.{end_of_mark, lived_version};
ghost use Rattle.group_view.specs.Views.{endings_of};

use cs_types::Key;
use delete_bitmap::MarkedEnd;
use delete_buffer::Ends;

/// A version without its row.
#[derive(Clone, Copy, Debug, PartialEq, Eq)]
pub struct Lived {
    /// The key of its row.
    pub key: Key,
    /// The commit number from which it is seen.
    pub begin: u64,
    /// The end that is recorded beside it. Another may stand in the delete buffer.
    pub end: Option<MarkedEnd>,
}

impl Lived {
    /// Whether the snapshot `s` sees the version: it has begun, no recorded end is plain or at most `s`, and the buffer has no
    /// entry of its key above its begin and at most `s` (Larson et al., PVLDB 2015, section 4).
    pub fn is_visible(&self, buffer: &Ends, s: u64) -> bool
        ensures { result ≡ is_visible (endings_of buffer.now) s (lived_version self.now) }
    {
        self.begin <= s && !has_ended(s, self.end) && !is_buffered(buffer, self.key, self.begin, s)
    }
}

/// Whether a recorded end is plain or at most `s`.
pub fn has_ended(s: u64, end: Option<MarkedEnd>) -> bool
    ensures { result ≡ has_ended s (end_of_mark end) }
{
    match end {
        None => false,
        Some(MarkedEnd::Plain) => true,
        Some(MarkedEnd::Stamped(commit)) => commit <= s,
    }
}

/// Whether the buffer has an entry of the key above the begin and at most `s`.
pub fn is_buffered(buffer: &Ends, key: Key, begin: u64, s: u64) -> bool
    ensures { result ≡ is_buffered (endings_of buffer.now) key begin s }
{
    match buffer.ends(key, begin) {
        Some(end) => end <= s,
        None => false,
    }
}

/// The end of a stored version as a bitmap would record it.
pub fn stamp_of(end: Option<u64>) -> Option<MarkedEnd>
    ensures { end_of_mark result ≡ option_map At end }
{
    match end {
        Some(commit) => Some(MarkedEnd::Stamped(commit)),
        None => None,
    }
}
