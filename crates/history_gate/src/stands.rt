// The values that a gate takes.

/// A value that stands for a history: a list of entries, each with the number of its maker. It has no calls, and what a
/// gate does rests on these two meanings alone.
pub trait Stands {
    ghost use Rattle.std.specs.Prelude.{List, ℕ};

    /// An entry of the history.
    type Entry;

    // The entries of the history that the value stands for, the oldest first.
    ghost list: { Self → List Self.Entry };

    // The number of an entry.
    ghost number: { Self.Entry → ℕ };
}
