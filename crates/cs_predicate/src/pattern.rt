//! Texts and patterns.

ghost use Rattle.std.specs.Prelude.{◌≡◌, ◌≤◌, length};
ghost use Rattle.cs_model.specs.Likes as spec;
ghost use Rattle.cs_model.specs.Likes.{has_end};
ghost use Rattle.cs_predicate.specs.Verdicts.{says, SaysOfEnds, to_compare};

/// What is known of a text and a pattern once they are compared up to the pattern's next `%`.
#[derive(Clone, Copy)]
enum Verdict<'a> {
    /// The text is like the pattern.
    Like,
    /// It is not.
    Unlike,
    /// It is if an end of this text is like this pattern, which stand after the bytes compared.
    Open { pattern: &'a [u8], text: &'a [u8] },
}

/// Whether a byte of a pattern, other than `%`, stands for a byte.
fn meets(first: u8, byte: u8) -> bool
    ensures { result ≡ spec.meets first byte }
{
    first == b'_' || first == byte
}

/// Compares a text with a pattern up to the pattern's next `%`.
fn front<'a>(pattern: &'a [u8], text: &'a [u8]) -> Verdict<'a>
    ensures says { says result ≡ spec.is_like pattern.now text.now }
    ensures ends { SaysOfEnds result (has_end (spec.is_like pattern.now) text.now) }
    ensures smaller { to_compare result ≤ length pattern.now }
{
    let mut rest = pattern;
    let mut left = text;
    while let Some((first, behind)) = rest.split_first() {
        if *first == b'%' {
            return Verdict::Open {
                pattern: behind,
                text: left,
            };
        }
        match left.split_first() {
            Some((byte, after)) if meets(*first, *byte) => {
                rest = behind;
                left = after;
            }
            _ => return Verdict::Unlike,
        }
    }
    if left.is_empty() {
        Verdict::Like
    } else {
        Verdict::Unlike
    }
}

/// Compares the ends of a text with a pattern up to the pattern's next `%`. The first end whose beginning fits decides: what an
/// end further on leaves after its own beginning is an end of what this one leaves.
fn front_of_ends<'a>(pattern: &'a [u8], text: &'a [u8]) -> Verdict<'a>
    ensures says { says result ≡ has_end (spec.is_like pattern.now) text.now }
    ensures smaller { to_compare result ≤ length pattern.now }
{
    let mut left = text;
    while let Some((_, after)) = left.split_first() {
        let found = front(pattern, left);
        if !matches!(found, Verdict::Unlike) {
            return found;
        }
        left = after;
    }
    front(pattern, left)
}

/// Whether a text is like a pattern: in the pattern `%` is any run of bytes, `_` one byte, any other byte itself. It takes
/// no memory, and at most as many steps as the lengths of both multiplied.
pub fn is_like(pattern: &[u8], text: &[u8]) -> bool
    ensures { result ≡ spec.is_like pattern.now text.now }
{
    let mut found = front(pattern, text);
    while let Verdict::Open { pattern, text } = found {
        found = front_of_ends(pattern, text);
    }
    matches!(found, Verdict::Like)
}
