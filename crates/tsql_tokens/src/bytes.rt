ghost use Rattle.std.specs.Prelude.{◌≡◌};
ghost use Rattle.tsql_tokens.specs.Bytes.{is_blank, is_digit, begins_word, goes_on_word, next_is, skip_while};

/// A space or a tab.
#[tactic(auto, unfolding(crate::specs::Bytes::is_blank))]
pub fn is_blank(byte: u8) -> bool
    ensures { result ≡ is_blank byte }
{
    byte == b' ' || byte == b'\t'
}

#[tactic(auto, unfolding(crate::specs::Bytes::is_digit))]
pub fn is_digit(byte: u8) -> bool
    ensures { result ≡ is_digit byte }
{
    b'0' <= byte && byte <= b'9'
}

/// A letter or `_`.
#[tactic(auto, unfolding(crate::specs::Bytes::begins_word))]
pub fn begins_word(byte: u8) -> bool
    ensures { result ≡ begins_word byte }
{
    (b'A' <= byte && byte <= b'Z') || (b'a' <= byte && byte <= b'z') || byte == b'_'
}

/// A letter, a digit, `_`, `$`, `#` or `@`.
#[tactic(auto, unfolding(crate::specs::Bytes::goes_on_word))]
pub fn goes_on_word(byte: u8) -> bool
    ensures { result ≡ goes_on_word byte }
{
    begins_word(byte) || is_digit(byte) || byte == b'$' || byte == b'#' || byte == b'@'
}

/// Whether a digit is next.
pub fn digit_is_next(text: &[u8]) -> bool
    ensures { result ≡ next_is is_digit text.now }
{
    match text {
        [first, ..] => is_digit(*first),
        [] => false,
    }
}

/// What is after the digits at the beginning.
pub fn skip_digits(text: &[u8]) -> &[u8]
    ensures { result.now ≡ skip_while is_digit text.now }
{
    let mut rest = text;
    'more: while let [first, next @ ..] = rest {
        if !is_digit(*first) {
            break;
        }
        rest = next;
    }
    rest
}

/// What is after the bytes at the beginning that a word may go on with.
pub fn skip_word(text: &[u8]) -> &[u8]
    ensures { result.now ≡ skip_while goes_on_word text.now }
{
    let mut rest = text;
    'more: while let [first, next @ ..] = rest {
        if !goes_on_word(*first) {
            break;
        }
        rest = next;
    }
    rest
}
