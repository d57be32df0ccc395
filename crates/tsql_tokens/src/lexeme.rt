//! What stands at the beginning of a text.

ghost use Rattle.std.specs.Prelude.{◌≡◌, ◌≢◌, ◌<◌, ◌≤◌, ◌++◌, [], ◌∷◌, ℕ, ◌+◌, ◌^◌, ◌==◌, not, length, drop, IfSome};
ghost use Rattle.std.specs.Option.{option_map};
ghost use Rattle.tsql_tokens.specs.Bytes.{next_is, skip_while};
ghost use Rattle.tsql_tokens.specs.Lexemes.{begins_number, begun, lexeme_at, opens, closes, is_pair, is_single};
ghost use Rattle.tsql_tokens.specs.Behind.{after_one, after_number, after_text, after_bracket, after_comment, after_sign, behind, piece_at, seen};

use crate::bytes::{
    begins_word, digit_is_next, goes_on_word, is_blank, is_digit, skip_digits, skip_word,
};

/// What a text is made of: what only separates tokens, and the tokens by how they begin.
#[derive(Clone, Copy, Debug, PartialEq, Eq)]
pub enum Lexeme {
    Blank,
    LineComment,
    Comment,
    Word,
    Bracketed,
    Number,
    Text,
    Sign,
}

/// The lexeme at the beginning of a text, its bytes, and what is after it.
#[derive(Clone, Copy)]
pub struct Piece<'a> {
    pub lexeme: Lexeme,
    pub bytes: &'a [u8],
    pub after: &'a [u8],
}

#[tactic(auto, unfolding(crate::specs::Lexemes::begins_number))]
/// Whether a number begins here: with a digit, or with a point that a digit follows and that stands after no name.
fn begins_number(first: u8, next: &[u8], after_name: bool) -> bool
    ensures { result ≡ begins_number after_name first next.now }
{
    is_digit(first) || (first == b'.' && digit_is_next(next) && !after_name)
}

fn next_is(text: &[u8], byte: u8) -> bool
    ensures { result ≡ next_is (λ b. b == byte) text.now }
{
    match text {
        [first, ..] => *first == byte,
        [] => false,
    }
}

#[tactic(auto, unfolding(crate::specs::Lexemes::begun, crate::specs::Lexemes::begins_line_comment, crate::specs::Lexemes::begins_comment))]
/// Which lexeme the first bytes begin. What begins nothing else is a sign, or none.
fn begun(first: u8, next: &[u8], after_name: bool) -> Lexeme
    ensures { result ≡ begun after_name first next.now }
{
    if is_blank(first) {
        Lexeme::Blank
    } else if begins_word(first) {
        Lexeme::Word
    } else if begins_number(first, next, after_name) {
        Lexeme::Number
    } else if first == b'\'' {
        Lexeme::Text
    } else if first == b'[' {
        Lexeme::Bracketed
    } else if first == b'-' && next_is(next, b'-') {
        Lexeme::LineComment
    } else if first == b'/' && next_is(next, b'*') {
        Lexeme::Comment
    } else {
        Lexeme::Sign
    }
}

fn lexeme_at(text: &[u8], after_name: bool) -> Lexeme
    ensures { result ≡ lexeme_at after_name text.now }
{
    match text {
        [first, next @ ..] => begun(*first, next, after_name),
        [] => Lexeme::Sign,
    }
}

/// What is after the digits, the point and the digits at the beginning.
fn after_number(text: &[u8]) -> &[u8]
    ensures { result.now ≡ after_number text.now }
{
    match skip_digits(text) {
        [b'.', part @ ..] => skip_digits(part),
        rest => rest,
    }
}

/// What is after the next `]`.
fn after_close(text: &[u8]) -> Option<&[u8]>
    ensures { option_map (λ rest. rest.now) result ≡ after_one (skip_while (λ b. not (b == 93)) text.now) }
{
    let mut rest = text;
    'more: while let [first, next @ ..] = rest {
        if *first == b']' {
            return Some(next);
        }
        rest = next;
    }
    None
}

/// What is after the bracket that closes a name, whose first byte is next. It is None where there is no byte before
/// the bracket, or no bracket.
fn after_bracket(text: &[u8]) -> Option<&[u8]>
    ensures { option_map (λ rest. rest.now) result ≡ after_bracket text.now }
{
    match text {
        [] | [b']', ..] => None,
        [_, next @ ..] => after_close(next),
    }
}

/// What is after the quote that ends a text whose first byte is next.
fn after_text(text: &[u8]) -> Option<&[u8]>
    ensures { option_map (λ rest. rest.now) result ≡ after_text text.now }
{
    let mut rest = text;
    'more: while let [first, next @ ..] = rest {
        rest = match (*first, next) {
            (b'\'', [b'\'', after @ ..]) => after,
            (b'\'', _) => return Some(next),
            _ => next,
        };
    }
    None
}

/// Whether a comment opens here.
#[tactic(auto, unfolding(crate::specs::Lexemes::opens))]
pub fn opens(text: &[u8]) -> bool
    ensures { result ≡ opens text.now }
{
    matches!(text, [b'/', b'*', ..])
}

/// Whether a comment closes here.
#[tactic(auto, unfolding(crate::specs::Lexemes::closes))]
pub fn closes(text: &[u8]) -> bool
    ensures { result ≡ closes text.now }
{
    matches!(text, [b'*', b'/', ..])
}

/// What is after the next `count` bytes.
pub fn skip(text: &[u8], count: usize) -> &[u8]
    requires { count ≤ length text.now }
    ensures { result.now ≡ drop count text.now }
{
    &text[count..]
}

/// What is after the next `count` bytes, or nothing where there are fewer.
fn after_bytes(text: &[u8], count: usize) -> &[u8]
    ensures value { result.now ≡ drop count text.now }
    ensures shorter { length result.now ≤ length text.now }
{
    if count <= text.len() {
        &text[count..]
    } else {
        &[]
    }
}

/// What is after the end of the last of `count` open comments.
#[tactic(auto, using(crate::proofs::Comments::comment_steps))]
fn after_comment(count: u32, text: &[u8]) -> Option<&[u8]>
    requires some { 0 < count }
    requires fits { count + length text.now < 2 ^ 32 }
    ensures { option_map (λ rest. rest.now) result ≡ after_comment count text.now }
{
    let mut count = count;
    let mut rest = text;
    'more: while rest.len() >= 2 {
        if closes(rest) {
            if count == 1 {
                return Some(skip(rest, 2));
            }
            count -= 1;
            rest = skip(rest, 2);
        } else if opens(rest) {
            count += 1;
            rest = skip(rest, 2);
        } else {
            rest = skip(rest, 1);
        }
    }
    None
}

#[tactic(auto, unfolding(crate::specs::Lexemes::is_single))]
fn is_single(byte: u8) -> bool
    ensures { result ≡ is_single byte }
{
    matches!(
        byte,
        b'(' | b')' | b',' | b'.' | b';' | b'*' | b'+' | b'-' | b'/' | b'%' | b'=' | b'<' | b'>'
    )
}

#[tactic(auto, unfolding(crate::specs::Lexemes::is_pair))]
fn is_pair(first: u8, second: u8) -> bool
    ensures { result ≡ is_pair first second }
{
    matches!(
        (first, second),
        (b'<', b'>') | (b'!', b'=') | (b'<', b'=') | (b'>', b'=')
    )
}

/// What is after the longest sign.
fn after_sign(text: &[u8]) -> Option<&[u8]>
    ensures { option_map (λ rest. rest.now) result ≡ after_sign text.now }
{
    match text {
        [first, second, next @ ..] if is_pair(*first, *second) => Some(next),
        [first, next @ ..] if is_single(*first) => Some(next),
        _ => None,
    }
}

/// What is after a lexeme at the beginning of a text, or None where it does not stand there.
#[tactic(auto, unfolding(crate::specs::Behind::behind))]
fn behind(lexeme: Lexeme, text: &[u8]) -> Option<&[u8]>
    requires { length text.now < 2 ^ 31 }
    ensures { option_map (λ rest. rest.now) result ≡ behind lexeme text.now }
{
    match lexeme {
        Lexeme::Blank => Some(after_bytes(text, 1)),
        Lexeme::LineComment => Some(&[]),
        Lexeme::Comment => after_comment(1, after_bytes(text, 2)),
        Lexeme::Word => Some(skip_word(text)),
        Lexeme::Bracketed => after_bracket(after_bytes(text, 1)),
        Lexeme::Number => Some(after_number(text)),
        Lexeme::Text => after_text(after_bytes(text, 1)),
        Lexeme::Sign => after_sign(text),
    }
}

/// The lexeme at the beginning of a text, or None where none stands there. `after_name` says whether the last token before
/// it is a name.
#[tactic(auto, unfolding(crate::specs::Behind::piece_at), using(crate::proofs::Comments::comment_steps))]
pub fn piece_at(text: &[u8], after_name: bool) -> Option<Piece<'_>>
    requires some { 0 < length text.now }
    requires fits { length text.now < 2 ^ 31 }
    ensures found { option_map seen result ≡ piece_at after_name text.now }
    ensures shorter { IfSome result (λ piece. length piece.after.now < length text.now) }
    ensures size { IfSome result (λ piece. length piece.bytes.now + length piece.after.now ≡ length text.now) }
{
    let lexeme = lexeme_at(text, after_name);
    let after = behind(lexeme, text)?;
    Some(Piece {
        lexeme,
        bytes: &text[..text.len() - after.len()],
        after,
    })
}
