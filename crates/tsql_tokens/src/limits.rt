//! The limits of tokens.

ghost use Rattle.std.specs.Prelude.{◌≡◌, ◌+◌, ◌<◌, ◌≤◌, ◌^◌, ◌-◌, length, IfSome};
ghost use Rattle.std.specs.Option.{option_map};
ghost use Rattle.tsql_tokens.specs.Limits.{is_long_number, has_tab, too_deep, over_limit, open_after, whole_if};

use crate::bytes::{is_digit, skip_digits};
use crate::lexeme::{Lexeme, closes, opens, skip};

/// How many bytes a name may have.
const LONGEST_NAME: usize = 128;

/// How many parentheses and comments may be open at one place.
const MOST_OPEN: u32 = 64;

/// Whether a number has more than 19 digits in all, or more than 18 after the point.
#[tactic(auto, unfolding(crate::specs::Limits::is_long_number))]
fn is_long_number(bytes: &[u8]) -> bool
    ensures { result ≡ is_long_number bytes.now }
{
    let digits = bytes.iter().filter(|byte| is_digit(**byte)).count();
    let part = match skip_digits(bytes) {
        [_, part @ ..] => part.len(),
        [] => 0,
    };
    digits > 19 || part > 18
}

#[tactic(auto, unfolding(crate::specs::Limits::has_tab))]
fn has_tab(bytes: &[u8]) -> bool
    ensures { result ≡ has_tab bytes.now }
{
    bytes.iter().any(|byte| *byte == b'\t')
}

/// A comment's bytes from the opening on that is one too many, where `count` parentheses and comments are open
/// before it.
#[tactic(auto, using(crate::proofs::Comments::deep_steps))]
fn too_deep(count: u32, bytes: &[u8]) -> Option<&[u8]>
    ensures within { IfSome result (λ rest. length rest.now ≤ length bytes.now) }
    ensures rest { option_map (λ rest. rest.now) result ≡ too_deep count bytes.now }
{
    let mut count = count;
    let mut rest = bytes;
    'more: while rest.len() >= 2 {
        if opens(rest) {
            if count >= MOST_OPEN {
                return Some(rest);
            }
            count += 1;
            rest = skip(rest, 2);
        } else if closes(rest) {
            count = count.saturating_sub(1);
            rest = skip(rest, 2);
        } else {
            rest = skip(rest, 1);
        }
    }
    None
}

fn whole_if(over: bool, bytes: &[u8]) -> Option<&[u8]>
    ensures within { IfSome result (λ rest. length rest.now ≤ length bytes.now) }
    ensures rest { option_map (λ rest. rest.now) result ≡ whole_if over bytes.now }
{
    if over { Some(bytes) } else { None }
}

/// The bytes of a lexeme from the one on that is over a limit, where `count` parentheses are open before it.
#[tactic(auto, unfolding(crate::specs::Limits::over_limit))]
pub fn over_limit(count: u32, lexeme: Lexeme, bytes: &[u8]) -> Option<&[u8]>
    ensures within { IfSome result (λ rest. length rest.now ≤ length bytes.now) }
    ensures rest { option_map (λ rest. rest.now) result ≡ over_limit count lexeme bytes.now }
{
    match lexeme {
        Lexeme::Blank | Lexeme::LineComment => None,
        Lexeme::Comment => too_deep(count, bytes),
        Lexeme::Word => whole_if(bytes.len() > LONGEST_NAME, bytes),
        Lexeme::Bracketed => whole_if(bytes.len().saturating_sub(2) > LONGEST_NAME, bytes),
        Lexeme::Number => whole_if(is_long_number(bytes), bytes),
        Lexeme::Text => whole_if(has_tab(bytes), bytes),
        Lexeme::Sign => whole_if(matches!(bytes, [b'(', ..]) && count >= MOST_OPEN, bytes),
    }
}

/// How many parentheses are open after a lexeme. A `)` that closes none changes nothing.
#[tactic(auto, unfolding(crate::specs::Limits::open_after))]
pub fn open_after(count: u32, lexeme: Lexeme, bytes: &[u8]) -> u32
    requires { count < 2 ^ 31 }
    ensures value { result ≡ open_after count lexeme bytes.now }
    ensures more { result ≤ count + 1 }
{
    match (lexeme, bytes) {
        (Lexeme::Sign, [b'(', ..]) => count + 1,
        (Lexeme::Sign, [b')', ..]) => count.saturating_sub(1),
        _ => count,
    }
}
