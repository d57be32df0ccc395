//! The values of names and literals.

ghost use Rattle.std.specs.Prelude.{◌≡◌, ◌++◌, IfOk};
ghost use Rattle.tsql_grammar.specs.Values.{name_of, with_digit, digits_value, behind_point, has_point, number_in, number_of, sign_of, signed, undoubled, inner, text_of};

use cs_base::{Items, Memory};
use std::alloc::Global;
use tsql_grammar::{Symbol, Terminal, bytes_at, is_same, unbracketed};
use tsql_trees::{Bytes, NameTree, NumberTree, SignTree, TextTree};

fn copied(alloc: Global, bytes: &[u8]) -> Result<Bytes, Memory>
    ensures { IfOk result (λ copy. copy ≡ bytes.now) }
{
    Ok(Items::from_vec(bytes.to_vec(alloc)?))
}

/// The name that a token is.
pub fn name_of(alloc: Global, text: &[u8], symbol: &Symbol) -> Result<NameTree, Memory>
    ensures { IfOk result (λ name. name ≡ name_of text.now symbol.now) }
{
    let bytes = unbracketed(bytes_at(text, symbol.place, symbol.size));
    Ok(NameTree {
        place: symbol.place,
        bytes: copied(alloc, bytes)?,
    })
}

fn with_digit(value: u64, byte: u8) -> u64
    ensures { result ≡ with_digit value byte }
{
    if byte.is_ascii_digit() {
        value
            .saturating_mul(10)
            .saturating_add(u64::from(byte - b'0'))
    } else {
        value
    }
}

/// The number that the digits make, whatever stands between them.
fn digits_value(bytes: &[u8]) -> u64
    ensures { result ≡ digits_value 0 bytes.now }
{
    let mut value = 0;
    let mut rest = bytes;
    'more: while let [first, next @ ..] = rest {
        value = with_digit(value, *first);
        rest = next;
    }
    value
}

fn behind_point(bytes: &[u8]) -> &[u8]
    ensures { result.now ≡ behind_point bytes.now }
{
    let mut rest = bytes;
    'more: while let [first, next @ ..] = rest {
        if *first == b'.' {
            return next;
        }
        rest = next;
    }
    rest
}

fn has_point(bytes: &[u8]) -> bool
    ensures { result ≡ has_point bytes.now }
{
    let mut rest = bytes;
    'more: while let [first, next @ ..] = rest {
        if *first == b'.' {
            return true;
        }
        rest = next;
    }
    false
}

/// The number that a token is.
pub fn number_of(text: &[u8], symbol: &Symbol) -> NumberTree
    ensures { result ≡ number_of text.now symbol.now }
{
    let bytes = bytes_at(text, symbol.place, symbol.size);
    NumberTree {
        place: symbol.place,
        minus: false,
        digits: digits_value(bytes),
        s: behind_point(bytes).len().min(255) as u8,
        point: has_point(bytes),
    }
}

/// The sign that a symbol is: minus, or else plus.
pub fn sign_of(symbol: &Symbol) -> SignTree
    ensures { result ≡ sign_of symbol.now }
{
    SignTree {
        place: symbol.place,
        minus: is_same(symbol.terminal, Terminal::MinusSign),
    }
}

/// A text's bytes between its quotes, in which a doubled quote is one.
fn undoubled(alloc: Global, bytes: &[u8]) -> Result<Bytes, Memory>
    ensures { IfOk result (λ text. text ≡ undoubled bytes.now) }
{
    let mut text = Items::new(alloc);
    text.reserve(bytes.len())?;
    let mut rest = bytes;
    'more: while let [first, next @ ..] = rest {
        text.push(*first)?;
        rest = match (*first, next) {
            (b'\'', [_, after @ ..]) => after,
            _ => next,
        };
    }
    Ok(text)
}

/// The bytes without the first and the last.
fn inner(bytes: &[u8]) -> &[u8]
    ensures { result.now ≡ inner bytes.now }
{
    match bytes {
        [_, more @ ..] => &more[..more.len().saturating_sub(1)],
        [] => bytes,
    }
}

/// The text that a token is.
pub fn text_of(alloc: Global, text: &[u8], symbol: &Symbol) -> Result<TextTree, Memory>
    ensures { IfOk result (λ t. t ≡ text_of text.now symbol.now) }
{
    let bytes = inner(bytes_at(text, symbol.place, symbol.size));
    Ok(TextTree {
        place: symbol.place,
        bytes: undoubled(alloc, bytes)?,
    })
}
