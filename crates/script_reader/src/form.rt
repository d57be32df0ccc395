// The form of a line.
ghost use Rattle.std.specs.Prelude.{◌≡◌, ◌⊎◌, ◌≤◌, ◌<◌, ◌^◌, length, IfOk, IfSome, IsTrue, true, List, ℕ, reverse, codes, if◌then◌else◌, Some, None};
ghost use Rattle.std.specs.List.{list_all, prefix_len, take_while};
ghost use Rattle.std.specs.Option.{option_map, option_map_or};
ghost use Rattle.cs_types.specs.Calendar.{is_digit, digits_value};
ghost use Rattle.script_reader.specs.declared.form.Form.{Form};
ghost use Rattle.script_reader.specs.declared.form.Form.TheVariants.{Other};
ghost use Rattle.script_reader.specs.Grammar.{IsOfForm};
ghost use Rattle.script_reader.specs.Lines as spec;
ghost use Rattle.script_reader.specs.Lines.{is_blank, unblanked, stripped, is_number, session_form, mover_form, numbered_form, form_of};

use crate::script::Step;
use cs_base::{Items, Memory};
use cs_types::Bytes;
use std::alloc::Global;

/// How many digits the number of a session or a mover may have.
const MOST_DIGITS: usize = 9;

/// What a line says by its form.
#[derive(Debug, Drop)]
pub enum Form {
    /// Nothing: it is empty or a comment.
    Skipped,
    /// The setup statement with this text.
    Setup(Bytes),
    /// A step of a session or a mover.
    Ask(Step),
    /// No form of a script has it.
    Other,
}

/// Whether a byte is a tab or a space.
fn is_blank(byte: u8) -> bool
    ensures { result ≡ is_blank byte }
{
    byte == b'\t' || byte == b' '
}

/// The line without the blanks at its start.
fn unblanked(line: &[u8]) -> &[u8]
    ensures { result.now ≡ unblanked line.now }
{
    let mut rest = line;
    'more: while let [first, next @ ..] = rest {
        if !is_blank(*first) {
            return rest;
        }
        rest = next;
    }
    rest
}

/// The line without the blanks at both ends.
fn stripped(line: &[u8]) -> &[u8]
    ensures { result.now ≡ stripped line.now }
{
    let mut rest = unblanked(line);
    'more: while let [front @ .., last] = rest {
        if !is_blank(*last) {
            return rest;
        }
        rest = front;
    }
    rest
}

/// What stands after a prefix, where the line begins with it.
fn behind<'a>(front: &[u8], line: &'a [u8]) -> Option<&'a [u8]>
    ensures { option_map (λ rest. rest.now) result ≡ spec.behind front.now line.now }
{
    line.strip_prefix(front)
}

/// How many digits a line begins with.
fn digits(line: &[u8]) -> usize
    ensures { result ≡ prefix_len is_digit line.now }
{
    let mut at = 0;
    while at < line.len() && line[at].is_ascii_digit() {
        at += 1;
    }
    at
}

/// The number of these digits; None where they are none, over nine, or begin with 0.
fn number_of(digits: &[u8]) -> Option<u32>
    requires { list_all is_digit digits.now ≡ true }
    ensures { result ≡ (if is_number digits.now then Some (digits_value digits.now) else None) }
{
    if digits.is_empty() || digits.len() > MOST_DIGITS || digits[0] == b'0' {
        return None;
    }
    let mut number = 0;
    for digit in digits {
        number = 10 * number + u32::from(*digit - b'0');
    }
    Some(number)
}

/// A copy of a text that is not empty.
fn text_of(alloc: Global, text: &[u8]) -> Result<Option<Bytes>, Memory>
    ensures { IfOk result (λ copy. copy ≡ spec.some_text text.now) }
{
    if text.is_empty() {
        return Ok(None);
    }
    Ok(Some(Items::from_vec(text.to_vec(alloc)?)))
}

/// The text after blanks; None where no blank stands before it, or it is empty.
fn blanked_text(alloc: Global, rest: &[u8]) -> Result<Option<Bytes>, Memory>
    ensures { IfOk result (λ copy. copy ≡ spec.blanked_text rest.now) }
{
    match rest {
        [first, text @ ..] if is_blank(*first) => text_of(alloc, unblanked(text)),
        _ => Ok(None),
    }
}

/// The form of a line by what stands after its session.
fn session_form(alloc: Global, session: u32, rest: &[u8]) -> Result<Form, Memory>
    ensures { IfOk result (λ form. form ≡ session_form session rest.now) }
{
    let step = match rest {
        [b'>', text @ ..] => text_of(alloc, unblanked(text))?.map(|text| Step::Begun {
            session,
            text,
        }),
        [b'<'] => Some(Step::Finished { session }),
        [b'<', ..] => None,
        _ => blanked_text(alloc, rest)?.map(|text| Step::Whole { session, text }),
    };
    Ok(step.map_or(Form::Other, Form::Ask))
}

/// The form of a line by what stands after its mover.
fn mover_form(mover: u32, rest: &[u8]) -> Form
    ensures { result ≡ mover_form mover rest.now }
{
    match rest {
        [] => Form::Ask(Step::Turn { mover }),
        [b'>'] => Form::Ask(Step::Claiming { mover }),
        [b'<'] => Form::Ask(Step::Installing { mover }),
        _ => Form::Other,
    }
}

/// The number that a line begins with, and what stands after its digits; None where it begins with no number.
fn numbered(line: &[u8]) -> Option<(u32, &[u8])>
    // It gives each line its form by what stands after `s` or `m`.
    ensures { (form : ℕ → List ℕ → Form) → option_map_or (λ x. form x.0 x.1.now) result Other ≡ numbered_form form line.now }
{
    let (front, rest) = line.split_at(digits(line));
    let number = number_of(front)?;
    Some((number, rest))
}

/// The form of a line by what stands after its `setup`.
fn setup_form(alloc: Global, rest: &[u8]) -> Result<Form, Memory>
    ensures { IfOk result (λ form. form ≡ spec.setup_form rest.now) }
{
    match blanked_text(alloc, rest)? {
        Some(text) => Ok(Form::Setup(text)),
        None => Ok(Form::Other),
    }
}

/// The form of a line by what stands after its `s`.
fn session_line(alloc: Global, rest: &[u8]) -> Result<Form, Memory>
    ensures { IfOk result (λ form. form ≡ numbered_form session_form rest.now) }
{
    match numbered(rest) {
        Some((session, rest)) => session_form(alloc, session, rest),
        None => Ok(Form::Other),
    }
}

/// The form of a line by what stands after its `m`.
fn mover_line(rest: &[u8]) -> Form
    ensures { result ≡ numbered_form mover_form rest.now }
{
    match numbered(rest) {
        Some((mover, rest)) => mover_form(mover, rest),
        None => Form::Other,
    }
}

/// The form of a line by what it begins with: `setup`, `s` or `m`.
fn named_form(alloc: Global, line: &[u8]) -> Result<Form, Memory>
    ensures { IfOk result (λ form. form ≡ spec.named_form line.now) }
{
    if let Some(rest) = behind(b"setup", line) {
        return setup_form(alloc, rest);
    }
    if let Some(rest) = behind(b"s", line) {
        return session_line(alloc, rest);
    }
    match behind(b"m", line) {
        Some(rest) => Ok(mover_line(rest)),
        None => Ok(Form::Other),
    }
}

/// The form of a line without blanks at its ends.
fn bare_form(alloc: Global, line: &[u8]) -> Result<Form, Memory>
    ensures { IfOk result (λ form. form ≡ spec.bare_form line.now) }
{
    if line.is_empty() || line.starts_with(b"--") {
        return Ok(Form::Skipped);
    }
    named_form(alloc, line)
}

/// The form of a line, with copies of its texts. `Memory` comes where there is no room for them.
#[tactic(auto, unfolding(crate::specs::Lines::form_of))]
pub fn form_of(alloc: Global, line: &[u8]) -> Result<Form, Memory>
    ensures form { IfOk result (λ form. form ≡ form_of line.now) }
    // That form is the grammar's, or there is none.
    ensures sound { (form_of line.now ≡ Other) ⊎ IsOfForm (stripped line.now) (form_of line.now) }
    // A line of a form of the grammar has that form, and no other.
    ensures whole { (form : Form) → IsOfForm (stripped line.now) form → form_of line.now ≡ form }
{
    bare_form(alloc, stripped(line))
}
