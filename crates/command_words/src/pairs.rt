// The pairs of an option and a value that stand after the mode.
ghost use Rattle.std.specs.Prelude.{◌≡◌, map, string_bytes};
ghost use Rattle.command_words.specs.Orders.{is_of, is_pair};
ghost use Rattle.std.specs.List.{list_any};
ghost use Rattle.command_words.specs.Walk as spec;
ghost use Rattle.command_words.specs.Walk.{row_of};

use crate::mode::Mode;
use crate::option::CommandOption;

/// Whether a name and a text are one of the options and a value of it.
fn is_pair_of(options: &[CommandOption], name: &str, value: &str) -> bool
    ensures { result ≡ list_any (is_of (name.now, value.now)) (map row_of options.now) }
{
    let mut rest = options;
    'options: while let [option, next @ ..] = rest {
        if option.name == name && option.value(value).is_some() {
            return true;
        }
        rest = next;
    }
    false
}

/// Whether a name and a text are an option of the mode and a value of it.
#[tactic(auto, unfolding(crate::specs::Orders::is_pair))]
fn is_pair(mode: Mode, name: &str, value: &str) -> bool
    ensures { result ≡ is_pair mode (name.now, value.now) }
{
    is_pair_of(mode.options(), name, value)
}

/// Whether one of the names is this one, where names and values stand in turn.
fn is_named(name: &str, words: &[String]) -> bool
    ensures { result ≡ spec.is_named name.now (map string_bytes words.now) }
{
    let mut rest = words;
    'pairs: while let [other, _, next @ ..] = rest {
        if name == other.as_str() {
            return true;
        }
        rest = next;
    }
    false
}

/// Whether the words are pairs of an option of the mode and a value of it, no option twice.
pub fn are_pairs(mode: Mode, words: &[String]) -> bool
    ensures { result ≡ spec.are_pairs mode (map string_bytes words.now) }
{
    let mut rest = words;
    'pairs: while let [name, value, next @ ..] = rest {
        if !is_pair(mode, name.as_str(), value.as_str()) || is_named(name.as_str(), next) {
            return false;
        }
        rest = next;
    }
    rest.is_empty()
}

/// The value that the words give an option, or its usual one where its name does not stand among theirs.
pub fn value_among(option: &CommandOption, words: &[String]) -> u32
    ensures { result ≡ spec.value_among (row_of option.now) (map string_bytes words.now) }
{
    let mut rest = words;
    'pairs: while let [name, value, next @ ..] = rest {
        if option.name == name.as_str() {
            return option.value(value.as_str()).unwrap_or(option.usual);
        }
        rest = next;
    }
    option.usual
}
