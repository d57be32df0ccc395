// The modes of the program.
ghost use Rattle.std.specs.Prelude.{◌≡◌, map, string_bytes};
ghost use Rattle.command_words.specs.Options.{rows_of};
ghost use Rattle.command_words.specs.Orders.{options_with, workload_with};
ghost use Rattle.command_words.specs.Walk.{row_of, mode_named, value_among, order_in};

use crate::option::{
    CommandOption, DIRECT_ROWS, GENERATE, GROUP_ROWS, LOAD, MOVERS, NUMBER, REPLAY, RUN, SESSIONS,
    STATEMENTS, WORKERS,
};
use crate::order::{Order, RunOptions, Workload};
use crate::pairs::{are_pairs, value_among};

/// A mode of the program: what its first word says.
#[derive(Clone, Copy, Debug, PartialEq, Eq)]
pub enum Mode {
    /// `replay`.
    Replay,
    /// `run`.
    Run,
    /// `generate`.
    Generate,
    /// `load`.
    Load,
}

/// The options of a run with the values that the words give them.
fn options_among(words: &[String]) -> RunOptions
    ensures { result ≡ options_with (λ row. value_among row (map string_bytes words.now)) }
{
    RunOptions {
        group_rows: value_among(&GROUP_ROWS, words),
        direct_rows: value_among(&DIRECT_ROWS, words),
        workers: value_among(&WORKERS, words),
    }
}

/// The workload with the values that the words give its options.
fn workload_among(words: &[String]) -> Workload
    ensures { result ≡ workload_with (λ row. value_among row (map string_bytes words.now)) }
{
    Workload {
        number: value_among(&NUMBER, words),
        sessions: value_among(&SESSIONS, words),
        statements: value_among(&STATEMENTS, words),
    }
}

impl Mode {
    /// The mode of a word.
    pub fn of_word(word: &str) -> Option<Mode>
        ensures { result ≡ mode_named word.now }
    {
        match word {
            "replay" => Some(Mode::Replay),
            "run" => Some(Mode::Run),
            "generate" => Some(Mode::Generate),
            "load" => Some(Mode::Load),
            _ => None,
        }
    }

    /// The options of the mode.
    pub fn options(self) -> &'static [CommandOption]
        ensures { map row_of result.now ≡ rows_of self }
    {
        match self {
            Mode::Replay => &REPLAY,
            Mode::Run => &RUN,
            Mode::Generate => &GENERATE,
            Mode::Load => &LOAD,
        }
    }

    /// The order of the mode with the words after it; None where they are no pairs of its options and their values.
    pub fn order(self, words: &[String]) -> Option<Order>
        ensures { result ≡ order_in self (map string_bytes words.now) }
    {
        if !are_pairs(self, words) {
            return None;
        }
        Some(match self {
            Mode::Replay => Order::Replay(options_among(words)),
            Mode::Run => Order::Run {
                options: options_among(words),
                movers: value_among(&MOVERS, words),
            },
            Mode::Generate => Order::Generate(workload_among(words)),
            Mode::Load => Order::Load {
                workload: workload_among(words),
                options: options_among(words),
            },
        })
    }
}
