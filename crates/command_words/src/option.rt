// The options of the program, and the values that they take.
ghost use Rattle.std.specs.Prelude.{◌≡◌};
ghost use Rattle.command_words.specs.Walk.{row_of, number_in, value_in};

/// The most digits of a value.
const MOST_DIGITS: usize = 10;

/// A line of the table of options.
#[derive(Clone, Copy, Debug)]
pub struct CommandOption {
    /// Its word.
    pub name: &'static str,
    /// The least value.
    pub least: u32,
    /// The greatest value.
    pub greatest: u32,
    /// The value where the option does not stand.
    pub usual: u32,
}

/// The most versions of a row group.
pub const GROUP_ROWS: CommandOption = CommandOption {
    name: "--group-rows",
    least: 2,
    greatest: 1_048_576,
    usual: 1_048_576,
};

/// From how many rows on a commit loads them directly.
pub const DIRECT_ROWS: CommandOption = CommandOption {
    name: "--direct-rows",
    least: 1,
    greatest: 1_048_576,
    usual: 102_400,
};

/// How many workers a scan has.
pub const WORKERS: CommandOption = CommandOption {
    name: "--workers",
    least: 1,
    greatest: 16,
    usual: 1,
};

/// How many movers work beside the sessions.
pub const MOVERS: CommandOption = CommandOption {
    name: "--movers",
    least: 0,
    greatest: 8,
    usual: 1,
};

/// The number that a workload is drawn from.
pub const NUMBER: CommandOption = CommandOption {
    name: "--number",
    least: 0,
    greatest: 2_147_483_647,
    usual: 1,
};

/// The sessions of a workload.
pub const SESSIONS: CommandOption = CommandOption {
    name: "--sessions",
    least: 1,
    greatest: 64,
    usual: 4,
};

/// The statements of a workload.
pub const STATEMENTS: CommandOption = CommandOption {
    name: "--statements",
    least: 0,
    greatest: 200_000,
    usual: 1_000,
};

/// The options of the mode `replay`.
pub const REPLAY: [CommandOption; 3] = [GROUP_ROWS, DIRECT_ROWS, WORKERS];

/// The options of the mode `run`.
pub const RUN: [CommandOption; 4] = [GROUP_ROWS, DIRECT_ROWS, WORKERS, MOVERS];

/// The options of the mode `generate`.
pub const GENERATE: [CommandOption; 3] = [NUMBER, SESSIONS, STATEMENTS];

/// The options of the mode `load`.
pub const LOAD: [CommandOption; 6] = [
    GROUP_ROWS,
    DIRECT_ROWS,
    WORKERS,
    NUMBER,
    SESSIONS,
    STATEMENTS,
];

/// The number of a text, which is 1 to 10 digits; None of any other text.
fn number(text: &[u8]) -> Option<u64>
    ensures { result ≡ number_in text.now }
{
    if text.is_empty() || text.len() > MOST_DIGITS {
        return None;
    }
    let mut number = 0;
    for byte in text {
        if *byte < b'0' || *byte > b'9' {
            return None;
        }
        number = 10 * number + u64::from(*byte - b'0');
    }
    Some(number)
}

impl CommandOption {
    /// The value that a text is, which is a number in the option's range; None of any other text. Ten digits may pass 32
    /// bits, so the number has 64 until it is in that range.
    pub fn value(&self, text: &str) -> Option<u32>
        ensures { result ≡ value_in (row_of self.now) text.now }
    {
        let number = number(text.as_bytes())?;
        if number < u64::from(self.least) || number > u64::from(self.greatest) {
            return None;
        }
        Some(number as u32)
    }
}
