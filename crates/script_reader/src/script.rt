// Scripts.
ghost use Rattle.std.specs.Prelude.{◌≡◌};
ghost use Rattle.script_reader.specs.Scripts as spec;
ghost use Rattle.script_reader.specs.Scripts.{taken_by, text_of};

use cs_base::{Items, Memory};
use cs_model::Actor;
use cs_types::{Bytes, Schema};
use thiserror::Error;

/// How a script is to be run, and with that which lines it may have.
#[derive(Clone, Copy, Debug, PartialEq, Eq)]
pub enum Mode {
    /// By the events that its lines name, in their order.
    Replay,
    /// By sessions that run side by side, beside movers that go by themselves: each step is the whole statement of a session.
    Run,
}

impl Mode {
    /// Whether a script of this mode may have the step.
    pub fn allows(self, step: &Step) -> bool
        ensures { result ≡ spec.allows self step.now }
    {
        match self {
            Mode::Replay => true,
            Mode::Run => matches!(step, Step::Whole { .. }),
        }
    }
}

/// A script: its table, its steps in order, and the sessions that they name, each once, by their numbers.
#[derive(Debug, Drop)]
pub struct Script {
    /// The table of the setup line.
    pub schema: Schema,
    /// The steps of the lines after it.
    pub lines: Items<Step>,
    /// The sessions of the steps, ascending, each 1 to 64.
    pub sessions: Items<u32>,
}

/// What a line of a script asks for.
#[derive(Debug, Drop)]
pub enum Step {
    /// A statement of a session, started and finished.
    Whole { session: u32, text: Bytes },
    /// A statement of a session, started alone.
    Begun { session: u32, text: Bytes },
    /// The finish of the statement that the session has half done.
    Finished { session: u32 },
    /// A turn of a mover, from its first event to its last.
    Turn { mover: u32 },
    /// The first event of a mover's turn alone, by which it claims what it is to work on.
    Claiming { mover: u32 },
    /// The last event of the turn that the mover has half done, by which it installs what it made.
    Installing { mover: u32 },
}

impl Step {
    /// Who takes the step: a session or a mover.
    pub fn taken_by(&self) -> Actor
        ensures { result ≡ taken_by self.now }
    {
        match self {
            Step::Whole { session, .. } => Actor::Session(*session),
            Step::Begun { session, .. } => Actor::Session(*session),
            Step::Finished { session } => Actor::Session(*session),
            Step::Turn { mover } => Actor::Mover(*mover),
            Step::Claiming { mover } => Actor::Mover(*mover),
            Step::Installing { mover } => Actor::Mover(*mover),
        }
    }

    /// The text of the step's statement; a finish and the steps of movers have none.
    pub fn text(&self) -> &[u8]
        ensures { result.now ≡ text_of self.now }
    {
        match self {
            Step::Whole { text, .. } => text.as_slice(),
            Step::Begun { text, .. } => text.as_slice(),
            Step::Finished { .. }
            | Step::Turn { .. }
            | Step::Claiming { .. }
            | Step::Installing { .. } => &[],
        }
    }
}

/// Why a script is refused.
#[derive(Clone, Copy, Debug, PartialEq, Eq, Error)]
pub enum ScriptRefusal {
    /// The first bad line, counted from 1, and its reason. `number` is 0, but for a refused setup statement.
    #[error("line {line} is refused, reason {reason}")]
    Bad { line: u64, reason: u32, number: u32 },
    /// There was no room for the script.
    #[error("out of memory")]
    Memory,
}

impl From<Memory> for ScriptRefusal {
    ghost use Rattle.script_reader.specs.declared.script.ScriptRefusal.TheVariants as refusal;

    ghost from_gives = { λ _ e. e ≡ refusal.Memory };

    fn from(_error: Memory) -> ScriptRefusal {
        ScriptRefusal::Memory
    }
}
