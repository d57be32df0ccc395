// How a script is run.
ghost use Rattle.std.specs.Prelude.{◌≡◌};
ghost use Rattle.columnstore.specs.Outcome.{mode_of};

use script_reader::Mode;

/// How the script of an input is run.
#[derive(Clone, Copy, Debug, PartialEq, Eq)]
pub enum Way {
    /// By the events that its lines name, in their order.
    ByLine,
    /// Each session on a thread of its own, beside so many movers, 0 to 8.
    OnThreads { movers: u32 },
}

impl Way {
    /// The mode that the script is read for.
    pub fn mode(self) -> Mode
        ensures { result ≡ mode_of self }
    {
        match self {
            Way::ByLine => Mode::Replay,
            Way::OnThreads { .. } => Mode::Run,
        }
    }
}
