// How the program ends.
ghost use Rattle.std.specs.Prelude.{◌≡◌};
ghost use Rattle.std.specs.Process.{exit_status};
ghost use Rattle.columnstore.specs.Outcome.{code_of};
ghost use Rattle.columnstore.specs.Written.{after_fault};

use std::process::ExitCode;

/// How the program ended.
#[derive(Clone, Copy, Debug, PartialEq, Eq)]
pub enum Status {
    /// The whole text was written, and the input was read to its end in a mode that reads it.
    Done,
    /// The words are not those of the program.
    Usage,
    /// The input is too long, or no script.
    Script,
    /// A read failed. Nothing was written.
    ReadFault,
    /// A write failed. A prefix of the text was written: of a whole run, of its summary, of a drawn script or of a refusal.
    WriteFault,
    /// Memory was not there. Nothing was written, or, where a run on threads stopped, the log of its events until then, or a prefix of
    /// that where a write of it failed too.
    Memory,
}

impl Status {
    /// The status where a write of the text that goes with this one failed. Memory that had given out before came first.
    pub fn after_fault(self) -> Status
        ensures { result ≡ after_fault self }
    {
        match self {
            Status::Memory => Status::Memory,
            Status::Done
            | Status::Usage
            | Status::Script
            | Status::ReadFault
            | Status::WriteFault => Status::WriteFault,
        }
    }
}

/// The exit code whose status, 0 to 5, is the place of the variant.
pub fn exit_code(status: Status) -> ExitCode
    ensures { exit_status result ≡ code_of status }
{
    ExitCode::from(status as u8)
}
