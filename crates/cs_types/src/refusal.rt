ghost use Rattle.std.specs.Prelude.{◌≡◌};
ghost use Rattle.cs_types.specs.Fit.{refusal_number};

use thiserror::Error;

/// Why a column does not keep a value.
#[derive(Clone, Copy, Debug, PartialEq, Eq, Error)]
pub enum ValueRefusal {
    /// NULL where it may not stand: 515.
    #[error("NULL may not stand in this column")]
    NullHere,
    /// A text of more bytes than the column keeps: 2628.
    #[error("the text is longer than the column")]
    TooLong,
    /// A number out of the range of tinyint or smallint: 220.
    #[error("the number is out of the range of a narrow integer")]
    Narrow,
    /// A number out of the range of any other type: 8115.
    #[error("arithmetic overflow")]
    Overflow,
}

impl ValueRefusal {
    /// SQL Server's number of the error.
    pub fn number(self) -> u32
        ensures { result ≡ refusal_number self }
    {
        match self {
            ValueRefusal::NullHere => 515,
            ValueRefusal::TooLong => 2628,
            ValueRefusal::Narrow => 220,
            ValueRefusal::Overflow => 8115,
        }
    }
}
