//! The outside of the program: its words, a source of bytes and a sink for them, each with a count of its faults, and the
//! two calls that read all of a source and write all of a text.
//!
//! Its one contract: bytes move from the start of what a source has left and to the end of what a sink holds, and a call
//! fails only where the count of faults rose. It depends on `cs_base`.
#![tactic(auto)]

mod arguments;
mod counted;
mod memory;
mod sink;
mod source;
mod standard;

pub use arguments::words;
pub use memory::{MemorySink, MemorySource};
pub use sink::{Sink, WriteRefusal, write_whole};
pub use source::{InputRefusal, Source, read_all};
pub use standard::{StdSink, StdSource};
use thiserror::Error;

/// A call of a source or of a sink failed. It comes only where the count of faults of that object rose.
#[derive(Clone, Copy, Debug, PartialEq, Eq, Error)]
#[error("the stream failed")]
pub struct Failed;
