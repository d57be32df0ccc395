// One call of a stream, counted. Both functions stand over any stream, so that their contracts speak of the bytes of the
// streams that tell them; the standard streams, which tell none, are read and written by these functions alone.
ghost use Rattle.std.specs.Prelude.{◌≡◌, ◌≤◌, ◌<◌, length, IfOk, is_err};
ghost use Rattle.std.specs.Io.{ReadsAtMost, WritesAtMost};
ghost use Rattle.std.specs.Io.KnownBytes.{ReadConsumes, WriteAppends};
ghost use Rattle.cs_base.specs.Counts.{count_up};
ghost use Rattle.cs_outside.specs.Outside.{HasCause};
ghost use Rattle.cs_outside.specs.Memory.{counted};

use super::Failed;
use std::io::{Read, Write};

/// How often a stream was called, and how often a call failed, each up to the last number of 64 bits.
#[derive(Drop)]
pub struct Counts {
    pub calls: u64,
    pub faults: u64,
}

impl Counts {
    /// The counts before the first call.
    pub fn new() -> Counts
        ensures calls { result.calls ≡ 0 }
        ensures faults { result.faults ≡ 0 }
    {
        Counts {
            calls: 0,
            faults: 0,
        }
    }

    /// Counts a call.
    fn call(&mut self)
        ensures { self.new ≡ record self.old { calls = count_up self.old.calls } }
    {
        self.calls = self.calls.saturating_add(1);
    }

    /// Counts a fault.
    fn fault(&mut self) -> Failed
        ensures counts { self.new ≡ record self.old { faults = count_up self.old.faults } }
        ensures later { self.old.faults ≤ self.new.faults }
    {
        self.faults = self.faults.saturating_add(1);
        Failed
    }
}

/// Reads once. The bytes and their number are the stream's own; an error of the stream is a fault, and never the end.
pub fn read_counted<R: Read>(
    stream: &mut R,
    buf: &mut [u8],
    counts: &mut Counts,
) -> Result<usize, Failed>
    ensures bound { ReadsAtMost result buf.new }
    ensures bytes { ReadConsumes (R.remaining stream.old) (R.remaining stream.new) result buf.new }
    ensures cause { HasCause counts.old.faults counts.new.faults result }
    ensures called { counts.new.calls ≡ count_up counts.old.calls }
    ensures faults { counts.new.faults ≡ counted (is_err result) counts.old.faults }
{
    counts.call();
    match stream.read(buf) {
        Ok(count) => Ok(count),
        Err(_) => Err(counts.fault()),
    }
}

/// Writes once. The number is that of the bytes which the stream took; an error of the stream is a fault, and so is a
/// write of nothing on a piece that has a byte, which would never end.
pub fn write_counted<W: Write>(
    stream: &mut W,
    piece: &[u8],
    counts: &mut Counts,
) -> Result<usize, Failed>
    ensures bound { WritesAtMost result piece.now }
    ensures progress { IfOk result (λ n. 0 < length piece.now → 0 < n) }
    ensures bytes { WriteAppends (W.contents stream.old) (W.contents stream.new) result piece.now }
    ensures cause { HasCause counts.old.faults counts.new.faults result }
    ensures called { counts.new.calls ≡ count_up counts.old.calls }
    ensures faults { counts.new.faults ≡ counted (is_err result) counts.old.faults }
{
    counts.call();
    match stream.write(piece) {
        Ok(taken) if taken == 0 && !piece.is_empty() => Err(counts.fault()),
        Ok(taken) => Ok(taken),
        Err(_) => Err(counts.fault()),
    }
}
