// A source of bytes, and the call that reads all of it.
ghost use Rattle.std.specs.Prelude.{◌≡◌, ◌≤◌, ◌<◌, ◌+◌, List, ℕ, length, take, IfOk, OnErr, IsErrOf, ◌↔◌};
ghost use Rattle.std.specs.declared.option.Option.{Option};
ghost use Rattle.std.specs.Io.{ReadsAtMost};
ghost use Rattle.cs_base.specs.Counts.{Rose, count_up};
ghost use Rattle.cs_outside.specs.Outside.{HasCause, Takes, IsAtEnd};

use super::Failed;
use std::alloc::Global;
use thiserror::Error;

/// How many bytes one call of `read` may take.
const PIECE: usize = 8_192;

/// Bytes that are read from the first one on.
pub trait Source {
    /// The bytes that are left, where the source tells them. No call changes whether it does.
    ghost left: { Self → Option (List ℕ) };

    /// How often a call has failed, up to the last number of 64 bits.
    ghost faults: { Self → ℕ };

    /// How often `read` was called, up to the last number of 64 bits.
    ghost calls: { Self → ℕ };

    /// Moves bytes from the start of those that are left into the start of `buf`, and answers how many. Zero on a buffer
    /// that is not empty comes only at the end. After `Failed` the bytes that are left are as before.
    fn read(&mut self, buf: &mut [u8]) -> Result<usize, Failed>
        ensures bound { ReadsAtMost result buf.new }
        ensures ok { IfOk result (λ n. Takes (left self.old) (left self.new) (take n buf.new)) }
        ensures end { IfOk result (λ n. n ≡ 0 → 0 < length buf.old → IsAtEnd (left self.new)) }
        ensures err { OnErr result (left self.new ≡ left self.old) }
        ensures cause { HasCause (faults self.old) (faults self.new) result }
        ensures called { calls self.new ≡ count_up (calls self.old) };
}

/// Why the bytes of a source were not read.
#[derive(Clone, Copy, Debug, PartialEq, Eq, Error)]
pub enum InputRefusal {
    /// A read failed: the source's count of faults rose in this call.
    #[error("a read failed")]
    Fault,
    /// More bytes came than the limit allows.
    #[error("the input is too long")]
    TooLong,
    /// There was no room for the bytes.
    #[error("out of memory")]
    Memory,
}

/// All bytes that are left, up to a read of zero, and at most `limit` of them. Each turn takes a byte or ends, so `read`
/// is called at most `limit` + 1 times. Errors: `Fault` only where the count of faults rose, `TooLong` exactly where more
/// than `limit` bytes came, `Memory`.
pub fn read_all<I: Source>(
    alloc: Global,
    source: &mut I,
    limit: usize,
) -> Result<Vec<u8>, InputRefusal>
    ensures ok { IfOk result (λ bytes. Takes (I.left source.old) (I.left source.new) bytes.items) }
    ensures end { IfOk result (λ bytes. IsAtEnd (I.left source.new)) }
    ensures within { IfOk result (λ bytes. length bytes.items ≤ limit) }
    ensures fault { IsErrOf result InputRefusal.Fault → Rose (I.faults source.old) (I.faults source.new) }
    // Whatever the answer, some bytes were taken from the start; it is `TooLong` exactly where they are too many.
    ensures came { (came : List ℕ) × Takes (I.left source.old) (I.left source.new) came × (IsErrOf result InputRefusal.TooLong ↔ (limit < length came)) }
    ensures later { I.faults source.old ≤ I.faults source.new }
    ensures turns { I.calls source.new ≤ I.calls source.old + limit + 1 }
{
    let mut bytes = Vec::new(alloc);
    let mut buf = [0u8; PIECE];
    loop {
        match source.read(&mut buf) {
            Err(_) => return Err(InputRefusal::Fault),
            Ok(0) => return Ok(bytes),
            Ok(n) => {
                if n > limit - bytes.len() {
                    return Err(InputRefusal::TooLong);
                }
                if bytes.extend_from_slice(&buf[..n]).is_err() {
                    return Err(InputRefusal::Memory);
                }
            }
        }
    }
}
