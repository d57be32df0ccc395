// A sink for bytes, and the call that writes all of a text.
ghost use Rattle.std.specs.Prelude.{◌≡◌, ◌≤◌, ◌<◌, ◌+◌, List, ℕ, length, take, IfOk, OnOk, OnErr};
ghost use Rattle.std.specs.declared.option.Option.{Option};
ghost use Rattle.std.specs.Io.{WritesAtMost};
ghost use Rattle.cs_base.specs.Counts.{Rose, count_up};
ghost use Rattle.cs_outside.specs.Outside.{HasCause, Adds, AddsFront};

use super::Failed;
use thiserror::Error;

/// How many bytes one call of `write` is handed at most.
const PIECE: usize = 65_536;

/// Bytes that are added at the end.
pub trait Sink {
    /// The bytes that are held, where the sink tells them. No call changes whether it does.
    ghost held: { Self → Option (List ℕ) };

    /// How often a call has failed, up to the last number of 64 bits.
    ghost faults: { Self → ℕ };

    /// How often `write` was called, up to the last number of 64 bits.
    ghost calls: { Self → ℕ };

    /// Adds bytes from the start of `piece`, at least one where it has one, and answers how many. After `Failed` nothing
    /// was added.
    fn write(&mut self, piece: &[u8]) -> Result<usize, Failed>
        ensures bound { WritesAtMost result piece.now }
        ensures progress { IfOk result (λ n. 0 < length piece.now → 0 < n) }
        ensures ok { IfOk result (λ n. Adds (held self.old) (held self.new) (take n piece.now)) }
        ensures err { OnErr result (held self.new ≡ held self.old) }
        ensures cause { HasCause (faults self.old) (faults self.new) result }
        ensures called { calls self.new ≡ count_up (calls self.old) };
}

/// Why a text was not written whole.
#[derive(Clone, Copy, Debug, PartialEq, Eq, Error)]
pub enum WriteRefusal {
    /// A write failed: the sink's count of faults rose in this call. A prefix of the text was added.
    #[error("a write failed")]
    Fault,
}

/// The prefix of these bytes that one call of `write` is handed.
fn first_piece(bytes: &[u8]) -> &[u8]
    ensures { result.now ≡ take PIECE bytes.now }
{
    &bytes[..PIECE.min(bytes.len())]
}

/// Writes all of the bytes, in pieces of at most 65,536. It takes no memory of its own, and calls `write` at most once for
/// each byte. Error: `Fault` only where the count of faults rose; a prefix of the bytes was added then.
pub fn write_whole<O: Sink>(sink: &mut O, bytes: &[u8]) -> Result<(), WriteRefusal>
    ensures ok { OnOk result (Adds (O.held sink.old) (O.held sink.new) bytes.now) }
    ensures err { OnErr result (AddsFront (O.held sink.old) (O.held sink.new) bytes.now) }
    ensures cause { HasCause (O.faults sink.old) (O.faults sink.new) result }
    ensures turns { O.calls sink.new ≤ O.calls sink.old + length bytes.now }
{
    let mut done = 0;
    while done < bytes.len() {
        match sink.write(first_piece(&bytes[done..])) {
            Ok(n) => done += n,
            Err(_) => return Err(WriteRefusal::Fault),
        }
    }
    Ok(())
}
