// The top call.
ghost use Rattle.std.specs.Prelude.{◌≡◌, ◌≢◌, ◌⊎◌, ◌↔◌, ◌≤◌, List, ℕ, map, length, codes, string_bytes, IfErr, MatchResult, Some};
ghost use Rattle.std.specs.IoError.{error_kind};
ghost use Rattle.std.specs.declared.io.ErrorKind.TheVariants as ErrorKind;
ghost use Rattle.std.specs.Result.{ForOk};
ghost use Rattle.std.specs.Iterator.{IsFinite};
ghost use Rattle.command_words.specs.declared.order.Order.{Order};
ghost use Rattle.command_words.specs.declared.order.RunOptions.{RunOptions};
ghost use Rattle.command_words.specs.Orders.{Words, IsInRange, IsOrder};
ghost use Rattle.cs_base.specs.Counts.{Rose};
ghost use Rattle.cs_outside.specs.Outside.{Takes, Adds};
ghost use Rattle.cs_outside.specs.Words.{AreWords};
ghost use Rattle.script_reader.specs.declared.script.Script.{Script};
ghost use Rattle.script_reader.specs.Scripts.{IsScript};
ghost use Rattle.columnstore.specs.declared.way.Way.{Way};
ghost use Rattle.columnstore.specs.Outcome.{limit, order_of, mode_of, ReadsInput, AnswersScripts, AnswersDraws, EndsFor, EndsForWords, IsDoneOrStopped};
ghost use Rattle.columnstore.specs.Written.{IsWritten};

use crate::answer::answer;
use crate::drawn::{generate, load};
use crate::status::Status;
use crate::way::Way;
use command_words::{Order, RunOptions};
use cs_base::Memory;
use cs_outside::{InputRefusal, Sink, Source, read_all, words, write_whole};
use cs_types::Line;
use std::alloc::Global;
use std::io;
use std::sync::Wait;
use std::thread::Threads;

/// The longest script in bytes, 16 MiB.
const LIMIT: usize = 16_777_216;

/// Writes a whole text, and answers the status that goes with it, or the one after a write that failed.
fn finish<O: Sink>(output: &mut O, text: &[u8], status: Status) -> Status
    ensures { IsWritten (O.held output.old) (O.held output.new) (O.faults output.old) (O.faults output.new) text.now status result }
{
    match write_whole(output, text) {
        Ok(()) => status,
        Err(_) => status.after_fault(),
    }
}

/// Writes the refusal of the words.
fn refuse<O: Sink>(output: &mut O) -> Status
    ensures { IsWritten (O.held output.old) (O.held output.new) (O.faults output.old) (O.faults output.new) (codes "usage refused\n") Status.Usage result }
{
    finish(output, b"usage refused\n", Status::Usage)
}

/// Writes a text that was made without the input, if there was memory for it.
fn write_drawn<O: Sink>(output: &mut O, text: Result<Line, Memory>) -> Status
    ensures { MatchResult text (λ line. IsWritten (O.held output.old) (O.held output.new) (O.faults output.old) (O.faults output.new) line Status.Done result)
        (λ _. (result ≡ Status.Memory) × (output.new ≡ output.old)) }
{
    match text {
        Ok(text) => finish(output, text.as_slice(), Status::Done),
        Err(_) => Status::Memory,
    }
}

/// Runs the script of an input in this way, and writes the text of the log of its events.
fn run_script<R: Threads + Wait + Sync, I: Source, O: Sink>(
    rt: &R,
    alloc: Global,
    options: RunOptions,
    way: Way,
    input: &mut I,
    output: &mut O,
) -> Status
    requires range { IsInRange (order_of options way) }
    ensures ends { (came : List ℕ) × (added : List ℕ) × Takes (I.left input.old) (I.left input.new) came
        × Adds (O.held output.old) (O.held output.new) added
        × EndsFor (order_of options way) came (I.left input.new) added (O.faults output.old) (O.faults output.new) result }
    ensures complete { (bytes : List ℕ) (script : Script) → I.left input.old ≡ Some bytes → length bytes ≤ limit → IsScript (mode_of way) bytes script → IsDoneOrStopped result }
    ensures read_fault { result ≡ Status.ReadFault → Rose (I.faults input.old) (I.faults input.new) }
    ensures write_fault { result ≡ Status.WriteFault → Rose (O.faults output.old) (O.faults output.new) }
{
    let bytes = match read_all(alloc, input, LIMIT) {
        Ok(bytes) => bytes,
        Err(InputRefusal::Fault) => return Status::ReadFault,
        Err(InputRefusal::TooLong) => {
            return finish(output, b"refused too long\n", Status::Script);
        }
        Err(InputRefusal::Memory) => return Status::Memory,
    };
    match answer(rt, alloc, options, way, bytes) {
        Ok((status, text)) => finish(output, text.as_slice(), status),
        Err(_) => Status::Memory,
    }
}

/// Runs the program for these words over an input and an output, and answers how it ended. The words are a mode and its options.
/// `replay`: the input is a script, its statements are run line by line, and the text of the log of its events is written. `run`: the
/// same, but each session runs on a thread of its own, beside movers on theirs, and where that stops for want of memory the log until
/// then is written, or nothing, with status `Memory`. `generate`: the script of a workload is written. `load`:
/// that script is run as by `replay`, and the summary of the log of its events is written. For both of these the input is let alone.
/// Nothing is written before the whole text is there. Where several causes stand together, the order is words, reading, script, steps,
/// writing; want of memory may come in any of them, and a refusal whose write fails is a `WriteFault`.
pub fn columnstore<R: Threads + Wait + Sync, I: Source, O: Sink>(
    rt: &R,
    alloc: Global,
    words: &[String],
    input: &mut I,
    output: &mut O,
) -> Status
    // Some bytes were read and some were added, and the status says which.
    ensures ends { (came : List ℕ) × (added : List ℕ) × Takes (I.left input.old) (I.left input.new) came
        × Adds (O.held output.old) (O.held output.new) added
        × EndsForWords (map string_bytes words.now) came (I.left input.new) added (O.faults output.old) (O.faults output.new) result }
    // The words and a script are answered, unless memory or a stream gives out.
    ensures complete { AnswersScripts (map string_bytes words.now) (I.left input.old) result }
    // So are words for which a script is drawn, whatever the input.
    ensures drawn { AnswersDraws (map string_bytes words.now) result }
    // Exactly the orders to run the script of an input read it.
    ensures modes { (order : Order) → ReadsInput order ↔ ((options : RunOptions) × (way : Way) × (order ≡ order_of options way)) }
    // The input is as it was for words that order a draw, and for words that are refused.
    ensures untouched { ((order : Order) → IsOrder (map string_bytes words.now) order → ReadsInput order → ⊥) → input.new ≡ input.old }
    ensures read_fault { result ≡ Status.ReadFault → Rose (I.faults input.old) (I.faults input.new) }
    ensures write_fault { result ≡ Status.WriteFault → Rose (O.faults output.old) (O.faults output.new) }
{
    match Order::of_words(words) {
        Some(Order::Replay(options)) => {
            run_script(rt, alloc, options, Way::ByLine, input, output)
        }
        Some(Order::Run { options, movers }) => {
            run_script(rt, alloc, options, Way::OnThreads { movers }, input, output)
        }
        Some(Order::Generate(workload)) => write_drawn(output, generate(alloc, workload)),
        Some(Order::Load { workload, options }) => {
            write_drawn(output, load(rt, alloc, options, workload))
        }
        None => refuse(output),
    }
}

/// Runs the program for its arguments, as the system gave them, over an input and an output: `columnstore` for the words
/// after the program's name. Arguments of which one is no text are no words. Where there is no memory for the words the
/// status is `Memory`, and nothing was read or written.
pub fn program<R: Threads + Wait + Sync, A: Iterator<Item = String> + Drop, I: Source, O: Sink>(
    rt: &R,
    alloc: Global,
    args: io::Result<A>,
    input: &mut I,
    output: &mut O,
) -> Status
    requires can { ForOk args (λ a. A.can_next a) }
    requires ends { ForOk args (λ a. IsFinite (A.remaining a)) }
    // The words were had and the program ran for them, without a call of the input where they order none; or there was no memory for them.
    ensures ran { ((words : Words) × (came : List ℕ) × (added : List ℕ) × AreWords A.next_gives args words
        × Takes (I.left input.old) (I.left input.new) came
        × Adds (O.held output.old) (O.held output.new) added
        × EndsForWords words came (I.left input.new) added (O.faults output.old) (O.faults output.new) result
        × AnswersScripts words (I.left input.old) result × AnswersDraws words result
        × (((order : Order) → IsOrder words order → ReadsInput order → ⊥) → input.new ≡ input.old))
        ⊎ ((result ≡ Status.Memory) × (input.new ≡ input.old) × (output.new ≡ output.old)) }
    // An argument that is no text is no want of memory.
    ensures no_text { IfErr args (λ error. error_kind error ≢ ErrorKind.OutOfMemory → result ≢ Status.Memory) }
    ensures read_fault { result ≡ Status.ReadFault → Rose (I.faults input.old) (I.faults input.new) }
    ensures write_fault { result ≡ Status.WriteFault → Rose (O.faults output.old) (O.faults output.new) }
{
    match words(alloc, args) {
        Ok(words) => columnstore(rt, alloc, words.as_slice(), input, output),
        Err(_) => Status::Memory,
    }
}
