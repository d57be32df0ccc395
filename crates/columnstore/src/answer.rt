// What is to be written for an input.
ghost use Rattle.std.specs.Prelude.{◌≡◌, ◌≤◌, ◌++◌, List, All, true, IfErr, IfOk, MatchResult, OnOk};
ghost use Rattle.command_words.specs.Orders.{IsInRange};
ghost use Rattle.cs_model.specs.declared.entry.Entry.{Entry};
ghost use Rattle.cs_model.specs.State.{begin_of};
ghost use Rattle.cs_model.specs.Text.{text};
ghost use Rattle.script_reader.specs.declared.script.Script.{Script};
ghost use Rattle.script_reader.specs.declared.script.Mode.TheVariants as mode;
ghost use Rattle.script_reader.specs.Scripts.{allows, IsScript, IsRunnable, RefusesScript};
ghost use Rattle.statement_core.specs.Terms.{AreTermsOf};
ghost use Rattle.group_log.specs.Followed.{ground_of};
ghost use Rattle.script_runner.specs.Logs.{IsLogOf};
ghost use Rattle.columnstore.specs.declared.way.Way.TheVariants.{OnThreads};
ghost use Rattle.columnstore.specs.Outcome.{sizes_in, order_of, mode_of, IsLogBy, IsAnswered, IsDoneOrStopped, setup_error_text, bad_line_text};

use crate::status::Status;
use crate::way::Way;
use command_words::RunOptions;
use cs_base::Memory;
use cs_model::print_log;
use cs_types::Line;
use script_reader::{Mode, Script, ScriptRefusal, read_script};
use script_runner::{core_for, runner_for, text_of_run};
use session_pool::run_sessions;
use statement_core::Core;
use statement_work::Clerk;
use std::alloc::Global;
use std::sync::Wait;
use std::thread::Threads;

/// Adds the number of a refused setup statement.
fn append_setup_error(number: u32, line: &mut Line) -> Result<(), Memory>
    ensures { OnOk result (line.new ≡ line.old ++ setup_error_text number) }
{
    if number == 0 {
        return Ok(());
    }
    line.append(b" error ")?;
    line.append_number(number as u64)
}

/// The refusal that names a bad line.
fn bad_line(alloc: Global, line: u64, reason: u32, number: u32) -> Result<Line, Memory>
    ensures { IfOk result (λ text. text ≡ bad_line_text line reason number) }
{
    let mut text = Line::new(alloc);
    text.append(b"refused line ")?;
    text.append_number(line)?;
    text.append(b" reason ")?;
    text.append_number(reason as u64)?;
    append_setup_error(number, &mut text)?;
    text.append(b"\n")?;
    Ok(text)
}

/// The text of the log of a run line by line, with row groups so large.
fn replay<R: Threads + Wait>(
    rt: &R,
    alloc: Global,
    options: RunOptions,
    script: &Script,
) -> Result<Line, Memory>
    requires runnable { IsRunnable script.now }
    requires sizes { AreTermsOf options.group_rows options.direct_rows }
    requires workers { (1 ≤ options.workers) × (options.workers ≤ 16) }
    ensures text { IfOk result (λ line. (log : List Entry) × IsLogOf (ground_of script.now.schema (sizes_in options)) script.now log × (line ≡ text (begin_of script.now.schema) log)) }
{
    let mut runner = runner_for(
        alloc,
        options.group_rows as u64,
        options.direct_rows as u64,
        script,
    )?;
    let clerk = Clerk::new(options.workers);
    text_of_run(rt, alloc, &mut runner, script, &clerk)
}

/// The text of the log of a core, with this status.
fn text_of(alloc: Global, core: &Core, status: Status) -> Result<(Status, Line), Memory>
    ensures status { IfOk result (λ a. a.0 ≡ status) }
    ensures text { IfOk result (λ a. a.1 ≡ text (begin_of core.now.schema) core.now.log) }
{
    let text = print_log(alloc, core.schema(), core.log())?;
    Ok((status, text))
}

/// The text of the log of a run whose sessions have threads of their own, beside so many movers, with row groups so large, and the
/// status that goes with it: `Memory` where the run stopped for that, and the log has the first of each session's turns.
fn serve<R: Threads + Wait + Sync>(
    rt: &R,
    alloc: Global,
    options: RunOptions,
    movers: u32,
    script: &Script,
) -> Result<(Status, Line), Memory>
    requires runnable { IsRunnable script.now }
    requires whole { All (λ step. allows mode.Run step ≡ true) script.now.lines }
    requires sizes { AreTermsOf options.group_rows options.direct_rows }
    requires workers { (1 ≤ options.workers) × (options.workers ≤ 16) }
    requires movers { movers ≤ 8 }
    ensures text { IfOk result (λ a. (log : List Entry) × IsLogBy (OnThreads movers) (ground_of script.now.schema (sizes_in options)) script.now a.0 log × (a.1 ≡ text (begin_of script.now.schema) log)) }
{
    let core = core_for(
        alloc,
        options.group_rows as u64,
        options.direct_rows as u64,
        script,
    )?;
    let clerk = Clerk::new(options.workers);
    match run_sessions(rt, alloc, core, script, &clerk, movers) {
        Ok(core) => text_of(alloc, &core, Status::Done),
        Err((core, _)) => text_of(alloc, &core, Status::Memory),
    }
}

/// The text of the log of a run in this way, with row groups so large, and the status that goes with it.
fn perform<R: Threads + Wait + Sync>(
    rt: &R,
    alloc: Global,
    options: RunOptions,
    way: Way,
    script: &Script,
) -> Result<(Status, Line), Memory>
    requires runnable { IsRunnable script.now }
    requires allowed { All (λ step. allows (mode_of way) step ≡ true) script.now.lines }
    requires range { IsInRange (order_of options way) }
    ensures text { IfOk result (λ a. (log : List Entry) × IsLogBy way (ground_of script.now.schema (sizes_in options)) script.now a.0 log × (a.1 ≡ text (begin_of script.now.schema) log)) }
{
    match way {
        Way::ByLine => {
            let text = replay(rt, alloc, options, script)?;
            Ok((Status::Done, text))
        }
        Way::OnThreads { movers } => serve(rt, alloc, options, movers, script),
    }
}

/// The script of this mode that the bytes are, or why they are none. The bytes are let go: a script has its own copies of the texts,
/// so that a long run keeps no second one.
pub(crate) fn script_of(alloc: Global, bytes: Vec<u8>, mode: Mode) -> Result<Script, ScriptRefusal>
    ensures found { IfOk result (λ script. IsScript mode bytes.items script) }
    ensures only { (other : Script) → IsScript mode bytes.items other → MatchResult result (λ script. script ≡ other) (λ e. e ≡ ScriptRefusal.Memory) }
    ensures refused { IfErr result (λ e. RefusesScript mode bytes.items e) }
    ensures runs { IfOk result (λ script. IsRunnable script) }
    ensures allowed { IfOk result (λ script. All (λ step. allows mode step ≡ true) script.lines) }
{
    read_script(alloc, bytes.as_slice(), mode)
}

/// The whole text that is to be written for an input whose script is run in this way, with row groups so large, and the status that
/// goes with it. `Err` where there is no room for the script, its run or the text; a run on threads that stopped for want of memory
/// has a text all the same, whose log has the first of each session's turns, and the status is `Memory`.
pub fn answer<R: Threads + Wait + Sync>(
    rt: &R,
    alloc: Global,
    options: RunOptions,
    way: Way,
    bytes: Vec<u8>,
) -> Result<(Status, Line), Memory>
    requires range { IsInRange (order_of options way) }
    ensures answered { IfOk result (λ a. IsAnswered way (sizes_in options) bytes.items a.0 a.1) }
    // A script is run.
    ensures runs { (script : Script) → IsScript (mode_of way) bytes.items script → IfOk result (λ a. IsDoneOrStopped a.0) }
{
    match script_of(alloc, bytes, way.mode()) {
        Ok(script) => perform(rt, alloc, options, way, &script),
        Err(
            ScriptRefusal::Bad {
                line,
                reason,
                number,
            },
        ) => {
            let text = bad_line(alloc, line, reason, number)?;
            Ok((Status::Script, text))
        }
        Err(ScriptRefusal::Memory) => Err(Memory),
    }
}
