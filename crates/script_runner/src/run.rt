// Runs the steps of a script.
ghost use Rattle.std.specs.Prelude.{All, ◌≡◌, ◌++◌, [], ℕ, map, Contains, OnOk, OnErr, false};
ghost use Rattle.cs_types.specs.Schemas.{IsSchema};
ghost use Rattle.cs_model.specs.declared.entry.Entry.TheVariants.{End};
ghost use Rattle.cs_model.specs.Actors.{entries_of, is_begun, has_ended};
ghost use Rattle.group_log.specs.Followed.{ground_of};
ghost use Rattle.log_laws.specs.Laws.{AreDistinct};
ghost use Rattle.script_reader.specs.Scripts.{IsRunnable};
ghost use Rattle.script_runner.specs.Running.{Running, AreFree, AreRunnable, IsFrontRun};
ghost use Rattle.script_runner.specs.Schedule.{Scheduled};
ghost use Rattle.script_runner.specs.Logs.{IsLogOf, IsFrontLogOf};

use crate::runner::Runner;
use cs_base::Memory;
use script_reader::{Script, Step};
use statement_core::Desk;
use std::sync::Wait;
use std::thread::Threads;

/// Runs the steps, in order.
fn run_steps<R: Threads + Wait, D: Desk>(
    rt: &R,
    runner: &mut Runner,
    steps: &[Step],
    desk: &D,
) -> Result<(), Memory>
    requires empty { runner.old.log ≡ [] }
    requires free { runner.old.claims ≡ [] }
    requires schema { IsSchema runner.old.schema }
    requires steps { AreRunnable runner.old.sessions steps.now }
    ensures ran { OnOk result (Running (ground_of runner.old.schema runner.old.sizes) runner.new steps.now []) }
    ensures front { OnErr result (IsFrontRun (ground_of runner.old.schema runner.old.sizes) steps.now runner.new.log) }
    ensures schema { runner.new.schema ≡ runner.old.schema }
    ensures sizes { runner.new.sizes ≡ runner.old.sizes }
    ensures sessions { runner.new.sessions ≡ runner.old.sessions }
{
    for step in steps {
        runner.step(rt, step, desk)?;
    }
    Ok(())
}

/// The Ends of the sessions, in their order.
fn end_sessions(runner: &mut Runner, sessions: &[u32])
    requires known { All (λ session. Contains runner.old.sessions session) sessions.now }
    requires distinct { AreDistinct sessions.now }
    requires rests { (session : ℕ) → is_begun (entries_of session runner.old.log) ≡ false }
    requires going { (session : ℕ) → has_ended (entries_of session runner.old.log) ≡ false }
    ensures log { runner.new.log ≡ runner.old.log ++ map End sessions.now }
    ensures claims { runner.new.claims ≡ runner.old.claims }
    ensures schema { runner.new.schema ≡ runner.old.schema }
    ensures sizes { runner.new.sizes ≡ runner.old.sizes }
    ensures sessions { runner.new.sessions ≡ runner.old.sessions }
{
    for session in sessions {
        runner.end(*session);
    }
}

/// Runs the steps of a script, and then ends its sessions.
fn run_script<R: Threads + Wait, D: Desk>(
    rt: &R,
    runner: &mut Runner,
    script: &Script,
    desk: &D,
) -> Result<(), Memory>
    requires runnable { IsRunnable script.now }
    requires empty { runner.old.log ≡ [] }
    requires free { runner.old.claims ≡ [] }
    requires schema { runner.old.schema ≡ script.now.schema }
    requires known { All (λ session. Contains runner.old.sessions session) script.now.sessions }
    ensures scheduled { OnOk result (Scheduled (ground_of script.now.schema runner.old.sizes) script.now runner.new.log) }
    ensures free { OnOk result (AreFree runner.new.claims) }
    ensures front { OnErr result (IsFrontRun (ground_of script.now.schema runner.old.sizes) script.now.lines runner.new.log) }
    ensures schema { runner.new.schema ≡ runner.old.schema }
    ensures sizes { runner.new.sizes ≡ runner.old.sizes }
    ensures sessions { runner.new.sessions ≡ runner.old.sessions }
{
    run_steps(rt, runner, script.lines.as_slice(), desk)?;
    end_sessions(runner, script.sessions.as_slice());
    Ok(())
}

/// Runs the steps of a script, and then ends its sessions in the order of their numbers. `Memory` comes where there is no room
/// for a Start or a mover's claim; the log has the events of the lines before it then. Conditions: the runner is new, its core was
/// made with the script's table and serves its sessions, and the script can be run, as one that `read_script` gives.
pub fn run_schedule<R: Threads + Wait, D: Desk>(
    rt: &R,
    runner: &mut Runner,
    script: &Script,
    desk: &D,
) -> Result<(), Memory>
    requires runnable { IsRunnable script.now }
    requires empty { runner.old.log ≡ [] }
    requires free { runner.old.claims ≡ [] }
    requires schema { runner.old.schema ≡ script.now.schema }
    requires known { All (λ session. Contains runner.old.sessions session) script.now.sessions }
    ensures log { OnOk result (IsLogOf (ground_of script.now.schema runner.old.sizes) script.now runner.new.log) }
    // At the end nobody holds a claim.
    ensures free { OnOk result (AreFree runner.new.claims) }
    ensures front { OnErr result (IsFrontLogOf (ground_of script.now.schema runner.old.sizes) script.now runner.new.log) }
    ensures schema { runner.new.schema ≡ runner.old.schema }
    ensures sizes { runner.new.sizes ≡ runner.old.sizes }
    ensures sessions { runner.new.sessions ≡ runner.old.sessions }
{
    let result = run_script(rt, runner, script, desk);
    // The log is legal whether or not all was run.
    let _log = runner.log();
    result
}
