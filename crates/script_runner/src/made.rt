// Cores and runners made for a script, and the text of a run of it.
ghost use Rattle.std.specs.Prelude.{◌≡◌, [], IfOk};
ghost use Rattle.cs_model.specs.State.{begin_of};
ghost use Rattle.cs_model.specs.Text.{text};
ghost use Rattle.group_log.specs.Followed.{ground_of};
ghost use Rattle.script_reader.specs.Scripts.{IsRunnable};
ghost use Rattle.statement_core.specs.Terms.{AreTermsOf};
ghost use Rattle.script_runner.specs.Logs.{IsLogOf, IsMadeOf};

use crate::run::run_schedule;
use crate::runner::Runner;
use cs_base::Memory;
use cs_model::print_log;
use cs_types::Line;
use script_reader::Script;
use statement_core::{Core, Desk};
use std::alloc::Global;
use std::sync::Wait;
use std::thread::Threads;

/// A new core for the table and the sessions of a script. A row group takes at most `group_rows` rows, and a commit of at least
/// `direct_rows` rows loads them directly.
pub fn core_for(
    alloc: Global,
    group_rows: u64,
    direct_rows: u64,
    script: &Script,
) -> Result<Core, Memory>
    requires runnable { IsRunnable script.now }
    requires sizes { AreTermsOf group_rows direct_rows }
    ensures schema { IfOk result (λ core. core.schema ≡ script.now.schema) }
    ensures sizes { IfOk result (λ core. core.sizes ≡ record { group_rows = group_rows; direct_rows = direct_rows }) }
    ensures log { IfOk result (λ core. core.log ≡ []) }
    ensures sessions { IfOk result (λ core. core.sessions ≡ script.now.sessions) }
    ensures claims { IfOk result (λ core. core.claims ≡ []) }
{
    let schema = script.schema.copy()?;
    Core::new(
        alloc,
        schema,
        group_rows,
        direct_rows,
        script.sessions.as_slice(),
    )
}

/// A runner over such a core.
pub fn runner_for(
    alloc: Global,
    group_rows: u64,
    direct_rows: u64,
    script: &Script,
) -> Result<Runner, Memory>
    requires runnable { IsRunnable script.now }
    requires sizes { AreTermsOf group_rows direct_rows }
    ensures schema { IfOk result (λ runner. runner.schema ≡ script.now.schema) }
    ensures sizes { IfOk result (λ runner. runner.sizes ≡ record { group_rows = group_rows; direct_rows = direct_rows }) }
    ensures log { IfOk result (λ runner. runner.log ≡ []) }
    ensures sessions { IfOk result (λ runner. runner.sessions ≡ script.now.sessions) }
    ensures claims { IfOk result (λ runner. runner.claims ≡ []) }
{
    let core = core_for(alloc, group_rows, direct_rows, script)?;
    Runner::new(alloc, core)
}

/// Runs a script with a runner that was made for it, the work done at this desk, and gives the text of the log. Where memory gives
/// out, in the run or for the text, the runner still has the log of the steps that were made.
pub fn text_of_run<R: Threads + Wait, D: Desk>(
    rt: &R,
    alloc: Global,
    runner: &mut Runner,
    script: &Script,
    desk: &D,
) -> Result<Line, Memory>
    requires runnable { IsRunnable script.now }
    requires schema { runner.old.schema ≡ script.now.schema }
    requires log { runner.old.log ≡ [] }
    requires sessions { runner.old.sessions ≡ script.now.sessions }
    requires claims { runner.old.claims ≡ [] }
    ensures whole { IfOk result (λ line. IsLogOf (ground_of script.now.schema runner.old.sizes) script.now runner.new.log) }
    ensures text { IfOk result (λ line. line ≡ text (begin_of script.now.schema) runner.new.log) }
    ensures made { IsMadeOf (ground_of script.now.schema runner.old.sizes) script.now runner.new.log }
{
    run_schedule(rt, runner, script, desk)?;
    print_log(alloc, runner.schema(), runner.log())
}
