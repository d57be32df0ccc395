// What is to be written for a script that is drawn: the script itself, or the summary of its run.
ghost use Rattle.std.specs.Prelude.{◌≡◌, ◌≤◌, IfOk};
ghost use Rattle.command_words.specs.Orders.{IsWorkload};
ghost use Rattle.script_reader.specs.Scripts.{IsScript, IsRunnable};
ghost use Rattle.statement_core.specs.Terms.{AreTermsOf};
ghost use Rattle.script_runner.specs.Logs.{Summed};
ghost use Rattle.columnstore.specs.Outcome.{sizes_in, drawn_script};

use crate::answer::script_of;
use command_words::{RunOptions, Workload};
use cs_base::Memory;
use cs_types::Line;
use log_summary::print_summary;
use script_reader::{Mode, Script, ScriptRefusal};
use script_runner::{run_schedule, runner_for};
use script_workload::workload;
use statement_work::Clerk;
use std::alloc::Global;
use std::sync::Wait;
use std::thread::Threads;
use workload_laws::workload_is_script;

/// The script of a workload. `Memory` where there is no room for it.
pub fn generate(alloc: Global, drawn: Workload) -> Result<Line, Memory>
    requires { IsWorkload drawn }
    ensures { IfOk result (λ line. line ≡ drawn_script drawn) }
{
    let script = workload(alloc, drawn.number, drawn.sessions, drawn.statements)?;
    Ok(Line::from_vec(script.into_vec()))
}

/// The script of a workload, read. Every workload is a script, so no line of it is refused.
fn read_drawn(alloc: Global, drawn: Workload) -> Result<Script, Memory>
    requires { IsWorkload drawn }
    ensures reads { IfOk result (λ script. IsScript Mode.Replay (drawn_script drawn) script) }
    ensures runs { IfOk result (λ script. IsRunnable script) }
{
    workload_is_script();
    let text = generate(alloc, drawn)?;
    match script_of(alloc, text.into_vec(), Mode::Replay) {
        Ok(script) => Ok(script),
        Err(ScriptRefusal::Memory) => Err(Memory),
        Err(ScriptRefusal::Bad { .. }) => unreachable!(),
    }
}

/// The summary of the log of a run of a workload's script. `Memory` where there is no room for the script, its run or the summary.
pub fn load<R: Threads + Wait>(
    rt: &R,
    alloc: Global,
    options: RunOptions,
    drawn: Workload,
) -> Result<Line, Memory>
    requires sizes { AreTermsOf options.group_rows options.direct_rows }
    requires workers { (1 ≤ options.workers) × (options.workers ≤ 16) }
    requires drawn { IsWorkload drawn }
    ensures { IfOk result (λ line. Summed (sizes_in options) (drawn_script drawn) line) }
{
    let script = read_drawn(alloc, drawn)?;
    let mut runner = runner_for(
        alloc,
        options.group_rows as u64,
        options.direct_rows as u64,
        &script,
    )?;
    let clerk = Clerk::new(options.workers);
    run_schedule(rt, &mut runner, &script, &clerk)?;
    let rows = runner.rows();
    print_summary(alloc, runner.log(), rows)
}
