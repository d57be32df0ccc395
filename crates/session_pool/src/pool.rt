// The call that runs a script's sessions beside movers.
ghost use Rattle.std.specs.Prelude.{◌≡◌, ◌≤◌, ◌<◌, ◌∷◌, [], ℕ, All, Contains, IfOk, IfErr, true, false};
ghost use Rattle.std.specs.List.{range_with_len};
ghost use Rattle.group_log.specs.Followed.{ground_of};
ghost use Rattle.history_gate.specs.Histories.{own_numbers, Tells};
ghost use Rattle.history_gate.specs.Passes.{HasNumber, KeepsNumbers};
ghost use Rattle.script_reader.specs.declared.script.Mode.TheVariants.{Run};
ghost use Rattle.script_reader.specs.Scripts.{allows, IsRunnable};
ghost use Rattle.session_pool.specs.Events.{entries_in, number_in};
ghost use Rattle.session_pool.specs.Rests.{AreAtRest, HasRun, IsRested, IsScriptOf};
ghost use Rattle.session_pool.specs.Runs.{IsLast, IsRunOf, IsFrontRunOf};

use crate::mover::last_turns;
use crate::pooled::{Made, Pooled};
use crate::signals::Signals;
use crate::threads::{Shared, movers_from};
use cs_base::Memory;
use history_gate::{Gate, Pass};
use script_reader::Script;
use statement_core::{Core, Desk};
use std::alloc::Global;
use std::marker::Brand;
use std::sync::Wait;
use std::thread;
use std::thread::Threads;

/// The numbers at the gate: the caller's 0, those of 64 sessions, and those of 8 movers.
const SEATS: u32 = 73;

/// Starts the threads of all movers and sessions, and joins them. False where a session stopped for want of memory.
fn run_threads<J: Made + Send + Sync, R: Threads + Wait + Sync, D: Desk>(
    rt: &R,
    shared: &Shared<'_, J, D>,
    pass: Pass<Pooled<J>>,
    movers: u32,
) -> (Pass<Pooled<J>>, bool)
    requires gate { pass.gate ≡ shared.now.gate.now.gate }
    requires script { IsScriptOf J.schema J.sessions J.lines shared.now.script.now }
    requires movers { movers ≤ 8 }
    requires own { pass.own ≡ (0, []) ∷ [] }
    requires reserve { pass.reserve ≡ range_with_len 1 72 }
    ensures gate { result.0.gate ≡ pass.gate }
    ensures numbers { KeepsNumbers pass result.0 }
    ensures first { 1 ≤ movers → Contains (own_numbers result.0.own) 65 }
    ensures rested { All (IsRested movers) result.0.own }
    ensures runs { All (HasRun J.lines result.1 result.0.own) J.sessions }
{
    thread::scope(
        thread::scope_env(),
        rt,
        |scope| -> (Pass<Pooled<J>>, bool)
            requires { (pass.gate ≡ shared.now.gate.now.gate) × IsScriptOf J.schema J.sessions J.lines shared.now.script.now × (movers ≤ 8) × (pass.own ≡ (0, []) ∷ []) × (pass.reserve ≡ range_with_len 1 72) }
            ensures { (result.0.gate ≡ pass.gate) × KeepsNumbers pass result.0 × (1 ≤ movers → Contains (own_numbers result.0.own) 65) × All (IsRested movers) result.0.own × All (HasRun J.lines result.1 result.0.own) J.sessions }
        { movers_from(scope, rt, shared, pass, 65, movers) },
    )
}

/// The last turns, where there are movers and no session stopped: then the history that the pass has seen ends with them. False
/// where a session stopped, or the last turns did.
fn run_last<J: Made, R: Wait, D: Desk>(
    rt: &R,
    shared: &Shared<'_, J, D>,
    pass: Pass<Pooled<J>>,
    movers: u32,
    whole: bool,
) -> (Pass<Pooled<J>>, bool)
    requires gate { pass.gate ≡ shared.now.gate.now.gate }
    requires first { 1 ≤ movers → Contains (own_numbers pass.own) 65 }
    requires rested { All (IsRested movers) pass.own }
    requires below { All (λ session. session < 65) J.sessions }
    requires runs { All (HasRun J.lines whole pass.own) J.sessions }
    ensures gate { result.0.gate ≡ pass.gate }
    ensures numbers { KeepsNumbers pass result.0 }
    ensures rested { All (IsRested movers) result.0.own }
    ensures runs { All (HasRun J.lines result.1 result.0.own) J.sessions }
    ensures told { result.1 ≡ true → 1 ≤ movers → Tells (λ x. number_in x) result.0.own result.0.seen }
    ensures last { result.1 ≡ true → 1 ≤ movers → IsLast (ground_of J.schema J.sizes) 1 (entries_in result.0.seen) }
{
    if !whole || movers == 0 {
        return (pass, whole);
    }
    last_turns(rt, shared.alloc, shared.gate, shared.desk, pass)
}

/// Takes the core out of what the gate kept, which has come to rest.
fn core_of<J: Made>(pooled: Pooled<J>, script: &Script) -> Core
    requires script { IsScriptOf J.schema J.sessions J.lines script.now }
    ensures schema { result.schema ≡ J.schema }
    ensures sizes { result.sizes ≡ J.sizes }
    ensures whole { (movers : ℕ) → AreAtRest J.sessions J.lines movers true pooled → (1 ≤ movers → IsLast (ground_of J.schema J.sizes) 1 (entries_in pooled)) → IsRunOf (ground_of J.schema J.sizes) script.now movers result.log }
    ensures front { (movers : ℕ) → AreAtRest J.sessions J.lines movers false pooled → IsFrontRunOf (ground_of J.schema J.sizes) script.now movers result.log }
{
    let core = pooled.into_core();
    // The log is legal whether or not all was run.
    let _log = core.log();
    core
}

/// The run of a script, for a core that was made with what `J` says.
fn run<J: Made + Send + Sync, R: Threads + Wait + Sync, D: Desk>(
    rt: &R,
    alloc: Global,
    core: Core,
    script: &Script,
    desk: &D,
    movers: u32,
) -> Result<Core, (Core, Memory)>
    requires log { core.log ≡ [] }
    requires schema { core.schema ≡ J.schema }
    requires sizes { core.sizes ≡ J.sizes }
    requires sessions { core.sessions ≡ J.sessions }
    requires script { IsScriptOf J.schema J.sessions J.lines script.now }
    requires movers { movers ≤ 8 }
    ensures ran { IfOk result (λ after. IsRunOf (ground_of J.schema J.sizes) script.now movers after.log) }
    ensures stopped { IfErr result (λ e. IsFrontRunOf (ground_of J.schema J.sizes) script.now movers e.0.log) }
    ensures schema { IfOk result (λ after. after.schema ≡ J.schema) }
    ensures sizes { IfOk result (λ after. after.sizes ≡ J.sizes) }
    ensures schema_then { IfErr result (λ e. e.0.schema ≡ J.schema) }
    ensures sizes_then { IfErr result (λ e. e.0.sizes ≡ J.sizes) }
{
    // By its contract an empty log holds no claims.
    let _log = core.log();
    let pooled: Pooled<J> = Pooled::new(alloc, core);
    let (gate, pass) = match Gate::new(alloc, pooled, SEATS) {
        Ok(made) => made,
        Err((pooled, memory)) => return Err((core_of(pooled, script), memory)),
    };
    let signals = Signals::new();
    let shared = Shared {
        alloc,
        gate: &gate,
        script,
        desk,
        signals: &signals,
    };
    let (pass, whole) = run_threads(rt, &shared, pass, movers);
    let (pass, whole) = run_last(rt, &shared, pass, movers, whole);
    let core = core_of(gate.close(pass), script);
    if whole { Ok(core) } else { Err((core, Memory)) }
}

/// Runs the statements of a script's sessions side by side, each session in a thread of its own, beside so many movers, 0 to 8,
/// each in a thread too; where a thread is refused, its work is done here or left out. It returns once all have ended, and the core
/// comes back in any case. `Memory`: the gate could not be made, or a session or the last turns stopped for want of room in the
/// log. Conditions: the core is new, was made with the script's table and serves its sessions; the script is one that
/// `read_script` gives in `Mode::Run`.
pub fn run_sessions<R: Threads + Wait + Sync, D: Desk>(
    rt: &R,
    alloc: Global,
    core: Core,
    script: &Script,
    desk: &D,
    movers: u32,
) -> Result<Core, (Core, Memory)>
    requires log { core.log ≡ [] }
    requires schema { core.schema ≡ script.now.schema }
    requires sessions { core.sessions ≡ script.now.sessions }
    requires runnable { IsRunnable script.now }
    requires whole { All (λ step. allows Run step ≡ true) script.now.lines }
    requires movers { movers ≤ 8 }
    ensures ran { IfOk result (λ after. IsRunOf (ground_of script.now.schema core.sizes) script.now movers after.log) }
    ensures stopped { IfErr result (λ e. IsFrontRunOf (ground_of script.now.schema core.sizes) script.now movers e.0.log) }
    ensures schema { IfOk result (λ after. after.schema ≡ core.schema) }
    ensures sizes { IfOk result (λ after. after.sizes ≡ core.sizes) }
    ensures schema_then { IfErr result (λ e. e.0.schema ≡ core.schema) }
    ensures sizes_then { IfErr result (λ e. e.0.sizes ≡ core.sizes) }
{
    run::<Brand, R, D>(rt, alloc, core, script, desk, movers)
}
