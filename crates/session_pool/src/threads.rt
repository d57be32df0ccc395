// The threads of sessions and movers: each is started, and joined on the way back.
ghost use Rattle.std.specs.Prelude.{◌≡◌, ◌<◌, ◌≤◌, ◌+◌, ℕ, [], ◌∷◌, All, Contains, None};
ghost use Rattle.history_gate.specs.Histories.{own_numbers, list_of};
ghost use Rattle.history_gate.specs.Passes.{KeepsNumbers};
ghost use Rattle.log_laws.specs.Laws.{AreDistinct};
ghost use Rattle.session_pool.specs.Events.{entries_in, held_in};
ghost use Rattle.session_pool.specs.Rests.{HasRun, IsRested, IsScriptOf, KeepsOwn};
ghost use Rattle.session_pool.specs.Runs.{IsSessionRun};

use crate::mover::mover;
use crate::pooled::{Made, Pooled};
use crate::session::session;
use crate::signals::Signals;
use history_gate::{Gate, Pass};
use script_reader::Script;
use statement_core::Desk;
use std::alloc::Global;
use std::snapshot::Snapshot;
use std::sync::Wait;
use std::sync::atomic::Ordering;
use std::thread::{Promise, Scope, Threads};

/// What all threads of a run share.
#[derive(Drop)]
pub(crate) struct Shared<'s, J: Made, D> {
    pub alloc: Global,
    pub gate: &'s Gate<Pooled<J>>,
    pub script: &'s Script,
    pub desk: &'s D,
    pub signals: &'s Signals,
}

/// What a session's thread promises: a pass of its gate, with the session's number and its turns, and no claim.
#[derive(Drop)]
pub(crate) struct SessionBack<J: Made> {
    pass: Snapshot<Pass<Pooled<J>>>,
    number: u32,
}

impl<J: Made> Promise<(Pass<Pooled<J>>, bool)> for SessionBack<J> {
    ghost kept_by = { λ home back. (back.0.gate ≡ home.pass.value.gate) × (own_numbers back.0.own ≡ home.number ∷ []) × IsSessionRun home.number J.lines back.1 (entries_in (list_of home.number back.0.own)) × (held_in (list_of home.number back.0.own) ≡ None) };
}

/// What a mover's thread promises: a pass of its gate, with the mover's number, and no claim.
#[derive(Drop)]
pub(crate) struct MoverBack<J: Made> {
    pass: Snapshot<Pass<Pooled<J>>>,
    number: u32,
}

impl<J: Made> Promise<Pass<Pooled<J>>> for MoverBack<J> {
    ghost kept_by = { λ home back. (back.gate ≡ home.pass.value.gate) × (own_numbers back.own ≡ home.number ∷ []) × (held_in (list_of home.number back.own) ≡ None) };
}

/// The turns of a session, in whatever thread.
fn run_session<J: Made, D: Desk, R: Threads + Wait>(
    rt: &R,
    shared: &Shared<'_, J, D>,
    pass: Pass<Pooled<J>>,
    number: u32,
) -> (Pass<Pooled<J>>, bool)
    requires gate { pass.gate ≡ shared.now.gate.now.gate }
    requires script { IsScriptOf J.schema J.sessions J.lines shared.now.script.now }
    requires known { Contains J.sessions number }
    requires own { pass.own ≡ (number, []) ∷ [] }
    ensures pass { (result.0.gate ≡ pass.gate) × (own_numbers result.0.own ≡ number ∷ []) }
    ensures turns { IsSessionRun number J.lines result.1 (entries_in (list_of number result.0.own)) }
    ensures free { held_in (list_of number result.0.own) ≡ None }
{
    session(
        rt,
        shared.alloc,
        shared.gate,
        shared.script,
        shared.desk,
        shared.signals,
        pass,
        number,
    )
}

/// The turns of a mover, in whatever thread.
fn run_mover<J: Made, D: Desk, R: Wait>(
    rt: &R,
    shared: &Shared<'_, J, D>,
    pass: Pass<Pooled<J>>,
    number: u32,
) -> Pass<Pooled<J>>
    requires gate { pass.gate ≡ shared.now.gate.now.gate }
    requires range { (65 ≤ number) × (number ≤ 72) }
    requires own { pass.own ≡ (number, []) ∷ [] }
    ensures pass { (result.gate ≡ pass.gate) × (own_numbers result.own ≡ number ∷ []) }
    ensures free { held_in (list_of number result.own) ≡ None }
{
    mover(
        rt,
        shared.alloc,
        shared.gate,
        shared.desk,
        shared.signals,
        pass,
        number - 64,
    )
}

/// These sessions, each in a thread of its own. One whose thread is refused runs here, once the later ones have ended. False
/// where one of them stopped for want of memory.
fn sessions_from<'s, E, J: Made + Send + Sync, D: Desk, R: Threads + Wait + Sync>(
    scope: &Scope<'s, E>,
    rt: &'s R,
    shared: &'s Shared<'s, J, D>,
    pass: Pass<Pooled<J>>,
    sessions: &[u32],
) -> (Pass<Pooled<J>>, bool)
    requires gate { pass.gate ≡ shared.now.gate.now.gate }
    requires script { IsScriptOf J.schema J.sessions J.lines shared.now.script.now }
    requires spare { All (Contains pass.reserve) sessions.now }
    requires known { All (Contains J.sessions) sessions.now }
    requires below { All (λ session. session < 65) sessions.now }
    requires distinct { AreDistinct sessions.now }
    ensures gate { result.0.gate ≡ pass.gate }
    ensures numbers { KeepsNumbers pass result.0 }
    ensures kept { KeepsOwn pass.own result.0.own }
    ensures rested { (movers : ℕ) → All (IsRested movers) pass.own → All (IsRested movers) result.0.own }
    ensures runs { All (HasRun J.lines result.1 result.0.own) sessions.now }
{
    let Some((number, others)) = sessions.split_first() else {
        return (pass, true);
    };
    let number = *number;
    let (pass, mine) = shared.gate.split(pass, number);
    let promise = SessionBack {
        pass: Snapshot::of(&mine),
        number,
    };
    let work = move || -> (Pass<Pooled<J>>, bool)
        requires { (mine.gate ≡ shared.now.gate.now.gate) × IsScriptOf J.schema J.sessions J.lines shared.now.script.now × Contains J.sessions number × (mine.own ≡ (number, []) ∷ []) }
        ensures { (result.0.gate ≡ mine.gate) × (own_numbers result.0.own ≡ number ∷ []) × IsSessionRun number J.lines result.1 (entries_in (list_of number result.0.own)) × (held_in (list_of number result.0.own) ≡ None) }
    { run_session(rt, shared, mine, number) };
    match scope.spawn_with(promise, work) {
        Ok(child) => {
            let (pass, rest) = sessions_from(scope, rt, shared, pass, others);
            let (other, done) = child.join(rt);
            (shared.gate.join(pass, other), rest && done)
        }
        Err(refused) => {
            let (pass, rest) = sessions_from(scope, rt, shared, pass, others);
            let (other, done) = (refused.value)();
            (shared.gate.join(pass, other), rest && done)
        }
    }
}

/// The movers from the one with this number on, each in a thread of its own, and beside them the sessions. A mover whose thread is
/// refused has no turns: its pass comes back by its call, which looks first whether its number is refused.
pub(crate) fn movers_from<'s, E, J: Made + Send + Sync, D: Desk, R: Threads + Wait + Sync>(
    scope: &Scope<'s, E>,
    rt: &'s R,
    shared: &'s Shared<'s, J, D>,
    pass: Pass<Pooled<J>>,
    number: u32,
    movers: u32,
) -> (Pass<Pooled<J>>, bool)
    requires gate { pass.gate ≡ shared.now.gate.now.gate }
    requires script { IsScriptOf J.schema J.sessions J.lines shared.now.script.now }
    requires range { (65 ≤ number) × (number ≤ 65 + movers) × (movers ≤ 8) }
    requires spare { (n : ℕ) → number ≤ n → n < 73 → Contains pass.reserve n }
    requires sessions { All (Contains pass.reserve) J.sessions }
    ensures gate { result.0.gate ≡ pass.gate }
    ensures numbers { KeepsNumbers pass result.0 }
    ensures kept { KeepsOwn pass.own result.0.own }
    ensures movers { (n : ℕ) → number ≤ n → n ≤ 64 + movers → Contains (own_numbers result.0.own) n }
    ensures rested { All (IsRested movers) pass.own → All (IsRested movers) result.0.own }
    ensures runs { All (HasRun J.lines result.1 result.0.own) J.sessions }
{
    if number > 64 + movers {
        return sessions_from(scope, rt, shared, pass, shared.script.sessions.as_slice());
    }
    let (pass, mine) = shared.gate.split(pass, number);
    let promise = MoverBack {
        pass: Snapshot::of(&mine),
        number,
    };
    let work = move || -> Pass<Pooled<J>>
        requires { (mine.gate ≡ shared.now.gate.now.gate) × (65 ≤ number) × (number ≤ 72) × (mine.own ≡ (number, []) ∷ []) }
        ensures { (result.gate ≡ mine.gate) × (own_numbers result.own ≡ number ∷ []) × (held_in (list_of number result.own) ≡ None) }
    { run_mover(rt, shared, mine, number) };
    match scope.spawn_with(promise, work) {
        Ok(child) => {
            let (pass, whole) = movers_from(scope, rt, shared, pass, number + 1, movers);
            let other = child.join(rt);
            (shared.gate.join(pass, other), whole)
        }
        Err(refused) => {
            shared.signals.refuse(number - 64);
            let other = (refused.value)();
            let pass = shared.gate.join(pass, other);
            movers_from(scope, rt, shared, pass, number + 1, movers)
        }
    }
}
