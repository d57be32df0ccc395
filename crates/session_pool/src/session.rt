// What a session's thread does.
ghost use Rattle.std.specs.Prelude.{◌≡◌, ◌≤◌, [], ◌∷◌, length, slice_get, Contains, IfSome, MatchBool, None, Some, false};
ghost use Rattle.std.specs.Option.{option_copied};
ghost use Rattle.cs_model.specs.Actors.{is_begun, has_ended};
ghost use Rattle.cs_model.specs.State.{begin_of};
ghost use Rattle.cs_model.specs.Text.{statements_of};
ghost use Rattle.group_log.specs.Counted.{AreCountsAt};
ghost use Rattle.group_log.specs.Followed.{ground_of};
ghost use Rattle.history_gate.specs.Histories.{own_numbers, list_of, Tells};
ghost use Rattle.script_reader.specs.Scripts.{IsRunnable};
ghost use Rattle.statement_core.specs.Awaiting.{Awaits};
ghost use Rattle.script_turns.specs.Turns as spec;
ghost use Rattle.script_turns.specs.Turns.{texts_of};
ghost use Rattle.statement_core.specs.Cores.{IsDone};
ghost use Rattle.statement_core.specs.Counted.{outcome_counts};
ghost use Rattle.statement_core.specs.Reorganizes.{LeavesBy};
ghost use Rattle.session_pool.specs.Events.{entries_in, held_in, number_in};
ghost use Rattle.session_pool.specs.Runs.{IsSessionRun};
ghost use Rattle.session_pool.specs.Statements.{AddsStatement};
ghost use Rattle.session_pool.specs.Works.{HasWorked};

use crate::pooled::{Made, Pooled};
use crate::reorganizing::reorganize;
use crate::sections::{end, finish, start};
use crate::signals::Signals;
use cs_types::Schema;
use group_directory::Ledger;
use history_gate::{Gate, Pass};
use script_reader::{Script, Step};
use script_turns::bound_of;
use statement_core::{Desk, Outcome, Started};
use std::alloc::Global;
use std::sync::Wait;
use std::thread::Threads;

/// The text of the statement that the session starts in a step; none where it starts none.
fn started_in(step: &Step, session: u32) -> Option<&[u8]>
    ensures { option_copied result ≡ spec.started_in session step.now }
{
    match step {
        Step::Whole { session: by, text } if *by == session => Some(text.as_slice()),
        Step::Begun { session: by, text } if *by == session => Some(text.as_slice()),
        _ => None,
    }
}

/// Whether the Finish of this outcome may commit, so that there may be something to do for a mover.
fn may_commit(outcome: &Outcome) -> bool {
    match outcome {
        Outcome::Writes { parcel, .. } => parcel.is_some(),
        Outcome::Load { .. } | Outcome::Commit(_) => true,
        Outcome::Nothing | Outcome::Answer(_) | Outcome::Left(_) | Outcome::Short => false,
    }
}

/// The ledger that a Start took. What else was started is dropped.
fn into_ledger(started: Started) -> Option<Ledger>
    ensures { result ≡ started.ledger }
{
    let Started { ledger, .. } = started;
    ledger
}

/// The outcome of a statement that was started: a desk's, or that of the turns of a REORGANIZE. What was started shares the own
/// writes and the groups, which the Finish would have to copy else: its last shares go here, outside the gate.
fn outcome_of<J: Made, R: Threads + Wait, D: Desk>(
    rt: &R,
    alloc: Global,
    gate: &Gate<Pooled<J>>,
    desk: &D,
    signals: &Signals,
    pass: Pass<Pooled<J>>,
    session: u32,
    started: Started,
) -> (Pass<Pooled<J>>, Outcome)
    requires gate { pass.gate ≡ gate.now.gate }
    requires number { Contains (own_numbers pass.own) session }
    requires known { Contains J.sessions session }
    requires told { Tells (λ x. number_in x) pass.own pass.seen }
    requires free { held_in (list_of session pass.own) ≡ None }
    requires awaits { Awaits J.sizes (begin_of J.schema) (entries_in pass.seen) session started }
    ensures works { HasWorked session pass result.0 }
    ensures free { held_in (list_of session result.0.own) ≡ None }
    ensures outcome { IsDone (begin_of J.schema) J.sizes (entries_in result.0.seen) session result.1 }
    ensures counts { IfSome (outcome_counts result.1) (AreCountsAt (ground_of J.schema J.sizes) (entries_in result.0.seen) session) }
    ensures left { LeavesBy (ground_of J.schema J.sizes) (entries_in result.0.seen) session result.1 }
{
    let outcome = desk.work(rt, alloc, &started);
    let Some(all) = started.reorganizes() else {
        return (pass, outcome);
    };
    match outcome {
        Outcome::Nothing => {}
        done => return (pass, done),
    }
    let Some(ledger) = into_ledger(started) else {
        unreachable!()
    };
    let (pass, left) = reorganize(rt, alloc, gate, desk, signals, pass, session, all, &ledger);
    match left {
        Ok(left) => (pass, Outcome::Left(left)),
        Err(_) => (pass, Outcome::Short),
    }
}

/// The session's next statement: its Start, the work of it, and its Finish. False where there was no memory for its Start; then it
/// has no event.
fn statement<J: Made, R: Threads + Wait, D: Desk>(
    rt: &R,
    alloc: Global,
    gate: &Gate<Pooled<J>>,
    schema: &Schema,
    desk: &D,
    signals: &Signals,
    pass: Pass<Pooled<J>>,
    session: u32,
    text: &[u8],
) -> (Pass<Pooled<J>>, bool)
    requires gate { pass.gate ≡ gate.now.gate }
    requires numbers { own_numbers pass.own ≡ session ∷ [] }
    requires known { Contains J.sessions session }
    requires schema { J.schema ≡ schema.now }
    requires short { length text.now ≤ 65_536 }
    requires rests { is_begun (entries_in (list_of session pass.own)) ≡ false }
    requires going { has_ended (entries_in (list_of session pass.own)) ≡ false }
    requires next { slice_get (texts_of session J.lines) (statements_of session (entries_in (list_of session pass.own))) ≡ Some text.now }
    requires free { held_in (list_of session pass.own) ≡ None }
    ensures pass { (result.0.gate ≡ pass.gate) × (result.0.reserve ≡ pass.reserve) }
    ensures numbers { own_numbers result.0.own ≡ session ∷ [] }
    ensures free { held_in (list_of session result.0.own) ≡ None }
    ensures turns { MatchBool result.1 (AddsStatement session (entries_in (list_of session pass.own)) (entries_in (list_of session result.0.own))) (list_of session result.0.own ≡ list_of session pass.own) }
{
    let bound = bound_of(alloc, schema, text);
    let (pass, started) = start(rt, gate, pass, session, bound);
    let Ok(started) = started else {
        return (pass, false);
    };
    let (pass, outcome) = outcome_of(rt, alloc, gate, desk, signals, pass, session, started);
    let rings = may_commit(&outcome);
    let pass = finish(rt, gate, pass, session, outcome);
    if rings {
        signals.change();
    }
    (pass, true)
}

/// All turns of a session: its statements once and in order, and its End. False, where it stopped for want of memory: then it has
/// the first of these turns, and no End.
pub(crate) fn session<J: Made, R: Threads + Wait, D: Desk>(
    rt: &R,
    alloc: Global,
    gate: &Gate<Pooled<J>>,
    script: &Script,
    desk: &D,
    signals: &Signals,
    pass: Pass<Pooled<J>>,
    session: u32,
) -> (Pass<Pooled<J>>, bool)
    requires gate { pass.gate ≡ gate.now.gate }
    requires known { Contains J.sessions session }
    requires own { pass.own ≡ (session, []) ∷ [] }
    requires script { (J.lines ≡ script.now.lines) × (J.schema ≡ script.now.schema) }
    requires runnable { IsRunnable script.now }
    ensures pass { (result.0.gate ≡ pass.gate) × (result.0.reserve ≡ pass.reserve) }
    ensures numbers { own_numbers result.0.own ≡ session ∷ [] }
    ensures turns { IsSessionRun session script.now.lines result.1 (entries_in (list_of session result.0.own)) }
    ensures free { held_in (list_of session result.0.own) ≡ None }
{
    let mut pass = pass;
    for step in script.lines.as_slice() {
        let Some(text) = started_in(step, session) else {
            continue;
        };
        let (next, done) = statement(
            rt,
            alloc,
            gate,
            &script.schema,
            desk,
            signals,
            pass,
            session,
            text,
        );
        pass = next;
        if !done {
            signals.stop();
            return (pass, false);
        }
    }
    let pass = end(rt, gate, pass, session);
    signals.end();
    (pass, true)
}
