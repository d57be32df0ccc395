// The sections of sessions at the gate: each enters, makes one event, and leaves.
ghost use Rattle.std.specs.Prelude.{◌≡◌, [], ◌∷◌, List, ℕ, slice_get, Contains, IfOk, IfSome, MatchResult, None, Some, false};
ghost use Rattle.cs_model.specs.declared.entry.Entry.TheVariants.{Finish, End};
ghost use Rattle.cs_model.specs.declared.entry.Reply.{Reply};
ghost use Rattle.cs_model.specs.Actors.{is_begun, has_ended};
ghost use Rattle.cs_model.specs.Ready.{IsReady};
ghost use Rattle.cs_model.specs.State.{begin_of};
ghost use Rattle.cs_model.specs.Text.{statements_of};
ghost use Rattle.group_log.specs.Counted.{AreCountsAt};
ghost use Rattle.group_log.specs.Followed.{ground_of};
ghost use Rattle.history_gate.specs.Histories.{own_numbers, list_of, added, Tells};
ghost use Rattle.statement_core.specs.Awaiting.{Awaits};
ghost use Rattle.script_turns.specs.Turns.{texts_of, IsBound};
ghost use Rattle.log_laws.specs.Started.{IsStartEntry};
ghost use Rattle.statement_core.specs.Cores.{IsDone};
ghost use Rattle.statement_core.specs.Counted.{outcome_counts};
ghost use Rattle.statement_core.specs.Reorganizes.{LeavesBy};
ghost use Rattle.session_pool.specs.declared.event.Event.{Event};
ghost use Rattle.session_pool.specs.Events.{entries_in, held_in, number_in};

use crate::pooled::{Made, Pooled};
use cs_base::Memory;
use cs_model::Bound;
use history_gate::{Gate, Pass};
use statement_core::{Outcome, Started};
use std::sync::Wait;

/// The Start of a session's next statement, which is bound to what its text means. What was started is known of the history that
/// the pass has seen then. `Memory`: no event was made. Condition: the session holds no claim.
pub(crate) fn start<J: Made, R: Wait>(
    rt: &R,
    gate: &Gate<Pooled<J>>,
    pass: Pass<Pooled<J>>,
    session: u32,
    bound: Bound,
) -> (Pass<Pooled<J>>, Result<Started, Memory>)
    requires gate { pass.gate ≡ gate.now.gate }
    requires number { Contains (own_numbers pass.own) session }
    requires known { Contains J.sessions session }
    requires rests { is_begun (entries_in (list_of session pass.own)) ≡ false }
    requires going { has_ended (entries_in (list_of session pass.own)) ≡ false }
    requires ready { IsReady J.schema bound }
    requires meant { (text : List ℕ) × (slice_get (texts_of session J.lines) (statements_of session (entries_in (list_of session pass.own))) ≡ Some text) × IsBound J.schema text bound }
    requires free { held_in (list_of session pass.own) ≡ None }
    ensures pass { (result.0.gate ≡ pass.gate) × (result.0.reserve ≡ pass.reserve) }
    ensures own { MatchResult result.1 (λ s. (e : Event) × (result.0.own ≡ added (λ x. number_in x) e pass.own) × IsStartEntry session bound s.short e.entry × (e.lent ≡ None)) (λ _. result.0.own ≡ pass.own) }
    ensures awaits { IfOk result.1 (Awaits J.sizes (begin_of J.schema) (entries_in result.0.seen) session) }
    ensures told { Tells (λ x. number_in x) result.0.own result.0.seen }
{
    let mut held = gate.enter(rt, pass);
    let started = held.value().start(session, bound);
    (gate.leave(held), started)
}

/// The Finish of the statement that a session has begun, by the outcome of its work. Conditions: the outcome is what the
/// definitions give on what the session has begun in the history that the pass has seen, and the pass has the entries of that; and
/// the session holds no claim.
pub(crate) fn finish<J: Made, R: Wait>(
    rt: &R,
    gate: &Gate<Pooled<J>>,
    pass: Pass<Pooled<J>>,
    session: u32,
    outcome: Outcome,
) -> Pass<Pooled<J>>
    requires gate { pass.gate ≡ gate.now.gate }
    requires number { Contains (own_numbers pass.own) session }
    requires known { Contains J.sessions session }
    requires told { Tells (λ x. number_in x) pass.own pass.seen }
    requires outcome { IsDone (begin_of J.schema) J.sizes (entries_in pass.seen) session outcome }
    requires counts { IfSome (outcome_counts outcome) (AreCountsAt (ground_of J.schema J.sizes) (entries_in pass.seen) session) }
    requires left { LeavesBy (ground_of J.schema J.sizes) (entries_in pass.seen) session outcome }
    requires free { held_in (list_of session pass.own) ≡ None }
    ensures pass { (result.gate ≡ pass.gate) × (result.reserve ≡ pass.reserve) }
    ensures own { (e : Event) × (reply : Reply) × (e.entry ≡ Finish session reply) × (result.own ≡ added (λ x. number_in x) e pass.own) × (e.lent ≡ None) }
    ensures told { Tells (λ x. number_in x) result.own result.seen }
{
    let mut held = gate.enter(rt, pass);
    held.value().finish(session, outcome);
    gate.leave(held)
}

/// The End of a session: its open transaction is rolled back. Condition: the session holds no claim.
pub(crate) fn end<J: Made, R: Wait>(
    rt: &R,
    gate: &Gate<Pooled<J>>,
    pass: Pass<Pooled<J>>,
    session: u32,
) -> Pass<Pooled<J>>
    requires gate { pass.gate ≡ gate.now.gate }
    requires number { Contains (own_numbers pass.own) session }
    requires known { Contains J.sessions session }
    requires rests { is_begun (entries_in (list_of session pass.own)) ≡ false }
    requires going { has_ended (entries_in (list_of session pass.own)) ≡ false }
    requires free { held_in (list_of session pass.own) ≡ None }
    ensures pass { (result.gate ≡ pass.gate) × (result.reserve ≡ pass.reserve) }
    ensures own { (e : Event) × (e.entry ≡ End session) × (result.own ≡ added (λ x. number_in x) e pass.own) × (e.lent ≡ None) }
    ensures told { Tells (λ x. number_in x) result.own result.seen }
{
    let mut held = gate.enter(rt, pass);
    held.value().end(session);
    gate.leave(held)
}
