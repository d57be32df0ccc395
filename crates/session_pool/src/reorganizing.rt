// The turns of a session's REORGANIZE, between its Start and its Finish.
ghost use Rattle.std.specs.Prelude.{◌≡◌, Contains, IfOk, None};
ghost use Rattle.group_log.specs.Followed.{ground_of};
ghost use Rattle.group_log.specs.Reorganizing.{LeavesGroups};
ghost use Rattle.history_gate.specs.Histories.{own_numbers, list_of, Tells};
ghost use Rattle.statement_core.specs.Reorganizes.{IsLedgerAt, IsStartLedger};
ghost use Rattle.session_pool.specs.Events.{entries_in, held_in, number_in};
ghost use Rattle.session_pool.specs.Works.{HasBegun, HasStopped, IsUnderWay, HasWorked};

use crate::attempt::Attempt;
use crate::pooled::{Made, Pooled};
use crate::signals::Signals;
use crate::turns::end_turn;
use crate::works::{attempt, close, look_on};
use cs_base::{Items, Memory};
use cs_model::Actor;
use group_directory::Ledger;
use history_gate::{Gate, Pass};
use statement_core::{Desk, Reorganizing};
use std::alloc::Global;
use std::sync::Wait;

/// The first look: where it is to close the open store, that is closed, if there is one. `Memory`: the log had no room for it, or
/// its mark found none.
fn look_first<J: Made, R: Wait>(
    rt: &R,
    gate: &Gate<Pooled<J>>,
    signals: &Signals,
    pass: Pass<Pooled<J>>,
    session: u32,
    course: &mut Reorganizing,
) -> (Pass<Pooled<J>>, Result<(), Memory>)
    requires gate { pass.gate ≡ gate.now.gate }
    requires number { Contains (own_numbers pass.own) session }
    requires known { Contains J.sessions session }
    requires told { Tells (λ x. number_in x) pass.own pass.seen }
    requires free { held_in (list_of session pass.own) ≡ None }
    requires begun { HasBegun (ground_of J.schema J.sizes) (entries_in pass.seen) session course.old }
    ensures works { HasWorked session pass result.0 }
    ensures free { held_in (list_of session result.0.own) ≡ None }
    ensures way { IfOk result.1 (λ _. IsUnderWay (ground_of J.schema J.sizes) (entries_in result.0.seen) session course.new) }
{
    if !course.closes() {
        return (pass, Ok(()));
    }
    let (pass, closed) = close(rt, gate, pass, session);
    let closed = match closed {
        Ok(closed) => closed,
        Err(memory) => return (pass, Err(memory)),
    };
    let Some(id) = closed else {
        return (pass, Ok(()));
    };
    signals.change();
    let marked = course.closed(id);
    (pass, marked)
}

/// The turns, each with the work on its claim outside the gate, until nothing is left to do or all are made, and the last look: its
/// ledger. `Memory`: it was wanting for one of them, or for that look.
fn make_turns<J: Made, R: Wait, D: Desk>(
    rt: &R,
    alloc: Global,
    gate: &Gate<Pooled<J>>,
    desk: &D,
    signals: &Signals,
    pass: Pass<Pooled<J>>,
    session: u32,
    course: &mut Reorganizing,
) -> (Pass<Pooled<J>>, Result<Ledger, Memory>)
    requires gate { pass.gate ≡ gate.now.gate }
    requires number { Contains (own_numbers pass.own) session }
    requires known { Contains J.sessions session }
    requires told { Tells (λ x. number_in x) pass.own pass.seen }
    requires free { held_in (list_of session pass.own) ≡ None }
    requires way { IsUnderWay (ground_of J.schema J.sizes) (entries_in pass.seen) session course.old }
    ensures works { HasWorked session pass result.0 }
    ensures free { held_in (list_of session result.0.own) ≡ None }
    ensures stopped { IfOk result.1 (λ _. HasStopped (ground_of J.schema J.sizes) (entries_in result.0.seen) session course.new) }
    ensures ledger { IfOk result.1 (IsLedgerAt (ground_of J.schema J.sizes) (entries_in result.0.seen)) }
{
    let mut pass = pass;
    'turns: while course.may_turn() {
        let (next, turn) = attempt(rt, gate, pass, session);
        pass = next;
        let claim = match turn {
            Attempt::Lent(claim) => claim,
            Attempt::Idle(ledger) => return (pass, Ok(ledger)),
            Attempt::Short => return (pass, Err(Memory)),
        };
        course.turned();
        let (next, installed) = end_turn(
            rt,
            alloc,
            gate,
            desk,
            pass,
            Actor::Session(session),
            claim,
        );
        pass = next;
        signals.change();
        if !installed {
            return (pass, Err(Memory));
        }
    }
    look_on(rt, gate, pass, session)
}

/// All that a REORGANIZE does between its Start, whose ledger this is, and its Finish: what it leaves. `Memory`: it was wanting
/// somewhere on the way; what was closed and installed until then stays.
pub(crate) fn reorganize<J: Made, R: Wait, D: Desk>(
    rt: &R,
    alloc: Global,
    gate: &Gate<Pooled<J>>,
    desk: &D,
    signals: &Signals,
    pass: Pass<Pooled<J>>,
    session: u32,
    all: bool,
    ledger: &Ledger,
) -> (Pass<Pooled<J>>, Result<Items<(u64, Actor)>, Memory>)
    requires gate { pass.gate ≡ gate.now.gate }
    requires number { Contains (own_numbers pass.own) session }
    requires known { Contains J.sessions session }
    requires told { Tells (λ x. number_in x) pass.own pass.seen }
    requires free { held_in (list_of session pass.own) ≡ None }
    requires ledger { IsStartLedger (ground_of J.schema J.sizes) (entries_in pass.seen) session all ledger.now }
    ensures works { HasWorked session pass result.0 }
    ensures free { held_in (list_of session result.0.own) ≡ None }
    ensures left { IfOk result.1 (LeavesGroups (ground_of J.schema J.sizes) (entries_in result.0.seen) session) }
{
    let mut course = match Reorganizing::new(alloc, all, ledger) {
        Ok(course) => course,
        Err(memory) => return (pass, Err(memory)),
    };
    let (pass, looked) = look_first(rt, gate, signals, pass, session, &mut course);
    if let Err(memory) = looked {
        return (pass, Err(memory));
    }
    let (pass, made) = make_turns(rt, alloc, gate, desk, signals, pass, session, &mut course);
    match made {
        Ok(last) => (pass, course.left(alloc, session, &last)),
        Err(memory) => (pass, Err(memory)),
    }
}
