// What a mover's thread does, and the last turns.
ghost use Rattle.std.specs.Prelude.{◌≡◌, ◌≤◌, ◌+◌, [], ◌∷◌, Contains, None, true};
ghost use Rattle.group_log.specs.Followed.{ground_of};
ghost use Rattle.history_gate.specs.Histories.{own_numbers, list_of, Tells};
ghost use Rattle.session_pool.specs.Events.{entries_in, held_in, number_in};
ghost use Rattle.session_pool.specs.Rests.{lists_but};
ghost use Rattle.session_pool.specs.Runs.{IsLast};

use crate::pooled::{Made, Pooled};
use crate::signals::Signals;
use crate::turns::{claim, end_turn, look};
use cs_model::Actor;
use history_gate::{Gate, Pass};
use statement_core::{Desk, Turned};
use std::alloc::Global;
use std::sync::Wait;

/// The turns of a mover, until all sessions have ended, or one has stopped, or a claim found no memory, or the mover's number is
/// refused. Where it finds nothing to do it sleeps until there is news, and where it finds no memory for it, until a session has
/// changed the groups: movers that have none would else wake each other without end, and fill the log.
pub(crate) fn mover<J: Made, R: Wait, D: Desk>(
    rt: &R,
    alloc: Global,
    gate: &Gate<Pooled<J>>,
    desk: &D,
    signals: &Signals,
    pass: Pass<Pooled<J>>,
    mover: u32,
) -> Pass<Pooled<J>>
    requires gate { pass.gate ≡ gate.now.gate }
    requires range { (1 ≤ mover) × (mover ≤ 8) }
    requires own { pass.own ≡ (64 + mover, []) ∷ [] }
    ensures pass { (result.gate ≡ pass.gate) × (result.reserve ≡ pass.reserve) }
    ensures numbers { own_numbers result.own ≡ (64 + mover) ∷ [] }
    ensures free { held_in (list_of (64 + mover) result.own) ≡ None }
{
    let mut pass = pass;
    for _ in rt.forever() {
        // What is rung from here on ends the wait at once, so nothing is missed that comes after the look.
        let news = signals.news.prepare_wait();
        let changes = signals.changes.prepare_wait();
        if signals.stops(mover) {
            return pass;
        }
        let (next, turned) = look(rt, gate, pass, mover);
        pass = next;
        // None: all sessions have ended. An error: there was no memory for the event; another mover may look in its place.
        let Some(Ok(turned)) = turned else {
            signals.news.notify_one();
            return pass;
        };
        match turned {
            Turned::Lent(claim) => {
                drop(news);
                // Another mover may find something to do beside this.
                signals.news.notify_one();
                let (next, installed) = end_turn(
                    rt,
                    alloc,
                    gate,
                    desk,
                    pass,
                    Actor::Mover(mover),
                    claim,
                );
                pass = next;
                if !installed {
                    changes.wait(rt);
                }
            }
            Turned::Alone => {}
            Turned::Short => changes.wait(rt),
            Turned::Idle => {
                // A commit rings for those who wait for changes: it need not find this one among them.
                drop(changes);
                news.wait(rt);
            }
        }
    }
    unreachable!()
}

/// The last turns, as mover 1: until nothing is left for it, or its want of memory or release stands last. False where a claim
/// found no memory for its event.
pub(crate) fn last_turns<J: Made, R: Wait, D: Desk>(
    rt: &R,
    alloc: Global,
    gate: &Gate<Pooled<J>>,
    desk: &D,
    pass: Pass<Pooled<J>>,
) -> (Pass<Pooled<J>>, bool)
    requires gate { pass.gate ≡ gate.now.gate }
    requires number { Contains (own_numbers pass.own) 65 }
    requires free { held_in (list_of 65 pass.own) ≡ None }
    ensures pass { (result.0.gate ≡ pass.gate) × (result.0.reserve ≡ pass.reserve) }
    ensures numbers { own_numbers result.0.own ≡ own_numbers pass.own }
    ensures others { lists_but 65 result.0.own ≡ lists_but 65 pass.own }
    ensures free { held_in (list_of 65 result.0.own) ≡ None }
    ensures last { result.1 ≡ true → IsLast (ground_of J.schema J.sizes) 1 (entries_in result.0.seen) }
    ensures told { Tells (λ x. number_in x) result.0.own result.0.seen }
{
    let mut pass = pass;
    for _ in rt.forever() {
        let (next, turned) = claim(rt, gate, pass, 1);
        let Ok(turned) = turned else {
            return (next, false);
        };
        match turned {
            Turned::Short | Turned::Idle => return (next, true),
            Turned::Alone => pass = next,
            Turned::Lent(claim) => {
                let (next, installed) = end_turn(
                    rt,
                    alloc,
                    gate,
                    desk,
                    next,
                    Actor::Mover(1),
                    claim,
                );
                if !installed {
                    return (next, true);
                }
                pass = next;
            }
        }
    }
    unreachable!()
}
