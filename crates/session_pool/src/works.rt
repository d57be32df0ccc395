// The sections of a session's REORGANIZE at the gate, beside the end of a turn: each enters, makes one event or none, and leaves.
ghost use Rattle.std.specs.Prelude.{◌≡◌, List, Contains, IfOk, None};
ghost use Rattle.cs_model.specs.declared.work.Actor.TheVariants.{Session};
ghost use Rattle.group_log.specs.Followed.{ground_of};
ghost use Rattle.history_gate.specs.Histories.{own_numbers, list_of, Tells};
ghost use Rattle.statement_core.specs.Reorganizes.{IsClosing, IsLedgerAt, MayBegin, MayClose};
ghost use Rattle.session_pool.specs.declared.event.Event.{Event};
ghost use Rattle.session_pool.specs.Events.{entries_in, held_in, number_in};
ghost use Rattle.session_pool.specs.Sections.{After, IsFound};
ghost use Rattle.session_pool.specs.Works.{lent_by, Attempts, IsWorthWork, HasWorked};

use crate::attempt::Attempt;
use crate::pooled::{Made, Pooled};
use cs_base::Memory;
use group_directory::Ledger;
use history_gate::{Gate, Pass};
use std::sync::Wait;

/// Its first look, where it is to close the open store: the store's id; None, and no event, where no store is open. `Memory`: no
/// event was made.
pub(crate) fn close<J: Made, R: Wait>(
    rt: &R,
    gate: &Gate<Pooled<J>>,
    pass: Pass<Pooled<J>>,
    session: u32,
) -> (Pass<Pooled<J>>, Result<Option<u64>, Memory>)
    requires gate { pass.gate ≡ gate.now.gate }
    requires number { Contains (own_numbers pass.own) session }
    requires known { Contains J.sessions session }
    requires told { Tells (λ x. number_in x) pass.own pass.seen }
    requires may { (found : List Event) → IsFound pass found → MayClose (ground_of J.schema J.sizes) (entries_in found) (Session session) }
    requires free { held_in (list_of session pass.own) ≡ None }
    ensures works { HasWorked session pass result.0 }
    ensures free { held_in (list_of session result.0.own) ≡ None }
    ensures closes { IfOk result.1 (λ closed. After pass (λ found. IsClosing (ground_of J.schema J.sizes) (entries_in found) (Session session) closed (entries_in result.0.seen))) }
{
    let mut held = gate.enter(rt, pass);
    let closed = held.value().close_opened(session);
    (gate.leave(held), closed)
}

/// An attempt at a turn: its first event; or, where nothing is left to do, the last look.
pub(crate) fn attempt<J: Made, R: Wait>(
    rt: &R,
    gate: &Gate<Pooled<J>>,
    pass: Pass<Pooled<J>>,
    session: u32,
) -> (Pass<Pooled<J>>, Attempt)
    requires gate { pass.gate ≡ gate.now.gate }
    requires number { Contains (own_numbers pass.own) session }
    requires known { Contains J.sessions session }
    requires told { Tells (λ x. number_in x) pass.own pass.seen }
    requires may { (found : List Event) → IsFound pass found → MayBegin (ground_of J.schema J.sizes) (entries_in found) (Session session) }
    requires free { held_in (list_of session pass.own) ≡ None }
    ensures works { HasWorked session pass result.0 }
    ensures lent { held_in (list_of session result.0.own) ≡ lent_by result.1 }
    ensures mendable { IsWorthWork result.1 }
    ensures log { After pass (λ found. Attempts (ground_of J.schema J.sizes) session result.1 (entries_in found) (entries_in result.0.seen)) }
{
    let mut held = gate.enter(rt, pass);
    let attempt = held.value().attempt(session);
    (gate.leave(held), attempt)
}

/// The last look of one that has made all its turns: the groups at this moment. It makes no event.
pub(crate) fn look_on<J: Made, R: Wait>(
    rt: &R,
    gate: &Gate<Pooled<J>>,
    pass: Pass<Pooled<J>>,
    session: u32,
) -> (Pass<Pooled<J>>, Result<Ledger, Memory>)
    requires gate { pass.gate ≡ gate.now.gate }
    requires number { Contains (own_numbers pass.own) session }
    requires told { Tells (λ x. number_in x) pass.own pass.seen }
    ensures works { HasWorked session pass result.0 }
    ensures own { result.0.own ≡ pass.own }
    ensures ledger { IfOk result.1 (λ ledger. After pass (λ found. (entries_in result.0.seen ≡ entries_in found) × IsLedgerAt (ground_of J.schema J.sizes) (entries_in found) ledger)) }
{
    let mut held = gate.enter(rt, pass);
    let ledger = held.value().ledger();
    (gate.leave(held), ledger)
}
