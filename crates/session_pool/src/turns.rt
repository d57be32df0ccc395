// The turns of movers, and of sessions in their place, at the gate: sections, each of which enters, makes one event or none, and
// leaves; and the end of a turn, with the work on its claim outside the gate.
ghost use Rattle.std.specs.Prelude.{◌≡◌, ◌≤◌, ◌+◌, List, Contains, IfOk, IfSome, OnErr, IsSome, None, Some, true, false};
ghost use Rattle.cs_model.specs.Actors.{number_of};
ghost use Rattle.group_book.specs.Choices.{install_work, release_work};
ghost use Rattle.group_log.specs.Followed.{ground_of};
ghost use Rattle.group_view.specs.declared.claim.Claim.{Claim};
ghost use Rattle.group_view.specs.Claims.{IsMendable, IsProductOf};
ghost use Rattle.history_gate.specs.Histories.{own_numbers, list_of, Tells};
ghost use Rattle.statement_core.specs.Reorganizes.{MayEnd};
ghost use Rattle.session_pool.specs.declared.event.Event.{Event};
ghost use Rattle.session_pool.specs.Events.{entries_in, held_in, number_in};
ghost use Rattle.session_pool.specs.Pools.{IsOneOf};
ghost use Rattle.session_pool.specs.Sections.{After, EndedBy, IsAdded, IsFound, AddsTurn, StandsLast, LooksAt};

use crate::pooled::{Made, Pooled};
use cs_base::Memory;
use cs_model::Actor;
use group_view::{Claim, Product};
use history_gate::{Gate, Pass};
use statement_core::{Desk, Turned};
use std::alloc::Global;
use std::sync::Wait;

/// The first event of a mover's turn; none where there is nothing to do. `Memory`: the log had no room, and no event was made.
/// Condition: the mover is 1 to 8, and holds no claim.
pub(crate) fn claim<J: Made, R: Wait>(
    rt: &R,
    gate: &Gate<Pooled<J>>,
    pass: Pass<Pooled<J>>,
    mover: u32,
) -> (Pass<Pooled<J>>, Result<Turned, Memory>)
    requires gate { pass.gate ≡ gate.now.gate }
    requires number { Contains (own_numbers pass.own) (64 + mover) }
    requires range { (1 ≤ mover) × (mover ≤ 8) }
    requires free { held_in (list_of (64 + mover) pass.own) ≡ None }
    ensures pass { (result.0.gate ≡ pass.gate) × (result.0.reserve ≡ pass.reserve) }
    ensures own { IfOk result.1 (λ turned. AddsTurn mover turned pass.own result.0.own) }
    ensures last { IfOk result.1 (λ turned. StandsLast (ground_of J.schema J.sizes) mover turned (entries_in result.0.seen)) }
    ensures told { Tells (λ x. number_in x) result.0.own result.0.seen }
    ensures err { OnErr result.1 (result.0.own ≡ pass.own) }
{
    let mut held = gate.enter(rt, pass);
    let turned = held.value().claim(Actor::Mover(mover));
    (gate.leave(held), turned)
}

/// What a mover's thread does between sleeps: the first event of its turn, as `claim`. None, and no event, where each session has
/// ended.
pub(crate) fn look<J: Made, R: Wait>(
    rt: &R,
    gate: &Gate<Pooled<J>>,
    pass: Pass<Pooled<J>>,
    mover: u32,
) -> (Pass<Pooled<J>>, Option<Result<Turned, Memory>>)
    requires gate { pass.gate ≡ gate.now.gate }
    requires number { Contains (own_numbers pass.own) (64 + mover) }
    requires range { (1 ≤ mover) × (mover ≤ 8) }
    requires free { held_in (list_of (64 + mover) pass.own) ≡ None }
    ensures pass { (result.0.gate ≡ pass.gate) × (result.0.reserve ≡ pass.reserve) }
    ensures own { LooksAt mover result.1 pass.own result.0.own }
    ensures told { Tells (λ x. number_in x) result.0.own result.0.seen }
{
    let mut held = gate.enter(rt, pass);
    let turned = held.value().look(mover);
    (gate.leave(held), turned)
}

/// The last event of an actor's turn: the install of what the work on its claim gave. The claim is to be kept until after this:
/// else the last shares of its sources would be dropped inside.
fn install<J: Made, R: Wait>(
    rt: &R,
    gate: &Gate<Pooled<J>>,
    pass: Pass<Pooled<J>>,
    actor: Actor,
    product: Product,
) -> Pass<Pooled<J>>
    requires gate { pass.gate ≡ gate.now.gate }
    requires number { Contains (own_numbers pass.own) (number_of actor) }
    requires known { IsOneOf J.sessions actor }
    requires may { (found : List Event) → IsFound pass found → MayEnd (ground_of J.schema J.sizes) (entries_in found) actor }
    requires held { (lent : Claim) × (held_in (list_of (number_of actor) pass.own) ≡ Some lent) × IsProductOf lent product }
    ensures pass { (result.gate ≡ pass.gate) × (result.reserve ≡ pass.reserve) }
    ensures own { IsAdded (number_of actor) None pass.own result.own }
    ensures ends { After pass (λ found. EndedBy install_work (ground_of J.schema J.sizes) actor (entries_in found) (entries_in result.seen)) }
    ensures told { Tells (λ x. number_in x) result.own result.seen }
{
    let mut held = gate.enter(rt, pass);
    held.value().install(actor, product);
    gate.leave(held)
}

/// The last event of an actor's turn where there was no memory for its product: the claim's release.
fn release<J: Made, R: Wait>(
    rt: &R,
    gate: &Gate<Pooled<J>>,
    pass: Pass<Pooled<J>>,
    actor: Actor,
) -> Pass<Pooled<J>>
    requires gate { pass.gate ≡ gate.now.gate }
    requires number { Contains (own_numbers pass.own) (number_of actor) }
    requires known { IsOneOf J.sessions actor }
    requires may { (found : List Event) → IsFound pass found → MayEnd (ground_of J.schema J.sizes) (entries_in found) actor }
    requires holds { IsSome (held_in (list_of (number_of actor) pass.own)) }
    ensures pass { (result.gate ≡ pass.gate) × (result.reserve ≡ pass.reserve) }
    ensures own { IsAdded (number_of actor) None pass.own result.own }
    ensures ends { After pass (λ found. EndedBy release_work (ground_of J.schema J.sizes) actor (entries_in found) (entries_in result.seen)) }
    ensures told { Tells (λ x. number_in x) result.own result.seen }
{
    let mut held = gate.enter(rt, pass);
    held.value().release(actor);
    gate.leave(held)
}

/// Works on an actor's claim outside the gate, and ends the turn: by the install of what the work gave, or by the claim's release
/// where there was no memory for it. True where it was the install.
pub(crate) fn end_turn<J: Made, R: Wait, D: Desk>(
    rt: &R,
    alloc: Global,
    gate: &Gate<Pooled<J>>,
    desk: &D,
    pass: Pass<Pooled<J>>,
    actor: Actor,
    claim: Claim,
) -> (Pass<Pooled<J>>, bool)
    requires gate { pass.gate ≡ gate.now.gate }
    requires number { Contains (own_numbers pass.own) (number_of actor) }
    requires known { IsOneOf J.sessions actor }
    requires may { (found : List Event) → IsFound pass found → MayEnd (ground_of J.schema J.sizes) (entries_in found) actor }
    requires held { held_in (list_of (number_of actor) pass.own) ≡ Some claim }
    requires mendable { IsMendable claim }
    ensures pass { (result.0.gate ≡ pass.gate) × (result.0.reserve ≡ pass.reserve) }
    ensures own { IsAdded (number_of actor) None pass.own result.0.own }
    ensures told { Tells (λ x. number_in x) result.0.own result.0.seen }
    ensures installed { result.1 ≡ true → After pass (λ found. EndedBy install_work (ground_of J.schema J.sizes) actor (entries_in found) (entries_in result.0.seen)) }
    ensures released { result.1 ≡ false → After pass (λ found. EndedBy release_work (ground_of J.schema J.sizes) actor (entries_in found) (entries_in result.0.seen)) }
{
    let product = desk.mend(alloc, &claim);
    let (pass, installed) = match product {
        Ok(product) => (install(rt, gate, pass, actor, product), true),
        Err(_) => (release(rt, gate, pass, actor), false),
    };
    // The claim shares the groups that its product takes the place of. Their last shares go outside the gate.
    drop(claim);
    (pass, installed)
}
