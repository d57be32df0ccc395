// The moves of a session's REORGANIZE, which are made in the line that finishes it.
ghost use Rattle.std.specs.Prelude.{All, ◌≡◌, ◌≤◌, ◌++◌, [], List, IfOk, OnOk, OnErr, None};
ghost use Rattle.cs_model.specs.declared.entry.Entry.{Entry};
ghost use Rattle.cs_model.specs.declared.work.Actor.TheVariants.{Session};
ghost use Rattle.group_directory.specs.Installing.{held_by};
ghost use Rattle.group_log.specs.Followed.{ground_of};
ghost use Rattle.statement_core.specs.Courses.{HasStopped, IsCourse, IsTurning};
ghost use Rattle.script_runner.specs.Moves.{LeavesBoth, MakesTurn, Moved, StopsShort};
ghost use Rattle.script_runner.specs.Schedule.{IsOwnWork};
ghost use Rattle.statement_core.specs.Reorganizes.{IsStartLedger, MayBegin};

use cs_base::{Items, Memory};
use cs_model::Actor;
use group_directory::Ledger;
use statement_core::{Core, Desk, Reorganizing, Turned};
use std::alloc::Global;

/// The first look: where the REORGANIZE closes the open store, that is closed, if there is one.
fn look_first(core: &mut Core, course: &mut Reorganizing, session: u32) -> Result<(), Memory>
    requires course { IsCourse (ground_of core.old.schema core.old.sizes) session core.old.log [] course.old }
    requires free { held_by (Session session) core.old.claims ≡ None }
    ensures looked { OnOk result (Moved session core.old.log core.new.log (λ moves. IsTurning (ground_of core.old.schema core.old.sizes) session core.old.log moves course.new)) }
    ensures short { OnErr result (Moved session core.old.log core.new.log (StopsShort (ground_of core.old.schema core.old.sizes) core.old.log session)) }
    ensures schema { core.new.schema ≡ core.old.schema }
    ensures sizes { core.new.sizes ≡ core.old.sizes }
    ensures sessions { core.new.sessions ≡ core.old.sessions }
    ensures claims { core.new.claims ≡ core.old.claims }
{
    if !course.closes() {
        return Ok(());
    }
    if let Some(group) = core.close_opened(Actor::Session(session))? {
        course.closed(group)?;
    }
    Ok(())
}

/// A turn: its claim, the work on what that lends, and the install. False, and no event, where there is nothing to do. `Memory`:
/// memory was wanting for one of these; what was lent is released.
fn make_turn<D: Desk>(
    alloc: Global,
    core: &mut Core,
    course: &mut Reorganizing,
    session: u32,
    desk: &D,
) -> Result<bool, Memory>
    requires may { MayBegin (ground_of core.old.schema core.old.sizes) core.old.log (Session session) }
    requires free { held_by (Session session) core.old.claims ≡ None }
    requires left { 1 ≤ course.old.turns }
    ensures turned { IfOk result (λ made. Moved session core.old.log core.new.log (MakesTurn (ground_of core.old.schema core.old.sizes) session core.old.log course.old course.new made)) }
    ensures short { OnErr result ((moves : List Entry) × (core.new.log ≡ core.old.log ++ moves) × All (IsOwnWork session) moves) }
    ensures schema { core.new.schema ≡ core.old.schema }
    ensures sizes { core.new.sizes ≡ core.old.sizes }
    ensures sessions { core.new.sessions ≡ core.old.sessions }
    ensures claims { core.new.claims ≡ core.old.claims }
{
    let actor = Actor::Session(session);
    match core.claim(actor)? {
        Turned::Lent(claim) => match desk.mend(alloc, &claim) {
            Ok(product) => {
                core.install(actor, product);
                course.turned();
                Ok(true)
            }
            Err(_) => {
                core.release(actor);
                Err(Memory)
            }
        },
        Turned::Idle => Ok(false),
        Turned::Short => Err(Memory),
        // A session neither settles nor clears.
        Turned::Alone => unreachable!(),
    }
}

/// The first look, and then turns: until there is nothing to do, or it has made as many as it may.
fn make_turns<D: Desk>(
    alloc: Global,
    core: &mut Core,
    session: u32,
    all: bool,
    ledger: &Ledger,
    desk: &D,
) -> Result<Reorganizing, Memory>
    requires ledger { IsStartLedger (ground_of core.old.schema core.old.sizes) core.old.log session all ledger.now }
    requires free { held_by (Session session) core.old.claims ≡ None }
    ensures turned { IfOk result (λ course. Moved session core.old.log core.new.log (λ moves. HasStopped (ground_of core.old.schema core.old.sizes) session core.old.log moves course)) }
    ensures short { OnErr result (Moved session core.old.log core.new.log (StopsShort (ground_of core.old.schema core.old.sizes) core.old.log session)) }
    ensures schema { core.new.schema ≡ core.old.schema }
    ensures sizes { core.new.sizes ≡ core.old.sizes }
    ensures sessions { core.new.sessions ≡ core.old.sessions }
    ensures claims { core.new.claims ≡ core.old.claims }
{
    let mut course = Reorganizing::new(alloc, all, ledger)?;
    look_first(core, &mut course, session)?;
    while course.may_turn() {
        if !make_turn(alloc, core, &mut course, session, desk)? {
            return Ok(course);
        }
    }
    Ok(course)
}

/// The moves of a session's REORGANIZE, of which nothing was done since its Start, and the last look after them: the closed stores
/// that other actors hold, by id. `Memory`: memory was wanting, and what was done stays.
pub(crate) fn make_moves<D: Desk>(
    alloc: Global,
    core: &mut Core,
    session: u32,
    all: bool,
    ledger: &Ledger,
    desk: &D,
) -> Result<Items<(u64, Actor)>, Memory>
    requires ledger { IsStartLedger (ground_of core.old.schema core.old.sizes) core.old.log session all ledger.now }
    requires free { held_by (Session session) core.old.claims ≡ None }
    ensures left { IfOk result (λ groups. Moved session core.old.log core.new.log (LeavesBoth (ground_of core.old.schema core.old.sizes) core.old.log session groups)) }
    ensures short { OnErr result (Moved session core.old.log core.new.log (StopsShort (ground_of core.old.schema core.old.sizes) core.old.log session)) }
    ensures schema { core.new.schema ≡ core.old.schema }
    ensures sizes { core.new.sizes ≡ core.old.sizes }
    ensures sessions { core.new.sessions ≡ core.old.sessions }
    ensures claims { core.new.claims ≡ core.old.claims }
{
    let course = make_turns(alloc, core, session, all, ledger, desk)?;
    let last = core.ledger()?;
    course.left(alloc, session, &last)
}
