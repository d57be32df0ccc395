// Runs steps over a core, one by one.
ghost use Rattle.std.specs.Prelude.{All, ◌≡◌, ◌≤◌, ◌<◌, ◌++◌, ◌∷◌, [], List, length, filter, not, Contains, IfOk, IfSome, OnOk, OnErr, IsSome, None, true, false};
ghost use Rattle.cs_types.specs.Schemas.{IsSchema};
ghost use Rattle.cs_model.specs.declared.entry.Entry.{Entry};
ghost use Rattle.cs_model.specs.declared.entry.Entry.TheVariants.{End};
ghost use Rattle.cs_model.specs.Actors.{entries_of, is_begun, has_ended};
ghost use Rattle.cs_model.specs.Changes.{table};
ghost use Rattle.cs_model.specs.State.{State, begin_of};
ghost use Rattle.cs_model.specs.Steps.{Legal};
ghost use Rattle.group_book.specs.Book.{Book};
ghost use Rattle.group_book.specs.Choices.{install_work, release_work};
ghost use Rattle.group_book.specs.Turns.{same_actor};
ghost use Rattle.group_log.specs.Counted.{AreCountsAt, IsCounted};
ghost use Rattle.group_log.specs.Followed.{ground_of, Followed};
ghost use Rattle.group_log.specs.Reorganizing.{IsReorganized};
ghost use Rattle.cs_model.specs.Text.{IsPrintableEntry};
ghost use Rattle.group_directory.specs.Installing.{held_by};
ghost use Rattle.cs_model.specs.declared.work.Actor.TheVariants as Actor;
ghost use Rattle.script_reader.specs.Scripts.{IsServed};
ghost use Rattle.statement_core.specs.Cores.{IsDone};
ghost use Rattle.statement_core.specs.Counted.{outcome_counts};
ghost use Rattle.statement_core.specs.Seats.{seat};
ghost use Rattle.statement_core.specs.Movers.{IsMended};
ghost use Rattle.statement_core.specs.Turns.{BeginsTurn, EndsBy, EndsTurn};
ghost use Rattle.script_runner.specs.Running.{AreReady, IsFree, LeavesClaims, MayRun, OthersKeep, Waits};
ghost use Rattle.script_runner.specs.Moves.{GivesBy, Moved};
ghost use Rattle.script_runner.specs.Schedule.{IsFinishing, IsPiece};
ghost use Rattle.statement_core.specs.Awaiting.{Awaits};
ghost use Rattle.script_turns.specs.Turns.{IsStart};

use crate::moves::make_moves;
use cs_base::Memory;
use cs_model::{Actor, Entry};
use cs_types::Schema;
use group_view::{Claim, Product};
use script_reader::Step;
use script_turns::bound_of;
use statement_core::{Core, Desk, Outcome, Seats, Started, Turned};
use std::alloc::Global;
use std::marker::Model;
use std::sync::Wait;
use std::thread::Threads;

/// Starts a statement; it waits in its session's seat for the Finish.
fn begin(
    alloc: Global,
    core: &mut Core,
    waiting: &mut Seats<Started>,
    session: u32,
    text: &[u8],
) -> Result<(), Memory>
    requires seat { session < 65 }
    requires known { Contains core.old.sessions session }
    requires rests { is_begun (entries_of session core.old.log) ≡ false }
    requires going { has_ended (entries_of session core.old.log) ≡ false }
    requires waits { Waits core.old.sizes (begin_of core.old.schema) core.old.log (seat waiting.old) }
    requires short { length text.now ≤ 65_536 }
    ensures log { OnOk result ((e : Entry) × (core.new.log ≡ core.old.log ++ e ∷ []) × IsStart (begin_of core.old.schema) core.old.log session text.now e) }
    ensures waits { Waits core.old.sizes (begin_of core.old.schema) core.new.log (seat waiting.new) }
    ensures schema { core.new.schema ≡ core.old.schema }
    ensures sizes { core.new.sizes ≡ core.old.sizes }
    ensures sessions { core.new.sessions ≡ core.old.sessions }
    ensures claims { core.new.claims ≡ core.old.claims }
    ensures err { OnErr result (core.new.log ≡ core.old.log) }
{
    let bound = bound_of(alloc, core.schema(), text);
    let started = core.start(session, bound)?;
    waiting.set(session, Some(started));
    Ok(())
}

/// What a statement that was started gives: by a desk's work, and for a REORGANIZE by its moves, which are made here. What was
/// started is over with it: it shares the own writes and the groups, which else would be copied at the Finish.
fn give<R: Threads + Wait, D: Desk>(
    rt: &R,
    alloc: Global,
    core: &mut Core,
    session: u32,
    started: Started,
    desk: &D,
) -> Outcome
    requires awaits { Awaits core.old.sizes (begin_of core.old.schema) core.old.log session started }
    requires free { held_by (Actor.Session session) core.old.claims ≡ None }
    ensures gives { Moved session core.old.log core.new.log (GivesBy (ground_of core.old.schema core.old.sizes) core.old.log session result) }
    ensures done { IsDone (begin_of core.old.schema) core.old.sizes core.new.log session result }
    ensures counts { IfSome (outcome_counts result) (AreCountsAt (ground_of core.old.schema core.old.sizes) core.new.log session) }
    ensures schema { core.new.schema ≡ core.old.schema }
    ensures sizes { core.new.sizes ≡ core.old.sizes }
    ensures sessions { core.new.sessions ≡ core.old.sessions }
    ensures claims { core.new.claims ≡ core.old.claims }
{
    let outcome = desk.work(rt, alloc, &started);
    let Some(all) = started.reorganizes() else {
        return outcome;
    };
    let Outcome::Nothing = outcome else {
        return outcome;
    };
    let Started { ledger, .. } = started;
    let Some(ledger) = ledger else {
        unreachable!();
    };
    match make_moves(alloc, core, session, all, &ledger, desk) {
        Ok(groups) => Outcome::Left(groups),
        Err(_) => Outcome::Short,
    }
}

/// Finishes the statement that waits in its session's seat.
fn finish<R: Threads + Wait, D: Desk>(
    rt: &R,
    alloc: Global,
    core: &mut Core,
    waiting: &mut Seats<Started>,
    session: u32,
    desk: &D,
)
    requires seat { session < 65 }
    requires schema { IsSchema core.old.schema }
    requires known { Contains core.old.sessions session }
    requires begun { is_begun (entries_of session core.old.log) ≡ true }
    requires waits { Waits core.old.sizes (begin_of core.old.schema) core.old.log (seat waiting.old) }
    requires free { held_by (Actor.Session session) core.old.claims ≡ None }
    ensures log { (piece : List Entry) × (core.new.log ≡ core.old.log ++ piece) × IsFinishing (ground_of core.old.schema core.old.sizes) core.old.log session piece }
    ensures waits { Waits core.old.sizes (begin_of core.old.schema) core.new.log (seat waiting.new) }
    ensures schema { core.new.schema ≡ core.old.schema }
    ensures sizes { core.new.sizes ≡ core.old.sizes }
    ensures sessions { core.new.sessions ≡ core.old.sessions }
    ensures claims { core.new.claims ≡ core.old.claims }
{
    match waiting.set(session, None) {
        Some(started) => {
            let outcome = give(rt, alloc, core, session, started, desk);
            core.finish(session, outcome);
        }
        None => unreachable!(),
    }
}

/// Makes the first event of a mover's turn; what is lent waits in the mover's seat.
fn claim(core: &mut Core, lent: &mut Seats<Claim>, mover: u32) -> Result<(), Memory>
    requires free { IsFree core.old mover }
    requires ready { AreReady core.old.claims (seat lent.old) }
    ensures begins { OnOk result ((piece : List Entry) × (core.new.log ≡ core.old.log ++ piece) × BeginsTurn (ground_of core.old.schema core.old.sizes) core.old.log (Actor.Mover mover) piece) }
    ensures ready { AreReady core.new.claims (seat lent.new) }
    ensures others { OthersKeep (Actor.Mover mover) core.old.claims core.new.claims }
    ensures schema { core.new.schema ≡ core.old.schema }
    ensures sizes { core.new.sizes ≡ core.old.sizes }
    ensures sessions { core.new.sessions ≡ core.old.sessions }
    ensures err { OnErr result (core.new ≡ core.old) }
{
    if let Turned::Lent(claim) = core.claim(Actor::Mover(mover))? {
        lent.set(mover, Some(claim));
    }
    Ok(())
}

/// Makes the last event of a mover's turn by the work on its claim: the install of the product, or the claim's release, where there
/// was no memory for one.
fn end_turn(core: &mut Core, mover: u32, product: Result<Product, Memory>)
    requires holds { IsSome (held_by (Actor.Mover mover) core.old.claims) }
    requires mended { IfOk product (IsMended (held_by (Actor.Mover mover) core.old.claims)) }
    ensures installs { OnOk product ((piece : List Entry) × (core.new.log ≡ core.old.log ++ piece) × EndsBy install_work (ground_of core.old.schema core.old.sizes) core.old.log (Actor.Mover mover) piece) }
    ensures releases { OnErr product ((piece : List Entry) × (core.new.log ≡ core.old.log ++ piece) × EndsBy release_work (ground_of core.old.schema core.old.sizes) core.old.log (Actor.Mover mover) piece) }
    ensures claims { core.new.claims ≡ filter (λ held. not (same_actor held.0 (Actor.Mover mover))) core.old.claims }
    ensures schema { core.new.schema ≡ core.old.schema }
    ensures sizes { core.new.sizes ≡ core.old.sizes }
    ensures sessions { core.new.sessions ≡ core.old.sessions }
{
    match product {
        Ok(product) => core.install(Actor::Mover(mover), product),
        Err(_) => core.release(Actor::Mover(mover)),
    }
}

/// Makes the last event of a mover's turn, by what waits in its seat; none where nothing waits.
fn install<D: Desk>(alloc: Global, core: &mut Core, lent: &mut Seats<Claim>, mover: u32, desk: &D)
    requires served { IsServed core.old.sessions (Actor.Mover mover) }
    requires ready { AreReady core.old.claims (seat lent.old) }
    ensures ends { (piece : List Entry) × (core.new.log ≡ core.old.log ++ piece) × EndsTurn (ground_of core.old.schema core.old.sizes) core.old.log (Actor.Mover mover) piece }
    ensures ready { AreReady core.new.claims (seat lent.new) }
    ensures free { held_by (Actor.Mover mover) core.new.claims ≡ None }
    ensures others { OthersKeep (Actor.Mover mover) core.old.claims core.new.claims }
    ensures schema { core.new.schema ≡ core.old.schema }
    ensures sizes { core.new.sizes ≡ core.old.sizes }
    ensures sessions { core.new.sessions ≡ core.old.sessions }
{
    // By its contract a mover that holds no claim has no turn to end.
    let _log = core.log();
    let Some(claim) = lent.set(mover, None) else {
        return;
    };
    let product = desk.mend(alloc, &claim);
    end_turn(core, mover, product);
}

/// What waits between events: a started statement for each session that has one half done, and what is lent for each mover that
/// holds a claim.
#[derive(Drop)]
struct Waiting {
    started: Seats<Started>,
    lent: Seats<Claim>,
}

/// Makes the events of one step.
fn run_step<R: Threads + Wait, D: Desk>(
    rt: &R,
    alloc: Global,
    core: &mut Core,
    waiting: &mut Waiting,
    step: &Step,
    desk: &D,
) -> Result<(), Memory>
    requires schema { IsSchema core.old.schema }
    requires may { MayRun core.old step.now }
    requires waits { Waits core.old.sizes (begin_of core.old.schema) core.old.log (seat waiting.old.started) }
    requires ready { AreReady core.old.claims (seat waiting.old.lent) }
    ensures piece { OnOk result ((piece : List Entry) × IsPiece (ground_of core.old.schema core.old.sizes) core.old.log step.now piece × (core.new.log ≡ core.old.log ++ piece)) }
    ensures waits { Waits core.old.sizes (begin_of core.old.schema) core.new.log (seat waiting.new.started) }
    ensures ready { AreReady core.new.claims (seat waiting.new.lent) }
    ensures claims { OnOk result (LeavesClaims step.now core.old.claims core.new.claims) }
    ensures schema { core.new.schema ≡ core.old.schema }
    ensures sizes { core.new.sizes ≡ core.old.sizes }
    ensures sessions { core.new.sessions ≡ core.old.sessions }
    ensures err { OnErr result (core.new ≡ core.old) }
{
    let Waiting { started, lent } = waiting;
    match step {
        Step::Whole { session, text } => {
            begin(alloc, core, started, *session, text.as_slice())?;
            finish(rt, alloc, core, started, *session, desk);
        }
        Step::Begun { session, text } => begin(alloc, core, started, *session, text.as_slice())?,
        Step::Finished { session } => finish(rt, alloc, core, started, *session, desk),
        Step::Turn { mover } => {
            claim(core, lent, *mover)?;
            install(alloc, core, lent, *mover, desk);
        }
        Step::Claiming { mover } => claim(core, lent, *mover)?,
        Step::Installing { mover } => install(alloc, core, lent, *mover, desk),
    }
    Ok(())
}

/// Runs the steps of sessions and movers over a core, one by one; what a session has started and not finished waits in it, and so
/// does what a mover was lent. It is seen as its core: the table, how large groups are, the log of the events, the sessions that it
/// serves, and the claims that are out.
#[derive(Drop)]
pub struct Runner {
    alloc: Global,
    core: Core,
    waiting: Waiting,
}

impl Model for Runner {
    ghost use Rattle.statement_core.specs.CoreValue.{CoreValue};

    ghost Value = { CoreValue };

    ghost use Rattle.cs_model.specs.contracts.expr.Expr as expr;
    ghost use Rattle.cs_model.specs.contracts.pred.Pred as pred;
    ghost use Rattle.std.specs.Coded.{codes};

    ghost coded = { Prim.hlevel (codes, expr.the_row.coded, pred.the_row.coded) };

    ghost view = { λ r. r.core };

    ghost use Rattle.cs_model.specs.State.{begin_of};
    ghost use Rattle.statement_core.specs.Seats.{seat};
    ghost use Rattle.script_runner.specs.Running.{AreReady, Waits};

    ghost invariant = { λ r. Waits r.core.sizes (begin_of r.core.schema) r.core.log (seat r.waiting.started) × AreReady r.core.claims (seat r.waiting.lent) };
}

impl Runner {
    /// A runner over a new core. `Memory` where there is no room for its seats.
    pub fn new(alloc: Global, core: Core) -> Result<Runner, Memory>
        requires log { core.log ≡ [] }
        requires claims { core.claims ≡ [] }
        ensures { IfOk result (λ runner. runner ≡ core) }
    {
        let waiting = Waiting {
            started: Seats::new(alloc)?,
            lent: Seats::new(alloc)?,
        };
        Ok(Runner {
            alloc,
            core,
            waiting,
        })
    }

    /// Runs one step: the Start of a statement, the Finish of the one that its session has half done, with the moves of a
    /// REORGANIZE before it, or both; or the first event of a mover's turn, the last one, or both. `Memory`: no event was made.
    /// Conditions: a session is one that the core serves, has not ended, and has a statement half done exactly where the step is a
    /// Finish alone; a text has at most 65,536 bytes; and a mover is 1 to 8, and holds no claim where its turn begins.
    pub fn step<R: Threads + Wait, D: Desk>(
        &mut self,
        rt: &R,
        step: &Step,
        desk: &D,
    ) -> Result<(), Memory>
        requires schema { IsSchema self.old.schema }
        requires may { MayRun self.old step.now }
        ensures piece { OnOk result ((piece : List Entry) × IsPiece (ground_of self.old.schema self.old.sizes) self.old.log step.now piece × (self.new.log ≡ self.old.log ++ piece)) }
        ensures claims { OnOk result (LeavesClaims step.now self.old.claims self.new.claims) }
        ensures schema { self.new.schema ≡ self.old.schema }
        ensures sizes { self.new.sizes ≡ self.old.sizes }
        ensures sessions { self.new.sessions ≡ self.old.sessions }
        ensures err { OnErr result (self.new ≡ self.old) }
    {
        run_step(
            rt,
            self.alloc,
            &mut self.core,
            &mut self.waiting,
            step,
            desk,
        )
    }

    /// The End of a session. It takes no memory.
    pub fn end(&mut self, session: u32)
        requires known { Contains self.old.sessions session }
        requires rests { is_begun (entries_of session self.old.log) ≡ false }
        requires going { has_ended (entries_of session self.old.log) ≡ false }
        ensures log { self.new.log ≡ self.old.log ++ End session ∷ [] }
        ensures claims { self.new.claims ≡ self.old.claims }
        ensures schema { self.new.schema ≡ self.old.schema }
        ensures sizes { self.new.sizes ≡ self.old.sizes }
        ensures sessions { self.new.sessions ≡ self.old.sessions }
    {
        self.core.end(session);
    }

    /// The table.
    pub fn schema(&self) -> &Schema
        ensures { result.now ≡ self.now.schema }
    {
        self.core.schema()
    }

    /// How many rows the table has at the clock, after the log so far. No row is read.
    pub fn rows(&self) -> u128
        ensures { (m : State) → Legal (begin_of self.now.schema) self.now.log m → result ≡ length (table m.changes m.clock) }
    {
        self.core.rows()
    }

    /// The log of the events, which the row model and the book of groups follow, and which can be printed.
    pub fn log(&self) -> &[Entry]
        ensures log { result.now ≡ self.now.log }
        ensures followed { (m : State) × (book : Book) × Followed (ground_of self.now.schema self.now.sizes) self.now.log m book }
        // Counts of segments in an answer are those of the groups at its statement's Start.
        ensures counted { IsCounted (ground_of self.now.schema self.now.sizes) self.now.log }
        // Sessions work only as their REORGANIZE may, and each is told what that leaves.
        ensures reorganized { IsReorganized (ground_of self.now.schema self.now.sizes) self.now.log }
        ensures printable { All (IsPrintableEntry self.now.schema) self.now.log }
    {
        self.core.log()
    }
}
