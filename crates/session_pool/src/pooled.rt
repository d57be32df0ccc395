// The core as the gate keeps it.
ghost use Rattle.std.specs.Prelude.{◌<◌, vec_len, vec_capacity};
ghost use Rattle.session_pool.specs.Pools.{IsNoted};

use crate::attempt::Attempt;
use crate::event::{Event, Note};
use cs_base::Memory;
use cs_model::{Actor, Bound};
use group_directory::Ledger;
use group_view::Product;
use history_gate::Stands;
use statement_core::{Core, Outcome, Started, Turned};
use std::alloc::Global;
use std::marker::{Brand, Model, PhantomData};
use std::snapshot::Snapshot;

/// What a core was made with, and the lines of the script that its sessions run. A call of `run_sessions` picks them.
pub(crate) trait Made {
    ghost use Rattle.std.specs.Prelude.{List, ℕ};
    ghost use Rattle.cs_types.specs.declared.Schema.{Schema};
    ghost use Rattle.group_book.specs.Commits.{Sizes};
    ghost use Rattle.script_reader.specs.declared.script.Step.{Step};

    ghost schema: { Schema };

    ghost sizes: { Sizes };

    ghost sessions: { List ℕ };

    ghost lines: { List Step };
}

impl Made for Brand {
    ghost use Rattle.std.specs.Prelude.{[]};

    ghost schema = { record { name = []; columns = []; key = 0 } };

    ghost sizes = { record { group_rows = 0; direct_rows = 0 } };

    ghost sessions = { [] };

    ghost lines = { [] };
}

/// A core that was made with what `J` says. Contracts see its history: the entries of its log, each with the claim that it lent.
#[derive(Drop)]
pub(crate) struct Pooled<J: Made> {
    core: Core,
    lent: Vec<Note>,
    of: PhantomData<J>,
}

impl<J: Made> Model for Pooled<J> {
    ghost use Rattle.std.specs.Prelude.{List};
    ghost use Rattle.session_pool.specs.declared.event.Event.{Event};

    ghost Value = { List Event };

    ghost use Rattle.cs_model.specs.contracts.expr.Expr as expr;
    ghost use Rattle.cs_model.specs.contracts.pred.Pred as pred;
    ghost use Rattle.std.specs.Coded.{codes};

    ghost coded = { Prim.hlevel (codes, expr.the_row.coded, pred.the_row.coded) };

    ghost use Rattle.session_pool.specs.Events.{events_of};
    ghost use Rattle.session_pool.specs.Pools.{AreNoted, IsPool};

    ghost view = { λ p. events_of p.lent.items p.core.log };

    ghost invariant = { λ p. AreNoted p.lent.items p.core × IsPool J.schema J.sizes J.sessions J.lines p.core (events_of p.lent.items p.core.log) };
}

impl<J: Made> Stands for Pooled<J> {
    ghost use Rattle.session_pool.specs.Events.{number_in};

    type Entry = Event;

    ghost list = { λ p. p };

    ghost number = { λ e. number_in e };
}

/// Notes what an event lent, at the event's place in the log.
fn note_lent(notes: &mut Vec<Note>, place: usize, turned: &Turned)
    requires room { vec_len notes.old < vec_capacity notes.old }
    ensures { IsNoted turned.now place notes.old.items notes.new.items }
{
    if let Turned::Lent(claim) = turned {
        let claim = Snapshot::of(claim);
        notes.push_reserved(Note { place, claim });
    }
}

impl<J: Made> Pooled<J> {
    ghost use Rattle.std.specs.Prelude.{◌≡◌, ◌≤◌, ◌<◌, ◌+◌, ◌++◌, [], ◌∷◌, List, ℕ, slice_get, All, Contains, IfOk, IfSome, OnErr, IsSome, None, Some, false};
    ghost use Rattle.cs_model.specs.declared.entry.Entry.TheVariants.{Finish, End};
    ghost use Rattle.cs_model.specs.declared.entry.Reply.{Reply};
    ghost use Rattle.cs_model.specs.declared.work.Actor.TheVariants.{Session};
    ghost use Rattle.cs_model.specs.Actors.{entries_of, is_begun, has_ended, number_of};
    ghost use Rattle.cs_model.specs.Ready.{IsReady};
    ghost use Rattle.cs_model.specs.State.{begin_of};
    ghost use Rattle.cs_model.specs.Text.{statements_of};
    ghost use Rattle.group_book.specs.Choices.{install_work, release_work};
    ghost use Rattle.group_log.specs.Counted.{AreCountsAt};
    ghost use Rattle.group_log.specs.Followed.{ground_of};
    ghost use Rattle.group_view.specs.declared.claim.Claim.{Claim};
    ghost use Rattle.group_view.specs.Claims.{IsProductOf};
    ghost use Rattle.statement_core.specs.Awaiting.{Awaits};
    ghost use Rattle.script_turns.specs.Turns.{texts_of, IsBound};
    ghost use Rattle.log_laws.specs.Started.{IsStartEntry};
    ghost use Rattle.statement_core.specs.Cores.{IsDone};
    ghost use Rattle.statement_core.specs.Counted.{outcome_counts};
    ghost use Rattle.statement_core.specs.Reorganizes.{IsClosing, IsLedgerAt, LeavesBy, MayBegin, MayClose, MayEnd};
    ghost use Rattle.session_pool.specs.declared.event.Event.{Event};
    ghost use Rattle.session_pool.specs.Events.{entries_in, events_by, held_in};
    ghost use Rattle.session_pool.specs.Pools.{IsOneOf, IsPool};
    ghost use Rattle.session_pool.specs.Sections.{BegunBy, EndedBy, IsGrown, GrowsBy, LooksBy};
    ghost use Rattle.session_pool.specs.Works.{Attempts, AttemptsBy, ClosesBy};

    /// A new core, which serves the sessions of the script.
    pub fn new(alloc: Global, core: Core) -> Pooled<J>
        requires schema { core.schema ≡ J.schema }
        requires sizes { core.sizes ≡ J.sizes }
        requires sessions { core.sessions ≡ J.sessions }
        requires numbers { All (λ session. session < 65) J.sessions }
        requires log { core.log ≡ [] }
        requires claims { core.claims ≡ [] }
        ensures { result ≡ [] }
    {
        Pooled {
            core,
            lent: Vec::new(alloc),
            of: PhantomData,
        }
    }

    /// The core, with what its history says of it.
    pub fn into_core(self) -> Core
        ensures log { result.log ≡ entries_in self }
        ensures pool { IsPool J.schema J.sizes J.sessions J.lines result self }
    {
        let Pooled { core, .. } = self;
        core
    }

    /// The Start of a session's next statement. `Memory`: no event was made. Condition: the session holds no claim.
    pub fn start(&mut self, session: u32, bound: Bound) -> Result<Started, Memory>
        requires known { Contains J.sessions session }
        requires rests { is_begun (entries_of session (entries_in self.old)) ≡ false }
        requires going { has_ended (entries_of session (entries_in self.old)) ≡ false }
        requires ready { IsReady J.schema bound }
        requires meant { (text : List ℕ) × (slice_get (texts_of session J.lines) (statements_of session (entries_in self.old)) ≡ Some text) × IsBound J.schema text bound }
        requires free { held_in (events_by session self.old) ≡ None }
        ensures events { IfOk result (λ s. (e : Event) × (self.new ≡ self.old ++ e ∷ []) × IsStartEntry session bound s.short e.entry × (e.lent ≡ None)) }
        ensures awaits { IfOk result (Awaits J.sizes (begin_of J.schema) (entries_in self.new) session) }
        ensures err { OnErr result (self.new ≡ self.old) }
    {
        self.core.start(session, bound)
    }

    /// The Finish of the statement that a session has begun. Condition: the session holds no claim.
    pub fn finish(&mut self, session: u32, outcome: Outcome)
        requires known { Contains J.sessions session }
        requires outcome { IsDone (begin_of J.schema) J.sizes (entries_in self.old) session outcome }
        requires counts { IfSome (outcome_counts outcome) (AreCountsAt (ground_of J.schema J.sizes) (entries_in self.old) session) }
        requires left { LeavesBy (ground_of J.schema J.sizes) (entries_in self.old) session outcome }
        requires free { held_in (events_by session self.old) ≡ None }
        ensures events { (e : Event) × (reply : Reply) × (self.new ≡ self.old ++ e ∷ []) × (e.entry ≡ Finish session reply) × (e.lent ≡ None) }
    {
        self.core.finish(session, outcome);
    }

    /// The End of a session. Condition: the session holds no claim.
    pub fn end(&mut self, session: u32)
        requires known { Contains J.sessions session }
        requires rests { is_begun (entries_of session (entries_in self.old)) ≡ false }
        requires going { has_ended (entries_of session (entries_in self.old)) ≡ false }
        requires free { held_in (events_by session self.old) ≡ None }
        ensures events { (e : Event) × (self.new ≡ self.old ++ e ∷ []) × (e.entry ≡ End session) × (e.lent ≡ None) }
    {
        self.core.end(session);
    }

    /// The first event of an actor's turn, with a note of what it lent. Room for the note is taken before: so `Memory` means that no
    /// event was made.
    pub fn claim(&mut self, actor: Actor) -> Result<Turned, Memory>
        requires known { IsOneOf J.sessions actor }
        requires may { MayBegin (ground_of J.schema J.sizes) (entries_in self.old) actor }
        requires free { held_in (events_by (number_of actor) self.old) ≡ None }
        ensures events { IfOk result (λ turned. GrowsBy (number_of actor) turned self.old self.new) }
        ensures begins { IfOk result (λ turned. BegunBy (ground_of J.schema J.sizes) actor turned (entries_in self.old) (entries_in self.new)) }
        ensures err { OnErr result (self.new ≡ self.old) }
    {
        let Pooled { core, lent, of: _ } = self;
        lent.reserve(1)?;
        let place = core.log().len();
        let turned = core.claim(actor)?;
        note_lent(lent, place, &turned);
        Ok(turned)
    }

    /// The first event of a mover's turn, as `claim`; None, and no event, where each session has ended.
    pub fn look(&mut self, mover: u32) -> Option<Result<Turned, Memory>>
        requires range { (1 ≤ mover) × (mover ≤ 8) }
        requires free { held_in (events_by (64 + mover) self.old) ≡ None }
        ensures { LooksBy mover result self.old self.new }
    {
        if self.core.ended() {
            return None;
        }
        Some(self.claim(Actor::Mover(mover)))
    }

    /// The first event of a turn of a session's REORGANIZE. Where nothing is left to do it takes its last look at once, so that
    /// nothing comes between.
    pub fn attempt(&mut self, session: u32) -> Attempt
        requires known { Contains J.sessions session }
        requires may { MayBegin (ground_of J.schema J.sizes) (entries_in self.old) (Session session) }
        requires free { held_in (events_by session self.old) ≡ None }
        ensures events { AttemptsBy session result self.old self.new }
        ensures log { Attempts (ground_of J.schema J.sizes) session result (entries_in self.old) (entries_in self.new) }
    {
        match self.claim(Actor::Session(session)) {
            Ok(Turned::Lent(claim)) => Attempt::Lent(claim),
            Ok(Turned::Idle) => match self.ledger() {
                Ok(ledger) => Attempt::Idle(ledger),
                Err(_) => Attempt::Short,
            },
            // A session neither settles nor clears.
            Ok(Turned::Alone) => unreachable!(),
            Ok(Turned::Short) | Err(_) => Attempt::Short,
        }
    }

    /// The install of what the work on an actor's claim gave.
    pub fn install(&mut self, actor: Actor, product: Product)
        requires known { IsOneOf J.sessions actor }
        requires may { MayEnd (ground_of J.schema J.sizes) (entries_in self.old) actor }
        requires held { (lent : Claim) × (held_in (events_by (number_of actor) self.old) ≡ Some lent) × IsProductOf lent product }
        ensures events { IsGrown (number_of actor) None self.old self.new }
        ensures ends { EndedBy install_work (ground_of J.schema J.sizes) actor (entries_in self.old) (entries_in self.new) }
    {
        self.core.install(actor, product);
    }

    /// The release of an actor's claim.
    pub fn release(&mut self, actor: Actor)
        requires known { IsOneOf J.sessions actor }
        requires may { MayEnd (ground_of J.schema J.sizes) (entries_in self.old) actor }
        requires holds { IsSome (held_in (events_by (number_of actor) self.old)) }
        ensures events { IsGrown (number_of actor) None self.old self.new }
        ensures ends { EndedBy release_work (ground_of J.schema J.sizes) actor (entries_in self.old) (entries_in self.new) }
    {
        self.core.release(actor);
    }

    /// The close of the open store by a session's REORGANIZE; None, and no event, where no store is open. `Memory`: no event was
    /// made.
    pub fn close_opened(&mut self, session: u32) -> Result<Option<u64>, Memory>
        requires known { Contains J.sessions session }
        requires may { MayClose (ground_of J.schema J.sizes) (entries_in self.old) (Session session) }
        requires free { held_in (events_by session self.old) ≡ None }
        ensures events { IfOk result (λ closed. ClosesBy session closed self.old self.new) }
        ensures closes { IfOk result (λ closed. IsClosing (ground_of J.schema J.sizes) (entries_in self.old) (Session session) closed (entries_in self.new)) }
        ensures err { OnErr result (self.new ≡ self.old) }
    {
        self.core.close_opened(Actor::Session(session))
    }

    /// The groups by their counts, and who holds which, at this moment.
    pub fn ledger(&self) -> Result<Ledger, Memory>
        ensures { IfOk result (IsLedgerAt (ground_of J.schema J.sizes) (entries_in self.now)) }
    {
        self.core.ledger()
    }
}
