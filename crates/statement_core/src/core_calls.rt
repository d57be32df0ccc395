// The core: the log of events, and what stands for the state that it leads to.
ghost use Rattle.std.specs.Prelude.{◌≡◌, ◌≤◌, ◌<◌, ◌++◌, ◌∷◌, [], List, length, filter, not, All, Contains, OnErr, IfOk, IfSome, IsSome, None, true, false};
ghost use Rattle.cs_types.specs.Schemas.{IsSchema};
ghost use Rattle.cs_model.specs.declared.entry.Entry.TheVariants.{Finish, End};
ghost use Rattle.cs_model.specs.declared.entry.Entry.{Entry};
ghost use Rattle.cs_model.specs.declared.entry.Reply.{Reply};
ghost use Rattle.cs_model.specs.declared.work.Actor.{Actor};
ghost use Rattle.cs_model.specs.declared.work.Actor.TheVariants.{Session};
ghost use Rattle.cs_model.specs.State.{State, begin_of};
ghost use Rattle.cs_model.specs.Actors.{entries_of, is_begun, has_ended};
ghost use Rattle.cs_model.specs.Changes.{table};
ghost use Rattle.cs_model.specs.Ready.{IsReady};
ghost use Rattle.cs_model.specs.Steps.{Legal};
ghost use Rattle.cs_model.specs.Text.{IsPrintableEntry};
ghost use Rattle.log_laws.specs.Laws.{AreDistinct};
ghost use Rattle.log_laws.specs.Started.{Begun, IsStarted, IsStartEntry};
ghost use Rattle.group_book.specs.Book.{Book};
ghost use Rattle.group_book.specs.Choices as spec;
ghost use Rattle.group_book.specs.Turns.{same_actor};
ghost use Rattle.group_log.specs.Counted.{AreCountsAt, IsCounted};
ghost use Rattle.group_log.specs.Followed.{ground_of, Followed};
ghost use Rattle.group_log.specs.Reorganizing.{IsReorganized};
ghost use Rattle.group_directory.specs.Installing.{held_by};
ghost use Rattle.statement_core.specs.Begun.{Hands, MayWork};
ghost use Rattle.statement_core.specs.Cores.{IsDone};
ghost use Rattle.statement_core.specs.Counted.{outcome_counts, HasStartCounts};
ghost use Rattle.statement_core.specs.Ended.{HaveEnded};
ghost use Rattle.statement_core.specs.Movers.{GivesTurn, IsMended};
ghost use Rattle.statement_core.specs.NewTable.{IsNewTable};
ghost use Rattle.statement_core.specs.Reorganizes.{reorganizes, HasLedger, IsClosing, IsLedgerAt, LeavesBy, IsToldBy, MayBegin, MayClose, MayEnd};
ghost use Rattle.statement_core.specs.Terms.{sizes_of, AreTerms, AreTermsOf};
ghost use Rattle.statement_core.specs.Turns.{TurnsTo, EndsBy, HasAllClaims};

use crate::begin::start;
use crate::core_state::CoreState;
use crate::finish::{end, finish};
use crate::movers::{Turned, claim, close_opened, install_work, release_work};
use crate::seats::Seats;
use crate::started::{Outcome, Started, Terms};
use cs_base::Memory;
use cs_model::{Actor, Bound, Entry, Work};
use cs_types::Schema;
use group_directory::{Directory, Ledger, Sizes};
use group_view::Product;
use std::alloc::Global;
use std::marker::Model;
use std::sync::Arc;

/// The most sessions, and so the most entries that can be owed beside a Start: a Finish and an End for each.
const SESSIONS: usize = 64;

/// Serves sessions and movers over one table: each call makes one event, or none. The log of the events is legal at any time, and
/// the row groups follow it.
#[derive(Drop)]
pub struct Core {
    alloc: Global,
    terms: Arc<Terms>,
    held: CoreState,
    log: Vec<Entry>,
    sessions: Vec<u32>,
    /// How many of the sessions have no End in the log.
    unended: usize,
}

impl Model for Core {
    ghost use Rattle.statement_core.specs.CoreValue.{CoreValue};

    ghost Value = { CoreValue };

    ghost use Rattle.cs_model.specs.contracts.expr.Expr as expr;
    ghost use Rattle.cs_model.specs.contracts.pred.Pred as pred;
    ghost use Rattle.std.specs.Coded.{codes};

    ghost coded = { Prim.hlevel (codes, expr.the_row.coded, pred.the_row.coded) };

    ghost use Rattle.std.specs.Prelude.{◌≡◌, vec_capacity};
    ghost use Rattle.statement_core.specs.Cores.{IsCore};
    ghost use Rattle.statement_core.specs.Ended.{without_end};
    ghost use Rattle.statement_core.specs.CoreState.{claims_of};
    ghost use Rattle.statement_core.specs.Terms.{sizes_of};

    ghost view = { λ c. record { schema = c.terms.value.schema.value; sizes = sizes_of c.terms.value; log = c.log.items; sessions = c.sessions.items; claims = claims_of c.held } };

    ghost invariant = { λ c. IsCore c.terms.value c.held c.log.items (vec_capacity c.log) c.sessions.items × (c.unended ≡ without_end c.log.items c.sessions.items) };
}

/// The directory of a new table, with what the core was made with.
fn new_table(
    alloc: Global,
    schema: Schema,
    group_rows: u64,
    direct_rows: u64,
) -> Result<(Directory, Terms), Memory>
    requires { AreTermsOf group_rows direct_rows }
    ensures { IfOk result (λ made. IsNewTable schema group_rows direct_rows made.0 made.1) }
{
    let sizes = Sizes {
        group_rows,
        direct_rows,
    };
    let directory = Directory::new(alloc, schema, sizes)?;
    let schema = Arc::try_clone(&directory.schema)?;
    let terms = Terms {
        schema,
        group_rows,
        direct_rows,
    };
    Ok((directory, terms))
}

impl Core {
    /// A core for these sessions over a table without rows: groups have at most `group_rows` versions, 2 to 1,048,576, and a commit
    /// loads rows directly from `direct_rows` on, 1 to 1,048,576. Its log is empty, and it has room for every End.
    pub fn new(
        alloc: Global,
        schema: Schema,
        group_rows: u64,
        direct_rows: u64,
        sessions: &[u32],
    ) -> Result<Core, Memory>
        requires table { IsSchema schema }
        requires sizes { AreTermsOf group_rows direct_rows }
        requires numbers { All (λ session. session < 65) sessions.now }
        requires few { length sessions.now ≤ 64 }
        requires distinct { AreDistinct sessions.now }
        ensures schema { IfOk result (λ core. core.schema ≡ schema) }
        ensures sizes { IfOk result (λ core. core.sizes ≡ record { group_rows = group_rows; direct_rows = direct_rows }) }
        ensures log { IfOk result (λ core. core.log ≡ []) }
        ensures sessions { IfOk result (λ core. core.sessions ≡ sessions.now) }
        ensures claims { IfOk result (λ core. core.claims ≡ []) }
    {
        let (directory, terms) = new_table(alloc, schema, group_rows, direct_rows)?;
        let terms = match Arc::new(alloc, terms) {
            Ok(terms) => terms,
            Err(_) => return Err(Memory),
        };
        let halves = Seats::new(alloc)?;
        let settings = Seats::new(alloc)?;
        let held = CoreState {
            directory,
            halves,
            settings,
        };
        let mut log = Vec::new(alloc);
        log.reserve(SESSIONS)?;
        let unended = sessions.len();
        let sessions = sessions.to_vec(alloc)?;
        Ok(Core {
            alloc,
            terms,
            held,
            log,
            sessions,
            unended,
        })
    }

    /// The Start of a statement. A statement of the table opens a transaction where there is none, takes its snapshot, and pins the
    /// row groups of this moment; where that finds no memory the Start is short, with a transaction and no snapshot more. A
    /// REORGANIZE takes the groups by their counts. `Memory`: no event was made.
    pub fn start(&mut self, session: u32, bound: Bound) -> Result<Started, Memory>
        requires known { Contains self.old.sessions session }
        requires rests { is_begun (entries_of session self.old.log) ≡ false }
        requires going { has_ended (entries_of session self.old.log) ≡ false }
        requires ready { IsReady self.old.schema bound }
        ensures log { IfOk result (λ started. (entry : Entry) × (self.new.log ≡ self.old.log ++ entry ∷ []) × IsStartEntry session bound started.short entry) }
        ensures bound { IfOk result (λ started. started.bound.value ≡ bound) }
        ensures terms { IfOk result (λ started. AreTerms started.terms.value × (sizes_of started.terms.value ≡ self.new.sizes)) }
        ensures started { IfOk result (λ started. (begun : Begun) × Hands begun started × MayWork begun × IsStarted (begin_of self.new.schema) self.new.log session begun) }
        ensures counts { IfOk result (HasStartCounts (ground_of self.new.schema self.new.sizes) self.new.log session) }
        ensures ledger { IfOk result (λ started. HasLedger (ground_of self.new.schema self.new.sizes) self.new.log session (reorganizes started.bound.value) started.ledger) }
        ensures schema { self.new.schema ≡ self.old.schema }
        ensures sizes { self.new.sizes ≡ self.old.sizes }
        ensures sessions { self.new.sessions ≡ self.old.sessions }
        ensures claims { self.new.claims ≡ self.old.claims }
        ensures err { OnErr result (self.new.log ≡ self.old.log) }
    {
        let terms = Arc::try_clone(&self.terms)?;
        let bound = match Arc::new(self.alloc, bound) {
            Ok(bound) => bound,
            Err(_) => return Err(Memory),
        };
        let in_log = Arc::try_clone(&bound)?;
        let in_half = Arc::try_clone(&bound)?;
        self.log
            .reserve(2 * SESSIONS + 2 + self.held.directory.list.claims.len())?;
        let taken = start(&mut self.held, session, in_half)?;
        self.log.push_reserved(Entry::Start {
            session,
            bound: in_log,
            short: taken.short,
        });
        Ok(Started {
            bound,
            pinned: taken.pinned,
            own: taken.own,
            short: taken.short,
            note: taken.note,
            implicit: taken.implicit,
            terms,
            ledger: taken.ledger,
        })
    }

    /// The Finish of the session's statement: its reply is in the log then, with the counts of segments of an answer exactly where
    /// the session's setting of STATISTICS IO is on, and with what a REORGANIZE left. Where memory for the reply or its effect is not
    /// there, it is error 701; and 50001 at 1 where a commit would draw a group id above 2^62. It takes no memory for its entry.
    /// Conditions: the session holds no claim, and the groups that the outcome tells as left are those that its REORGANIZE leaves.
    pub fn finish(&mut self, session: u32, outcome: Outcome)
        requires known { Contains self.old.sessions session }
        requires outcome { IsDone (begin_of self.old.schema) self.old.sizes self.old.log session outcome }
        requires counts { IfSome (outcome_counts outcome) (AreCountsAt (ground_of self.old.schema self.old.sizes) self.old.log session) }
        requires left { LeavesBy (ground_of self.old.schema self.old.sizes) self.old.log session outcome }
        requires free { held_by (Session session) self.old.claims ≡ None }
        ensures log { (reply : Reply) × (self.new.log ≡ self.old.log ++ Finish session reply ∷ []) × IsToldBy outcome reply }
        ensures schema { self.new.schema ≡ self.old.schema }
        ensures sizes { self.new.sizes ≡ self.old.sizes }
        ensures sessions { self.new.sessions ≡ self.old.sessions }
        ensures claims { self.new.claims ≡ self.old.claims }
    {
        let reply = finish(self.alloc, &mut self.held, session, outcome);
        self.log.push_reserved(Entry::Finish { session, reply });
    }

    /// The End of a session: its open transaction is rolled back. It takes no memory.
    pub fn end(&mut self, session: u32)
        requires known { Contains self.old.sessions session }
        requires rests { is_begun (entries_of session self.old.log) ≡ false }
        requires going { has_ended (entries_of session self.old.log) ≡ false }
        ensures log { self.new.log ≡ self.old.log ++ End session ∷ [] }
        ensures schema { self.new.schema ≡ self.old.schema }
        ensures sizes { self.new.sizes ≡ self.old.sizes }
        ensures sessions { self.new.sessions ≡ self.old.sessions }
        ensures claims { self.new.claims ≡ self.old.claims }
    {
        end(&mut self.held, session);
        self.log.push_reserved(Entry::End { session });
        self.unended -= 1;
    }

    /// Whether each of its sessions has its End in the log; without a session, at once.
    pub fn ended(&self) -> bool
        ensures ended { result ≡ true → HaveEnded self.now.log self.now.sessions }
        ensures exactly { HaveEnded self.now.log self.now.sessions → result ≡ true }
    {
        self.unended == 0
    }

    /// The first event of an actor's turn, by the first of the seven choices that there is (Larson et al., PVLDB 2015, section 4):
    /// groups are lent, or ends become plain, or tombstones go; want of memory in the place of that; or none where there is
    /// nothing to do. Room for the event that ends the turn is taken. `Memory`: the log had no room, and no event was made.
    /// Conditions: the actor is a mover, or a session whose REORGANIZE may begin a turn, and holds no claim.
    pub fn claim(&mut self, actor: Actor) -> Result<Turned, Memory>
        requires may { MayBegin (ground_of self.old.schema self.old.sizes) self.old.log actor }
        requires free { held_by actor self.old.claims ≡ None }
        ensures begins { IfOk result (λ turned. (piece : List Entry) × (self.new.log ≡ self.old.log ++ piece) × TurnsTo (ground_of self.old.schema self.old.sizes) self.old.log actor turned piece) }
        ensures turned { IfOk result (GivesTurn actor self.old.claims self.new.claims) }
        ensures schema { self.new.schema ≡ self.old.schema }
        ensures sizes { self.new.sizes ≡ self.old.sizes }
        ensures sessions { self.new.sessions ≡ self.old.sessions }
        ensures err { OnErr result (self.new ≡ self.old) }
    {
        let claims = self.held.directory.list.claims.len();
        self.log.reserve(2 * SESSIONS + 2 + claims)?;
        let (turned, work) = claim(&mut self.held, actor);
        if let Some(work) = work {
            self.log.push_reserved(Entry::Mover { actor, work });
        }
        Ok(turned)
    }

    /// The install of what the work on the actor's claim gave; the claim is over. It takes no memory. Conditions: the actor is a
    /// mover, or a session with a REORGANIZE half done, and holds a claim, and the product is of a share of it.
    pub fn install(&mut self, actor: Actor, product: Product)
        requires may { MayEnd (ground_of self.old.schema self.old.sizes) self.old.log actor }
        requires product { IsMended (held_by actor self.old.claims) product }
        ensures ends { (piece : List Entry) × (self.new.log ≡ self.old.log ++ piece) × EndsBy spec.install_work (ground_of self.old.schema self.old.sizes) self.old.log actor piece }
        ensures claims { self.new.claims ≡ filter (λ held. not (same_actor held.0 actor)) self.old.claims }
        ensures schema { self.new.schema ≡ self.old.schema }
        ensures sizes { self.new.sizes ≡ self.old.sizes }
        ensures sessions { self.new.sessions ≡ self.old.sessions }
    {
        let work = match self.held.directory.claim_by(actor) {
            Some(claim) => install_work(claim, &product),
            None => unreachable!(),
        };
        self.held.directory.install(actor, product);
        self.log.push_reserved(Entry::Mover { actor, work });
    }

    /// The release of the actor's claim: what it lent stays as it is, and the group that it was to make is gone. It takes no
    /// memory. Conditions: the actor is a mover, or a session with a REORGANIZE half done, and holds a claim.
    pub fn release(&mut self, actor: Actor)
        requires may { MayEnd (ground_of self.old.schema self.old.sizes) self.old.log actor }
        requires holds { IsSome (held_by actor self.old.claims) }
        ensures ends { (piece : List Entry) × (self.new.log ≡ self.old.log ++ piece) × EndsBy spec.release_work (ground_of self.old.schema self.old.sizes) self.old.log actor piece }
        ensures claims { self.new.claims ≡ filter (λ held. not (same_actor held.0 actor)) self.old.claims }
        ensures schema { self.new.schema ≡ self.old.schema }
        ensures sizes { self.new.sizes ≡ self.old.sizes }
        ensures sessions { self.new.sessions ≡ self.old.sessions }
    {
        let work = match self.held.directory.claim_by(actor) {
            Some(claim) => release_work(claim),
            None => unreachable!(),
        };
        self.held.directory.release(actor);
        self.log.push_reserved(Entry::Mover { actor, work });
    }

    /// The first look of a session's REORGANIZE that is to close the open store: that is closed, and the answer is its id; None, and no
    /// event, where no store is open. `Memory`: the log had no room, and no event was made. Conditions: the session has nothing else
    /// done yet in its REORGANIZE, and holds no claim.
    pub fn close_opened(&mut self, actor: Actor) -> Result<Option<u64>, Memory>
        requires may { MayClose (ground_of self.old.schema self.old.sizes) self.old.log actor }
        requires free { held_by actor self.old.claims ≡ None }
        ensures closes { IfOk result (λ closed. IsClosing (ground_of self.old.schema self.old.sizes) self.old.log actor closed self.new.log) }
        ensures claims { self.new.claims ≡ self.old.claims }
        ensures schema { self.new.schema ≡ self.old.schema }
        ensures sizes { self.new.sizes ≡ self.old.sizes }
        ensures sessions { self.new.sessions ≡ self.old.sessions }
        ensures err { OnErr result (self.new ≡ self.old) }
    {
        let claims = self.held.directory.list.claims.len();
        self.log.reserve(2 * SESSIONS + 2 + claims)?;
        let closed = close_opened(&mut self.held);
        if let Some(group) = closed {
            let work = Work::Close { group };
            self.log.push_reserved(Entry::Mover { actor, work });
        }
        Ok(closed)
    }

    /// The groups by their counts, and who holds which, at this moment. It makes no event.
    pub fn ledger(&self) -> Result<Ledger, Memory>
        ensures { IfOk result (IsLedgerAt (ground_of self.now.schema self.now.sizes) self.now.log) }
    {
        self.held.directory.ledger()
    }

    /// The table that it serves.
    pub fn schema(&self) -> &Schema
        ensures { result.now ≡ self.now.schema }
    {
        &self.terms.schema
    }

    /// What it was made with.
    pub fn terms(&self) -> &Terms
        ensures schema { result.now.schema.value ≡ self.now.schema }
        ensures sizes { sizes_of result.now ≡ self.now.sizes }
        ensures terms { AreTerms result.now }
    {
        &self.terms
    }

    /// How many rows the table has at the clock, after the log so far. No row is read.
    pub fn rows(&self) -> u128
        ensures { (m : State) → Legal (begin_of self.now.schema) self.now.log m → result ≡ length (table m.changes m.clock) }
    {
        self.held.directory.rows()
    }

    /// The log, which is legal and which the row groups follow: it leads from the empty state and the empty book, entry by entry,
    /// to a state of the row model and a book of row groups; and it can be printed.
    pub fn log(&self) -> &[Entry]
        ensures log { result.now ≡ self.now.log }
        ensures legal { (m : State) × Legal (begin_of self.now.schema) self.now.log m }
        ensures followed { (m : State) × (book : Book) × Followed (ground_of self.now.schema self.now.sizes) self.now.log m book }
        ensures printable { All (IsPrintableEntry self.now.schema) self.now.log }
        // Counts of segments in an answer are those of the groups at its statement's Start.
        ensures counted { IsCounted (ground_of self.now.schema self.now.sizes) self.now.log }
        // Sessions work only as their REORGANIZE may, and each is told what that leaves.
        ensures reorganized { IsReorganized (ground_of self.now.schema self.now.sizes) self.now.log }
        // In the book that it leads to, an actor that holds none of the claims has no turn to end.
        ensures claims { HasAllClaims (ground_of self.now.schema self.now.sizes) self.now.log self.now.claims }
        // While the log is empty nobody holds a claim.
        ensures none { self.now.log ≡ [] → self.now.claims ≡ [] }
    {
        self.log.as_slice()
    }
}
