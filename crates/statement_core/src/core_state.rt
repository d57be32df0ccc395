// What the core keeps beside its log.
ghost use Rattle.std.specs.Prelude.{◌≡◌, ℕ, ◌+◌, ◌<◌, ◌≢◌, ◌^◌, [], List, IsSome, OnOk, OnErr, Err, None, Some, true};
ghost use Rattle.cs_model.specs.Changes.{Change};
ghost use Rattle.cs_model.specs.State.{State, with, txn_set, half_set, statistics_set};
ghost use Rattle.cs_model.specs.Steps.{commits, gone, half_of};
ghost use Rattle.edit_laws.specs.Edits.{edits_of};
ghost use Rattle.write_set.specs.declared.write.Write.{Write};
ghost use Rattle.txn_table.specs.declared.txn.Txn.{Txn};
ghost use Rattle.txn_table.specs.Txns.{txn_of, deepened, widened, own_of};
ghost use Rattle.group_book.specs.Commits.{draws_past};
ghost use Rattle.group_log.specs.Followed.{book_with};
ghost use Rattle.group_directory.specs.Calls.{IsParcelFor, IsCommitOf};
ghost use Rattle.group_directory.specs.declared.committing.CommitRefusal.TheVariants as refusal;
ghost use Rattle.group_directory.specs.Laws.{sizes_of, MayStage};
ghost use Rattle.group_directory.specs.Obstacles.{txn_as, txn_in};
ghost use Rattle.group_directory.specs.Stands.{Stands};
ghost use Rattle.statement_core.specs.CoreState.{half_as, half_in, halves_of, settings_of, state_of, groups_of, IsWithin, IsSame, IsStill};
ghost use Rattle.statement_core.specs.Leaves.{committed_in, Leaves};

use crate::seats::Seats;
use cs_base::Memory;
use cs_model::Bound;
use cs_types::Key;
use group_directory::{CommitRefusal, Directory};
use group_view::Parcel;
use std::sync::Arc;
use write_set::Write;

/// A statement that was started and not finished.
#[derive(Drop)]
pub struct HalfDone {
    pub bound: Arc<Bound>,
    /// Whether its Start found no memory.
    pub short: bool,
    /// What its Start noted.
    pub note: u64,
}

impl HalfDone {
    /// What the Start of a statement makes. No form has anything to note: so it is 0.
    pub fn new(bound: Arc<Bound>, short: bool) -> HalfDone
        ensures { (m : State) → half_as result ≡ half_of m bound.value short }
    {
        HalfDone {
            bound,
            short,
            note: 0,
        }
    }
}

/// The row groups with the open transactions, and what each session has half done and has set.
#[derive(Drop)]
pub struct CoreState {
    pub directory: Directory,
    pub halves: Seats<HalfDone>,
    /// Each session's setting of STATISTICS IO: whether its answers tell counts of segments. None is off.
    pub settings: Seats<bool>,
}

/// Gives a session another half-done statement, and answers the one that it had.
pub fn set_half(held: &mut CoreState, session: u32, half: Option<HalfDone>) -> Option<HalfDone>
    requires { session < 65 }
    ensures was { half_in result ≡ halves_of held.old.halves session }
    ensures state { (changes : List Change) → state_of changes held.new ≡ half_set (state_of changes held.old) session (half_in half) }
    ensures settings { held.new.settings ≡ held.old.settings }
    ensures rest { held.new.directory ≡ held.old.directory }
{
    held.halves.set(session, half)
}

/// Gives a session another setting.
pub fn set_statistics(held: &mut CoreState, session: u32, on: bool)
    requires { session < 65 }
    ensures state { (changes : List Change) → state_of changes held.new ≡ statistics_set (state_of changes held.old) session on }
    ensures still { IsStill held.old held.new }
{
    held.settings.set(session, Some(on));
}

/// Whether a session is told counts of segments.
pub fn is_told(held: &CoreState, session: u32) -> bool
    ensures { result ≡ settings_of held.now.settings session }
{
    match held.settings.get(session) {
        Some(on) => *on,
        None => false,
    }
}

/// Opens a transaction of the session, so deep.
pub fn open(held: &mut CoreState, session: u32, depth: u32)
    requires within { IsWithin held.old session }
    requires closed { txn_of held.old.directory.txns session ≡ None }
    ensures state { (changes : List Change) → state_of changes held.new ≡ record (state_of changes held.old) {
      txns = with (state_of changes held.old).txns session (Some (record { number = held.old.directory.txns.next; depth = depth; snapshot = None; own = [] }));
      next = held.old.directory.txns.next + 1;
    } }
    ensures open { IsSome (txn_of held.new.directory.txns session) }
    ensures own { own_of (txn_of held.new.directory.txns session) ≡ [] }
    ensures still { IsStill held.old held.new }
{
    held.directory.begin(session, depth);
}

/// Gives the session's transaction another depth.
pub fn deepen(held: &mut CoreState, session: u32, depth: u32)
    requires session { session < 65 }
    requires open { IsSome (txn_of held.old.directory.txns session) }
    ensures state { (changes : List Change) → state_of changes held.new ≡ txn_set (state_of changes held.old) session (txn_in (deepened depth (txn_of held.old.directory.txns session))) }
    ensures still { IsStill held.old held.new }
{
    held.directory.deepen(session, depth);
}

/// Ends the session's transaction; its own writes are gone.
pub fn roll_back(held: &mut CoreState, session: u32)
    requires session { session < 65 }
    requires open { IsSome (txn_of held.old.directory.txns session) }
    ensures state { (changes : List Change) → state_of changes held.new ≡ gone (state_of changes held.old) session }
    ensures still { IsStill held.old held.new }
{
    held.directory.rollback(session);
}

/// Lays writes over those of the session's transaction. After `Memory` nothing has changed.
pub fn stage(held: &mut CoreState, session: u32, writes: Vec<Write>) -> Result<(), Memory>
    requires session { session < 65 }
    requires open { IsSome (txn_of held.old.directory.txns session) }
    ensures ok { OnOk result ((changes : List Change) → state_of changes held.new ≡ txn_set (state_of changes held.old) session (txn_in (widened writes.items (txn_of held.old.directory.txns session)))) }
    ensures own { OnOk result (txn_of held.new.directory.txns session ≡ widened writes.items (txn_of held.old.directory.txns session)) }
    ensures err { OnErr result ((changes : List Change) → state_of changes held.new ≡ state_of changes held.old) }
    ensures same { IsSame held.old held.new }
    ensures next { held.new.directory.txns.next ≡ held.old.directory.txns.next }
    ensures stands { (changes : List Change) (s : ℕ) → Stands held.old.directory changes → MayStage (txn_of held.old.directory.txns) changes session s writes.items → Stands held.new.directory changes }
{
    held.directory.stage(session, writes)
}

/// Commits the session's transaction, with the parcel of its own writes. After a refusal nothing has changed; `Full` comes where
/// the commit would draw a group id above 2^62.
pub fn commit(held: &mut CoreState, session: u32, parcel: Parcel) -> Result<(), CommitRefusal>
    requires within { IsWithin held.old session }
    requires open { IsSome (txn_of held.old.directory.txns session) }
    requires stands { (changes : List Change) × Stands held.old.directory changes }
    requires parcel { IsParcelFor held.old.directory (own_of (txn_of held.old.directory.txns session)) parcel }
    ensures ok { OnOk result ((changes : List Change) → Stands held.old.directory changes → Leaves changes held.old held.new (committed_in (state_of changes held.old) session)) }
    ensures full { (changes : List Change) → Stands held.old.directory changes → result ≡ Err refusal.Full
        → (own_of (txn_of held.old.directory.txns session) ≢ []) × (draws_past (groups_of held.old) (book_with (sizes_of held.old.directory) (state_of changes held.old) (edits_of (own_of (txn_of held.old.directory.txns session))) (groups_of held.old)) ≡ true) }
    ensures err { OnErr result ((changes : List Change) → state_of changes held.new ≡ state_of changes held.old) }
    ensures still { OnErr result (IsStill held.old held.new) }
{
    match held.directory.commit(session, parcel) {
        Ok(_) => Ok(()),
        Err(refusal) => Err(refusal),
    }
}

/// Commits writes by their keys and a parcel of them in the session's transaction, which has written nothing before them. None of
/// them replaces a row. After a refusal nothing has changed; `Full` comes where the commit would draw a group id above 2^62.
pub fn load(
    held: &mut CoreState,
    session: u32,
    keys: &[Key],
    parcel: Parcel,
) -> Result<(), CommitRefusal>
    requires within { IsWithin held.old session }
    requires open { IsSome (txn_of held.old.directory.txns session) }
    requires bare { own_of (txn_of held.old.directory.txns session) ≡ [] }
    requires given { (changes : List Change) × (list : List Write) × Stands held.old.directory changes × IsCommitOf held.old.directory changes session keys.now [] parcel list }
    ensures ok { OnOk result ((changes : List Change) (list : List Write) (txn : Txn) → Stands held.old.directory changes → IsCommitOf held.old.directory changes session keys.now [] parcel list
        → txn_of held.old.directory.txns session ≡ Some txn → Leaves changes held.old held.new (commits (state_of changes held.old) session (txn_as (record txn { own = list })))) }
    ensures full { (changes : List Change) (list : List Write) → Stands held.old.directory changes → IsCommitOf held.old.directory changes session keys.now [] parcel list → result ≡ Err refusal.Full
        → (list ≢ []) × (draws_past (groups_of held.old) (book_with (sizes_of held.old.directory) (state_of changes held.old) (edits_of list) (groups_of held.old)) ≡ true) }
    ensures err { OnErr result ((changes : List Change) → state_of changes held.new ≡ state_of changes held.old) }
    ensures still { OnErr result (IsStill held.old held.new) }
{
    match held.directory.load(session, keys, parcel) {
        Ok(_) => Ok(()),
        Err(refusal) => Err(refusal),
    }
}
