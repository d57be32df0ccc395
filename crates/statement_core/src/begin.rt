// What a Start does.
ghost use Rattle.std.specs.Prelude.{◌≡◌, List, ◌<◌, IfOk, OnErr, IsSome, is_none, true, false};
ghost use Rattle.cs_model.specs.Changes.{Change};
ghost use Rattle.cs_model.specs.Kinds.{is_of_table};
ghost use Rattle.cs_model.specs.State.{Begin};
ghost use Rattle.cs_model.specs.Steps.{pinned};
ghost use Rattle.txn_table.specs.Txns.{txn_of, own_of};
ghost use Rattle.group_directory.specs.Stands.{Stands};
ghost use Rattle.statement_core.specs.CoreState.{state_of, groups_of, IsWithin, IsStill};
ghost use Rattle.statement_core.specs.Reorganizes.{reorganizes, IsLedgerFor};
ghost use Rattle.statement_core.specs.Taken.{opened_for, IsPinOrNone, IsTaken};

use crate::core_state::{CoreState, HalfDone, open, set_half};
use cs_base::Memory;
use cs_model::{Bound, Kind};
use group_directory::Ledger;
use group_view::Pinned;
use std::sync::Arc;
use write_set::Own;

/// What a Start takes for the work of its statement.
#[derive(Drop)]
pub struct Taken {
    pub pinned: Option<Pinned>,
    pub own: Own,
    pub short: bool,
    pub note: u64,
    pub implicit: bool,
    pub ledger: Option<Ledger>,
}

fn is_of_table(bound: &Bound) -> bool
    ensures { result ≡ is_of_table bound.now }
{
    match bound.kind() {
        Kind::Insert | Kind::Change | Kind::Query => true,
        Kind::Control | Kind::Report | Kind::Reorganize | Kind::Refused => false,
    }
}

/// Opens an implicit transaction where the session has none.
fn open_implicit(held: &mut CoreState, session: u32)
    requires { IsWithin held.old session }
    ensures open { IsSome (txn_of held.new.directory.txns session) }
    ensures state { (changes : List Change) → state_of changes held.new ≡ pinned (state_of changes held.old) session true }
    ensures own { own_of (txn_of held.new.directory.txns session) ≡ own_of (txn_of held.old.directory.txns session) }
    ensures still { IsStill held.old held.new }
{
    if held.directory.depth(session).is_none() {
        open(held, session, 0);
    }
}

/// Opens a transaction where there is none, and takes its snapshot where it has none, with what a statement reads. None where
/// that finds no memory: there is no snapshot more then.
fn pin(held: &mut CoreState, session: u32) -> Option<Pinned>
    requires within { IsWithin held.old session }
    requires stands { (changes : List Change) × Stands held.old.directory changes }
    ensures state { (changes : List Change) → state_of changes held.new ≡ pinned (state_of changes held.old) session (is_none result) }
    ensures own { own_of (txn_of held.new.directory.txns session) ≡ own_of (txn_of held.old.directory.txns session) }
    ensures pinned { (changes : List Change) → Stands held.old.directory changes → is_none result ≡ false → IsPinOrNone changes held.new.directory session result }
    ensures still { IsStill held.old held.new }
{
    open_implicit(held, session);
    match held.directory.pin(session) {
        Ok(pinned) => Some(pinned),
        Err(_) => None,
    }
}

/// What a statement of the table reads, and whether memory for it was short. Another statement reads nothing.
fn take(held: &mut CoreState, session: u32, bound: &Bound) -> (Option<Pinned>, bool)
    requires within { IsWithin held.old session }
    requires stands { (changes : List Change) × Stands held.old.directory changes }
    ensures state { (changes : List Change) → state_of changes held.new ≡ opened_for (state_of changes held.old) session bound.now result.1 }
    ensures why { result.1 ≡ true → is_of_table bound.now ≡ true }
    ensures own { own_of (txn_of held.new.directory.txns session) ≡ own_of (txn_of held.old.directory.txns session) }
    ensures pinned { (changes : List Change) → Stands held.old.directory changes → is_of_table bound.now ≡ true → result.1 ≡ false → IsPinOrNone changes held.new.directory session result.0 }
    ensures still { IsStill held.old held.new }
{
    if !is_of_table(bound) {
        return (None, false);
    }
    let pinned = pin(held, session);
    let short = pinned.is_none();
    (pinned, short)
}

/// The groups by their counts, for a REORGANIZE; none for another statement.
fn ledger_for(held: &CoreState, bound: &Bound) -> Result<Option<Ledger>, Memory>
    requires stands { (changes : List Change) × Stands held.now.directory changes }
    ensures { IfOk result (IsLedgerFor (groups_of held.now) (reorganizes bound.now)) }
{
    match bound {
        Bound::Reorganize { .. } => Ok(Some(held.directory.ledger()?)),
        _ => Ok(None),
    }
}

/// A Start, but for its entry: what the work of its statement is handed. A statement of the table opens an implicit transaction
/// where there is none, and takes its snapshot; where that finds no memory the Start is short. `Memory`: nothing has changed.
pub fn start(held: &mut CoreState, session: u32, bound: Arc<Bound>) -> Result<Taken, Memory>
    requires within { IsWithin held.old session }
    requires stands { (changes : List Change) × Stands held.old.directory changes }
    ensures ok { IfOk result (λ taken. (begin : Begin) (changes : List Change) → Stands held.old.directory changes → held.old.directory.schema.value ≡ begin.schema
        → IsTaken begin changes held.old session bound.value taken held.new) }
    ensures err { OnErr result (held.new ≡ held.old) }
    ensures still { IsStill held.old held.new }
{
    let own = held.directory.own(session)?;
    let ledger = ledger_for(held, &bound)?;
    let (pinned, short) = take(held, session, &bound);
    let implicit = held.directory.depth(session) == Some(0);
    let half = HalfDone::new(bound, short);
    let note = half.note;
    set_half(held, session, Some(half));
    Ok(Taken {
        pinned,
        own,
        short,
        note,
        implicit,
        ledger,
    })
}
