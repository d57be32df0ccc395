// The Finish of a write, and the commit of a transaction.
ghost use Rattle.std.specs.Prelude.{◌≡◌, ◌<◌, List, IfOk, IsSome};
ghost use Rattle.cs_model.specs.Changes.{Change};
ghost use Rattle.cs_model.specs.State.{Half, Begin};
ghost use Rattle.txn_table.specs.Txns.{txn_of, own_of};
ghost use Rattle.group_directory.specs.Calls.{IsParcelFor};
ghost use Rattle.group_directory.specs.Stands.{Stands};
ghost use Rattle.statement_core.specs.CoreState.{IsWithin};
ghost use Rattle.write_set.specs.Writes.{write_keys};
ghost use Rattle.statement_core.specs.Settled.{refusal_of, CommitGives, Ends, IsLoadingAt, IsWritingAt, MayWrite};

use crate::core_state::{CoreState, commit, load, stage};
use crate::finish::refuse;
use cs_base::Memory;
use cs_model::{Refusal, Reply};
use cs_types::Key;
use group_directory::CommitRefusal;
use group_view::Parcel;
use std::alloc::Global;
use write_set::Write;

/// The keys of writes, in their order.
fn keys_of(alloc: Global, writes: &[Write]) -> Result<Vec<Key>, Memory>
    ensures { IfOk result (λ keys. keys.items ≡ write_keys writes.now) }
{
    let mut keys = Vec::with_capacity(alloc, writes.len())?;
    for write in writes {
        keys.push(write.key)?;
    }
    Ok(keys)
}

/// The refusal of a statement whose commit is refused: 50001 at 1 where it would draw a group id above 2^62, and 701 where memory is
/// not there.
fn refusal_of(refusal: CommitRefusal) -> Refusal
    ensures { result ≡ refusal_of refusal }
{
    match refusal {
        CommitRefusal::Full => Refusal::Reading {
            number: 50_001,
            at: 1,
        },
        CommitRefusal::Memory => Refusal::Memory,
    }
}

/// Commits the session's transaction with the parcel of its own writes, and gives this reply. Where that would draw a group id above
/// 2^62 the reply is 50001 at 1, and where memory is not there it is 701; an implicit transaction is gone then, and an explicit one
/// is as it was.
pub fn commit_with(held: &mut CoreState, session: u32, parcel: Parcel, reply: Reply) -> Reply
    requires within { IsWithin held.old session }
    requires open { IsSome (txn_of held.old.directory.txns session) }
    requires stands { (changes : List Change) × Stands held.old.directory changes }
    requires parcel { IsParcelFor held.old.directory (own_of (txn_of held.old.directory.txns session)) parcel }
    ensures { (changes : List Change) → Stands held.old.directory changes → CommitGives changes held.old session reply result held.new }
{
    match commit(held, session, parcel) {
        Ok(()) => reply,
        Err(refusal) => refuse(held, session, refusal_of(refusal)),
    }
}

/// The Finish of a write of the session's transaction: its obstacle, if it has one; else the writes are laid over the own ones, and
/// an implicit transaction commits with their parcel.
pub fn wrote(
    alloc: Global,
    held: &mut CoreState,
    session: u32,
    writes: Vec<Write>,
    present: Vec<Key>,
    affected: u64,
    parcel: Option<Parcel>,
) -> Reply
    requires within { IsWithin held.old session }
    requires may { MayWrite held.old session writes.items present.items affected parcel }
    ensures { (begin : Begin) (changes : List Change) (half : Half) → IsWritingAt begin changes held.old session half writes.items present.items affected parcel
        → Ends begin.schema changes held.old session half result held.new }
{
    let Ok(keys) = keys_of(alloc, &writes) else {
        return refuse(held, session, Refusal::Memory);
    };
    if let Some(refusal) = held.directory.obstacle(session, &keys, &present) {
        return refuse(held, session, refusal);
    }
    if stage(held, session, writes).is_err() {
        return refuse(held, session, Refusal::Memory);
    }
    match parcel {
        Some(parcel) => commit_with(held, session, parcel, Reply::Affected(affected)),
        None => Reply::Affected(affected),
    }
}

/// The Finish of a load: the obstacle of its keys, if they have one; else the implicit transaction commits the writes of these keys
/// with their parcel, and the reply is how many they are. Where the commit is refused, so is the statement, as in `commit_with`.
pub fn loaded(held: &mut CoreState, session: u32, keys: Vec<Key>, parcel: Parcel) -> Reply
    requires within { IsWithin held.old session }
    requires may { (begin : Begin) × (changes : List Change) × (half : Half) × IsLoadingAt begin changes held.old session half keys.items parcel }
    ensures { (begin : Begin) (changes : List Change) (half : Half) → IsLoadingAt begin changes held.old session half keys.items parcel → Ends begin.schema changes held.old session half result held.new }
{
    if let Some(refusal) = held.directory.obstacle(session, &keys, &[]) {
        return refuse(held, session, refusal);
    }
    match load(held, session, &keys, parcel) {
        Ok(()) => Reply::Affected(keys.len() as u64),
        Err(refusal) => refuse(held, session, refusal_of(refusal)),
    }
}
