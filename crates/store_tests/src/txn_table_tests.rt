ghost use Rattle.std.specs.Prelude.{◌+◌, ◌<◌, ◌≤◌};
ghost use Rattle.txn_table.specs.Txns.{IsSession};

use cs_base::Memory;
use cs_types::Key;
use std::alloc::Global;
use std::test::Fail;
use txn_table::Txns;
use write_set::Write;

/// Opens a transaction, where the session has none.
fn open(txns: &mut Txns, session: u32, depth: u32) -> u64
    requires session { IsSession session }
    requires next { txns.old.next < 1000 }
    ensures { txns.new.next ≤ txns.old.next + 1 }
{
    match txns.depth(session) {
        Some(_) => 0,
        None => txns.begin(session, depth),
    }
}

/// A write of nothing in the session's transaction, where it has one.
fn delete(txns: &mut Txns, alloc: Global, session: u32, key: i64) -> Result<(), Memory>
    requires { IsSession session }
{
    let mut writes = Vec::new(alloc);
    writes.push(Write {
        key: Key(key),
        row: None,
        replaces: true,
    })?;
    match txns.depth(session) {
        Some(_) => txns.stage(session, writes),
        None => Ok(()),
    }
}

/// Gives the session's transaction a snapshot, where it has one.
fn fix(txns: &mut Txns, session: u32, clock: u64)
    requires { IsSession session }
{
    match txns.depth(session) {
        Some(_) => txns.fix(session, clock),
        None => {}
    }
}

/// Ends the session's transaction, where it has one.
fn end(txns: &mut Txns, session: u32)
    requires { IsSession session }
{
    match txns.depth(session) {
        Some(_) => txns.remove(session),
        None => {}
    }
}

#[test]
fn transactions_open_and_end(rt: HostRuntime) -> Result<(), Fail> {
    let mut txns = Txns::new();
    let numbers = (open(&mut txns, 64, 1), open(&mut txns, 1, 0));
    assert!(rt; numbers == (1, 2));
    assert!(rt; (txns.depth(64), txns.depth(2)) == (Some(1), None));
    assert!(rt; txns.floor(9) == 9);
    fix(&mut txns, 64, 4);
    fix(&mut txns, 1, 3);
    fix(&mut txns, 1, 8);
    assert!(rt; txns.floor(9) == 3);
    for &key in &[5, 2] {
        delete(&mut txns, rt.alloc(), 64, key)?;
    }
    assert!(rt; (txns.own(64)?.len(), txns.own(1)?.len()) == (2, 0));
    for &(key, but, holder) in &[(5, 1, Some(1)), (5, 64, None), (3, 1, None)] {
        assert!(rt; txns.holder(Key(key), but) == holder, "of {key}");
    }
    end(&mut txns, 1);
    assert!(rt; (txns.depth(1), txns.floor(9)) == (None, 4));
    Ok(())
}
