use cs_base::Memory;
use cs_types::{Key, Row, Value};
use std::alloc::Global;
use std::mem;
use std::process::Abort;
use std::test::Fail;
use write_set::{Own, Write};

/// A write of a row of one number, or of nothing.
fn write(alloc: Global, key: i64, number: Option<i64>) -> Result<Write, Memory> {
    let row = match number {
        None => None,
        Some(number) => {
            let mut row = Row::new(alloc);
            row.push(Value::Number(number))?;
            Some(row)
        }
    };
    Ok(Write {
        key: Key(key),
        row,
        replaces: false,
    })
}

#[test]
fn writes_are_listed(rt: HostRuntime) -> Result<(), Fail> {
    let alloc = rt.alloc();
    let none = Own::new(alloc, Vec::new(alloc))?;
    assert!(rt; none.is_empty() && none.len() == 0 && none.find(Key(0)).is_none());
    let only = write(alloc, -3, Some(30))?;
    let own = Own::new(alloc, vec![in alloc; only.copy()?]?)?;
    assert!(rt; (own.len(), own.find(Key(-3)), own.find(Key(3))) == (1, Some(0), None));
    let listed = own.get(0);
    assert!(rt; listed.key == only.key && listed.row == only.row);
    Ok(())
}

/// Writes of these keys, each with its number or nothing.
fn writes_of(alloc: Global, given: &[(i64, Option<i64>)]) -> Result<Vec<Write>, Memory> {
    let mut writes = Vec::new(alloc);
    for (key, number) in given {
        writes.push(write(alloc, *key, *number)?)?;
    }
    Ok(writes)
}

/// What is staged first and then, a key coming twice.
static FIRST: [(i64, Option<i64>); 4] = [(5, Some(5)), (2, Some(2)), (9, Some(9)), (2, Some(2))];

static SECOND: [(i64, Option<i64>); 2] = [(2, None), (7, Some(70))];

/// Keys, and their places once both are staged.
static FOUND: [(i64, Option<usize>); 6] = [
    (2, Some(0)),
    (5, Some(1)),
    (7, Some(2)),
    (9, Some(3)),
    (1, None),
    (10, None),
];

/// That the list has what was staged.
fn check_staged(rt: &impl Abort, own: &Own) {
    assert!(rt; own.len() == 4);
    for (key, place) in &FOUND {
        assert!(rt; own.find(Key(*key)) == *place, "of {key}");
    }
    for i in 0..own.len() {
        let write = own.get(i);
        assert!(rt; write.row.is_none() == (write.key == Key(2)));
    }
}

/// That a share has what was staged before it was made.
fn check_shared(rt: &impl Abort, alloc: Global, shared: &Own) -> Result<(), Memory> {
    assert!(rt; shared.len() == 3 && shared.find(Key(7)) == None);
    for write in shared.copies(alloc)? {
        assert!(rt; write.row.is_some());
    }
    Ok(())
}

#[test]
fn writes_are_staged(rt: HostRuntime) -> Result<(), Fail> {
    let alloc = rt.alloc();
    let mut own = Own::empty();
    assert!(rt; own.is_empty() && own.find(Key(1)).is_none());
    own.stage(writes_of(alloc, &FIRST)?)?;
    let shared = own.share()?;
    own.stage(writes_of(alloc, &SECOND)?)?;
    check_staged(&rt, &own);
    check_shared(&rt, alloc, &shared)?;
    Ok(())
}

/// A write of the number, at a key that goes up and down with it.
fn scattered(alloc: Global, number: i64) -> Result<Write, Memory> {
    write(alloc, number.saturating_mul(17) % 23, Some(number))
}

/// Writes in no order, with keys that come again: the last for a key stands, over what was staged before.
#[test]
fn many_writes_are_staged(rt: HostRuntime) -> Result<(), Fail> {
    let alloc = rt.alloc();
    let mut own = Own::empty();
    for &from in &[0i64, 60, 7] {
        let mut writes = Vec::new(alloc);
        for i in 0..40 {
            writes.push(scattered(alloc, from.saturating_add(i))?)?;
        }
        own.stage(writes)?;
    }
    let numbers = [
        46, 42, 38, 34, 30, 26, 45, 41, 37, 33, 29, 25, 44, 40, 36, 32, 28, 24, 43, 39, 35, 31, 27,
    ];
    assert!(rt; own.len() == numbers.len());
    for i in 0..own.len() {
        let Some(number) = numbers.get(i) else {
            return Err(Fail::from(Memory));
        };
        let write = own.get(i);
        let expected = scattered(alloc, *number)?;
        assert!(rt;
            write.key == expected.key && write.row == expected.row,
            "of {number}"
        );
    }
    Ok(())
}

/// In which order keys are staged.
#[derive(Clone, Copy)]
enum Order {
    Up,
    Down,
    Scattered,
}

/// The i-th key in an order, the first 1,009 of them being different.
fn key_of(order: Order, i: u16) -> i64 {
    match order {
        Order::Up => i64::from(i),
        Order::Down => 1_009 - i64::from(i),
        Order::Scattered => i64::from(i) * 389 % 1_009,
    }
}

/// So many writes in an order, staged so many at a time, with a share held at each time or not.
fn staged(
    alloc: Global,
    order: Order,
    count: u16,
    step: usize,
    held: bool,
) -> Result<(Own, Own), Memory> {
    let mut own = Own::empty();
    let mut share = own.share()?;
    let mut writes = Vec::new(alloc);
    for i in 0..count {
        let number = key_of(order, i);
        writes.push(write(alloc, number, Some(number))?)?;
        if writes.len() == step {
            own.stage(mem::replace(&mut writes, Vec::new(alloc)))?;
        }
        if held {
            share = own.share()?;
        }
    }
    own.stage(writes)?;
    Ok((own, share))
}

/// Whether the keys ascend, each is found in its place and has its row, and none is found between them.
fn is_list(own: &Own, count: usize) -> bool {
    let mut last = Key(-1);
    for i in 0..own.len() {
        let write = own.get(i);
        let number = match &write.row {
            Some(row) => row.cell(0) == &Value::Number(write.key.0),
            None => false,
        };
        if write.key <= last || !number || own.find(write.key) != Some(i) {
            return false;
        }
        last = write.key;
    }
    own.len() == count && own.find(Key(-1)).is_none() && own.find(Key(5_000)).is_none()
}

/// Lists at the edges of their chunks, whichever way they grew.
#[test]
fn chunks_have_edges(rt: HostRuntime) -> Result<(), Fail> {
    let alloc = rt.alloc();
    for &order in &[Order::Up, Order::Down, Order::Scattered] {
        for &count in &[1, 127, 128, 129, 256, 257, 1_000] {
            for &step in &[1, 2, 40] {
                let (own, _) = staged(alloc, order, count, step, false)?;
                assert!(rt; is_list(&own, usize::from(count)), "{count} by {step}");
            }
        }
    }
    Ok(())
}

/// A share keeps what it had, whatever its owner does to chunks that both have.
#[test]
fn shares_stay(rt: HostRuntime) -> Result<(), Fail> {
    let alloc = rt.alloc();
    for &order in &[Order::Up, Order::Down, Order::Scattered] {
        for &step in &[1, 7] {
            let (mut own, share) = staged(alloc, order, 300, step, true)?;
            for i in 0..300 {
                let number = key_of(order, i);
                own.stage(vec![in alloc; write(alloc, number, None)?]?)?;
            }
            assert!(rt; is_list(&share, share.len()) && 290 <= share.len());
            assert!(rt; own.len() == 300);
            for i in 0..own.len() {
                assert!(rt; own.get(i).row.is_none());
            }
        }
    }
    Ok(())
}
