use crate::made::same_text;
use cs_base::{Items, Memory};
use cs_model::{Actor, Entry, Refusal, Reply, Work};
use log_summary::print_summary;
use std::alloc::Global;
use std::test::Fail;

/// Events other than Starts, of each kind that a summary counts.
fn events(alloc: Global, session: u32) -> Result<Vec<Entry>, Memory> {
    let mover = Actor::Mover(1);
    Ok(vec![in alloc;
        Entry::Finish {
            session,
            reply: Reply::Done,
        },
        Entry::Finish {
            session,
            reply: Reply::Affected(3),
        },
        Entry::Finish {
            session,
            reply: Reply::Refused(Refusal::NoTxn { number: 3902 }),
        },
        Entry::Finish {
            session,
            reply: Reply::Refused(Refusal::Memory),
        },
        Entry::Mover {
            actor: mover,
            work: Work::ClaimFlush { entries: 2 },
        },
        Entry::Mover {
            actor: mover,
            work: Work::ReleaseFlush { entries: 2 },
        },
        Entry::Mover {
            actor: mover,
            work: Work::Memory,
        },
        Entry::Mover {
            actor: mover,
            work: Work::Settle { ends: 1 },
        },
        Entry::End { session },
        Entry::End { session: 64 },
        Entry::Finish {
            session,
            reply: Reply::Left(Items::new(alloc)),
        },
    ]?)
}

/// How many events are taken, how many rows there are, and the text.
static CASES: [(usize, u128, &str); 5] = [
    (0, 0, "events 0\nok 0\nrefused 0\nends 0\nrows 0\n"),
    (3, 1000, "events 3\nok 2\nrefused 1\nends 0\nrows 1000\n"),
    (4, 5, "events 4\nok 2\nrefused 2\nends 0\nrows 5\nshort 1\n"),
    (
        10,
        18_446_744_073_709_551_616,
        "events 10\nok 2\nrefused 2\nends 2\nrows 18446744073709551616\nshort 3\n",
    ),
    (
        11,
        0,
        "events 11\nok 3\nrefused 2\nends 2\nrows 0\nshort 3\n",
    ),
];

#[test]
fn summaries_count_each_kind(rt: HostRuntime) -> Result<(), Fail> {
    let given = events(rt.alloc(), 7)?;
    let events = given.as_slice();
    for &(taken, rows, text) in &CASES {
        assert!(rt; taken <= events.len());
        let line = print_summary(rt.alloc(), &events[..taken], rows)?;
        same_text(&rt, line.as_slice(), text.as_bytes());
    }
    Ok(())
}
