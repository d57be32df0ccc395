use crate::made::same_text;
use cs_base::{Items, Memory};
use cs_model::{Actor, Bound, Entry, GroupLine, GroupState, Refusal, Reply, Work, print_entry};
use cs_types::{Line, Schema};
use std::alloc::Global;
use std::sync::Arc;
use std::test::Fail;

/// A table without columns: no entry here names a key.
fn schema(alloc: Global) -> Schema {
    Schema {
        name: Items::new(alloc),
        columns: Items::new(alloc),
        key: 0,
    }
}

#[test]
fn entries_are_added_to_a_line(rt: HostRuntime) -> Result<(), Fail> {
    let alloc = rt.alloc();
    let schema = schema(alloc);
    let Ok(bound) = Arc::new(alloc, Bound::Begin) else {
        return Err(Fail::from(Memory));
    };
    let start = Entry::Start {
        session: 12,
        bound,
        short: false,
    };
    let affected = Entry::Finish {
        session: 3,
        reply: Reply::Affected(2),
    };
    let refused = Entry::Finish {
        session: 12,
        reply: Reply::Refused(Refusal::Reading { number: 102, at: 8 }),
    };
    let mut line = Line::new(alloc);
    print_entry(alloc, &schema, 1, 4, &start, &mut line)?;
    print_entry(alloc, &schema, 2, 1, &affected, &mut line)?;
    print_entry(alloc, &schema, 3, 4, &refused, &mut line)?;
    print_entry(
        alloc,
        &schema,
        10,
        0,
        &Entry::End { session: 64 },
        &mut line,
    )?;
    same_text(
        &rt,
        line.as_slice(),
        b"1 s12.4 >\n2 s3.1 < ok 2 affected\n3 s12.4 < error 102 at 8\n10 s64 end\n",
    );
    Ok(())
}

/// The text of these works of an actor, each as the eighth event.
fn text_of(alloc: Global, actor: Actor, works: &[Work]) -> Result<Line, Memory> {
    let schema = schema(alloc);
    let mut line = Line::new(alloc);
    for &work in works {
        print_entry(
            alloc,
            &schema,
            8,
            0,
            &Entry::Mover { actor, work },
            &mut line,
        )?;
    }
    Ok(line)
}

/// The id of a new group.
const FRESH: u64 = 18446744073709551615;

static WORKS: [Work; 9] = [
    Work::ClaimCompress {
        source: 1,
        fresh: FRESH,
    },
    Work::InstallCompress {
        source: 1,
        fresh: FRESH,
        rows: 90,
    },
    Work::ReleaseCompress {
        source: 1,
        fresh: FRESH,
    },
    Work::ClaimRebuild {
        source: 1,
        fresh: FRESH,
    },
    Work::InstallRebuild {
        source: 1,
        fresh: FRESH,
        rows: 90,
    },
    Work::ReleaseRebuild {
        source: 1,
        fresh: FRESH,
    },
    Work::ClaimMerge {
        first: 3,
        second: 4,
        fresh: FRESH,
    },
    Work::InstallMerge {
        first: 3,
        second: 4,
        fresh: FRESH,
        rows: 90,
    },
    Work::ReleaseMerge {
        first: 3,
        second: 4,
        fresh: FRESH,
    },
];

#[test]
fn work_on_groups_is_added_to_a_line(rt: HostRuntime) -> Result<(), Fail> {
    let text = b"8 m2 claim compress 1 to 18446744073709551615
8 m2 install compress 1 to 18446744073709551615 rows 90
8 m2 release compress 1 to 18446744073709551615
8 m2 claim rebuild 1 to 18446744073709551615
8 m2 install rebuild 1 to 18446744073709551615 rows 90
8 m2 release rebuild 1 to 18446744073709551615
8 m2 claim merge 3 4 to 18446744073709551615
8 m2 install merge 3 4 to 18446744073709551615 rows 90
8 m2 release merge 3 4 to 18446744073709551615
";
    let line = text_of(rt.alloc(), Actor::Mover(2), &WORKS)?;
    same_text(&rt, line.as_slice(), text);
    Ok(())
}

static COUNTED: [Work; 7] = [
    Work::ClaimFlush { entries: 10 },
    Work::InstallFlush { entries: 11 },
    Work::ReleaseFlush { entries: 12 },
    Work::Settle { ends: 13 },
    Work::Clear { groups: 14 },
    Work::Close { group: 0 },
    Work::Memory,
];

#[test]
fn work_that_is_counted_is_added_to_a_line(rt: HostRuntime) -> Result<(), Fail> {
    let text = b"8 s64 claim flush 10
8 s64 install flush 11
8 s64 release flush 12
8 s64 settle 13
8 s64 clear 14
8 s64 close 0
8 s64 memory
";
    let line = text_of(rt.alloc(), Actor::Session(64), &COUNTED)?;
    same_text(&rt, line.as_slice(), text);
    Ok(())
}

static GROUPS: [(u64, GroupState, u64, u64); 5] = [
    (1, GroupState::Invisible, 0, 0),
    (2, GroupState::Opened, 1, 0),
    (3, GroupState::Closed, 1048576, 2),
    (4, GroupState::Compressed, 18446744073709551615, 10),
    (12, GroupState::Tombstone, 2, 1),
];

#[test]
fn a_group_report_has_a_line_for_each_group(rt: HostRuntime) -> Result<(), Fail> {
    let mut lines = Items::new(rt.alloc());
    for &(id, state, total, deleted) in &GROUPS {
        lines.push(GroupLine {
            id,
            state,
            total,
            deleted,
        })?;
    }
    let schema = schema(rt.alloc());
    let reply = Reply::Groups { lines, buffered: 7 };
    let finish = Entry::Finish { session: 1, reply };
    let mut line = Line::new(rt.alloc());
    print_entry(rt.alloc(), &schema, 8, 4, &finish, &mut line)?;
    let text = b"8 s1.4 < ok 5 groups, 7 buffered
  1, 0, INVISIBLE, 0, 0
  2, 1, OPEN, 1, 0
  3, 2, CLOSED, 1048576, 2
  4, 3, COMPRESSED, 18446744073709551615, 10
  12, 4, TOMBSTONE, 2, 1
";
    same_text(&rt, line.as_slice(), text);
    Ok(())
}

#[test]
fn a_report_without_lines_has_its_counts(rt: HostRuntime) -> Result<(), Fail> {
    let alloc = rt.alloc();
    let schema = schema(alloc);
    let groups = Entry::Finish {
        session: 1,
        reply: Reply::Groups {
            lines: Items::new(alloc),
            buffered: 0,
        },
    };
    let segments = Entry::Finish {
        session: 1,
        reply: Reply::Segments(Items::new(alloc)),
    };
    let mut line = Line::new(alloc);
    print_entry(alloc, &schema, 2, 1, &groups, &mut line)?;
    print_entry(alloc, &schema, 4, 2, &segments, &mut line)?;
    let text = b"2 s1.1 < ok 0 groups, 0 buffered\n4 s1.2 < ok 0 segments\n";
    same_text(&rt, line.as_slice(), text);
    Ok(())
}
