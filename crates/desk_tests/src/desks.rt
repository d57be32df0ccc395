// Work that finds no memory, of statements and of turns: what is logged, and what it leaves.
use cs_base::Memory;
use group_view::{Claim, Product};
use script_reader::{Mode, read_script};
use script_runner::{runner_for, text_of_run};
use statement_core::{Desk, Outcome, Started};
use statement_work::Clerk;
use std::alloc::Global;
use std::process::Abort;
use std::sync::Wait;
use std::sync::atomic::{AtomicU64, Ordering};
use std::test::Fail;
use std::thread::Threads;

/// A desk that finds no memory at some calls, and else does what the desk in it does.
#[derive(Drop)]
struct ShortDesk<'a, D> {
    desk: D,
    /// The numbers, from 1 on, of the calls of `work` and of `mend` that find none.
    work: &'a [u64],
    mend: &'a [u64],
    /// How many calls of each there were.
    worked: AtomicU64,
    mended: AtomicU64,
}

impl<'a, D: Desk> ShortDesk<'a, D> {
    fn new(desk: D, work: &'a [u64], mend: &'a [u64]) -> ShortDesk<'a, D> {
        ShortDesk {
            desk,
            work,
            mend,
            worked: AtomicU64::new(0),
            mended: AtomicU64::new(0),
        }
    }
}

/// Counts a call, and answers whether it is one of these.
pub fn is_next(calls: &[u64], counted: &AtomicU64) -> bool {
    let before = counted.fetch_add(1, Ordering::SeqCst);
    calls.contains(&before.wrapping_add(1))
}

impl<D: Desk> Desk for ShortDesk<'_, D> {
    fn work<R: Threads + Wait>(&self, rt: &R, alloc: Global, started: &Started) -> Outcome {
        if is_next(self.work, &self.worked) {
            return Outcome::Short;
        }
        self.desk.work(rt, alloc, started)
    }

    fn mend(&self, alloc: Global, claim: &Claim) -> Result<Product, Memory> {
        if is_next(self.mend, &self.mended) {
            return Err(Memory);
        }
        self.desk.mend(alloc, claim)
    }
}

/// A transaction with two INSERTs, and what is there after its COMMIT.
const INSERTS: &str = "setup CREATE TABLE t (k int NOT NULL PRIMARY KEY, v int NULL)
s1 BEGIN TRAN
s1 INSERT INTO t VALUES (1, 10)
s1 INSERT INTO t VALUES (2, 20)
s1 COMMIT
s1 SELECT * FROM t
";

/// Where the second INSERT finds no memory: the transaction goes on without it.
const INSERTS_SECOND: &str = "1 s1.1 >
2 s1.1 < ok
3 s1.2 >
4 s1.2 < ok 1 affected
5 s1.3 >
6 s1.3 < error 701
7 s1.4 >
8 s1.4 < ok
9 s1.5 >
10 s1.5 < ok 1 rows
  1, 10
11 s1 end
";

/// Where BEGIN and COMMIT find none: no transaction was opened, and each INSERT committed by itself.
const INSERTS_BOUNDS: &str = "1 s1.1 >
2 s1.1 < error 701
3 s1.2 >
4 s1.2 < ok 1 affected
5 s1.3 >
6 s1.3 < ok 1 affected
7 s1.4 >
8 s1.4 < error 701
9 s1.5 >
10 s1.5 < ok 2 rows
  1, 10
  2, 20
11 s1 end
";

/// Two rows that fill a store, and three turns on it: the first one half done beside a report, and a report after each.
const COMPRESS: &str = "setup CREATE TABLE t (k int NOT NULL PRIMARY KEY, v int NULL)
s1 INSERT INTO t VALUES (1, 10), (2, 20)
m1>
s1 SELECT * FROM sys.dm_db_column_store_row_group_physical_stats
m1<
s1 SELECT * FROM sys.dm_db_column_store_row_group_physical_stats
m1
s1 SELECT * FROM sys.dm_db_column_store_row_group_physical_stats
";

/// Where no turn finds memory: the store is as it was, and each claim has spent an id.
const COMPRESS_NEVER: &str = "1 s1.1 >
2 s1.1 < ok 2 affected
3 m1 claim compress 1 to 2
4 s1.2 >
5 s1.2 < ok 2 groups, 0 buffered
  1, 2, CLOSED, 2, 0
  2, 0, INVISIBLE, 0, 0
6 m1 release compress 1 to 2
7 s1.3 >
8 s1.3 < ok 1 groups, 0 buffered
  1, 2, CLOSED, 2, 0
9 m1 claim compress 1 to 3
10 m1 release compress 1 to 3
11 s1.4 >
12 s1.4 < ok 1 groups, 0 buffered
  1, 2, CLOSED, 2, 0
13 s1 end
";

/// Where the first turn alone finds none: the second one makes a group, of the next id.
const COMPRESS_SECOND: &str = "1 s1.1 >
2 s1.1 < ok 2 affected
3 m1 claim compress 1 to 2
4 s1.2 >
5 s1.2 < ok 2 groups, 0 buffered
  1, 2, CLOSED, 2, 0
  2, 0, INVISIBLE, 0, 0
6 m1 release compress 1 to 2
7 s1.3 >
8 s1.3 < ok 1 groups, 0 buffered
  1, 2, CLOSED, 2, 0
9 m1 claim compress 1 to 3
10 m1 install compress 1 to 3 rows 2
11 s1.4 >
12 s1.4 < ok 2 groups, 0 buffered
  1, 4, TOMBSTONE, 2, 0
  3, 3, COMPRESSED, 2, 0
13 s1 end
";

/// A flush, a rebuild and a merge, each twice, and a report after each turn.
const PACKED: &str = "setup CREATE TABLE t (k int NOT NULL PRIMARY KEY, v int NULL)
s1 INSERT INTO t VALUES (1, 10), (2, 20)
s1 DELETE FROM t WHERE k = 1
m1
s1 SELECT * FROM sys.dm_db_column_store_row_group_physical_stats
m1
s1 SELECT * FROM sys.dm_db_column_store_row_group_physical_stats
m2
s1 SELECT * FROM sys.dm_db_column_store_row_group_physical_stats
m2
s1 SELECT * FROM sys.dm_db_column_store_row_group_physical_stats
s1 INSERT INTO t VALUES (3, 30), (4, 40)
m3
s1 SELECT * FROM sys.dm_db_column_store_row_group_physical_stats
m3
s1 SELECT * FROM sys.dm_db_column_store_row_group_physical_stats
s1 SELECT * FROM t
";

/// Where the first turn of each kind finds no memory: the delete buffer keeps what the flush would have taken out of it, and the
/// packed groups are as they were.
const PACKED_SECOND: &str = "1 s1.1 >
2 s1.1 < ok 2 affected
3 s1.2 >
4 s1.2 < ok 1 affected
5 m1 claim flush 1
6 m1 release flush 1
7 s1.3 >
8 s1.3 < ok 1 groups, 1 buffered
  1, 3, COMPRESSED, 2, 0
9 m1 claim flush 1
10 m1 install flush 1
11 s1.4 >
12 s1.4 < ok 1 groups, 0 buffered
  1, 3, COMPRESSED, 2, 1
13 m2 claim rebuild 1 to 2
14 m2 release rebuild 1 to 2
15 s1.5 >
16 s1.5 < ok 1 groups, 0 buffered
  1, 3, COMPRESSED, 2, 1
17 m2 claim rebuild 1 to 3
18 m2 install rebuild 1 to 3 rows 1
19 s1.6 >
20 s1.6 < ok 2 groups, 0 buffered
  1, 4, TOMBSTONE, 2, 1
  3, 3, COMPRESSED, 1, 0
21 s1.7 >
22 s1.7 < ok 2 affected
23 m3 claim merge 3 4 to 5
24 m3 release merge 3 4 to 5
25 s1.8 >
26 s1.8 < ok 3 groups, 0 buffered
  1, 4, TOMBSTONE, 2, 1
  3, 3, COMPRESSED, 1, 0
  4, 3, COMPRESSED, 2, 0
27 m3 claim merge 3 4 to 6
28 m3 install merge 3 4 to 6 rows 3
29 s1.9 >
30 s1.9 < ok 4 groups, 0 buffered
  1, 4, TOMBSTONE, 2, 1
  3, 4, TOMBSTONE, 1, 0
  4, 4, TOMBSTONE, 2, 0
  6, 3, COMPRESSED, 3, 0
31 s1.10 >
32 s1.10 < ok 3 rows
  2, 20
  3, 30
  4, 40
33 s1 end
";

/// A CLOSED store and an OPEN one, a REORGANIZE with ON and one without, and a report after each.
const REORGANIZE: &str = "setup CREATE TABLE t (k int NOT NULL PRIMARY KEY, v int NULL)
s1 INSERT INTO t VALUES (1, 10), (2, 20)
s1 INSERT INTO t VALUES (3, 30)
s1 ALTER INDEX ALL ON t REORGANIZE WITH (COMPRESS_ALL_ROW_GROUPS = ON)
s1 SELECT * FROM sys.dm_db_column_store_row_group_physical_stats
s1 ALTER INDEX ALL ON t REORGANIZE
s1 SELECT * FROM sys.dm_db_column_store_row_group_physical_stats
";

/// Where the first work of the first one finds no memory: it gives its claim back and makes no more turns. What it closed stays
/// CLOSED, and the second one compresses both.
const REORGANIZE_FIRST: &str = "1 s1.1 >
2 s1.1 < ok 2 affected
3 s1.2 >
4 s1.2 < ok 1 affected
5 s1.3 >
6 s1 close 2
7 s1 claim compress 1 to 3
8 s1 release compress 1 to 3
9 s1.3 < error 701
10 s1.4 >
11 s1.4 < ok 2 groups, 0 buffered
  1, 2, CLOSED, 2, 0
  2, 2, CLOSED, 1, 0
12 s1.5 >
13 s1 claim compress 1 to 4
14 s1 install compress 1 to 4 rows 2
15 s1 claim compress 2 to 5
16 s1 install compress 2 to 5 rows 1
17 s1.5 < ok 0 left
18 s1.6 >
19 s1.6 < ok 4 groups, 0 buffered
  1, 4, TOMBSTONE, 2, 0
  2, 4, TOMBSTONE, 1, 0
  4, 3, COMPRESSED, 2, 0
  5, 3, COMPRESSED, 1, 0
20 s1 end
";

/// Where the statement itself finds none: nothing is closed, and nothing claimed.
const REORGANIZE_NEVER: &str = "1 s1.1 >
2 s1.1 < ok 2 affected
3 s1.2 >
4 s1.2 < ok 1 affected
5 s1.3 >
6 s1.3 < error 701
7 s1.4 >
8 s1.4 < ok 2 groups, 0 buffered
  1, 2, CLOSED, 2, 0
  2, 1, OPEN, 1, 0
9 s1.5 >
10 s1 claim compress 1 to 3
11 s1 install compress 1 to 3 rows 2
12 s1.5 < ok 0 left
13 s1.6 >
14 s1.6 < ok 3 groups, 0 buffered
  1, 4, TOMBSTONE, 2, 0
  2, 1, OPEN, 1, 0
  3, 3, COMPRESSED, 2, 0
15 s1 end
";

/// A CLOSED store that a mover claims before a REORGANIZE starts, and gives back while that is half done.
const RELEASED: &str = "setup CREATE TABLE t (k int NOT NULL PRIMARY KEY, v int NULL)
s1 INSERT INTO t VALUES (1, 10), (2, 20)
m1>
s1> ALTER INDEX ALL ON t REORGANIZE
m1<
s1<
s1 SELECT * FROM sys.dm_db_column_store_row_group_physical_stats
";

/// Where the mover finds no memory: the REORGANIZE compresses the store, and leaves nothing.
const RELEASED_COMPRESSED: &str = "1 s1.1 >
2 s1.1 < ok 2 affected
3 m1 claim compress 1 to 2
4 s1.2 >
5 m1 release compress 1 to 2
6 s1 claim compress 1 to 3
7 s1 install compress 1 to 3 rows 2
8 s1.2 < ok 0 left
9 s1.3 >
10 s1.3 < ok 2 groups, 0 buffered
  1, 4, TOMBSTONE, 2, 0
  3, 3, COMPRESSED, 2, 0
11 s1 end
";

/// Runs a script at a desk that finds no memory at these calls of `work` and of `mend`, where groups have at most four versions and
/// two rows are loaded directly, or two versions and none are, and compares the text of the log.
fn check(
    rt: &(impl Abort + Threads + Wait + Sync),
    alloc: Global,
    packed: bool,
    calls: (&[u64], &[u64]),
    script: &str,
    text: &str,
) -> Result<(), Fail> {
    let (group_rows, direct_rows) = if packed { (4, 2) } else { (2, 102_400) };
    let script = read_script(alloc, script.as_bytes(), Mode::Replay)?;
    let mut runner = runner_for(alloc, group_rows, direct_rows, &script)?;
    let desk = ShortDesk::new(Clerk::new(1), calls.0, calls.1);
    let log = text_of_run(rt, alloc, &mut runner, &script, &desk);
    // What is let go by a call has a short proof, and what is let go at the end of its scope a long one.
    drop(desk);
    drop(runner);
    drop(script);
    assert!(rt; log?.as_slice() == text.as_bytes());
    Ok(())
}

#[test]
fn releases_what_found_no_memory(rt: HostRuntime) -> Result<(), Fail> {
    let alloc = rt.alloc();
    check(&rt, alloc, false, (&[], &[1, 2]), COMPRESS, COMPRESS_NEVER)?;
    check(&rt, alloc, false, (&[], &[1]), COMPRESS, COMPRESS_SECOND)?;
    check(&rt, alloc, true, (&[], &[1, 3, 5]), PACKED, PACKED_SECOND)?;
    Ok(())
}

#[test]
fn refuses_what_found_no_memory(rt: HostRuntime) -> Result<(), Fail> {
    let alloc = rt.alloc();
    check(&rt, alloc, false, (&[3], &[]), INSERTS, INSERTS_SECOND)?;
    check(&rt, alloc, false, (&[1, 4], &[]), INSERTS, INSERTS_BOUNDS)?;
    Ok(())
}

#[test]
fn reorganizes_until_it_finds_no_memory(rt: HostRuntime) -> Result<(), Fail> {
    let alloc = rt.alloc();
    check(&rt, alloc, false, (&[], &[1]), REORGANIZE, REORGANIZE_FIRST)?;
    check(&rt, alloc, false, (&[3], &[]), REORGANIZE, REORGANIZE_NEVER)?;
    Ok(())
}

#[test]
fn reorganizes_what_a_mover_gives_back(rt: HostRuntime) -> Result<(), Fail> {
    check(
        &rt,
        rt.alloc(),
        false,
        (&[], &[1]),
        RELEASED,
        RELEASED_COMPRESSED,
    )
}
