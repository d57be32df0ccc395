// Sessions and movers on threads, at a desk where two calls wait for each other. One thread that does all of their work would not end
// such a wait.
ghost use Rattle.std.specs.Prelude.{◌≤◌};

use crate::desks::is_next;
use crate::looks::LOOKS;
use cs_base::Memory;
use group_view::{Claim, Product};
use script_reader::{Mode, read_script};
use script_runner::core_for;
use session_pool::run_sessions;
use statement_core::{Desk, Outcome, Started};
use statement_work::Clerk;
use std::alloc::Global;
use std::hint;
use std::process::Abort;
use std::sync::Wait;
use std::sync::atomic::{AtomicBool, AtomicU64, Ordering};
use std::test::Fail;
use std::thread::Threads;

/// Where two calls wait for each other.
#[derive(Drop)]
struct Meeting {
    /// How many of them have begun.
    begun: AtomicU64,
    /// Whether one of them saw no other within its looks.
    missed: AtomicBool,
}

impl Meeting {
    fn new() -> Meeting {
        Meeting {
            begun: AtomicU64::new(0),
            missed: AtomicBool::new(false),
        }
    }

    /// Waits until both have begun.
    fn wait(&self) {
        self.begun.fetch_add(1, Ordering::SeqCst);
        for _ in 0..LOOKS {
            if self.begun.load(Ordering::SeqCst) >= 2 {
                return;
            }
            hint::spin_loop();
        }
        self.missed.store(true, Ordering::SeqCst);
    }

    /// Whether both have begun, and each saw the other.
    fn was_held(&self) -> bool {
        self.begun.load(Ordering::SeqCst) == 2 && !self.missed.load(Ordering::SeqCst)
    }
}

/// A desk at which two calls meet. It does what the desk in it does.
#[derive(Drop)]
struct MeetingDesk<'a, D> {
    desk: D,
    /// The numbers, from 1 on, of the calls of `work` and of `mend` that meet.
    work: &'a [u64],
    mend: &'a [u64],
    /// How many calls of each there were.
    worked: AtomicU64,
    mended: AtomicU64,
    meeting: Meeting,
}

impl<D: Desk> Desk for MeetingDesk<'_, D> {
    fn work<R: Threads + Wait>(&self, rt: &R, alloc: Global, started: &Started) -> Outcome {
        if is_next(self.work, &self.worked) {
            self.meeting.wait();
        }
        self.desk.work(rt, alloc, started)
    }

    fn mend(&self, alloc: Global, claim: &Claim) -> Result<Product, Memory> {
        if is_next(self.mend, &self.mended) {
            self.meeting.wait();
        }
        self.desk.mend(alloc, claim)
    }
}

/// Runs a script beside so many movers, in groups of at most two versions, and asks whether these calls of `work` and of `mend` met.
fn check(
    rt: &(impl Abort + Threads + Wait + Sync),
    alloc: Global,
    calls: (&[u64], &[u64]),
    movers: u32,
    script: &str,
) -> Result<(), Fail>
    requires { movers ≤ 8 }
{
    let script = read_script(alloc, script.as_bytes(), Mode::Run)?;
    let core = core_for(alloc, 2, 102_400, &script)?;
    let desk = MeetingDesk {
        desk: Clerk::new(1),
        work: calls.0,
        mend: calls.1,
        worked: AtomicU64::new(0),
        mended: AtomicU64::new(0),
        meeting: Meeting::new(),
    };
    if run_sessions(rt, alloc, core, &script, &desk, movers).is_err() {
        return Err(Fail::from("memory"));
    }
    assert!(rt; desk.meeting.was_held());
    Ok(())
}

#[test]
fn works_on_two_statements_at_once(rt: HostRuntime) -> Result<(), Fail> {
    let script = "setup CREATE TABLE t (k int NOT NULL PRIMARY KEY, v int NULL)
s1 INSERT INTO t VALUES (1, 10)
s2 INSERT INTO t VALUES (2, 20)
";
    check(&rt, rt.alloc(), (&[1, 2], &[]), 0, script)
}

#[test]
fn works_on_a_statement_and_a_claim_at_once(rt: HostRuntime) -> Result<(), Fail> {
    let script = "setup CREATE TABLE t (k int NOT NULL PRIMARY KEY, v int NULL)
s1 INSERT INTO t VALUES (1, 10), (2, 20)
s1 SELECT * FROM t
";
    check(&rt, rt.alloc(), (&[2], &[1]), 1, script)
}
