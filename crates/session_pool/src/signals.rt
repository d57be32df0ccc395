// What the threads of one pool tell each other outside the gate. No clause speaks of it: it says when a mover sleeps and when it
// stops, and not what is done.
use crossbeam_utils::sync::EventCount;
use std::sync::atomic::{AtomicBool, AtomicU32, Ordering};

/// What movers sleep for, and which of them are to stop.
#[derive(Drop)]
pub(crate) struct Signals {
    /// Rung where a mover may find something to do, or is to stop: by sessions, and by a mover that has claimed or that stops.
    pub news: EventCount,
    /// Rung by sessions alone: one may have changed the groups, has ended, or has stopped.
    pub changes: EventCount,
    /// Whether a session stopped for want of memory.
    stopped: AtomicBool,
    /// The last mover whose thread was refused; 0 where there is none.
    refused: AtomicU32,
}

impl Signals {
    /// Nothing is told yet.
    pub fn new() -> Signals {
        Signals {
            news: EventCount::new(),
            changes: EventCount::new(),
            stopped: AtomicBool::new(false),
            refused: AtomicU32::new(0),
        }
    }

    /// A session may have changed the groups: it may have committed, or its REORGANIZE has closed a store or ended a turn. So a
    /// mover may find something to do, or memory for it.
    pub fn change(&self) {
        self.news.notify_one();
        self.changes.notify_one();
    }

    /// A session has ended: each mover is to look whether all have.
    pub fn end(&self) {
        self.news.notify_all();
        self.changes.notify_all();
    }

    /// All movers are to stop, each at the end of its turn.
    pub fn stop(&self) {
        self.stopped.store(true, Ordering::SeqCst);
        self.end();
    }

    /// The mover has no thread of its own: it is to stop before its first turn, so that whoever calls its closure goes on at
    /// once.
    pub fn refuse(&self, mover: u32) {
        self.refused.store(mover, Ordering::SeqCst);
    }

    /// Whether the mover is to stop.
    pub fn stops(&self, mover: u32) -> bool {
        self.stopped.load(Ordering::SeqCst) || self.refused.load(Ordering::SeqCst) == mover
    }
}
