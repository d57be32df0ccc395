// Counts of the events of a log, by kinds.
ghost use Rattle.std.specs.Prelude.{◌≡◌, ◌+◌, ◌<◌, ◌^◌, count_by, if◌then◌else◌};
ghost use Rattle.cs_model.specs.Actors as actors;
ghost use Rattle.cs_model.specs.Works as works;
ghost use Rattle.log_summary.specs.Summary as spec;

use cs_model::{Entry, Refusal, Reply, Work};

/// How many events a log has of each kind.
#[derive(Clone, Copy, Debug)]
pub struct Counts {
    /// Finishes whose reply is no refusal.
    pub ok: u64,
    /// The other Finishes.
    pub refused: u64,
    /// Ends of sessions.
    pub ends: u64,
    /// Events that want of memory made.
    pub short: u64,
}

/// Whether a reply is a refusal.
fn is_refusal(reply: &Reply) -> bool
    ensures { result ≡ spec.is_refusal reply.now }
{
    matches!(reply, Reply::Refused(_))
}

fn is_ok(entry: &Entry) -> bool
    ensures { result ≡ spec.is_ok entry.now }
{
    match entry {
        Entry::Finish { reply, .. } => !is_refusal(reply),
        _ => false,
    }
}

fn is_refused(entry: &Entry) -> bool
    ensures { result ≡ spec.is_refused entry.now }
{
    match entry {
        Entry::Finish { reply, .. } => is_refusal(reply),
        _ => false,
    }
}

fn is_end(entry: &Entry) -> bool
    ensures { result ≡ actors.is_end entry.now }
{
    matches!(entry, Entry::End { .. })
}

/// Whether the work found no memory.
fn lacks_memory(work: &Work) -> bool
    ensures { result ≡ works.lacks_memory work.now }
{
    matches!(
        work,
        Work::Memory
            | Work::ReleaseCompress { .. }
            | Work::ReleaseRebuild { .. }
            | Work::ReleaseMerge { .. }
            | Work::ReleaseFlush { .. }
    )
}

/// Whether the event stands there because memory was missing.
fn is_short_event(entry: &Entry) -> bool
    ensures { result ≡ spec.is_short_event entry.now }
{
    match entry {
        Entry::Finish { reply, .. } => matches!(reply, Reply::Refused(Refusal::Memory)),
        Entry::Mover { work, .. } => lacks_memory(work),
        _ => false,
    }
}

impl Counts {
    /// The counts of the events of a log.
    pub fn of(log: &[Entry]) -> Counts
        ensures ok { result.ok ≡ count_by spec.is_ok log.now }
        ensures refused { result.refused ≡ count_by spec.is_refused log.now }
        ensures ends { result.ends ≡ count_by actors.is_end log.now }
        ensures short { result.short ≡ count_by spec.is_short_event log.now }
    {
        let mut counts = Counts {
            ok: 0,
            refused: 0,
            ends: 0,
            short: 0,
        };
        for entry in log {
            counts = counts.with(entry);
        }
        counts
    }

    /// The counts with one event more.
    fn with(self, entry: &Entry) -> Counts
        requires ok { self.ok + 1 < 2 ^ 64 }
        requires refused { self.refused + 1 < 2 ^ 64 }
        requires ends { self.ends + 1 < 2 ^ 64 }
        requires short { self.short + 1 < 2 ^ 64 }
        ensures ok { result.ok ≡ self.ok + (if spec.is_ok entry.now then 1 else 0) }
        ensures refused { result.refused ≡ self.refused + (if spec.is_refused entry.now then 1 else 0) }
        ensures ends { result.ends ≡ self.ends + (if actors.is_end entry.now then 1 else 0) }
        ensures short { result.short ≡ self.short + (if spec.is_short_event entry.now then 1 else 0) }
    {
        Counts {
            ok: self.ok + u64::from(is_ok(entry)),
            refused: self.refused + u64::from(is_refused(entry)),
            ends: self.ends + u64::from(is_end(entry)),
            short: self.short + u64::from(is_short_event(entry)),
        }
    }
}
