//! What is told of the workers of a scan.

/// Who is told of the workers of a scan.
pub trait Turn: Sync {
    /// A worker with this number, from 1, has started. It is told once of each worker that has groups to read, in the thread that does its
    /// part, and of worker 1 where there is no group at all. Where the filter names keys there are no workers, and it is told of none.
    fn begins(&self, worker: u32);
}

/// No one.
#[derive(Clone, Copy, Debug)]
pub struct NoTurn;

impl Turn for NoTurn {
    fn begins(&self, _worker: u32) {}
}
