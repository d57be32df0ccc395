// The actors of a log, and the work of movers.

/// Who makes an event.
#[derive(Clone, Copy, Debug, PartialEq, Eq)]
pub enum Actor {
    /// A session, by its number, 1 to 64.
    Session(u32),
    /// A tuple mover, by its number, 1 to 8.
    Mover(u32),
}

/// What a mover does in one event, or a session in its place. Groups are named by their ids; `rows` counts the versions of
/// the group that was made, 0 where there is none (after the tuple mover of SQL Server's columnstore index: Larson et al.,
/// PVLDB 2015).
#[derive(Clone, Copy, Debug, PartialEq, Eq)]
pub enum Work {
    /// A closed store is lent, to be packed into a new group.
    ClaimCompress {
        source: u64,
        fresh: u64,
    },
    /// The new group takes the place of the store.
    InstallCompress {
        source: u64,
        fresh: u64,
        rows: u64,
    },
    /// The store is given back as it is.
    ReleaseCompress {
        source: u64,
        fresh: u64,
    },
    /// A packed group is lent, to be packed anew without the versions that nobody reads.
    ClaimRebuild {
        source: u64,
        fresh: u64,
    },
    /// The new group takes the place of the old one.
    InstallRebuild {
        source: u64,
        fresh: u64,
        rows: u64,
    },
    /// The group is given back as it is.
    ReleaseRebuild {
        source: u64,
        fresh: u64,
    },
    /// Two packed groups are lent, to be packed into one.
    ClaimMerge {
        first: u64,
        second: u64,
        fresh: u64,
    },
    /// The new group takes the place of both.
    InstallMerge {
        first: u64,
        second: u64,
        fresh: u64,
        rows: u64,
    },
    /// Both are given back as they are.
    ReleaseMerge {
        first: u64,
        second: u64,
        fresh: u64,
    },
    /// So many entries of the delete buffer are lent, to be written into the bitmaps of their groups.
    ClaimFlush {
        entries: u64,
    },
    /// They stand in the bitmaps, and leave the buffer.
    InstallFlush {
        entries: u64,
    },
    /// They stay in the buffer.
    ReleaseFlush {
        entries: u64,
    },
    /// So many ends with a commit number became plain ones, which every snapshot sees.
    Settle {
        ends: u64,
    },
    /// So many tombstones were dropped.
    Clear {
        groups: u64,
    },
    /// The open store was closed.
    Close {
        group: u64,
    },
    /// There was no memory for a turn.
    Memory,
}
