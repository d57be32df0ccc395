use write_set::Own;

/// An open transaction.
#[derive(Debug, Drop)]
pub struct Txn {
    /// Its number. Numbers are drawn from 1 upwards.
    pub number: u64,
    /// How deep its BEGINs are nested, and 0 where it is implicit.
    pub depth: u32,
    /// The commit number up to which it sees committed changes, from its first statement of the table on.
    pub snapshot: Option<u64>,
    /// What it has written.
    pub own: Own,
}
