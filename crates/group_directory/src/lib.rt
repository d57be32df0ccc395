//! The directory of row groups: what commits, transactions and movers make of the groups of a table, one event at a time.
//!
//! Its one contract: a `Directory` stands for a list of committed changes that it does not keep, and each call moves the changes
//! and the book of row groups by what the event makes of them. It depends on `group_view`, the stores, and the definitions and
//! laws of `group_book`. The forms follow Larson et al., PVLDB 2015, section 4.
#![tactic(auto)]

mod calls;
mod claims;
mod commit_ends;
mod commit_loads;
mod commit_rest;
mod commit_room;
mod commits;
mod committing;
mod counts;
mod directory;
mod events;
mod installs;
mod laws;
mod ledger;
mod lent;
mod lists;
mod looks;
mod movers;
mod obstacles;
mod reports;
mod rows;
mod settles;
mod share;
mod standing;

pub use committing::{CommitRefusal, commit, parcel_is_a_commit};
pub use directory::{Directory, Sizes};
pub use installs::actors_hold_alike;
pub use laws::{
    commit_keys_are, commits_may_run, directory_keeps_rows, floor_moves, groups_keep_rows,
    loans_end_alike, looks_are_views, new_claims_keep, newest_changes_agree, newest_changes_judge,
    rows_stay, snapshots_lie_within, transactions_agree, work_keeps_rows,
};
pub use ledger::Ledger;
pub use lent::{claimed_groups_stay, lent_groups_stand};
pub use movers::Claimed;
pub use reports::{looks_count_segments, looks_show_segments};
pub use standing::{
    books_follow, commit_keeps_standing, groups_keep_standing, new_stands,
    transactions_keep_standing,
};
