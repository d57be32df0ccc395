//! The delta store of a row group that is not packed: versions of rows in the order in which they came, with the last
//! place of each key.
//!
//! Its one contract: a `Delta` is its list of versions with their keys, for each whether it is own, and a number of versions
//! that find room without memory; a `Frozen` is its list of versions; and each call has exactly the stated effect on them.
//! Versions stand in chunks. A share has those of its store in common with it and never changes, and the store grows after
//! them by versions of its own. It stands on `cs_base`, `cs_types` and the sets
//! of positions of `delete_bitmap`. The form follows the delta store of SQL Server's clustered columnstore (Larson et al.,
//! SIGMOD 2013), with an index by key and begin and end of each version beside its row.
#![tactic(auto)]

mod chunk;
mod chunks;
mod filter;
mod frozen;
mod index;
mod merge;
mod pieces;
mod run;
mod runs;
mod store;
mod version;

pub use frozen::Frozen;
pub use store::Delta;
pub use version::KeyedVersion;
