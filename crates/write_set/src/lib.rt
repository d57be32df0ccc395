//! The own writes of a transaction: what it has made of its keys and not committed yet.
//!
//! Its one contract: an `Own` is its list of writes, one for each key, in the order of keys, and each call has exactly the
//! stated effect on that list. The list can be shared, so that whoever reads it keeps it without a copy; where it is not, one
//! write is staged in place. It is a list in chunks, which lists share too, so that a write more moves or copies the writes of one
//! chunk alone, however long the list is. The crate depends on `cs_base`, `shared_list` and `cs_types`. Microsoft's pages on SNAPSHOT isolation
//! say that a transaction sees its own writes.
#![tactic(auto)]

mod list;
mod merge;
mod order;
mod own;
mod write;

pub use own::Own;
pub use write::Write;
