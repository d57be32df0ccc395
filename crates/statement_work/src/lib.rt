//! Who does the work of statements and of movers.
//!
//! Its one contract: `Clerk` is a `Desk`, so each outcome is what the definitions give of the statement on what was begun, and each
//! product is of its claim, or there is want of memory. A SELECT it has answered by several workers on threads (`answer`): the
//! groups of the view are cut into ranges by place, a worker takes each, and what the workers find is put together in the order of
//! the ranges; where a thread is refused, the thread that asked for it does the part. For every number of workers from 1 to 16 the
//! answer and the counts of segments are the same. The rows of an INSERT over a series from which some load directly,
//! and with which its transaction ends, are had by columns where they are put at new keys in the order of these: rows are made only
//! of what goes into the OPEN store. It depends on `statement_core` for what was started, on `row_work` for reading and writing
//! rows, on `batch_compute` for how long a series is, on `batch_aggregate` for partial answers, and on `tuple_mover` for the parcel
//! of a commit and the product of a claim.
#![tactic(auto)]

mod answered;
mod clerk;
mod turn;
mod workers;
mod writes;

pub use answered::Answered;
pub use clerk::Clerk;
pub use turn::{NoTurn, Turn};
pub use workers::answer;
