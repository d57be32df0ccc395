//! The model of the columnstore: bound statements, replies and events; the truth of predicates, the values of expressions
//! and the answers of queries over plain rows; what each event does to the committed changes and the open transactions; and
//! the text of a log.
//!
//! Its one contract: `print_log` gives exactly the text of a log. What a legal log is stands in specs/, and the laws of
//! those definitions are proved here. It stands on `cs_base` and `cs_types` alone: the crates that compute what is defined here stand
//! above it.
#![tactic(auto)]

mod answer_refusal;
mod entry;
mod expr;
mod expr_refusal;
mod kind;
mod laws;
mod log;
mod plan;
mod pred;
mod print;
mod print_lines;
mod print_report;
mod print_work;
mod report;
mod series;
mod truth;
mod work;

pub use answer_refusal::AnswerRefusal;
pub use entry::{AnswerRow, Bound, Entry, Refusal, Reply};
pub use expr::{Expr, Times};
pub use expr_refusal::ExprRefusal;
pub use kind::Kind;
pub use laws::{like_is_tested, quotient_is_cut, table_by_last_change};
pub use log::print_log;
pub use plan::{InsertPlan, Item, Query, UpdatePlan};
pub use pred::{Operand, Pred, Relation};
pub use print::print_entry;
pub use report::{GroupLine, GroupState, SegmentLine};
pub use series::series_schema;
pub use truth::Truth;
pub use work::{Actor, Work};
