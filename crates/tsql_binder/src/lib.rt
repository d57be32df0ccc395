//! What a statement means over a table's schema.
//!
//! Its one contract: `bind` gives the bound form of a statement, or the first of all its faults. A report is bound exactly where
//! all of it is read (`reports_are_asked_for`); other SELECTs from it are refused by 50001 at 1. It depends on `bind_faults` and
//! `bind_forms`.
#![tactic(auto)]

mod laws;
mod refusal;
mod report;
mod statement;

pub use laws::reports_are_asked_for;
pub use refusal::BindRefusal;
pub use statement::bind;
