//! The turns of sessions: what the texts of a script mean and are bound to, and which Starts, Finishes and End each session has in a
//! log, in whatever order the sessions take them.
//!
//! Its one contract: `bind_text` gives what a text means, that of its statement, or where it is refused as none; `bound_of` gives the
//! same, or its refusal for want of memory. Beside that stand the definitions of a history of a script (`IsHistory`,
//! `IsFrontHistory`), which name no order of the sessions, and the laws of one Start and one Finish. It depends on `tsql_reader` and
//! `tsql_binder` for what texts mean, and on `script_reader` for the steps.
#![tactic(auto)]

mod binding;

pub use binding::{bind_text, bound_of};
