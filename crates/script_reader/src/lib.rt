//! Scripts: their lines, the table that the first one sets up, and the steps that the others ask for: a
//! statement of a session, its start alone, or the finish of a started one; a turn of a mover, its first event alone, or its
//! last one.
//!
//! Its one contract: `read_script` gives the script that the grammar has for the bytes and a mode, and else the first bad line
//! and its reason. It depends on `tsql_create` for the setup statement.
#![tactic(auto)]

mod form;
mod line;
mod lines;
mod read;
mod script;

pub use read::read_script;
pub use script::{Mode, Script, ScriptRefusal, Step};
