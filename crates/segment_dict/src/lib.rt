//! Sorted dictionaries of a column's distinct cells: a cell's code is the place of its entry, after the code of NULL.
//!
//! Its one contract: the entries ascend strictly and are exactly the cells that are not NULL, and the entry of a cell's
//! code is the cell. It stands on `cs_base`. Larson et al., SIGMOD 2011, describe dictionary encoding.
#![tactic(auto)]

mod directory;
mod distinct;
mod marks;
mod numbers;
mod texts;

pub use numbers::{NumberDict, numbers_of};
pub use texts::{TextDict, joined_texts, texts_of};

/// The dictionary of a column: of numbers or of texts.
#[derive(Debug, Drop)]
pub enum Dict {
    /// Of numbers. A column of NULLs alone has an empty one, whatever its type.
    Numbers(NumberDict),
    /// Of texts.
    Texts(TextDict),
}
