//! Kernels over batches: masks, codes and numbers of at most 1,024 rows in arrays, and masks of any length in slices.
//!
//! What they promise. A kernel of masks leaves exactly the places chosen that were, or were in either of two masks, and that pass
//! a test. A kernel of sums or tables joins what was kept, for all rows or for each key, with the fold over the places below
//! `count` that a mask chooses, and every other entry is as before. A kernel of keys joins the key numbers of places with their
//! codes; where all places have one key, it is kept once. The crate stands on std alone. Within a loop a place that is chosen is a
//! bit or a factor and no branch, so that a batch takes as long for any mask, and a compiler can take many places at once.
//! MonetDB/X100 (Boncz et al., CIDR 2005) describes such kernels over batches.
#![tactic(auto)]

mod keys;
mod masks;
mod steps;
mod sums;
mod tables;
mod turns;

pub use keys::Keys;
pub use masks::{
    Span, choose_first, chosen, has_any, keep_from, keep_none, keep_where, narrow_in_span,
    narrow_in_table, part, put_batch, put_found, put_span,
};
pub use sums::{greatest_chosen, least_chosen, sum_chosen};
pub use tables::{count_by_key, greatest_by_key, least_by_key, sum_by_key};
