//! Column segments: the cells of one column of a row group, kept in the fewest words.
//!
//! A segment keeps a code for each cell. The codes are those of a scale (numbers alone) or of a sorted dictionary, and
//! they stand packed at their least width or in runs, in the way of fewest words. Its one contract: cell i of what `encode`
//! gives is the given cell, and `encode_numbers` and `encode_ranked` give the same of the cells in another order, from their
//! ranks. Readers may stay at codes: they are in the order of their cells (`codes_in_order`), `cut` says where a bound lies
//! among them, and a batch of them, or of numbers, takes no memory. It stands on `bit_pack`, `segment_value`, `segment_dict`
//! and `segment_rle`, and on `cs_types` for values. Larson et al., SIGMOD 2011, describe value and dictionary encoding and
//! these layouts.
#![tactic(auto)]

mod body;
mod cell;
mod choice;
mod dict;
mod laws;
mod layout;
mod ranked;
mod segment;

pub use body::SegmentBody;
pub use cell::{CellRef, number_shown, shown};
pub use choice::encode;
pub use laws::codes_in_order;
pub use ranked::{encode_numbers, encode_ranked, picked};
pub use segment::{Batch, Segment};
