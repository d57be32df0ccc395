//! Codes of W bits each, side by side in words of 64 bits.
//!
//! Code i stands in bits i * W to i * W + W - 1 of the words, seen as one long number whose lowest digit in base
//! 2 ^ 64 is the first word. Its one contract: code i of the words that `pack` writes is code i of those it was handed.
//! It stands on `cs_base` for the answer to want of memory.
#![tactic(auto)]

mod read;
mod widths;
mod write;

pub use read::{lane, unpack};
pub use widths::{lane_width, pack_width, unpack_width};
pub use write::pack;
