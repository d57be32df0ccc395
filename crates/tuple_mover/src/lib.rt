//! The work between a claim and its install, and the parcel of a commit: what movers and commits prepare before they change
//! the row groups.
//!
//! Its one contract: `work` gives the product of a claim, the new group or the new bitmaps as an install of the book of row
//! groups puts them in place, and `parcel_of` gives the parcel of own writes, as a commit of the book loads them;
//! `parcel_of_columns` gives that of rows that come by columns. None changes what it is lent. It depends on `row_group` for
//! packing, on `delta_store`, the bitmaps and the buffer for what it is lent, on `write_set` for own writes, on `batch_compute` for what
//! columns of rows are, and on the definitions of `group_view`. The forms follow Larson et al., PVLDB 2015, section 4.
#![tactic(auto)]

mod column_parcels;
mod flushes;
mod groups;
mod kept;
mod parcels;
mod products;
mod spent;

pub use column_parcels::parcel_of_columns;
pub use flushes::locate;
pub use parcels::parcel_of;
pub use products::{compress, merge, repack, work};
