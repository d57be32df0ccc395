//! The row groups as one moment has them: what a snapshot sees in them, and which work a mover's turn would choose.
//!
//! Its one contract: a `GroupView` shows at a snapshot exactly the versions that the book of row groups makes visible, and
//! `next_work` is the choice of the book that a `GroupList` stands for. A view shares packed groups, bitmaps and frozen stores,
//! and never changes. It depends on the stores, on `row_group` and on the definitions of `group_book`. The forms follow Larson
//! et al., PVLDB 2015, section 4.
#![tactic(auto)]

mod claim;
mod claimed;
mod ended;
mod flushes;
mod groups;
mod held;
mod laws;
mod lived;
mod lookups;
mod lowest;
mod pairs;
mod parts;
mod removable;
mod rows;
mod shares;
mod span;
mod turn;
mod view;

pub use claim::{Choice, Claim, Parcel, Product};
pub use claimed::is_claimed;
pub use flushes::{Flush, flush_of, marked};
pub use groups::{ClosedStore, Group, GroupContent, GroupList};
pub use held::Groups;
pub use laws::{lookups_find_rows, shown_rows, shows_tables, stays_shown, taken_views};
pub use lived::{Lived, has_ended, is_buffered, stamp_of};
pub use lookups::seen_from;
pub use parts::{GroupPart, GroupRef};
pub use removable::settles;
pub use shares::add_part;
pub use span::{Span, entries_within, key_bounds};
pub use turn::next_work;
pub use view::{GroupView, Pinned, Place};
