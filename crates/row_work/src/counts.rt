//! How many segments a scan reads, and how many it skips.

ghost use Rattle.std.specs.Prelude.{◌≡◌};
ghost use Rattle.group_view.specs.Scanned.{counts_in};

use cs_model::Pred;
use cs_types::Schema;
use group_view::Pinned;

/// How many segments a scan of the view reads, and how many it skips: it counts one for each packed group, by all cells of that,
/// those of ended versions too.
pub fn segment_counts(schema: &Schema, condition: &Option<Pred>, pinned: &Pinned) -> (u64, u64)
    ensures { result ≡ counts_in schema.now pinned.now.view condition.now }
{
    let view = &pinned.view;
    batch_scan::segment_counts(schema, condition.as_ref(), view, 0, view.len())
}
