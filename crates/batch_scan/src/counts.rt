// How many segments a scan reads, and how many it skips.
ghost use Rattle.std.specs.Prelude.{◌≡◌, ◌≤◌, length};
ghost use Rattle.std.specs.Option.{option_copied};
ghost use Rattle.cs_model.specs.Scans as scans;
ghost use Rattle.row_group.specs.Rows.{column_of};
ghost use Rattle.batch_scan.specs.Scans as spec;

use batch_filter::skips;
use cs_model::Pred;
use cs_types::Schema;
use group_view::{GroupPart, GroupView};
use row_group::Packed;

/// Whether a predicate skips a packed group; without a predicate none is skipped.
pub fn is_skipped(schema: &Schema, pred: Option<&Pred>, packed: &Packed) -> bool
    ensures { result ≡ scans.is_skipped schema.now (option_copied pred.entry) (column_of packed.now.rows) }
{
    match pred {
        Some(pred) => skips(pred, packed, schema),
        None => false,
    }
}

/// What a group adds to the segments that are read, and to those that are skipped: a packed group one to either, and a store, which
/// is no segment, none.
fn part_counts(schema: &Schema, pred: Option<&Pred>, part: &GroupPart) -> (u64, u64)
    ensures { result ≡ spec.part_counts schema.now (option_copied pred.entry) part.now }
{
    match part {
        GroupPart::Packed(packed, _) => {
            if is_skipped(schema, pred, packed) {
                return (0, 1);
            }
            (1, 0)
        }
        GroupPart::Store(_) => (0, 0),
    }
}

/// How many segments a scan of the groups at the places from `from` up to but without `to` reads, and how many it skips: it counts one
/// for each packed group, by all cells of that, those of ended versions too.
pub fn segment_counts(
    schema: &Schema,
    pred: Option<&Pred>,
    view: &GroupView,
    from: usize,
    to: usize,
) -> (u64, u64)
    requires ordered { from ≤ to }
    requires within { to ≤ length view.now.groups }
    ensures { result ≡ spec.counts_of schema.now (option_copied pred.entry) (spec.groups_between view.now from to) }
{
    let mut read = 0;
    let mut skipped = 0;
    for place in from..to {
        let more = part_counts(schema, pred, &view.groups.at(place).1);
        read += more.0;
        skipped += more.1;
    }
    (read, skipped)
}
