//! The rows that a statement reads at keys.

ghost use Rattle.std.specs.Prelude.{◌≡◌, ℕ, List, IfOk, IfSome, Some};
ghost use Rattle.std.specs.Borrow.{Bor};
ghost use Rattle.std.specs.Option.{option_map};
ghost use Rattle.cs_types.specs.declared.Value.{Value};
ghost use Rattle.row_work.specs.declared.choose.Source.{Source};
ghost use Rattle.row_work.specs.Named.{row_at};
ghost use Rattle.row_work.specs.Reads.{read_by, HasSnapshot};
ghost use Rattle.row_work.specs.Sources.{row_of, ShowsKey};

use crate::choose::{Source, row_of};
use cs_base::Memory;
use cs_types::{Key, Row};
use group_view::Pinned;
use std::alloc::Global;

/// Where the row stands that is read at a key: in an own write of the key, or else in the view. None where no row is read at it.
fn source_at(pinned: &Pinned, key: Key) -> Option<Source>
    requires { HasSnapshot pinned.now }
    ensures row { (width : ℕ) → option_map (row_of width pinned.now) result ≡ option_map Some (row_at (read_by width pinned.now) key) }
    ensures shown { IfSome result (ShowsKey pinned.now key) }
{
    match pinned.own.find(key) {
        Some(i) => {
            if pinned.own.get(i).row.is_some() {
                Some(Source::Own(i))
            } else {
                None
            }
        }
        None => match pinned.view.lookup(key, pinned.snapshot) {
            Some(place) => Some(Source::Shown(place)),
            None => None,
        },
    }
}

/// The row that is read at a key, in so many cells where it is one of the view, with where it stands: lent from there, or where it
/// has to be made from `made`. None where no row is read at it.
pub fn read_at_key<'a>(
    alloc: Global,
    pinned: &'a Pinned,
    key: Key,
    width: usize,
    made: &'a mut Option<Row>,
) -> Result<Option<(Source, &'a Row)>, Memory>
    requires { HasSnapshot pinned.now }
    ensures row { IfOk result (λ read. option_map (λ (found : Source × Bor (List Value)). found.1.now) read ≡ row_at (read_by width pinned.now) key) }
    ensures stands { IfOk result (λ read. IfSome read (λ found. row_of width pinned.now found.0 ≡ Some found.1.now)) }
    ensures shown { IfOk result (λ read. IfSome read (λ found. ShowsKey pinned.now key found.0)) }
{
    match source_at(pinned, key) {
        Some(source) => {
            let row = row_of(alloc, pinned, source, width, made)?;
            Ok(Some((source, row)))
        }
        None => Ok(None),
    }
}
