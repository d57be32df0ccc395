// Whether a statement reads one version.
ghost use Rattle.std.specs.Prelude.{◌≡◌, IsSome};
ghost use Rattle.std.specs.Option.{option_and_then};
ghost use Rattle.group_view.specs.Views.{version_at};
ghost use Rattle.batch_scan.specs.Reads.{read_key};

use cs_types::Key;
use group_view::{Pinned, Place};

/// The key of the version at a place, where the statement reads it: the snapshot sees it, and no own write is of its key.
pub fn key_seen(pinned: &Pinned, place: Place) -> Option<Key>
    requires { IsSome (version_at pinned.now.view place) }
    ensures { result ≡ option_and_then (read_key pinned.now) (version_at pinned.now.view place) }
{
    let version = pinned.view.version(place);
    let seen = version.is_visible(pinned.view.buffer(), pinned.snapshot);
    if seen && pinned.own.find(version.key).is_none() {
        Some(version.key)
    } else {
        None
    }
}
