// The groups that a commit loads directly.
ghost use Rattle.std.specs.Prelude.{◌≡◌, ◌≤◌, ◌<◌, ◌+◌, ◌^◌, ℕ, List, ◌++◌, length, All, IfOk, vec_len};
ghost use Rattle.std.specs.List.{AllZip};
ghost use Rattle.delta_store.specs.Versions.{Store};
ghost use Rattle.group_view.specs.Lists.{IsHeld};
ghost use Rattle.group_view.specs.Parcels.{HasOneBegin};
ghost use Rattle.group_directory.specs.Committing.{new_groups, IsUnmarked, IsNewGroupOf, HasRoom};

use cs_base::{Items, Memory};
use delete_bitmap::Marks;
use group_view::{Group, GroupContent, GroupList};
use row_group::Packed;
use std::alloc::Global;
use std::sync::Arc;

/// The direct group with the begin `c`, and a bitmap in which no row has ended.
fn load_of(alloc: Global, mut group: Packed, c: u64) -> Result<(Arc<Packed>, Arc<Marks>), Memory>
    requires { HasOneBegin group }
    ensures { IfOk result (λ load. IsNewGroupOf c group load) }
{
    group.rebase(c);
    let marks = Marks::new(alloc, group.len())?;
    let marks = Arc::new(alloc, marks)?;
    Ok((Arc::new(alloc, group)?, marks))
}

/// The direct groups with the begin `c`, each with a bitmap in which no row has ended.
pub(crate) fn loads_of(
    alloc: Global,
    groups: Items<Packed>,
    c: u64,
) -> Result<Vec<(Arc<Packed>, Arc<Marks>)>, Memory>
    requires { All HasOneBegin groups }
    ensures { IfOk result (λ loads. AllZip (IsNewGroupOf c) groups loads.items) }
{
    let mut loads = Vec::new(alloc);
    for group in groups.into_vec() {
        loads.push(load_of(alloc, group, c)?)?;
    }
    Ok(loads)
}

/// Places direct groups after the others, under the next ids. It takes no memory.
pub(crate) fn load_groups(list: &mut GroupList, loads: Vec<(Arc<Packed>, Arc<Marks>)>)
    requires held { IsHeld list.old }
    requires unmarked { All IsUnmarked loads.items }
    requires room { length list.old.groups.items + vec_len loads ≤ list.old.groups.room }
    requires ids { list.old.next + vec_len loads < 2 ^ 64 }
    ensures groups { list.new.groups.items ≡ list.old.groups.items ++ new_groups list.old.next loads.items }
    ensures len { length list.new.groups.items ≡ length list.old.groups.items + vec_len loads }
    ensures room { list.new.groups.room ≡ list.old.groups.room }
    ensures next { list.new.next ≡ list.old.next + vec_len loads }
    ensures opened { list.new.opened ≡ list.old.opened }
    ensures buffer { list.new.buffer ≡ list.old.buffer }
    ensures claims { list.new.claims ≡ list.old.claims }
    ensures held { IsHeld list.new }
{
    for (packed, marks) in loads {
        list.groups.push_reserved(Group {
            id: list.next,
            content: GroupContent::Compressed(packed, marks),
        });
        list.next += 1;
    }
}
