// What a REORGANIZE reads of the groups' counts, and of who holds which.
ghost use Rattle.std.specs.Prelude.{◌≡◌, ◌==◌, ◌+◌, ◌*◌, ℕ, map, filter, count_by, IfOk, IsPermutation, IsSorted, IsSortedByKey};
ghost use Rattle.std.specs.List.{list_any};
ghost use Rattle.std.specs.Ordering.{nat_cmp};
ghost use Rattle.cs_model.specs.declared.report.GroupLine.{GroupLine};
ghost use Rattle.cs_model.specs.declared.work.Actor.{Actor};
ghost use Rattle.group_log.specs.Reorganizing.{is_kept};
ghost use Rattle.statement_core.specs.Lines as spec;

use cs_base::Memory;
use cs_model::{Actor, GroupLine, GroupState};
use std::alloc::Global;

/// Whether a group in this state has rows.
fn is_in_use(state: GroupState) -> bool
    ensures { result ≡ spec.is_in_use state }
{
    matches!(
        state,
        GroupState::Opened | GroupState::Closed | GroupState::Compressed
    )
}

/// Whether a store in this state is closed.
fn is_closed(state: GroupState) -> bool
    ensures { result ≡ spec.is_closed state }
{
    matches!(state, GroupState::Closed)
}

/// How many turns a REORGANIZE may make: three for each group that has rows, and one.
pub(crate) fn turns_for(lines: &[GroupLine]) -> u128
    ensures { result ≡ 3 * count_by (λ (line : GroupLine). spec.is_in_use line.state) lines.now + 1 }
{
    let mut groups: u128 = 0;
    for line in lines {
        groups += u128::from(is_in_use(line.state));
    }
    3 * groups + 1
}

/// The ids of the closed stores.
pub(crate) fn closed_ids(alloc: Global, lines: &[GroupLine]) -> Result<Vec<u64>, Memory>
    ensures { IfOk result (λ ids. ids.items ≡ map (λ (line : GroupLine). line.id) (filter (λ (line : GroupLine). spec.is_closed line.state) lines.now)) }
{
    let mut ids = Vec::new(alloc);
    for line in lines {
        if is_closed(line.state) {
            ids.push(line.id)?;
        }
    }
    Ok(ids)
}

/// The ids in ascending order.
pub(crate) fn in_order(alloc: Global, ids: &[u64]) -> Result<Vec<u64>, Memory>
    ensures permutation { IfOk result (λ ordered. IsPermutation ids.now ordered.items) }
    ensures sorted { IfOk result (λ ordered. IsSorted nat_cmp ordered.items) }
{
    let mut ordered = Vec::from_slice(alloc, ids)?;
    ordered.sort_unstable();
    Ok(ordered)
}

/// Whether the id is one of these, which ascend.
fn is_one_of(ids: &[u64], id: u64) -> bool
    requires { IsSorted nat_cmp ids.now }
    ensures { result ≡ list_any (λ other. other == id) ids.now }
{
    ids.binary_search(&id).is_ok()
}

/// Those of the marked groups, whose ids ascend, that other actors hold.
pub(crate) fn kept(
    alloc: Global,
    marked: &[u64],
    by: Actor,
    holders: &[(u64, Actor)],
) -> Result<Vec<(u64, Actor)>, Memory>
    requires { IsSorted nat_cmp marked.now }
    ensures { IfOk result (λ kept. kept.items ≡ filter (is_kept marked.now by) holders.now) }
{
    let mut kept = Vec::new(alloc);
    for &(id, actor) in holders {
        if is_one_of(marked, id) && actor != by {
            kept.push((id, actor))?;
        }
    }
    Ok(kept)
}

/// Puts groups in the order of their ids.
pub(crate) fn sort_by_id(groups: &mut Vec<(u64, Actor)>)
    ensures permutation { IsPermutation groups.old.items groups.new.items }
    ensures sorted { IsSortedByKey (λ (group : ℕ × Actor). group.0) nat_cmp groups.new.items }
{
    groups.sort_unstable_by_key(
        |group: &(u64, Actor)| -> u64
            ensures { result ≡ group.now.0 }
        { group.0 },
    );
}
