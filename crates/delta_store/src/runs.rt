// The runs of an index, the oldest first.
ghost use Rattle.std.specs.Prelude.{◌≡◌, ◌+◌, ◌≤◌, ◌++◌, [], length, vec_len, IfOk, OnOk};
ghost use Rattle.std.specs.Bool.{OnTrue};
ghost use Rattle.delta_store.specs.Index.{place_in, HaveSamePlaces, IsCut};
ghost use Rattle.delta_store.specs.Runs.{pairs_of};

use crate::run::Run;
use cs_base::Memory;
use cs_types::Key;
use std::alloc::Global;
use std::mem;
use std::sync::Arc;

/// The place of a key in the newest run that has it, None where none has it.
pub fn place_of(runs: &[Arc<Run>], key: Key) -> Option<usize>
    ensures { result ≡ place_in (pairs_of runs.now) key }
{
    let mut older = runs.len();
    while older > 0 {
        older -= 1;
        if let Some(place) = runs[older].get(key) {
            return Some(place);
        }
    }
    None
}

/// The pairs of the keys from `least` to `greatest` in one run: those of an own run and of others, of which the newest one that has a
/// key decides. For each run it passes the pairs found so far, and looks at O(log n) pairs of its own.
pub fn between(
    runs: &[Arc<Run>],
    own: &Run,
    least: Key,
    greatest: Key,
    alloc: Global,
) -> Result<Run, Memory>
    ensures { IfOk result (λ cut. IsCut (own.now.pairs ++ pairs_of runs.now) least greatest cut.pairs) }
{
    let mut cut = Run::new(alloc).with_older(alloc, own, least, greatest)?;
    let mut older = runs.len();
    while older > 0 {
        older -= 1;
        cut = cut.with_older(alloc, &runs[older], least, greatest)?;
    }
    Ok(cut)
}

/// Puts the own run behind the others as their newest, and leaves an empty one in its place. Without a pair it does nothing. No pair is
/// copied or looked at. After `Memory` all pairs are as before.
pub fn seal(runs: &mut Vec<Arc<Run>>, own: &mut Run, alloc: Global) -> Result<(), Memory>
    ensures pairs { own.new.pairs ++ pairs_of runs.new.items ≡ own.old.pairs ++ pairs_of runs.old.items }
    ensures own { OnOk result (own.new.pairs ≡ []) }
{
    if own.len() == 0 {
        return Ok(());
    }
    runs.reserve(1)?;
    match Arc::new(alloc, mem::replace(own, Run::new(alloc))) {
        Ok(run) => {
            runs.push_reserved(run);
            Ok(())
        }
        Err(refused) => {
            *own = refused.value;
            Err(Memory)
        }
    }
}

/// The same runs, with no copy of a pair.
pub fn share(runs: &[Arc<Run>], alloc: Global) -> Result<Vec<Arc<Run>>, Memory>
    ensures { IfOk result (λ shared. pairs_of shared.items ≡ pairs_of runs.now) }
{
    let mut shared = Vec::with_capacity(alloc, runs.len())?;
    for run in runs {
        shared.push(Arc::try_clone(run)?)?;
    }
    Ok(shared)
}

/// Merges the newest runs, until each is less than a quarter as long as the next older one. So there are O(log n) runs, and
/// each pair is merged O(log n) times. A search looks into every run where the key is new, so that few of them are worth more
/// than few merges.
pub fn merge_newest(runs: &mut Vec<Arc<Run>>, alloc: Global) -> Result<(), Memory>
    ensures { HaveSamePlaces (pairs_of runs.old.items) (pairs_of runs.new.items) }
{
    while is_newest_long(runs) {
        merge_last(runs, alloc)?;
    }
    Ok(())
}

/// Whether the newest run is at least a quarter as long as the next older one.
fn is_newest_long(runs: &[Arc<Run>]) -> bool
    ensures { OnTrue result (2 ≤ length runs.now) }
{
    let n = runs.len();
    n >= 2 && runs[n - 2].len() / 4 <= runs[n - 1].len()
}

/// Makes the two newest runs one.
fn merge_last(runs: &mut Vec<Arc<Run>>, alloc: Global) -> Result<(), Memory>
    requires { 2 ≤ vec_len runs.old }
    ensures places { HaveSamePlaces (pairs_of runs.old.items) (pairs_of runs.new.items) }
    ensures len { OnOk result (vec_len runs.new + 1 ≡ vec_len runs.old) }
{
    let newest = runs.len() - 1;
    let merged = Run::merged(alloc, &runs[newest], &runs[newest - 1])?;
    runs[newest - 1] = Arc::new(alloc, merged)?;
    runs.truncate(newest);
    Ok(())
}
