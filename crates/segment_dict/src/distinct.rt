ghost use Rattle.std.specs.Prelude.{◌≡◌, ◌↔◌, IfOk, IsTrue, Contains, None};
ghost use Rattle.std.specs.List.{filter_map};
ghost use Rattle.segment_dict.specs.Dictionaries.{AreDistinct};

use cs_base::Memory;
use std::alloc::Global;

/// The distinct values of the cells that are not NULL, ascending.
pub fn distinct<T: Ord + Copy>(alloc: Global, cells: &[Option<T>]) -> Result<Vec<T>, Memory>
    ensures { IfOk result (λ values. AreDistinct T.cmp T.eq cells.now values.items) }
{
    let mut values = present(alloc, cells)?;
    values.sort_unstable();
    values.dedup();
    Ok(values)
}

/// The values of the cells that are not NULL, in the order of the cells.
fn present<T: Copy>(alloc: Global, cells: &[Option<T>]) -> Result<Vec<T>, Memory>
    ensures { IfOk result (λ values. values.items ≡ filter_map (λ cell. cell) cells.now) }
{
    Ok(cells.iter().filter_map(|cell| *cell).collect(alloc)?)
}

/// Whether a cell is NULL.
pub fn has_null<T>(cells: &[Option<T>]) -> bool
    ensures { IsTrue result ↔ Contains cells.now None }
{
    cells.iter().any(|cell| cell.is_none())
}
