ghost use Rattle.std.specs.Prelude.{◌<◌};

use cs_base::Memory;
use std::alloc::Global;

/// Where the entries of each part of a dictionary's range begin, so that the search for a number looks at one part. It
/// only guesses a place, and the entry there tells whether the guess is right: a wrong one costs time alone.
#[derive(Drop)]
pub struct Directory {
    /// The least entry, 0 where there is none.
    least: i64,
    /// A part is as wide as 2 to this power.
    shift: u32,
    /// For each part how many entries stand before it, and then how many there are.
    starts: Vec<usize>,
    ghost in_range: { shift < 64 },
}

impl Directory {
    /// The directory of ascending entries, with fewer than twice as many parts.
    pub fn new(alloc: Global, entries: &[i64]) -> Result<Directory, Memory> {
        let least = entries.first().copied().unwrap_or(0);
        let greatest = entries.last().copied().unwrap_or(0);
        let range = greatest.abs_diff(least);
        let entry_zeros = (entries.len() as u64).leading_zeros();
        let shift = entry_zeros.saturating_sub(range.leading_zeros()).min(63);
        let mut starts = Vec::new(alloc);
        for (place, entry) in entries.iter().enumerate() {
            let part = (entry.abs_diff(least) >> shift) as usize;
            if starts.len() <= part {
                starts.resize(part.saturating_add(1), place)?;
            }
        }
        starts.push(entries.len())?;
        Ok(Directory {
            least,
            shift,
            starts,
        })
    }

    /// The place of a number among the entries, if it is one of them.
    pub fn guess(&self, entries: &[i64], number: i64) -> usize {
        let part = (number.abs_diff(self.least) >> self.shift) as usize;
        let Some([from, to, ..]) = self.starts.as_slice().get(part..) else {
            return 0;
        };
        let Some(near) = entries.get(*from..*to) else {
            return 0;
        };
        from.saturating_add(near.partition_point(|entry| *entry < number))
    }
}
