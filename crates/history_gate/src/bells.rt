// What those who wait for their turn sleep on.
ghost use Rattle.std.specs.Prelude.{◌<◌, vec_len};

use crossbeam_utils::sync::EventCount;
use cs_base::Memory;
use std::alloc::Global;

/// A row of bells, as many as the seats rounded up to a power of two. A ticket's bell is that of its remainder. As no more
/// tickets are out than there are seats, and the number of bells divides 2^64, no two tickets that are out share one.
#[derive(Drop)]
pub(crate) struct Bells {
    bells: Vec<EventCount>,
    ghost some: { 0 < vec_len bells },
}

impl Bells {
    /// The bells for so many seats, at most 2^32. Memory, where they can't be had.
    pub fn new(alloc: Global, seats: u32) -> Result<Bells, Memory>
        requires { 0 < seats }
    {
        let others = (seats as u64).next_power_of_two() - 1;
        let mut bells = Vec::new(alloc);
        for _ in 0..others {
            bells.push(EventCount::new())?;
        }
        bells.push(EventCount::new())?;
        Ok(Bells { bells })
    }

    /// The bell of a ticket.
    pub fn of_ticket(&self, ticket: u64) -> &EventCount {
        &self.bells[(ticket % self.bells.len() as u64) as usize]
    }
}
