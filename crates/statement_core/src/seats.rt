// A value for some sessions, by their numbers.
ghost use Rattle.std.specs.Prelude.{◌≡◌, ◌<◌, IfOk, ℕ, None};
ghost use Rattle.std.specs.Option.{option_copied};
ghost use Rattle.cs_model.specs.State.{with};
ghost use Rattle.statement_core.specs.Seats.{seat};

use cs_base::{Items, Memory};
use std::alloc::Global;
use std::marker::Model;

/// How many seats there are: sessions have the numbers 1 to 64.
const SEATS: usize = 65;

/// A value for some of the sessions, by their numbers.
#[derive(Drop)]
pub struct Seats<T> {
    seats: Items<Option<T>>,
}

impl<T> Model for Seats<T> {
    ghost use Rattle.std.specs.Prelude.{List, Option, ◌≡◌, length};

    ghost Value = { List (Option T) };

    ghost view = { λ s. s.seats };

    ghost invariant = { λ s. length s.seats ≡ 65 };
}

impl<T: Drop> Seats<T> {
    /// Seats that are all empty.
    pub fn new(alloc: Global) -> Result<Seats<T>, Memory>
        ensures { IfOk result (λ seats. (session : ℕ) → seat seats session ≡ None) }
    {
        let mut seats = Items::new(alloc);
        for _ in 0..SEATS {
            seats.push(None)?;
        }
        Ok(Seats { seats })
    }

    /// What a session has.
    pub fn get(&self, session: u32) -> Option<&T>
        ensures { option_copied result ≡ seat self.now session }
    {
        match self.seats.get(session as usize) {
            Some(Some(value)) => Some(value),
            _ => None,
        }
    }

    /// Gives a session another value, and answers the one that it had.
    pub fn set(&mut self, session: u32, value: Option<T>) -> Option<T>
        requires { session < 65 }
        ensures was { result ≡ seat self.old session }
        ensures after { seat self.new ≡ with (seat self.old) session value }
    {
        self.seats.replace(session as usize, value)
    }
}
