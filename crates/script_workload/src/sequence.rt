// The sequence of numbers that the draws come from.
ghost use Rattle.std.specs.Prelude.{◌≡◌, ◌%◌, ◌<◌};
ghost use Rattle.script_workload.specs.Sequence as spec;
ghost use Rattle.script_workload.specs.Sequence.{after, draw};
ghost use Rattle.script_workload.specs.Workload.{statement_after, draws_of};

use crate::statement::Statement;
use std::marker::Model;

/// The sequence, at the number that the next draw is made after. That number is kept whole: only what a draw gives is
/// divided.
#[derive(Debug, Drop)]
pub struct Sequence {
    number: u32,
}

impl Model for Sequence {
    ghost use Rattle.std.specs.Prelude.{ℕ};

    ghost Value = { ℕ };

    ghost view = { λ sequence. sequence.number };
}

impl Sequence {
    /// The sequence of a number.
    pub fn new(number: u32) -> Sequence
        ensures { result ≡ number }
    {
        Sequence { number }
    }

    /// The next draw, as its rest by a limit.
    fn draw(&mut self, limit: u32) -> u32
        requires { 0 < limit }
        ensures number { self.new ≡ spec.next self.old }
        ensures drawn { result ≡ draw self.new % limit }
    {
        let product = self.number as u64 * 1_103_515_245;
        self.number = ((product + 12_345) % 2_147_483_648) as u32;
        self.number / 65_536 % limit
    }

    /// Draws a statement: its choice first and then its numbers, in the order in which they stand in its line.
    pub fn draw_statement(&mut self) -> Statement
        ensures statement { result ≡ statement_after self.old }
        ensures number { self.new ≡ after (draws_of result) self.old }
    {
        match self.draw(16) {
            0 => Statement::Begin,
            1 => Statement::Commit,
            2 => Statement::Rollback,
            3..=7 => Statement::Insert {
                key: self.draw(1_000),
                value: self.draw(100),
                word: self.draw(10),
            },
            8 | 9 => Statement::Update {
                key: self.draw(1_000),
            },
            10 => Statement::Delete {
                key: self.draw(1_000),
            },
            11..=14 => Statement::Select {
                key: self.draw(1_000),
            },
            _ => Statement::Mover,
        }
    }
}
