//! The course of a REORGANIZE: how many turns it may still make, and which closed stores it has marked. Who makes its events, in one
//! line of a script or among those of threads, asks it what comes next, and from the ledger of its last look, what it leaves.

ghost use Rattle.std.specs.Prelude.{◌≡◌, ◌≤◌, ◌+◌, ◌++◌, [], ◌∷◌, map, nat_le, IfOk, OnOk, OnErr};
ghost use Rattle.cs_model.specs.declared.work.Actor.TheVariants.{Session};
ghost use Rattle.group_book.specs.Book.{Book};
ghost use Rattle.group_log.specs.Reorganizing.{closed_ids, held_groups, most_turns, AreLeft};
ghost use Rattle.group_log.specs.Reports.{line_of};

use crate::ledgers::{closed_ids, in_order, kept, sort_by_id, turns_for};
use cs_base::{Items, Memory};
use cs_model::Actor;
use group_directory::Ledger;
use std::alloc::Global;
use std::marker::Model;

/// What a session knows of its REORGANIZE between its Start and its Finish. Contracts see it as a `Course`.
#[derive(Drop)]
pub struct Reorganizing {
    /// Whether it closes the open store before its turns.
    all: bool,
    /// How many turns it may still make.
    turns: u128,
    /// The ids of the stores that were closed at its Start, or that it closed.
    marked: Vec<u64>,
}

impl Model for Reorganizing {
    ghost use Rattle.statement_core.specs.Course.{Course};

    ghost Value = { Course };

    ghost view = { λ course. record { all = course.all; turns = course.turns; marked = course.marked.items } };
}

impl Reorganizing {
    /// A REORGANIZE that has done nothing yet, by the ledger of its Start: it may make three turns for each OPEN, CLOSED and
    /// COMPRESSED group, and one more; and it marks the stores that are CLOSED.
    pub fn new(alloc: Global, all: bool, ledger: &Ledger) -> Result<Reorganizing, Memory>
        ensures { IfOk result (λ course. (book : Book) → ledger.now.lines ≡ map line_of book.groups → course ≡ record { all = all; turns = most_turns book; marked = closed_ids book }) }
    {
        let lines = ledger.lines.as_slice();
        let marked = closed_ids(alloc, lines)?;
        Ok(Reorganizing {
            all,
            turns: turns_for(lines),
            marked,
        })
    }

    /// Whether it closes the open store before its turns.
    pub fn closes(&self) -> bool
        ensures { result ≡ self.now.all }
    {
        self.all
    }

    /// Whether it may make one more turn.
    pub fn may_turn(&self) -> bool
        ensures { result ≡ nat_le 1 self.now.turns }
    {
        1 <= self.turns
    }

    /// It has closed the store of this id, which is marked. `Memory`: there was no room to mark it.
    pub fn closed(&mut self, id: u64) -> Result<(), Memory>
        ensures ok { OnOk result (self.new ≡ record self.old { marked = self.old.marked ++ id ∷ [] }) }
        ensures err { OnErr result (self.new ≡ self.old) }
    {
        self.marked.push(id)?;
        Ok(())
    }

    /// It has made one turn more. Condition: it might.
    pub fn turned(&mut self)
        requires { 1 ≤ self.old.turns }
        ensures { self.old ≡ record self.new { turns = self.new.turns + 1 } }
    {
        self.turns -= 1;
    }

    /// What it leaves, by the ledger of its last look: those of the marked stores that other actors hold, by id, each with its
    /// actor. Where h groups are held and m stores are marked, it takes some (h + m) log (h + m) steps.
    pub fn left(
        &self,
        alloc: Global,
        session: u32,
        ledger: &Ledger,
    ) -> Result<Items<(u64, Actor)>, Memory>
        ensures { IfOk result (λ left. (book : Book) → ledger.now.holders ≡ held_groups book → AreLeft self.now.marked (Session session) book left) }
    {
        let marked = in_order(alloc, &self.marked)?;
        let by = Actor::Session(session);
        let mut left = kept(alloc, &marked, by, ledger.holders.as_slice())?;
        sort_by_id(&mut left);
        Ok(Items::from_vec(left))
    }
}
