// A statement that was started, and what its work gives.
ghost use Rattle.std.specs.Prelude.{◌≡◌, IfOk};
ghost use Rattle.group_book.specs.Commits.{Sizes};
ghost use Rattle.group_view.specs.Claims.{IsMendable, IsProductOf};
ghost use Rattle.log_laws.specs.Started.{Begun};
ghost use Rattle.statement_core.specs.Begun.{Hands, MayWork};
ghost use Rattle.statement_core.specs.Counted.{AreCountsOf};
ghost use Rattle.statement_core.specs.Outcomes.{GivesOn, IsOfDesk};
ghost use Rattle.statement_core.specs.Reorganizes.{reorganizes};
ghost use Rattle.statement_core.specs.Terms.{sizes_of, AreTerms};

use cs_base::{Items, Memory};
use cs_model::{Actor, Bound, Reply};
use cs_types::{Key, Schema};
use group_directory::Ledger;
use group_view::{Claim, Parcel, Pinned, Product};
use std::alloc::Global;
use std::sync::{Arc, Wait};
use std::thread::Threads;
use write_set::{Own, Write};

/// What a core was made with.
#[derive(Drop)]
pub struct Terms {
    pub schema: Arc<Schema>,
    /// The most versions of a row group, 2 to 1,048,576.
    pub group_rows: u64,
    /// From how many rows on a commit loads them directly, 1 to 1,048,576.
    pub direct_rows: u64,
}

/// A statement that was started: what its work needs. It shares the own writes and the groups, so it is to be dropped before its
/// Finish: else a write would have to copy them.
#[derive(Drop)]
pub struct Started {
    pub bound: Arc<Bound>,
    /// What a statement of the table reads. None for another statement, and where the Start was short.
    pub pinned: Option<Pinned>,
    /// The own writes of the session's transaction, none where it has no transaction.
    pub own: Own,
    /// Whether the Start found no memory; the statement is refused then.
    pub short: bool,
    /// What the Start noted.
    pub note: u64,
    /// Whether the statement's transaction is an implicit one, which ends with it.
    pub implicit: bool,
    pub terms: Arc<Terms>,
    /// The groups by their counts at the Start of a REORGANIZE. None for another statement.
    pub ledger: Option<Ledger>,
}

impl Started {
    /// Whether the statement is a REORGANIZE, and then whether it closes the open store.
    pub fn reorganizes(&self) -> Option<bool>
        ensures { result ≡ reorganizes self.now.bound.value }
    {
        match &*self.bound {
            Bound::Reorganize { all } => Some(*all),
            _ => None,
        }
    }
}

/// What the work between a Start and its Finish gives.
#[derive(Drop)]
pub enum Outcome {
    /// There is nothing for a desk to do before the Finish: the statement is none of the table and no COMMIT.
    Nothing,
    /// The reply: the answer of a query, with the counts of segments that its scan read and skipped, or the first value refusal of
    /// a write.
    Answer(Reply),
    /// What a write puts at which key.
    Writes {
        /// By key, one for each key.
        writes: Vec<Write>,
        /// The keys that an INSERT would make stand twice, by key; none for another write.
        present: Vec<Key>,
        /// How many rows were written, a key that stands twice counted twice.
        affected: u64,
        /// The rows as a commit takes them, where the transaction ends with the statement and no key is present.
        parcel: Option<Parcel>,
    },
    /// The rows of an INSERT whose transaction ends with it, where it puts each at a key of its own that no row is at, as a commit
    /// takes them.
    Load {
        /// By key, one for each row.
        keys: Vec<Key>,
        parcel: Parcel,
    },
    /// The rows of the own writes as a commit takes them, for a COMMIT.
    Commit(Parcel),
    /// What a REORGANIZE left: of the stores that were closed at its Start, or that it closed, those that another actor held at its
    /// last look, by id, each with that actor. No desk gives this.
    Left(Items<(u64, Actor)>),
    /// Memory was not there.
    Short,
}

/// Who does the work of statements and of movers; sessions and movers on threads share one.
pub trait Desk: Sync {
    /// The outcome of a statement that was started, over what it reads. It may start threads that do parts of the work, and wait for
    /// them.
    fn work<R: Threads + Wait>(&self, rt: &R, alloc: Global, started: &Started) -> Outcome
        requires terms { AreTerms started.now.terms.value }
        requires begun { (begun : Begun) × Hands begun started.now × MayWork begun }
        ensures gives { (begun : Begun) → Hands begun started.now → MayWork begun → GivesOn (sizes_of started.now.terms.value) begun result }
        ensures counted { AreCountsOf started.now result }
        ensures worked { IsOfDesk result };

    /// The product of the work on a claim that a core has lent: a new group, or new bitmaps. `Memory` where there is no room for
    /// it.
    fn mend(&self, alloc: Global, claim: &Claim) -> Result<Product, Memory>
        requires { IsMendable claim.now }
        ensures { IfOk result (IsProductOf claim.now) };
}
