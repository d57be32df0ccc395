//! What a REORGANIZE makes of the closed stores that it finds, by what is said of its entries along a log.
//!
//! Its main contract: a store that was closed at its Start, or open then and closed by it, is a closed store at its last look only
//! where another actor holds it, and then the reply names it, or where another actor gave it back in the meantime; this is so while
//! the next group id is at most 2^62. Each function here does nothing: its contract is a law that is proved. It depends on
//! `group_log`.
#![tactic(auto)]

ghost use Rattle.std.specs.Prelude.{◌≡◌, ℕ, List, ◌∷◌, ◌++◌, map};
ghost use Rattle.cs_model.specs.declared.entry.Entry.{Entry};
ghost use Rattle.cs_model.specs.declared.entry.Entry.TheVariants.{Finish};
ghost use Rattle.cs_model.specs.declared.entry.Reply.TheVariants as reply;
ghost use Rattle.cs_model.specs.declared.work.Actor.{Actor};
ghost use Rattle.cs_model.specs.State.{State};
ghost use Rattle.group_book.specs.Book.{Book};
ghost use Rattle.group_book.specs.States.{state_of};
ghost use Rattle.group_log.specs.Followed.{Ground, Followed};
ghost use Rattle.group_log.specs.Grounds.{IsGround};
ghost use Rattle.group_log.specs.Reorganizing.{LeavesGroups, IsReorganized};
ghost use Rattle.reorganize_laws.specs.Deals.{deal_of};
ghost use Rattle.reorganize_laws.specs.Left.{CompressesWhatItFound};

/// A reply that tells what was left tells what a REORGANIZE leaves that its session has half done; and of the closed stores that
/// this one found, wherever between its Start and its Finish it looked, each is compressed at its last look, or another actor
/// holds it and the reply says so, or another actor gave it back since its Start, while the next group id is at most 2^62. A store
/// that was opened since its Start has no such promise.
pub fn reorganize_compresses_what_it_found()
    ensures told { (origin : Ground) (before rest : List Entry) (session : ℕ) (left : List (ℕ × Actor)) → IsReorganized origin (before ++ Finish session (reply.Left left) ∷ rest)
        → LeavesGroups origin before session left }
    ensures compresses { (origin : Ground) (before rest : List Entry) (session : ℕ) (left : List (ℕ × Actor)) (m : State) (book : Book) (leaving : LeavesGroups origin before session left) → IsGround origin
        → Followed origin (before ++ Finish session (reply.Left left) ∷ rest) m book → IsReorganized origin (before ++ Finish session (reply.Left left) ∷ rest)
        → CompressesWhatItFound origin before session left leaving }
{}

/// It does not matter which book one looks at: in all books that a log leads to, the same groups are in the same states, the same
/// actors hold claims of the same kinds, and the next id is the same.
pub fn one_log_shows_one_book()
    ensures states { (origin : Ground) (log : List Entry) (m n : State) (book other : Book) → IsGround origin → Followed origin log m book → Followed origin log n other
        → (id : ℕ) → state_of book.groups id ≡ state_of other.groups id }
    ensures claims { (origin : Ground) (log : List Entry) (m n : State) (book other : Book) → IsGround origin → Followed origin log m book → Followed origin log n other
        → map deal_of book.claims ≡ map deal_of other.claims }
    ensures next { (origin : Ground) (log : List Entry) (m n : State) (book other : Book) → IsGround origin → Followed origin log m book → Followed origin log n other → book.next ≡ other.next }
{}
