//! Laws of books that are one but for the order of packed versions, which commits and installs leave open: events go on from both
//! alike.
//!
//! Its main contract: from such books one event leads to such books, so all books to which one log leads are one but for that
//! order; and what a turn chooses, what it tells of its work, whether a commit is out of ids, and what is shown of the groups do not
//! see it. Each function here does nothing: its contract is a law that is proved. It depends on `group_log`.
#![tactic(auto)]

ghost use Rattle.std.specs.Prelude.{◌≡◌, ℕ, List, Option, length, map};
ghost use Rattle.cs_types.specs.declared.Schema.{Schema};
ghost use Rattle.cs_model.specs.declared.entry.Entry.{Entry};
ghost use Rattle.cs_model.specs.declared.entry.Reply.{Reply};
ghost use Rattle.cs_model.specs.declared.pred.Pred.{Pred};
ghost use Rattle.cs_model.specs.declared.work.Actor.{Actor};
ghost use Rattle.cs_model.specs.Changes.{Change, Edit};
ghost use Rattle.cs_model.specs.State.{State};
ghost use Rattle.group_book.specs.Book.{Choice, Claim, Book};
ghost use Rattle.group_book.specs.Choices.{choice, choice_work, flush_sources, install_work, release_work};
ghost use Rattle.group_book.specs.Commits.{Sizes, draws_past};
ghost use Rattle.group_book.specs.Orders.{IsReordered};
ghost use Rattle.group_book.specs.Turns.{claim_by};
ghost use Rattle.group_log.specs.Counted.{AreCounts};
ghost use Rattle.group_log.specs.Followed.{Ground, book_with, IsBookStep, Followed, ShowsBook};
ghost use Rattle.group_log.specs.Reorganizing.{closed_ids, held_groups, most_turns};
ghost use Rattle.group_log.specs.Reports.{line_of};
ghost use Rattle.book_orders.specs.Shuffled.{IsClaimShuffled, IsShuffled, AreClaimsShuffled, IsSameEvent};

/// The order of packed versions shows nowhere: in books that are one but for it the choice of a turn, its work and the groups that
/// a flush takes are the same, an actor holds a claim in both or in neither, and so are what an install and a release tell, and
/// whether a commit draws an id above 2^62; and each event makes such books of them. Both show the same: what a reply shows of
/// either, as a report on row groups or on segments, it shows of the other; the report on row groups is one, and so are what a
/// REORGANIZE looks at (the groups that are held, the closed stores, the most turns), and how many segments a condition reads and
/// skips.
pub fn order_shows_nowhere()
    ensures choice { (floor group_rows : ℕ) (by : Actor) (book other : Book) → IsShuffled book other → choice floor group_rows by book ≡ choice floor group_rows by other }
    ensures work { (made : Choice) (floor : ℕ) (book other : Book) → IsShuffled book other → choice_work made floor book ≡ choice_work made floor other }
    ensures sources { (book other : Book) → IsShuffled book other → flush_sources book ≡ flush_sources other }
    ensures claims { (by : Actor) (book other : Book) → IsShuffled book other → AreClaimsShuffled (claim_by by book) (claim_by by other) }
    ensures install { (claim other : Claim) → IsClaimShuffled claim other → install_work claim.choice claim ≡ install_work other.choice other }
    ensures release { (claim other : Claim) → IsClaimShuffled claim other → release_work claim.choice claim ≡ release_work other.choice other }
    ensures full { (sizes : Sizes) (m : State) (own : List Edit) (book other : Book) → IsShuffled book other
        → draws_past book (book_with sizes m own book) ≡ draws_past other (book_with sizes m own other) }
    ensures step { (origin : Ground) (m after : State) (entry same : Entry) (book other made made_other : Book) → IsSameEvent entry same → IsShuffled book other
        → IsBookStep origin m book entry after made → IsBookStep origin m other same after made_other → IsShuffled made made_other }
    ensures report { (book other : Book) → IsShuffled book other → (map line_of book.groups ≡ map line_of other.groups) × (length book.buffer ≡ length other.buffer) }
    ensures shows { (schema : Schema) (changes : List Change) (reply : Reply) (book other : Book) → IsShuffled book other → ShowsBook schema changes book reply → ShowsBook schema changes other reply }
    ensures held { (book other : Book) → IsShuffled book other → (held_groups book ≡ held_groups other) × (closed_ids book ≡ closed_ids other) × (most_turns book ≡ most_turns other) }
    ensures counts { (schema : Schema) (changes : List Change) (condition : Option Pred) (book other : Book) (counts told : ℕ × ℕ) → IsShuffled book other
        → AreCounts schema changes book condition counts → AreCounts schema changes other condition told → counts ≡ told }
{}

/// All books to which one log leads are one but for the order of packed versions, and its state is one. Each book is such a one of
/// itself, and of each that is it reordered; if one is such a one of another, then the other is of it; and two that are so of a third
/// are so of each other.
pub fn one_log_leads_to_one_book()
    ensures log { (origin : Ground) (log : List Entry) (m n : State) (book other : Book) → Followed origin log m book → Followed origin log n other → (n ≡ m) × IsShuffled book other }
    ensures itself { (book : Book) → IsShuffled book book }
    ensures reordered { (book other : Book) → IsReordered book other → IsShuffled book other }
    ensures back { (book other : Book) → IsShuffled book other → IsShuffled other book }
    ensures through { (first second third : Book) → IsShuffled first second → IsShuffled second third → IsShuffled first third }
{}
