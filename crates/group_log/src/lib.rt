//! What a log makes of the book of row groups, beside the state of the row model: the definition `Followed`, and its laws; and what a
//! REORGANIZE may do along it and leaves: the definition `IsReorganized`.
//!
//! Its one contract: along a followed log, which is legal, the book stays one of the committed changes at the floor. So at every
//! moment its counts add up to the rows of the table, and each entry moves the groups by the listed transitions alone. Each
//! function here does nothing: its contract is a law that is proved. It depends on `group_book` for the events of groups, and on
//! `log_laws` for those of sessions.
#![tactic(auto)]

ghost use Rattle.std.specs.Prelude.{◌≡◌, ℕ, ◌+◌, ◌≤◌, List, [], ◌∷◌, ◌++◌, length};
ghost use Rattle.cs_types.specs.declared.Schema.{Schema};
ghost use Rattle.cs_model.specs.declared.entry.Entry.{Entry};
ghost use Rattle.cs_model.specs.Changes.{Change, table};
ghost use Rattle.cs_model.specs.Floors.{IsFloor, snapshots};
ghost use Rattle.cs_model.specs.State.{State, start};
ghost use Rattle.cs_model.specs.Steps.{IsStep, Legal};
ghost use Rattle.log_laws.specs.Laws.{IsSound};
ghost use Rattle.group_book.specs.Book.{Book, empty, total_sum, deleted_sum};
ghost use Rattle.group_book.specs.Commits.{Sizes};
ghost use Rattle.group_book.specs.Invariant.{IsBookOf};
ghost use Rattle.group_book.specs.States.{GroupsMoveBy};
ghost use Rattle.group_log.specs.Followed.{Ground, ground_of, IsBookStep, Followed};
ghost use Rattle.group_log.specs.Grounds.{IsGround};
ghost use Rattle.group_log.specs.Moves.{transitions_of};

/// A followed log is legal; an empty one is followed, with the state and the book that it begins from; and one entry more, with
/// its steps of both, is followed too.
pub fn followed_goes_on()
    ensures legal { (origin : Ground) (log : List Entry) (m : State) (book : Book) → Followed origin log m book → Legal origin.begin log m }
    ensures new { (schema : Schema) (sizes : Sizes) → Followed (ground_of schema sizes) [] start empty }
    ensures on { (origin : Ground) (log : List Entry) (entry : Entry) (m after : State) (book made : Book) → Followed origin log m book → IsStep origin.begin m entry after
        → IsBookStep origin m book entry after made → Followed origin (log ++ entry ∷ []) after made }
{}

/// The book stays one of the committed changes at the floor. An entry keeps it so, whatever its kind, from any sound state and
/// any book that is one of its changes at its floor, whatever claims are out; and so does a followed log, from a new table or
/// from whatever else a log may begin from. A group takes at least one row, and so does a direct load.
pub fn followed_keeps_book()
    ensures new { (schema : Schema) (sizes : Sizes) → 1 ≤ sizes.group_rows → 1 ≤ sizes.direct_rows → IsGround (ground_of schema sizes) }
    ensures step { (origin : Ground) (m after : State) (entry : Entry) (book made : Book) (floor later : ℕ) → 1 ≤ origin.sizes.group_rows → 1 ≤ origin.sizes.direct_rows → IsSound m
        → IsFloor (snapshots m) m.clock floor → IsBookOf origin.sizes.group_rows book m.changes floor → IsStep origin.begin m entry after → IsBookStep origin m book entry after made
        → IsFloor (snapshots after) after.clock later → IsBookOf origin.sizes.group_rows made after.changes later }
    ensures log { (origin : Ground) (log : List Entry) (m : State) (book : Book) (floor : ℕ) → IsGround origin → Followed origin log m book → IsFloor (snapshots m) m.clock floor
        → IsBookOf origin.sizes.group_rows book m.changes floor }
{}

/// At every moment of a followed log the counts of the groups add up: over the groups that are no tombstones, the versions are
/// those with an end beside them, one for each entry of the buffer, and one for each row of the table at the clock.
pub fn followed_counts_add_up()
    ensures { (origin : Ground) (log : List Entry) (m : State) (book : Book) → IsGround origin → Followed origin log m book
        → total_sum book.groups ≡ deleted_sum book.groups + (length book.buffer + length (table m.changes m.clock)) }
{}

/// Each entry moves the groups by the listed transitions alone: a Finish by those of a commit, a close by OPEN to CLOSED alone, any
/// other work by those of movers, and a Start and an End not at all; and an id that gets a group is drawn by that entry, so an id whose group has gone is
/// not used again. This is so of any book that is one of the changes, and along a followed log.
pub fn followed_moves_groups()
    ensures step { (origin : Ground) (m after : State) (entry : Entry) (book made : Book) (changes : List Change) (floor : ℕ) → IsBookOf origin.sizes.group_rows book changes floor
        → IsBookStep origin m book entry after made → GroupsMoveBy (transitions_of entry) book made }
    ensures log { (origin : Ground) (log : List Entry) (m after : State) (entry : Entry) (book made : Book) → IsGround origin → Followed origin log m book
        → IsBookStep origin m book entry after made → GroupsMoveBy (transitions_of entry) book made }
{}
