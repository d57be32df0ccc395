//! The book of row groups: what the groups are, and what each event makes of them (after Larson et al., PVLDB 2015, section
//! 4, and Microsoft's guide to columnstore indexes).
//!
//! What is proved: from the floor on each snapshot sees its table; a risen floor, a claim, an install, a release, a settle, a
//! clear, a close and a commit keep the book in agreement with the committed changes and the floor; what the choice of a turn
//! gives may be done, and the turn's first event keeps that agreement; the counts of the groups and of the buffer add up to the
//! rows of the table; movers' events, a close and a commit move the groups only by the listed transitions, and an id that
//! gets a group is drawn by that event; and the order of packed versions is free, as long as what claims lent stands as it
//! stood.
//!
//! The book has no rows: a version is a key, its begin and its end, and its row is that of the change it stems from. Each
//! function here does nothing: its contract is a law that is proved. All that keeps row groups stands for such a book, and
//! the call above that rests on it is the directory of row groups. It stands on `cs_model`.
#![tactic(auto)]

ghost use Rattle.std.specs.Prelude.{◌≡◌, ℕ, ◌+◌, ◌≤◌, List, [], ◌++◌, length, true, All, Contains, Option, None, if◌then◌else◌};
ghost use Rattle.std.specs.List.{AllZip};
ghost use Rattle.std.specs.List.Sorted.{IsPermutation, IsStrictlySortedBy};
ghost use Rattle.cs_types.specs.declared.Key.{Key};
ghost use Rattle.cs_types.specs.Keys.{key_cmp};
ghost use Rattle.cs_model.specs.declared.work.Actor.{Actor};
ghost use Rattle.cs_model.specs.Changes.{Edit, Change, table};
ghost use Rattle.cs_model.specs.Obstacles.{keys_of, has_row};
ghost use Rattle.cs_model.specs.Steps.{numbered};
ghost use Rattle.group_book.specs.Book.{Version, Group, Choice, Claim, Book, empty, opened, frozen, is_visible, shown_count, total_sum, deleted_sum};
ghost use Rattle.group_book.specs.Book.Choice.{Flush};
ghost use Rattle.group_book.specs.Commits.{Sizes, replaced_by, inserted_by, after_ends, direct_parts, after_loads, after_rest, after_commit};
ghost use Rattle.group_book.specs.Turns.{is_claimed, claim_of, claim_by, after_claim, after_flush_claim, made_of, installed_with, after_install, after_flush, after_release, after_clear, after_settle, after_close};
ghost use Rattle.group_book.specs.Choices.{choice, after_choice, choice_work, flush_sources};
ghost use Rattle.group_book.specs.States.{state_of, mover_transitions, commit_transitions, close_transitions, GroupsMoveBy};
ghost use Rattle.group_book.specs.Stocks.{AreChanges, stock_of, IsStockOf};
ghost use Rattle.group_book.specs.Invariant.{makes_group, IsLent, MayTake, MayClaim, MayDo, IsBookOf, IsSeenAt};
ghost use Rattle.group_book.specs.Orders.{IsGroupReordered, IsReordered, HasSameLine};

/// A new table's book is one of no change.
pub fn new_book()
    ensures { (group_rows floor : ℕ) → IsBookOf group_rows empty [] floor }
{}

/// The floor may rise, as snapshots end and later ones are taken.
pub fn floor_may_rise()
    ensures { (group_rows : ℕ) (book : Book) (changes : List Change) (floor later : ℕ) → floor ≤ later → IsBookOf group_rows book changes floor → IsBookOf group_rows book changes later }
{}

/// From the floor on a snapshot sees its table: of each key of the table exactly one version is visible, and of every other
/// key none. A version that is visible stems from its key's last change in the table, so its row is the table's; and its begin
/// is that change's number, or both are at most the floor.
pub fn snapshots_see_their_tables()
    ensures count { (group_rows : ℕ) (book : Book) (changes : List Change) (clock floor s : ℕ) (key : Key) → AreChanges changes clock → IsBookOf group_rows book changes floor → floor ≤ s
        → shown_count book key s ≡ (if has_row (table changes s) key then 1 else 0) }
    ensures frozen { (group_rows : ℕ) (book : Book) (changes : List Change) (clock floor s : ℕ) → AreChanges changes clock → IsBookOf group_rows book changes floor → floor ≤ s
        → All (λ (version : Version). is_visible book.buffer s version ≡ true → IsSeenAt changes floor s version) (frozen book.groups) }
    ensures opened { (group_rows : ℕ) (book : Book) (changes : List Change) (clock floor s : ℕ) → AreChanges changes clock → IsBookOf group_rows book changes floor → floor ≤ s
        → All (λ (version : Version). is_visible book.buffer s version ≡ true → IsSeenAt changes floor s version) (opened book.groups) }
{}

/// A commit, whatever the sizes, keeps the versions, their ends and the buffer in agreement with the changes, those that it
/// adds among them: each version that it replaces has its number as its end, beside it or in the buffer, and each of its rows
/// has one version.
pub fn commit_keeps_versions()
    ensures { (sizes : Sizes) (book : Book) (changes : List Change) (clock floor txn : ℕ) (own : List Edit) → AreChanges changes clock → floor ≤ clock → IsStrictlySortedBy key_cmp (keys_of own)
        → IsBookOf sizes.group_rows book changes floor
        → IsStockOf (stock_of (after_commit sizes (clock + 1) (replaced_by changes clock own) (inserted_by own) book)) (changes ++ numbered (clock + 1) txn own) floor }
{}

/// A commit keeps the book one of the changes, those that it adds among them, whatever claims are out: its rows find their
/// groups, by direct loads and in the open store, within the sizes; and what was lent stays right. A group takes at least one
/// row, and so does a direct load.
pub fn commit_keeps_book()
    ensures { (sizes : Sizes) (book : Book) (changes : List Change) (clock floor txn : ℕ) (own : List Edit) → 1 ≤ sizes.group_rows → 1 ≤ sizes.direct_rows → AreChanges changes clock → floor ≤ clock
        → IsStrictlySortedBy key_cmp (keys_of own) → IsBookOf sizes.group_rows book changes floor
        → IsBookOf sizes.group_rows (after_commit sizes (clock + 1) (replaced_by changes clock own) (inserted_by own) book) (changes ++ numbered (clock + 1) txn own) floor }
{}

/// The install of a claim of compress, rebuild or merge keeps the book one of the changes, whatever was committed since the
/// claim and whatever other claims are out.
pub fn install_keeps_book()
    ensures { (group_rows : ℕ) (book : Book) (changes : List Change) (floor : ℕ) (claim : Claim) → Contains book.claims claim → makes_group claim.choice ≡ true → IsBookOf group_rows book changes floor
        → IsBookOf group_rows (after_install claim book) changes floor }
{}

/// The install of a flush keeps the book one of the changes: each lent entry becomes the end of the version whose next change
/// it is, and leaves the buffer.
pub fn flush_keeps_book()
    ensures { (group_rows : ℕ) (book : Book) (changes : List Change) (floor : ℕ) (claim : Claim) → Contains book.claims claim → claim.choice ≡ Flush → IsBookOf group_rows book changes floor
        → IsBookOf group_rows (after_flush claim book) changes floor }
{}

/// A settle at the floor, or at any number below it, keeps the book one of the changes, whatever claims are out.
pub fn settle_keeps_book()
    ensures { (group_rows : ℕ) (book : Book) (changes : List Change) (floor at : ℕ) → at ≤ floor → IsBookOf group_rows book changes floor → IsBookOf group_rows (after_settle at book) changes floor }
{}

/// What a claim lends is right, also for a flush: the versions of its sources as they stand; of these, by its
/// recorded end or a lent entry, had ended at the claim's floor what its next change says; and each lent entry is the next
/// change of one of them. The claim's floor is that of its moment.
pub fn claim_lends_what_stands()
    ensures { (group_rows : ℕ) (book : Book) (changes : List Change) (clock floor : ℕ) (actor : Actor) (choice : Choice) (sources : List ℕ) (fresh : Option ℕ) → AreChanges changes clock
        → IsBookOf group_rows book changes floor → IsLent book changes (claim_of actor choice sources fresh floor book) }
{}

/// A claim at the floor keeps the book one of the changes: of compress, rebuild or merge, where the actor may claim these groups
/// to make one of them; and of a flush, where it may take them.
pub fn claim_keeps_book()
    ensures makes { (group_rows : ℕ) (book : Book) (changes : List Change) (clock floor : ℕ) (actor : Actor) (choice : Choice) (sources : List ℕ) → AreChanges changes clock → IsBookOf group_rows book changes floor
        → MayClaim group_rows book floor actor choice sources → IsBookOf group_rows (after_claim actor choice sources floor book) changes floor }
    ensures flush { (group_rows : ℕ) (book : Book) (changes : List Change) (clock floor : ℕ) (actor : Actor) (sources : List ℕ) → AreChanges changes clock → IsBookOf group_rows book changes floor
        → MayTake book actor Flush sources → IsBookOf group_rows (after_flush_claim actor sources floor book) changes floor }
{}

/// A release keeps the book one of the changes: the claim is given back, and the group that it was to make is gone.
pub fn release_keeps_book()
    ensures { (group_rows : ℕ) (book : Book) (changes : List Change) (floor : ℕ) (claim : Claim) → Contains book.claims claim → IsBookOf group_rows book changes floor
        → IsBookOf group_rows (after_release claim book) changes floor }
{}

/// A clear keeps the book one of the changes, whatever claims are out.
pub fn clear_keeps_book()
    ensures { (group_rows : ℕ) (book : Book) (changes : List Change) (floor : ℕ) → IsBookOf group_rows book changes floor → IsBookOf group_rows (after_clear book) changes floor }
{}

/// A close keeps the book one of the changes: the open store takes no more rows, whatever claims are out.
pub fn close_keeps_book()
    ensures { (group_rows : ℕ) (book : Book) (changes : List Change) (floor : ℕ) → IsBookOf group_rows book changes floor → IsBookOf group_rows (after_close book) changes floor }
{}

/// What the choice of a turn gives, an actor that holds no claim may do: the groups that it names are there, of the right
/// state, and no claim has them; and what a new group would keep of their versions fits one group.
pub fn choice_may_be_claimed()
    ensures { (group_rows : ℕ) (book : Book) (changes : List Change) (floor : ℕ) (actor : Actor) → IsBookOf group_rows book changes floor → claim_by actor book ≡ None
        → MayDo group_rows book floor actor (choice floor group_rows actor book) }
{}

/// The first event of a turn of an actor that holds no claim, whatever its choice, keeps the book one of the changes.
pub fn turn_keeps_book()
    ensures { (group_rows : ℕ) (book : Book) (changes : List Change) (clock floor : ℕ) (actor : Actor) → AreChanges changes clock → IsBookOf group_rows book changes floor → claim_by actor book ≡ None
        → IsBookOf group_rows (after_choice (choice floor group_rows actor book) floor actor book) changes floor }
{}

/// The counts of the groups add up: over the groups that are no tombstones, the versions are those with an end beside them,
/// one for each entry of the buffer, and one for each row of the table at the clock.
pub fn counts_add_up()
    ensures { (group_rows : ℕ) (book : Book) (changes : List Change) (clock floor : ℕ) → AreChanges changes clock → floor ≤ clock → IsBookOf group_rows book changes floor
        → total_sum book.groups ≡ deleted_sum book.groups + (length book.buffer + length (table changes clock)) }
{}

/// The order of packed versions is free, where what claims lent stands as it stood: a book that is one of the changes is so
/// with these in any other order; the choice of a turn, its work and the groups that a flush takes are the same; and group by
/// group so are the id, the state and both counts. A book is reordered from itself; what is reordered twice is reordered; and so is
/// what differs in the order of groups' versions alone that no claim has.
pub fn order_is_free()
    ensures book { (group_rows : ℕ) (book other : Book) (changes : List Change) (floor : ℕ) → IsReordered book other → IsBookOf group_rows book changes floor → IsBookOf group_rows other changes floor }
    ensures choice { (group_rows floor : ℕ) (actor : Actor) (book other : Book) → IsReordered book other → choice floor group_rows actor book ≡ choice floor group_rows actor other }
    ensures work { (made : Choice) (floor : ℕ) (book other : Book) → IsReordered book other → choice_work made floor book ≡ choice_work made floor other }
    ensures sources { (book other : Book) → IsReordered book other → flush_sources book ≡ flush_sources other }
    ensures lines { (book other : Book) → IsReordered book other → AllZip HasSameLine book.groups other.groups }
    ensures states { (book other : Book) → IsReordered book other → (id : ℕ) → state_of book.groups id ≡ state_of other.groups id }
    ensures itself { (book : Book) → IsReordered book book }
    ensures through { (first second third : Book) → IsReordered first second → IsReordered second third → IsReordered first third }
    ensures apart { (book other : Book) → AllZip (λ (group moved : Group). IsGroupReordered group moved × (is_claimed book.claims group ≡ true → moved ≡ group)) book.groups other.groups
        → other.buffer ≡ book.buffer → other.claims ≡ book.claims → other.next ≡ book.next → IsReordered book other }
{}

/// What an event asks of the code is its book up to order: an install whose new group has the versions that its claim makes in
/// another order, and a commit whose direct loads have their rows in another order, give a book that is reordered from theirs.
pub fn events_leave_order_free()
    ensures install { (group_rows : ℕ) (book : Book) (changes : List Change) (floor : ℕ) (claim : Claim) (versions : List Version) → Contains book.claims claim → IsBookOf group_rows book changes floor
        → IsPermutation (made_of claim) versions → IsReordered (after_install claim book) (installed_with versions claim book) }
    ensures commit { (sizes : Sizes) (book : Book) (changes : List Change) (floor c : ℕ) (replaced inserted : List Key) (loads : List (List Key)) → IsBookOf sizes.group_rows book changes floor
        → AllZip IsPermutation (direct_parts (length inserted) sizes inserted).0 loads
        → IsReordered (after_commit sizes c replaced inserted book) (after_rest sizes.group_rows c (direct_parts (length inserted) sizes inserted).1 (after_loads c loads (after_ends replaced c book))) }
{}

/// A commit moves the groups only by the listed transitions, whatever the sizes and the keys: from none to the open store, to a
/// closed one, which the commit opens and fills, or to a packed group, which it loads directly; and from the open store to a
/// closed one. All other groups stay in their states, the next id does not fall, and an id that gets a group is drawn by the
/// commit, from the next id on; so none below that is used again.
pub fn commits_move_groups()
    ensures { (sizes : Sizes) (book : Book) (c : ℕ) (replaced inserted : List Key) → GroupsMoveBy commit_transitions book (after_commit sizes c replaced inserted book) }
{}

/// The events of movers, a claim of any kind among them, move the groups only by the listed transitions: from none to an
/// invisible group, from that to a packed one or to none, from a closed or a packed one to a tombstone, and from that to none.
/// All other groups stay in their states, the next id does not fall, and an id that gets a group is drawn by the event, from the
/// next id on; so none below that is used again.
pub fn movers_move_groups()
    ensures claim { (book : Book) (actor : Actor) (choice : Choice) (sources : List ℕ) (floor : ℕ) → GroupsMoveBy mover_transitions book (after_claim actor choice sources floor book) }
    ensures flush_claim { (book : Book) (actor : Actor) (sources : List ℕ) (floor : ℕ) → GroupsMoveBy mover_transitions book (after_flush_claim actor sources floor book) }
    ensures install { (group_rows : ℕ) (book : Book) (changes : List Change) (floor : ℕ) (claim : Claim) → Contains book.claims claim → IsBookOf group_rows book changes floor
        → GroupsMoveBy mover_transitions book (after_install claim book) }
    ensures flush { (book : Book) (claim : Claim) → GroupsMoveBy mover_transitions book (after_flush claim book) }
    ensures release { (group_rows : ℕ) (book : Book) (changes : List Change) (floor : ℕ) (claim : Claim) → Contains book.claims claim → IsBookOf group_rows book changes floor
        → GroupsMoveBy mover_transitions book (after_release claim book) }
    ensures settle { (book : Book) (at : ℕ) → GroupsMoveBy mover_transitions book (after_settle at book) }
    ensures clear { (group_rows : ℕ) (book : Book) (changes : List Change) (floor : ℕ) → IsBookOf group_rows book changes floor → GroupsMoveBy mover_transitions book (after_clear book) }
{}

/// A close moves the groups only by its one transition, from the open store to a closed one. All other groups stay in their
/// states, and it draws no id.
pub fn closes_move_groups()
    ensures { (book : Book) → GroupsMoveBy close_transitions book (after_close book) }
{}
