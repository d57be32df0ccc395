// A directory stands for the committed changes after each event. Each function here does nothing: its contract is a law that is
// proved.
ghost use Rattle.std.specs.Prelude.{◌≡◌, ℕ, ◌+◌, List, [], ◌++◌, length, Contains, IsPermutation, None, Some, true};
ghost use Rattle.std.specs.List.{AllZip};
ghost use Rattle.std.specs.List.Sorted.{IsStrictlySortedBy};
ghost use Rattle.cs_types.specs.declared.Key.{Key};
ghost use Rattle.cs_types.specs.Keys.{key_cmp};
ghost use Rattle.cs_model.specs.declared.work.Actor.{Actor};
ghost use Rattle.cs_model.specs.Changes.{Edit, Change};
ghost use Rattle.cs_model.specs.Floors.{IsFloor};
ghost use Rattle.cs_model.specs.Obstacles.{keys_of};
ghost use Rattle.cs_model.specs.Steps.{numbered};
ghost use Rattle.edit_laws.specs.Edits.{edits_of};
ghost use Rattle.write_set.specs.declared.write.Write.{Write};
ghost use Rattle.txn_table.specs.Txns.{Table, txn_of, with, opened, deepened, fixed, widened, own_of, snapshots_in};
ghost use Rattle.version_store.specs.Newest.{Newest, KeepsAbove};
ghost use Rattle.group_book.specs.Book.{Version};
ghost use Rattle.group_book.specs.Book.Choice.{Flush};
ghost use Rattle.group_book.specs.Commits.{replaced_by, inserted_by, direct_parts, after_ends, after_loads, after_rest};
ghost use Rattle.group_book.specs.Turns.{made_of, installed_with, after_flush};
ghost use Rattle.group_book.specs.Invariant.{makes_group, IsBookOf};
ghost use Rattle.group_view.specs.declared.claim.Claim.{Claim};
ghost use Rattle.group_view.specs.declared.groups.GroupList.{GroupList};
ghost use Rattle.group_view.specs.Books.{choice_of, claim_of, book_of};
ghost use Rattle.group_directory.specs.declared.directory.Directory.{Directory};
ghost use Rattle.group_directory.specs.Stands.{Stands};
ghost use Rattle.group_directory.specs.Laws.{noted_by, MayStage, sizes_of, MayBeList, IsNew};

/// A new table's directory stands for no change.
pub fn new_stands()
    ensures { (directory : Directory) → IsNew directory → Stands directory [] }
{}

/// A directory stands for the same changes where a transaction begins, is a level deeper, takes the clock as its snapshot, gets
/// writes that have no obstacle, or is rolled back.
pub fn transactions_keep_standing()
    ensures opened { (directory : Directory) (changes : List Change) (txns : Table) (session number depth : ℕ) → Stands directory changes → snapshots_in (txn_of directory.txns) session ≡ None
        → txn_of txns ≡ with (txn_of directory.txns) session (Some (opened number depth)) → Stands (record directory { txns = txns }) changes }
    ensures deepened { (directory : Directory) (changes : List Change) (txns : Table) (session depth : ℕ) → Stands directory changes
        → txn_of txns ≡ with (txn_of directory.txns) session (deepened depth (txn_of directory.txns session)) → Stands (record directory { txns = txns }) changes }
    ensures fixed { (directory : Directory) (changes : List Change) (txns : Table) (session : ℕ) → Stands directory changes
        → txn_of txns ≡ with (txn_of directory.txns) session (fixed directory.clock (txn_of directory.txns session)) → Stands (record directory { txns = txns }) changes }
    ensures staged { (directory : Directory) (changes : List Change) (txns : Table) (session s : ℕ) (writes : List Write) → Stands directory changes → MayStage (txn_of directory.txns) changes session s writes
        → txn_of txns ≡ with (txn_of directory.txns) session (widened writes (txn_of directory.txns session)) → Stands (record directory { txns = txns }) changes }
    ensures removed { (directory : Directory) (changes : List Change) (txns : Table) (session : ℕ) → Stands directory changes
        → txn_of txns ≡ with (txn_of directory.txns) session None → Stands (record directory { txns = txns }) changes }
{}

/// The book of a directory that stands for some changes, after the events whose code leaves an order free: a commit of these edits
/// whose direct loads have their keys in any order, and an install whose new group has its versions so; and after a flush. A
/// claim of the directory is one of its book.
pub fn books_follow()
    ensures commit { (directory : Directory) (changes : List Change) (txn floor : ℕ) (own : List Edit) (loads : List (List Key)) → Stands directory changes → IsFloor (snapshots_in (txn_of directory.txns)) directory.clock floor
        → IsStrictlySortedBy key_cmp (keys_of own) → AllZip IsPermutation (direct_parts (length (inserted_by own)) (sizes_of directory) (inserted_by own)).0 loads
        → IsBookOf directory.sizes.group_rows (after_rest directory.sizes.group_rows (directory.clock + 1) (direct_parts (length (inserted_by own)) (sizes_of directory) (inserted_by own)).1
        (after_loads (directory.clock + 1) loads (after_ends (replaced_by changes directory.clock own) (directory.clock + 1) (book_of directory.list)))) (changes ++ numbered (directory.clock + 1) txn own) floor }
    ensures install { (directory : Directory) (changes : List Change) (floor : ℕ) (held : Actor × Claim) (versions : List Version) → Stands directory changes → IsFloor (snapshots_in (txn_of directory.txns)) directory.clock floor
        → Contains directory.list.claims.items held → makes_group (choice_of held.1.choice) ≡ true → IsPermutation (made_of (claim_of held)) versions
        → IsBookOf directory.sizes.group_rows (installed_with versions (claim_of held) (book_of directory.list)) changes floor }
    ensures flush { (directory : Directory) (changes : List Change) (floor : ℕ) (held : Actor × Claim) → Stands directory changes → IsFloor (snapshots_in (txn_of directory.txns)) directory.clock floor
        → Contains directory.list.claims.items held → choice_of held.1.choice ≡ Flush → IsBookOf directory.sizes.group_rows (after_flush (claim_of held) (book_of directory.list)) changes floor }
    ensures there { (directory : Directory) (held : Actor × Claim) → Contains directory.list.claims.items held → Contains (book_of directory.list).claims (claim_of held) }
{}

/// A directory stands for the same changes where its list of groups is another one that may stand in its place, whose book is
/// one of them at the floor; and where newest changes are pruned at the floor.
pub fn groups_keep_standing()
    ensures moved { (directory : Directory) (changes : List Change) (list : GroupList) (floor : ℕ) → Stands directory changes → IsFloor (snapshots_in (txn_of directory.txns)) directory.clock floor
        → MayBeList directory list changes → IsBookOf directory.sizes.group_rows (book_of list) changes floor → Stands (record directory { list = list }) changes }
    ensures book { (directory : Directory) (changes : List Change) (floor : ℕ) → Stands directory changes → IsFloor (snapshots_in (txn_of directory.txns)) directory.clock floor
        → IsBookOf directory.sizes.group_rows (book_of directory.list) changes floor }
    ensures pruned { (directory : Directory) (changes : List Change) (recent : Newest) (floor kept : ℕ) → Stands directory changes → IsFloor (snapshots_in (txn_of directory.txns)) directory.clock floor
        → KeepsAbove floor directory.recent.changes recent.changes → Stands (record directory { recent = recent; pruned = floor; kept = kept }) changes }
{}

/// After a commit of a session's own writes a directory stands for the changes with these: its list may stand for them, its book
/// is one of them at the floor from before, the transaction is gone, and its keys are noted.
pub fn commit_keeps_standing()
    ensures { (directory : Directory) (changes : List Change) (list : GroupList) (txns : Table) (recent : Newest) (session number floor : ℕ) → Stands directory changes
        → IsFloor (snapshots_in (txn_of directory.txns)) directory.clock floor
        → MayBeList directory list (changes ++ numbered (directory.clock + 1) number (edits_of (own_of (txn_of directory.txns session))))
        → IsBookOf directory.sizes.group_rows (book_of list) (changes ++ numbered (directory.clock + 1) number (edits_of (own_of (txn_of directory.txns session)))) floor
        → txn_of txns ≡ with (txn_of directory.txns) session None
        → recent.changes ≡ noted_by (record { commit = directory.clock + 1; txn = number }) directory.recent.changes (keys_of (edits_of (own_of (txn_of directory.txns session))))
        → Stands (record directory { list = list; txns = txns; recent = recent; clock = directory.clock + 1 }) (changes ++ numbered (directory.clock + 1) number (edits_of (own_of (txn_of directory.txns session)))) }
{}
