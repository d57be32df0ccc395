// Laws by which a directory keeps standing for the committed changes. Each function here does nothing: its contract is a law
// that is proved.
ghost use Rattle.std.specs.Prelude.{◌≡◌, ◌⊎◌, ℕ, ◌<◌, ◌≤◌, ◌+◌, List, [], ◌++◌, map, filter, All, Contains, IsPermutation, Option, None, Some, Bool, true, false, is_some};
ghost use Rattle.std.specs.List.{flat_map};
ghost use Rattle.std.specs.List.Sorted.{IsStrictlySortedBy};
ghost use Rattle.std.specs.Option.{ForSome};
ghost use Rattle.std.specs.FinMap as finite;
ghost use Rattle.std.specs.declared.alloc.Global.{Global};
ghost use Rattle.std.specs.declared.sync.Arc.{Arc};
ghost use Rattle.cs_types.specs.declared.Key.{Key};
ghost use Rattle.cs_types.specs.declared.Schema.{Schema};
ghost use Rattle.cs_types.specs.declared.Value.{Value};
ghost use Rattle.cs_types.specs.Keys.{key_cmp};
ghost use Rattle.cs_model.specs.declared.work.Actor.{Actor};
ghost use Rattle.cs_model.specs.Changes.{Edit, Change, newest};
ghost use Rattle.cs_model.specs.Floors.{IsFloor};
ghost use Rattle.cs_model.specs.Obstacles.{keys_of, is_above, IsChange};
ghost use Rattle.cs_model.specs.Steps.{numbered};
ghost use Rattle.edit_laws.specs.Edits.{edits_of};
ghost use Rattle.write_set.specs.declared.write.Write.{Write};
ghost use Rattle.write_set.specs.Writes.{Ascend};
ghost use Rattle.txn_table.specs.declared.txn.Txn.{Txn};
ghost use Rattle.txn_table.specs.Txns.{Table, txn_of, with, opened, deepened, fixed, widened, own_of, snapshots_in};
ghost use Rattle.version_store.specs.declared.NewestChange.{NewestChange};
ghost use Rattle.version_store.specs.Newest.{Changes, above, KeepsAbove};
ghost use Rattle.delete_bitmap.specs.declared.Marks.{Marks};
ghost use Rattle.row_group.specs.declared.packed.Packed.{Packed};
ghost use Rattle.group_book.specs.Book.{Book};
ghost use Rattle.group_book.specs.Book as book;
ghost use Rattle.group_book.specs.Book.Choice.{Flush};
ghost use Rattle.group_book.specs.Commits.{is_in_table, replaced_by, inserted_by, is_one_of, has_live};
ghost use Rattle.group_book.specs.Turns.{flushed};
ghost use Rattle.group_book.specs.Turns as turns;
ghost use Rattle.group_book.specs.Stocks.{AreChanges};
ghost use Rattle.group_book.specs.Invariant.{IsLent, IsBookOf};
ghost use Rattle.group_view.specs.declared.claim.Claim.{Claim};
ghost use Rattle.group_view.specs.declared.groups.Group.{Group};
ghost use Rattle.group_view.specs.declared.view.GroupView.{GroupView};
ghost use Rattle.group_view.specs.Laws.{IsMadeRow, IsViewOf};
ghost use Rattle.group_view.specs.Lists.{listed};
ghost use Rattle.group_view.specs.Parts.{Rowed, packed_parts};
ghost use Rattle.group_view.specs.Views.{endings_of, buffer_of, rowed_of};
ghost use Rattle.group_view.specs.Books.{versions_of, rowed_in_content, choice_of, claim_of, book_of};
ghost use Rattle.group_view.specs.Claims.{padded_rowed, lent_entries, kept_rowed, rowed_of_packed, IsMadeOf};
ghost use Rattle.group_directory.specs.declared.directory.Directory.{Directory};
ghost use Rattle.group_view.specs.Seen.{Seen, seen, entry_of, packed_seen, part_entry, rooted, rooted_in};
ghost use Rattle.group_directory.specs.Claiming.{IsShareOf};
ghost use Rattle.group_directory.specs.Stands.{width_in, rows_in, listed_rows, IsEndedBy, IsLoanOf, IsRecent, SayReplaced, AreTxns, Stands};
ghost use Rattle.group_view.specs.Parcels.{IsGiven};
ghost use Rattle.group_directory.specs.Laws.{rooted_at, AreAmong, BeginsBy, width_of, noted_by, MayStage, IsLookAt};

/// Rows stay those of the changes that their versions stem from: of versions that are among others, up to their ends; of the
/// same ones in another order; where changes come that are numbered above all begins; and of the versions of a commit, the old
/// ones and one of its number for each of these rows that its edits give.
pub fn rows_stay()
    ensures among { (width : ℕ) (changes : List Change) (old rows : List Rowed) → AreAmong old rows → All (IsMadeRow width changes) old → All (IsMadeRow width changes) rows }
    ensures moved { (width : ℕ) (changes : List Change) (old rows : List Rowed) → IsPermutation (map rooted old) (map rooted rows) → All (IsMadeRow width changes) old → All (IsMadeRow width changes) rows }
    ensures later { (width clock txn : ℕ) (changes : List Change) (own : List Edit) (rows : List Rowed) → All (BeginsBy clock) rows → All (IsMadeRow width changes) rows
        → All (IsMadeRow width (changes ++ numbered (clock + 1) txn own)) rows }
    ensures commit { (width clock txn : ℕ) (changes : List Change) (own : List Edit) (old rows : List Rowed) (news : List (Key × List Value)) → IsStrictlySortedBy key_cmp (keys_of own) → All (BeginsBy clock) old
        → All (IsGiven width own) news → IsPermutation (map rooted old ++ map (rooted_at (clock + 1)) news) (map rooted rows) → All (IsMadeRow width changes) old
        → All (IsMadeRow width (changes ++ numbered (clock + 1) txn own)) rows }
{}

/// What a claim's work keeps of the lent versions has the rows of its changes, as lent ones have: no change of the key lies
/// between a kept version's begin and the number that it is raised to. So have the versions of the new group.
pub fn work_keeps_rows()
    ensures kept { (width : ℕ) (book : Book) (changes : List Change) (actor : Actor) (claim : Claim) → IsLent book changes (claim_of (actor, claim)) → All (IsMadeRow width changes) (rowed_of claim.view)
        → All (IsMadeRow width changes) (kept_rowed claim) }
    ensures padded { (width : ℕ) (book : Book) (changes : List Change) (actor : Actor) (claim : Claim) → IsLent book changes (claim_of (actor, claim)) → All (IsMadeRow width changes) (rowed_of claim.view)
        → All (IsMadeRow width changes) (map (padded_rowed width) (kept_rowed claim)) }
    ensures made { (book : Book) (changes : List Change) (actor : Actor) (claim : Claim) (group : Arc Packed Global × Arc Marks Global) → IsLent book changes (claim_of (actor, claim))
        → All (IsMadeRow (width_of claim) changes) (rowed_of claim.view) → IsMadeOf claim (Some group) → All (IsMadeRow (width_of claim) changes) (rowed_of_packed group.0.value group.1.value) }
{}

/// Rows stay those of the changes group by group: where each group is an old one, or the new one has such rows; where versions
/// have other ends; and of a view that has some of the groups. Groups that no view shows have no versions.
pub fn groups_keep_rows()
    ensures all { (groups : List Group) → rows_in (listed groups) ≡ flat_map (λ (group : Group). rowed_in_content group.content) groups }
    ensures made { (width : ℕ) (changes : List Change) (old groups : List (ℕ × List Rowed)) (fresh : Option ℕ) (made : List Rowed)
        → All (λ (group : ℕ × List Rowed). Contains old group ⊎ ((fresh ≡ Some group.0) × (group.1 ≡ made))) groups → All (IsMadeRow width changes) (rows_in old) → All (IsMadeRow width changes) made
        → All (IsMadeRow width changes) (rows_in groups) }
    ensures fewer { (width : ℕ) (changes : List Change) (old groups : List (ℕ × List Rowed)) → All (Contains old) groups → All (IsMadeRow width changes) (rows_in old) → All (IsMadeRow width changes) (rows_in groups) }
    ensures ended { (width : ℕ) (changes : List Change) (before after : List Group) → rooted_in after ≡ rooted_in before → All (IsMadeRow width changes) (rows_in (listed before))
        → All (IsMadeRow width changes) (rows_in (listed after)) }
    ensures picked { (width : ℕ) (changes : List Change) (test : Seen → Bool) (groups : List Group) (view : GroupView) → map part_entry view.groups ≡ map entry_of (filter test (map seen groups))
        → All (IsMadeRow width changes) (rows_in (listed groups)) → All (IsMadeRow width changes) (rowed_of view) }
{}

/// The rows of a directory that stands for some changes, after a commit of these edits: of the listed versions, and with the
/// ends of their buffers of what claims lent; and those of the group that the work of one of its claims made.
pub fn directory_keeps_rows()
    ensures commit { (directory : Directory) (changes : List Change) (txn : ℕ) (own : List Edit) (rows : List Rowed) (news : List (Key × List Value)) → Stands directory changes → IsStrictlySortedBy key_cmp (keys_of own)
        → All (IsGiven (width_in directory) own) news → IsPermutation (map rooted (listed_rows directory.list) ++ map (rooted_at (directory.clock + 1)) news) (map rooted rows)
        → All (IsMadeRow (width_in directory) (changes ++ numbered (directory.clock + 1) txn own)) rows }
    ensures loans { (directory : Directory) (changes : List Change) (txn : ℕ) (own : List Edit) → Stands directory changes
        → All (IsLoanOf directory.schema.value (changes ++ numbered (directory.clock + 1) txn own)) directory.list.claims.items }
    ensures made { (directory : Directory) (changes : List Change) (held : Actor × Claim) (group : Arc Packed Global × Arc Marks Global) → Stands directory changes → Contains directory.list.claims.items held
        → IsMadeOf held.1 (Some group) → All (IsMadeRow (width_in directory) changes) (rowed_of_packed group.0.value group.1.value) }
{}

/// A new claim keeps what a claim of the directory must: it has some of its groups, with its buffer, its schema and, where it is
/// a flush, the entries that end the lent versions. A share of a claim keeps what the claim keeps.
pub fn new_claims_keep()
    ensures made { (directory : Directory) (changes : List Change) (actor : Actor) (claim : Claim) (test : Seen → Bool) (sources : List ℕ) → Stands directory changes → claim.schema.value ≡ directory.schema.value
        → map part_entry claim.view.groups ≡ map entry_of (filter test (map seen directory.list.groups.items)) → packed_parts claim.view.groups ≡ packed_seen (filter test (map seen directory.list.groups.items))
        → claim.view.buffer.value ≡ directory.list.buffer.entries
        → versions_of (rowed_of claim.view) ≡ turns.versions_of sources (book_of directory.list).groups → (choice_of claim.choice ≡ Flush → endings_of claim.entries ≡ lent_entries claim)
        → IsLoanOf directory.schema.value changes (actor, claim) }
    ensures share { (schema : Schema) (changes : List Change) (actor : Actor) (claim other : Claim) → IsShareOf claim other → IsLoanOf schema changes (actor, claim) → IsLoanOf schema changes (actor, other) }
{}

/// What a claim lends at its event its buffer ends where it changes next, as the book has it. So a flush may end lent versions by
/// the buffer of its claim, whatever was committed since: by the present one they get the same ends.
pub fn loans_end_alike()
    ensures lent { (group_rows floor : ℕ) (book : Book) (changes : List Change) (sources : List ℕ) (view : GroupView) → IsBookOf group_rows book changes floor → buffer_of view ≡ book.buffer
        → versions_of (rowed_of view) ≡ turns.versions_of sources book.groups → All (IsEndedBy changes (buffer_of view)) (versions_of (rowed_of view)) }
    ensures flush { (directory : Directory) (changes : List Change) (held : Actor × Claim) → Stands directory changes → Contains directory.list.claims.items held
        → All (λ version. flushed (buffer_of held.1.view) (lent_entries held.1) version ≡ flushed (book_of directory.list).buffer (lent_entries held.1) version) (versions_of (rowed_of held.1.view)) }
{}

/// What is noted of newest changes agrees with the changes: at first, after a commit, when its keys are noted with its number
/// and its transaction, after a prune, and where nothing is noted of changes up to the clock. A commit's keys have no newer change
/// noted before it, each being noted once.
pub fn newest_changes_agree()
    ensures new { (pruned : ℕ) → IsRecent pruned finite.empty [] }
    ensures commit { (pruned clock txn : ℕ) (noted : Changes) (changes : List Change) (own : List Edit) → IsRecent pruned noted changes
        → IsRecent pruned (noted_by (record { commit = clock + 1; txn = txn }) noted (keys_of own)) (changes ++ numbered (clock + 1) txn own) }
    ensures prune { (pruned at : ℕ) (noted left : Changes) (changes : List Change) → IsRecent pruned noted changes → pruned ≤ at → KeepsAbove at noted left → IsRecent at left changes }
    ensures clear { (clock : ℕ) (changes : List Change) → AreChanges changes clock → IsRecent clock finite.empty changes }
    ensures newer { (pruned clock : ℕ) (noted : Changes) (changes : List Change) (note : NewestChange) (keys : List Key) (key : Key) → IsRecent pruned noted changes → AreChanges changes clock
        → is_one_of keys key ≡ false → ForSome (finite.get (noted_by note noted keys) key) (λ other. other.commit < clock + 1) }
{}

/// A snapshot from the last prune's number on is judged by what is noted: whether the key has a change above it, and by whom and
/// when it was made (refusal 3960).
pub fn newest_changes_judge()
    ensures above { (pruned s : ℕ) (noted : Changes) (changes : List Change) (key : Key) → IsRecent pruned noted changes → pruned ≤ s
        → is_above (newest key changes) (Some s) ≡ is_some (above s (finite.get noted key)) }
    ensures named { (pruned : ℕ) (noted : Changes) (changes : List Change) (key : Key) (note : NewestChange) → IsRecent pruned noted changes → finite.get noted key ≡ Some note
        → IsChange (newest key changes) note.txn note.commit }
{}

/// The floor, as transactions begin and end and the clock rises: there is one; it stays where each snapshot stays, so where a
/// transaction begins, is a level deeper or gets writes; and where a snapshot is taken at the clock. It does not fall where a
/// transaction ends, nor where the clock rises.
pub fn floor_moves()
    ensures there { (table : Table) (clock : ℕ) → (floor : ℕ) × IsFloor (snapshots_in (txn_of table)) clock floor }
    ensures same { (taken other : ℕ → Option ℕ) (clock floor : ℕ) → ((session : ℕ) → other session ≡ taken session) → IsFloor taken clock floor → IsFloor other clock floor }
    ensures opened { (txns : ℕ → Option Txn) (clock floor session number depth : ℕ) → snapshots_in txns session ≡ None → IsFloor (snapshots_in txns) clock floor
        → IsFloor (snapshots_in (with txns session (Some (opened number depth)))) clock floor }
    ensures deepened { (txns : ℕ → Option Txn) (clock floor session depth : ℕ) → IsFloor (snapshots_in txns) clock floor → IsFloor (snapshots_in (with txns session (deepened depth (txns session)))) clock floor }
    ensures widened { (txns : ℕ → Option Txn) (clock floor session : ℕ) (writes : List Write) → IsFloor (snapshots_in txns) clock floor
        → IsFloor (snapshots_in (with txns session (widened writes (txns session)))) clock floor }
    ensures fixed { (txns : ℕ → Option Txn) (changes : List Change) (clock floor session : ℕ) → AreTxns txns changes clock → IsFloor (snapshots_in txns) clock floor
        → IsFloor (snapshots_in (with txns session (fixed clock (txns session)))) clock floor }
    ensures ended { (txns : ℕ → Option Txn) (changes : List Change) (clock now floor later session : ℕ) → clock ≤ now → AreTxns txns changes clock → IsFloor (snapshots_in txns) clock floor
        → IsFloor (snapshots_in (with txns session None)) now later → floor ≤ later }
    ensures risen { (taken : ℕ → Option ℕ) (clock now floor later : ℕ) → clock ≤ now → IsFloor taken clock floor → IsFloor taken now later → floor ≤ later }
    ensures low { (txns : ℕ → Option Txn) (changes : List Change) (clock floor : ℕ) → AreTxns txns changes clock → IsFloor (snapshots_in txns) clock floor → floor ≤ clock }
{}

/// The open transactions agree with the changes and the clock: at first, and where one begins, is a level deeper, takes the
/// clock as its snapshot, ends, gets writes that have no obstacle, or is committed.
pub fn transactions_agree()
    ensures none { (txns : ℕ → Option Txn) (changes : List Change) (clock : ℕ) → ((session : ℕ) → txns session ≡ None) → AreTxns txns changes clock }
    ensures opened { (txns : ℕ → Option Txn) (changes : List Change) (clock session number depth : ℕ) → AreTxns txns changes clock → AreTxns (with txns session (Some (opened number depth))) changes clock }
    ensures deepened { (txns : ℕ → Option Txn) (changes : List Change) (clock session depth : ℕ) → AreTxns txns changes clock → AreTxns (with txns session (deepened depth (txns session))) changes clock }
    ensures fixed { (txns : ℕ → Option Txn) (changes : List Change) (clock session : ℕ) → AreTxns txns changes clock → AreTxns (with txns session (fixed clock (txns session))) changes clock }
    ensures removed { (txns : ℕ → Option Txn) (changes : List Change) (clock session : ℕ) → AreTxns txns changes clock → AreTxns (with txns session None) changes clock }
    ensures staged { (txns : ℕ → Option Txn) (changes : List Change) (clock session s : ℕ) (writes : List Write) → AreChanges changes clock → AreTxns txns changes clock → MayStage txns changes session s writes
        → AreTxns (with txns session (widened writes (txns session))) changes clock }
    ensures committed { (txns : ℕ → Option Txn) (changes : List Change) (clock session number : ℕ) → AreChanges changes clock → AreTxns txns changes clock
        → AreTxns (with txns session None) (changes ++ numbered (clock + 1) number (edits_of (own_of (txns session)))) (clock + 1) }
{}

/// The snapshot of an open transaction lies from the floor to the clock, and not below what was pruned: so a view at the floor
/// shows it, and what is noted judges it.
pub fn snapshots_lie_within()
    ensures floor { (directory : Directory) (changes : List Change) (floor session s : ℕ) → Stands directory changes → IsFloor (snapshots_in (txn_of directory.txns)) directory.clock floor
        → snapshots_in (txn_of directory.txns) session ≡ Some s → floor ≤ s }
    ensures clock { (directory : Directory) (changes : List Change) (session s : ℕ) → Stands directory changes → snapshots_in (txn_of directory.txns) session ≡ Some s → s ≤ directory.clock }
    ensures pruned { (directory : Directory) (changes : List Change) (session s : ℕ) → Stands directory changes → snapshots_in (txn_of directory.txns) session ≡ Some s → directory.pruned ≤ s }
{}

/// The keys of a commit, in order, by what its own writes say: those whose rows are replaced or deleted, and those that get a
/// row.
pub fn commit_keys_are()
    ensures keys { (own : List Write) → keys_of (edits_of own) ≡ map (λ (write : Write). write.key) own }
    ensures ascend { (own : List Write) → Ascend own → IsStrictlySortedBy key_cmp (keys_of (edits_of own)) }
    ensures replaced { (changes : List Change) (clock : ℕ) (txn : Option Txn) → SayReplaced changes clock txn
        → replaced_by changes clock (edits_of (own_of txn)) ≡ map (λ (write : Write). write.key) (filter (λ (write : Write). write.replaces) (own_of txn)) }
    ensures inserted { (own : List Write) → inserted_by (edits_of own) ≡ map (λ (write : Write). write.key) (filter (λ (write : Write). is_some write.row) own) }
{}

/// What a commit rests on: begins and the entries of the buffer are at most at the clock; and a key that has a live version in
/// the open store has a row in the table, so an inserted key that has one is among the replaced ones.
pub fn commits_may_run()
    ensures listed { (directory : Directory) (changes : List Change) → Stands directory changes → All (BeginsBy directory.clock) (listed_rows directory.list) }
    ensures lent { (directory : Directory) (changes : List Change) → Stands directory changes → All (λ (held : Actor × Claim). All (BeginsBy directory.clock) (rowed_of held.1.view)) directory.list.claims.items }
    ensures entries { (directory : Directory) (changes : List Change) → Stands directory changes → All (λ (entry : Key × ℕ). entry.1 ≤ directory.clock) directory.list.buffer.entries }
    ensures live { (directory : Directory) (changes : List Change) (key : Key) → Stands directory changes → has_live key (book.opened (book_of directory.list).groups) ≡ true → is_in_table changes directory.clock key ≡ true }
    ensures replaced { (directory : Directory) (changes : List Change) (own : List Edit) → Stands directory changes
        → All (λ key. has_live key (book.opened (book_of directory.list).groups) ≡ true → is_one_of (replaced_by changes directory.clock own) key ≡ true) (inserted_by own) }
{}

/// A view of a directory that stands for some changes, of its groups and its buffer at its floor and its clock, is one of their
/// book, with their rows. So it shows their tables (`group_view::shows_tables`).
pub fn looks_are_views()
    ensures changes { (directory : Directory) (view : GroupView) (changes : List Change) → Stands directory changes → IsLookAt directory view → AreChanges changes view.clock }
    ensures book { (directory : Directory) (view : GroupView) (changes : List Change) → Stands directory changes → IsLookAt directory view
        → IsBookOf directory.sizes.group_rows (book_of directory.list) changes view.floor }
    ensures view { (directory : Directory) (view : GroupView) (changes : List Change) → Stands directory changes → IsLookAt directory view
        → IsViewOf (width_in directory) view (book_of directory.list) changes }
{}
