// Laws of views. Each function here does nothing: its contract is a law that is proved.
ghost use Rattle.std.specs.Prelude.{◌≡◌, ◌<◌, ◌≤◌, ℕ, List, ◌++◌, map, All, None};
ghost use Rattle.std.specs.List.{flat_map};
ghost use Rattle.std.specs.List.Sorted.{IsPermutation};
ghost use Rattle.std.specs.BTreeMap.{is_at};
ghost use Rattle.std.specs.Map.{lookup};
ghost use Rattle.std.specs.Option.{option_map};
ghost use Rattle.cs_types.specs.declared.Key.{Key};
ghost use Rattle.cs_types.specs.Keys.{key_cmp};
ghost use Rattle.cs_types.specs.Rows.{padded};
ghost use Rattle.cs_model.specs.Changes.{Change, table};
ghost use Rattle.group_book.specs.Book.{Book};
ghost use Rattle.group_book.specs.Stocks.{AreChanges};
ghost use Rattle.group_book.specs.Invariant.{IsBookOf};
ghost use Rattle.group_view.specs.declared.groups.GroupList.{GroupList};
ghost use Rattle.group_view.specs.declared.parts.GroupPart.{GroupPart};
ghost use Rattle.group_view.specs.declared.view.GroupView.{GroupView};
ghost use Rattle.group_view.specs.declared.view.Place.{Place};
ghost use Rattle.group_view.specs.Parts.{Rowed, IsFitting};
ghost use Rattle.group_view.specs.Views.{padded_table, shown, version_at, HidesEach, IsView, Shows, ShowsTables};
ghost use Rattle.group_view.specs.Books.{book_of};
ghost use Rattle.group_view.specs.Lists.{listed};
ghost use Rattle.group_view.specs.Laws.{shown_row, IsMadeRow, IsTakenOf, IsViewOf};

/// A view of the book of some changes shows their tables, for each snapshot from its floor to its clock: the visible versions
/// are the table's rows, each key's once. Each stems from its key's last change in the table, with that change's number as its
/// begin, or both are at most the floor.
pub fn shows_tables()
    ensures view { (group_rows width : ℕ) (view : GroupView) (book : Book) (changes : List Change) → AreChanges changes view.clock → IsBookOf group_rows book changes view.floor
        → IsViewOf width view book changes → IsView view }
    ensures tables { (group_rows width : ℕ) (view : GroupView) (book : Book) (changes : List Change) → AreChanges changes view.clock → IsBookOf group_rows book changes view.floor
        → IsViewOf width view book changes → ShowsTables width view changes }
{}

/// A view that has a list's groups and its buffer, with the rows of some changes, is a view of the book that the list stands
/// for, with these changes.
pub fn taken_views()
    ensures { (width : ℕ) (list : GroupList) (view : GroupView) (changes : List Change) → view.floor ≤ view.clock → All (λ (group : ℕ × GroupPart). IsFitting group.1) view.groups → IsTakenOf list view
        → All (IsMadeRow width changes) (flat_map (λ (group : ℕ × List Rowed). group.1) (listed list.groups.items)) → IsViewOf width view (book_of list) changes }
{}

/// What a view shows stays the tables' whatever is committed later, and whatever movers install meanwhile.
pub fn stays_shown()
    ensures { (width : ℕ) (view : GroupView) (changes later : List Change) → All (λ (change : Change). view.clock < change.commit) later → ShowsTables width view changes
        → ShowsTables width view (changes ++ later) }
{}

/// The versions that a snapshot sees, as keys and rows, are the rows of its table in some order, each once.
pub fn shown_rows()
    ensures { (width : ℕ) (view : GroupView) (changes : List Change) (s : ℕ) → IsView view → ShowsTables width view changes → view.floor ≤ s → s ≤ view.clock
        → IsPermutation (map (shown_row width) (shown view s)) (padded_table width (table changes s)) }
{}

/// What a look-up finds is the row of the table, and what it does not find the table has not.
pub fn lookups_find_rows()
    ensures found { (width : ℕ) (view : GroupView) (changes : List Change) (key : Key) (s : ℕ) (place : Place) → IsView view → ShowsTables width view changes → view.floor ≤ s → s ≤ view.clock
        → Shows view key s place → option_map (λ (rowed : Rowed). padded width rowed.row) (version_at view place) ≡ lookup (is_at (key_cmp key)) (padded_table width (table changes s)) }
    ensures none { (width : ℕ) (view : GroupView) (changes : List Change) (key : Key) (s : ℕ) → IsView view → ShowsTables width view changes → view.floor ≤ s → s ≤ view.clock
        → HidesEach view key s → lookup (is_at (key_cmp key)) (padded_table width (table changes s)) ≡ None }
{}
