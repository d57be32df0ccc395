// What a report on segments shows, and what a scan counts. Each function here does nothing: its contract is a law that is proved.
ghost use Rattle.std.specs.Prelude.{List, Option};
ghost use Rattle.cs_model.specs.declared.report.SegmentLine.{SegmentLine};
ghost use Rattle.cs_model.specs.declared.pred.Pred.{Pred};
ghost use Rattle.cs_model.specs.Changes.{Change};
ghost use Rattle.group_log.specs.Counted.{AreCounts};
ghost use Rattle.group_log.specs.Segments.{AreSegmentLines, ShowsSegments};
ghost use Rattle.group_view.specs.declared.view.GroupView.{GroupView};
ghost use Rattle.group_view.specs.Books.{book_of};
ghost use Rattle.group_view.specs.Parts.{packed_parts, rows_by_id};
ghost use Rattle.group_view.specs.Scanned.{counts_in};
ghost use Rattle.group_directory.specs.declared.directory.Directory.{Directory};
ghost use Rattle.group_directory.specs.Laws.{IsLookAt};
ghost use Rattle.group_directory.specs.Stands.{Stands};

/// The segment lines of the packed groups of a directory's view are those that its book shows: each COMPRESSED group's rows are
/// those of its versions' changes, in the order of a group.
pub fn looks_show_segments()
    ensures { (directory : Directory) (view : GroupView) (changes : List Change) (lines : List SegmentLine) → Stands directory changes → IsLookAt directory view
        → AreSegmentLines directory.schema.value (rows_by_id (packed_parts view.groups)) lines → ShowsSegments directory.schema.value changes (book_of directory.list) lines }
{}

/// How many packed groups of a directory's view a condition reads and skips is how many COMPRESSED groups of its book it does.
pub fn looks_count_segments()
    ensures { (directory : Directory) (view : GroupView) (changes : List Change) (condition : Option Pred) → Stands directory changes → IsLookAt directory view
        → AreCounts directory.schema.value changes (book_of directory.list) condition (counts_in directory.schema.value view condition) }
{}
