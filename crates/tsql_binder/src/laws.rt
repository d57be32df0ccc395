//! Which statements ask for a report.

ghost use Rattle.std.specs.Prelude.{◌≡◌, ◌↔◌, Ok};
ghost use Rattle.cs_types.specs.declared.Schema.{Schema};
ghost use Rattle.cs_model.specs.declared.entry.Bound.TheVariants.{GroupReport, SegmentReport};
ghost use Rattle.tsql_trees.specs.declared.statement.Statement.{Statement};
ghost use Rattle.tsql_binder.specs.Meaning.{bound_of};
ghost use Rattle.tsql_binder.specs.Reports.{groups_name, segments_name, AsksFor};

/// A statement is bound to a report exactly where it is `SELECT * FROM sys.` and the report's name.
pub fn reports_are_asked_for()
    ensures groups { (schema : Schema) (statement : Statement) → (bound_of schema statement ≡ Ok GroupReport) ↔ AsksFor groups_name statement }
    ensures segments { (schema : Schema) (statement : Statement) → (bound_of schema statement ≡ Ok SegmentReport) ↔ AsksFor segments_name statement }
{}
