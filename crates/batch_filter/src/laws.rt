// Laws of the definitions. Each function here does nothing: its contract is a law that is proved.
ghost use Rattle.std.specs.Prelude.{◌≡◌, ◌≢◌, ℕ, List, [], All, length, map, true};
ghost use Rattle.cs_types.specs.declared.Schema.{Schema};
ghost use Rattle.cs_types.specs.declared.Value.{Value};
ghost use Rattle.cs_types.specs.Rows.{cell_at};
ghost use Rattle.cs_model.specs.declared.pred.Pred.{Pred};
ghost use Rattle.cs_model.specs.declared.truth.Truth.TheVariants.{True};
ghost use Rattle.cs_model.specs.Skips.{skips};
ghost use Rattle.cs_model.specs.Truths.{truth};
ghost use Rattle.batch_filter.specs.Batches.{batches_of, row_count};
ghost use Rattle.batch_filter.specs.Named.{named};

/// Where the cells of some rows, by column, have a predicate skip, it is True of none of the rows.
pub fn skips_loses_no_row()
    ensures { (schema : Schema) (pred : Pred) (rows : List (List Value)) → skips schema pred (λ column. map (λ row. cell_at row column) rows) ≡ true → All (λ row. truth pred row schema ≢ True) rows }
{}

/// A predicate has one truth over two rows with equal cells in each column that it names.
pub fn truth_of_named()
    ensures { (pred : Pred) (row other : List Value) (schema : Schema) → All (λ column. cell_at row column ≡ cell_at other column) (named pred) → truth pred row schema ≡ truth pred other schema }
{}

/// Where a predicate names columns that have batches, and each of these has so many cells, the batches have so many rows for it.
pub fn rows_of_batches()
    ensures { (pred : Pred) (columns : List (List Value)) (n : ℕ) → batches_of columns (named pred) ≢ [] → All (λ batch. length batch ≡ n) (batches_of columns (named pred)) → row_count pred columns ≡ n }
{}
