//! The law that what is kept of rows does not depend on their order.

ghost use Rattle.std.specs.Prelude.{◌≡◌, ◌++◌, true, List, IsPermutation};
ghost use Rattle.cs_types.specs.declared.Value.{Value};
ghost use Rattle.cs_model.specs.declared.plan.Item.{Item as OneItem};
ghost use Rattle.batch_aggregate.specs.declared.partial.Partial.{Partial as OnePartial};
ghost use Rattle.batch_aggregate.specs.Standing.{StandsFor};
ghost use Rattle.batch_aggregate.specs.Tallies.{joined, tally_of};

/// In a query that puts rows together a partial answer stands for its rows in any order, so that they may come in group by
/// group, and in parts that are merged in any order. A tally is the same for every order of its rows, and that of two lists
/// of rows is made of the two.
pub fn any_order()
    ensures stands { (partial : OnePartial) (rows others : List (List Value)) → partial.query.now.grouped ≡ true → StandsFor partial rows → IsPermutation rows others → StandsFor partial others }
    ensures tallies { (item : OneItem) (rows others : List (List Value)) → IsPermutation rows others → tally_of rows item ≡ tally_of others item }
    ensures joined { (item : OneItem) (rows more : List (List Value)) → tally_of (rows ++ more) item ≡ joined (tally_of rows item) (tally_of more item) }
{}
