//! The law that the answer of a query does not depend on the order of its rows.
//!
//! Its one contract is that law, `answer_in_any_order`, a function that does nothing. So a scan may read the rows of a table
//! in any order, and in parts by several workers; the order of the answer's own rows is fixed by the query all the same. It
//! stands on `cs_model`, which defines answers; whoever computes them cites its lemmas.
#![tactic(auto)]

ghost use Rattle.std.specs.Prelude.{◌≡◌, true, List, IsPermutation};
ghost use Rattle.std.specs.Map.{keys_of, values_of};
ghost use Rattle.std.specs.List.Sorted.{IsStrictlySortedBy};
ghost use Rattle.cs_types.specs.declared.Schema.{Schema};
ghost use Rattle.cs_types.specs.declared.Value.{Value};
ghost use Rattle.cs_types.specs.Keys.{key_cmp};
ghost use Rattle.cs_model.specs.declared.plan.Query.{Query};
ghost use Rattle.cs_model.specs.Changes.{Table};
ghost use Rattle.cs_model.specs.Held.{IsFitTable};
ghost use Rattle.cs_model.specs.Queries.{answer, kept, plain_answer};
ghost use Rattle.answer_laws.specs.Laws.{KeysDiffer, TiesShowOne};

/// Rows in another order have the same answer, its refusal and its order included: rows of an answer stand by the columns of
/// ORDER BY and then by the key, groups by these columns and then by all grouping columns, also where there is no ORDER BY.
/// What is left free is the order in which the rows are read, and that of the groups and of each group's rows.
///
/// A query that puts rows together asks nothing of them. Another one asks that the keys of the rows differ, as those of a
/// table do. It asks no more than that kept rows which tie by ORDER BY and the key show the same, and that must be so.
pub fn answer_in_any_order()
    ensures table { (schema : Schema) (query : Query) (table : Table) (others : List (List Value)) → IsFitTable schema table → IsStrictlySortedBy key_cmp (keys_of table)
        → IsPermutation (values_of table) others → answer schema query (values_of table) ≡ answer schema query others }
    ensures keys { (schema : Schema) (query : Query) (rows others : List (List Value)) → KeysDiffer schema rows → IsPermutation rows others → answer schema query rows ≡ answer schema query others }
    ensures grouped { (schema : Schema) (query : Query) (rows others : List (List Value)) → query.grouped ≡ true → IsPermutation rows others → answer schema query rows ≡ answer schema query others }
    ensures ties { (schema : Schema) (query : Query) (rows others : List (List Value)) → TiesShowOne schema query (kept schema query rows) → IsPermutation rows others → answer schema query rows ≡ answer schema query others }
    ensures needed { (schema : Schema) (query : Query) (rows : List (List Value)) → ((others : List (List Value)) → IsPermutation rows others → plain_answer schema query rows ≡ plain_answer schema query others) → TiesShowOne schema query rows }
{}
