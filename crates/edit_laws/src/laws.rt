// Laws of the definitions.
ghost use Rattle.std.specs.Prelude.{◌≡◌, ◌⊎◌, List, ℕ, map, All, Contains, Some, unwrap_or};
ghost use Rattle.std.specs.BTreeMap.{is_at};
ghost use Rattle.std.specs.Map.{keys_of, lookup};
ghost use Rattle.std.specs.List.Sorted.{IsStrictlySortedBy};
ghost use Rattle.cs_types.specs.declared.Key.{Key};
ghost use Rattle.cs_types.specs.declared.Value.{Value};
ghost use Rattle.cs_types.specs.Keys.{key_cmp};
ghost use Rattle.cs_model.specs.Changes.{Change, Edit, Table, laid, until, table};
ghost use Rattle.cs_model.specs.Steps.{staged};
ghost use Rattle.write_set.specs.declared.write.Write.{Write};
ghost use Rattle.write_set.specs.Writes as writes;
ghost use Rattle.edit_laws.specs.Edits.{edits_of};

/// The row of a key in a table with edits laid over it, the keys of both ascending: what the edits make of the key, and
/// where they have none of it, its row in the table.
pub fn laid_by_edits()
    ensures { (t : Table) (edits : List Edit) (key : Key) → IsStrictlySortedBy key_cmp (keys_of t) → IsStrictlySortedBy key_cmp (keys_of edits) → lookup (is_at (key_cmp key)) (laid t edits) ≡ unwrap_or (lookup (is_at (key_cmp key)) edits) (lookup (is_at (key_cmp key)) t) }
{}

/// Each row of a snapshot's table is what one of the changes numbered at most the snapshot made of its key, and each row
/// of a table with edits laid over it is one of the table or one of the edits.
pub fn rows_by_edits()
    ensures table { (changes : List Change) (s : ℕ) → All (λ (entry : Key × List Value). Contains (map (λ (change : Change). change.edit) (until s changes)) (entry.0, Some entry.1)) (table changes s) }
    ensures laid { (t : Table) (edits : List Edit) → All (λ (entry : Key × List Value). Contains t entry ⊎ Contains edits (entry.0, Some entry.1)) (laid t edits) }
{}

/// Writes that are staged are, as edits, the edits staged; and the keys of writes in the order of their keys ascend as
/// those of edits.
pub fn staged_as_edits()
    ensures staged { (own more : List Write) → edits_of (writes.staged own more) ≡ staged (edits_of own) (edits_of more) }
    ensures order { (own : List Write) → writes.Ascend own → IsStrictlySortedBy key_cmp (keys_of (edits_of own)) }
{}
