// Laws of the definitions.
ghost use Rattle.std.specs.Prelude.{◌≡◌, ◌<◌, ◌≤ℤ◌, ◌+ℤ◌, ◌*ℤ◌, ◌↔◌, pos, int_div, int_rem, unsigned_abs, List, ℕ, ℤ, IsTrue};
ghost use Rattle.std.specs.BTreeMap.{is_at};
ghost use Rattle.std.specs.Map.{keys_of, lookup};
ghost use Rattle.std.specs.List.Sorted.{IsStrictlySortedBy};
ghost use Rattle.cs_types.specs.declared.Key.{Key};
ghost use Rattle.cs_types.specs.Keys.{key_cmp};
ghost use Rattle.cs_model.specs.Likes.{Like, is_like};
ghost use Rattle.cs_model.specs.Changes.{Change, table, last_change, made};

/// The table of a snapshot is the list by key of each key whose last change numbered at most the snapshot has a row, with
/// that row.
pub fn table_by_last_change()
    ensures ascends { (changes : List Change) (s : ℕ) → IsStrictlySortedBy key_cmp (keys_of (table changes s)) }
    ensures rows { (changes : List Change) (s : ℕ) (key : Key) → lookup (is_at (key_cmp key)) (table changes s) ≡ made (last_change key s changes) }
{}

/// The test, which the truth of LIKE is defined by, tells exactly whether a text is like a pattern.
pub fn like_is_tested()
    ensures { (pattern text : List ℕ) → IsTrue (is_like pattern text) ↔ Like pattern text }
{}

/// The quotient, times the right side, and the remainder make the left side. The remainder is less than the right side in
/// size, and not of the other sign than the left side: so the quotient is cut toward zero.
pub fn quotient_is_cut()
    ensures whole { (a b : ℤ) → int_div a b *ℤ b +ℤ int_rem a b ≡ a }
    ensures small { (a b : ℤ) → 0 < unsigned_abs b → unsigned_abs (int_rem a b) < unsigned_abs b }
    ensures above { (a b : ℤ) → pos 0 ≤ℤ a → pos 0 ≤ℤ int_rem a b }
    ensures below { (a b : ℤ) → a ≤ℤ pos 0 → int_rem a b ≤ℤ pos 0 }
{}
