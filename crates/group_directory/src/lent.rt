// Laws by which what claims have lent stays as it was. Each function here does nothing: its contract is a law that is proved.
ghost use Rattle.std.specs.Prelude.{◌≡◌, ℕ, List, filter, not, All, Contains, false};
ghost use Rattle.cs_types.specs.declared.Key.{Key};
ghost use Rattle.cs_model.specs.declared.work.Actor.{Actor};
ghost use Rattle.cs_model.specs.Changes.{Change};
ghost use Rattle.group_book.specs.Book.{Version, Choice, Claim, Book};
ghost use Rattle.group_book.specs.Commits.{after_ends, after_loads, after_rest};
ghost use Rattle.group_book.specs.Turns.{same_actor, is_by, after_claim, after_flush_claim, installed_with, after_flush, after_release, after_clear, after_settle, after_close};
ghost use Rattle.group_book.specs.Invariant.{IsBookOf};
ghost use Rattle.group_view.specs.declared.claim.Claim as view;
ghost use Rattle.group_view.specs.Books.{claim_of, StandsAsLent};
ghost use Rattle.group_directory.specs.Claiming.{IsShareOf};
ghost use Rattle.group_directory.specs.Lent.{GroupsStay};

/// A claimed group is changed by its claim's install alone: the groups of a claim are the same after a commit, whatever its
/// keys and its direct loads are; after a close; after a new claim; after the install of another actor's claim, whatever
/// versions its new group has; and after a release, a clear and a settle.
pub fn claimed_groups_stay()
    ensures commit { (group_rows size c floor : ℕ) (book : Book) (changes : List Change) (claim : Claim) (replaced rest : List Key) (loads : List (List Key)) → IsBookOf group_rows book changes floor
        → Contains book.claims claim → GroupsStay claim.sources book (after_rest size c rest (after_loads c loads (after_ends replaced c book))) }
    ensures close { (group_rows floor : ℕ) (book : Book) (changes : List Change) (claim : Claim) → IsBookOf group_rows book changes floor → Contains book.claims claim
        → GroupsStay claim.sources book (after_close book) }
    ensures claim { (group_rows floor at : ℕ) (book : Book) (changes : List Change) (claim : Claim) (actor : Actor) (choice : Choice) (sources : List ℕ) → IsBookOf group_rows book changes floor
        → Contains book.claims claim → GroupsStay claim.sources book (after_claim actor choice sources at book) }
    ensures flush_claim { (book : Book) (at : ℕ) (claim : Claim) (actor : Actor) (sources : List ℕ) → GroupsStay claim.sources book (after_flush_claim actor sources at book) }
    ensures install { (group_rows floor : ℕ) (book : Book) (changes : List Change) (claim other : Claim) (versions : List Version) → IsBookOf group_rows book changes floor → Contains book.claims claim
        → Contains book.claims other → is_by claim.actor other ≡ false → GroupsStay other.sources book (installed_with versions claim book) }
    ensures flush { (group_rows floor : ℕ) (book : Book) (changes : List Change) (claim other : Claim) → IsBookOf group_rows book changes floor → Contains book.claims claim
        → Contains book.claims other → is_by claim.actor other ≡ false → GroupsStay other.sources book (after_flush claim book) }
    ensures release { (group_rows floor : ℕ) (book : Book) (changes : List Change) (claim other : Claim) → IsBookOf group_rows book changes floor → Contains book.claims claim
        → Contains book.claims other → GroupsStay other.sources book (after_release claim book) }
    ensures clear { (group_rows floor : ℕ) (book : Book) (changes : List Change) (claim : Claim) → IsBookOf group_rows book changes floor → Contains book.claims claim
        → GroupsStay claim.sources book (after_clear book) }
    ensures settle { (book : Book) (at : ℕ) (claim : Claim) → Contains book.claims claim → GroupsStay claim.sources book (after_settle at book) }
{}

/// Claims stand in another book as they were lent, where their groups are the same there: all claims of a list; those that stay
/// where an actor's go; and a share of a claim.
pub fn lent_groups_stand()
    ensures all { (before after : Book) (claims : List (Actor × view.Claim)) → All (λ held. GroupsStay (claim_of held).sources before after) claims → All (StandsAsLent before) claims
        → All (StandsAsLent after) claims }
    ensures others { (before after : Book) (claims : List (Actor × view.Claim)) (actor : Actor) → All (λ held. same_actor held.0 actor ≡ false → GroupsStay (claim_of held).sources before after) claims
        → All (StandsAsLent before) claims → All (StandsAsLent after) (filter (λ held. not (same_actor held.0 actor)) claims) }
    ensures share { (book : Book) (actor : Actor) (claim other : view.Claim) → IsShareOf claim other → StandsAsLent book (actor, claim) → StandsAsLent book (actor, other) }
{}
