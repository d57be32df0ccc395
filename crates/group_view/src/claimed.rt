// Which groups some claim works on.
ghost use Rattle.std.specs.Prelude.{◌≡◌, ◌==◌, ℕ, map};
ghost use Rattle.std.specs.List.{list_any};
ghost use Rattle.group_book.specs.Book.{Group};
ghost use Rattle.group_book.specs.Turns.{is_claimed};
ghost use Rattle.cs_model.specs.declared.work.Actor.{Actor};
ghost use Rattle.group_view.specs.declared.claim.Claim.{Claim};
ghost use Rattle.group_view.specs.declared.parts.GroupPart.{GroupPart};
ghost use Rattle.group_view.specs.Books.{claim_of};

use crate::claim::Claim;
use cs_model::Actor;

/// Whether the claim works on the group of this id.
fn is_source(claim: &Claim, id: u64) -> bool
    ensures { result ≡ list_any (λ (group : ℕ × GroupPart). group.0 == id) claim.now.view.groups }
{
    claim.view.has(id)
}

/// Whether one of the claims works on the group of this id.
fn is_sourced(claims: &[(Actor, Claim)], id: u64) -> bool
    ensures { result ≡ list_any (λ (held : Actor × Claim). list_any (λ (group : ℕ × GroupPart). group.0 == id) held.1.view.groups) claims.now }
{
    claims.iter().any(|held| is_source(&held.1, id))
}

/// Whether some claim works on the group of this id. Claims are few: an actor has at most one.
pub fn is_claimed(claims: &[(Actor, Claim)], id: u64) -> bool
    ensures { (group : Group) → group.id ≡ id → result ≡ is_claimed (map claim_of claims.now) group }
{
    is_sourced(claims, id)
}
