// The choice of a turn.
ghost use Rattle.std.specs.Prelude.{◌≡◌, All};
ghost use Rattle.group_book.specs.Choices.{allowed, choice, choices, first_some};
ghost use Rattle.group_view.specs.Books.{book_of, choice_of};
ghost use Rattle.group_view.specs.Lists.{IsFittingContent, IsHeld};

use crate::claim::Choice;
use crate::flushes::has_flushable;
use crate::groups::GroupList;
use crate::lowest::{has_settling, has_tombstone, lowest_closed, lowest_thin};
use crate::pairs::first_pair;
use cs_model::Actor;

/// The greatest id that a group may have.
const GREATEST_ID: u64 = 1 << 62;

/// The first of the seven choices that there is.
fn first_choice(list: &GroupList, floor: u64, group_rows: u64) -> Choice
    requires { All (λ group. IsFittingContent group.content) list.now.groups.items }
    ensures { choice_of result ≡ first_some (choices floor group_rows (book_of list.now)) }
{
    if let Some(source) = lowest_closed(list) {
        return Choice::Compress(source);
    }
    if has_flushable(list) {
        return Choice::Flush;
    }
    if let Some(source) = lowest_thin(list, floor) {
        return Choice::Rebuild(source);
    }
    if let Some((first, second)) = first_pair(list, floor, group_rows) {
        return Choice::Merge(first, second);
    }
    if has_settling(list, floor) {
        return Choice::Settle;
    }
    if has_tombstone(list) {
        return Choice::Clear;
    }
    Choice::Idle
}

/// The choice as an actor may make it: none that draws an id above 2^62, and of a session none that settles or clears.
fn allowed(next: u64, actor: Actor, choice: Choice) -> Choice
    ensures { choice_of result ≡ allowed next actor (choice_of choice) }
{
    match choice {
        Choice::Compress(_) | Choice::Rebuild(_) | Choice::Merge(..) => {
            if next <= GREATEST_ID {
                choice
            } else {
                Choice::Idle
            }
        }
        Choice::Settle | Choice::Clear => match actor {
            Actor::Session(_) => Choice::Idle,
            Actor::Mover(_) => choice,
        },
        Choice::Flush | Choice::Idle => choice,
    }
}

/// What the turn of an actor does: the first of the seven choices that there is, over the groups that no claim has. It takes no
/// memory. The choices are those of a tuple mover (Larson et al., PVLDB 2015, section 4): compress the lowest CLOSED group;
/// flush; rebuild the lowest COMPRESSED group of which a tenth had ended at `floor`; merge the first pair of them that fits
/// `group_rows` versions; settle; clear; idle. It is `Idle` where the id of the group that it makes would pass 2^62, and where a
/// session would settle or clear.
pub fn next_work(list: &GroupList, floor: u64, group_rows: u64, actor: Actor) -> Choice
    requires { IsHeld list.now }
    ensures { choice_of result ≡ choice floor group_rows actor (book_of list.now) }
{
    allowed(list.next, actor, first_choice(list, floor, group_rows))
}
