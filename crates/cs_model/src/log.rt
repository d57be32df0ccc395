// The text of a log.
ghost use Rattle.std.specs.Prelude.{◌≡◌, ◌+◌, ◌<◌, ◌^◌, ℕ, length, All, IfOk, OnOk};
ghost use Rattle.cs_model.specs.Actors.{number_of, actor_of};
ghost use Rattle.cs_model.specs.State.{begin_of};
ghost use Rattle.cs_model.specs.Text.{text, IsPrintableEntry};
ghost use Rattle.cs_model.specs.Places.{place_in, start_added};

use crate::entry::Entry;
use crate::print::append_entry;
use crate::work::Actor;
use cs_base::{Items, Memory};
use cs_types::{Line, Schema};
use std::alloc::Global;

/// How many statements each actor began: its count stands at the place of its number, and it has begun none past the end.
type Places = Items<u64>;

/// How many statements an actor began.
fn place_of(places: &Places, actor: usize) -> u64
    ensures { result ≡ place_in places.now actor }
{
    match places.get(actor) {
        Some(place) => *place,
        None => 0,
    }
}

/// Gives each session up to this one a place. No count changes.
fn reach(places: &mut Places, session: u32) -> Result<(), Memory>
    ensures long { OnOk result (session < length places.new) }
    ensures counts { OnOk result ((actor : ℕ) → place_in places.new actor ≡ place_in places.old actor) }
{
    for _ in places.len()..session as usize + 1 {
        places.push(0)?;
    }
    Ok(())
}

/// The number of an actor: that of a session, or 64 and that of a mover.
fn number_of(actor: Actor) -> usize
    ensures { result ≡ number_of actor }
{
    match actor {
        Actor::Session(number) => number as usize,
        Actor::Mover(number) => 64 + number as usize,
    }
}

/// Counts an entry, and answers the place of its statement in its session.
fn count(places: &mut Places, entry: &Entry) -> Result<u64, Memory>
    requires { place_in places.old (actor_of entry.now) + 1 < 2 ^ 64 }
    ensures counts { OnOk result ((session : ℕ) → place_in places.new session ≡ place_in places.old session + start_added entry.now session) }
    ensures place { IfOk result (λ place. place ≡ place_in places.new (actor_of entry.now)) }
{
    match entry {
        Entry::Start { session, .. } => {
            reach(places, *session)?;
            let at = *session as usize;
            let place = *places.at(at) + 1;
            places.replace(at, place);
            Ok(place)
        }
        Entry::Finish { session, .. } => Ok(place_of(places, *session as usize)),
        Entry::End { session } => Ok(place_of(places, *session as usize)),
        Entry::Mover { actor, .. } => Ok(place_of(places, number_of(*actor))),
    }
}

/// The text of a log: the text of each event in turn, whose number counts all events from 1, and whose place counts the
/// statements of its session.
pub fn print_log(alloc: Global, schema: &Schema, log: &[Entry]) -> Result<Line, Memory>
    requires { All (IsPrintableEntry schema.now) log.now }
    ensures { IfOk result (λ line. line ≡ text (begin_of schema.now) log.now) }
{
    let mut line = Line::new(alloc);
    let mut places = Items::new(alloc);
    for (i, entry) in log.iter().enumerate() {
        let place = count(&mut places, entry)?;
        append_entry(schema, i as u64 + 1, place, entry, &mut line)?;
    }
    Ok(line)
}
