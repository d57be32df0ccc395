// What a seat knows, the rule that every step keeps, and what each step tells. Nothing here has a value when it runs.
use crate::stands::Stands;
use atomic_table::{Join, Play, Split, TableRule};
use std::collections::LinkedList;
use std::marker::{Brand, PhantomData};

/// What a seat knows of the history. No value of it is made.
pub struct View<E> {
    /// The ticket that it has drawn, counted on without end.
    pub ticket: Option<u64>,
    /// The history as it was when its ticket was served, while it has the turn.
    pub turn: Option<LinkedList<E>>,
    /// Each of its numbers, with the entries of that number.
    pub own: LinkedList<(u32, LinkedList<E>)>,
    /// The numbers that it may give away.
    pub reserve: LinkedList<u32>,
    /// The prefix of the history that it has seen.
    pub seen: LinkedList<E>,
}

/// The rule of a gate's table: it keeps one history.
pub struct HistoryRule<V> {
    of: PhantomData<V>,
}

impl<V: Stands> TableRule<Option<V>, View<V::Entry>, u32> for HistoryRule<V> {
    ghost use Rattle.history_gate.specs.Rule.{KeepsHistory};
    ghost use Rattle.history_gate.specs.Views.{founder};

    ghost holds = { λ seats table. KeepsHistory V.number V.list seats table };

    ghost first = { λ seats. founder seats };
}

/// A ticket is drawn.
pub(crate) struct Draw;

impl<V: Stands> Play<Option<V>, View<V::Entry>> for Draw {
    ghost use Rattle.history_gate.specs.Steps.{IsDrawn};

    ghost then = { IsDrawn };
}

/// The served number is read, and the slot is taken where it is the ticket's.
pub(crate) struct Look;

impl<V: Stands> Play<Option<V>, View<V::Entry>> for Look {
    ghost use Rattle.history_gate.specs.Steps.{IsLooked};

    ghost then = { IsLooked V.number V.list };
}

/// The turn ends, and the next ticket is served.
pub(crate) struct Serve;

impl<V: Stands> Play<Option<V>, View<V::Entry>> for Serve {
    ghost use Rattle.history_gate.specs.Steps.{IsServed};

    ghost then = { IsServed V.number V.list };
}

/// The number that a call of `split` is given, since a `Split` sees views alone.
pub(crate) trait Numbered {
    ghost use Rattle.std.specs.Prelude.{ℕ};

    ghost number: { ℕ };
}

impl Numbered for Brand {
    ghost number = { 0 };
}

/// One number of the reserve goes to a new view.
pub(crate) struct Cut<J> {
    of: PhantomData<J>,
}

impl<E, J: Numbered> Split<View<E>> for Cut<J> {
    ghost use Rattle.history_gate.specs.Views.{giving, given};

    ghost left = { giving J.number };

    ghost right = { given J.number };
}

/// Two views become one.
pub(crate) struct Unite;

impl<E> Join<View<E>> for Unite {
    ghost use Rattle.history_gate.specs.Views.{joined, spent};

    ghost both = { joined };

    ghost spent = { spent };
}
