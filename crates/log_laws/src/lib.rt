//! Laws of legal logs, over the row model of `cs_model`: what holds of the state that a legal log leads to, and what a
//! session that has begun a statement knows of it, whatever the others do meanwhile.
//!
//! Each function here does nothing: its contract is a law that is proved, for a log that begins with any state that meets
//! it. The lemmas below them, by which the core that runs transactions keeps its own promises, stand in proofs/. It stands on
//! `cs_model`.
#![tactic(auto)]

ghost use Rattle.std.specs.Prelude.{◌≡◌, ◌+◌, ◌*◌, ◌≤◌, ℕ, List, [], ◌∷◌, ◌++◌, length, Contains, Option, None, Bool, true, false};
ghost use Rattle.std.specs.declared.sync.Arc.{Arc};
ghost use Rattle.std.specs.declared.alloc.Global.{Global};
ghost use Rattle.cs_types.specs.declared.Schema.{Schema};
ghost use Rattle.cs_model.specs.declared.entry.Bound.{Bound};
ghost use Rattle.cs_model.specs.declared.entry.Entry.{Entry};
ghost use Rattle.cs_model.specs.declared.entry.Entry.TheVariants.{Start, Finish, End};
ghost use Rattle.cs_model.specs.declared.entry.Reply.{Reply};
ghost use Rattle.cs_model.specs.Actors.{entries_of, turns_of, is_begun, has_ended, owed};
ghost use Rattle.cs_model.specs.Changes.{table};
ghost use Rattle.cs_model.specs.Floors.{IsFloor, snapshots};
ghost use Rattle.cs_model.specs.State.{State, Begin, begin_of};
ghost use Rattle.cs_model.specs.Steps.{IsStep, Legal};
ghost use Rattle.log_laws.specs.Frames.{Frames};
ghost use Rattle.log_laws.specs.Laws.{AreDistinct, IsSound, MayBegin};
ghost use Rattle.log_laws.specs.Started.{Begun, Starts, IsStarted};

/// A legal log leads to one state from what it begins with: the events alone decide what is committed, open and half done.
pub fn one_state()
    ensures { (begin : Begin) (log : List Entry) (a b : State) → Legal begin log a → Legal begin log b → a ≡ b }
{}

/// What each event does, whatever its kind: it changes the transaction, the half-done statement and the setting of its own actor
/// alone, and adds to the changes those of one commit, under the number after the clock, or none; the clock rises by one at
/// most, and by one where there is a commit.
pub fn framed_events()
    ensures { (begin : Begin) (m after : State) (entry : Entry) → IsStep begin m entry after → Frames m entry after }
{}

/// What the state of every legal log meets, kept by each event: no two open transactions own one key; own writes are by key,
/// one for each key, by a transaction with a snapshot, and no key of theirs has a change above it; a commit changes a key
/// once; commit numbers ascend along the changes, and are at most the clock, as snapshots are; numbers of transactions are
/// below the next one.
pub fn sound_states()
    ensures starts { (schema : Schema) → MayBegin (begin_of schema) }
    ensures step { (begin : Begin) (m after : State) (entry : Entry) → IsSound m → IsStep begin m entry after → IsSound after }
    ensures log { (begin : Begin) (log : List Entry) (m : State) → IsSound begin.state → Legal begin log m → IsSound m }
{}

/// Numbers of transactions and of commits never pass those that a log begins with by more than its length, and never fall.
pub fn numbers_within_log()
    ensures next { (begin : Begin) (log : List Entry) (m : State) → Legal begin log m → m.next ≤ begin.state.next + length log }
    ensures clock { (begin : Begin) (log : List Entry) (m : State) → Legal begin log m → m.clock ≤ begin.state.clock + length log }
    ensures later { (begin : Begin) (log : List Entry) (m : State) → Legal begin log m → begin.state.clock ≤ m.clock }
{}

/// The table of a snapshot stays whatever is committed later.
pub fn table_stays()
    ensures { (begin : Begin) (log rest : List Entry) (m after : State) (s : ℕ) → Legal begin log m → Legal begin (log ++ rest) after → s ≤ m.clock → table after.changes s ≡ table m.changes s }
{}

/// At most one number is the floor of a state, and it never falls along a log.
pub fn floor_stays()
    ensures one { (taken : ℕ → Option ℕ) (clock a b : ℕ) → IsFloor taken clock a → IsFloor taken clock b → a ≡ b }
    ensures rises { (begin : Begin) (log rest : List Entry) (m after : State) (floor later : ℕ) → IsSound begin.state → Legal begin log m → Legal begin (log ++ rest) after
        → IsFloor (snapshots m) m.clock floor → IsFloor (snapshots after) after.clock later → floor ≤ later }
{}

/// What a session has begun stays through all entries but its own Starts, Finishes and End: its statement is half done, and
/// its work stands on the same snapshot and the same own writes, whatever others begin, commit or end meanwhile, and whatever
/// becomes of the row groups. A Start gives it.
pub fn started_stays()
    ensures starts { (begin : Begin) (log : List Entry) (m after : State) (session : ℕ) (b : Arc Bound Global) (begun : Begun) → Legal begin log m → m.half session ≡ None
        → b.value ≡ begun.bound → Starts begin m session begun after → IsStarted begin (log ++ Start session b begun.short ∷ []) session begun }
    ensures stays { (begin : Begin) (log rest : List Entry) (session : ℕ) (begun : Begun) → turns_of session rest ≡ []
        → IsStarted begin log session begun → IsStarted begin (log ++ rest) session begun }
{}

/// The entries that sessions owe: a Start adds its Finish to them, and a Finish and an End take themselves away. So a log
/// with room for what is owed can take each Finish and each End without more memory.
pub fn owed_entries()
    ensures starts { (sessions : List ℕ) (log : List Entry) (session : ℕ) (b : Arc Bound Global) (short : Bool) → AreDistinct sessions → Contains sessions session
        → is_begun (entries_of session log) ≡ false → owed (log ++ Start session b short ∷ []) sessions ≡ owed log sessions + 1 }
    ensures finishes { (sessions : List ℕ) (log : List Entry) (session : ℕ) (reply : Reply) → AreDistinct sessions → Contains sessions session
        → is_begun (entries_of session log) ≡ true → owed (log ++ Finish session reply ∷ []) sessions + 1 ≡ owed log sessions }
    ensures ends { (sessions : List ℕ) (log : List Entry) (session : ℕ) → AreDistinct sessions → Contains sessions session → is_begun (entries_of session log) ≡ false
        → has_ended (entries_of session log) ≡ false → owed (log ++ End session ∷ []) sessions + 1 ≡ owed log sessions }
    ensures most { (sessions : List ℕ) (log : List Entry) → owed log sessions ≤ 2 * length sessions }
{}
