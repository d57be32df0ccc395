// What a Finish does.
ghost use Rattle.std.specs.Prelude.{Option, ◌≡◌, ◌<◌, List, ℕ, IfOk, OnOk, OnErr, true, None, Some, []};
ghost use Rattle.cs_types.specs.declared.Schema.{Schema};
ghost use Rattle.cs_types.specs.Schemas.{IsSchema};
ghost use Rattle.cs_model.specs.declared.entry.Bound.{Bound};
ghost use Rattle.cs_model.specs.declared.entry.Bound.TheVariants as statement;
ghost use Rattle.cs_model.specs.declared.entry.Entry.TheVariants.{End};
ghost use Rattle.cs_model.specs.declared.kind.Kind.TheVariants as kind;
ghost use Rattle.cs_model.specs.declared.work.Actor.{Actor};
ghost use Rattle.cs_model.specs.Changes.{Change};
ghost use Rattle.cs_model.specs.Held.{AreFit};
ghost use Rattle.cs_model.specs.Kinds.{kind_of};
ghost use Rattle.cs_model.specs.State.{Half, Begin};
ghost use Rattle.cs_model.specs.Steps.{is_changed, ends_txn, refused, IsSegments, IsStep};
ghost use Rattle.cs_model.specs.Text.{IsPrintableReply};
ghost use Rattle.txn_table.specs.declared.txn.Txn.{Txn};
ghost use Rattle.txn_table.specs.Txns.{txn_of, depth_of};
ghost use Rattle.group_log.specs.Followed.{ShowsBook};
ghost use Rattle.group_directory.specs.Obstacles.{txn_in};
ghost use Rattle.group_directory.specs.Stands.{Stands};
ghost use Rattle.statement_core.specs.declared.started.Outcome.TheVariants as outcome;
ghost use Rattle.cs_model.specs.declared.entry.Reply.{Reply};
ghost use Rattle.statement_core.specs.CoreState.{halves_of, settings_of, state_of, groups_of, IsBare, IsWithin, IsStill};
ghost use Rattle.statement_core.specs.Outcomes.{needs_none};
ghost use Rattle.statement_core.specs.Reorganizes.{reorganizes};
ghost use Rattle.statement_core.specs.Outcomes as spec;
ghost use Rattle.statement_core.specs.Settled.{wrote_or, Settles, Ends, IsDoneAt, IsReadyAt, IsFinished};

use crate::core_state::{CoreState, deepen, is_told, open, roll_back, set_half, set_statistics};
use crate::started::Outcome;
use crate::writes::{commit_with, loaded, wrote};
use cs_base::Memory;
use cs_model::{Bound, Refusal, Reply};
use group_directory::Ledger;
use group_reports::{group_lines, segment_lines};
use group_view::Parcel;
use std::alloc::Global;

/// The deepest that BEGINs are nested.
const DEEPEST: u32 = 32;

fn is_changed(refusal: Refusal) -> bool
    ensures { result ≡ is_changed refusal }
{
    match refusal {
        Refusal::Changed { .. } => true,
        Refusal::Reading { .. }
        | Refusal::Valued { .. }
        | Refusal::Locked { .. }
        | Refusal::Duplicate { .. }
        | Refusal::NoTxn { .. }
        | Refusal::Memory => false,
    }
}

/// Whether a refusal ends a transaction so deep.
fn ends_txn(depth: Option<u32>, refusal: Refusal) -> bool
    ensures { (txn : Option Txn) → depth ≡ depth_of txn → result ≡ ends_txn (txn_in txn) refusal }
{
    match depth {
        Some(depth) => depth == 0 || is_changed(refusal),
        None => false,
    }
}

/// A refusal, and what it leaves.
pub fn refuse(held: &mut CoreState, session: u32, refusal: Refusal) -> Reply
    requires { session < 65 }
    ensures reply { result ≡ Reply.Refused refusal }
    ensures state { (changes : List Change) → state_of changes held.new ≡ refused (state_of changes held.old) session refusal }
    ensures still { IsStill held.old held.new }
{
    if ends_txn(held.directory.depth(session), refusal) {
        roll_back(held, session);
    }
    Reply::Refused(refusal)
}

/// The Finish of a BEGIN.
fn begin(held: &mut CoreState, session: u32) -> Reply
    requires { IsWithin held.old session }
    ensures settles { (schema : Schema) (changes : List Change) (half : Half) → Settles schema (state_of changes held.old) session (record half { bound = statement.Begin }) result (state_of changes held.new) }
    ensures still { IsStill held.old held.new }
{
    let Some(depth) = held.directory.depth(session) else {
        open(held, session, 1);
        return Reply::Done;
    };
    if depth < DEEPEST {
        deepen(held, session, depth + 1);
        return Reply::Done;
    }
    let refusal = Refusal::Reading {
        number: 50_001,
        at: 1,
    };
    refuse(held, session, refusal)
}

/// The Finish of a ROLLBACK.
fn rollback(held: &mut CoreState, session: u32) -> Reply
    requires { session < 65 }
    ensures settles { (schema : Schema) (changes : List Change) (half : Half) → Settles schema (state_of changes held.old) session (record half { bound = statement.Rollback }) result (state_of changes held.new) }
    ensures still { IsStill held.old held.new }
{
    if held.directory.depth(session).is_none() {
        return refuse(held, session, Refusal::NoTxn { number: 3903 });
    }
    roll_back(held, session);
    Reply::Done
}

/// The Finish of a SET of STATISTICS IO. It is no part of a transaction.
fn statistics(held: &mut CoreState, session: u32, on: bool) -> Reply
    requires { session < 65 }
    ensures settles { (schema : Schema) (changes : List Change) (half : Half) → Settles schema (state_of changes held.old) session (record half { bound = statement.Statistics on }) result (state_of changes held.new) }
    ensures still { IsStill held.old held.new }
{
    set_statistics(held, session, on);
    Reply::Done
}

/// The Finish of the report on row groups: what they are now, whatever the session's snapshot.
fn group_report(held: &mut CoreState, session: u32) -> Reply
    requires session { session < 65 }
    requires stands { (changes : List Change) × Stands held.old.directory changes }
    ensures settles { (schema : Schema) (changes : List Change) (half : Half) → Settles schema (state_of changes held.old) session (record half { bound = statement.GroupReport }) result (state_of changes held.new) }
    ensures shows { (schema : Schema) (changes : List Change) → ShowsBook schema changes (groups_of held.old) result }
    ensures still { IsStill held.old held.new }
{
    match held.directory.ledger() {
        Ok(
            Ledger {
                lines,
                buffered,
                ..
            },
        ) => group_lines(lines, buffered),
        Err(_) => refuse(held, session, Refusal::Memory),
    }
}

/// The report on the segments of this moment. After `Memory` nothing that is read has changed.
fn look_at_segments(alloc: Global, held: &mut CoreState) -> Result<Reply, Memory>
    requires table { IsSchema held.old.directory.schema.value }
    requires stands { (changes : List Change) × Stands held.old.directory changes }
    ensures report { IfOk result IsSegments }
    ensures shows { IfOk result (λ reply. (changes : List Change) → Stands held.old.directory changes → ShowsBook held.old.directory.schema.value changes (groups_of held.old) reply) }
    ensures printable { IfOk result (λ reply. (changes : List Change) → Stands held.old.directory changes → AreFit held.old.directory.schema.value changes → IsPrintableReply held.old.directory.schema.value reply) }
    ensures state { (changes : List Change) → state_of changes held.new ≡ state_of changes held.old }
    ensures still { IsStill held.old held.new }
{
    let view = held.directory.look()?;
    segment_lines(alloc, &held.directory.schema, &view)
}

/// The Finish of the report on segments: how they are kept now, whatever the session's snapshot.
fn segment_report(alloc: Global, held: &mut CoreState, session: u32) -> Reply
    requires session { session < 65 }
    requires table { IsSchema held.old.directory.schema.value }
    requires stands { (changes : List Change) × Stands held.old.directory changes }
    ensures settles { (schema : Schema) (changes : List Change) (half : Half) → Settles schema (state_of changes held.old) session (record half { bound = statement.SegmentReport }) result (state_of changes held.new) }
    ensures shows { (changes : List Change) → Stands held.old.directory changes → ShowsBook held.old.directory.schema.value changes (groups_of held.old) result }
    ensures printable { (changes : List Change) → Stands held.old.directory changes → AreFit held.old.directory.schema.value changes → IsPrintableReply held.old.directory.schema.value result }
    ensures still { IsStill held.old held.new }
{
    match look_at_segments(alloc, held) {
        Ok(reply) => reply,
        Err(_) => refuse(held, session, Refusal::Memory),
    }
}

/// The Finish of a statement that needed no work: none of the table, and no COMMIT.
fn plain(alloc: Global, held: &mut CoreState, session: u32, bound: &Bound) -> Reply
    requires within { IsWithin held.old session }
    requires table { IsSchema held.old.directory.schema.value }
    requires stands { (changes : List Change) × Stands held.old.directory changes }
    requires none { needs_none bound.now ≡ true }
    requires over { reorganizes bound.now ≡ None }
    ensures settles { (schema : Schema) (changes : List Change) (half : Half) → Settles schema (state_of changes held.old) session (record half { bound = bound.now }) result (state_of changes held.new) }
    ensures shows { (changes : List Change) → Stands held.old.directory changes → kind_of bound.now ≡ kind.Report → ShowsBook held.old.directory.schema.value changes (groups_of held.old) result }
    ensures printable { (changes : List Change) → Stands held.old.directory changes → AreFit held.old.directory.schema.value changes → bound.now ≡ statement.SegmentReport → IsPrintableReply held.old.directory.schema.value result }
    ensures still { IsStill held.old held.new }
{
    match bound {
        Bound::Begin => begin(held, session),
        Bound::Rollback => rollback(held, session),
        Bound::Nothing => Reply::Done,
        Bound::Statistics(on) => statistics(held, session, *on),
        Bound::GroupReport => group_report(held, session),
        Bound::SegmentReport => segment_report(alloc, held, session),
        Bound::Refused(refusal) => refuse(held, session, *refusal),
        Bound::Commit
        | Bound::Insert(_)
        | Bound::Update(_)
        | Bound::Delete(_)
        | Bound::Select(_)
        | Bound::Reorganize { .. } => unreachable!(),
    }
}

/// A reply as its session is told it: without counts of segments where that is off.
fn told(on: bool, reply: Reply) -> Reply
    ensures { result ≡ spec.told on reply }
{
    match reply {
        Reply::Rows { rows, segments } => Reply::Rows {
            rows,
            segments: if on { segments } else { None },
        },
        other => other,
    }
}

/// The Finish of a statement whose work gave its reply. An implicit transaction has written nothing, so it is over.
fn answered(held: &mut CoreState, session: u32, reply: Reply) -> Reply
    requires session { session < 65 }
    requires bare { IsBare (txn_in (txn_of held.old.directory.txns session)) }
    ensures reply { result ≡ spec.told (settings_of held.old.settings session) reply }
    ensures state { (changes : List Change) → state_of changes held.new ≡ wrote_or (state_of changes held.old) session [] reply }
    ensures still { IsStill held.old held.new }
{
    if let Reply::Refused(refusal) = reply {
        return refuse(held, session, refusal);
    }
    let answer = told(is_told(held, session), reply);
    if held.directory.depth(session) == Some(0) {
        roll_back(held, session);
    }
    answer
}

/// The Finish of a COMMIT.
fn unwind(held: &mut CoreState, session: u32, parcel: Parcel) -> Reply
    requires within { IsWithin held.old session }
    requires done { (begin : Begin) × (changes : List Change) × (half : Half) × IsDoneAt begin changes held.old session (record half { bound = statement.Commit }) (outcome.Commit parcel) }
    ensures { (begin : Begin) (changes : List Change) (half : Half) → IsDoneAt begin changes held.old session (record half { bound = statement.Commit }) (outcome.Commit parcel)
        → Ends begin.schema changes held.old session (record half { bound = statement.Commit }) result held.new }
{
    let Some(depth) = held.directory.depth(session) else {
        return refuse(held, session, Refusal::NoTxn { number: 3902 });
    };
    if depth > 1 {
        deepen(held, session, depth - 1);
        return Reply::Done;
    }
    commit_with(held, session, parcel, Reply::Done)
}

/// The Finish of a statement whose work gave this outcome.
fn settle(
    alloc: Global,
    held: &mut CoreState,
    session: u32,
    bound: &Bound,
    outcome: Outcome,
) -> Reply
    requires within { IsWithin held.old session }
    requires table { IsSchema held.old.directory.schema.value }
    requires done { (begin : Begin) × (changes : List Change) × (half : Half) × IsDoneAt begin changes held.old session (record half { bound = bound.now }) outcome }
    ensures ends { (begin : Begin) (changes : List Change) (half : Half) → IsDoneAt begin changes held.old session (record half { bound = bound.now }) outcome
        → Ends begin.schema changes held.old session (record half { bound = bound.now }) result held.new }
    ensures printable { (changes : List Change) → Stands held.old.directory changes → AreFit held.old.directory.schema.value changes → bound.now ≡ statement.SegmentReport → IsPrintableReply held.old.directory.schema.value result }
    ensures short { outcome ≡ Outcome.Short → result ≡ Reply.Refused Refusal.Memory }
    ensures given { (given : Reply) → outcome ≡ Outcome.Answer given → result ≡ spec.told (settings_of held.old.settings session) given }
    ensures left { (groups : List (ℕ × Actor)) → result ≡ Reply.Left groups → outcome ≡ Outcome.Left groups }
    ensures tells { (groups : List (ℕ × Actor)) → outcome ≡ Outcome.Left groups → result ≡ Reply.Left groups }
{
    match outcome {
        Outcome::Nothing => plain(alloc, held, session, bound),
        Outcome::Answer(reply) => answered(held, session, reply),
        Outcome::Writes {
            writes,
            present,
            affected,
            parcel,
        } => wrote(alloc, held, session, writes, present, affected, parcel),
        Outcome::Load { keys, parcel } => loaded(held, session, keys, parcel),
        Outcome::Commit(parcel) => unwind(held, session, parcel),
        Outcome::Left(groups) => Reply::Left(groups),
        Outcome::Short => refuse(held, session, Refusal::Memory),
    }
}

/// A Finish, but for its entry.
pub fn finish(alloc: Global, held: &mut CoreState, session: u32, outcome: Outcome) -> Reply
    requires within { IsWithin held.old session }
    requires table { IsSchema held.old.directory.schema.value }
    requires done { (begin : Begin) × (changes : List Change) × IsReadyAt begin changes held.old session outcome }
    ensures finished { (begin : Begin) (changes : List Change) → IsReadyAt begin changes held.old session outcome → IsFinished begin changes held.old session result held.new }
    ensures printable { (changes : List Change) (half : Half) → Stands held.old.directory changes → AreFit held.old.directory.schema.value changes → halves_of held.old.halves session ≡ Some half → half.bound ≡ statement.SegmentReport → IsPrintableReply held.old.directory.schema.value result }
    ensures short { outcome ≡ Outcome.Short → result ≡ Reply.Refused Refusal.Memory }
    ensures given { (given : Reply) → outcome ≡ Outcome.Answer given → result ≡ spec.told (settings_of held.old.settings session) given }
    ensures left { (groups : List (ℕ × Actor)) → result ≡ Reply.Left groups → outcome ≡ Outcome.Left groups }
    ensures tells { (groups : List (ℕ × Actor)) → outcome ≡ Outcome.Left groups → result ≡ Reply.Left groups }
{
    match set_half(held, session, None) {
        Some(half) => settle(alloc, held, session, &half.bound, outcome),
        None => unreachable!(),
    }
}

/// An End, but for its entry.
pub fn end(held: &mut CoreState, session: u32)
    requires within { session < 65 }
    requires rests { halves_of held.old.halves session ≡ None }
    ensures step { (begin : Begin) (changes : List Change) → IsStep begin (state_of changes held.old) (End session) (state_of changes held.new) }
    ensures still { IsStill held.old held.new }
{
    if held.directory.depth(session).is_some() {
        roll_back(held, session);
    }
}
