// Reads a script.
ghost use Rattle.std.specs.Prelude.{◌≡◌, ◌≤◌, ◌<◌, ◌+◌, ℕ, List, [], ◌∷◌, ◌++◌, length, All, IfOk, IfErr, OnOk, MatchResult, slice_index_or, true, false, None, Some};
ghost use Rattle.cs_model.specs.declared.work.Actor.{Actor};
ghost use Rattle.cs_types.specs.declared.Schema.{Schema};
ghost use Rattle.script_reader.specs.declared.script.Mode.{Mode};
ghost use Rattle.script_reader.specs.declared.script.Script.{Script};
ghost use Rattle.script_reader.specs.declared.script.Step.{Step};
ghost use Rattle.script_reader.specs.Lines.{lines, form_of};
ghost use Rattle.script_reader.specs.Scripts as spec;
ghost use Rattle.script_reader.specs.Scripts.{taken_by, half_done, sessions_of, is_named, setups, steps_of, reason_behind, IsScript, RefusesScript, IsRunnable};
ghost use Rattle.script_reader.specs.Reading.{IsShort, HasPlace, IsPlaced, AreMarked, IsOnlyTable, IsRead, RefusesLine, RefusesSetup};

use crate::form::{Form, form_of};
use crate::line::line_reason;
use crate::lines::next_line;
use crate::script::{Mode, Script, ScriptRefusal, Step};
use cs_base::{Items, Memory};
use cs_model::Actor;
use cs_types::Schema;
use std::alloc::Global;
use tsql_create::read_table;
use tsql_exprs::ReadRefusal;

/// The greatest number of a session.
const MOST_SESSION: u32 = 64;

/// A place for each session's number, and for 0.
const SESSION_PLACES: usize = 65;

/// The greatest number of a mover.
const MOST_MOVER: u32 = 8;

/// A place for each mover's number, and for 0.
const MOVER_PLACES: usize = 9;

/// A line of no form.
const NO_FORM: u32 = 1;

/// No setup line where the first one has to be, or a second one.
const SETUP: u32 = 2;

/// A step that the mode does not have.
const OTHER_STEP: u32 = 3;

/// A session that is not 1 to 64, or a mover that is not 1 to 8.
const OTHER_ACTOR: u32 = 4;

/// The end of a statement or a turn without its beginning, or a beginning after which the end is missing.
const UNPAIRED: u32 = 7;

/// A setup statement that is refused.
const REFUSED_SETUP: u32 = 8;

/// What is half done: a session's statement, or a mover's turn. A session and a mover of one number have each a place.
#[derive(Debug, Drop)]
struct HalfDone {
    /// Whether a session has a statement half done, at its number.
    sessions: [bool; SESSION_PLACES],
    /// Whether a mover has a turn half done, at its number.
    movers: [bool; MOVER_PLACES],
}

impl HalfDone {
    /// After no step.
    fn none() -> HalfDone
        ensures { AreMarked result [] }
    {
        HalfDone {
            sessions: [false; SESSION_PLACES],
            movers: [false; MOVER_PLACES],
        }
    }

    /// Marks what is half done after one more step.
    fn mark(&mut self, step: &Step)
        requires { HasPlace (taken_by step.now) }
        ensures { (steps : List Step) → AreMarked self.old steps → AreMarked self.new (steps ++ step.now ∷ []) }
    {
        match step.taken_by() {
            Actor::Session(session) => self.sessions[session as usize] = is_begun(step),
            Actor::Mover(mover) => self.movers[mover as usize] = is_begun(step),
        }
    }

    /// Whether the actor has something half done.
    fn is_by(&self, actor: Actor) -> bool
        requires { HasPlace actor }
        ensures { (steps : List Step) → AreMarked self.now steps → result ≡ half_done actor steps }
    {
        match actor {
            Actor::Session(session) => self.sessions[session as usize],
            Actor::Mover(mover) => self.movers[mover as usize],
        }
    }

    /// Whether anything is half done.
    fn is_any(&self) -> bool
        ensures some { (steps : List Step) → AreMarked self.now steps → result ≡ true → (actor : Actor) × (half_done actor steps ≡ true) }
        ensures none { (steps : List Step) → AreMarked self.now steps → result ≡ false → (actor : Actor) → HasPlace actor → half_done actor steps ≡ false }
    {
        self.sessions.contains(&true) || self.movers.contains(&true)
    }
}

/// What the lines that were read say.
#[derive(Debug, Drop)]
struct Reading {
    /// The table, once a line set it up.
    schema: Option<Schema>,
    /// The steps of the lines.
    lines: Items<Step>,
    /// What is half done after them.
    half_done: HalfDone,
}

impl Reading {
    /// Adds a step.
    fn push(&mut self, step: Step) -> Result<(), Memory>
        requires { HasPlace (taken_by step) }
        ensures setup { self.new.schema ≡ self.old.schema }
        ensures lines { OnOk result (self.new.lines ≡ self.old.lines ++ step ∷ []) }
        ensures marked { AreMarked self.old.half_done self.old.lines → OnOk result (AreMarked self.new.half_done self.new.lines) }
    {
        self.half_done.mark(&step);
        self.lines.push(step)
    }

    /// Whether a step may follow those so far.
    fn may_follow(&self, step: &Step) -> bool
        requires { HasPlace (taken_by step.now) }
        ensures { AreMarked self.now.half_done self.now.lines → result ≡ spec.may_follow self.now.lines step.now }
    {
        let half_done = self.half_done.is_by(step.taken_by());
        match step {
            Step::Finished { .. } | Step::Installing { .. } => half_done,
            _ => !half_done,
        }
    }

    /// Why a step is bad in this mode, after those so far.
    fn step_reason(&self, mode: Mode, step: &Step) -> Option<u32>
        ensures reason { AreMarked self.now.half_done self.now.lines → result ≡ spec.step_reason mode self.now.lines step.now }
        ensures placed { result ≡ None → HasPlace (taken_by step.now) }
    {
        if !mode.allows(step) {
            Some(OTHER_STEP)
        } else if !is_actor(step.taken_by()) {
            Some(OTHER_ACTOR)
        } else if self.may_follow(step) {
            None
        } else {
            Some(UNPAIRED)
        }
    }

    /// Why a line of this form is bad in this mode, after those so far.
    fn form_reason(&self, mode: Mode, form: &Form) -> Option<u32>
        ensures reason { (before : List (List ℕ)) → IsRead mode before self.now → result ≡ spec.form_reason mode (setups before) (steps_of before) form.now }
        ensures placed { result ≡ None → IsPlaced form.now }
    {
        match form {
            Form::Other => Some(NO_FORM),
            Form::Skipped => None,
            Form::Setup(_) => self.schema.is_some().then_some(SETUP),
            Form::Ask(_) if self.schema.is_none() => Some(SETUP),
            Form::Ask(step) => self.step_reason(mode, step),
        }
    }

    /// Adds what a line of this form says, whose number it is given.
    fn add(&mut self, alloc: Global, number: u64, form: Form) -> Result<(), ScriptRefusal>
        requires short { IsShort 65_536 form }
        requires placed { IsPlaced form }
        ensures { (mode : Mode) (before : List (List ℕ)) (line : List ℕ) → IsRead mode before self.old → reason_behind mode before line ≡ None → form_of line ≡ form → MatchResult result (λ _. IsRead mode (before ++ line ∷ []) self.new) (λ e. RefusesLine mode before line number e) }
    {
        match form {
            Form::Setup(text) => {
                self.schema = Some(schema_of(alloc, number, text.as_slice())?);
                Ok(())
            }
            Form::Ask(step) => Ok(self.push(step)?),
            Form::Skipped | Form::Other => Ok(()),
        }
    }

    /// Reads the next line, whose number it is given.
    fn read(
        &mut self,
        alloc: Global,
        mode: Mode,
        number: u64,
        line: &[u8],
    ) -> Result<(), ScriptRefusal>
        ensures { (before : List (List ℕ)) → IsRead mode before self.old → MatchResult result (λ _. IsRead mode (before ++ line.now ∷ []) self.new) (λ e. RefusesLine mode before line.now number e) }
    {
        if let Some(reason) = line_reason(line) {
            return Err(bad(number, reason));
        }
        let form = form_of(alloc, line)?;
        match self.form_reason(mode, &form) {
            Some(reason) => Err(bad(number, reason)),
            None => self.add(alloc, number, form),
        }
    }
}

/// Whether an actor is one of scripts: a session 1 to 64, or a mover 1 to 8.
fn is_actor(actor: Actor) -> bool
    ensures { result ≡ spec.is_actor actor }
{
    match actor {
        Actor::Session(number) => 1 <= number && number <= MOST_SESSION,
        Actor::Mover(number) => 1 <= number && number <= MOST_MOVER,
    }
}

/// Whether a step starts a statement alone, or takes the first event of a turn alone.
fn is_begun(step: &Step) -> bool
    ensures { result ≡ spec.is_begun (Some step.now) }
{
    matches!(step, Step::Begun { .. } | Step::Claiming { .. })
}

/// A line that is bad for a reason but a refused setup statement.
fn bad(line: u64, reason: u32) -> ScriptRefusal
    ensures { result ≡ ScriptRefusal.Bad line reason 0 }
{
    ScriptRefusal::Bad {
        line,
        reason,
        number: 0,
    }
}

/// The schema of the setup statement in this line.
fn schema_of(alloc: Global, line: u64, text: &[u8]) -> Result<Schema, ScriptRefusal>
    requires { length text.now ≤ 65_536 }
    ensures found { IfOk result (λ schema. IsOnlyTable text.now schema) }
    ensures refused { IfErr result (λ e. RefusesSetup text.now line e) }
{
    match read_table(alloc, text) {
        Ok(schema) => Ok(schema),
        Err(ReadRefusal::At { number, .. }) => Err(ScriptRefusal::Bad {
            line,
            reason: REFUSED_SETUP,
            number,
        }),
        Err(ReadRefusal::Memory) => Err(ScriptRefusal::Memory),
    }
}

/// What the lines of a script say, and the number of the line after the last.
fn read_lines(alloc: Global, bytes: &[u8], mode: Mode) -> Result<(Reading, u64), ScriptRefusal>
    ensures found { IfOk result (λ x. IsRead mode (lines bytes.now) x.0 × (x.1 ≡ length (lines bytes.now) + 1)) }
    ensures only { (other : Script) → IsScript mode bytes.now other → IfErr result (λ e. e ≡ ScriptRefusal.Memory) }
    ensures refused { IfErr result (λ e. RefusesScript mode bytes.now e) }
{
    let mut reading = Reading {
        schema: None,
        lines: Items::new(alloc),
        half_done: HalfDone::none(),
    };
    let mut number = 1u64;
    let mut rest = bytes;
    while let Some((line, next)) = next_line(rest) {
        reading.read(alloc, mode, number, line)?;
        rest = next;
        number += 1;
    }
    Ok((reading, number))
}

/// Whether the steps name a session, at its number.
fn named(steps: &[Step]) -> [bool; SESSION_PLACES]
    requires { All (λ step. HasPlace (taken_by step)) steps.now }
    ensures { (session : ℕ) → session < 65 → slice_index_or result session false ≡ is_named steps.now session }
{
    let mut named = [false; SESSION_PLACES];
    for step in steps {
        if let Actor::Session(session) = step.taken_by() {
            named[session as usize] = true;
        }
    }
    named
}

/// The sessions that the steps name, ascending.
fn sessions(alloc: Global, steps: &[Step]) -> Result<Items<u32>, Memory>
    requires { All (λ step. HasPlace (taken_by step)) steps.now }
    ensures { IfOk result (λ sessions. sessions ≡ sessions_of steps.now) }
{
    let named = named(steps);
    let mut sessions = Items::new(alloc);
    for session in 1..=MOST_SESSION {
        if named[session as usize] {
            sessions.push(session)?;
        }
    }
    Ok(sessions)
}

/// The script of this mode that these bytes are: the table of its setup line, and the steps of the lines after it.
///
/// A line's form, without tabs and spaces at both ends: empty or `--` and anything, which is skipped; `setup`, blanks and a
/// text; `s`, a session's number and blanks and a text, a statement; `s`, the number, `>` and a text, its start alone; `s`,
/// the number and `<`, the finish of the session's started statement; `m` and a mover's number, a whole turn of the mover;
/// `m`, the number and `>`, the first event of its turn alone; `m`, the number and `<`, the last one. A mover's line has
/// nothing else, and no blank inside. A number is one to nine digits, the first not 0.
///
/// Else the first bad line and its reason: 5 for a line of over 65,536 bytes, 6 for one with a byte other than tab and 32 to
/// 126, 1 for one of no form, 2 for a step before the setup line, a second setup line, or, at the line after the last, no
/// setup line, 3 in `Mode::Run` for a mover's line and for a start or a finish alone, 4 for a session that is not 1 to 64 or a
/// mover that is not 1 to 8, 7 for a finish without a start, a start where the session has a statement half done, the last event
/// of a turn without the first, a turn or the first event of one where the mover has a turn half done, whatever that claimed, or,
/// at the line after the last, a statement or a turn left half done, and 8 for a setup statement that is refused, with its error
/// number. A session and a mover of one number are different actors. On one line the reasons are judged in this order. `Memory`
/// where there is no room for the script.
pub fn read_script(alloc: Global, bytes: &[u8], mode: Mode) -> Result<Script, ScriptRefusal>
    // What is given is the script of the bytes.
    ensures found { IfOk result (λ script. IsScript mode bytes.now script) }
    // Bytes that are a script give it, and no other.
    ensures only { (other : Script) → IsScript mode bytes.now other → MatchResult result (λ script. script ≡ other) (λ e. e ≡ ScriptRefusal.Memory) }
    // What is refused is refused at the first bad line, for its reason.
    ensures refused { IfErr result (λ e. RefusesScript mode bytes.now e) }
    // The script can be run, by steps that the mode has.
    ensures runs { IfOk result (λ script. IsRunnable script) }
    ensures allowed { IfOk result (λ script. All (λ step. spec.allows mode step ≡ true) script.lines) }
{
    let (reading, end) = read_lines(alloc, bytes, mode)?;
    let Reading {
        schema,
        lines,
        half_done,
    } = reading;
    let Some(schema) = schema else {
        return Err(bad(end, SETUP));
    };
    if half_done.is_any() {
        return Err(bad(end, UNPAIRED));
    }
    let sessions = sessions(alloc, lines.as_slice())?;
    Ok(Script {
        schema,
        lines,
        sessions,
    })
}
