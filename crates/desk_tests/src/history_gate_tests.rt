ghost use Rattle.std.specs.Prelude.{◌≡◌, ◌+◌, ◌<◌, ◌^◌, [], ◌∷◌, ◌++◌, Contains, MatchBool};
ghost use Rattle.std.specs.List.{range_with_len};
ghost use Rattle.history_gate.specs.Histories.{list_of, own_numbers};
ghost use Rattle.history_gate.specs.Passes.{KeepsNumbers};

use cs_base::Memory;
use history_gate::{Gate, Pass, Stands};
use std::alloc::{AllocError, Global};
use std::snapshot::Snapshot;
use std::sync::Wait;
use std::test::Fail;
use std::thread;
use std::thread::{Promise, Scope, Threads};

/// What a thread adds: its number, and how many entries it has added before.
#[derive(Clone, Copy)]
struct Entry {
    by: u32,
    place: u32,
}

/// Entries as they were added.
#[derive(Drop)]
struct Log {
    entries: Vec<Entry>,
}

impl Stands for Log {
    type Entry = Entry;

    ghost list = { λ log. log.entries.items };

    ghost number = { λ entry. entry.by };
}

/// A section that adds an entry, if there is memory for it.
fn add<R: Wait>(rt: &R, gate: &Gate<Log>, pass: Pass<Log>, entry: Entry) -> (Pass<Log>, bool)
    requires gate { pass.gate ≡ gate.now.gate }
    requires number { Contains (own_numbers pass.own) entry.by }
    ensures pass { (result.0.gate ≡ pass.gate) × (result.0.reserve ≡ pass.reserve) }
    ensures numbers { own_numbers result.0.own ≡ own_numbers pass.own }
    ensures list { MatchBool result.1 (list_of entry.by result.0.own ≡ list_of entry.by pass.own ++ entry ∷ []) (list_of entry.by result.0.own ≡ list_of entry.by pass.own) }
{
    let mut held = gate.enter(rt, pass);
    let log = held.value();
    let done = log.entries.push(entry).is_ok();
    (gate.leave(held), done)
}

/// A thread's sections, each with one entry.
fn sections<R: Wait>(
    rt: &R,
    gate: &Gate<Log>,
    pass: Pass<Log>,
    number: u32,
    count: u32,
) -> (Pass<Log>, bool)
    requires gate { pass.gate ≡ gate.now.gate }
    requires number { own_numbers pass.own ≡ number ∷ [] }
    ensures gate { result.0.gate ≡ pass.gate }
    ensures number { own_numbers result.0.own ≡ number ∷ [] }
{
    let mut pass = pass;
    let mut done = true;
    for place in 0..count {
        let entry = Entry { by: number, place };
        let (next, added) = add(rt, gate, pass, entry);
        pass = next;
        done = done && added;
    }
    (pass, done)
}

/// A thread gives back a pass of its gate, with its number.
#[derive(Drop)]
struct Homecoming {
    pass: Snapshot<Pass<Log>>,
    number: u32,
}

impl Promise<(Pass<Log>, bool)> for Homecoming {
    ghost kept_by = { λ home back. (back.0.gate ≡ home.pass.value.gate) × (own_numbers back.0.own ≡ home.number ∷ []) };
}

/// Threads with the numbers from one on, each with its sections. One that can't be started has its sections here, once the
/// later ones have ended.
fn threads<'s, E, R: Threads + Wait + Sync>(
    rt: &'s R,
    scope: &Scope<'s, E>,
    gate: &'s Gate<Log>,
    pass: Pass<Log>,
    number: u32,
    count: u32,
    each: u32,
) -> (Pass<Log>, bool)
    requires gate { pass.gate ≡ gate.now.gate }
    requires reserve { pass.reserve ≡ range_with_len number count }
    requires room { number + count < 2 ^ 32 }
    ensures gate { result.0.gate ≡ pass.gate }
    ensures numbers { KeepsNumbers pass result.0 }
{
    if count == 0 {
        return (pass, true);
    }
    let (pass, mine) = gate.split(pass, number);
    let promise = Homecoming {
        pass: Snapshot::of(&mine),
        number,
    };
    let work = move || -> (Pass<Log>, bool)
        requires { (mine.gate ≡ gate.now.gate) × (own_numbers mine.own ≡ number ∷ []) }
        ensures { (result.0.gate ≡ mine.gate) × (own_numbers result.0.own ≡ number ∷ []) }
    { sections(rt, gate, mine, number, each) };
    match scope.spawn_with(promise, work) {
        Ok(child) => {
            let (pass, rest) = threads(rt, scope, gate, pass, number + 1, count - 1, each);
            let (other, done) = child.join(rt);
            (gate.join(pass, other), rest && done)
        }
        Err(refused) => {
            let (pass, rest) = threads(rt, scope, gate, pass, number + 1, count - 1, each);
            let (other, done) = (refused.value)();
            (gate.join(pass, other), rest && done)
        }
    }
}

/// The log that so many threads leave, and whether there was memory for every entry.
fn run<R: Threads + Wait + Sync>(
    rt: &R,
    alloc: Global,
    count: u32,
    each: u32,
) -> Result<(Log, bool), (Log, Memory)>
    requires { count < 1000 }
{
    let log = Log {
        entries: Vec::new(alloc),
    };
    let (gate, pass) = Gate::new(alloc, log, count + 1)?;
    let shared = &gate;
    let (pass, done) = thread::scope(
        thread::scope_env(),
        rt,
        |scope| -> (Pass<Log>, bool)
            requires { (pass.gate ≡ shared.now.gate) × (pass.reserve ≡ range_with_len 1 count) × (count < 1000) }
            ensures { (result.0.gate ≡ pass.gate) × KeepsNumbers pass result.0 }
        { threads(rt, scope, shared, pass, 1, count, each) },
    );
    Ok((gate.close(pass), done))
}

/// Whether the log has each thread's entries in order, and nothing else.
fn is_whole(alloc: Global, log: &Log, count: u32, each: u32) -> Result<bool, AllocError> {
    let mut places = Vec::new(alloc);
    for _ in 0..=count {
        places.push(0u32)?;
    }
    for entry in log.entries.iter() {
        let Some(place) = places.get_mut(entry.by as usize) else {
            return Ok(false);
        };
        if entry.by == 0 || *place != entry.place {
            return Ok(false);
        }
        *place = place.wrapping_add(1);
    }
    Ok(places.iter().skip(1).all(|place| *place == each))
}

/// So many threads at one gate, each with 1,000 sections: the closed log has their entries.
fn threads_keep_one_history<R: Threads + Wait + Sync>(
    rt: &R,
    alloc: Global,
    count: u32,
) -> Result<bool, AllocError>
    requires { count < 1000 }
{
    let Ok((log, done)) = run(rt, alloc, count, 1000) else {
        return Err(AllocError);
    };
    Ok(done && is_whole(alloc, &log, count, 1000)?)
}

#[test]
fn one_history(rt: HostRuntime) -> Result<(), Fail> {
    for &count in &[1, 2, 16, 64] {
        for _ in 0..10 {
            assert!(rt; threads_keep_one_history(&rt, rt.alloc(), count)?);
        }
    }
    Ok(())
}
