use crate::made::same;
use command_words::{Order, RunOptions, Workload};
use std::alloc::Global;
use std::process::Abort;
use std::test::Fail;

/// The rows of a group, the rows from which on a commit loads them directly, and the workers of a scan.
type Options = (u32, u32, u32);

/// The number, the sessions and the statements of a workload.
type Drawn = (u32, u32, u32);

/// What an order is, for a table of them, or none.
#[derive(Clone, Copy)]
enum Wanted {
    Replay(u32, u32, u32),
    Run(Options, u32),
    Generate(u32, u32, u32),
    Load(Drawn, Options),
    None,
}

use Wanted::{Generate, Load, Replay, Run};

/// Words of a replay, joined by spaces, and the order that they are.
static REPLAY: [(&str, Wanted); 25] = [
    ("replay", Replay(1_048_576, 102_400, 1)),
    ("replay --group-rows 2", Replay(2, 102_400, 1)),
    ("replay --group-rows 1048576", Replay(1_048_576, 102_400, 1)),
    ("replay --group-rows 1", Wanted::None),
    ("replay --group-rows 1048577", Wanted::None),
    ("replay --direct-rows 1", Replay(1_048_576, 1, 1)),
    (
        "replay --direct-rows 1048576",
        Replay(1_048_576, 1_048_576, 1),
    ),
    ("replay --direct-rows 0", Wanted::None),
    ("replay --direct-rows 1048577", Wanted::None),
    ("replay --workers 1", Replay(1_048_576, 102_400, 1)),
    ("replay --workers 16", Replay(1_048_576, 102_400, 16)),
    ("replay --workers 0", Wanted::None),
    ("replay --workers 17", Wanted::None),
    ("replay --group-rows 4294967298", Wanted::None),
    (
        "replay --direct-rows 3 --group-rows 0000000002",
        Replay(2, 3, 1),
    ),
    (
        "replay --workers 16 --group-rows 2 --direct-rows 3",
        Replay(2, 3, 16),
    ),
    ("replay --movers 2", Wanted::None),
    ("replay --number 2", Wanted::None),
    ("replay --sessions 2", Wanted::None),
    ("replay --statements 2", Wanted::None),
    ("replay --group-rows 2 --group-rows 2", Wanted::None),
    ("replay --group-rows", Wanted::None),
    ("replay --group-rows ", Wanted::None),
    ("replay ", Wanted::None),
    ("replay replay", Wanted::None),
];

/// The same of a run on threads.
static RUN: [(&str, Wanted); 22] = [
    ("run", Run((1_048_576, 102_400, 1), 1)),
    ("run --group-rows 2", Run((2, 102_400, 1), 1)),
    ("run --group-rows 1048576", Run((1_048_576, 102_400, 1), 1)),
    ("run --group-rows 1", Wanted::None),
    ("run --group-rows 1048577", Wanted::None),
    ("run --direct-rows 1", Run((1_048_576, 1, 1), 1)),
    (
        "run --direct-rows 1048576",
        Run((1_048_576, 1_048_576, 1), 1),
    ),
    ("run --direct-rows 0", Wanted::None),
    ("run --direct-rows 1048577", Wanted::None),
    ("run --workers 1", Run((1_048_576, 102_400, 1), 1)),
    ("run --workers 16", Run((1_048_576, 102_400, 16), 1)),
    ("run --workers 0", Wanted::None),
    ("run --workers 17", Wanted::None),
    ("run --movers 0", Run((1_048_576, 102_400, 1), 0)),
    ("run --movers 8", Run((1_048_576, 102_400, 1), 8)),
    ("run --movers 9", Wanted::None),
    (
        "run --movers 2 --workers 3 --direct-rows 4 --group-rows 5",
        Run((5, 4, 3), 2),
    ),
    ("run --number 2", Wanted::None),
    ("run --sessions 2", Wanted::None),
    ("run --statements 2", Wanted::None),
    ("run --movers +1", Wanted::None),
    ("run --movers -1", Wanted::None),
];

/// The same of a workload that is written.
static GENERATE: [(&str, Wanted); 24] = [
    ("generate", Generate(1, 4, 1_000)),
    ("generate --number 0", Generate(0, 4, 1_000)),
    (
        "generate --number 2147483647",
        Generate(2_147_483_647, 4, 1_000),
    ),
    ("generate --number 2147483648", Wanted::None),
    ("generate --sessions 1", Generate(1, 1, 1_000)),
    ("generate --sessions 64", Generate(1, 64, 1_000)),
    ("generate --sessions 0", Wanted::None),
    ("generate --sessions 65", Wanted::None),
    ("generate --statements 0", Generate(1, 4, 0)),
    ("generate --statements 200000", Generate(1, 4, 200_000)),
    ("generate --statements 200001", Wanted::None),
    ("generate --number 4294967297", Wanted::None),
    (
        "generate --statements 3 --number 7 --sessions 2",
        Generate(7, 2, 3),
    ),
    ("generate --group-rows 2", Wanted::None),
    ("generate --direct-rows 2", Wanted::None),
    ("generate --workers 2", Wanted::None),
    ("generate --movers 2", Wanted::None),
    ("generate --number 1 --sessions 2 --number 1", Wanted::None),
    ("generate --sessions=2", Wanted::None),
    ("generate --number 1 --sessions", Wanted::None),
    ("generate --Sessions 2", Wanted::None),
    ("generate sessions 2", Wanted::None),
    ("generate 2", Wanted::None),
    ("generate -- 2", Wanted::None),
];

/// The same of a workload that is run.
static LOAD: [(&str, Wanted); 32] = [
    ("load", Load((1, 4, 1_000), (1_048_576, 102_400, 1))),
    ("load --group-rows 2", Load((1, 4, 1_000), (2, 102_400, 1))),
    (
        "load --group-rows 1048576",
        Load((1, 4, 1_000), (1_048_576, 102_400, 1)),
    ),
    ("load --group-rows 1", Wanted::None),
    ("load --group-rows 1048577", Wanted::None),
    (
        "load --direct-rows 1",
        Load((1, 4, 1_000), (1_048_576, 1, 1)),
    ),
    (
        "load --direct-rows 1048576",
        Load((1, 4, 1_000), (1_048_576, 1_048_576, 1)),
    ),
    ("load --direct-rows 0", Wanted::None),
    ("load --direct-rows 1048577", Wanted::None),
    (
        "load --workers 1",
        Load((1, 4, 1_000), (1_048_576, 102_400, 1)),
    ),
    (
        "load --workers 16",
        Load((1, 4, 1_000), (1_048_576, 102_400, 16)),
    ),
    ("load --workers 0", Wanted::None),
    ("load --workers 17", Wanted::None),
    (
        "load --number 0",
        Load((0, 4, 1_000), (1_048_576, 102_400, 1)),
    ),
    (
        "load --number 2147483647",
        Load((2_147_483_647, 4, 1_000), (1_048_576, 102_400, 1)),
    ),
    ("load --number 2147483648", Wanted::None),
    (
        "load --sessions 1",
        Load((1, 1, 1_000), (1_048_576, 102_400, 1)),
    ),
    (
        "load --sessions 64",
        Load((1, 64, 1_000), (1_048_576, 102_400, 1)),
    ),
    ("load --sessions 0", Wanted::None),
    ("load --sessions 65", Wanted::None),
    (
        "load --statements 0",
        Load((1, 4, 0), (1_048_576, 102_400, 1)),
    ),
    (
        "load --statements 200000",
        Load((1, 4, 200_000), (1_048_576, 102_400, 1)),
    ),
    ("load --statements 200001", Wanted::None),
    ("load --number 9999999999", Wanted::None),
    (
        "load --group-rows 5 --statements 3 --workers 4 --number 7 --direct-rows 6 --sessions 2",
        Load((7, 2, 3), (5, 6, 4)),
    ),
    (
        "load --sessions 0000000002",
        Load((1, 2, 1_000), (1_048_576, 102_400, 1)),
    ),
    ("load --sessions 00000000002", Wanted::None),
    ("load --movers 2", Wanted::None),
    ("load --workers 1 --workers 2", Wanted::None),
    ("load --sessions 2x", Wanted::None),
    ("load --sessions x", Wanted::None),
    ("load --help", Wanted::None),
];

/// Words that have no mode.
static OTHER: [(&str, Wanted); 7] = [
    ("", Wanted::None),
    ("Replay", Wanted::None),
    ("LOAD", Wanted::None),
    ("loads", Wanted::None),
    ("--group-rows 2 replay", Wanted::None),
    ("help", Wanted::None),
    ("--version", Wanted::None),
];

/// The words of a text: what stands between its spaces.
fn words_of(alloc: Global, text: &str) -> Result<Vec<String>, Fail> {
    let mut words = Vec::new(alloc);
    for word in text.split(' ') {
        words.push(String::from_str(alloc, word)?)?;
    }
    Ok(words)
}

fn options(of: Options) -> RunOptions {
    RunOptions {
        group_rows: of.0,
        direct_rows: of.1,
        workers: of.2,
    }
}

fn workload(of: Drawn) -> Workload {
    Workload {
        number: of.0,
        sessions: of.1,
        statements: of.2,
    }
}

/// The order that a line of the table wants.
fn order(wanted: Wanted) -> Option<Order> {
    match wanted {
        Replay(group, direct, workers) => Some(Order::Replay(options((group, direct, workers)))),
        Run(of, movers) => Some(Order::Run {
            options: options(of),
            movers,
        }),
        Generate(number, sessions, statements) => Some(Order::Generate(workload((
            number, sessions, statements,
        )))),
        Load(drawn, of) => Some(Order::Load {
            workload: workload(drawn),
            options: options(of),
        }),
        Wanted::None => None,
    }
}

/// The words of a text are the order that is wanted, or none.
fn check(rt: &impl Abort, alloc: Global, text: &str, wanted: Wanted) -> Result<(), Fail> {
    let words = words_of(alloc, text)?;
    let read = Order::of_words(words.as_slice());
    same(rt, &text, &read, &order(wanted));
    Ok(())
}

/// Each of the texts is the order beside it, or none.
fn check_all(rt: &impl Abort, alloc: Global, cases: &[(&str, Wanted)]) -> Result<(), Fail> {
    for (text, wanted) in cases {
        check(rt, alloc, text, *wanted)?;
    }
    Ok(())
}

#[test]
fn words_of_a_replay(rt: HostRuntime) -> Result<(), Fail> {
    check_all(&rt, rt.alloc(), &REPLAY)
}

#[test]
fn words_of_a_run(rt: HostRuntime) -> Result<(), Fail> {
    check_all(&rt, rt.alloc(), &RUN)
}

#[test]
fn words_of_a_workload(rt: HostRuntime) -> Result<(), Fail> {
    check_all(&rt, rt.alloc(), &GENERATE)
}

#[test]
fn words_of_a_load(rt: HostRuntime) -> Result<(), Fail> {
    check_all(&rt, rt.alloc(), &LOAD)
}

#[test]
fn words_without_a_mode(rt: HostRuntime) -> Result<(), Fail> {
    same(&rt, &"no words", &Order::of_words(&[]), &None);
    check_all(&rt, rt.alloc(), &OTHER)
}
