use script_reader::{Mode, Script, read_script};
use std::alloc::{AllocError, Global};
use std::process::Abort;

/// A setup line.
const SETUP: &[u8] = b"setup CREATE TABLE t (k int PRIMARY KEY)\n";

/// The steps and sessions of a script of this mode, or its refusal, as they are printed.
fn outcome_of(alloc: Global, mode: Mode, script: &[u8]) -> Result<String, AllocError> {
    match read_script(alloc, script, mode) {
        Ok(
            Script {
                lines,
                sessions,
                ..
            },
        ) => format!(in alloc; "{lines:?} {sessions:?}"),
        Err(refusal) => format!(in alloc; "{refusal:?}"),
    }
}

/// The script has the outcome that is printed so, in this mode.
fn check(
    rt: &impl Abort,
    alloc: Global,
    mode: Mode,
    script: &[u8],
    expected: &str,
) -> Result<(), AllocError> {
    let outcome = outcome_of(alloc, mode, script)?;
    assert!(rt; outcome.as_str() == expected, "{outcome} at {script:?}");
    Ok(())
}

/// The setup line, and these bytes after it.
fn behind_setup(alloc: Global, bytes: &[u8]) -> Result<Vec<u8>, AllocError> {
    let mut script = Vec::new(alloc);
    script.extend_from_slice(SETUP)?;
    script.extend_from_slice(bytes)?;
    Ok(script)
}

/// Each of the lines has the outcome beside it, after a setup line, in this mode.
fn check_lines(
    rt: &impl Abort,
    alloc: Global,
    mode: Mode,
    cases: &[(&[u8], &str)],
) -> Result<(), AllocError> {
    for (lines, expected) in cases {
        let script = behind_setup(alloc, lines)?;
        check(rt, alloc, mode, script.as_slice(), expected)?;
    }
    Ok(())
}

/// A line that begins so, and has so many bytes with its further ones.
fn long(alloc: Global, front: &[u8], byte: u8, size: usize) -> Result<Vec<u8>, AllocError> {
    let mut line = Vec::new(alloc);
    line.extend_from_slice(front)?;
    for _ in front.len()..size {
        line.push(byte)?;
    }
    Ok(line)
}

static FORMS: [(&[u8], &str); 16] = [
    (b"", "[] []"),
    (b"s1 A", "[Whole { session: 1, text: [65] }] [1]"),
    (b"s1\tA\n", "[Whole { session: 1, text: [65] }] [1]"),
    (
        b" \ts1 \t A B\t \r\n",
        "[Whole { session: 1, text: [65, 32, 66] }] [1]",
    ),
    (b"s1 A\n\r", "[Whole { session: 1, text: [65] }] [1]"),
    (
        b"\n \t\n--\n -- s1\n--s65\ns1 A\n--",
        "[Whole { session: 1, text: [65] }] [1]",
    ),
    (
        b"s1 -- A",
        "[Whole { session: 1, text: [45, 45, 32, 65] }] [1]",
    ),
    (b"s1 <", "[Whole { session: 1, text: [60] }] [1]"),
    (b"s1 >A", "[Whole { session: 1, text: [62, 65] }] [1]"),
    (
        b"s1>A\ns1<",
        "[Begun { session: 1, text: [65] }, Finished { session: 1 }] [1]",
    ),
    (
        b"s1> \tA\n\ts1< \n",
        "[Begun { session: 1, text: [65] }, Finished { session: 1 }] [1]",
    ),
    (
        b"s1><\ns1<",
        "[Begun { session: 1, text: [60] }, Finished { session: 1 }] [1]",
    ),
    (
        b"s1>A\ns2 B\ns1<\ns1 C",
        "[Begun { session: 1, text: [65] }, Whole { session: 2, text: [66] }, Finished { session: 1 }, Whole { session: 1, text: [67] }] [1, 2]",
    ),
    (
        b"s64>A\ns3>B\ns64<\ns3<\ns64 C",
        "[Begun { session: 64, text: [65] }, Begun { session: 3, text: [66] }, Finished { session: 64 }, Finished { session: 3 }, Whole { session: 64, text: [67] }] [3, 64]",
    ),
    (b"s1 s1<", "[Whole { session: 1, text: [115, 49, 60] }] [1]"),
    (b"s10 1", "[Whole { session: 10, text: [49] }] [10]"),
];

#[test]
fn forms(rt: HostRuntime) -> Result<(), AllocError> {
    check_lines(&rt, rt.alloc(), Mode::Replay, &FORMS)
}

static MOVER_FORMS: [(&[u8], &str); 13] = [
    (b"m1", "[Turn { mover: 1 }] []"),
    (b"m8\n", "[Turn { mover: 8 }] []"),
    (b" \tm1\t \r\n", "[Turn { mover: 1 }] []"),
    (b"m1\nm1", "[Turn { mover: 1 }, Turn { mover: 1 }] []"),
    (
        b"m1>\nm1<",
        "[Claiming { mover: 1 }, Installing { mover: 1 }] []",
    ),
    (
        b"\tm8> \n m8<\t\r\n",
        "[Claiming { mover: 8 }, Installing { mover: 8 }] []",
    ),
    (
        b"m1>\nm2\nm1<\nm1",
        "[Claiming { mover: 1 }, Turn { mover: 2 }, Installing { mover: 1 }, Turn { mover: 1 }] []",
    ),
    (
        b"m2>\nm1>\nm2<\nm1<",
        "[Claiming { mover: 2 }, Claiming { mover: 1 }, Installing { mover: 2 }, Installing { mover: 1 }] []",
    ),
    (
        b"m1>\nm1<\nm1>\nm1<",
        "[Claiming { mover: 1 }, Installing { mover: 1 }, Claiming { mover: 1 }, Installing { mover: 1 }] []",
    ),
    (
        b"m1\ns2 A",
        "[Turn { mover: 1 }, Whole { session: 2, text: [65] }] [2]",
    ),
    (
        b"s1>A\nm1>\ns1<\nm1<",
        "[Begun { session: 1, text: [65] }, Claiming { mover: 1 }, Finished { session: 1 }, Installing { mover: 1 }] [1]",
    ),
    (
        b"m1>\ns1>A\nm1<\ns1<",
        "[Claiming { mover: 1 }, Begun { session: 1, text: [65] }, Installing { mover: 1 }, Finished { session: 1 }] [1]",
    ),
    (
        b"s1>A\nm1\ns1<",
        "[Begun { session: 1, text: [65] }, Turn { mover: 1 }, Finished { session: 1 }] [1]",
    ),
];

#[test]
fn mover_forms(rt: HostRuntime) -> Result<(), AllocError> {
    check_lines(&rt, rt.alloc(), Mode::Replay, &MOVER_FORMS)
}

static BAD_STEPS: [(&[u8], &str); 37] = [
    (b"abc", "Bad { line: 2, reason: 1, number: 0 }"),
    (b"-", "Bad { line: 2, reason: 1, number: 0 }"),
    (b"- -", "Bad { line: 2, reason: 1, number: 0 }"),
    (b"s", "Bad { line: 2, reason: 1, number: 0 }"),
    (b"s A", "Bad { line: 2, reason: 1, number: 0 }"),
    (b"s 1 A", "Bad { line: 2, reason: 1, number: 0 }"),
    (b"s1", "Bad { line: 2, reason: 1, number: 0 }"),
    (b"s1 \t", "Bad { line: 2, reason: 1, number: 0 }"),
    (b"s1A", "Bad { line: 2, reason: 1, number: 0 }"),
    (b"s1-- A", "Bad { line: 2, reason: 1, number: 0 }"),
    (b"S1 A", "Bad { line: 2, reason: 1, number: 0 }"),
    (b"s0 A", "Bad { line: 2, reason: 1, number: 0 }"),
    (b"s01 A", "Bad { line: 2, reason: 1, number: 0 }"),
    (b"s+1 A", "Bad { line: 2, reason: 1, number: 0 }"),
    (b"s1234567890 A", "Bad { line: 2, reason: 1, number: 0 }"),
    (b"s1>", "Bad { line: 2, reason: 1, number: 0 }"),
    (b"s1> \t", "Bad { line: 2, reason: 1, number: 0 }"),
    (b"s1>A\ns1< A", "Bad { line: 3, reason: 1, number: 0 }"),
    (b"s1>A\ns1<<", "Bad { line: 3, reason: 1, number: 0 }"),
    (b"setup", "Bad { line: 2, reason: 1, number: 0 }"),
    (b"setupA", "Bad { line: 2, reason: 1, number: 0 }"),
    (b"Setup A", "Bad { line: 2, reason: 1, number: 0 }"),
    (b"setup A", "Bad { line: 2, reason: 2, number: 0 }"),
    (b"s65 A", "Bad { line: 2, reason: 4, number: 0 }"),
    (b"s65<", "Bad { line: 2, reason: 4, number: 0 }"),
    (b"s999999999>A", "Bad { line: 2, reason: 4, number: 0 }"),
    (b"s1 \x7f", "Bad { line: 2, reason: 6, number: 0 }"),
    (b"abc\x0b", "Bad { line: 2, reason: 6, number: 0 }"),
    (b"-- \x80", "Bad { line: 2, reason: 6, number: 0 }"),
    (b"s1 A\r \n", "Bad { line: 2, reason: 6, number: 0 }"),
    (b"s1 A\n\r\r\n", "Bad { line: 3, reason: 6, number: 0 }"),
    (b"s1<", "Bad { line: 2, reason: 7, number: 0 }"),
    (b"s1>A\ns2<", "Bad { line: 3, reason: 7, number: 0 }"),
    (b"s1>A\ns1>B", "Bad { line: 3, reason: 7, number: 0 }"),
    (b"s1>A\n\ns1 B", "Bad { line: 4, reason: 7, number: 0 }"),
    (b"s1>A\ns1<\ns1<", "Bad { line: 4, reason: 7, number: 0 }"),
    (b"s1>A\ns2 B\n--\n", "Bad { line: 5, reason: 7, number: 0 }"),
];

#[test]
fn bad_steps(rt: HostRuntime) -> Result<(), AllocError> {
    check_lines(&rt, rt.alloc(), Mode::Replay, &BAD_STEPS)
}

static BAD_MOVER_STEPS: [(&[u8], &str); 47] = [
    (b"m", "Bad { line: 2, reason: 1, number: 0 }"),
    (b"M1", "Bad { line: 2, reason: 1, number: 0 }"),
    (b"m 1", "Bad { line: 2, reason: 1, number: 0 }"),
    (b"m0", "Bad { line: 2, reason: 1, number: 0 }"),
    (b"m01", "Bad { line: 2, reason: 1, number: 0 }"),
    (b"m+1", "Bad { line: 2, reason: 1, number: 0 }"),
    (b"m>", "Bad { line: 2, reason: 1, number: 0 }"),
    (b"m<", "Bad { line: 2, reason: 1, number: 0 }"),
    (b"m1234567890", "Bad { line: 2, reason: 1, number: 0 }"),
    (b"m1 x", "Bad { line: 2, reason: 1, number: 0 }"),
    (b"m1 m1", "Bad { line: 2, reason: 1, number: 0 }"),
    (b"m1;", "Bad { line: 2, reason: 1, number: 0 }"),
    (b"m1 -- c", "Bad { line: 2, reason: 1, number: 0 }"),
    (b"m1x", "Bad { line: 2, reason: 1, number: 0 }"),
    (b"m1 >", "Bad { line: 2, reason: 1, number: 0 }"),
    (b"m1 <", "Bad { line: 2, reason: 1, number: 0 }"),
    (b"m1>>", "Bad { line: 2, reason: 1, number: 0 }"),
    (b"m1<>", "Bad { line: 2, reason: 1, number: 0 }"),
    (b"m1> x", "Bad { line: 2, reason: 1, number: 0 }"),
    (b"m1>x", "Bad { line: 2, reason: 1, number: 0 }"),
    (b"m1>>x", "Bad { line: 2, reason: 1, number: 0 }"),
    (b"mover", "Bad { line: 2, reason: 1, number: 0 }"),
    (b"m1>\nm1< x", "Bad { line: 3, reason: 1, number: 0 }"),
    (b"m1>\nm1<<", "Bad { line: 3, reason: 1, number: 0 }"),
    (b"m1>\nm1 <", "Bad { line: 3, reason: 1, number: 0 }"),
    (b"m9", "Bad { line: 2, reason: 4, number: 0 }"),
    (b"m9>", "Bad { line: 2, reason: 4, number: 0 }"),
    (b"m9<", "Bad { line: 2, reason: 4, number: 0 }"),
    (b"m64", "Bad { line: 2, reason: 4, number: 0 }"),
    (b"m65", "Bad { line: 2, reason: 4, number: 0 }"),
    (b"m999999999", "Bad { line: 2, reason: 4, number: 0 }"),
    (b"s65 A", "Bad { line: 2, reason: 4, number: 0 }"),
    (b"m1>\ns65<", "Bad { line: 3, reason: 4, number: 0 }"),
    (b"m1 \x7f", "Bad { line: 2, reason: 6, number: 0 }"),
    (b"m1<", "Bad { line: 2, reason: 7, number: 0 }"),
    (b"m1\nm1<", "Bad { line: 3, reason: 7, number: 0 }"),
    (b"m1>\nm1<\nm1<", "Bad { line: 4, reason: 7, number: 0 }"),
    (b"m1>\nm2<", "Bad { line: 3, reason: 7, number: 0 }"),
    (b"m1>\nm1>", "Bad { line: 3, reason: 7, number: 0 }"),
    (b"m1>\n--\nm1", "Bad { line: 4, reason: 7, number: 0 }"),
    (b"m1>", "Bad { line: 3, reason: 7, number: 0 }"),
    (
        b"m1>\nm2\ns1 A\n--\n",
        "Bad { line: 6, reason: 7, number: 0 }",
    ),
    (b"m1>\nm2>\nm2<", "Bad { line: 5, reason: 7, number: 0 }"),
    (b"s1>A\nm1<", "Bad { line: 3, reason: 7, number: 0 }"),
    (b"m1>\ns1<", "Bad { line: 3, reason: 7, number: 0 }"),
    (b"s1>A\nm1>\nm1<", "Bad { line: 5, reason: 7, number: 0 }"),
    (b"m1>\ns1>A\ns1<", "Bad { line: 5, reason: 7, number: 0 }"),
];

#[test]
fn bad_mover_steps(rt: HostRuntime) -> Result<(), AllocError> {
    check_lines(&rt, rt.alloc(), Mode::Replay, &BAD_MOVER_STEPS)
}

static SETUPS: [(&[u8], &str); 20] = [
    (b"", "Bad { line: 1, reason: 2, number: 0 }"),
    (b"\n", "Bad { line: 2, reason: 2, number: 0 }"),
    (b"\r", "Bad { line: 1, reason: 2, number: 0 }"),
    (b"--\n -- s1", "Bad { line: 3, reason: 2, number: 0 }"),
    (b"abc", "Bad { line: 1, reason: 1, number: 0 }"),
    (b"setup \t", "Bad { line: 1, reason: 1, number: 0 }"),
    (b"s1 A", "Bad { line: 1, reason: 2, number: 0 }"),
    (b"--\ns1<", "Bad { line: 2, reason: 2, number: 0 }"),
    (b"s65 A", "Bad { line: 1, reason: 2, number: 0 }"),
    (b"m1", "Bad { line: 1, reason: 2, number: 0 }"),
    (b"m1<\nabc", "Bad { line: 1, reason: 2, number: 0 }"),
    (b"m9>", "Bad { line: 1, reason: 2, number: 0 }"),
    (b"m1 x", "Bad { line: 1, reason: 1, number: 0 }"),
    (b"s1 \x01", "Bad { line: 1, reason: 6, number: 0 }"),
    (b"setup A", "Bad { line: 1, reason: 8, number: 102 }"),
    (
        b"--\nsetup CREATE TABLE t (k int)",
        "Bad { line: 2, reason: 8, number: 50001 }",
    ),
    (b"setup A\nabc", "Bad { line: 1, reason: 8, number: 102 }"),
    (b"setup CREATE TABLE t (k int PRIMARY KEY)", "[] []"),
    (
        b"--\n\n \tsetup \t CREATE TABLE t (k int PRIMARY KEY) \t\r\n--",
        "[] []",
    ),
    (
        b"setup CREATE TABLE t (k int PRIMARY KEY)\n--\nsetup CREATE TABLE t (k int PRIMARY KEY)",
        "Bad { line: 3, reason: 2, number: 0 }",
    ),
];

/// Each of the scripts has the outcome beside it, in this mode.
fn check_scripts(
    rt: &impl Abort,
    alloc: Global,
    mode: Mode,
    cases: &[(&[u8], &str)],
) -> Result<(), AllocError> {
    for (script, expected) in cases {
        check(rt, alloc, mode, script, expected)?;
    }
    Ok(())
}

#[test]
fn setups(rt: HostRuntime) -> Result<(), AllocError> {
    check_scripts(&rt, rt.alloc(), Mode::Replay, &SETUPS)
}

static WHOLE_STATEMENTS: [(&[u8], &str); 29] = [
    (b"", "[] []"),
    (b"-- m1\n\ns1 A", "[Whole { session: 1, text: [65] }] [1]"),
    (
        b"s64 A\ns3 B\ns64 C",
        "[Whole { session: 64, text: [65] }, Whole { session: 3, text: [66] }, Whole { session: 64, text: [67] }] [3, 64]",
    ),
    (b"m1", "Bad { line: 2, reason: 3, number: 0 }"),
    (b"m8\n", "Bad { line: 2, reason: 3, number: 0 }"),
    (b"m1>\nm1<", "Bad { line: 2, reason: 3, number: 0 }"),
    (b"m1<", "Bad { line: 2, reason: 3, number: 0 }"),
    (b"s1>A\ns1<", "Bad { line: 2, reason: 3, number: 0 }"),
    (b"s1<", "Bad { line: 2, reason: 3, number: 0 }"),
    (b"s1 A\ns1<", "Bad { line: 3, reason: 3, number: 0 }"),
    (
        b"s1 A\n--\nm1\ns65 B",
        "Bad { line: 4, reason: 3, number: 0 }",
    ),
    // Before reason 4, and before reason 7.
    (b"m9", "Bad { line: 2, reason: 3, number: 0 }"),
    (b"m999999999", "Bad { line: 2, reason: 3, number: 0 }"),
    (b"m9>", "Bad { line: 2, reason: 3, number: 0 }"),
    (b"m9<", "Bad { line: 2, reason: 3, number: 0 }"),
    (b"s65> x", "Bad { line: 2, reason: 3, number: 0 }"),
    (b"s65<", "Bad { line: 2, reason: 3, number: 0 }"),
    (b"s65 A", "Bad { line: 2, reason: 4, number: 0 }"),
    (b"s65 A\nm1", "Bad { line: 2, reason: 4, number: 0 }"),
    // After reasons 5, 6, 1 and 2.
    (b"m1 \x7f", "Bad { line: 2, reason: 6, number: 0 }"),
    (b"s1>A\x0b", "Bad { line: 2, reason: 6, number: 0 }"),
    (b"m0", "Bad { line: 2, reason: 1, number: 0 }"),
    (b"m1 x", "Bad { line: 2, reason: 1, number: 0 }"),
    (b"m1 >", "Bad { line: 2, reason: 1, number: 0 }"),
    (b"s1>", "Bad { line: 2, reason: 1, number: 0 }"),
    (b"s1<<", "Bad { line: 2, reason: 1, number: 0 }"),
    (b"s0 A", "Bad { line: 2, reason: 1, number: 0 }"),
    (b"setup A", "Bad { line: 2, reason: 2, number: 0 }"),
    (
        b"s1 A\nsetup A\nm1",
        "Bad { line: 3, reason: 2, number: 0 }",
    ),
];

#[test]
fn whole_statements_of_a_run(rt: HostRuntime) -> Result<(), AllocError> {
    check_lines(&rt, rt.alloc(), Mode::Run, &WHOLE_STATEMENTS)
}

static SETUPS_OF_A_RUN: [(&[u8], &str); 10] = [
    (b"", "Bad { line: 1, reason: 2, number: 0 }"),
    (b"--\n", "Bad { line: 2, reason: 2, number: 0 }"),
    (b"m1", "Bad { line: 1, reason: 2, number: 0 }"),
    (b"m9", "Bad { line: 1, reason: 2, number: 0 }"),
    (b"s65> x", "Bad { line: 1, reason: 2, number: 0 }"),
    (b"s1<", "Bad { line: 1, reason: 2, number: 0 }"),
    (b"m1 x", "Bad { line: 1, reason: 1, number: 0 }"),
    (b"m1\x01", "Bad { line: 1, reason: 6, number: 0 }"),
    (b"setup A\nm1", "Bad { line: 1, reason: 8, number: 102 }"),
    (b"setup CREATE TABLE t (k int PRIMARY KEY)", "[] []"),
];

#[test]
fn setups_of_a_run(rt: HostRuntime) -> Result<(), AllocError> {
    check_scripts(&rt, rt.alloc(), Mode::Run, &SETUPS_OF_A_RUN)
}

/// The line has the outcome that is printed so, after a setup line and before a byte 13, in this mode.
fn check_long(
    rt: &impl Abort,
    alloc: Global,
    mode: Mode,
    line: &[u8],
    expected: &str,
) -> Result<(), AllocError> {
    let mut script = behind_setup(alloc, line)?;
    script.extend_from_slice(b"\r\n")?;
    check(rt, alloc, mode, script.as_slice(), expected)
}

const TOO_LONG: &str = "Bad { line: 2, reason: 5, number: 0 }";

const STATEMENT: &str = "[Whole { session: 1, text: [65] }] [1]";

static LONG_LINES: [(Mode, &[u8], u8, usize, &str); 10] = [
    (Mode::Replay, b"--", b'-', 65_536, "[] []"),
    (Mode::Replay, b"--", b'-', 65_537, TOO_LONG),
    (Mode::Replay, b"s1 A", b' ', 65_536, STATEMENT),
    (Mode::Replay, b"s1 A", b' ', 65_537, TOO_LONG),
    (Mode::Replay, b"", b' ', 65_537, TOO_LONG),
    (Mode::Replay, b"", 127, 65_537, TOO_LONG),
    (Mode::Run, b"s1 A", b' ', 65_536, STATEMENT),
    (Mode::Run, b"s1 A", b' ', 65_537, TOO_LONG),
    (
        Mode::Run,
        b"m1",
        b' ',
        65_536,
        "Bad { line: 2, reason: 3, number: 0 }",
    ),
    (Mode::Run, b"m1", b' ', 65_537, TOO_LONG),
];

#[test]
fn long_lines(rt: HostRuntime) -> Result<(), AllocError> {
    for &(mode, front, byte, size, expected) in &LONG_LINES {
        let line = long(rt.alloc(), front, byte, size)?;
        check_long(&rt, rt.alloc(), mode, line.as_slice(), expected)?;
    }
    Ok(())
}
