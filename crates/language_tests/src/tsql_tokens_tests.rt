ghost use Rattle.std.specs.Prelude.{◌≤◌, length};

use crate::made::repeated;
use cs_base::Memory;
use std::alloc::Global;
use std::process::Abort;
use tsql_tokens::TokenKind::{Name, Number, Reserved, Sign, Text};
use tsql_tokens::{Token, TokenKind, TokenRefusal, tokens};

/// What a token is, and its first byte and that after its last.
type Piece = (TokenKind, u32, u32);

/// The token of a piece.
fn token_of(piece: Piece) -> Token {
    let (kind, from, to) = piece;
    Token { kind, from, to }
}

/// Whether a text is cut into these pieces.
fn is_cut(alloc: Global, bytes: &[u8], expected: &[Piece]) -> bool
    requires { length bytes.now ≤ 131_072 }
{
    let Ok(found) = tokens(alloc, bytes) else {
        return false;
    };
    for (token, piece) in found.as_slice().iter().zip(expected) {
        if *token != token_of(*piece) {
            return false;
        }
    }
    found.len() == expected.len()
}

/// Each text is cut into the pieces beside it.
fn check_cuts(rt: &impl Abort, alloc: Global, cases: &[(&[u8], &[Piece])]) {
    for (bytes, expected) in cases {
        assert!(rt; bytes.len() < 100);
        assert!(rt; is_cut(alloc, bytes, expected), "at {bytes:?}");
    }
}

fn is_refused(alloc: Global, bytes: &[u8], number: u32, at: u32) -> bool
    requires { length bytes.now ≤ 131_072 }
{
    match tokens(alloc, bytes) {
        Ok(_) => false,
        Err(refusal) => refusal == TokenRefusal::At { number, at },
    }
}

static WORDS_AND_NAMES: [(&[u8], &[Piece]); 14] = [
    (b"", &[]),
    (b"select", &[(Reserved, 0, 6)]),
    (b"SeLeCt t", &[(Reserved, 0, 6), (Name, 7, 8)]),
    (b"selects", &[(Name, 0, 7)]),
    (b"COUNT", &[(Name, 0, 5)]),
    (b"_a1$#@", &[(Name, 0, 6)]),
    (b"View", &[(Reserved, 0, 4)]),
    (b"[select]", &[(Name, 0, 8)]),
    (b"[a b[']x", &[(Name, 0, 7), (Name, 7, 8)]),
    (b"dbo.t", &[(Name, 0, 3), (Sign, 3, 4), (Name, 4, 5)]),
    (b"a\tb", &[(Name, 0, 1), (Name, 2, 3)]),
    (b"1a", &[(Number, 0, 1), (Name, 1, 2)]),
    (b"a[b]", &[(Name, 0, 1), (Name, 1, 4)]),
    (
        b"ALL alter And outer",
        &[
            (Reserved, 0, 3),
            (Reserved, 4, 9),
            (Reserved, 10, 13),
            (Reserved, 14, 19),
        ],
    ),
];

#[test]
fn words_and_names(rt: HostRuntime) {
    check_cuts(&rt, rt.alloc(), &WORDS_AND_NAMES);
}

static NUMBERS: [(&[u8], &[Piece]); 18] = [
    (b"0", &[(Number, 0, 1)]),
    (b"12 34", &[(Number, 0, 2), (Number, 3, 5)]),
    (b"1.5", &[(Number, 0, 3)]),
    (b"5.", &[(Number, 0, 2)]),
    (b".5", &[(Number, 0, 2)]),
    (b"1.2.3", &[(Number, 0, 3), (Number, 3, 5)]),
    (b"1..2", &[(Number, 0, 2), (Number, 2, 4)]),
    (b"t.5", &[(Name, 0, 1), (Sign, 1, 2), (Number, 2, 3)]),
    (b"t .5", &[(Name, 0, 1), (Sign, 2, 3), (Number, 3, 4)]),
    (b"t/**/.5", &[(Name, 0, 1), (Sign, 5, 6), (Number, 6, 7)]),
    (b"[t].5", &[(Name, 0, 3), (Sign, 3, 4), (Number, 4, 5)]),
    (b"WHERE.5", &[(Reserved, 0, 5), (Number, 5, 7)]),
    (b"1 .5", &[(Number, 0, 1), (Number, 2, 4)]),
    (b"'x'.5", &[(Text, 0, 3), (Number, 3, 5)]),
    (b").5", &[(Sign, 0, 1), (Number, 1, 3)]),
    (b"5.a", &[(Number, 0, 2), (Name, 2, 3)]),
    (b".5.5.", &[(Number, 0, 2), (Number, 2, 4), (Sign, 4, 5)]),
    (b"-.5", &[(Sign, 0, 1), (Number, 1, 3)]),
];

#[test]
fn numbers(rt: HostRuntime) {
    check_cuts(&rt, rt.alloc(), &NUMBERS);
}

static TEXTS: [(&[u8], &[Piece]); 8] = [
    (b"''", &[(Text, 0, 2)]),
    (b"'a'", &[(Text, 0, 3)]),
    (b"''''", &[(Text, 0, 4)]),
    (b"'a''b'", &[(Text, 0, 6)]),
    (b"'a' 'b'", &[(Text, 0, 3), (Text, 4, 7)]),
    (b"'a''''' 'b'", &[(Text, 0, 7), (Text, 8, 11)]),
    (b"'--/*'", &[(Text, 0, 6)]),
    (b"'[' '\n'", &[(Text, 0, 3), (Text, 4, 7)]),
];

#[test]
fn texts(rt: HostRuntime) {
    check_cuts(&rt, rt.alloc(), &TEXTS);
}

static SIGNS: [(&[u8], &[Piece]); 11] = [
    (
        b"(),.;*+-/%=",
        &[
            (Sign, 0, 1),
            (Sign, 1, 2),
            (Sign, 2, 3),
            (Sign, 3, 4),
            (Sign, 4, 5),
            (Sign, 5, 6),
            (Sign, 6, 7),
            (Sign, 7, 8),
            (Sign, 8, 9),
            (Sign, 9, 10),
            (Sign, 10, 11),
        ],
    ),
    (
        b"<>!=<<=>>=",
        &[
            (Sign, 0, 2),
            (Sign, 2, 4),
            (Sign, 4, 5),
            (Sign, 5, 7),
            (Sign, 7, 8),
            (Sign, 8, 10),
        ],
    ),
    (b"<>=", &[(Sign, 0, 2), (Sign, 2, 3)]),
    (b"<<>", &[(Sign, 0, 1), (Sign, 1, 3)]),
    (b"> =", &[(Sign, 0, 1), (Sign, 2, 3)]),
    (b"- -", &[(Sign, 0, 1), (Sign, 2, 3)]),
    (b"*/", &[(Sign, 0, 1), (Sign, 1, 2)]),
    (
        b"a<-1",
        &[(Name, 0, 1), (Sign, 1, 2), (Sign, 2, 3), (Number, 3, 4)],
    ),
    (
        b"x=/1",
        &[(Name, 0, 1), (Sign, 1, 2), (Sign, 2, 3), (Number, 3, 4)],
    ),
    (b"!=!=", &[(Sign, 0, 2), (Sign, 2, 4)]),
    (b"<!=", &[(Sign, 0, 1), (Sign, 1, 3)]),
];

#[test]
fn signs(rt: HostRuntime) {
    check_cuts(&rt, rt.alloc(), &SIGNS);
}

static BLANKS_AND_COMMENTS: [(&[u8], &[Piece]); 11] = [
    (b" \t ", &[]),
    (b"--", &[]),
    (b"a--b\nc", &[(Name, 0, 1)]),
    (b"a - -- 'b", &[(Name, 0, 1), (Sign, 2, 3)]),
    (b"/**/", &[]),
    (b"/***/a", &[(Name, 5, 6)]),
    (b"a/* /* */ ' */b", &[(Name, 0, 1), (Name, 14, 15)]),
    (b"/*/**/*/x", &[(Name, 8, 9)]),
    (b"/* -- */y", &[(Name, 8, 9)]),
    (b"/*[*/z", &[(Name, 5, 6)]),
    (b"/* * / ** // */ a", &[(Name, 16, 17)]),
];

#[test]
fn blanks_and_comments(rt: HostRuntime) {
    check_cuts(&rt, rt.alloc(), &BLANKS_AND_COMMENTS);
}

static REFUSALS: [(&[u8], u32, u32); 30] = [
    (b"/*/", 102, 1),
    (b"a /* /* */", 102, 3),
    (b"/*", 102, 1),
    (b"a ?", 102, 3),
    (b"\n", 102, 1),
    (b"a\rb", 102, 2),
    (b"[", 102, 1),
    (b"a [b", 102, 3),
    (b"[]", 102, 1),
    (b"a[]]", 102, 2),
    (b"'a", 102, 1),
    (b"''a'", 102, 4),
    (b" 'a''", 102, 2),
    (b"!", 102, 1),
    (b"! =", 102, 1),
    (b"a!b", 102, 2),
    (b"#a", 102, 1),
    (b"@", 102, 1),
    (b"{", 102, 1),
    (b"a'\t", 102, 2),
    (b"'\t'", 50001, 1),
    (b"a '\t'x?", 50001, 3),
    (b"'\t", 102, 1),
    (b"\\", 102, 1),
    (b"\"a\"", 102, 1),
    (b"\0", 102, 1),
    (b"[a] ' b", 102, 5),
    (b"1.2.[]", 102, 5),
    (b"'a''''", 102, 1),
    (b"/*/*/", 102, 1),
];

#[test]
fn refusals(rt: HostRuntime) {
    for &(bytes, number, at) in &REFUSALS {
        assert!(rt; bytes.len() < 100);
        assert!(rt; is_refused(rt.alloc(), bytes, number, at), "at {bytes:?}");
    }
}

static WITHIN_THE_LIMITS: [(&[u8], &[u8], usize, &[u8], usize); 14] = [
    (b"", b"a", 128, b"", 1),
    (b"[", b"a", 128, b"]", 1),
    (b"", b"7", 19, b"", 1),
    (b"1.", b"7", 18, b"", 1),
    (b".", b"7", 18, b"", 1),
    (b"x=", b"7", 18, b".7", 3),
    (b"", b"7", 19, b".", 1),
    (b"", b"(", 64, b"", 64),
    (b"", b"(", 64, b")(", 66),
    (b"", b"(", 63, b"/**/(", 64),
    (b"", b"(", 64, b"--(", 64),
    (b"", b"()", 65, b"(", 131),
    (b")))", b"(", 64, b"", 67),
    (b"", b"''", 300, b"", 1),
];

/// The number of the tokens of a text.
fn count_of(rt: &impl Abort, alloc: Global, bytes: &[u8]) -> Result<usize, TokenRefusal> {
    assert!(rt; bytes.len() <= 131_072);
    Ok(tokens(alloc, bytes)?.len())
}

#[test]
fn within_the_limits(rt: HostRuntime) -> Result<(), TokenRefusal> {
    for (place, (first, unit, count, last, expected)) in WITHIN_THE_LIMITS.iter().enumerate() {
        let bytes = repeated(rt.alloc(), first, unit, *count, last)?;
        let found = count_of(&rt, rt.alloc(), &bytes)?;
        assert!(rt; found == *expected, "{found} at {place}");
    }
    Ok(())
}

static OVER_THE_LIMITS: [(&[u8], &[u8], usize, &[u8], u32, u32); 16] = [
    (b"", b"a", 129, b"", 50001, 1),
    (b"b ", b"a", 129, b"", 50001, 3),
    (b"[", b"a", 129, b"]", 50001, 1),
    (b"[", b"a", 129, b"", 102, 1),
    (b"", b"7", 20, b"", 50001, 1),
    (b"1.", b"7", 19, b"", 50001, 1),
    (b".", b"7", 19, b"", 50001, 1),
    (b"x=", b"7", 19, b".7", 50001, 3),
    (b"", b"7", 20, b"?", 50001, 1),
    (b"", b"(", 65, b"", 50001, 65),
    (b"", b"(", 64, b")((", 50001, 67),
    (b"", b"(", 64, b"/**/", 50001, 65),
    (b"", b"(", 63, b"/* /* */ */", 50001, 67),
    (b"", b"(", 64, b"/*", 102, 65),
    (b"", b"/*", 64, b"", 102, 1),
    (b")))", b"(", 65, b"", 50001, 68),
];

#[test]
fn over_the_limits(rt: HostRuntime) -> Result<(), Memory> {
    for (place, (first, unit, count, last, number, at)) in OVER_THE_LIMITS.iter().enumerate() {
        let bytes = repeated(rt.alloc(), first, unit, *count, last)?;
        assert!(rt; bytes.len() <= 131_072);
        assert!(rt; is_refused(rt.alloc(), &bytes, *number, *at), "at {place}");
    }
    Ok(())
}

/// How many comments are opened and how many are closed, and the number and the place of the refusal, where there is one.
static COMMENTS: [(usize, usize, u32, u32); 3] = [
    (64, 64, 0, 0),
    (65, 65, 50_001, 129),
    (65, 64, 102, 1),
];

/// A name after such comments is cut, or refused.
fn fits_comments(rt: &impl Abort, alloc: Global, bytes: &[u8], number: u32, at: u32) -> bool {
    assert!(rt; bytes.len() <= 131_072);
    if number == 0 {
        is_cut(alloc, bytes, &[(Name, 257, 258)])
    } else {
        is_refused(alloc, bytes, number, at)
    }
}

#[test]
fn nested_comments(rt: HostRuntime) -> Result<(), Memory> {
    for (opened, closed, number, at) in &COMMENTS {
        let front = repeated(rt.alloc(), b"", b"/*", *opened, b"")?;
        let bytes = repeated(rt.alloc(), &front, b"*/", *closed, b" a")?;
        assert!(rt;
            fits_comments(&rt, rt.alloc(), &bytes, *number, *at),
            "at {opened} {closed}"
        );
    }
    Ok(())
}

#[test]
fn the_longest_text(rt: HostRuntime) -> Result<(), TokenRefusal> {
    let bytes = repeated(rt.alloc(), b"", b"a+", 65_536, b"")?;
    assert!(rt; bytes.len() <= 131_072);
    let found = tokens(rt.alloc(), &bytes)?;
    let last = token_of((Sign, 131_071, 131_072));
    let length = found.len();
    assert!(rt;
        length == 131_072 && found.as_slice().last() == Some(&last),
        "{length}"
    );
    Ok(())
}
