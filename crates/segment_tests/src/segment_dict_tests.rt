use cs_base::Memory;
use segment_dict::{NumberDict, TextDict, numbers_of, texts_of};
use std::alloc::Global;
use std::process::Abort;
use std::test::Fail;

/// Numbers, their dictionary, whether one is NULL, and their codes.
type Numbers = (&'static [Option<i64>], &'static [i64], bool, &'static [u64]);

static NUMBERS: [Numbers; 5] = [
    (&[], &[], false, &[]),
    (&[None, None], &[], true, &[0, 0]),
    (&[Some(7)], &[7], false, &[0]),
    (
        &[Some(3), None, Some(-1), Some(3)],
        &[-1, 3],
        true,
        &[2, 0, 1, 2],
    ),
    (
        &[Some(i64::MAX), Some(0), Some(i64::MIN)],
        &[i64::MIN, 0, i64::MAX],
        false,
        &[2, 1, 0],
    ),
];

/// That each number has its code, and the code its number.
fn check_numbers(rt: &impl Abort, dict: &NumberDict, cells: &[Option<i64>], codes: &[u64]) {
    for i in 0..cells.len() {
        let code = dict.code_of(cells[i]);
        assert!(rt; code == codes.get(i).copied(), "{i} of {cells:?}");
        if let Some(code) = code {
            assert!(rt; dict.entry(code) == cells[i]);
        }
    }
}

/// That the numbers of a case have their dictionary.
fn check_number_dict(rt: &impl Abort, alloc: Global, case: &Numbers) -> Result<(), Memory> {
    let (cells, wanted, has_null, codes) = *case;
    let dict = numbers_of(alloc, cells)?;
    check_numbers(rt, &dict, cells, codes);
    assert!(rt; dict.code_of(Some(5)).is_none() && dict.words() == wanted.len() as u64);
    // The fields, all of them.
    let NumberDict { entries, nulls } = &dict;
    assert!(rt;
        (entries.as_slice(), *nulls) == (wanted, has_null),
        "of {cells:?}"
    );
    Ok(())
}

#[test]
fn numbers_are_sorted(rt: HostRuntime) -> Result<(), Fail> {
    for case in &NUMBERS {
        check_number_dict(&rt, rt.alloc(), case)?;
    }
    Ok(())
}

/// Texts, the ends and the bytes of their dictionary, whether one is NULL, its words, and their codes.
type Texts = (
    &'static [Option<&'static [u8]>],
    &'static [u64],
    &'static [u8],
    bool,
    u64,
    &'static [u64],
);

static TEXTS: [Texts; 7] = [
    (&[], &[], b"", false, 0, &[]),
    (&[None], &[], b"", true, 0, &[0]),
    (&[Some(b"")], &[0], b"", false, 1, &[0]),
    (
        &[Some(b"b"), Some(b"ab"), Some(b"b")],
        &[2, 3],
        b"abb",
        false,
        3,
        &[1, 0, 1],
    ),
    (
        &[Some(b"ab"), None, Some(b"")],
        &[0, 2],
        b"ab",
        true,
        3,
        &[2, 0, 1],
    ),
    (&[Some(b"row groups")], &[10], b"row groups", false, 3, &[0]),
    (&[Some(b"row grou")], &[8], b"row grou", false, 2, &[0]),
];

/// That each text has its code, and the code its text.
fn check_texts(rt: &impl Abort, dict: &TextDict, cells: &[Option<&[u8]>], codes: &[u64]) {
    for i in 0..cells.len() {
        let code = dict.code_of(cells[i]);
        assert!(rt; code == codes.get(i).copied(), "{i} of {cells:?}");
        if let Some(code) = code {
            assert!(rt; dict.entry(code) == cells[i]);
        }
    }
}

/// The fields of a dictionary, all of them.
fn check_fields(rt: &impl Abort, dict: &TextDict, wanted: (&[u64], &[u8], bool)) {
    let TextDict { ends, bytes, nulls } = dict;
    assert!(rt; (ends.as_slice(), bytes.as_slice(), *nulls) == wanted);
}

/// That the texts of a case have their dictionary.
fn check_dict(rt: &impl Abort, alloc: Global, case: &Texts) -> Result<(), Memory> {
    let (cells, ends, bytes, has_null, words, codes) = *case;
    let dict = texts_of(alloc, cells)?;
    check_texts(rt, &dict, cells, codes);
    assert!(rt;
        dict.code_of(Some(b"a")).is_none() && dict.words() == words,
        "of {cells:?}"
    );
    check_fields(rt, &dict, (ends, bytes, has_null));
    Ok(())
}

#[test]
fn texts_are_sorted_and_joined(rt: HostRuntime) -> Result<(), Fail> {
    for case in &TEXTS {
        check_dict(&rt, rt.alloc(), case)?;
    }
    Ok(())
}
