use cs_base::Memory;
use segment_rle::{Runs, runs_of};
use std::alloc::Global;
use std::process::Abort;
use std::test::Fail;

const LAST: u64 = u64::MAX;

/// Codes, the codes and the ends of their runs, and how many words those are.
type Case = (&'static [u64], &'static [u64], &'static [u64], u64);

static CASES: [Case; 6] = [
    (&[], &[], &[], 0),
    (&[5], &[5], &[1], 2),
    (&[7, 7, 7], &[7], &[3], 2),
    (&[0, LAST, LAST], &[0, LAST], &[1, 3], 4),
    (&[1, 1, 2, 2, 2, 1], &[1, 2, 1], &[2, 5, 6], 6),
    (&[3, 4, 3, 4], &[3, 4, 3, 4], &[1, 2, 3, 4], 8),
];

/// The words and the fields of runs, all of them.
fn check_runs(rt: &impl Abort, runs: &Runs, case: &Case) {
    let (of, wanted_codes, wanted_ends, words) = *case;
    let Runs { codes, ends } = runs;
    assert!(rt;
        (runs.words(), codes.as_slice(), ends.as_slice()) == (words, wanted_codes, wanted_ends),
        "of {of:?}"
    );
}

/// That the codes of a case have their runs.
fn check_case(rt: &impl Abort, alloc: Global, case: &Case) -> Result<(), Memory> {
    let runs = runs_of(alloc, case.0)?;
    check_runs(rt, &runs, case);
    Ok(())
}

#[test]
fn runs_are_maximal(rt: HostRuntime) -> Result<(), Fail> {
    for case in &CASES {
        check_case(&rt, rt.alloc(), case)?;
    }
    Ok(())
}

#[test]
fn a_place_reads_its_run(rt: HostRuntime) -> Result<(), Fail> {
    let codes = [1, 1, 2, 2, 2, 1];
    let wanted = [(1, 2), (1, 2), (2, 5), (2, 5), (2, 5), (1, 6)];
    let runs = runs_of(rt.alloc(), &codes)?;
    for i in 0..6 {
        assert!(rt; runs.run_at(i) == wanted[i], "at {i}");
    }
    Ok(())
}
