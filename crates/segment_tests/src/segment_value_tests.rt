use segment_value::{restore, scale_of, shrink};
use std::process::Abort;

const LEAST: i64 = i64::MIN;

const MOST: i64 = i64::MAX;

const E18: i64 = 1_000_000_000_000_000_000;

/// Cells, their exponent, base and whether one is NULL, where they have a scale, and their codes.
type Case = (
    &'static [Option<i64>],
    Option<(u32, i64, bool)>,
    &'static [u64],
);

static CASES: [Case; 13] = [
    (&[], Some((0, 0, false)), &[]),
    (&[None], Some((0, 0, true)), &[0]),
    (&[Some(5)], Some((0, 5, false)), &[0]),
    (&[Some(0), Some(0)], Some((0, 0, false)), &[0, 0]),
    (&[Some(0), None], Some((0, 0, true)), &[1, 0]),
    (&[Some(0), Some(7000)], Some((3, 0, false)), &[0, 7]),
    (
        &[Some(300), Some(100), None],
        Some((2, 1, true)),
        &[3, 1, 0],
    ),
    (&[Some(-20), Some(30)], Some((1, -2, false)), &[0, 5]),
    (&[Some(E18), Some(-3 * E18)], Some((18, -3, false)), &[4, 0]),
    (&[Some(LEAST), None], Some((0, LEAST, true)), &[1, 0]),
    (
        &[Some(LEAST), Some(MOST)],
        Some((0, LEAST, false)),
        &[0, u64::MAX],
    ),
    (
        &[Some(MOST), Some(-MOST), None],
        Some((0, -MOST, true)),
        &[u64::MAX, 1, 0],
    ),
    (&[Some(LEAST), Some(MOST), None], None, &[]),
];

/// That the cells of a case have their scale, each its code, and the code its cell.
fn check_case(rt: &impl Abort, case: &Case) {
    let (cells, wanted, codes) = *case;
    let found = scale_of(cells);
    let parts = found.map(|it| (it.exponent, it.base, it.nulls));
    assert!(rt; parts == wanted, "of {cells:?}");
    if let Some(scale) = found {
        for i in 0..cells.len() {
            let code = shrink(scale, cells[i]);
            assert!(rt;
                codes.get(i) == Some(&code) && restore(scale, code) == cells[i],
                "of {cells:?}"
            );
        }
    }
}

#[test]
fn cells_become_codes_and_come_back(rt: HostRuntime) {
    for case in &CASES {
        check_case(&rt, case);
    }
}
