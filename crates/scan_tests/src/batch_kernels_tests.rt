use batch_kernels::{chosen, greatest_chosen, keep_from, keep_where, least_chosen, sum_chosen};

/// Five rows, of which the fourth is not chosen: their codes and numbers.
#[derive(Drop)]
struct Rows {
    codes: [u64; 1024],
    numbers: [i64; 1024],
    mask: [bool; 1024],
}

fn five_rows() -> Rows {
    let mut rows = Rows {
        codes: [0; 1024],
        numbers: [0; 1024],
        mask: [false; 1024],
    };
    for (place, (code, number)) in [(7, -7), (5, 5), (1, 2), (9, 9), (4, 1)].iter().enumerate() {
        rows.codes[place] = *code;
        rows.numbers[place] = *number;
        rows.mask[place] = *code != 9;
    }
    rows
}

#[test]
fn all_places_are_one_group(rt: HostRuntime) {
    let rows = five_rows();
    for &(count, wanted) in &[(5, 4), (4, 3), (0, 0)] {
        assert!(rt; chosen(&rows.mask, count) == wanted, "of {count}");
    }
    assert!(rt; sum_chosen(&rows.numbers, &rows.mask, 5, 1) == 2);
    assert!(rt; least_chosen(&rows.codes, &rows.mask, 5, 9) == 1);
    assert!(rt; greatest_chosen(&rows.codes, &rows.mask, 5, 0) == 7);
}

#[test]
fn masks_are_joined(rt: HostRuntime) {
    let rows = five_rows();
    let mut mask = rows.mask;
    let mut odd = [false; 1024];
    odd[0] = true;
    odd[3] = true;
    keep_from(&mut mask, &rows.codes, 5);
    assert!(rt; mask[0] && mask[1] && !mask[2] && !mask[3] && !mask[4]);
    keep_where(&mut mask, &odd, true);
    assert!(rt; mask[0] && !mask[1] && !mask[3]);
}
