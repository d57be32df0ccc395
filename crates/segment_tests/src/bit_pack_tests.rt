ghost use Rattle.std.specs.Prelude.{◌^◌, ◌<◌, ◌≤◌, All, IfOk};

use bit_pack::{lane, lane_width, pack, pack_width, unpack, unpack_width};
use cs_base::Memory;
use std::alloc::Global;
use std::process::Abort;
use std::test::Fail;

/// The lowest bits of a number.
fn low_bits(number: u64, width: u32) -> u64
    requires { width ≤ 64 }
    ensures { result < 2 ^ width }
{
    if width == 64 {
        number
    } else {
        number % (1 << width)
    }
}

/// Codes of a width whose bits are as good as random.
fn sample(alloc: Global, width: u32, length: usize) -> Result<Vec<u64>, Memory>
    requires { width ≤ 64 }
    ensures { IfOk result (λ codes. All (λ code. code < 2 ^ width) codes.items) }
{
    let mut codes = Vec::new(alloc);
    let mut state = 88172645463325252u64;
    for _ in 0..length {
        state = state ^ state << 13;
        state = state ^ state >> 7;
        state = state ^ state << 17;
        codes.push(low_bits(state, width))?;
    }
    Ok(codes)
}

/// Bit b of the words is bit b % 64 of word b / 64.
fn bit_of(words: &[u64], bit: usize) -> bool {
    match words.get(bit / 64) {
        Some(word) => word >> (bit % 64) & 1 == 1,
        None => false,
    }
}

/// The words of the codes, bit by bit: bit j of code i is bit i * width + j, and no other bit is set.
fn check_bits(rt: &impl Abort, codes: &[u64], words: &[u64], width: usize)
    requires { width ≤ 64 }
{
    assert!(rt; codes.len() <= 1025);
    assert!(rt; words.len() == (codes.len() * width + 63) / 64);
    for i in 0..codes.len() {
        for j in 0..width {
            let bit = bit_of(words, i * width + j);
            assert!(rt; bit == (codes[i] >> j & 1 == 1), "bit {j} of {i}");
        }
    }
    for bit in codes.len() * width..64 * words.len() {
        assert!(rt; !bit_of(words, bit), "bit {bit} is past the last code");
    }
}

/// Batches read from a place on: the first places are the codes, and the others stay 9.
fn check_batch<const W: usize>(rt: &impl Abort, codes: &[u64], words: &[u64], from: usize)
    requires { W ≤ 64 }
{
    if from > codes.len() {
        return;
    }
    let count = (codes.len() - from).min(1024);
    assert!(rt; codes.len() <= 1025 && words.len() <= 1025);
    assert!(rt; (from + count) * W <= 64 * words.len());
    let mut batch = [9; 1024];
    unpack::<W>(words, from, count, &mut batch);
    let mut same = [9; 1024];
    unpack_width(W as u32, words, from, count, &mut same);
    for i in 0..1024 {
        let want = if i < count { codes[from + i] } else { 9 };
        assert!(rt;
            batch[i] == want && same[i] == want,
            "place {i} from {from}"
        );
    }
}

/// Each code is read from its place.
fn check_lanes<const W: usize>(rt: &impl Abort, codes: &[u64], words: &[u64])
    requires { W ≤ 64 }
{
    assert!(rt; codes.len() <= 1025 && words.len() <= 1025);
    for i in 0..codes.len() {
        assert!(rt; (i + 1) * W <= 64 * words.len());
        let wide = lane_width(W as u32, words, i);
        assert!(rt;
            lane::<W>(words, i) == codes[i] && wide == codes[i],
            "code {i}"
        );
    }
}

/// What `pack` writes after a word that was there, read in every way.
fn check_codes<const W: usize>(rt: &impl Abort, alloc: Global, codes: &[u64]) -> Result<(), Memory>
    requires width { W ≤ 64 }
    requires below { All (λ code. code < 2 ^ W) codes.now }
{
    let mut out = Vec::new(alloc);
    out.push(7)?;
    pack::<W>(codes, &mut out)?;
    let mut same = Vec::new(alloc);
    pack_width(W as u32, codes, &mut same)?;
    let words = same.as_slice();
    assert!(rt; out.as_slice().split_first() == Some((&7, words)));
    check_bits(rt, codes, words, W);
    check_lanes::<W>(rt, codes, words);
    for &from in &[0, 1, 63, 64, 65, 1000] {
        check_batch::<W>(rt, codes, words, from);
    }
    Ok(())
}

fn check_width<const W: usize>(rt: &impl Abort, alloc: Global) -> Result<(), Memory>
    requires { W ≤ 64 }
{
    for &length in &[0, 1, 63, 64, 65, 1025] {
        let codes = sample(alloc, W as u32, length)?;
        check_codes::<W>(rt, alloc, &codes)?;
    }
    Ok(())
}

macro_rules! check_widths {
    ($rt:expr, $alloc:expr, $($n:literal)*) => {
        $(check_width::<$n>($rt, $alloc)?;)*
    };
}

/// The widths from 0 to 12. The proof of a few calls is much shorter than a part of the proof of many.
fn first_widths(rt: &impl Abort, alloc: Global) -> Result<(), Memory> {
    check_widths!(rt, alloc, 0 1 2 3 4 5 6 7 8 9 10 11 12);
    Ok(())
}

fn second_widths(rt: &impl Abort, alloc: Global) -> Result<(), Memory> {
    check_widths!(rt, alloc, 13 14 15 16 17 18 19 20 21 22 23 24 25);
    Ok(())
}

fn third_widths(rt: &impl Abort, alloc: Global) -> Result<(), Memory> {
    check_widths!(rt, alloc, 26 27 28 29 30 31 32 33 34 35 36 37 38);
    Ok(())
}

fn fourth_widths(rt: &impl Abort, alloc: Global) -> Result<(), Memory> {
    check_widths!(rt, alloc, 39 40 41 42 43 44 45 46 47 48 49 50 51);
    Ok(())
}

fn last_widths(rt: &impl Abort, alloc: Global) -> Result<(), Memory> {
    check_widths!(rt, alloc, 52 53 54 55 56 57 58 59 60 61 62 63 64);
    Ok(())
}

#[test]
fn each_width_at_six_lengths(rt: HostRuntime) -> Result<(), Fail> {
    first_widths(&rt, rt.alloc())?;
    second_widths(&rt, rt.alloc())?;
    third_widths(&rt, rt.alloc())?;
    fourth_widths(&rt, rt.alloc())?;
    last_widths(&rt, rt.alloc())?;
    Ok(())
}

/// The words of a few codes, as a slow program of another language computed them.
#[test]
fn words_from_outside(rt: HostRuntime) -> Result<(), Fail> {
    let mut out = Vec::new(rt.alloc());
    pack::<0>(&[0, 0, 0], &mut out)?;
    pack::<1>(&[1, 0, 1, 1], &mut out)?;
    pack::<2>(&[1, 0, 3, 2], &mut out)?;
    pack::<13>(&[8191, 1, 4096, 5, 77, 8190], &mut out)?;
    pack::<64>(&[u64::MAX, 1], &mut out)?;
    let words = [13, 177, 346780194964520959, 16380, u64::MAX, 1];
    assert!(rt; out.as_slice() == words.as_slice());
    Ok(())
}
