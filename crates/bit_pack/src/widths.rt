ghost use Rattle.std.specs.Prelude.{◌≡◌, ℕ, ◌+◌, ◌*◌, ◌/◌, ◌%◌, ◌^◌, ◌<◌, ◌≤◌, length, slice_index, All, ◌++◌, OnOk, OnErr};
ghost use Rattle.std.specs.Int.{bit_at};
ghost use Rattle.bit_pack.specs.Codes.{number_of, code_at, packed, HasCodes};

use crate::read::{lane, unpack};
use crate::write::pack;
use cs_base::Memory;

/// A call with the width as its constant, at each of the widths named.
macro_rules! choose {
    ($width:expr, $call:ident $given:tt, $($n:literal)*) => {
        match $width {
            $($n => $call::<$n> $given,)*
            _ => unreachable!(),
        }
    };
}

/// A call at a width from 0 to 64 that is known only when it runs.
macro_rules! by_width {
    ($width:expr, $call:ident $given:tt) => {
        choose!($width, $call $given,
            0 1 2 3 4 5 6 7 8 9 10 11 12 13 14 15 16 17 18 19 20 21 22 23 24 25 26 27 28 29 30 31 32
            33 34 35 36 37 38 39 40 41 42 43 44 45 46 47 48 49 50 51 52 53 54 55 56 57 58 59 60 61 62 63 64)
    };
}

/// Code `i` of the words, at `width` bits a code.
pub fn lane_width(width: u32, words: &[u64], i: usize) -> u64
    requires width { width ≤ 64 }
    requires there { (i + 1) * width ≤ 64 * length words.now }
    ensures { result ≡ code_at width words.now i }
{
    by_width!(width, lane(words, i))
}

/// As `unpack`, at `width` bits a code.
pub fn unpack_width(width: u32, words: &[u64], from: usize, count: usize, out: &mut [u64; 1024])
    requires width { width ≤ 64 }
    requires within { count ≤ 1024 }
    requires there { 0 < count → (from + count) * width ≤ 64 * length words.now }
    ensures { HasCodes width words.now from 0 count out.old out.new }
{
    by_width!(width, unpack(words, from, count, out))
}

/// As `pack`, at `width` bits a code.
pub fn pack_width(width: u32, codes: &[u64], out: &mut Vec<u64>) -> Result<(), Memory>
    requires width { width ≤ 64 }
    requires below { All (λ code. code < 2 ^ width) codes.now }
    ensures words { OnOk result (out.new.items ≡ out.old.items ++ packed width codes.now) }
    ensures err { OnErr result (out.new.items ≡ out.old.items) }
    ensures codes { (i : ℕ) → code_at width (packed width codes.now) i ≡ slice_index codes.now i }
    ensures bits { (b : ℕ) → bit_at (slice_index (packed width codes.now) (b / 64)) (b % 64) ≡ bit_at (number_of width codes.now) b }
{
    by_width!(width, pack(codes, out))
}
