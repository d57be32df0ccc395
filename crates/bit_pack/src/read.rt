ghost use Rattle.std.specs.Prelude.{◌≡◌, ℕ, ◌+◌, ◌-◌, ◌*◌, ◌/◌, ◌%◌, ◌^◌, ◌<◌, ◌≤◌, length};
ghost use Rattle.bit_pack.specs.Codes.{number_of, code_at, HasCodes};

/// The `W` bits that begin `bit` bits after the beginning of word `base`.
#[inline(always)]
fn picked<const W: usize>(words: &[u64], base: usize, bit: usize) -> u64
    requires width { W ≤ 64 }
    requires there { 64 * base + bit + W ≤ 64 * length words.now }
    ensures { result ≡ number_of 64 words.now / 2 ^ (64 * base + bit) % 2 ^ W }
{
    if W == 0 {
        return 0;
    }
    let word = base + bit / 64;
    let off = bit % 64;
    let low = words[word] >> off;
    let all = if off + W > 64 {
        low | words[word + 1] << (64 - off)
    } else {
        low
    };
    all & u64::MAX >> (64 - W)
}

/// Code `i` of the words, at `W` bits a code.
pub fn lane<const W: usize>(words: &[u64], i: usize) -> u64
    requires width { W ≤ 64 }
    requires there { (i + 1) * W ≤ 64 * length words.now }
    ensures { result ≡ code_at W words.now i }
{
    picked::<W>(words, i / 64 * W, i % 64 * W)
}

/// The eight codes from place `J` on of the sixty-four in a block of `W` words. `W` and `J` are known when it is
/// compiled, so each shift is by a constant and no branch is left.
#[inline(always)]
fn eight<const W: usize, const J: usize>(
    words: &[u64],
    block: usize,
    at: usize,
    out: &mut [u64; 1024],
)
    requires width { W ≤ 64 }
    requires place { J + 8 ≤ 64 }
    requires there { (block + 1) * W ≤ length words.now }
    requires room { at + J + 8 ≤ 1024 }
    ensures { HasCodes W words.now (64 * block + J) (at + J) 8 out.old out.new }
{
    let base = block * W;
    for j in 0..8 {
        out[at + J + j] = picked::<W>(words, base, (J + j) * W);
    }
}

/// The sixty-four codes of a block of `W` words.
fn block_of<const W: usize>(words: &[u64], block: usize, at: usize, out: &mut [u64; 1024])
    requires width { W ≤ 64 }
    requires there { (block + 1) * W ≤ length words.now }
    requires room { at + 64 ≤ 1024 }
    ensures { HasCodes W words.now (64 * block) at 64 out.old out.new }
{
    eight::<W, 0>(words, block, at, out);
    eight::<W, 8>(words, block, at, out);
    eight::<W, 16>(words, block, at, out);
    eight::<W, 24>(words, block, at, out);
    eight::<W, 32>(words, block, at, out);
    eight::<W, 40>(words, block, at, out);
    eight::<W, 48>(words, block, at, out);
    eight::<W, 56>(words, block, at, out);
}

/// The codes of `count` whole blocks from block `first` on.
fn blocks_from<const W: usize>(
    words: &[u64],
    first: usize,
    at: usize,
    count: usize,
    out: &mut [u64; 1024],
)
    requires width { W ≤ 64 }
    requires there { (b : ℕ) → b < count → (first + b + 1) * W ≤ length words.now }
    requires room { at + 64 * count ≤ 1024 }
    requires numbered { first + count < 2 ^ 64 }
    ensures { HasCodes W words.now (64 * first) at (64 * count) out.old out.new }
{
    for block in 0..count {
        block_of::<W>(words, first + block, at + 64 * block, out);
    }
}

/// Puts code `from + i` into place i, for each i from `at` up to `end`, one by one.
fn singles<const W: usize>(words: &[u64], from: usize, at: usize, end: usize, out: &mut [u64; 1024])
    requires width { W ≤ 64 }
    requires within { (at ≤ end) × (end ≤ 1024) }
    requires there { (from + end) * W ≤ 64 * length words.now }
    ensures { HasCodes W words.now (from + at) at (end - at) out.old out.new }
{
    let base = from / 64 * W;
    for i in at..end {
        out[i] = picked::<W>(words, base, (from % 64 + i) * W);
    }
}

/// Reads `count` codes of `W` bits from code `from` on into the first places of a batch; the other places stay as they
/// are. Whole blocks of sixty-four are read without a branch, so a reading is fastest from a multiple of 64 on.
pub fn unpack<const W: usize>(words: &[u64], from: usize, count: usize, out: &mut [u64; 1024])
    requires width { W ≤ 64 }
    requires within { count ≤ 1024 }
    requires there { 0 < count → (from + count) * W ≤ 64 * length words.now }
    ensures { HasCodes W words.now from 0 count out.old out.new }
{
    if count == 0 {
        return;
    }
    let head = count.min((64 - from % 64) % 64);
    let blocks = (count - head) / 64;
    singles::<W>(words, from, 0, head, out);
    blocks_from::<W>(words, from.div_ceil(64), head, blocks, out);
    singles::<W>(words, from, head + 64 * blocks, count, out);
}
