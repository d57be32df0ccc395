ghost use Rattle.std.specs.Prelude.{◌≡◌, ℕ, ◌+◌, ◌-◌, ◌*◌, ◌/◌, ◌%◌, ◌^◌, ◌<◌, ◌≤◌, length, slice_index, All, take, ◌++◌, OnOk, OnErr};
ghost use Rattle.std.specs.Int.{bit_at};
ghost use Rattle.bit_pack.specs.Codes.{number_of, code_at, packed, IsWritten};

use cs_base::Memory;

/// A code put above the `used` low bits of a word, as far as it fits.
#[inline(always)]
fn merged(word: u64, used: usize, code: u64) -> u64
    requires used { used < 64 }
    requires low { word < 2 ^ used }
    ensures { result ≡ (word + 2 ^ used * code) % 2 ^ 64 }
{
    word | code << used
}

/// What of a code did not fit above the `used` low bits of a word.
#[inline(always)]
fn carried(used: usize, code: u64) -> u64
    requires { used < 64 }
    ensures { result ≡ code / 2 ^ (64 - used) }
{
    if used == 0 { 0 } else { code >> (64 - used) }
}

/// Puts code `i` of at most sixty-four after those before it, whose last bits stand in `last`, and answers the new last
/// bits.
#[inline(always)]
fn put<const W: usize>(codes: &[u64], i: usize, last: u64, words: &mut [u64; 64]) -> u64
    requires width { W ≤ 64 }
    requires place { i < 64 }
    requires there { i < length codes.now }
    requires below { All (λ code. code < 2 ^ W) codes.now }
    requires before { IsWritten W codes.now i words.old last }
    ensures { IsWritten W codes.now (i + 1) words.new result }
{
    let used = i * W % 64;
    let full = merged(last, used, codes[i]);
    if used + W < 64 {
        full
    } else {
        words[i * W / 64] = full;
        carried(used, codes[i])
    }
}

/// Puts eight codes from code `J` on. `W` and `J` are known when it is compiled, so each shift is by a constant and no
/// branch is left.
#[inline(always)]
fn eight<const W: usize, const J: usize>(codes: &[u64], last: u64, words: &mut [u64; 64]) -> u64
    requires width { W ≤ 64 }
    requires place { J + 8 ≤ 64 }
    requires there { J + 8 ≤ length codes.now }
    requires below { All (λ code. code < 2 ^ W) codes.now }
    requires before { IsWritten W codes.now J words.old last }
    ensures { IsWritten W codes.now (J + 8) words.new result }
{
    let mut word = last;
    for j in 0..8 {
        word = put::<W>(codes, J + j, word, words);
    }
    word
}

/// Puts sixty-four codes into the first `W` words.
fn block_of<const W: usize>(codes: &[u64], words: &mut [u64; 64])
    requires width { W ≤ 64 }
    requires whole { length codes.now ≡ 64 }
    requires below { All (λ code. code < 2 ^ W) codes.now }
    ensures { take W words.new ≡ packed W codes.now }
{
    let last = eight::<W, 0>(codes, 0, words);
    let last = eight::<W, 8>(codes, last, words);
    let last = eight::<W, 16>(codes, last, words);
    let last = eight::<W, 24>(codes, last, words);
    let last = eight::<W, 32>(codes, last, words);
    let last = eight::<W, 40>(codes, last, words);
    let last = eight::<W, 48>(codes, last, words);
    let _none = eight::<W, 56>(codes, last, words);
}

/// Puts fewer than sixty-four codes into the first words, and answers how many words they take.
fn rest_of<const W: usize>(codes: &[u64], words: &mut [u64; 64]) -> usize
    requires width { W ≤ 64 }
    requires few { length codes.now < 64 }
    requires below { All (λ code. code < 2 ^ W) codes.now }
    ensures few { result ≤ 64 }
    ensures words { take result words.new ≡ packed W codes.now }
{
    let mut last = 0;
    for i in 0..codes.len() {
        last = put::<W>(codes, i, last, words);
    }
    let bits = codes.len() * W;
    if bits % 64 == 0 {
        return bits / 64;
    }
    words[bits / 64] = last;
    bits / 64 + 1
}

/// As `pack`, but where memory is wanting some of the words may stand after those that were there.
fn put_blocks<const W: usize>(codes: &[u64], out: &mut Vec<u64>) -> Result<(), Memory>
    requires width { W ≤ 64 }
    requires below { All (λ code. code < 2 ^ W) codes.now }
    ensures ok { OnOk result (out.new.items ≡ out.old.items ++ packed W codes.now) }
    ensures err { OnErr result (take (length out.old.items) out.new.items ≡ out.old.items) }
{
    let blocks = codes.len() / 64;
    out.reserve(blocks * W)?;
    let mut words = [0; 64];
    for block in 0..blocks {
        block_of::<W>(&codes[64 * block..64 * block + 64], &mut words);
        out.extend_from_slice(&words[..W])?;
    }
    let length = rest_of::<W>(&codes[64 * blocks..], &mut words);
    out.extend_from_slice(&words[..length])?;
    Ok(())
}

/// Puts the codes after the words that are there, `W` bits each, from a new word on; the bits past the last code are 0.
/// After `Memory` the words are as before.
pub fn pack<const W: usize>(codes: &[u64], out: &mut Vec<u64>) -> Result<(), Memory>
    requires width { W ≤ 64 }
    requires below { All (λ code. code < 2 ^ W) codes.now }
    ensures words { OnOk result (out.new.items ≡ out.old.items ++ packed W codes.now) }
    ensures err { OnErr result (out.new.items ≡ out.old.items) }

    // What stands in those words: code i is code i, and bit b of the long number is bit b % 64 of word b / 64.
    ensures codes { (i : ℕ) → code_at W (packed W codes.now) i ≡ slice_index codes.now i }
    ensures bits { (b : ℕ) → bit_at (slice_index (packed W codes.now) (b / 64)) (b % 64) ≡ bit_at (number_of W codes.now) b }
{
    let held = out.len();
    let done = put_blocks::<W>(codes, out);
    if done.is_err() {
        out.truncate(held);
    }
    done
}
