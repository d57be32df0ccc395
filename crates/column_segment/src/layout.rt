ghost use Rattle.std.specs.Prelude.{◌≡◌, ◌+◌, ◌*◌, ◌<◌, ◌≤◌, ◌^◌, ◌/◌, ◌⊎◌, ℕ, List, length, All, Contains};
ghost use Rattle.column_segment.specs.Layouts.{IsLeastWidth, MatchNeighbours, begins_run, runs_below};

/// The least number of bits that a number has room in, 0 to 64.
pub fn bits_of(number: u64) -> u32
    ensures most { result ≤ 64 }
    ensures room { number < 2 ^ result }
    ensures least { (other : ℕ) → number < 2 ^ other → result ≤ other }
{
    u64::BITS - number.leading_zeros()
}

/// The greatest of the codes, and 0 where there is none.
fn greatest_of(codes: &[u64]) -> u64
    ensures bound { All (λ code. code ≤ result) codes.now }
    ensures reached { (result ≡ 0) ⊎ Contains codes.now result }
{
    let mut greatest = 0;
    for code in codes {
        if *code > greatest {
            greatest = *code;
        }
    }
    greatest
}

/// The least width with room for each code.
pub fn width_of(codes: &[u64]) -> u32
    ensures most { result ≤ 64 }
    ensures width { IsLeastWidth codes.now result }
{
    bits_of(greatest_of(codes))
}

/// Whether a place begins a run of equal codes, and so one of other codes of the same cells.
fn begins(codes: &[u64], i: usize) -> bool
    requires { i < length codes.now }
    ensures { (others : List ℕ) → MatchNeighbours codes.now others → result ≡ begins_run others i }
{
    i == 0 || codes[i - 1] != codes[i]
}

/// How many maximal runs of equal codes there are, and so of any codes that tell the same cells apart.
pub fn runs_in(codes: &[u64]) -> usize
    ensures bound { result ≤ length codes.now }
    ensures runs { (others : List ℕ) → MatchNeighbours codes.now others → result ≡ runs_below others (length others) }
{
    let mut runs = 0;
    for i in 0..codes.len() {
        if begins(codes, i) {
            runs += 1;
        }
    }
    runs
}
