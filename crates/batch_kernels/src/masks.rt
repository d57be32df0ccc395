// Masks: a bool for each place, true where the place is chosen.
ghost use Rattle.std.specs.Prelude.{◌≡◌, ℕ, ◌+◌, ◌<◌, ◌≤◌, ◌^◌, ◌&&◌, ◌||◌, nat_le, nat_lt, length, slice_index, slice_index_or, true, false, take, drop};
ghost use Rattle.std.specs.List.{list_any};
ghost use Rattle.batch_kernels.specs.Masks.{IsNarrowedAt, in_span, same_as};
ghost use Rattle.batch_kernels.specs.Places.{places};

/// How many places are asked at once whether one of them is chosen.
const BLOCK: usize = 1024;

/// Some of the codes from `first` on: those of a range, or those outside of it.
#[derive(Clone, Copy, Debug, PartialEq, Eq)]
pub struct Span {
    /// The first code that may be one of them.
    pub first: u64,
    /// The least code of the range.
    pub least: u64,
    /// The greatest code of the range. Where it is below the least, the range is empty.
    pub greatest: u64,
    /// Whether the codes are those of the range, or those outside.
    pub inside: bool,
}

impl Span {
    /// The codes from `first` on that are at least `from` and below `to`, or, where not `inside`, that are not.
    pub fn new(first: u64, from: u128, to: u128, inside: bool) -> Span
        ensures { (code : ℕ) → code < 2 ^ 64 → in_span result code ≡ (nat_le first code && same_as inside (nat_le from code && nat_lt code to)) }
    {
        let (least, greatest) = bounds(from, to);
        Span {
            first,
            least,
            greatest,
            inside,
        }
    }

    /// Whether a code is one of them.
    pub fn has(self, code: u64) -> bool
        ensures { result ≡ in_span self code }
    {
        let in_range = (self.least <= code) & (code <= self.greatest);
        (self.first <= code) & (in_range == self.inside)
    }

    /// Where those below a count lie: from the first number on, and below the second.
    fn reach(self, count: usize) -> (usize, usize)
        ensures within { result.1 ≤ count }
        ensures between { (code : ℕ) → code < count → in_span self code ≡ true → (result.0 ≤ code) × (code < result.1) }
    {
        if !self.inside {
            return (0, count);
        }
        let end = self.greatest.saturating_add(1).min(count as u64);
        (self.first.max(self.least) as usize, end as usize)
    }
}

/// The least and the greatest code that are at least `from` and below `to`. The greatest is below the least where there is none.
fn bounds(from: u128, to: u128) -> (u64, u64)
    ensures { (code : ℕ) → code < 2 ^ 64 → (nat_le result.0 code && nat_le code result.1) ≡ (nat_le from code && nat_lt code to) }
{
    if from >= to || from > u64::MAX as u128 {
        return (1, 0);
    }
    let greatest = (to - 1).min(u64::MAX as u128);
    (from as u64, greatest as u64)
}

/// Of the `count` places from one on, keeps those whose codes are in a span. The codes stand in a batch.
pub fn narrow_in_span(codes: &[u64; 1024], count: usize, span: Span, from: usize, mask: &mut [bool])
    requires room { count ≤ 1024 }
    requires within { from + count ≤ length mask.old }
    ensures { IsNarrowedAt from count (λ i. in_span span (slice_index codes.now i)) mask.old mask.new }
{
    let least = span.first.max(span.least);
    if span.inside && least <= span.greatest {
        narrow_in_range(codes, count, least, span.greatest, from, mask);
    } else {
        narrow_by_span(codes, count, span, from, mask);
    }
}

/// The same, by the test of the span.
fn narrow_by_span(codes: &[u64; 1024], count: usize, span: Span, from: usize, mask: &mut [bool])
    requires room { count ≤ 1024 }
    requires within { from + count ≤ length mask.old }
    ensures { IsNarrowedAt from count (λ i. in_span span (slice_index codes.now i)) mask.old mask.new }
{
    for i in 0..count {
        mask[from + i] = mask[from + i] & span.has(codes[i]);
    }
}

/// The same of a range of codes, which has a code. Below the least one the distance to it wraps round, so one comparison tells.
fn narrow_in_range(
    codes: &[u64; 1024],
    count: usize,
    least: u64,
    greatest: u64,
    from: usize,
    mask: &mut [bool],
)
    requires room { count ≤ 1024 }
    requires within { from + count ≤ length mask.old }
    requires some { least ≤ greatest }
    ensures { IsNarrowedAt from count (λ i. nat_le least (slice_index codes.now i) && nat_le (slice_index codes.now i) greatest) mask.old mask.new }
{
    let width = greatest - least;
    for i in 0..count {
        mask[from + i] = mask[from + i] & (codes[i].wrapping_sub(least) <= width);
    }
}

/// Of the `count` places from one on, keeps those whose codes have a bool in a table that is true. The codes stand in a batch.
pub fn narrow_in_table(
    codes: &[u64; 1024],
    count: usize,
    table: &[bool],
    from: usize,
    mask: &mut [bool],
)
    requires room { count ≤ 1024 }
    requires within { from + count ≤ length mask.old }
    requires known { (i : ℕ) → i < count → slice_index codes.now i < length table.now }
    ensures { IsNarrowedAt from count (λ i. slice_index_or table.now (slice_index codes.now i) false) mask.old mask.new }
{
    for i in 0..count {
        mask[from + i] = mask[from + i] & table[codes[i] as usize];
    }
}

/// Leaves the places of a batch chosen whose code is at least this one.
pub fn keep_from(mask: &mut [bool; 1024], codes: &[u64; 1024], least: u64)
    ensures { (i : ℕ) → i < 1024 → slice_index_or mask.new i false ≡ (slice_index_or mask.old i false && nat_le least (slice_index codes.now i)) }
{
    for i in 0..1024 {
        mask[i] &= least <= codes[i];
    }
}

/// Leaves the places chosen that another mask chooses too, or, where not `wanted`, that it does not.
pub fn keep_where(mask: &mut [bool], other: &[bool], wanted: bool)
    requires { length other.now ≡ length mask.old }
    ensures length { length mask.new ≡ length mask.old }
    ensures places { (i : ℕ) → i < length mask.old → slice_index_or mask.new i false ≡ (slice_index_or mask.old i false && same_as wanted (slice_index_or other.now i false)) }
{
    for i in 0..mask.len() {
        mask[i] &= other[i] == wanted;
    }
}

/// Adds to `found` the places that are left.
pub fn put_found(left: &[bool], found: &mut [bool])
    requires { length left.now ≡ length found.old }
    ensures length { length found.new ≡ length found.old }
    ensures places { (i : ℕ) → i < length left.now → slice_index_or found.new i false ≡ (slice_index_or found.old i false || slice_index_or left.now i false) }
{
    for i in 0..left.len() {
        found[i] = found[i] | left[i];
    }
}

/// Chooses the first `count` places of a batch, and no other.
pub fn choose_first(count: usize, batch: &mut [bool; 1024])
    requires { count ≤ 1024 }
    ensures { (i : ℕ) → i < 1024 → slice_index_or batch.new i false ≡ nat_lt i count }
{
    for i in 0..count {
        batch[i] = true;
    }
    drop_from(count, batch);
}

/// Leaves the first `count` places of a batch as they are, and no other is chosen.
fn drop_from(count: usize, batch: &mut [bool; 1024])
    ensures { (i : ℕ) → i < 1024 → slice_index_or batch.new i false ≡ (nat_lt i count && slice_index_or batch.old i false) }
{
    for i in count..1024 {
        batch[i] = false;
    }
}

/// The `count` places from one on, as far as there are so many.
pub fn part(mask: &[bool], from: usize, count: usize) -> &[bool]
    ensures { result.now ≡ take count (drop from mask.now) }
{
    let start = from.min(mask.len());
    let end = start + count.min(mask.len() - start);
    &mask[start..end]
}

/// Writes the `count` places from one on, as far as there are so many, into the first places of a batch, and no other place of the
/// batch is chosen.
pub fn put_batch(mask: &[bool], from: usize, count: usize, batch: &mut [bool; 1024])
    ensures { (i : ℕ) → i < 1024 → slice_index_or batch.new i false ≡ (nat_lt i count && slice_index_or mask.now (from + i) false) }
{
    let there = part(mask, from, count.min(1024));
    for i in 0..there.len() {
        batch[i] = there[i];
    }
    drop_from(there.len(), batch);
}

/// Adds to a table, a bool for each code, the codes of a span.
pub fn put_span(span: Span, table: &mut [bool])
    ensures length { length table.new ≡ length table.old }
    ensures put { (code : ℕ) → code < length table.old → slice_index_or table.new code false ≡ (slice_index_or table.old code false || in_span span code) }
{
    let (from, to) = span.reach(table.len());
    for code in from..to {
        table[code] = table[code] | span.has(code as u64);
    }
}

/// Of the `count` places from one on, keeps none.
pub fn keep_none(from: usize, count: usize, mask: &mut [bool])
    requires { from + count ≤ length mask.old }
    ensures { IsNarrowedAt from count (λ _. false) mask.old mask.new }
{
    for i in 0..count {
        mask[from + i] = false;
    }
}

/// Whether a place is chosen, or, where not `wanted`, whether one is not. No place past the first block that has one is read.
pub fn has_any(mask: &[bool], wanted: bool) -> bool
    ensures { result ≡ list_any (same_as wanted) mask.now }
{
    let mut from = 0;
    while from < mask.len() {
        let count = (mask.len() - from).min(BLOCK);
        if has_in_block(&mask[from..from + count], wanted) {
            return true;
        }
        from += count;
    }
    false
}

/// The same of a block. Each place is looked at, so that many are at once.
fn has_in_block(block: &[bool], wanted: bool) -> bool
    ensures { result ≡ list_any (same_as wanted) block.now }
{
    let mut found = false;
    for chosen in block {
        found |= *chosen == wanted;
    }
    found
}

/// How many of the first `count` places are chosen.
pub fn chosen(mask: &[bool], count: usize) -> u64
    requires { count ≤ length mask.now }
    ensures { result ≡ length (places mask.now count) }
{
    let mut chosen = 0;
    for i in 0..count {
        chosen += mask[i] as u64;
    }
    chosen
}
