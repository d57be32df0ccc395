// A set of positions, kept as bits in words.
ghost use Rattle.std.specs.Prelude.{◌≡◌, ℕ, ◌+◌, ◌-◌, ◌<◌, ◌≤◌, ◌*◌, ◌/◌, ◌^◌, ◌⊎◌, ◌==◌, ◌&&◌, ◌||◌, length, map, nat_lt, not, replicate, slice_index, slice_index_or, slice_set, count_by, All, IfOk, OnOk, OnErr, true, false};
ghost use Rattle.std.specs.Int.{bit_at};
ghost use Rattle.std.specs.List.{range_with_len};
ghost use Rattle.delete_bitmap.specs.Bits.{bit_in, bits_in, with_all, IsCovered};

use cs_base::Memory;
use std::alloc::Global;
use std::marker::Model;

/// A set of positions below a length. Contracts see the list of whether each position is in it. The empty set takes no room. It
/// keeps its allocator.
#[derive(Debug, Drop)]
pub struct Positions {
    length: usize,
    /// A bit for each position, in words of 64 bits, the lowest bit of the first word first; or no word at all.
    words: Vec<u64>,
}

impl Model for Positions {
    ghost use Rattle.std.specs.Prelude.{List, Bool};
    ghost use Rattle.delete_bitmap.specs.Bits.{bits_in, IsCovered};

    ghost Value = { List Bool };

    ghost view = { λ positions. bits_in positions.length positions.words.items };

    ghost invariant = { λ positions. IsCovered positions.length positions.words.items };
}

impl Positions {
    /// No position, of those below a length. It takes no memory.
    pub fn none(alloc: Global, length: usize) -> Positions
        ensures { result ≡ replicate length false }
    {
        Positions {
            length,
            words: Vec::new(alloc),
        }
    }

    /// All positions below a length.
    pub fn all(alloc: Global, length: usize) -> Result<Positions, Memory>
        ensures { IfOk result (λ positions. positions ≡ replicate length true) }
    {
        let words = vec![in alloc; u64::MAX; length.div_ceil(64)]?;
        Ok(Positions { length, words })
    }

    /// The length: the positions below it may be in the set.
    pub fn len(&self) -> usize
        ensures { result ≡ length self.now }
    {
        self.length
    }

    /// Whether a position is in the set; none is from the length on.
    pub fn contains(&self, position: usize) -> bool
        ensures { result ≡ slice_index_or self.now position false }
    {
        position < self.length && is_set(&self.words, position)
    }

    /// Puts whether position `from + i` is in the set into place i of a mask, for each i below `count`, and false into the
    /// other places. It goes word by word, and writes the places of one whose bits are all set, or all clear, at once.
    pub fn put_mask(&self, from: usize, count: usize, out: &mut [bool; 1024])
        requires { count ≤ 1024 }
        ensures { (i : ℕ) → i < 1024 → slice_index_or out.new i false ≡ (nat_lt i count && slice_index_or self.now (from + i) false) }
    {
        let end = count.min(self.length.saturating_sub(from));
        put_bits(&self.words, from, end, out);
        put_all(false, end, 1024, out);
    }

    /// How many of the `count` positions from one on are in the set. It goes word by word.
    pub fn count_in(&self, from: usize, count: usize) -> usize
        ensures { result ≡ count_by (λ p. slice_index_or self.now p false) (range_with_len from count) }
    {
        let there = count.min(self.length.saturating_sub(from));
        count_bits(&self.words, from, there)
    }

    /// Puts a position in. After `Memory` nothing has changed.
    pub fn insert(&mut self, position: usize) -> Result<(), Memory>
        requires { position < length self.old }
        ensures ok { OnOk result (self.new ≡ slice_set self.old position true) }
        ensures err { OnErr result (self.new ≡ self.old) }
        ensures small { length self.new < 2 ^ 64 }
    {
        cover(&mut self.words, self.length)?;
        set(&mut self.words, position);
        Ok(())
    }

    /// Puts all these positions in. After `Memory` nothing has changed.
    pub fn insert_all(&mut self, positions: &[usize]) -> Result<(), Memory>
        requires { All (λ p. p < length self.old) positions.now }
        ensures ok { OnOk result (self.new ≡ with_all positions.now self.old) }
        ensures err { OnErr result (self.new ≡ self.old) }
        ensures small { length self.new < 2 ^ 64 }
    {
        cover(&mut self.words, self.length)?;
        set_all(&mut self.words, positions, self.length);
        Ok(())
    }

    /// Takes a position out. It takes no memory.
    pub fn remove(&mut self, position: usize)
        requires { position < length self.old }
        ensures { self.new ≡ slice_set self.old position false }
    {
        clear(&mut self.words, position);
    }

    /// Puts all positions of another set in, word by word. After `Memory` nothing has changed.
    pub fn join(&mut self, other: &Positions) -> Result<(), Memory>
        requires { length self.old ≡ length other.now }
        ensures ok { OnOk result ((p : ℕ) → slice_index_or self.new p false ≡ (slice_index_or self.old p false || slice_index_or other.now p false)) }
        ensures length { length self.new ≡ length self.old }
        ensures err { OnErr result (self.new ≡ self.old) }
    {
        if other.words.is_empty() {
            return Ok(());
        }
        cover(&mut self.words, self.length)?;
        set_each(&mut self.words, &other.words);
        Ok(())
    }

    /// Takes out all positions that are in the set, and puts in all others below the length, word by word. After `Memory`
    /// nothing has changed.
    pub fn complement(&mut self) -> Result<(), Memory>
        ensures ok { OnOk result (self.new ≡ map not self.old) }
        ensures err { OnErr result (self.new ≡ self.old) }
    {
        cover(&mut self.words, self.length)?;
        invert_each(&mut self.words);
        Ok(())
    }

    /// The same positions.
    pub fn copy(&self) -> Result<Positions, Memory>
        ensures { IfOk result (λ copied. copied ≡ self.now) }
    {
        Ok(Positions {
            length: self.length,
            words: Vec::from_slice(*self.words.allocator(), &self.words)?,
        })
    }
}

/// Whether the bit of a position is set; past the last word none is.
fn is_set(words: &[u64], position: usize) -> bool
    ensures { result ≡ bit_in words.now position }
{
    match words.get(position / 64) {
        Some(word) => (*word >> (position % 64)) & 1 == 1,
        None => false,
    }
}

/// How many of the `count` bits from `from` on are set, word by word.
fn count_bits(words: &[u64], from: usize, count: usize) -> usize
    requires { from + count < 2 ^ 64 }
    ensures { result ≡ count_by (bit_in words.now) (range_with_len from count) }
{
    let mut done = 0;
    let mut counted = 0;
    while done < count {
        let place = from + done;
        let many = (64 - place % 64).min(count - done);
        counted += count_word(word_at(words, place / 64), place % 64, many);
        done += many;
    }
    counted
}

/// How many of the `count` bits of a word from `bit` on are set.
fn count_word(word: u64, bit: usize, count: usize) -> usize
    requires some { 0 < count }
    requires bits { bit + count ≤ 64 }
    ensures { result ≡ count_by (λ i. bit_at word i == 1) (range_with_len bit count) }
{
    let low = u64::MAX >> (64 - count);
    (word >> bit & low).count_ones() as usize
}

/// Makes words for `bits` bits, none of them set, where there is no word yet. After `Memory` nothing has changed.
fn cover(words: &mut Vec<u64>, bits: usize) -> Result<(), Memory>
    requires { IsCovered bits words.old.items }
    ensures there { OnOk result (bits ≤ 64 * length words.new.items) }
    ensures covered { IsCovered bits words.new.items }
    ensures same { (i : ℕ) → slice_index words.new.items i ≡ slice_index words.old.items i }
{
    if words.is_empty() {
        words.resize(bits.div_ceil(64), 0)?;
    }
    Ok(())
}

/// Sets the bit of a position.
fn set(words: &mut Vec<u64>, position: usize)
    requires { position / 64 < length words.old.items }
    ensures bits { (n : ℕ) → position < n → bits_in n words.new.items ≡ slice_set (bits_in n words.old.items) position true }
    ensures len { length words.new.items ≡ length words.old.items }
{
    let word = words[position / 64];
    words[position / 64] = word | 1 << (position % 64);
}

/// Sets the bits of all these positions.
fn set_all(words: &mut Vec<u64>, positions: &[usize], bits: usize)
    requires there { bits ≤ 64 * length words.old.items }
    requires within { All (λ p. p < bits) positions.now }
    ensures bits { bits_in bits words.new.items ≡ with_all positions.now (bits_in bits words.old.items) }
    ensures len { length words.new.items ≡ length words.old.items }
{
    for position in positions {
        set(words, *position);
    }
}

/// Clears the bit of a position. Past the last word none is set.
fn clear(words: &mut Vec<u64>, position: usize)
    ensures bits { (n : ℕ) → position < n → bits_in n words.new.items ≡ slice_set (bits_in n words.old.items) position false }
    ensures len { length words.new.items ≡ length words.old.items }
{
    if position / 64 < words.len() {
        let word = words[position / 64];
        words[position / 64] = word & !(1 << (position % 64));
    }
}

/// Sets the bits that are set in other words too, as far as there are words.
fn set_each(words: &mut Vec<u64>, others: &[u64])
    ensures bits { (k : ℕ) → k / 64 < length words.old.items → bit_in words.new.items k ≡ (bit_in words.old.items k || bit_in others.now k) }
    ensures len { length words.new.items ≡ length words.old.items }
{
    for i in 0..words.len().min(others.len()) {
        words[i] |= others[i];
    }
}

/// Turns each bit round.
fn invert_each(words: &mut Vec<u64>)
    ensures bits { (k : ℕ) → k / 64 < length words.old.items → bit_in words.new.items k ≡ not (bit_in words.old.items k) }
    ensures len { length words.new.items ≡ length words.old.items }
{
    for i in 0..words.len() {
        let word = words[i];
        words[i] = !word;
    }
}

/// Puts the bits from `from` on into the first `count` places of a mask, word by word; the other places stay as they are.
fn put_bits(words: &[u64], from: usize, count: usize, out: &mut [bool; 1024])
    requires room { count ≤ 1024 }
    requires small { from + count < 2 ^ 64 }
    ensures bits { (i : ℕ) → i < count → slice_index_or out.new i false ≡ bit_in words.now (from + i) }
    ensures others { (i : ℕ) → count ≤ i → slice_index_or out.new i false ≡ slice_index_or out.old i false }
{
    let mut done = 0;
    while done < count {
        let place = from + done;
        let stop = count.min(done + 64 - place % 64);
        put_word(word_at(words, place / 64), place % 64, done, stop, out);
        done = stop;
    }
}

/// The word at a place, and 0 past the last one.
fn word_at(words: &[u64], place: usize) -> u64
    ensures { result ≡ slice_index words.now place }
{
    match words.get(place) {
        Some(word) => *word,
        None => 0,
    }
}

/// Puts the bits of a word from `bit` on into the places from `from` up to `to`; the other places stay as they are.
fn put_word(word: u64, bit: usize, from: usize, to: usize, out: &mut [bool; 1024])
    requires places { (from ≤ to) × (to ≤ 1024) }
    requires bits { bit + (to - from) ≤ 64 }
    ensures bits { (i : ℕ) → from ≤ i → i < to → slice_index_or out.new i false ≡ (bit_at word (bit + (i - from)) == 1) }
    ensures others { (i : ℕ) → (i < from) ⊎ (to ≤ i) → slice_index_or out.new i false ≡ slice_index_or out.old i false }
{
    if word == 0 {
        put_all(false, from, to, out);
    } else if word == u64::MAX {
        put_all(true, from, to, out);
    } else {
        put_each(word, bit, from, to, out);
    }
}

/// Puts a value into the places from `from` up to `to`; the other places stay as they are.
fn put_all(value: bool, from: usize, to: usize, out: &mut [bool; 1024])
    requires { (from ≤ to) × (to ≤ 1024) }
    ensures put { (i : ℕ) → from ≤ i → i < to → slice_index_or out.new i false ≡ value }
    ensures others { (i : ℕ) → (i < from) ⊎ (to ≤ i) → slice_index_or out.new i false ≡ slice_index_or out.old i false }
{
    for i in from..to {
        out[i] = value;
    }
}

/// As `put_word`, bit by bit.
fn put_each(word: u64, bit: usize, from: usize, to: usize, out: &mut [bool; 1024])
    requires places { (from ≤ to) × (to ≤ 1024) }
    requires bits { bit + (to - from) ≤ 64 }
    ensures bits { (i : ℕ) → from ≤ i → i < to → slice_index_or out.new i false ≡ (bit_at word (bit + (i - from)) == 1) }
    ensures others { (i : ℕ) → (i < from) ⊎ (to ≤ i) → slice_index_or out.new i false ≡ slice_index_or out.old i false }
{
    for i in from..to {
        out[i] = is_one(word, bit + (i - from));
    }
}

/// Whether a bit of a word is set.
fn is_one(word: u64, bit: usize) -> bool
    requires { bit < 64 }
    ensures { result ≡ (bit_at word bit == 1) }
{
    (word >> bit) & 1 == 1
}
