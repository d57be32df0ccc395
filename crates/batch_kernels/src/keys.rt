// Key numbers: one number for the codes of several columns.
ghost use Rattle.std.specs.Prelude.{◌≡◌, ℕ, ◌+◌, ◌*◌, ◌<◌, ◌≤◌, ◌^◌, slice_index};
ghost use Rattle.batch_kernels.specs.Places.{key_in};

/// The key numbers of the places of a batch: one that all places have, or one for each.
#[derive(Debug, Drop)]
pub struct Keys {
    /// The key number that all places have, where there is one.
    pub lone: Option<u64>,
    /// Else the key number of each place.
    pub each: [u64; 1024],
}

impl Keys {
    /// All places have the key number 0.
    pub fn new() -> Keys
        ensures { (i : ℕ) → key_in result i ≡ 0 }
    {
        Keys {
            lone: Some(0),
            each: [0; 1024],
        }
    }

    /// Gives all places the key number 0.
    pub fn reset(&mut self)
        ensures { (i : ℕ) → key_in self.new i ≡ 0 }
    {
        self.lone = Some(0);
    }

    /// Joins the key numbers of the first `count` places with one code, of `radix` codes: each becomes itself times `radix` and the
    /// code.
    pub fn join_one(&mut self, radix: u64, code: u64, count: usize)
        requires room { (0 < count) × (count ≤ 1024) }
        requires small { (i : ℕ) → i < count → key_in self.old i * radix + code < 2 ^ 64 }
        ensures { (i : ℕ) → i < count → key_in self.new i ≡ key_in self.old i * radix + code }
    {
        match self.lone {
            Some(key) => self.lone = Some(key * radix + code),
            None => join_code(&mut self.each, radix, code, count),
        }
    }

    /// Joins the key numbers of the first `count` places with a code each, of `radix` codes: each becomes itself times `radix` and
    /// the code.
    pub fn join(&mut self, radix: u64, codes: &[u64; 1024], count: usize)
        requires room { count ≤ 1024 }
        requires small { (i : ℕ) → i < count → key_in self.old i * radix + slice_index codes.now i < 2 ^ 64 }
        ensures { (i : ℕ) → i < count → key_in self.new i ≡ key_in self.old i * radix + slice_index codes.now i }
    {
        match self.lone {
            Some(key) => put_joined(&mut self.each, key, radix, codes, count),
            None => join_codes(&mut self.each, radix, codes, count),
        }
        self.lone = None;
    }
}

/// Joins the first `count` keys with one code.
fn join_code(keys: &mut [u64; 1024], radix: u64, code: u64, count: usize)
    requires room { count ≤ 1024 }
    requires small { (i : ℕ) → i < count → slice_index keys.old i * radix + code < 2 ^ 64 }
    ensures { (i : ℕ) → i < count → slice_index keys.new i ≡ slice_index keys.old i * radix + code }
{
    for i in 0..count {
        keys[i] = keys[i] * radix + code;
    }
}

/// Joins the first `count` keys with a code each.
fn join_codes(keys: &mut [u64; 1024], radix: u64, codes: &[u64; 1024], count: usize)
    requires room { count ≤ 1024 }
    requires small { (i : ℕ) → i < count → slice_index keys.old i * radix + slice_index codes.now i < 2 ^ 64 }
    ensures { (i : ℕ) → i < count → slice_index keys.new i ≡ slice_index keys.old i * radix + slice_index codes.now i }
{
    for i in 0..count {
        keys[i] = keys[i] * radix + codes[i];
    }
}

/// Makes the first `count` keys of one key that is joined with a code each.
fn put_joined(keys: &mut [u64; 1024], key: u64, radix: u64, codes: &[u64; 1024], count: usize)
    requires room { count ≤ 1024 }
    requires small { (i : ℕ) → i < count → key * radix + slice_index codes.now i < 2 ^ 64 }
    ensures { (i : ℕ) → i < count → slice_index keys.new i ≡ key * radix + slice_index codes.now i }
{
    for i in 0..count {
        keys[i] = key * radix + codes[i];
    }
}
