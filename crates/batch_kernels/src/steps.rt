// One place: what is kept, with a number or a code where it is inside, by 1, and as before where it is not, by 0. No branch.
ghost use Rattle.std.specs.Prelude.{◌≡◌, ℕ, ◌+◌, ◌<◌, ◌+ℤ◌, min, max, pos};
ghost use Rattle.batch_kernels.specs.Places.{IsSumOf};

/// A sum, with a number where it is inside.
#[inline(always)]
pub fn with_number(sum: i128, number: i64, inside: u64) -> i128
    requires inside { inside < 2 }
    requires small { IsSumOf 4611686018427389952 sum }
    ensures inside { inside ≡ 1 → result ≡ sum +ℤ number }
    ensures outside { inside ≡ 0 → result ≡ sum }
    ensures bound { (n : ℕ) → IsSumOf n sum → IsSumOf (n + inside) result }
{
    sum + kept(number, inside) as i128
}

/// A number where it is inside, and else 0.
#[inline(always)]
fn kept(number: i64, inside: u64) -> i64
    requires { inside < 2 }
    ensures inside { inside ≡ 1 → result ≡ number }
    ensures outside { inside ≡ 0 → result ≡ pos 0 }
{
    number * inside as i64
}

/// The lesser of a number and a code where it is inside.
#[inline(always)]
pub fn lesser(least: u64, code: u64, inside: u64) -> u64
    requires { inside < 2 }
    ensures inside { inside ≡ 1 → result ≡ min least code }
    ensures outside { inside ≡ 0 → result ≡ least }
{
    least.min(code.max(inside.wrapping_sub(1)))
}

/// The greater of a number and a code where it is inside.
#[inline(always)]
pub fn greater(greatest: u64, code: u64, inside: u64) -> u64
    requires { inside < 2 }
    ensures inside { inside ≡ 1 → result ≡ max greatest code }
    ensures outside { inside ≡ 0 → result ≡ greatest }
{
    greatest.max(code.min(0u64.wrapping_sub(inside)))
}
