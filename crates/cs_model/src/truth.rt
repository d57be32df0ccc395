//! Three-valued logic.

ghost use Rattle.std.specs.Prelude.{◌≡◌};
ghost use Rattle.cs_model.specs.Truths as spec;

/// The truth of a predicate over a row.
#[derive(Clone, Copy, Debug, PartialEq, Eq)]
pub enum Truth {
    True,
    False,
    /// A value that it speaks of is NULL.
    Unknown,
}

impl Truth {
    /// True or False.
    pub fn from_bool(holds: bool) -> Truth
        ensures { result ≡ spec.truth_if holds }
    {
        if holds { Truth::True } else { Truth::False }
    }

    /// NOT: Unknown stays Unknown.
    pub fn negated(self) -> Truth
        ensures { result ≡ spec.not self }
    {
        match self {
            Truth::True => Truth::False,
            Truth::False => Truth::True,
            Truth::Unknown => Truth::Unknown,
        }
    }

    /// NOT, where it is asked for.
    pub fn negated_if(self, negated: bool) -> Truth
        ensures { result ≡ spec.not_if negated self }
    {
        if negated { self.negated() } else { self }
    }

    /// AND: False where a part is False, else Unknown where one is Unknown.
    pub fn and(self, other: Truth) -> Truth
        ensures { result ≡ spec.and self other }
    {
        match (self, other) {
            (Truth::False, _) | (_, Truth::False) => Truth::False,
            (Truth::True, Truth::True) => Truth::True,
            _ => Truth::Unknown,
        }
    }

    /// OR: True where a part is True, else Unknown where one is Unknown.
    pub fn or(self, other: Truth) -> Truth
        ensures { result ≡ spec.or self other }
    {
        match (self, other) {
            (Truth::True, _) | (_, Truth::True) => Truth::True,
            (Truth::False, Truth::False) => Truth::False,
            _ => Truth::Unknown,
        }
    }
}
