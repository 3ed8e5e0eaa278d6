//! Marks of up to 128 channels.

ghost use Rattle.std.specs.Prelude.{ℕ, ◌≡◌, ◌<◌, ◌≤◌, ◌==◌, ◌||◌, ◌&&◌, not, true, false};
ghost use Rattle.linearity.specs.Marks.{is_marked, bits_of};

/// Which of up to 128 channels are marked.
#[derive(Clone, Copy, PartialEq, Eq)]
pub struct Marks {
    bits: u128,
}

impl Marks {
    /// No channel.
    pub fn none() -> Self
        ensures { (i : ℕ) → is_marked result i ≡ false }
    {
        Marks { bits: 0 }
    }

    /// All 128 channels.
    pub fn all() -> Self
        ensures { (i : ℕ) → i < 128 → is_marked result i ≡ true }
    {
        Marks { bits: u128::MAX }
    }

    /// Whether the channel of this number is marked.
    pub fn has(self, number: u32) -> bool
        requires { number < 128 }
        ensures { result ≡ is_marked self number }
    {
        (self.bits >> number) & 1 == 1
    }

    /// Those marked in one of both.
    pub fn or(self, other: Marks) -> Self
        ensures { (i : ℕ) → is_marked result i ≡ (is_marked self i || is_marked other i) }
    {
        Marks {
            bits: self.bits | other.bits,
        }
    }

    /// Those marked in both.
    pub fn and(self, other: Marks) -> Self
        ensures fewer { bits_of result ≤ bits_of self }
        ensures both { (i : ℕ) → is_marked result i ≡ (is_marked self i && is_marked other i) }
    {
        Marks {
            bits: self.bits & other.bits,
        }
    }

    /// One channel more.
    pub fn with(self, number: u32) -> Self
        requires { number < 128 }
        ensures there { is_marked result number ≡ true }
        ensures others { (i : ℕ) → (i ≡ number → ⊥) → is_marked result i ≡ is_marked self i }
    {
        Marks {
            bits: self.bits | (1u128 << number),
        }
    }

    /// One channel less.
    pub fn without(self, number: u32) -> Self
        requires { number < 128 }
        ensures gone { is_marked result number ≡ false }
        ensures others { (i : ℕ) → i < 128 → (i ≡ number → ⊥) → is_marked result i ≡ is_marked self i }
    {
        Marks {
            bits: self.bits & !(1u128 << number),
        }
    }
}
