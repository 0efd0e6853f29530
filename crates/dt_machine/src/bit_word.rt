//! Sets of numbers below 64, a bit for each.
ghost use Rattle.std.specs.Prelude.{◌≡◌, ◌<◌, ◌==◌, ◌↔◌, ℕ, true, false, MatchOption, IsTrue, if◌then◌else◌};
ghost use Rattle.dt_machine.specs.declared.bit_word.TheConstants.{WORD_BITS};

/// How many numbers a word may have.
pub const WORD_BITS: u32 = 64;

const _: () = prove!(WORD_BITS == u64::BITS);

/// Some of the numbers below [`WORD_BITS`]: one word of a larger set.
///
/// Contracts see it as `has_bit word number`: whether the number is in it.
#[derive(Clone, Copy)]
pub struct BitWord {
    pub(crate) bits: u64,
}

impl BitWord {
    ghost use Rattle.dt_machine.specs.BitWord.{has_bit, weight_of};

    /// None of them.
    pub fn new() -> Self
        ensures { (number : ℕ) → has_bit result number ≡ false }
    {
        BitWord { bits: 0 }
    }

    /// Whether it has no number.
    pub fn is_empty(&self) -> bool
        ensures { IsTrue result ↔ ((number : ℕ) → number < WORD_BITS → has_bit self.now number ≡ false) }
    {
        self.bits == 0
    }

    /// Whether it has a number.
    pub fn contains(&self, number: u32) -> bool
        requires { number < WORD_BITS }
        ensures { result ≡ has_bit self.now number }
    {
        (self.bits >> number) & 1 == 1
    }

    /// Takes a number in.
    pub fn insert(&mut self, number: u32)
        requires { number < WORD_BITS }
        ensures { (other : ℕ)
            → has_bit self.new other ≡ (if other == number then true else has_bit self.old other) }
    {
        self.bits |= 1 << number;
    }

    /// Takes a number out. Where it was in, the word weighs less: so a loop that takes them out one after another ends.
    pub fn remove(&mut self, number: u32)
        requires { number < WORD_BITS }
        ensures others { (other : ℕ)
            → has_bit self.new other ≡ (if other == number then false else has_bit self.old other) }
        ensures less { IsTrue (has_bit self.old number) → weight_of self.new < weight_of self.old }
    {
        let bits = self.bits;
        self.bits = bits & !(1 << number);
    }

    /// The least number that is in it.
    pub fn first(&self) -> Option<u32>
        ensures { MatchOption result ((number : ℕ) → has_bit self.now number ≡ false)
            (λ first. (first < WORD_BITS) × (has_bit self.now first ≡ true)
            × ((number : ℕ) → number < first → has_bit self.now number ≡ false)) }
    {
        // an empty word has 64 trailing zeros, and there is no number 64
        let number = self.bits.trailing_zeros();
        if number < WORD_BITS {
            Some(number)
        } else {
            None
        }
    }

    /// Takes out the least number that is in it.
    pub fn pop_first(&mut self) -> Option<u32>
        ensures { MatchOption result ((number : ℕ) → has_bit self.old number ≡ false)
            (λ first. (first < WORD_BITS) × (has_bit self.old first ≡ true)
            × (weight_of self.new < weight_of self.old)
            × ((number : ℕ) → has_bit self.new number
            ≡ (if number == first then false else has_bit self.old number))) }
    {
        let first = self.first()?;
        self.remove(first);
        Some(first)
    }
}
