ghost use Rattle.std.specs.Prelude.{◌≡◌, ◌≢◌, ◌≤◌, ℕ, ◌↔◌, IsTrue};
ghost use Rattle.covering_file.specs.declared.TheConstants.{MAX_WORDS};
ghost use Rattle.coverer.specs.Words.{IsIn};

/// A set of listed words by their numbers, from 1 to 32: one bit for each.
#[derive(Clone, Copy, Debug, Default, PartialEq, Eq)]
pub struct WordSet {
    pub bits: u32,
}

impl WordSet {
    /// The set of all words.
    pub fn all() -> WordSet
        ensures { (i : ℕ) → 1 ≤ i → i ≤ MAX_WORDS → IsIn result i }
    {
        WordSet { bits: u32::MAX }
    }

    /// Whether word `i` is in the set.
    pub fn has(self, i: u32) -> bool
        requires at_least { 1 ≤ i }
        requires at_most { i ≤ MAX_WORDS }
        ensures { IsTrue result ↔ IsIn self i }
    {
        (self.bits >> (i - 1)) & 1 == 1
    }

    /// The set without word `i`.
    pub fn without(self, i: u32) -> WordSet
        requires at_least { 1 ≤ i }
        requires at_most { i ≤ MAX_WORDS }
        ensures dropped { ¬ (IsIn result i) }
        ensures others { (j : ℕ) → 1 ≤ j → j ≤ MAX_WORDS → j ≢ i → IsIn result j ↔ IsIn self j }
    {
        WordSet {
            bits: self.bits & !(1 << (i - 1)),
        }
    }
}
