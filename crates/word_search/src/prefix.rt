//! The first letters of words.
ghost use Rattle.std.specs.Prelude.{◌≡◌, ◌%◌, ◌<◌, ◌≤◌, ℕ, [], ◌∷◌, ◌++◌, length, All, MatchOption};
ghost use Rattle.edge_words.specs.Letters.{IsLetter};
ghost use Rattle.word_search.specs.Prefixes.{IsLeft, IsBorder};

use crate::MAX_COUNT;
use crate::backwards::is_before_reversed;
use crate::balance::{counted, is_over};
use std::marker::Model;

/// At most `MAX_COUNT` letters with which a word may begin.
///
/// The last `border` letters are the first `border`. `odd` and `even` count each letter at odd and at even places.
#[derive(Drop)]
pub(crate) struct Prefix {
    letters: [u8; MAX_COUNT],
    len: usize,
    border: usize,
    odd: [u32; 4],
    even: [u32; 4],
}

impl Model for Prefix {
    ghost use Rattle.std.specs.Prelude.{List, ℕ, take};
    ghost use Rattle.word_search.specs.Prefixes.{IsKept};

    ghost Value = { List ℕ };

    ghost view = { λ p. take p.len p.letters };

    ghost invariant = { λ p. IsKept p.letters p.odd p.even p.len p.border };
}

impl Prefix {
    /// No letters.
    pub(crate) fn new() -> Prefix
        ensures { result ≡ [] }
    {
        Prefix {
            letters: [0; MAX_COUNT],
            len: 0,
            border: 0,
            odd: [0; 4],
            even: [0; 4],
        }
    }

    /// How many letters there are.
    pub(crate) fn len(&self) -> usize
        ensures { result ≡ length self.now }
    {
        self.len
    }

    /// The letters.
    pub(crate) fn letters(&self) -> &[u8]
        ensures all { result.now ≡ self.now }
        ensures letters { All IsLetter self.now }
    {
        &self.letters[..self.len]
    }

    /// The prefix with one more letter, or none where no word that is searched for begins with it.
    pub(crate) fn with(&self, letter: u8, count: usize) -> Option<Prefix>
        requires letter { IsLetter letter }
        requires count { (length self.now < count) × (count ≤ 24) × (count % 2 ≡ 0) }
        ensures { MatchOption result (IsLeft count (self.now ++ letter ∷ [])) (λ next. next ≡ self.now ++ letter ∷ []) }
    {
        let border = self.border_with(letter)?;
        let (odd, even) = counted(self.odd, self.even, self.len, letter);
        let len = self.len + 1;
        let mut letters = self.letters;
        letters[self.len] = letter;
        if is_over(&odd, &even, count / 2 - len / 2) {
            return None;
        }
        if is_before_reversed(&letters[..len]) {
            return None;
        }
        Some(Prefix {
            letters,
            len,
            border,
            odd,
            even,
        })
    }

    // A border of the prefix with one more letter, or none where no word that is searched for begins with it.
    fn border_with(&self, letter: u8) -> Option<usize>
        ensures { MatchOption result ((n : ℕ) → IsLeft n (self.now ++ letter ∷ [])) (IsBorder (self.now ++ letter ∷ [])) }
    {
        if self.len == 0 {
            return Some(0);
        }
        let last = self.letters[self.len - 1];
        if letter == last {
            return None;
        }
        let least = self.letters[self.border];
        if letter < least {
            return None;
        }
        if letter == least {
            Some(self.border + 1)
        } else {
            Some(0)
        }
    }
}
