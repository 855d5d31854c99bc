ghost use Rattle.std.specs.Prelude.{◌≡◌, ◌↔◌, ℕ, ◌^◌, ◌<◌, length, reverse, IsTrue};
ghost use Rattle.edge_words.specs.Canonical.{rotated, IsRotation, IsAtMost, IsCanonicalForm};
ghost use Rattle.edge_words.specs.Reading.{Reads, digits_of};
ghost use Rattle.edge_words.specs.Stable.{IsStable};
ghost use Rattle.edge_words.specs.Word.{IsWord};
ghost use Rattle.mcb_ends.specs.Bytes.{Writes};
ghost use Rattle.mcb_ends.specs.Causes.{HasCause};

use crate::MAX_LETTERS;
use crate::fault::WordFault;
use crate::order::{compare_rotated, is_at_most_rotations};
use crate::reading::{first_other, first_repeat, letters_of, to_digits};
use crate::stability::is_stable;
use mcb_ends::{Failed, Sink, put};
use smallvec::SmallVec;
use std::alloc::Global;
use std::marker::Model;

/// From 6 to `MAX_LETTERS` letters 1, 2 and 3, in an even number, of which no two cyclic neighbours are equal.
///
/// The letters always fit inline, so no call takes memory.
#[derive(Debug, Drop)]
pub struct Word {
    letters: SmallVec<u8, MAX_LETTERS>,
}

impl Model for Word {
    ghost use Rattle.std.specs.Prelude.{List, ℕ};
    ghost use Rattle.edge_words.specs.Word.{IsWord};

    ghost Value = { List ℕ };

    ghost view = { λ w. w.letters.items };

    ghost invariant = { λ w. IsWord w.letters.items };
}

impl Word {
    /// Reads the digits of a word. A byte that is no digit is refused before a wrong length, and
    /// that before equal neighbours.
    pub fn read(alloc: Global, bytes: &[u8]) -> Result<Word, WordFault>
        requires { length bytes.now < 2 ^ 32 }
        ensures { Reads bytes.now result }
    {
        if let Some(place) = first_other(bytes) {
            return Err(WordFault::Letter { place });
        }
        let len = bytes.len();
        if len % 2 != 0 || len < 6 || len > MAX_LETTERS {
            return Err(WordFault::Length { len: len as u64 });
        }
        if let Some(place) = first_repeat(bytes) {
            return Err(WordFault::Neighbours { place });
        }
        Ok(Word {
            letters: letters_of(alloc, bytes),
        })
    }

    /// The word with these letters, which have to be those of one.
    pub fn from_letters(alloc: Global, letters: &[u8]) -> Word
        requires { IsWord letters.now }
        ensures { result ≡ letters.now }
    {
        Word {
            letters: SmallVec::from_slice(alloc, letters).unwrap(),
        }
    }

    /// The letters, as the numbers 1, 2 and 3.
    pub fn letters(&self) -> &[u8]
        ensures all { result.now ≡ self.now }
        ensures is_word { IsWord self.now }
    {
        self.letters.as_slice()
    }

    /// Whether each letter stands equally often at odd and at even places.
    pub fn is_stable(&self) -> bool
        ensures { IsTrue result ↔ IsStable self.now }
    {
        is_stable(self.letters())
    }

    /// The same word once more.
    pub fn copied(&self) -> Word
        ensures { result ≡ self.now }
    {
        Word {
            letters: self.own_letters(),
        }
    }

    /// The word from its letter `by + 1` on.
    pub fn rotate(&self, by: u32) -> Word
        requires { by < length self.now }
        ensures { result ≡ rotated by self.now }
    {
        let mut letters = self.own_letters();
        letters.as_mut_slice().rotate_left(by as usize);
        Word { letters }
    }

    /// The word read backwards.
    pub fn reverse(&self) -> Word
        ensures { result ≡ reverse self.now }
    {
        let mut letters = self.own_letters();
        letters.as_mut_slice().reverse();
        Word { letters }
    }

    /// The lexicographically least of all rotations of the word and of its reversal.
    pub fn canonical(&self) -> Word
        ensures { IsCanonicalForm self.now result }
    {
        let forwards = self.least_rotation();
        let backwards = self.reverse().least_rotation();
        if backwards.letters() < forwards.letters() {
            backwards
        } else {
            forwards
        }
    }

    /// Whether the word is its own canonical form.
    pub fn is_canonical(&self) -> bool
        ensures { IsTrue result ↔ IsCanonicalForm self.now self.now }
    {
        let reversed = self.reverse();
        let letters = self.letters();
        is_at_most_rotations(letters, letters) && is_at_most_rotations(letters, reversed.letters())
    }

    /// Writes the digits of the letters, or a prefix of them and fails.
    pub fn write<K: Sink>(&self, out: &mut K) -> Result<(), Failed>
        ensures text { Writes (K.written out.old) (K.written out.new) result (digits_of self.now) }
        ensures room { K.room out.new ≡ K.room out.old }
        ensures cause { HasCause (K.faults out.old) (K.faults out.new) result }
    {
        let digits = to_digits(*self.letters.allocator(), self.letters());
        put(out, digits.as_slice())
    }

    fn least_rotation(&self) -> Word
        ensures rotation { IsRotation self.now result }
        ensures least { (by : ℕ) → by < length self.now → IsAtMost result (rotated by self.now) }
    {
        let letters = self.letters();
        let mut least = self.copied();
        for by in 1..letters.len() {
            if compare_rotated(letters, by, least.letters()).is_lt() {
                least = self.rotate(by as u32);
            }
        }
        least
    }

    fn own_letters(&self) -> SmallVec<u8, MAX_LETTERS>
        ensures all { result.items ≡ self.now }
        ensures is_word { IsWord self.now }
    {
        SmallVec::from_slice(*self.letters.allocator(), self.letters()).unwrap()
    }
}
