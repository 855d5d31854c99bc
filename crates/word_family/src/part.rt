//! A part of a family.
ghost use Rattle.std.specs.Prelude.{◌≡◌, ◌<◌, ◌≤◌, length, All, MatchOption};
ghost use Rattle.edge_words.specs.Reading.{IsDigit, digits_of};
ghost use Rattle.word_family.specs.Family.{IsPart};
ghost use Rattle.word_family.specs.Reading.{SpellsPart, SpellsSomePart, SpellsMiddle};

use crate::MAX_PART;
use arrayvec::ArrayVec;
use edge_words::first_other;
use std::marker::Model;

/// At most `MAX_PART` letters 1, 2 and 3, inline.
#[derive(Drop)]
pub(crate) struct Part {
    letters: ArrayVec<u8, MAX_PART>,
}

impl Model for Part {
    ghost use Rattle.std.specs.Prelude.{List, ℕ};
    ghost use Rattle.word_family.specs.Family.{IsPart};

    ghost Value = { List ℕ };

    ghost view = { λ p. p.letters.items };

    ghost invariant = { λ p. IsPart p.letters.items };
}

impl Part {
    /// The part with these digits.
    pub(crate) fn read(digits: &[u8]) -> Option<Part>
        ensures { MatchOption result (¬ (SpellsSomePart digits.now)) (λ part. SpellsPart digits.now part) }
    {
        if digits.len() > MAX_PART {
            return None;
        }
        match first_other(digits) {
            Some(_) => None,
            None => Some(Part {
                letters: letters_of(digits),
            }),
        }
    }

    /// The part with these digits, where there are any.
    pub(crate) fn read_middle(digits: &[u8]) -> Option<Part>
        ensures { MatchOption result (¬ (SpellsMiddle digits.now)) (λ part. SpellsPart digits.now part × (0 < length part)) }
    {
        if digits.is_empty() {
            None
        } else {
            Part::read(digits)
        }
    }

    /// The letters, as the numbers 1, 2 and 3.
    pub(crate) fn letters(&self) -> &[u8]
        ensures all { result.now ≡ self.now }
        ensures part { IsPart self.now }
    {
        self.letters.as_slice()
    }
}

// The letters that digits spell.
fn letters_of(digits: &[u8]) -> ArrayVec<u8, MAX_PART>
    requires digits { All IsDigit digits.now }
    requires few { length digits.now ≤ MAX_PART }
    ensures { digits.now ≡ digits_of result.items }
{
    let mut letters = ArrayVec::new();
    for digit in digits {
        letters.push(*digit - b'0');
    }
    letters
}
