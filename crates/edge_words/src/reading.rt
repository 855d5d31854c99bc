ghost use Rattle.std.specs.Prelude.{◌≡◌, ℕ, ◌^◌, ◌<◌, ◌≤◌, length, All, MatchOption};
ghost use Rattle.edge_words.specs.Letters.{IsLetter};
ghost use Rattle.edge_words.specs.Reading.{IsDigit, digits_of, IsFirstOther, IsFirstRepeat};
ghost use Rattle.edge_words.specs.Word.{NeighboursDiffer};

use crate::MAX_LETTERS;
use smallvec::SmallVec;
use std::alloc::Global;

/// The place of the first byte that is no digit of a letter.
pub fn first_other(bytes: &[u8]) -> Option<u32>
    requires { length bytes.now < 2 ^ 32 }
    ensures { MatchOption result (All IsDigit bytes.now) (IsFirstOther bytes.now) }
{
    for (index, byte) in bytes.iter().enumerate() {
        if *byte < b'1' || *byte > b'3' {
            return Some(index as u32 + 1);
        }
    }
    None
}

/// The place of the first byte that equals the next one, the last byte's next being the first.
pub fn first_repeat(bytes: &[u8]) -> Option<u32>
    requires { length bytes.now < 2 ^ 32 }
    ensures { MatchOption result (NeighboursDiffer bytes.now) (IsFirstRepeat bytes.now) }
{
    for (index, byte) in bytes.iter().enumerate() {
        let next = bytes[(index + 1) % bytes.len()];
        if *byte == next {
            return Some(index as u32 + 1);
        }
    }
    None
}

/// The digits that spell letters, inline.
pub(crate) fn to_digits(alloc: Global, letters: &[u8]) -> SmallVec<u8, MAX_LETTERS>
    requires letters { All IsLetter letters.now }
    requires fits { length letters.now ≤ MAX_LETTERS }
    ensures { result.items ≡ digits_of letters.now }
{
    let mut digits = SmallVec::new(alloc);
    for letter in letters {
        digits.push_reserved(*letter + b'0');
    }
    digits
}

/// The letters that digits spell, inline.
pub(crate) fn letters_of(alloc: Global, digits: &[u8]) -> SmallVec<u8, MAX_LETTERS>
    requires digits { All IsDigit digits.now }
    requires fits { length digits.now ≤ MAX_LETTERS }
    ensures { digits.now ≡ digits_of result.items }
{
    let mut letters = SmallVec::new(alloc);
    for digit in digits {
        letters.push_reserved(*digit - b'0');
    }
    letters
}
