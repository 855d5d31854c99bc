//! The third round: the union of the listed words, and the numbers of words in it.
ghost use Rattle.std.specs.Prelude.{◌≡◌, ◌≤◌, ◌<◌, ◌^◌, ◌↔◌, ℕ, length, IfOk, IsTrue, MatchOption};
ghost use Rattle.covering_file.specs.Faults.{word_at, IsListed};
ghost use Rattle.covering_file.specs.declared.TheConstants.{MAX_WORDS};
ghost use Rattle.cover_merge.specs.Union.{Lists, IsUnion, IsNumberOf};
ghost use Rattle.cover_merge.specs.Steps.{Unites, number_at};

use covering_file::MAX_WORDS;
use edge_words::Word;
use smallvec::SmallVec;
use std::alloc::{AllocError as OutOfMemory, Global};

/// The room for the numbers of all listed words.
pub const NUMBERS: usize = MAX_WORDS as usize;

/// The union of two lists of words, or how many of the others were added before one that is one too many.
#[derive(Debug, Drop)]
pub enum United {
    Words(Vec<Word>),
    OneTooMany(u32),
}

/// Adds each of the others that does not stand earlier behind the words, as long as there is room for it.
pub fn unite(alloc: Global, words: &[Word], others: &[Word]) -> Result<United, OutOfMemory>
    requires few { length words.now ≤ MAX_WORDS }
    requires few_others { length others.now ≤ MAX_WORDS }
    ensures { IfOk result (Unites words.now others.now) }
{
    let mut union = copied(alloc, words)?;
    for (before, word) in others.iter().enumerate() {
        if has_word(union.as_slice(), word) {
            continue;
        }
        if union.as_slice().len() == MAX_WORDS as usize {
            return Ok(United::OneTooMany(before as u32));
        }
        union.push(word.copied())?;
    }
    Ok(United::Words(union))
}

fn copied(alloc: Global, words: &[Word]) -> Result<Vec<Word>, OutOfMemory>
    ensures { IfOk result (λ copied. copied.items ≡ words.now) }
{
    let mut copied = Vec::new(alloc);
    for word in words {
        copied.push(word.copied())?;
    }
    Ok(copied)
}

fn has_word(union: &[Word], word: &Word) -> bool
    requires few { length union.now < 2 ^ 32 }
    ensures { IsTrue result ↔ Lists union.now word.now }
{
    number_of(union, word).is_some()
}

/// The least number, counted from 1, at which the word stands.
pub fn number_of(union: &[Word], word: &Word) -> Option<u32>
    requires few { length union.now < 2 ^ 32 }
    ensures { MatchOption result (¬ (Lists union.now word.now)) (IsNumberOf union.now word.now) }
{
    for (k, listed) in union.iter().enumerate() {
        if listed.letters() == word.letters() {
            return Some(k as u32 + 1);
        }
    }
    None
}

/// The number in the union of each of the others, which all stand in it.
pub fn numbers_of(alloc: Global, union: &[Word], others: &[Word]) -> SmallVec<u32, NUMBERS>
    requires few { length union.now < 2 ^ 32 }
    requires few_others { length others.now ≤ MAX_WORDS }
    requires listed { (i : ℕ) → IsListed others.now i → Lists union.now (word_at others.now i) }
    ensures count { length result.items ≡ length others.now }
    ensures numbers { (i : ℕ) → IsListed others.now i → IsNumberOf union.now (word_at others.now i) (number_at result.items i) }
{
    let mut numbers = SmallVec::new(alloc);
    for word in others {
        let number = number_of(union, word).unwrap();
        numbers.push_reserved(number);
    }
    numbers
}
