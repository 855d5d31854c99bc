//! Whole words.
ghost use Rattle.std.specs.Prelude.{◌≡◌, ◌<◌, ◌≤◌, length, All, MatchOption};
ghost use Rattle.edge_words.specs.Letters.{IsLetter};
ghost use Rattle.word_search.specs.Words.{IsSearched};

use crate::MAX_COUNT;
use crate::least::is_least;
use edge_words::Word;
use std::alloc::Global;

/// The word with these letters, where it is searched for.
pub(crate) fn searched(alloc: Global, letters: &[u8]) -> Option<Word>
    requires count { (0 < length letters.now) × (length letters.now ≤ 24) }
    requires letters { All IsLetter letters.now }
    ensures { MatchOption result (¬ (IsSearched (length letters.now) letters.now))
        (λ word. (word ≡ letters.now) × IsSearched (length letters.now) letters.now) }
{
    let least = is_least(letters);
    if !least {
        return None;
    }
    let mut buffer = [0u8; MAX_COUNT];
    for (index, letter) in letters.iter().enumerate() {
        buffer[index] = *letter + b'0';
    }
    let Ok(word) = Word::read(alloc, &buffer[..letters.len()]) else {
        return None;
    };
    let stable = word.is_stable();
    if !stable {
        return None;
    }
    Some(word)
}
