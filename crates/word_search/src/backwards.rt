//! Prefixes read backwards.
ghost use Rattle.std.specs.Prelude.{reverse, IsTrue};
ghost use Rattle.word_search.specs.Cuts.{IsBefore};

/// Whether the letters read backwards come before the letters.
pub(crate) fn is_before_reversed(letters: &[u8]) -> bool
    ensures { IsTrue result → IsBefore (reverse letters.now) letters.now }
{
    for index in 0..letters.len() {
        let back = letters[letters.len() - 1 - index];
        if back < letters[index] {
            return true;
        }
        if letters[index] < back {
            return false;
        }
    }
    false
}
