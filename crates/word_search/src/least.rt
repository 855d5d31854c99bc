//! The least words of bracelets.
ghost use Rattle.std.specs.Prelude.{◌≡◌, ◌↔◌, ℕ, ◌<◌, ◌≤◌, length, get_or, IsTrue};
ghost use Rattle.edge_words.specs.Canonical.{rotated, IsAtMost, IsCanonicalForm};

use crate::MAX_COUNT;

/// Whether the letters are the least of their bracelet. Of the words that the walk comes to, most that are not have a lesser reversal, so
/// that is asked first.
pub(crate) fn is_least(letters: &[u8]) -> bool
    requires count { (0 < length letters.now) × (length letters.now ≤ 24) }
    ensures { IsTrue result ↔ IsCanonicalForm letters.now letters.now }
{
    let mut buffer = [0u8; MAX_COUNT];
    let reversed = &mut buffer[..letters.len()];
    reversed.copy_from_slice(letters);
    reversed.reverse();
    is_at_most_rotations(letters, reversed) && is_at_most_rotations(letters, letters)
}

// Whether the letters are at most each rotation of others.
fn is_at_most_rotations(letters: &[u8], others: &[u8]) -> bool
    requires { (length others.now ≡ length letters.now) × (length letters.now ≤ 24) }
    ensures { IsTrue result ↔ ((by : ℕ) → by < length others.now → IsAtMost letters.now (rotated by others.now)) }
{
    for by in 0..others.len() {
        if !is_at_most_rotated(letters, others, by) {
            return false;
        }
    }
    true
}

// Whether the letters are at most one rotation of others. The first letter that differs decides.
fn is_at_most_rotated(letters: &[u8], others: &[u8], by: usize) -> bool
    requires count { (length others.now ≡ length letters.now) × (length letters.now ≤ 24) }
    requires by { by < length others.now }
    ensures { IsTrue result ↔ IsAtMost letters.now (rotated by others.now) }
{
    for index in 0..letters.len() {
        let other = rotated_letter(others, by, index);
        if letters[index] < other {
            return true;
        }
        if other < letters[index] {
            return false;
        }
    }
    true
}

// A letter of a rotation.
fn rotated_letter(letters: &[u8], by: usize, index: usize) -> u8
    requires few { length letters.now ≤ 24 }
    requires by { by < length letters.now }
    requires index { index < length letters.now }
    ensures { result ≡ get_or (rotated by letters.now) index 0 }
{
    let place = by + index;
    if place < letters.len() {
        letters[place]
    } else {
        letters[place - letters.len()]
    }
}
