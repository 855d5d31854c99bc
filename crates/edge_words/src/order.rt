ghost use Rattle.std.specs.Prelude.{◌≡◌, ◌↔◌, ℕ, ◌<◌, ◌≤◌, length, IsTrue};
ghost use Rattle.std.specs.Ordering.{nat_cmp};
ghost use Rattle.std.specs.Cmp.Lexicographic.{slice_cmp};
ghost use Rattle.edge_words.specs.Canonical.{rotated, IsAtMost};

use std::cmp::Ordering;

/// How a rotation of the letters compares with others in lexicographic order. Nothing is copied.
pub(crate) fn compare_rotated(letters: &[u8], by: usize, others: &[u8]) -> Ordering
    requires by { by ≤ length letters.now }
    requires len { length letters.now ≡ length others.now }
    ensures { result ≡ slice_cmp nat_cmp (rotated by letters.now) others.now }
{
    let (head, tail) = letters.split_at(by);
    let (first, rest) = others.split_at(tail.len());
    tail.cmp(&first).then(head.cmp(&rest))
}

/// Whether others are at most each rotation of the letters.
pub(crate) fn is_at_most_rotations(others: &[u8], letters: &[u8]) -> bool
    requires { length letters.now ≡ length others.now }
    ensures { IsTrue result
        ↔ ((by : ℕ) → by < length letters.now → IsAtMost others.now (rotated by letters.now)) }
{
    for by in 0..letters.len() {
        if compare_rotated(letters, by, others).is_lt() {
            return false;
        }
    }
    true
}
