//! Lists of letters, inline.
ghost use Rattle.std.specs.Prelude.{◌≡◌, ◌+◌, ◌*◌, ◌≤◌, ◌++◌, length};
ghost use Rattle.arrayvec.specs.ArrayVec.{array_vec_len};
ghost use Rattle.word_family.specs.Family.{times_written, member};

use arrayvec::ArrayVec;
use edge_words::MAX_LETTERS;

/// As many letters as the longest word has.
pub(crate) type Letters = ArrayVec<u8, MAX_LETTERS>;

/// The letters of a bⁿ c.
pub(crate) fn letters_of_member(first: &[u8], middle: &[u8], last: &[u8], n: u32) -> Letters
    requires { length first.now + n * length middle.now + length last.now ≤ MAX_LETTERS }
    ensures { result.items ≡ member (record { first = first.now; middle = middle.now; last = last.now }) n }
{
    let mut letters = Letters::new();
    push_all(&mut letters, first);
    push_times(&mut letters, middle, n);
    push_all(&mut letters, last);
    letters
}

/// One part after another.
pub(crate) fn joined(one: &[u8], other: &[u8]) -> Letters
    requires { length one.now + length other.now ≤ MAX_LETTERS }
    ensures { result.items ≡ one.now ++ other.now }
{
    let mut letters = Letters::new();
    push_all(&mut letters, one);
    push_all(&mut letters, other);
    letters
}

// Adds letters, for which there is room.
fn push_all(letters: &mut Letters, more: &[u8])
    requires { array_vec_len letters.old + length more.now ≤ MAX_LETTERS }
    ensures { letters.new.items ≡ letters.old.items ++ more.now }
{
    let _ = letters.try_extend_from_slice(more);
}

// Adds letters so many times, for which there is room.
fn push_times(letters: &mut Letters, more: &[u8], times: u32)
    requires { array_vec_len letters.old + times * length more.now ≤ MAX_LETTERS }
    ensures { letters.new.items ≡ letters.old.items ++ times_written times more.now }
{
    for _ in 0..times {
        push_all(letters, more);
    }
}
