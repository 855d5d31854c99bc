//! Terms with conjugate directions.
ghost use Rattle.std.specs.Prelude.{◌≡◌, ◌+◌, ◌≤◌, T, unsigned_abs, length, map};
ghost use Rattle.std.specs.List.{All, flat_map};
ghost use Rattle.smallvec.specs.SmallVec.{small_vec_len, HasRoomFor};
ghost use Rattle.exp_sums.specs.Terms.{is_canonical, put_terms};
ghost use Rattle.exp_sums.specs.FormalPoint.{dir_neg, term_conj};
ghost use Rattle.exp_sums.specs.SineForm.{is_upper, sine_terms};
ghost use Rattle.exp_sums.specs.Limits.{IsNear, terms_weight, greatest_exponent, greatest_weight};

use crate::direction::Dir;
use crate::terms::{Term, Terms, put};

/// The conjugate direction (−m, −n).
fn conjugate(dir: Dir) -> Dir
    requires { IsNear greatest_exponent dir }
    ensures { result ≡ dir_neg dir }
{
    Dir {
        m: -dir.m,
        n: -dir.n,
    }
}

/// Whether m > 0, or m = 0 and n > 0.
fn is_upper(dir: Dir) -> bool
    ensures { result ≡ is_upper dir }
{
    dir.m > 0 || (dir.m == 0 && dir.n > 0)
}

/// Adds terms with conjugate directions, for which there is room.
pub fn put_all_conj(terms: &mut Terms, more: &[Term])
    requires canonical { T (is_canonical terms.old.items) }
    requires room { HasRoomFor terms.old (length more.now) }
    requires light { terms_weight terms.old.items + terms_weight more.now ≤ greatest_weight }
    requires near { All (λ t. IsNear greatest_exponent t.dir) more.now }
    ensures items { terms.new.items ≡ put_terms (map term_conj more.now) terms.old.items }
{
    for term in more {
        put(
            terms,
            Term {
                dir: conjugate(term.dir),
                c: term.c,
            },
        );
    }
}

/// Adds what a term gives to a sine form, for which there is room: the term itself where its direction is upper, the one
/// with direction and coefficient negated where that is upper, and nothing at the origin.
fn put_sine(terms: &mut Terms, term: Term)
    requires canonical { T (is_canonical terms.old.items) }
    requires room { HasRoomFor terms.old 1 }
    requires light { unsigned_abs term.c + terms_weight terms.old.items ≤ greatest_weight }
    requires near { IsNear greatest_exponent term.dir }
    ensures items { terms.new.items ≡ put_terms (sine_terms term) terms.old.items }
    ensures len { small_vec_len terms.new ≤ small_vec_len terms.old + 1 }
    ensures capacity { terms.new.capacity ≡ terms.old.capacity }
{
    let dir = conjugate(term.dir);
    if is_upper(term.dir) {
        put(terms, term);
    } else if is_upper(dir) {
        put(terms, Term { dir, c: -term.c });
    }
}

/// Adds what terms give to a sine form, for which there is room.
pub fn put_all_sines(terms: &mut Terms, more: &[Term])
    requires canonical { T (is_canonical terms.old.items) }
    requires room { HasRoomFor terms.old (length more.now) }
    requires light { terms_weight terms.old.items + terms_weight more.now ≤ greatest_weight }
    requires near { All (λ t. IsNear greatest_exponent t.dir) more.now }
    ensures items { terms.new.items ≡ put_terms (flat_map sine_terms more.now) terms.old.items }
{
    for &term in more {
        put_sine(terms, term);
    }
}
