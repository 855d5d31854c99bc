//! Products of terms.
ghost use Rattle.std.specs.Prelude.{◌≡◌, ◌+◌, ◌*◌, ◌≤◌, T, OnOk, unsigned_abs, length, map};
ghost use Rattle.std.specs.List.{All, flat_map};
ghost use Rattle.smallvec.specs.SmallVec.{HasRoomFor};
ghost use Rattle.exp_sums.specs.Terms.{is_canonical, put_terms};
ghost use Rattle.exp_sums.specs.FormalPoint.{dir_sum, term_product};
ghost use Rattle.exp_sums.specs.Limits.{IsNear, terms_weight, greatest_exponent, greatest_weight};
ghost use Rattle.exp_sums.specs.Products.{SumsAreNear};

use crate::direction::Dir;
use crate::terms::{Term, Terms, put};
use std::alloc::AllocError as OutOfMemory;

/// The product of two terms.
fn product(first: Term, second: Term) -> Term
    requires light { unsigned_abs first.c * unsigned_abs second.c ≤ greatest_weight }
    requires near { IsNear greatest_exponent (dir_sum first.dir second.dir) }
    ensures { result ≡ term_product first second }
{
    Term {
        dir: Dir {
            m: first.dir.m + second.dir.m,
            n: first.dir.n + second.dir.n,
        },
        c: first.c * second.c,
    }
}

/// Adds the products of one term with others, for which there is room.
fn put_multiples(terms: &mut Terms, term: Term, more: &[Term])
    requires canonical { T (is_canonical terms.old.items) }
    requires room { HasRoomFor terms.old (length more.now) }
    requires light { terms_weight terms.old.items + unsigned_abs term.c * terms_weight more.now ≤ greatest_weight }
    requires near { All (λ u. IsNear greatest_exponent (dir_sum term.dir u.dir)) more.now }
    ensures items { terms.new.items ≡ put_terms (map (term_product term) more.now) terms.old.items }
{
    for &other in more {
        put(terms, product(term, other));
    }
}

/// Adds the products of each term of the one list with each of the other. Room is taken for one term of the first at a
/// time, since many products fall together.
pub fn put_products(terms: &mut Terms, first: &[Term], second: &[Term]) -> Result<(), OutOfMemory>
    requires canonical { T (is_canonical terms.old.items) }
    requires light { terms_weight terms.old.items + terms_weight first.now * terms_weight second.now ≤ greatest_weight }
    requires near { SumsAreNear first.now second.now }
    ensures { OnOk result (terms.new.items ≡ put_terms (flat_map (λ t. map (term_product t) second.now) first.now) terms.old.items) }
{
    for &term in first {
        terms.reserve(second.len())?;
        put_multiples(terms, term, second);
    }
    Ok(())
}
