//! Weight, reach and bend of a difference of two lists of terms, which is not built for it.
ghost use Rattle.std.specs.Prelude.{◌≡◌, ◌+◌, ◌*◌, ◌<◌, ◌≤◌, length, drop, unsigned_abs};
ghost use Rattle.exp_sums.specs.Terms.{cons_term};
ghost use Rattle.exp_sums.specs.FormalPoint.{term_neg};
ghost use Rattle.exp_sums.specs.Limits.{IsNear, greatest_exponent, greatest_weight};
ghost use Rattle.exp_sums.specs.Differences.{difference_terms, CanSubtract, AreSizesOf};

use crate::sizes::{Sizes, sizes_of_term};
use crate::terms::Term;
use std::cmp::Ordering;

/// The first term of a difference, and how many terms of each list it takes up.
#[derive(Clone, Copy, Drop)]
struct Leading {
    term: Term,
    first: usize,
    second: usize,
}

/// A term of the first list alone.
fn of_first(term: Term) -> Leading
    ensures term { result.term ≡ term }
    ensures first { result.first ≡ 1 }
    ensures second { result.second ≡ 0 }
{
    Leading {
        term,
        first: 1,
        second: 0,
    }
}

/// A term of the second list alone, which is taken away.
fn of_second(term: Term) -> Leading
    requires { unsigned_abs term.c ≤ greatest_weight }
    ensures term { result.term ≡ term_neg term }
    ensures first { result.first ≡ 0 }
    ensures second { result.second ≡ 1 }
{
    Leading {
        term: Term {
            dir: term.dir,
            c: -term.c,
        },
        first: 0,
        second: 1,
    }
}

/// The first term of a difference: at the least direction of both lists, the coefficient of the one less that of the
/// other.
fn first_of_difference(first: &[Term], second: &[Term]) -> Leading
    requires some { 0 < length first.now + length second.now }
    requires lists { CanSubtract first.now second.now }
    ensures leads { difference_terms first.now second.now
        ≡ cons_term result.term (difference_terms (drop result.first first.now) (drop result.second second.now)) }
    ensures near { IsNear greatest_exponent result.term.dir }
    ensures some { 0 < result.first + result.second }
    ensures first { (result.first ≤ 1) × (result.first ≤ length first.now) }
    ensures second { (result.second ≤ 1) × (result.second ≤ length second.now) }
{
    if first.is_empty() {
        return of_second(second[0]);
    }
    if second.is_empty() {
        return of_first(first[0]);
    }
    let term = first[0];
    let other = second[0];
    match term.dir.cmp(&other.dir) {
        Ordering::Less => of_first(term),
        Ordering::Greater => of_second(other),
        Ordering::Equal => Leading {
            term: Term {
                dir: term.dir,
                c: term.c - other.c,
            },
            first: 1,
            second: 1,
        },
    }
}

/// Weight, reach and bend of the first list less the second.
pub fn sizes_of_difference(first: &[Term], second: &[Term]) -> Sizes
    requires { CanSubtract first.now second.now }
    ensures { AreSizesOf result (difference_terms first.now second.now) }
{
    let mut sizes = Sizes {
        weight: 0,
        reach: 0,
        bend: 0,
    };
    let mut first = first;
    let mut second = second;
    'merge: while !first.is_empty() || !second.is_empty() {
        let next = first_of_difference(first, second);
        let more = sizes_of_term(next.term);
        sizes.weight += more.weight;
        sizes.reach += more.reach;
        sizes.bend += more.bend;
        first = &first[next.first..];
        second = &second[next.second..];
    }
    sizes
}
