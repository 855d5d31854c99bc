//! Each call with ample memory, its terms compared with sums worked by hand.
ghost use Rattle.std.specs.Prelude.{◌≡◌, ◌≤◌, IfOk, OnOk};
ghost use Rattle.exp_sums.specs.Limits.{IsWithin, weight};

use crate::{Dir, ExpSum, Sizes, Term};
use std::alloc::{AllocError, Global};
use std::process::Abort;
use std::test::Fail;

fn term(m: i32, n: i32, c: i64) -> Term
    ensures { result ≡ record { dir = record { m = m; n = n }; c = c } }
{
    Term {
        dir: Dir { m, n },
        c,
    }
}

// Adds a small multiple of a direction near the origin.
fn add_small(rt: &impl Abort, sum: &mut ExpSum, dir: Dir, c: i64) -> Result<(), AllocError>
    requires { IsWithin 100 sum.old }
    ensures { OnOk result (IsWithin 100 sum.new) }
{
    assert!(rt; dir.m.unsigned_abs() <= 100);
    assert!(rt; dir.n.unsigned_abs() <= 100);
    assert!(rt; c.unsigned_abs() <= 100);
    assert!(rt; sum.weight() <= 100);
    sum.add_dir(dir, c)?;
    Ok(())
}

// The sum of some terms, added one by one.
fn sum_of(rt: &impl Abort, alloc: Global, terms: &[(i32, i32, i64)]) -> Result<ExpSum, AllocError>
    ensures light { IfOk result (λ sum. weight sum ≤ 200) }
    ensures near { IfOk result (λ sum. IsWithin 100 sum) }
{
    let mut sum = ExpSum::new(alloc);
    for &(m, n, c) in terms {
        add_small(rt, &mut sum, Dir { m, n }, c)?;
    }
    assert!(rt; sum.weight() <= 200);
    Ok(sum)
}

#[test]
fn keeps_terms_in_order_and_drops_zeros(rt: HostRuntime) -> Result<(), Fail> {
    let empty = ExpSum::new(rt.alloc());
    assert_eq!(rt; empty.terms(), [].as_slice());
    let mut sum = sum_of(&rt, rt.alloc(), &[(1, 1, 3), (1, -1, 2)])?;
    assert_eq!(rt; sum.terms(), [term(1, -1, 2), term(1, 1, 3)].as_slice());
    assert_eq!(rt; sum.coefficient(Dir { m: 1, n: -1 }), 2);
    assert_eq!(rt; sum.coefficient(Dir { m: 0, n: 0 }), 0);
    sum.add_dir(Dir { m: 1, n: -1 }, -2)?;
    assert_eq!(rt; sum.terms(), [term(1, 1, 3)].as_slice());
    Ok(())
}

#[test]
fn adds_sums(rt: HostRuntime) -> Result<(), Fail> {
    let mut sum = sum_of(&rt, rt.alloc(), &[(-1, -1, 2), (1, -1, -1)])?;
    let other = sum_of(&rt, rt.alloc(), &[(0, 2, 5), (1, -1, 1)])?;
    sum.add(&other)?;
    assert_eq!(rt; sum.terms(), [term(-1, -1, 2), term(0, 2, 5)].as_slice());
    Ok(())
}

#[test]
fn subtracts_sums(rt: HostRuntime) -> Result<(), Fail> {
    let mut sum = sum_of(&rt, rt.alloc(), &[(-1, -1, 2), (1, -1, -1)])?;
    let other = sum_of(&rt, rt.alloc(), &[(0, 2, 5), (1, -1, 1)])?;
    sum.sub(&other)?;
    assert_eq!(rt;
        sum.terms(),
        [term(-1, -1, 2), term(0, 2, -5), term(1, -1, -2)].as_slice()
    );
    Ok(())
}

#[test]
fn negates_directions(rt: HostRuntime) -> Result<(), Fail> {
    let sum = sum_of(&rt, rt.alloc(), &[(1, -1, 2), (3, 1, -1)])?;
    let conjugate = sum.conj(rt.alloc())?;
    assert_eq!(rt;
        conjugate.terms(),
        [term(-3, -1, -1), term(-1, 1, 2)].as_slice()
    );
    Ok(())
}

#[test]
fn multiplies_sums(rt: HostRuntime) -> Result<(), Fail> {
    let sum = sum_of(&rt, rt.alloc(), &[(-1, -1, -1), (1, -1, 1)])?;
    let other = sum_of(&rt, rt.alloc(), &[(-1, 3, 3), (1, 3, 2)])?;
    let product = sum.times(rt.alloc(), &other)?;
    assert_eq!(rt;
        product.terms(),
        [term(-2, 2, -3), term(0, 2, 1), term(2, 2, 2)].as_slice()
    );
    Ok(())
}

#[test]
fn subtracts_lower_directions(rt: HostRuntime) -> Result<(), Fail> {
    let sum = sum_of(&rt, rt.alloc(), &[(0, -2, -2), (0, 2, 1)])?;
    let sines = sum.sine_form(rt.alloc())?;
    assert_eq!(rt; sines.terms(), [term(0, 2, 3)].as_slice());
    let lower = sum_of(&rt, rt.alloc(), &[(-2, 2, 5), (0, 0, 7)])?;
    let upper = lower.sine_form(rt.alloc())?;
    assert_eq!(rt; upper.terms(), [term(2, -2, -5)].as_slice());
    Ok(())
}

#[test]
fn measures_sums(rt: HostRuntime) -> Result<(), Fail> {
    let sum = sum_of(&rt, rt.alloc(), &[(2, -2, 3), (4, 0, -1)])?;
    assert_eq!(rt; sum.weight(), 4);
    assert_eq!(rt; sum.reach(), 16);
    Ok(())
}

// More terms than lie in the value itself. The eleventh takes the fourth away, and the last one joins the eighth.
const MANY: [(i32, i32, i64); 13] = [
    (3, 1, 2),
    (-2, 5, 1),
    (0, 0, -4),
    (1, -1, 7),
    (-2, -3, 3),
    (5, 0, 1),
    (1, 4, -2),
    (0, 2, 6),
    (-1, 0, 5),
    (4, 4, 9),
    (1, -1, -7),
    (-3, 8, 1),
    (0, 2, 1),
];

#[test]
fn keeps_many_terms_in_order(rt: HostRuntime) -> Result<(), Fail> {
    let sum = sum_of(&rt, rt.alloc(), &MANY)?;
    let terms = [
        term(-3, 8, 1),
        term(-2, -3, 3),
        term(-2, 5, 1),
        term(-1, 0, 5),
        term(0, 0, -4),
        term(0, 2, 7),
        term(1, 4, -2),
        term(3, 1, 2),
        term(4, 4, 9),
        term(5, 0, 1),
    ];
    assert_eq!(rt; sum.terms(), terms.as_slice());
    assert_eq!(rt; sum.coefficient(Dir { m: 0, n: 2 }), 7);
    assert_eq!(rt; sum.coefficient(Dir { m: 1, n: -1 }), 0);
    Ok(())
}

#[test]
fn negates_many_directions(rt: HostRuntime) -> Result<(), Fail> {
    let sum = sum_of(&rt, rt.alloc(), &MANY)?;
    let conjugate = sum.conj(rt.alloc())?;
    let terms = [
        term(-5, 0, 1),
        term(-4, -4, 9),
        term(-3, -1, 2),
        term(-1, -4, -2),
        term(0, -2, 7),
        term(0, 0, -4),
        term(1, 0, 5),
        term(2, -5, 1),
        term(2, 3, 3),
        term(3, -8, 1),
    ];
    assert_eq!(rt; conjugate.terms(), terms.as_slice());
    Ok(())
}

#[test]
fn subtracts_many_lower_directions(rt: HostRuntime) -> Result<(), Fail> {
    let sum = sum_of(&rt, rt.alloc(), &MANY)?;
    let sines = sum.sine_form(rt.alloc())?;
    let terms = [
        term(0, 2, 7),
        term(1, 0, -5),
        term(1, 4, -2),
        term(2, -5, -1),
        term(2, 3, -3),
        term(3, -8, -1),
        term(3, 1, 2),
        term(4, 4, 9),
        term(5, 0, 1),
    ];
    assert_eq!(rt; sines.terms(), terms.as_slice());
    Ok(())
}

// The products at (0, 0) are −20 and 20.
#[test]
fn multiplies_many_terms(rt: HostRuntime) -> Result<(), Fail> {
    let sum = sum_of(&rt, rt.alloc(), &MANY)?;
    let other = sum_of(&rt, rt.alloc(), &[(0, 0, 5), (1, 0, 4)])?;
    let product = sum.times(rt.alloc(), &other)?;
    let terms = [
        term(-3, 8, 5),
        term(-2, -3, 15),
        term(-2, 5, 5),
        term(-2, 8, 4),
        term(-1, -3, 12),
        term(-1, 0, 25),
        term(-1, 5, 4),
        term(0, 2, 35),
        term(1, 0, -16),
        term(1, 2, 28),
        term(1, 4, -10),
        term(2, 4, -8),
        term(3, 1, 10),
        term(4, 1, 8),
        term(4, 4, 45),
        term(5, 0, 5),
        term(5, 4, 36),
        term(6, 0, 4),
    ];
    assert_eq!(rt; product.terms(), terms.as_slice());
    Ok(())
}

#[test]
fn measures_differences(rt: HostRuntime) -> Result<(), Fail> {
    let first = sum_of(&rt, rt.alloc(), &[(1, -1, 2), (3, 1, -1)])?;
    let second = sum_of(&rt, rt.alloc(), &[(1, -1, -1), (2, 0, 4), (3, 1, -1)])?;
    assert_eq!(rt;
        first.sizes_of_difference(&second),
        Sizes {
            weight: 7,
            reach: 14,
            bend: 22
        }
    );
    Ok(())
}

#[test]
fn copies_sums(rt: HostRuntime) -> Result<(), Fail> {
    let sum = sum_of(&rt, rt.alloc(), &MANY)?;
    let copy = sum.copied(rt.alloc())?;
    assert!(rt; copy.is_same(&sum));
    assert_eq!(rt; copy.terms(), sum.terms());
    Ok(())
}
