use crate::{Signed, Unfolding};
use edge_words::Word;
use exp_sums::{Dir, Term};
use std::test::Fail;

/// The corners of the seven triangles of 123123 seen from the centres, but for the sign, which is (−1)^k.
const SEEN: [[(i32, i32); 3]; 7] = [
    [(1, 1), (-1, -1), (1, -1)],
    [(-1, -3), (1, -1), (-1, -1)],
    [(-1, -1), (-3, -3), (-1, -3)],
    [(-3, -3), (-1, -1), (-3, -1)],
    [(-1, 1), (-3, -1), (-1, -1)],
    [(-1, -1), (1, 1), (-1, 1)],
    [(1, 1), (-1, -1), (1, -1)],
];

/// The upper and the lower corner of its six edges.
const ENDS: [(u8, u8); 6] = [(3, 2), (3, 1), (2, 1), (2, 3), (1, 3), (1, 2)];

fn term(m: i32, n: i32, c: i64) -> Term {
    Term {
        dir: Dir { m, n },
        c,
    }
}

#[test]
fn walks_along_123123(rt: HostRuntime) -> Result<(), Fail> {
    let word = Word::read(rt.alloc(), b"123123")?;
    let unfolding = Unfolding::of(rt.alloc(), &word)?;
    assert_eq!(rt; unfolding.letters(), 6);
    for k in 0..7u32 {
        for corner in 1..4u8 {
            let (m, n) = SEEN[k as usize][corner as usize - 1];
            let seen = unfolding.seen(k, corner);
            assert_eq!(rt;
                seen,
                Signed {
                    minus: k % 2 == 1,
                    dir: Dir { m, n }
                }
            );
        }
    }
    Ok(())
}

#[test]
fn tells_the_ends_of_edges(rt: HostRuntime) -> Result<(), Fail> {
    let word = Word::read(rt.alloc(), b"123123")?;
    let unfolding = Unfolding::of(rt.alloc(), &word)?;
    assert_eq!(rt; unfolding.letters(), 6);
    for k in 0..6u32 {
        let (upper, lower) = ENDS[k as usize];
        prove!(1 <= upper && upper <= 3 && 1 <= lower && lower <= 3);
        assert!(rt; unfolding.upper(k + 1).terms() == unfolding.corner(k, upper).terms());
        assert!(rt; unfolding.lower(k + 1).terms() == unfolding.corner(k, lower).terms());
    }
    Ok(())
}

#[test]
fn shifts_exactly_the_stable_words(rt: HostRuntime) -> Result<(), Fail> {
    let stable = Word::read(rt.alloc(), b"123123")?;
    let unfolding = Unfolding::of(rt.alloc(), &stable)?;
    let shift = unfolding.shift().ok_or("123123 is stable")?;
    let terms = [
        term(-3, -3, 1),
        term(-3, -1, -1),
        term(-1, -3, -1),
        term(-1, 1, 1),
        term(1, -1, 1),
        term(1, 1, -1),
    ];
    assert!(rt; shift.terms() == terms.as_slice());

    let unstable = Word::read(rt.alloc(), b"121323")?;
    assert!(rt; Unfolding::of(rt.alloc(), &unstable)?.shift().is_none());
    Ok(())
}
