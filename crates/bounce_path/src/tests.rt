use crate::{Bounce, PathFault, path};
use edge_words::Word;
use rat_core::Frac;
use std::test::Fail;

/// Half an edge.
const HALF: u64 = 1 << 39;

/// The width within which a place is known.
const WIDTH: u64 = 1 << 25;

// The path through the feet of the altitudes of an equilateral triangle: it halves each edge.
#[test]
fn halves_the_edges_of_an_equilateral_triangle(rt: HostRuntime) -> Result<(), Fail> {
    let alloc = rt.alloc();
    let word = Word::read(alloc, b"123123")?;
    let path = path(alloc, &word, Frac::new(1, 3), Frac::new(1, 3))?;
    assert_eq!(rt; path.bounces().len(), 6);
    for (place, bounce) in path.bounces().iter().enumerate() {
        assert_eq!(rt; bounce.edge as usize, place % 3 + 1);
        assert!(rt; is_near_half(bounce));
    }
    Ok(())
}

// Whether both bounds of the place are near the middle of the edge.
fn is_near_half(bounce: &Bounce) -> bool {
    HALF.abs_diff(bounce.low) <= WIDTH && HALF.abs_diff(bounce.high) <= WIDTH
}

// In a right triangle the corners of 123123 touch, and 121323 is not stable.
#[test]
fn refuses_what_has_no_room(rt: HostRuntime) -> Result<(), Fail> {
    let alloc = rt.alloc();
    let word = Word::read(alloc, b"123123")?;
    let narrow = path(alloc, &word, Frac::new(2, 4), Frac::new(1, 4));
    assert!(rt; matches!(narrow, Err(PathFault::NotShown)));
    let word = Word::read(alloc, b"121323")?;
    let unstable = path(alloc, &word, Frac::new(1, 3), Frac::new(1, 3));
    assert!(rt; matches!(unstable, Err(PathFault::Unstable)));
    Ok(())
}
