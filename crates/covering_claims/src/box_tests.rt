use crate::WordTests;
use edge_words::Word;
use gradient_bounds::{PrepareFault, Prepared};
use pi_bounds::Fine;
use rat_core::Frac;
use rational_polygon::GridBox;
use sine_fixed::SineTable;
use std::rc::Rc;
use std::test::Fail;

// Boxes (i, j) of a level, whether 123123 is clear on each, and whether it is shut there, as a program with
// floating-point numbers found from triangles that it mirrored.
const BOXES_OF_123123: [(u32, u32, u32, bool, bool); 12] = [
    (42, 42, 7, true, false),
    (5, 5, 4, true, false),
    (349_525, 349_525, 20, true, false),
    (0, 0, 0, false, false),
    (1, 1, 2, false, false),
    (63, 32, 7, false, false),
    (89, 12, 7, false, false),
    (179, 25, 8, false, true),
    (358, 51, 9, false, true),
    (51, 358, 9, false, true),
    (38, 38, 8, false, true),
    (100, 100, 7, false, true),
];

// The same for 1212312123.
const BOXES_OF_1212312123: [(u32, u32, u32, bool, bool); 6] = [
    (51, 51, 7, true, false),
    (409, 409, 10, true, false),
    (0, 0, 0, false, false),
    (44, 6, 6, false, false),
    (89, 12, 7, false, true),
    (42, 42, 7, false, true),
];

#[test]
fn refuses_121323(rt: HostRuntime) -> Result<(), Fail> {
    let word = Word::read(rt.alloc(), b"121323")?;
    let refused = Prepared::<Fine>::new(rt.alloc(), &word).err();
    assert!(rt; refused == Some(PrepareFault::Unstable));
    Ok(())
}

#[test]
fn keeps_its_word(rt: HostRuntime) -> Result<(), Fail> {
    let word = Word::read(rt.alloc(), b"123123")?;
    let prepared = Prepared::<Fine>::new(rt.alloc(), &word)?;
    assert_eq!(rt; prepared.word().letters(), [1, 2, 3, 1, 2, 3].as_slice());
    Ok(())
}

// An acute triangle, and a right one, where a function is 0.
#[test]
fn tests_points(rt: HostRuntime) -> Result<(), Fail> {
    let word = Word::read(rt.alloc(), b"123123")?;
    let mut prepared = Prepared::<Fine>::new(rt.alloc(), &word)?;
    assert!(rt; prepared.test_point(Frac::new(1, 3), Frac::new(1, 3)));
    assert!(rt; !prepared.test_point(Frac::new(1, 2), Frac::new(1, 4)));
    Ok(())
}

// The heights of 123123 have nine directions. What is shut is asked of the same table as what is clear.
#[test]
fn computes_each_sine_once(rt: HostRuntime) -> Result<(), Fail> {
    let word = Word::read(rt.alloc(), b"123123")?;
    let mut prepared = Prepared::<Fine>::new(rt.alloc(), &word)?;
    let place = GridBox {
        i: 42,
        j: 42,
        level: 7,
    };
    let before = prepared.sines();
    assert!(rt; prepared.test_box(place));
    let after = prepared.sines();
    assert!(rt; before < after);
    assert!(rt; after - before <= 9);
    assert!(rt; !prepared.shut_box(place));
    assert_eq!(rt; prepared.sines(), after);
    Ok(())
}

#[test]
fn tests_boxes_for_123123(rt: HostRuntime) -> Result<(), Fail> {
    let word = Word::read(rt.alloc(), b"123123")?;
    let mut prepared = Prepared::<Fine>::new(rt.alloc(), &word)?;
    for (i, j, level, clear, shut) in BOXES_OF_123123 {
        assert!(rt; level <= 20 && i < 1 << level && j < 1 << level);
        let place = GridBox { i, j, level };
        assert_eq!(rt; prepared.test_box(place), clear);
        assert_eq!(rt; prepared.shut_box(place), shut);
    }
    Ok(())
}

#[test]
fn tests_boxes_for_1212312123(rt: HostRuntime) -> Result<(), Fail> {
    let word = Word::read(rt.alloc(), b"1212312123")?;
    let mut prepared = Prepared::<Fine>::new(rt.alloc(), &word)?;
    for (i, j, level, clear, shut) in BOXES_OF_1212312123 {
        assert!(rt; level <= 20 && i < 1 << level && j < 1 << level);
        let place = GridBox { i, j, level };
        assert_eq!(rt; prepared.test_box(place), clear);
        assert_eq!(rt; prepared.shut_box(place), shut);
    }
    Ok(())
}

// Near the rim the corners show what the centre does not, and of a larger box they are not asked.
#[test]
fn tests_corners_of_123123(rt: HostRuntime) -> Result<(), Fail> {
    let word = Word::read(rt.alloc(), b"123123")?;
    let sines = Rc::new(rt.alloc(), SineTable::new(rt.alloc())?)?;
    let mut tests = WordTests::<Fine>::new(rt.alloc(), &word, sines)?;
    let place = GridBox {
        i: 510,
        j: 256,
        level: 10,
    };
    let larger = GridBox {
        i: 255,
        j: 128,
        level: 9,
    };
    assert!(rt; !tests.is_clear(place));
    assert!(rt; tests.is_corner_clear(place, 36));
    assert!(rt; !tests.is_corner_clear(larger, 36));
    Ok(())
}
