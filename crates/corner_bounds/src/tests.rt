use crate::test_corners;
use edge_words::Word;
use gradient_bounds::Prepared;
use pi_bounds::Fine;
use rational_polygon::GridBox;
use std::test::Fail;

// Near the rim of the tile of 123123 the corners show what the centre does not.
#[test]
fn sees_more_than_the_centre(rt: HostRuntime) -> Result<(), Fail> {
    let word = Word::read(rt.alloc(), b"123123")?;
    let mut prepared = Prepared::<Fine>::new(rt.alloc(), &word)?;
    let place = GridBox {
        i: 510,
        j: 256,
        level: 10,
    };
    assert!(rt; !prepared.test_box(place));
    assert!(rt; test_corners::<Fine>(&mut prepared, place, 36));
    assert!(rt; prepared.point().is_some());
    assert!(rt; prepared.word().letters() == word.letters());
    Ok(())
}

#[test]
fn sees_nothing_outside_the_tile(rt: HostRuntime) -> Result<(), Fail> {
    let word = Word::read(rt.alloc(), b"123123")?;
    let mut prepared = Prepared::<Fine>::new(rt.alloc(), &word)?;
    let place = GridBox {
        i: 100,
        j: 100,
        level: 10,
    };
    assert!(rt; !test_corners::<Fine>(&mut prepared, place, 36));
    Ok(())
}
