ghost use Rattle.std.specs.Prelude.{◌≤◌};

use crate::{Patch, PatchKind, TileFault, tile};
use edge_words::Word;
use rational_polygon::GridBox;
use std::test::Fail;

// A box of level 1 in its place.
fn quarter(i: u32, j: u32, kind: PatchKind) -> Patch
    requires column { i ≤ 1 }
    requires row { j ≤ 1 }
{
    let place = GridBox { i, j, level: 1 };
    Patch { place, kind }
}

#[test]
fn makes_as_many_patches_as_are_allowed(rt: HostRuntime) -> Result<(), Fail> {
    let alloc = rt.alloc();
    let word = Word::read(alloc, b"123123")?;
    assert!(rt; matches!(tile(alloc, &word, 1, 3), Err(TileFault::Full)));
    let patches = tile(alloc, &word, 1, 4)?;
    let quarters = [
        quarter(0, 0, PatchKind::Undecided),
        quarter(1, 0, PatchKind::Undecided),
        quarter(0, 1, PatchKind::Undecided),
        quarter(1, 1, PatchKind::Beyond),
    ];
    assert_eq!(rt; patches.as_slice(), quarters.as_slice());
    Ok(())
}

#[test]
fn refuses_an_unstable_word(rt: HostRuntime) -> Result<(), Fail> {
    let alloc = rt.alloc();
    let word = Word::read(alloc, b"121323")?;
    assert!(rt; matches!(tile(alloc, &word, 0, 1), Err(TileFault::Unstable)));
    Ok(())
}

// The kind of the patch of level 7 at (i, j).
fn kind_at(patches: &[Patch], i: u32, j: u32) -> Option<PatchKind> {
    patches
        .iter()
        .find(|patch| patch.place.level == 7 && patch.place.i == i && patch.place.j == j)
        .map(|patch| patch.kind)
}

// The acute triangles have the path, and the obtuse ones do not.
#[test]
fn sees_acute_and_obtuse_triangles(rt: HostRuntime) -> Result<(), Fail> {
    let alloc = rt.alloc();
    let word = Word::read(alloc, b"123123")?;
    let patches = tile(alloc, &word, 7, 200_000)?;
    assert_eq!(rt; kind_at(&patches, 60, 32), Some(PatchKind::Inside));
    assert_eq!(rt; kind_at(&patches, 69, 32), Some(PatchKind::Outside));
    assert_eq!(rt; kind_at(&patches, 63, 32), Some(PatchKind::Undecided));
    Ok(())
}
