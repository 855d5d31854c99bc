// What no clause says: whole pictures from outside.
ghost use Rattle.std.specs.Prelude.{◌≤◌};

use crate::{write_tile, write_unfolding};
use edge_words::Word;
use mcb_ends::MemSink;
use orbit_tile::{Patch, PatchKind};
use rat_core::Frac;
use rational_polygon::GridBox;
use std::test::Fail;
use unfolding::Unfolding;

/// One gray square.
const WHOLE: &str = "<svg xmlns=\"http://www.w3.org/2000/svg\" viewBox=\"0 0 1024 1024\">
<rect x=\"0\" y=\"0\" width=\"1024\" height=\"1024\" fill=\"gray\"/>
</svg>
";

/// Three gray squares and a silver one.
const QUARTERS: &str = "<svg xmlns=\"http://www.w3.org/2000/svg\" viewBox=\"0 0 1024 1024\">
<rect x=\"0\" y=\"512\" width=\"512\" height=\"512\" fill=\"gray\"/>
<rect x=\"512\" y=\"512\" width=\"512\" height=\"512\" fill=\"gray\"/>
<rect x=\"0\" y=\"0\" width=\"512\" height=\"512\" fill=\"gray\"/>
<rect x=\"512\" y=\"0\" width=\"512\" height=\"512\" fill=\"silver\"/>
</svg>
";

/// The unfolding of 123123 in the equilateral triangle.
const UNFOLDING: &str = "<svg xmlns=\"http://www.w3.org/2000/svg\" viewBox=\"-600 -966 6200 4530\">
<polygon points=\"-500,-866 -500,866 1000,0\" fill=\"none\" stroke=\"black\"/>
<polygon points=\"1000,1732 -500,866 1000,0\" fill=\"none\" stroke=\"black\"/>
<polygon points=\"1000,1732 2500,866 1000,0\" fill=\"none\" stroke=\"black\"/>
<polygon points=\"1000,1732 2500,866 2500,2598\" fill=\"none\" stroke=\"black\"/>
<polygon points=\"4000,1732 2500,866 2500,2598\" fill=\"none\" stroke=\"black\"/>
<polygon points=\"4000,1732 4000,3464 2500,2598\" fill=\"none\" stroke=\"black\"/>
<polygon points=\"4000,1732 4000,3464 5500,2598\" fill=\"none\" stroke=\"black\"/>
<circle cx=\"1000\" cy=\"0\" r=\"40\" fill=\"blue\"/>
<circle cx=\"1000\" cy=\"0\" r=\"40\" fill=\"blue\"/>
<circle cx=\"2500\" cy=\"866\" r=\"40\" fill=\"blue\"/>
<circle cx=\"2500\" cy=\"866\" r=\"40\" fill=\"blue\"/>
<circle cx=\"4000\" cy=\"1732\" r=\"40\" fill=\"blue\"/>
<circle cx=\"4000\" cy=\"1732\" r=\"40\" fill=\"blue\"/>
<circle cx=\"-500\" cy=\"866\" r=\"40\" fill=\"red\"/>
<circle cx=\"1000\" cy=\"1732\" r=\"40\" fill=\"red\"/>
<circle cx=\"1000\" cy=\"1732\" r=\"40\" fill=\"red\"/>
<circle cx=\"2500\" cy=\"2598\" r=\"40\" fill=\"red\"/>
<circle cx=\"2500\" cy=\"2598\" r=\"40\" fill=\"red\"/>
<circle cx=\"4000\" cy=\"3464\" r=\"40\" fill=\"red\"/>
</svg>
";

// A box of level 1 in its place.
fn quarter(i: u32, j: u32, kind: PatchKind) -> Patch
    requires column { i ≤ 1 }
    requires row { j ≤ 1 }
    ensures { result.place.level ≤ 1 }
{
    let place = GridBox { i, j, level: 1 };
    Patch { place, kind }
}

#[test]
fn draws_the_unit_square(rt: HostRuntime) -> Result<(), Fail> {
    let alloc = rt.alloc();
    let patches = [Patch {
        place: GridBox::default(),
        kind: PatchKind::Undecided,
    }];
    let mut out = MemSink::new(alloc, 4096, 4096, Vec::new(alloc))?;
    write_tile(&patches, &mut out)?;
    assert_eq!(rt; out.bytes(), WHOLE.as_bytes());
    Ok(())
}

#[test]
fn draws_four_quarters(rt: HostRuntime) -> Result<(), Fail> {
    let alloc = rt.alloc();
    let patches = [
        quarter(0, 0, PatchKind::Undecided),
        quarter(1, 0, PatchKind::Undecided),
        quarter(0, 1, PatchKind::Undecided),
        quarter(1, 1, PatchKind::Beyond),
    ];
    let mut out = MemSink::new(alloc, 4096, 7, Vec::new(alloc))?;
    write_tile(&patches, &mut out)?;
    assert_eq!(rt; out.bytes(), QUARTERS.as_bytes());
    Ok(())
}

#[test]
fn draws_the_unfolding_of_123123(rt: HostRuntime) -> Result<(), Fail> {
    let alloc = rt.alloc();
    let word = Word::read(alloc, b"123123")?;
    let unfolding = Unfolding::of(alloc, &word)?;
    let mut out = MemSink::new(alloc, 4096, 4096, Vec::new(alloc))?;
    write_unfolding(&unfolding, Frac::new(1, 3), Frac::new(1, 3), &mut out)?;
    assert_eq!(rt; out.bytes(), UNFOLDING.as_bytes());
    Ok(())
}

// With room for 100 bytes, the first 100 are written.
#[test]
fn fails_behind_a_prefix(rt: HostRuntime) -> Result<(), Fail> {
    let alloc = rt.alloc();
    let word = Word::read(alloc, b"123123")?;
    let unfolding = Unfolding::of(alloc, &word)?;
    let mut out = MemSink::new(alloc, 100, 7, Vec::new(alloc))?;
    let written = write_unfolding(&unfolding, Frac::new(1, 3), Frac::new(1, 3), &mut out);
    assert!(rt; written.is_err());
    assert_eq!(rt; out.bytes(), &UNFOLDING.as_bytes()[..100]);
    Ok(())
}
