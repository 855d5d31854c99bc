ghost use Rattle.std.specs.Prelude.{◌≡◌, ◌+◌, ◌-◌, ◌<◌, ◌≤◌, ◌^◌, length, IsTrue, MatchOption};
ghost use Rattle.gradient_bounds.specs.Clear.{slack, IsClear, IsShut};
ghost use Rattle.gradient_bounds.specs.CornerClear.{IsCornerClear};
ghost use Rattle.covering_file.specs.Faults.{word_at, IsListed};
ghost use Rattle.covering_claims.specs.Claims.{NoneIsClear, IsFirstClear};

use crate::WordTests;
use directed_fixed::Scale;
use rational_polygon::GridBox;

/// The number of the first listed word, counted from 1, that is shown on the box. `None` where none is.
pub fn first_shown<S: Scale>(tests: &mut [WordTests<S>], place: GridBox) -> Option<u32>
    requires few { length tests.old < 2 ^ 32 }
    ensures kept { tests.new ≡ tests.old }
    ensures first { MatchOption result (NoneIsClear tests.old (slack S.HIGH_BITS) place)
        (IsFirstClear tests.old (slack S.LOW_BITS) (slack S.HIGH_BITS) place) }
{
    for i in 1..=tests.len() as u32 {
        if is_shown(tests, i, place) {
            return Some(i);
        }
    }
    None
}

/// Whether the listed word of number `i`, counted from 1, is shown on the box.
pub fn is_shown<S: Scale>(tests: &mut [WordTests<S>], i: u32, place: GridBox) -> bool
    requires { IsListed tests.old i }
    ensures kept { tests.new ≡ tests.old }
    ensures clear { IsTrue result → IsClear (word_at tests.old i) place (slack S.LOW_BITS) }
    ensures found { IsClear (word_at tests.old i) place (slack S.HIGH_BITS) → IsTrue result }
{
    tests[i as usize - 1].is_clear(place)
}

/// Whether the listed word of number `i`, counted from 1, is shown at the corners of the box with the slack `2^-low`. Below
/// level 10 none is.
pub fn is_corner_shown<S: Scale>(
    tests: &mut [WordTests<S>],
    i: u32,
    place: GridBox,
    low: u32,
) -> bool
    requires listed { IsListed tests.old i }
    requires low_least { 12 ≤ low }
    requires low_most { low ≤ 40 }
    requires room { low + 8 ≤ S.BITS }
    ensures kept { tests.new ≡ tests.old }
    ensures clear { IsTrue result → IsCornerClear (word_at tests.old i) place (slack low) }
    ensures found { IsCornerClear (word_at tests.old i) place (slack (low - 4)) → IsTrue result }
{
    tests[i as usize - 1].is_corner_clear(place, low)
}

/// Whether the listed word of number `i`, counted from 1, is shut on the box, so that it is shown on no box within.
pub fn is_shut<S: Scale>(tests: &mut [WordTests<S>], i: u32, place: GridBox) -> bool
    requires { IsListed tests.old i }
    ensures kept { tests.new ≡ tests.old }
    ensures shut { IsTrue result → IsShut (word_at tests.old i) place (slack S.LOW_BITS) }
    ensures found { IsShut (word_at tests.old i) place (slack S.HIGH_BITS) → IsTrue result }
{
    tests[i as usize - 1].is_shut(place)
}
