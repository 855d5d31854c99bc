//! The test of a word at the four corners of a box.
ghost use Rattle.std.specs.Prelude.{◌≡◌, ◌+◌, ◌-◌, ◌≤◌, IsTrue, IsSome};
ghost use Rattle.edge_words.specs.Word.{IsWord};
ghost use Rattle.unfolding.specs.Shift.{HasShift};
ghost use Rattle.rational_polygon.specs.Point.{Point};
ghost use Rattle.rational_polygon.specs.Square.{IsInBox};
ghost use Rattle.gradient_bounds.specs.Clear.{slack};
ghost use Rattle.gradient_bounds.specs.CornerClear.{IsCornerClear};
ghost use Rattle.gradient_bounds.specs.Corridor.{HasCorridor};
ghost use Rattle.corner_bounds.specs.Reaching.{EachReachesAtCorner};

use crate::sag::sag_threshold;
use directed_fixed::Scale;
use gradient_bounds::Prepared;
use rational_polygon::GridBox;

/// Whether the word is seen to have a corridor at every point of the box, by its functions at the four corners.
///
/// Along a straight line a sine lies above its chords but for a term of second order, so a function in a box is at least
/// its least value at the corners but for its sag: 2·pi² times its bend times the square of half the side. The answer is
/// true only where each function exceeds its sag at each corner by its margin with the slack `2^-low`, and true wherever
/// each does with one sixteen times as wide. The table is filled at corners of the box.
pub fn test_corners<S: Scale>(p: &mut Prepared<S>, place: GridBox, low: u32) -> bool
    requires deep { 10 ≤ place.level }
    requires low_least { 12 ≤ low }
    requires low_most { low ≤ 40 }
    requires room { low + 8 ≤ S.BITS }
    ensures word { p.new.word ≡ p.old.word }
    ensures point { IsSome p.new.point }
    ensures clear { IsTrue result → IsCornerClear p.old.word place (slack low) }
    ensures found { IsCornerClear p.old.word place (slack (low - 4)) → IsTrue result }
    ensures corridor { IsTrue result → (q : Point) → IsInBox place q → HasCorridor p.old.word q.x q.y }
{
    if !is_clear_at::<S>(p, place, low, 0, 0) {
        return false;
    }
    if !is_clear_at::<S>(p, place, low, 1, 0) {
        return false;
    }
    if !is_clear_at::<S>(p, place, low, 0, 1) {
        return false;
    }
    is_clear_at::<S>(p, place, low, 1, 1)
}

/// Whether each function is seen to reach its sag and its margin at the corner (a, b).
fn is_clear_at<S: Scale>(p: &mut Prepared<S>, place: GridBox, low: u32, a: u32, b: u32) -> bool
    requires level { 10 ≤ place.level }
    requires low { 12 ≤ low }
    requires room { low + 8 ≤ S.BITS }
    requires a { a ≤ 1 }
    requires b { b ≤ 1 }
    ensures word { p.new.word ≡ p.old.word }
    ensures point { IsSome p.new.point }
    ensures is_word { IsWord p.old.word }
    ensures shift { HasShift p.old.word }
    ensures clear { IsTrue result → EachReachesAtCorner place (slack low) p.old.word a b }
    ensures found { EachReachesAtCorner place (slack (low - 4)) p.old.word a b → IsTrue result }
{
    let (x, y) = place.corner(a, b);
    p.fill(x, y);
    p.each_reaches(&sag_threshold::<S>(place.level, low))
}
