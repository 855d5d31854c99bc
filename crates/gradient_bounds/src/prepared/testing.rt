//! The tests of a stable word at a triangle and on boxes.
ghost use Rattle.std.specs.Prelude.{◌≡◌, ◌↔◌, ◌^◌, ◌≤◌, Some, IsTrue};
ghost use Rattle.rat_core.specs.Fraction.{whole, ◌+ℚ◌, ◌≤ℚ◌, ◌<ℚ◌};
ghost use Rattle.rat_core.specs.Written.{value};
ghost use Rattle.rational_polygon.specs.Point.{Point};
ghost use Rattle.rational_polygon.specs.Square.{IsInBox, centre};
ghost use Rattle.gradient_bounds.specs.Corridor.{EachFunction, SomeFunction, HasCorridor};
ghost use Rattle.gradient_bounds.specs.Clear.{slack, IsClearAtPoint, IsClear, IsShut};
ghost use Rattle.gradient_bounds.specs.Table.{centre_of, box_drift, no_drift, LowerEndReaches, UpperEndFalls};

use crate::decision::each_reaches;
use crate::falls::some_falls_below;
use crate::filled::is_at;
use crate::neighbourhood::{drift_threshold, point, square};
use crate::prepared::Prepared;
use directed_fixed::Scale;
use rat_core::Frac;
use rational_polygon::GridBox;

impl<S: Scale> Prepared<S> {
    /// Whether the triangle (x, y) is seen to have a corridor of the word, by the table at (x, y).
    ///
    /// It is true only where each function is clear with the narrower slack of the scale, and true wherever each is
    /// clear with the wider one.
    pub fn test_point(&mut self, x: Frac, y: Frac) -> bool
        requires first { whole 0 <ℚ value x }
        requires second { whole 0 <ℚ value y }
        requires third { value x +ℚ value y <ℚ whole 1 }
        requires x_denominator { x.den ≤ 2 ^ 20 }
        requires y_denominator { y.den ≤ 2 ^ 20 }
        ensures word { self.new.word ≡ self.old.word }
        ensures point { self.new.point ≡ Some (x, y) }
        ensures decided { IsTrue result ↔ EachFunction self.new.word (LowerEndReaches S.BITS S.LOW_BITS no_drift self.new.table) }
        ensures clear { IsTrue result → IsClearAtPoint self.old.word (value x) (value y) (slack S.LOW_BITS) }
        ensures found { IsClearAtPoint self.old.word (value x) (value y) (slack S.HIGH_BITS) → IsTrue result }
        ensures corridor { IsTrue result → HasCorridor self.old.word (value x) (value y) }
    {
        self.move_to(x, y);
        each_reaches(
            &self.functions,
            &self.uppers,
            &self.lowers,
            &drift_threshold::<S>(&point(x, y)),
        )
    }

    /// Whether the word is seen to have a corridor at every point of the box, by the table at its centre alone.
    ///
    /// A sine of pi times t changes by at most pi times the change of t, so from the centre to another point of the box
    /// a function changes by at most its drift: pi times its reach times half the side. The answer is true only where
    /// each function exceeds its drift by its margin with the narrower slack of the scale, and true wherever each does
    /// with the wider one. Source: the gradient bounds of Richard Evan Schwartz, Obtuse Triangular Billiards I: Near the
    /// (2, 3, 6) Triangle, Experimental Mathematics 15 (2006).
    pub fn test_box(&mut self, place: GridBox) -> bool
        ensures word { self.new.word ≡ self.old.word }
        ensures point { self.new.point ≡ Some (centre_of place) }
        ensures decided { IsTrue result ↔ EachFunction self.new.word (LowerEndReaches S.BITS S.LOW_BITS (box_drift S.PI_HI place) self.new.table) }
        ensures clear { IsTrue result → IsClear self.old.word place (slack S.LOW_BITS) }
        ensures found { IsClear self.old.word place (slack S.HIGH_BITS) → IsTrue result }
        ensures corridor { IsTrue result → (p : Point) → IsInBox place p → HasCorridor self.old.word p.x p.y }
    {
        self.move_to_centre(place);
        each_reaches(
            &self.functions,
            &self.uppers,
            &self.lowers,
            &drift_threshold::<S>(&square(place)),
        )
    }

    /// Whether the word is seen to have a corridor at no point of the box: one function is as far below 0 at the centre
    /// as `test_box` wants each above 0. The slacks are those of `test_box`, and so is the source.
    pub fn shut_box(&mut self, place: GridBox) -> bool
        ensures word { self.new.word ≡ self.old.word }
        ensures point { self.new.point ≡ Some (centre_of place) }
        ensures decided { IsTrue result ↔ SomeFunction self.new.word (UpperEndFalls S.BITS S.LOW_BITS (box_drift S.PI_HI place) self.new.table) }
        ensures shut { IsTrue result → IsShut self.old.word place (slack S.LOW_BITS) }
        ensures found { IsShut self.old.word place (slack S.HIGH_BITS) → IsTrue result }
        ensures no_corridor { IsTrue result → (p : Point) → IsInBox place p → ¬ (HasCorridor self.old.word p.x p.y) }
    {
        self.move_to_centre(place);
        some_falls_below(
            &self.functions,
            &self.uppers,
            &self.lowers,
            &drift_threshold::<S>(&square(place)),
        )
    }

    /// Fills the table at the centre of the box, unless it was filled there last.
    fn move_to_centre(&mut self, place: GridBox)
        ensures word { self.new.word ≡ self.old.word }
        ensures point { self.new.point ≡ Some (centre_of place) }
        ensures centre { record { x = value (centre_of place).0; y = value (centre_of place).1 } ≡ centre place }
    {
        let (x, y) = place.centre();
        self.move_to(x, y);
    }

    /// Fills the table at (x, y), unless it was filled there last.
    fn move_to(&mut self, x: Frac, y: Frac)
        requires x_least { whole 0 ≤ℚ value x }
        requires x_most { value x ≤ℚ whole 1 }
        requires y_least { whole 0 ≤ℚ value y }
        requires y_most { value y ≤ℚ whole 1 }
        requires x_denominator { x.den ≤ 2 ^ 21 }
        requires y_denominator { y.den ≤ 2 ^ 21 }
        ensures word { self.new.word ≡ self.old.word }
        ensures point { self.new.point ≡ Some (x, y) }
    {
        if !is_at(&self.point, &x, &y) {
            self.fill(x, y);
        }
    }
}
