//! The plane of a triangle, and the test of words in it.
ghost use Rattle.std.specs.Prelude.{◌≡◌, ◌↔◌, ◌-◌, ◌^◌, ◌≤◌, length, IfOk, IsTrue, pos, ◌-ℤ◌, ◌≤ℤ◌, unsigned_abs, true, false};
ghost use Rattle.edge_words.specs.Stable.{IsStable};
ghost use Rattle.rat_core.specs.Fraction.{whole, ◌+ℚ◌, ◌<ℚ◌};
ghost use Rattle.rat_core.specs.Written.{value};
ghost use Rattle.gradient_bounds.specs.Clear.{IsClearAtPoint};
ghost use Rattle.gradient_bounds.specs.Corridor.{HasCorridor};
ghost use Rattle.gradient_bounds.specs.Slacks.{sure};

use crate::corners::corners_of;
use crate::extremes::{greatest_height, least_height};
use crate::place::Place;
use crate::unit::{direction, unit};
use edge_words::Word;
use rat_core::Frac;
use sine_fixed::over_one_denominator;
use std::alloc::{AllocError as OutOfMemory, Global};
use std::marker::Model;

/// 2^-40 in units of 2^-110.
const NEEDED: i128 = 1 << 70;

/// Whether a height is above another one by at least 2^-40.
fn is_above(first: i128, second: i128) -> bool
    requires first { unsigned_abs first ≤ 2 ^ 126 - 1 }
    requires second { unsigned_abs second ≤ 2 ^ 126 - 1 }
    ensures { IsTrue result ↔ (pos (2 ^ 70) ≤ℤ (first -ℤ second)) }
{
    first - second >= NEEDED
}

/// The plane of a triangle with the numbers of all directions in which triangles of words are seen. It is seen as the triangle's
/// angles at the corners 1 and 2, in half turns. Only `at` takes memory.
#[derive(Drop)]
pub(crate) struct Plane {
    x: Frac,
    y: Frac,
    units: Vec<Place>,
}

impl Model for Plane {
    ghost use Rattle.rat_core.specs.Written.{Written};
    ghost use Rattle.word_search.specs.Places.{AreUnits};

    ghost Value = { Written × Written };

    ghost view = { λ p. (p.x, p.y) };

    ghost invariant = { λ p. AreUnits (p.x, p.y) p.units.items };
}

impl Plane {
    /// The plane of the triangle (x, y).
    pub(crate) fn at(alloc: Global, x: Frac, y: Frac) -> Result<Plane, OutOfMemory>
        requires first { whole 0 <ℚ value x }
        requires second { whole 0 <ℚ value y }
        requires third { value x +ℚ value y <ℚ whole 1 }
        requires x_denominator { x.den ≤ 2 ^ 20 }
        requires y_denominator { y.den ≤ 2 ^ 20 }
        ensures { IfOk result (λ plane. plane ≡ (x, y)) }
    {
        let angles = over_one_denominator(x, y);
        let mut units = Vec::new(alloc);
        for number in 0..676usize {
            units.push(unit(direction(number), &angles))?;
        }
        Ok(Plane { x, y, units })
    }

    /// Whether a stable word is seen to have a corridor in the triangle: whether each upper corner lies higher over the shift than each
    /// lower one, by at least 2^-40 where heights are cross products with the shift.
    ///
    /// Each height is off by less than that, so that a word that is clear with the slack 2^-40 is seen.
    pub(crate) fn shows(&self, word: &Word) -> bool
        requires stable { IsStable word.now }
        requires few { length word.now ≤ 24 }
        ensures open { result ≡ true → HasCorridor word.now (value self.now.0) (value self.now.1) }
        ensures not_shown { result ≡ false → ¬ (IsClearAtPoint word.now (value self.now.0) (value self.now.1) sure.gradient) }
    {
        let letters = word.letters();
        let corners = corners_of(&self.units, letters);
        let least = least_height(corners.shift, &corners.uppers[..letters.len()]);
        let greatest = greatest_height(corners.shift, &corners.lowers[..letters.len()]);
        is_above(least, greatest)
    }
}
