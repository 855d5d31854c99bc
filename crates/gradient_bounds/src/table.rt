//! The table of sines of a word.
ghost use Rattle.std.specs.Prelude.{◌≡◌, ◌+◌, ◌*◌, ◌^◌, ◌≤◌, length, map, IfOk, OnOk, pos, unsigned_abs};
ghost use Rattle.std.specs.List.{All};
ghost use Rattle.edge_words.specs.Letters.{IsPlace};
ghost use Rattle.exp_sums.specs.Limits.{IsNear};
ghost use Rattle.trig_meaning.specs.FromSomeOn.{FromSomeOn};
ghost use Rattle.trig_meaning.specs.Turn.{sine_of_turn};
ghost use Rattle.trig_meaning.specs.Value.{turn_of};
ghost use Rattle.rat_core.specs.Fraction.{◌÷◌, whole, ◌≤ℚ◌};
ghost use Rattle.rat_core.specs.Written.{value};
ghost use Rattle.sine_fixed.specs.Angles.{IsAngles, first_angle, second_angle};
ghost use Rattle.sine_fixed.specs.SineTables.{IsGridAngles, half_turn};
ghost use Rattle.gradient_bounds.specs.Table.{IsTableOf, IsLowAt};
ghost use Rattle.gradient_bounds.specs.Kept.{IsSmallEntry};

use crate::sine_low::SineLow;
use directed_fixed::Scale;
use exp_sums::Dir;
use rat_core::Frac;
use sine_fixed::{Angles, GridAngles, SineTable, direction_sine, over_one_denominator};

/// A number for the sine of a direction at a point: at most the sine, and at most 256 units below it.
fn low_sine<S: Scale>(dir: Dir, at: &Angles) -> i128
    requires near { IsNear 130 dir }
    requires angles { IsAngles at.now }
    ensures low { IsLowAt S.BITS (first_angle at.now) (second_angle at.now) (record { dir = dir; low = result }) }
    ensures size { unsigned_abs result ≤ 2 ^ 62 }
{
    direction_sine::<S>(dir, at).lo()
}

/// Computes the number of each entry at the point (x, y): by the tables of sines, where there are some and the point is on
/// their grid, as the centres of boxes are.
pub fn fill<S: Scale>(table: &mut [SineLow], sines: Option<&SineTable>, x: Frac, y: Frac)
    requires near { All (λ e. IsNear 130 e.dir) table.old }
    requires x_least { whole 0 ≤ℚ value x }
    requires x_most { value x ≤ℚ whole 1 }
    requires y_least { whole 0 ≤ℚ value y }
    requires y_most { value y ≤ℚ whole 1 }
    requires x_denominator { x.den ≤ 2 ^ 21 }
    requires y_denominator { y.den ≤ 2 ^ 21 }
    ensures directions { map (λ e. e.dir) table.new ≡ map (λ e. e.dir) table.old }
    ensures lows { All (IsLowAt S.BITS (value x) (value y)) table.new }
    ensures small { All IsSmallEntry table.new }
{
    match (sines, GridAngles::of(x, y)) {
        (Some(sines), Some(at)) => fill_on_grid::<S>(table, sines, &at),
        _ => fill_anywhere::<S>(table, &over_one_denominator(x, y)),
    }
}

/// The same on the grid of the tables of sines.
fn fill_on_grid<S: Scale>(table: &mut [SineLow], sines: &SineTable, at: &GridAngles)
    requires near { All (λ e. IsNear 130 e.dir) table.old }
    requires angles { IsGridAngles at.now }
    ensures directions { map (λ e. e.dir) table.new ≡ map (λ e. e.dir) table.old }
    ensures lows { All (IsLowAt S.BITS (pos at.now.first ÷ half_turn) (pos at.now.second ÷ half_turn)) table.new }
    ensures small { All IsSmallEntry table.new }
{
    for entry in table.iter_mut() {
        entry.low = sines.low_sine::<S>(entry.dir, at);
    }
}

/// The same without tables of sines.
fn fill_anywhere<S: Scale>(table: &mut [SineLow], at: &Angles)
    requires near { All (λ e. IsNear 130 e.dir) table.old }
    requires angles { IsAngles at.now }
    ensures directions { map (λ e. e.dir) table.new ≡ map (λ e. e.dir) table.old }
    ensures lows { All (IsLowAt S.BITS (first_angle at.now) (second_angle at.now)) table.new }
    ensures small { All IsSmallEntry table.new }
{
    for entry in table.iter_mut() {
        entry.low = low_sine::<S>(entry.dir, at);
    }
}
