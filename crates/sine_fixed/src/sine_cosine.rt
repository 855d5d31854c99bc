//! The sine and the cosine of one angle.
ghost use Rattle.std.specs.Prelude.{◌^◌, ◌≤◌, pos};
ghost use Rattle.rat_core.specs.Fraction.{◌÷◌};
ghost use Rattle.sine_fixed.specs.SineTables.{IsSineCosine};

use crate::reduced::turn;
use crate::series::close_sine;

/// The sine and the cosine of an angle, in units of 2^-60.
#[derive(Clone, Copy, Debug)]
pub struct SineCosine {
    pub sine: i64,
    pub cosine: i64,
}

impl SineCosine {
    /// Those of `num / den` half turns, each within 30 units.
    pub fn of(num: u32, den: u32) -> SineCosine
        requires numerator { num ≤ 2 ^ 22 }
        requires positive { 1 ≤ den }
        requires denominator { den ≤ 2 ^ 21 }
        ensures { IsSineCosine (pos num ÷ den) result }
    {
        let num = i128::from(num);
        let den = i128::from(den);
        SineCosine {
            sine: close_sine(turn(num, den)),
            cosine: close_sine(turn(2 * num + den, 2 * den)),
        }
    }
}
