//! The numbers of single directions.
ghost use Rattle.std.specs.Prelude.{◌≡◌, ◌*◌, ◌^◌, ◌<◌, ◌≤◌, pos, ◌+ℤ◌, ◌-ℤ◌, ◌*ℤ◌, ◌≤ℤ◌, unsigned_abs};
ghost use Rattle.exp_sums.specs.Limits.{IsNear};
ghost use Rattle.sine_fixed.specs.Angles.{IsAngles, first_angle, second_angle};
ghost use Rattle.word_search.specs.Places.{IsUnit, IsSmallPlace, dir_at};

use crate::place::Place;
use exp_sums::Dir;
use pi_bounds::Fine;
use sine_fixed::{Angles, direction_cosine, direction_sine};

/// The direction with a number below 676: both of its own numbers are odd, and from -25 to 25.
pub(crate) fn direction(number: usize) -> Dir
    requires { number < 676 }
    ensures is { result ≡ dir_at number }
    ensures near { IsNear 25 result }
{
    Dir {
        m: 2 * (number / 26) as i32 - 25,
        n: 2 * (number % 26) as i32 - 25,
    }
}

/// The coordinates of a direction, each within 5 units of its own.
pub(crate) fn unit(dir: Dir, at: &Angles) -> Place
    requires near { IsNear 25 dir }
    requires angles { IsAngles at.now }
    requires denominator { at.now.den ≤ℤ pos (2 ^ 40) }
    ensures unit { IsUnit (first_angle at.now) (second_angle at.now) dir result }
    ensures small { IsSmallPlace 1 result }
{
    Place {
        x: rounded(direction_cosine::<Fine>(dir, at).lo()),
        y: rounded(direction_sine::<Fine>(dir, at).lo()),
    }
}

/// The middle of the 256 units of 2^-60 from a number on, rounded to a whole number of units of 2^-55.
fn rounded(low: i128) -> i64
    requires { unsigned_abs low ≤ 3 * 2 ^ 60 }
    ensures low { (pos 32 *ℤ result -ℤ pos 160) ≤ℤ low }
    ensures high { (low +ℤ pos 256) ≤ℤ (pos 32 *ℤ result +ℤ pos 160) }
    ensures size { unsigned_abs result ≤ 13 * 2 ^ 53 }
{
    ((low + 144) >> 5) as i64
}
