//! Bounds for the value of a form by its number.
ghost use Rattle.std.specs.Prelude.{◌≡◌, ◌*◌, ◌^◌, ◌≤◌, pos, ◌+ℤ◌, ◌-ℤ◌, ◌*ℤ◌, ◌≤ℤ◌, unsigned_abs};

use directed_fixed::{Interval, Scale};

/// A form's number, less and more 256 units for each unit of the form's weight.
pub fn around<S: Scale>(number: i128, weight: i64) -> Interval<S>
    requires size { unsigned_abs number ≤ 2 ^ 99 }
    requires weight_least { pos 0 ≤ℤ weight }
    requires weight_most { weight ≤ℤ pos 16384 }
    ensures { result ≡ record { lo = number -ℤ pos (256 * unsigned_abs weight); hi = number +ℤ pos (256 * unsigned_abs weight) } }
{
    let error = 256 * i128::from(weight);
    Interval::new(number - error, number + error)
}
