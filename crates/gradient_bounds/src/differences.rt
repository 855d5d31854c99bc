//! The differences of the numbers of upper and lower heights.
ghost use Rattle.std.specs.Prelude.{◌≡◌, ℕ, ◌^◌, ◌≤◌, ◌≤ℤ◌, length, unsigned_abs};
ghost use Rattle.std.specs.List.{All};
ghost use Rattle.edge_words.specs.Letters.{IsPlace};
ghost use Rattle.unfolding.specs.Shift.{HasShift};
ghost use Rattle.defining_functions.specs.Heights.{upper_height, lower_height};
ghost use Rattle.gradient_bounds.specs.Decision.{AreNumbers, difference, IsGreatest};

use crate::extremes::{greatest, least};
use defining_functions::Functions;

/// The upper corner with the least number and the lower one with the greatest. Their numbers have the least difference.
pub fn nearest(functions: &Functions, uppers: &[i128], lowers: &[i128]) -> (u32, u32)
    requires uppers { AreNumbers functions.now upper_height uppers.now }
    requires lowers { AreNumbers functions.now lower_height lowers.now }
    ensures shift { HasShift functions.now }
    ensures upper { IsPlace functions.now result.0 }
    ensures lower { IsPlace functions.now result.1 }
    ensures greatest { IsGreatest functions.now lowers.now result.1 }
    ensures least { (i j : ℕ) → IsPlace functions.now i → IsPlace functions.now j
        → difference uppers.now lowers.now result.0 result.1 ≤ℤ difference uppers.now lowers.now i j }
{
    let letters = functions.letters();
    prove!(letters > 0);
    (
        least(uppers, functions.upper_edges()),
        greatest(lowers, functions.lower_edges()),
    )
}

/// The number of the k-th upper corner less that of the l-th lower one.
pub fn difference(uppers: &[i128], lowers: &[i128], k: u32, l: u32) -> i128
    requires upper { (1 ≤ k) × (k ≤ length uppers.now) }
    requires lower { (1 ≤ l) × (l ≤ length lowers.now) }
    requires uppers { All (λ z. unsigned_abs z ≤ 2 ^ 76) uppers.now }
    requires lowers { All (λ z. unsigned_abs z ≤ 2 ^ 76) lowers.now }
    ensures is { result ≡ difference uppers.now lowers.now k l }
    ensures size { unsigned_abs result ≤ 2 ^ 77 }
{
    uppers[k as usize - 1] - lowers[l as usize - 1]
}
