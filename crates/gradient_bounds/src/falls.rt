//! Whether a function falls far below 0, by the numbers of heights. No difference is below 0 where the least one is not.
ghost use Rattle.std.specs.Prelude.{◌≡◌, ◌↔◌, ℕ, ◌^◌, ◌≤◌, unsigned_abs, IsTrue};
ghost use Rattle.edge_words.specs.Letters.{IsPlace};
ghost use Rattle.unfolding.specs.Shift.{HasShift};
ghost use Rattle.defining_functions.specs.Heights.{upper_height, lower_height};
ghost use Rattle.gradient_bounds.specs.Decision.{AreNumbers, IsGreatest};
ghost use Rattle.gradient_bounds.specs.Decision.{needed_by, IsThreshold, FallsBelow, SomeInRowFalls, SomeFallsBelow};

use crate::differences::{difference, nearest};
use crate::most::least_in_row;
use crate::needs::reaches_needed;
use crate::threshold::Threshold;
use defining_functions::Functions;

/// Whether one difference of an upper and a lower number lies as far below 0 as the function of the two corners needs.
pub fn some_falls_below(
    functions: &Functions,
    uppers: &[i128],
    lowers: &[i128],
    threshold: &Threshold,
) -> bool
    requires uppers { AreNumbers functions.now upper_height uppers.now }
    requires lowers { AreNumbers functions.now lower_height lowers.now }
    requires threshold { IsThreshold threshold.now }
    ensures { IsTrue result ↔ SomeFallsBelow (needed_by threshold.now) functions.now uppers.now lowers.now }
{
    let (k, l) = nearest(functions, uppers, lowers);
    let least = difference(uppers, lowers, k, l);
    if least >= 0 {
        return false;
    }
    falls_below(functions, k, l, least, threshold)
        || one_falls(functions, uppers, lowers, l, threshold)
}

/// Whether a difference lies as far below 0 as the function of the k-th upper and the l-th lower corner needs.
fn falls_below(
    functions: &Functions,
    k: u32,
    l: u32,
    difference: i128,
    threshold: &Threshold,
) -> bool
    requires upper { IsPlace functions.now k }
    requires lower { IsPlace functions.now l }
    requires size { unsigned_abs difference ≤ 2 ^ 77 }
    requires threshold { IsThreshold threshold.now }
    ensures { IsTrue result ↔ FallsBelow (needed_by threshold.now) functions.now k l difference }
{
    reaches_needed(-difference, threshold, &functions.sizes(k, l))
}

/// Whether one difference of the k-th upper number lies as far below 0 as its function needs.
fn one_in_row_falls(
    functions: &Functions,
    uppers: &[i128],
    lowers: &[i128],
    k: u32,
    threshold: &Threshold,
) -> bool
    requires place { IsPlace functions.now k }
    requires uppers { AreNumbers functions.now upper_height uppers.now }
    requires lowers { AreNumbers functions.now lower_height lowers.now }
    requires threshold { IsThreshold threshold.now }
    ensures { IsTrue result ↔ SomeInRowFalls (needed_by threshold.now) functions.now uppers.now lowers.now k }
{
    let edges = functions.lower_edges();
    for &l in edges {
        let gap = difference(uppers, lowers, k, l);
        if gap < 0 && falls_below(functions, k, l, gap, threshold) {
            return true;
        }
    }
    false
}

/// The same, where `nearest` is the lower corner with the greatest number. No difference of the row falls where the least one is
/// not below 0, or misses what the least sizes of the row would need.
fn row_falls(
    functions: &Functions,
    uppers: &[i128],
    lowers: &[i128],
    k: u32,
    nearest: u32,
    threshold: &Threshold,
) -> bool
    requires shift { HasShift functions.now }
    requires place { IsPlace functions.now k }
    requires nearest { IsPlace functions.now nearest }
    requires greatest { IsGreatest functions.now lowers.now nearest }
    requires uppers { AreNumbers functions.now upper_height uppers.now }
    requires lowers { AreNumbers functions.now lower_height lowers.now }
    requires threshold { IsThreshold threshold.now }
    ensures { IsTrue result ↔ SomeInRowFalls (needed_by threshold.now) functions.now uppers.now lowers.now k }
{
    let least = difference(uppers, lowers, k, nearest);
    if least >= 0 {
        return false;
    }
    if !reaches_needed(-least, threshold, &least_in_row(functions, k)) {
        return false;
    }
    one_in_row_falls(functions, uppers, lowers, k, threshold)
}

/// Whether this is so for one upper number.
fn one_falls(
    functions: &Functions,
    uppers: &[i128],
    lowers: &[i128],
    nearest: u32,
    threshold: &Threshold,
) -> bool
    requires nearest { IsPlace functions.now nearest }
    requires greatest { IsGreatest functions.now lowers.now nearest }
    requires uppers { AreNumbers functions.now upper_height uppers.now }
    requires lowers { AreNumbers functions.now lower_height lowers.now }
    requires threshold { IsThreshold threshold.now }
    ensures { IsTrue result ↔ SomeFallsBelow (needed_by threshold.now) functions.now uppers.now lowers.now }
{
    let edges = functions.upper_edges();
    for &k in edges {
        if row_falls(functions, uppers, lowers, k, nearest, threshold) {
            return true;
        }
    }
    false
}
