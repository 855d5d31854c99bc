//! The decision of the tests by the numbers of heights.
//!
//! The least upper number and the greatest lower one are nearest to each other. Where their difference misses what their own
//! function needs, not each difference reaches what its function needs. Where it reaches what the greatest sizes would
//! need, each does. In between a test goes over the upper corners: a row passes where its difference from the greatest
//! lower number reaches as much, or what the greatest sizes of the row would need, and only else it is gone through pair by
//! pair.
//! Corners at which several edges end are looked at once.
ghost use Rattle.std.specs.Prelude.{◌≡◌, ◌↔◌, ℕ, ◌^◌, ◌≤◌, ◌≤ℤ◌, unsigned_abs, IsTrue};
ghost use Rattle.edge_words.specs.Letters.{IsPlace};
ghost use Rattle.defining_functions.specs.Heights.{upper_height, lower_height};
ghost use Rattle.gradient_bounds.specs.Decision.{AreNumbers, difference, Reaches, ReachesInRow, ReachesAll, EachReaches, IsGreatest};
ghost use Rattle.gradient_bounds.specs.Decision.{needed_by, IsThreshold};

use crate::differences::{difference, nearest};
use crate::most::{most_in_row, most_of};
use crate::needs::{enough, reaches_needed};
use crate::threshold::Threshold;
use defining_functions::Functions;

/// Whether each difference of an upper and a lower number reaches what the function of the two corners needs.
pub fn each_reaches(
    functions: &Functions,
    uppers: &[i128],
    lowers: &[i128],
    threshold: &Threshold,
) -> bool
    requires uppers { AreNumbers functions.now upper_height uppers.now }
    requires lowers { AreNumbers functions.now lower_height lowers.now }
    requires threshold { IsThreshold threshold.now }
    ensures { IsTrue result ↔ EachReaches (needed_by threshold.now) functions.now uppers.now lowers.now }
{
    let (k, l) = nearest(functions, uppers, lowers);
    let least = difference(uppers, lowers, k, l);
    if !reaches(functions, k, l, least, threshold) {
        return false;
    }
    let most = enough_for_all(functions, threshold);
    if is_at_least(least, most) {
        return true;
    }
    all_reach(functions, uppers, lowers, l, most, threshold)
}

/// A number that reaches what each function needs: what the greatest sizes would need, and at most a unit more.
fn enough_for_all(functions: &Functions, threshold: &Threshold) -> i128
    requires threshold { IsThreshold threshold.now }
    ensures { ReachesAll (needed_by threshold.now) functions.now result }
{
    enough(threshold, &most_of(functions))
}

/// A number that reaches what each function of the k-th upper corner needs.
fn enough_in_row(functions: &Functions, k: u32, threshold: &Threshold) -> i128
    requires place { IsPlace functions.now k }
    requires threshold { IsThreshold threshold.now }
    ensures { ReachesInRow (needed_by threshold.now) functions.now k result }
{
    enough(threshold, &most_in_row(functions, k))
}

/// Whether a difference is at least another number.
fn is_at_least(difference: i128, most: i128) -> bool
    ensures { IsTrue result ↔ (most ≤ℤ difference) }
{
    difference >= most
}

/// Whether a difference reaches what the function of the k-th upper and the l-th lower corner needs.
fn reaches(functions: &Functions, k: u32, l: u32, difference: i128, threshold: &Threshold) -> bool
    requires upper { IsPlace functions.now k }
    requires lower { IsPlace functions.now l }
    requires size { unsigned_abs difference ≤ 2 ^ 77 }
    requires threshold { IsThreshold threshold.now }
    ensures { IsTrue result ↔ Reaches (needed_by threshold.now) functions.now k l difference }
{
    reaches_needed(difference, threshold, &functions.sizes(k, l))
}

/// The same, where `most` is known to be as much.
fn surely_reaches(
    functions: &Functions,
    k: u32,
    l: u32,
    difference: i128,
    most: i128,
    threshold: &Threshold,
) -> bool
    requires upper { IsPlace functions.now k }
    requires lower { IsPlace functions.now l }
    requires most { Reaches (needed_by threshold.now) functions.now k l most }
    requires size { unsigned_abs difference ≤ 2 ^ 77 }
    requires threshold { IsThreshold threshold.now }
    ensures { IsTrue result ↔ Reaches (needed_by threshold.now) functions.now k l difference }
{
    is_at_least(difference, most) || reaches(functions, k, l, difference, threshold)
}

/// Whether each difference of the k-th upper number reaches what its function needs, where `most` is at least as much as each of the
/// row needs.
fn each_in_row_reaches(
    functions: &Functions,
    uppers: &[i128],
    lowers: &[i128],
    k: u32,
    most: i128,
    threshold: &Threshold,
) -> bool
    requires place { IsPlace functions.now k }
    requires most { ReachesInRow (needed_by threshold.now) functions.now k most }
    requires uppers { AreNumbers functions.now upper_height uppers.now }
    requires lowers { AreNumbers functions.now lower_height lowers.now }
    requires threshold { IsThreshold threshold.now }
    ensures { IsTrue result ↔ ((l : ℕ) → IsPlace functions.now l
        → Reaches (needed_by threshold.now) functions.now k l (difference uppers.now lowers.now k l)) }
{
    let edges = functions.lower_edges();
    for &l in edges {
        let gap = difference(uppers, lowers, k, l);
        if !surely_reaches(functions, k, l, gap, most, threshold) {
            return false;
        }
    }
    true
}

/// The same, where `nearest` is the lower corner with the greatest number. The row passes where its least difference reaches
/// what the greatest sizes of the row would need.
fn row_reaches(
    functions: &Functions,
    uppers: &[i128],
    lowers: &[i128],
    k: u32,
    nearest: u32,
    most: i128,
    threshold: &Threshold,
) -> bool
    requires place { IsPlace functions.now k }
    requires most { ReachesInRow (needed_by threshold.now) functions.now k most }
    requires nearest { IsPlace functions.now nearest }
    requires greatest { IsGreatest functions.now lowers.now nearest }
    requires uppers { AreNumbers functions.now upper_height uppers.now }
    requires lowers { AreNumbers functions.now lower_height lowers.now }
    requires threshold { IsThreshold threshold.now }
    ensures { IsTrue result ↔ ((l : ℕ) → IsPlace functions.now l
        → Reaches (needed_by threshold.now) functions.now k l (difference uppers.now lowers.now k l)) }
{
    let least = difference(uppers, lowers, k, nearest);
    if is_at_least(least, most) {
        return true;
    }
    let most = enough_in_row(functions, k, threshold);
    if is_at_least(least, most) {
        return true;
    }
    each_in_row_reaches(functions, uppers, lowers, k, most, threshold)
}

/// Whether this is so for each upper number.
fn all_reach(
    functions: &Functions,
    uppers: &[i128],
    lowers: &[i128],
    nearest: u32,
    most: i128,
    threshold: &Threshold,
) -> bool
    requires most { ReachesAll (needed_by threshold.now) functions.now most }
    requires nearest { IsPlace functions.now nearest }
    requires greatest { IsGreatest functions.now lowers.now nearest }
    requires uppers { AreNumbers functions.now upper_height uppers.now }
    requires lowers { AreNumbers functions.now lower_height lowers.now }
    requires threshold { IsThreshold threshold.now }
    ensures { IsTrue result ↔ EachReaches (needed_by threshold.now) functions.now uppers.now lowers.now }
{
    let edges = functions.upper_edges();
    for &k in edges {
        if !row_reaches(functions, uppers, lowers, k, nearest, most, threshold) {
            return false;
        }
    }
    true
}
