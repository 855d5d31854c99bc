//! The least and the greatest height of some places over a shift.
ghost use Rattle.std.specs.Prelude.{◌≡◌, ◌<◌, ◌≤ℤ◌, ℕ, length, slice_index_or, All};
ghost use Rattle.std.specs.Int.{int_min, int_max};
ghost use Rattle.word_search.specs.declared.place.Place.{Place};
ghost use Rattle.word_search.specs.Places.{IsSmallPlace, height_over};

use crate::place::Place;

/// The lesser of two numbers.
fn lesser(first: i128, second: i128) -> i128
    ensures { result ≡ int_min first second }
{
    if second < first { second } else { first }
}

/// The greater of two numbers.
fn greater(first: i128, second: i128) -> i128
    ensures { result ≡ int_max first second }
{
    if first < second { second } else { first }
}

/// The least height of some places.
pub(crate) fn least_height(shift: Place, places: &[Place]) -> i128
    requires shift { IsSmallPlace 48 shift }
    requires some { 0 < length places.now }
    requires places { All (IsSmallPlace 48) places.now }
    ensures least { All (λ p. result ≤ℤ height_over shift p) places.now }
    ensures met { (i : ℕ) × (i < length places.now) × ((z : Place) → result ≡ height_over shift (slice_index_or places.now i z)) }
{
    let mut least = places[0].height(shift);
    for place in places {
        least = lesser(least, place.height(shift));
    }
    least
}

/// The greatest height of some places.
pub(crate) fn greatest_height(shift: Place, places: &[Place]) -> i128
    requires shift { IsSmallPlace 48 shift }
    requires some { 0 < length places.now }
    requires places { All (IsSmallPlace 48) places.now }
    ensures greatest { All (λ p. height_over shift p ≤ℤ result) places.now }
    ensures met { (i : ℕ) × (i < length places.now) × ((z : Place) → result ≡ height_over shift (slice_index_or places.now i z)) }
{
    let mut greatest = places[0].height(shift);
    for place in places {
        greatest = greater(greatest, place.height(shift));
    }
    greatest
}
