//! The corners along the path with a word.
ghost use Rattle.std.specs.Prelude.{◌≡◌, ◌+◌, ◌<◌, ◌≤◌, ℕ, length, slice_index_or, if◌then◌else◌};
ghost use Rattle.edge_words.specs.Word.{IsWord};
ghost use Rattle.unfolding.specs.Corners.{upper_corner, lower_corner};
ghost use Rattle.unfolding.specs.Triangle.{centre_of};
ghost use Rattle.word_search.specs.declared.place.Place.{Place};
ghost use Rattle.word_search.specs.Places.{AreSmall, place_of};

use crate::MAX_COUNT;
use crate::place::Place;
use crate::seen::Seen;

/// The ends of the edges that a path with a word crosses, and the centre of the last triangle, which is the shift of a stable word.
#[derive(Clone, Copy, Debug)]
pub(crate) struct Corners {
    pub uppers: [Place; MAX_COUNT],
    pub lowers: [Place; MAX_COUNT],
    pub shift: Place,
}

/// The first place where `choice` is set, and else the second.
fn either(choice: bool, first: Place, second: Place) -> Place
    ensures { result ≡ (if choice then first else second) }
{
    if choice { first } else { second }
}

/// The corners of a word of at most `MAX_COUNT` letters, by the numbers of the directions.
pub(crate) fn corners_of(units: &[Place], letters: &[u8]) -> Corners
    requires word { IsWord letters.now }
    requires few { length letters.now ≤ 24 }
    requires units { AreSmall units.now }
    ensures room { (length result.uppers ≡ 24) × (length result.lowers ≡ 24) }
    ensures uppers { (k : ℕ) (z : Place) → k < length letters.now
        → slice_index_or result.uppers k z ≡ place_of units.now (upper_corner letters.now (k + 1)) }
    ensures lowers { (k : ℕ) (z : Place) → k < length letters.now
        → slice_index_or result.lowers k z ≡ place_of units.now (lower_corner letters.now (k + 1)) }
    ensures shift { result.shift ≡ place_of units.now (centre_of letters.now (length letters.now)) }
{
    let origin = Place { x: 0, y: 0 };
    let mut uppers = [origin; MAX_COUNT];
    let mut lowers = [origin; MAX_COUNT];
    let mut seen = Seen::first();
    for k in 0..letters.len() {
        let (start, end) = seen.ends(units, letters, k);
        uppers[k] = either(seen.minus, start, end);
        lowers[k] = either(seen.minus, end, start);
        seen = seen.across(units, letters, k, start);
    }
    Corners {
        uppers,
        lowers,
        shift: seen.centre,
    }
}
