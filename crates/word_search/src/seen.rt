//! The triangles of an unfolding, as they lie in the plane.
ghost use Rattle.std.specs.Prelude.{◌≡◌, ◌+◌, ◌<◌, ◌≤◌, List, ℕ, [], length, take, map, slice_index, All};
ghost use Rattle.edge_words.specs.Word.{IsWord};
ghost use Rattle.exp_sums.specs.Limits.{IsNear};
ghost use Rattle.unfolding.specs.Kept.{dirs_of};
ghost use Rattle.unfolding.specs.Triangle.{IsCorner, first_corner, next_corner, mirrors, corner_of};
ghost use Rattle.word_search.specs.declared.place.Place.{Place};
ghost use Rattle.word_search.specs.Places.{IsSmallPlace, AreSmall, dir_at, image_of, place_of};
ghost use Rattle.word_search.specs.Seen.{IsSeen};

use crate::place::Place;

/// The numbers of the directions of the first triangle's corners, (1, 1), (-1, -1) and (1, -1).
const FIRST_DIRS: [usize; 3] = [351, 324, 350];

/// A triangle. Corner c stands at index c − 1.
#[derive(Clone, Copy, Debug)]
pub(crate) struct Seen {
    /// The centre of the circle round it.
    pub centre: Place,
    /// Whether the corners, seen from the centre, are opposite to their directions.
    pub minus: bool,
    /// The numbers of these directions.
    pub dirs: [usize; 3],
}

/// The corner after `corner`, where 1 comes after 3.
pub(crate) fn next_corner(corner: u8) -> u8
    requires { IsCorner corner }
    ensures next { result ≡ next_corner corner }
    ensures corner { IsCorner result }
{
    if corner == 3 { 1 } else { corner + 1 }
}

/// The number of the direction in which the mirror in the edge from p to q takes r.
fn mirrored(p: usize, q: usize, r: usize) -> usize
    requires p { p < 676 }
    requires q { q < 676 }
    requires r { r < 676 }
    requires near { IsNear 25 (image_of (dir_at p) (dir_at q) (dir_at r)) }
    ensures is { dir_at result ≡ image_of (dir_at p) (dir_at q) (dir_at r) }
    ensures known { result < 676 }
{
    p + q - r
}

/// The numbers of the corners' directions after the next letter. The ends of the edge change places.
fn dirs_across(dirs: &[usize; 3], letters: &[u8], k: usize) -> [usize; 3]
    requires word { IsWord letters.now }
    requires few { length letters.now ≤ 24 }
    requires place { k < length letters.now }
    requires known { All (λ i. i < 676) dirs.now }
    requires dirs { map dir_at dirs.now ≡ dirs_of (take k letters.now) }
    ensures known { All (λ i. i < 676) result }
    ensures dirs { map dir_at result ≡ dirs_of (take (k + 1) letters.now) }
{
    let [first, second, third] = *dirs;
    match letters[k] {
        1 => [mirrored(second, third, first), third, second],
        2 => [third, mirrored(third, first, second), first],
        _ => [second, first, mirrored(first, second, third)],
    }
}

impl Seen {
    /// The first triangle of every word.
    pub(crate) fn first() -> Seen
        ensures { (units : List Place) → IsSeen units [] result }
    {
        Seen {
            centre: Place { x: 0, y: 0 },
            minus: false,
            dirs: FIRST_DIRS,
        }
    }

    /// A corner of the triangle.
    fn corner(&self, units: &[Place], corner: u8) -> Place
        requires corner { IsCorner corner }
        requires units { AreSmall units.now }
        requires known { All (λ i. i < 676) self.now.dirs }
        requires near { IsSmallPlace 48 self.now.centre }
        ensures { (v : List ℕ) → IsSeen units.now v self.now → result ≡ place_of units.now (mirrors v (first_corner corner)) }
    {
        self.centre
            .moved(self.minus, units[self.dirs[corner as usize - 1]])
    }

    /// The two ends of the edge that the path crosses after k letters: the next two corners after the one opposite to it.
    pub(crate) fn ends(&self, units: &[Place], letters: &[u8], k: usize) -> (Place, Place)
        requires word { IsWord letters.now }
        requires few { length letters.now ≤ 24 }
        requires place { k < length letters.now }
        requires units { AreSmall units.now }
        requires seen { IsSeen units.now (take k letters.now) self.now }
        ensures start { result.0 ≡ place_of units.now (corner_of letters.now k (next_corner (slice_index letters.now k))) }
        ensures end { result.1 ≡ place_of units.now (corner_of letters.now k (next_corner (next_corner (slice_index letters.now k)))) }
    {
        let start = next_corner(letters[k]);
        let end = next_corner(start);
        (self.corner(units, start), self.corner(units, end))
    }

    /// The triangle on the other side of that edge, where `start` is its first end.
    pub(crate) fn across(&self, units: &[Place], letters: &[u8], k: usize, start: Place) -> Seen
        requires word { IsWord letters.now }
        requires few { length letters.now ≤ 24 }
        requires place { k < length letters.now }
        requires units { AreSmall units.now }
        requires seen { IsSeen units.now (take k letters.now) self.now }
        requires start { start ≡ place_of units.now (corner_of letters.now k (next_corner (slice_index letters.now k))) }
        ensures { IsSeen units.now (take (k + 1) letters.now) result }
    {
        let end = next_corner(next_corner(letters[k]));
        Seen {
            centre: start.moved(self.minus, units[self.dirs[end as usize - 1]]),
            minus: !self.minus,
            dirs: dirs_across(&self.dirs, letters, k),
        }
    }
}
