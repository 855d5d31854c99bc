//! Crossed edges, as chords of the circles round the triangles.
ghost use Rattle.edge_words.specs.Letters.{IsPlace};
ghost use Rattle.defining_functions.specs.Chords.{IsChord};

use exp_sums::Dir;
use unfolding::{Unfolding, next_corner};

/// The way from the lower end of an edge to the upper one: a direction less another.
#[derive(Clone, Copy, Debug)]
pub struct Chord {
    pub plus: Dir,
    pub minus: Dir,
}

/// The k-th edge, as it is seen from the centre of the triangle before it. Triangles of even number have the corner after
/// the edge's on the right; those of odd number have it on the left, and see their corners opposite to the directions.
pub fn chord_of(u: &Unfolding, k: u32) -> Chord
    requires { IsPlace u.now k }
    ensures { IsChord u.now k result }
{
    let after = next_corner(u.word().letters()[k as usize - 1]);
    let before = next_corner(after);
    Chord {
        plus: u.seen(k - 1, before).dir,
        minus: u.seen(k - 1, after).dir,
    }
}
