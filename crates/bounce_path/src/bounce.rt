//! Bounce points.
ghost use Rattle.std.specs.Prelude.{◌≡◌, ◌+◌, ◌^◌, ◌<◌, ◌≤◌};
ghost use Rattle.edge_words.specs.Letters.{IsLetter};
ghost use Rattle.bounce_path.specs.Bounces.{IsOnEdge, from_lower};

use crate::shares::{PARTS, Shares};

/// A point at which a path meets an edge.
///
/// Its place is a fraction of the way along edge d from corner d + 1 to corner d + 2, where the first corner comes after
/// the third. It lies from `low` to `high`, in units of 2^-40.
#[derive(Clone, Copy, Debug, PartialEq, Eq)]
pub struct Bounce {
    pub edge: u8,
    pub low: u64,
    pub high: u64,
}

impl Bounce {
    /// The bounce on the edge of this place in the word, counted from 0, by its shares of the way from the lower corner to
    /// the upper one. Before edges of odd place the triangle runs clockwise, and the lower corner is d + 2.
    pub(crate) fn at(place: usize, edge: u8, shares: Shares) -> Bounce
        requires edge { IsLetter edge }
        requires above { 0 < shares.least }
        requires in_order { shares.least ≤ shares.greatest }
        requires below { shares.greatest < 2 ^ 40 }
        requires narrow { shares.greatest ≤ shares.least + 2 ^ 24 }
        ensures edge { result.edge ≡ edge }
        ensures on_edge { IsOnEdge result }
        ensures shares { from_lower (place + 1) result ≡ shares }
    {
        if place % 2 == 0 {
            Bounce {
                edge,
                low: shares.least,
                high: shares.greatest,
            }
        } else {
            Bounce {
                edge,
                low: PARTS - shares.greatest,
                high: PARTS - shares.least,
            }
        }
    }
}
