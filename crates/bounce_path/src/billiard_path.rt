//! Billiard paths.
ghost use Rattle.std.specs.Prelude.{◌≡◌};
ghost use Rattle.std.specs.List.{All};
ghost use Rattle.bounce_path.specs.Bounces.{IsOnEdge};
ghost use Rattle.bounce_path.specs.Path.{BouncePath};

use crate::bounce::Bounce;
use std::marker::Model;

/// The billiard path of a word in a triangle, of all those with the word the one in the middle.
#[derive(Debug, Drop)]
pub struct Path {
    level: i128,
    bounces: Vec<Bounce>,
}

impl Model for Path {
    ghost use Rattle.std.specs.List.{All};
    ghost use Rattle.bounce_path.specs.Bounces.{IsOnEdge};
    ghost use Rattle.bounce_path.specs.Path.{BouncePath};

    ghost Value = { BouncePath };

    ghost view = { λ p. record { level = p.level; bounces = p.bounces.items } };

    ghost invariant = { λ p. All IsOnEdge p.bounces.items };
}

impl Path {
    /// The path at a level, with these bounces.
    pub(crate) fn new(level: i128, bounces: Vec<Bounce>) -> Path
        requires { All IsOnEdge bounces.items }
        ensures { result ≡ record { level = level; bounces = bounces.items } }
    {
        Path { level, bounces }
    }

    /// The height at which the path runs in the unfolding of its word, in units of 2^-60. Heights are counted from the
    /// first lower corner, along the normal of the shift and times the shift's length.
    pub fn level(&self) -> i128
        ensures { result ≡ self.now.level }
    {
        self.level
    }

    /// The points at which the path meets the edges, in the order of the word's letters.
    pub fn bounces(&self) -> &[Bounce]
        ensures bounces { result.now ≡ self.now.bounces }
        ensures on_edges { All IsOnEdge result.now }
    {
        self.bounces.as_slice()
    }
}
