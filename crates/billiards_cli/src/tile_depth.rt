ghost use Rattle.std.specs.Prelude.{◌≡◌, ◌≤◌};
ghost use Rattle.orbit_tile.specs.declared.TheConstants.{MAX_DEPTH};
ghost use Rattle.billiards_cli.specs.TileDepths.{tile_depth};

use crate::number::number;
use orbit_tile::MAX_DEPTH;
use std::marker::Model;

/// The greatest level of the patches of a tile.
#[derive(Clone, Copy)]
pub(crate) struct TileDepth {
    level: u32,
}

impl Model for TileDepth {
    ghost use Rattle.std.specs.Prelude.{ℕ, ◌≤◌};
    ghost use Rattle.orbit_tile.specs.declared.TheConstants.{MAX_DEPTH};

    ghost Value = { ℕ };

    ghost view = { λ depth. depth.level };

    ghost invariant = { λ depth. depth.level ≤ MAX_DEPTH };

    ghost inverse = { λ n. record { level = n } };
}

impl TileDepth {
    /// The depth that a text writes.
    pub(crate) fn read(text: &[u8]) -> Option<TileDepth>
        ensures { result ≡ tile_depth text.now }
    {
        let level = number(text, MAX_DEPTH)?;
        Some(TileDepth { level })
    }

    pub(crate) fn get(&self) -> u32
        ensures value { result ≡ self.now }
        ensures at_most { self.now ≤ MAX_DEPTH }
    {
        self.level
    }
}
