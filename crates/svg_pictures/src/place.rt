//! Where the corners of a region stand in the picture of a covering.
ghost use Rattle.std.specs.Prelude.{◌≡◌, ◌^◌, ◌<◌, ◌≤◌};
ghost use Rattle.rational_polygon.specs.Outline.{IsGrid, IsInside};
ghost use Rattle.svg_pictures.specs.Places.{units_of, place_of};

/// The width and the height of the unit square in the picture of a covering.
pub const UNITS: u32 = 1 << 20;

/// How far to the right and how far down a corner stands. One unit is 2^-20 of the square of angles.
#[derive(Clone, Copy, Debug, PartialEq, Eq)]
pub struct Place {
    pub across: u32,
    pub down: u32,
}

/// The place of a corner on a grid.
pub fn place_of(grid: u32, corner: (u32, u32)) -> Place
    requires grid { IsGrid grid }
    requires inside { IsInside grid corner }
    ensures { result ≡ place_of grid corner }
{
    Place {
        across: units(grid, corner.0),
        down: UNITS - units(grid, corner.1),
    }
}

// A number of grid steps in units, rounded down.
fn units(grid: u32, steps: u32) -> u32
    requires grid { IsGrid grid }
    requires within { steps ≤ grid }
    ensures units { result ≡ units_of grid steps }
    ensures within { result ≤ 2 ^ 20 }
{
    (u64::from(steps) * u64::from(UNITS) / u64::from(grid)) as u32
}
