//! How far along an edge a level meets it.
ghost use Rattle.std.specs.Prelude.{◌^◌, ◌<◌, ◌≤◌, ◌-ℤ◌, unsigned_abs};
ghost use Rattle.bounce_path.specs.Crossings.{IsNearCrossing, IsWellInside, IsRoundedDown, IsRoundedUp, AreShares};

use crate::crossing::Crossing;

/// The parts of an edge.
pub const PARTS: u64 = 1 << 40;

/// The least and the greatest share that the way up from the lower corner of an edge to a level may have of the way to the
/// upper corner, in parts of 2^-40.
#[derive(Clone, Copy, Debug, PartialEq, Eq)]
pub struct Shares {
    pub least: u64,
    pub greatest: u64,
}

impl Shares {
    /// The shares of a level at a crossing: the least where both corners are as high as they may be, the greatest where
    /// both are as low.
    pub fn of(crossing: &Crossing, level: i128) -> Shares
        requires near { IsNearCrossing crossing.now }
        requires inside { IsWellInside crossing.now level }
        ensures { AreShares crossing.now level result }
    {
        Shares {
            least: least_share(crossing, level),
            greatest: greatest_share(crossing, level),
        }
    }
}

/// The share where both corners are as high as they may be, rounded down.
fn least_share(crossing: &Crossing, level: i128) -> u64
    requires near { IsNearCrossing crossing.now }
    requires inside { IsWellInside crossing.now level }
    ensures { IsRoundedDown (unsigned_abs (level -ℤ crossing.now.lower.hi)) (unsigned_abs (crossing.now.upper.hi -ℤ crossing.now.lower.hi)) result }
{
    let lower = crossing.lower.hi();
    let upper = crossing.upper.hi();
    least_parts((level - lower) as u128, (upper - lower) as u128)
}

/// The share where both corners are as low as they may be, rounded up.
fn greatest_share(crossing: &Crossing, level: i128) -> u64
    requires near { IsNearCrossing crossing.now }
    requires inside { IsWellInside crossing.now level }
    ensures { IsRoundedUp (unsigned_abs (level -ℤ crossing.now.lower.lo)) (unsigned_abs (crossing.now.upper.lo -ℤ crossing.now.lower.lo)) result }
{
    let lower = crossing.lower.lo();
    let upper = crossing.upper.lo();
    greatest_parts((level - lower) as u128, (upper - lower) as u128)
}

/// The share of `rise` in `way`, rounded down.
fn least_parts(rise: u128, way: u128) -> u64
    requires some { 0 < way }
    requires part { rise ≤ way }
    requires small { way ≤ 2 ^ 78 }
    ensures { IsRoundedDown rise way result }
{
    (u128::from(PARTS) * rise / way) as u64
}

/// The share of `rise` in `way`, rounded up.
fn greatest_parts(rise: u128, way: u128) -> u64
    requires some { 0 < way }
    requires part { rise ≤ way }
    requires small { way ≤ 2 ^ 78 }
    ensures { IsRoundedUp rise way result }
{
    (u128::from(PARTS) * rise).div_ceil(way) as u64
}
