//! The room between the lower corners and the upper ones.
ghost use Rattle.std.specs.Prelude.{◌≡◌, ◌<◌, ◌^◌, ◌-◌, pos, ◌+ℤ◌, ◌<ℤ◌, length, MatchOption};
ghost use Rattle.std.specs.Int.{int_min, int_max};
ghost use Rattle.bounce_path.specs.Crossings.{IsGap, IsSmallGap, IsMiddle};

use crate::crossing::Crossing;

/// The least gap in which a path is looked for. Heights are known within 2^23 units, and where a word is clear with the
/// slack 2^-20, all upper corners lie at least 2^40 units above all lower ones.
const LEAST_GAP: i128 = (1 << 40) - (1 << 24);

/// What lies above all lower corners and below all upper ones, in units of 2^-60.
#[derive(Clone, Copy, Debug)]
pub struct Gap {
    pub floor: i128,
    pub ceiling: i128,
}

impl Gap {
    /// The gap of one crossing.
    fn of_one(crossing: &Crossing) -> Gap
        ensures { result ≡ record { floor = crossing.now.lower.hi; ceiling = crossing.now.upper.lo } }
    {
        Gap {
            floor: crossing.lower.hi(),
            ceiling: crossing.upper.lo(),
        }
    }

    /// What is left of it with one more crossing.
    fn with(self, crossing: &Crossing) -> Gap
        ensures { result ≡ record { floor = int_max self.floor crossing.now.lower.hi; ceiling = int_min self.ceiling crossing.now.upper.lo } }
    {
        Gap {
            floor: self.floor.max(crossing.lower.hi()),
            ceiling: self.ceiling.min(crossing.upper.lo()),
        }
    }

    /// The number in the middle, unless the gap is too small.
    pub fn middle(self) -> Option<i128>
        requires { IsSmallGap self }
        ensures { MatchOption result (self.ceiling <ℤ (self.floor +ℤ pos (2 ^ 40 - 2 ^ 24))) (IsMiddle self) }
    {
        let room = self.ceiling - self.floor;
        if room < LEAST_GAP {
            return None;
        }
        Some(self.floor + room / 2)
    }
}

/// The gap of all crossings.
pub fn gap_of(crossings: &[Crossing]) -> Gap
    requires { 0 < length crossings.now }
    ensures { IsGap crossings.now result }
{
    let mut gap = Gap::of_one(&crossings[0]);
    for crossing in crossings {
        gap = gap.with(crossing);
    }
    gap
}
