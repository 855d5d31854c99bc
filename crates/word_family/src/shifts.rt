use exp_sums::ExpSum;

/// What tells the shifts of all members of a family: that of a bⁿ c is base + n·step.
#[derive(Drop)]
pub struct Shifts {
    /// The shift of a c.
    pub base: ExpSum,
    /// By how much each b more moves the last triangle.
    pub step: ExpSum,
}
