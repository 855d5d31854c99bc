//! What the value of a function has to reach.

/// The size of a function by which its drift goes, or its sag.
#[derive(Clone, Copy, Debug, PartialEq, Eq)]
pub enum Measure {
    Reach,
    Bend,
}

/// What a function has to reach, in units of a scale: `rate / parts` for each unit of its measure, rounded up, and the
/// slack for each unit of its weight and one more.
#[derive(Clone, Copy, Debug)]
pub struct Threshold {
    pub measure: Measure,
    pub rate: i128,
    pub parts: i128,
    pub slack: i128,
}
