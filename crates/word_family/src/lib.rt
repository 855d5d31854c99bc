//! Families of words: all lists a bⁿ c, in which a part b is written as often as one likes between two others.
//!
//! The one contract: a family is stable exactly where the list a bⁿ c is for every n ≥ 1, and `shifts` then answers two sums
//! base and step such that each of these lists has the shift base + n·step, as exact sums and without a bound on the length.
#![tactic(auto)]

mod family;
mod fault;
pub mod laws;
mod letters;
mod part;
mod shifts;
#[cfg(test)]
mod tests;

pub use family::Family;
pub use fault::{FamilyFault, ShiftsFault};
pub use shifts::Shifts;

/// The most letters of a part.
pub const MAX_PART: usize = 16;
