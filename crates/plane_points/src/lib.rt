//! Formal points as places in the plane, at one triangle: whole numbers for their coordinates, with a stated error.
//!
//! The one contract: the numbers of a [`Spot`] are within 2^-52 of the point's coordinates, for each unit of its weight; and
//! of any numbers that near to two points the cross product is the value of the sine form by which tests go, within 2^-44
//! for each unit of both weights.
#![tactic(auto)]

pub mod laws;
mod plane;
mod spot;

pub use plane::Plane;
pub use spot::Spot;
