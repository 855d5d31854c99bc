//! Tests of whether a stable word has a corridor in a triangle, in every triangle of a box, or in none of a box, by sums
//! of sines that are known within bounds.
//!
//! The one contract: a test is true only where the word is clear, or shut, with the narrower slack of the scale, and true
//! wherever it is with the wider one.
#![tactic(auto)]

mod bounds;
mod decision;
mod differences;
mod directions;
mod end_numbers;
mod extremes;
mod falls;
mod fault;
mod filled;
mod height_numbers;
mod height_sums;
pub mod laws;
mod most;
mod needs;
mod neighbourhood;
mod placed_term;
mod places;
mod prepared;
mod sine_low;
mod table;
mod threshold;

pub use fault::PrepareFault;
pub use prepared::Prepared;
pub use sine_low::SineLow;
pub use threshold::{Measure, Threshold};
