//! Tests of whether a stable word has a corridor at every point of a box, by its functions at the four corners of the box
//! and a bound of second order.
//!
//! The one contract: a test is true only where the word is clear at the corners of the box with the slack that is asked
//! for, and true wherever it is with one sixteen times as wide. The module [`laws`] says what it means for the box.
#![tactic(auto)]

mod corners;
pub mod laws;
mod sag;
#[cfg(test)]
mod tests;

pub use corners::test_corners;
