//! The defining functions of a stable word, which tell whether a triangle has a periodic billiard path with the word:
//! one for each upper and each lower corner of the word's unfolding, positive where the upper one lies to the left of
//! the lower one along the shift.
//!
//! The one contract of the crate: a [`Functions`] is seen as its word, and its calls answer each function, its weight,
//! its reach and its bend as they are defined by the word's unfolding, and the heights of the corners, whose differences
//! the functions are, within the stated limits. The module [`laws`] says how they hang together.
#![tactic(auto)]

mod chord;
mod fault;
mod first_edges;
mod form;
mod functions;
mod height_steps;
pub mod laws;
mod shared_end;
mod side;
mod sides;
mod size_row;
mod size_table;
mod step;
#[cfg(test)]
mod tests;

pub use fault::FunctionsFault;
pub use functions::Functions;
pub use height_steps::HeightSteps;
pub use shared_end::SharedEnd;
pub use step::Step;
