//! What the nodes of a tree claim of their boxes, judged by tests at a scale.
//!
//! The one contract: a node that is passed may stand at its box with the narrower slacks, and one that is refused may not with
//! the wider ones. Those for the centre are the scale's, and those for the corners the one that is asked for and sixteen times it.
#![tactic(auto)]

mod claims;
mod shown;
mod testing;
mod word_tests;

pub use claims::{may_stand, pass_node, reason_of};
pub use shown::{first_shown, is_corner_shown, is_shown, is_shut};
pub use testing::{prepare, prepare_words};
pub use word_tests::WordTests;

#[cfg(test)]
mod box_tests;
#[cfg(test)]
mod sine_tests;
