//! The coverer: it makes the tree of a covering file for a region, listed words and a depth, and writes the file.
//!
//! The one contract: each node stands by its cause, the first that applies at its box; and each answer says of the tree that
//! was written what it is. A file that is complete has a sure tree, so that a checker accepts it.
#![tactic(auto)]

mod answer;
mod choosing;
mod covering;
pub mod laws;
mod nodes;
mod stack;
mod word_set;

pub use answer::{CoverFault, Covered};
pub use covering::cover;

#[cfg(test)]
mod tests;
