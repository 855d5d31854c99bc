//! The checker of covering files.
//!
//! The one contract: a verdict is right. An accepted file is whole, and every triangle of its region has a corridor of a
//! listed word; a refused one has the named reason at the named line, and the lines before it are in order.
#![tactic(auto)]

mod checking;
mod judging;
mod nodes;
mod tree;
mod verdict;

pub use checking::check;
pub use judging::judge;
pub use verdict::{CheckFault, Verdict};

#[cfg(test)]
mod tests;
