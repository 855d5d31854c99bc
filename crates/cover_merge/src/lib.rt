//! Two coverings of one region, made into one.
//!
//! The one contract: `merge` answers a fold of the overlay of the two trees, in which a box is covered where either file covers
//! it, and four leaves that are shown are one where a listed word is shown on the whole box; and of what is no such two files
//! the first offending line is named.
#![tactic(auto)]

mod claims;
mod fault;
mod files;
mod folding;
pub mod laws;
mod lines;
mod merging;
mod overlaying;
mod regions;
mod renumbering;
mod subtree;
mod words;

pub use fault::MergeFault;
pub use folding::fold;
pub use merging::merge;
pub use overlaying::overlay;

#[cfg(test)]
mod tests;
