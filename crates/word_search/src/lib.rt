//! The search for words that have a corridor in one triangle.
//!
//! The one contract: `search` lists canonical stable words with a corridor in the triangle, and leaves none out that is
//! clear there with the wider slack of the fine scale.
#![tactic(auto)]

mod backwards;
mod balance;
mod candidate;
mod corners;
mod extremes;
pub mod laws;
mod least;
mod listing;
mod place;
mod plane;
mod prefix;
mod seen;
#[cfg(test)]
mod tests;
mod unit;
mod walk;

pub use listing::search;
pub use walk::words;

// The most letters of a word that is searched for.
const MAX_COUNT: usize = 24;
