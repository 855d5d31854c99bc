//! Words: the edges that a periodic billiard path in a triangle crosses in one period, as letters
//! 1, 2 and 3.
//!
//! The one contract: `Word::read` answers a word exactly for its digits, and `is_stable` is true
//! exactly where each letter stands equally often at odd and at even places.
#![tactic(auto)]

mod fault;
pub mod laws;
mod order;
mod reading;
mod stability;
#[cfg(test)]
mod tests;
mod word;

pub use fault::WordFault;
pub use reading::{first_other, first_repeat};
pub use stability::is_stable;
pub use word::Word;

/// The most letters of a word.
pub const MAX_LETTERS: usize = 64;
