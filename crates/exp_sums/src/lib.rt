//! Finite sums of directions with whole coefficients, which stand for points of an unfolded triangle.
//!
//! The direction (m, n) is the complex number `e^(iπ(mx + ny))`, where πx and πy are the angles of the triangle at its
//! corners 1 and 2. The contract of the crate: an [`ExpSum`] is seen as a finite map from directions to whole numbers
//! other than 0 (`FormalPoint`, an element of the group ring of ℤ×ℤ), and each call answers exactly the map that its
//! name says. The module [`laws`] says by coefficients what sums, products, conjugates and sine forms of
//! such maps are.
#![tactic(auto)]

mod conjugates;
mod differences;
mod direction;
mod exp_sum;
pub mod laws;
mod products;
mod sizes;
mod terms;
#[cfg(test)]
mod tests;

pub use direction::Dir;
pub use exp_sum::ExpSum;
pub use sizes::Sizes;
pub use terms::Term;
