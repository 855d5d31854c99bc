//! Pi at two scales, and by Machin's formula.
//!
//! The one contract: the partial sums of Machin's formula come to lie between the constants of each scale, and
//! `machin(n)` contains the n-th one. The bits and the slacks of both scales are the law in [`laws`].
#![tactic(auto)]

pub mod laws;
mod scales;
mod series;

pub use scales::{Coarse, Fine};
pub use series::machin;
