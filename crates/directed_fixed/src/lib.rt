//! Fixed-point arithmetic over whole numbers that errs on a known side.
//!
//! The one contract: an interval that is computed from intervals contains what is computed in the same way from the
//! fractions that these contain.
#![tactic(auto)]

mod direction;
mod interval;
mod scale;

pub use direction::{Direction, Down, Up};
pub use interval::Interval;
pub use scale::Scale;
