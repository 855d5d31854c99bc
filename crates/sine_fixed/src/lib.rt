//! Sines of fractions of a turn, enclosed at a scale.
//!
//! The one contract: `sine(turn(num, den))` contains the approximations of the sine of pi·num/den from some one on, and
//! is at most 256 units wide.
#![tactic(auto)]

mod angles;
mod directions;
mod grid_angles;
mod reduced;
mod series;
mod sine_cosine;
mod sine_table;

pub use angles::{Angles, over_one_denominator, turn_numerator};
pub use directions::{direction_cosine, direction_sine};
pub use grid_angles::GridAngles;
pub use reduced::{Reduced, turn};
pub use series::sine;
pub use sine_table::SineTable;
