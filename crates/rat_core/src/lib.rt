//! Fractions: what they are (in `specs/`), their laws (in `proofs/`), fractions of bounded numbers for programs, and the
//! reading of a decimal number. No call takes memory.
//!
//! Its contract: `compare` is the order of fractions by cross products, and `read_decimal` answers the number of exactly
//! the canonical decimal texts within the bound.
#![tactic(auto)]

mod decimal;
mod frac;

pub use decimal::read_decimal;
pub use frac::Frac;
