//! What "the sine of pi·t" means here: the partial sums of Machin's formula and of the sine series, over fractions alone.
//! The crate has definitions and laws, and no code that runs.
//!
//! Its contract: the laws in `laws`, each one sentence over the definitions.
#![tactic(auto)]

pub mod laws;
