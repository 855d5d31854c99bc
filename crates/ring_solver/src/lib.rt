//! Commutative rings, for specifications and proofs: the record of a ring, the whole numbers as a ring, the image of
//! the whole numbers in a ring, and a solver that proves an equation between two ring expressions by computing their
//! polynomials. The crate has no code: what stands on it cites `specs/` in contracts and `proofs/` in proofs.
//!
//! Its contract: two expressions with the same polynomial have the same value in every commutative ring.
#![tactic(auto)]
