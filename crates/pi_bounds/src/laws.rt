//! A law of the scales, a function whose contract is the law. The program calls none of them.

ghost use Rattle.std.specs.Prelude.{◌≡◌};

use crate::scales::{Coarse, Fine};
use directed_fixed::Scale;

/// `Fine` has 60 bits, and the slacks `2^-60` and `2^-40`. `Coarse` has 40 bits, and the slacks `2^-40` and `2^-28`.
pub fn scales_have_their_slacks()
    ensures fine { (⟦<Fine as Scale>⟧.BITS ≡ 60) × (⟦<Fine as Scale>⟧.LOW_BITS ≡ 60) × (⟦<Fine as Scale>⟧.HIGH_BITS ≡ 40) }
    ensures coarse { (⟦<Coarse as Scale>⟧.BITS ≡ 40) × (⟦<Coarse as Scale>⟧.LOW_BITS ≡ 40) × (⟦<Coarse as Scale>⟧.HIGH_BITS ≡ 28) }
{}
