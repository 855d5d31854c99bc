ghost use Rattle.std.specs.Prelude.{◌≡◌};
ghost use Rattle.orbit_tile.specs.declared.fault.TileFault.TheVariants.{Memory};
ghost use Rattle.orbit_tile.specs.Faults.{fault_of};

use gradient_bounds::PrepareFault;
use std::alloc::AllocFailed;
use thiserror::Error;

/// Why a tile was not made.
#[derive(Clone, Copy, Debug, PartialEq, Eq, Error)]
pub enum TileFault {
    /// The word is not stable.
    #[error("the word is not stable")]
    Unstable,
    /// As many patches as are allowed were made, and a box is still due.
    #[error("too many patches")]
    Full,
    /// There was no memory.
    #[error("out of memory")]
    Memory,
}

impl<T: Drop> From<AllocFailed<T>> for TileFault {
    ghost from_gives = { λ _ e. e ≡ Memory };

    fn from(_e: AllocFailed<T>) -> TileFault {
        TileFault::Memory
    }
}

impl From<PrepareFault> for TileFault {
    ghost from_gives = { λ fault e. e ≡ fault_of fault };

    fn from(fault: PrepareFault) -> TileFault {
        match fault {
            PrepareFault::Unstable => TileFault::Unstable,
            PrepareFault::Memory => TileFault::Memory,
        }
    }
}
