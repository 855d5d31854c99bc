ghost use Rattle.std.specs.Prelude.{◌≡◌};
ghost use Rattle.bounce_path.specs.declared.fault.PathFault.TheVariants.{Memory};
ghost use Rattle.bounce_path.specs.Faults.{fault_of};

use gradient_bounds::PrepareFault;
use std::alloc::AllocError as OutOfMemory;
use thiserror::Error;

/// Why a path was not made.
#[derive(Clone, Copy, Debug, PartialEq, Eq, Error)]
pub enum PathFault {
    /// The word is not stable.
    #[error("the word is not stable")]
    Unstable,
    /// There was not seen to be room for a path.
    #[error("no room for a path was seen")]
    NotShown,
    /// There was no memory.
    #[error("out of memory")]
    Memory,
}

impl From<OutOfMemory> for PathFault {
    ghost from_gives = { λ _ e. e ≡ Memory };

    fn from(_e: OutOfMemory) -> PathFault {
        PathFault::Memory
    }
}

impl From<PrepareFault> for PathFault {
    ghost from_gives = { λ fault e. e ≡ fault_of fault };

    fn from(fault: PrepareFault) -> PathFault {
        match fault {
            PrepareFault::Unstable => PathFault::Unstable,
            PrepareFault::Memory => PathFault::Memory,
        }
    }
}
