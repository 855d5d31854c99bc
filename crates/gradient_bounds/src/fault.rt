ghost use Rattle.std.specs.Prelude.{◌≡◌};
ghost use Rattle.gradient_bounds.specs.declared.fault.PrepareFault.TheVariants.{Unstable, Memory};
ghost use Rattle.gradient_bounds.specs.Faults.{fault_of};

use defining_functions::FunctionsFault;
use std::alloc::AllocError as OutOfMemory;
use thiserror::Error;

/// Why a word can't be prepared.
#[derive(Clone, Copy, Debug, PartialEq, Eq, Error)]
pub enum PrepareFault {
    /// The word is not stable.
    #[error("the word is not stable")]
    Unstable,
    /// There was no memory.
    #[error("out of memory")]
    Memory,
}

impl From<OutOfMemory> for PrepareFault {
    ghost from_gives = { λ _ e. e ≡ Memory };

    fn from(_e: OutOfMemory) -> PrepareFault {
        PrepareFault::Memory
    }
}

impl From<FunctionsFault> for PrepareFault {
    ghost from_gives = { λ fault e. e ≡ fault_of fault };

    fn from(fault: FunctionsFault) -> PrepareFault {
        match fault {
            FunctionsFault::NotTranslate => PrepareFault::Unstable,
            FunctionsFault::Memory => PrepareFault::Memory,
        }
    }
}
