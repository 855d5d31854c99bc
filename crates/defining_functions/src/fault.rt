ghost use Rattle.std.specs.Prelude.{◌≡◌};
ghost use Rattle.defining_functions.specs.declared.fault.FunctionsFault.TheVariants.{Memory};

use std::alloc::AllocError as OutOfMemory;
use thiserror::Error;

/// Why an unfolding gives no functions.
#[derive(Clone, Copy, Debug, PartialEq, Eq, Error)]
pub enum FunctionsFault {
    /// The last triangle is not a translate of the first.
    #[error("the last triangle is not a translate of the first")]
    NotTranslate,
    /// There was no memory.
    #[error("out of memory")]
    Memory,
}

impl From<OutOfMemory> for FunctionsFault {
    ghost from_gives = { λ _ e. e ≡ Memory };

    fn from(_e: OutOfMemory) -> FunctionsFault {
        FunctionsFault::Memory
    }
}
