ghost use Rattle.std.specs.Prelude.{◌≡◌};
ghost use Rattle.covering_file.specs.Faults.{head_of};
ghost use Rattle.covering_file.specs.declared.fault.HeadFault.TheVariants.{Memory};

use line_grammar::{LineFault, Reason};
use std::alloc::AllocError as OutOfMemory;
use thiserror::Error;

/// Why a version, a region, words and a depth make no header. Words are counted from 1.
#[derive(Clone, Copy, Debug, PartialEq, Eq, Error)]
pub enum HeaderFault {
    /// There is no such version, or it has one polygon and the region another number of them.
    #[error("no such version has such a region")]
    Version,
    /// There is no word, or there are more than 32.
    #[error("there are not 1 to 32 words")]
    Words,
    /// The first word that is not stable.
    #[error("word {i} is not stable")]
    Unstable { i: u32 },
    /// The depth is more than 20.
    #[error("the depth is more than 20")]
    Depth,
}

/// Why a header or a job could not be read.
#[derive(Clone, Copy, Debug, PartialEq, Eq, Error)]
pub enum HeadFault {
    /// The first line that offends, counted from 1, and its least reason.
    #[error("line {line} is refused")]
    Line { line: u32, reason: Reason },
    /// The source failed.
    #[error("the source failed")]
    Read,
    /// There was no memory.
    #[error("out of memory")]
    Memory,
}

impl From<LineFault> for HeadFault {
    ghost from_gives = { λ fault e. e ≡ head_of fault };

    fn from(fault: LineFault) -> HeadFault {
        match fault {
            LineFault::Line { line, reason } => HeadFault::Line { line, reason },
            LineFault::Read => HeadFault::Read,
        }
    }
}

impl From<OutOfMemory> for HeadFault {
    ghost from_gives = { λ _ e. e ≡ Memory };

    fn from(_e: OutOfMemory) -> HeadFault {
        HeadFault::Memory
    }
}
