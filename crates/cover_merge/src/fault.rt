ghost use Rattle.std.specs.Prelude.{◌≡◌};
ghost use Rattle.cover_merge.specs.Merge.{fault_of};
ghost use Rattle.cover_merge.specs.declared.fault.MergeFault.TheVariants.{Memory};

use covering_file::{HeadFault, Reason};
use std::alloc::AllocError as OutOfMemory;
use thiserror::Error;

/// Why two covering files were not merged. Lines are counted from 1 through both files.
#[derive(Clone, Copy, Debug, PartialEq, Eq, Error)]
pub enum MergeFault {
    /// The first line that offends, and its least reason.
    #[error("line {line} is refused")]
    Line { line: u32, reason: Reason },
    /// A line of the second file's region is not that of the first file.
    #[error("line {line} is another than in the first file")]
    Differs { line: u32 },
    /// A word of the second file with which the two have more than 32 words.
    #[error("line {line} has one word too many")]
    Words { line: u32 },
    /// The merge has so many nodes, which is more than the limit.
    #[error("the merge has {nodes} nodes")]
    Full { nodes: u32 },
    /// The source failed.
    #[error("the source failed")]
    Read,
    /// There was no memory.
    #[error("out of memory")]
    Memory,
}

impl From<HeadFault> for MergeFault {
    ghost from_gives = { λ fault e. e ≡ fault_of fault };

    fn from(fault: HeadFault) -> MergeFault {
        match fault {
            HeadFault::Line { line, reason } => MergeFault::Line { line, reason },
            HeadFault::Read => MergeFault::Read,
            HeadFault::Memory => MergeFault::Memory,
        }
    }
}

impl From<OutOfMemory> for MergeFault {
    ghost from_gives = { λ _ e. e ≡ Memory };

    fn from(_e: OutOfMemory) -> MergeFault {
        MergeFault::Memory
    }
}
