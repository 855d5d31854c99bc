use covering_file::Reason;
use thiserror::Error;

/// What is said of a covering file.
#[derive(Clone, Copy, Debug, PartialEq, Eq)]
pub enum Verdict {
    /// It is whole, and each of its nodes may stand. It has so many nodes, and lists so many words.
    Accepted { nodes: u32, words: u32 },
    /// The first line that offends, counted from 1, and its least reason.
    Refused { line: u32, reason: Reason },
}

/// Why there is no verdict.
#[derive(Clone, Copy, Debug, PartialEq, Eq, Error)]
pub enum CheckFault {
    /// The source failed.
    #[error("the source failed")]
    Read,
    /// There was no memory.
    #[error("out of memory")]
    Memory,
}
