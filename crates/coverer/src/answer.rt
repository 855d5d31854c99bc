use thiserror::Error;

/// What was written of a covering.
#[derive(Clone, Copy, Debug, PartialEq, Eq)]
pub enum Covered {
    /// The whole tree, of so many nodes, and none is uncovered.
    Complete { nodes: u32 },
    /// The whole tree, of so many nodes, `left` of which are uncovered.
    OpenBoxes { nodes: u32, left: u32 },
    /// The first nodes, as many as were allowed, and a box is still due.
    Full { nodes: u32 },
}

/// Why a covering was not written.
#[derive(Clone, Copy, Debug, PartialEq, Eq, Error)]
pub enum CoverFault {
    /// The sink failed.
    #[error("the sink failed")]
    Write,
    /// There was no memory.
    #[error("out of memory")]
    Memory,
}
