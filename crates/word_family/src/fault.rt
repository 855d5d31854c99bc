use crate::MAX_PART;
use thiserror::Error;

/// Why three texts are no family.
#[derive(Clone, Copy, Debug, PartialEq, Eq, Error)]
pub enum FamilyFault {
    /// The first part, counted from 1, that has a byte other than the digits 1, 2 and 3, or too many of them, or is the
    /// second one and empty.
    #[error("part {which}: expected at most {MAX_PART} letters 1, 2 and 3, and in the second part at least one")]
    Part { which: u8 },
    /// The second part has an odd number of letters, or the first and the third together have.
    #[error("a part that is repeated has an even number of letters, and so have the two around it together")]
    Odd,
    /// A letter would equal the next one, where the second part stands twice and the last letter's next is the first.
    #[error("a letter equals the next one")]
    Neighbours,
}

/// Why a family gives no shifts.
#[derive(Clone, Copy, Debug, PartialEq, Eq, Error)]
pub enum ShiftsFault {
    /// The family is not stable.
    #[error("the family is not stable")]
    Unstable,
    /// There was no memory.
    #[error("out of memory")]
    Memory,
}
