use crate::MAX_LETTERS;
use thiserror::Error;

/// Why bytes are no word. Places are counted from 1.
#[derive(Clone, Copy, Debug, PartialEq, Eq, Error)]
pub enum WordFault {
    /// The first byte that is not one of the digits 1, 2 and 3.
    #[error("place {place}: expected 1, 2 or 3")]
    Letter { place: u32 },
    /// How many digits there are, where that number is odd, below 6 or above `MAX_LETTERS`.
    #[error("expected an even number of letters from 6 to {MAX_LETTERS}, and not {len}")]
    Length { len: u64 },
    /// The first letter that equals the next one, the last letter's next being the first.
    #[error("place {place}: the letter equals the next one")]
    Neighbours { place: u32 },
}
