ghost use Rattle.std.specs.Prelude.{◌≡◌};
ghost use Rattle.line_grammar.specs.declared.fault.LineFault.TheVariants.{Read};

use crate::Reason;
use mcb_ends::Failed;
use thiserror::Error;

/// Why a due line could not be taken.
#[derive(Clone, Copy, Debug, PartialEq, Eq, Error)]
pub enum LineFault {
    /// The first line that offends, by the number that the reader gives it, and its least reason.
    #[error("line {line} is refused")]
    Line { line: u32, reason: Reason },
    /// The source failed.
    #[error("the source failed")]
    Read,
}

impl From<Failed> for LineFault {
    ghost from_gives = { λ _ e. e ≡ Read };

    fn from(_e: Failed) -> LineFault {
        LineFault::Read
    }
}
