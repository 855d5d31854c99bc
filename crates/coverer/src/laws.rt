//! What follows from the definitions alone: each function's contract is a law. The program calls none.
ghost use Rattle.coverer.specs.Laws.{CompleteIsSure, CompleteIsNotRefused, CoversDifferBetween};

/// A covering that is complete is a file with a sure tree within the limit.
pub fn complete_is_sure()
    ensures { CompleteIsSure }
{}

/// So a checker with the same limit refuses none of its lines.
pub fn complete_is_not_refused()
    ensures { CompleteIsNotRefused }
{}

/// Two coverings of a job have one end and one text, or else they first differ at a box on which a listed word is clear with the slack of one
/// that may be shown, and not with that of one that is never passed over; in version 3 also at whose corners it is so.
pub fn covers_differ_between()
    ensures { CoversDifferBetween }
{}
