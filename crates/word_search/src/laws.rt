//! What follows from the definitions alone: each function's contract is a law. The program calls none.
ghost use Rattle.word_search.specs.Laws.{ResultsDifferBetween};

/// Two right results of a search are one list, or else some word is in one of them alone, has a corridor in the triangle, and is not clear there
/// with the slack with which no claim is refused.
pub fn results_differ_between()
    ensures { ResultsDifferBetween }
{}
