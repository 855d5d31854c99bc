//! Laws on mirrors, unfoldings and shifts. Each is a function whose contract is one sentence over the definitions alone;
//! no program calls one.
ghost use Rattle.unfolding.specs.Corners.{MirrorsKeepTheirEdges, MirrorsUndoThemselves, MirrorLaw, CentreLaw};
ghost use Rattle.unfolding.specs.Shift.{ShiftsAreUnique, StableWordsHaveShifts};

/// A mirror keeps the two ends of its edge.
pub fn mirrors_keep_their_edges()
    ensures { MirrorsKeepTheirEdges }
{}

/// A mirror takes its images back.
pub fn mirrors_undo_themselves()
    ensures { MirrorsUndoThemselves }
{}

/// Each triangle of a word is the mirror image of the one before it, in the edge that is crossed.
pub fn each_mirrors_the_one_before()
    ensures { MirrorLaw }
{}

/// The centres of the circles round a triangle and its mirror image add up to the two ends of the crossed edge.
pub fn centres_are_mirrored()
    ensures { CentreLaw }
{}

/// A word has at most one shift.
pub fn shifts_are_unique()
    ensures { ShiftsAreUnique }
{}

/// A word has a shift exactly where it is stable by counts.
pub fn stable_words_have_shifts()
    ensures { StableWordsHaveShifts }
{}
