//! What follows from the definitions alone: each function's contract is a law. The program calls none.
ghost use Rattle.orbit_tile.specs.Laws.{InsideIsOpen, OutsideIsNot, BeyondHoldsNone, PatchesCover, TilesDifferBetween, FullDiffersBetween};

/// The word has a corridor at each point of an inside patch.
pub fn inside_is_open()
    ensures { InsideIsOpen }
{}

/// The word has a corridor at no point of an outside patch.
pub fn outside_is_not()
    ensures { OutsideIsNot }
{}

/// A patch that is beyond has no triangle.
pub fn beyond_holds_none()
    ensures { BeyondHoldsNone }
{}

/// Each point of the unit square lies in a patch.
pub fn patches_cover()
    ensures { PatchesCover }
{}

/// Two tiles of a word at one depth are one, or else there is a box on which the word is clear or shut with the narrower
/// slack, and neither with the wider one.
pub fn tiles_differ_between()
    ensures { TilesDifferBetween }
{}

/// Where a tile has at most so many patches, and yet so many leave a box that is due, there is such a box.
pub fn full_differs_between()
    ensures { FullDiffersBetween }
{}
