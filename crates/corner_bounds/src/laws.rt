//! What follows from the definitions alone: each function's contract is a law. The program calls none.
ghost use Rattle.corner_bounds.specs.Laws.{CornerGivesCorridor, CornerClearWithLess, ShutIsNotCornerClear};

/// A word that is clear at the four corners of a box, with a slack of at least 2^-49, has a corridor at every point of the
/// box.
pub fn corner_gives_corridor()
    ensures { CornerGivesCorridor }
{}

/// What is clear at the corners of a box with a slack is clear there with each lesser one.
pub fn corner_clear_with_less()
    ensures { CornerClearWithLess }
{}

/// A word that is shut on a box is not clear at its corners, with a slack of at least 2^-49.
pub fn shut_is_not_corner_clear()
    ensures { ShutIsNotCornerClear }
{}
