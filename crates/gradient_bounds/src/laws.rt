//! What follows from the definitions alone: each function's contract is a law. The program calls none.
ghost use Rattle.gradient_bounds.specs.Laws.{ClearAtPointGivesCorridor, ClearGivesCorridor, ShutGivesNoCorridor};
ghost use Rattle.gradient_bounds.specs.Laws.{ShutGoesDown, ShutGoesToChildren, ShutIsNotClear, ClearWithLess};

/// A word that is clear at a triangle, with some slack above 0, has a corridor there.
pub fn clear_at_point_gives_corridor()
    ensures { ClearAtPointGivesCorridor }
{}

/// A word that is clear on a box, with some slack above 0, has a corridor at every point of the box.
pub fn clear_gives_corridor()
    ensures { ClearGivesCorridor }
{}

/// A word that is shut on a box, with some slack above 0, has a corridor at no point of the box.
pub fn shut_gives_no_corridor()
    ensures { ShutGivesNoCorridor }
{}

/// A word that is shut on a box is shut on each box within it, and so on each child, with the same slack.
pub fn shut_goes_down()
    ensures within { ShutGoesDown }
    ensures children { ShutGoesToChildren }
{}

/// A word that is shut on a box with some slack above 0 is clear on it with none.
pub fn shut_is_not_clear()
    ensures { ShutIsNotClear }
{}

/// What is clear with a slack is clear with each lesser one.
pub fn clear_with_less()
    ensures { ClearWithLess }
{}
