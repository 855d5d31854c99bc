//! Laws on defining functions and heights. Each is a function whose contract is one sentence over the definitions alone; no
//! program calls one.
ghost use Rattle.defining_functions.specs.Laws.{FunctionsAreDifferences, NumbersAddUp, WalkAddsUp};

/// A defining function is the difference of the heights of its two corners.
pub fn functions_are_differences()
    ensures { FunctionsAreDifferences }
{}

/// The numbers of points are linear: that of a sum of directions is the sum of the numbers of its directions.
pub fn numbers_add_up()
    ensures { NumbersAddUp }
{}

/// The numbers of the centres and the corners along a word add up step by step.
pub fn walk_adds_up()
    ensures { WalkAddsUp }
{}
