//! Sizes that no function of a word exceeds, and sizes that none falls short of.
ghost use Rattle.std.specs.Prelude.{ℕ};
ghost use Rattle.edge_words.specs.Letters.{IsPlace};
ghost use Rattle.exp_sums.specs.FormalPoint.{FormalPoint};
ghost use Rattle.unfolding.specs.Shift.{IsShift};
ghost use Rattle.defining_functions.specs.Functions.{defining_function};
ghost use Rattle.defining_functions.specs.Sizes.{sizes_of, AreAtMost, AreSmall};

use defining_functions::Functions;
use exp_sums::Sizes;

/// What the functions of each word are at most.
const LARGEST: Sizes = Sizes {
    weight: 16384,
    reach: 4_259_840,
    bend: 553_779_200,
};

/// What they are at least.
const NONE: Sizes = Sizes {
    weight: 0,
    reach: 0,
    bend: 0,
};

/// Sizes that are at least those of each function: the greatest ones, where the sizes are kept.
pub fn most_of(functions: &Functions) -> Sizes
    ensures small { AreSmall result }
    ensures most { (v : FormalPoint) (k l : ℕ) → IsShift functions.now v → IsPlace functions.now k → IsPlace functions.now l
        → AreAtMost (sizes_of (defining_function v functions.now k l)) result }
{
    match functions.greatest_sizes() {
        Some(greatest) => greatest,
        None => LARGEST,
    }
}

/// Sizes that are at least those of each function of the k-th upper corner: the greatest ones, where the sizes are kept.
pub fn most_in_row(functions: &Functions, k: u32) -> Sizes
    requires { IsPlace functions.now k }
    ensures small { AreSmall result }
    ensures most { (v : FormalPoint) (l : ℕ) → IsShift functions.now v → IsPlace functions.now l
        → AreAtMost (sizes_of (defining_function v functions.now k l)) result }
{
    match functions.greatest_in_row(k) {
        Some(greatest) => greatest,
        None => LARGEST,
    }
}

/// Sizes that are at most those of each function of the k-th upper corner: the least ones, where the sizes are kept.
pub fn least_in_row(functions: &Functions, k: u32) -> Sizes
    requires { IsPlace functions.now k }
    ensures small { AreSmall result }
    ensures least { (v : FormalPoint) (l : ℕ) → IsShift functions.now v → IsPlace functions.now l
        → AreAtMost result (sizes_of (defining_function v functions.now k l)) }
{
    match functions.least_in_row(k) {
        Some(least) => least,
        None => NONE,
    }
}
