//! The centre at the end of a walk along letters that need not be a word.
ghost use Rattle.std.specs.Prelude.{◌≡◌, ◌*◌, ◌≤◌, length, All, IfOk};
ghost use Rattle.edge_words.specs.Letters.{IsLetter};
ghost use Rattle.exp_sums.specs.Limits.{weight};
ghost use Rattle.unfolding.specs.Triangle.{centre_of};

use crate::triangle::Triangle;
use exp_sums::ExpSum;
use std::alloc::{AllocError as OutOfMemory, Global};

/// The centre of the circle round the triangle after all of the letters. These may be any, in any number up to 32.
pub fn centre_after(alloc: Global, letters: &[u8]) -> Result<ExpSum, OutOfMemory>
    requires letters { All IsLetter letters.now }
    requires few { length letters.now ≤ 32 }
    ensures centre { IfOk result (λ p. p ≡ centre_of letters.now (length letters.now)) }
    ensures light { IfOk result (λ p. weight p ≤ 2 * length letters.now) }
{
    let mut triangle = Triangle::first(alloc)?;
    for edge in letters {
        triangle = triangle.across(alloc, *edge)?;
    }
    Ok(triangle.centre)
}
