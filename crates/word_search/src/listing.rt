//! The words that are open in one triangle.
ghost use Rattle.std.specs.Prelude.{◌≡◌, ◌+◌, ◌%◌, ◌^◌, ◌<◌, ◌≤◌, length, IfOk};
ghost use Rattle.rat_core.specs.Fraction.{whole, ◌+ℚ◌, ◌<ℚ◌};
ghost use Rattle.rat_core.specs.Written.{value};
ghost use Rattle.word_search.specs.Search.{IsSearchResult};

use crate::plane::Plane;
use crate::walk::words;
use edge_words::Word;
use rat_core::Frac;
use std::alloc::{AllocError as OutOfMemory, Global};

/// The canonical stable words of at most `bound` letters that are seen to have a corridor in the triangle (x, y), shorter
/// ones first, and those of one length in lexicographic order.
///
/// A word is left out only where it is not clear in the triangle with the wider slack of the fine scale.
pub fn search(alloc: Global, x: Frac, y: Frac, bound: u32) -> Result<Vec<Word>, OutOfMemory>
    requires first { whole 0 <ℚ value x }
    requires second { whole 0 <ℚ value y }
    requires third { value x +ℚ value y <ℚ whole 1 }
    requires x_denominator { x.den ≤ 2 ^ 20 }
    requires y_denominator { y.den ≤ 2 ^ 20 }
    requires bound { (6 ≤ bound) × (bound ≤ 24) × (bound % 2 ≡ 0) }
    ensures { IfOk result (λ found. IsSearchResult (value x) (value y) (λ w. length w ≤ bound) found.items) }
{
    let plane = Plane::at(alloc, x, y)?;
    let mut found = Vec::new(alloc);
    'half: for half in 3..bound / 2 + 1 {
        pick(alloc, &plane, half * 2, &mut found)?;
    }
    Ok(found)
}

// Goes on from the words of fewer than `count` letters to those of `count`.
fn pick(alloc: Global, plane: &Plane, count: u32, found: &mut Vec<Word>) -> Result<(), OutOfMemory>
    requires count { (6 ≤ count) × (count ≤ 24) × (count % 2 ≡ 0) }
    requires shorter { IsSearchResult (value plane.now.0) (value plane.now.1) (λ w. length w < count) found.old.items }
    ensures { IfOk result (λ _. IsSearchResult (value plane.now.0) (value plane.now.1) (λ w. length w < count + 2) found.new.items) }
{
    'word: for word in words(alloc, count)? {
        let open = plane.shows(&word);
        if open {
            found.push(word)?;
        }
    }
    Ok(())
}
