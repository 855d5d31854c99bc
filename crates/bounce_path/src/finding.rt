//! The search for the path of a word.
ghost use Rattle.std.specs.Prelude.{◌↔◌, ◌+◌, ◌^◌, ◌<◌, ◌≤◌, ℕ, List, length, IfOk, IsErrOf};
ghost use Rattle.std.specs.List.{All};
ghost use Rattle.rat_core.specs.Fraction.{ℚ, whole, ◌+ℚ◌, ◌<ℚ◌};
ghost use Rattle.rat_core.specs.Written.{value};
ghost use Rattle.edge_words.specs.Stable.{IsStable};
ghost use Rattle.edge_words.specs.Word.{IsWord};
ghost use Rattle.gradient_bounds.specs.Clear.{IsClearAtPoint};
ghost use Rattle.bounce_path.specs.declared.fault.PathFault.TheVariants.{Unstable, NotShown};
ghost use Rattle.bounce_path.specs.Path.{IsPath, room_for_path};
ghost use Rattle.bounce_path.specs.Crossings.{IsNearCrossing, IsWellInside, AreCrossings, IsBounceAt, AreBounces};

use crate::billiard_path::Path;
use crate::bounce::Bounce;
use crate::crossing::{Crossing, crossings};
use crate::fault::PathFault;
use crate::gap::gap_of;
use crate::shares::Shares;
use edge_words::Word;
use gradient_bounds::Prepared;
use pi_bounds::Fine;
use rat_core::Frac;
use std::alloc::{AllocError as OutOfMemory, Global};

/// The path of a word in the triangle (x, y), whose angles are in half turns.
///
/// A word that is not stable is refused before memory is taken. Where no room for a path is seen, the word is not clear in
/// the triangle with the slack 2^-20.
pub fn path(alloc: Global, word: &Word, x: Frac, y: Frac) -> Result<Path, PathFault>
    requires first { whole 0 <ℚ value x }
    requires second { whole 0 <ℚ value y }
    requires third { value x +ℚ value y <ℚ whole 1 }
    requires x_denominator { x.den ≤ 2 ^ 20 }
    requires y_denominator { y.den ≤ 2 ^ 20 }
    ensures path { IfOk result (IsPath word.now (value x) (value y)) }
    ensures not_shown { IsErrOf result NotShown → ¬ (IsClearAtPoint word.now (value x) (value y) room_for_path) }
    ensures unstable { IsErrOf result Unstable ↔ ¬ (IsStable word.now) }
{
    let mut prepared = Prepared::<Fine>::new(alloc, word)?;
    prepared.fill(x, y);
    let crossings = crossings(alloc, &prepared)?;
    path_over(alloc, &crossings)
}

// The path over the crossings of a stable word.
fn path_over(alloc: Global, crossings: &[Crossing]) -> Result<Path, PathFault>
    requires some { 0 < length crossings.now }
    requires near { All IsNearCrossing crossings.now }
    ensures path { (w : List ℕ) (x y : ℚ) → IsWord w → IsStable w → AreCrossings w x y crossings.now → IfOk result (IsPath w x y) }
    ensures not_shown { IsErrOf result NotShown → (w : List ℕ) (x y : ℚ) → AreCrossings w x y crossings.now → ¬ (IsClearAtPoint w x y room_for_path) }
    ensures stable { ¬ (IsErrOf result Unstable) }
{
    let Some(level) = gap_of(crossings).middle() else {
        return Err(PathFault::NotShown);
    };
    let bounces = bounces_at(alloc, level, crossings)?;
    Ok(Path::new(level, bounces))
}

// Where a path at this level meets the edges.
fn bounces_at(
    alloc: Global,
    level: i128,
    crossings: &[Crossing],
) -> Result<Vec<Bounce>, OutOfMemory>
    requires near { All IsNearCrossing crossings.now }
    requires inside { All (λ c. IsWellInside c level) crossings.now }
    ensures { IfOk result (λ bounces. AreBounces level crossings.now bounces.items) }
{
    let mut bounces = Vec::new(alloc);
    for (place, crossing) in crossings.iter().enumerate() {
        bounces.push(bounce_at(place, level, crossing))?;
    }
    Ok(bounces)
}

fn bounce_at(place: usize, level: i128, crossing: &Crossing) -> Bounce
    requires near { IsNearCrossing crossing.now }
    requires inside { IsWellInside crossing.now level }
    ensures { IsBounceAt level crossing.now (place + 1) result }
{
    Bounce::at(place, crossing.edge, Shares::of(crossing, level))
}
