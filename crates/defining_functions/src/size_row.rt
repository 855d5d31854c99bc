//! The sizes of one height less each of others.
ghost use Rattle.std.specs.Prelude.{IfOk};
ghost use Rattle.defining_functions.specs.Functions.{IsWithinFunctionLimits};
ghost use Rattle.defining_functions.specs.Kept.{AreWithinLimits, IsSizeRow};
ghost use Rattle.defining_functions.specs.Sizes.{AreAtMost, AreSmall};

use exp_sums::{ExpSum, Sizes};
use std::alloc::{AllocError as OutOfMemory, Global};

/// The sizes of the differences of one height and others.
#[derive(Drop)]
pub struct SizeRow {
    pub sizes: Vec<Sizes>,
    /// The greatest weight, reach and bend of the row.
    pub greatest: Sizes,
    /// The least weight, reach and bend of the row.
    pub least: Sizes,
}

/// The sizes of nothing, which are at most all others.
pub fn no_sizes() -> Sizes
    ensures { AreSmall result }
{
    Sizes {
        weight: 0,
        reach: 0,
        bend: 0,
    }
}

/// Sizes that are at least those of each difference of two heights.
fn largest_sizes() -> Sizes
    ensures { AreSmall result }
{
    Sizes {
        weight: 32768,
        reach: 8_519_680,
        bend: 1_107_558_400,
    }
}

/// The greater weight, reach and bend of two.
pub fn greater_sizes(first: Sizes, second: Sizes) -> Sizes
    requires first { AreSmall first }
    requires second { AreSmall second }
    ensures first { AreAtMost first result }
    ensures second { AreAtMost second result }
    ensures small { AreSmall result }
{
    Sizes {
        weight: first.weight.max(second.weight),
        reach: first.reach.max(second.reach),
        bend: first.bend.max(second.bend),
    }
}

/// The lesser weight, reach and bend of two.
fn lesser_sizes(first: Sizes, second: Sizes) -> Sizes
    requires { AreSmall first }
    ensures first { AreAtMost result first }
    ensures second { AreAtMost result second }
    ensures small { AreSmall result }
{
    Sizes {
        weight: first.weight.min(second.weight),
        reach: first.reach.min(second.reach),
        bend: first.bend.min(second.bend),
    }
}

/// The sizes of a height less each of others.
pub fn size_row(alloc: Global, upper: &ExpSum, lowers: &[ExpSum]) -> Result<SizeRow, OutOfMemory>
    requires upper { IsWithinFunctionLimits upper.now }
    requires lowers { AreWithinLimits lowers.now }
    ensures { IfOk result (λ row. IsSizeRow upper.now lowers.now row) }
{
    let mut sizes = Vec::new(alloc);
    let mut greatest = no_sizes();
    let mut least = largest_sizes();
    for lower in lowers {
        let next = upper.sizes_of_difference(lower);
        greatest = greater_sizes(greatest, next);
        least = lesser_sizes(least, next);
        sizes.push(next)?;
    }
    Ok(SizeRow {
        sizes,
        greatest,
        least,
    })
}
