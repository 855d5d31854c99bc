//! The heights of the ends of the edges that a path crosses.
ghost use Rattle.std.specs.Prelude.{◌≡◌, ◌+◌, length, IfOk, OnOk};
ghost use Rattle.edge_words.specs.Letters.{IsPlace};
ghost use Rattle.edge_words.specs.Word.{IsWord};
ghost use Rattle.exp_sums.specs.FormalPoint.{◌+ₚ◌, ◌-ₚ◌};
ghost use Rattle.unfolding.specs.Shift.{HasShift};
ghost use Rattle.defining_functions.specs.Functions.{IsWithinFunctionLimits};
ghost use Rattle.defining_functions.specs.Kept.{IsSide, IsSideSoFar, IsUpperHeight, IsLowerHeight};
ghost use Rattle.defining_functions.specs.Steps.{AreSteps};

use crate::height_steps::HeightSteps;
use crate::shared_end::SharedEnd;
use crate::side::Side;
use exp_sums::ExpSum;
use std::alloc::{AllocError as OutOfMemory, Global};
use unfolding::Unfolding;

/// The heights of the corners on both sides of a path.
#[derive(Drop)]
pub struct Sides {
    pub uppers: Side,
    pub lowers: Side,
}

/// A height and the difference of two forms.
fn moved(
    alloc: Global,
    height: &ExpSum,
    plus: &ExpSum,
    minus: &ExpSum,
) -> Result<ExpSum, OutOfMemory>
    requires height { IsWithinFunctionLimits height.now }
    requires plus { IsWithinFunctionLimits plus.now }
    requires minus { IsWithinFunctionLimits minus.now }
    ensures { IfOk result (λ p. p ≡ height.now +ₚ (plus.now -ₚ minus.now)) }
{
    let mut moved = height.copied(alloc)?;
    moved.add(plus)?;
    moved.sub(minus)?;
    Ok(moved)
}

/// Adds the edge i + 1 with the height of its lower end. Where that is the end of the edge before, the height stands once.
/// Where the upper end is, the height follows from that end's by the edge's step. The first lower height is 0.
fn add_lower(
    lowers: &mut Side,
    uppers: &Side,
    alloc: Global,
    u: &Unfolding,
    steps: &HeightSteps,
    i: u32,
) -> Result<(), OutOfMemory>
    requires word { IsWord u.now }
    requires shift { HasShift u.now }
    requires place { IsPlace u.now (i + 1) }
    requires steps { AreSteps u.now (length u.now) steps.now.forms.items steps.now.steps.items }
    requires uppers { IsSideSoFar (IsUpperHeight u.now) i uppers.now.heights.items uppers.now.places.items }
    requires so_far { IsSideSoFar (IsLowerHeight u.now) i lowers.old.heights.items lowers.old.places.items }
    ensures { OnOk result (IsSideSoFar (IsLowerHeight u.now) (i + 1) lowers.new.heights.items lowers.new.places.items) }
{
    let step = steps.steps[i as usize];
    match step.shared {
        SharedEnd::Lower => lowers.push_again(),
        SharedEnd::Upper => {
            let plus = &steps.forms[step.plus];
            let minus = &steps.forms[step.minus];
            let height = moved(alloc, uppers.last(), minus, plus)?;
            lowers.push(height)
        }
        SharedEnd::Neither => lowers.push(ExpSum::new(alloc)),
    }
}

/// Adds the edge i + 1 with the height of its upper end, which follows from that of its lower end by the edge's step. Where the
/// upper end is that of the edge before, the height stands once.
fn add_upper(
    uppers: &mut Side,
    lowers: &Side,
    alloc: Global,
    u: &Unfolding,
    steps: &HeightSteps,
    i: u32,
) -> Result<(), OutOfMemory>
    requires word { IsWord u.now }
    requires shift { HasShift u.now }
    requires place { IsPlace u.now (i + 1) }
    requires steps { AreSteps u.now (length u.now) steps.now.forms.items steps.now.steps.items }
    requires lowers { IsSideSoFar (IsLowerHeight u.now) (i + 1) lowers.now.heights.items lowers.now.places.items }
    requires so_far { IsSideSoFar (IsUpperHeight u.now) i uppers.old.heights.items uppers.old.places.items }
    ensures { OnOk result (IsSideSoFar (IsUpperHeight u.now) (i + 1) uppers.new.heights.items uppers.new.places.items) }
{
    let step = steps.steps[i as usize];
    match step.shared {
        SharedEnd::Upper => uppers.push_again(),
        SharedEnd::Lower | SharedEnd::Neither => {
            let plus = &steps.forms[step.plus];
            let minus = &steps.forms[step.minus];
            let height = moved(alloc, lowers.last(), plus, minus)?;
            uppers.push(height)
        }
    }
}

/// The heights of the upper and the lower ends, from the first edge to the last, by the steps of the word.
pub fn sides_of(alloc: Global, u: &Unfolding, steps: &HeightSteps) -> Result<Sides, OutOfMemory>
    requires shift { HasShift u.now }
    requires steps { AreSteps u.now (length u.now) steps.now.forms.items steps.now.steps.items }
    ensures uppers { IfOk result (λ s. IsSide (IsUpperHeight u.now) (length u.now) s.uppers.heights.items s.uppers.places.items) }
    ensures lowers { IfOk result (λ s. IsSide (IsLowerHeight u.now) (length u.now) s.lowers.heights.items s.lowers.places.items) }
{
    let mut uppers = Side::new(alloc);
    let mut lowers = Side::new(alloc);
    for i in 0..u.letters() {
        add_lower(&mut lowers, &uppers, alloc, u, steps, i)?;
        add_upper(&mut uppers, &lowers, alloc, u, steps, i)?;
    }
    Ok(Sides { uppers, lowers })
}
