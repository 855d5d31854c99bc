//! The directions of a word's heights.
ghost use Rattle.std.specs.Prelude.{◌+◌, ◌≤◌, List, ◌++◌, length, IfOk, OnOk};
ghost use Rattle.std.specs.List.{All};
ghost use Rattle.exp_sums.specs.declared.terms.Term.{Term};
ghost use Rattle.exp_sums.specs.FormalPoint.{FormalPoint};
ghost use Rattle.exp_sums.specs.Limits.{IsNear, IsWithin, weight, greatest_weight};
ghost use Rattle.unfolding.specs.Shift.{IsShift, HasShift};
ghost use Rattle.gradient_bounds.specs.Table.{IsTableOf};
ghost use Rattle.gradient_bounds.specs.Kept.{IsSmallEntry, IsMarkOf, height_terms};

use crate::sine_low::SineLow;
use defining_functions::Functions;
use exp_sums::{ExpSum, Term};
use std::alloc::{AllocError as OutOfMemory, Global};

/// Takes in the directions of further terms, each with the coefficient 1.
fn add_directions(directions: &mut ExpSum, terms: &[Term]) -> Result<(), OutOfMemory>
    requires within { IsWithin 130 directions.old }
    requires near { All (λ t. IsNear 130 t.dir) terms.now }
    requires light { weight directions.old + length terms.now ≤ greatest_weight }
    ensures marks { OnOk result ((known : List Term) → IsMarkOf known directions.old → IsMarkOf (known ++ terms.now) directions.new) }
    ensures within { OnOk result (IsWithin 130 directions.new) }
    ensures light { OnOk result (weight directions.new ≤ weight directions.old + length terms.now) }
{
    for term in terms {
        if directions.coefficient(term.dir) == 0 {
            directions.add_dir(term.dir, 1)?;
        }
    }
    Ok(())
}

/// The sum of all directions of the terms of the word's heights.
fn directions_of(alloc: Global, functions: &Functions) -> Result<ExpSum, OutOfMemory>
    ensures marks { IfOk result (λ p. (v : FormalPoint) → IsShift functions.now v → IsMarkOf (height_terms v functions.now (length functions.now)) p) }
    ensures within { IfOk result (IsWithin 130) }
    ensures shift { HasShift functions.now }
{
    let mut directions = ExpSum::new(alloc);
    for i in 0..functions.letters() {
        add_directions(&mut directions, functions.upper_height(i + 1).terms())?;
        add_directions(&mut directions, functions.lower_height(i + 1).terms())?;
    }
    Ok(directions)
}

/// A table with the directions of the heights' terms, sorted, and no numbers yet.
pub fn blank_table(alloc: Global, functions: &Functions) -> Result<Vec<SineLow>, OutOfMemory>
    ensures directions { IfOk result (λ table. IsTableOf functions.now table.items) }
    ensures small { IfOk result (λ table. All IsSmallEntry table.items) }
{
    let directions = directions_of(alloc, functions)?;
    let mut table = Vec::new(alloc);
    for term in directions.terms() {
        table.push(SineLow {
            dir: term.dir,
            low: 0,
        })?;
    }
    Ok(table)
}
