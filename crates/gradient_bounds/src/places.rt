//! Where the directions of forms stand in the table.
ghost use Rattle.std.specs.Prelude.{◌≤◌, IfOk, MatchOption};
ghost use Rattle.exp_sums.specs.Limits.{terms_weight};
ghost use Rattle.defining_functions.specs.Kept.{AreWithinLimits};
ghost use Rattle.gradient_bounds.specs.HeightSums.{IsPlaceOf, IsAbsent, IsRowOf, AreRowsOf, dirs_of};

use crate::placed_term::PlacedTerm;
use crate::sine_low::SineLow;
use exp_sums::{Dir, ExpSum, Term};
use std::alloc::{AllocError as OutOfMemory, Global};

/// For each form, its terms by their places in the table.
#[derive(Drop)]
pub struct Places {
    pub rows: Vec<Vec<PlacedTerm>>,
}

impl Places {
    /// Those of the forms.
    pub fn of(alloc: Global, forms: &[ExpSum], table: &[SineLow]) -> Result<Places, OutOfMemory>
        requires { AreWithinLimits forms.now }
        ensures { IfOk result (λ p. AreRowsOf (dirs_of table.now) forms.now p.rows.items) }
    {
        let mut rows = Vec::new(alloc);
        for form in forms {
            let row = row_of(alloc, form.terms(), table)?;
            rows.push(row)?;
        }
        Ok(Places { rows })
    }
}

/// The terms by their places. Those whose direction the table has not are left out: its number for them is 0.
fn row_of(alloc: Global, terms: &[Term], table: &[SineLow]) -> Result<Vec<PlacedTerm>, OutOfMemory>
    requires { terms_weight terms.now ≤ 16384 }
    ensures { IfOk result (λ row. IsRowOf (dirs_of table.now) terms.now row.items) }
{
    let mut row = Vec::new(alloc);
    for term in terms {
        if let Some(place) = place_of(table, term.dir) {
            row.push(PlacedTerm { place, c: term.c })?;
        }
    }
    Ok(row)
}

/// Where the direction stands, if it does.
fn place_of(table: &[SineLow], dir: Dir) -> Option<usize>
    ensures { MatchOption result (IsAbsent (dirs_of table.now) dir) (IsPlaceOf (dirs_of table.now) dir) }
{
    for (i, entry) in table.iter().enumerate() {
        if entry.dir == dir {
            return Some(i);
        }
    }
    None
}
