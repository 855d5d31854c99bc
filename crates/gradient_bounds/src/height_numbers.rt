//! The numbers of heights by a table of sines.
ghost use Rattle.std.specs.Prelude.{◌≡◌, ◌+◌, ◌*◌, ◌^◌, ◌<◌, ◌≤◌, List, length, IfOk, unsigned_abs};
ghost use Rattle.std.specs.List.{All};
ghost use Rattle.ring_solver.specs.Whole.{ℤ_ring, ℤ_image};
ghost use Rattle.edge_words.specs.Letters.{IsPlace};
ghost use Rattle.edge_words.specs.Word.{IsWord};
ghost use Rattle.exp_sums.specs.FormalPoint.{FormalPoint};
ghost use Rattle.exp_sums.specs.Limits.{terms_weight};
ghost use Rattle.exp_sums.specs.Weigh.{weigh_terms};
ghost use Rattle.unfolding.specs.Shift.{HasShift};
ghost use Rattle.defining_functions.specs.Heights.{lower_height};
ghost use Rattle.defining_functions.specs.Kept.{AreWithinLimits};
ghost use Rattle.defining_functions.specs.Steps.{SharesEnd, AreSteps};
ghost use Rattle.gradient_bounds.specs.HeightNumbers.{AreFormNumbers, IsWayNumber, AreEndNumbers};
ghost use Rattle.gradient_bounds.specs.HeightSums.{AreRowsOf, dirs_of, dir_at, terms_at};
ghost use Rattle.gradient_bounds.specs.Table.{IsRising, low_in};
ghost use Rattle.gradient_bounds.specs.Kept.{IsSmallEntry, IsNumberOf, AreUppers, AreLowers};

use crate::end_numbers::EndNumbers;
use crate::placed_term::PlacedTerm;
use crate::places::Places;
use crate::sine_low::SineLow;
use defining_functions::{Functions, SharedEnd, Step};
use exp_sums::{Dir, ExpSum, Term};
use std::alloc::{AllocError as OutOfMemory, Global};

/// The number of the table's entry for a direction, 0 where there is none.
fn low_of(table: &[SineLow], dir: Dir) -> i128
    ensures { result ≡ low_in table.now dir }
{
    for entry in table {
        if entry.dir == dir {
            return entry.low;
        }
    }
    0
}

/// The number of the entry at a place.
fn low_at(table: &[SineLow], place: usize) -> i64
    requires rising { IsRising table.now }
    requires small { All IsSmallEntry table.now }
    requires place { place < length table.now }
    ensures { result ≡ low_in table.now (dir_at (dirs_of table.now) place) }
{
    table[place].low as i64
}

/// The sum, over the terms, of the coefficient times the table's number of the direction.
fn number_of(terms: &[Term], table: &[SineLow]) -> i128
    requires light { terms_weight terms.now ≤ 16384 }
    requires small { All IsSmallEntry table.now }
    ensures is { result ≡ weigh_terms ℤ_ring ℤ_image (low_in table.now) terms.now }
    ensures size { unsigned_abs result ≤ 2 ^ 76 }
{
    let mut total = 0;
    for term in terms {
        total += i128::from(term.c) * low_of(table, term.dir);
    }
    total
}

/// The same, where the terms are given by their places in the table.
fn number_at(row: &[PlacedTerm], table: &[SineLow]) -> i128
    requires rising { IsRising table.now }
    requires small { All IsSmallEntry table.now }
    requires placed { All (λ p. p.place < length table.now) row.now }
    requires light { terms_weight (terms_at (dirs_of table.now) row.now) ≤ 16384 }
    ensures is { result ≡ weigh_terms ℤ_ring ℤ_image (low_in table.now) (terms_at (dirs_of table.now) row.now) }
    ensures size { unsigned_abs result ≤ 2 ^ 76 }
{
    let mut total = 0;
    for term in row {
        total += i128::from(term.c) * i128::from(low_at(table, term.place));
    }
    total
}

/// Computes the numbers of forms, where their terms are given by their places in the table.
pub fn number_forms(numbers: &mut [i128], forms: &[ExpSum], places: &Places, table: &[SineLow])
    requires rising { IsRising table.now }
    requires small { All IsSmallEntry table.now }
    requires limits { AreWithinLimits forms.now }
    requires places { AreRowsOf (dirs_of table.now) forms.now places.now.rows.items }
    requires count { length numbers.old ≡ length forms.now }
    ensures { AreFormNumbers table.now forms.now numbers.new }
{
    for i in 0..forms.len() {
        numbers[i] = number_at(&places.rows[i], table);
    }
}

/// The number of the lower height of the edge i + 1, where `way` is what the upper one has more: by the end that it
/// shares with the edge before, or else by its own terms.
fn lower_number(
    functions: &Functions,
    table: &[SineLow],
    i: u32,
    shared: SharedEnd,
    before: EndNumbers,
    way: i128,
) -> i128
    requires word { IsWord functions.now }
    requires shift { HasShift functions.now }
    requires place { IsPlace functions.now (i + 1) }
    requires rising { IsRising table.now }
    requires small { All IsSmallEntry table.now }
    requires shared { SharesEnd functions.now i shared }
    requires before { 0 < i → AreEndNumbers functions.now table.now i before }
    requires before_small { unsigned_abs before.upper ≤ 2 ^ 76 }
    requires way { IsWayNumber functions.now table.now i way }
    ensures { IsNumberOf functions.now table.now (λ v. lower_height v functions.now (i + 1)) result }
{
    match shared {
        SharedEnd::Lower => before.lower,
        SharedEnd::Upper => before.upper - way,
        SharedEnd::Neither => number_of(functions.lower_height(i + 1).terms(), table),
    }
}

/// The numbers of the heights of the edge i + 1, from those of the edge i, where `way` is what the upper height has more
/// than the lower one.
fn next_ends(
    functions: &Functions,
    table: &[SineLow],
    i: u32,
    shared: SharedEnd,
    before: EndNumbers,
    way: i128,
) -> EndNumbers
    requires word { IsWord functions.now }
    requires shift { HasShift functions.now }
    requires place { IsPlace functions.now (i + 1) }
    requires rising { IsRising table.now }
    requires small { All IsSmallEntry table.now }
    requires shared { SharesEnd functions.now i shared }
    requires before { 0 < i → AreEndNumbers functions.now table.now i before }
    requires before_small { unsigned_abs before.upper ≤ 2 ^ 76 }
    requires way { IsWayNumber functions.now table.now i way }
    ensures { AreEndNumbers functions.now table.now (i + 1) result }
{
    let lower = lower_number(functions, table, i, shared, before, way);
    EndNumbers {
        upper: lower + way,
        lower,
    }
}

/// Computes the numbers of the heights, from the first edge to the last, by the numbers of the forms.
pub fn number_heights(
    uppers: &mut [i128],
    lowers: &mut [i128],
    functions: &Functions,
    steps: &[Step],
    forms: &[i128],
    table: &[SineLow],
)
    requires rising { IsRising table.now }
    requires small { All IsSmallEntry table.now }
    requires steps { (points : List FormalPoint) × AreSteps functions.now (length functions.now) points steps.now × AreFormNumbers table.now points forms.now }
    requires uppers { length uppers.old ≡ length functions.now }
    requires lowers { length lowers.old ≡ length functions.now }
    ensures uppers { AreUppers functions.now table.now uppers.new }
    ensures lowers { AreLowers functions.now table.now lowers.new }
{
    let mut ends = EndNumbers { upper: 0, lower: 0 };
    for i in 0..functions.letters() {
        let step = steps[i as usize];
        let way = forms[step.plus] - forms[step.minus];
        ends = next_ends(functions, table, i, step.shared, ends, way);
        uppers[i as usize] = ends.upper;
        lowers[i as usize] = ends.lower;
    }
}

/// Room for `count` numbers.
pub fn zeros(alloc: Global, count: usize) -> Result<Vec<i128>, OutOfMemory>
    ensures { IfOk result (λ numbers. length numbers.items ≡ count) }
{
    let mut numbers = Vec::new(alloc);
    for _ in 0..count {
        numbers.push(0)?;
    }
    Ok(numbers)
}
