//! A stable word that is ready for tests.
ghost use Rattle.std.specs.Prelude.{◌≡◌, ◌↔◌, ◌^◌, ◌≤◌, Some, None, IsTrue, IsSome, IfSome, IfOk, IsErrOf};
ghost use Rattle.std.specs.List.{All};
ghost use Rattle.rat_core.specs.Fraction.{whole, ◌≤ℚ◌};
ghost use Rattle.rat_core.specs.Written.{value};
ghost use Rattle.edge_words.specs.Letters.{IsPlace};
ghost use Rattle.edge_words.specs.Stable.{IsStable};
ghost use Rattle.edge_words.specs.Word.{IsWord};
ghost use Rattle.exp_sums.specs.FormalPoint.{FormalPoint};
ghost use Rattle.trig_meaning.specs.FromSomeOn.{FromSomeOn};
ghost use Rattle.trig_meaning.specs.Value.{value_at};
ghost use Rattle.unfolding.specs.Shift.{IsShift, HasShift};
ghost use Rattle.directed_fixed.specs.Ends.{Encloses};
ghost use Rattle.defining_functions.specs.Functions.{defining_function};
ghost use Rattle.defining_functions.specs.Heights.{upper_height, lower_height};
ghost use Rattle.gradient_bounds.specs.Corridor.{EachFunction};
ghost use Rattle.gradient_bounds.specs.Decision.{IsThreshold, threshold_by};
ghost use Rattle.gradient_bounds.specs.Table.{IsTableOf, IsLowAt, bounds_in, LowerEndIsAtLeast};
ghost use Rattle.gradient_bounds.specs.declared.fault.PrepareFault.TheVariants.{Unstable};

mod testing;

use crate::bounds::around;
use crate::decision::each_reaches;
use crate::directions::blank_table;
use crate::fault::PrepareFault;
use crate::height_numbers::zeros;
use crate::height_sums::HeightSums;
use crate::sine_low::SineLow;
use crate::table::fill;
use crate::threshold::Threshold;
use defining_functions::{Functions, HeightSteps};
use directed_fixed::{Interval, Scale};
use edge_words::Word;
use rat_core::Frac;
use sine_fixed::SineTable;
use std::alloc::{AllocError as OutOfMemory, Global};
use std::marker::{Model, PhantomData};
use std::rc::Rc;
use unfolding::Unfolding;

/// A stable word with its functions and a table of sines, for tests at the scale `S`.
///
/// Only `new`, `keep_sizes` and `keep_sizes_beside` take memory.
#[derive(Drop)]
pub struct Prepared<S: Scale> {
    word: Word,
    functions: Functions,
    /// Where the table was filled last.
    point: Option<(Frac, Frac)>,
    table: Vec<SineLow>,
    /// What the table is filled from at the centres of boxes, if it is kept. Other words may have the same.
    sine_table: Option<Rc<SineTable>>,
    /// What the numbers of the heights are made from.
    sums: HeightSums,
    /// The numbers of the upper heights by the table, for each edge.
    uppers: Vec<i128>,
    /// The numbers of the lower heights.
    lowers: Vec<i128>,
    /// How many sines were computed.
    sines: u64,
    scale: PhantomData<S>,
}

impl<S: Scale> Model for Prepared<S> {
    ghost use Rattle.gradient_bounds.specs.Table.{PreparedWord};

    ghost Value = { PreparedWord };

    ghost use Rattle.gradient_bounds.specs.Kept.{IsPrepared};

    ghost view = { λ p. record { word = p.word; point = p.point; table = p.table.items } };

    ghost invariant = { λ p. IsPrepared S.BITS p.word p.functions p.sums p.point p.table.items p.uppers.items p.lowers.items };
}

impl<S: Scale> Prepared<S> {
    /// Makes the functions of a word, and a table that is not filled yet. A word that is not stable is refused before
    /// memory is taken.
    pub fn new(alloc: Global, word: &Word) -> Result<Prepared<S>, PrepareFault>
        ensures word { IfOk result (λ prepared. prepared.word ≡ word.now) }
        ensures point { IfOk result (λ prepared. prepared.point ≡ None) }
        ensures stable { IfOk result (λ prepared. IsStable prepared.word) }
        ensures unstable { IsErrOf result Unstable ↔ ¬ (IsStable word.now) }
    {
        if !word.is_stable() {
            return Err(PrepareFault::Unstable);
        }
        let unfolding = Unfolding::of(alloc, word)?;
        let steps = HeightSteps::of(alloc, &unfolding)?;
        let functions = Functions::by_steps(alloc, &unfolding, &steps)?;
        let table = blank_table(alloc, &functions)?;
        let mut sums = HeightSums::of(alloc, steps, &table)?;
        let mut uppers = zeros(alloc, functions.letters() as usize)?;
        let mut lowers = zeros(alloc, functions.letters() as usize)?;
        sums.number(&mut uppers, &mut lowers, &functions, &table);
        Ok(Prepared {
            word: word.copied(),
            functions,
            point: None,
            table,
            sine_table: None,
            sums,
            uppers,
            lowers,
            sines: 0,
            scale: PhantomData,
        })
    }

    /// Makes the sizes of all functions, and tables of sines, and keeps them. Nothing else changes, but from then on tests look
    /// up the sizes, and at the centres of boxes the sines are made from the tables: for a word that is tested on many boxes.
    pub fn keep_sizes(&mut self, alloc: Global) -> Result<(), OutOfMemory>
        ensures { self.new ≡ self.old }
    {
        let sines = Rc::new(alloc, SineTable::new(alloc)?)?;
        self.keep_sizes_beside(alloc, sines)
    }

    /// The same with tables of sines that are there already: many words share one pair.
    pub fn keep_sizes_beside(
        &mut self,
        alloc: Global,
        sines: Rc<SineTable>,
    ) -> Result<(), OutOfMemory>
        ensures { self.new ≡ self.old }
    {
        self.functions.keep_sizes(alloc)?;
        self.sine_table = Some(sines);
        Ok(())
    }

    /// The word.
    pub fn word(&self) -> &Word
        ensures word { result.now ≡ self.now.word }
        ensures stable { IsStable self.now.word }
    {
        &self.word
    }

    /// The functions of the word.
    pub fn functions(&self) -> &Functions
        ensures { result.now ≡ self.now.word }
    {
        &self.functions
    }

    /// Fills the table at (x, y).
    pub fn fill(&mut self, x: Frac, y: Frac)
        requires x_least { whole 0 ≤ℚ value x }
        requires x_most { value x ≤ℚ whole 1 }
        requires y_least { whole 0 ≤ℚ value y }
        requires y_most { value y ≤ℚ whole 1 }
        requires x_denominator { x.den ≤ 2 ^ 21 }
        requires y_denominator { y.den ≤ 2 ^ 21 }
        ensures word { self.new.word ≡ self.old.word }
        ensures point { self.new.point ≡ Some (x, y) }
    {
        fill::<S>(&mut self.table, self.sine_table.as_deref(), x, y);
        self.sines = self.sines.saturating_add(self.table.len() as u64);
        self.sums.number(
            &mut self.uppers,
            &mut self.lowers,
            &self.functions,
            &self.table,
        );
        self.point = Some((x, y));
    }

    /// The point at which the table was filled last, if it was.
    pub fn point(&self) -> Option<(Frac, Frac)>
        ensures { result ≡ self.now.point }
    {
        self.point
    }

    /// The table: the directions of the heights' terms, by rising m and then n, with numbers for their sines at the point.
    pub fn table(&self) -> &[SineLow]
        requires { IsSome self.now.point }
        ensures table { result.now ≡ self.now.table }
        ensures directions { IsTableOf self.now.word result.now }
        ensures lows { IfSome self.now.point (λ p. All (IsLowAt S.BITS (value p.0) (value p.1)) result.now) }
    {
        &self.table
    }

    /// What the function of the k-th upper and the l-th lower corner lies in at the point: its number by the table, less
    /// and more 256 units for each unit of the function's weight.
    pub fn bounds(&self, k: u32, l: u32) -> Interval<S>
        requires filled { IsSome self.now.point }
        requires upper { IsPlace self.now.word k }
        requires lower { IsPlace self.now.word l }
        ensures shift { HasShift self.now.word }

        // with the one shift of the word
        ensures ends { (v : FormalPoint) → IsShift self.now.word v → result ≡ bounds_in self.now.table (defining_function v self.now.word k l) }
        ensures holds { IfSome self.now.point (λ p. (v : FormalPoint) → IsShift self.now.word v
            → FromSomeOn (λ n. Encloses S.BITS result (value_at n (defining_function v self.now.word k l) (value p.0) (value p.1)))) }
    {
        around::<S>(
            self.uppers[k as usize - 1] - self.lowers[l as usize - 1],
            self.functions.weight(k, l),
        )
    }

    /// What the height of the k-th upper corner lies in at the point.
    pub fn upper_bounds(&self, k: u32) -> Interval<S>
        requires filled { IsSome self.now.point }
        requires place { IsPlace self.now.word k }
        ensures shift { HasShift self.now.word }
        ensures ends { (v : FormalPoint) → IsShift self.now.word v → result ≡ bounds_in self.now.table (upper_height v self.now.word k) }
        ensures holds { IfSome self.now.point (λ p. (v : FormalPoint) → IsShift self.now.word v
            → FromSomeOn (λ n. Encloses S.BITS result (value_at n (upper_height v self.now.word k) (value p.0) (value p.1)))) }
    {
        around::<S>(
            self.uppers[k as usize - 1],
            self.functions.upper_height(k).weight(),
        )
    }

    /// What the height of the l-th lower corner lies in at the point.
    pub fn lower_bounds(&self, l: u32) -> Interval<S>
        requires filled { IsSome self.now.point }
        requires place { IsPlace self.now.word l }
        ensures shift { HasShift self.now.word }
        ensures ends { (v : FormalPoint) → IsShift self.now.word v → result ≡ bounds_in self.now.table (lower_height v self.now.word l) }
        ensures holds { IfSome self.now.point (λ p. (v : FormalPoint) → IsShift self.now.word v
            → FromSomeOn (λ n. Encloses S.BITS result (value_at n (lower_height v self.now.word l) (value p.0) (value p.1)))) }
    {
        around::<S>(
            self.lowers[l as usize - 1],
            self.functions.lower_height(l).weight(),
        )
    }

    /// How many sines were computed since `new`. At its last value the number stands.
    pub fn sines(&self) -> u64 {
        self.sines
    }

    /// Whether each function is seen to reach a threshold at the point where the table was filled last: whether the lower end
    /// of its bounds does.
    pub fn each_reaches(&self, threshold: &Threshold) -> bool
        requires filled { IsSome self.now.point }
        requires threshold { IsThreshold threshold.now }
        ensures word { IsWord self.now.word }
        ensures decided { IsTrue result ↔ EachFunction self.now.word (LowerEndIsAtLeast (threshold_by threshold.now) self.now.table) }
        ensures holds { IfSome self.now.point (λ p. EachFunction self.now.word (λ f.
            FromSomeOn (λ n. Encloses S.BITS (bounds_in self.now.table f) (value_at n f (value p.0) (value p.1))))) }
    {
        each_reaches(&self.functions, &self.uppers, &self.lowers, threshold)
    }
}
