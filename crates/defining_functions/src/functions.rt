//! The defining functions of a word.
ghost use Rattle.std.specs.Prelude.{◌≡◌, ◌↔◌, ◌+◌, ◌*◌, ◌≤◌, ◌≤ℤ◌, pos, length, ℕ, IfOk, IfSome, IsErrOf};
ghost use Rattle.edge_words.specs.Letters.{IsPlace};
ghost use Rattle.edge_words.specs.Word.{IsWord};
ghost use Rattle.exp_sums.specs.FormalPoint.{FormalPoint};
ghost use Rattle.exp_sums.specs.Limits.{weight};
ghost use Rattle.exp_sums.specs.Reach.{reach};
ghost use Rattle.exp_sums.specs.Bend.{bend};
ghost use Rattle.unfolding.specs.Shift.{IsShift, HasShift};
ghost use Rattle.defining_functions.specs.Functions.{defining_function, IsWithinFunctionLimits};
ghost use Rattle.defining_functions.specs.Heights.{upper_height, lower_height};
ghost use Rattle.defining_functions.specs.Sizes.{sizes_of, AreAtMost, AreSmall};
ghost use Rattle.defining_functions.specs.AllHeights.{HaveAllHeights};
ghost use Rattle.defining_functions.specs.Steps.{AreSteps};
ghost use Rattle.defining_functions.specs.declared.fault.FunctionsFault.TheVariants.{NotTranslate};

use crate::fault::FunctionsFault;
use crate::first_edges::first_edges;
use crate::height_steps::HeightSteps;
use crate::side::Side;
use crate::sides::sides_of;
use crate::size_table::{SizeTable, size_table};
use edge_words::Word;
use exp_sums::{ExpSum, Sizes};
use std::alloc::{AllocError as OutOfMemory, Global};
use std::marker::Model;
use unfolding::Unfolding;

/// The defining functions of a word that has a shift, one for each upper and each lower corner of its unfolding.
///
/// Corners are counted from 1. Only `of`, `by_steps`, `function` and `keep_sizes` take memory.
#[derive(Drop)]
pub struct Functions {
    word: Word,
    /// The heights of the upper corners.
    uppers: Side,
    /// The heights of the lower corners.
    lowers: Side,
    /// One edge for each upper corner, and one for each lower one.
    upper_edges: Vec<u32>,
    lower_edges: Vec<u32>,
    /// The sizes of all functions, if they are kept.
    kept: Option<SizeTable>,
}

impl Model for Functions {
    ghost use Rattle.std.specs.Prelude.{List, ℕ};

    ghost Value = { List ℕ };

    ghost use Rattle.defining_functions.specs.Kept.{IsFunctions};

    ghost view = { λ f. f.word };

    ghost invariant = { λ f. IsFunctions f.word f.uppers.heights.items f.uppers.places.items f.lowers.heights.items f.lowers.places.items
        f.upper_edges.items f.lower_edges.items f.kept };
}

impl Functions {
    /// The functions of an unfolding's word. Without a shift it is refused before memory is taken.
    pub fn of(alloc: Global, u: &Unfolding) -> Result<Functions, FunctionsFault>
        ensures word { IfOk result (λ functions. functions ≡ u.now) }
        ensures shift { IfOk result (λ functions. HasShift functions) }
        ensures not_translate { IsErrOf result NotTranslate ↔ ¬ (HasShift u.now) }
    {
        let steps = HeightSteps::of(alloc, u)?;
        Ok(Functions::by_steps(alloc, u, &steps)?)
    }

    /// The functions of an unfolding's word, whose heights follow from one another by these steps.
    pub fn by_steps(
        alloc: Global,
        u: &Unfolding,
        steps: &HeightSteps,
    ) -> Result<Functions, OutOfMemory>
        requires shift { HasShift u.now }
        requires steps { AreSteps u.now (length u.now) steps.now.forms.items steps.now.steps.items }
        ensures { IfOk result (λ functions. functions ≡ u.now) }
    {
        let word = u.word().copied();
        let sides = sides_of(alloc, u, steps)?;
        let upper_edges = first_edges(alloc, &sides.uppers.places)?;
        let lower_edges = first_edges(alloc, &sides.lowers.places)?;
        Ok(Functions {
            word,
            uppers: sides.uppers,
            lowers: sides.lowers,
            upper_edges,
            lower_edges,
            kept: None,
        })
    }

    /// How many letters the word has.
    pub fn letters(&self) -> u32
        ensures count { result ≡ length self.now }
        ensures word { IsWord self.now }
        ensures shift { HasShift self.now }
    {
        self.word.letters().len() as u32
    }

    /// The function of the k-th upper and the l-th lower corner.
    pub fn function(&self, alloc: Global, k: u32, l: u32) -> Result<ExpSum, OutOfMemory>
        requires upper { IsPlace self.now k }
        requires lower { IsPlace self.now l }
        ensures shift { HasShift self.now }

        // with the one shift of the word
        ensures is { IfOk result (λ f. (v : FormalPoint) → IsShift self.now v → f ≡ defining_function v self.now k l) }
        ensures limits { IfOk result (λ f. IsWithinFunctionLimits f) }
    {
        let mut function = self.upper_height(k).copied(alloc)?;
        function.sub(self.lower_height(l))?;
        Ok(function)
    }

    /// The weight of that function, the sum of |c| over its terms.
    pub fn weight(&self, k: u32, l: u32) -> i64
        requires upper { IsPlace self.now k }
        requires lower { IsPlace self.now l }
        ensures shift { HasShift self.now }
        ensures is { (v : FormalPoint) → IsShift self.now v → result ≡ pos (weight (defining_function v self.now k l)) }
        ensures limit { result ≤ℤ pos 16384 }
    {
        self.sizes(k, l).weight as i64
    }

    /// The reach of that function, the sum of |c|·(|m| + |n|) over its terms.
    pub fn reach(&self, k: u32, l: u32) -> i64
        requires upper { IsPlace self.now k }
        requires lower { IsPlace self.now l }
        ensures shift { HasShift self.now }
        ensures is { (v : FormalPoint) → IsShift self.now v → result ≡ pos (reach (defining_function v self.now k l)) }
        ensures limit { result ≤ℤ pos 4259840 }
        ensures by_weight { (v : FormalPoint) → IsShift self.now v
            → reach (defining_function v self.now k l) ≤ 260 * weight (defining_function v self.now k l) }
    {
        self.sizes(k, l).reach as i64
    }

    /// The bend of that function, the sum of |c|·(m² + n²) over its terms.
    pub fn bend(&self, k: u32, l: u32) -> i64
        requires upper { IsPlace self.now k }
        requires lower { IsPlace self.now l }
        ensures shift { HasShift self.now }
        ensures is { (v : FormalPoint) → IsShift self.now v → result ≡ pos (bend (defining_function v self.now k l)) }
        ensures limit { result ≤ℤ pos 553779200 }
        ensures by_weight { (v : FormalPoint) → IsShift self.now v
            → bend (defining_function v self.now k l) ≤ 33800 * weight (defining_function v self.now k l) }
    {
        self.sizes(k, l).bend as i64
    }

    /// The height of the k-th upper corner, counted from the first lower one.
    pub fn upper_height(&self, k: u32) -> &ExpSum
        requires { IsPlace self.now k }
        ensures shift { HasShift self.now }
        ensures word { IsWord self.now }
        ensures is { (v : FormalPoint) → IsShift self.now v → result.now ≡ upper_height v self.now k }
        ensures limits { IsWithinFunctionLimits result.now }
    {
        &self.uppers.heights[self.uppers.places[k as usize - 1]]
    }

    /// The height of the l-th lower corner, counted from the first one.
    pub fn lower_height(&self, l: u32) -> &ExpSum
        requires { IsPlace self.now l }
        ensures shift { HasShift self.now }
        ensures word { IsWord self.now }
        ensures is { (v : FormalPoint) → IsShift self.now v → result.now ≡ lower_height v self.now l }
        ensures limits { IsWithinFunctionLimits result.now }
    {
        &self.lowers.heights[self.lowers.places[l as usize - 1]]
    }

    /// Weight, reach and bend of the function of the k-th upper and the l-th lower corner. Where they are not kept, they are
    /// made from the two heights.
    pub fn sizes(&self, k: u32, l: u32) -> Sizes
        requires upper { IsPlace self.now k }
        requires lower { IsPlace self.now l }
        ensures word { IsWord self.now }
        ensures shift { HasShift self.now }
        ensures is { (v : FormalPoint) → IsShift self.now v → result ≡ sizes_of (defining_function v self.now k l) }
        ensures small { AreSmall result }
    {
        let upper = self.uppers.places[k as usize - 1];
        let lower = self.lowers.places[l as usize - 1];
        match &self.kept {
            Some(table) => table.rows[upper].sizes[lower],
            None => self.uppers.heights[upper].sizes_of_difference(&self.lowers.heights[lower]),
        }
    }

    /// Makes the sizes of all functions and keeps them. What the calls answer stays the same, but `greatest_sizes`,
    /// `greatest_in_row` and `least_in_row` have an answer from then on.
    pub fn keep_sizes(&mut self, alloc: Global) -> Result<(), OutOfMemory>
        ensures { self.new ≡ self.old }
    {
        let table = size_table(alloc, &self.uppers.heights, &self.lowers.heights)?;
        self.kept = Some(table);
        Ok(())
    }

    /// The greatest weight, reach and bend of all functions, where the sizes are kept.
    pub fn greatest_sizes(&self) -> Option<Sizes>
        ensures word { IsWord self.now }
        ensures small { IfSome result (λ most. AreSmall most) }
        ensures greatest { IfSome result (λ most. (v : FormalPoint) (k l : ℕ) → IsShift self.now v → IsPlace self.now k → IsPlace self.now l
            → AreAtMost (sizes_of (defining_function v self.now k l)) most) }
    {
        match &self.kept {
            Some(table) => Some(table.greatest),
            None => None,
        }
    }

    /// The greatest weight, reach and bend of the functions of the k-th upper corner, where the sizes are kept.
    pub fn greatest_in_row(&self, k: u32) -> Option<Sizes>
        requires { IsPlace self.now k }
        ensures word { IsWord self.now }
        ensures small { IfSome result (λ most. AreSmall most) }
        ensures greatest { IfSome result (λ most. (v : FormalPoint) (l : ℕ) → IsShift self.now v → IsPlace self.now l
            → AreAtMost (sizes_of (defining_function v self.now k l)) most) }
    {
        let upper = self.uppers.places[k as usize - 1];
        match &self.kept {
            Some(table) => Some(table.rows[upper].greatest),
            None => None,
        }
    }

    /// The least weight, reach and bend of the functions of the k-th upper corner, where the sizes are kept.
    pub fn least_in_row(&self, k: u32) -> Option<Sizes>
        requires { IsPlace self.now k }
        ensures word { IsWord self.now }
        ensures small { IfSome result (λ least. AreSmall least) }
        ensures least { IfSome result (λ least. (v : FormalPoint) (l : ℕ) → IsShift self.now v → IsPlace self.now l
            → AreAtMost least (sizes_of (defining_function v self.now k l))) }
    {
        let upper = self.uppers.places[k as usize - 1];
        match &self.kept {
            Some(table) => Some(table.rows[upper].least),
            None => None,
        }
    }

    /// One edge for each upper corner, in the order of the edges.
    pub fn upper_edges(&self) -> &[u32]
        ensures shift { HasShift self.now }
        ensures heights { HaveAllHeights self.now upper_height result.now }
    {
        &self.upper_edges
    }

    /// One edge for each lower corner, in the order of the edges.
    pub fn lower_edges(&self) -> &[u32]
        ensures shift { HasShift self.now }
        ensures heights { HaveAllHeights self.now lower_height result.now }
    {
        &self.lower_edges
    }
}
