//! What the numbers of a word's heights are made from.
ghost use Rattle.std.specs.Prelude.{◌≡◌, List, ℕ, length, IfOk};
ghost use Rattle.std.specs.List.{All};
ghost use Rattle.defining_functions.specs.Kept.{AreWithinLimits};
ghost use Rattle.defining_functions.specs.Steps.{AreSteps};
ghost use Rattle.gradient_bounds.specs.HeightSums.{IsHeightSums, dirs_of};
ghost use Rattle.gradient_bounds.specs.Table.{IsRising};
ghost use Rattle.gradient_bounds.specs.Kept.{IsSmallEntry, AreUppers, AreLowers};

use crate::height_numbers::{number_forms, number_heights, zeros};
use crate::places::Places;
use crate::sine_low::SineLow;
use defining_functions::{Functions, HeightSteps};
use std::alloc::{AllocError as OutOfMemory, Global};

/// The steps between a word's heights, with room for the numbers of their forms. Only `of` takes memory.
#[derive(Drop)]
pub struct HeightSums {
    pub steps: HeightSteps,
    /// The terms of the forms, by their places in the table.
    pub places: Places,
    /// The numbers of the forms, by the table that was used last.
    pub numbers: Vec<i128>,
}

impl HeightSums {
    /// Those with these steps, for tables with the directions of this one.
    pub fn of(
        alloc: Global,
        steps: HeightSteps,
        table: &[SineLow],
    ) -> Result<HeightSums, OutOfMemory>
        requires { AreWithinLimits steps.forms.items }
        ensures { IfOk result (λ s. (w : List ℕ) → AreSteps w (length w) steps.forms.items steps.steps.items → IsHeightSums w (dirs_of table.now) s) }
    {
        let places = Places::of(alloc, &steps.forms, table)?;
        let numbers = zeros(alloc, steps.forms.len())?;
        Ok(HeightSums {
            steps,
            places,
            numbers,
        })
    }

    /// Computes the numbers of the upper and the lower heights by a table, each form once.
    pub fn number(
        &mut self,
        uppers: &mut [i128],
        lowers: &mut [i128],
        functions: &Functions,
        table: &[SineLow],
    )
        requires sums { IsHeightSums functions.now (dirs_of table.now) self.old }
        requires rising { IsRising table.now }
        requires small { All IsSmallEntry table.now }
        requires uppers { length uppers.old ≡ length functions.now }
        requires lowers { length lowers.old ≡ length functions.now }
        ensures sums { IsHeightSums functions.now (dirs_of table.now) self.new }
        ensures uppers { AreUppers functions.now table.now uppers.new }
        ensures lowers { AreLowers functions.now table.now lowers.new }
    {
        number_forms(&mut self.numbers, &self.steps.forms, &self.places, table);
        number_heights(
            uppers,
            lowers,
            functions,
            &self.steps.steps,
            &self.numbers,
            table,
        );
    }
}
