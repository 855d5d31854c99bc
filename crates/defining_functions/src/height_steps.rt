//! The steps from height to height along a word.
ghost use Rattle.std.specs.Prelude.{◌≡◌, ◌↔◌, ◌+◌, [], length, IfOk, OnOk, IsErrOf};
ghost use Rattle.edge_words.specs.Letters.{IsPlace};
ghost use Rattle.edge_words.specs.Word.{IsWord};
ghost use Rattle.exp_sums.specs.FormalPoint.{FormalPoint, conj};
ghost use Rattle.unfolding.specs.Shift.{IsShift, HasShift};
ghost use Rattle.defining_functions.specs.Kept.{IsSmall};
ghost use Rattle.defining_functions.specs.Steps.{AreSteps};
ghost use Rattle.defining_functions.specs.declared.fault.FunctionsFault.TheVariants.{NotTranslate};

use crate::chord::chord_of;
use crate::fault::FunctionsFault;
use crate::form::{form_of, place_of};
use crate::shared_end::shared_end;
use crate::step::Step;
use exp_sums::ExpSum;
use std::alloc::{AllocError as OutOfMemory, Global};
use unfolding::Unfolding;

/// How the heights of a word's corners follow from one another, over few forms.
#[derive(Drop)]
pub struct HeightSteps {
    /// The forms, each once.
    pub forms: Vec<ExpSum>,
    /// The step of each edge, from the first to the last.
    pub steps: Vec<Step>,
}

impl HeightSteps {
    /// The steps of an unfolding's word. Without a shift it is refused before memory is taken.
    pub fn of(alloc: Global, u: &Unfolding) -> Result<HeightSteps, FunctionsFault>
        ensures steps { IfOk result (λ s. AreSteps u.now (length u.now) s.forms.items s.steps.items) }
        ensures shift { IfOk result (λ _. HasShift u.now) }
        ensures not_translate { IsErrOf result NotTranslate ↔ ¬ (HasShift u.now) }
    {
        match u.shift() {
            Some(shift) => Ok(HeightSteps::along(alloc, u, shift)?),
            None => Err(FunctionsFault::NotTranslate),
        }
    }

    /// The steps of a word with a shift.
    fn along(alloc: Global, u: &Unfolding, shift: &ExpSum) -> Result<HeightSteps, OutOfMemory>
        requires { IsShift u.now shift.now }
        ensures { IfOk result (λ s. AreSteps u.now (length u.now) s.forms.items s.steps.items) }
    {
        let conjugate = shift.conj(alloc)?;
        let mut steps = HeightSteps::none(alloc);
        for i in 0..u.letters() {
            steps.add(alloc, u, &conjugate, i)?;
        }
        Ok(steps)
    }

    fn none(alloc: Global) -> HeightSteps
        ensures forms { result.forms.items ≡ [] }
        ensures steps { result.steps.items ≡ [] }
    {
        HeightSteps {
            forms: Vec::new(alloc),
            steps: Vec::new(alloc),
        }
    }

    /// Adds the step of the edge i + 1, where `conjugate` is the conjugate of the shift.
    fn add(
        &mut self,
        alloc: Global,
        u: &Unfolding,
        conjugate: &ExpSum,
        i: u32,
    ) -> Result<(), OutOfMemory>
        requires word { IsWord u.now }
        requires place { IsPlace u.now (i + 1) }
        requires small { IsSmall conjugate.now }
        requires conjugate { (v : FormalPoint) → IsShift u.now v → conjugate.now ≡ conj v }
        requires so_far { AreSteps u.now i self.old.forms.items self.old.steps.items }
        ensures { OnOk result (AreSteps u.now (i + 1) self.new.forms.items self.new.steps.items) }
    {
        let chord = chord_of(u, i + 1);
        let plus = form_of(alloc, conjugate, chord.plus)?;
        let plus = place_of(&mut self.forms, plus)?;
        let minus = form_of(alloc, conjugate, chord.minus)?;
        let minus = place_of(&mut self.forms, minus)?;
        let shared = shared_end(u, i);
        self.steps.push(Step {
            shared,
            plus,
            minus,
        })?;
        Ok(())
    }
}
