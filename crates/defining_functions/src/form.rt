//! Forms, and lists in which each stands once.
ghost use Rattle.std.specs.Prelude.{◌≡◌, pos, IfOk, IfSome};
ghost use Rattle.exp_sums.specs.FormalPoint.{monomial, ◌*ₚ◌};
ghost use Rattle.exp_sums.specs.Limits.{IsNear};
ghost use Rattle.exp_sums.specs.SineForm.{sine_form};
ghost use Rattle.defining_functions.specs.Functions.{IsWithinFunctionLimits};
ghost use Rattle.defining_functions.specs.Kept.{IsSmall, AreWithinLimits, StandsAt};
ghost use Rattle.defining_functions.specs.Chords.{Continues};

use exp_sums::{Dir, ExpSum};
use std::alloc::{AllocError as OutOfMemory, Global};

/// The sine form of the shift's conjugate times a direction.
pub fn form_of(alloc: Global, conjugate: &ExpSum, dir: Dir) -> Result<ExpSum, OutOfMemory>
    requires conjugate { IsSmall conjugate.now }
    requires near { IsNear 65 dir }
    ensures is { IfOk result (λ f. f ≡ sine_form (conjugate.now *ₚ monomial (pos 1) dir)) }
    ensures limits { IfOk result IsWithinFunctionLimits }
{
    let mut way = ExpSum::new(alloc);
    way.add_dir(dir, 1)?;
    let product = conjugate.times(alloc, &way)?;
    product.sine_form(alloc)
}

fn find(forms: &[ExpSum], form: &ExpSum) -> Option<usize>
    ensures { IfSome result (λ i. StandsAt (λ p. p ≡ form.now) forms.now i) }
{
    for (i, known) in forms.iter().enumerate() {
        if known.is_same(form) {
            return Some(i);
        }
    }
    None
}

/// Where a form stands. It is added where it does not stand yet.
pub fn place_of(forms: &mut Vec<ExpSum>, form: ExpSum) -> Result<usize, OutOfMemory>
    requires { IsWithinFunctionLimits form }
    ensures place { IfOk result (λ i. StandsAt (λ p. p ≡ form) forms.new.items i) }
    ensures kept { IfOk result (λ _. Continues forms.old.items forms.new.items) }
    ensures limits { IfOk result (λ _. AreWithinLimits forms.old.items → AreWithinLimits forms.new.items) }
{
    if let Some(place) = find(forms, &form) {
        return Ok(place);
    }
    let place = forms.len();
    forms.push(form)?;
    Ok(place)
}
