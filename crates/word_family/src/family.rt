//! Families of words.
ghost use Rattle.std.specs.Prelude.{◌≡◌, ◌↔◌, ◌⊎◌, ℕ, ◌*◌, ◌+◌, ◌<◌, ◌≤◌, length, IsTrue, IfOk, IfSome, IsErrOf, IsNone};
ghost use Rattle.word_family.specs.Family.{Parts, member, AreEven, IsFamily, IsStableFamily, AreShiftsOf};
ghost use Rattle.word_family.specs.Reading.{Reads};
ghost use Rattle.word_family.specs.declared.fault.ShiftsFault.TheVariants.{Unstable};

use crate::fault::{FamilyFault, ShiftsFault};
use crate::letters::{Letters, joined, letters_of_member};
use crate::part::Part;
use crate::shifts::Shifts;
use edge_words::{MAX_LETTERS, Word, first_repeat, is_stable};
use std::alloc::{AllocError as OutOfMemory, Global};
use std::marker::Model;
use unfolding::centre_after;

/// All words a bⁿ c. The parts lie inline.
#[derive(Drop)]
pub struct Family {
    first: Part,
    middle: Part,
    last: Part,
}

impl Model for Family {
    ghost use Rattle.word_family.specs.Family.{Parts, IsFamily};

    ghost Value = { Parts };

    ghost view = { λ f. record { first = f.first; middle = f.middle; last = f.last } };

    ghost invariant = { λ f. IsFamily (record { first = f.first; middle = f.middle; last = f.last }) };
}

impl Family {
    /// Reads the digits of the three parts. A part that is none is refused before an odd length, and that before equal
    /// neighbours. It takes no memory.
    pub fn read(a: &[u8], b: &[u8], c: &[u8]) -> Result<Family, FamilyFault>
        ensures { Reads a.now b.now c.now result }
    {
        let Some(first) = Part::read(a) else {
            return Err(FamilyFault::Part { which: 1 });
        };
        let Some(middle) = Part::read_middle(b) else {
            return Err(FamilyFault::Part { which: 2 });
        };
        let Some(last) = Part::read(c) else {
            return Err(FamilyFault::Part { which: 3 });
        };
        if !are_even(first.letters(), middle.letters(), last.letters()) {
            return Err(FamilyFault::Odd);
        }
        let twice = letters_of_member(first.letters(), middle.letters(), last.letters(), 2);
        match first_repeat(&twice) {
            Some(_) => Err(FamilyFault::Neighbours),
            None => Ok(Family {
                first,
                middle,
                last,
            }),
        }
    }

    /// Whether every member a bⁿ c with n ≥ 1 is stable by counts: where b is, and a c. It takes no memory.
    pub fn is_stable(&self) -> bool
        ensures { IsTrue result ↔ IsStableFamily self.now }
    {
        is_stable(self.middle.letters()) && is_stable(&self.letters_of(0))
    }

    /// The member a bⁿ c, where it has from 6 to `MAX_LETTERS` letters. It takes no memory.
    pub fn word(&self, alloc: Global, n: u32) -> Option<Word>
        requires { (1 ≤ n) × (n ≤ 64) }
        ensures word { IfSome result (λ word. word ≡ member self.now n) }
        ensures none { IsNone result ↔ (length (member self.now n) < 6) ⊎ (64 < length (member self.now n)) }
    {
        let count = self.first.letters().len()
            + n as usize * self.middle.letters().len()
            + self.last.letters().len();
        if count < 6 || count > MAX_LETTERS {
            return None;
        }
        Some(Word::from_letters(alloc, &self.letters_of(n)))
    }

    /// The shifts of all members. A family that is not stable is refused before memory is taken.
    pub fn shifts(&self, alloc: Global) -> Result<Shifts, ShiftsFault>
        ensures unstable { IsErrOf result Unstable ↔ ¬ (IsStableFamily self.now) }
        ensures shifts { IfOk result (λ shifts. AreShiftsOf self.now shifts.base shifts.step) }
    {
        if !self.is_stable() {
            return Err(ShiftsFault::Unstable);
        }
        match self.stable_shifts(alloc) {
            Ok(shifts) => Ok(shifts),
            Err(OutOfMemory) => Err(ShiftsFault::Memory),
        }
    }

    // The shift of a c, and the way that b moves the triangle after a.
    fn stable_shifts(&self, alloc: Global) -> Result<Shifts, OutOfMemory>
        requires { IsStableFamily self.now }
        ensures { IfOk result (λ shifts. AreShiftsOf self.now shifts.base shifts.step) }
    {
        let before = centre_after(alloc, self.first.letters())?;
        let base = centre_after(alloc, &self.letters_of(0))?;
        let mut step = centre_after(alloc, &joined(self.first.letters(), self.middle.letters()))?;
        step.sub(&before)?;
        Ok(Shifts { base, step })
    }

    // The letters of a bⁿ c.
    fn letters_of(&self, n: u32) -> Letters
        requires { length (member self.now n) ≤ MAX_LETTERS }
        ensures member { result.items ≡ member self.now n }
        ensures family { IsFamily self.now }
    {
        letters_of_member(
            self.first.letters(),
            self.middle.letters(),
            self.last.letters(),
            n,
        )
    }
}

// Whether the middle part has an even number of letters, and the two others together have.
fn are_even(first: &[u8], middle: &[u8], last: &[u8]) -> bool
    requires { length first.now + length last.now ≤ 64 }
    ensures { IsTrue result ↔ AreEven (record { first = first.now; middle = middle.now; last = last.now }) }
{
    middle.len() % 2 == 0 && (first.len() + last.len()) % 2 == 0
}
