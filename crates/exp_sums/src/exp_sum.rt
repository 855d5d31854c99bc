//! Finite sums of directions.
ghost use Rattle.std.specs.Prelude.{◌≡◌, ◌+◌, ◌*◌, ◌<◌, ◌≤◌, ◌↔◌, pos, length, IsOk, IsTrue, OnOk, OnErr, IfOk};
ghost use Rattle.exp_sums.specs.FormalPoint.{FormalPoint, formal_point_code, point_of, terms, coefficient, zero_point, monomial, ◌+ₚ◌, ◌-ₚ◌, ◌*ₚ◌, conj};
ghost use Rattle.exp_sums.specs.SineForm.{sine_form};
ghost use Rattle.exp_sums.specs.Reach.{reach};
ghost use Rattle.exp_sums.specs.Bend.{bend};
ghost use Rattle.exp_sums.specs.Products.{SumsAreNear};
ghost use Rattle.exp_sums.specs.Limits.{IsKept, IsWithinLimits, weight, greatest_weight};

use crate::conjugates::{put_all_conj, put_all_sines};
use crate::differences::sizes_of_difference;
use crate::direction::Dir;
use crate::products::put_products;
use crate::sizes::{Sizes, reach_of, weight_of};
use crate::terms::{Term, Terms, make_room, place_of, put, put_all, put_all_negated};
use smallvec::SmallVec;
use std::alloc::{AllocError as OutOfMemory, Global};
use std::marker::Model;

/// A finite sum of directions with whole coefficients, seen as a finite map from directions to whole numbers other
/// than 0.
///
/// Both numbers of each direction are from −4,096 to 4,096, and the absolute values of the coefficients add up to at
/// most 2^31. Each call that changes a sum has the condition that the result keeps these bounds.
#[derive(Drop)]
pub struct ExpSum {
    terms: Terms,
}

impl Model for ExpSum {
    ghost Value = { FormalPoint };

    ghost coded = { formal_point_code };

    ghost view = { λ s. point_of s.terms.items };

    ghost invariant = { λ s. IsKept s.terms.items };
}

impl ExpSum {
    /// The sum without terms. It takes no memory.
    pub fn new(alloc: Global) -> ExpSum
        ensures { result ≡ zero_point }
    {
        ExpSum {
            terms: SmallVec::new(alloc),
        }
    }

    /// The same sum once more.
    pub fn copied(&self, alloc: Global) -> Result<ExpSum, OutOfMemory>
        ensures { IfOk result (λ p. p ≡ self.now) }
    {
        Ok(ExpSum {
            terms: SmallVec::from_slice(alloc, &self.terms)?,
        })
    }

    /// Whether two sums are the same.
    pub fn is_same(&self, other: &ExpSum) -> bool
        ensures { IsTrue result ↔ (self.now ≡ other.now) }
    {
        self.terms() == other.terms()
    }

    /// The terms, by rising directions. None has the coefficient 0.
    pub fn terms(&self) -> &[Term]
        ensures all { result.now ≡ terms self.now }
        ensures within_limits { IsWithinLimits self.now }
    {
        self.terms.as_slice()
    }

    /// The coefficient of a direction, 0 where the sum has no such term.
    pub fn coefficient(&self, dir: Dir) -> i64
        ensures { result ≡ coefficient self.now dir }
    {
        match place_of(&self.terms, dir) {
            Ok(at) => self.terms[at].c,
            Err(_) => 0,
        }
    }

    /// Adds `c` times a direction. Without memory for one more term the sum stays as it was. Up to eight terms take none.
    pub fn add_dir(&mut self, dir: Dir, c: i64) -> Result<(), OutOfMemory>
        requires { IsWithinLimits (self.old +ₚ monomial c dir) }
        ensures ok { OnOk result (self.new ≡ self.old +ₚ monomial c dir) }
        ensures err { OnErr result (self.new ≡ self.old) }
        ensures inline { length (terms self.old) < 8 → IsOk result }
    {
        make_room(&mut self.terms)?;
        put(&mut self.terms, Term { dir, c });
        Ok(())
    }

    /// Adds another sum. Without memory for its terms the sum stays as it was.
    pub fn add(&mut self, other: &ExpSum) -> Result<(), OutOfMemory>
        requires { weight self.old + weight other.now ≤ greatest_weight }
        ensures ok { OnOk result (self.new ≡ self.old +ₚ other.now) }
        ensures err { OnErr result (self.new ≡ self.old) }
    {
        self.terms.reserve(other.terms.len())?;
        put_all(&mut self.terms, &other.terms);
        Ok(())
    }

    /// Subtracts another sum. Without memory for its terms the sum stays as it was.
    pub fn sub(&mut self, other: &ExpSum) -> Result<(), OutOfMemory>
        requires { weight self.old + weight other.now ≤ greatest_weight }
        ensures ok { OnOk result (self.new ≡ self.old -ₚ other.now) }
        ensures err { OnErr result (self.new ≡ self.old) }
    {
        self.terms.reserve(other.terms.len())?;
        put_all_negated(&mut self.terms, &other.terms);
        Ok(())
    }

    /// The conjugate, in which each direction (m, n) is (−m, −n).
    pub fn conj(&self, alloc: Global) -> Result<ExpSum, OutOfMemory>
        ensures { IfOk result (λ p. p ≡ conj self.now) }
    {
        let mut terms = SmallVec::new(alloc);
        terms.reserve(self.terms.len())?;
        put_all_conj(&mut terms, &self.terms);
        Ok(ExpSum { terms })
    }

    /// The product, in which directions add and coefficients multiply.
    pub fn times(&self, alloc: Global, other: &ExpSum) -> Result<ExpSum, OutOfMemory>
        requires light { weight self.now * weight other.now ≤ greatest_weight }
        requires near { SumsAreNear (terms self.now) (terms other.now) }
        ensures { IfOk result (λ p. p ≡ self.now *ₚ other.now) }
    {
        let mut terms = SmallVec::new(alloc);
        put_products(&mut terms, &self.terms, &other.terms)?;
        Ok(ExpSum { terms })
    }

    /// The sine form: at (m, n) with m > 0, or with m = 0 and n > 0, the coefficient there less that at (−m, −n), and 0
    /// at every other direction. A sum over an odd function, as the imaginary part, is that over the sine form.
    pub fn sine_form(&self, alloc: Global) -> Result<ExpSum, OutOfMemory>
        ensures { IfOk result (λ p. p ≡ sine_form self.now) }
    {
        let mut terms = SmallVec::new(alloc);
        terms.reserve(self.terms.len())?;
        put_all_sines(&mut terms, &self.terms);
        Ok(ExpSum { terms })
    }

    /// The weight, the sum of |c|. It is at most 2^31.
    pub fn weight(&self) -> i64
        ensures { result ≡ pos (weight self.now) }
    {
        weight_of(&self.terms)
    }

    /// The reach, the sum of |c|·(|m| + |n|). It is at most 2^44.
    pub fn reach(&self) -> i64
        ensures { result ≡ pos (reach self.now) }
    {
        reach_of(&self.terms)
    }
    /// Weight, reach and bend of the sum less another one, which takes no memory.
    pub fn sizes_of_difference(&self, other: &ExpSum) -> Sizes
        requires { weight self.now + weight other.now ≤ greatest_weight }
        ensures weight { result.weight ≡ weight (self.now -ₚ other.now) }
        ensures reach { result.reach ≡ reach (self.now -ₚ other.now) }
        ensures bend { result.bend ≡ bend (self.now -ₚ other.now) }
    {
        sizes_of_difference(&self.terms, &other.terms)
    }
}
