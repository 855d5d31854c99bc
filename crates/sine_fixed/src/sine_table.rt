//! The sines of whole multiples of pi / 2^21, from two small tables.
//!
//! Such an angle, less whole turns, is a multiple of pi / 2^10 and fewer than 2^11 parts of pi / 2^21. The sine of the sum
//! is the sine of the one times the cosine of the other and the cosine of the one times the sine of the other.
ghost use Rattle.std.specs.Prelude.{◌≡◌, ◌-◌, ◌*◌, ◌^◌, ◌≤◌, pos, ◌+ℤ◌, ◌-ℤ◌, ◌*ℤ◌, unsigned_abs, IfOk};
ghost use Rattle.rat_core.specs.Fraction.{◌÷◌};
ghost use Rattle.exp_sums.specs.Limits.{IsNear};
ghost use Rattle.trig_meaning.specs.FromSomeOn.{FromSomeOn};
ghost use Rattle.trig_meaning.specs.Turn.{sine_of_turn};
ghost use Rattle.trig_meaning.specs.Value.{turn_of};
ghost use Rattle.directed_fixed.specs.Rounding.{IsFloor};
ghost use Rattle.directed_fixed.specs.Ends.{Encloses};
ghost use Rattle.sine_fixed.specs.SineTables.{AreMultiples, IsGridAngles, half_turn};

use crate::grid_angles::GridAngles;
use crate::sine_cosine::SineCosine;
use directed_fixed::Scale;
use exp_sums::Dir;
use std::alloc::{AllocError as OutOfMemory, Global};
use std::marker::Model;

/// So many parts of pi / 2^21 are a turn.
const TURN: i64 = 1 << 22;

/// So many steps of pi / 2^10 are a turn, and so many parts of pi / 2^21 are one step.
const STEPS: u32 = 1 << 11;

/// Each entry of a table is within 30 units of 2^-60. Four times as much, the law of addition and the products of two
/// errors come to less than this.
const ERROR: i128 = 121 << 60;

/// The sines and cosines of the steps of a turn, and of the parts of a step.
#[derive(Drop)]
pub struct SineTable {
    steps: Vec<SineCosine>,
    parts: Vec<SineCosine>,
}

impl Model for SineTable {
    ghost use Rattle.std.specs.Prelude.{◌^◌};
    ghost use Rattle.sine_fixed.specs.SineTables.{AreMultiples};

    ghost Value = { Unit {0} };

    ghost view = { λ _. tt };

    ghost invariant = { λ t. AreMultiples (2 ^ 10) (2 ^ 11) t.steps.items × AreMultiples (2 ^ 21) (2 ^ 11) t.parts.items };
}

impl SineTable {
    /// Makes the tables. Only this takes memory.
    pub fn new(alloc: Global) -> Result<SineTable, OutOfMemory> {
        let steps = multiples(alloc, 1 << 10)?;
        let parts = multiples(alloc, 1 << 21)?;
        Ok(SineTable { steps, parts })
    }

    /// A number for the sine of a direction at a triangle: at most the sine, and at most 256 units below it.
    pub fn low_sine<S: Scale>(&self, dir: Dir, at: &GridAngles) -> i128
        requires near { IsNear 4096 dir }
        requires angles { IsGridAngles at.now }
        ensures low { FromSomeOn (λ n. Encloses S.BITS (record { lo = result; hi = result +ℤ pos 256 })
            (sine_of_turn n (turn_of dir (pos at.now.first ÷ half_turn) (pos at.now.second ÷ half_turn)))) }
        ensures size { unsigned_abs result ≤ 2 ^ 62 }
    {
        self.low_of_parts::<S>(parts_of_turn(dir, at))
    }

    /// The same of an angle in parts of pi / 2^21.
    fn low_of_parts<S: Scale>(&self, parts: i64) -> i128
        requires { unsigned_abs parts ≤ 2 ^ 40 }
        ensures low { FromSomeOn (λ n. Encloses S.BITS (record { lo = result; hi = result +ℤ pos 256 }) (sine_of_turn n (parts ÷ half_turn))) }
        ensures size { unsigned_abs result ≤ 2 ^ 62 }
    {
        let place = parts.rem_euclid(TURN) as usize;
        let step = self.steps[place / STEPS as usize];
        let part = self.parts[place % STEPS as usize];
        low_of_sum::<S>(step, part)
    }
}

/// The sine of the sum of two angles less its error, in units of the scale, rounded down.
fn low_of_sum<S: Scale>(step: SineCosine, part: SineCosine) -> i128
    requires step_sine { unsigned_abs step.sine ≤ 2 ^ 61 }
    requires step_cosine { unsigned_abs step.cosine ≤ 2 ^ 61 }
    requires part_sine { unsigned_abs part.sine ≤ 2 ^ 61 }
    requires part_cosine { unsigned_abs part.cosine ≤ 2 ^ 61 }
    ensures { IsFloor result (step.sine *ℤ part.cosine +ℤ step.cosine *ℤ part.sine -ℤ pos (121 * 2 ^ 60)) (pos (2 ^ (120 - S.BITS))) }
{
    let sine = wide_product(step.sine, part.cosine) + wide_product(step.cosine, part.sine);
    (sine - ERROR) >> (120 - S::BITS)
}

/// `mx + ny` in parts of pi / 2^21, for the direction (m, n).
fn parts_of_turn(dir: Dir, at: &GridAngles) -> i64
    requires near { IsNear 4096 dir }
    requires angles { IsGridAngles at.now }
    ensures turn { result ÷ half_turn ≡ turn_of dir (pos at.now.first ÷ half_turn) (pos at.now.second ÷ half_turn) }
    ensures size { unsigned_abs result ≤ 2 ^ 40 }
{
    i64::from(dir.m) * i64::from(at.first) + i64::from(dir.n) * i64::from(at.second)
}

/// `a·b`, exactly.
fn wide_product(a: i64, b: i64) -> i128
    requires first { unsigned_abs a ≤ 2 ^ 61 }
    requires second { unsigned_abs b ≤ 2 ^ 61 }
    ensures is { result ≡ a *ℤ b }
    ensures size { unsigned_abs result ≤ 2 ^ 122 }
{
    i128::from(a) * i128::from(b)
}

/// The sines and the cosines of the multiples of pi / den.
fn multiples(alloc: Global, den: u32) -> Result<Vec<SineCosine>, OutOfMemory>
    requires positive { 1 ≤ den }
    requires denominator { den ≤ 2 ^ 21 }
    ensures { IfOk result (λ entries. AreMultiples den (2 ^ 11) entries.items) }
{
    let mut entries = Vec::new(alloc);
    for i in 0..STEPS {
        entries.push(SineCosine::of(i, den))?;
    }
    Ok(entries)
}
