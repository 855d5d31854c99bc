ghost use Rattle.std.specs.Prelude.{◌≡◌, ℕ, ◌+◌, ◌≤◌, ℤ, pos, ◌+ℤ◌};
ghost use Rattle.trig_meaning.specs.PartialSums.{pi_sum};
ghost use Rattle.trig_meaning.specs.FromSomeOn.{FromSomeOn};
ghost use Rattle.directed_fixed.specs.Ends.{Encloses};

/// How fractions are kept as whole numbers: in units of `2^-BITS`. Tests at a scale have two slacks, and
/// `2^-HIGH_BITS`, the wider one, is at least 4,096 of the narrower, which is at least one unit.
pub trait Scale: Copy {
    /// The number of bits after the point, from 30 to 60.
    const BITS: u32;

    /// Pi in units, rounded down.
    const PI_LO: i128;

    /// Pi in units, rounded up.
    const PI_HI: i128;

    /// The narrower slack of tests is `2^-LOW_BITS`.
    const LOW_BITS: u32;

    /// The wider slack of tests is `2^-HIGH_BITS`.
    const HIGH_BITS: u32;

    ghost BITS: { ℕ };

    ghost PI_LO: { ℤ };

    ghost PI_HI: { ℤ };

    ghost LOW_BITS: { ℕ };

    ghost HIGH_BITS: { ℕ };

    ghost bits_in_range: { (30 ≤ BITS) × (BITS ≤ 60) };

    ghost one_unit: { PI_HI ≡ PI_LO +ℤ pos 1 };

    // the partial sums of pi come to lie between PI_LO and PI_HI
    ghost pi_between: { FromSomeOn (λ n. Encloses BITS (record { lo = PI_LO; hi = PI_HI }) (pi_sum n)) };

    ghost slacks: { (HIGH_BITS + 12 ≤ LOW_BITS) × (LOW_BITS ≤ BITS) };
}
