ghost use Rattle.std.specs.Prelude.{pos, refl};
ghost use Rattle.std.proofs.Common.{lit≤};
ghost use Rattle.pi_bounds.specs.PiBetween.{fine_between, coarse_between};

use directed_fixed::Scale;

/// 60 bits, with the slacks `2^-60` and `2^-40`.
#[derive(Clone, Copy, Debug, PartialEq, Eq)]
pub struct Fine;

/// 40 bits, with the slacks `2^-40` and `2^-28`.
#[derive(Clone, Copy, Debug, PartialEq, Eq)]
pub struct Coarse;

impl Scale for Fine {
    const BITS: u32 = 60;

    const PI_LO: i128 = 0x3243F6A8885A308D;

    const PI_HI: i128 = 0x3243F6A8885A308E;

    const LOW_BITS: u32 = 60;

    const HIGH_BITS: u32 = 40;

    ghost BITS = { 60 };

    ghost PI_LO = { pos 0x3243F6A8885A308D };

    ghost PI_HI = { pos 0x3243F6A8885A308E };

    ghost LOW_BITS = { 60 };

    ghost HIGH_BITS = { 40 };

    ghost bits_in_range = { (lit≤ tt, lit≤ tt) };

    ghost one_unit = { refl };

    ghost pi_between = { fine_between };

    ghost slacks = { (lit≤ tt, lit≤ tt) };
}

impl Scale for Coarse {
    const BITS: u32 = 40;

    const PI_LO: i128 = 0x3243F6A8885;

    const PI_HI: i128 = 0x3243F6A8886;

    const LOW_BITS: u32 = 40;

    const HIGH_BITS: u32 = 28;

    ghost BITS = { 40 };

    ghost PI_LO = { pos 0x3243F6A8885 };

    ghost PI_HI = { pos 0x3243F6A8886 };

    ghost LOW_BITS = { 40 };

    ghost HIGH_BITS = { 28 };

    ghost bits_in_range = { (lit≤ tt, lit≤ tt) };

    ghost one_unit = { refl };

    ghost pi_between = { coarse_between };

    ghost slacks = { (lit≤ tt, lit≤ tt) };
}

#[cfg(test)]
mod tests {
    use super::*;
    use directed_fixed::Interval;

    #[test]
    fn exact_ends(rt: HostRuntime) {
        let x = Interval::<Coarse>::new(-3, 5);
        let y = Interval::<Coarse>::new(2, 7);
        assert_eq!(rt; x.add(y), Interval::new(-1, 12));
        assert_eq!(rt; x.sub(y), Interval::new(-10, 3));
        assert_eq!(rt; x.scale(-2), Interval::new(-10, 6));
        assert_eq!(rt; x.scale(2), Interval::new(-6, 10));
    }

    // 2^40 units are 1
    #[test]
    fn rounded_ends(rt: HostRuntime) {
        let x = Interval::<Coarse>::new(-3298534883329, 5497558138879);
        let y = Interval::<Coarse>::new(2, 7);
        assert_eq!(rt; x.times(y), Interval::new(-22, 35));
        assert_eq!(rt; y.times(x), Interval::new(-22, 35));
        assert_eq!(rt;
            Interval::<Fine>::new(-7, 7).div_int(2),
            Interval::new(-4, 4)
        );
    }
}
