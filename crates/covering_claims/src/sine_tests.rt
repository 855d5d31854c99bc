//! The sines at both scales against the values of another program.

use directed_fixed::Scale;
use pi_bounds::{Coarse, Fine};
use sine_fixed::{Reduced, sine, turn};

const MIDDLE: i128 = 1_000_003;

const LARGE: i128 = (1 << 41) + 1;

// num, den, and sin(pi·num/den) in units of 2^-60, rounded down, as mpmath has it with 400 bits.
const SINES: [(i128, i128, i128); 37] = [
    (0, 7, 0),
    (1, 7, 500_233_893_327_859_776),
    (2, 7, 901_390_329_116_042_629),
    (3, 7, 1_124_015_355_395_880_049),
    (-1, 7, -500_233_893_327_859_777),
    (-3, 7, -1_124_015_355_395_880_050),
    (5, 7, 901_390_329_116_042_629),
    (10, 7, -1_124_015_355_395_880_050),
    (1, 12, 298_398_042_900_505_626),
    (2, 12, 576_460_752_303_423_488),
    (1, 6, 576_460_752_303_423_488),
    (5, 12, 1_113_636_656_983_804_514),
    (6, 12, 1_152_921_504_606_846_976),
    (-5, 12, -1_113_636_656_983_804_515),
    (7, 12, 1_113_636_656_983_804_514),
    (11, 12, 298_398_042_900_505_626),
    (13, 12, -298_398_042_900_505_627),
    (19, 12, -1_113_636_656_983_804_515),
    (23, 12, -298_398_042_900_505_627),
    (1, MIDDLE, 3_621_998_863_036),
    (-1, MIDDLE, -3_621_998_863_037),
    (499_999, MIDDLE, 1_152_921_504_571_288_191),
    (500_001, MIDDLE, 1_152_921_504_605_424_624),
    (500_002, MIDDLE, 1_152_921_504_605_424_624),
    (750_001, MIDDLE, 815_241_815_501_959_799),
    (-2_000_007, MIDDLE, -3_621_998_863_037),
    (1_000_002, MIDDLE, 3_621_998_863_036),
    (1_234_567, MIDDLE, -774_759_962_024_511_118),
    (1, LARGE, 1_647_099),
    (-1, LARGE, -1_647_100),
    (1_099_511_627_776, LARGE, 1_152_921_504_606_846_975),
    (1_099_511_627_777, LARGE, 1_152_921_504_606_846_975),
    (1_099_511_627_775, LARGE, 1_152_921_504_606_846_975),
    (3_298_534_883_328, LARGE, -1_152_921_504_606_846_976),
    (2_199_023_255_552, LARGE, 1_647_099),
    (2_199_023_255_554, LARGE, -1_647_100),
    (123_456_789_012, LARGE, 202_292_958_773_820_317),
];

// Whether the sine holds all from `below` to `below + 1` units, and is at most 256 units wide.
fn holds<S: Scale>(t: Reduced, below: i128) -> bool {
    let sine = sine::<S>(t);
    sine.lo() <= below && below < sine.hi() && sine.hi() - sine.lo() <= 256
}

#[test]
fn sines_hold_the_values_of_another_program(rt: HostRuntime) {
    for (num, den, below) in SINES {
        assert!(rt; -(1 << 52) <= num && num <= 1 << 52 && 1 <= den && den <= 1 << 42);
        let t = turn(num, den);
        assert!(rt; holds::<Fine>(t, below));
        assert!(rt; holds::<Coarse>(t, below >> 20));
    }
}

// The sine of a twelfth of a turn is 1/2.
#[test]
fn a_half(rt: HostRuntime) {
    assert!(rt; holds::<Fine>(turn(1, 6), 1 << 59));
    assert!(rt; holds::<Coarse>(turn(1, 6), 1 << 39));
}
