//! Laws of the approximations, each a function whose contract is the law. The program calls none of them.

ghost use Rattle.trig_meaning.specs.Laws.{PiBetween, QuarterSums};
ghost use Rattle.trig_meaning.specs.Laws.{PiecesAgree, SineIsOdd, HalfTurnNegates, WholeTurnsKeep, SineIsLipschitz, Addition, SecondOrder};
ghost use Rattle.trig_meaning.specs.Laws.{ValuesAddUp, SineFormsAreSecondCoordinates, FirstCoordinatesAddUp, ConjugatesAreMirrored, CrossProducts};

/// From some n on, the approximation of pi lies between two neighbours of 60 bits, 0x3243F6A8885A308D·2^-60 and one unit of
/// 2^-60 more, and between two of 40 bits, 0x3243F6A8885·2^-40 and one unit of 2^-40 more.
pub fn pi_between()
    ensures { PiBetween }
{}

/// From some n on, the cosine sum at half of the approximation of pi is within 2^-72 of 0, and the sine sum there within 2^-72
/// of 1.
pub fn quarter_sums()
    ensures { QuarterSums }
{}

/// The four pieces of the approximation of sin(pi·t) agree where they meet, at t = 0, 1/2, 1 and 3/2, for every n.
pub fn pieces_agree()
    ensures { PiecesAgree }
{}

/// The approximation of sin(pi·t) is odd in t, for every n and every fraction t.
pub fn sine_is_odd()
    ensures { SineIsOdd }
{}

/// Half a turn more, which is t + 1, turns the sign of the approximation of sin(pi·t), for every n and every fraction t.
pub fn half_turn_negates()
    ensures { HalfTurnNegates }
{}

/// Whole turns keep the approximation of sin(pi·t): it is the same at t + 2k, for every n, every fraction t and every whole
/// number k.
pub fn whole_turns_keep()
    ensures { WholeTurnsKeep }
{}

/// From some n on, the approximation of sin(pi·t) has the approximation of pi as a Lipschitz constant: between any two
/// fractions it changes by at most that many times their distance. One n serves all fractions.
pub fn sine_is_lipschitz()
    ensures { SineIsLipschitz }
{}

/// The law of addition: from some n on, `s(t + 1/2)·s(u) - s(t)·s(u + 1/2)` is within 2^-66 of `s(u - t)` for any two
/// fractions t and u, where s is the approximation of sin(pi·t). One n serves all fractions.
pub fn addition()
    ensures { Addition }
{}

/// The law of second order: from some n on, the approximation of sin(pi·t) between t - h and t + h is within
/// `2·pi²·h² + 2^-50` of the straight line through its values at both ends, for any fraction t and 0 <= h <= 1/8, where pi is
/// the n-th approximation. One n serves all fractions.
pub fn second_order()
    ensures { SecondOrder }
{}

/// The value of a single term c·(m, n) at (x, y) is c·sin(pi·(mx + ny)), and the value of a sum is the sum of the values, for
/// every approximation. Every formal point is a sum of single terms.
pub fn values_add_up()
    ensures { ValuesAddUp }
{}

/// The value of the sine form of a formal point is the second coordinate of the point, for every approximation.
pub fn sine_forms_are_second_coordinates()
    ensures { SineFormsAreSecondCoordinates }
{}

/// The first coordinate of a single term c·(m, n) at (x, y) is c·sin(pi·(mx + ny + 1/2)), which is its second coordinate a
/// quarter turn further, and the first coordinate of a sum is the sum of the first coordinates, for every approximation.
pub fn first_coordinates_add_up()
    ensures { FirstCoordinatesAddUp }
{}

/// The conjugate of a formal point has the first coordinate of the point and the negative of its second coordinate, for every
/// approximation.
pub fn conjugates_are_mirrored()
    ensures { ConjugatesAreMirrored }
{}

/// The cross product of two formal points p and q, which is the first coordinate of p times the second of q less the second of
/// p times the first of q, is the second coordinate of the conjugate of p times q: from some n on it is so within 2^-66 times
/// both weights. One n serves all points and all (x, y).
pub fn cross_products()
    ensures { CrossProducts }
{}
