//! What formal points mean, each law a function whose contract is the law. The program calls none of them.

ghost use Rattle.exp_sums.specs.Laws.{TermsAreCanonical, ListsAddUp, CoefficientsTellPointsApart, MonomialsHaveOneTerm, SumsAddCoefficients};
ghost use Rattle.exp_sums.specs.Laws.{NegativesNegateCoefficients, ProductsConvolve, ConjugatesNegateDirections, SineFormsSubtractConjugates};
ghost use Rattle.exp_sums.specs.Laws.{SineFormsAddUp, WeighingAddsUp, OtherDirectionsAreFree};

/// The terms of a formal point rise by their directions, and none has the coefficient 0.
pub fn terms_are_canonical()
    ensures { TermsAreCanonical }
{}

/// The formal point of a list of terms has, at each direction, the total of the list's coefficients there.
pub fn lists_add_up()
    ensures { ListsAddUp }
{}

/// Two formal points with the same coefficients are the same.
pub fn coefficients_tell_points_apart()
    ensures { CoefficientsTellPointsApart }
{}

/// A multiple of a direction has its coefficient at that direction, and 0 at every other.
pub fn monomials_have_one_term()
    ensures { MonomialsHaveOneTerm }
{}

/// The coefficients of a sum are the sums of the coefficients.
pub fn sums_add_coefficients()
    ensures { SumsAddCoefficients }
{}

/// The coefficients of a negative are the negatives of the coefficients.
pub fn negatives_negate_coefficients()
    ensures { NegativesNegateCoefficients }
{}

/// The coefficients of a product are the convolution of the coefficients.
pub fn products_convolve()
    ensures { ProductsConvolve }
{}

/// The coefficient of a conjugate at (m, n) is that at (−m, −n).
pub fn conjugates_negate_directions()
    ensures { ConjugatesNegateDirections }
{}

/// The coefficient of a sine form at (m, n) is that of the point at (m, n) less that at (−m, −n), where m > 0, or m = 0
/// and n > 0. It is 0 at every other direction.
pub fn sine_forms_subtract_conjugates()
    ensures { SineFormsSubtractConjugates }
{}

/// The sine form of a sum is the sum of the sine forms, and that of a difference their difference.
pub fn sine_forms_add_up()
    ensures { SineFormsAddUp }
{}

/// Sums over the terms of a point, of any function of the direction, are linear in the point.
pub fn weighing_adds_up()
    ensures { WeighingAddsUp }
{}

/// Two functions that agree at the directions of a point's terms have the same sum over them.
pub fn other_directions_are_free()
    ensures { OtherDirectionsAreFree }
{}
