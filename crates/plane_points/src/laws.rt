//! A law of spots, a function whose contract is the law. The program calls none of them.
ghost use Rattle.plane_points.specs.Laws.{SpotsCross};

/// Of two spots of formal points the cross product is the value of the sine form of the one's conjugate times the other, within
/// 2^-44 for each unit of both weights.
pub fn spots_cross()
    ensures { SpotsCross }
{}
